//! Tests of `pc_analysis_transparent` and `pc_analysis_contexts`, on graphs that are built by hand.
//!
//! Each graph of the former has one adapter that is asked for, and one thing beside it that makes the lifting component
//! instance opaque, or that doesn't though it is near to what does. The one of the latter has a few core instances.
#![tactic(auto)]

#[cfg(test)]
mod additions;
#[cfg(test)]
mod answers;
#[cfg(test)]
mod contexts;
#[cfg(test)]
mod cores;
#[cfg(test)]
mod parts;
#[cfg(test)]
mod support;
