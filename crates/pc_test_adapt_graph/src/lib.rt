//! Tests of the crates of fused adapters, on graphs that are built by hand.
//!
//! What a clause says isn't tested again: here are one small graph that is grouped and planned, and graphs and modules
//! of many adapters, which could take long.
#![tactic(auto)]

#[cfg(test)]
mod definitions;
#[cfg(test)]
mod graphs;
#[cfg(test)]
mod groups;
#[cfg(test)]
mod modules;
#[cfg(test)]
mod partitions;
#[cfg(test)]
mod plans;
#[cfg(test)]
mod sides;
#[cfg(test)]
mod support;
#[cfg(test)]
mod typed;
