//! Tests of the generated input of `pc_generate`.
//!
//! What a clause says isn't tested again: here are a short chain that is read, the longest one, and a few words.
#![tactic(auto)]

#[cfg(test)]
mod chains;
#[cfg(test)]
mod items;
#[cfg(test)]
mod support;
#[cfg(test)]
mod tables;
#[cfg(test)]
mod words;
