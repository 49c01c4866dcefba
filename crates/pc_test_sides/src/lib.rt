//! Tests of `pc_weights`, of `pc_inline_names`, and of `pc_partition` on many imports.
//!
//! What a clause says isn't tested again: here are numbers worked by hand from the definitions, so that memory is there
//! and each call returns, and the inputs on which a call could take long.
#![tactic(auto)]

#[cfg(test)]
mod names;
#[cfg(test)]
mod partitions;
#[cfg(test)]
mod programs;
#[cfg(test)]
mod support;
#[cfg(test)]
mod tables;
#[cfg(test)]
mod weights;
