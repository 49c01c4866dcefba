//! Tests of the paths of `pc_inline_paths`.
//!
//! What a clause says isn't tested again: here are a path that is written out, and paths that could take long.
#![tactic(auto)]

#[cfg(test)]
mod paths;
#[cfg(test)]
mod support;
