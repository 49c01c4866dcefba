//! Tests of the walks of `pc_types_walk`, and of `pc_types_register`.
//!
//! What a clause says isn't tested again: here are one walk that is read, and the tables on which a walk could take
//! long.
#![tactic(auto)]

#[cfg(test)]
mod registers;
#[cfg(test)]
mod shapes;
#[cfg(test)]
mod support;
#[cfg(test)]
mod walks;
