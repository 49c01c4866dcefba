//! The imports of a root: before its items are read, the host gives something for each.
//!
//! The resources that an import leads to become known first, since its type is converted with them. In the graph they
//! stand behind the import, as their paths lead from it: so their numbers are given out before they are there.
#![tactic(auto)]

mod bring;
mod entity;
mod imports;
mod learn;
mod trim;

pub use imports::prepare;
