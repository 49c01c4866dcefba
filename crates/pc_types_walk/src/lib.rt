//! Walks of a type table from an entity to the resources that it leads to, through the exports of instance types.
//! A table goes in, and out come places, each one export further than an earlier one, and the resources that stand
//! there.
//! It stands on `pc_types`; what the walk has to find is said by `pc_spec_reading`.
#![tactic(auto)]

pub mod leads;
pub mod walk;

pub use leads::Leads;
pub use walk::{Found, Place, Walk};
