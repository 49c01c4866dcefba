//! What a component instance of the host has: at a place, and under a name.
//!
//! Kinds and types of members are those of the types builder; their names, and the entries of instance types and module
//! types, are those of the type table, at the same place.
#![tactic(auto)]

mod exports;
mod member;

pub use exports::{host_export, host_member};
pub use member::HostMember;
