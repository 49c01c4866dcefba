//! The resources of an entity become known in a types builder, each as a caller's function finds it at its path.
//! It stands on `pc_types_walk`, which finds the paths, and on `pc_types_lists`, which has what is known.
#![tactic(auto)]

pub mod path;
pub mod register;

pub use register::{WalkError, register_entity};
