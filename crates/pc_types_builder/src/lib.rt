//! The types builder: entries of a type table in, numbers of interned types out, one number for equal types.
//! It stands on `pc_types`, `pc_types_lists` and `pc_types_convert`.
#![tactic(auto)]

pub mod builder;
mod convert;
pub mod converted;
pub mod pre_inlining;
mod readers;
mod steps;

pub use builder::ComponentTypesBuilder;
pub use converted::Converted;
pub use pc_types_lists::ResourcesBuilder;
pub use pre_inlining::PreInliningComponentTypes;
