//! Core modules and core instances: a module, an instance of a module, an instance from items, an alias.
//!
//! A module is one that was handed in, whose items go by index, or one of the host, whose items go by name and whose
//! arguments stand under the names that its type imports.
#![tactic(auto)]

mod aliases;
mod arguments;
mod bags;
mod grouped;
mod instances;
mod modules;

pub use aliases::step_core_alias;
pub use bags::step_core_exports;
pub use instances::step_core_instance;
pub use modules::{ModuleSource, step_module};
