//! Modules of adapters: what one imports, defines and exports, and that the modules of a graph are grouped.
//!
//! A module of adapters imports what its adapters need, those of one adapter after those of another, and shares nothing
//! between them. It defines and exports one function for each adapter. So its record is put together adapter by
//! adapter, and the exports come last, since the functions that are imported have the first numbers.
#![tactic(auto)]

pub mod entities;
pub mod laws;
pub mod module;
pub mod names;

pub use entities::entities_of;
pub use module::ModuleParts;
pub use names::ModuleNames;
