//! What a component instance is while it is read: the frame of its items, and the tables that all component instances
//! share.
//!
//! No value is copied: core items, definitions, closures and what instances export stand in tables that only grow, and
//! whatever names one of them holds its number. Here are the tables, the frame, and what several kinds of items ask of
//! them: types, core modules and core items.
#![tactic(auto)]

mod adapters;
mod closure;
mod context;
mod core_item;
mod core_modules;
mod definition;
mod entity_items;
mod error;
mod frame;
mod host_items;
mod instance_module;
mod lookup;
mod numbers;
mod places;
mod state;
mod types;
mod widths;

pub use adapters::{AdapterKey, Adapters};
pub use closure::Closure;
pub use context::Context;
pub use core_item::CoreItem;
pub use core_modules::CoreModules;
pub use definition::{ClosureId, CoreId, DataModel, Definition, DefinitionId, ExportsId, Options};
pub use entity_items::{EntityItems, InstanceEntity};
pub use error::{ItemError, ItemFault, error_at};
pub use frame::{Change, CoreInstance, Frame};
pub use host_items::{HostExport, HostItems};
pub use instance_module::InstanceModule;
pub use lookup::at;
pub use numbers::Numbers;
pub use places::Places;
pub use state::{Member, State};
pub use types::{is_func_type, is_instance_type, is_module_type};
