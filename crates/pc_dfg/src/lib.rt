//! The graph of a component: what it defines, in lists whose entries name each other by number, with its side effects
//! in order.
//!
//! A graph stands between the reading of a component and its plan. Nothing in it says when a slot is filled or an
//! options entry is made, so later passes may add to it; only instances and resources have an order, by the list of
//! side effects. So the numbers in it are ids of its own, which say where an entry stands in its list, and equal
//! entries of most lists share one. It stands on `pc_info` for what a core instance's item is known by.
#![tactic(auto)]

pub mod adapter;
pub mod core_def;
pub mod dfg;
pub mod export;
pub mod ids;
pub mod instance;
pub mod instantiations;
mod intern;
mod intern_iter;
pub mod laws;
mod listed;
pub mod options;
mod push;
mod push_error;
pub mod trampoline;

pub use adapter::{Adapter, AdapterOptions, DataModel};
pub use core_def::{CoreDef, CoreExport};
pub use dfg::ComponentDfg;
pub use export::Export;
pub use ids::{
    AdapterId, AdapterModuleId, CallbackId, InstanceId, MemoryId, OptionsId, PostReturnId,
    ReallocId, TableId,
};
pub use instance::{Instance, Resource, SideEffect};
pub use instantiations::AbstractInstantiations;
pub use intern::Intern;
pub use intern_iter::InternIter;
pub use options::{CanonicalOptions, CanonicalOptionsDataModel, FutureInfo, StreamInfo};
pub use pc_info::ExportItem;
pub use push_error::PushError;
pub use trampoline::Trampoline;
