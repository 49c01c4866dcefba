//! From the graph of a component to its plan.
//!
//! The side effects of the graph become steps in their order, and what they need is made right before the first of them
//! that needs it: slots, lowerings, instances of adapter modules. The exports come last; the types of the handed-in
//! modules among them are given by the caller.
//! It stands on `pc_dfg` for the graph and on `pc_info` for the plan.
#![tactic(auto)]

mod arguments;
mod effects;
mod exports;
mod module_types;
mod plan;
mod translation;

pub use module_types::ModuleTypes;
pub use pc_dfg_linearize::FinishError;
pub use plan::finish;
