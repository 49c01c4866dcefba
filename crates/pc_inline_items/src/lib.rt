//! The items of a component, one step for each: all kinds but the instantiation of a component.
//!
//! A step reads one item in the frame of its component instance, as the nested reading reads it.
#![tactic(auto)]

mod components;
mod hosts;
mod imports;
mod instances;
mod intrinsics;
mod item;
mod made;
mod members;
mod source;

pub use item::step;
pub use made::add_instance;
pub use members::{are_there, are_typed, argument_values, export_members};
