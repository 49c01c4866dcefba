//! Resources: how they become known to a component instance, and those that it declares.
//!
//! A number of the type table stands for a resource once that is known: by the argument of an import, by what a child
//! exports, or since it is declared. A type that leads to the number is another type then. So a frame that has
//! converted types begins anew, and notes what the number stood for, for its caller's sake.
#![tactic(auto)]

mod arguments;
mod declare;
mod known;
mod walked;

pub use arguments::{return_resources, take_resources};
pub use declare::step_resource;
pub use known::{make_known, register};
