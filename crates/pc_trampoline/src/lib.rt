//! The trampolines of graphs and plans, which are taken apart and put together here alone.
//!
//! A trampoline is one of 52 kinds with numbers, types and options. What asks for all of them, as the view and the
//! symbol, goes by the parts, so that no other place has a case for each kind.
#![tactic(auto)]

mod builtin;
mod equal;
mod exact;
mod helper;
mod one_part;
mod part;
mod plan;
mod put_together;
mod stem;
mod symbol;
mod take_apart;
mod trampoline;
mod transcode;
mod two_parts;

pub use part::{Head, Mark, Part, PartList, Parts};
pub use plan::{PlanPart, PlanParts, PlanTrampoline};
pub use trampoline::Trampoline;
pub use transcode::{FixedEncoding, Transcode, Trap};
