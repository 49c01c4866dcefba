//! Canonical functions: lifts and lowers, with their options.
//!
//! An option names a core item of the component instance, and an entry of options in the graph holds the slots of those
//! that are written. A lift is kept until something exports or lowers it; the lowering of a host function is a trampoline
//! at once, that of a lifted function is an adapter, and that of an unsafe intrinsic is the intrinsic itself.
#![tactic(auto)]

mod adapters;
mod callee;
mod functions;
mod intrinsics;
mod lower;
mod options;
mod slots;

pub use functions::{step_lift, step_lower};
pub use intrinsics::add_intrinsic;
pub use lower::use_host;
pub use options::options_in;
pub use slots::options_entry;
