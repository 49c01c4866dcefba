//! The layout of the context that a runtime makes for a plan: where each of its arrays begins, and its size.
//!
//! A context is a list of fields, each in its turn at the next place that suits its alignment. So an offset is a
//! running sum, and `VMComponentOffsets` keeps these sums for one plan and one size of a pointer. It stands on
//! `pc_info`, whose plans say how many entries each array has.
#![tactic(auto)]

mod layout;
mod offsets;
mod ptr_size;
mod vmctx_array;

pub use offsets::VMComponentOffsets;
pub use ptr_size::{PtrSize, PtrWidth};
pub use vmctx_array::{VmctxArray, VmctxIndex};

/// The number at the front of each context, by which a runtime knows one: the bytes of `comp`, the lowest first.
pub const VMCOMPONENT_MAGIC: u32 = 0x706d6f63;
