//! One entry of a type table, converted where what it names is done, and which entries that are for an entry.
//! It stands on `pc_types` and `pc_types_lists`, and `pc_types_builder` calls it for each entry that is needed.
#![tactic(auto)]

mod defined;
mod done;
mod entry;
mod extern_type;
mod kinds;
mod like;
mod parts;
mod plain;
mod users;
mod value;

pub use done::{Done, Earlier};
pub use extern_type::signature_at;
pub use kinds::convert;
pub use parts::{entry_at, entry_parts, needed};
pub use plain::is_plain;
pub use value::{error_contexts, primitive};
