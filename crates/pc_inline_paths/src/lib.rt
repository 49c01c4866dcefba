//! Paths to host items: which import of the root an item comes from, and the names that lead to it from there.
//! An import goes in, or one name behind a path that is held, and out comes an id, the same for the same path.
//! It stands on `pc_entity`; what a path is says `pc_types`.
#![tactic(auto)]

mod path_error;
mod path_id;
mod paths;
mod step;

pub use path_error::PathError;
pub use path_id::PathId;
pub use paths::Paths;
