//! An index of what a core module imports and exports, for those that ask often.
//!
//! It stands on `pc_types`.
#![tactic(auto)]

mod details;
mod entities;
mod import_index;
pub mod import_places;
pub mod record_index;

pub use import_places::ImportPlaces;
pub use record_index::RecordIndex;
