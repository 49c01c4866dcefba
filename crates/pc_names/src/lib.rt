//! Names of imports and exports, and which compatible version a name finds.
//!
//! Names and their items go in, through an interner that turns texts into keys; a look-up gives the item of the name
//! itself, or of the greatest version that `semver` takes for compatible with it.
#![tactic(auto)]

mod alternate;
mod entries;
mod intern;
pub mod laws;
mod name_error;
mod name_map;
mod raw_iter;
mod tracks;

pub use alternate::alternate_lookup_key;
pub use intern::{NameMapIntern, NameMapNoIntern};
pub use name_error::NameError;
pub use name_map::NameMap;
pub use raw_iter::RawIter;
