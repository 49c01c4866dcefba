//! The interned types: one list for each kind of type, in which equal types share a number, with the facts of those
//! that have parts: which types stand anywhere in one, made from the facts of its parts. It stands on `pc_types`.
#![tactic(auto)]

pub mod facts;
mod intern;
pub mod interned_types;
mod labelled;
mod labels;
pub mod list;
pub mod no_place;
mod put;
mod readers;
pub mod resources;
pub mod table;

pub use facts::TypeFacts;
pub use interned_types::InternedTypes;
pub use list::FactList;
pub use no_place::NoPlace;
pub use resources::ResourcesBuilder;
pub use table::FactTable;
