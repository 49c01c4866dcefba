//! Payloads, as the reader of a binary hands them over, and what is wrong with them whatever they would do: the first
//! static fault of a list, with its kind and place.
//! It stands on `pc_types`.
#![tactic(auto)]

mod bodies;
pub mod canon;
mod checks;
mod copies;
pub mod fault;
mod first_fault;
mod interface;
mod named;
pub mod payload;
pub mod room;
mod structure;

pub use canon::{CanonItem, CanonOption};
pub use fault::StaticFault;
pub use first_fault::static_fault;
pub use interface::is_exposed;
pub use payload::{
    AliasItem, ComponentInstanceItem, Encoding, ExportEntry, ExternName, ImportItem, InstanceItem,
    ItemKind, OuterKind, Payload, Tunables, TypeItem,
};
pub use room::is_numbered;
