//! The names of a program by number: of the items of its bodies, of the imports of its core modules, and of its
//! instance and module types. Equal names have one number, so what stands under a name is found without a look at its
//! text, however often the body, the module or the type with that name is used.
//! It stands on `pc_local`, which has the bodies, and on `pc_types`, which has the modules and the table.
#![tactic(auto)]

mod add;
mod atom_map;
mod bodies;
mod modules;
mod number_lists;
mod program_names;
mod types;

pub use atom_map::{AtomMap, first_numbered};
pub use program_names::ProgramNames;
