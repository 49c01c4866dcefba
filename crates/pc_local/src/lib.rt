//! From a payload list to its local program: the bodies of all its components, each with its items, and what each
//! nested component captures of those around it. Any list that has no static fault has such a program.
//! It stands on `pc_parsed`, which has the payloads and their faults, and on `pc_spec_reading` for what a list means.
#![tactic(auto)]

mod capture;
pub mod captured;
mod entry;
pub mod item;
mod open;
mod translate;

pub use item::{
    ClosedOverComponent, ClosedOverModule, ClosedOverVars, LocalInitializer, LocalProgram,
    Translation,
};
pub use translate::translate_payloads;
