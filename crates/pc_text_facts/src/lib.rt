//! The printed text of the facts that are recorded of the core modules of a plan.
//!
//! Modules go in, and their facts come out as bytes, a line each. `pc_spec_facts` defines the text, over what is
//! recorded of a module.
#![tactic(auto)]

mod imports;
mod line;
mod modules;
mod own;

pub use modules::facts_text;
