//! Worked inputs, each with the outcome that the nested reading computes for it from its own text: the tree of the
//! text, the input that it is, and what its payloads mean. A function here does nothing; its clauses are the examples.
#![tactic(auto)]

pub mod adapters;
pub mod bounds;
pub mod builtins;
pub mod captures;
pub mod exports;
pub mod flat;
pub mod forms;
pub mod functions;
pub mod host;
pub mod imports;
pub mod modules;
pub mod nested;
pub mod resources;
pub mod unsound;
