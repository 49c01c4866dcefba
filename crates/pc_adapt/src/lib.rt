//! What fused adapters are asked for, and what the module of an adapter imports for it.
//!
//! No code is made for an adapter here. What a compiler of adapters needs is all that an adapter's function calls or
//! reads: so the imports of its module are planned from its two types and the options of both sides alone, and a record
//! says at which place each of them stands.
#![tactic(auto)]

pub mod asked;
pub mod error;
pub mod facts;
pub mod import;
pub mod laws;
pub mod plan;
pub mod record_of;

pub use asked::first_lacking;
pub use error::AdaptError;
pub use import::Import;
pub use plan::{AdapterPlan, plan_adapter};
