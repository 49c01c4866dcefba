//! The printed texts: of a plan, of a generated chain, of a refusal, and of the usage.
//!
//! A plan or an `Error` goes in, and its text comes out as bytes. `pc_spec_plan` defines the text of a plan, over the
//! view that `pc_info` gives of one; the other texts are defined here.
#![tactic(auto)]

mod adapter;
mod context;
mod export;
mod fault;
mod fixed;
mod import;
mod initializer;
mod intrinsic;
mod plan;
mod summary;
mod trampoline;

pub use context::context_text;
pub use fault::fault_text;
pub use fixed::{bad_form_text, not_json_text, too_long_text, usage_text};
pub use plan::plan_text;
pub use summary::summary_text;
