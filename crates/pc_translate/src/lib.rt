//! The translator: payloads go in, and out come a plan and its core modules.
//!
//! It is eight calls: the total before the first item (`pc_weights`), the local program of the payloads (`pc_local`),
//! the graph that stands for its reading (`pc_inline`), which of its adapters are transparent
//! (`pc_analysis_transparent`), the modules of its adapters (`pc_adapt_partition`), which imports share a context
//! (`pc_analysis_contexts`), the plan that the graph becomes (`pc_dfg_finish`), and what is known of imports
//! (`pc_analysis_imports`). That the plan does what the nested reading says follows from what these promise;
//! `specs/Translation.antt` has that statement.
#![tactic(auto)]

mod held;
mod module_types;
mod plan;
mod translator;

pub use plan::finish;
pub use translator::{PlanWithModules, Translator, plan_payloads, translate};
