//! Numbers in a plan for what a graph names: each gets one with all that it leads to, and what it stands for is made.
//!
//! An id is opened, its parts are put above it on a stack, and it is closed when they have their numbers: one step or
//! entry of the plan is made. So a chain of any length takes no recursion.
#![tactic(auto)]

mod close;
mod convert;
mod entries;
mod error;
mod grow;
mod id;
mod listed;
mod number_map;
mod open;
mod run;
mod state;

pub use convert::{def_of, defs_of};
pub use error::FinishError;
pub use grow::{add_step, next};
pub use id::Id;
pub use listed::append;
pub use number_map::NumberMap;
pub use open::id_in;
pub use run::number;
pub use state::{Counts, Finish, INTRINSICS, Numbers};
