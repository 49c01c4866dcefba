//! How many nodes are reached of what is exported, counted before any node is made.
//!
//! An instance may export another one twice, and so on many levels, so that there are exponentially many nodes. They
//! are counted in one pass over the type table and one over the component instances, each count made of those before.
#![tactic(auto)]

mod count;
mod entries;
mod instances;

pub use count::NodeCount;
pub use instances::NodeCounts;
