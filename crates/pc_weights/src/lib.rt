//! What a translation weighs: the total before the first item, and the weight of each body of a local program, once.
//!
//! A total that reaches 4294967295 is full, whatever it comes to. So each number is cut there, and a sum is counted
//! down from there, by subtractions that stop at zero: none of them overflows, however long the lists are.
//! It stands on `pc_local`, which has the bodies, and on `pc_spec_reading` for what items weigh.
#![tactic(auto)]

mod item;
mod names;
mod scale;
mod total;
pub mod weights;

pub use total::counted;
pub use weights::Weights;

/// The number that a total may not reach.
pub const FULL: usize = 4294967295;
