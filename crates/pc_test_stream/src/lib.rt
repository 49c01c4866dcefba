//! Tests of `pc_stream`: std's readers and writers, and streams over memory.
#![tactic(auto)]

#[cfg(test)]
mod asserts;
#[cfg(test)]
mod host;
#[cfg(test)]
mod memory;
