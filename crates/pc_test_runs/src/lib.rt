//! Tests that go through all crates and aren't rows of texts: streams, long inputs and totals, and what a run loads.
#![tactic(auto)]

#[cfg(test)]
mod adapters;
#[cfg(test)]
mod inputs;
#[cfg(test)]
mod long;
#[cfg(test)]
mod streams;
#[cfg(test)]
mod totals;
