//! Tests of the crates that numbers, lists, types, facts, module records and the types builder stand in.
#![tactic(auto)]

#[cfg(test)]
mod builder;
#[cfg(test)]
mod entity;
#[cfg(test)]
mod facts;
#[cfg(test)]
mod record;
#[cfg(test)]
mod support;
#[cfg(test)]
mod types;
