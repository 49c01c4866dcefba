//! Tests of the reader of inputs, `pc_input`, on bytes made by hand.
#![tactic(auto)]

#[cfg(test)]
mod form_two;
#[cfg(test)]
mod support;
