//! Tests of the translator without bytes and texts: what it leaves in a types builder, and of `pc_local` what nested
//! components capture.
#![tactic(auto)]

#[cfg(test)]
mod builders;
#[cfg(test)]
mod captures;
#[cfg(test)]
mod held;
#[cfg(test)]
mod inputs;
#[cfg(test)]
mod translator;
