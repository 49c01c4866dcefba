//! The facts that a plan's core modules carry, in the words of `pc_spec_wiring`, as definitions alone.
//! There is no code here; the analyses and the translator are stated over these words.
#![tactic(auto)]
