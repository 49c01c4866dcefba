//! Tests of `pc_text` and `pc_text_facts`: what the printed texts look like, while there is memory.
#![tactic(auto)]

#[cfg(test)]
mod exports;
#[cfg(test)]
mod facts;
#[cfg(test)]
mod faults;
#[cfg(test)]
mod held;
#[cfg(test)]
mod imports;
#[cfg(test)]
mod modules;
#[cfg(test)]
mod parts;
#[cfg(test)]
mod plans;
#[cfg(test)]
mod settings;
#[cfg(test)]
mod steps;
#[cfg(test)]
mod support;
#[cfg(test)]
mod trampolines;
