//! Tests of what a plan is made of: `pc_info`, `pc_trampoline`, `pc_offsets`, and `pc_dfg` with its interned lists.
#![tactic(auto)]

#[cfg(test)]
mod copies;
#[cfg(test)]
mod graph;
#[cfg(test)]
mod interned;
#[cfg(test)]
mod items;
#[cfg(test)]
mod laid_out;
#[cfg(test)]
mod layouts;
#[cfg(test)]
mod options;
#[cfg(test)]
mod plans;
#[cfg(test)]
mod support;
#[cfg(test)]
mod trampolines;
