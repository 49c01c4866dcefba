//! What the core modules of a plan know of their imports: an item that is the same in every instance of a module.
//!
//! A module that is instantiated, always with the same arguments, and that the host isn't given, knows what each import
//! is: a trampoline that enters or leaves a call or traps, an intrinsic, the flags of a component instance, or an
//! entity that a module defines, whichever instance of it. Data must not be seen under two names, so of globals,
//! memories, tables and flags those aren't known that are given to a module of the host or to one that isn't always
//! given the same.
//!
//! The steps are gone through in order: what an argument is follows from what the instances before it were given, with
//! one look-up each.
#![tactic(auto)]

mod ambiguous;
mod imports;
mod index;
mod instances;
mod known;
mod record;
mod source;
mod ways;

pub use known::analyze_imports;
