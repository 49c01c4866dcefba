//! The trampolines of plans.

use crate::{Part, Parts, Trampoline};
use pc_entity::{
    LoweredIndex, OptionsIndex, RuntimeCallbackIndex, RuntimeMemoryIndex, RuntimePostReturnIndex,
    RuntimeTableIndex,
};

/// A trampoline of a plan.
pub type PlanTrampoline = Trampoline<
    LoweredIndex,
    OptionsIndex,
    RuntimeMemoryIndex,
    RuntimeTableIndex,
    RuntimeCallbackIndex,
    RuntimePostReturnIndex,
>;

/// What a trampoline of a plan is made of.
pub type PlanParts = Parts<
    LoweredIndex,
    OptionsIndex,
    RuntimeMemoryIndex,
    RuntimeTableIndex,
    RuntimeCallbackIndex,
    RuntimePostReturnIndex,
>;

/// A part of a trampoline of a plan.
pub type PlanPart = Part<
    OptionsIndex,
    RuntimeMemoryIndex,
    RuntimeTableIndex,
    RuntimeCallbackIndex,
    RuntimePostReturnIndex,
>;
