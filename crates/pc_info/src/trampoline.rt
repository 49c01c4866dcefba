//! The trampolines of a plan.

use pc_entity::{
    LoweredIndex, OptionsIndex, RuntimeCallbackIndex, RuntimeMemoryIndex, RuntimePostReturnIndex,
    RuntimeTableIndex,
};

/// What a trampoline does, with the numbers of a plan.
pub type Trampoline = pc_trampoline::Trampoline<
    LoweredIndex,
    OptionsIndex,
    RuntimeMemoryIndex,
    RuntimeTableIndex,
    RuntimeCallbackIndex,
    RuntimePostReturnIndex,
>;
