//! The trampolines of a graph.

use crate::{CallbackId, MemoryId, OptionsId, PostReturnId, TableId};
use pc_entity::RuntimeImportIndex;

/// What a trampoline does, with the numbers of a graph. What is lowered is a host item.
pub type Trampoline = pc_trampoline::Trampoline<
    RuntimeImportIndex,
    OptionsId,
    MemoryId,
    TableId,
    CallbackId,
    PostReturnId,
>;
