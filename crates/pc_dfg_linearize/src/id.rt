//! What takes a number of its own in a plan, and what is still to be done for it.

use pc_dfg::{AdapterModuleId, CallbackId, MemoryId, OptionsId, PostReturnId, ReallocId, TableId};
use pc_entity::{ModuleInternedTypeIndex, TrampolineIndex};
use pc_types::UnsafeIntrinsic;

/// What takes a number of its own in a plan, by its number in the graph.
#[derive(Clone, Copy)]
pub enum Id {
    /// The slot of a memory.
    Memory(MemoryId),
    /// The slot of a table.
    Table(TableId),
    /// The slot of a function that makes room for values.
    Realloc(ReallocId),
    /// The slot of a function that goes on with an asynchronous call.
    Callback(CallbackId),
    /// The slot of a function that is called when results are read.
    PostReturn(PostReturnId),
    /// An options entry.
    Options(OptionsId),
    /// The step that lowers the host item of a trampoline.
    Lowering(TrampolineIndex),
    /// A trampoline.
    Trampoline(TrampolineIndex),
    /// An unsafe intrinsic, under a core signature: its place in the list of them is its number.
    Intrinsic(ModuleInternedTypeIndex, UnsafeIntrinsic),
    /// The instance of a module of adapters.
    AdapterModule(AdapterModuleId),
}

/// What is to be done for an id.
#[derive(Clone, Copy)]
pub(crate) enum Task {
    /// To look whether it has its number, and what it depends on.
    Open(Id),
    /// To give it its number, since all that it depends on has one.
    Close(Id),
}
