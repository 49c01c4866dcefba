//! What a module of adapters imports, before the graph has trampolines for it.

use pc_dfg::{CoreDef, CoreExport};
use pc_entity::MemoryIndex;
use pc_trampoline::{Transcode, Trap};

/// An import of a module of adapters.
#[derive(Drop, PartialEq, Eq)]
pub enum Import {
    /// A definition of the graph.
    CoreDef(CoreDef),
    /// What brings strings from one memory into another, with whether the addresses of each have 64 bits.
    Transcode {
        op: Transcode,
        from: CoreExport<MemoryIndex>,
        from64: bool,
        to: CoreExport<MemoryIndex>,
        to64: bool,
    },
    /// Moves an owned handle.
    ResourceTransferOwn,
    /// Lends a handle.
    ResourceTransferBorrow,
    /// Moves a future.
    FutureTransfer,
    /// Moves a stream.
    StreamTransfer,
    /// Moves an error context.
    ErrorContextTransfer,
    /// Prepares an async call, with the memory of what is called.
    PrepareCall {
        memory: Option<CoreExport<MemoryIndex>>,
    },
    /// Starts an async call, with the callback and the post-return function of what is called.
    StartCall {
        callback: Option<CoreDef>,
        post_return: Option<CoreDef>,
    },
    /// Begins a sync call.
    EnterSyncCall,
    /// Ends a sync call.
    ExitSyncCall,
    /// Traps.
    Trap(Trap),
}
