//! The helpers that imports ask for.

ghost use Rattle.std.specs.Prelude.{◌≡◌, ◌⊎◌, ◌∷◌, ◌++◌, [], All, Err, IfOk, OnOk, option_map};
ghost use Rattle.pc_dfg.specs.Held.{IsHeld};
ghost use Rattle.pc_dfg.specs.Names.{if_any};
ghost use Rattle.pc_dfg.specs.Numbers.{memory_def};
ghost use Rattle.pc_adapt.specs.declared.import.Import.TheVariants as asks;
ghost use Rattle.pc_adapt_define.specs.Adds.{Adds, IsFull, IsFullFor, one_if};
ghost use Rattle.pc_adapt_define.specs.Define.{HasFullSlots, callbacks_in, in_import, memories_in, post_returns_in};
ghost use Rattle.pc_adapt_define.specs.Helpers.{IsWanted, Prepares, Starts, Transcodes};
ghost use Rattle.pc_adapt_define.specs.Only.{AddsOnly};

use crate::slots::{callback_slot, memory_slot, post_return_slot};
use pc_adapt::Import;
use pc_dfg::{ComponentDfg, CoreDef, CoreExport, PushError, Trampoline};
use pc_entity::MemoryIndex;
use pc_trampoline::Transcode;

/// What an import asks for.
#[derive(Drop)]
pub(crate) enum Wanted {
    /// A definition that the graph has.
    Definition(CoreDef),
    /// A trampoline.
    Helper(Trampoline),
}

/// What brings strings from one memory into another.
fn transcoder(
    graph: &mut ComponentDfg,
    op: Transcode,
    from: CoreExport<MemoryIndex>,
    from64: bool,
    to: CoreExport<MemoryIndex>,
    to64: bool,
) -> Result<Trampoline, PushError>
    requires held { All (IsHeld graph.old) (memory_def from ∷ memory_def to ∷ []) }
    ensures adds { Adds 2 0 0 0 graph.old graph.new }
    ensures only { OnOk result (AddsOnly (asks.Transcode op from from64 to to64 ∷ []) graph.old graph.new) }
    ensures helper { IfOk result (λ t. Transcodes graph.new op from from64 to to64 t) }
    ensures full { result ≡ Err PushError.TooMany → IsFull graph.new.memories }
    ensures room { OnOk result (¬ (IsFull graph.old.memories)) }
{
    let source = graph.push_memory(from)?;
    let target = graph.push_memory(to)?;
    Ok(Trampoline::Transcoder {
        op,
        from: source,
        from64,
        to: target,
        to64,
    })
}

/// What prepares an async call.
fn prepare_call(
    graph: &mut ComponentDfg,
    memory: Option<CoreExport<MemoryIndex>>,
) -> Result<Trampoline, PushError>
    requires held { All (IsHeld graph.old) (if_any (option_map memory_def memory)) }
    ensures adds { Adds (one_if memory) 0 0 0 graph.old graph.new }
    ensures only { OnOk result (AddsOnly (asks.PrepareCall memory ∷ []) graph.old graph.new) }
    ensures helper { IfOk result (λ t. Prepares graph.new memory t) }
    ensures full { result ≡ Err PushError.TooMany → IsFullFor memory graph.new.memories }
    ensures room { OnOk result (¬ (IsFullFor memory graph.old.memories)) }
{
    let slot = memory_slot(graph, memory)?;
    Ok(Trampoline::PrepareCall { memory: slot })
}

/// What starts an async call.
fn start_call(
    graph: &mut ComponentDfg,
    callback: Option<CoreDef>,
    post_return: Option<CoreDef>,
) -> Result<Trampoline, PushError>
    requires held { All (IsHeld graph.old) (if_any callback ++ if_any post_return) }
    ensures adds { Adds 0 (one_if callback) (one_if post_return) 0 graph.old graph.new }
    ensures only { OnOk result (AddsOnly (asks.StartCall callback post_return ∷ []) graph.old graph.new) }
    ensures helper { IfOk result (λ t. Starts graph.new callback post_return t) }
    ensures full { result ≡ Err PushError.TooMany
        → IsFullFor callback graph.new.callbacks ⊎ IsFullFor post_return graph.new.post_returns }
    ensures room { OnOk result
        (¬ (IsFullFor callback graph.old.callbacks ⊎ IsFullFor post_return graph.old.post_returns)) }
{
    let first = callback_slot(graph, callback)?;
    let second = post_return_slot(graph, post_return)?;
    Ok(Trampoline::StartCall {
        callback: first,
        post_return: second,
    })
}

/// What an import asks for. The slots of a helper are in the graph after.
pub(crate) fn asked_by(graph: &mut ComponentDfg, import: Import) -> Result<Wanted, PushError>
    requires held { All (IsHeld graph.old) (in_import import) }
    ensures adds { Adds (memories_in import) (callbacks_in import) (post_returns_in import) 0 graph.old graph.new }
    ensures only { OnOk result (AddsOnly (import ∷ []) graph.old graph.new) }
    ensures wanted { IfOk result (λ w. IsWanted graph.new import w) }
    ensures full { result ≡ Err PushError.TooMany → HasFullSlots graph.new import }
    ensures room { OnOk result (¬ (HasFullSlots graph.old import)) }
{
    match import {
        Import::CoreDef(def) => Ok(Wanted::Definition(def)),
        Import::Transcode {
            op,
            from,
            from64,
            to,
            to64,
        } => Ok(Wanted::Helper(transcoder(graph, op, from, from64, to, to64)?)),
        Import::ResourceTransferOwn => Ok(Wanted::Helper(Trampoline::ResourceTransferOwn)),
        Import::ResourceTransferBorrow => Ok(Wanted::Helper(Trampoline::ResourceTransferBorrow)),
        Import::FutureTransfer => Ok(Wanted::Helper(Trampoline::FutureTransfer)),
        Import::StreamTransfer => Ok(Wanted::Helper(Trampoline::StreamTransfer)),
        Import::ErrorContextTransfer => Ok(Wanted::Helper(Trampoline::ErrorContextTransfer)),
        Import::PrepareCall { memory } => Ok(Wanted::Helper(prepare_call(graph, memory)?)),
        Import::StartCall {
            callback,
            post_return,
        } => Ok(Wanted::Helper(start_call(graph, callback, post_return)?)),
        Import::EnterSyncCall => Ok(Wanted::Helper(Trampoline::EnterSyncCall)),
        Import::ExitSyncCall => Ok(Wanted::Helper(Trampoline::ExitSyncCall)),
        Import::Trap(trap) => Ok(Wanted::Helper(Trampoline::Trap(trap))),
    }
}
