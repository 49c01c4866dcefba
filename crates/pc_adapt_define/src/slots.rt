//! The slots of memories and functions that helpers work with.

ghost use Rattle.std.specs.Prelude.{◌≡◌, ◌∷◌, [], All, Err, IfOk, OnOk, Option, option_map};
ghost use Rattle.pc_dfg.specs.declared.core_def.CoreDef.{CoreDef as Definition};
ghost use Rattle.pc_dfg.specs.Held.{IsHeld};
ghost use Rattle.pc_dfg.specs.Names.{if_any};
ghost use Rattle.pc_dfg.specs.Numbers.{memory_def};
ghost use Rattle.pc_adapt.specs.declared.import.Import.TheVariants as asks;
ghost use Rattle.pc_adapt_define.specs.Adds.{Adds, IsFullFor, one_if};
ghost use Rattle.pc_adapt_define.specs.Helpers.{HasSlot};
ghost use Rattle.pc_adapt_define.specs.Only.{AddsOnly};

use pc_dfg::{CallbackId, ComponentDfg, CoreDef, CoreExport, MemoryId, PostReturnId, PushError};
use pc_entity::MemoryIndex;

/// The slot of a memory that may be left out.
pub(crate) fn memory_slot(
    graph: &mut ComponentDfg,
    memory: Option<CoreExport<MemoryIndex>>,
) -> Result<Option<MemoryId>, PushError>
    requires held { All (IsHeld graph.old) (if_any (option_map memory_def memory)) }
    ensures adds { Adds (one_if memory) 0 0 0 graph.old graph.new }
    ensures only { OnOk result (AddsOnly (asks.PrepareCall memory ∷ []) graph.old graph.new) }
    ensures slot { IfOk result (λ slot. HasSlot graph.new.memories (option_map (λ n. n.0) slot) memory) }
    ensures full { result ≡ Err PushError.TooMany → IsFullFor memory graph.new.memories }
    ensures room { OnOk result (¬ (IsFullFor memory graph.old.memories)) }
{
    match memory {
        Some(memory) => Ok(Some(graph.push_memory(memory)?)),
        None => Ok(None),
    }
}

/// The slot of a callback that may be left out.
pub(crate) fn callback_slot(
    graph: &mut ComponentDfg,
    callback: Option<CoreDef>,
) -> Result<Option<CallbackId>, PushError>
    requires held { All (IsHeld graph.old) (if_any callback) }
    ensures adds { Adds 0 (one_if callback) 0 0 graph.old graph.new }
    ensures only { OnOk result ((p : Option Definition)
        → AddsOnly (asks.StartCall callback p ∷ []) graph.old graph.new) }
    ensures slot { IfOk result (λ slot. HasSlot graph.new.callbacks (option_map (λ n. n.0) slot) callback) }
    ensures full { result ≡ Err PushError.TooMany → IsFullFor callback graph.new.callbacks }
    ensures room { OnOk result (¬ (IsFullFor callback graph.old.callbacks)) }
{
    match callback {
        Some(callback) => Ok(Some(graph.push_callback(callback)?)),
        None => Ok(None),
    }
}

/// The slot of a post-return function that may be left out.
pub(crate) fn post_return_slot(
    graph: &mut ComponentDfg,
    post_return: Option<CoreDef>,
) -> Result<Option<PostReturnId>, PushError>
    requires held { All (IsHeld graph.old) (if_any post_return) }
    ensures adds { Adds 0 0 (one_if post_return) 0 graph.old graph.new }
    ensures only { OnOk result ((c : Option Definition)
        → AddsOnly (asks.StartCall c post_return ∷ []) graph.old graph.new) }
    ensures slot { IfOk result (λ slot. HasSlot graph.new.post_returns (option_map (λ n. n.0) slot) post_return) }
    ensures full { result ≡ Err PushError.TooMany → IsFullFor post_return graph.new.post_returns }
    ensures room { OnOk result (¬ (IsFullFor post_return graph.old.post_returns)) }
{
    match post_return {
        Some(post_return) => Ok(Some(graph.push_post_return(post_return)?)),
        None => Ok(None),
    }
}
