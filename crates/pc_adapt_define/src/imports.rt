//! An import of a module of adapters as a definition of the graph.

ghost use Rattle.std.specs.Prelude.{◌≡◌, ◌∷◌, [], All, Err, IfOk, OnOk};
ghost use Rattle.pc_dfg.specs.Held.{IsHeld};
ghost use Rattle.pc_adapt_define.specs.Adds.{Adds};
ghost use Rattle.pc_adapt_define.specs.Define.{HasFullList, IsDefined, callbacks_in, in_import, memories_in};
ghost use Rattle.pc_adapt_define.specs.Define.{post_returns_in, trampolines_in};
ghost use Rattle.pc_adapt_define.specs.Only.{AddsOnly};

use crate::helpers::{Wanted, asked_by};
use pc_adapt::Import;
use pc_dfg::{ComponentDfg, CoreDef, PushError};
use pc_entity::ModuleInternedTypeIndex;

/// The definition that stands for an import: its own, or a trampoline with this core signature.
pub fn define(
    graph: &mut ComponentDfg,
    import: Import,
    signature: ModuleInternedTypeIndex,
) -> Result<CoreDef, PushError>
    requires held { All (IsHeld graph.old) (in_import import) }
    ensures adds { Adds (memories_in import) (callbacks_in import) (post_returns_in import) (trampolines_in import)
        graph.old graph.new }
    ensures only { OnOk result (AddsOnly (import ∷ []) graph.old graph.new) }
    ensures defined { IfOk result (λ d. IsDefined graph.old graph.new signature import d) }
    ensures full { result ≡ Err PushError.TooMany → HasFullList graph.new import }
    ensures room { OnOk result (¬ (HasFullList graph.old import)) }
{
    match asked_by(graph, import)? {
        Wanted::Definition(def) => Ok(def),
        Wanted::Helper(helper) => {
            let number = graph.push_trampoline(signature, helper)?;
            Ok(CoreDef::Trampoline(number))
        }
    }
}
