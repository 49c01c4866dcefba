//! The arguments of a module of adapters.

ghost use Rattle.std.specs.Prelude.{◌≡◌, All, Err, OnOk};
ghost use Rattle.pc_dfg.specs.Held.{IsHeld};
ghost use Rattle.pc_dfg.specs.Ordered.{IsOrdered};
ghost use Rattle.pc_adapt_define.specs.Adds.{Adds};
ghost use Rattle.pc_adapt_define.specs.Define.{AreDefined, HasNoRoom, callbacks_in, in_import, memories_in};
ghost use Rattle.pc_adapt_define.specs.Define.{post_returns_in, total, trampolines_in};

use crate::imports::define;
use pc_adapt::Import;
use pc_dfg::{ComponentDfg, CoreDef, PushError};
use pc_entity::{ModuleInternedTypeIndex, Seq};

/// Adds the definitions that stand for imports, in order, with trampolines of this core signature.
pub fn define_all(
    graph: &mut ComponentDfg,
    imports: Vec<Import>,
    signature: ModuleInternedTypeIndex,
    args: &mut Seq<CoreDef>,
) -> Result<(), PushError>
    requires ordered { IsOrdered graph.old }
    requires held { All (λ i. All (IsHeld graph.old) (in_import i)) imports.items }
    ensures defined { OnOk result
        (AreDefined graph.old graph.new signature imports.items args.old args.new) }
    ensures adds { Adds (total memories_in imports.items) (total callbacks_in imports.items)
        (total post_returns_in imports.items) (total trampolines_in imports.items) graph.old graph.new }
    ensures full { result ≡ Err PushError.TooMany → HasNoRoom graph.new }
{
    for import in imports {
        let def = define(graph, import, signature)?;
        args.push(def)?;
    }
    Ok(())
}
