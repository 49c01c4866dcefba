//! Definitions for imports.

ghost use Rattle.std.specs.Prelude.{◌≡◌, ◌∷◌, [], IfOk};
ghost use Rattle.pc_dfg.specs.Ordered.{IsOrdered};

use crate::support::holds;
use pc_adapt::Import;
use pc_adapt_define::{define, define_all};
use pc_dfg::laws::empty_is_ordered;
use pc_dfg::{ComponentDfg, CoreDef, PushError};
use pc_entity::{ModuleInternedTypeIndex, NoMemory, Seed, Seq, TrampolineIndex};
use pc_trampoline::Trap;
use std::alloc::Global;
use std::test::*;

/// The core signature of all trampolines.
const SIGNATURE: ModuleInternedTypeIndex = ModuleInternedTypeIndex(3);

/// Whether a trap is trampoline 0, at first and again.
fn has_trap(graph: &mut ComponentDfg) -> bool
    requires ordered { IsOrdered graph.old }
    ensures ordered { IsOrdered graph.new }
{
    let first = define(graph, Import::Trap(Trap(1)), SIGNATURE);
    let again = define(graph, Import::Trap(Trap(1)), SIGNATURE);
    let trap = Ok(CoreDef::Trampoline(TrampolineIndex(0)));
    first == trap && again == trap
}

/// What begins and ends a call.
fn begin_and_end(alloc: Global) -> Result<Vec<Import>, NoMemory>
    ensures { IfOk result (λ is. is.items ≡ Import.EnterSyncCall ∷ Import.ExitSyncCall ∷ []) }
{
    let mut imports: Vec<Import> = Vec::new(alloc);
    imports.push(Import::EnterSyncCall)?;
    imports.push(Import::ExitSyncCall)?;
    Ok(imports)
}

/// How many trampolines there are once what begins and ends a call is defined, and how many definitions are added.
fn calls(alloc: Global, graph: &mut ComponentDfg) -> Result<[usize; 2], PushError>
    requires ordered { IsOrdered graph.old }
{
    let imports = begin_and_end(alloc)?;
    let mut args: Seq<CoreDef> = Seq::new(alloc);
    define_all(graph, imports, SIGNATURE, &mut args)?;
    Ok([graph.trampolines.len(), args.len()])
}

/// Whether equal helpers share a trampoline, and others don't.
fn are_shared(alloc: Global) -> Result<bool, PushError> {
    empty_is_ordered();
    let mut graph = ComponentDfg::new(alloc, Seed::fixed());
    let is_shared = has_trap(&mut graph);
    let counts = calls(alloc, &mut graph)?;
    Ok(is_shared && counts == [3, 2])
}

#[test]
fn helpers_are_trampolines(rt: HostRuntime) {
    let shared = are_shared(rt.alloc());
    holds(&rt, "shared", shared == Ok(true));
}
