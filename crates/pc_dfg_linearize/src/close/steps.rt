//! Lowerings and modules of adapters that get their numbers.

ghost use Rattle.std.specs.Prelude.{◌≡◌, All, None, OnOk, length, Err};
ghost use Rattle.pc_dfg.specs.declared.ids.OptionsId.{OptionsId};
ghost use Rattle.pc_numbers.specs.declared.runtime.RuntimeImportIndex.{RuntimeImportIndex};
ghost use Rattle.pc_types.specs.declared.type_index.TypeFuncIndex.{TypeFuncIndex};
ghost use Rattle.pc_trampoline.specs.declared.trampoline.Trampoline.TheVariants as kind;
ghost use Rattle.pc_dfg.specs.Held.{AreHeld};
ghost use Rattle.pc_dfg_linearize.specs.declared.error.FinishError.TheVariants as refusal;
ghost use Rattle.pc_dfg_linearize.specs.declared.id.Id.TheVariants as id;
ghost use Rattle.pc_dfg_linearize.specs.Added.{IsFull};
ghost use Rattle.pc_dfg_linearize.specs.Closed.{Closed, Fits};
ghost use Rattle.pc_dfg_linearize.specs.Parts.{HasNumber, number_of, parts};
ghost use Rattle.pc_dfg_linearize.specs.Ready.{CanClose};

use crate::FinishError;
use crate::convert::defs_of;
use crate::state::Finish;
use pc_dfg::{AdapterModuleId, ComponentDfg, Trampoline as GraphTrampoline};
use pc_entity::{RuntimeImportIndex, TrampolineIndex};
use pc_trampoline::Trampoline;
use std::alloc::Global;

/// The host item of a trampoline that is a lowering.
fn host_item(trampoline: &GraphTrampoline) -> RuntimeImportIndex
    requires lowers { (r : RuntimeImportIndex) × (ty : TypeFuncIndex) × (o : OptionsId)
        × (trampoline.now ≡ kind.LowerImport r ty o) }
    ensures { (ty : TypeFuncIndex) × (o : OptionsId) × (trampoline.now ≡ kind.LowerImport result ty o) }
{
    match trampoline {
        Trampoline::LowerImport { index, .. } => *index,
        _ => unreachable!(),
    }
}

/// Lowers the host item of a trampoline.
pub(crate) fn close_lowering(
    graph: &ComponentDfg,
    finish: &mut Finish,
    trampoline: TrampolineIndex,
) -> Result<(), FinishError>
    requires held { AreHeld graph.now }
    requires fresh { number_of finish.old (id.Lowering trampoline) ≡ None }
    requires can { CanClose graph.now (length finish.old.instances) (id.Lowering trampoline) }
    requires numbered { All (HasNumber finish.old) (parts graph.now (id.Lowering trampoline)) }
    requires fits { Fits graph.now finish.old }
    ensures closed { OnOk result (Closed graph.now finish.old finish.new (id.Lowering trampoline)) }
    ensures full { result ≡ Err refusal.TooMany → IsFull finish.old (id.Lowering trampoline) }
{
    let import = host_item(&graph.trampolines[trampoline].1);
    finish.lower_import(trampoline, import)
}

/// Makes the instance of a module of adapters.
pub(crate) fn close_adapter_module(
    alloc: Global,
    graph: &ComponentDfg,
    finish: &mut Finish,
    adapters: AdapterModuleId,
) -> Result<(), FinishError>
    requires held { AreHeld graph.now }
    requires fresh { number_of finish.old (id.AdapterModule adapters) ≡ None }
    requires can { CanClose graph.now (length finish.old.instances) (id.AdapterModule adapters) }
    requires numbered { All (HasNumber finish.old) (parts graph.now (id.AdapterModule adapters)) }
    requires fits { Fits graph.now finish.old }
    ensures closed { OnOk result (Closed graph.now finish.old finish.new (id.AdapterModule adapters)) }
    ensures full { result ≡ Err refusal.TooMany → IsFull finish.old (id.AdapterModule adapters) }
{
    let (module, args) = &graph.adapter_modules[adapters];
    let args = defs_of(alloc, graph, finish, args.as_slice())?;
    finish.instantiate_adapters(adapters, *module, args)
}
