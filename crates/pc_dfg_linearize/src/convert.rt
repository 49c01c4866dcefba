//! Definitions of the graph as the plan has them, once all that they name has a number.

ghost use Rattle.std.specs.Prelude.{◌≡◌, ◌<◌, ◌++◌, ◌∷◌, [], All, IfOk, OnOk, length, map};
ghost use Rattle.pc_dfg_linearize.specs.Converted.{def_in, export_in};
ghost use Rattle.pc_dfg_linearize.specs.Parts.{HasNumber, in_def};
ghost use Rattle.pc_dfg_linearize.specs.Ready.{IsReadyDef};

use crate::state::Finish;
use pc_dfg::{ComponentDfg, CoreDef, CoreExport};
use pc_entity::{NoMemory, Seq, TryClone};
use pc_info::ExportItem;
use std::alloc::Global;

/// An item of a core instance that was made.
pub(crate) fn export_of<T: TryClone>(
    alloc: Global,
    finish: &Finish,
    export: &CoreExport<T>,
) -> Result<pc_info::CoreExport<T>, NoMemory>
    requires made { export.now.instance.0 < length finish.now.instances }
    ensures { IfOk result (λ e. e ≡ export_in finish.now export.now) }
{
    let item = export.item.try_clone(alloc)?;
    Ok(pc_info::CoreExport {
        instance: finish.instances[export.instance],
        item,
    })
}

/// A definition, where all that it names has its number.
#[tactic(auto, unfolding(crate::specs::Converted::def_in, crate::specs::Ready::IsReadyDef))]
pub fn def_of(
    alloc: Global,
    graph: &ComponentDfg,
    finish: &Finish,
    def: &CoreDef,
) -> Result<pc_info::CoreDef, NoMemory>
    requires ready { IsReadyDef graph.now (length finish.now.instances) def.now }
    requires numbered { All (HasNumber finish.now) (in_def graph.now def.now) }
    ensures { IfOk result (λ d. d ≡ def_in graph.now finish.now def.now) }
{
    match def {
        CoreDef::Export(export) => Ok(pc_info::CoreDef::Export(export_of(alloc, finish, export)?)),
        CoreDef::InstanceFlags(instance) => Ok(pc_info::CoreDef::InstanceFlags(*instance)),
        CoreDef::Trampoline(trampoline) => Ok(pc_info::CoreDef::Trampoline(
            finish.numbers.trampolines.at(*trampoline),
        )),
        CoreDef::UnsafeIntrinsic(_, intrinsic) => Ok(pc_info::CoreDef::UnsafeIntrinsic(*intrinsic)),
        CoreDef::Adapter(adapter) => {
            let (module, item) = graph.adapter_partitionings[*adapter];
            Ok(pc_info::CoreDef::Export(pc_info::CoreExport {
                instance: finish.numbers.adapter_modules.at(module),
                item: ExportItem::Index(item),
            }))
        }
    }
}

/// Adds a definition as the plan has it.
fn push_def(
    alloc: Global,
    graph: &ComponentDfg,
    finish: &Finish,
    all: &mut Seq<pc_info::CoreDef>,
    def: &CoreDef,
) -> Result<(), NoMemory>
    requires ready { IsReadyDef graph.now (length finish.now.instances) def.now }
    requires numbered { All (HasNumber finish.now) (in_def graph.now def.now) }
    ensures { OnOk result (all.new ≡ all.old ++ def_in graph.now finish.now def.now ∷ []) }
{
    let converted = def_of(alloc, graph, finish, def)?;
    all.push(converted)
}

/// Definitions in their order.
pub fn defs_of(
    alloc: Global,
    graph: &ComponentDfg,
    finish: &Finish,
    defs: &[CoreDef],
) -> Result<Seq<pc_info::CoreDef>, NoMemory>
    requires ready { All (IsReadyDef graph.now (length finish.now.instances)) defs.now }
    requires numbered { All (λ d. All (HasNumber finish.now) (in_def graph.now d)) defs.now }
    ensures { IfOk result (λ all. all ≡ map (def_in graph.now finish.now) defs.now) }
{
    let mut all = Seq::with_capacity(alloc, defs.len())?;
    for def in defs {
        push_def(alloc, graph, finish, &mut all, def)?;
    }
    Ok(all)
}
