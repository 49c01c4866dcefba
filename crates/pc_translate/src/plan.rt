//! The plan of a graph, with the types of the handed-in modules that it exports.

ghost use Rattle.std.specs.Prelude.{◌≡◌, ◌⊎◌, None, All, Err, IfOk};
ghost use Rattle.pc_types.specs.Table.{table_fault};
ghost use Rattle.pc_types_builder.specs.Types.{Grows};
ghost use Rattle.pc_dfg.specs.Ordered.{IsOrdered};
ghost use Rattle.pc_dfg_linearize.specs.declared.error.FinishError.TheVariants as refusal;
ghost use Rattle.pc_dfg_linearize.specs.Full.{HasTooMany};
ghost use Rattle.pc_dfg_linearize.specs.Grouped.{IsGrouped};
ghost use Rattle.pc_translate.specs.Finished.{IsFinished};
ghost use Rattle.pc_translate.specs.ModuleTypes.{AddsModules, HasModuleType, HoldsModules, IsExported, LacksPlace};

use crate::module_types::module_types;
use pc_dfg::ComponentDfg;
use pc_dfg_finish::FinishError;
use pc_info::ComponentTranslation;
use pc_types::TypeTable;
use pc_types_builder::ComponentTypesBuilder;
use std::alloc::Global;

/// The plan of a graph whose adapters are grouped. Types of the table that it exports are put into the types builder
/// first, since they ask most of it.
pub fn finish(
    alloc: Global,
    graph: ComponentDfg,
    table: &TypeTable,
    types: &mut ComponentTypesBuilder,
) -> Result<ComponentTranslation, FinishError>
    requires ordered { IsOrdered graph }
    requires grouped { IsGrouped graph }
    requires sound { table_fault table.now ≡ None }
    requires are_modules { All (HasModuleType table.now) graph.export_items }
    ensures grows { Grows types.old types.new }

    // It gains the types of the exported modules and the core signatures that these name, and no other type.
    ensures adds { AddsModules table.now (IsExported graph.export_items) types.old types.new }

    // Where it holds those types, it gains nothing.
    ensures unchanged { HoldsModules types.old table.now graph.export_items → types.new ≡ types.old }
    ensures full { result ≡ Err refusal.TooMany
        → HasTooMany graph ⊎ LacksPlace table.now graph.export_items types.old types.new }
    ensures plan { IfOk result (λ p. IsFinished types.new table.now graph p) }
{
    let module_types = module_types(alloc, types, table, graph.export_items.as_slice())?;
    pc_dfg_finish::finish(alloc, graph, &module_types)
}
