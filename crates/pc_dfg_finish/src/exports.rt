//! The exports of a plan. Each item of the graph becomes the item of the same number, so those within an instance stand
//! before it. All that the functions among them depend on is made first; then nothing changes any more, and the items
//! are looked up. The graph's own exports are taken out of it for that. Each of them goes once the plan has it, and the
//! memory of their list is given back: names and items are the most of what a component with many exports consists of,
//! and aren't to be there twice.

ghost use Rattle.std.specs.Prelude.{◌≡◌, ◌++◌, ◌∷◌, [], None, Some, All, Err, IfOk, OnOk, length};
ghost use Rattle.std.specs.List.{AllZip};
ghost use Rattle.pc_dfg.specs.Ordered.{IsOrdered};
ghost use Rattle.pc_dfg_linearize.specs.declared.error.FinishError.TheVariants as refusal;
ghost use Rattle.pc_dfg_linearize.specs.Arguments.{OnlyFromThese};
ghost use Rattle.pc_dfg_linearize.specs.Closed.{Fits};
ghost use Rattle.std.specs.Option.{option_map};
ghost use Rattle.pc_dfg_finish.specs.Exports.{AddsName, CanExport, CanLift, Exports, GoesFurther, IsConverted};
ghost use Rattle.pc_dfg_finish.specs.Exports.{IsExportable};
ghost use Rattle.pc_dfg_finish.specs.Exports.{IsInstance, IsLiftable, IsNamed, Lacks, function_of, lifted_in};
ghost use Rattle.pc_dfg_finish.specs.Exports.{in_export, in_exports, in_lifted};
ghost use Rattle.pc_dfg_finish.specs.Taken.{CanConvert, IsReadyItem, without_exports};
ghost use Rattle.pc_dfg_linearize.specs.Grouped.{IsGrouped};
ghost use Rattle.pc_dfg_finish.specs.ModuleTypes.{IsTyped};
ghost use Rattle.pc_dfg_linearize.specs.Outgrown.{Outgrows};
ghost use Rattle.pc_dfg_linearize.specs.Ready.{IsReadyDef};

use crate::arguments::number_def;
use crate::module_types::ModuleTypes;
use pc_dfg::{ComponentDfg, CoreDef, Export, OptionsId};
use pc_dfg_linearize::{Finish, FinishError, Id, def_of, number};
use pc_entity::{ExportIndex, NoMemory, PrimaryMap, Text, TextMap, TryClone};
use pc_names::{NameError, NameMap, NameMapNoIntern};
use pc_types::{ComponentExternData, TypeComponentInstanceIndex, TypeFuncIndex};
use std::alloc::Global;
use std::mem;

/// What a plan exports: the names, and the items that they name by number.
#[derive(Drop)]
pub(crate) struct Exported {
    pub names: NameMap<Text, (ExportIndex, ComponentExternData)>,
    pub items: PrimaryMap<ExportIndex, pc_info::Export>,
}

/// Adds a name that is absent.
fn push_name(
    alloc: Global,
    names: &mut NameMap<Text, (ExportIndex, ComponentExternData)>,
    name: &Text,
    target: (ExportIndex, ComponentExternData),
) -> Result<(), NoMemory>
    requires absent { Lacks names.old name.now }
    ensures { OnOk result (AddsName names.old names.new name.now target) }
{
    let mut keys = NameMapNoIntern::new(alloc);
    match names.insert(name, &mut keys, false, target) {
        Ok(_) => Ok(()),
        Err(NameError::NoMemory) => Err(NoMemory),
        Err(NameError::DefinedTwice) => unreachable!(),
    }
}

/// The names of a map of the graph, in their order, with what they have.
fn names_of(
    alloc: Global,
    map: TextMap<(ExportIndex, ComponentExternData)>,
) -> Result<NameMap<Text, (ExportIndex, ComponentExternData)>, NoMemory>
    ensures { IfOk result (λ names. IsNamed map names) }
{
    map.names_are_distinct();
    let mut names = NameMap::new(alloc, map.seed());
    for place in 0..map.len() {
        let (name, target) = map.entry_at(place);
        let data = target.1.try_clone(alloc)?;
        push_name(alloc, &mut names, name, (target.0, data))?;
    }
    Ok(names)
}

/// The function of an export, with the number of its options.
fn function_of(item: &Export) -> Option<(&CoreDef, OptionsId)>
    ensures { option_map (λ x. (x.0.now, x.1)) result ≡ function_of item.now }
{
    match item {
        Export::LiftedFunction { func, options, .. } => Some((func, *options)),
        _ => None,
    }
}

/// Gives what an exported function depends on its numbers: its definition first, then its options.
fn number_function(
    alloc: Global,
    graph: &ComponentDfg,
    finish: &mut Finish,
    func: &CoreDef,
    options: OptionsId,
) -> Result<(), FinishError>
    requires ordered { IsOrdered graph.now }
    requires grouped { IsGrouped graph.now }
    requires all_made { length finish.old.instances ≡ length graph.now.instances }
    requires can { CanLift graph.now (func.now, options) }
    requires fits { Fits graph.now finish.old }
    ensures further { OnOk result (GoesFurther graph.now finish.old finish.new) }
    ensures here { OnOk result (IsLiftable graph.now finish.new (func.now, options)) }
    ensures only { OnOk result
        (OnlyFromThese graph.now finish.old finish.new (in_lifted graph.now (func.now, options))) }
    ensures full { result ≡ Err refusal.TooMany → Outgrows graph.now finish.old }
{
    number_def(alloc, graph, finish, func)?;
    number(alloc, graph, finish, Id::Options(options))
}

/// Gives what an export depends on its numbers.
fn number_item(
    alloc: Global,
    graph: &ComponentDfg,
    finish: &mut Finish,
    item: &Export,
) -> Result<(), FinishError>
    requires ordered { IsOrdered graph.now }
    requires grouped { IsGrouped graph.now }
    requires all_made { length finish.old.instances ≡ length graph.now.instances }
    requires can { CanExport graph.now item.now }
    requires fits { Fits graph.now finish.old }
    ensures further { OnOk result (GoesFurther graph.now finish.old finish.new) }
    ensures here { OnOk result (IsExportable graph.now finish.new item.now) }
    ensures only { OnOk result (OnlyFromThese graph.now finish.old finish.new (in_export graph.now item.now)) }
    ensures full { result ≡ Err refusal.TooMany → Outgrows graph.now finish.old }
{
    match function_of(item) {
        Some((func, options)) => number_function(alloc, graph, finish, func, options),
        None => Ok(()),
    }
}

/// Gives what the exports depend on its numbers, in their order.
fn number_items(alloc: Global, graph: &ComponentDfg, finish: &mut Finish) -> Result<(), FinishError>
    requires ordered { IsOrdered graph.now }
    requires grouped { IsGrouped graph.now }
    requires all_made { length finish.old.instances ≡ length graph.now.instances }
    requires fits { Fits graph.now finish.old }
    ensures further { OnOk result (GoesFurther graph.now finish.old finish.new) }
    ensures here { OnOk result (All (IsExportable graph.now finish.new) graph.now.export_items) }
    ensures only { OnOk result
        (OnlyFromThese graph.now finish.old finish.new (in_exports graph.now graph.now.export_items)) }
    ensures full { result ≡ Err refusal.TooMany → Outgrows graph.now finish.old }
{
    for item in graph.export_items.as_slice() {
        number_item(alloc, graph, finish, item)?;
    }
    Ok(())
}

/// A function as the plan exports it.
fn lifted(
    alloc: Global,
    graph: &ComponentDfg,
    finish: &Finish,
    ty: TypeFuncIndex,
    func: &CoreDef,
    options: OptionsId,
) -> Result<pc_info::Export, NoMemory>
    requires ready { IsReadyDef graph.now (length finish.now.instances) func.now }
    requires numbered { IsLiftable graph.now finish.now (func.now, options) }
    ensures { IfOk result (λ e. e ≡ lifted_in graph.now finish.now ty func.now options) }
{
    let func = def_of(alloc, graph, finish, func)?;
    let options = finish.numbers.options.at(options);
    Ok(pc_info::Export::LiftedFunction { ty, func, options })
}

/// An instance as the plan exports it.
fn instance(
    alloc: Global,
    ty: TypeComponentInstanceIndex,
    exports: TextMap<(ExportIndex, ComponentExternData)>,
) -> Result<pc_info::Export, NoMemory>
    ensures { IfOk result (λ e. IsInstance ty exports e) }
{
    Ok(pc_info::Export::Instance {
        ty,
        exports: names_of(alloc, exports)?,
    })
}

/// An export as the plan has it.
#[tactic(auto, unfolding(crate::specs::Exports::IsConverted))]
fn item_of(
    alloc: Global,
    graph: &ComponentDfg,
    finish: &Finish,
    types: &ModuleTypes,
    item: Export,
) -> Result<pc_info::Export, NoMemory>
    requires ready { IsReadyItem graph.now finish.now item }
    requires numbered { IsExportable graph.now finish.now item }
    requires typed { IsTyped types.now item }
    ensures { IfOk result (λ e. IsConverted graph.now types.now finish.now item e) }
{
    match item {
        Export::LiftedFunction { ty, func, options } => {
            lifted(alloc, graph, finish, ty, &func, options)
        }
        Export::ImportedFunction { ty, import } => {
            Ok(pc_info::Export::ImportedFunction { ty, import })
        }
        Export::ModuleStatic { ty, index } => Ok(pc_info::Export::ModuleStatic {
            ty: types.at(ty),
            index,
        }),
        Export::ModuleImport { ty, import } => Ok(pc_info::Export::ModuleImport { ty, import }),
        Export::Instance { ty, exports } => instance(alloc, ty, exports),
        Export::Type_(ty) => Ok(pc_info::Export::Type_(ty)),
    }
}

/// Adds an export at the end.
fn push_item(items: &mut Vec<pc_info::Export>, item: pc_info::Export) -> Result<(), NoMemory>
    ensures { OnOk result (items.new.items ≡ items.old.items ++ item ∷ []) }
{
    Ok(items.push(item)?)
}

/// Gives back the memory of exports that were taken, once less than half of it is in use. While a list is emptied this
/// moves no more exports in all than there were.
fn give_back_half(exports: &mut Vec<Export>)
    ensures { exports.new.items ≡ exports.old.items }
{
    if exports.len() < exports.capacity() / 2 {
        exports.shrink_to_fit();
    }
}

/// Exports as the plan has them, in their order. They are taken from the end, so that their memory can be given back.
fn items_of(
    alloc: Global,
    graph: &ComponentDfg,
    finish: &Finish,
    types: &ModuleTypes,
    exports: Vec<Export>,
) -> Result<PrimaryMap<ExportIndex, pc_info::Export>, NoMemory>
    requires can { All (CanConvert graph.now types.now finish.now) exports.items }
    ensures { IfOk result (λ items. AllZip (IsConverted graph.now types.now finish.now) exports.items items) }
{
    let mut left = exports;
    let mut items = Vec::with_capacity(alloc, left.len())?;
    while let Some(export) = left.pop() {
        let item = item_of(alloc, graph, finish, types, export)?;
        push_item(&mut items, item)?;
        give_back_half(&mut left);
    }
    items.reverse();
    Ok(PrimaryMap::from_vec(items))
}

/// Takes the names of the exports out of a graph.
fn take_names(
    alloc: Global,
    graph: &mut ComponentDfg,
) -> TextMap<(ExportIndex, ComponentExternData)>
    ensures names { result ≡ graph.old.exports }
    ensures rest { graph.new ≡ record graph.old { exports = [] } }
{
    let seed = graph.exports.seed();
    mem::replace(&mut graph.exports, TextMap::new(alloc, seed))
}

/// Takes the items of the exports out of a graph.
fn take_items(alloc: Global, graph: &mut ComponentDfg) -> Vec<Export>
    ensures items { result.items ≡ graph.old.export_items }
    ensures rest { graph.new ≡ record graph.old { export_items = [] } }
{
    mem::replace(&mut graph.export_items, PrimaryMap::new(alloc)).into_vec()
}

/// What the plan exports, made with all that it depends on. Module types of the table have these types. The graph has
/// no exports then.
pub(crate) fn exports(
    alloc: Global,
    graph: &mut ComponentDfg,
    finish: &mut Finish,
    types: &ModuleTypes,
) -> Result<Exported, FinishError>
    requires ordered { IsOrdered graph.old }
    requires grouped { IsGrouped graph.old }
    requires all_made { length finish.old.instances ≡ length graph.old.instances }
    requires fits { Fits graph.old finish.old }
    requires typed { All (IsTyped types.now) graph.old.export_items }
    ensures further { OnOk result (GoesFurther graph.old finish.old finish.new) }
    ensures only { OnOk result
        (OnlyFromThese graph.old finish.old finish.new (in_exports graph.old graph.old.export_items)) }
    ensures full { result ≡ Err refusal.TooMany → Outgrows graph.old finish.old }
    ensures exports { IfOk result (λ e. Exports graph.old types.now finish.new e.names e.items) }
    ensures rest { OnOk result (graph.new ≡ without_exports graph.old) }
{
    number_items(alloc, graph, finish)?;
    let names = names_of(alloc, take_names(alloc, graph))?;
    let exports = take_items(alloc, graph);
    let items = items_of(alloc, graph, finish, types, exports)?;
    Ok(Exported { names, items })
}
