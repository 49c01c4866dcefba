//! What is wrong with imports and exports, whose names are those of their component.

ghost use Rattle.std.specs.Prelude.{◌≡◌, ◌∷◌, [], None, IfOk, map};
ghost use Rattle.std.specs.Option.{option_map};
ghost use Rattle.pc_parsed.specs.ItemFaults.{export_fault, export_name, exports_fault, import_fault, import_name};
ghost use Rattle.pc_parsed.specs.ItemFaults.{imports_fault, name_fault};
ghost use Rattle.pc_parsed.specs.Names.{Gains};

use crate::checks::{is_value_kind, value_fault};
use crate::fault::StaticFault;
use crate::interface::import_interface_fault;
use crate::payload::{ExportEntry, ImportItem};
use pc_entity::{NoMemory, Text};
use pc_types::{Entity, NameSet, TypeTable};
use std::alloc::Global;

/// Adds a name, which may not be there yet.
fn name_fault<'a>(names: &mut NameSet<'a>, name: &'a Text) -> Result<Option<StaticFault>, NoMemory>
    ensures fault { IfOk result (λ f. f ≡ name_fault names.old name.now) }
    ensures gains { IfOk result (λ f. f ≡ None → Gains names.old (name.now ∷ []) names.new) }
{
    if names.insert(name)? {
        Ok(None)
    } else {
        Ok(Some(StaticFault::DefinedTwice))
    }
}

fn export_fault<'a>(
    names: &mut NameSet<'a>,
    entry: &'a ExportEntry,
) -> Result<Option<StaticFault>, NoMemory>
    ensures fault { IfOk result (λ f. f ≡ export_fault names.old entry.now) }
    ensures gains { IfOk result (λ f. f ≡ None → Gains names.old (export_name entry.now ∷ []) names.new) }
{
    if is_value_kind(entry.kind) {
        return Ok(value_fault(true));
    }
    name_fault(names, &entry.name.name)
}

/// The first faulty export of a section, where the component exported these names before.
pub(crate) fn exports_fault<'a>(
    names: &mut NameSet<'a>,
    entries: &'a [ExportEntry],
) -> Result<Option<(usize, StaticFault)>, NoMemory>
    ensures fault { IfOk result (λ f. f ≡ exports_fault names.old 0 entries.now) }
    ensures gains { IfOk result (λ f. f ≡ None → Gains names.old (map export_name entries.now) names.new) }
{
    for (n, entry) in entries.iter().enumerate() {
        match export_fault(names, entry)? {
            Some(fault) => return Ok(Some((n, fault))),
            None => {}
        }
    }
    Ok(None)
}

fn import_fault<'a>(
    alloc: Global,
    table: &TypeTable,
    exposed: Option<&str>,
    names: &mut NameSet<'a>,
    item: &'a ImportItem,
) -> Result<Option<StaticFault>, NoMemory>
    ensures fault { IfOk result (λ f. f ≡ import_fault table.now (option_map (λ x. x.now) exposed.entry)
        names.old item.now) }
    ensures gains { IfOk result (λ f. f ≡ None → Gains names.old (import_name item.now ∷ []) names.new) }
{
    if matches!(item.ty, Entity::Value) {
        return Ok(value_fault(true));
    }
    match name_fault(names, &item.name.name)? {
        Some(fault) => Ok(Some(fault)),
        None => import_interface_fault(alloc, table, exposed, &item.name.name, item.ty),
    }
}

/// The first faulty import of a section, where the component imported these names before.
pub(crate) fn imports_fault<'a>(
    alloc: Global,
    table: &TypeTable,
    exposed: Option<&str>,
    names: &mut NameSet<'a>,
    items: &'a [ImportItem],
) -> Result<Option<(usize, StaticFault)>, NoMemory>
    ensures fault { IfOk result (λ f. f ≡ imports_fault table.now (option_map (λ x. x.now) exposed.entry)
        names.old 0 items.now) }
    ensures gains { IfOk result (λ f. f ≡ None → Gains names.old (map import_name items.now) names.new) }
{
    for (n, item) in items.iter().enumerate() {
        match import_fault(alloc, table, exposed, names, item)? {
            Some(fault) => return Ok(Some((n, fault))),
            None => {}
        }
    }
    Ok(None)
}
