//! Definitions of core items.

ghost use Rattle.std.specs.Prelude.{◌≡◌, ◌++◌, codes, map, option_map, OnOk};
ghost use Rattle.std.specs.Fmt.{decimal};
ghost use Rattle.pc_numbers.specs.declared.entity_index.EntityIndex.TheVariants as entity;
ghost use Rattle.pc_spec_plan.specs.CoreValue.{by_index, by_name};
ghost use Rattle.pc_spec_plan.specs.PlanView as plan;
ghost use Rattle.pc_spec_plan.specs.Text.{core_kind, definition, definitions, intrinsic_name, listed, maybe_definition};
ghost use Rattle.pc_types.specs.IntrinsicType.{intrinsic_place};
ghost use Rattle.pc_info.specs.Definitions.{core_export_view, def_view};
ghost use Rattle.pc_info.specs.Mapped.{map_export};
ghost use Rattle.pc_text_pieces.specs.Joined.{separator};

use crate::piece::{put, put_decimal, put_number, put_quoted};
use pc_entity::{EntityIndex, MemoryIndex, NoMemory, RuntimeInstanceIndex, TableIndex};
use pc_info::{CoreDef, CoreExport, ExportItem};
use pc_types::{CoreKind, UnsafeIntrinsic, entity_number};

/// The word for a kind of core item.
fn kind_word(kind: CoreKind) -> &'static str
    ensures { result.now ≡ core_kind kind }
{
    match kind {
        CoreKind::Func => "func",
        CoreKind::Table => "table",
        CoreKind::Memory => "memory",
        CoreKind::Global => "global",
        CoreKind::Tag => "tag",
    }
}

/// What stands before an item of a core instance.
fn put_instance(out: &mut Vec<u8>, instance: RuntimeInstanceIndex) -> Result<(), NoMemory>
    ensures { OnOk result (out.new.items ≡ out.old.items ++ codes "export(" ++ decimal instance.0 ++ codes " ") }
{
    put(out, "export(")?;
    put_decimal(out, u64::from(instance.0))?;
    put(out, " ")
}

/// An item that is known by its entity.
fn put_entity(
    out: &mut Vec<u8>,
    instance: RuntimeInstanceIndex,
    which: EntityIndex,
) -> Result<(), NoMemory>
    ensures { OnOk result (out.new.items
        ≡ out.old.items ++ definition (plan.export instance.0 (by_index which))) }
{
    put_instance(out, instance)?;
    put(out, kind_word(CoreKind::of(which)))?;
    put_number(out, u64::from(entity_number(which)))?;
    put(out, ")")
}

/// An item that is known by its name.
fn put_name(out: &mut Vec<u8>, instance: RuntimeInstanceIndex, name: &str) -> Result<(), NoMemory>
    ensures { OnOk result (out.new.items
        ≡ out.old.items ++ definition (plan.export instance.0 (by_name name.now))) }
{
    put_instance(out, instance)?;
    put_quoted(out, name)?;
    put(out, ")")
}

/// An item of a core instance.
fn put_core_export(out: &mut Vec<u8>, export: &CoreExport<EntityIndex>) -> Result<(), NoMemory>
    ensures { OnOk result (out.new.items ≡ out.old.items ++ definition (core_export_view export.now)) }
{
    match &export.item {
        ExportItem::Index(which) => put_entity(out, export.instance, *which),
        ExportItem::Name(name) => put_name(out, export.instance, name.as_str()),
    }
}

/// A memory of a core instance.
pub fn put_memory(out: &mut Vec<u8>, export: &CoreExport<MemoryIndex>) -> Result<(), NoMemory>
    ensures { OnOk result (out.new.items
        ≡ out.old.items ++ definition (core_export_view (map_export entity.Memory export.now))) }
{
    match &export.item {
        ExportItem::Index(memory) => {
            put_entity(out, export.instance, EntityIndex::Memory(*memory))
        }
        ExportItem::Name(name) => put_name(out, export.instance, name.as_str()),
    }
}

/// A table of a core instance.
pub fn put_table(out: &mut Vec<u8>, export: &CoreExport<TableIndex>) -> Result<(), NoMemory>
    ensures { OnOk result (out.new.items
        ≡ out.old.items ++ definition (core_export_view (map_export entity.Table export.now))) }
{
    match &export.item {
        ExportItem::Index(table) => put_entity(out, export.instance, EntityIndex::Table(*table)),
        ExportItem::Name(name) => put_name(out, export.instance, name.as_str()),
    }
}

/// A number between brackets, behind the word for what it is a number of.
fn put_called(out: &mut Vec<u8>, word: &str, n: u32) -> Result<(), NoMemory>
    ensures { OnOk result (out.new.items ≡ out.old.items ++ word.now ++ codes "(" ++ decimal n ++ codes ")") }
{
    put(out, word)?;
    put(out, "(")?;
    put_decimal(out, u64::from(n))?;
    put(out, ")")
}

/// The name of an intrinsic.
fn put_intrinsic_name(out: &mut Vec<u8>, intrinsic: UnsafeIntrinsic) -> Result<(), NoMemory>
    ensures { OnOk result (out.new.items ≡ out.old.items ++ intrinsic_name (intrinsic_place intrinsic)) }
{
    put(out, intrinsic.name())
}

/// An unsafe intrinsic as a definition.
fn put_intrinsic(out: &mut Vec<u8>, intrinsic: UnsafeIntrinsic) -> Result<(), NoMemory>
    ensures { OnOk result (out.new.items
        ≡ out.old.items ++ definition (plan.intrinsic (intrinsic_place intrinsic))) }
{
    put(out, "intrinsic(")?;
    put_intrinsic_name(out, intrinsic)?;
    put(out, ")")
}

/// What an argument, a slot or an export is made of.
pub fn put_definition(out: &mut Vec<u8>, def: &CoreDef) -> Result<(), NoMemory>
    ensures { OnOk result (out.new.items ≡ out.old.items ++ definition (def_view def.now)) }
{
    match def {
        CoreDef::Export(export) => put_core_export(out, export),
        CoreDef::InstanceFlags(instance) => put_called(out, "flags", instance.0),
        CoreDef::Trampoline(trampoline) => put_called(out, "trampoline", trampoline.0),
        CoreDef::UnsafeIntrinsic(intrinsic) => put_intrinsic(out, *intrinsic),
    }
}

/// A definition after a space, or a dash where there is none.
pub fn put_maybe_definition(out: &mut Vec<u8>, def: &Option<CoreDef>) -> Result<(), NoMemory>
    ensures { OnOk result (out.new.items
        ≡ out.old.items ++ maybe_definition (option_map def_view def.now)) }
{
    match def {
        None => put(out, " -"),
        Some(def) => {
            put(out, " ")?;
            put_definition(out, def)
        }
    }
}

/// What stands before an element of a list.
pub(crate) fn put_separator(out: &mut Vec<u8>, is_first: bool) -> Result<(), NoMemory>
    ensures { OnOk result (out.new.items ≡ out.old.items ++ separator is_first) }
{
    if is_first { Ok(()) } else { put(out, ", ") }
}

/// The definitions with a comma and a space between them.
pub fn put_definitions(out: &mut Vec<u8>, defs: &[CoreDef]) -> Result<(), NoMemory>
    ensures { OnOk result (out.new.items ≡ out.old.items ++ listed (definitions (map def_view defs.now))) }
{
    let mut is_first = true;
    for def in defs {
        put_separator(out, is_first)?;
        put_definition(out, def)?;
        is_first = false;
    }
    Ok(())
}
