//! The trampolines of a plan, a line each.
//!
//! A line goes by what the trampoline is made of, so nothing here has a case for each kind. Core signatures and types
//! aren't printed, and so a line is the same under each signature.

ghost use Rattle.std.specs.Prelude.{◌≡◌, ◌++◌, List, map, OnOk};
ghost use Rattle.std.specs.List.{flat_map};
ghost use Rattle.pc_numbers.specs.declared.module_entity.ModuleInternedTypeIndex.{ModuleInternedTypeIndex};
ghost use Rattle.pc_spec_plan.specs.Text.{number, numbered, trampoline_line};
ghost use Rattle.pc_spec_plan.specs.Text.{part as part_text};
ghost use Rattle.pc_trampoline.specs.Parts.{list_of};
ghost use Rattle.pc_trampoline.specs.View.{entry_view, part_by, plan_numbers};
ghost use Rattle.pc_info.specs.View.{trampolines_view};
ghost use Rattle.pc_text.specs.TrampolineText.{after_symbol};

use pc_entity::{
    LoweredIndex, ModuleInternedTypeIndex, NoMemory, OptionsIndex, RuntimeComponentInstanceIndex,
};
use pc_info::Trampoline;
use pc_text_pieces::{async_word, put, put_key, put_maybe_key, put_number};
use pc_trampoline::{Head, Part, PartList, PlanPart, PlanParts};
use std::alloc::Global;

/// A part. A type isn't printed.
fn put_part(out: &mut Vec<u8>, which: PlanPart) -> Result<(), NoMemory>
    ensures { OnOk result (out.new.items ≡ out.old.items ++ part_text (part_by plan_numbers which)) }
{
    match which {
        Part::Type_(_) => Ok(()),
        Part::Number(n) => put_number(out, u64::from(n)),
        Part::Flag(is_async) => put(out, async_word(is_async)),
        Part::Memory(slot) => put_key(out, slot),
        Part::MaybeMemory(slot) => put_maybe_key(out, slot),
        Part::Table(slot) => put_key(out, slot),
        Part::Callback(slot) => put_maybe_key(out, slot),
        Part::PostReturn(slot) => put_maybe_key(out, slot),
        Part::Options(options) => put_key(out, options),
    }
}

/// Parts, one after the other.
fn put_parts(out: &mut Vec<u8>, parts: PartList<PlanPart>) -> Result<(), NoMemory>
    ensures { OnOk result (out.new.items
        ≡ out.old.items ++ flat_map part_text (map (part_by plan_numbers) (list_of parts))) }
{
    match parts {
        PartList::Empty => Ok(()),
        PartList::One(which) => put_part(out, which),
        PartList::Two(first, second) => {
            put_part(out, first)?;
            put_part(out, second)
        }
    }
}

/// What follows the symbol of a lowering.
fn put_lowering(
    out: &mut Vec<u8>,
    index: LoweredIndex,
    options: OptionsIndex,
) -> Result<(), NoMemory>
    ensures { OnOk result (out.new.items ≡ out.old.items ++ number index.0 ++ number options.0) }
{
    put_key(out, index)?;
    put_key(out, options)
}

/// What follows the symbol of a builtin.
fn put_builtin(
    out: &mut Vec<u8>,
    instance: RuntimeComponentInstanceIndex,
    parts: PartList<PlanPart>,
) -> Result<(), NoMemory>
    ensures { OnOk result (out.new.items
        ≡ out.old.items ++ number instance.0 ++ flat_map part_text (map (part_by plan_numbers) (list_of parts))) }
{
    put_key(out, instance)?;
    put_parts(out, parts)
}

/// What follows the symbol.
fn put_made(out: &mut Vec<u8>, made: PlanParts) -> Result<(), NoMemory>
    ensures { OnOk result (out.new.items ≡ out.old.items ++ after_symbol made) }
{
    match made.head {
        Head::Lowering(index, _, options) => put_lowering(out, index, options),
        Head::Builtin(instance) => put_builtin(out, instance, made.parts),
        Head::Helper => put_parts(out, made.parts),
        Head::Transcoding(_, _, _) => put_parts(out, made.parts),
        Head::Trapping(_) => put_parts(out, made.parts),
    }
}

/// The line of the trampoline of a number.
fn put_trampoline(
    out: &mut Vec<u8>,
    alloc: Global,
    n: usize,
    trampoline: &Trampoline,
) -> Result<(), NoMemory>
    ensures { (signature : ModuleInternedTypeIndex) → OnOk result (out.new.items
        ≡ out.old.items ++ trampoline_line n (entry_view signature trampoline.now)) }
{
    let symbol = trampoline.symbol_name(alloc)?;
    put(out, "trampoline")?;
    put_number(out, n as u64)?;
    put(out, " ")?;
    put(out, symbol.as_str())?;
    put_made(out, trampoline.parts())?;
    put(out, "\n")
}

/// A line for each trampoline, with its number.
pub(crate) fn put_trampolines(
    out: &mut Vec<u8>,
    alloc: Global,
    trampolines: &[Trampoline],
) -> Result<(), NoMemory>
    ensures { (signatures : List ModuleInternedTypeIndex) → OnOk result (out.new.items
        ≡ out.old.items ++ numbered trampoline_line 0 (trampolines_view 0 signatures trampolines.now)) }
{
    for (n, trampoline) in trampolines.iter().enumerate() {
        put_trampoline(out, alloc, n, trampoline)?;
    }
    Ok(())
}
