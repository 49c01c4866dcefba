//! Builtins put together, declared once, and core functions.

ghost use Rattle.std.specs.Prelude.{◌≡◌, All, map, IfErr, IfOk};
ghost use Rattle.pc_trampoline.specs.declared.part.Head.TheVariants as front;
ghost use Rattle.pc_trampoline.specs.Parts.{list_of, made_of, parts_of};
ghost use Rattle.pc_trampoline.specs.Shape as shape;
ghost use Rattle.pc_trampoline.specs.Shape.{HasShape, part_shape};
ghost use Rattle.pc_trampoline.specs.View.{part_by};
ghost use Rattle.pc_dfg.specs.Held.{HasBegun, HeldPart};
ghost use Rattle.pc_dfg.specs.Numbers.{graph_numbers};
ghost use Rattle.pc_inline_state.specs.AddsEach.{AddsEach, in_trampolines};
ghost use Rattle.pc_inline_state.specs.Refused.{LacksRoom};
ghost use Rattle.pc_inline_state.specs.Tables.{Keeps, tables_of};
ghost use Rattle.pc_inline_builtins.specs.Made.{Declares};
ghost use Rattle.pc_inline_builtins.specs.Written.{both_of};

use pc_dfg::{CallbackId, MemoryId, OptionsId, PostReturnId, TableId, Trampoline};
use pc_entity::{ModuleInternedTypeIndex, RuntimeComponentInstanceIndex};
use pc_inline_state::{Context, CoreId, ItemError, State};
use pc_trampoline::{Head, PartList, Parts};
use pc_types::TrampolineKind;

/// A part of a builtin, with the numbers of a graph.
pub type Part = pc_trampoline::Part<OptionsId, MemoryId, TableId, CallbackId, PostReturnId>;

/// None, one or two parts, in order.
pub(crate) fn together(first: Option<Part>, second: Option<Part>) -> PartList<Part>
    ensures { list_of result ≡ both_of first second }
{
    match first {
        None => match second {
            None => PartList::Empty,
            Some(second) => PartList::One(second),
        },
        Some(first) => match second {
            None => PartList::One(first),
            Some(second) => PartList::Two(first, second),
        },
    }
}

/// The trampoline of a builtin whose parts are those of its kind.
fn trampoline_of(
    kind: TrampolineKind,
    instance: RuntimeComponentInstanceIndex,
    parts: PartList<Part>,
) -> Trampoline
    requires shaped { HasShape kind shape.builtin (map part_shape (list_of parts)) }
    ensures { parts_of result ≡ made_of kind (front.Builtin instance) parts }
{
    let made_of = Parts {
        kind,
        head: Head::Builtin(instance),
        parts,
    };
    match Trampoline::from_parts(made_of) {
        Some(trampoline) => trampoline,
        None => unreachable!(),
    }
}

/// A builtin is declared under its core signature, unless an equal one was.
pub(crate) fn declare(
    context: &Context<'_>,
    state: &mut State<'_>,
    kind: TrampolineKind,
    instance: RuntimeComponentInstanceIndex,
    core_type: ModuleInternedTypeIndex,
    parts: PartList<Part>,
) -> Result<CoreId, ItemError>
    requires shaped { HasShape kind shape.builtin (map part_shape (list_of parts)) }
    requires begun { HasBegun state.old.graph instance.0 }
    requires held { All (HeldPart state.old.graph) (map (part_by graph_numbers) (list_of parts)) }
    ensures keeps { Keeps (tables_of state.old) (tables_of state.new) }
    ensures adds { AddsEach in_trampolines 1 0 (tables_of state.old) (tables_of state.new) }
    ensures declares { IfOk result (Declares context.now.table.now context.now.modules state.old state.new
        kind instance core_type (list_of parts)) }
    ensures err { IfErr result (LacksRoom state.new) }
{
    state.push_trampoline(core_type, trampoline_of(kind, instance, parts))
}
