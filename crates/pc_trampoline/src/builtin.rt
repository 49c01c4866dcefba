//! Builtins put together from the component instance that they are declared in and their parts.

ghost use Rattle.std.specs.Prelude.{◌≡◌, [], map, IfNone, IfSome};
ghost use Rattle.pc_trampoline.specs.declared.part.Head.TheVariants as front;
ghost use Rattle.pc_trampoline.specs.declared.part.PartList.TheVariants as list;
ghost use Rattle.pc_trampoline.specs.Parts.{list_of, made_of, parts_of};
ghost use Rattle.pc_trampoline.specs.Shape as shape;
ghost use Rattle.pc_trampoline.specs.Shape.{HasShape, part_shape};

use crate::{Part, PartList, Trampoline, one_part, two_parts};
use pc_entity::RuntimeComponentInstanceIndex;
use pc_types::TrampolineKind as Kind;

/// A builtin without parts.
#[tactic(auto, unfolding(crate::specs::Parts::parts_of, crate::specs::Shape::shape_of))]
fn plain<L: Copy, O: Copy, M: Copy, T: Copy, C: Copy, P: Copy>(
    kind: Kind,
    instance: RuntimeComponentInstanceIndex,
) -> Option<Trampoline<L, O, M, T, C, P>>
    ensures some { IfSome result (λ t. parts_of t ≡ made_of kind (front.Builtin instance) list.Empty) }
    ensures none { IfNone result (¬ HasShape kind shape.builtin []) }
{
    match kind {
        Kind::BackpressureInc => Some(Trampoline::BackpressureInc { instance }),
        Kind::BackpressureDec => Some(Trampoline::BackpressureDec { instance }),
        Kind::TaskCancel => Some(Trampoline::TaskCancel { instance }),
        Kind::WaitableSetNew => Some(Trampoline::WaitableSetNew { instance }),
        Kind::WaitableSetDrop => Some(Trampoline::WaitableSetDrop { instance }),
        Kind::WaitableJoin => Some(Trampoline::WaitableJoin { instance }),
        Kind::SubtaskDrop => Some(Trampoline::SubtaskDrop { instance }),
        Kind::ThreadIndex => Some(Trampoline::ThreadIndex { instance }),
        Kind::ThreadResumeLater => Some(Trampoline::ThreadResumeLater { instance }),
        Kind::ThreadSuspend => Some(Trampoline::ThreadSuspend { instance }),
        Kind::ThreadYield => Some(Trampoline::ThreadYield { instance }),
        Kind::ThreadSuspendThenResume => Some(Trampoline::ThreadSuspendThenResume { instance }),
        Kind::ThreadYieldThenResume => Some(Trampoline::ThreadYieldThenResume { instance }),
        Kind::ThreadSuspendThenPromote => Some(Trampoline::ThreadSuspendThenPromote { instance }),
        Kind::ThreadYieldThenPromote => Some(Trampoline::ThreadYieldThenPromote { instance }),
        _ => None,
    }
}

/// A builtin.
pub(crate) fn of<L: Copy, O: Copy, M: Copy, T: Copy, C: Copy, P: Copy>(
    kind: Kind,
    instance: RuntimeComponentInstanceIndex,
    parts: PartList<Part<O, M, T, C, P>>,
) -> Option<Trampoline<L, O, M, T, C, P>>
    ensures some { IfSome result (λ t. parts_of t ≡ made_of kind (front.Builtin instance) parts) }
    ensures none { IfNone result (¬ HasShape kind shape.builtin (map part_shape (list_of parts))) }
{
    match parts {
        PartList::Empty => plain(kind, instance),
        PartList::One(part) => one_part::builtin(kind, instance, part),
        PartList::Two(first, second) => two_parts::builtin(kind, instance, first, second),
    }
}
