//! What is no builtin, put together from its parts: a lowering, a transcoder, a trap or another helper.
#![tactic(auto, unfolding(crate::specs::Parts::parts_of, crate::specs::Shape::shape_of))]

ghost use Rattle.std.specs.Prelude.{◌≡◌, ◌∷◌, [], map, IfNone, IfSome};
ghost use Rattle.pc_trampoline.specs.declared.part.Head.TheVariants as front;
ghost use Rattle.pc_trampoline.specs.declared.part.PartList.TheVariants as list;
ghost use Rattle.pc_trampoline.specs.Parts.{list_of, made_of, parts_of};
ghost use Rattle.pc_trampoline.specs.Shape as shape;
ghost use Rattle.pc_trampoline.specs.Shape.{HasShape, part_shape};

use crate::{Part, PartList, Trampoline, Transcode, Trap};
use pc_types::{TrampolineKind as Kind, TypeFuncIndex};

/// A helper without parts.
fn bare<L: Copy, O: Copy, M: Copy, T: Copy, C: Copy, P: Copy>(
    kind: Kind,
) -> Option<Trampoline<L, O, M, T, C, P>>
    ensures some { IfSome result (λ t. parts_of t ≡ made_of kind front.Helper list.Empty) }
    ensures none { IfNone result (¬ HasShape kind shape.helper []) }
{
    match kind {
        Kind::ResourceTransferOwn => Some(Trampoline::ResourceTransferOwn),
        Kind::ResourceTransferBorrow => Some(Trampoline::ResourceTransferBorrow),
        Kind::FutureTransfer => Some(Trampoline::FutureTransfer),
        Kind::StreamTransfer => Some(Trampoline::StreamTransfer),
        Kind::ErrorContextTransfer => Some(Trampoline::ErrorContextTransfer),
        Kind::EnterSyncCall => Some(Trampoline::EnterSyncCall),
        Kind::ExitSyncCall => Some(Trampoline::ExitSyncCall),
        _ => None,
    }
}

/// The helper with a part: it prepares a call.
fn prepare_call<L: Copy, O: Copy, M: Copy, T: Copy, C: Copy, P: Copy>(
    kind: Kind,
    part: Part<O, M, T, C, P>,
) -> Option<Trampoline<L, O, M, T, C, P>>
    ensures some { IfSome result (λ t. parts_of t ≡ made_of kind front.Helper (list.One part)) }
    ensures none { IfNone result (¬ HasShape kind shape.helper (part_shape part ∷ [])) }
{
    match kind {
        Kind::PrepareCall => match part {
            Part::MaybeMemory(memory) => Some(Trampoline::PrepareCall { memory }),
            _ => None,
        },
        _ => None,
    }
}

/// The helper with two parts: it starts a call.
fn start_call<L: Copy, O: Copy, M: Copy, T: Copy, C: Copy, P: Copy>(
    kind: Kind,
    first: Part<O, M, T, C, P>,
    second: Part<O, M, T, C, P>,
) -> Option<Trampoline<L, O, M, T, C, P>>
    ensures some { IfSome result (λ t. parts_of t ≡ made_of kind front.Helper (list.Two first second)) }
    ensures none { IfNone result (¬ HasShape kind shape.helper (part_shape first ∷ part_shape second ∷ [])) }
{
    match kind {
        Kind::StartCall => match first {
            Part::Callback(callback) => match second {
                Part::PostReturn(post_return) => Some(Trampoline::StartCall {
                    callback,
                    post_return,
                }),
                _ => None,
            },
            _ => None,
        },
        _ => None,
    }
}

/// A helper other than a transcoder and a trap.
#[tactic(auto)]
pub(crate) fn of<L: Copy, O: Copy, M: Copy, T: Copy, C: Copy, P: Copy>(
    kind: Kind,
    parts: PartList<Part<O, M, T, C, P>>,
) -> Option<Trampoline<L, O, M, T, C, P>>
    ensures some { IfSome result (λ t. parts_of t ≡ made_of kind front.Helper parts) }
    ensures none { IfNone result (¬ HasShape kind shape.helper (map part_shape (list_of parts))) }
{
    match parts {
        PartList::Empty => bare(kind),
        PartList::One(part) => prepare_call(kind, part),
        PartList::Two(first, second) => start_call(kind, first, second),
    }
}

/// A transcoder.
pub(crate) fn transcoder<L: Copy, O: Copy, M: Copy, T: Copy, C: Copy, P: Copy>(
    kind: Kind,
    op: Transcode,
    from64: bool,
    to64: bool,
    parts: PartList<Part<O, M, T, C, P>>,
) -> Option<Trampoline<L, O, M, T, C, P>>
    ensures some { IfSome result (λ t. parts_of t ≡ made_of kind (front.Transcoding op from64 to64) parts) }
    ensures none { IfNone result (¬ HasShape kind shape.transcoding (map part_shape (list_of parts))) }
{
    match kind {
        Kind::Transcoder => match parts {
            PartList::Two(Part::Memory(from), Part::Memory(to)) => Some(Trampoline::Transcoder {
                op,
                from,
                from64,
                to,
                to64,
            }),
            _ => None,
        },
        _ => None,
    }
}

/// A lowering.
pub(crate) fn lowering<L: Copy, O: Copy, M: Copy, T: Copy, C: Copy, P: Copy>(
    kind: Kind,
    index: L,
    lower_ty: TypeFuncIndex,
    options: O,
    parts: PartList<Part<O, M, T, C, P>>,
) -> Option<Trampoline<L, O, M, T, C, P>>
    ensures some { IfSome result (λ t. parts_of t ≡ made_of kind (front.Lowering index lower_ty options) parts) }
    ensures none { IfNone result (¬ HasShape kind shape.lowering (map part_shape (list_of parts))) }
{
    match kind {
        Kind::LowerImport => match parts {
            PartList::Empty => Some(Trampoline::LowerImport {
                index,
                lower_ty,
                options,
            }),
            _ => None,
        },
        _ => None,
    }
}

/// A trap.
pub(crate) fn trap<L: Copy, O: Copy, M: Copy, T: Copy, C: Copy, P: Copy>(
    kind: Kind,
    code: Trap,
    parts: PartList<Part<O, M, T, C, P>>,
) -> Option<Trampoline<L, O, M, T, C, P>>
    ensures some { IfSome result (λ t. parts_of t ≡ made_of kind (front.Trapping code) parts) }
    ensures none { IfNone result (¬ HasShape kind shape.trapping (map part_shape (list_of parts))) }
{
    match kind {
        Kind::Trap => match parts {
            PartList::Empty => Some(Trampoline::Trap(code)),
            _ => None,
        },
        _ => None,
    }
}
