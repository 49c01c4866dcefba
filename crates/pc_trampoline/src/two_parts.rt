//! Builtins with two parts. The second one says where to look.
#![tactic(auto, unfolding(crate::specs::Parts::parts_of, crate::specs::Shape::shape_of))]

ghost use Rattle.std.specs.Prelude.{◌≡◌, ◌∷◌, [], IfNone, IfSome};
ghost use Rattle.pc_trampoline.specs.declared.part.Head.TheVariants as front;
ghost use Rattle.pc_trampoline.specs.declared.part.Part.TheVariants as variant;
ghost use Rattle.pc_trampoline.specs.declared.part.PartList.TheVariants as list;
ghost use Rattle.pc_trampoline.specs.Parts.{error_context_part, future_part, made_of, parts_of, stream_part};
ghost use Rattle.pc_trampoline.specs.Parts.{tuple_part};
ghost use Rattle.pc_trampoline.specs.Shape as shape;
ghost use Rattle.pc_trampoline.specs.Shape.{HasShape, part_shape};

use crate::{Part, Trampoline};
use pc_entity::{ComponentTypeIndex, RuntimeComponentInstanceIndex};
use pc_types::{
    InterfaceType, TrampolineKind as Kind, TypeComponentLocalErrorContextTableIndex, TypeDef,
    TypeFutureTableIndex, TypeStreamTableIndex, TypeTupleIndex,
};

/// A builtin over a tuple, with options.
fn tuple_with_options<L: Copy, O: Copy, M: Copy, T: Copy, C: Copy, P: Copy>(
    kind: Kind,
    instance: RuntimeComponentInstanceIndex,
    results: TypeTupleIndex,
    options: O,
) -> Option<Trampoline<L, O, M, T, C, P>>
    ensures some { IfSome result (λ t. parts_of t ≡ made_of kind (front.Builtin instance)
        (list.Two (tuple_part results) (variant.Options options))) }
    ensures none { IfNone result (¬ HasShape kind shape.builtin (shape.tuple ∷ shape.options ∷ [])) }
{
    match kind {
        Kind::TaskReturn => Some(Trampoline::TaskReturn {
            instance,
            results,
            options,
        }),
        _ => None,
    }
}

/// A builtin over a stream, with options.
fn stream_with_options<L: Copy, O: Copy, M: Copy, T: Copy, C: Copy, P: Copy>(
    kind: Kind,
    instance: RuntimeComponentInstanceIndex,
    ty: TypeStreamTableIndex,
    options: O,
) -> Option<Trampoline<L, O, M, T, C, P>>
    ensures some { IfSome result (λ t. parts_of t ≡ made_of kind (front.Builtin instance)
        (list.Two (stream_part ty) (variant.Options options))) }
    ensures none { IfNone result (¬ HasShape kind shape.builtin (shape.stream ∷ shape.options ∷ [])) }
{
    match kind {
        Kind::StreamRead => Some(Trampoline::StreamRead {
            instance,
            ty,
            options,
        }),
        Kind::StreamWrite => Some(Trampoline::StreamWrite {
            instance,
            ty,
            options,
        }),
        _ => None,
    }
}

/// A builtin over a future, with options.
fn future_with_options<L: Copy, O: Copy, M: Copy, T: Copy, C: Copy, P: Copy>(
    kind: Kind,
    instance: RuntimeComponentInstanceIndex,
    ty: TypeFutureTableIndex,
    options: O,
) -> Option<Trampoline<L, O, M, T, C, P>>
    ensures some { IfSome result (λ t. parts_of t ≡ made_of kind (front.Builtin instance)
        (list.Two (future_part ty) (variant.Options options))) }
    ensures none { IfNone result (¬ HasShape kind shape.builtin (shape.future ∷ shape.options ∷ [])) }
{
    match kind {
        Kind::FutureRead => Some(Trampoline::FutureRead {
            instance,
            ty,
            options,
        }),
        Kind::FutureWrite => Some(Trampoline::FutureWrite {
            instance,
            ty,
            options,
        }),
        _ => None,
    }
}

/// A builtin over error contexts, with options.
fn error_context_with_options<L: Copy, O: Copy, M: Copy, T: Copy, C: Copy, P: Copy>(
    kind: Kind,
    instance: RuntimeComponentInstanceIndex,
    ty: TypeComponentLocalErrorContextTableIndex,
    options: O,
) -> Option<Trampoline<L, O, M, T, C, P>>
    ensures some { IfSome result (λ t. parts_of t ≡ made_of kind (front.Builtin instance)
        (list.Two (error_context_part ty) (variant.Options options))) }
    ensures none { IfNone result (¬ HasShape kind shape.builtin (shape.error_context ∷ shape.options ∷ [])) }
{
    match kind {
        Kind::ErrorContextNew => Some(Trampoline::ErrorContextNew {
            instance,
            ty,
            options,
        }),
        Kind::ErrorContextDebugMessage => Some(Trampoline::ErrorContextDebugMessage {
            instance,
            ty,
            options,
        }),
        _ => None,
    }
}

/// A builtin over a stream that may be async.
fn stream_with_flag<L: Copy, O: Copy, M: Copy, T: Copy, C: Copy, P: Copy>(
    kind: Kind,
    instance: RuntimeComponentInstanceIndex,
    ty: TypeStreamTableIndex,
    async_: bool,
) -> Option<Trampoline<L, O, M, T, C, P>>
    ensures some { IfSome result (λ t. parts_of t ≡ made_of kind (front.Builtin instance)
        (list.Two (stream_part ty) (variant.Flag async_))) }
    ensures none { IfNone result (¬ HasShape kind shape.builtin (shape.stream ∷ shape.flag ∷ [])) }
{
    match kind {
        Kind::StreamCancelRead => Some(Trampoline::StreamCancelRead {
            instance,
            ty,
            async_,
        }),
        Kind::StreamCancelWrite => Some(Trampoline::StreamCancelWrite {
            instance,
            ty,
            async_,
        }),
        _ => None,
    }
}

/// A builtin over a future that may be async.
fn future_with_flag<L: Copy, O: Copy, M: Copy, T: Copy, C: Copy, P: Copy>(
    kind: Kind,
    instance: RuntimeComponentInstanceIndex,
    ty: TypeFutureTableIndex,
    async_: bool,
) -> Option<Trampoline<L, O, M, T, C, P>>
    ensures some { IfSome result (λ t. parts_of t ≡ made_of kind (front.Builtin instance)
        (list.Two (future_part ty) (variant.Flag async_))) }
    ensures none { IfNone result (¬ HasShape kind shape.builtin (shape.future ∷ shape.flag ∷ [])) }
{
    match kind {
        Kind::FutureCancelRead => Some(Trampoline::FutureCancelRead {
            instance,
            ty,
            async_,
        }),
        Kind::FutureCancelWrite => Some(Trampoline::FutureCancelWrite {
            instance,
            ty,
            async_,
        }),
        _ => None,
    }
}

/// A builtin with a part, and with options after it.
#[tactic(auto)]
fn before_options<L: Copy, O: Copy, M: Copy, T: Copy, C: Copy, P: Copy>(
    kind: Kind,
    instance: RuntimeComponentInstanceIndex,
    part: Part<O, M, T, C, P>,
    options: O,
) -> Option<Trampoline<L, O, M, T, C, P>>
    ensures some { IfSome result (λ t. parts_of t ≡ made_of kind (front.Builtin instance)
        (list.Two part (variant.Options options))) }
    ensures none { IfNone result (¬ HasShape kind shape.builtin (part_shape part ∷ shape.options ∷ [])) }
{
    match part {
        Part::Type_(TypeDef::Interface(InterfaceType::Tuple(ty))) => {
            tuple_with_options(kind, instance, ty, options)
        }
        Part::Type_(TypeDef::Interface(InterfaceType::Stream(ty))) => {
            stream_with_options(kind, instance, ty, options)
        }
        Part::Type_(TypeDef::Interface(InterfaceType::Future(ty))) => {
            future_with_options(kind, instance, ty, options)
        }
        Part::Type_(TypeDef::Interface(InterfaceType::ErrorContext(ty))) => {
            error_context_with_options(kind, instance, ty, options)
        }
        _ => None,
    }
}

/// A builtin with a part, and with a flag after it.
#[tactic(auto)]
fn before_flag<L: Copy, O: Copy, M: Copy, T: Copy, C: Copy, P: Copy>(
    kind: Kind,
    instance: RuntimeComponentInstanceIndex,
    part: Part<O, M, T, C, P>,
    async_: bool,
) -> Option<Trampoline<L, O, M, T, C, P>>
    ensures some { IfSome result (λ t. parts_of t ≡ made_of kind (front.Builtin instance)
        (list.Two part (variant.Flag async_))) }
    ensures none { IfNone result (¬ HasShape kind shape.builtin (part_shape part ∷ shape.flag ∷ [])) }
{
    match part {
        Part::Type_(TypeDef::Interface(InterfaceType::Stream(ty))) => {
            stream_with_flag(kind, instance, ty, async_)
        }
        Part::Type_(TypeDef::Interface(InterfaceType::Future(ty))) => {
            future_with_flag(kind, instance, ty, async_)
        }
        _ => None,
    }
}

/// The builtin with a table after its first part, a number: it makes a thread.
fn thread_new_indirect<L: Copy, O: Copy, M: Copy, T: Copy, C: Copy, P: Copy>(
    kind: Kind,
    instance: RuntimeComponentInstanceIndex,
    part: Part<O, M, T, C, P>,
    start_func_table_idx: T,
) -> Option<Trampoline<L, O, M, T, C, P>>
    ensures some { IfSome result (λ t. parts_of t ≡ made_of kind (front.Builtin instance)
        (list.Two part (variant.Table start_func_table_idx))) }
    ensures none { IfNone result (¬ HasShape kind shape.builtin (part_shape part ∷ shape.table ∷ [])) }
{
    match kind {
        Kind::ThreadNewIndirect => match part {
            Part::Number(number) => Some(Trampoline::ThreadNewIndirect {
                instance,
                start_func_ty_idx: ComponentTypeIndex(number),
                start_func_table_idx,
            }),
            _ => None,
        },
        _ => None,
    }
}

/// A builtin with two parts.
#[tactic(auto)]
pub(crate) fn builtin<L: Copy, O: Copy, M: Copy, T: Copy, C: Copy, P: Copy>(
    kind: Kind,
    instance: RuntimeComponentInstanceIndex,
    first: Part<O, M, T, C, P>,
    second: Part<O, M, T, C, P>,
) -> Option<Trampoline<L, O, M, T, C, P>>
    ensures some { IfSome result (λ t. parts_of t ≡ made_of kind (front.Builtin instance) (list.Two first second)) }
    ensures none { IfNone result (¬ HasShape kind shape.builtin (part_shape first ∷ part_shape second ∷ [])) }
{
    match second {
        Part::Options(options) => before_options(kind, instance, first, options),
        Part::Flag(async_) => before_flag(kind, instance, first, async_),
        Part::Table(table) => thread_new_indirect(kind, instance, first, table),
        _ => None,
    }
}
