//! Builtins with one part.
#![tactic(auto, unfolding(crate::specs::Parts::parts_of, crate::specs::Shape::shape_of))]

ghost use Rattle.std.specs.Prelude.{◌≡◌, ◌∷◌, [], IfNone, IfSome};
ghost use Rattle.pc_trampoline.specs.declared.part.Head.TheVariants as front;
ghost use Rattle.pc_trampoline.specs.declared.part.Part.TheVariants as variant;
ghost use Rattle.pc_trampoline.specs.declared.part.PartList.TheVariants as list;
ghost use Rattle.pc_trampoline.specs.Parts.{error_context_part, future_part, made_of, parts_of, resource_part};
ghost use Rattle.pc_trampoline.specs.Parts.{stream_part};
ghost use Rattle.pc_trampoline.specs.Shape as shape;
ghost use Rattle.pc_trampoline.specs.Shape.{HasShape, part_shape};

use crate::{Part, Trampoline};
use pc_entity::RuntimeComponentInstanceIndex;
use pc_types::{
    InterfaceType, TrampolineKind as Kind, TypeComponentLocalErrorContextTableIndex, TypeDef,
    TypeFutureTableIndex, TypeResourceTableIndex, TypeStreamTableIndex,
};

/// A builtin over a resource.
fn over_resource<L: Copy, O: Copy, M: Copy, T: Copy, C: Copy, P: Copy>(
    kind: Kind,
    instance: RuntimeComponentInstanceIndex,
    ty: TypeResourceTableIndex,
) -> Option<Trampoline<L, O, M, T, C, P>>
    ensures some { IfSome result (λ t. parts_of t ≡ made_of kind (front.Builtin instance)
        (list.One (resource_part ty))) }
    ensures none { IfNone result (¬ HasShape kind shape.builtin (shape.resource ∷ [])) }
{
    match kind {
        Kind::ResourceNew => Some(Trampoline::ResourceNew { instance, ty }),
        Kind::ResourceRep => Some(Trampoline::ResourceRep { instance, ty }),
        Kind::ResourceDrop => Some(Trampoline::ResourceDrop { instance, ty }),
        _ => None,
    }
}

/// A builtin over a stream.
fn over_stream<L: Copy, O: Copy, M: Copy, T: Copy, C: Copy, P: Copy>(
    kind: Kind,
    instance: RuntimeComponentInstanceIndex,
    ty: TypeStreamTableIndex,
) -> Option<Trampoline<L, O, M, T, C, P>>
    ensures some { IfSome result (λ t. parts_of t ≡ made_of kind (front.Builtin instance) (list.One (stream_part ty))) }
    ensures none { IfNone result (¬ HasShape kind shape.builtin (shape.stream ∷ [])) }
{
    match kind {
        Kind::StreamNew => Some(Trampoline::StreamNew { instance, ty }),
        Kind::StreamDropReadable => Some(Trampoline::StreamDropReadable { instance, ty }),
        Kind::StreamDropWritable => Some(Trampoline::StreamDropWritable { instance, ty }),
        _ => None,
    }
}

/// A builtin over a future.
fn over_future<L: Copy, O: Copy, M: Copy, T: Copy, C: Copy, P: Copy>(
    kind: Kind,
    instance: RuntimeComponentInstanceIndex,
    ty: TypeFutureTableIndex,
) -> Option<Trampoline<L, O, M, T, C, P>>
    ensures some { IfSome result (λ t. parts_of t ≡ made_of kind (front.Builtin instance) (list.One (future_part ty))) }
    ensures none { IfNone result (¬ HasShape kind shape.builtin (shape.future ∷ [])) }
{
    match kind {
        Kind::FutureNew => Some(Trampoline::FutureNew { instance, ty }),
        Kind::FutureDropReadable => Some(Trampoline::FutureDropReadable { instance, ty }),
        Kind::FutureDropWritable => Some(Trampoline::FutureDropWritable { instance, ty }),
        _ => None,
    }
}

/// A builtin over error contexts.
fn over_error_context<L: Copy, O: Copy, M: Copy, T: Copy, C: Copy, P: Copy>(
    kind: Kind,
    instance: RuntimeComponentInstanceIndex,
    ty: TypeComponentLocalErrorContextTableIndex,
) -> Option<Trampoline<L, O, M, T, C, P>>
    ensures some { IfSome result (λ t. parts_of t ≡ made_of kind (front.Builtin instance)
        (list.One (error_context_part ty))) }
    ensures none { IfNone result (¬ HasShape kind shape.builtin (shape.error_context ∷ [])) }
{
    match kind {
        Kind::ErrorContextDrop => Some(Trampoline::ErrorContextDrop { instance, ty }),
        _ => None,
    }
}

/// A builtin with options.
fn with_options<L: Copy, O: Copy, M: Copy, T: Copy, C: Copy, P: Copy>(
    kind: Kind,
    instance: RuntimeComponentInstanceIndex,
    options: O,
) -> Option<Trampoline<L, O, M, T, C, P>>
    ensures some { IfSome result (λ t. parts_of t ≡ made_of kind (front.Builtin instance)
        (list.One (variant.Options options))) }
    ensures none { IfNone result (¬ HasShape kind shape.builtin (shape.options ∷ [])) }
{
    match kind {
        Kind::WaitableSetWait => Some(Trampoline::WaitableSetWait { instance, options }),
        Kind::WaitableSetPoll => Some(Trampoline::WaitableSetPoll { instance, options }),
        _ => None,
    }
}

/// A builtin that may be async.
fn with_flag<L: Copy, O: Copy, M: Copy, T: Copy, C: Copy, P: Copy>(
    kind: Kind,
    instance: RuntimeComponentInstanceIndex,
    async_: bool,
) -> Option<Trampoline<L, O, M, T, C, P>>
    ensures some { IfSome result (λ t. parts_of t ≡ made_of kind (front.Builtin instance)
        (list.One (variant.Flag async_))) }
    ensures none { IfNone result (¬ HasShape kind shape.builtin (shape.flag ∷ [])) }
{
    match kind {
        Kind::SubtaskCancel => Some(Trampoline::SubtaskCancel { instance, async_ }),
        _ => None,
    }
}

/// A builtin with a part.
#[tactic(auto)]
pub(crate) fn builtin<L: Copy, O: Copy, M: Copy, T: Copy, C: Copy, P: Copy>(
    kind: Kind,
    instance: RuntimeComponentInstanceIndex,
    part: Part<O, M, T, C, P>,
) -> Option<Trampoline<L, O, M, T, C, P>>
    ensures some { IfSome result (λ t. parts_of t ≡ made_of kind (front.Builtin instance) (list.One part)) }
    ensures none { IfNone result (¬ HasShape kind shape.builtin (part_shape part ∷ [])) }
{
    match part {
        Part::Type_(TypeDef::Resource(ty)) => over_resource(kind, instance, ty),
        Part::Type_(TypeDef::Interface(InterfaceType::Stream(ty))) => {
            over_stream(kind, instance, ty)
        }
        Part::Type_(TypeDef::Interface(InterfaceType::Future(ty))) => {
            over_future(kind, instance, ty)
        }
        Part::Type_(TypeDef::Interface(InterfaceType::ErrorContext(ty))) => {
            over_error_context(kind, instance, ty)
        }
        Part::Options(options) => with_options(kind, instance, options),
        Part::Flag(async_) => with_flag(kind, instance, async_),
        _ => None,
    }
}
