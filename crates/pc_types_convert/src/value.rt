//! Value types of a table, converted.

ghost use Rattle.std.specs.Prelude.{◌≡◌, false, Some, Err, IfOk, OnErr, slice_get, is_some};
ghost use Rattle.pc_types_lists.specs.Types.{Grows, IsTooFullFor};
ghost use Rattle.pc_types_convert.specs.Adds.{AddsContexts, no_context_in_val};
ghost use Rattle.pc_types_lists.specs.Primitive.{plain_type};
ghost use Rattle.pc_types_convert.specs.Parts.{IsErrorContext, PrimIs, ValIs, IsReady};
ghost use Rattle.pc_types.specs.declared.types.TypeDef.TheVariants as def;
ghost use Rattle.pc_types.specs.declared.type_index.TypeComponentLocalErrorContextTableIndex.{TypeComponentLocalErrorContextTableIndex};
ghost use Rattle.pc_types.specs.declared.types.InterfaceType.{InterfaceType};

use crate::done::Earlier;
use pc_types::{
    InterfaceType, PrimType, TypeComponentLocalErrorContextTableIndex, TypeDef,
    TypeErrorContextTable, ValType,
};
use pc_types_lists::{InternedTypes, NoPlace};

/// The number of the error contexts of the current component instance.
pub fn error_contexts(
    interned: &mut InternedTypes,
) -> Result<TypeComponentLocalErrorContextTableIndex, NoPlace>
    ensures is { IfOk result (λ i. IsErrorContext interned.new i) }
    ensures grows { Grows interned.old interned.new }
    ensures contexts { AddsContexts false interned.old interned.new }
    ensures err { OnErr result (interned.new ≡ interned.old) }
    ensures full { result ≡ Err NoPlace.TooMany → IsTooFullFor interned.new
        (λ b. (i : TypeComponentLocalErrorContextTableIndex) × IsErrorContext b i) }
{
    let instance = interned.resources().current_instance();
    interned.put_error_context_table(TypeErrorContextTable { instance })
}

/// A primitive.
pub fn primitive(interned: &mut InternedTypes, p: PrimType) -> Result<InterfaceType, NoPlace>
    ensures is { IfOk result (λ w. PrimIs interned.new p w) }
    ensures grows { Grows interned.old interned.new }
    ensures contexts { AddsContexts (is_some (plain_type p)) interned.old interned.new }
    ensures err { OnErr result (interned.new ≡ interned.old) }
    ensures full { result ≡ Err NoPlace.TooMany → IsTooFullFor interned.new (λ b. (w : InterfaceType) × PrimIs b p w) }
{
    match plain_type(p) {
        Some(w) => Ok(w),
        None => Ok(InterfaceType::ErrorContext(error_contexts(interned)?)),
    }
}

/// A value type, whose number is among the done ones.
pub(crate) fn value(
    interned: &mut InternedTypes,
    done: &Earlier<'_>,
    v: ValType,
) -> Result<InterfaceType, NoPlace>
    requires ready { IsReady done.now v }
    ensures is { IfOk result (λ w. ValIs interned.new done.now v w) }
    ensures grows { Grows interned.old interned.new }
    ensures contexts { AddsContexts (no_context_in_val v) interned.old interned.new }
    ensures full { result ≡ Err NoPlace.TooMany → IsTooFullFor interned.new
        (λ b. (w : InterfaceType) × ValIs b done.now v w) }
{
    match v {
        ValType::Prim(p) => primitive(interned, p),
        ValType::Type_(n) => Ok(value_at(done, n)),
    }
}

/// The value type of a primitive that needs no table.
pub(crate) fn plain_type(p: PrimType) -> Option<InterfaceType>
    ensures { result ≡ plain_type p }
{
    match p {
        PrimType::Bool => Some(InterfaceType::Bool),
        PrimType::S8 => Some(InterfaceType::S8),
        PrimType::U8 => Some(InterfaceType::U8),
        PrimType::S16 => Some(InterfaceType::S16),
        PrimType::U16 => Some(InterfaceType::U16),
        PrimType::S32 => Some(InterfaceType::S32),
        PrimType::U32 => Some(InterfaceType::U32),
        PrimType::S64 => Some(InterfaceType::S64),
        PrimType::U64 => Some(InterfaceType::U64),
        PrimType::F32 => Some(InterfaceType::F32),
        PrimType::F64 => Some(InterfaceType::F64),
        PrimType::Char => Some(InterfaceType::Char),
        PrimType::String => Some(InterfaceType::String),
        PrimType::ErrorContext => None,
    }
}

/// The value type of a done entry.
fn value_at(done: &Earlier<'_>, n: u32) -> InterfaceType
    requires { (w : InterfaceType) × (slice_get done.now n ≡ Some (Some (def.Interface w))) }
    ensures { slice_get done.now n ≡ Some (Some (def.Interface result)) }
{
    match done.type_at(n) {
        TypeDef::Interface(w) => w,
        _ => unreachable!(),
    }
}
