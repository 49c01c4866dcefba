//! Entries of a table that are defined types, converted kind by kind.

ghost use Rattle.std.specs.Prelude.{◌≡◌, ◌&&◌, ℕ, false, List, Option, Some, Err, IfOk, IfSome, slice_get};
ghost use Rattle.std.specs.List.{All, AllZip, list_all};
ghost use Rattle.pc_types.specs.declared.types.InterfaceType.{InterfaceType};
ghost use Rattle.pc_types.specs.declared.types.TypeDef.{TypeDef};
ghost use Rattle.pc_types.specs.declared.types.TypeDef.TheVariants as def;
ghost use Rattle.pc_types_lists.specs.Types.{Grows, IsTooFullFor};
ghost use Rattle.pc_types_convert.specs.Parts.{AreHeld, ValIs, MaybeIs, FieldIs, CaseIs, IsReady, MayBeReady, HasHandles};
ghost use Rattle.pc_types_convert.specs.Entries.{DefinedIs, RecordIs, VariantIs, ListIs, TupleIs, FlagsAre, EnumIs, OptionIs};
ghost use Rattle.pc_types_convert.specs.Entries.{ResultIs, OwnIs, BorrowIs, StreamIs, FutureIs};
ghost use Rattle.pc_types_convert.specs.Labels.{IsLike};
ghost use Rattle.pc_types.specs.declared.parsed.DeclType.TheVariants as entry;
ghost use Rattle.pc_types_convert.specs.Adds.{AddsContexts, AddsType, no_context_in_case, no_context_in_field};
ghost use Rattle.pc_types_convert.specs.Adds.{no_context_in_maybe, no_context_in_val};

use crate::done::Earlier;
use crate::like::{record_number, variant_number};
use crate::value::value;
use pc_entity::{Seq, Text, TryClone};
use pc_types::{
    InterfaceType, TypeDef, TypeEnum, TypeFlags, TypeFutureTable, TypeList, TypeOption, TypeRecord,
    TypeResourceTableIndex, TypeResult, TypeStreamTable, TypeTuple, TypeVariant, ValType,
};
use pc_types_lists::{InternedTypes, NoPlace};

/// The type of an entry that is a value type.
pub(crate) fn val_entry(
    interned: &mut InternedTypes,
    done: &Earlier<'_>,
    v: ValType,
) -> Result<TypeDef, NoPlace>
    requires ready { IsReady done.now v }
    ensures is { IfOk result (λ d. DefinedIs interned.new done.now v d) }
    ensures grows { Grows interned.old interned.new }
    ensures contexts { AddsContexts (no_context_in_val v) interned.old interned.new }
    ensures full { result ≡ Err NoPlace.TooMany → IsTooFullFor interned.new
        (λ b. (d : TypeDef) × DefinedIs b done.now v d) }
{
    Ok(TypeDef::Interface(value(interned, done, v)?))
}

/// The type of an entry that is a record.
pub(crate) fn record_entry(
    interned: &mut InternedTypes,
    done: &Earlier<'_>,
    fields: &[(Text, ValType)],
    like: Option<TypeDef>,
) -> Result<TypeDef, NoPlace>
    requires ready { All (λ f. IsReady done.now f.1) fields.now }
    requires held { AreHeld interned.old done.now }
    requires like { IfSome like (IsLike interned.old (entry.Record fields.now)) }
    ensures is { IfOk result (λ d. RecordIs interned.new done.now fields.now d) }
    ensures grows { Grows interned.old interned.new }
    ensures adds { AddsType (list_all no_context_in_field fields.now ≡ false)
        (RecordIs interned.new done.now fields.now) interned.old interned.new }
    ensures full { result ≡ Err NoPlace.TooMany → IsTooFullFor interned.new
        (λ b. (d : TypeDef) × RecordIs b done.now fields.now d) }
{
    let fields = field_types(interned, done, fields)?;
    let number = interned.put_record_type(TypeRecord { fields }, record_number(like))?;
    Ok(TypeDef::Interface(InterfaceType::Record(number)))
}

/// The type of an entry that is a variant.
pub(crate) fn variant_entry(
    interned: &mut InternedTypes,
    done: &Earlier<'_>,
    cases: &[(Text, Option<ValType>)],
    like: Option<TypeDef>,
) -> Result<TypeDef, NoPlace>
    requires ready { All (λ c. MayBeReady done.now c.1) cases.now }
    requires held { AreHeld interned.old done.now }
    requires like { IfSome like (IsLike interned.old (entry.Variant cases.now)) }
    ensures is { IfOk result (λ d. VariantIs interned.new done.now cases.now d) }
    ensures grows { Grows interned.old interned.new }
    ensures adds { AddsType (list_all no_context_in_case cases.now ≡ false)
        (VariantIs interned.new done.now cases.now) interned.old interned.new }
    ensures full { result ≡ Err NoPlace.TooMany → IsTooFullFor interned.new
        (λ b. (d : TypeDef) × VariantIs b done.now cases.now d) }
{
    let cases = case_types(interned, done, cases)?;
    let number = interned.put_variant(TypeVariant { cases }, variant_number(like))?;
    Ok(TypeDef::Interface(InterfaceType::Variant(number)))
}

/// The type of an entry that is a list.
pub(crate) fn list_entry(
    interned: &mut InternedTypes,
    done: &Earlier<'_>,
    v: ValType,
) -> Result<TypeDef, NoPlace>
    requires ready { IsReady done.now v }
    requires held { AreHeld interned.old done.now }
    ensures is { IfOk result (λ d. ListIs interned.new done.now v d) }
    ensures grows { Grows interned.old interned.new }
    ensures adds { AddsType (no_context_in_val v ≡ false) (ListIs interned.new done.now v) interned.old interned.new }
    ensures full { result ≡ Err NoPlace.TooMany → IsTooFullFor interned.new
        (λ b. (d : TypeDef) × ListIs b done.now v d) }
{
    let element = value(interned, done, v)?;
    Ok(TypeDef::Interface(InterfaceType::List(interned.put_list(TypeList { element })?)))
}

/// The type of an entry that is a tuple.
pub(crate) fn tuple_entry(
    interned: &mut InternedTypes,
    done: &Earlier<'_>,
    vs: &[ValType],
) -> Result<TypeDef, NoPlace>
    requires ready { All (IsReady done.now) vs.now }
    requires held { AreHeld interned.old done.now }
    ensures is { IfOk result (λ d. TupleIs interned.new done.now vs.now d) }
    ensures grows { Grows interned.old interned.new }
    ensures adds { AddsType (list_all no_context_in_val vs.now ≡ false)
        (TupleIs interned.new done.now vs.now) interned.old interned.new }
    ensures full { result ≡ Err NoPlace.TooMany → IsTooFullFor interned.new
        (λ b. (d : TypeDef) × TupleIs b done.now vs.now d) }
{
    let types = value_types(interned, done, vs)?;
    Ok(TypeDef::Interface(InterfaceType::Tuple(interned.put_tuple(TypeTuple { types })?)))
}

/// The type of an entry that is flags.
pub(crate) fn flags_entry(
    interned: &mut InternedTypes,
    names: &Seq<Text>,
) -> Result<TypeDef, NoPlace>
    ensures is { IfOk result (λ d. FlagsAre interned.new names.now d) }
    ensures grows { Grows interned.old interned.new }
    ensures adds { AddsType ⊥ (FlagsAre interned.new names.now) interned.old interned.new }
    ensures full { result ≡ Err NoPlace.TooMany → IsTooFullFor interned.new
        (λ b. (d : TypeDef) × FlagsAre b names.now d) }
{
    let names = names.try_clone(interned.alloc())?;
    Ok(TypeDef::Interface(InterfaceType::Flags(interned.put_flags(TypeFlags { names })?)))
}

/// The type of an entry that is an enum.
pub(crate) fn enum_entry(
    interned: &mut InternedTypes,
    names: &Seq<Text>,
) -> Result<TypeDef, NoPlace>
    ensures is { IfOk result (λ d. EnumIs interned.new names.now d) }
    ensures grows { Grows interned.old interned.new }
    ensures adds { AddsType ⊥ (EnumIs interned.new names.now) interned.old interned.new }
    ensures full { result ≡ Err NoPlace.TooMany → IsTooFullFor interned.new
        (λ b. (d : TypeDef) × EnumIs b names.now d) }
{
    let names = names.try_clone(interned.alloc())?;
    Ok(TypeDef::Interface(InterfaceType::Enum(interned.put_enum_type(TypeEnum { names })?)))
}

/// The type of an entry that is an option.
pub(crate) fn option_entry(
    interned: &mut InternedTypes,
    done: &Earlier<'_>,
    v: ValType,
) -> Result<TypeDef, NoPlace>
    requires ready { IsReady done.now v }
    requires held { AreHeld interned.old done.now }
    ensures is { IfOk result (λ d. OptionIs interned.new done.now v d) }
    ensures grows { Grows interned.old interned.new }
    ensures adds { AddsType (no_context_in_val v ≡ false)
        (OptionIs interned.new done.now v) interned.old interned.new }
    ensures full { result ≡ Err NoPlace.TooMany → IsTooFullFor interned.new
        (λ b. (d : TypeDef) × OptionIs b done.now v d) }
{
    let ty = value(interned, done, v)?;
    Ok(TypeDef::Interface(InterfaceType::Option(interned.put_option(TypeOption { ty })?)))
}

/// The type of an entry that is a result.
pub(crate) fn result_entry(
    interned: &mut InternedTypes,
    done: &Earlier<'_>,
    ok: Option<ValType>,
    err: Option<ValType>,
) -> Result<TypeDef, NoPlace>
    requires ok_ready { MayBeReady done.now ok }
    requires err_ready { MayBeReady done.now err }
    requires held { AreHeld interned.old done.now }
    ensures is { IfOk result (λ d. ResultIs interned.new done.now ok err d) }
    ensures grows { Grows interned.old interned.new }
    ensures adds { AddsType (no_context_in_maybe ok && no_context_in_maybe err ≡ false)
        (ResultIs interned.new done.now ok err) interned.old interned.new }
    ensures full { result ≡ Err NoPlace.TooMany → IsTooFullFor interned.new
        (λ b. (d : TypeDef) × ResultIs b done.now ok err d) }
{
    let ok = maybe_value(interned, done, ok)?;
    let err = maybe_value(interned, done, err)?;
    Ok(TypeDef::Interface(InterfaceType::Result(interned.put_result(TypeResult { ok, err })?)))
}

/// The type of an entry that is a stream.
pub(crate) fn stream_entry(
    interned: &mut InternedTypes,
    done: &Earlier<'_>,
    v: Option<ValType>,
) -> Result<TypeDef, NoPlace>
    requires ready { MayBeReady done.now v }
    ensures is { IfOk result (λ d. StreamIs interned.new done.now v d) }
    ensures grows { Grows interned.old interned.new }
    ensures adds { AddsType (no_context_in_maybe v ≡ false)
        (StreamIs interned.new done.now v) interned.old interned.new }
    ensures full { result ≡ Err NoPlace.TooMany → IsTooFullFor interned.new
        (λ b. (d : TypeDef) × StreamIs b done.now v d) }
{
    let payload = maybe_value(interned, done, v)?;
    let instance = interned.resources().current_instance();
    Ok(TypeDef::Interface(InterfaceType::Stream(interned.put_stream_table(TypeStreamTable {
        payload,
        instance,
    })?)))
}

/// The type of an entry that is a future.
pub(crate) fn future_entry(
    interned: &mut InternedTypes,
    done: &Earlier<'_>,
    v: Option<ValType>,
) -> Result<TypeDef, NoPlace>
    requires ready { MayBeReady done.now v }
    ensures is { IfOk result (λ d. FutureIs interned.new done.now v d) }
    ensures grows { Grows interned.old interned.new }
    ensures adds { AddsType (no_context_in_maybe v ≡ false)
        (FutureIs interned.new done.now v) interned.old interned.new }
    ensures full { result ≡ Err NoPlace.TooMany → IsTooFullFor interned.new
        (λ b. (d : TypeDef) × FutureIs b done.now v d) }
{
    let payload = maybe_value(interned, done, v)?;
    let instance = interned.resources().current_instance();
    Ok(TypeDef::Interface(InterfaceType::Future(interned.put_future_table(TypeFutureTable {
        payload,
        instance,
    })?)))
}

/// The named value types of a list, in order.
fn field_types(
    interned: &mut InternedTypes,
    done: &Earlier<'_>,
    fields: &[(Text, ValType)],
) -> Result<Seq<(Text, InterfaceType)>, NoPlace>
    requires ready { All (λ f. IsReady done.now f.1) fields.now }
    ensures are { IfOk result (λ gs. AllZip (FieldIs interned.new done.now) fields.now gs) }
    ensures grows { Grows interned.old interned.new }
    ensures contexts { AddsContexts (list_all no_context_in_field fields.now) interned.old interned.new }
    ensures full { result ≡ Err NoPlace.TooMany → IsTooFullFor interned.new
        (λ b. (gs : List (List ℕ × InterfaceType)) × AllZip (FieldIs b done.now) fields.now gs) }
{
    let mut types = Seq::new(interned.alloc());
    for field in fields {
        let name = field.0.try_clone(interned.alloc())?;
        types.push((name, value(interned, done, field.1)?))?;
    }
    Ok(types)
}

/// The named value types of a list, in order, where a name may stand without a type.
fn case_types(
    interned: &mut InternedTypes,
    done: &Earlier<'_>,
    cases: &[(Text, Option<ValType>)],
) -> Result<Seq<(Text, Option<InterfaceType>)>, NoPlace>
    requires ready { All (λ c. MayBeReady done.now c.1) cases.now }
    ensures are { IfOk result (λ gs. AllZip (CaseIs interned.new done.now) cases.now gs) }
    ensures grows { Grows interned.old interned.new }
    ensures contexts { AddsContexts (list_all no_context_in_case cases.now) interned.old interned.new }
    ensures full { result ≡ Err NoPlace.TooMany → IsTooFullFor interned.new
        (λ b. (gs : List (List ℕ × Option InterfaceType)) × AllZip (CaseIs b done.now) cases.now gs) }
{
    let mut types = Seq::new(interned.alloc());
    for case in cases {
        let name = case.0.try_clone(interned.alloc())?;
        types.push((name, maybe_value(interned, done, case.1)?))?;
    }
    Ok(types)
}

/// The value types of a list, in order.
fn value_types(
    interned: &mut InternedTypes,
    done: &Earlier<'_>,
    vs: &[ValType],
) -> Result<Seq<InterfaceType>, NoPlace>
    requires ready { All (IsReady done.now) vs.now }
    ensures are { IfOk result (λ ws. AllZip (ValIs interned.new done.now) vs.now ws) }
    ensures grows { Grows interned.old interned.new }
    ensures contexts { AddsContexts (list_all no_context_in_val vs.now) interned.old interned.new }
    ensures full { result ≡ Err NoPlace.TooMany → IsTooFullFor interned.new
        (λ b. (ws : List InterfaceType) × AllZip (ValIs b done.now) vs.now ws) }
{
    let mut types = Seq::new(interned.alloc());
    for v in vs {
        types.push(value(interned, done, *v)?)?;
    }
    Ok(types)
}

/// A value type that may be left out.
fn maybe_value(
    interned: &mut InternedTypes,
    done: &Earlier<'_>,
    v: Option<ValType>,
) -> Result<Option<InterfaceType>, NoPlace>
    requires ready { MayBeReady done.now v }
    ensures is { IfOk result (λ w. MaybeIs interned.new done.now v w) }
    ensures grows { Grows interned.old interned.new }
    ensures contexts { AddsContexts (no_context_in_maybe v) interned.old interned.new }
    ensures full { result ≡ Err NoPlace.TooMany → IsTooFullFor interned.new
        (λ b. (w : Option InterfaceType) × MaybeIs b done.now v w) }
{
    match v {
        Some(v) => Ok(Some(value(interned, done, v)?)),
        None => Ok(None),
    }
}

/// The handles of a done resource, owned.
pub(crate) fn own_entry(done: &Earlier<'_>, n: u32) -> TypeDef
    requires { HasHandles done.now n }
    ensures { OwnIs done.now n result }
{
    TypeDef::Interface(InterfaceType::Own(handles_at(done, n)))
}

/// The handles of a done resource, borrowed.
pub(crate) fn borrow_entry(done: &Earlier<'_>, n: u32) -> TypeDef
    requires { HasHandles done.now n }
    ensures { BorrowIs done.now n result }
{
    TypeDef::Interface(InterfaceType::Borrow(handles_at(done, n)))
}

/// The number of a done resource's handles.
fn handles_at(done: &Earlier<'_>, n: u32) -> TypeResourceTableIndex
    requires { HasHandles done.now n }
    ensures { slice_get done.now n ≡ Some (Some (def.Resource result)) }
{
    match done.type_at(n) {
        TypeDef::Resource(i) => i,
        _ => unreachable!(),
    }
}
