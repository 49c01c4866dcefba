//! Entries of a table, converted kind by kind.

ghost use Rattle.std.specs.Prelude.{◌≡◌, false, List, Some, Err, All, IfOk, IfSome};
ghost use Rattle.std.specs.List.{AllZip, list_all};
ghost use Rattle.pc_entity.specs.Lists.{names_of};
ghost use Rattle.pc_types_lists.specs.Types.{Grows, IsTooFullFor};
ghost use Rattle.pc_types_convert.specs.Adds.{AddsContexts, AddsFunc, AddsTuple, no_context_in_field};
ghost use Rattle.pc_types_convert.specs.Adds.{no_context_in_maybe, no_context_in_val};
ghost use Rattle.pc_types_convert.specs.Parts.{AreHeld, ValIs, IsReady, MayBeReady};
ghost use Rattle.pc_types.specs.declared.type_index.TypeFuncIndex.{TypeFuncIndex};
ghost use Rattle.pc_types.specs.declared.type_index.TypeTupleIndex.{TypeTupleIndex};
ghost use Rattle.pc_types.specs.declared.types.InterfaceType.{InterfaceType};
ghost use Rattle.pc_types.specs.declared.types.TypeDef.{TypeDef};
ghost use Rattle.pc_types.specs.declared.types.TypeDef.TheVariants as def;
ghost use Rattle.pc_types_convert.specs.Labels.{IsLike};
ghost use Rattle.pc_types.specs.declared.parsed.DeclType.TheVariants as entry;
ghost use Rattle.pc_types_convert.specs.Entries.{FuncIs, ParamsAre, ResultsAre, ReturnsAre};

use crate::done::Earlier;
use crate::like::func_number;
use crate::value::value;
use pc_entity::{NoMemory, Seq, Text, TryClone};
use pc_types::{
    InterfaceType, TypeDef, TypeFunc, TypeFuncIndex, TypeTuple, TypeTupleIndex, ValType,
};
use pc_types_lists::{InternedTypes, NoPlace};
use std::alloc::Global;

/// The type of an entry that is a function type.
pub(crate) fn func_type_entry(
    interned: &mut InternedTypes,
    done: &Earlier<'_>,
    params: &[(Text, ValType)],
    returns: Option<ValType>,
    async_: bool,
    like: Option<TypeDef>,
) -> Result<TypeDef, NoPlace>
    requires params { All (λ p. IsReady done.now p.1) params.now }
    requires returns { MayBeReady done.now returns }
    requires held { AreHeld interned.old done.now }
    requires like { IfSome like (IsLike interned.old (entry.Func params.now returns async_)) }
    ensures is { IfOk result
        (λ d. (i : TypeFuncIndex) × (d ≡ def.ComponentFunc i)
        × FuncIs interned.new done.now params.now returns async_ i) }
    ensures grows { Grows interned.old interned.new }
    ensures adds { AddsFunc done.now params.now returns async_ interned.old interned.new }
    ensures full { result ≡ Err NoPlace.TooMany → IsTooFullFor interned.new
        (λ b. (d : TypeDef) × (i : TypeFuncIndex) × (d ≡ def.ComponentFunc i)
        × FuncIs b done.now params.now returns async_ i) }
{
    Ok(TypeDef::ComponentFunc(func_entry(interned, done, params, returns, async_, like)?))
}

/// The number of a function type.
fn func_entry(
    interned: &mut InternedTypes,
    done: &Earlier<'_>,
    params: &[(Text, ValType)],
    returns: Option<ValType>,
    async_: bool,
    like: Option<TypeDef>,
) -> Result<TypeFuncIndex, NoPlace>
    requires params { All (λ p. IsReady done.now p.1) params.now }
    requires returns { MayBeReady done.now returns }
    requires held { AreHeld interned.old done.now }
    requires like { IfSome like (IsLike interned.old (entry.Func params.now returns async_)) }
    ensures is { IfOk result (λ i. FuncIs interned.new done.now params.now returns async_ i) }
    ensures grows { Grows interned.old interned.new }
    ensures adds { AddsFunc done.now params.now returns async_ interned.old interned.new }
    ensures full { result ≡ Err NoPlace.TooMany → IsTooFullFor interned.new
        (λ b. (i : TypeFuncIndex) × FuncIs b done.now params.now returns async_ i) }
{
    let param_names = names(interned.alloc(), params)?;
    let params = params_tuple(interned, done, params)?;
    let results = results_tuple(interned, done, returns)?;
    interned.put_func(
        TypeFunc {
            param_names,
            params,
            results,
            async_,
        },
        func_number(like),
    )
}

/// The number of the tuple of the parameters.
fn params_tuple(
    interned: &mut InternedTypes,
    done: &Earlier<'_>,
    params: &[(Text, ValType)],
) -> Result<TypeTupleIndex, NoPlace>
    requires ready { All (λ p. IsReady done.now p.1) params.now }
    requires held { AreHeld interned.old done.now }
    ensures are { IfOk result (λ i. ParamsAre interned.new done.now params.now i) }
    ensures grows { Grows interned.old interned.new }
    ensures adds { AddsTuple (list_all no_context_in_field params.now ≡ false)
        (λ i. ParamsAre interned.new done.now params.now (record { 0 = i })) interned.old interned.new }
    ensures full { result ≡ Err NoPlace.TooMany → IsTooFullFor interned.new
        (λ b. (i : TypeTupleIndex) × ParamsAre b done.now params.now i) }
{
    let types = param_types(interned, done, params)?;
    interned.put_tuple(TypeTuple { types })
}

/// The number of the tuple of what is returned.
fn results_tuple(
    interned: &mut InternedTypes,
    done: &Earlier<'_>,
    returns: Option<ValType>,
) -> Result<TypeTupleIndex, NoPlace>
    requires ready { MayBeReady done.now returns }
    requires held { AreHeld interned.old done.now }
    ensures are { IfOk result (λ i. ResultsAre interned.new done.now returns i) }
    ensures grows { Grows interned.old interned.new }
    ensures adds { AddsTuple (no_context_in_maybe returns ≡ false)
        (λ i. ResultsAre interned.new done.now returns (record { 0 = i })) interned.old interned.new }
    ensures full { result ≡ Err NoPlace.TooMany → IsTooFullFor interned.new
        (λ b. (i : TypeTupleIndex) × ResultsAre b done.now returns i) }
{
    let types = return_types(interned, done, returns)?;
    interned.put_tuple(TypeTuple { types })
}

/// The types of the parameters, in order.
fn param_types(
    interned: &mut InternedTypes,
    done: &Earlier<'_>,
    params: &[(Text, ValType)],
) -> Result<Seq<InterfaceType>, NoPlace>
    requires ready { All (λ p. IsReady done.now p.1) params.now }
    ensures are { IfOk result (λ ws. AllZip (λ p w. ValIs interned.new done.now p.1 w) params.now ws) }
    ensures grows { Grows interned.old interned.new }
    ensures contexts { AddsContexts (list_all no_context_in_field params.now) interned.old interned.new }
    ensures full { result ≡ Err NoPlace.TooMany → IsTooFullFor interned.new
        (λ b. (ws : List InterfaceType) × AllZip (λ p w. ValIs b done.now p.1 w) params.now ws) }
{
    let mut types = Seq::new(interned.alloc());
    for param in params {
        types.push(value(interned, done, param.1)?)?;
    }
    Ok(types)
}

/// The type that is returned, if there is one.
fn return_types(
    interned: &mut InternedTypes,
    done: &Earlier<'_>,
    returns: Option<ValType>,
) -> Result<Seq<InterfaceType>, NoPlace>
    requires ready { MayBeReady done.now returns }
    ensures are { IfOk result (λ ws. ReturnsAre interned.new done.now returns ws) }
    ensures grows { Grows interned.old interned.new }
    ensures contexts { AddsContexts (no_context_in_maybe returns) interned.old interned.new }
    ensures full { result ≡ Err NoPlace.TooMany → IsTooFullFor interned.new
        (λ b. (ws : List InterfaceType) × ReturnsAre b done.now returns ws) }
{
    match returns {
        Some(v) => one_type(interned, done, v),
        None => Ok(Seq::new(interned.alloc())),
    }
}

/// The list of one type.
fn one_type(
    interned: &mut InternedTypes,
    done: &Earlier<'_>,
    v: ValType,
) -> Result<Seq<InterfaceType>, NoPlace>
    requires ready { IsReady done.now v }
    ensures is { IfOk result (λ ws. ReturnsAre interned.new done.now (Some v) ws) }
    ensures grows { Grows interned.old interned.new }
    ensures contexts { AddsContexts (no_context_in_val v) interned.old interned.new }
    ensures full { result ≡ Err NoPlace.TooMany → IsTooFullFor interned.new
        (λ b. (ws : List InterfaceType) × ReturnsAre b done.now (Some v) ws) }
{
    let w = value(interned, done, v)?;
    let mut types = Seq::new(interned.alloc());
    types.push(w)?;
    Ok(types)
}

/// The names of a list.
fn names<V>(alloc: Global, items: &[(Text, V)]) -> Result<Seq<Text>, NoMemory>
    ensures { IfOk result (λ names. names ≡ names_of items.now) }
{
    let mut names = Seq::with_capacity(alloc, items.len())?;
    for item in items {
        names.push(item.0.try_clone(alloc)?)?;
    }
    Ok(names)
}
