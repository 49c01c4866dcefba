//! The types of the builder that builtins name: those of table numbers, and tuples of results.

ghost use Rattle.std.specs.Prelude.{◌≡◌, ◌<◌, ◌∷◌, [], All, List, Option, None, Ok, IfErr, IfOk, option_and_then};
ghost use Rattle.pc_types.specs.declared.parsed.ValType.TheVariants as val;
ghost use Rattle.pc_types.specs.declared.types.TypeDef.{TypeDef};
ghost use Rattle.pc_types.specs.declared.types.TypeDef.TheVariants as def;
ghost use Rattle.pc_types.specs.Table.{is_defined_type, table_fault};
ghost use Rattle.pc_types_lists.specs.Adds.{most_types};
ghost use Rattle.pc_types_lists.specs.Held.{IsHeld};
ghost use Rattle.pc_types_builder.specs.Plain.{Layers};
ghost use Rattle.pc_types_builder.specs.Converted.{AreConverted};
ghost use Rattle.pc_trampoline.specs.Shape as shape;
ghost use Rattle.pc_trampoline.specs.Shape.{type_shape};
ghost use Rattle.pc_spec_reading.specs.Outcome.{bad_type, found};
ghost use Rattle.pc_spec_reading.specs.Scope.{Scope};
ghost use Rattle.pc_spec_reading.specs.Types.{has_entry, results_tree, tree_if, type_tree, value_tree};
ghost use Rattle.pc_inline_state.specs.Adds.{Adds};
ghost use Rattle.pc_inline_state.specs.KnowsSame.{KnowsSame};
ghost use Rattle.pc_inline_state.specs.Prepares.{Converts};
ghost use Rattle.pc_inline_state.specs.Refused.{LacksRoom};
ghost use Rattle.pc_inline_state.specs.Tables.{tables_of};
ghost use Rattle.pc_inline_builtins.specs.Made.{AnswersType, AnswersValue, IsTuple, results_cost, value_cost};
ghost use Rattle.pc_inline_builtins.specs.Reads.{of_handle};
ghost use Rattle.pc_inline_builtins.specs.Written.{handle_shape};

use crate::builtin::Handle;
use crate::handles::{is_of, plain_type};
use pc_entity::NoMemory;
use pc_inline_state::{Context, ItemError, ItemFault, State};
use pc_types::{InterfaceType, PrimType, TypeDef, TypeTable, ValType};
use pc_types_builder::Converted;
use std::alloc::Global;

/// The type of a table number, if it is of the kind that is asked for.
pub(crate) fn handle_type(
    context: &Context<'_>,
    state: &mut State<'_>,
    converted: &mut Converted,
    wanted: Handle,
    n: u32,
) -> Result<TypeDef, ItemError>
    requires sound { table_fault context.now.table.now ≡ None }
    requires converted { AreConverted state.old.types context.now.table.now converted.old }
    requires begun { state.old.types.resources.current.0 < state.old.graph.num_runtime_component_instances }
    ensures converts { Converts context.now.table.now state.old converted.old state.new converted.new }
    ensures adds { Adds context.now.table.now (most_types context.now.table.now)
        (tables_of state.old) (tables_of state.new) }
    ensures shape { IfOk result (λ d. type_shape d ≡ handle_shape wanted) }
    ensures answers { (s : Scope) → KnowsSame state.new.graph state.new.types.resources s
        → AnswersType (tables_of state.new)
        (found bad_type (option_and_then (of_handle wanted) (type_tree context.now.table.now s n)) Ok) result }
{
    let ty = context.entry_type(state, converted, n)?;
    if is_of(&state.types, wanted, ty) {
        Ok(ty)
    } else {
        Err(ItemError::Fault(ItemFault::BadType))
    }
}

/// Whether a number is of a defined type.
fn is_defined_type(table: &TypeTable, n: u32) -> bool
    ensures { result ≡ has_entry table.now is_defined_type n }
{
    match table.entry(n) {
        Some(entry) => entry.is_defined_type(),
        None => false,
    }
}

/// The value type of a table number.
fn defined_type(
    context: &Context<'_>,
    state: &mut State<'_>,
    converted: &mut Converted,
    n: u32,
) -> Result<InterfaceType, ItemError>
    requires sound { table_fault context.now.table.now ≡ None }
    requires converted { AreConverted state.old.types context.now.table.now converted.old }
    requires begun { state.old.types.resources.current.0 < state.old.graph.num_runtime_component_instances }
    ensures converts { Converts context.now.table.now state.old converted.old state.new converted.new }
    ensures adds { Adds context.now.table.now (most_types context.now.table.now)
        (tables_of state.old) (tables_of state.new) }
    ensures answers { (s : Scope) → KnowsSame state.new.graph state.new.types.resources s
        → AnswersValue (tables_of state.new)
        (found bad_type (tree_if context.now.table.now is_defined_type s n) Ok) result }
    ensures held { IfOk result (IsHeld state.new.types) }
{
    if !is_defined_type(context.table, n) {
        return Err(ItemError::Fault(ItemFault::BadType));
    }
    match context.entry_type(state, converted, n)? {
        TypeDef::Interface(ty) => Ok(ty),
        _ => unreachable!(),
    }
}

/// The value type of a primitive.
fn primitive_type(
    context: &Context<'_>,
    state: &mut State<'_>,
    p: PrimType,
) -> Result<InterfaceType, ItemError>
    requires begun { state.old.types.resources.current.0 < state.old.graph.num_runtime_component_instances }
    ensures converts { (done : Layers)
        → Converts context.now.table.now state.old done state.new done }
    ensures adds { Adds context.now.table.now 1 (tables_of state.old) (tables_of state.new) }
    ensures answers { (s : Scope) → KnowsSame state.new.graph state.new.types.resources s
        → AnswersValue (tables_of state.new)
        (found bad_type (value_tree context.now.table.now s (val.Prim p)) Ok) result }
    ensures held { IfOk result (IsHeld state.new.types) }
{
    match plain_type(p) {
        Some(ty) => Ok(ty),
        None => Ok(InterfaceType::ErrorContext(context.error_contexts(state)?)),
    }
}

/// The type of a value.
fn value_type(
    context: &Context<'_>,
    state: &mut State<'_>,
    converted: &mut Converted,
    v: ValType,
) -> Result<InterfaceType, ItemError>
    requires sound { table_fault context.now.table.now ≡ None }
    requires converted { AreConverted state.old.types context.now.table.now converted.old }
    requires begun { state.old.types.resources.current.0 < state.old.graph.num_runtime_component_instances }
    ensures converts { Converts context.now.table.now state.old converted.old state.new converted.new }
    ensures adds { Adds context.now.table.now (value_cost context.now.table.now v)
        (tables_of state.old) (tables_of state.new) }
    ensures answers { (s : Scope) → KnowsSame state.new.graph state.new.types.resources s
        → AnswersValue (tables_of state.new)
        (found bad_type (value_tree context.now.table.now s v) Ok) result }
    ensures held { IfOk result (IsHeld state.new.types) }
{
    match v {
        ValType::Prim(p) => primitive_type(context, state, p),
        ValType::Type_(n) => defined_type(context, state, converted, n),
    }
}

/// The tuple of these types.
fn tuple_type(
    context: &Context<'_>,
    state: &mut State<'_>,
    types: Vec<InterfaceType>,
) -> Result<TypeDef, ItemError>
    requires held { All (IsHeld state.old.types) types.items }
    ensures converts { (done : Layers)
        → Converts context.now.table.now state.old done state.new done }
    ensures adds { Adds context.now.table.now 1 (tables_of state.old) (tables_of state.new) }
    ensures is { IfOk result (λ d. IsTuple state.new.types types.items d) }
    ensures err { IfErr result (LacksRoom state.new) }
{
    let tuple = state.types.new_tuple_type(types)?;
    Ok(TypeDef::Interface(InterfaceType::Tuple(tuple)))
}

/// One type.
fn one(alloc: Global, ty: InterfaceType) -> Result<Vec<InterfaceType>, NoMemory>
    ensures { IfOk result (λ types. types.items ≡ ty ∷ []) }
{
    let mut types = Vec::with_capacity(alloc, 1)?;
    types.push(ty)?;
    Ok(types)
}

/// The tuple of no or one result.
pub(crate) fn result_type(
    context: &Context<'_>,
    state: &mut State<'_>,
    converted: &mut Converted,
    returned: Option<ValType>,
) -> Result<TypeDef, ItemError>
    requires sound { table_fault context.now.table.now ≡ None }
    requires converted { AreConverted state.old.types context.now.table.now converted.old }
    requires begun { state.old.types.resources.current.0 < state.old.graph.num_runtime_component_instances }
    ensures converts { Converts context.now.table.now state.old converted.old state.new converted.new }
    ensures adds { Adds context.now.table.now (results_cost context.now.table.now returned)
        (tables_of state.old) (tables_of state.new) }
    ensures shape { IfOk result (λ d. type_shape d ≡ shape.tuple) }
    ensures answers { (s : Scope) → KnowsSame state.new.graph state.new.types.resources s
        → AnswersType (tables_of state.new)
        (found bad_type (results_tree context.now.table.now s returned) Ok) result }
{
    match returned {
        None => tuple_type(context, state, Vec::new(context.alloc)),
        Some(v) => {
            let ty = value_type(context, state, converted, v)?;
            tuple_type(context, state, one(context.alloc, ty)?)
        }
    }
}
