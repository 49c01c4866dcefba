//! Which adapters are found transparent.

ghost use Rattle.std.specs.Prelude.{◌≡◌, true, None};
ghost use Rattle.pc_types.specs.Table.{table_fault};
ghost use Rattle.pc_analysis_transparent.specs.Opaque.{HoldsTypes, HoldTypes};

use crate::additions::{Addition, add};
use crate::parts::{ASYNC, HANDLE, PLAIN, function, fused, side};
use crate::support::holds;
use pc_analysis_transparent::transparent_adapters;
use pc_dfg::{Adapter, AdapterId, ComponentDfg, PushError};
use pc_entity::{EntityRef, NoMemory, Seed, Seq, Text};
use pc_types::{DeclType, PrimType, TypeFuncIndex, TypeKind, TypeTable, ValType, check_table};
use pc_types_builder::ComponentTypesBuilder;
use std::alloc::Global;
use std::test::*;

/// A function type, with an error context as parameter or with none.
fn func_type(alloc: Global, with_handle: bool, async_: bool) -> Result<DeclType, NoMemory> {
    let mut params = Seq::new(alloc);
    if with_handle {
        params.push((
            Text::copy_of(alloc, "e")?,
            ValType::Prim(PrimType::ErrorContext),
        ))?;
    }
    Ok(DeclType::Func {
        params,
        result: None,
        async_,
    })
}

/// The three types.
fn three_types(alloc: Global) -> Result<TypeTable, NoMemory> {
    let mut types = Seq::new(alloc);
    types.push(func_type(alloc, false, false)?)?;
    types.push(func_type(alloc, false, true)?)?;
    types.push(func_type(alloc, true, false)?)?;
    Ok(TypeTable {
        core_funcs: Seq::new(alloc),
        types,
    })
}

/// Whether a table is sound, and short enough to ask.
fn is_sound(alloc: Global, table: &TypeTable) -> bool
    ensures { result ≡ true → table_fault table.now ≡ None }
{
    if table.types.len() < 1_000_000 {
        check_table(alloc, Seed::fixed(), table).is_ok()
    } else {
        false
    }
}

/// Converts the types, whether they have these numbers.
fn converts(alloc: Global, types: &mut ComponentTypesBuilder, table: &TypeTable) -> bool {
    if !is_sound(alloc, table) {
        return false;
    }
    let plain = types.convert_func(table, PLAIN);
    let with_async = types.convert_func(table, ASYNC);
    let with_handle = types.convert_func(table, HANDLE);
    plain == Ok(TypeFuncIndex(PLAIN))
        && with_async == Ok(TypeFuncIndex(ASYNC))
        && with_handle == Ok(TypeFuncIndex(HANDLE))
}

/// Whether the types of an adapter are held.
fn is_typed(types: &ComponentTypesBuilder, adapter: &Adapter) -> bool
    ensures { result ≡ true → HoldsTypes types.now adapter.now }
{
    let funcs = types.held(TypeKind::Func);
    (adapter.lift_ty.as_u32() as usize) < funcs && (adapter.lower_ty.as_u32() as usize) < funcs
}

/// Whether the types of all adapters are held.
fn are_typed(types: &ComponentTypesBuilder, graph: &ComponentDfg) -> bool
    ensures { result ≡ true → HoldTypes types.now graph.now }
{
    let adapters = graph.adapters.as_slice();
    for place in 0..graph.adapters.len() {
        if !is_typed(types, &adapters[place]) {
            return false;
        }
    }
    true
}

/// Whether adapter 0 is found transparent.
fn is_found(
    alloc: Global,
    types: &ComponentTypesBuilder,
    graph: &ComponentDfg,
) -> Result<bool, PushError> {
    if !are_typed(types, graph) {
        return Err(PushError::TooMany);
    }
    let found = transparent_adapters(alloc, graph, types)?;
    Ok(found.contains(AdapterId(0)))
}

/// Whether an adapter of plain types is found transparent beside an addition.
fn beside(
    alloc: Global,
    types: &ComponentTypesBuilder,
    addition: Addition,
) -> Result<bool, PushError> {
    let mut graph = ComponentDfg::new(alloc, Seed::fixed());
    let adapter = fused(
        (PLAIN, PLAIN),
        side(1, None, false),
        side(2, None, false),
        function(0),
    );
    graph.push_adapter(adapter)?;
    add(alloc, &mut graph, addition)?;
    is_found(alloc, types, &graph)
}

/// Whether an adapter of these types and options is found transparent, with nothing beside it.
fn alone(
    alloc: Global,
    types: &ComponentTypesBuilder,
    of: (u32, u32),
    are_async: (bool, bool),
) -> Result<bool, PushError> {
    let mut graph = ComponentDfg::new(alloc, Seed::fixed());
    let lift = side(1, None, are_async.0);
    let lower = side(2, None, are_async.1);
    graph.push_adapter(fused(of, lift, lower, function(0)))?;
    is_found(alloc, types, &graph)
}

/// What makes instance 1 opaque.
const OPAQUE: [Addition; 10] = [
    Addition::Lowering(1),
    Addition::Builtin(1),
    Addition::AsyncLowering(1),
    Addition::Argument(1),
    Addition::Callee(1),
    Addition::LiftOption(1),
    Addition::LowerOption(1),
    Addition::Destructor(1),
    Addition::Exported(1),
    Addition::ExportedOption(1),
];

/// What doesn't: the same of instance 2, and what is near to it.
const CLEAR: [Addition; 13] = [
    Addition::Nothing,
    Addition::Lowering(2),
    Addition::Builtin(2),
    Addition::AsyncLowering(2),
    Addition::Argument(2),
    Addition::OtherArgument,
    Addition::Callee(2),
    Addition::LiftOption(2),
    Addition::LowerOption(2),
    Addition::Destructor(2),
    Addition::Exported(2),
    Addition::ExportedOption(2),
    Addition::UnusedOption,
];

/// Whether the adapter is found so beside each of these.
fn all_are(
    alloc: Global,
    types: &ComponentTypesBuilder,
    additions: &[Addition],
    wanted: bool,
) -> Result<bool, PushError> {
    for addition in additions {
        if beside(alloc, types, *addition)? != wanted {
            return Ok(false);
        }
    }
    Ok(true)
}

/// Whether each type and each option that isn't plain keeps an adapter from being transparent.
fn others_are_kept(alloc: Global, types: &ComponentTypesBuilder) -> Result<bool, PushError> {
    let lift_async = alone(alloc, types, (ASYNC, PLAIN), (false, false))?;
    let lower_async = alone(alloc, types, (PLAIN, ASYNC), (false, false))?;
    let lift_handle = alone(alloc, types, (HANDLE, PLAIN), (false, false))?;
    let lower_handle = alone(alloc, types, (PLAIN, HANDLE), (false, false))?;
    let lift_option = alone(alloc, types, (PLAIN, PLAIN), (true, false))?;
    let lower_option = alone(alloc, types, (PLAIN, PLAIN), (false, true))?;
    let by_type = lift_async || lower_async || lift_handle || lower_handle;
    Ok(!by_type && !lift_option && !lower_option)
}

/// Which of the answers are those that are wanted.
fn answers(alloc: Global) -> Result<[bool; 4], PushError> {
    let mut types = ComponentTypesBuilder::new(alloc, Seed::fixed());
    let table = three_types(alloc)?;
    let are_converted = converts(alloc, &mut types, &table);
    let opaque = all_are(alloc, &types, OPAQUE.as_slice(), false)?;
    let clear = all_are(alloc, &types, CLEAR.as_slice(), true)?;
    let kept = others_are_kept(alloc, &types)?;
    Ok([are_converted, opaque, clear, kept])
}

#[test]
fn adapters_into_clear_instances_are_transparent(rt: HostRuntime) {
    let answers = answers(rt.alloc());
    holds(&rt, "answers", answers == Ok([true, true, true, true]));
}
