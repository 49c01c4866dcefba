//! What the adapters of the small graph are asked for, and what is planned for them.

ghost use Rattle.std.specs.Prelude.{◌≡◌, true};
ghost use Rattle.pc_adapt.specs.Asked.{HoldsTypes, HoldTypes};

use crate::graphs::{Shape, fill};
use crate::sides::func;
use crate::support::holds;
use crate::typed::has_two;
use pc_adapt::asked::has_options;
use pc_adapt::facts::facts_of_function;
use pc_adapt::{AdapterPlan, Import, first_lacking, plan_adapter};
use pc_dfg::laws::empty_is_ordered;
use pc_dfg::{
    Adapter, AdapterId, ComponentDfg, CoreDef, CoreExport, ExportItem, InstanceId, PushError,
};
use pc_entity::{
    EntityIndex, EntityRef, FuncIndex, MemoryIndex, NoMemory, RuntimeComponentInstanceIndex, Seed,
    Seq, Text,
};
use pc_info::AdapterRecord;
use pc_trampoline::{Transcode, Trap};
use pc_types::{DeclType, PrimType, TypeFuncIndex, TypeKind, TypeTable, ValType};
use pc_types_builder::ComponentTypesBuilder;
use std::alloc::Global;
use std::test::*;

/// A function type, with a string as parameter or with none.
fn func_type(alloc: Global, with_string: bool, async_: bool) -> Result<DeclType, NoMemory> {
    let mut params = Seq::new(alloc);
    if with_string {
        params.push((Text::copy_of(alloc, "s")?, ValType::Prim(PrimType::String)))?;
    }
    Ok(DeclType::Func {
        params,
        result: None,
        async_,
    })
}

/// Type 0, a function of a string, and type 1, an async function of nothing.
pub(crate) fn two_types(alloc: Global) -> Result<TypeTable, NoMemory> {
    let mut types = Seq::new(alloc);
    types.push(func_type(alloc, true, false)?)?;
    types.push(func_type(alloc, false, true)?)?;
    Ok(TypeTable {
        core_funcs: Seq::new(alloc),
        types,
    })
}

/// Whether the types of an adapter are held.
fn is_typed(types: &ComponentTypesBuilder, adapter: &Adapter) -> bool
    ensures { result ≡ true → HoldsTypes types.now adapter.now }
{
    let funcs = types.held(TypeKind::Func);
    (adapter.lift_ty.as_u32() as usize) < funcs && (adapter.lower_ty.as_u32() as usize) < funcs
}

/// Whether the types of all adapters are held.
fn are_typed(types: &ComponentTypesBuilder, graph: &ComponentDfg) -> bool
    ensures { result ≡ true → HoldTypes types.now graph.now }
{
    let adapters = graph.adapters.as_slice();
    for place in 0..graph.adapters.len() {
        if !is_typed(types, &adapters[place]) {
            return false;
        }
    }
    true
}

/// Whether adapter 2 is the first that lacks an option.
fn third_lacks(types: &ComponentTypesBuilder, graph: &ComponentDfg) -> bool {
    are_typed(types, graph) && first_lacking(graph, types) == Some(AdapterId(2))
}

/// Whether adapter 0 has the options that it is asked for.
fn first_has_options(types: &ComponentTypesBuilder, graph: &ComponentDfg) -> bool {
    match graph.adapters.get(AdapterId(0)) {
        Some(adapter) => is_typed(types, adapter) && has_options(types, adapter),
        None => false,
    }
}

/// Whether a string stands in the parameters of type 0, and type 1 is async.
fn has_facts(types: &ComponentTypesBuilder) -> bool {
    if types.held(TypeKind::Func) < 2 {
        return false;
    }
    let first = facts_of_function(types, TypeFuncIndex(0));
    let second = facts_of_function(types, TypeFuncIndex(1));
    first.params.string && !first.results.string && !first.async_ && second.async_
}

/// The plan of an adapter, whose places begin at 7.
fn plan_of(
    alloc: Global,
    types: &ComponentTypesBuilder,
    graph: &ComponentDfg,
    id: AdapterId,
) -> Option<AdapterPlan> {
    if !is_typed(types, graph.adapters.get(id)?) {
        return None;
    }
    plan_adapter(alloc, graph, types, id, 7).ok()
}

/// A memory of a core instance.
macro_rules! memory {
    ($instance:expr, $number:expr) => {
        CoreExport {
            instance: $instance,
            item: ExportItem::Index($number),
        }
    };
}

/// Brings a string from memory 1 to memory 0.
macro_rules! transcode {
    ($op:expr) => {
        Import::Transcode {
            op: $op,
            from: memory!(InstanceId(0), MemoryIndex(1)),
            from64: false,
            to: memory!(InstanceId(0), MemoryIndex(0)),
            to64: false,
        }
    };
}

/// What is imported for adapter 0: what is called, the flags of the lowering and of the lift, memory and realloc of the
/// lift, the memory of the lowering, what makes latin1 or utf16 of utf8, what begins and ends a call, and a trap.
const OF_STRINGS: [Import; 11] = [
    Import::CoreDef(func!(InstanceId(0), 0)),
    Import::CoreDef(CoreDef::InstanceFlags(RuntimeComponentInstanceIndex(2))),
    Import::CoreDef(CoreDef::InstanceFlags(RuntimeComponentInstanceIndex(1))),
    Import::CoreDef(CoreDef::Export(memory!(InstanceId(0), EntityIndex::Memory(MemoryIndex(0))))),
    Import::CoreDef(func!(InstanceId(0), 1)),
    Import::CoreDef(CoreDef::Export(memory!(InstanceId(0), EntityIndex::Memory(MemoryIndex(1))))),
    transcode!(Transcode::Utf8ToLatin1),
    transcode!(Transcode::Utf8ToCompactUtf16),
    Import::EnterSyncCall,
    Import::ExitSyncCall,
    Import::Trap(Trap(1)),
];

/// The same where the adapter is transparent: nothing begins and ends a call.
const OF_TRANSPARENT: [Import; 9] = [
    Import::CoreDef(func!(InstanceId(0), 0)),
    Import::CoreDef(CoreDef::InstanceFlags(RuntimeComponentInstanceIndex(2))),
    Import::CoreDef(CoreDef::InstanceFlags(RuntimeComponentInstanceIndex(1))),
    Import::CoreDef(CoreDef::Export(memory!(InstanceId(0), EntityIndex::Memory(MemoryIndex(0))))),
    Import::CoreDef(func!(InstanceId(0), 1)),
    Import::CoreDef(CoreDef::Export(memory!(InstanceId(0), EntityIndex::Memory(MemoryIndex(1))))),
    transcode!(Transcode::Utf8ToLatin1),
    transcode!(Transcode::Utf8ToCompactUtf16),
    Import::Trap(Trap(1)),
];

/// What is imported for adapter 1: what is called, the flags of the lowering and of the lift, memory and callback of
/// the lift, what prepares and starts a call, and a trap.
const OF_ASYNC: [Import; 8] = [
    Import::CoreDef(func!(InstanceId(1), 0)),
    Import::CoreDef(CoreDef::InstanceFlags(RuntimeComponentInstanceIndex(2))),
    Import::CoreDef(CoreDef::InstanceFlags(RuntimeComponentInstanceIndex(1))),
    Import::CoreDef(CoreDef::Export(memory!(InstanceId(1), EntityIndex::Memory(MemoryIndex(0))))),
    Import::CoreDef(func!(InstanceId(1), 1)),
    Import::PrepareCall {
        memory: Some(memory!(InstanceId(1), MemoryIndex(0))),
    },
    Import::StartCall {
        callback: Some(func!(InstanceId(1), 1)),
        post_return: None,
    },
    Import::Trap(Trap(1)),
];

/// The places in a record that are looked at: of what is called, of memory, realloc and callback of the lift, and of
/// the memory of the lowering.
fn places_of(of: &AdapterRecord) -> (u32, [Option<u32>; 4]) {
    let places = [
        of.lift.memory,
        of.lift.realloc,
        of.lift.callback,
        of.lower.memory,
    ];
    (of.callee, places)
}

/// Whether an adapter has this plan.
fn is_planned(planned: Option<AdapterPlan>, imports: &[Import], places: [Option<u32>; 4]) -> bool {
    match planned {
        Some(plan) => plan.imports.as_slice() == imports && places_of(&plan.record) == (7, places),
        None => false,
    }
}

/// Whether adapter 0 has these imports, and adapter 1 its plan.
fn are_planned(
    alloc: Global,
    types: &ComponentTypesBuilder,
    graph: &ComponentDfg,
    of_strings: &[Import],
) -> bool {
    let first = plan_of(alloc, types, graph, AdapterId(0));
    let second = plan_of(alloc, types, graph, AdapterId(1));
    is_planned(first, of_strings, [Some(10), Some(11), None, Some(12)])
        && is_planned(
            second,
            OF_ASYNC.as_slice(),
            [Some(10), None, Some(11), None],
        )
}

/// Which of the answers on the small graph are those that are wanted.
fn answers(alloc: Global) -> Result<[bool; 5], PushError> {
    empty_is_ordered();
    let mut types = ComponentTypesBuilder::new(alloc, Seed::fixed());
    let table = two_types(alloc)?;
    let is_converted = has_two(alloc, &mut types, &table);
    let mut graph = ComponentDfg::new(alloc, Seed::fixed());
    fill(alloc, &mut graph, Shape::Small)?;
    let is_asked = third_lacks(&types, &graph);
    let is_planned = are_planned(alloc, &types, &graph, OF_STRINGS.as_slice());
    graph.transparent_adapters.insert(AdapterId(0))?;
    graph.transparent_adapters.insert(AdapterId(1))?;
    Ok([
        is_converted && has_facts(&types),
        first_has_options(&types, &graph),
        is_asked,
        is_planned,
        are_planned(alloc, &types, &graph, OF_TRANSPARENT.as_slice()),
    ])
}

#[test]
fn the_adapters_of_a_small_graph_are_planned(rt: HostRuntime) {
    let answers = answers(rt.alloc());
    holds(
        &rt,
        "answers",
        answers == Ok([true, true, true, true, true]),
    );
}
