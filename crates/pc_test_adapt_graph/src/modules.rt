//! The records of modules of adapters.

use crate::sides::{Kind, adapter_of};
use crate::support::holds;
use pc_adapt_modules::module::{ModuleParts, no_parts, put_adapter, record_of};
use pc_adapt_modules::names::name_of_adapter;
use pc_adapt_modules::{ModuleNames, entities_of};
use pc_dfg::InstanceId;
use pc_entity::NoMemory;
use pc_types::{CoreEntity, SharedRecord};
use std::alloc::Global;
use std::test::*;

/// As what the 11 imports of an adapter of strings are imported: what is called, two flags, memory and realloc of the
/// lift, the memory of the lowering, and five functions under the core signature of the lowering.
static ENTITIES: [CoreEntity; 11] = [
    CoreEntity::Func(5),
    CoreEntity::Global,
    CoreEntity::Global,
    CoreEntity::Memory { memory64: false },
    CoreEntity::Func(6),
    CoreEntity::Memory { memory64: false },
    CoreEntity::Func(6),
    CoreEntity::Func(6),
    CoreEntity::Func(6),
    CoreEntity::Func(6),
    CoreEntity::Func(6),
];

/// Whether an adapter of strings has these entities.
fn has_entities(alloc: Global) -> Result<bool, NoMemory> {
    let adapter = adapter_of(InstanceId(0), Kind::Strings);
    let entities = entities_of(alloc, &adapter, 11)?;
    Ok(entities.as_slice() == ENTITIES.as_slice())
}

/// Whether the name of adapter 70 is this one.
fn has_name(alloc: Global) -> Result<bool, NoMemory> {
    let name = name_of_adapter(alloc, 70)?;
    Ok(name.as_str() == "adapter70")
}

/// The record of the adapters in a module, from number 7 on, if they are few enough.
fn record_from_7(
    alloc: Global,
    names: &mut ModuleNames,
    parts: ModuleParts,
    many: u32,
) -> Result<SharedRecord, NoMemory> {
    if parts.imports.len() < 10_000_000 && many < 10_000_000 {
        record_of(alloc, names, parts, 7, many)
    } else {
        Err(NoMemory)
    }
}

/// The parts of a module of so many adapters, each with 11 imports.
fn parts_of(alloc: Global, names: &mut ModuleNames, many: u32) -> Result<ModuleParts, NoMemory> {
    let mut parts = no_parts(alloc);
    let adapter = adapter_of(InstanceId(0), Kind::Strings);
    for number in 0..many {
        put_adapter(alloc, names, &mut parts, number, &adapter, 11)?;
    }
    Ok(parts)
}

/// How many imports, own functions and exports a module of so many adapters has.
fn counts_of(alloc: Global, many: u32) -> Result<[usize; 3], NoMemory> {
    let mut names = ModuleNames::new(alloc);
    let parts = parts_of(alloc, &mut names, many)?;
    let shared = record_from_7(alloc, &mut names, parts, many)?;
    let made = shared.get();
    Ok([made.imports.len(), made.funcs.len(), made.exports.len()])
}

#[test]
fn a_module_of_one_adapter_is_put_together(rt: HostRuntime) {
    holds(&rt, "entities", has_entities(rt.alloc()) == Ok(true));
    holds(&rt, "name", has_name(rt.alloc()) == Ok(true));
    let counts = counts_of(rt.alloc(), 1);
    holds(&rt, "counts", counts == Ok([11, 1, 1]));
}

/// The imports of all but one adapter would be copied 10 ^ 5 times, where the record was made anew for each.
#[test]
fn a_module_of_many_adapters_is_put_together(rt: HostRuntime) {
    let counts = counts_of(rt.alloc(), 100_000);
    holds(&rt, "counts", counts == Ok([1_100_000, 100_000, 100_000]));
}
