//! What the root declares the unsafe intrinsics to be.

ghost use Rattle.std.specs.Prelude.{◌≡◌, [], IfOk};
ghost use Rattle.std.specs.List.{list_any};
ghost use Rattle.std.specs.Option.{option_copied, option_map};
ghost use Rattle.std.specs.Str.{bytes_eq};
ghost use Rattle.pc_types.specs.Table.{is_some_and};
ghost use Rattle.pc_types.specs.IntrinsicType.{intrinsic_type};
ghost use Rattle.pc_parsed.specs.Interface.{are_params, entry_prim, function_fault, has_resource};
ghost use Rattle.pc_parsed.specs.Interface.{import_interface_fault, instance_type_fault, interface_fault};
ghost use Rattle.pc_parsed.specs.Interface.{intrinsic_exports_fault, intrinsic_fault, intrinsics_fault, is_answer};
ghost use Rattle.pc_parsed.specs.Interface.{is_integer, leads_to_resource, prim_of, prims_from, resources_from};
ghost use Rattle.pc_parsed.specs.Interface.{same_integer, type_fault, type_of, unless_resource};

use crate::fault::StaticFault;
use pc_entity::{NoMemory, Seq, Text};
use pc_types::{DeclType, Entity, InterfaceType, PrimType, TypeTable, UnsafeIntrinsic, ValType};
use std::alloc::Global;

fn prim_of(earlier: &[Option<PrimType>], v: ValType) -> Option<PrimType>
    ensures { result ≡ prim_of earlier.now v }
{
    match v {
        ValType::Prim(prim) => Some(prim),
        ValType::Type_(n) => match earlier.get(n as usize) {
            Some(prim) => *prim,
            None => None,
        },
    }
}

fn entry_prim(earlier: &[Option<PrimType>], entry: &DeclType) -> Option<PrimType>
    ensures { result ≡ entry_prim earlier.now entry.now }
{
    match entry {
        DeclType::Val(v) => prim_of(earlier, *v),
        _ => None,
    }
}

/// The primitive that each entry holds, if it holds one.
fn prims(alloc: Global, types: &[DeclType]) -> Result<Seq<Option<PrimType>>, NoMemory>
    ensures { IfOk result (λ ps. ps ≡ prims_from [] types.now) }
{
    let mut prims = Seq::with_capacity(alloc, types.len())?;
    for entry in types {
        prims.push(entry_prim(prims.as_slice(), entry))?;
    }
    Ok(prims)
}

fn leads_to_resource(table: &TypeTable, earlier: &[bool], entity: Entity) -> bool
    ensures { result ≡ leads_to_resource table.now earlier.now entity }
{
    match entity {
        Entity::Type_(n) => match table.entry(n) {
            Some(entry) => entry.is_resource(),
            None => false,
        },
        Entity::Instance(n) => match earlier.get(n as usize) {
            Some(leads) => *leads,
            None => false,
        },
        _ => false,
    }
}

fn lead_to_resource(table: &TypeTable, earlier: &[bool], exports: &[(Text, Entity)]) -> bool
    ensures { result ≡ list_any (λ e. leads_to_resource table.now earlier.now e.1) exports.now }
{
    exports
        .iter()
        .any(|e| leads_to_resource(table, earlier, e.1))
}

fn has_resource(table: &TypeTable, earlier: &[bool], entry: &DeclType) -> bool
    ensures { result ≡ has_resource table.now earlier.now entry.now }
{
    match entry {
        DeclType::Instance { exports } => lead_to_resource(table, earlier, exports.as_slice()),
        _ => false,
    }
}

/// Of each entry, whether a path of its exports ends at a resource.
fn resources(alloc: Global, table: &TypeTable) -> Result<Seq<bool>, NoMemory>
    ensures { IfOk result (λ rs. rs ≡ resources_from table.now [] table.now.types) }
{
    let types = table.types.as_slice();
    let mut leads = Seq::with_capacity(alloc, types.len())?;
    for entry in types {
        leads.push(has_resource(table, leads.as_slice(), entry))?;
    }
    Ok(leads)
}

fn same_integer(wanted: InterfaceType, found: PrimType) -> bool
    ensures { result ≡ same_integer wanted found }
{
    match wanted {
        InterfaceType::U8 => matches!(found, PrimType::U8),
        InterfaceType::U16 => matches!(found, PrimType::U16),
        InterfaceType::U32 => matches!(found, PrimType::U32),
        InterfaceType::U64 => matches!(found, PrimType::U64),
        _ => false,
    }
}

fn is_integer(prims: &[Option<PrimType>], wanted: InterfaceType, v: ValType) -> bool
    ensures { result ≡ is_integer prims.now wanted v }
{
    match prim_of(prims, v) {
        Some(found) => same_integer(wanted, found),
        None => false,
    }
}

fn are_params(
    prims: &[Option<PrimType>],
    taken: &[InterfaceType],
    params: &[(Text, ValType)],
) -> bool
    ensures { result ≡ are_params prims.now taken.now params.now }
{
    if taken.len() != params.len() {
        return false;
    }
    for (n, param) in params.iter().enumerate() {
        if !is_integer(prims, taken[n], param.1) {
            return false;
        }
    }
    true
}

fn is_answer(prims: &[Option<PrimType>], answered: &[InterfaceType], found: Option<ValType>) -> bool
    ensures { result ≡ is_answer prims.now answered.now found }
{
    match (answered, found) {
        ([], None) => true,
        ([wanted], Some(v)) => is_integer(prims, *wanted, v),
        _ => false,
    }
}

fn types_fault(
    prims: &[Option<PrimType>],
    intrinsic: UnsafeIntrinsic,
    params: &[(Text, ValType)],
    answer: Option<ValType>,
) -> Option<StaticFault>
    ensures { result ≡ type_fault prims.now (intrinsic_type intrinsic) params.now answer }
{
    if are_params(prims, intrinsic.component_params(), params)
        && is_answer(prims, intrinsic.component_results(), answer)
    {
        None
    } else {
        Some(StaticFault::BadIntrinsics)
    }
}

fn type_fault(
    prims: &[Option<PrimType>],
    name: &str,
    params: &[(Text, ValType)],
    answer: Option<ValType>,
) -> Option<StaticFault>
    ensures { result ≡ type_fault prims.now (type_of name.now) params.now answer }
{
    match UnsafeIntrinsic::from_str(name) {
        Ok(intrinsic) => types_fault(prims, intrinsic, params, answer),
        Err(_) => Some(StaticFault::UnknownIntrinsic),
    }
}

fn function_fault(
    prims: &[Option<PrimType>],
    name: &Text,
    entry: Option<&DeclType>,
) -> Option<StaticFault>
    ensures { result ≡ function_fault prims.now name.now (option_copied entry.entry) }
{
    match entry {
        Some(DeclType::Func { params, result, .. }) => {
            type_fault(prims, name.as_str(), params.as_slice(), *result)
        }
        _ => Some(StaticFault::BadIntrinsics),
    }
}

fn intrinsic_fault(
    table: &TypeTable,
    prims: &[Option<PrimType>],
    export: &(Text, Entity),
) -> Option<StaticFault>
    ensures { result ≡ intrinsic_fault table.now prims.now export.now }
{
    match export.1 {
        Entity::Func(n) => function_fault(prims, &export.0, table.entry(n)),
        _ => Some(StaticFault::BadIntrinsics),
    }
}

fn intrinsics_fault(
    table: &TypeTable,
    prims: &[Option<PrimType>],
    exports: &[(Text, Entity)],
) -> Option<StaticFault>
    ensures { result ≡ intrinsics_fault table.now prims.now exports.now }
{
    for export in exports {
        if let Some(fault) = intrinsic_fault(table, prims, export) {
            return Some(fault);
        }
    }
    None
}

fn unless_resource(leads: bool, later: Option<StaticFault>) -> Option<StaticFault>
    ensures { result ≡ unless_resource leads later }
{
    if leads {
        Some(StaticFault::BadIntrinsics)
    } else {
        later
    }
}

fn exports_fault(
    alloc: Global,
    table: &TypeTable,
    exports: &[(Text, Entity)],
) -> Result<Option<StaticFault>, NoMemory>
    ensures { IfOk result (λ f. f ≡ intrinsic_exports_fault table.now exports.now) }
{
    let earlier = resources(alloc, table)?;
    let prims = prims(alloc, table.types.as_slice())?;
    let leads = lead_to_resource(table, earlier.as_slice(), exports);
    Ok(unless_resource(leads, intrinsics_fault(table, prims.as_slice(), exports)))
}

fn instance_type_fault(
    alloc: Global,
    table: &TypeTable,
    entry: Option<&DeclType>,
) -> Result<Option<StaticFault>, NoMemory>
    ensures { IfOk result (λ f. f ≡ instance_type_fault table.now (option_copied entry.entry)) }
{
    match entry {
        Some(DeclType::Instance { exports }) => exports_fault(alloc, table, exports.as_slice()),
        _ => Ok(Some(StaticFault::BadIntrinsics)),
    }
}

fn interface_fault(
    alloc: Global,
    table: &TypeTable,
    entity: Entity,
) -> Result<Option<StaticFault>, NoMemory>
    ensures { IfOk result (λ f. f ≡ interface_fault table.now entity) }
{
    match entity {
        Entity::Instance(n) => instance_type_fault(alloc, table, table.entry(n)),
        _ => Ok(Some(StaticFault::BadIntrinsics)),
    }
}

/// Whether a name is the exposed one, under which the unsafe intrinsics may be imported.
pub fn is_exposed(exposed: Option<&str>, name: &Text) -> bool
    ensures { result ≡ is_some_and (bytes_eq name.now) (option_map (λ x. x.now) exposed.entry) }
{
    match exposed {
        Some(exposed) => name.as_str() == exposed,
        None => false,
    }
}

/// What is wrong with what an import declares, if it is that of the unsafe intrinsics.
pub(crate) fn import_interface_fault(
    alloc: Global,
    table: &TypeTable,
    exposed: Option<&str>,
    name: &Text,
    entity: Entity,
) -> Result<Option<StaticFault>, NoMemory>
    ensures { IfOk result (λ f. f ≡ import_interface_fault table.now (option_map (λ x. x.now) exposed.entry)
        name.now entity) }
{
    if is_exposed(exposed, name) {
        interface_fault(alloc, table, entity)
    } else {
        Ok(None)
    }
}
