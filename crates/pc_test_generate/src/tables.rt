//! What the type table of a chain is.

use crate::support::only;
use pc_types::{CoreFuncSig, DeclType, Entity, PrimType, TypeTable, ValType, WasmValType};

/// Whether a table has one signature, and the four types.
pub(crate) fn is_table(table: &TypeTable) -> bool {
    has_signature(table) && has_types(table.types.as_slice())
}

fn has_signature(table: &TypeTable) -> bool {
    match only(&table.core_funcs) {
        Some(signature) => is_signature(signature),
        None => false,
    }
}

/// Whether a number goes in, and one comes out.
fn is_signature(signature: &CoreFuncSig) -> bool {
    let number = Some(WasmValType::I32);
    only(&signature.params).copied() == number && only(&signature.results).copied() == number
}

/// Whether types are these: the function, a module type with nothing, an instance type with the function, and one with
/// nothing.
fn has_types(types: &[DeclType]) -> bool {
    if types.len() != 4 {
        return false;
    }
    let first = is_function(&types[0]) && is_empty_module(&types[1]);
    first && is_instance(&types[2]) && is_empty_instance(&types[3])
}

/// Whether a number `x` goes in, and one comes out.
fn is_function(entry: &DeclType) -> bool {
    match entry {
        DeclType::Func {
            params,
            result,
            async_,
        } => match only(params) {
            Some(param) => {
                let number = ValType::Prim(PrimType::U32);
                param.0.as_str() == "x" && param.1 == number && *result == Some(number) && !*async_
            }
            None => false,
        },
        _ => false,
    }
}

fn is_empty_module(entry: &DeclType) -> bool {
    match entry {
        DeclType::Module { imports, exports } => imports.is_empty() && exports.is_empty(),
        _ => false,
    }
}

/// Whether an instance has the function, and nothing else.
fn is_instance(entry: &DeclType) -> bool {
    match entry {
        DeclType::Instance { exports } => match only(exports) {
            Some(export) => export.0.as_str() == "f" && export.1 == Entity::Func(0),
            None => false,
        },
        _ => false,
    }
}

fn is_empty_instance(entry: &DeclType) -> bool {
    match entry {
        DeclType::Instance { exports } => exports.is_empty(),
        _ => false,
    }
}
