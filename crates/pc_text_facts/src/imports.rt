//! What is recorded of the imports of a module, a line each.

ghost use Rattle.std.specs.Prelude.{◌≡◌, ◌++◌, codes, option_map, OnOk};
ghost use Rattle.pc_entity.specs.PackedOption.{as_option};
ghost use Rattle.pc_entity.specs.SecondaryMap.{value_at};
ghost use Rattle.pc_numbers.specs.declared.module_entity.FuncIndex.{FuncIndex};
ghost use Rattle.pc_types.specs.declared.parsed.CoreKind.{CoreKind};
ghost use Rattle.pc_spec_plan.specs.Text.{number};
ghost use Rattle.pc_spec_facts.specs.Recorded.{function_of, global_of};
ghost use Rattle.pc_spec_facts.specs.Text.{each_below, fact_line, known, known_function};
ghost use Rattle.pc_text_facts.specs.Defined.{defined_as};

use crate::line::{put_defined, put_head};
use pc_entity::{EntityRef, FuncIndex, GlobalIndex, NoMemory, PackedOption, SecondaryMap};
use pc_info::{KnownEntity, KnownFunc, KnownGlobal};
use pc_text_pieces::{put, put_key, put_number};

/// The line of a function import that another one represents.
fn put_representative(
    out: &mut Vec<u8>,
    place: usize,
    f: u32,
    representative: PackedOption<FuncIndex>,
) -> Result<(), NoMemory>
    ensures { OnOk result (out.new.items ≡ out.old.items
        ++ fact_line (codes "same") number place f
        (option_map (λ (r : FuncIndex). r.0) (as_option representative))) }
{
    match representative {
        PackedOption::None => Ok(()),
        PackedOption::Some(other) => {
            put_head(out, "same", place, f)?;
            put_key(out, other)?;
            put(out, "\n")
        }
    }
}

/// A line for each of so many function imports that another one represents.
pub(crate) fn put_representatives(
    out: &mut Vec<u8>,
    place: usize,
    imported: u32,
    representatives: &SecondaryMap<FuncIndex, PackedOption<FuncIndex>>,
) -> Result<(), NoMemory>
    ensures { OnOk result (out.new.items ≡ out.old.items
        ++ each_below imported (λ f. fact_line (codes "same") number place f
        (option_map (λ (r : FuncIndex). r.0) (as_option (value_at representatives.now f))))) }
{
    for f in 0..imported {
        put_representative(out, place, f, representatives.get(FuncIndex(f)))?;
    }
    Ok(())
}

/// What a function import is known to be.
fn put_function(out: &mut Vec<u8>, function: KnownFunc) -> Result<(), NoMemory>
    ensures { OnOk result (out.new.items ≡ out.old.items ++ known_function (function_of function)) }
{
    match function {
        KnownFunc::EnterSyncCall => put(out, " enter-sync-call"),
        KnownFunc::ExitSyncCall => put(out, " exit-sync-call"),
        KnownFunc::Trap(code) => {
            put(out, " trap")?;
            put_number(out, u64::from(code.0))
        }
        KnownFunc::UnsafeIntrinsic(intrinsic) => {
            put(out, " intrinsic ")?;
            put(out, intrinsic.name())
        }
        KnownFunc::DefinedWasmFunction(owner, index) => put_defined(out, owner, index),
    }
}

/// The line of a function import that is known.
fn put_known_function(
    out: &mut Vec<u8>,
    place: usize,
    f: u32,
    function: Option<KnownFunc>,
) -> Result<(), NoMemory>
    ensures { OnOk result (out.new.items ≡ out.old.items
        ++ fact_line (codes "func") known_function place f (option_map function_of function)) }
{
    match function {
        None => Ok(()),
        Some(function) => {
            put_head(out, "func", place, f)?;
            put_function(out, function)?;
            put(out, "\n")
        }
    }
}

/// A line for each of so many function imports that is known.
pub(crate) fn put_functions(
    out: &mut Vec<u8>,
    place: usize,
    imported: u32,
    functions: &SecondaryMap<FuncIndex, Option<KnownFunc>>,
) -> Result<(), NoMemory>
    ensures { OnOk result (out.new.items ≡ out.old.items
        ++ each_below imported (λ f. fact_line (codes "func") known_function place f
        (option_map function_of (value_at functions.now f)))) }
{
    for f in 0..imported {
        put_known_function(out, place, f, functions.get(FuncIndex(f)))?;
    }
    Ok(())
}

/// What a global import is known to be.
fn put_global(out: &mut Vec<u8>, global: KnownGlobal) -> Result<(), NoMemory>
    ensures { OnOk result (out.new.items ≡ out.old.items ++ known (global_of global)) }
{
    match global {
        KnownGlobal::Defined(entity) => put_defined(out, entity.module, entity.index),
        KnownGlobal::ComponentInstanceFlags(instance) => {
            put(out, " flags")?;
            put_key(out, instance)
        }
    }
}

/// The line of a global import that is known.
fn put_known_global(
    out: &mut Vec<u8>,
    place: usize,
    n: u32,
    global: Option<KnownGlobal>,
) -> Result<(), NoMemory>
    ensures { OnOk result (out.new.items ≡ out.old.items
        ++ fact_line (codes "global") known place n (option_map global_of global)) }
{
    match global {
        None => Ok(()),
        Some(global) => {
            put_head(out, "global", place, n)?;
            put_global(out, global)?;
            put(out, "\n")
        }
    }
}

/// A line for each of so many global imports that is known.
pub(crate) fn put_globals(
    out: &mut Vec<u8>,
    place: usize,
    imported: u32,
    globals: &SecondaryMap<GlobalIndex, Option<KnownGlobal>>,
) -> Result<(), NoMemory>
    ensures { OnOk result (out.new.items ≡ out.old.items
        ++ each_below imported (λ n. fact_line (codes "global") known place n
        (option_map global_of (value_at globals.now n)))) }
{
    for n in 0..imported {
        put_known_global(out, place, n, globals.get(GlobalIndex(n)))?;
    }
    Ok(())
}

/// The line of an import of a kind, which is known where it is an entity of that kind that a module defines.
fn put_known_entity<T: EntityRef>(
    out: &mut Vec<u8>,
    word: &str,
    place: usize,
    n: u32,
    entity: Option<KnownEntity<T>>,
) -> Result<(), NoMemory>
    ensures { (k : CoreKind) → OnOk result (out.new.items ≡ out.old.items
        ++ fact_line word.now known place n
        (option_map (defined_as T.number k) entity)) }
{
    match entity {
        None => Ok(()),
        Some(entity) => {
            put_head(out, word, place, n)?;
            put_defined(out, entity.module, entity.index)?;
            put(out, "\n")
        }
    }
}

/// A line for each of so many imports of a kind that is known.
pub(crate) fn put_entities<K: EntityRef, T: EntityRef>(
    out: &mut Vec<u8>,
    word: &str,
    place: usize,
    imported: u32,
    entities: &SecondaryMap<K, Option<KnownEntity<T>>>,
) -> Result<(), NoMemory>
    ensures { (k : CoreKind) → OnOk result (out.new.items ≡ out.old.items
        ++ each_below imported (λ n. fact_line word.now known place n
        (option_map (defined_as T.number k) (value_at entities.now n)))) }
{
    for n in 0..imported {
        put_known_entity(out, word, place, n, entities.get(K::from_u32(n)))?;
    }
    Ok(())
}
