//! The record of a module of adapters, put together adapter by adapter.

ghost use Rattle.std.specs.Prelude.{◌≡◌, ◌++◌, ◌∷◌, ◌+◌, ◌≤◌, [], count_by, IfOk, OnOk, length};
ghost use Rattle.pc_types.specs.declared.parsed.CoreKind.TheVariants as kind;
ghost use Rattle.pc_types.specs.Record.{imports_kind};
ghost use Rattle.pc_adapt_modules.specs.Entities.{entities_for, named_entities};
ghost use Rattle.pc_adapt_modules.specs.Exports.{exports_of, record_of_parts};

use crate::entities::entities_of;
use crate::names::{ModuleNames, put_imports};
use pc_dfg::Adapter;
use pc_entity::{EntityIndex, EntityRef, FuncIndex, NoMemory, Seq, Text};
use pc_types::{CoreEntity, ModuleRecord, SharedRecord};
use std::alloc::Global;

/// What is known of a module while adapters are added to it.
#[derive(Drop)]
pub struct ModuleParts {
    /// What it imports.
    pub imports: Seq<(Text, Text, CoreEntity)>,
    /// The core signatures of its functions.
    pub funcs: Seq<u32>,
}

/// A module without adapters.
pub fn no_parts(alloc: Global) -> ModuleParts
    ensures imports { result.imports ≡ [] }
    ensures funcs { result.funcs ≡ [] }
{
    ModuleParts {
        imports: Seq::new(alloc),
        funcs: Seq::new(alloc),
    }
}

/// Adds an adapter, of this number and with this many imports.
pub fn put_adapter(
    alloc: Global,
    names: &mut ModuleNames,
    parts: &mut ModuleParts,
    number: u32,
    adapter: &Adapter,
    many: usize,
) -> Result<(), NoMemory>
    ensures imports { OnOk result
        (parts.new.imports ≡ parts.old.imports ++ named_entities number 0 (entities_for adapter.now many)) }
    ensures funcs { OnOk result (parts.new.funcs ≡ parts.old.funcs ++ adapter.now.lower_options.core_type.0 ∷ []) }
{
    let entities = entities_of(alloc, adapter, many)?;
    put_imports(alloc, names, &mut parts.imports, number, &entities)?;
    parts.funcs.push(adapter.lower_options.core_type.as_u32())
}

/// A list whose room for more items is given back.
pub fn without_room<T>(list: Seq<T>) -> Seq<T>
    ensures { result ≡ list }
{
    let mut items = list.into_vec();
    items.shrink_to_fit();
    Seq::from_vec(items)
}

/// The exports of as many adapters from this number on, of which the first is this function.
fn exports_from(
    alloc: Global,
    names: &mut ModuleNames,
    function: usize,
    number: u32,
    many: u32,
) -> Result<Seq<(Text, EntityIndex)>, NoMemory>
    requires numbers { number + many ≤ 4294967295 }
    requires functions { function + many ≤ 4294967295 }
    ensures { IfOk result (λ es. es ≡ exports_of function number many) }
{
    let mut exports: Seq<(Text, EntityIndex)> = Seq::with_capacity(alloc, many as usize)?;
    for place in 0..many {
        let name = names.of_adapter(alloc, number + place)?;
        let func = FuncIndex::from_u32(function as u32 + place);
        exports.push((name, EntityIndex::Function(func)))?;
    }
    Ok(exports)
}

/// The record of a module of as many adapters from this number on, which were added, behind its pointer.
pub fn record_of(
    alloc: Global,
    names: &mut ModuleNames,
    parts: ModuleParts,
    number: u32,
    many: u32,
) -> Result<SharedRecord, NoMemory>
    requires numbers { number + many ≤ 4294967295 }
    requires functions { count_by (imports_kind kind.Func) parts.imports + many ≤ 4294967295 }
    ensures { IfOk result (λ r. r ≡ record_of_parts parts.imports parts.funcs number many) }
{
    let record_ = ModuleRecord {
        imports: without_room(parts.imports),
        funcs: without_room(parts.funcs),
        tables: 0,
        memories: Seq::new(alloc),
        globals: 0,
        tags: 0,
        exports: Seq::new(alloc),
    };
    let exports = exports_from(alloc, names, record_.num_imported_funcs(), number, many)?;
    SharedRecord::new(alloc, ModuleRecord { exports, ..record_ })
}
