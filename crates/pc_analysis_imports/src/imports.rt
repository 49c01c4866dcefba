//! What is recorded of the imports of a module, one kind after the other.

ghost use Rattle.std.specs.Prelude.{◌≡◌, ◌≢◌, ◌<◌, ℕ, All, IfOk, None, OnOk, Some, length, slice_get};
ghost use Rattle.pc_entity.specs.SecondaryMap.{value_at};
ghost use Rattle.pc_types.specs.Record.{entity_at};
ghost use Rattle.pc_types.specs.declared.module_record.ModuleRecord.{ModuleRecord as Record};
ghost use Rattle.pc_types.specs.declared.parsed.CoreKind.TheVariants as kind;
ghost use Rattle.pc_analysis_imports.specs.declared.imports.Imports.{Imports as Found};
ghost use Rattle.pc_analysis_imports.specs.Imports.{AreImports, always_given, entity_from, func_from};
ghost use Rattle.pc_analysis_imports.specs.Imports.{func_of_trampoline, global_from, import_source};
ghost use Rattle.pc_analysis_imports.specs.Imports.{memory_from, table_from};

use crate::ambiguous::Ambiguous;
use crate::index::ImportIndex;
use crate::source::{Instance, Source, of_defs};
use pc_dfg::AbstractInstantiations;
use pc_entity::{
    DefinedFuncIndex, DefinedGlobalIndex, DefinedMemoryIndex, DefinedTableIndex, EntityIndex,
    EntityRef, FuncIndex, GlobalIndex, MemoryIndex, NoMemory, PrimaryMap, SecondaryMap, Seq,
    StaticModuleIndex, TableIndex, TrampolineIndex,
};
use pc_info::{KnownEntity, KnownFunc, KnownGlobal, Trampoline};
use pc_types::CoreKind;
use std::alloc::Global;

/// What is recorded of the imports of a module.
#[derive(Drop)]
pub(crate) struct Imports {
    pub(crate) functions: SecondaryMap<FuncIndex, Option<KnownFunc>>,
    pub(crate) globals: SecondaryMap<GlobalIndex, Option<KnownGlobal>>,
    pub(crate) memories: SecondaryMap<MemoryIndex, Option<KnownEntity<DefinedMemoryIndex>>>,
    pub(crate) tables: SecondaryMap<TableIndex, Option<KnownEntity<DefinedTableIndex>>>,
}

/// What a trampoline is known to be: the bracket of a call between component instances, or a trap.
fn of_trampoline(trampoline: &Trampoline) -> Option<KnownFunc>
    ensures { result ≡ func_of_trampoline trampoline.now }
{
    match trampoline {
        Trampoline::EnterSyncCall => Some(KnownFunc::EnterSyncCall),
        Trampoline::ExitSyncCall => Some(KnownFunc::ExitSyncCall),
        Trampoline::Trap(code) => Some(KnownFunc::Trap(*code)),
        _ => None,
    }
}

/// What a function import is known to be, from what it is given.
fn known_func(
    trampolines: &PrimaryMap<TrampolineIndex, Trampoline>,
    given: Source,
) -> Option<KnownFunc>
    ensures { result ≡ func_from trampolines.now given }
{
    match given {
        Source::Defined(module, CoreKind::Func, number) => Some(KnownFunc::DefinedWasmFunction(
            module,
            DefinedFuncIndex(number),
        )),
        Source::Trampoline(trampoline) => match trampolines.get(trampoline) {
            Some(trampoline) => of_trampoline(trampoline),
            None => None,
        },
        Source::Intrinsic(intrinsic) => Some(KnownFunc::UnsafeIntrinsic(intrinsic)),
        _ => None,
    }
}

/// The entity of a kind that an import is known to be.
fn known_entity(
    ambiguous: &Ambiguous,
    kind: CoreKind,
    given: Source,
) -> Option<(StaticModuleIndex, u32)>
    ensures { result ≡ entity_from ambiguous.now kind given }
{
    match given {
        Source::Defined(module, of, number) => {
            if kind.is(of) && !ambiguous.has(module, of, number) {
                return Some((module, number));
            }
            None
        }
        _ => None,
    }
}

/// What a global import is known to be.
fn known_global(ambiguous: &Ambiguous, given: Source) -> Option<KnownGlobal>
    ensures { result ≡ global_from ambiguous.now given }
{
    match given {
        Source::Flags(instance) => {
            if ambiguous.has_flags(instance) {
                return None;
            }
            Some(KnownGlobal::ComponentInstanceFlags(instance))
        }
        _ => match known_entity(ambiguous, CoreKind::Global, given) {
            Some((module, number)) => Some(KnownGlobal::Defined(KnownEntity {
                module,
                index: DefinedGlobalIndex(number),
            })),
            None => None,
        },
    }
}

/// What a memory import is known to be.
fn known_memory(ambiguous: &Ambiguous, given: Source) -> Option<KnownEntity<DefinedMemoryIndex>>
    ensures { result ≡ memory_from ambiguous.now given }
{
    match known_entity(ambiguous, CoreKind::Memory, given) {
        Some((module, number)) => Some(KnownEntity {
            module,
            index: DefinedMemoryIndex(number),
        }),
        None => None,
    }
}

/// What a table import is known to be.
fn known_table(ambiguous: &Ambiguous, given: Source) -> Option<KnownEntity<DefinedTableIndex>>
    ensures { result ≡ table_from ambiguous.now given }
{
    match known_entity(ambiguous, CoreKind::Table, given) {
        Some((module, number)) => Some(KnownEntity {
            module,
            index: DefinedTableIndex(number),
        }),
        None => None,
    }
}

/// What an import is given.
fn at(index: &ImportIndex<'_>, given: &[Source], import: EntityIndex) -> Source
    ensures { result ≡ import_source index.now given.now import }
{
    match index.import_position(import) {
        Some(place) => match given.get(place) {
            Some(source) => *source,
            None => Source::Unknown,
        },
        None => Source::Unknown,
    }
}

/// Records what an import is known to be, if it is known, where nothing is recorded of it.
fn note<K: EntityRef, V: Copy>(
    known: &mut SecondaryMap<K, Option<V>>,
    import: K,
    found: Option<V>,
) -> Result<(), NoMemory>
    requires new_ { value_at known.old (K.number import) ≡ None }
    ensures here { OnOk result (value_at known.new (K.number import) ≡ found) }
    ensures elsewhere { OnOk result ((n : ℕ) → n ≢ K.number import → value_at known.new n ≡ value_at known.old n) }
{
    match found {
        Some(_) => known.set(import, found),
        None => Ok(()),
    }
}

/// The function imports that are known.
fn functions(
    alloc: Global,
    trampolines: &PrimaryMap<TrampolineIndex, Trampoline>,
    index: &ImportIndex<'_>,
    given: &[Source],
) -> Result<SecondaryMap<FuncIndex, Option<KnownFunc>>, NoMemory>
    requires numbered { length index.now.imports < 4294967295 }
    ensures { IfOk result (λ known. (n : ℕ)
        → value_at known n ≡ func_from trampolines.now (import_source index.now given.now (entity_at kind.Func n))) }
{
    let mut known = SecondaryMap::new(alloc, None);
    for n in 0..index.imported(CoreKind::Func) {
        let import = FuncIndex(n as u32);
        let source = at(index, given, EntityIndex::Function(import));
        note(&mut known, import, known_func(trampolines, source))?;
    }
    Ok(known)
}

/// The global imports that are known.
fn globals(
    alloc: Global,
    ambiguous: &Ambiguous,
    index: &ImportIndex<'_>,
    given: &[Source],
) -> Result<SecondaryMap<GlobalIndex, Option<KnownGlobal>>, NoMemory>
    requires numbered { length index.now.imports < 4294967295 }
    ensures { IfOk result (λ known. (n : ℕ)
        → value_at known n ≡ global_from ambiguous.now (import_source index.now given.now (entity_at kind.Global n))) }
{
    let mut known = SecondaryMap::new(alloc, None);
    for n in 0..index.imported(CoreKind::Global) {
        let import = GlobalIndex(n as u32);
        let source = at(index, given, EntityIndex::Global(import));
        note(&mut known, import, known_global(ambiguous, source))?;
    }
    Ok(known)
}

/// The memory imports that are known.
fn memories(
    alloc: Global,
    ambiguous: &Ambiguous,
    index: &ImportIndex<'_>,
    given: &[Source],
) -> Result<SecondaryMap<MemoryIndex, Option<KnownEntity<DefinedMemoryIndex>>>, NoMemory>
    requires numbered { length index.now.imports < 4294967295 }
    ensures { IfOk result (λ known. (n : ℕ)
        → value_at known n ≡ memory_from ambiguous.now (import_source index.now given.now (entity_at kind.Memory n))) }
{
    let mut known = SecondaryMap::new(alloc, None);
    for n in 0..index.imported(CoreKind::Memory) {
        let import = MemoryIndex(n as u32);
        let source = at(index, given, EntityIndex::Memory(import));
        note(&mut known, import, known_memory(ambiguous, source))?;
    }
    Ok(known)
}

/// The table imports that are known.
fn tables(
    alloc: Global,
    ambiguous: &Ambiguous,
    index: &ImportIndex<'_>,
    given: &[Source],
) -> Result<SecondaryMap<TableIndex, Option<KnownEntity<DefinedTableIndex>>>, NoMemory>
    requires numbered { length index.now.imports < 4294967295 }
    ensures { IfOk result (λ known. (n : ℕ)
        → value_at known n ≡ table_from ambiguous.now (import_source index.now given.now (entity_at kind.Table n))) }
{
    let mut known = SecondaryMap::new(alloc, None);
    for n in 0..index.imported(CoreKind::Table) {
        let import = TableIndex(n as u32);
        let source = at(index, given, EntityIndex::Table(import));
        note(&mut known, import, known_table(ambiguous, source))?;
    }
    Ok(known)
}

/// What a module is always given: nothing, where it isn't always given the same.
fn given_to(
    alloc: Global,
    records: &[ImportIndex<'_>],
    instances: &[Instance],
    ways: &[AbstractInstantiations<'_>],
    place: usize,
) -> Result<Seq<Source>, NoMemory>
    ensures { IfOk result (λ given. given ≡ always_given records.now instances.now (slice_get ways.now place)) }
{
    match ways.get(place) {
        Some(AbstractInstantiations::One(args)) => of_defs(alloc, records, instances, args),
        _ => Ok(Seq::new(alloc)),
    }
}

/// The imports of a module that are known, where it is always given this.
fn imports_of(
    alloc: Global,
    trampolines: &PrimaryMap<TrampolineIndex, Trampoline>,
    ambiguous: &Ambiguous,
    index: &ImportIndex<'_>,
    given: &[Source],
) -> Result<Imports, NoMemory>
    requires numbered { length index.now.imports < 4294967295 }
    ensures { IfOk result (λ i. AreImports trampolines.now ambiguous.now index.now given.now i) }
{
    let functions = functions(alloc, trampolines, index, given)?;
    let globals = globals(alloc, ambiguous, index, given)?;
    let memories = memories(alloc, ambiguous, index, given)?;
    let tables = tables(alloc, ambiguous, index, given)?;
    Ok(Imports {
        functions,
        globals,
        memories,
        tables,
    })
}

/// The known imports of the module of a number.
fn imports_at(
    alloc: Global,
    trampolines: &PrimaryMap<TrampolineIndex, Trampoline>,
    records: &[ImportIndex<'_>],
    instances: &[Instance],
    ways: &[AbstractInstantiations<'_>],
    ambiguous: &Ambiguous,
    place: usize,
) -> Result<Imports, NoMemory>
    requires held { place < length records.now }
    requires numbered { All (λ (r : Record). length r.imports < 4294967295) records.now }
    ensures { IfOk result (λ i. (r : Record) → slice_get records.now place ≡ Some r
        → AreImports trampolines.now ambiguous.now r
        (always_given records.now instances.now (slice_get ways.now place)) i) }
{
    let given = given_to(alloc, records, instances, ways, place)?;
    let sources = given.as_slice();
    let imports = imports_of(alloc, trampolines, ambiguous, &records[place], sources)?;
    Ok(imports)
}

/// The known imports of each module.
pub(crate) fn known_imports(
    alloc: Global,
    trampolines: &PrimaryMap<TrampolineIndex, Trampoline>,
    records: &[ImportIndex<'_>],
    instances: &[Instance],
    ways: &[AbstractInstantiations<'_>],
    ambiguous: &Ambiguous,
) -> Result<Vec<Imports>, NoMemory>
    requires numbered { All (λ (r : Record). length r.imports < 4294967295) records.now }
    ensures count { IfOk result (λ found. length found.items ≡ length records.now) }
    ensures imports { IfOk result (λ found. (m : ℕ) (r : Record) (i : Found) → slice_get records.now m ≡ Some r
        → slice_get found.items m ≡ Some i
        → AreImports trampolines.now ambiguous.now r
        (always_given records.now instances.now (slice_get ways.now m)) i) }
{
    let mut found = Vec::with_capacity(alloc, records.len())?;
    for place in 0..records.len() {
        let imports = imports_at(
            alloc,
            trampolines,
            records,
            instances,
            ways,
            ambiguous,
            place,
        )?;
        found.push(imports)?;
    }
    Ok(found)
}
