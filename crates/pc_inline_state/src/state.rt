//! What all component instances share while they are read: the graph so far, and the tables of what their items are.

ghost use Rattle.std.specs.Prelude.{◌≡◌, ◌<◌, ◌++◌, ◌∷◌, ℕ, List, [], length, None, Some, slice_get};
ghost use Rattle.std.specs.Prelude.{option_and_then, option_map, IfOk, IfErr};
ghost use Rattle.std.specs.Prelude.{OnOk, OnErr};
ghost use Rattle.pc_numbers.specs.declared.module_entity.ModuleInternedTypeIndex.{ModuleInternedTypeIndex};
ghost use Rattle.pc_numbers.specs.declared.runtime.TrampolineIndex.{TrampolineIndex};
ghost use Rattle.pc_types.specs.IntrinsicType.{intrinsic_place};
ghost use Rattle.pc_types.specs.TypeTree.{Path};
ghost use Rattle.pc_dfg.specs.declared.core_def.CoreDef.TheVariants as def;
ghost use Rattle.pc_dfg.specs.Grows.{HasIntrinsic};
ghost use Rattle.pc_dfg.specs.Held.{HeldTrampoline};
ghost use Rattle.pc_dfg.specs.Numbers.{trampoline_entry};
ghost use Rattle.pc_dfg.specs.Ordered.{IsOrdered};
ghost use Rattle.pc_dfg.specs.Pushed.{IsPut, with_intrinsic};
ghost use Rattle.pc_inline_names.specs.Numbers.{numbered_value};
ghost use Rattle.pc_inline_paths.specs.Paths.{at_import, further};
ghost use Rattle.pc_types.specs.Table.{is_some_and};
ghost use Rattle.pc_inline_state.specs.AddsEach.{AddsEach, in_trampolines, nowhere};
ghost use Rattle.pc_inline_state.specs.Fresh.{IsFresh, counted_tables};
ghost use Rattle.pc_inline_state.specs.Definitions.{is_of_kind};
ghost use Rattle.pc_inline_state.specs.Members.{item_of};
ghost use Rattle.pc_inline_state.specs.TakesPath.{NotesPath, SoundWithPaths, TakesPath};
ghost use Rattle.pc_inline_state.specs.Refused.{LacksEntry, LacksRoom};
ghost use Rattle.pc_inline_state.specs.Tables.{Keeps, tables_of};
ghost use Rattle.pc_inline_state.specs.Typed.{AreNumbers, no_resources};

use crate::closure::Closure;
use crate::definition::{ClosureId, CoreId, Definition, DefinitionId, ExportsId};
use crate::error::ItemError;
use crate::instance_module::InstanceModule;
use crate::numbers::Numbers;
use crate::places::Places;
use pc_dfg::{ComponentDfg, CoreDef, Trampoline};
use pc_entity::{
    Atom, EntityRef, ImportIndex, ModuleInternedTypeIndex, NoMemory, PrimaryMap,
    RuntimeImportIndex, Seed, StaticComponentIndex,
};
use pc_inline_names::{AtomMap, ProgramNames};
use pc_inline_paths::{PathId, Paths};
use pc_local::Translation;
use pc_parsed::ItemKind;
use pc_types::{ComponentExternData, TypeKind, TypeTable, UnsafeIntrinsic};
use pc_types_builder::ComponentTypesBuilder;
use std::alloc::Global;
use std::mem;

/// The most entries of one table.
const MAX_ENTRIES: usize = 4294967295;

/// Adds an entry at the end of a table, and answers its number.
fn append<K: EntityRef, V: Drop>(table: &mut PrimaryMap<K, V>, entry: V) -> Result<K, ItemError>
    ensures key { IfOk result (λ key. K.number key ≡ length table.old) }
    ensures ok { OnOk result (table.new ≡ table.old ++ entry ∷ []) }
    ensures lacks { IfErr result (LacksEntry (length table.new)) }
    ensures err { OnErr result (table.new ≡ table.old) }
{
    if table.len() >= MAX_ENTRIES {
        return Err(ItemError::TooMany);
    }
    Ok(table.push(entry)?)
}

/// What a component instance exports under a name, with what the name says of itself.
#[derive(Drop)]
pub struct Member {
    pub item: DefinitionId,
    pub data_: ComponentExternData,
}

/// The types builder, the graph so far, the tables of what items are, what was asked for once already, and the bodies
/// of the program with its type table and its names.
pub struct State<'a> {
    pub types: ComponentTypesBuilder,
    pub graph: ComponentDfg,
    pub cores: PrimaryMap<CoreId, CoreDef>,
    pub definitions: PrimaryMap<DefinitionId, Definition>,
    pub closures: PrimaryMap<ClosureId, Closure>,
    /// What the instances export, by the numbers of the names.
    pub instances: PrimaryMap<ExportsId, AtomMap<Member>>,
    /// The paths to the host items that something names.
    pub paths: Paths<'a>,
    /// The number of each of them among the host items that are used, once it is.
    pub used: Vec<Option<RuntimeImportIndex>>,
    /// The module of each core instance of the graph.
    pub runtime_instances: Vec<InstanceModule>,
    /// The slots of core items in the graph, and its adapters.
    pub places: Places,
    pub numbers: Numbers,
    pub bodies: &'a PrimaryMap<StaticComponentIndex, Translation>,
    pub table: &'a TypeTable,
    pub names: &'a ProgramNames<'a>,
}

impl<'a> State<'a> {
    /// Nothing was read yet.
    pub fn new(
        alloc: Global,
        seed: Seed,
        types: ComponentTypesBuilder,
        numbers: Numbers,
        bodies: &'a PrimaryMap<StaticComponentIndex, Translation>,
        table: &'a TypeTable,
        names: &'a ProgramNames<'a>,
    ) -> State<'a>
        ensures types { result.types ≡ types }
        ensures bodies { result.bodies.now ≡ bodies.now }
        ensures names { result.names.now ≡ names.now }
        ensures fresh { types.resources ≡ no_resources → AreNumbers types table.now numbers
            → IsFresh table.now result }
    {
        State {
            types,
            graph: ComponentDfg::new(alloc, seed),
            cores: PrimaryMap::new(alloc),
            definitions: PrimaryMap::new(alloc),
            closures: PrimaryMap::new(alloc),
            instances: PrimaryMap::new(alloc),
            paths: Paths::new(alloc, seed, names.texts()),
            used: Vec::new(alloc),
            runtime_instances: Vec::new(alloc),
            places: Places::new(alloc, seed),
            numbers,
            bodies,
            table,
            names,
        }
    }

    /// Adds a core item, and answers its number.
    pub fn push_core(&mut self, def: CoreDef) -> Result<CoreId, ItemError>
        ensures key { IfOk result (λ id. id.0 ≡ length self.old.cores) }
        ensures ok { OnOk result (self.new ≡ record self.old { cores = self.old.cores ++ def ∷ [] }) }
        ensures keeps { Keeps (tables_of self.old) (tables_of self.new) }
        ensures adds { AddsEach nowhere 1 0 (tables_of self.old) (tables_of self.new) }
        ensures lacks { IfErr result (LacksRoom self.new) }
        ensures err { OnErr result (self.new ≡ self.old) }
    {
        append(&mut self.cores, def)
    }

    /// Adds a trampoline with its core signature, unless it is held, as a core item, and answers its number.
    pub fn push_trampoline(
        &mut self,
        signature: ModuleInternedTypeIndex,
        trampoline: Trampoline,
    ) -> Result<CoreId, ItemError>
        ensures keeps { Keeps (tables_of self.old) (tables_of self.new) }
        ensures adds { AddsEach in_trampolines 1 0 (tables_of self.old) (tables_of self.new) }
        ensures is { IfOk result (λ id. (k : TrampolineIndex)
            × (slice_get self.new.cores id.0 ≡ Some (def.Trampoline k))
            × (slice_get self.new.graph.trampolines k.0 ≡ Some (signature, trampoline))) }
        ensures put { IsPut self.old.graph.trampolines self.new.graph.trampolines (signature, trampoline) }
        ensures ordered { HeldTrampoline self.old.graph (trampoline_entry (signature, trampoline))
            → IsOrdered self.old.graph → IsOrdered self.new.graph }
        ensures rest { self.new ≡ record self.old {
          graph = record self.old.graph { trampolines = self.new.graph.trampolines };
          cores = self.new.cores;
        } }
        ensures lacks { IfErr result (LacksRoom self.new) }
    {
        let number = self.graph.push_trampoline(signature, trampoline)?;
        self.push_core(CoreDef::Trampoline(number))
    }

    /// Adds an unsafe intrinsic as a core item, and answers its number. It has the core signature that it has in the
    /// graph, or else this one, which it has there from then on.
    pub fn push_intrinsic(
        &mut self,
        intrinsic: UnsafeIntrinsic,
        signature: ModuleInternedTypeIndex,
    ) -> Result<CoreId, ItemError>
        requires places { length self.old.graph.unsafe_intrinsics ≡ 21 }
        ensures keeps { Keeps (tables_of self.old) (tables_of self.new) }
        ensures adds { AddsEach nowhere 1 0 (tables_of self.old) (tables_of self.new) }
        ensures is { IfOk result (λ id. (s : ModuleInternedTypeIndex)
            × (slice_get self.new.cores id.0 ≡ Some (def.UnsafeIntrinsic s intrinsic))
            × HasIntrinsic self.new.graph (intrinsic_place intrinsic) s) }
        ensures places { length self.new.graph.unsafe_intrinsics ≡ 21 }
        ensures ordered { IsOrdered self.old.graph → IsOrdered self.new.graph }
        ensures rest { self.new ≡ record self.old {
          graph = with_intrinsic self.old.graph (intrinsic_place intrinsic) signature;
          cores = self.new.cores;
        } }
        ensures lacks { IfErr result (LacksRoom self.new) }
    {
        let first = self.graph.push_intrinsic(intrinsic, signature);
        self.push_core(CoreDef::UnsafeIntrinsic(first, intrinsic))
    }

    /// Adds a definition, and answers its number.
    pub fn push_definition(&mut self, definition: Definition) -> Result<DefinitionId, ItemError>
        ensures key { IfOk result (λ id. id.0 ≡ length self.old.definitions) }
        ensures ok { OnOk result
            (self.new ≡ record self.old { definitions = self.old.definitions ++ definition ∷ [] }) }
        ensures keeps { Keeps (tables_of self.old) (tables_of self.new) }
        ensures adds { AddsEach nowhere 0 1 (tables_of self.old) (tables_of self.new) }
        ensures lacks { IfErr result (LacksRoom self.new) }
        ensures err { OnErr result (self.new ≡ self.old) }
    {
        append(&mut self.definitions, definition)
    }

    /// Adds what a component captured, and answers its number.
    pub fn push_closure(&mut self, closure: Closure) -> Result<ClosureId, ItemError>
        ensures key { IfOk result (λ id. id.0 ≡ length self.old.closures) }
        ensures ok { OnOk result (self.new ≡ record self.old { closures = self.old.closures ++ closure ∷ [] }) }
        ensures keeps { Keeps (tables_of self.old) (tables_of self.new) }
        ensures adds { AddsEach nowhere 0 1 (tables_of self.old) (tables_of self.new) }
        ensures lacks { IfErr result (LacksRoom self.new) }
        ensures err { OnErr result (self.new ≡ self.old) }
    {
        append(&mut self.closures, closure)
    }

    /// Adds what an instance exports, and answers its number.
    pub fn push_instance(&mut self, exports: AtomMap<Member>) -> Result<ExportsId, ItemError>
        ensures key { IfOk result (λ id. id.0 ≡ length self.old.instances) }
        ensures ok { OnOk result (self.new ≡ record self.old { instances = self.old.instances ++ exports ∷ [] }) }
        ensures keeps { Keeps (tables_of self.old) (tables_of self.new) }
        ensures adds { AddsEach nowhere 0 1 (tables_of self.old) (tables_of self.new) }
        ensures lacks { IfErr result (LacksRoom self.new) }
        ensures err { OnErr result (self.new ≡ self.old) }
    {
        // There are as many such maps as instances, and most have few entries.
        let mut exports = exports;
        exports.shrink_to_fit();
        append(&mut self.instances, exports)
    }

    /// The path to an import of the root itself. A path that is new isn't used yet.
    ///
    /// There is no want of paths but that of memory: 4294967295 of them don't fit in one.
    pub fn path_to_import(&mut self, import: ImportIndex) -> Result<PathId, NoMemory>
        requires there { import.0 < length self.old.graph.import_types }
        ensures takes { IfOk result (λ id. TakesPath (at_import import) self.old self.new id) }
        ensures sound { OnOk result (SoundWithPaths self.old self.new) }
        ensures keeps { Keeps (tables_of self.old) (tables_of self.new) }
        ensures adds { AddsEach nowhere 0 0 (tables_of self.old) (tables_of self.new) }
        ensures rest { self.new ≡ record self.old { paths = self.new.paths; used = self.new.used } }
    {
        let path = match self.paths.import(import) {
            Ok(path) => path,
            Err(_) => return Err(NoMemory),
        };
        self.note_path()?;
        Ok(path)
    }

    /// The path that goes further than `parent` by the name of a number. A path that is new isn't used yet.
    pub fn path_to_member(&mut self, parent: PathId, number: Atom) -> Result<PathId, NoMemory>
        requires held { parent.0 < length self.old.paths.held }
        requires named { number.0 < length self.old.paths.names }
        ensures takes { (p : Path) (name : List ℕ) → slice_get self.old.paths.held parent.0 ≡ Some p
            → slice_get self.old.paths.names number.0 ≡ Some name
            → IfOk result (λ id. TakesPath (further p name) self.old self.new id) }
        ensures sound { OnOk result (SoundWithPaths self.old self.new) }
        ensures keeps { Keeps (tables_of self.old) (tables_of self.new) }
        ensures adds { AddsEach nowhere 0 0 (tables_of self.old) (tables_of self.new) }
        ensures rest { self.new ≡ record self.old { paths = self.new.paths; used = self.new.used } }
    {
        let path = match self.paths.member(parent, number) {
            Ok(path) => path,
            Err(_) => return Err(NoMemory),
        };
        self.note_path()?;
        Ok(path)
    }

    /// A path that is new isn't used yet.
    fn note_path(&mut self) -> Result<(), NoMemory>
        ensures ok { OnOk result (NotesPath self.old.paths.held self.old.used.items self.new.used.items) }
        ensures rest { self.new ≡ record self.old { used = self.new.used } }
    {
        if self.used.len() < self.paths.len() {
            self.used.push(None)?;
        }
        Ok(())
    }

    /// Whether a definition is of a kind.
    pub fn is_of_kind(&self, id: DefinitionId, kind: ItemKind) -> bool
        ensures { result ≡ is_some_and (is_of_kind kind) (slice_get self.now.definitions id.0) }
    {
        match self.definitions.get(id) {
            Some(definition) => definition.is_of_kind(kind),
            None => false,
        }
    }

    /// The definition that a component instance from items, or of a component, exports under the name of a number.
    pub fn member(&self, exports: ExportsId, number: Atom) -> Option<DefinitionId>
        ensures { result ≡ option_map item_of
            (option_and_then (numbered_value number) (slice_get self.now.instances exports.0)) }
    {
        match self.instances.get(exports) {
            Some(members) => match members.get(number) {
                Some(member) => Some(member.item),
                None => None,
            },
            None => None,
        }
    }

    /// The graph, which counts the tables that the builder holds.
    pub fn take_graph(&mut self, alloc: Global, seed: Seed) -> ComponentDfg
        ensures graph { result ≡ counted_tables self.old.graph self.old.types }
        ensures types { self.new.types ≡ self.old.types }
    {
        self.graph.num_future_tables = self.types.held(TypeKind::FutureTable);
        self.graph.num_stream_tables = self.types.held(TypeKind::StreamTable);
        self.graph.num_error_context_tables = self.types.held(TypeKind::ErrorContextTable);
        mem::replace(&mut self.graph, ComponentDfg::new(alloc, seed))
    }
}

// By hand, since a derived drop of so many lists is proved anew, and slowly, in each function that lets a state go.
impl<'a> Drop for State<'a> {
    fn drop(self) {
        let State {
            types,
            graph,
            cores,
            definitions,
            closures,
            instances,
            paths,
            used,
            runtime_instances,
            places,
            numbers,
            bodies: _,
            table: _,
            names: _,
        } = self;
        drop_graph(types, graph);
        drop_tables(cores, definitions);
        drop_named(closures, instances);
        drop_numbers(paths, used, numbers);
        drop_instances(runtime_instances, places);
    }
}

fn drop_graph(_types: ComponentTypesBuilder, _graph: ComponentDfg) {}

fn drop_tables(
    _cores: PrimaryMap<CoreId, CoreDef>,
    _definitions: PrimaryMap<DefinitionId, Definition>,
) {}

fn drop_named(
    _closures: PrimaryMap<ClosureId, Closure>,
    _instances: PrimaryMap<ExportsId, AtomMap<Member>>,
) {}

fn drop_numbers(_paths: Paths<'_>, _used: Vec<Option<RuntimeImportIndex>>, _numbers: Numbers) {}

fn drop_instances(_runtime_instances: Vec<InstanceModule>, _places: Places) {}
