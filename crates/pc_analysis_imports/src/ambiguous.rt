//! What is given to a module that may name it otherwise: to one of the host, or to one that isn't always given the same.

ghost use Rattle.std.specs.Prelude.{◌≡◌, IfOk, OnOk, length, map, slice_get};
ghost use Rattle.std.specs.FinSet as set;
ghost use Rattle.pc_analysis_imports.specs.declared.source.Source.TheVariants as source;
ghost use Rattle.pc_analysis_imports.specs.Followed.{source_of};
ghost use Rattle.pc_analysis_imports.specs.Marked.{host_sources, is_hidden, is_hidden_in, is_one, none_hidden};
ghost use Rattle.pc_analysis_imports.specs.Marked.{none_marked, shown_by, shown_in, shown_in_all, with_hidden};
ghost use Rattle.pc_analysis_imports.specs.Marked.{with_source, with_sources};

use crate::index::ImportIndex;
use crate::source::{Instance, Source, of_def};
use pc_dfg::AbstractInstantiations;
use pc_entity::{
    DefinedGlobalIndex, DefinedMemoryIndex, DefinedTableIndex, EntitySet, NoMemory,
    RuntimeComponentInstanceIndex, StaticModuleIndex, TextMap,
};
use pc_info::{CoreDef, GlobalInitializer, InstantiateModule};
use pc_types::CoreKind;
use std::alloc::Global;
use std::marker::Model;

/// Entities that a module defines and that are given so.
#[derive(Drop)]
pub(crate) struct Hidden {
    pub(crate) globals: EntitySet<DefinedGlobalIndex>,
    pub(crate) memories: EntitySet<DefinedMemoryIndex>,
    pub(crate) tables: EntitySet<DefinedTableIndex>,
}

impl Hidden {
    /// None.
    fn new(alloc: Global) -> Hidden
        ensures { result ≡ none_hidden }
    {
        Hidden {
            globals: EntitySet::new(alloc),
            memories: EntitySet::new(alloc),
            tables: EntitySet::new(alloc),
        }
    }

    /// Adds an entity of a kind, if the kind holds data.
    fn add(&mut self, kind: CoreKind, number: u32) -> Result<(), NoMemory>
        ensures { OnOk result (self.new ≡ with_hidden self.old kind number) }
    {
        match kind {
            CoreKind::Global => {
                self.globals.insert(DefinedGlobalIndex(number))?;
                Ok(())
            }
            CoreKind::Memory => {
                self.memories.insert(DefinedMemoryIndex(number))?;
                Ok(())
            }
            CoreKind::Table => {
                self.tables.insert(DefinedTableIndex(number))?;
                Ok(())
            }
            CoreKind::Func => Ok(()),
            CoreKind::Tag => Ok(()),
        }
    }

    /// Whether an entity of a kind is among them.
    fn has(&self, kind: CoreKind, number: u32) -> bool
        ensures { result ≡ is_hidden self.now kind number }
    {
        match kind {
            CoreKind::Global => self.globals.contains(DefinedGlobalIndex(number)),
            CoreKind::Memory => self.memories.contains(DefinedMemoryIndex(number)),
            CoreKind::Table => self.tables.contains(DefinedTableIndex(number)),
            CoreKind::Func => false,
            CoreKind::Tag => false,
        }
    }
}

/// All that is given so. A contract sees the flags and the entities of each module.
#[derive(Drop)]
pub(crate) struct Ambiguous {
    flags: EntitySet<RuntimeComponentInstanceIndex>,
    modules: Vec<Hidden>,
}

impl Model for Ambiguous {
    ghost use Rattle.std.specs.Coded.{coded_ℕ, codes};
    ghost use Rattle.std.specs.FinSet as set;
    ghost use Rattle.std.specs.Ordering.{nat_cmp};
    ghost use Rattle.pc_analysis_imports.specs.contracts.ambiguous.Hidden as hidden;
    ghost use Rattle.pc_analysis_imports.specs.Marks.{Marks};

    ghost Value = { Marks };

    ghost coded = { Prim.hlevel (codes, set.code {R = nat_cmp} coded_ℕ, hidden.the_row.coded) };

    ghost view = { λ a. record { flags = a.flags; modules = a.modules.items } };
}

impl Ambiguous {
    /// Nothing, of so many modules.
    #[tactic(auto, using(crate::proofs::FoldLemmas::pushed_same))]
    fn new(alloc: Global, modules: usize) -> Result<Ambiguous, NoMemory>
        ensures { IfOk result (λ a. a ≡ none_marked modules) }
    {
        let mut hidden = Vec::with_capacity(alloc, modules)?;
        for _ in 0..modules {
            hidden.push(Hidden::new(alloc))?;
        }
        Ok(Ambiguous {
            flags: EntitySet::new(alloc),
            modules: hidden,
        })
    }

    /// Adds an entity of a module, if the module is held.
    fn add_entity(
        &mut self,
        core_module: StaticModuleIndex,
        kind: CoreKind,
        number: u32,
    ) -> Result<(), NoMemory>
        ensures { OnOk result (self.new ≡ with_source self.old (source.Defined core_module kind number)) }
    {
        let place = core_module.0 as usize;
        if place >= self.modules.len() {
            return Ok(());
        }
        self.modules[place].add(kind, number)
    }

    /// Adds what a definition is, if that has a place to be known by.
    fn add(&mut self, source: Source) -> Result<(), NoMemory>
        ensures { OnOk result (self.new ≡ with_source self.old source) }
    {
        match source {
            Source::Defined(module, kind, number) => self.add_entity(module, kind, number),
            Source::Flags(instance) => {
                self.flags.insert(instance)?;
                Ok(())
            }
            Source::Trampoline(_) => Ok(()),
            Source::Intrinsic(_) => Ok(()),
            Source::Unknown => Ok(()),
        }
    }

    /// Whether an entity that a module defines is given so.
    pub(crate) fn has(&self, core_module: StaticModuleIndex, kind: CoreKind, number: u32) -> bool
        ensures { result ≡ is_hidden_in (slice_get self.now.modules core_module.0) kind number }
    {
        match self.modules.as_slice().get(core_module.0 as usize) {
            Some(hidden) => hidden.has(kind, number),
            None => false,
        }
    }

    /// Whether the flags of a component instance are.
    pub(crate) fn has_flags(&self, instance: RuntimeComponentInstanceIndex) -> bool
        ensures { result ≡ set.contains self.now.flags instance.0 }
    {
        self.flags.contains(instance)
    }

    /// The entities of each module.
    pub(crate) fn into_modules(self) -> Vec<Hidden>
        ensures { result.items ≡ self.modules }
    {
        self.modules
    }
}

/// Adds what these definitions are.
fn add_defs(
    records: &[ImportIndex<'_>],
    instances: &[Instance],
    ambiguous: &mut Ambiguous,
    defs: &[CoreDef],
) -> Result<(), NoMemory>
    ensures { OnOk result (ambiguous.new
        ≡ with_sources ambiguous.old (map (source_of records.now instances.now) defs.now)) }
{
    for def in defs {
        ambiguous.add(of_def(records, instances, def))?;
    }
    Ok(())
}

/// Adds what these named definitions are.
fn add_named(
    records: &[ImportIndex<'_>],
    instances: &[Instance],
    ambiguous: &mut Ambiguous,
    defs: &TextMap<CoreDef>,
) -> Result<(), NoMemory>
    ensures { OnOk result (ambiguous.new
        ≡ with_sources ambiguous.old (map (λ d. source_of records.now instances.now d.1) defs.now)) }
{
    for place in 0..defs.len() {
        let (_, def) = defs.entry_at(place);
        ambiguous.add(of_def(records, instances, def))?;
    }
    Ok(())
}

/// Adds what the arguments of a host module are.
fn add_host(
    records: &[ImportIndex<'_>],
    instances: &[Instance],
    ambiguous: &mut Ambiguous,
    args: &TextMap<TextMap<CoreDef>>,
) -> Result<(), NoMemory>
    ensures { OnOk result (ambiguous.new
        ≡ with_sources ambiguous.old (host_sources records.now instances.now args.now)) }
{
    for place in 0..args.len() {
        let (_, named) = args.entry_at(place);
        add_named(records, instances, ambiguous, named)?;
    }
    Ok(())
}

/// Whether a module is always given the same.
fn is_always_given_the_same(
    ways: &[AbstractInstantiations<'_>],
    core_module: StaticModuleIndex,
) -> bool
    ensures { result ≡ is_one (slice_get ways.now core_module.0) }
{
    matches!(
        ways.get(core_module.0 as usize),
        Some(AbstractInstantiations::One(_))
    )
}

/// Adds what a module is given, unless it is always given the same.
#[tactic(auto, unfolding(crate::specs::Marked::with_sources))]
fn add_given(
    records: &[ImportIndex<'_>],
    instances: &[Instance],
    ways: &[AbstractInstantiations<'_>],
    ambiguous: &mut Ambiguous,
    source: &InstantiateModule,
) -> Result<(), NoMemory>
    ensures { OnOk result (ambiguous.new
        ≡ with_sources ambiguous.old (shown_by records.now instances.now ways.now source.now)) }
{
    match source {
        InstantiateModule::Static(module, args) => {
            if is_always_given_the_same(ways, *module) {
                return Ok(());
            }
            add_defs(records, instances, ambiguous, args.as_slice())
        }
        InstantiateModule::Import(_, args) => {
            add_host(records, instances, ambiguous, args.get())
        }
    }
}

/// Adds what is given in a step.
#[tactic(auto, unfolding(crate::specs::Marked::shown_in, crate::specs::Marked::with_sources))]
fn add_step(
    records: &[ImportIndex<'_>],
    instances: &[Instance],
    ways: &[AbstractInstantiations<'_>],
    ambiguous: &mut Ambiguous,
    step: &GlobalInitializer,
) -> Result<(), NoMemory>
    ensures { OnOk result (ambiguous.new
        ≡ with_sources ambiguous.old (shown_in records.now instances.now ways.now step.now)) }
{
    match step {
        GlobalInitializer::InstantiateModule(source, _) => add_given(
            records, instances, ways, ambiguous, source,
        ),
        _ => Ok(()),
    }
}

/// All that is given so in these steps.
#[tactic(auto, unfolding(crate::specs::Marked::shown_in_all, crate::specs::Marked::with_sources))]
pub(crate) fn all_ambiguous(
    alloc: Global,
    records: &[ImportIndex<'_>],
    instances: &[Instance],
    ways: &[AbstractInstantiations<'_>],
    steps: &[GlobalInitializer],
) -> Result<Ambiguous, NoMemory>
    ensures { IfOk result (λ a. a ≡ with_sources (none_marked (length records.now))
        (shown_in_all records.now instances.now ways.now steps.now)) }
{
    let mut found = Ambiguous::new(alloc, records.len())?;
    for step in steps {
        add_step(records, instances, ways, &mut found, step)?;
    }
    Ok(found)
}
