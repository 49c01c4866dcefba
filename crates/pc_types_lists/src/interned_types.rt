//! The lists of types.

ghost use Rattle.std.specs.Prelude.{◌≡◌};
ghost use Rattle.std.specs.Borrow.{sem};
ghost use Rattle.pc_types_lists.specs.Types.{IsBuilder, held, no_types};
ghost use Rattle.pc_types_lists.specs.Lending.{LendsResources};

use crate::labelled::Labelled;
use crate::{FactTable, ResourcesBuilder};
use pc_entity::{Interner, Seed};
use pc_types::{
    CoreFuncSig, TypeComponent, TypeComponentInstance, TypeEnum, TypeErrorContextTable, TypeFlags,
    TypeFunc, TypeFutureTable, TypeKind, TypeList, TypeModule, TypeOption, TypeRecord,
    TypeResourceTable, TypeResult, TypeStreamTable, TypeTuple, TypeVariant,
};
use std::alloc::Global;
use std::marker::Model;

/// One list for each kind of type, in which equal types share a number, the facts of the types that have parts, and the
/// resources that are known.
pub struct InternedTypes {
    alloc: Global,
    pub(crate) funcs: Labelled<TypeFunc>,
    pub(crate) tuples: Interner<TypeTuple>,
    pub(crate) records: Labelled<TypeRecord>,
    pub(crate) variants: Labelled<TypeVariant>,
    pub(crate) lists: Interner<TypeList>,
    pub(crate) options: Interner<TypeOption>,
    pub(crate) results: Interner<TypeResult>,
    pub(crate) flags: Interner<TypeFlags>,
    pub(crate) enums: Interner<TypeEnum>,
    pub(crate) resource_tables: Interner<TypeResourceTable>,
    pub(crate) future_tables: Interner<TypeFutureTable>,
    pub(crate) stream_tables: Interner<TypeStreamTable>,
    pub(crate) error_context_tables: Interner<TypeErrorContextTable>,
    pub(crate) instances: Labelled<TypeComponentInstance>,
    pub(crate) components: Labelled<TypeComponent>,
    pub(crate) modules: Interner<TypeModule>,
    pub(crate) signatures: Interner<CoreFuncSig>,
    pub(crate) facts: FactTable,
    resources: ResourcesBuilder,
}

// By hand, since a derived drop of so many lists is proved anew, and slowly, in each crate that lets them go.
impl Drop for InternedTypes {
    fn drop(self) {
        let InternedTypes {
            alloc: _,
            funcs,
            tuples,
            records,
            variants,
            lists,
            options,
            results,
            flags,
            enums,
            resource_tables,
            future_tables,
            stream_tables,
            error_context_tables,
            instances,
            components,
            modules,
            signatures,
            facts,
            resources,
        } = self;
        drop_values(funcs, tuples, records, variants, lists);
        drop_more_values(options, results, flags, enums);
        drop_tables(
            resource_tables,
            future_tables,
            stream_tables,
            error_context_tables,
        );
        drop_facts(facts);
        drop_externs(instances, components, modules, signatures, resources);
    }
}

/// Lets go of the types of values.
fn drop_values(
    _funcs: Labelled<TypeFunc>,
    _tuples: Interner<TypeTuple>,
    _records: Labelled<TypeRecord>,
    _variants: Labelled<TypeVariant>,
    _lists: Interner<TypeList>,
) {}

/// Lets go of the other types of values.
fn drop_more_values(
    _options: Interner<TypeOption>,
    _results: Interner<TypeResult>,
    _flags: Interner<TypeFlags>,
    _enums: Interner<TypeEnum>,
) {}

/// Lets go of the tables of handles.
fn drop_tables(
    _resource_tables: Interner<TypeResourceTable>,
    _future_tables: Interner<TypeFutureTable>,
    _stream_tables: Interner<TypeStreamTable>,
    _error_context_tables: Interner<TypeErrorContextTable>,
) {}

/// Lets go of the facts.
fn drop_facts(_facts: FactTable) {}

/// Lets go of what imports and exports are typed by, and of the resources.
fn drop_externs(
    _instances: Labelled<TypeComponentInstance>,
    _components: Labelled<TypeComponent>,
    _modules: Interner<TypeModule>,
    _signatures: Interner<CoreFuncSig>,
    _resources: ResourcesBuilder,
) {}

impl Model for InternedTypes {
    ghost use Rattle.pc_types_lists.specs.Types.{Types};

    ghost Value = { Types };

    ghost use Rattle.pc_types_lists.specs.View.{types_of, IsWithin};

    ghost view = { types_of };

    ghost invariant = { IsWithin };
}

impl InternedTypes {
    /// No types, which take no memory.
    pub fn new(alloc: Global, seed: Seed) -> InternedTypes
        ensures { result ≡ no_types }
    {
        InternedTypes {
            alloc,
            funcs: Labelled::new(alloc, seed),
            tuples: Interner::new(alloc, seed),
            records: Labelled::new(alloc, seed),
            variants: Labelled::new(alloc, seed),
            lists: Interner::new(alloc, seed),
            options: Interner::new(alloc, seed),
            results: Interner::new(alloc, seed),
            flags: Interner::new(alloc, seed),
            enums: Interner::new(alloc, seed),
            resource_tables: Interner::new(alloc, seed),
            future_tables: Interner::new(alloc, seed),
            stream_tables: Interner::new(alloc, seed),
            error_context_tables: Interner::new(alloc, seed),
            instances: Labelled::new(alloc, seed),
            components: Labelled::new(alloc, seed),
            modules: Interner::new(alloc, seed),
            signatures: Interner::new(alloc, seed),
            facts: FactTable::new(alloc),
            resources: ResourcesBuilder::new(alloc),
        }
    }

    /// No list is past its bound, and no two types of a kind are equal: equal types share a number.
    pub fn types_are_distinct(&self)
        ensures { IsBuilder self.now }
    {
        self.funcs.as_slice();
        self.tuples.as_slice();
        self.records.as_slice();
        self.variants.as_slice();
        self.lists.as_slice();
        self.options.as_slice();
        self.results.as_slice();
        self.flags.as_slice();
        self.enums.as_slice();
        self.resource_tables.as_slice();
        self.future_tables.as_slice();
        self.stream_tables.as_slice();
        self.error_context_tables.as_slice();
        self.instances.as_slice();
        self.components.as_slice();
        self.modules.as_slice();
        self.signatures.as_slice();
    }

    /// Where its lists have their memory.
    pub fn alloc(&self) -> Global {
        self.alloc
    }

    /// The seed that the places in its lists depend on.
    pub fn seed(&self) -> Seed {
        self.tuples.seed()
    }

    /// The registered resources.
    pub fn resources(&self) -> &ResourcesBuilder
        ensures { result.now ≡ self.now.resources }
    {
        &self.resources
    }

    /// The registered resources, to be changed.
    pub fn resources_mut(&mut self) -> &mut ResourcesBuilder
        ensures* writes_back { sem 𝓛 (LendsResources self.entry result) }
        ensures value { result.now ≡ self.old.resources }
    {
        &mut self.resources
    }

    /// How many types of a kind are held. The numbers below it name them.
    pub fn held(&self, kind: TypeKind) -> usize
        ensures { result ≡ held self.now kind }
    {
        match kind {
            TypeKind::Func => self.funcs.len(),
            TypeKind::Tuple => self.tuples.len(),
            TypeKind::Record => self.records.len(),
            TypeKind::Variant => self.variants.len(),
            TypeKind::List => self.lists.len(),
            TypeKind::Option => self.options.len(),
            TypeKind::Result => self.results.len(),
            TypeKind::Flags => self.flags.len(),
            TypeKind::Enum => self.enums.len(),
            TypeKind::ResourceTable => self.resource_tables.len(),
            TypeKind::FutureTable => self.future_tables.len(),
            TypeKind::StreamTable => self.stream_tables.len(),
            TypeKind::ErrorContextTable => self.error_context_tables.len(),
            TypeKind::Instance => self.instances.len(),
            TypeKind::Component => self.components.len(),
            TypeKind::Module => self.modules.len(),
            TypeKind::Signature => self.signatures.len(),
        }
    }
}
