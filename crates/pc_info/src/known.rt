//! What is known of an item of a core instance wherever its module is instantiated.

ghost use Rattle.std.specs.Prelude.{◌≡◌};
ghost use Rattle.std.specs.FinSet as set;
ghost use Rattle.pc_info.specs.Known.{is_known_to_importers};

use pc_entity::{
    DefinedFuncIndex, DefinedGlobalIndex, EntityRef, EntitySet, RuntimeComponentInstanceIndex,
    StaticModuleIndex,
};
use pc_trampoline::Trap;
use pc_types::UnsafeIntrinsic;
use std::alloc::Global;

/// A function that an import is given by every instance of its module.
#[derive(Clone, Copy, PartialEq, Eq, Hash)]
pub enum KnownFunc {
    /// The trampoline that begins a synchronous call.
    EnterSyncCall,
    /// The trampoline that ends one.
    ExitSyncCall,
    /// A trampoline that traps.
    Trap(Trap),
    /// An unsafe intrinsic.
    UnsafeIntrinsic(UnsafeIntrinsic),
    /// A function that a module of the plan defines.
    DefinedWasmFunction(StaticModuleIndex, DefinedFuncIndex),
}

/// A global that an import is given by every instance of its module.
#[derive(Clone, Copy, PartialEq, Eq, Hash)]
pub enum KnownGlobal {
    /// A global that a module of the plan defines.
    Defined(KnownEntity<DefinedGlobalIndex>),
    /// The flags of a component instance.
    ComponentInstanceFlags(RuntimeComponentInstanceIndex),
}

/// What a module of the plan defines, by its number among what it defines of that kind.
#[derive(Clone, Copy, PartialEq, Eq, Hash)]
pub struct KnownEntity<T> {
    /// The module, by its number in the plan.
    pub module: StaticModuleIndex,
    /// Which of its definitions.
    pub index: T,
}

/// Which entities of a kind that a module defines are known to each module that imports them: all but some.
///
/// A module's record may claim very many entities in a few bytes, so those are held that aren't known.
#[derive(Drop)]
pub struct KnownToImporters<K> {
    /// How many entities of the kind the module defines, as far as that is recorded.
    pub defined: u32,
    /// Those of them that aren't known.
    pub unknown: EntitySet<K>,
}

impl<K: EntityRef> KnownToImporters<K> {
    /// None is known. This takes no memory.
    pub fn none(alloc: Global) -> KnownToImporters<K>
        ensures { result ≡ record { defined = 0; unknown = set.empty } }
    {
        KnownToImporters {
            defined: 0,
            unknown: EntitySet::new(alloc),
        }
    }

    /// Whether an entity is known, by its number among those that the module defines.
    pub fn contains(&self, key: K) -> bool
        ensures { result ≡ is_known_to_importers self.now.defined self.now.unknown (K.number key) }
    {
        key.as_u32() < self.defined && !self.unknown.contains(key)
    }
}
