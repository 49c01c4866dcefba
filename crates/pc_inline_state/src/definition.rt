//! What the items of a component are, in tables that only grow. An entry names earlier entries alone, by number.

ghost use Rattle.std.specs.Prelude.{◌≡◌};
ghost use Rattle.std.proofs.Common.{refl, rules};
ghost use Rattle.pc_inline_state.specs.Definitions.{is_of_kind};

use pc_entity::{
    EntityRef, ModuleInternedTypeIndex, RuntimeComponentInstanceIndex, StaticComponentIndex,
    StaticModuleIndex,
};
use pc_inline_paths::PathId;
use pc_parsed::ItemKind;
use pc_types::{
    StringEncoding, TypeComponentInstanceIndex, TypeDef, TypeFuncIndex, TypeModuleIndex,
    UnsafeIntrinsic,
};

/// The number of a core item in the table of core items.
#[derive(Clone, Copy, PartialEq, Eq, PartialOrd, Ord, Hash)]
pub struct CoreId(pub u32);

impl EntityRef for CoreId {
    ghost number = { λ k. k.0 };

    ghost of_number = { λ n. record { 0 = n } };

    ghost number_of_number = { λ _. refl };

    ghost of_number_number = { λ _. refl };

    ghost exact = { Prim.search rules };

    fn from_u32(n: u32) -> CoreId {
        CoreId(n)
    }

    fn as_u32(self) -> u32 {
        self.0
    }
}

/// The number of a definition in the table of definitions.
#[derive(Clone, Copy, PartialEq, Eq, PartialOrd, Ord, Hash)]
pub struct DefinitionId(pub u32);

impl EntityRef for DefinitionId {
    ghost number = { λ k. k.0 };

    ghost of_number = { λ n. record { 0 = n } };

    ghost number_of_number = { λ _. refl };

    ghost of_number_number = { λ _. refl };

    ghost exact = { Prim.search rules };

    fn from_u32(n: u32) -> DefinitionId {
        DefinitionId(n)
    }

    fn as_u32(self) -> u32 {
        self.0
    }
}

/// The number of what a component captured in the table of closures.
#[derive(Clone, Copy, PartialEq, Eq, PartialOrd, Ord, Hash)]
pub struct ClosureId(pub u32);

impl EntityRef for ClosureId {
    ghost number = { λ k. k.0 };

    ghost of_number = { λ n. record { 0 = n } };

    ghost number_of_number = { λ _. refl };

    ghost of_number_number = { λ _. refl };

    ghost exact = { Prim.search rules };

    fn from_u32(n: u32) -> ClosureId {
        ClosureId(n)
    }

    fn as_u32(self) -> u32 {
        self.0
    }
}

/// The number of what an instance exports in the table of instances.
#[derive(Clone, Copy, PartialEq, Eq, PartialOrd, Ord, Hash)]
pub struct ExportsId(pub u32);

impl EntityRef for ExportsId {
    ghost number = { λ k. k.0 };

    ghost of_number = { λ n. record { 0 = n } };

    ghost number_of_number = { λ _. refl };

    ghost of_number_number = { λ _. refl };

    ghost exact = { Prim.search rules };

    fn from_u32(n: u32) -> ExportsId {
        ExportsId(n)
    }

    fn as_u32(self) -> u32 {
        self.0
    }
}

/// An item of a component that isn't a core item. What the host gives is known by its path, and has its type twice: as a
/// number of the types builder, and as the table entry that has the names and kinds of what it exports.
#[derive(Clone, Copy)]
pub enum Definition {
    /// A function of the host.
    HostFunc {
        path: PathId,
        ty: TypeFuncIndex,
    },
    /// A core function, lifted.
    LiftedFunc {
        ty: TypeFuncIndex,
        func: CoreId,
        options: Options,
    },
    /// An unsafe intrinsic. It has no type of its own: it is used under that of the item that lowers it.
    IntrinsicFunc {
        intrinsic: UnsafeIntrinsic,
    },
    /// A core module that was handed in, with its type as a number of the type table.
    StaticModule {
        index: StaticModuleIndex,
        ty: u32,
    },
    /// A core module of the host.
    HostModule {
        path: PathId,
        ty: TypeModuleIndex,
        entry: u32,
    },
    /// A nested component, with what it captured where it was defined.
    Component {
        index: StaticComponentIndex,
        closure: ClosureId,
    },
    /// A component instance of the host.
    HostInstance {
        path: PathId,
        ty: TypeComponentInstanceIndex,
        entry: u32,
    },
    /// A component instance, by what it exports.
    Instance {
        exports: ExportsId,
        ty: TypeComponentInstanceIndex,
    },
    /// The unsafe intrinsics, by their names.
    Intrinsics,
    /// A type.
    Type_(TypeDef),
}

impl Definition {
    /// Whether it is of a kind.
    pub fn is_of_kind(&self, kind: ItemKind) -> bool
        ensures { result ≡ is_of_kind kind self.now }
    {
        match kind {
            ItemKind::Func => {
                matches!(
                    self,
                    Definition::HostFunc { .. }
                        | Definition::LiftedFunc { .. }
                        | Definition::IntrinsicFunc { .. }
                )
            }
            ItemKind::Module => {
                matches!(
                    self,
                    Definition::StaticModule { .. } | Definition::HostModule { .. }
                )
            }
            ItemKind::Instance => {
                matches!(
                    self,
                    Definition::HostInstance { .. }
                        | Definition::Instance { .. }
                        | Definition::Intrinsics
                )
            }
            ItemKind::Component => matches!(self, Definition::Component { .. }),
            ItemKind::Type_ => matches!(self, Definition::Type_(_)),
            ItemKind::Value => false,
        }
    }
}

/// The options of a lifted or lowered function, with core items by number. They become options of the graph where they
/// are needed there.
#[derive(Clone, Copy, PartialEq, Eq, Hash)]
pub struct Options {
    pub instance: RuntimeComponentInstanceIndex,
    pub string_encoding: StringEncoding,
    pub callback: Option<CoreId>,
    pub post_return: Option<CoreId>,
    pub async_: bool,
    pub core_type: ModuleInternedTypeIndex,
    pub data_model: DataModel,
}

/// Where a function's values lie: in the managed heap, or in a memory, with the function that makes room in it.
#[derive(Clone, Copy, PartialEq, Eq, Hash)]
pub enum DataModel {
    Gc {},
    LinearMemory {
        memory: Option<CoreId>,
        realloc: Option<CoreId>,
    },
}
