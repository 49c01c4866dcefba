//! The numbers of what a plan makes when it runs, and of what it imports and exports.

ghost use Rattle.std.proofs.Common.{refl, rules};

use crate::EntityRef;

/// A core instance that the plan makes, in the order of making.
#[derive(Clone, Copy, PartialEq, Eq, PartialOrd, Ord, Hash)]
pub struct RuntimeInstanceIndex(pub u32);

impl EntityRef for RuntimeInstanceIndex {
    ghost number = { λ k. k.0 };

    ghost of_number = { λ n. record { 0 = n } };

    ghost number_of_number = { λ _. refl };

    ghost of_number_number = { λ _. refl };

    ghost exact = { Prim.search rules };

    fn from_u32(n: u32) -> RuntimeInstanceIndex {
        RuntimeInstanceIndex(n)
    }

    fn as_u32(self) -> u32 {
        self.0
    }
}

/// An instance of a component, in the order in which they begin.
#[derive(Clone, Copy, PartialEq, Eq, PartialOrd, Ord, Hash)]
pub struct RuntimeComponentInstanceIndex(pub u32);

impl EntityRef for RuntimeComponentInstanceIndex {
    ghost number = { λ k. k.0 };

    ghost of_number = { λ n. record { 0 = n } };

    ghost number_of_number = { λ _. refl };

    ghost of_number_number = { λ _. refl };

    ghost exact = { Prim.search rules };

    fn from_u32(n: u32) -> RuntimeComponentInstanceIndex {
        RuntimeComponentInstanceIndex(n)
    }

    fn as_u32(self) -> u32 {
        self.0
    }
}

/// A memory that the plan keeps at hand.
#[derive(Clone, Copy, PartialEq, Eq, PartialOrd, Ord, Hash)]
pub struct RuntimeMemoryIndex(pub u32);

impl EntityRef for RuntimeMemoryIndex {
    ghost number = { λ k. k.0 };

    ghost of_number = { λ n. record { 0 = n } };

    ghost number_of_number = { λ _. refl };

    ghost of_number_number = { λ _. refl };

    ghost exact = { Prim.search rules };

    fn from_u32(n: u32) -> RuntimeMemoryIndex {
        RuntimeMemoryIndex(n)
    }

    fn as_u32(self) -> u32 {
        self.0
    }
}

/// A table that the plan keeps at hand.
#[derive(Clone, Copy, PartialEq, Eq, PartialOrd, Ord, Hash)]
pub struct RuntimeTableIndex(pub u32);

impl EntityRef for RuntimeTableIndex {
    ghost number = { λ k. k.0 };

    ghost of_number = { λ n. record { 0 = n } };

    ghost number_of_number = { λ _. refl };

    ghost of_number_number = { λ _. refl };

    ghost exact = { Prim.search rules };

    fn from_u32(n: u32) -> RuntimeTableIndex {
        RuntimeTableIndex(n)
    }

    fn as_u32(self) -> u32 {
        self.0
    }
}

/// A function that reallocates, which the plan keeps at hand.
#[derive(Clone, Copy, PartialEq, Eq, PartialOrd, Ord, Hash)]
pub struct RuntimeReallocIndex(pub u32);

impl EntityRef for RuntimeReallocIndex {
    ghost number = { λ k. k.0 };

    ghost of_number = { λ n. record { 0 = n } };

    ghost number_of_number = { λ _. refl };

    ghost of_number_number = { λ _. refl };

    ghost exact = { Prim.search rules };

    fn from_u32(n: u32) -> RuntimeReallocIndex {
        RuntimeReallocIndex(n)
    }

    fn as_u32(self) -> u32 {
        self.0
    }
}

/// A callback that the plan keeps at hand.
#[derive(Clone, Copy, PartialEq, Eq, PartialOrd, Ord, Hash)]
pub struct RuntimeCallbackIndex(pub u32);

impl EntityRef for RuntimeCallbackIndex {
    ghost number = { λ k. k.0 };

    ghost of_number = { λ n. record { 0 = n } };

    ghost number_of_number = { λ _. refl };

    ghost of_number_number = { λ _. refl };

    ghost exact = { Prim.search rules };

    fn from_u32(n: u32) -> RuntimeCallbackIndex {
        RuntimeCallbackIndex(n)
    }

    fn as_u32(self) -> u32 {
        self.0
    }
}

/// A function to be called after a return, which the plan keeps at hand.
#[derive(Clone, Copy, PartialEq, Eq, PartialOrd, Ord, Hash)]
pub struct RuntimePostReturnIndex(pub u32);

impl EntityRef for RuntimePostReturnIndex {
    ghost number = { λ k. k.0 };

    ghost of_number = { λ n. record { 0 = n } };

    ghost number_of_number = { λ _. refl };

    ghost of_number_number = { λ _. refl };

    ghost exact = { Prim.search rules };

    fn from_u32(n: u32) -> RuntimePostReturnIndex {
        RuntimePostReturnIndex(n)
    }

    fn as_u32(self) -> u32 {
        self.0
    }
}

/// A host function that is lowered to a core function.
#[derive(Clone, Copy, PartialEq, Eq, PartialOrd, Ord, Hash)]
pub struct LoweredIndex(pub u32);

impl EntityRef for LoweredIndex {
    ghost number = { λ k. k.0 };

    ghost of_number = { λ n. record { 0 = n } };

    ghost number_of_number = { λ _. refl };

    ghost of_number_number = { λ _. refl };

    ghost exact = { Prim.search rules };

    fn from_u32(n: u32) -> LoweredIndex {
        LoweredIndex(n)
    }

    fn as_u32(self) -> u32 {
        self.0
    }
}

/// A core function that the host provides.
#[derive(Clone, Copy, PartialEq, Eq, PartialOrd, Ord, Hash)]
pub struct TrampolineIndex(pub u32);

impl EntityRef for TrampolineIndex {
    ghost number = { λ k. k.0 };

    ghost of_number = { λ n. record { 0 = n } };

    ghost number_of_number = { λ _. refl };

    ghost of_number_number = { λ _. refl };

    ghost exact = { Prim.search rules };

    fn from_u32(n: u32) -> TrampolineIndex {
        TrampolineIndex(n)
    }

    fn as_u32(self) -> u32 {
        self.0
    }
}

/// A set of canonical options, where equal sets share a number.
#[derive(Clone, Copy, PartialEq, Eq, PartialOrd, Ord, Hash)]
pub struct OptionsIndex(pub u32);

impl EntityRef for OptionsIndex {
    ghost number = { λ k. k.0 };

    ghost of_number = { λ n. record { 0 = n } };

    ghost number_of_number = { λ _. refl };

    ghost of_number_number = { λ _. refl };

    ghost exact = { Prim.search rules };

    fn from_u32(n: u32) -> OptionsIndex {
        OptionsIndex(n)
    }

    fn as_u32(self) -> u32 {
        self.0
    }
}

/// An import of the root component.
#[derive(Clone, Copy, PartialEq, Eq, PartialOrd, Ord, Hash)]
pub struct ImportIndex(pub u32);

impl EntityRef for ImportIndex {
    ghost number = { λ k. k.0 };

    ghost of_number = { λ n. record { 0 = n } };

    ghost number_of_number = { λ _. refl };

    ghost of_number_number = { λ _. refl };

    ghost exact = { Prim.search rules };

    fn from_u32(n: u32) -> ImportIndex {
        ImportIndex(n)
    }

    fn as_u32(self) -> u32 {
        self.0
    }
}

/// A host item that is reached through an import of the root component.
#[derive(Clone, Copy, PartialEq, Eq, PartialOrd, Ord, Hash)]
pub struct RuntimeImportIndex(pub u32);

impl EntityRef for RuntimeImportIndex {
    ghost number = { λ k. k.0 };

    ghost of_number = { λ n. record { 0 = n } };

    ghost number_of_number = { λ _. refl };

    ghost of_number_number = { λ _. refl };

    ghost exact = { Prim.search rules };

    fn from_u32(n: u32) -> RuntimeImportIndex {
        RuntimeImportIndex(n)
    }

    fn as_u32(self) -> u32 {
        self.0
    }
}

/// A resource type, imported resources first.
#[derive(Clone, Copy, PartialEq, Eq, PartialOrd, Ord, Hash)]
pub struct ResourceIndex(pub u32);

impl EntityRef for ResourceIndex {
    ghost number = { λ k. k.0 };

    ghost of_number = { λ n. record { 0 = n } };

    ghost number_of_number = { λ _. refl };

    ghost of_number_number = { λ _. refl };

    ghost exact = { Prim.search rules };

    fn from_u32(n: u32) -> ResourceIndex {
        ResourceIndex(n)
    }

    fn as_u32(self) -> u32 {
        self.0
    }
}

/// A resource type that a component of the source defines.
#[derive(Clone, Copy, PartialEq, Eq, PartialOrd, Ord, Hash)]
pub struct DefinedResourceIndex(pub u32);

impl EntityRef for DefinedResourceIndex {
    ghost number = { λ k. k.0 };

    ghost of_number = { λ n. record { 0 = n } };

    ghost number_of_number = { λ _. refl };

    ghost of_number_number = { λ _. refl };

    ghost exact = { Prim.search rules };

    fn from_u32(n: u32) -> DefinedResourceIndex {
        DefinedResourceIndex(n)
    }

    fn as_u32(self) -> u32 {
        self.0
    }
}

/// An export of the root component or of an exported instance.
#[derive(Clone, Copy, PartialEq, Eq, PartialOrd, Ord, Hash)]
pub struct ExportIndex(pub u32);

impl EntityRef for ExportIndex {
    ghost number = { λ k. k.0 };

    ghost of_number = { λ n. record { 0 = n } };

    ghost number_of_number = { λ _. refl };

    ghost of_number_number = { λ _. refl };

    ghost exact = { Prim.search rules };

    fn from_u32(n: u32) -> ExportIndex {
        ExportIndex(n)
    }

    fn as_u32(self) -> u32 {
        self.0
    }
}
