//! The numbers of a core module's entities.

ghost use Rattle.std.proofs.Common.{refl, rules};

use crate::EntityRef;

/// A function of a core module, imported functions first.
#[derive(Clone, Copy, PartialEq, Eq, PartialOrd, Ord, Hash)]
pub struct FuncIndex(pub u32);

impl EntityRef for FuncIndex {
    ghost number = { λ k. k.0 };

    ghost of_number = { λ n. record { 0 = n } };

    ghost number_of_number = { λ _. refl };

    ghost of_number_number = { λ _. refl };

    ghost exact = { Prim.search rules };

    fn from_u32(n: u32) -> FuncIndex {
        FuncIndex(n)
    }

    fn as_u32(self) -> u32 {
        self.0
    }
}

/// A table of a core module, imported tables first.
#[derive(Clone, Copy, PartialEq, Eq, PartialOrd, Ord, Hash)]
pub struct TableIndex(pub u32);

impl EntityRef for TableIndex {
    ghost number = { λ k. k.0 };

    ghost of_number = { λ n. record { 0 = n } };

    ghost number_of_number = { λ _. refl };

    ghost of_number_number = { λ _. refl };

    ghost exact = { Prim.search rules };

    fn from_u32(n: u32) -> TableIndex {
        TableIndex(n)
    }

    fn as_u32(self) -> u32 {
        self.0
    }
}

/// A memory of a core module, imported memories first.
#[derive(Clone, Copy, PartialEq, Eq, PartialOrd, Ord, Hash)]
pub struct MemoryIndex(pub u32);

impl EntityRef for MemoryIndex {
    ghost number = { λ k. k.0 };

    ghost of_number = { λ n. record { 0 = n } };

    ghost number_of_number = { λ _. refl };

    ghost of_number_number = { λ _. refl };

    ghost exact = { Prim.search rules };

    fn from_u32(n: u32) -> MemoryIndex {
        MemoryIndex(n)
    }

    fn as_u32(self) -> u32 {
        self.0
    }
}

/// A global of a core module, imported globals first.
#[derive(Clone, Copy, PartialEq, Eq, PartialOrd, Ord, Hash)]
pub struct GlobalIndex(pub u32);

impl EntityRef for GlobalIndex {
    ghost number = { λ k. k.0 };

    ghost of_number = { λ n. record { 0 = n } };

    ghost number_of_number = { λ _. refl };

    ghost of_number_number = { λ _. refl };

    ghost exact = { Prim.search rules };

    fn from_u32(n: u32) -> GlobalIndex {
        GlobalIndex(n)
    }

    fn as_u32(self) -> u32 {
        self.0
    }
}

/// A tag of a core module, imported tags first.
#[derive(Clone, Copy, PartialEq, Eq, PartialOrd, Ord, Hash)]
pub struct TagIndex(pub u32);

impl EntityRef for TagIndex {
    ghost number = { λ k. k.0 };

    ghost of_number = { λ n. record { 0 = n } };

    ghost number_of_number = { λ _. refl };

    ghost of_number_number = { λ _. refl };

    ghost exact = { Prim.search rules };

    fn from_u32(n: u32) -> TagIndex {
        TagIndex(n)
    }

    fn as_u32(self) -> u32 {
        self.0
    }
}

/// A function that a core module defines itself.
#[derive(Clone, Copy, PartialEq, Eq, PartialOrd, Ord, Hash)]
pub struct DefinedFuncIndex(pub u32);

impl EntityRef for DefinedFuncIndex {
    ghost number = { λ k. k.0 };

    ghost of_number = { λ n. record { 0 = n } };

    ghost number_of_number = { λ _. refl };

    ghost of_number_number = { λ _. refl };

    ghost exact = { Prim.search rules };

    fn from_u32(n: u32) -> DefinedFuncIndex {
        DefinedFuncIndex(n)
    }

    fn as_u32(self) -> u32 {
        self.0
    }
}

/// A table that a core module defines itself.
#[derive(Clone, Copy, PartialEq, Eq, PartialOrd, Ord, Hash)]
pub struct DefinedTableIndex(pub u32);

impl EntityRef for DefinedTableIndex {
    ghost number = { λ k. k.0 };

    ghost of_number = { λ n. record { 0 = n } };

    ghost number_of_number = { λ _. refl };

    ghost of_number_number = { λ _. refl };

    ghost exact = { Prim.search rules };

    fn from_u32(n: u32) -> DefinedTableIndex {
        DefinedTableIndex(n)
    }

    fn as_u32(self) -> u32 {
        self.0
    }
}

/// A memory that a core module defines itself.
#[derive(Clone, Copy, PartialEq, Eq, PartialOrd, Ord, Hash)]
pub struct DefinedMemoryIndex(pub u32);

impl EntityRef for DefinedMemoryIndex {
    ghost number = { λ k. k.0 };

    ghost of_number = { λ n. record { 0 = n } };

    ghost number_of_number = { λ _. refl };

    ghost of_number_number = { λ _. refl };

    ghost exact = { Prim.search rules };

    fn from_u32(n: u32) -> DefinedMemoryIndex {
        DefinedMemoryIndex(n)
    }

    fn as_u32(self) -> u32 {
        self.0
    }
}

/// A global that a core module defines itself.
#[derive(Clone, Copy, PartialEq, Eq, PartialOrd, Ord, Hash)]
pub struct DefinedGlobalIndex(pub u32);

impl EntityRef for DefinedGlobalIndex {
    ghost number = { λ k. k.0 };

    ghost of_number = { λ n. record { 0 = n } };

    ghost number_of_number = { λ _. refl };

    ghost of_number_number = { λ _. refl };

    ghost exact = { Prim.search rules };

    fn from_u32(n: u32) -> DefinedGlobalIndex {
        DefinedGlobalIndex(n)
    }

    fn as_u32(self) -> u32 {
        self.0
    }
}

/// A core function signature, where equal signatures share a number.
#[derive(Clone, Copy, PartialEq, Eq, PartialOrd, Ord, Hash)]
pub struct ModuleInternedTypeIndex(pub u32);

impl EntityRef for ModuleInternedTypeIndex {
    ghost number = { λ k. k.0 };

    ghost of_number = { λ n. record { 0 = n } };

    ghost number_of_number = { λ _. refl };

    ghost of_number_number = { λ _. refl };

    ghost exact = { Prim.search rules };

    fn from_u32(n: u32) -> ModuleInternedTypeIndex {
        ModuleInternedTypeIndex(n)
    }

    fn as_u32(self) -> u32 {
        self.0
    }
}
