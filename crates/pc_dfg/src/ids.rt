//! The ids of what a graph holds. Where an index of a plan says when something is made, an id says only where it
//! stands in its list.

ghost use Rattle.std.proofs.Common.{refl, rules};

use pc_entity::EntityRef;

/// A core instance that is made for a component instance.
#[derive(Clone, Copy, PartialEq, Eq, PartialOrd, Ord, Hash)]
pub struct InstanceId(pub u32);

impl EntityRef for InstanceId {
    ghost number = { λ k. k.0 };

    ghost of_number = { λ n. record { 0 = n } };

    ghost number_of_number = { λ _. refl };

    ghost of_number_number = { λ _. refl };

    ghost exact = { Prim.search rules };

    fn from_u32(n: u32) -> InstanceId {
        InstanceId(n)
    }

    fn as_u32(self) -> u32 {
        self.0
    }
}

/// A memory that options or a trampoline name.
#[derive(Clone, Copy, PartialEq, Eq, PartialOrd, Ord, Hash)]
pub struct MemoryId(pub u32);

impl EntityRef for MemoryId {
    ghost number = { λ k. k.0 };

    ghost of_number = { λ n. record { 0 = n } };

    ghost number_of_number = { λ _. refl };

    ghost of_number_number = { λ _. refl };

    ghost exact = { Prim.search rules };

    fn from_u32(n: u32) -> MemoryId {
        MemoryId(n)
    }

    fn as_u32(self) -> u32 {
        self.0
    }
}

/// A table that a trampoline names.
#[derive(Clone, Copy, PartialEq, Eq, PartialOrd, Ord, Hash)]
pub struct TableId(pub u32);

impl EntityRef for TableId {
    ghost number = { λ k. k.0 };

    ghost of_number = { λ n. record { 0 = n } };

    ghost number_of_number = { λ _. refl };

    ghost of_number_number = { λ _. refl };

    ghost exact = { Prim.search rules };

    fn from_u32(n: u32) -> TableId {
        TableId(n)
    }

    fn as_u32(self) -> u32 {
        self.0
    }
}

/// A function that makes room in a memory, which options name.
#[derive(Clone, Copy, PartialEq, Eq, PartialOrd, Ord, Hash)]
pub struct ReallocId(pub u32);

impl EntityRef for ReallocId {
    ghost number = { λ k. k.0 };

    ghost of_number = { λ n. record { 0 = n } };

    ghost number_of_number = { λ _. refl };

    ghost of_number_number = { λ _. refl };

    ghost exact = { Prim.search rules };

    fn from_u32(n: u32) -> ReallocId {
        ReallocId(n)
    }

    fn as_u32(self) -> u32 {
        self.0
    }
}

/// A function that goes on with an asynchronous call, which options or a trampoline name.
#[derive(Clone, Copy, PartialEq, Eq, PartialOrd, Ord, Hash)]
pub struct CallbackId(pub u32);

impl EntityRef for CallbackId {
    ghost number = { λ k. k.0 };

    ghost of_number = { λ n. record { 0 = n } };

    ghost number_of_number = { λ _. refl };

    ghost of_number_number = { λ _. refl };

    ghost exact = { Prim.search rules };

    fn from_u32(n: u32) -> CallbackId {
        CallbackId(n)
    }

    fn as_u32(self) -> u32 {
        self.0
    }
}

/// A function that is called when results are read, which options or a trampoline name.
#[derive(Clone, Copy, PartialEq, Eq, PartialOrd, Ord, Hash)]
pub struct PostReturnId(pub u32);

impl EntityRef for PostReturnId {
    ghost number = { λ k. k.0 };

    ghost of_number = { λ n. record { 0 = n } };

    ghost number_of_number = { λ _. refl };

    ghost of_number_number = { λ _. refl };

    ghost exact = { Prim.search rules };

    fn from_u32(n: u32) -> PostReturnId {
        PostReturnId(n)
    }

    fn as_u32(self) -> u32 {
        self.0
    }
}

/// A fused adapter.
#[derive(Clone, Copy, PartialEq, Eq, PartialOrd, Ord, Hash)]
pub struct AdapterId(pub u32);

impl EntityRef for AdapterId {
    ghost number = { λ k. k.0 };

    ghost of_number = { λ n. record { 0 = n } };

    ghost number_of_number = { λ _. refl };

    ghost of_number_number = { λ _. refl };

    ghost exact = { Prim.search rules };

    fn from_u32(n: u32) -> AdapterId {
        AdapterId(n)
    }

    fn as_u32(self) -> u32 {
        self.0
    }
}

/// A module of adapters.
#[derive(Clone, Copy, PartialEq, Eq, PartialOrd, Ord, Hash)]
pub struct AdapterModuleId(pub u32);

impl EntityRef for AdapterModuleId {
    ghost number = { λ k. k.0 };

    ghost of_number = { λ n. record { 0 = n } };

    ghost number_of_number = { λ _. refl };

    ghost of_number_number = { λ _. refl };

    ghost exact = { Prim.search rules };

    fn from_u32(n: u32) -> AdapterModuleId {
        AdapterModuleId(n)
    }

    fn as_u32(self) -> u32 {
        self.0
    }
}

/// The options of a lifted or lowered function.
#[derive(Clone, Copy, PartialEq, Eq, PartialOrd, Ord, Hash)]
pub struct OptionsId(pub u32);

impl EntityRef for OptionsId {
    ghost number = { λ k. k.0 };

    ghost of_number = { λ n. record { 0 = n } };

    ghost number_of_number = { λ _. refl };

    ghost of_number_number = { λ _. refl };

    ghost exact = { Prim.search rules };

    fn from_u32(n: u32) -> OptionsId {
        OptionsId(n)
    }

    fn as_u32(self) -> u32 {
        self.0
    }
}
