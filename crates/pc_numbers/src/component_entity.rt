//! The numbers of what stands in a component's index spaces and in the source as a whole.

ghost use Rattle.std.proofs.Common.{refl, rules};

use crate::EntityRef;

/// A core module in a component's index space.
#[derive(Clone, Copy, PartialEq, Eq, PartialOrd, Ord, Hash)]
pub struct ModuleIndex(pub u32);

impl EntityRef for ModuleIndex {
    ghost number = { λ k. k.0 };

    ghost of_number = { λ n. record { 0 = n } };

    ghost number_of_number = { λ _. refl };

    ghost of_number_number = { λ _. refl };

    ghost exact = { Prim.search rules };

    fn from_u32(n: u32) -> ModuleIndex {
        ModuleIndex(n)
    }

    fn as_u32(self) -> u32 {
        self.0
    }
}

/// An instance of a core module in a component's index space.
#[derive(Clone, Copy, PartialEq, Eq, PartialOrd, Ord, Hash)]
pub struct ModuleInstanceIndex(pub u32);

impl EntityRef for ModuleInstanceIndex {
    ghost number = { λ k. k.0 };

    ghost of_number = { λ n. record { 0 = n } };

    ghost number_of_number = { λ _. refl };

    ghost of_number_number = { λ _. refl };

    ghost exact = { Prim.search rules };

    fn from_u32(n: u32) -> ModuleInstanceIndex {
        ModuleInstanceIndex(n)
    }

    fn as_u32(self) -> u32 {
        self.0
    }
}

/// A component in a component's index space.
#[derive(Clone, Copy, PartialEq, Eq, PartialOrd, Ord, Hash)]
pub struct ComponentIndex(pub u32);

impl EntityRef for ComponentIndex {
    ghost number = { λ k. k.0 };

    ghost of_number = { λ n. record { 0 = n } };

    ghost number_of_number = { λ _. refl };

    ghost of_number_number = { λ _. refl };

    ghost exact = { Prim.search rules };

    fn from_u32(n: u32) -> ComponentIndex {
        ComponentIndex(n)
    }

    fn as_u32(self) -> u32 {
        self.0
    }
}

/// An instance of a component in a component's index space.
#[derive(Clone, Copy, PartialEq, Eq, PartialOrd, Ord, Hash)]
pub struct ComponentInstanceIndex(pub u32);

impl EntityRef for ComponentInstanceIndex {
    ghost number = { λ k. k.0 };

    ghost of_number = { λ n. record { 0 = n } };

    ghost number_of_number = { λ _. refl };

    ghost of_number_number = { λ _. refl };

    ghost exact = { Prim.search rules };

    fn from_u32(n: u32) -> ComponentInstanceIndex {
        ComponentInstanceIndex(n)
    }

    fn as_u32(self) -> u32 {
        self.0
    }
}

/// A component function in a component's index space.
#[derive(Clone, Copy, PartialEq, Eq, PartialOrd, Ord, Hash)]
pub struct ComponentFuncIndex(pub u32);

impl EntityRef for ComponentFuncIndex {
    ghost number = { λ k. k.0 };

    ghost of_number = { λ n. record { 0 = n } };

    ghost number_of_number = { λ _. refl };

    ghost of_number_number = { λ _. refl };

    ghost exact = { Prim.search rules };

    fn from_u32(n: u32) -> ComponentFuncIndex {
        ComponentFuncIndex(n)
    }

    fn as_u32(self) -> u32 {
        self.0
    }
}

/// A type in a component's index space.
#[derive(Clone, Copy, PartialEq, Eq, PartialOrd, Ord, Hash)]
pub struct ComponentTypeIndex(pub u32);

impl EntityRef for ComponentTypeIndex {
    ghost number = { λ k. k.0 };

    ghost of_number = { λ n. record { 0 = n } };

    ghost number_of_number = { λ _. refl };

    ghost of_number_number = { λ _. refl };

    ghost exact = { Prim.search rules };

    fn from_u32(n: u32) -> ComponentTypeIndex {
        ComponentTypeIndex(n)
    }

    fn as_u32(self) -> u32 {
        self.0
    }
}

/// A core module that a nested component takes from those around it.
#[derive(Clone, Copy, PartialEq, Eq, PartialOrd, Ord, Hash)]
pub struct ModuleUpvarIndex(pub u32);

impl EntityRef for ModuleUpvarIndex {
    ghost number = { λ k. k.0 };

    ghost of_number = { λ n. record { 0 = n } };

    ghost number_of_number = { λ _. refl };

    ghost of_number_number = { λ _. refl };

    ghost exact = { Prim.search rules };

    fn from_u32(n: u32) -> ModuleUpvarIndex {
        ModuleUpvarIndex(n)
    }

    fn as_u32(self) -> u32 {
        self.0
    }
}

/// A component that a nested component takes from those around it.
#[derive(Clone, Copy, PartialEq, Eq, PartialOrd, Ord, Hash)]
pub struct ComponentUpvarIndex(pub u32);

impl EntityRef for ComponentUpvarIndex {
    ghost number = { λ k. k.0 };

    ghost of_number = { λ n. record { 0 = n } };

    ghost number_of_number = { λ _. refl };

    ghost of_number_number = { λ _. refl };

    ghost exact = { Prim.search rules };

    fn from_u32(n: u32) -> ComponentUpvarIndex {
        ComponentUpvarIndex(n)
    }

    fn as_u32(self) -> u32 {
        self.0
    }
}

/// A core module in the source, counted over all components.
#[derive(Clone, Copy, PartialEq, Eq, PartialOrd, Ord, Hash)]
pub struct StaticModuleIndex(pub u32);

impl EntityRef for StaticModuleIndex {
    ghost number = { λ k. k.0 };

    ghost of_number = { λ n. record { 0 = n } };

    ghost number_of_number = { λ _. refl };

    ghost of_number_number = { λ _. refl };

    ghost exact = { Prim.search rules };

    fn from_u32(n: u32) -> StaticModuleIndex {
        StaticModuleIndex(n)
    }

    fn as_u32(self) -> u32 {
        self.0
    }
}

/// A nested component in the source, counted over all components.
#[derive(Clone, Copy, PartialEq, Eq, PartialOrd, Ord, Hash)]
pub struct StaticComponentIndex(pub u32);

impl EntityRef for StaticComponentIndex {
    ghost number = { λ k. k.0 };

    ghost of_number = { λ n. record { 0 = n } };

    ghost number_of_number = { λ _. refl };

    ghost of_number_number = { λ _. refl };

    ghost exact = { Prim.search rules };

    fn from_u32(n: u32) -> StaticComponentIndex {
        StaticComponentIndex(n)
    }

    fn as_u32(self) -> u32 {
        self.0
    }
}
