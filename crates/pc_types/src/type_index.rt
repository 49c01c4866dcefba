//! The numbers of the builder's lists, one type for each list.

ghost use Rattle.std.proofs.Common.{refl, rules};

use pc_entity::EntityRef;

/// A function type.
#[derive(Clone, Copy, PartialEq, Eq, PartialOrd, Ord, Hash)]
pub struct TypeFuncIndex(pub u32);

impl EntityRef for TypeFuncIndex {
    ghost number = { λ k. k.0 };

    ghost of_number = { λ n. record { 0 = n } };

    ghost number_of_number = { λ _. refl };

    ghost of_number_number = { λ _. refl };

    ghost exact = { Prim.search rules };

    fn from_u32(n: u32) -> TypeFuncIndex {
        TypeFuncIndex(n)
    }

    fn as_u32(self) -> u32 {
        self.0
    }
}

/// A tuple type.
#[derive(Clone, Copy, PartialEq, Eq, PartialOrd, Ord, Hash)]
pub struct TypeTupleIndex(pub u32);

impl EntityRef for TypeTupleIndex {
    ghost number = { λ k. k.0 };

    ghost of_number = { λ n. record { 0 = n } };

    ghost number_of_number = { λ _. refl };

    ghost of_number_number = { λ _. refl };

    ghost exact = { Prim.search rules };

    fn from_u32(n: u32) -> TypeTupleIndex {
        TypeTupleIndex(n)
    }

    fn as_u32(self) -> u32 {
        self.0
    }
}

/// A record type.
#[derive(Clone, Copy, PartialEq, Eq, PartialOrd, Ord, Hash)]
pub struct TypeRecordIndex(pub u32);

impl EntityRef for TypeRecordIndex {
    ghost number = { λ k. k.0 };

    ghost of_number = { λ n. record { 0 = n } };

    ghost number_of_number = { λ _. refl };

    ghost of_number_number = { λ _. refl };

    ghost exact = { Prim.search rules };

    fn from_u32(n: u32) -> TypeRecordIndex {
        TypeRecordIndex(n)
    }

    fn as_u32(self) -> u32 {
        self.0
    }
}

/// A variant type.
#[derive(Clone, Copy, PartialEq, Eq, PartialOrd, Ord, Hash)]
pub struct TypeVariantIndex(pub u32);

impl EntityRef for TypeVariantIndex {
    ghost number = { λ k. k.0 };

    ghost of_number = { λ n. record { 0 = n } };

    ghost number_of_number = { λ _. refl };

    ghost of_number_number = { λ _. refl };

    ghost exact = { Prim.search rules };

    fn from_u32(n: u32) -> TypeVariantIndex {
        TypeVariantIndex(n)
    }

    fn as_u32(self) -> u32 {
        self.0
    }
}

/// A list type.
#[derive(Clone, Copy, PartialEq, Eq, PartialOrd, Ord, Hash)]
pub struct TypeListIndex(pub u32);

impl EntityRef for TypeListIndex {
    ghost number = { λ k. k.0 };

    ghost of_number = { λ n. record { 0 = n } };

    ghost number_of_number = { λ _. refl };

    ghost of_number_number = { λ _. refl };

    ghost exact = { Prim.search rules };

    fn from_u32(n: u32) -> TypeListIndex {
        TypeListIndex(n)
    }

    fn as_u32(self) -> u32 {
        self.0
    }
}

/// An option type.
#[derive(Clone, Copy, PartialEq, Eq, PartialOrd, Ord, Hash)]
pub struct TypeOptionIndex(pub u32);

impl EntityRef for TypeOptionIndex {
    ghost number = { λ k. k.0 };

    ghost of_number = { λ n. record { 0 = n } };

    ghost number_of_number = { λ _. refl };

    ghost of_number_number = { λ _. refl };

    ghost exact = { Prim.search rules };

    fn from_u32(n: u32) -> TypeOptionIndex {
        TypeOptionIndex(n)
    }

    fn as_u32(self) -> u32 {
        self.0
    }
}

/// A result type.
#[derive(Clone, Copy, PartialEq, Eq, PartialOrd, Ord, Hash)]
pub struct TypeResultIndex(pub u32);

impl EntityRef for TypeResultIndex {
    ghost number = { λ k. k.0 };

    ghost of_number = { λ n. record { 0 = n } };

    ghost number_of_number = { λ _. refl };

    ghost of_number_number = { λ _. refl };

    ghost exact = { Prim.search rules };

    fn from_u32(n: u32) -> TypeResultIndex {
        TypeResultIndex(n)
    }

    fn as_u32(self) -> u32 {
        self.0
    }
}

/// A flags type.
#[derive(Clone, Copy, PartialEq, Eq, PartialOrd, Ord, Hash)]
pub struct TypeFlagsIndex(pub u32);

impl EntityRef for TypeFlagsIndex {
    ghost number = { λ k. k.0 };

    ghost of_number = { λ n. record { 0 = n } };

    ghost number_of_number = { λ _. refl };

    ghost of_number_number = { λ _. refl };

    ghost exact = { Prim.search rules };

    fn from_u32(n: u32) -> TypeFlagsIndex {
        TypeFlagsIndex(n)
    }

    fn as_u32(self) -> u32 {
        self.0
    }
}

/// An enum type.
#[derive(Clone, Copy, PartialEq, Eq, PartialOrd, Ord, Hash)]
pub struct TypeEnumIndex(pub u32);

impl EntityRef for TypeEnumIndex {
    ghost number = { λ k. k.0 };

    ghost of_number = { λ n. record { 0 = n } };

    ghost number_of_number = { λ _. refl };

    ghost of_number_number = { λ _. refl };

    ghost exact = { Prim.search rules };

    fn from_u32(n: u32) -> TypeEnumIndex {
        TypeEnumIndex(n)
    }

    fn as_u32(self) -> u32 {
        self.0
    }
}

/// A resource table.
#[derive(Clone, Copy, PartialEq, Eq, PartialOrd, Ord, Hash)]
pub struct TypeResourceTableIndex(pub u32);

impl EntityRef for TypeResourceTableIndex {
    ghost number = { λ k. k.0 };

    ghost of_number = { λ n. record { 0 = n } };

    ghost number_of_number = { λ _. refl };

    ghost of_number_number = { λ _. refl };

    ghost exact = { Prim.search rules };

    fn from_u32(n: u32) -> TypeResourceTableIndex {
        TypeResourceTableIndex(n)
    }

    fn as_u32(self) -> u32 {
        self.0
    }
}

/// A table of futures.
#[derive(Clone, Copy, PartialEq, Eq, PartialOrd, Ord, Hash)]
pub struct TypeFutureTableIndex(pub u32);

impl EntityRef for TypeFutureTableIndex {
    ghost number = { λ k. k.0 };

    ghost of_number = { λ n. record { 0 = n } };

    ghost number_of_number = { λ _. refl };

    ghost of_number_number = { λ _. refl };

    ghost exact = { Prim.search rules };

    fn from_u32(n: u32) -> TypeFutureTableIndex {
        TypeFutureTableIndex(n)
    }

    fn as_u32(self) -> u32 {
        self.0
    }
}

/// A table of streams.
#[derive(Clone, Copy, PartialEq, Eq, PartialOrd, Ord, Hash)]
pub struct TypeStreamTableIndex(pub u32);

impl EntityRef for TypeStreamTableIndex {
    ghost number = { λ k. k.0 };

    ghost of_number = { λ n. record { 0 = n } };

    ghost number_of_number = { λ _. refl };

    ghost of_number_number = { λ _. refl };

    ghost exact = { Prim.search rules };

    fn from_u32(n: u32) -> TypeStreamTableIndex {
        TypeStreamTableIndex(n)
    }

    fn as_u32(self) -> u32 {
        self.0
    }
}

/// A table of error contexts.
#[derive(Clone, Copy, PartialEq, Eq, PartialOrd, Ord, Hash)]
pub struct TypeComponentLocalErrorContextTableIndex(pub u32);

impl EntityRef for TypeComponentLocalErrorContextTableIndex {
    ghost number = { λ k. k.0 };

    ghost of_number = { λ n. record { 0 = n } };

    ghost number_of_number = { λ _. refl };

    ghost of_number_number = { λ _. refl };

    ghost exact = { Prim.search rules };

    fn from_u32(n: u32) -> TypeComponentLocalErrorContextTableIndex {
        TypeComponentLocalErrorContextTableIndex(n)
    }

    fn as_u32(self) -> u32 {
        self.0
    }
}

/// An instance type.
#[derive(Clone, Copy, PartialEq, Eq, PartialOrd, Ord, Hash)]
pub struct TypeComponentInstanceIndex(pub u32);

impl EntityRef for TypeComponentInstanceIndex {
    ghost number = { λ k. k.0 };

    ghost of_number = { λ n. record { 0 = n } };

    ghost number_of_number = { λ _. refl };

    ghost of_number_number = { λ _. refl };

    ghost exact = { Prim.search rules };

    fn from_u32(n: u32) -> TypeComponentInstanceIndex {
        TypeComponentInstanceIndex(n)
    }

    fn as_u32(self) -> u32 {
        self.0
    }
}

/// A component type.
#[derive(Clone, Copy, PartialEq, Eq, PartialOrd, Ord, Hash)]
pub struct TypeComponentIndex(pub u32);

impl EntityRef for TypeComponentIndex {
    ghost number = { λ k. k.0 };

    ghost of_number = { λ n. record { 0 = n } };

    ghost number_of_number = { λ _. refl };

    ghost of_number_number = { λ _. refl };

    ghost exact = { Prim.search rules };

    fn from_u32(n: u32) -> TypeComponentIndex {
        TypeComponentIndex(n)
    }

    fn as_u32(self) -> u32 {
        self.0
    }
}

/// A module type.
#[derive(Clone, Copy, PartialEq, Eq, PartialOrd, Ord, Hash)]
pub struct TypeModuleIndex(pub u32);

impl EntityRef for TypeModuleIndex {
    ghost number = { λ k. k.0 };

    ghost of_number = { λ n. record { 0 = n } };

    ghost number_of_number = { λ _. refl };

    ghost of_number_number = { λ _. refl };

    ghost exact = { Prim.search rules };

    fn from_u32(n: u32) -> TypeModuleIndex {
        TypeModuleIndex(n)
    }

    fn as_u32(self) -> u32 {
        self.0
    }
}
