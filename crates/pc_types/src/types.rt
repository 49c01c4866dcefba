//! Converted types: what the builder interns, with numbers of its own lists in place of table numbers.

use crate::parsed::CoreEntity;
use crate::type_index::{
    TypeComponentIndex, TypeComponentInstanceIndex, TypeComponentLocalErrorContextTableIndex,
    TypeEnumIndex, TypeFlagsIndex, TypeFuncIndex, TypeFutureTableIndex, TypeListIndex,
    TypeModuleIndex, TypeOptionIndex, TypeRecordIndex, TypeResourceTableIndex, TypeResultIndex,
    TypeStreamTableIndex, TypeTupleIndex, TypeVariantIndex,
};
use pc_entity::{ResourceIndex, RuntimeComponentInstanceIndex, Seq, Text};

/// A value type.
#[derive(Clone, Copy, PartialEq, Eq, Hash)]
pub enum InterfaceType {
    Bool,
    S8,
    U8,
    S16,
    U16,
    S32,
    U32,
    S64,
    U64,
    F32,
    F64,
    Char,
    String,
    ErrorContext(TypeComponentLocalErrorContextTableIndex),
    Record(TypeRecordIndex),
    Variant(TypeVariantIndex),
    List(TypeListIndex),
    Tuple(TypeTupleIndex),
    Flags(TypeFlagsIndex),
    Enum(TypeEnumIndex),
    Option(TypeOptionIndex),
    Result(TypeResultIndex),
    Own(TypeResourceTableIndex),
    Borrow(TypeResourceTableIndex),
    Future(TypeFutureTableIndex),
    Stream(TypeStreamTableIndex),
}

/// A type of any kind.
#[derive(Clone, Copy, PartialEq, Eq, Hash)]
pub enum TypeDef {
    Interface(InterfaceType),
    ComponentFunc(TypeFuncIndex),
    ComponentInstance(TypeComponentInstanceIndex),
    Component(TypeComponentIndex),
    Module(TypeModuleIndex),
    Resource(TypeResourceTableIndex),
}

/// A function type: the names of its parameters, their types as a tuple, and its results as a tuple of none or one.
#[derive(Drop, PartialEq, Eq, Hash)]
pub struct TypeFunc {
    pub param_names: Seq<Text>,
    pub params: TypeTupleIndex,
    pub results: TypeTupleIndex,
    pub async_: bool,
}

/// A tuple type.
#[derive(Drop, PartialEq, Eq, Hash)]
pub struct TypeTuple {
    pub types: Seq<InterfaceType>,
}

/// A record type.
#[derive(Drop, PartialEq, Eq, Hash)]
pub struct TypeRecord {
    pub fields: Seq<(Text, InterfaceType)>,
}

/// A variant type.
#[derive(Drop, PartialEq, Eq, Hash)]
pub struct TypeVariant {
    pub cases: Seq<(Text, Option<InterfaceType>)>,
}

/// A list type.
#[derive(Clone, Copy, PartialEq, Eq, Hash)]
pub struct TypeList {
    pub element: InterfaceType,
}

/// An option type.
#[derive(Clone, Copy, PartialEq, Eq, Hash)]
pub struct TypeOption {
    pub ty: InterfaceType,
}

/// A result type.
#[derive(Clone, Copy, PartialEq, Eq, Hash)]
pub struct TypeResult {
    pub ok: Option<InterfaceType>,
    pub err: Option<InterfaceType>,
}

/// A flags type.
#[derive(Drop, PartialEq, Eq, Hash)]
pub struct TypeFlags {
    pub names: Seq<Text>,
}

/// An enum type.
#[derive(Drop, PartialEq, Eq, Hash)]
pub struct TypeEnum {
    pub names: Seq<Text>,
}

/// The handles of one resource in one component instance; or a resource that the scope doesn't know,
/// with its number in the type table.
#[derive(Clone, Copy, PartialEq, Eq, Hash)]
pub enum TypeResourceTable {
    Concrete {
        ty: ResourceIndex,
        instance: RuntimeComponentInstanceIndex,
    },
    Abstract(u32),
}

/// The futures of one payload type in one component instance.
#[derive(Clone, Copy, PartialEq, Eq, Hash)]
pub struct TypeFutureTable {
    pub payload: Option<InterfaceType>,
    pub instance: RuntimeComponentInstanceIndex,
}

/// The streams of one payload type in one component instance.
#[derive(Clone, Copy, PartialEq, Eq, Hash)]
pub struct TypeStreamTable {
    pub payload: Option<InterfaceType>,
    pub instance: RuntimeComponentInstanceIndex,
}

/// The error contexts of one component instance.
#[derive(Clone, Copy, PartialEq, Eq, Hash)]
pub struct TypeErrorContextTable {
    pub instance: RuntimeComponentInstanceIndex,
}

/// An instance type.
#[derive(Drop, PartialEq, Eq, Hash)]
pub struct TypeComponentInstance {
    pub exports: Seq<(Text, TypeDef)>,
}

/// A component type.
#[derive(Drop, PartialEq, Eq, Hash)]
pub struct TypeComponent {
    pub imports: Seq<(Text, TypeDef)>,
    pub exports: Seq<(Text, TypeDef)>,
}

/// A module type. A `Func` in it has the number of a signature of the builder.
#[derive(Drop, PartialEq, Eq, Hash)]
pub struct TypeModule {
    pub imports: Seq<(Text, Text, CoreEntity)>,
    pub exports: Seq<(Text, CoreEntity)>,
}

/// One list of the builder.
#[derive(Clone, Copy, PartialEq, Eq, Hash)]
pub enum TypeKind {
    Func,
    Tuple,
    Record,
    Variant,
    List,
    Option,
    Result,
    Flags,
    Enum,
    ResourceTable,
    FutureTable,
    StreamTable,
    ErrorContextTable,
    Instance,
    Component,
    Module,
    Signature,
}

/// What a component's import or export says of itself beside its type.
#[derive(Drop)]
pub struct ComponentExternData {
    /// The interface that it implements.
    pub implements: Option<Text>,
    /// An identifier for the outside.
    pub external_id: Option<Text>,
}

/// The type of an import, with its extern data.
#[derive(Drop)]
pub struct ComponentExtern {
    pub ty: TypeDef,
    pub data_: ComponentExternData,
}
