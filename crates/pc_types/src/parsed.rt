//! The type table of an input, as it is handed in: entries that name earlier entries by number.

use pc_entity::{Seq, Text};

/// A core WebAssembly value type. Floats are labels here; nothing computes with them.
#[derive(Clone, Copy, Debug, PartialEq, Eq, Hash)]
pub enum WasmValType {
    I32,
    I64,
    F32,
    F64,
    V128,
    FuncRef,
    ExternRef,
}

/// The signature of a core function.
#[derive(Drop, PartialEq, Eq, Hash)]
pub struct CoreFuncSig {
    pub params: Seq<WasmValType>,
    pub results: Seq<WasmValType>,
}

/// A primitive type of the component model.
#[derive(Clone, Copy, Debug, PartialEq, Eq, Hash)]
pub enum PrimType {
    Bool,
    S8,
    U8,
    S16,
    U16,
    S32,
    U32,
    S64,
    U64,
    F32,
    F64,
    Char,
    String,
    ErrorContext,
}

/// A value type: a primitive, or the number of a table entry that is a defined type.
#[derive(Clone, Copy, Debug, PartialEq, Eq, Hash)]
pub enum ValType {
    Prim(PrimType),
    Type_(u32),
}

/// An entity that a core module imports or exports. `Func` has the number of a core signature.
#[derive(Clone, Copy, Debug, PartialEq, Eq, Hash)]
pub enum CoreEntity {
    Func(u32),
    Table,
    Memory { memory64: bool },
    Global,
    Tag,
}

/// A kind of entity of a core module.
#[derive(Clone, Copy, Debug, PartialEq, Eq, Hash)]
pub enum CoreKind {
    Func,
    Table,
    Memory,
    Global,
    Tag,
}

/// An entity that a component or an instance imports or exports, with the number of its table entry.
#[derive(Clone, Copy, Debug, PartialEq, Eq, Hash)]
pub enum Entity {
    Func(u32),
    Instance(u32),
    Component(u32),
    Module(u32),
    Type_(u32),
    Value,
}

/// An entry of the type table. Each number in it is that of an earlier entry (`check_table` tests this).
#[derive(Drop)]
pub enum DeclType {
    Resource,
    Func {
        params: Seq<(Text, ValType)>,
        result: Option<ValType>,
        async_: bool,
    },
    Val(ValType),
    Record(Seq<(Text, ValType)>),
    Variant(Seq<(Text, Option<ValType>)>),
    List(ValType),
    Tuple(Seq<ValType>),
    Flags(Seq<Text>),
    Enum(Seq<Text>),
    Option(ValType),
    Result {
        ok: Option<ValType>,
        err: Option<ValType>,
    },
    Own(u32),
    Borrow(u32),
    Stream(Option<ValType>),
    Future(Option<ValType>),
    Instance {
        exports: Seq<(Text, Entity)>,
    },
    Component {
        imports: Seq<(Text, Entity)>,
        exports: Seq<(Text, Entity)>,
    },
    Module {
        imports: Seq<(Text, Text, CoreEntity)>,
        exports: Seq<(Text, CoreEntity)>,
    },
}

/// The type table of an input: core function signatures, and the other types, each under its place as number.
#[derive(Drop)]
pub struct TypeTable {
    pub core_funcs: Seq<CoreFuncSig>,
    pub types: Seq<DeclType>,
}
