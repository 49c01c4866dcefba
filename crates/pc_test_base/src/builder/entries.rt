//! The tables that are tested.

use crate::support::{one, push, text};
use pc_entity::{Seq, Text};
use pc_types::{CoreEntity, CoreFuncSig, DeclType, Entity, PrimType, TypeTable, ValType};
use std::alloc::Global;
use std::process::Abort;

/// What the entries of a table are.
#[derive(Clone, Copy)]
pub enum Shape {
    /// One of each kind: a resource, its handles and the values that hold them, then a function, an instance, a module
    /// and a component.
    EachKind,

    /// 200,000 lists, each of the one before it.
    Chain,

    /// 60 pairs, each of the one before it twice, then a stream that no other entry names, and an option of the last
    /// pair.
    Diamond,

    /// A resource, a handle of it and 200,000 lists, each of the one before it, then another resource.
    Handles,
}

impl Shape {
    /// How many entries there are.
    fn len(self) -> u32 {
        match self {
            Shape::EachKind => 18,
            Shape::Chain => 200_000,
            Shape::Diamond => 63,
            Shape::Handles => 200_003,
        }
    }

    /// The entry of this number.
    fn entry(self, rt: &impl Abort, alloc: Global, n: u32) -> DeclType {
        match self {
            Shape::EachKind => entry(rt, alloc, n),
            Shape::Chain => DeclType::List(before(n)),
            Shape::Diamond => diamond_entry(rt, alloc, n),
            Shape::Handles => handle_entry(n),
        }
    }
}

/// A table with these entries, and one core signature.
pub fn table_of(rt: &impl Abort, alloc: Global, shape: Shape) -> TypeTable {
    let mut types = Seq::new(alloc);
    for n in 0..shape.len() {
        push(rt, &mut types, shape.entry(rt, alloc, n));
    }
    TypeTable {
        core_funcs: one(rt, alloc, signature(alloc)),
        types,
    }
}

/// The signature of a function that takes and gives nothing.
fn signature(alloc: Global) -> CoreFuncSig {
    CoreFuncSig {
        params: Seq::new(alloc),
        results: Seq::new(alloc),
    }
}

/// The type of strings.
fn string() -> ValType {
    ValType::Prim(PrimType::String)
}

/// The type of the entry before this one, or a string.
fn before(n: u32) -> ValType {
    if n == 0 {
        string()
    } else {
        ValType::Type_(n - 1)
    }
}

/// An entry of the diamond.
fn diamond_entry(rt: &impl Abort, alloc: Global, n: u32) -> DeclType {
    match n {
        0 => DeclType::Val(string()),
        61 => DeclType::Stream(None),
        62 => DeclType::Option(ValType::Type_(60)),
        _ => pair_of(rt, alloc, before(n), before(n)),
    }
}

/// An entry of the table of two resources.
fn handle_entry(n: u32) -> DeclType {
    match n {
        0 | 200_002 => DeclType::Resource,
        1 => DeclType::Own(0),
        _ => DeclType::List(before(n)),
    }
}

/// An entry of the table that has one of each kind.
fn entry(rt: &impl Abort, alloc: Global, n: u32) -> DeclType {
    match n {
        3 | 4 | 6 | 7 | 8 => value_entry(rt, alloc, n),
        14 => func_entry(rt, alloc),
        15 => instance_entry(rt, alloc),
        16 => module_entry(rt, alloc),
        17 => component_entry(rt, alloc),
        _ => small_entry(n),
    }
}

/// The values of several parts: a record, a variant of a case with no value and one with a value, a pair, flags and an
/// enum.
fn value_entry(rt: &impl Abort, alloc: Global, n: u32) -> DeclType {
    let context = ValType::Prim(PrimType::ErrorContext);
    match n {
        3 => DeclType::Record(two(rt, alloc, ValType::Type_(1), string())),
        4 => DeclType::Variant(two(rt, alloc, None, Some(ValType::Type_(3)))),
        6 => pair_of(rt, alloc, ValType::Type_(5), context),
        7 => DeclType::Flags(one(rt, alloc, text(rt, alloc, "x"))),
        _ => DeclType::Enum(one(rt, alloc, text(rt, alloc, "x"))),
    }
}

/// The entries that take no memory.
fn small_entry(n: u32) -> DeclType {
    match n {
        0 => DeclType::Resource,
        1 => DeclType::Own(0),
        2 => DeclType::Borrow(0),
        5 => DeclType::List(ValType::Type_(4)),
        9 => DeclType::Option(ValType::Type_(7)),
        10 => DeclType::Result {
            ok: Some(ValType::Type_(8)),
            err: Some(ValType::Type_(9)),
        },
        11 => DeclType::Val(ValType::Type_(10)),
        12 => DeclType::Stream(Some(ValType::Type_(11))),
        _ => DeclType::Future(None),
    }
}

/// A tuple of two.
fn pair_of(rt: &impl Abort, alloc: Global, a: ValType, b: ValType) -> DeclType {
    let mut both = one(rt, alloc, a);
    push(rt, &mut both, b);
    DeclType::Tuple(both)
}

/// An async function of the pair and the stream, which gives the future.
fn func_entry(rt: &impl Abort, alloc: Global) -> DeclType {
    DeclType::Func {
        params: two(rt, alloc, ValType::Type_(6), ValType::Type_(12)),
        result: Some(ValType::Type_(13)),
        async_: true,
    }
}

/// An instance that exports the function and the resource.
fn instance_entry(rt: &impl Abort, alloc: Global) -> DeclType {
    DeclType::Instance {
        exports: two(rt, alloc, Entity::Func(14), Entity::Type_(0)),
    }
}

/// A module that imports a function, and exports one and a memory.
fn module_entry(rt: &impl Abort, alloc: Global) -> DeclType {
    let func = CoreEntity::Func(0);
    let memory = CoreEntity::Memory { memory64: true };
    let import = (text(rt, alloc, "m"), text(rt, alloc, "f"), func);
    DeclType::Module {
        imports: one(rt, alloc, import),
        exports: two(rt, alloc, func, memory),
    }
}

/// A component that imports the instance, and exports the module.
fn component_entry(rt: &impl Abort, alloc: Global) -> DeclType {
    DeclType::Component {
        imports: two(rt, alloc, Entity::Instance(15), Entity::Type_(0)),
        exports: two(rt, alloc, Entity::Module(16), Entity::Type_(0)),
    }
}

/// The names `a` and `b`, with these.
fn two<V: Copy>(rt: &impl Abort, alloc: Global, a: V, b: V) -> Seq<(Text, V)> {
    let mut list = one(rt, alloc, (text(rt, alloc, "a"), a));
    push(rt, &mut list, (text(rt, alloc, "b"), b));
    list
}
