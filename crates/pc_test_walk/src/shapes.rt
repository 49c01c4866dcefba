//! The tables that are walked.

use crate::support::{push, text};
use pc_entity::{Seq, Text};
use pc_types::{DeclType, Entity, TypeTable};
use std::alloc::Global;
use std::process::Abort;

/// What the entries of a table are.
#[derive(Clone, Copy)]
pub enum Shape {
    /// A resource, a function, and an instance type with both; a resource, and an instance type with it, with the first
    /// instance type, and with the first resource.
    Small,

    /// A resource, and 40 pairs of instance types, each of which exports both of the pair before.
    Pairs,

    /// 100,000 resources, each with an instance type behind it, which exports the one before it and then the resource.
    Chain,

    /// A resource, and an instance type that exports it 200,000 times.
    Wide,
}

impl Shape {
    /// How many entries there are.
    fn len(self) -> u32 {
        match self {
            Shape::Small => 5,
            Shape::Pairs => 81,
            Shape::Chain => 200_000,
            Shape::Wide => 2,
        }
    }

    /// The entry of this number.
    fn entry(self, rt: &impl Abort, alloc: Global, n: u32) -> DeclType {
        match self {
            Shape::Small => small_entry(rt, alloc, n),
            Shape::Pairs => pair_entry(rt, alloc, n),
            Shape::Chain => chain_entry(rt, alloc, n),
            Shape::Wide => wide_entry(rt, alloc, n),
        }
    }
}

/// A table with these entries.
pub fn table_of(rt: &impl Abort, alloc: Global, shape: Shape) -> TypeTable {
    let mut types = Seq::new(alloc);
    for n in 0..shape.len() {
        push(rt, &mut types, shape.entry(rt, alloc, n));
    }
    TypeTable {
        core_funcs: Seq::new(alloc),
        types,
    }
}

/// An instance type with these exports, which are named `a` and `b`.
fn instance(rt: &impl Abort, alloc: Global, a: Entity, b: Entity) -> DeclType {
    let mut exports = Seq::new(alloc);
    push(rt, &mut exports, (text(rt, alloc, "a"), a));
    push(rt, &mut exports, (text(rt, alloc, "b"), b));
    DeclType::Instance { exports }
}

/// An entry of the small table.
fn small_entry(rt: &impl Abort, alloc: Global, n: u32) -> DeclType {
    match n {
        1 => DeclType::Func {
            params: Seq::new(alloc),
            result: None,
            async_: false,
        },
        2 => instance(rt, alloc, Entity::Func(1), Entity::Type_(0)),
        4 => last_of_small(rt, alloc),
        _ => DeclType::Resource,
    }
}

/// The last of them.
fn last_of_small(rt: &impl Abort, alloc: Global) -> DeclType {
    let mut exports = Seq::new(alloc);
    push(rt, &mut exports, (text(rt, alloc, "x"), Entity::Type_(3)));
    push(
        rt,
        &mut exports,
        (text(rt, alloc, "y"), Entity::Instance(2)),
    );
    push(rt, &mut exports, (text(rt, alloc, "z"), Entity::Type_(0)));
    DeclType::Instance { exports }
}

/// An entry of the pairs: those of pair `k` are `2 * k + 1` and `2 * k + 2`.
fn pair_entry(rt: &impl Abort, alloc: Global, n: u32) -> DeclType {
    if n == 0 {
        return DeclType::Resource;
    }
    if n < 3 {
        return instance(rt, alloc, Entity::Type_(0), Entity::Type_(0));
    }
    let before = (n - 1) / 2 * 2;
    instance(
        rt,
        alloc,
        Entity::Instance(before - 1),
        Entity::Instance(before),
    )
}

/// An entry of the chain.
fn chain_entry(rt: &impl Abort, alloc: Global, n: u32) -> DeclType {
    if n % 2 == 0 {
        return DeclType::Resource;
    }
    if n == 1 {
        return instance(rt, alloc, Entity::Type_(0), Entity::Type_(0));
    }
    instance(rt, alloc, Entity::Instance(n - 2), Entity::Type_(n - 1))
}

/// An entry of the wide table.
fn wide_entry(rt: &impl Abort, alloc: Global, n: u32) -> DeclType {
    if n == 0 {
        return DeclType::Resource;
    }
    let mut exports = Seq::new(alloc);
    for k in 0..200_000u32 {
        push(rt, &mut exports, (numbered(rt, alloc, k), Entity::Type_(0)));
    }
    DeclType::Instance { exports }
}

/// The name of a number.
fn numbered(rt: &impl Abort, alloc: Global, k: u32) -> Text {
    let name = format!(in alloc; "{k}").expect(rt, "no memory");
    text(rt, alloc, name.as_str())
}
