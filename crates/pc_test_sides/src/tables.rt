//! The tables and core modules that are weighed.

use crate::support::{push, text};
use pc_entity::{Seq, Text};
use pc_types::{CoreEntity, CoreFuncSig, DeclType, Entity, ModuleRecord, TypeTable};
use std::alloc::Global;
use std::process::Abort;

/// What the entries of a table are.
#[derive(Clone, Copy)]
pub(crate) enum Shape {
    /// A resource; a function; an instance type with both; one with that and the resource; a module type with 3
    /// imports.
    Small,

    /// A resource, and 99,999 instance types, each of which exports the entry before it twice.
    Doubling,
}

impl Shape {
    /// How many entries there are.
    fn len(self) -> u32 {
        match self {
            Shape::Small => 5,
            Shape::Doubling => 100_000,
        }
    }

    /// The entry of this number.
    fn entry(self, rt: &impl Abort, alloc: Global, n: u32) -> DeclType {
        match self {
            Shape::Small => small_entry(rt, alloc, n),
            Shape::Doubling => doubling_entry(rt, alloc, n),
        }
    }
}

/// A table with these entries, and one core function.
pub(crate) fn table_of(rt: &impl Abort, alloc: Global, shape: Shape) -> TypeTable {
    let mut core_funcs = Seq::new(alloc);
    push(
        rt,
        &mut core_funcs,
        CoreFuncSig {
            params: Seq::new(alloc),
            results: Seq::new(alloc),
        },
    );
    let mut types = Seq::new(alloc);
    for n in 0..shape.len() {
        push(rt, &mut types, shape.entry(rt, alloc, n));
    }
    TypeTable { core_funcs, types }
}

/// An instance type with these exports, which are named `a` and `b`.
fn instance(rt: &impl Abort, alloc: Global, a: Entity, b: Entity) -> DeclType {
    let mut exports = Seq::new(alloc);
    push(rt, &mut exports, (text(rt, alloc, "a"), a));
    push(rt, &mut exports, (text(rt, alloc, "b"), b));
    DeclType::Instance { exports }
}

/// An entry of the small table.
fn small_entry(rt: &impl Abort, alloc: Global, n: u32) -> DeclType {
    match n {
        1 => DeclType::Func {
            params: Seq::new(alloc),
            result: None,
            async_: false,
        },
        2 => instance(rt, alloc, Entity::Func(1), Entity::Type_(0)),
        3 => instance(rt, alloc, Entity::Instance(2), Entity::Type_(0)),
        4 => DeclType::Module {
            imports: imports(rt, alloc, 3),
            exports: Seq::new(alloc),
        },
        _ => DeclType::Resource,
    }
}

/// An entry of the doubling table.
fn doubling_entry(rt: &impl Abort, alloc: Global, n: u32) -> DeclType {
    if n == 0 {
        return DeclType::Resource;
    }
    if n == 1 {
        return instance(rt, alloc, Entity::Type_(0), Entity::Type_(0));
    }
    instance(rt, alloc, Entity::Instance(n - 1), Entity::Instance(n - 1))
}

/// So many imports of a core module.
fn imports(rt: &impl Abort, alloc: Global, n: u32) -> Seq<(Text, Text, CoreEntity)> {
    let mut imports = Seq::new(alloc);
    for _ in 0..n {
        push(
            rt,
            &mut imports,
            (
                text(rt, alloc, "m"),
                text(rt, alloc, "f"),
                CoreEntity::Func(0),
            ),
        );
    }
    imports
}

/// A core module with 2 imports, a function, a memory, and so many tables, globals and tags.
pub(crate) fn module_of(
    rt: &impl Abort,
    alloc: Global,
    tables: u32,
    globals: u32,
    tags: u32,
) -> ModuleRecord {
    let mut funcs = Seq::new(alloc);
    push(rt, &mut funcs, 0);
    let mut memories = Seq::new(alloc);
    push(rt, &mut memories, false);
    ModuleRecord {
        imports: imports(rt, alloc, 2),
        funcs,
        tables,
        memories,
        globals,
        tags,
        exports: Seq::new(alloc),
    }
}
