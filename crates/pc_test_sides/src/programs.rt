//! The programs that are weighed.

use crate::support::{push, text};
use crate::tables::module_of;
use pc_entity::{PrimaryMap, Seq, Text};
use pc_local::{LocalInitializer, LocalProgram, Translation};
use pc_parsed::{CanonOption, ExternName, ItemKind};
use pc_types::{Entity, SharedRecord};
use std::alloc::Global;
use std::process::Abort;

/// An item of a body.
#[derive(Clone, Copy)]
pub(crate) enum Kind {
    /// An import of an instance with this type.
    Import(u32),
    /// A function that is lowered with one option.
    Lower,
    /// A module that is instantiated with two arguments.
    Instantiate,
    /// A component that is instantiated with a function and a type, and has type 3.
    Nested,
    /// A type that is exported.
    Export,
}

impl Kind {
    /// The item.
    fn item(self, rt: &impl Abort, alloc: Global) -> LocalInitializer {
        match self {
            Kind::Import(n) => LocalInitializer::Import {
                name: name(rt, alloc),
                ty: Entity::Instance(n),
            },
            Kind::Lower => LocalInitializer::Lower {
                func: 0,
                ty: 1,
                core: 0,
                opts: options(rt, alloc),
            },
            Kind::Instantiate => LocalInitializer::ModuleInstantiate {
                module: 0,
                args: core_arguments(rt, alloc),
            },
            Kind::Nested => LocalInitializer::ComponentInstantiate {
                component: 0,
                args: arguments(rt, alloc),
                ty: 3,
            },
            Kind::Export => LocalInitializer::Export {
                name: name(rt, alloc),
                kind: ItemKind::Type_,
                index: 0,
            },
        }
    }
}

/// A name.
fn name(rt: &impl Abort, alloc: Global) -> ExternName {
    ExternName {
        name: text(rt, alloc, "x"),
        implements: None,
        external_id: None,
    }
}

/// One option.
fn options(rt: &impl Abort, alloc: Global) -> Seq<CanonOption> {
    let mut opts = Seq::new(alloc);
    push(rt, &mut opts, CanonOption::Async);
    opts
}

/// Two arguments of a module.
fn core_arguments(rt: &impl Abort, alloc: Global) -> Seq<(Text, u32)> {
    let mut args = Seq::new(alloc);
    push(rt, &mut args, (text(rt, alloc, "m"), 0));
    push(rt, &mut args, (text(rt, alloc, "n"), 0));
    args
}

/// Two arguments of a component.
fn arguments(rt: &impl Abort, alloc: Global) -> Seq<(Text, ItemKind, u32)> {
    let mut args = Seq::new(alloc);
    push(rt, &mut args, (text(rt, alloc, "f"), ItemKind::Func, 0));
    push(rt, &mut args, (text(rt, alloc, "t"), ItemKind::Type_, 0));
    args
}

/// Appends an item so many times.
fn append(
    rt: &impl Abort,
    alloc: Global,
    items: &mut Seq<LocalInitializer>,
    kind: Kind,
    times: u32,
) {
    for _ in 0..times {
        push(rt, items, kind.item(rt, alloc));
    }
}

/// The body with each of these items so many times.
fn body(rt: &impl Abort, alloc: Global, kinds: &[(Kind, u32)]) -> Translation {
    let mut initializers = Seq::new(alloc);
    for (kind, times) in kinds {
        append(rt, alloc, &mut initializers, *kind, *times);
    }
    Translation {
        initializers,
        exports: Seq::new(alloc),
    }
}

/// Appends a nested component with one kind of items, so many of them.
fn nest(rt: &impl Abort, alloc: Global, bodies: &mut Seq<Translation>, kind: Kind, times: u32) {
    push(rt, bodies, body(rt, alloc, &[(kind, times)]));
}

/// The program with this root, a core module, and a nested component for each of these kinds of items.
pub(crate) fn program_of(
    rt: &impl Abort,
    alloc: Global,
    root: &[(Kind, u32)],
    nested: &[(Kind, u32)],
) -> LocalProgram {
    let mut modules = Seq::new(alloc);
    let record_ = SharedRecord::new(alloc, module_of(rt, alloc, 0, 0, 0));
    push(rt, &mut modules, record_.expect(rt, "no memory"));
    let mut bodies = Seq::new(alloc);
    for (kind, times) in nested {
        nest(rt, alloc, &mut bodies, *kind, *times);
    }
    LocalProgram {
        root: body(rt, alloc, root),
        modules: PrimaryMap::from_vec(modules.into_vec()),
        components: PrimaryMap::from_vec(bodies.into_vec()),
    }
}
