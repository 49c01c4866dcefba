//! What translations weigh.

use crate::programs::{Kind, program_of};
use crate::support::{holds, push};
use crate::tables::{Shape, module_of, table_of};
use pc_entity::{NoMemory, Seq};
use pc_parsed::{Encoding, Payload, TypeItem};
use pc_types::SharedRecord;
use pc_weights::{Weights, counted};
use std::alloc::Global;
use std::process::Abort;
use std::test::*;

/// The root, a section of two types, and a core module.
fn payloads(rt: &impl Abort, alloc: Global, each: u32) -> Seq<Payload> {
    let mut payloads = Seq::new(alloc);
    push(
        rt,
        &mut payloads,
        Payload::Version {
            encoding: Encoding::Component,
        },
    );
    push(
        rt,
        &mut payloads,
        Payload::ComponentTypeSection(two_types(rt, alloc)),
    );
    let record_ = SharedRecord::new(alloc, module_of(rt, alloc, each, each, each));
    push(
        rt,
        &mut payloads,
        Payload::ModuleSection {
            record_: record_.expect(rt, "no memory"),
            ty: 4,
        },
    );
    push(rt, &mut payloads, Payload::End);
    payloads
}

/// Two types.
fn two_types(rt: &impl Abort, alloc: Global) -> Seq<TypeItem> {
    let mut items = Seq::new(alloc);
    push(rt, &mut items, TypeItem::Other);
    push(rt, &mut items, TypeItem::Other);
    items
}

/// The total before the first item, where so many types were held, and the core module has so many tables, globals and
/// tags each.
fn total(rt: &impl Abort, alloc: Global, held: usize, each: u32) -> u32 {
    let table = table_of(rt, alloc, Shape::Small);
    let payloads = payloads(rt, alloc, each);
    counted(&table, held, payloads.as_slice())
}

/// 6 entries; 5 items; 2 imports, a function, a memory, and 12 tables, globals and tags; 10 types that were held.
#[test]
fn a_total_counts_what_the_input_has(rt: HostRuntime) {
    holds(&rt, "total", total(&rt, rt.alloc(), 10, 4) == 37);
}

/// The 27 and what it takes to be full, or one less.
#[test]
fn a_total_is_cut_where_it_is_full(rt: HostRuntime) {
    holds(
        &rt,
        "one less",
        total(&rt, rt.alloc(), 4_294_967_267, 4) == 4_294_967_294,
    );
    holds(
        &rt,
        "full",
        total(&rt, rt.alloc(), 4_294_967_268, 4) == u32::MAX,
    );
}

/// The sum is above 2 ^ 64.
#[test]
fn a_total_of_the_greatest_numbers_is_full(rt: HostRuntime) {
    holds(
        &rt,
        "full",
        total(&rt, rt.alloc(), usize::MAX, u32::MAX) == u32::MAX,
    );
}

/// Whether the root and the bodies have these weights.
fn are(weights: Result<Weights, NoMemory>, root: u32, bodies: &[u32]) -> bool {
    match weights {
        Ok(weights) => weights.root == root && weights.bodies.as_slice() == bodies,
        Err(_) => false,
    }
}

/// The weights of the program with these bodies.
fn weights(
    rt: &impl Abort,
    alloc: Global,
    shape: Shape,
    root: &[(Kind, u32)],
    nested: &[(Kind, u32)],
) -> Result<Weights, NoMemory> {
    let table = table_of(rt, alloc, shape);
    let program = program_of(rt, alloc, root, nested);
    Weights::new(alloc, &table, &program)
}

/// The items of the small root. A type number weighs 3 + 3 * 5 = 18, type 3 has 4 names, and no core module has more
/// than 3 imports. So the import weighs 8 + 18 + 4 = 30, and once more; the lowered function 8 + 18 + 1 + 32 = 59; the
/// module instance 8 + 2 + 3 = 13.
static ROOT: [(Kind, u32); 3] = [
    (Kind::Import(3), 1),
    (Kind::Lower, 1),
    (Kind::Instantiate, 1),
];

/// The items of its nested components: 30 for each import; none; 8 + 2 + 18 + 18 + 4 = 50; 8 + 18 = 26.
static NESTED: [(Kind, u32); 4] = [
    (Kind::Import(3), 2),
    (Kind::Export, 0),
    (Kind::Nested, 1),
    (Kind::Export, 1),
];

/// What these weigh.
static WEIGH: [u32; 4] = [60, 0, 50, 26];

#[test]
fn each_body_has_its_weight(rt: HostRuntime) {
    let weights = weights(&rt, rt.alloc(), Shape::Small, &ROOT, &NESTED);
    holds(&rt, "weights", are(weights, 132, &WEIGH));
}

/// A root over the doubling table, where a type number weighs 3 + 3 * 100000, and type 20 has 2 ^ 21 - 2 names. So the
/// import weighs 8 + 300003 + 2097150, and once more.
static FAR: [(Kind, u32); 1] = [(Kind::Import(20), 1)];

/// The nested components of that root: one whose import has 2 ^ 100000 - 2 names; one with 200,000 module instances of
/// 8 + 2 + 2; and one with 10,000 imports of 8 + 300003 + 2.
static LONG: [(Kind, u32); 3] = [
    (Kind::Import(99_999), 1),
    (Kind::Instantiate, 200_000),
    (Kind::Import(1), 10_000),
];

/// What these weigh.
static FULL: [u32; 3] = [u32::MAX, 2_400_000, 3_000_130_000];

/// Whoever made the tree of the names would never end, and whoever looked through the table for each item would look at
/// 2 * 10 ^ 10 entries.
#[test]
fn names_that_double_are_counted(rt: HostRuntime) {
    let weights = weights(&rt, rt.alloc(), Shape::Doubling, &FAR, &LONG);
    holds(&rt, "weights", are(weights, 4_794_322, &FULL));
}
