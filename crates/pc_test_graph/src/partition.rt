//! Partitions of function imports.

ghost use Rattle.std.specs.Prelude.{◌<◌, length};

use crate::support::holds;
use pc_entity::{FuncIndex, NoMemory, RuntimeInstanceIndex, TryClone};
use pc_partition::{SameVmctxPartition, VmctxKey};
use std::alloc::Global;
use std::test::*;

/// What the keys of two instantiations say together.
fn met(alloc: Global, a: &[Option<u32>], b: &[Option<u32>]) -> Result<SameVmctxPartition, NoMemory>
    requires a { length a.now < 100 }
    requires b { length b.now < 100 }
{
    let a = SameVmctxPartition::from_keys(alloc, a)?;
    let b = SameVmctxPartition::from_keys(alloc, b)?;
    SameVmctxPartition::meet(alloc, &a, &b)
}

/// What the keys of one instantiation say, met with the top, and copied.
fn alone(alloc: Global, keys: &[Option<Key>]) -> Result<SameVmctxPartition, NoMemory>
    requires { length keys.now < 100 }
{
    let said = SameVmctxPartition::from_keys(alloc, keys)?;
    let met = SameVmctxPartition::meet(alloc, &SameVmctxPartition::default(), &said)?;
    met.try_clone(alloc)
}

/// Whose context a function takes, where core instances and adapter modules have numbers.
type Key = VmctxKey<RuntimeInstanceIndex, u32>;

/// Whether each number has this representative.
fn has(partition: &SameVmctxPartition, wanted: &[(u32, u32)]) -> bool {
    for (f, least) in wanted {
        if partition.representative(FuncIndex(*f)).0 != *least {
            return false;
        }
    }
    true
}

/// Whether a partition was made, and each number has this representative.
fn gives(partition: Result<SameVmctxPartition, NoMemory>, wanted: &[(u32, u32)]) -> bool {
    match partition {
        Ok(partition) => has(&partition, wanted),
        Err(_) => false,
    }
}

/// Two classes of three.
static THREES: [Option<u32>; 6] = [Some(0), Some(0), Some(0), Some(1), Some(1), Some(1)];

/// Three classes of two.
static TWOS: [Option<u32>; 6] = [Some(0), Some(0), Some(1), Some(1), Some(2), Some(2)];

/// What is together in both, and a number past the end.
static BOTH: [(u32, u32); 7] = [(0, 0), (1, 0), (2, 2), (3, 3), (4, 4), (5, 4), (9, 9)];

/// Each place alone.
static ALONE: [(u32, u32); 4] = [(0, 0), (1, 1), (2, 2), (9, 9)];

/// All together.
static TOP: [(u32, u32); 4] = [(0, 0), (1, 0), (2, 0), (9, 0)];

#[test]
fn what_is_apart_in_one_is_apart_in_the_meet(rt: HostRuntime) {
    holds(&rt, "met", gives(met(rt.alloc(), &THREES, &TWOS), &BOTH));
    holds(&rt, "turned", gives(met(rt.alloc(), &TWOS, &THREES), &BOTH));
    holds(&rt, "empty", gives(met(rt.alloc(), &TWOS, &[]), &ALONE));
}

/// Whose contexts the imports of one instantiation take. Nothing is known of two of them.
static KEYS: [Option<Key>; 8] = [
    Some(VmctxKey::CoreInstance(RuntimeInstanceIndex(0))),
    Some(VmctxKey::Component),
    None,
    Some(VmctxKey::CoreInstance(RuntimeInstanceIndex(1))),
    Some(VmctxKey::Component),
    Some(VmctxKey::AdapterModule(0)),
    None,
    Some(VmctxKey::CoreInstance(RuntimeInstanceIndex(0))),
];

/// The first import that takes the same context.
static FIRST: [(u32, u32); 8] = [
    (0, 0),
    (1, 1),
    (2, 2),
    (3, 3),
    (4, 1),
    (5, 5),
    (6, 6),
    (7, 0),
];

#[test]
fn imports_of_one_context_are_together(rt: HostRuntime) {
    holds(&rt, "keys", gives(alone(rt.alloc(), &KEYS), &FIRST));
}

#[test]
fn the_top_has_one_class_and_the_bottom_has_none(rt: HostRuntime) {
    holds(&rt, "top", has(&SameVmctxPartition::Top, &TOP));
    holds(
        &rt,
        "bottom",
        has(&SameVmctxPartition::bottom(rt.alloc()), &ALONE),
    );
}
