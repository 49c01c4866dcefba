//! Partitions of 400,000 imports.

use crate::support::holds;
use pc_partition::SameVmctxPartition;
use std::alloc::Global;
use std::test::*;

/// How many imports there are.
const MANY: u32 = 400_000;

/// Which imports have one key.
#[derive(Clone, Copy)]
enum Keys {
    /// None.
    Apart,
    /// Those of a row of 633.
    Rows,
    /// Those of a column, which has one of each row.
    Columns,
    /// All.
    Together,
}

impl Keys {
    /// The key of an import.
    fn key(self, n: u32) -> u32 {
        match self {
            Keys::Apart => n,
            Keys::Rows => n / 633,
            Keys::Columns => n % 633,
            Keys::Together => 0,
        }
    }

    /// The least import with the key of this one.
    fn least(self, n: u32) -> u32 {
        match self {
            Keys::Apart => n,
            Keys::Rows => n / 633 * 633,
            Keys::Columns => n % 633,
            Keys::Together => 0,
        }
    }
}

/// The key of each import.
fn keys_of(alloc: Global, keys: Keys) -> Option<Vec<Option<u32>>> {
    let mut list = Vec::new(alloc);
    for n in 0..MANY {
        list.push(Some(keys.key(n))).ok()?;
    }
    Some(list)
}

/// What an instantiation with these keys says.
fn said(alloc: Global, keys: &[Option<u32>]) -> Option<SameVmctxPartition> {
    if keys.len() < 1_000_000 {
        SameVmctxPartition::from_keys(alloc, keys).ok()
    } else {
        None
    }
}

/// The partition by keys.
fn by(alloc: Global, keys: Keys) -> Option<SameVmctxPartition> {
    let keys = keys_of(alloc, keys)?;
    said(alloc, keys.as_slice())
}

/// What two partitions say together.
fn met(alloc: Global, a: Keys, b: Keys) -> Option<SameVmctxPartition> {
    let a = by(alloc, a)?;
    let b = by(alloc, b)?;
    SameVmctxPartition::meet(alloc, &a, &b).ok()
}

/// Whether these are the least numbers of the classes by keys.
fn are_least(least: &[u32], keys: Keys) -> bool {
    let mut n: u32 = 0;
    for number in least {
        if *number != keys.least(n) {
            return false;
        }
        n = n.saturating_add(1);
    }
    n == MANY
}

/// Whether a partition was made, and is the one by keys.
fn is_by(partition: Option<SameVmctxPartition>, keys: Keys) -> bool {
    match partition {
        Some(SameVmctxPartition::Known(classes)) => are_least(classes.as_slice(), keys),
        _ => false,
    }
}

#[test]
fn many_imports_are_told_by_their_keys(rt: HostRuntime) {
    holds(
        &rt,
        "apart",
        is_by(by(rt.alloc(), Keys::Apart), Keys::Apart),
    );
    holds(&rt, "rows", is_by(by(rt.alloc(), Keys::Rows), Keys::Rows));
    holds(
        &rt,
        "together",
        is_by(by(rt.alloc(), Keys::Together), Keys::Together),
    );
}

/// A row and a column have one import in common.
#[test]
fn large_classes_meet_in_small_ones(rt: HostRuntime) {
    let alloc = rt.alloc();
    holds(
        &rt,
        "rows and columns",
        is_by(met(alloc, Keys::Rows, Keys::Columns), Keys::Apart),
    );
    holds(
        &rt,
        "columns and all",
        is_by(met(alloc, Keys::Columns, Keys::Together), Keys::Columns),
    );
}

/// Meets a partition of 400,000 imports with the bottom, 400,000 times.
fn short_meets(alloc: Global) -> Option<u32> {
    let long = by(alloc, Keys::Apart)?;
    let bottom = SameVmctxPartition::bottom(alloc);
    let mut made: u32 = 0;
    for _ in 0..MANY {
        SameVmctxPartition::meet(alloc, &long, &bottom).ok()?;
        made = made.saturating_add(1);
    }
    Some(made)
}

/// Whoever went through the longer list would go through 16 * 10 ^ 10 numbers.
#[test]
fn a_meet_takes_time_in_the_shorter_list(rt: HostRuntime) {
    holds(&rt, "meets", short_meets(rt.alloc()) == Some(MANY));
}
