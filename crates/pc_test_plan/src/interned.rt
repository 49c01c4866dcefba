//! Numbers of interned values.

use crate::support::holds;
use pc_dfg::{Intern, InternIter, MemoryId};
use pc_entity::Seed;

/// Values of which two are equal, with their numbers.
static VALUES: [(u32, u32); 3] = [(7, 0), (9, 1), (7, 0)];

/// Whether a value got this number.
fn is_added(memories: &mut Intern<MemoryId, u32>, value: u32, number: u32) -> bool {
    if memories.len() >= 1000 {
        return false;
    }
    match memories.push(value) {
        Ok(key) => key.0 == number,
        Err(_) => false,
    }
}

/// Whether a value came with this number.
fn is_numbered(found: Option<(MemoryId, &u32)>, number: u32, value: u32) -> bool {
    match found {
        Some((key, held)) => key.0 == number && *held == value,
        None => false,
    }
}

/// Whether these are the two values with their numbers.
fn are_numbered(values: InternIter<'_, MemoryId, u32>) -> bool {
    let mut left = values;
    let first = is_numbered(left.next(), 0, 7);
    let second = is_numbered(left.next(), 1, 9);
    first & second & left.next().is_none()
}

/// Whether the second value is this one, and the last one.
fn is_last(memories: &Intern<MemoryId, u32>, value: u32) -> bool {
    let second = memories.get(MemoryId(1)).copied().unwrap_or(0);
    (second == value) & memories.get(MemoryId(2)).is_none()
}

#[test]
fn equal_values_share_a_number(rt: HostRuntime) {
    let mut memories = Intern::new(rt.alloc(), Seed::fixed());
    for (value, number) in VALUES.iter() {
        holds(&rt, "a number", is_added(&mut memories, *value, *number));
    }
    holds(&rt, "two values", memories.len() == 2);
    holds(&rt, "the second is the last", is_last(&memories, 9));
    holds(
        &rt,
        "both with their numbers",
        are_numbered(memories.iter()),
    );
}
