//! Streams that fail at each of their calls in turn: what was read and written until then.

use crate::adapters::{TWO_PLANNED, two_adapters};
use crate::inputs::{Ends, Ran, SMALLEST, SMALLEST_PLAN, WHOLE, comes_to, holds};
use pc_tool::Status;
use std::alloc::{AllocError, Global};

/// Whether a run ends with a fault where this read fails, which leaves this many bytes, and writes nothing.
fn read_fails(
    alloc: Global,
    input: &[u8],
    read_most: usize,
    n: u64,
    left: usize,
) -> Result<bool, AllocError> {
    let ends = Ends {
        read_most,
        read_fails: n,
        ..WHOLE
    };
    let fault = Ran {
        status: Status::ReadFault,
        written: &[],
        left,
        read_faults: 1,
        write_faults: 0,
    };
    comes_to(alloc, "translate", input, &ends, &fault)
}

/// Whether each read fails in its turn. The last one finds the end.
fn each_read_fails(alloc: Global, input: &[u8], most: usize) -> Result<bool, AllocError> {
    let mut left = input.len();
    for n in 0..2000 {
        if !read_fails(alloc, input, most, n, left)? {
            return Ok(false);
        }
        if left == 0 {
            return Ok(true);
        }
        left = left.saturating_sub(most);
    }
    Ok(false)
}

/// Whether each read of the input with two adapters fails in its turn.
fn each_read_of_two_fails(alloc: Global, most: usize) -> Result<bool, AllocError> {
    let input = two_adapters(alloc)?;
    each_read_fails(alloc, input.as_str().as_bytes(), most)
}

#[test]
fn a_failed_read_writes_nothing(rt: HostRuntime) {
    for most in [1, 7, 64] {
        let is_so = each_read_fails(rt.alloc(), SMALLEST.as_bytes(), most);
        holds(&rt, "the smallest input", is_so.unwrap_or(false));
    }
    let is_so = each_read_of_two_fails(rt.alloc(), 64);
    holds(&rt, "two adapters", is_so.unwrap_or(false));
}

/// Whether a run ends with a fault where this write fails, before which so many bytes were written.
fn write_fails(
    alloc: Global,
    input: &[u8],
    plan: &[u8],
    write_most: usize,
    n: u64,
    kept: usize,
) -> Result<bool, AllocError> {
    let ends = Ends {
        write_most,
        write_fails: n,
        ..WHOLE
    };
    let fault = Ran {
        status: Status::WriteFault,
        written: &plan[..kept.min(plan.len())],
        left: 0,
        read_faults: 0,
        write_faults: 1,
    };
    comes_to(alloc, "translate", input, &ends, &fault)
}

/// Whether each write of a plan fails in its turn.
fn each_write_fails(
    alloc: Global,
    input: &[u8],
    plan: &[u8],
    most: usize,
) -> Result<bool, AllocError> {
    let mut kept = 0usize;
    for n in 0..2000 {
        if kept >= plan.len() {
            return Ok(true);
        }
        if !write_fails(alloc, input, plan, most, n, kept)? {
            return Ok(false);
        }
        kept = kept.saturating_add(most);
    }
    Ok(false)
}

/// Whether each write of the plan of two adapters fails in its turn.
fn each_write_of_two_fails(alloc: Global, most: usize) -> Result<bool, AllocError> {
    let input = two_adapters(alloc)?;
    each_write_fails(
        alloc,
        input.as_str().as_bytes(),
        TWO_PLANNED.as_bytes(),
        most,
    )
}

#[test]
fn a_failed_write_leaves_a_front(rt: HostRuntime) {
    let (input, plan) = (SMALLEST.as_bytes(), SMALLEST_PLAN.as_bytes());
    for most in [1, 7] {
        let is_so = each_write_fails(rt.alloc(), input, plan, most);
        holds(&rt, "the smallest input", is_so.unwrap_or(false));
    }
    let is_so = each_write_of_two_fails(rt.alloc(), 7);
    holds(&rt, "two adapters", is_so.unwrap_or(false));
}
