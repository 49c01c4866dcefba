//! How many modules adapters become.

use crate::graphs::{Shape, fill};
use crate::support::holds;
use pc_adapt_groups::adapter_groups;
use pc_dfg::laws::empty_is_ordered;
use pc_dfg::{ComponentDfg, PushError};
use pc_entity::Seed;
use std::alloc::Global;
use std::test::*;

/// How many groups the adapters of a graph are in, and how many adapters are in the first one.
fn groups_of(alloc: Global, shape: Shape) -> Result<(usize, usize), PushError> {
    empty_is_ordered();
    let mut graph = ComponentDfg::new(alloc, Seed::fixed());
    fill(alloc, &mut graph, shape)?;
    let groups = adapter_groups(alloc, &graph)?;
    let first = groups.as_slice().get(0).copied().unwrap_or(0);
    Ok((groups.len(), first))
}

/// Adapter 1 needs adapter 0, since its core instance takes it; adapter 2 needs none.
#[test]
fn an_adapter_is_behind_what_its_instance_takes(rt: HostRuntime) {
    let groups = groups_of(rt.alloc(), Shape::Small);
    holds(&rt, "two groups", groups == Ok((2, 1)));
}

/// A walk from each adapter down would look at 5 * 10 ^ 9.
#[test]
fn each_adapter_of_a_chain_is_alone(rt: HostRuntime) {
    let groups = groups_of(rt.alloc(), Shape::Chain);
    holds(&rt, "many groups", groups == Ok((100_000, 1)));
}

#[test]
fn adapters_that_need_none_are_together(rt: HostRuntime) {
    let groups = groups_of(rt.alloc(), Shape::Wide);
    holds(&rt, "one group", groups == Ok((1, 100_000)));
}
