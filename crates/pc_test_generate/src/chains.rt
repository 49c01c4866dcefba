//! Chains, and what they are made of.

use crate::items::{Item, item_of};
use crate::support::holds;
use crate::tables::is_table;
use pc_generate::generate;
use pc_parsed::Payload;
use std::test::*;

/// The payloads of the chain with three links.
static THREE: [Item; 28] = [
    Item::Version,
    Item::Component,
    Item::Version,
    Item::Module(0),
    Item::Made,
    Item::CoreAlias(0),
    Item::Lift(0),
    Item::Export(0),
    Item::End,
    Item::Component,
    Item::Version,
    Item::Import,
    Item::Lower,
    Item::Module(1),
    Item::Bag,
    Item::MadeWith(0),
    Item::CoreAlias(1),
    Item::Lift(1),
    Item::Export(1),
    Item::End,
    Item::First,
    Item::Alias(0),
    Item::Link(0),
    Item::Alias(1),
    Item::Link(1),
    Item::Alias(2),
    Item::Link(2),
    Item::End,
];

/// The last payloads of the longest chain.
static LAST: [Item; 3] = [Item::Alias(9999), Item::Link(9999), Item::End];

/// Whether the payloads from a place on are these, and no others follow.
fn ends_with(payloads: &[Payload], from: usize, wanted: &[Item]) -> bool {
    match payloads.get(from..) {
        Some(rest) => are(rest, wanted),
        None => false,
    }
}

/// Whether payloads are these.
fn are(payloads: &[Payload], wanted: &[Item]) -> bool {
    if payloads.len() != wanted.len() {
        return false;
    }
    for (payload, item) in payloads.iter().zip(wanted.iter()) {
        if item_of(payload) != Some(*item) {
            return false;
        }
    }
    true
}

/// Five component instances begin: the root, one of the first component, three of the second.
#[test]
fn three_links_are_written_out(rt: HostRuntime) {
    let input = generate(rt.alloc(), 3).expect(&rt, "no memory");
    holds(&rt, "limit", input.tunables.max_component_instances == 5);
    holds(&rt, "table", is_table(&input.table));
    holds(&rt, "payloads", are(input.payloads.as_slice(), &THREE));
}

/// There are 21 payloads before the links, two for each link, and one behind them.
#[test]
fn the_longest_chain_is_made(rt: HostRuntime) {
    let input = generate(rt.alloc(), 10_000).expect(&rt, "no memory");
    holds(
        &rt,
        "limit",
        input.tunables.max_component_instances == 10_002,
    );
    holds(&rt, "payloads", input.payloads.len() == 20_022);
    holds(
        &rt,
        "last",
        ends_with(input.payloads.as_slice(), 20_019, &LAST),
    );
}
