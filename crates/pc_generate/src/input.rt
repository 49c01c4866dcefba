//! The whole generated input.

ghost use Rattle.std.specs.Prelude.{◌≡◌, ◌≤◌, ◌∷◌, ◌++◌, [], IfOk, OnOk};
ghost use Rattle.pc_generate.specs.Generated.{front, generated, link, links, payloads};

use crate::bodies::{put_first, put_second};
use crate::pieces::{aliasing, first_instance, instance_with};
use crate::types::table;
use pc_entity::{NoMemory, Seq};
use pc_parsed::{Encoding, Payload, Tunables};
use pc_types::TypeTable;
use std::alloc::Global;

/// An input that was generated.
#[derive(Drop)]
pub struct Generated {
    /// The limit of component instances: as many as begin.
    pub tunables: Tunables,
    /// The core signatures and types that the payloads name by number.
    pub table: TypeTable,
    /// The payloads in written order, those of the nested components among them.
    pub payloads: Seq<Payload>,
}

/// What stands before the chain: the two components, and an instance of the first.
fn put_front(alloc: Global, list: &mut Seq<Payload>) -> Result<(), NoMemory>
    ensures { OnOk result (list.new ≡ list.old ++ front) }
{
    let encoding = Encoding::Component;
    list.push(Payload::Version { encoding })?;
    list.push(Payload::ComponentSection)?;
    put_first(alloc, list)?;
    list.push(Payload::ComponentSection)?;
    put_second(alloc, list)?;
    list.push(first_instance(alloc)?)
}

/// The instance of a number gives its function to the next one.
fn put_link(alloc: Global, list: &mut Seq<Payload>, number: u32) -> Result<(), NoMemory>
    ensures { OnOk result (list.new ≡ list.old ++ link number) }
{
    list.push(aliasing(alloc, number)?)?;
    list.push(instance_with(alloc, number)?)
}

/// The first links of the chain.
fn put_links(alloc: Global, list: &mut Seq<Payload>, count: u32) -> Result<(), NoMemory>
    ensures { OnOk result (list.new ≡ list.old ++ links 0 count) }
{
    for number in 0..count {
        put_link(alloc, list, number)?;
    }
    Ok(())
}

/// The payloads, in written order.
#[tactic(auto, unfolding(crate::specs::Generated::payloads))]
fn payloads(alloc: Global, n: u32) -> Result<Seq<Payload>, NoMemory>
    ensures { IfOk result (λ list. list ≡ payloads n) }
{
    let mut list = Seq::new(alloc);
    put_front(alloc, &mut list)?;
    put_links(alloc, &mut list, n)?;
    list.push(Payload::End)?;
    Ok(list)
}

/// The input with `n` instances of the second component, each of which takes the function of the one before.
pub fn generate(alloc: Global, n: u32) -> Result<Generated, NoMemory>
    requires small { n ≤ 10000 }
    ensures { IfOk result (λ input. input ≡ generated n) }
{
    Ok(Generated {
        tunables: Tunables {
            max_component_instances: n + 2,
        },
        table: table(alloc)?,
        payloads: payloads(alloc, n)?,
    })
}
