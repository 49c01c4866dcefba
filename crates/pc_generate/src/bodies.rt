//! The two components, and the list that begins with them.

ghost use Rattle.std.specs.Prelude.{◌≡◌, ◌∷◌, ◌++◌, [], IfOk, OnOk};
ghost use Rattle.pc_generate.specs.Bodies.{first, giving, second, taken};

use crate::pieces::{
    core_aliasing, core_instance, core_items, core_module, exporting, importing, lifting, lowering,
    name, one,
};
use pc_entity::{NoMemory, Seq, Text};
use pc_parsed::{Encoding, Payload};
use pc_types::CoreEntity;
use std::alloc::Global;

/// What each component ends with: it lifts a core function of a core instance and exports it.
fn put_giving(alloc: Global, list: &mut Seq<Payload>, number: u32) -> Result<(), NoMemory>
    ensures { OnOk result (list.new ≡ list.old ++ giving number) }
{
    list.push(core_aliasing(alloc, number)?)?;
    list.push(lifting(alloc, number)?)?;
    list.push(exporting(alloc, number)?)?;
    list.push(Payload::End)
}

/// The first component, from its version on.
pub(crate) fn put_first(alloc: Global, list: &mut Seq<Payload>) -> Result<(), NoMemory>
    ensures { OnOk result (list.new ≡ list.old ++ first) }
{
    let encoding = Encoding::Component;
    list.push(Payload::Version { encoding })?;
    list.push(core_module(alloc, Seq::new(alloc), 0)?)?;
    list.push(core_instance(alloc, Seq::new(alloc))?)?;
    put_giving(alloc, list, 0)
}

/// What the core module of the second component takes.
fn taken(alloc: Global) -> Result<(Text, Text, CoreEntity), NoMemory>
    ensures { IfOk result (λ i. i ≡ taken) }
{
    Ok((
        Text::copy_of(alloc, "e")?,
        name(alloc)?,
        CoreEntity::Func(0),
    ))
}

/// The second component, from its version on.
pub(crate) fn put_second(alloc: Global, list: &mut Seq<Payload>) -> Result<(), NoMemory>
    ensures { OnOk result (list.new ≡ list.old ++ second) }
{
    let encoding = Encoding::Component;
    list.push(Payload::Version { encoding })?;
    list.push(importing(alloc)?)?;
    list.push(lowering(alloc)?)?;
    list.push(core_module(alloc, one(alloc, taken(alloc)?)?, 1)?)?;
    list.push(core_items(alloc)?)?;
    let args = one(alloc, (Text::copy_of(alloc, "e")?, 0))?;
    list.push(core_instance(alloc, args)?)?;
    put_giving(alloc, list, 1)
}
