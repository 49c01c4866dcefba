//! The numbers of the names in the bodies of components: of each item, and of what a body exports.

ghost use Rattle.std.specs.Prelude.{◌≡◌, ◌∷◌, [], map, IfOk, OnOk};
ghost use Rattle.std.specs.List.{AllZip};
ghost use Rattle.pc_inline_names.specs.Named.{item_names};
ghost use Rattle.pc_inline_names.specs.Tables.{AddsNames, AreBodyNumbers, AreItemNumbers, AreNames, IsMade};

use crate::add::{HasName, add_all, add_name};
use crate::number_lists::NumberLists;
use pc_entity::{Atom, Interner, NoMemory, Seq, Text};
use pc_local::{LocalInitializer, Translation};
use std::alloc::Global;

/// The numbers of the names of a body: of each item in order, and of its exports.
#[derive(Drop)]
pub(crate) struct BodyNumbers {
    pub(crate) items: NumberLists,
    pub(crate) exports: Seq<Atom>,
}

/// Makes the list of one number, that of a name, which is added.
fn make_one(
    texts: &mut Interner<Text>,
    lists: &mut NumberLists,
    name: &Text,
) -> Result<(), NoMemory>
    requires begun { lists.old.open_list ≡ [] }
    ensures adds { OnOk result (AddsNames texts.old texts.new) }
    ensures numbers { OnOk result (IsMade texts.new (name.now ∷ []) lists.old.ended lists.new) }
{
    lists.push(add_name(texts, name)?)
}

/// Makes the list of the numbers of the names of some entries, which are added.
fn make_all<T: HasName>(
    texts: &mut Interner<Text>,
    lists: &mut NumberLists,
    entries: &[T],
) -> Result<(), NoMemory>
    requires names { AreNames texts.old }
    requires begun { lists.old.open_list ≡ [] }
    ensures adds { OnOk result (AddsNames texts.old texts.new) }
    ensures numbers { OnOk result (IsMade texts.new (map T.name_of entries.now) lists.old.ended lists.new) }
{
    for entry in entries {
        lists.push(add_name(texts, entry.name())?)?;
    }
    Ok(())
}

/// Makes the list of the numbers of the names in an item, which are added.
#[tactic(auto, unfolding(crate::specs::Named::item_names))]
fn make_item(
    texts: &mut Interner<Text>,
    lists: &mut NumberLists,
    item: &LocalInitializer,
) -> Result<(), NoMemory>
    requires names { AreNames texts.old }
    requires begun { lists.old.open_list ≡ [] }
    ensures adds { OnOk result (AddsNames texts.old texts.new) }
    ensures numbers { OnOk result (IsMade texts.new (item_names item.now) lists.old.ended lists.new) }
{
    match item {
        LocalInitializer::Import { name, ty: _ } => make_one(texts, lists, &name.name),
        LocalInitializer::ModuleInstantiate { module: _, args } => {
            make_all(texts, lists, args.as_slice())
        }
        LocalInitializer::ModuleSynthetic(items) => make_all(texts, lists, items.as_slice()),
        LocalInitializer::ComponentInstantiate {
            component: _,
            args,
            ty: _,
        } => make_all(texts, lists, args.as_slice()),
        LocalInitializer::ComponentSynthetic { exports, ty: _ } => {
            make_all(texts, lists, exports.as_slice())
        }
        LocalInitializer::AliasCoreExport {
            kind: _,
            instance: _,
            name,
        } => make_one(texts, lists, name),
        LocalInitializer::AliasComponentExport {
            kind: _,
            instance: _,
            name,
        } => make_one(texts, lists, name),
        _ => Ok(()),
    }
}

/// The numbers of the names in each of these items, which are added.
pub(crate) fn add_items(
    alloc: Global,
    texts: &mut Interner<Text>,
    items: &[LocalInitializer],
) -> Result<NumberLists, NoMemory>
    requires names { AreNames texts.old }
    ensures adds { OnOk result (AddsNames texts.old texts.new) }
    ensures numbers { IfOk result (λ lists. AreItemNumbers texts.new items.now lists.ended) }
{
    let mut lists = NumberLists::new(alloc);
    for item in items {
        make_item(texts, &mut lists, item)?;
        lists.end_list()?;
    }
    Ok(lists)
}

/// The numbers of the names of a body, which are added.
fn add_body(
    alloc: Global,
    texts: &mut Interner<Text>,
    body: &Translation,
) -> Result<BodyNumbers, NoMemory>
    requires names { AreNames texts.old }
    ensures adds { OnOk result (AddsNames texts.old texts.new) }
    ensures numbers { IfOk result (AreBodyNumbers texts.new body.now) }
{
    let items = add_items(alloc, texts, body.initializers.as_slice())?;
    let exports = add_all(alloc, texts, body.exports.as_slice())?;
    Ok(BodyNumbers { items, exports })
}

/// The numbers of the names of all bodies, which are added.
pub(crate) fn add_bodies(
    alloc: Global,
    texts: &mut Interner<Text>,
    bodies: &[Translation],
) -> Result<Seq<BodyNumbers>, NoMemory>
    requires names { AreNames texts.old }
    ensures adds { OnOk result (AddsNames texts.old texts.new) }
    ensures numbers { IfOk result (λ all. AllZip (AreBodyNumbers texts.new) bodies.now all) }
{
    let mut all = Seq::with_capacity(alloc, bodies.len())?;
    for body in bodies {
        all.push(add_body(alloc, texts, body)?)?;
    }
    Ok(all)
}
