//! What core modules import and export by the numbers of names.

ghost use Rattle.std.specs.Prelude.{◌++◌, ◌∷◌, ℕ, List, [], IfOk, OnOk};
ghost use Rattle.std.specs.List.{AllZip};
ghost use Rattle.pc_inline_names.specs.Numbers.{HasNumbers};
ghost use Rattle.pc_inline_names.specs.Tables.{AddsNames, AreNames, AreRecordNumbers, HasExports};

use crate::add::{add_imports, number_of};
use crate::atom_map::AtomMap;
use pc_entity::{Atom, EntityIndex, Interner, NoMemory, Seed, Seq, Text};
use pc_types::SharedRecord;
use std::alloc::Global;

/// The numbers of the names of all imports of some modules, which are added.
pub(crate) fn add_records(
    alloc: Global,
    texts: &mut Interner<Text>,
    records: &[SharedRecord],
) -> Result<Seq<Seq<(Atom, Atom)>>, NoMemory>
    requires names { AreNames texts.old }
    ensures adds { OnOk result (AddsNames texts.old texts.new) }
    ensures numbers { IfOk result (λ all. AllZip (AreRecordNumbers texts.new) records.now all) }
{
    let mut all = Seq::with_capacity(alloc, records.len())?;
    for record_ in records {
        all.push(add_imports(alloc, texts, record_.get().imports.as_slice())?)?;
    }
    Ok(all)
}

/// Puts an entity under the number of its name, unless that has one. A name that has no number is left out.
fn insert_value(
    numbered: &mut AtomMap<EntityIndex>,
    texts: &Interner<Text>,
    name: &Text,
    value: EntityIndex,
) -> Result<(), NoMemory>
    requires names { AreNames texts.now }
    ensures { OnOk result ((entries : List (List ℕ × EntityIndex)) → HasNumbers texts.now entries numbered.old
        → HasNumbers texts.now (entries ++ (name.now, value) ∷ []) numbered.new) }
{
    match number_of(texts, name) {
        Some(number) => numbered.insert_first(number, value),
        None => Ok(()),
    }
}

/// The first entity under each name that has a number, by these numbers.
fn numbered_values(
    alloc: Global,
    seed: Seed,
    texts: &Interner<Text>,
    exports: &[(Text, EntityIndex)],
) -> Result<AtomMap<EntityIndex>, NoMemory>
    requires names { AreNames texts.now }
    ensures { IfOk result (HasNumbers texts.now exports.now) }
{
    let mut numbered = AtomMap::new(alloc, seed);
    for export in exports {
        insert_value(&mut numbered, texts, &export.0, export.1)?;
    }
    Ok(numbered)
}

/// The exports of all modules by number. A name that nothing looks up has no number, and is left out.
pub(crate) fn numbered_exports(
    alloc: Global,
    seed: Seed,
    texts: &Interner<Text>,
    records: &[SharedRecord],
) -> Result<Seq<AtomMap<EntityIndex>>, NoMemory>
    requires names { AreNames texts.now }
    ensures { IfOk result (λ all. AllZip (HasExports texts.now) records.now all) }
{
    let mut all = Seq::with_capacity(alloc, records.len())?;
    for record_ in records {
        all.push(numbered_values(alloc, seed, texts, record_.get().exports.as_slice())?)?;
    }
    Ok(all)
}
