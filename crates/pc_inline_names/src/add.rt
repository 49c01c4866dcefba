//! How names get their numbers: each is added unless it is held, and names that are held keep theirs.

ghost use Rattle.std.specs.Prelude.{◌≡◌, ◌≤◌, ℕ, List, length, map, Contains, IfNone, IfOk, IfSome, OnOk};
ghost use Rattle.pc_inline_names.specs.Named.{argument_name};
ghost use Rattle.pc_inline_names.specs.Numbers.{AreImportNumbers, AreNumbersOf, IsNumber};
ghost use Rattle.pc_inline_names.specs.Tables.{AddsNames, AreNames};
ghost use Rattle.pc_local.specs.Sound.{export_name};

use pc_entity::{Atom, Interner, NoMemory, Seq, Text};
use pc_parsed::{ExternName, ItemKind};
use pc_types::CoreEntity;
use std::alloc::Global;

/// An entry of a list that stands there under a name.
pub(crate) trait HasName {
    // The name.
    ghost name_of: { Self → List ℕ };

    fn name(&self) -> &Text
        ensures { result.now ≡ name_of self.now };
}

impl<V> HasName for (Text, V) {
    ghost name_of = { λ e. e.0 };

    fn name(&self) -> &Text {
        &self.0
    }
}

impl HasName for (Text, ItemKind, u32) {
    ghost name_of = { argument_name };

    fn name(&self) -> &Text {
        &self.0
    }
}

impl HasName for (ExternName, ItemKind, u32) {
    ghost name_of = { export_name };

    fn name(&self) -> &Text {
        &self.0.name
    }
}

/// The number of a name, if it has one.
pub(crate) fn number_of(texts: &Interner<Text>, name: &Text) -> Option<Atom>
    requires few { length texts.now ≤ 4294967295 }
    ensures held { IfSome result (λ n. IsNumber texts.now n name.now) }
    ensures absent { IfNone result (¬ Contains texts.now name.now) }
{
    Some(Atom(texts.find(name)?))
}

/// The number of a name, which is added unless it is held. Where all numbers are taken, memory for more is wanting.
pub(crate) fn add_name(texts: &mut Interner<Text>, name: &Text) -> Result<Atom, NoMemory>
    ensures adds { OnOk result (AddsNames texts.old texts.new) }
    ensures number { IfOk result (λ n. IsNumber texts.new n name.now) }
{
    if texts.len() >= u32::MAX as usize {
        return Err(NoMemory);
    }
    Ok(Atom(texts.push(name.share()?)?))
}

/// The numbers of the names of some entries, which are added.
pub(crate) fn add_all<T: HasName>(
    alloc: Global,
    texts: &mut Interner<Text>,
    entries: &[T],
) -> Result<Seq<Atom>, NoMemory>
    requires names { AreNames texts.old }
    ensures adds { OnOk result (AddsNames texts.old texts.new) }
    ensures numbers { IfOk result (AreNumbersOf texts.new (map T.name_of entries.now)) }
{
    let mut numbers = Seq::with_capacity(alloc, entries.len())?;
    for entry in entries {
        numbers.push(add_name(texts, entry.name())?)?;
    }
    Ok(numbers)
}

/// The numbers of the module name and of the name of some imports, which are added.
pub(crate) fn add_imports(
    alloc: Global,
    texts: &mut Interner<Text>,
    imports: &[(Text, Text, CoreEntity)],
) -> Result<Seq<(Atom, Atom)>, NoMemory>
    requires names { AreNames texts.old }
    ensures adds { OnOk result (AddsNames texts.old texts.new) }
    ensures numbers { IfOk result (AreImportNumbers texts.new imports.now) }
{
    let mut numbers = Seq::with_capacity(alloc, imports.len())?;
    for import in imports {
        let of_module = add_name(texts, &import.0)?;
        let of_name = add_name(texts, &import.1)?;
        numbers.push((of_module, of_name))?;
    }
    Ok(numbers)
}
