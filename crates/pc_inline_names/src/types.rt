//! The names of instance types and module types by number: at which place among the exports a name stands, which name
//! stands at a place, and what a module type imports.
//!
//! Most entries of a table have no names that anything looks up, so such an entry takes one word.

ghost use Rattle.std.specs.Prelude.{◌≡◌, None, Some, IfOk, OnOk};
ghost use Rattle.std.specs.List.{AllZip};
ghost use Rattle.std.specs.Option.{option_copied};
ghost use Rattle.pc_entity.specs.declared.string_pool.Atom.{Atom};
ghost use Rattle.pc_entity.specs.Lists.{names_of};
ghost use Rattle.pc_inline_names.specs.Numbers.{numbered_value};
ghost use Rattle.pc_inline_names.specs.Tables.{AddsNames, AreNames, AreTypeNumbers, number_place};

use crate::add::{add_all, add_imports};
use crate::atom_map::AtomMap;
use pc_entity::{Atom, HashedText, Interner, NoMemory, Seed, Seq, Text};
use pc_types::{CoreEntity, DeclType};
use std::alloc::Global;
use std::marker::Model;

/// The numbers of the names of an instance type or a module type.
#[derive(Drop)]
pub(crate) struct TypeNumbers {
    /// Those of its exports, in order.
    pub(crate) exports: Seq<Atom>,
    /// The first place of each of them.
    pub(crate) places: AtomMap<usize>,
    /// The numbers of the two names of each import, of a module type.
    pub(crate) imports: Option<Seq<(Atom, Atom)>>,
    /// The names of its exports, of a module type: definitions of core items have them.
    pub(crate) names: Seq<HashedText>,
}

/// The numbers of the names of an entry, behind a pointer, or none. A contract sees the numbers.
#[derive(Drop)]
pub(crate) struct EntryNumbers {
    numbers: Option<Box<TypeNumbers>>,
}

impl Model for EntryNumbers {
    ghost use Rattle.std.specs.Prelude.{Option, option_map};
    ghost use Rattle.pc_inline_names.specs.declared.types.TypeNumbers.{TypeNumbers};

    ghost Value = { Option TypeNumbers };

    ghost view = { λ s. option_map (λ b. b.value) s.numbers };
}

impl EntryNumbers {
    /// Those of an entry without names.
    fn none() -> EntryNumbers
        ensures { result ≡ None }
    {
        EntryNumbers { numbers: None }
    }

    /// These.
    fn of(alloc: Global, numbers: TypeNumbers) -> Result<EntryNumbers, NoMemory>
        ensures { IfOk result (λ made. made ≡ Some numbers) }
    {
        Ok(EntryNumbers {
            numbers: Some(Box::new(alloc, numbers)?),
        })
    }

    /// The numbers, if the entry has names.
    pub(crate) fn get(&self) -> Option<&TypeNumbers>
        ensures { option_copied result ≡ self.now }
    {
        match &self.numbers {
            Some(numbers) => Some(&**numbers),
            None => None,
        }
    }
}

/// The first place of each number.
fn first_places(alloc: Global, seed: Seed, numbers: &[Atom]) -> Result<AtomMap<usize>, NoMemory>
    ensures { IfOk result (λ places. (n : Atom) → numbered_value n places ≡ number_place 0 n numbers.now) }
{
    let mut places = AtomMap::new(alloc, seed);
    for (place, number) in numbers.iter().enumerate() {
        places.insert_first(*number, place)?;
    }
    Ok(places)
}

/// The names of the exports of a module type, each with its hash.
fn hashed_names(alloc: Global, exports: &[(Text, CoreEntity)]) -> Result<Seq<HashedText>, NoMemory>
    ensures { IfOk result (λ names. names ≡ names_of exports.now) }
{
    let mut names = Seq::with_capacity(alloc, exports.len())?;
    for export in exports {
        names.push(HashedText::new(alloc, export.0.share()?)?)?;
    }
    Ok(names)
}

/// The numbers of a type with these exports, imports and names.
fn with_places(
    alloc: Global,
    seed: Seed,
    exports: Seq<Atom>,
    imports: Option<Seq<(Atom, Atom)>>,
    names: Seq<HashedText>,
) -> Result<TypeNumbers, NoMemory>
    ensures exports { IfOk result (λ x. x.exports ≡ exports) }
    ensures places { IfOk result (λ x. (n : Atom) → numbered_value n x.places ≡ number_place 0 n exports) }
    ensures imports { IfOk result (λ x. x.imports ≡ imports) }
    ensures names { IfOk result (λ x. x.names ≡ names) }
{
    let places = first_places(alloc, seed, exports.as_slice())?;
    Ok(TypeNumbers {
        exports,
        places,
        imports,
        names,
    })
}

/// The numbers of the names of an entry, which are added.
fn add_type(
    alloc: Global,
    seed: Seed,
    texts: &mut Interner<Text>,
    entry: &DeclType,
) -> Result<EntryNumbers, NoMemory>
    requires names { AreNames texts.old }
    ensures adds { OnOk result (AddsNames texts.old texts.new) }
    ensures numbers { IfOk result (AreTypeNumbers texts.new entry.now) }
{
    match entry {
        DeclType::Instance { exports } => {
            let exports = add_all(alloc, texts, exports.as_slice())?;
            let names = Seq::new(alloc);
            EntryNumbers::of(alloc, with_places(alloc, seed, exports, None, names)?)
        }
        DeclType::Module { imports, exports } => {
            let imports = add_imports(alloc, texts, imports.as_slice())?;
            let names = hashed_names(alloc, exports.as_slice())?;
            let exports = add_all(alloc, texts, exports.as_slice())?;
            EntryNumbers::of(
                alloc,
                with_places(alloc, seed, exports, Some(imports), names)?,
            )
        }
        _ => Ok(EntryNumbers::none()),
    }
}

/// The numbers of the names of all entries, which are added.
pub(crate) fn add_types(
    alloc: Global,
    seed: Seed,
    texts: &mut Interner<Text>,
    entries: &[DeclType],
) -> Result<Seq<EntryNumbers>, NoMemory>
    requires names { AreNames texts.old }
    ensures adds { OnOk result (AddsNames texts.old texts.new) }
    ensures numbers { IfOk result (λ all. AllZip (AreTypeNumbers texts.new) entries.now all) }
{
    let mut all = Seq::with_capacity(alloc, entries.len())?;
    for entry in entries {
        all.push(add_type(alloc, seed, texts, entry)?)?;
    }
    Ok(all)
}
