//! The names of a program, each with a number.

ghost use Rattle.std.specs.Prelude.{◌≡◌, ℕ, List, IfOk, OnOk, Some, map, option_and_then, slice_get};
ghost use Rattle.std.specs.Option.{option_copied};
ghost use Rattle.pc_entity.specs.declared.string_pool.Atom.{Atom};
ghost use Rattle.pc_entity.specs.Lists.{AreDistinct};
ghost use Rattle.pc_types.specs.declared.module_record.ModuleRecord.{ModuleRecord};
ghost use Rattle.pc_types.specs.Record.{export_of};
ghost use Rattle.pc_types_walk.specs.Names.{export_names, export_place};
ghost use Rattle.pc_local.specs.declared.item.LocalInitializer.{LocalInitializer};
ghost use Rattle.pc_local.specs.declared.item.Translation.{Translation};
ghost use Rattle.pc_local.specs.Sound.{export_name};
ghost use Rattle.pc_inline_names.specs.Both.{Both};
ghost use Rattle.pc_inline_names.specs.Named.{body_at, imports_of, item_names, module_names, nested_at};
ghost use Rattle.pc_inline_names.specs.Numbers.{AreImportNumbers, AreNumbersOf, IsNumber};
ghost use Rattle.pc_inline_names.specs.Tables.{AreBodyNumbers, AreItemNumbers, AreNames, AreTables, EntryHas};

use crate::add::number_of;
use crate::atom_map::AtomMap;
use crate::bodies::{BodyNumbers, add_bodies, add_items};
use crate::modules::{add_records, numbered_exports};
use crate::number_lists::NumberLists;
use crate::types::{EntryNumbers, TypeNumbers, add_types};
use pc_entity::{
    Atom, EntityIndex, HashedText, Interner, NoMemory, Seed, Seq, StaticComponentIndex,
    StaticModuleIndex, Text,
};
use pc_local::LocalProgram;
use pc_types::TypeTable;
use std::alloc::Global;
use std::marker::Model;

/// What is kept by the numbers of names.
pub(crate) struct NameTables {
    /// The numbers of the two names of each import of each core module.
    pub(crate) imports: Seq<Seq<(Atom, Atom)>>,
    /// The exports of each core module.
    pub(crate) exports: Seq<AtomMap<EntityIndex>>,
    /// The numbers of each entry of the type table.
    pub(crate) types: Seq<EntryNumbers>,
    /// Those of each item of the root. Its exports are read once, by text.
    pub(crate) root: NumberLists,
    /// Those of each nested body.
    pub(crate) bodies: Seq<BodyNumbers>,
}

/// The names of a program by number, and the numbers of the names of each item, module and type. A contract sees the
/// names in the order of their numbers, and the program and the table that they are of.
#[derive(Drop)]
pub struct ProgramNames<'a> {
    texts: Interner<Text>,
    program: &'a LocalProgram,
    table: &'a TypeTable,
    tables: NameTables,
}

// By hand, since a derived drop of so many lists is proved anew, and slowly, in each function that lets them go.
impl Drop for NameTables {
    fn drop(self) {
        let NameTables {
            imports,
            exports,
            types,
            root,
            bodies,
        } = self;
        drop_modules(imports, exports);
        drop_types(types);
        drop_bodies(root, bodies);
    }
}

fn drop_modules(_imports: Seq<Seq<(Atom, Atom)>>, _exports: Seq<AtomMap<EntityIndex>>) {}

fn drop_types(_types: Seq<EntryNumbers>) {}

fn drop_bodies(_root: NumberLists, _bodies: Seq<BodyNumbers>) {}

impl<'a> Model for ProgramNames<'a> {
    ghost use Rattle.pc_inline_names.specs.Named.{Named};

    ghost Value = { Named };

    ghost use Rattle.pc_inline_names.specs.Tables.{AreNames, AreTables};

    ghost view = { λ s. record {
      texts = s.texts;
      modules = s.program.now.modules;
      table = s.table.now;
      root = s.program.now.root;
      bodies = s.program.now.components;
    } };

    ghost invariant = { λ s. AreNames s.texts × AreTables s.texts s.program.now s.table.now s.tables };
}

/// The numbers of all names of a program and its type table, which are added.
fn add_program(
    alloc: Global,
    seed: Seed,
    texts: &mut Interner<Text>,
    table: &TypeTable,
    program: &LocalProgram,
) -> Result<NameTables, NoMemory>
    requires names { AreNames texts.old }
    ensures names { OnOk result (AreNames texts.new) }
    ensures tables { IfOk result (AreTables texts.new program.now table.now) }
{
    let imports = add_records(alloc, texts, program.modules.as_slice())?;
    let types = add_types(alloc, seed, texts, table.types.as_slice())?;
    let root = add_items(alloc, texts, program.root.initializers.as_slice())?;
    let bodies = add_bodies(alloc, texts, program.components.as_slice())?;
    let exports = numbered_exports(alloc, seed, texts, program.modules.as_slice())?;
    Ok(NameTables {
        imports,
        exports,
        types,
        root,
        bodies,
    })
}

/// What a list has at a place.
fn at<T>(items: &[T], place: usize) -> Option<&T>
    ensures { option_copied result ≡ slice_get items.now place }
{
    items.get(place)
}

/// What a list of lists has at a place, or nothing.
fn list_at(lists: &NumberLists, place: usize) -> &[Atom]
    ensures { (ns : List Atom) → slice_get lists.now.ended place ≡ Some ns → result.now ≡ ns }
{
    match lists.get(place) {
        Some(numbers) => numbers,
        None => &[],
    }
}

impl<'a> ProgramNames<'a> {
    /// The names of a program and of its type table, in one pass over each, in which each name is hashed once. The one
    /// refusal is that memory ran out; more than 4294967295 distinct names, or names in the items of one body, count as
    /// that.
    pub fn new(
        alloc: Global,
        seed: Seed,
        table: &'a TypeTable,
        program: &'a LocalProgram,
    ) -> Result<ProgramNames<'a>, NoMemory>
        ensures table { IfOk result (λ n. n.table ≡ table.now) }
        ensures modules { IfOk result (λ n. n.modules ≡ program.now.modules) }
        ensures root { IfOk result (λ n. n.root ≡ program.now.root) }
        ensures bodies { IfOk result (λ n. n.bodies ≡ program.now.components) }
    {
        let mut texts = Interner::new(alloc, seed);
        let tables = add_program(alloc, seed, &mut texts, table, program)?;
        Ok(ProgramNames {
            texts,
            program,
            table,
            tables,
        })
    }

    /// No two names are equal.
    pub fn are_distinct(&self)
        ensures { AreDistinct self.now.texts }
    {
        let _texts = &self.texts;
    }

    /// The names, in the order of their numbers.
    pub fn texts(&self) -> &Interner<Text>
        ensures { result.now ≡ self.now.texts }
    {
        &self.texts
    }

    /// The name of a number.
    pub fn text(&self, number: Atom) -> Option<&Text>
        ensures { option_copied result ≡ slice_get self.now.texts number.0 }
    {
        self.texts.get(number.0)
    }

    /// The numbers of a nested body.
    fn nested(&self, body: Option<StaticComponentIndex>) -> Option<&BodyNumbers>
        ensures { Both (AreBodyNumbers self.now.texts) (nested_at self.now.bodies body) (option_copied result) }
    {
        match body {
            Some(body) => at(self.tables.bodies.as_slice(), body.0 as usize),
            None => None,
        }
    }

    /// The numbers of the items of a body; of the root where there is none of this number.
    fn lists(&self, body: Option<StaticComponentIndex>) -> &NumberLists
        ensures { AreItemNumbers self.now.texts (body_at self.now.bodies self.now.root body).initializers
            result.now.ended }
    {
        match self.nested(body) {
            Some(numbers) => &numbers.items,
            None => &self.tables.root,
        }
    }

    /// The numbers of an entry of the type table, if it has names.
    fn entry(&self, entry: u32) -> Option<&TypeNumbers>
        ensures { EntryHas self.now.texts (slice_get self.now.table.types entry) (option_copied result) }
    {
        match at(self.tables.types.as_slice(), entry as usize) {
            Some(numbers) => numbers.get(),
            None => None,
        }
    }

    /// The numbers of the names in an item of a body; of the root where there is none of this number.
    pub fn item(&self, body: Option<StaticComponentIndex>, item: usize) -> &[Atom]
        ensures { (l : LocalInitializer)
            → slice_get (body_at self.now.bodies self.now.root body).initializers item ≡ Some l
            → AreNumbersOf self.now.texts (item_names l) result.now }
    {
        list_at(self.lists(body), item)
    }

    /// The numbers of the names of the exports of a nested body, in order. For the root there are none.
    pub fn body_exports(&self, body: Option<StaticComponentIndex>) -> &[Atom]
        ensures { (tr : Translation) → nested_at self.now.bodies body ≡ Some tr
            → AreNumbersOf self.now.texts (map export_name tr.exports) result.now }
    {
        match self.nested(body) {
            Some(numbers) => numbers.exports.as_slice(),
            None => &[],
        }
    }

    /// The numbers of the module name and of the name of each import of a core module, in order.
    pub fn module_imports(&self, core_module: StaticModuleIndex) -> Option<&Seq<(Atom, Atom)>>
        ensures { Both (λ (r : ModuleRecord) ns. AreImportNumbers self.now.texts r.imports ns)
            (slice_get self.now.modules core_module.0) (option_copied result) }
    {
        at(self.tables.imports.as_slice(), core_module.0 as usize)
    }

    /// The entity that a core module exports under the name of a number.
    pub fn module_export(&self, core_module: StaticModuleIndex, number: Atom) -> Option<EntityIndex>
        ensures { (name : List ℕ) → IsNumber self.now.texts number name
            → result ≡ option_and_then (λ r. export_of r name) (slice_get self.now.modules core_module.0) }
    {
        match at(self.tables.exports.as_slice(), core_module.0 as usize) {
            Some(exports) => exports.get(number).copied(),
            None => None,
        }
    }

    /// The numbers of the two names of each import of a module type, in order.
    pub fn type_imports(&self, entry: u32) -> Option<&Seq<(Atom, Atom)>>
        ensures { Both (AreImportNumbers self.now.texts)
            (option_and_then imports_of (slice_get self.now.table.types entry)) (option_copied result) }
    {
        match self.entry(entry) {
            Some(numbers) => numbers.imports.as_ref(),
            None => None,
        }
    }

    /// The place of the export of a type that has the name of a number, if there is one: the first of them.
    pub fn type_export(&self, entry: u32, number: Atom) -> Option<usize>
        ensures { (name : List ℕ) → IsNumber self.now.texts number name
            → result ≡ export_place self.now.table entry name }
    {
        self.are_distinct();
        match self.entry(entry) {
            Some(numbers) => numbers.places.get(number).copied(),
            None => None,
        }
    }

    /// The number of the name of an export of a type, by the place of the export.
    pub fn export_number(&self, entry: u32, place: usize) -> Option<Atom>
        ensures { Both (λ name n. IsNumber self.now.texts n name)
            (option_and_then (λ e. slice_get (export_names e) place) (slice_get self.now.table.types entry)) result }
    {
        match self.entry(entry) {
            Some(numbers) => at(numbers.exports.as_slice(), place).copied(),
            None => None,
        }
    }

    /// The name of an export of a module type, by the place of the export.
    pub fn module_name(&self, entry: u32, place: usize) -> Option<&HashedText>
        ensures { option_copied result
            ≡ option_and_then (λ e. slice_get (module_names e) place) (slice_get self.now.table.types entry) }
    {
        match self.entry(entry) {
            Some(numbers) => at(numbers.names.as_slice(), place),
            None => None,
        }
    }

    /// The place of the export of a type under a name, if there is one: the first of them. The name is hashed; where
    /// its number is known, `type_export` costs the same however long the name is.
    pub fn place(&self, entry: u32, name: &Text) -> Option<usize>
        ensures { result ≡ export_place self.now.table entry name.now }
    {
        match number_of(&self.texts, name) {
            Some(number) => self.type_export(entry, number),
            None => None,
        }
    }
}
