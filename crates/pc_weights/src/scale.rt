//! What the parts of items weigh.

ghost use Rattle.std.specs.Prelude.{◌≡◌, ◌≤◌, ◌+◌, ◌-◌, map, sum_by, IfOk};
ghost use Rattle.pc_spec_reading.specs.Section.{argument_of, named_item};
ghost use Rattle.pc_spec_reading.specs.Total.{argument_weight, entry_imports, export_weight, greatest, index_weight};
ghost use Rattle.pc_spec_reading.specs.Total.{most_imports, names_in, record_imports, type_weight, value_weight};
ghost use Rattle.pc_weights.specs.Scale.{IsScale};

use crate::names::{count_names, entity_names};
use pc_entity::{NoMemory, Text};
use pc_parsed::{ExternName, ItemKind};
use pc_types::{DeclType, Entity, SharedRecord, TypeTable, ValType};
use std::alloc::Global;

/// A type table and its core modules, with what would take a look through them for each item.
#[derive(Drop)]
pub(crate) struct Scale<'a> {
    pub table: &'a TypeTable,
    pub modules: &'a [SharedRecord],
    /// How many names stand in the tree of each entry of the table.
    pub names: Vec<u32>,
    /// How many imports a core module has at the most.
    pub most_imports: usize,
}

/// How many imports a module record has at the most.
fn most_of_records(modules: &[SharedRecord]) -> usize
    ensures { result ≡ greatest record_imports modules.now }
{
    let mut most: usize = 0;
    for record_ in modules {
        most = most.max(record_.get().imports.len());
    }
    most
}

/// How many imports an entry of the table has, if it is a module type.
fn entry_imports(entry: &DeclType) -> usize
    ensures { result ≡ entry_imports entry.now }
{
    match entry {
        DeclType::Module { imports, .. } => imports.len(),
        _ => 0,
    }
}

/// How many imports a module type has at the most.
fn most_of_types(types: &[DeclType]) -> usize
    ensures { result ≡ greatest entry_imports types.now }
{
    let mut most: usize = 0;
    for entry in types {
        most = most.max(entry_imports(entry));
    }
    most
}

/// How many imports a core module of the list or of the table has at the most.
fn most_imports(table: &TypeTable, modules: &[SharedRecord]) -> usize
    ensures { result ≡ most_imports table.now modules.now }
{
    most_of_records(modules).max(most_of_types(table.types.as_slice()))
}

/// Each function tells what is left of some room after what it is given.
impl<'a> Scale<'a> {
    pub fn new(
        alloc: Global,
        table: &'a TypeTable,
        modules: &'a [SharedRecord],
    ) -> Result<Scale<'a>, NoMemory>
        ensures scale { IfOk result (λ scale. IsScale scale) }
        ensures table { IfOk result (λ scale. scale.table.now ≡ table.now) }
        ensures modules { IfOk result (λ scale. scale.modules.now ≡ modules.now) }
    {
        let names = count_names(alloc, table)?;
        let most_imports = most_imports(table, modules);
        Ok(Scale {
            table,
            modules,
            names,
            most_imports,
        })
    }

    /// A type number.
    pub fn after_type(&self, room: usize) -> usize
        ensures { result ≡ room - type_weight self.now.table.now self.now.modules.now }
    {
        let types = self.table.types.len();
        room.saturating_sub(3)
            .saturating_sub(types)
            .saturating_sub(types)
            .saturating_sub(types)
    }

    /// An entity, with the names that stand in its exports.
    pub fn after_entity(&self, room: usize, entity: Entity) -> usize
        requires scale { IsScale self.now }
        requires room { room ≤ 4294967295 }
        ensures { result ≡ room - (type_weight self.now.table.now self.now.modules.now
            + names_in self.now.table.now self.now.modules.now entity) }
    {
        let names = entity_names(self.names.as_slice(), entity);
        self.after_type(room).saturating_sub(names as usize)
    }

    /// An index, which is a type number where its kind is a type.
    pub fn after_index(&self, room: usize, kind: ItemKind) -> usize
        ensures { result ≡ room - index_weight self.now.table.now self.now.modules.now kind }
    {
        match kind {
            ItemKind::Type_ => self.after_type(room),
            _ => room,
        }
    }

    /// A value type, which may be a type number.
    pub fn after_value(&self, room: usize, value: Option<ValType>) -> usize
        ensures { result ≡ room - value_weight self.now.table.now self.now.modules.now value }
    {
        match value {
            Some(ValType::Type_(_)) => self.after_type(room),
            Some(ValType::Prim(_)) | None => room,
        }
    }

    /// The arguments of an instantiation.
    pub fn after_arguments(&self, room: usize, args: &[(Text, ItemKind, u32)]) -> usize
        ensures { result ≡ room
            - sum_by (argument_weight self.now.table.now self.now.modules.now) (map argument_of args.now) }
    {
        let mut left = room;
        for arg in args {
            left = self.after_index(left.saturating_sub(1), arg.1);
        }
        left
    }

    /// The items of an instance from items.
    pub fn after_exports(&self, room: usize, exports: &[(ExternName, ItemKind, u32)]) -> usize
        ensures { result ≡ room
            - sum_by (export_weight self.now.table.now self.now.modules.now) (map named_item exports.now) }
    {
        let mut left = room;
        for export in exports {
            left = self.after_index(left.saturating_sub(1), export.1);
        }
        left
    }
}
