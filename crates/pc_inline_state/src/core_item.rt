//! What a core instance has under a name.

ghost use Rattle.std.specs.Prelude.{◌≡◌, ℕ, List, Some, option_and_then, IfErr, IfOk};
ghost use Rattle.std.specs.Option.{option_copied};
ghost use Rattle.pc_types.specs.declared.parsed.CoreEntity.{CoreEntity};
ghost use Rattle.pc_types.specs.declared.parsed.CoreKind.{CoreKind};
ghost use Rattle.pc_spec_plan.specs.CoreValue.{CoreValue};
ghost use Rattle.pc_parsed.specs.Mark.{Mark};
ghost use Rattle.pc_dfg.specs.declared.core_def.CoreDef.TheVariants as def;
ghost use Rattle.pc_info.specs.declared.core_def.ExportItem.TheVariants as item;
ghost use Rattle.pc_inline_state.specs.AddsEach.{AddsEach, nowhere};
ghost use Rattle.pc_inline_names.specs.Numbers.{IsNumber};
ghost use Rattle.pc_inline_state.specs.Bags.{entity_of_kind, export_item, known_of_kind, module_export};
ghost use Rattle.pc_inline_state.specs.Bags.{named_of_kind};
ghost use Rattle.pc_inline_state.specs.Found.{ArgumentStands, FoundThere, ItemFound};
ghost use Rattle.pc_inline_state.specs.Placed.{IsEntityItem, IsHostItem};
ghost use Rattle.pc_inline_state.specs.Points.{IsSoundState};
ghost use Rattle.pc_inline_state.specs.Prepares.{Prepares};
ghost use Rattle.pc_inline_state.specs.Refused.{LacksRoom};
ghost use Rattle.pc_inline_state.specs.Stands.{ItemStands};
ghost use Rattle.pc_inline_state.specs.Tables.{tables_of};

use crate::context::Context;
use crate::definition::CoreId;
use crate::entity_items::InstanceEntity;
use crate::error::ItemError;
use crate::frame::CoreInstance;
use crate::host_items::HostExport;
use crate::state::State;
use pc_dfg::{CoreDef, CoreExport, ExportItem, InstanceId};
use pc_entity::{Atom, EntityIndex, NoMemory, Text, TryClone};
use pc_inline_names::ProgramNames;
use pc_types::{CoreEntity, CoreKind, DeclType, TypeTable};
use std::alloc::Global;

/// An entity of a core instance that was made, what an instance of a host module exports at a place of its type, or a
/// core item of the table.
#[derive(Clone, Copy)]
pub enum CoreItem {
    Entity(InstanceId, EntityIndex),
    Named {
        instance: InstanceId,
        entry: u32,
        place: usize,
    },
    Known(CoreId),
}

/// An entity of a core instance as a definition.
fn entity_def(instance: InstanceId, entity: EntityIndex) -> CoreDef
    ensures { result ≡ def.Export (record { instance = instance; item = item.Index entity }) }
{
    CoreDef::Export(CoreExport {
        instance,
        item: ExportItem::Index(entity),
    })
}

/// An item of a core instance by its name as a definition.
fn named_def(
    alloc: Global,
    names: &ProgramNames<'_>,
    instance: InstanceId,
    entry: u32,
    place: usize,
) -> Result<CoreDef, NoMemory>
    requires there { (e : List ℕ × CoreEntity) × (module_export names.now.table entry place ≡ Some e) }
    ensures { IfOk result (λ d. (e : List ℕ × CoreEntity) → module_export names.now.table entry place ≡ Some e
        → d ≡ def.Export (record { instance = instance; item = item.Name e.0 })) }
{
    match names.module_name(entry, place) {
        Some(name) => Ok(CoreDef::Export(CoreExport {
            instance,
            item: ExportItem::Name(name.try_clone(alloc)?),
        })),
        None => unreachable!(),
    }
}

/// An export of an entry that is a module type, by its place.
pub(crate) fn module_export(
    table: &TypeTable,
    entry: u32,
    place: usize,
) -> Option<&(Text, CoreEntity)>
    ensures { option_copied result ≡ module_export table.now entry place }
{
    match table.entry(entry) {
        Some(DeclType::Module { exports, .. }) => exports.as_slice().get(place),
        _ => None,
    }
}

/// An entity of a core instance, if it is there and of a kind.
fn entity_of_kind(
    instance: InstanceId,
    kind: CoreKind,
    entity: Option<EntityIndex>,
) -> Option<CoreItem>
    ensures { result ≡ option_and_then (entity_of_kind instance kind) entity }
{
    let entity = entity?;
    if kind.is(CoreKind::of(entity)) {
        Some(CoreItem::Entity(instance, entity))
    } else {
        None
    }
}

/// An export of a host module by its place, if it is of a kind.
fn named_of_kind(
    table: &TypeTable,
    instance: InstanceId,
    entry: u32,
    kind: CoreKind,
    place: usize,
) -> Option<CoreItem>
    ensures { result ≡ named_of_kind table.now instance entry kind place }
{
    let export = module_export(table, entry, place)?;
    if kind.is(export.1.kind()) {
        Some(CoreItem::Named {
            instance,
            entry,
            place,
        })
    } else {
        None
    }
}

/// An item of a bag, if it is of a kind.
fn known_of_kind(kind: CoreKind, item: (CoreKind, CoreId)) -> Option<CoreItem>
    ensures { result ≡ known_of_kind kind item }
{
    if kind.is(item.0) {
        Some(CoreItem::Known(item.1))
    } else {
        None
    }
}

impl<'a> Context<'a> {
    /// What a core instance has under the name of a number, if it is of a kind.
    pub fn export(
        &self,
        names: &ProgramNames<'_>,
        instance: &CoreInstance,
        kind: CoreKind,
        number: Atom,
    ) -> Option<CoreItem>
        requires modules { names.now.modules ≡ self.now.modules }
        requires table { names.now.table ≡ self.now.table.now }
        ensures { (name : List ℕ) → IsNumber names.now.texts number name
            → result ≡ export_item self.now.table.now self.now.modules kind number name instance.now }
    {
        match instance {
            CoreInstance::Made {
                instance,
                core_module,
            } => {
                let entity = names.module_export(*core_module, number);
                entity_of_kind(*instance, kind, entity)
            }
            CoreInstance::Host { instance, entry } => {
                let place = names.type_export(*entry, number)?;
                named_of_kind(self.table, *instance, *entry, kind, place)
            }
            CoreInstance::Bag(items) => known_of_kind(kind, *items.get(number)?),
        }
    }

    /// The definition of what was found.
    pub fn found_def(&self, state: &State<'_>, item: CoreItem) -> Result<CoreDef, NoMemory>
        requires table { state.now.table.now ≡ self.now.table.now }
        requires names { state.now.names.now.table ≡ self.now.table.now }
        requires there { FoundThere self.now.modules (tables_of state.now) item }
        ensures { IfOk result (λ d. (k : CoreKind) (v : CoreValue Mark)
            → ItemFound self.now.modules (tables_of state.now) k item v
            → ArgumentStands self.now.modules (tables_of state.now) d v) }
    {
        match item {
            CoreItem::Entity(instance, entity) => Ok(entity_def(instance, entity)),
            CoreItem::Named {
                instance,
                entry,
                place,
            } => named_def(self.alloc, state.names, instance, entry, place),
            CoreItem::Known(id) => state.cores[id].try_clone(self.alloc),
        }
    }

    /// The number of what was found in the table of core items. An item of a core instance is there once, however often
    /// it is found: adapters over two aliases of one item are over one core item.
    pub fn found_id(&self, state: &mut State<'_>, item: CoreItem) -> Result<CoreId, ItemError>
        requires sound { IsSoundState self.now.table.now self.now.modules state.old }
        requires there { FoundThere self.now.modules (tables_of state.old) item }
        ensures prepares { Prepares self.now.table.now self.now.modules state.old state.new }
        ensures adds { AddsEach nowhere 1 0 (tables_of state.old) (tables_of state.new) }
        ensures id { IfOk result (λ id. (k : CoreKind) (v : CoreValue Mark)
            → ItemFound self.now.modules (tables_of state.old) k item v
            → ItemStands self.now.modules (tables_of state.new) k id v) }
        ensures err { IfErr result (LacksRoom state.new) }
    {
        match item {
            CoreItem::Entity(instance, entity) => {
                self.entity_item(state, InstanceEntity { instance, entity })
            }
            CoreItem::Named {
                instance,
                entry,
                place,
            } => self.host_item(
                state,
                HostExport {
                    instance,
                    entry,
                    place,
                },
            ),
            CoreItem::Known(id) => Ok(id),
        }
    }

    /// The core item that stands for an entity of a core instance, which is made the first time.
    fn entity_item(
        &self,
        state: &mut State<'_>,
        entity: InstanceEntity,
    ) -> Result<CoreId, ItemError>
        requires sound { IsSoundState self.now.table.now self.now.modules state.old }
        ensures prepares { Prepares self.now.table.now self.now.modules state.old state.new }
        ensures adds { AddsEach nowhere 1 0 (tables_of state.old) (tables_of state.new) }
        ensures rest { state.new ≡ record state.old { cores = state.new.cores; places = state.new.places } }
        ensures item { IfOk result (IsEntityItem state.new entity) }
        ensures err { IfErr result (LacksRoom state.new) }
    {
        if let Some(id) = state.places.entity_items.get(entity) {
            return Ok(id);
        }
        let id = state.push_core(entity_def(entity.instance, entity.entity))?;
        state.places.entity_items.insert(entity, id)?;
        Ok(id)
    }

    /// The core item that stands for an export of a host module, which is made the first time.
    fn host_item(&self, state: &mut State<'_>, export: HostExport) -> Result<CoreId, ItemError>
        requires sound { IsSoundState self.now.table.now self.now.modules state.old }
        requires there { (e : List ℕ × CoreEntity)
            × (module_export self.now.table.now export.entry export.place ≡ Some e) }
        ensures prepares { Prepares self.now.table.now self.now.modules state.old state.new }
        ensures adds { AddsEach nowhere 1 0 (tables_of state.old) (tables_of state.new) }
        ensures rest { state.new ≡ record state.old { cores = state.new.cores; places = state.new.places } }
        ensures item { IfOk result (IsHostItem self.now.table.now self.now.modules state.new export) }
        ensures err { IfErr result (LacksRoom state.new) }
    {
        if let Some(id) = state.places.host_items.get(export) {
            return Ok(id);
        }
        let def = named_def(
            self.alloc,
            state.names,
            export.instance,
            export.entry,
            export.place,
        )?;
        let id = state.push_core(def)?;
        state.places.host_items.insert(export, id)?;
        Ok(id)
    }
}
