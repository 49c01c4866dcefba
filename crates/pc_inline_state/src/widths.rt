//! Whether memories have 64 bits.

ghost use Rattle.std.specs.Prelude.{◌≡◌, ℕ, List, Some, option_and_then, slice_get, IfSome};
ghost use Rattle.pc_types.specs.declared.parsed.CoreEntity.{CoreEntity};
ghost use Rattle.pc_types.specs.Record.{width_in};
ghost use Rattle.pc_types_walk.specs.Names.{export_place};
ghost use Rattle.pc_info.specs.declared.core_def.ExportItem.TheVariants as item;
ghost use Rattle.pc_dfg.specs.declared.core_def.CoreDef.TheVariants as def;
ghost use Rattle.pc_dfg.specs.declared.ids.InstanceId.{InstanceId};
ghost use Rattle.pc_dfg.specs.Numbers.{memory_def};
ghost use Rattle.pc_inline_names.specs.Numbers.{IsNumber};
ghost use Rattle.pc_inline_state.specs.Bags.{module_export};
ghost use Rattle.pc_inline_state.specs.Instances.{is_wide_in, is_wide_named};
ghost use Rattle.pc_inline_state.specs.Placed.{ArePlaced};

use crate::context::Context;
use crate::core_item::module_export;
use crate::definition::CoreId;
use crate::instance_module::InstanceModule;
use crate::state::State;
use pc_dfg::ExportItem;
use pc_entity::{Atom, HashedText, MemoryIndex};
use pc_types::TypeTable;

/// Whether an export of an entry that is a module type, by its place, is a 64-bit memory, if it is a memory.
fn placed_memory64(table: &TypeTable, entry: u32, place: usize) -> Option<bool>
    ensures { result ≡ option_and_then (λ (e : List ℕ × CoreEntity). width_in e.1)
        (module_export table.now entry place) }
{
    match module_export(table, entry, place) {
        Some(export) => export.1.memory64(),
        None => None,
    }
}

/// The number of the name of a core item that was made of an export of this entry. It is found without a look at the
/// name.
fn name_number(context: &Context<'_>, state: &State<'_>, id: CoreId, entry: u32) -> Option<Atom>
    requires table { state.now.names.now.table ≡ context.now.table.now }
    requires placed { ArePlaced context.now.table.now context.now.modules state.now }
    ensures { IfSome result (λ n. (i : InstanceId) (name : List ℕ)
        → slice_get state.now.cores id.0 ≡ Some (def.Export (record { instance = i; item = item.Name name }))
        → IsNumber state.now.names.now.texts n name) }
{
    let export = state.places.host_items.export_of(id)?;
    if export.entry != entry {
        return None;
    }
    state.names.export_number(entry, export.place)
}

impl<'a> Context<'a> {
    /// The place among the exports of an entry at which the name of a core item stands.
    fn named_place(
        &self,
        state: &State<'_>,
        id: CoreId,
        entry: u32,
        name: &HashedText,
    ) -> Option<usize>
        requires table { state.now.names.now.table ≡ self.now.table.now }
        requires placed { ArePlaced self.now.table.now self.now.modules state.now }
        requires held { (i : InstanceId) × (slice_get state.now.cores id.0
            ≡ Some (def.Export (record { instance = i; item = item.Name name.now }))) }
        ensures { result ≡ export_place self.now.table.now entry name.now }
    {
        match name_number(self, state, id, entry) {
            Some(number) => state.names.type_export(entry, number),
            None => state.names.place(entry, name.text()),
        }
    }

    /// Whether a core item that is an export of an entry that is a module type is a 64-bit memory, if it is a memory.
    fn named_memory64(
        &self,
        state: &State<'_>,
        id: CoreId,
        entry: u32,
        name: &HashedText,
    ) -> Option<bool>
        requires table { state.now.names.now.table ≡ self.now.table.now }
        requires placed { ArePlaced self.now.table.now self.now.modules state.now }
        requires held { (i : InstanceId) × (slice_get state.now.cores id.0
            ≡ Some (def.Export (record { instance = i; item = item.Name name.now }))) }
        ensures { result ≡ option_and_then (is_wide_named name.now) (slice_get self.now.table.now.types entry) }
    {
        match self.named_place(state, id, entry, name) {
            Some(place) => placed_memory64(self.table, entry, place),
            None => None,
        }
    }

    /// Whether a core item, which is this item of an instance of a module, is a 64-bit memory.
    pub fn is_wide(
        &self,
        state: &State<'_>,
        id: CoreId,
        instance_module: InstanceModule,
        item: &ExportItem<MemoryIndex>,
    ) -> bool
        requires table { state.now.names.now.table ≡ self.now.table.now }
        requires placed { ArePlaced self.now.table.now self.now.modules state.now }
        requires held { (i : InstanceId) × (slice_get state.now.cores id.0
            ≡ Some (memory_def (record { instance = i; item = item.now }))) }
        ensures { result ≡ is_wide_in self.now.table.now self.now.modules instance_module item.now }
    {
        match instance_module {
            InstanceModule::Static(core_module) => match item {
                ExportItem::Index(memory) => {
                    self.modules.memory64(core_module, *memory).unwrap_or(false)
                }
                ExportItem::Name(_) => false,
            },
            InstanceModule::Import(entry) => match item {
                ExportItem::Index(_) => false,
                ExportItem::Name(name) => {
                    self.named_memory64(state, id, entry, name).unwrap_or(false)
                }
            },
        }
    }
}
