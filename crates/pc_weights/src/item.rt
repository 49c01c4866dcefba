//! What local items weigh: as the items of the reading that they stand for.

ghost use Rattle.std.specs.Prelude.{◌≡◌, ◌≤◌, ◌+◌, ◌-◌, List};
ghost use Rattle.pc_types.specs.declared.module_record.ModuleRecord.{ModuleRecord};
ghost use Rattle.pc_types.specs.declared.parsed.TypeTable.{TypeTable};
ghost use Rattle.pc_spec_reading.specs.Canonical.{canonical_item};
ghost use Rattle.pc_spec_reading.specs.Total.{names_in, type_weight};
ghost use Rattle.pc_local.specs.Plain.{if_builtin, if_error_context};
ghost use Rattle.pc_weights.specs.Capped.{capped};
ghost use Rattle.pc_weights.specs.Local.{added_if, body_sum, local_weight, prepared_local, prepared_sum};
ghost use Rattle.pc_weights.specs.Scale.{IsScale};

use crate::FULL;
use crate::scale::Scale;
use pc_local::LocalInitializer;
use pc_parsed::CanonItem;
use pc_types::Entity;

/// What is left of some room after a builtin on error contexts.
#[tactic(auto, unfolding(pc_spec_reading::specs::Canonical::canonical_item))]
fn after_error_context(room: usize, canon: &CanonItem) -> usize
    ensures { (t : TypeTable) (ms : List ModuleRecord)
        → result ≡ room - added_if t ms (if_error_context (canonical_item canon.now)) }
{
    match canon {
        CanonItem::ErrorContextNew(_, opts) => room.saturating_sub(opts.len()),
        CanonItem::ErrorContextDebugMessage(_, opts) => room.saturating_sub(opts.len()),
        _ => room,
    }
}

impl<'a> Scale<'a> {
    /// What is left of some room after a builtin of no kind of its own.
    #[tactic(auto, unfolding(pc_spec_reading::specs::Canonical::canonical_item))]
    fn after_builtin(&self, room: usize, canon: &CanonItem) -> usize
        ensures { result ≡ room - added_if self.now.table.now self.now.modules.now
            (if_builtin (canonical_item canon.now)) }
    {
        match canon {
            CanonItem::ResourceNew(..)
            | CanonItem::ResourceRep(..)
            | CanonItem::ResourceDrop(..)
            | CanonItem::StreamNew(..)
            | CanonItem::StreamDropReadable(..)
            | CanonItem::StreamDropWritable(..)
            | CanonItem::FutureNew(..)
            | CanonItem::FutureDropReadable(..)
            | CanonItem::FutureDropWritable(..)
            | CanonItem::StreamCancelRead(..)
            | CanonItem::StreamCancelWrite(..)
            | CanonItem::FutureCancelRead(..)
            | CanonItem::FutureCancelWrite(..) => self.after_type(room),
            CanonItem::StreamRead(_, _, opts)
            | CanonItem::StreamWrite(_, _, opts)
            | CanonItem::FutureRead(_, _, opts)
            | CanonItem::FutureWrite(_, _, opts) => {
                self.after_type(room).saturating_sub(opts.len())
            }
            _ => room,
        }
    }

    /// What is left of some room after an import.
    fn after_import(&self, room: usize, entity: Entity) -> usize
        requires scale { IsScale self.now }
        requires room { room ≤ 4294967295 }
        ensures { result ≡ room - (8 + (type_weight self.now.table.now self.now.modules.now
            + names_in self.now.table.now self.now.modules.now entity)) }
    {
        self.after_entity(room.saturating_sub(8), entity)
    }

    /// What is left of some room after an item.
    #[tactic(auto, unfolding(pc_local::specs::Plain::plain_item))]
    fn after_item(&self, room: usize, item: &LocalInitializer) -> usize
        requires scale { IsScale self.now }
        requires room { room ≤ 4294967295 }
        ensures { result ≡ room - local_weight self.now.table.now self.now.modules.now item.now }
    {
        let left = room.saturating_sub(8);
        match item {
            LocalInitializer::Import { ty, .. } => self.after_import(room, *ty),
            LocalInitializer::Resource { .. } | LocalInitializer::ModuleStatic { .. } => {
                self.after_type(left)
            }
            LocalInitializer::Lift { opts, .. } => self.after_type(left).saturating_sub(opts.len()),
            LocalInitializer::Lower { opts, .. } => self
                .after_type(left)
                .saturating_sub(opts.len())
                .saturating_sub(32),
            LocalInitializer::Builtin(canon) => self.after_builtin(left, canon),
            LocalInitializer::TaskReturn { result, opts, .. } => {
                self.after_value(left, *result).saturating_sub(opts.len())
            }
            LocalInitializer::ErrorContext(canon) => after_error_context(left, canon),
            LocalInitializer::ModuleInstantiate { args, .. } => left
                .saturating_sub(args.len())
                .saturating_sub(self.most_imports),
            LocalInitializer::ModuleSynthetic(items) => left.saturating_sub(items.len()),
            LocalInitializer::ComponentInstantiate { args, ty, .. } => self.after_entity(
                self.after_arguments(left, args.as_slice()),
                Entity::Instance(*ty),
            ),
            LocalInitializer::ComponentSynthetic { exports, .. } => {
                self.after_type(self.after_exports(left, exports.as_slice()))
            }
            LocalInitializer::Export { kind, .. } => self.after_index(left, *kind),
            LocalInitializer::IntrinsicsImport
            | LocalInitializer::WaitableSet(_)
            | LocalInitializer::Context(_)
            | LocalInitializer::ThreadNewIndirect { .. }
            | LocalInitializer::ComponentStatic { .. }
            | LocalInitializer::AliasCoreExport { .. }
            | LocalInitializer::AliasComponentExport { .. }
            | LocalInitializer::AliasModule(_)
            | LocalInitializer::AliasComponent(_) => left,
        }
    }

    fn after_items(&self, room: usize, items: &[LocalInitializer]) -> usize
        requires scale { IsScale self.now }
        requires room { room ≤ 4294967295 }
        ensures { result ≡ room - body_sum self.now.table.now self.now.modules.now items.now }
    {
        let mut left = room;
        for item in items {
            left = self.after_item(left, item);
        }
        left
    }

    /// What is left of some room after the preparation of an item: an import is prepared, and weighs once more.
    #[tactic(auto, unfolding(pc_local::specs::Plain::plain_item))]
    fn after_prepared_item(&self, room: usize, item: &LocalInitializer) -> usize
        requires scale { IsScale self.now }
        requires room { room ≤ 4294967295 }
        ensures { result ≡ room - prepared_local self.now.table.now self.now.modules.now item.now }
    {
        match item {
            LocalInitializer::Import { ty, .. } => self.after_import(room, *ty),
            _ => room,
        }
    }

    fn after_prepared(&self, room: usize, items: &[LocalInitializer]) -> usize
        requires scale { IsScale self.now }
        requires room { room ≤ 4294967295 }
        ensures { result ≡ room - prepared_sum self.now.table.now self.now.modules.now items.now }
    {
        let mut left = room;
        for item in items {
            left = self.after_prepared_item(left, item);
        }
        left
    }

    /// The weight of a body.
    pub fn body_weight(&self, items: &[LocalInitializer]) -> u32
        requires scale { IsScale self.now }
        ensures { result ≡ capped (body_sum self.now.table.now self.now.modules.now items.now) }
    {
        (FULL - self.after_items(FULL, items)) as u32
    }

    /// The weight of a root, whose imports are prepared.
    pub fn root_weight(&self, items: &[LocalInitializer]) -> u32
        requires scale { IsScale self.now }
        ensures { result ≡ capped (body_sum self.now.table.now self.now.modules.now items.now
            + prepared_sum self.now.table.now self.now.modules.now items.now) }
    {
        (FULL - self.after_prepared(self.after_items(FULL, items), items)) as u32
    }
}
