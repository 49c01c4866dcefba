//! What was converted already.

ghost use Rattle.std.specs.Prelude.{◌≡◌, ◌<◌, ◌⊎◌, ℕ, OnErr, OnOk, None, Some, length, slice_get, slice_set, take};
ghost use Rattle.std.specs.Prelude.{option_and_then, true};
ghost use Rattle.pc_types.specs.declared.parsed.TypeTable.{TypeTable};
ghost use Rattle.pc_types.specs.declared.types.TypeDef.{TypeDef};
ghost use Rattle.pc_types.specs.Table.{table_fault};
ghost use Rattle.pc_types_lists.specs.Types.{KeepsTypes, Types};
ghost use Rattle.pc_types_lists.specs.Known.{resource_of};
ghost use Rattle.pc_types_convert.specs.Plain.{AreLayered, NotesMore, PutsOwn, PutsPlain, none_done};
ghost use Rattle.pc_types_builder.specs.Converted.{AreConverted};

use pc_entity::NoMemory;
use pc_types::{TypeDef, TypeTable};
use pc_types_convert::{Done, Earlier};
use std::alloc::Global;
use std::marker::Model;

/// The types of those entries of a table that were converted so far, for callers that convert many: each entry is then
/// converted once, whatever is asked for. A contract sees the list of them, by number, and the list of those that are
/// the same in each component instance: no resource, stream, future or error context stands in them.
///
/// It is of one table and one builder, and lasts while the builder's resources stay, or while those that change are
/// forgotten (`forget`); what is the same in each component instance lasts as long as the builder. It takes the memory
/// of what was ever converted, whatever the table's length.
#[derive(Drop)]
pub struct Converted {
    done: Done,
}

impl Model for Converted {
    ghost use Rattle.pc_types_convert.specs.Plain.{Layers};

    ghost Value = { Layers };

    ghost view = { λ s. s.done };
}

impl Converted {
    /// Of a table of which no entry is converted yet. It takes no memory, and no time that grows with the table.
    pub fn new(alloc: Global, table: &TypeTable) -> Converted
        ensures converted { (b : Types) → AreConverted b table.now result }
        ensures none { result ≡ none_done (length table.now.types) }
    {
        Converted {
            done: Done::new(alloc, table.types.len()),
        }
    }

    /// The types go that lead to the resource of table number `n`: it becomes known, or is another one from now on.
    ///
    /// All calls together take the time of a search for each part of what was converted between them.
    pub fn forget(&mut self, n: u32)
        ensures { (t : TypeTable) (old new : Types) → table_fault t ≡ None → KeepsTypes old new
            → new.resources.current ≡ old.resources.current
            → ((q : ℕ) → ¬ (q ≡ n) → resource_of new.resources.known q ≡ resource_of old.resources.known q)
            → AreConverted old t self.old → AreConverted new t self.new }
    {
        self.done.forget(n);
    }

    /// Two exchange the types that are the same in each component instance, and those that the other entries had once.
    /// So one that begins has them from one that waits for it, and gives them back with those that it converted, and
    /// none is copied.
    pub fn exchange_plain(&mut self, other: &mut Converted)
        requires { length self.old.all ≡ length other.old.all }
        ensures here { (t : TypeTable) (old new : Types) → table_fault t ≡ None → KeepsTypes old new
            → AreConverted old t other.old → AreConverted new t self.old → AreConverted new t self.new }
        ensures there { (t : TypeTable) (old new : Types) → table_fault t ≡ None → KeepsTypes old new
            → AreConverted old t self.old → AreConverted new t other.old → AreConverted new t other.new }
    {
        self.done.exchange_plain(&mut other.done);
    }

    /// The types, by number.
    pub(crate) fn done(&self) -> &Done
        ensures { result.now ≡ self.now }
    {
        &self.done
    }

    /// A type that an entry had once, in whatever component instance.
    pub(crate) fn like(&self, n: u32) -> Option<TypeDef>
        ensures { result ≡ option_and_then (λ d. d) (slice_get self.now.like n) }
    {
        self.done.like(n)
    }

    /// Those of the entries in front of a number.
    pub(crate) fn in_front(&self, k: u32) -> Earlier<'_>
        ensures { result ≡ take k self.now.all }
    {
        self.done.in_front(k)
    }

    /// The type of an entry that has one.
    pub(crate) fn type_at(&self, n: u32) -> TypeDef
        requires { (d : TypeDef) × (slice_get self.now.all n ≡ Some (Some d)) }
        ensures { slice_get self.now.all n ≡ Some (Some result) }
    {
        self.done.type_at(n)
    }

    /// An entry gets its type, which may be the same in each component instance; if it isn't, the entry is noted among
    /// those that name its parts. Only memory may be wanting, and then no type has changed.
    pub(crate) fn put(
        &mut self,
        k: u32,
        type_: TypeDef,
        plain: bool,
        parts: &[u32],
    ) -> Result<(), NoMemory>
        requires { k < length self.old.all }
        ensures all { OnOk result (self.new.all ≡ slice_set self.old.all k (Some type_)) }
        ensures put { OnOk result (((plain ≡ true) × PutsPlain k type_ self.old self.new)
            ⊎ PutsOwn k type_ parts.now self.old self.new) }
        ensures layered { OnOk result (AreLayered self.new) }
        ensures err { OnErr result (NotesMore k type_ self.old self.new) }
    {
        self.done.put(k, type_, plain, parts)
    }
}
