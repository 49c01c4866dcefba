//! The types of those entries of a table that are done, by number, in two maps: those that are the same in each
//! component instance, and the others. A table of which little is converted costs little, and what is the same
//! everywhere can be handed on alone, without a copy.
//!
//! Of the others it is noted which of them name which. So where one is to be forgotten, since it will be another type,
//! those are found that lead to it, and nothing else is looked at. Besides, a type is kept that each of them had, which
//! is handed on with those that are the same everywhere: the next one has the same labels.

ghost use Rattle.std.specs.Prelude.{◌≡◌, ◌<◌, ◌⊎◌, OnOk, OnErr, true, Some, None, is_some, length, option_and_then};
ghost use Rattle.std.specs.Prelude.{slice_get, slice_set, take};
ghost use Rattle.pc_types.specs.declared.types.TypeDef.{TypeDef};
ghost use Rattle.pc_types_convert.specs.Plain.{AreLayered, Forgets, NotesMore, PutsOwn, PutsPlain, Takes, is_plain_at};
ghost use Rattle.pc_types_convert.specs.Plain.{none_done};

use crate::users::note_parts;
use pc_entity::NoMemory;
use pc_types::TypeDef;
use std::alloc::Global;
use std::collections::BTreeMap;
use std::marker::Model;
use std::mem;

/// The types of those entries that are done. A contract sees a list with a place for each entry of the table, one of
/// those types that are the same in each component instance, one of the others, for each entry those that name it, and
/// the types that entries had once.
#[derive(Drop)]
pub struct Done {
    alloc: Global,
    room: usize,
    plain: BTreeMap<u32, TypeDef>,
    own: BTreeMap<u32, TypeDef>,
    /// For an entry of `own`, those of `own` that name it.
    users: BTreeMap<u32, Vec<u32>>,
    /// For an entry that isn't the same everywhere, a type that it had, in whatever component instance.
    like: BTreeMap<u32, TypeDef>,
}

impl Model for Done {
    ghost use Rattle.std.specs.Ordering.{nat_cmp};
    ghost use Rattle.std.specs.Option.{option_or};
    ghost use Rattle.std.specs.BTreeMap.{get};
    ghost use Rattle.pc_types_convert.specs.Plain.{Layers};
    ghost use Rattle.pc_types_convert.specs.Tabulated.{tabulated};
    ghost use Rattle.pc_types_convert.specs.Users.{users_of};

    ghost Value = { Layers };

    ghost view = { λ s. record {
      all = tabulated (λ n. option_or (get nat_cmp s.own n) (get nat_cmp s.plain n)) 0 s.room;
      plain = tabulated (get nat_cmp s.plain) 0 s.room;
      own = tabulated (get nat_cmp s.own) 0 s.room;
      users = tabulated (users_of s.users) 0 s.room;
      like = tabulated (get nat_cmp s.like) 0 s.room;
    } };
}

impl Done {
    /// So many places, of which none has a type. It takes no memory.
    pub fn new(alloc: Global, room: usize) -> Done
        ensures { result ≡ none_done room }
    {
        Done {
            alloc,
            room,
            plain: BTreeMap::new(alloc),
            own: BTreeMap::new(alloc),
            users: BTreeMap::new(alloc),
            like: BTreeMap::new(alloc),
        }
    }

    /// The type of an entry that is done.
    pub fn type_at(&self, n: u32) -> TypeDef
        requires { (d : TypeDef) × (slice_get self.now.all n ≡ Some (Some d)) }
        ensures { slice_get self.now.all n ≡ Some (Some result) }
    {
        match self.get(n) {
            Some(d) => d,
            None => unreachable!(),
        }
    }

    /// The type of an entry, if it is done.
    pub fn get(&self, n: u32) -> Option<TypeDef>
        ensures { result ≡ option_and_then (λ d. d) (slice_get self.now.all n) }
    {
        if (n as usize) < self.room {
            self.own.get(&n).or(self.plain.get(&n)).copied()
        } else {
            None
        }
    }

    /// Whether the type of an entry is among those that are the same in each component instance.
    pub(crate) fn is_plain_at(&self, n: u32) -> bool
        ensures { result ≡ is_plain_at self.now.plain n }
    {
        if (n as usize) < self.room {
            self.plain.contains_key(&n)
        } else {
            false
        }
    }

    /// A type that an entry had once, in whatever component instance, if it isn't the same in each.
    pub fn like(&self, n: u32) -> Option<TypeDef>
        ensures { result ≡ option_and_then (λ d. d) (slice_get self.now.like n) }
    {
        if (n as usize) < self.room {
            self.like.get(&n).copied()
        } else {
            None
        }
    }

    /// The types of the entries in front of a number.
    pub fn in_front(&self, k: u32) -> Earlier<'_>
        ensures { result ≡ take k self.now.all }
    {
        Earlier {
            done: self,
            below: k,
        }
    }

    /// An entry gets its type, which may be the same in each component instance; if it isn't, the entry is noted among
    /// those that name its parts, and the type as one that it had. Only memory may be wanting, and then no type has
    /// changed.
    ///
    /// The time is that of a search for each part.
    pub fn put(
        &mut self,
        k: u32,
        type_: TypeDef,
        plain: bool,
        parts: &[u32],
    ) -> Result<(), NoMemory>
        requires { k < length self.old.all }
        ensures all { OnOk result (self.new.all ≡ slice_set self.old.all k (Some type_)) }
        ensures put { OnOk result (((plain ≡ true) × PutsPlain k type_ self.old self.new)
            ⊎ PutsOwn k type_ parts.now self.old self.new) }
        ensures layered { OnOk result (AreLayered self.new) }
        ensures err { OnErr result (NotesMore k type_ self.old self.new) }
    {
        // A type of its own that the entry already has stays in front of any other.
        if plain && !self.own.contains_key(&k) {
            self.plain.insert(k, type_)?;
            return Ok(());
        }
        note_parts(self.alloc, &self.own, &mut self.users, k, parts)?;
        self.like.insert(k, type_)?;
        self.own.insert(k, type_)?;
        Ok(())
    }

    /// An entry is forgotten whose type is of this component instance, and so are those that lead to it, as far as they
    /// were noted. What is the same in each component instance stays. Where memory is wanting for that, all goes that
    /// isn't.
    ///
    /// Each entry that goes was put since it last went, and each note is taken once, which was made for a part that was
    /// put: so the time of all calls together is that of a search for each part that was ever put.
    pub fn forget(&mut self, n: u32)
        ensures { Forgets n self.old self.new }
    {
        if self.forget_users(n).is_err() {
            self.own.clear();
            self.users.clear();
        }
    }

    /// An entry goes from the types of this component instance, and each goes that was noted for one that went. Where
    /// none was noted for the entry, no memory is taken.
    fn forget_users(&mut self, n: u32) -> Result<(), NoMemory>
        ensures forgets { OnOk result (Forgets n self.old self.new) }
        ensures plain { self.new.plain ≡ self.old.plain }
        ensures room { length self.new.all ≡ length self.old.all }
        ensures like { self.new.like ≡ self.old.like }
    {
        self.own.remove(&n);
        let Some(mut left) = self.users.remove(&n) else {
            return Ok(());
        };
        while let Some(m) = left.pop() {
            if self.own.remove(&m).is_some() {
                if let Some(mut users) = self.users.remove(&m) {
                    left.append(&mut users)?;
                }
            }
        }
        Ok(())
    }

    /// Two exchange the types that are the same in each component instance, and those that the other entries had once.
    pub fn exchange_plain(&mut self, other: &mut Done)
        requires { length self.old.all ≡ length other.old.all }
        ensures here { Takes self.old other.old self.new }
        ensures there { Takes other.old self.old other.new }
    {
        mem::swap(&mut self.plain, &mut other.plain);
        mem::swap(&mut self.like, &mut other.like);
    }
}

/// The types of those entries that are done in front of a number. A contract sees the list of them.
#[derive(Drop)]
pub struct Earlier<'a> {
    done: &'a Done,
    below: u32,
}

impl<'a> Model for Earlier<'a> {
    ghost use Rattle.std.specs.Prelude.{List, Option, take};
    ghost use Rattle.pc_types.specs.declared.types.TypeDef.{TypeDef};

    ghost Value = { List (Option TypeDef) };

    ghost view = { λ s. take s.below s.done.now.all };
}

impl<'a> Earlier<'a> {
    /// The type of an entry that is done.
    pub(crate) fn type_at(&self, n: u32) -> TypeDef
        requires { (d : TypeDef) × (slice_get self.now n ≡ Some (Some d)) }
        ensures { slice_get self.now n ≡ Some (Some result) }
    {
        match self.get(n) {
            Some(d) => d,
            None => unreachable!(),
        }
    }

    /// The type of an entry, if it is done.
    fn get(&self, n: u32) -> Option<TypeDef>
        ensures { result ≡ option_and_then (λ d. d) (slice_get self.now n) }
    {
        if n < self.below {
            self.done.get(n)
        } else {
            None
        }
    }
}
