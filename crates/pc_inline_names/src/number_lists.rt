//! Lists of numbers in one memory.
//!
//! A body has a list of numbers for each of its items, and most items have no name or one. So the numbers of all items
//! stand one behind the other, and of each item is kept where its list ends: four bytes, where a list of its own would
//! take an allocation.

ghost use Rattle.std.specs.Prelude.{◌≡◌, ◌≤◌, ◌<◌, ◌++◌, ◌∷◌, [], length, slice_get, slice_range, OnOk, OnErr};
ghost use Rattle.std.specs.Option.{option_copied};
ghost use Rattle.pc_inline_names.specs.Lists.{start_of};

use pc_entity::{Atom, NoMemory, Seq};
use std::alloc::Global;
use std::marker::Model;

/// Lists of numbers in one memory: their numbers one after the other, and where each list ends. A contract sees the
/// lists, and the one that is being made.
#[derive(Drop)]
pub struct NumberLists {
    numbers: Seq<Atom>,
    ends: Seq<u32>,
}

impl Model for NumberLists {
    ghost use Rattle.std.specs.Prelude.{length};
    ghost use Rattle.pc_inline_names.specs.Lists.{Ascend, Lists, lists_in};

    ghost Value = { Lists };

    ghost view = { λ s. lists_in s.numbers s.ends };

    ghost invariant = { λ s. Ascend 0 s.ends (length s.numbers) };
}

impl NumberLists {
    /// No lists, which take no memory.
    pub fn new(alloc: Global) -> NumberLists
        ensures { result ≡ record { ended = []; open_list = [] } }
    {
        NumberLists {
            numbers: Seq::new(alloc),
            ends: Seq::new(alloc),
        }
    }

    /// Adds a number to the list that is being made.
    pub fn push(&mut self, number: Atom) -> Result<(), NoMemory>
        ensures ok { OnOk result (self.new ≡ record {
          ended = self.old.ended;
          open_list = self.old.open_list ++ number ∷ [];
        }) }
        ensures err { OnErr result (self.new ≡ self.old) }
    {
        self.numbers.push(number)?;
        Ok(())
    }

    /// Ends the list that is being made, and begins the next.
    pub fn end_list(&mut self) -> Result<(), NoMemory>
        ensures ok { OnOk result (self.new ≡ record {
          ended = self.old.ended ++ self.old.open_list ∷ [];
          open_list = [];
        }) }
        ensures err { OnErr result (self.new ≡ self.old) }
    {
        let end = self.numbers.len();
        // There are no places for more.
        if end > u32::MAX as usize {
            return Err(NoMemory);
        }
        self.ends.push(end as u32)?;
        Ok(())
    }

    /// The list of a number, if it was ended.
    pub fn get(&self, place: usize) -> Option<&[Atom]>
        ensures { option_copied result ≡ slice_get self.now.ended place }
    {
        let ends = self.ends.as_slice();
        if place >= ends.len() {
            return None;
        }
        let start = start_at(ends, place);
        let end = ends[place] as usize;
        Some(part(self.numbers.as_slice(), start, end))
    }
}

/// The items from one place to another.
fn part(items: &[Atom], start: usize, end: usize) -> &[Atom]
    requires ordered { start ≤ end }
    requires within { end ≤ length items.now }
    ensures { result.now ≡ slice_range items.now start end }
{
    &items[start..end]
}

/// Where a list begins, by where they end.
fn start_at(ends: &[u32], place: usize) -> usize
    requires { place < length ends.now }
    ensures { result ≡ start_of ends.now place }
{
    if place == 0 {
        0
    } else {
        ends[place - 1] as usize
    }
}
