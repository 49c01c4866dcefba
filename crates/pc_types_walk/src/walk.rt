//! One walk from an entity to the resources that it leads to.
//!
//! Paths go through instance types alone, and there may be many more of them than the table has entries: forty types
//! that each export the next twice have more paths than can be counted. So a walk enters each instance entry once. What
//! an entry leads to was met when it is met again, and of each resource number the first path alone matters.
//!
//! The answer has no path written out, since the names of a path through a deep type may be as many as the entries, and
//! there is one for each resource. It is a list of places: each is one export further than an earlier one, so whoever
//! looks for values looks up one name for each place.

ghost use Rattle.std.specs.Prelude.{◌≡◌, ◌<◌, ◌+◌, ◌∷◌, [], ℕ, List, IfOk, OnOk, option_map, reverse, slice_get};
ghost use Rattle.std.specs.Option.{option_copied};
ghost use Rattle.pc_spec_reading.specs.Once.{each_once};
ghost use Rattle.pc_spec_reading.specs.Resource.{ResourcePath, resource_paths, same_number, type_paths};
ghost use Rattle.pc_types_walk.specs.Leads.{AreLeads, paths_of};
ghost use Rattle.pc_types_walk.specs.Steps.{Enters, Goes, Meets, Passes, PassesEntity, Starts, has, next_export};
ghost use Rattle.pc_types_walk.specs.Steps.{work};
ghost use Rattle.pc_types_walk.specs.Walks.{IsWalk, export_at};

use crate::leads::{Leads, is_resource_at};
use pc_entity::{NoMemory, Seq, Text};
use pc_types::{DeclType, Entity, TypeTable};
use std::alloc::Global;
use std::collections::BTreeSet;

/// A place that a walk comes to: one export further than its parent. Place 0 is where the walk starts, and place
/// `k + 1` the one at `k` in the list.
#[derive(Clone, Copy, Debug, PartialEq, Eq)]
pub struct Place {
    /// The place in front of it.
    pub parent: usize,
    /// The instance entry whose export it is.
    pub entry: u32,
    /// Which export of the entry.
    pub export: usize,
}

impl Place {
    /// The export that leads to this place, with its name.
    pub fn export<'a>(&self, table: &'a TypeTable) -> Option<&'a (Text, Entity)>
        ensures { option_copied result ≡ export_at table.now self.now.entry self.now.export }
    {
        export_of(table, self.entry, self.export)
    }
}

/// A resource that a walk came to.
#[derive(Clone, Copy, Debug, PartialEq, Eq)]
pub struct Found {
    /// Its number in the table.
    pub number: u32,
    /// The place where it is first met.
    pub place: usize,
}

/// The places of a walk, each behind its parent, and the resources in the order in which they are met.
#[derive(Drop)]
pub struct Walk {
    pub places: Seq<Place>,
    pub found: Seq<Found>,
}

impl Leads {
    /// The resources that an entity leads to, each number once, at its first path.
    ///
    /// A caller that knows some numbers passes over those. Takes time by the exports that the walk goes through, of
    /// which `Leads` keeps the fewest.
    pub fn walk(&self, alloc: Global, table: &TypeTable, e: Entity) -> Result<Walk, NoMemory>
        requires leads { AreLeads table.now self.now }
        ensures { IfOk result (λ w. IsWalk table.now w (each_once same_number (resource_paths table.now e))) }
    {
        match e {
            Entity::Instance(n) => walk_instance(self, alloc, table, n),
            Entity::Type_(n) => walk_type(alloc, table, n),
            Entity::Func(_) => Ok(nowhere(alloc)),
            Entity::Component(_) => Ok(nowhere(alloc)),
            Entity::Module(_) => Ok(nowhere(alloc)),
            Entity::Value => Ok(nowhere(alloc)),
        }
    }
}

/// A walk that has come to no place.
fn nowhere(alloc: Global) -> Walk
    ensures { result ≡ record { places = []; found = [] } }
{
    Walk {
        places: Seq::new(alloc),
        found: Seq::new(alloc),
    }
}

/// The walk from a type: it is at a resource at once, or nowhere.
fn walk_type(alloc: Global, table: &TypeTable, n: u32) -> Result<Walk, NoMemory>
    ensures { IfOk result (λ w. IsWalk table.now w (each_once same_number (type_paths table.now n))) }
{
    let mut walk = nowhere(alloc);
    if is_resource_at(table, n) {
        walk.found.push(Found {
            number: n,
            place: 0,
        })?;
        return Ok(walk);
    }
    Ok(walk)
}

/// The walk from an instance type.
fn walk_instance(leads: &Leads, alloc: Global, table: &TypeTable, n: u32) -> Result<Walk, NoMemory>
    requires leads { AreLeads table.now leads.now }
    ensures { IfOk result (λ w. IsWalk table.now w (each_once same_number (paths_of table.now n))) }
{
    if !leads.has_entry(n) {
        return Ok(nowhere(alloc));
    }
    let mut walker = Walker::at(alloc, n)?;
    while let Some(top) = walker.stack.pop() {
        walker.step(leads, table, top)?;
    }
    Ok(walker.walk)
}

/// An instance entry that was entered: where, and how many of the exports that a walk goes through were passed.
#[derive(Clone, Copy, Debug, PartialEq, Eq)]
struct Entered {
    entry: u32,
    place: usize,
    next: usize,
}

/// A walk that goes on: the resource numbers that were met, the instance entries that were entered, and those of them
/// that aren't left yet, the innermost last.
#[derive(Drop)]
struct Walker {
    met: BTreeSet<u32>,
    visited: BTreeSet<u32>,
    stack: Vec<Entered>,
    walk: Walk,
}

impl Walker {
    /// At the start, with one entry entered.
    fn at(alloc: Global, n: u32) -> Result<Walker, NoMemory>
        ensures { IfOk result (λ w. Starts n w) }
    {
        let mut walker = Walker {
            met: BTreeSet::new(alloc),
            visited: BTreeSet::new(alloc),
            stack: Vec::new(alloc),
            walk: nowhere(alloc),
        };
        walker.visited.insert(n)?;
        walker.stack.push(Entered {
            entry: n,
            place: 0,
            next: 0,
        })?;
        Ok(walker)
    }

    /// The next export of the entry on top is passed, or the entry is left.
    fn step(&mut self, leads: &Leads, table: &TypeTable, top: Entered) -> Result<(), NoMemory>
        requires leads { AreLeads table.now leads.now }
        ensures goes { OnOk result ((all : List ResourcePath)
            → Goes table.now leads.now all (has self.old.met) (has self.old.visited)
            (top ∷ reverse self.old.stack.items) self.old.walk
            → Goes table.now leads.now all (has self.new.met) (has self.new.visited)
            (reverse self.new.stack.items) self.new.walk) }
        ensures falls { OnOk result ((all : List ResourcePath)
            → Goes table.now leads.now all (has self.old.met) (has self.old.visited)
            (top ∷ reverse self.old.stack.items) self.old.walk
            → work leads.now (has self.new.visited) (reverse self.new.stack.items)
            < work leads.now (has self.old.visited) (top ∷ reverse self.old.stack.items)) }
    {
        match next_of(leads, top) {
            Some(next) => {
                self.stack.push(Entered {
                    entry: top.entry,
                    place: top.place,
                    next: next.1,
                })?;
                let place = Place {
                    parent: top.place,
                    entry: top.entry,
                    export: next.0,
                };
                self.pass(table, place)?;
                Ok(())
            }
            None => Ok(()),
        }
    }

    /// An export is passed: a resource is met, an instance entered.
    fn pass(&mut self, table: &TypeTable, place: Place) -> Result<(), NoMemory>
        ensures { OnOk result (Passes table.now place self.old self.new) }
    {
        match export_of(table, place.entry, place.export) {
            Some(export) => self.pass_entity(place, export.1),
            None => Ok(()),
        }
    }

    /// The same of what the export names.
    fn pass_entity(&mut self, place: Place, e: Entity) -> Result<(), NoMemory>
        ensures { OnOk result (PassesEntity place e self.old self.new) }
    {
        match e {
            Entity::Type_(n) => self.meet(place, n),
            Entity::Instance(n) => self.enter(place, n),
            _ => Ok(()),
        }
    }

    /// A resource is met at a place, unless it was met before.
    fn meet(&mut self, place: Place, n: u32) -> Result<(), NoMemory>
        ensures { OnOk result (Meets place n self.old self.new) }
    {
        if self.met.insert(n)? {
            self.walk.places.push(place)?;
            self.walk.found.push(Found {
                number: n,
                place: self.walk.places.len(),
            })?;
            return Ok(());
        }
        Ok(())
    }

    /// An instance entry is entered at a place, unless it was entered before.
    fn enter(&mut self, place: Place, n: u32) -> Result<(), NoMemory>
        ensures { OnOk result (Enters place n self.old self.new) }
    {
        if self.visited.insert(n)? {
            self.walk.places.push(place)?;
            self.stack.push(Entered {
                entry: n,
                place: self.walk.places.len(),
                next: 0,
            })?;
            return Ok(());
        }
        Ok(())
    }
}

/// The next export of an entry that was entered, by its place, and how many are passed with it.
fn next_of(leads: &Leads, top: Entered) -> Option<(usize, usize)>
    ensures { result ≡ option_map {U = ℕ × ℕ} (λ i. (i, top.next + 1)) (next_export leads.now top) }
{
    match leads.exports(top.entry) {
        Some(exports) => export_after(exports.as_slice(), top.next),
        None => None,
    }
}

/// What stands at a place, and how many stand as far as there.
fn export_after(exports: &[usize], next: usize) -> Option<(usize, usize)>
    ensures { result ≡ option_map {U = ℕ × ℕ} (λ i. (i, next + 1)) (slice_get exports.now next) }
{
    if next < exports.len() {
        return Some((exports[next], next + 1));
    }
    None
}

/// An export of an entry, with its name.
fn export_of(table: &TypeTable, entry: u32, export: usize) -> Option<&(Text, Entity)>
    ensures { option_copied result ≡ export_at table.now entry export }
{
    match table.entry(entry) {
        Some(DeclType::Instance { exports }) => exports.as_slice().get(export),
        _ => None,
    }
}
