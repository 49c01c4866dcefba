//! The paths to host items, each with an id of its own.
//!
//! Many host items come from one import, and their paths begin alike. So of a path its last step alone is kept: it
//! ends at an import of the root, or it goes one name further than a path with an earlier id, by the number of the
//! name. So a member of a host instance costs the same however long its name is, and however far the instance is from
//! the import. The names of a whole path are written out where its host item is used: from the last step back to the
//! import.
//!
//! Equal steps share an id. As a step names the path before it by id, equal paths do too.

ghost use Rattle.std.specs.Prelude.{◌≡◌, ◌<◌, ◌≤◌, ◌↔◌, ℕ, List, [], Err, IfOk, OnErr, Some, Contains, length, nat_eq};
ghost use Rattle.std.specs.Prelude.{nat_lt, slice_get};
ghost use Rattle.pc_entity.specs.Lists.{AreDistinct, Kept};
ghost use Rattle.pc_types.specs.TypeTree.{Path};
ghost use Rattle.pc_inline_paths.specs.Paths.{IsFull, TakesIn, at_import, further};
ghost use Rattle.pc_inline_paths.specs.Steps.{IsBefore, path_at};

use crate::step::Step;
use crate::{PathError, PathId};
use pc_entity::{Atom, ImportIndex, Interner, NoMemory, Seed, Seq, Text, TryClone};
use std::alloc::Global;
use std::marker::Model;

/// The most paths.
const MAX_PATHS: usize = 4294967295;

/// Paths to host items. A contract sees the names that they are written in, and the list of the paths, each at the
/// place that its id says. No path stands there twice.
#[derive(Drop)]
pub struct Paths<'a> {
    names: &'a Interner<Text>,
    steps: Interner<Step>,
}

impl<'a> Model for Paths<'a> {
    ghost use Rattle.pc_inline_paths.specs.HeldPaths.{HeldPaths};

    ghost Value = { HeldPaths };

    ghost use Rattle.pc_inline_paths.specs.Steps.{AreSteps, paths_of};

    ghost view = { λ p. record { names = p.names.now; held = paths_of p.names.now p.steps } };

    ghost invariant = { λ p. AreSteps p.names.now p.steps };
}

impl<'a> Paths<'a> {
    /// No paths, in these names, which takes no memory.
    pub fn new(alloc: Global, seed: Seed, names: &'a Interner<Text>) -> Paths<'a>
        ensures { result ≡ record { names = names.now; held = [] } }
    {
        let _distinct = names.as_slice();
        Paths {
            names,
            steps: Interner::new(alloc, seed),
        }
    }

    /// The number of paths.
    pub fn len(&self) -> usize
        ensures value { result ≡ length self.now.held }
        ensures bound { length self.now.held ≤ 4294967295 }
        ensures distinct { AreDistinct self.now.held }
    {
        self.steps.len()
    }

    /// Whether there is no path.
    pub fn is_empty(&self) -> bool
        ensures { result ≡ nat_eq (length self.now.held) 0 }
    {
        self.steps.len() == 0
    }

    /// Whether a number is that of a name.
    pub fn has_name(&self, number: Atom) -> bool
        ensures { result ≡ nat_lt number.0 (length self.now.names) }
    {
        (number.0 as usize) < self.names.len()
    }

    /// The path to an import of the root itself.
    pub fn import(&mut self, import: ImportIndex) -> Result<PathId, PathError>
        ensures ok { IfOk result (λ id. TakesIn (at_import import) self.old.held self.new.held id) }
        ensures kept { Kept self.old.held self.new.held }
        ensures names { self.new.names ≡ self.old.names }
        ensures distinct { AreDistinct self.new.held }

        // A path that is held is never refused, and a new one for want of memory, or because the list is full.
        ensures absent { OnErr result (¬ Contains self.old.held (at_import import)) }
        ensures full { (result ≡ Err PathError.TooMany) ↔ IsFull (at_import import) self.old.held }
        ensures err { OnErr result (self.new ≡ self.old) }
    {
        self.intern(Step::Import(import))
    }

    /// The path that goes one name further than `parent`, by the number of the name.
    pub fn member(&mut self, parent: PathId, number: Atom) -> Result<PathId, PathError>
        requires held { parent.0 < length self.old.held }
        requires named { number.0 < length self.old.names }
        ensures ok { (p : Path) (name : List ℕ) → slice_get self.old.held parent.0 ≡ Some p
            → slice_get self.old.names number.0 ≡ Some name
            → IfOk result (λ id. TakesIn (further p name) self.old.held self.new.held id) }
        ensures kept { Kept self.old.held self.new.held }
        ensures names { self.new.names ≡ self.old.names }
        ensures distinct { AreDistinct self.new.held }

        // A path that is held is never refused, and a new one for want of memory, or because the list is full.
        ensures absent { (p : Path) (name : List ℕ) → slice_get self.old.held parent.0 ≡ Some p
            → slice_get self.old.names number.0 ≡ Some name → OnErr result (¬ Contains self.old.held (further p name)) }
        ensures full { (p : Path) (name : List ℕ) → slice_get self.old.held parent.0 ≡ Some p
            → slice_get self.old.names number.0 ≡ Some name
            → (result ≡ Err PathError.TooMany) ↔ IsFull (further p name) self.old.held }
        ensures err { OnErr result (self.new ≡ self.old) }
    {
        self.intern(Step::Member(parent, number))
    }

    /// The import and the names of a path, written out. Takes time by the names, whose copies are new.
    pub fn names(&self, alloc: Global, id: PathId) -> Result<(ImportIndex, Seq<Text>), NoMemory>
        requires held { id.0 < length self.now.held }
        ensures { IfOk result (λ written. slice_get self.now.held id.0
            ≡ Some (record { import = written.0.0; names = written.1 })) }
    {
        let mut names = Vec::new(alloc);
        let mut at = id;
        'steps: loop {
            match self.step(at) {
                Step::Import(import) => {
                    names.reverse();
                    return Ok((*import, Seq::from_vec(names)));
                }
                Step::Member(parent, number) => {
                    names.push(self.name(*number).try_clone(alloc)?)?;
                    at = *parent;
                }
            }
        }
    }

    /// The last step of a path.
    fn step(&self, id: PathId) -> &Step
        requires held { id.0 < length self.now.held }
        ensures path { slice_get self.now.held id.0 ≡ Some (path_at self.now.names self.now.held result.now) }
        ensures before { IsBefore self.now.names id.0 result.now }
    {
        &self.steps.as_slice()[id.0 as usize]
    }

    /// The name of a number.
    fn name(&self, number: Atom) -> &Text
        requires held { number.0 < length self.now.names }
        ensures { slice_get self.now.names number.0 ≡ Some result.now }
    {
        &self.names.as_slice()[number.0 as usize]
    }

    /// The path with this last step.
    fn intern(&mut self, step: Step) -> Result<PathId, PathError>
        requires before { IsBefore self.old.names (length self.old.held) step }
        ensures ok { IfOk result
            (λ id. TakesIn (path_at self.old.names self.old.held step) self.old.held self.new.held id) }
        ensures kept { Kept self.old.held self.new.held }
        ensures names { self.new.names ≡ self.old.names }
        ensures distinct { AreDistinct self.new.held }
        ensures absent { OnErr result (¬ Contains self.old.held (path_at self.old.names self.old.held step)) }
        ensures full { (result ≡ Err PathError.TooMany)
            ↔ IsFull (path_at self.old.names self.old.held step) self.old.held }
        ensures err { OnErr result (self.new ≡ self.old) }
    {
        if let Some(place) = self.steps.find(&step) {
            return Ok(PathId(place));
        }
        if self.steps.len() >= MAX_PATHS {
            return Err(PathError::TooMany);
        }
        Ok(PathId(self.steps.push(step)?))
    }
}
