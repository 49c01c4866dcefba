//! The strong components in order. A contract sees an iterator as the list of what is still to come.

ghost use Rattle.std.specs.Prelude.{◌≡◌, ◌+◌, ◌≤◌, List, length, Some, IfSome};
ghost use Rattle.std.specs.Iterator.{UpTo, at_most};
ghost use Rattle.std.specs.Iterator.SizeHint.{IsWithinCount};
ghost use Rattle.std.specs.Map.Iter.{GivesInOrder, ShowsInOrder, TakesFirst, deref};
ghost use Rattle.pc_graph.specs.Classes.{Ascend, cut};
ghost use Rattle.pc_graph.specs.Numbered.{deref_numbered, numbered, numbers};
ghost use Rattle.pc_graph.specs.declared.scc.Scc.{Scc};

use crate::scc::{Scc, StronglyConnectedComponents, part};
use pc_numbers::EntityRef;
use std::iter::FusedIterator;
use std::marker::Model;

/// The nodes of each component, in the order of their numbers.
#[derive(Drop)]
pub struct SccValues<'a, Node> {
    nodes: &'a [Node],

    /// Where each of the components that are left ends among `nodes`.
    ends: &'a [usize],

    /// Where the first of them begins.
    start: usize,
}

impl<'a, Node> Model for SccValues<'a, Node> {
    ghost use Rattle.std.specs.Prelude.{List, length};
    ghost use Rattle.pc_graph.specs.Classes.{Ascend, cut};

    ghost Value = { List (List Node) };

    ghost view = { λ it. cut it.start it.nodes.now it.ends.now };

    ghost invariant = { λ it. Ascend it.start it.ends.now (length it.nodes.now) };
}

impl<'a, Node> SccValues<'a, Node> {
    pub(crate) fn new(nodes: &'a [Node], ends: &'a [usize]) -> SccValues<'a, Node>
        requires { Ascend 0 ends.now (length nodes.now) }
        ensures { result ≡ cut 0 nodes.now ends.now }
    {
        SccValues {
            nodes,
            ends,
            start: 0,
        }
    }
}

impl<'a, Node> Iterator for SccValues<'a, Node> {
    type Item = &'a [Node];

    ghost next_gives = { TakesFirst deref };

    ghost remaining = { λ it. at_most (length it) };

    fn next(&mut self) -> Option<&'a [Node]> {
        let (end, ends) = self.ends.split_first()?;
        let nodes = part(self.nodes, self.start, *end);
        self.start = *end;
        self.ends = ends;
        Some(nodes)
    }

    fn size_hint(&self) -> (usize, Option<usize>)
        ensures lower { IsWithinCount result.0 (at_most (length self.now)) }
        ensures upper { IfSome result.1 (UpTo (at_most (length self.now))) }
        ensures exact { (result.0 ≡ length self.now) × (result.1 ≡ Some (length self.now)) }
    {
        let len = self.len();
        (len, Some(len))
    }
}

impl<'a, Node> ExactSizeIterator for SccValues<'a, Node> {
    fn len(&self) -> usize {
        self.ends.len()
    }
}

impl<'a, Node> FusedIterator for SccValues<'a, Node> {}

/// The numbers of the components in order, each with the nodes of its component.
#[derive(Drop)]
pub struct SccIter<'a, Node> {
    values: SccValues<'a, Node>,

    /// The number of the first component that is left.
    number: u32,
}

impl<'a, Node> Model for SccIter<'a, Node> {
    ghost use Rattle.std.specs.Prelude.{◌+◌, ◌≤◌, List, length};
    ghost use Rattle.pc_graph.specs.Numbered.{numbered};
    ghost use Rattle.pc_graph.specs.declared.scc.Scc.{Scc};

    ghost Value = { List (Scc × List Node) };

    ghost view = { λ it. numbered it.number it.values };

    ghost invariant = { λ it. it.number + length it.values ≤ 4294967295 };
}

impl<'a, Node> Iterator for SccIter<'a, Node> {
    type Item = (Scc, &'a [Node]);

    ghost next_gives = { TakesFirst deref_numbered };

    ghost remaining = { λ it. at_most (length it) };

    fn next(&mut self) -> Option<(Scc, &'a [Node])> {
        let nodes = self.values.next()?;
        let number = self.number;
        self.number = number + 1;
        Some((Scc(number), nodes))
    }

    fn size_hint(&self) -> (usize, Option<usize>)
        ensures lower { IsWithinCount result.0 (at_most (length self.now)) }
        ensures upper { IfSome result.1 (UpTo (at_most (length self.now))) }
        ensures exact { (result.0 ≡ length self.now) × (result.1 ≡ Some (length self.now)) }
    {
        let len = self.len();
        (len, Some(len))
    }
}

impl<'a, Node> ExactSizeIterator for SccIter<'a, Node> {
    fn len(&self) -> usize {
        self.values.len()
    }
}

impl<'a, Node> FusedIterator for SccIter<'a, Node> {}

/// The numbers of the components in order.
#[derive(Drop)]
pub struct SccKeys {
    number: u32,

    /// How many are left, `number` being the first of them.
    left: u32,
}

impl Model for SccKeys {
    ghost use Rattle.std.specs.Prelude.{◌+◌, ◌≤◌, List};
    ghost use Rattle.pc_graph.specs.Numbered.{numbers};
    ghost use Rattle.pc_graph.specs.declared.scc.Scc.{Scc};

    ghost Value = { List Scc };

    ghost view = { λ it. numbers it.number it.left };

    ghost invariant = { λ it. it.number + it.left ≤ 4294967295 };
}

impl Iterator for SccKeys {
    type Item = Scc;

    ghost next_gives = { TakesFirst (λ x. x) };

    ghost remaining = { λ it. at_most (length it) };

    fn next(&mut self) -> Option<Scc> {
        if self.left == 0 {
            return None;
        }
        let number = self.number;
        self.number = number + 1;
        self.left -= 1;
        Some(Scc(number))
    }

    fn size_hint(&self) -> (usize, Option<usize>)
        ensures lower { IsWithinCount result.0 (at_most (length self.now)) }
        ensures upper { IfSome result.1 (UpTo (at_most (length self.now))) }
        ensures exact { (result.0 ≡ length self.now) × (result.1 ≡ Some (length self.now)) }
    {
        let len = self.len();
        (len, Some(len))
    }
}

impl ExactSizeIterator for SccKeys {
    fn len(&self) -> usize {
        self.left as usize
    }
}

impl FusedIterator for SccKeys {}

impl<Node: EntityRef> StronglyConnectedComponents<Node> {
    /// The components in the order of their numbers: those that an edge leads to before those that it comes from.
    pub fn iter(&self) -> SccIter<'_, Node>
        ensures rest { result ≡ numbered 0 self.now }
        ensures runs { ShowsInOrder (deref_numbered {X = List Node}) }
    {
        // Brings the bound of the numbers into the proof.
        let _len = self.len();
        SccIter {
            values: self.values(),
            number: 0,
        }
    }

    /// The numbers of the components, in the same order.
    pub fn keys(&self) -> SccKeys
        ensures rest { result ≡ numbers 0 (length self.now) }
        ensures runs { GivesInOrder Scc }
    {
        SccKeys {
            number: 0,
            left: self.len() as u32,
        }
    }
}
