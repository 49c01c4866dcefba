//! The search for strong components, one event of the tour at a time.
//!
//! Nodes that were met and stand in no component yet lie on a stack, in groups: the nodes of a group are known to reach
//! each other, and those of an older group reach all newer ones. An edge back to the stack joins the groups above its
//! end, and a group whose oldest node is left is a component. Each node goes onto the stack once and off it once, and
//! so does each group's head, so the search takes time in proportion to the events. Upstream keeps a low link for each
//! node in place of the heads.

ghost use Rattle.std.specs.Prelude.{◌≡◌, ◌↔◌, IsTrue, ◌+◌, ◌-◌, ◌<◌, ◌≤◌, ◌++◌, ◌^◌, ℕ, Some, [], length, drop, take};
ghost use Rattle.std.specs.Prelude.{reverse, slice_get, slice_index, MatchOption, OnOk};
ghost use Rattle.std.specs.List.{Contains};
ghost use Rattle.pc_entity.specs.SecondaryMap.{value_at};
ghost use Rattle.pc_graph.specs.Classes.{flat};
ghost use Rattle.pc_graph.specs.Searching.{CanTurn, Search, StandsFor, Turns, was_met};
ghost use Rattle.pc_graph.specs.declared.dfs.DfsEvent.{DfsEvent};
ghost use Rattle.pc_graph.specs.declared.search.Noted.{Noted};

use crate::DfsEvent;
use pc_entity::{NoMemory, SecondaryMap, Seq};
use pc_numbers::EntityRef;
use std::alloc::Global;
use std::marker::Model;

/// What is noted of a node.
#[derive(Clone, Copy)]
pub(crate) enum Noted {
    /// It wasn't met.
    Unmet,

    /// It stands in no component, but at this place of the stack.
    OnStack(usize),

    /// It stands in a component.
    Closed,
}

/// The search between two events.
#[derive(Drop)]
pub(crate) struct PathSearch<Node> {
    /// The nodes that were met and stand in no component, the oldest first.
    stack: Vec<Node>,

    /// Where each group begins on the stack.
    heads: Vec<usize>,

    /// What is noted of each node.
    noted: SecondaryMap<Node, Noted>,

    /// The nodes of the components, one component behind the other.
    pub(crate) nodes: Vec<Node>,

    /// Where each component ends among `nodes`.
    pub(crate) ends: Vec<usize>,
}

impl<Node> Model for PathSearch<Node> {
    ghost use Rattle.pc_graph.specs.Searching.{Held};

    ghost Value = { Held Node };

    ghost view = { λ s. record {
      stack = s.stack.items;
      heads = s.heads.items;
      noted = s.noted;
      nodes = s.nodes.items;
      ends = s.ends.items;
    } };
}

impl<Node: EntityRef> PathSearch<Node> {
    /// The search that has met no node.
    pub(crate) fn new(alloc: Global) -> PathSearch<Node>
        ensures { StandsFor Node.number result (record { path = []; closed = [] }) }
    {
        PathSearch {
            stack: Vec::new(alloc),
            heads: Vec::new(alloc),
            noted: SecondaryMap::new(alloc, Noted::Unmet),
            nodes: Vec::new(alloc),
            ends: Vec::new(alloc),
        }
    }

    /// How many nodes were met is a number of 64 bits.
    fn sizes(&self)
        ensures { length self.now.stack + length self.now.nodes < 2 ^ 64 }
    {
        // Each brings the bound of a length into the proof.
        let _stack = self.stack.len();
        let _nodes = self.nodes.len();
    }

    /// Whether a node was met.
    pub(crate) fn is_met(&self, node: Node) -> bool
        ensures { result ≡ was_met (value_at self.now.noted (Node.number node)) }
    {
        match self.noted.get(node) {
            Noted::Unmet => false,
            Noted::OnStack(_) => true,
            Noted::Closed => true,
        }
    }

    /// Takes in what happens next in the tour.
    pub(crate) fn turn(&mut self, event: DfsEvent<Node>) -> Result<(), NoMemory>
        requires { CanTurn Node.number self.old event }
        ensures ok { (s : Search Node) → StandsFor Node.number self.old s
            → OnOk result ((t : Search Node) × Turns s event t × StandsFor Node.number self.new t) }
        ensures small { length self.new.stack + length self.new.nodes < 2 ^ 64 }
    {
        let turned = self.take_in(event);
        self.sizes();
        turned
    }

    /// What `turn` does, but for the bound of the lengths.
    fn take_in(&mut self, event: DfsEvent<Node>) -> Result<(), NoMemory>
        requires { CanTurn Node.number self.old event }
        ensures { (s : Search Node) → StandsFor Node.number self.old s
            → OnOk result ((t : Search Node) × Turns s event t × StandsFor Node.number self.new t) }
    {
        match event {
            DfsEvent::Pre(node) => self.meet(node),
            DfsEvent::AfterEdge(_, to) => {
                self.follow(to);
                Ok(())
            }
            DfsEvent::Post(node) => self.leave(node),
        }
    }

    /// Makes a node a group of its own.
    fn meet(&mut self, node: Node) -> Result<(), NoMemory>
        requires { value_at self.old.noted (Node.number node) ≡ Noted.Unmet }
        ensures { (s : Search Node) → StandsFor Node.number self.old s
            → OnOk result ((t : Search Node) × Turns s (DfsEvent.Pre node) t × StandsFor Node.number self.new t) }
    {
        let place = self.stack.len();
        self.heads.push(place)?;
        self.stack.push(node)?;
        Ok(self.noted.set(node, Noted::OnStack(place))?)
    }

    /// Where a node stands on the stack.
    fn place_of(&self, node: Node) -> Option<usize>
        ensures { (s : Search Node) → StandsFor Node.number self.now s
            → MatchOption result (¬ (Contains (flat s.path) node)) (λ k. slice_get self.now.stack k ≡ Some node) }
    {
        match self.noted.get(node) {
            Noted::Unmet => None,
            Noted::OnStack(place) => Some(place),
            Noted::Closed => None,
        }
    }

    /// Whether this node stands at this place of the stack.
    fn stands_at(&self, place: usize, node: Node) -> bool
        ensures { IsTrue result ↔ (slice_get self.now.stack place ≡ Some node) }
    {
        match self.stack.get(place) {
            Some(there) => *there == node,
            None => false,
        }
    }

    /// Joins the groups above a node of the stack with its own.
    fn follow(&mut self, to: Node)
        ensures { (from : Node) (s : Search Node) → StandsFor Node.number self.old s
            → (t : Search Node) × Turns s (DfsEvent.AfterEdge from to) t × StandsFor Node.number self.new t }
    {
        if let Some(place) = self.place_of(to) {
            let kept = heads_up_to(self.heads.as_slice(), place);
            self.heads.truncate(kept);
        }
    }

    /// Makes the newest group a component, if this is its oldest node.
    fn leave(&mut self, node: Node) -> Result<(), NoMemory>
        ensures { (s : Search Node) → StandsFor Node.number self.old s
            → OnOk result ((t : Search Node) × Turns s (DfsEvent.Post node) t × StandsFor Node.number self.new t) }
    {
        let head = match self.heads.as_slice().last() {
            Some(head) => *head,
            None => return Ok(()),
        };
        if !self.stands_at(head, node) {
            return Ok(());
        }
        close_group(&mut self.stack, &mut self.noted, &mut self.nodes, head)?;
        self.heads.pop();
        Ok(self.ends.push(self.nodes.len())?)
    }
}

/// How many of the first heads are not above this place, where heads ascend.
fn heads_up_to(heads: &[usize], place: usize) -> usize
    ensures within { result ≤ length heads.now }
    ensures above { (k : ℕ) → result ≤ k → k < length heads.now → place < slice_index heads.now k }
    ensures last { 0 < result → slice_index heads.now (result - 1) ≤ place }
{
    let mut kept = heads.len();
    while kept > 0 && heads[kept - 1] > place {
        kept -= 1;
    }
    kept
}

/// Moves the nodes from `head` on off the stack, the last one first, and notes that they stand in a component.
fn close_group<Node: EntityRef>(
    stack: &mut Vec<Node>,
    noted: &mut SecondaryMap<Node, Noted>,
    nodes: &mut Vec<Node>,
    head: usize,
) -> Result<(), NoMemory>
    ensures stack { OnOk result (stack.new.items ≡ take head stack.old.items) }
    ensures nodes { OnOk result (nodes.new.items ≡ nodes.old.items ++ reverse (drop head stack.old.items)) }
    ensures closed { OnOk result ((n : Node) → Contains (reverse (drop head stack.old.items)) n
        → value_at noted.new (Node.number n) ≡ Noted.Closed) }
    ensures others { OnOk result ((n : Node) → ¬ (Contains (reverse (drop head stack.old.items)) n)
        → value_at noted.new (Node.number n) ≡ value_at noted.old (Node.number n)) }
{
    let mut left = stack.len();
    while left > head {
        left -= 1;
        let node = stack[left];
        noted.set(node, Noted::Closed)?;
        nodes.push(node)?;
    }
    stack.truncate(head);
    Ok(())
}
