//! From which components an edge leads into each component.

ghost use Rattle.std.specs.Prelude.{◌≡◌, ◌<◌, ℕ, List, [], length, map, replicate, IfOk, OnOk};
ghost use Rattle.std.specs.List.{Contains};
ghost use Rattle.pc_entity.specs.SecondaryMap.{value_at};
ghost use Rattle.pc_graph.specs.Classes.{flat};
ghost use Rattle.pc_graph.specs.Digraph.{Digraph};
ghost use Rattle.pc_graph.specs.Evaporation.{IsClosed, IsEvaporation};
ghost use Rattle.pc_graph.specs.Listed.{row_at};
ghost use Rattle.pc_graph.specs.Noting.{AreNumbers, last_is, noted, noted_all, number_in, targets};

use crate::{Graph, Scc, StronglyConnectedComponents};
use pc_entity::{NoMemory, SecondaryMap, Seq};
use pc_numbers::EntityRef;
use std::alloc::Global;
use std::marker::Model;

/// A graph's components with the edges between them reversed. A contract sees the list of each component.
#[derive(Drop)]
pub struct Evaporation {
    rows: Vec<Seq<Scc>>,
}

impl Model for Evaporation {
    ghost use Rattle.std.specs.Prelude.{List};
    ghost use Rattle.pc_graph.specs.declared.scc.Scc.{Scc};

    ghost Value = { List (List Scc) };

    ghost view = { λ e. e.rows.items };
}

impl Evaporation {
    /// The other components that have an edge into this one, ascending. There are none for a number past the
    /// components.
    pub fn reverse_edges(&self, component: Scc) -> &[Scc]
        ensures { result.now ≡ row_at self.now component.0 }
    {
        match self.rows.get(component.0 as usize) {
            Some(row) => row.as_slice(),
            None => &[],
        }
    }
}

impl<Node: EntityRef> StronglyConnectedComponents<Node> {
    /// For each component the others that have an edge into it. Upstream's name for the condensation of a graph with
    /// its edges reversed.
    ///
    /// The edges are those of the graph that is given here. The graph that `new` was called with meets the condition.
    pub fn evaporation<G: Graph<Node>>(
        &self,
        alloc: Global,
        graph: &G,
    ) -> Result<Evaporation, NoMemory>
        requires { (d : Digraph Node) × G.Shows graph.now d × IsClosed d (flat self.now) }
        ensures { (d : Digraph Node) → G.Shows graph.now d → IsClosed d (flat self.now)
            → IfOk result (λ evaporation. IsEvaporation d self.now evaporation) }
    {
        let numbers = numbers_of(alloc, self)?;
        let rows = rows_of(alloc, graph, self, &numbers)?;
        Ok(Evaporation { rows })
    }
}

/// For each component the others that have an edge into it, by the number of each node's component.
fn rows_of<Node: EntityRef, G: Graph<Node>>(
    alloc: Global,
    graph: &G,
    components: &StronglyConnectedComponents<Node>,
    numbers: &SecondaryMap<Node, Scc>,
) -> Result<Vec<Seq<Scc>>, NoMemory>
    requires closed { (d : Digraph Node) × G.Shows graph.now d × IsClosed d (flat components.now) }
    requires numbers { AreNumbers (number_in Node.number numbers.now) components.now }
    ensures { (d : Digraph Node) → G.Shows graph.now d → IsClosed d (flat components.now)
        → IfOk result (λ rows. IsEvaporation d components.now rows.items) }
{
    let mut rows = empty_rows(alloc, components.len())?;
    for place in 0..components.len() {
        let number = Scc(place as u32);
        note_component(
            alloc,
            graph,
            numbers,
            &mut rows,
            number,
            components.nodes(number),
        )?;
    }
    Ok(rows)
}

/// The number of the component of each node.
fn numbers_of<Node: EntityRef>(
    alloc: Global,
    components: &StronglyConnectedComponents<Node>,
) -> Result<SecondaryMap<Node, Scc>, NoMemory>
    ensures { IfOk result (λ numbers. AreNumbers (number_in Node.number numbers) components.now) }
{
    // Brings into the proof that no node stands in two components.
    components.once();
    let mut numbers = SecondaryMap::new(alloc, Scc(0));
    for place in 0..components.len() {
        let number = Scc(place as u32);
        put_number(&mut numbers, components.nodes(number), number)?;
    }
    Ok(numbers)
}

/// Makes `number` the number of these nodes.
fn put_number<Node: EntityRef>(
    numbers: &mut SecondaryMap<Node, Scc>,
    nodes: &[Node],
    number: Scc,
) -> Result<(), NoMemory>
    ensures put { OnOk result ((n : Node) → Contains nodes.now n → value_at numbers.new (Node.number n) ≡ number) }
    ensures others { OnOk result ((n : Node) → ¬ (Contains nodes.now n)
        → value_at numbers.new (Node.number n) ≡ value_at numbers.old (Node.number n)) }
{
    for node in nodes {
        numbers.set(*node, number)?;
    }
    Ok(())
}

/// This many empty lists.
fn empty_rows(alloc: Global, count: usize) -> Result<Vec<Seq<Scc>>, NoMemory>
    ensures { IfOk result (λ rows. rows.items ≡ replicate count []) }
{
    let mut rows = Vec::new(alloc);
    for _place in 0..count {
        rows.push(Seq::new(alloc))?;
    }
    Ok(rows)
}

/// Notes all edges from the nodes of one component.
fn note_component<Node: EntityRef, G: Graph<Node>>(
    alloc: Global,
    graph: &G,
    numbers: &SecondaryMap<Node, Scc>,
    rows: &mut Vec<Seq<Scc>>,
    from: Scc,
    nodes: &[Node],
) -> Result<(), NoMemory>
    requires { (d : Digraph Node) × G.Shows graph.now d
        × ((k : ℕ) → Contains (targets (number_in Node.number numbers.now) d nodes.now) k → k < length rows.old.items) }
    ensures { (d : Digraph Node) → G.Shows graph.now d
        → OnOk result (rows.new.items ≡ noted_all from.0 rows.old.items
        (targets (number_in Node.number numbers.now) d nodes.now)) }
{
    for node in nodes {
        let mut successors = Vec::new(alloc);
        graph.successors(*node, &mut successors)?;
        note_all(numbers, rows, from, successors.as_slice())?;
    }
    Ok(())
}

/// Notes the edges from one component to these nodes.
fn note_all<Node: EntityRef>(
    numbers: &SecondaryMap<Node, Scc>,
    rows: &mut Vec<Seq<Scc>>,
    from: Scc,
    nodes: &[Node],
) -> Result<(), NoMemory>
    requires { (n : Node) → Contains nodes.now n → number_in Node.number numbers.now n < length rows.old.items }
    ensures ok { OnOk result (rows.new.items
        ≡ noted_all from.0 rows.old.items (map (number_in Node.number numbers.now) nodes.now)) }
    ensures size { length rows.new.items ≡ length rows.old.items }
{
    for node in nodes {
        note(rows, from, numbers.get(*node))?;
    }
    Ok(())
}

/// Notes an edge between two components.
fn note(rows: &mut Vec<Seq<Scc>>, from: Scc, into: Scc) -> Result<(), NoMemory>
    requires { into.0 < length rows.old.items }
    ensures ok { OnOk result (rows.new.items ≡ noted from.0 rows.old.items into.0) }
    ensures size { length rows.new.items ≡ length rows.old.items }
{
    if from.0 == into.0 || ends_with(rows[into.0 as usize].as_slice(), from) {
        return Ok(());
    }
    Ok(rows[into.0 as usize].push(from)?)
}

/// Whether this is the last of the numbers.
fn ends_with(list: &[Scc], number: Scc) -> bool
    ensures { result ≡ last_is list.now number.0 }
{
    match list.last() {
        Some(last) => last.0 == number.0,
        None => false,
    }
}
