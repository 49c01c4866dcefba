//! A graph that is held in memory.

ghost use Rattle.std.specs.Prelude.{◌≡◌, ◌<◌, ℕ, List, length, map, IfOk, OnOk};
ghost use Rattle.std.specs.List.{All};
ghost use Rattle.pc_entity.specs.Lists.{AreDistinct};
ghost use Rattle.pc_entity.specs.SecondaryMap.{with_value_at};
ghost use Rattle.pc_graph.specs.Listed.{Collects, Refuses, count_to, found_for, held, listed, row_at};

use crate::Graph;
use pc_entity::{NoMemory, Seq};
use pc_numbers::EntityRef;
use std::alloc::Global;
use std::marker::{Model, PhantomData};

/// A graph with a node for each number that is not above the greatest given one. A contract sees the list of successors
/// of each.
#[derive(Drop)]
pub struct EntityGraph<Node> {
    rows: Vec<Seq<Node>>,
    node: PhantomData<Node>,
}

impl<Node> Model for EntityGraph<Node> {
    ghost use Rattle.std.specs.Prelude.{◌≤◌, List, length};

    ghost Value = { List (List Node) };

    ghost view = { λ g. g.rows.items };

    ghost invariant = { λ g. length g.rows.items ≤ 4294967295 };
}

/// Why there is no graph.
#[derive(Clone, Copy, Debug, PartialEq, Eq, Drop)]
pub enum GraphError<E> {
    /// The closure refused a node.
    Successors(E),

    /// A growth found no memory.
    NoMemory,
}

impl<E: Drop> From<NoMemory> for GraphError<E> {
    ghost use Rattle.pc_graph.specs.declared.entity_graph.GraphError.{GraphError};

    ghost from_gives = { λ _ e. e ≡ GraphError.NoMemory };

    fn from(_refused: NoMemory) -> GraphError<E> {
        GraphError::NoMemory
    }
}

impl<Node: EntityRef> EntityGraph<Node> {
    /// The graph of these nodes. Each node in turn is given to `successors` with a vector that is empty, which the call
    /// fills with the node's successors. A number that is not given has none.
    pub fn new<E: Drop, F: FnMut(Node, &mut Vec<Node>) -> Result<(), E>>(
        alloc: Global,
        nodes: &[Node],
        mut successors: F,
    ) -> Result<EntityGraph<Node>, GraphError<E>>
        requires callable { F.IsAlwaysCallable successors }
        requires distinct { AreDistinct nodes.now }
        requires small { All (λ n. Node.number n < 4294967295) nodes.now }
        ensures ok { IfOk result (λ graph. (rows : List (List Node)) × (last : F)
            × Collects F.FnMut successors nodes.now rows last
            × (length graph ≡ count_to (map Node.number nodes.now))
            × ((k : ℕ) → row_at graph k ≡ found_for (map Node.number nodes.now) rows k)) }
        ensures err { (e : E) → result ≡ Err (GraphError.Successors e) → Refuses F.FnMut successors nodes.now e }
    {
        let mut rows = Vec::new(alloc);
        for node in nodes {
            let mut found = Vec::new(alloc);
            match successors(*node, &mut found) {
                Err(refused) => return Err(GraphError::Successors(refused)),
                Ok(()) => put_row(alloc, &mut rows, node.as_u32(), found)?,
            }
        }
        Ok(EntityGraph {
            rows,
            node: PhantomData,
        })
    }
}

/// Makes `row` the list of number `key`. The numbers below `key` that were not held are held with no successors.
fn put_row<Node: Drop>(
    alloc: Global,
    rows: &mut Vec<Seq<Node>>,
    key: u32,
    row: Vec<Node>,
) -> Result<(), NoMemory>
    requires { key < 4294967295 }
    ensures ok { OnOk result (rows.new.items ≡ (with_value_at (held rows.old.items) key row.items).items) }
{
    'fill: while rows.len() <= key as usize {
        rows.push(Seq::new(alloc))?;
    }
    rows[key as usize] = Seq::from_vec(row);
    Ok(())
}

impl<Node: EntityRef> Graph<Node> for EntityGraph<Node> {
    ghost Shows = { λ s d. d ≡ listed Node.number Node.of_number s };

    fn nodes(&self, into: &mut Vec<Node>) -> Result<(), NoMemory> {
        into.reserve(self.rows.len())?;
        for number in 0..self.rows.len() {
            into.push_reserved(Node::from_u32(number as u32));
        }
        Ok(())
    }

    fn successors(&self, node: Node, into: &mut Vec<Node>) -> Result<(), NoMemory> {
        match self.rows.get(node.as_u32() as usize) {
            Some(row) => Ok(into.extend_from_slice(row.as_slice())?),
            None => Ok(()),
        }
    }
}
