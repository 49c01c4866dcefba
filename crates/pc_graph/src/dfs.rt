//! The depth-first traversal, one event at a time.
//!
//! The events to come stand on a stack of its own, so a deep graph takes heap and no call stack. Which nodes were met
//! is the caller's to say, with each call: a caller keeps such a set anyway, and may leave nodes out by it.

ghost use Rattle.std.specs.Prelude.{◌≡◌, ◌⊎◌, ◌+◌, ◌-◌, ◌^◌, ◌<◌, ◌≤◌, ◌++◌, ◌∷◌, [], Bool, true, false, List, length};
ghost use Rattle.std.specs.Prelude.{drop, take, reverse, slice_get, IfOk, OnOk, OnErr};
ghost use Rattle.std.specs.List.{All};
ghost use Rattle.std.specs.Option.{option_to_list};
ghost use Rattle.pc_graph.specs.Digraph.{Digraph};
ghost use Rattle.pc_graph.specs.Tour.{IsTour};
ghost use Rattle.pc_graph.specs.declared.dfs.DfsEvent.{DfsEvent};
ghost use Rattle.pc_graph.specs.Steps.{IsGiven, IsSkipped, Pushes, Remains, SaysExactly, Steps, met_after, visits_of};

use crate::Graph;
use pc_entity::NoMemory;
use pc_numbers::EntityRef;
use std::alloc::Global;
use std::marker::Model;

/// What happens in a traversal.
#[derive(Clone, Copy, PartialEq, Eq)]
pub enum DfsEvent<Node> {
    /// The node is met.
    Pre(Node),

    /// This edge has been followed, and the node that it leads to visited.
    AfterEdge(Node, Node),

    /// All successors of the node have been visited.
    Post(Node),
}

/// A traversal. A contract sees the stack of the events to come, the next one first.
#[derive(Drop)]
pub struct Dfs<Node> {
    stack: Vec<DfsEvent<Node>>,
}

impl<Node> Model for Dfs<Node> {
    ghost use Rattle.std.specs.Prelude.{List, reverse};
    ghost use Rattle.pc_graph.specs.declared.dfs.DfsEvent.{DfsEvent};

    ghost Value = { List (DfsEvent Node) };

    ghost view = { λ d. reverse d.stack.items };
}

impl<Node: EntityRef> Dfs<Node> {
    /// A traversal that has nothing to visit, which takes no memory.
    pub fn empty(alloc: Global) -> Dfs<Node>
        ensures { result ≡ [] }
    {
        Dfs {
            stack: Vec::new(alloc),
        }
    }

    /// A traversal from these roots, the last one first.
    pub fn new(alloc: Global, roots: &[Node]) -> Result<Dfs<Node>, NoMemory>
        ensures ok { OnOk result (result ≡ Ok (visits_of roots.now)) }
        ensures tour { (d : Digraph Node) (events : _) (met : List Node)
            → IfOk result (λ dfs. Remains d [] dfs events met → IsTour d roots.now events met) }
    {
        let mut dfs = Dfs::empty(alloc);
        dfs.add_roots(roots)?;
        Ok(dfs)
    }

    /// Adds a root, to be visited before all that is still to come.
    pub fn add_root(&mut self, root: Node) -> Result<(), NoMemory>
        ensures ok { OnOk result (self.new ≡ DfsEvent.Pre root ∷ self.old) }
        ensures err { OnErr result (self.new ≡ self.old) }
    {
        Ok(self.stack.push(DfsEvent::Pre(root))?)
    }

    /// Adds roots, to be visited before all that is still to come, the last one first.
    pub fn add_roots(&mut self, roots: &[Node]) -> Result<(), NoMemory>
        ensures ok { OnOk result (self.new ≡ visits_of roots.now ++ self.old) }
        ensures err { OnErr result (self.new ≡ self.old) }
    {
        self.stack.reserve(roots.len())?;
        for root in roots {
            self.stack.push_reserved(DfsEvent::Pre(*root));
        }
        Ok(())
    }

    /// The next event. `seen` says of which nodes the visit is left out.
    pub fn next<G: Graph<Node>, S: Fn(Node) -> bool>(
        &mut self,
        graph: &G,
        seen: S,
    ) -> Result<Option<DfsEvent<Node>>, NoMemory>
        requires callable { S.IsAlwaysCallable seen }
        requires shown { (d : Digraph Node) × G.Shows graph.now d }
        ensures step { (d : Digraph Node) → G.Shows graph.now d
            → IfOk result (λ event. Steps (λ n answer. S.post seen n answer) d self.old event self.new) }
        ensures tour { (d : Digraph Node) (met : List Node) → G.Shows graph.now d
            → SaysExactly (λ n answer. S.post seen n answer) met
            → IfOk result (λ event. (events : _) (later : List Node)
            → Remains d (met_after met event) self.new events later
            → Remains d met self.old (option_to_list event ++ events) later) }
        ensures err { OnErr result (self.new ≡ self.old) }
        ensures small { OnOk result (length self.new < 2 ^ 63) }
    {
        let left = given_up_to(self.stack.as_slice(), &seen);
        if left == 0 {
            self.stack.clear();
            return Ok(None);
        }
        match self.stack[left - 1] {
            DfsEvent::Pre(node) => {
                open(&mut self.stack, left - 1, graph, node, &seen)?;
                Ok(Some(DfsEvent::Pre(node)))
            }
            event => {
                self.stack.truncate(left - 1);
                Ok(Some(event))
            }
        }
    }
}

/// Puts the visit of `node` in the place of all that stands on the stack from `below` on. All memory is found before
/// anything is taken off.
fn open<Node: EntityRef, G: Graph<Node>, S: Fn(Node) -> bool>(
    stack: &mut Vec<DfsEvent<Node>>,
    below: usize,
    graph: &G,
    node: Node,
    seen: &S,
) -> Result<(), NoMemory>
    requires callable { S.IsAlwaysCallable seen.now }
    requires shown { (d : Digraph Node) × G.Shows graph.now d }
    requires within { below ≤ length stack.old.items }
    ensures ok { (d : Digraph Node) → G.Shows graph.now d → OnOk result ((pushed : List (DfsEvent Node))
        × Pushes (λ n answer. S.post seen.now n answer) node (reverse (d.successors node)) pushed
        × (reverse stack.new.items ≡ pushed ++ DfsEvent.Post node ∷ reverse (take below stack.old.items))) }
    ensures err { OnErr result (stack.new.items ≡ stack.old.items) }
{
    let mut pushed = pushed_at(*stack.allocator(), graph, node, seen)?;
    stack.reserve(pushed.len() + 1)?;
    stack.truncate(below);
    stack.push_reserved(DfsEvent::Post(node));
    stack.append(&mut pushed)?;
    Ok(())
}

/// How many events are left once the visits of seen nodes are taken off the end.
fn given_up_to<Node: Copy, S: Fn(Node) -> bool>(stack: &[DfsEvent<Node>], seen: &S) -> usize
    requires { S.IsAlwaysCallable seen.now }
    ensures within { result ≤ length stack.now }
    ensures skipped { All (IsSkipped (λ n answer. S.post seen.now n answer)) (drop result stack.now) }
    ensures given { (e : _) → 0 < result → slice_get stack.now (result - 1) ≡ Some e
        → IsGiven (λ n answer. S.post seen.now n answer) e }
{
    let mut left = stack.len();
    while left > 0 && is_skipped(stack[left - 1], seen) {
        left -= 1;
    }
    left
}

/// Whether an event is the visit of a seen node.
fn is_skipped<Node: Copy, S: Fn(Node) -> bool>(event: DfsEvent<Node>, seen: &S) -> bool
    requires { S.IsAlwaysCallable seen.now }
    ensures skipped { result ≡ true → IsSkipped (λ n answer. S.post seen.now n answer) event }
    ensures given { result ≡ false → IsGiven (λ n answer. S.post seen.now n answer) event }
{
    match event {
        DfsEvent::Pre(node) => seen(node),
        DfsEvent::AfterEdge(_, _) => false,
        DfsEvent::Post(_) => false,
    }
}

/// What the visit of `node` pushes for its successors.
fn pushed_at<Node: EntityRef, G: Graph<Node>, S: Fn(Node) -> bool>(
    alloc: Global,
    graph: &G,
    node: Node,
    seen: &S,
) -> Result<Vec<DfsEvent<Node>>, NoMemory>
    requires callable { S.IsAlwaysCallable seen.now }
    requires shown { (d : Digraph Node) × G.Shows graph.now d }
    ensures { (d : Digraph Node) → G.Shows graph.now d
        → IfOk result (λ pushed. Pushes (λ n answer. S.post seen.now n answer) node
        (reverse (d.successors node)) (reverse pushed.items)) }
{
    let mut successors = Vec::new(alloc);
    graph.successors(node, &mut successors)?;
    let mut pushed = Vec::new(alloc);
    for successor in successors.as_slice() {
        push_edge(&mut pushed, node, *successor, seen)?;
    }
    Ok(pushed)
}

/// Pushes an edge, and behind it the visit of the node that it leads to, unless that is seen.
fn push_edge<Node: Copy, S: Fn(Node) -> bool>(
    pushed: &mut Vec<DfsEvent<Node>>,
    from: Node,
    to: Node,
    seen: &S,
) -> Result<(), NoMemory>
    requires { S.IsAlwaysCallable seen.now }
    ensures { OnOk result (
        (S.post seen.now to true × (pushed.new.items ≡ pushed.old.items ++ DfsEvent.AfterEdge from to ∷ []))
        ⊎ (S.post seen.now to false
        × (pushed.new.items ≡ (pushed.old.items ++ DfsEvent.AfterEdge from to ∷ []) ++ DfsEvent.Pre to ∷ []))) }
{
    pushed.push(DfsEvent::AfterEdge(from, to))?;
    if seen(to) {
        return Ok(());
    }
    Ok(pushed.push(DfsEvent::Pre(to))?)
}
