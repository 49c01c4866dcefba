//! What is true of every tour, for those who build on it. The functions do nothing: a call gives a proof their clauses.

ghost use Rattle.pc_graph.specs.Laws.{IsTheOnlyTour, MeetsByItsEvents, MeetsOnce, MeetsTheReachable, RunsAreTours};

use pc_numbers::EntityRef;

/// A traversal that is told with each step which nodes it has met gives the tour of its roots, and nothing else does.
pub fn runs_are_tours<Node: EntityRef>()
    ensures tour { RunsAreTours Node }
    ensures only { IsTheOnlyTour Node }
{}

/// A tour meets the nodes that can be reached from its roots, all of them and each once.
pub fn tours_meet_the_reachable<Node: EntityRef>()
    ensures reachable { MeetsTheReachable Node }
    ensures order { MeetsByItsEvents Node }
    ensures once { MeetsOnce Node }
{}
