//! Who gives what to whom, in a reading and in a plan, as definitions alone: to which component instance a core value
//! belongs, where the items of core instances come from, what a core module may know of its imports, and which calls
//! need not keep the state of a thread.
//! There is no code here; the analyses of graphs and plans are stated over these words.
#![tactic(auto)]
