//! What must be believed of fused adapters, as definitions alone: which options an adapter is asked for, what its
//! module imports for it, which adapters it needs, and how adapters are split into modules.
//! There is no code here; the grouping and the planner are stated over these words.
#![tactic(auto)]
