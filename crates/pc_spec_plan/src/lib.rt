//! What must be believed of plans, as definitions alone: core values, the log of a reading, export nodes,
//! the view of a plan, the machine that runs it, and its printed text.
//! There is no code here; readings, graphs and plans are stated over these words.
#![tactic(auto)]
