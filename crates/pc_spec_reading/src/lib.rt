//! What a list of payloads means, whatever a translator can do with it, as definitions alone: the bodies of the list,
//! the scopes of its component instances, what each kind of item adds, and how the whole list ends.
//! There is no code here but the laws; the translator is stated over these words, and `docs/READING.md` tells them.
#![tactic(auto)]

pub mod laws;
