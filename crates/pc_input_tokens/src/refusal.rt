//! Why nothing is taken.

/// Why no value is taken off a reader.
#[derive(Clone, Copy, Debug, PartialEq, Eq)]
pub enum Refusal {
    /// The text isn't JSON.
    NotJson,
    /// There was no memory for a tree.
    NoMemory,
}
