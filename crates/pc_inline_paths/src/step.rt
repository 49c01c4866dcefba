//! The last steps of paths.

ghost use Rattle.std.proofs.Common.{rules};

use crate::PathId;
use pc_entity::{Atom, ExactEq, ImportIndex};

/// How a path ends.
#[derive(Clone, Copy, PartialEq, Eq, Hash)]
pub(crate) enum Step {
    /// At an import of the root itself.
    Import(ImportIndex),
    /// One name further than another path, by the number of the name.
    Member(PathId, Atom),
}

impl ExactEq for Step {
    ghost exact = { Prim.search rules };
}
