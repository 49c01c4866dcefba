//! A value for each kind of core entity.

ghost use Rattle.std.specs.Prelude.{◌≡◌};
ghost use Rattle.pc_types.specs.ByKind.{of_kind};

use crate::CoreKind;

/// A value for each kind of core entity: a count, or a list.
#[derive(Drop)]
pub struct ByKind<T> {
    pub funcs: T,
    pub tables: T,
    pub memories: T,
    pub globals: T,
    pub tags: T,
}

impl<T> ByKind<T> {
    /// The value of a kind.
    pub fn of(&self, kind: CoreKind) -> &T
        ensures { result.now ≡ of_kind self.now kind }
    {
        match kind {
            CoreKind::Func => &self.funcs,
            CoreKind::Table => &self.tables,
            CoreKind::Memory => &self.memories,
            CoreKind::Global => &self.globals,
            CoreKind::Tag => &self.tags,
        }
    }
}
