//! What a nested component captures where it is defined.

use crate::definition::DefinitionId;
use pc_entity::Seq;

/// The modules and components of the scopes around that a component names, each by its number among the definitions.
#[derive(Drop)]
pub struct Closure {
    pub modules: Seq<DefinitionId>,
    pub components: Seq<DefinitionId>,
}
