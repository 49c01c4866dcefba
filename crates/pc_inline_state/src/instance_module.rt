//! What core instances are made of.

use pc_entity::StaticModuleIndex;

/// The module that a core instance is made of.
#[derive(Clone, Copy)]
pub enum InstanceModule {
    /// A module that was handed in.
    Static(StaticModuleIndex),
    /// A module of the host, whose exports this entry of the type table names.
    Import(u32),
}
