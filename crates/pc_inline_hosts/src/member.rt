//! What stands at one place of a host instance.

ghost use Rattle.std.specs.Prelude.{◌≡◌};
ghost use Rattle.pc_inline_hosts.specs.HostMembers.{definition_at, entry_of, member_of};

use pc_inline_paths::PathId;
use pc_inline_state::Definition;
use pc_types::{Entity, TypeComponentInstanceIndex, TypeDef, TypeFuncIndex, TypeModuleIndex};

/// What a host instance has at a place. An instance or a module has its type twice, as a number of the types builder
/// and as the number of its table entry.
#[derive(Clone, Copy)]
pub enum HostMember {
    /// A function.
    Func(TypeFuncIndex),
    /// A component instance.
    Instance {
        ty: TypeComponentInstanceIndex,
        entry: u32,
    },
    /// A core module.
    Module {
        ty: TypeModuleIndex,
        entry: u32,
    },
    /// A component, which nothing can be made of.
    Component,
    /// A type.
    Type_(TypeDef),
}

impl HostMember {
    /// What it is as an item of a component, where it stands at the end of a path. A component of the host is none.
    pub fn definition(self, path: PathId) -> Option<Definition>
        ensures { result ≡ definition_at path self }
    {
        match self {
            HostMember::Func(ty) => Some(Definition::HostFunc { path, ty }),
            HostMember::Instance { ty, entry } => Some(Definition::HostInstance {
                path,
                ty,
                entry,
            }),
            HostMember::Module { ty, entry } => Some(Definition::HostModule { path, ty, entry }),
            HostMember::Type_(ty) => Some(Definition::Type_(ty)),
            HostMember::Component => None,
        }
    }
}

/// The number of the entry that an entity names. A value names none.
pub(crate) fn entry_of(entity: Entity) -> u32
    ensures { result ≡ entry_of entity }
{
    match entity {
        Entity::Func(n) => n,
        Entity::Instance(n) => n,
        Entity::Component(n) => n,
        Entity::Module(n) => n,
        Entity::Type_(n) => n,
        Entity::Value => 0,
    }
}

/// What stands where this type does, by the number of its entry.
pub(crate) fn member_of(ty: TypeDef, entry: u32) -> HostMember
    ensures { result ≡ member_of ty entry }
{
    match ty {
        TypeDef::ComponentFunc(ty) => HostMember::Func(ty),
        TypeDef::ComponentInstance(ty) => HostMember::Instance { ty, entry },
        TypeDef::Module(ty) => HostMember::Module { ty, entry },
        TypeDef::Component(_) => HostMember::Component,
        TypeDef::Interface(ty) => HostMember::Type_(TypeDef::Interface(ty)),
        TypeDef::Resource(ty) => HostMember::Type_(TypeDef::Resource(ty)),
    }
}
