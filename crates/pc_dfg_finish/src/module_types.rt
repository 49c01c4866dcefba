//! The types of the handed-in modules that a graph exports. They are the only types that a graph has by numbers of the
//! type table; the caller, who has a types builder, converts them.

ghost use Rattle.std.specs.Prelude.{◌≡◌, ◌<◌, None, Some, IfOk, IsSome, length, replicate, slice_set};
ghost use Rattle.pc_dfg_finish.specs.ModuleTypes.{module_type, type_at};

use pc_entity::NoMemory;
use pc_types::TypeModuleIndex;
use std::alloc::Global;
use std::marker::Model;

/// The types of module types of a table, as far as they were converted. A contract sees the list of them, by number.
#[derive(Drop)]
pub struct ModuleTypes {
    types: Vec<Option<TypeModuleIndex>>,
}

impl Model for ModuleTypes {
    ghost use Rattle.std.specs.Prelude.{List, Option};
    ghost use Rattle.pc_types.specs.declared.type_index.TypeModuleIndex.{TypeModuleIndex};

    ghost Value = { List (Option TypeModuleIndex) };

    ghost view = { λ m. m.types.items };
}

impl ModuleTypes {
    /// The types of a table of so many entries, none of which was converted yet.
    pub fn new(alloc: Global, entries: usize) -> Result<ModuleTypes, NoMemory>
        ensures { IfOk result (λ m. m ≡ replicate entries None) }
    {
        Ok(ModuleTypes {
            types: vec![in alloc; None; entries]?,
        })
    }

    /// Puts the type of a module type that was converted.
    pub fn put(&mut self, ty: u32, converted: TypeModuleIndex)
        requires there { ty < length self.old }
        ensures { self.new ≡ slice_set self.old ty (Some converted) }
    {
        self.types[ty as usize] = Some(converted);
    }

    /// The type of a module type, if it was converted.
    pub fn get(&self, ty: u32) -> Option<TypeModuleIndex>
        ensures { result ≡ type_at self.now ty }
    {
        match self.types.get(ty as usize) {
            Some(converted) => *converted,
            None => None,
        }
    }

    /// The type of a module type that was converted.
    pub(crate) fn at(&self, ty: u32) -> TypeModuleIndex
        requires typed { IsSome (type_at self.now ty) }
        ensures { result ≡ module_type self.now ty }
    {
        match self.get(ty) {
            Some(converted) => converted,
            None => unreachable!(),
        }
    }
}
