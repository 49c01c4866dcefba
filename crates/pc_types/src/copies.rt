//! Copies of module records and what they are made of.

use crate::{
    ComponentExternData, CoreEntity, CoreFuncSig, InterfaceType, ModuleRecord, TypeDef, WasmValType,
};
use pc_entity::{NoMemory, TryClone};
use std::alloc::Global;

impl TryClone for WasmValType {
    fn try_clone(&self, _alloc: Global) -> Result<WasmValType, NoMemory> {
        Ok(*self)
    }
}

impl TryClone for CoreEntity {
    fn try_clone(&self, _alloc: Global) -> Result<CoreEntity, NoMemory> {
        Ok(*self)
    }
}

impl TryClone for InterfaceType {
    fn try_clone(&self, _alloc: Global) -> Result<InterfaceType, NoMemory> {
        Ok(*self)
    }
}

impl TryClone for TypeDef {
    fn try_clone(&self, _alloc: Global) -> Result<TypeDef, NoMemory> {
        Ok(*self)
    }
}

impl TryClone for CoreFuncSig {
    fn try_clone(&self, alloc: Global) -> Result<CoreFuncSig, NoMemory> {
        let params = self.params.try_clone(alloc)?;
        let results = self.results.try_clone(alloc)?;
        Ok(CoreFuncSig { params, results })
    }
}

impl TryClone for ComponentExternData {
    fn try_clone(&self, alloc: Global) -> Result<ComponentExternData, NoMemory> {
        let implements = self.implements.try_clone(alloc)?;
        let external_id = self.external_id.try_clone(alloc)?;
        Ok(ComponentExternData {
            implements,
            external_id,
        })
    }
}

impl TryClone for ModuleRecord {
    fn try_clone(&self, alloc: Global) -> Result<ModuleRecord, NoMemory> {
        let imports = self.imports.try_clone(alloc)?;
        let funcs = self.funcs.try_clone(alloc)?;
        let memories = self.memories.try_clone(alloc)?;
        let exports = self.exports.try_clone(alloc)?;
        Ok(ModuleRecord {
            imports,
            funcs,
            tables: self.tables,
            memories,
            globals: self.globals,
            tags: self.tags,
            exports,
        })
    }
}
