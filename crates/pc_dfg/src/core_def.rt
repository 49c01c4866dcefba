//! Definitions of core items in a graph.

ghost use Rattle.std.specs.Prelude.{◌≡◌};
ghost use Rattle.std.proofs.Common.{rules};
ghost use Rattle.pc_numbers.specs.declared.entity_index.EntityIndex.TheVariants as entity;
ghost use Rattle.pc_info.specs.Mapped.{ForIndex, IsMapped};
ghost use Rattle.pc_dfg.specs.declared.core_def.CoreDef.TheVariants as def;
ghost use Rattle.pc_dfg.specs.Mapped.{map_export};

use crate::{AdapterId, InstanceId};
use pc_entity::{
    EntityIndex, ExactEq, FuncIndex, GlobalIndex, MemoryIndex, ModuleInternedTypeIndex, NoMemory,
    RuntimeComponentInstanceIndex, TableIndex, TagIndex, TrampolineIndex, TryClone,
};
use pc_info::ExportItem;
use pc_types::UnsafeIntrinsic;
use std::alloc::Global;

/// What an argument of a core module, a function of options or an export is made of.
#[derive(Drop, PartialEq, Eq, Hash)]
pub enum CoreDef {
    /// An item of a core instance.
    Export(CoreExport<EntityIndex>),
    /// The flags of a component instance. Only adapter modules have them.
    InstanceFlags(RuntimeComponentInstanceIndex),
    /// A trampoline.
    Trampoline(TrampolineIndex),
    /// An unsafe intrinsic, with its core signature.
    UnsafeIntrinsic(ModuleInternedTypeIndex, UnsafeIntrinsic),
    /// A fused adapter, which becomes an item of an adapter module in the plan.
    Adapter(AdapterId),
}

/// An item of a core instance.
#[derive(Drop, PartialEq, Eq, Hash)]
pub struct CoreExport<T> {
    /// The core instance.
    pub instance: InstanceId,
    /// The item of it.
    pub item: ExportItem<T>,
}

impl<T> CoreExport<T> {
    /// The same item of the same instance, with what it is known by mapped; a name stays.
    pub fn map_index<U, F: FnOnce(T) -> U>(self, f: F) -> CoreExport<U>
        requires callable { ForIndex self.item (F.pre f) }
        ensures instance { result.instance ≡ self.instance }
        ensures item { IsMapped (F.post f) self.item result.item }
    {
        let CoreExport { instance, item } = self;
        CoreExport {
            instance,
            item: item.map_index(f),
        }
    }
}

impl From<CoreExport<EntityIndex>> for CoreDef {
    ghost from_gives = { λ export d. d ≡ def.Export export };

    fn from(export: CoreExport<EntityIndex>) -> CoreDef {
        CoreDef::Export(export)
    }
}

impl From<CoreExport<FuncIndex>> for CoreDef {
    ghost from_gives = { λ export d. d ≡ def.Export (map_export entity.Function export) };

    fn from(export: CoreExport<FuncIndex>) -> CoreDef {
        CoreDef::Export(export.map_index(|func| EntityIndex::Function(func)))
    }
}

impl From<CoreExport<TableIndex>> for CoreDef {
    ghost from_gives = { λ export d. d ≡ def.Export (map_export entity.Table export) };

    fn from(export: CoreExport<TableIndex>) -> CoreDef {
        CoreDef::Export(export.map_index(|table| EntityIndex::Table(table)))
    }
}

impl From<CoreExport<MemoryIndex>> for CoreDef {
    ghost from_gives = { λ export d. d ≡ def.Export (map_export entity.Memory export) };

    fn from(export: CoreExport<MemoryIndex>) -> CoreDef {
        CoreDef::Export(export.map_index(|memory| EntityIndex::Memory(memory)))
    }
}

impl From<CoreExport<GlobalIndex>> for CoreDef {
    ghost from_gives = { λ export d. d ≡ def.Export (map_export entity.Global export) };

    fn from(export: CoreExport<GlobalIndex>) -> CoreDef {
        CoreDef::Export(export.map_index(|global| EntityIndex::Global(global)))
    }
}

impl From<CoreExport<TagIndex>> for CoreDef {
    ghost from_gives = { λ export d. d ≡ def.Export (map_export entity.Tag export) };

    fn from(export: CoreExport<TagIndex>) -> CoreDef {
        CoreDef::Export(export.map_index(|tag| EntityIndex::Tag(tag)))
    }
}

impl TryClone for CoreDef {
    fn try_clone(&self, alloc: Global) -> Result<CoreDef, NoMemory> {
        match self {
            CoreDef::Export(export) => Ok(CoreDef::Export(export.try_clone(alloc)?)),
            CoreDef::InstanceFlags(instance) => Ok(CoreDef::InstanceFlags(*instance)),
            CoreDef::Trampoline(trampoline) => Ok(CoreDef::Trampoline(*trampoline)),
            CoreDef::UnsafeIntrinsic(signature, intrinsic) => {
                Ok(CoreDef::UnsafeIntrinsic(*signature, *intrinsic))
            }
            CoreDef::Adapter(adapter) => Ok(CoreDef::Adapter(*adapter)),
        }
    }
}

impl<T: TryClone> TryClone for CoreExport<T> {
    fn try_clone(&self, alloc: Global) -> Result<CoreExport<T>, NoMemory> {
        let item = self.item.try_clone(alloc)?;
        Ok(CoreExport {
            instance: self.instance,
            item,
        })
    }
}

impl<T: ExactEq> ExactEq for CoreExport<T> {
    ghost use Rattle.pc_entity.specs.Exact.{texts_tell};

    ghost exact = { Prim.grind (rules, texts_tell, T.exact) };
}

impl ExactEq for CoreDef {
    ghost use Rattle.pc_dfg.specs.Exact.{def_exact};

    ghost exact = { def_exact };
}
