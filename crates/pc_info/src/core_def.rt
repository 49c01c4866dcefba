//! Definitions of core items in a plan.

ghost use Rattle.std.specs.Prelude.{◌≡◌};
ghost use Rattle.std.proofs.Common.{rules};
ghost use Rattle.pc_numbers.specs.declared.entity_index.EntityIndex.TheVariants as entity;
ghost use Rattle.pc_info.specs.declared.core_def.CoreDef.TheVariants as def;
ghost use Rattle.pc_info.specs.Mapped.{ForIndex, IsMapped, map_export};

use pc_entity::{
    EntityIndex, ExactEq, FuncIndex, GlobalIndex, HashedText, MemoryIndex, NoMemory,
    RuntimeComponentInstanceIndex, RuntimeInstanceIndex, TableIndex, TagIndex, TrampolineIndex,
    TryClone,
};
use pc_types::UnsafeIntrinsic;
use std::alloc::Global;

/// What an argument of a core module, a slot or an export is made of.
#[derive(Drop, PartialEq, Eq, Hash)]
pub enum CoreDef {
    /// An export of a core instance that the plan made before.
    Export(CoreExport<EntityIndex>),
    /// The flags of a component instance. Only adapter modules have them.
    InstanceFlags(RuntimeComponentInstanceIndex),
    /// A trampoline of the plan.
    Trampoline(TrampolineIndex),
    /// An unsafe intrinsic.
    UnsafeIntrinsic(UnsafeIntrinsic),
}

/// An item of a core instance.
#[derive(Drop, PartialEq, Eq, Hash)]
pub struct CoreExport<T> {
    /// The core instance, by its number in the run.
    pub instance: RuntimeInstanceIndex,
    /// The item of it.
    pub item: ExportItem<T>,
}

/// Which item of a core instance: an entity of its module, where the module is known, or else a name.
#[derive(Drop, PartialEq, Eq, Hash)]
pub enum ExportItem<T> {
    /// By the entity of its module, which is known.
    Index(T),
    /// By the name of the export. Definitions are told from others very often, so it is hashed once.
    Name(HashedText),
}

impl<T> CoreExport<T> {
    /// The same item of the same instance, with what it is known by mapped; a name stays.
    pub fn map_index<U, F: FnOnce(T) -> U>(self, f: F) -> CoreExport<U>
        requires callable { ForIndex self.item (F.pre f) }
        ensures instance { result.instance ≡ self.instance }
        ensures item { IsMapped (F.post f) self.item result.item }
    {
        let CoreExport { instance, item } = self;
        CoreExport {
            instance,
            item: item.map_index(f),
        }
    }
}

impl<T> ExportItem<T> {
    /// The same item with its entity mapped; a name stays.
    pub fn map_index<U, F: FnOnce(T) -> U>(self, f: F) -> ExportItem<U>
        requires callable { ForIndex self (F.pre f) }
        ensures { IsMapped (F.post f) self result }
    {
        match self {
            ExportItem::Index(entity) => ExportItem::Index(f(entity)),
            ExportItem::Name(name) => ExportItem::Name(name),
        }
    }
}

impl From<CoreExport<EntityIndex>> for CoreDef {
    ghost from_gives = { λ export d. d ≡ def.Export export };

    fn from(export: CoreExport<EntityIndex>) -> CoreDef {
        CoreDef::Export(export)
    }
}

impl From<CoreExport<FuncIndex>> for CoreDef {
    ghost from_gives = { λ export d. d ≡ def.Export (map_export entity.Function export) };

    fn from(export: CoreExport<FuncIndex>) -> CoreDef {
        CoreDef::Export(export.map_index(|func| EntityIndex::Function(func)))
    }
}

impl From<CoreExport<TableIndex>> for CoreDef {
    ghost from_gives = { λ export d. d ≡ def.Export (map_export entity.Table export) };

    fn from(export: CoreExport<TableIndex>) -> CoreDef {
        CoreDef::Export(export.map_index(|table| EntityIndex::Table(table)))
    }
}

impl From<CoreExport<MemoryIndex>> for CoreDef {
    ghost from_gives = { λ export d. d ≡ def.Export (map_export entity.Memory export) };

    fn from(export: CoreExport<MemoryIndex>) -> CoreDef {
        CoreDef::Export(export.map_index(|memory| EntityIndex::Memory(memory)))
    }
}

impl From<CoreExport<GlobalIndex>> for CoreDef {
    ghost from_gives = { λ export d. d ≡ def.Export (map_export entity.Global export) };

    fn from(export: CoreExport<GlobalIndex>) -> CoreDef {
        CoreDef::Export(export.map_index(|global| EntityIndex::Global(global)))
    }
}

impl From<CoreExport<TagIndex>> for CoreDef {
    ghost from_gives = { λ export d. d ≡ def.Export (map_export entity.Tag export) };

    fn from(export: CoreExport<TagIndex>) -> CoreDef {
        CoreDef::Export(export.map_index(|tag| EntityIndex::Tag(tag)))
    }
}

impl TryClone for CoreDef {
    fn try_clone(&self, alloc: Global) -> Result<CoreDef, NoMemory> {
        match self {
            CoreDef::Export(export) => Ok(CoreDef::Export(export.try_clone(alloc)?)),
            CoreDef::InstanceFlags(instance) => Ok(CoreDef::InstanceFlags(*instance)),
            CoreDef::Trampoline(trampoline) => Ok(CoreDef::Trampoline(*trampoline)),
            CoreDef::UnsafeIntrinsic(intrinsic) => Ok(CoreDef::UnsafeIntrinsic(*intrinsic)),
        }
    }
}

impl<T: TryClone> TryClone for CoreExport<T> {
    fn try_clone(&self, alloc: Global) -> Result<CoreExport<T>, NoMemory> {
        let item = self.item.try_clone(alloc)?;
        Ok(CoreExport {
            instance: self.instance,
            item,
        })
    }
}

impl<T: TryClone> TryClone for ExportItem<T> {
    fn try_clone(&self, alloc: Global) -> Result<ExportItem<T>, NoMemory> {
        match self {
            ExportItem::Index(entity) => Ok(ExportItem::Index(entity.try_clone(alloc)?)),
            ExportItem::Name(name) => Ok(ExportItem::Name(name.try_clone(alloc)?)),
        }
    }
}

impl<T: ExactEq> ExactEq for ExportItem<T> {
    ghost use Rattle.pc_entity.specs.Exact.{texts_tell};

    ghost exact = { Prim.grind (rules, texts_tell, T.exact) };
}

impl<T: ExactEq> ExactEq for CoreExport<T> {
    ghost use Rattle.pc_entity.specs.Exact.{texts_tell};

    ghost exact = { Prim.grind (rules, texts_tell, T.exact) };
}

impl ExactEq for CoreDef {
    ghost use Rattle.pc_entity.specs.Exact.{texts_tell};

    ghost exact = { Prim.grind (rules, texts_tell) };
}
