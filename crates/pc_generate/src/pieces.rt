//! Payloads of one item each.

ghost use Rattle.std.specs.Prelude.{◌≡◌, ◌∷◌, [], IfOk};
ghost use Rattle.pc_generate.specs.Bodies.{aliasing, exporting, extern_name, importing, instance_with, lifting};
ghost use Rattle.pc_generate.specs.Bodies.{core_aliasing, core_instance, core_items, core_module, first_instance};
ghost use Rattle.pc_generate.specs.Bodies.{lowering};
ghost use Rattle.pc_generate.specs.Table.{f};

use pc_entity::{EntityIndex, FuncIndex, NoMemory, Seq, Text};
use pc_parsed::{
    AliasItem, CanonItem, ComponentInstanceItem, ExportEntry, ExternName, ImportItem, InstanceItem,
    ItemKind, Payload,
};
use pc_types::{CoreEntity, CoreKind, Entity, ModuleRecord, SharedRecord};
use std::alloc::Global;

/// A list of one item.
pub(crate) fn one<T: Drop>(alloc: Global, item: T) -> Result<Seq<T>, NoMemory>
    ensures { IfOk result (λ list. list ≡ item ∷ []) }
{
    let mut list = Seq::new(alloc);
    list.push(item)?;
    Ok(list)
}

/// The name of each function.
pub(crate) fn name(alloc: Global) -> Result<Text, NoMemory>
    ensures { IfOk result (λ name. name ≡ f) }
{
    Text::copy_of(alloc, "f")
}

fn extern_name(alloc: Global) -> Result<ExternName, NoMemory>
    ensures { IfOk result (λ name. name ≡ extern_name) }
{
    Ok(ExternName {
        name: name(alloc)?,
        implements: None,
        external_id: None,
    })
}

/// A core module with these imports, one function, and this one as its export.
pub(crate) fn core_module(
    alloc: Global,
    imports: Seq<(Text, Text, CoreEntity)>,
    func: u32,
) -> Result<Payload, NoMemory>
    ensures { IfOk result (λ p. p ≡ core_module imports func) }
{
    let export = (name(alloc)?, EntityIndex::Function(FuncIndex(func)));
    let record_ = ModuleRecord {
        imports,
        funcs: one(alloc, 0)?,
        tables: 0,
        memories: Seq::new(alloc),
        globals: 0,
        tags: 0,
        exports: one(alloc, export)?,
    };
    Ok(Payload::ModuleSection {
        record_: SharedRecord::new(alloc, record_)?,
        ty: 1,
    })
}

/// An instance of the first core module, with these arguments.
pub(crate) fn core_instance(alloc: Global, args: Seq<(Text, u32)>) -> Result<Payload, NoMemory>
    ensures { IfOk result (λ p. p ≡ core_instance args) }
{
    let item = InstanceItem::Instantiate { module: 0, args };
    Ok(Payload::InstanceSection(one(alloc, item)?))
}

/// A core instance that has the first core function.
pub(crate) fn core_items(alloc: Global) -> Result<Payload, NoMemory>
    ensures { IfOk result (λ p. p ≡ core_items) }
{
    let item = (name(alloc)?, EntityIndex::Function(FuncIndex(0)));
    let item = InstanceItem::FromExports(one(alloc, item)?);
    Ok(Payload::InstanceSection(one(alloc, item)?))
}

/// The function of a core instance.
pub(crate) fn core_aliasing(alloc: Global, instance: u32) -> Result<Payload, NoMemory>
    ensures { IfOk result (λ p. p ≡ core_aliasing instance) }
{
    let item = AliasItem::CoreInstanceExport {
        kind: CoreKind::Func,
        instance,
        name: name(alloc)?,
    };
    Ok(Payload::ComponentAliasSection(one(alloc, item)?))
}

/// A core function becomes a function.
pub(crate) fn lifting(alloc: Global, func: u32) -> Result<Payload, NoMemory>
    ensures { IfOk result (λ p. p ≡ lifting func) }
{
    let item = CanonItem::Lift(func, 0, 0, Seq::new(alloc));
    Ok(Payload::ComponentCanonicalSection(one(alloc, item)?))
}

/// The first function becomes a core function.
pub(crate) fn lowering(alloc: Global) -> Result<Payload, NoMemory>
    ensures { IfOk result (λ p. p ≡ lowering) }
{
    let item = CanonItem::Lower(0, 0, 0, Seq::new(alloc));
    Ok(Payload::ComponentCanonicalSection(one(alloc, item)?))
}

/// A function of the component is imported.
pub(crate) fn importing(alloc: Global) -> Result<Payload, NoMemory>
    ensures { IfOk result (λ p. p ≡ importing) }
{
    let item = ImportItem {
        name: extern_name(alloc)?,
        ty: Entity::Func(0),
    };
    Ok(Payload::ComponentImportSection(one(alloc, item)?))
}

/// A function is exported.
pub(crate) fn exporting(alloc: Global, func: u32) -> Result<Payload, NoMemory>
    ensures { IfOk result (λ p. p ≡ exporting func) }
{
    let item = ExportEntry {
        name: extern_name(alloc)?,
        kind: ItemKind::Func,
        index: func,
    };
    Ok(Payload::ComponentExportSection(one(alloc, item)?))
}

/// The function of a component instance.
pub(crate) fn aliasing(alloc: Global, instance: u32) -> Result<Payload, NoMemory>
    ensures { IfOk result (λ p. p ≡ aliasing instance) }
{
    let item = AliasItem::InstanceExport {
        kind: ItemKind::Func,
        instance,
        name: name(alloc)?,
    };
    Ok(Payload::ComponentAliasSection(one(alloc, item)?))
}

/// An instance of the first component, which takes nothing.
pub(crate) fn first_instance(alloc: Global) -> Result<Payload, NoMemory>
    ensures { IfOk result (λ p. p ≡ first_instance) }
{
    let item = ComponentInstanceItem::Instantiate {
        component: 0,
        args: Seq::new(alloc),
        ty: 2,
    };
    Ok(Payload::ComponentInstanceSection(one(alloc, item)?))
}

/// An instance of the second component, which takes a function.
pub(crate) fn instance_with(alloc: Global, func: u32) -> Result<Payload, NoMemory>
    ensures { IfOk result (λ p. p ≡ instance_with func) }
{
    let item = ComponentInstanceItem::Instantiate {
        component: 1,
        args: one(alloc, (name(alloc)?, ItemKind::Func, func))?,
        ty: 2,
    };
    Ok(Payload::ComponentInstanceSection(one(alloc, item)?))
}
