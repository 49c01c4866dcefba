//! The items of the sections whose entries need nothing but themselves, in order.

ghost use Rattle.std.specs.Prelude.{◌≡◌, ◌++◌, ◌∷◌, [], Option, map, IfOk, OnOk};
ghost use Rattle.std.specs.List.{cons_option, filter_map};
ghost use Rattle.std.specs.Option.{option_map};
ghost use Rattle.pc_local.specs.Entries.{canon_local, component_instance_local, export_entry, export_local};
ghost use Rattle.pc_local.specs.Entries.{import_local, instance_local, type_local};
ghost use Rattle.pc_local.specs.declared.item.LocalInitializer.{LocalInitializer};

use crate::item::{LocalInitializer, Translation};
use pc_entity::{NoMemory, Seq, TryClone};
use pc_parsed::{
    CanonItem, ComponentInstanceItem, ExportEntry, ImportItem, InstanceItem, TypeItem, is_exposed,
};
use std::alloc::Global;

/// An entry of a section that may be an item of the body.
pub(crate) trait Entry {
    // The item that the entry is.
    ghost item: { Self → Option LocalInitializer };

    fn item(&self, alloc: Global) -> Result<Option<LocalInitializer>, NoMemory>
        ensures { IfOk result (λ i. i ≡ item self.now) };
}

impl Entry for TypeItem {
    ghost item = { type_local };

    fn item(&self, _alloc: Global) -> Result<Option<LocalInitializer>, NoMemory> {
        match self {
            TypeItem::Resource { id, rep, dtor } => Ok(Some(LocalInitializer::Resource {
                id: *id,
                rep: *rep,
                dtor: *dtor,
            })),
            TypeItem::Other => Ok(None),
        }
    }
}

impl Entry for InstanceItem {
    ghost item = { instance_local };

    fn item(&self, alloc: Global) -> Result<Option<LocalInitializer>, NoMemory> {
        match self {
            InstanceItem::Instantiate { module, args } => {
                let args = args.try_clone(alloc)?;
                Ok(Some(LocalInitializer::ModuleInstantiate {
                    module: *module,
                    args,
                }))
            }
            InstanceItem::FromExports(items) => Ok(Some(LocalInitializer::ModuleSynthetic(
                items.try_clone(alloc)?,
            ))),
        }
    }
}

impl Entry for ComponentInstanceItem {
    ghost item = { component_instance_local };

    fn item(&self, alloc: Global) -> Result<Option<LocalInitializer>, NoMemory> {
        match self {
            ComponentInstanceItem::Instantiate {
                component,
                args,
                ty,
            } => {
                let args = args.try_clone(alloc)?;
                Ok(Some(LocalInitializer::ComponentInstantiate {
                    component: *component,
                    args,
                    ty: *ty,
                }))
            }
            ComponentInstanceItem::FromExports { exports, ty } => {
                let exports = exports.try_clone(alloc)?;
                Ok(Some(LocalInitializer::ComponentSynthetic { exports, ty: *ty }))
            }
        }
    }
}

impl Entry for CanonItem {
    ghost item = { canon_local };

    fn item(&self, alloc: Global) -> Result<Option<LocalInitializer>, NoMemory> {
        match self {
            CanonItem::Lift(func, ty, core, opts) => {
                let opts = opts.try_clone(alloc)?;
                Ok(Some(LocalInitializer::Lift {
                    func: *func,
                    ty: *ty,
                    core: *core,
                    opts,
                }))
            }
            CanonItem::Lower(func, ty, core, opts) => {
                let opts = opts.try_clone(alloc)?;
                Ok(Some(LocalInitializer::Lower {
                    func: *func,
                    ty: *ty,
                    core: *core,
                    opts,
                }))
            }
            CanonItem::TaskReturn(core, result, opts) => {
                let opts = opts.try_clone(alloc)?;
                Ok(Some(LocalInitializer::TaskReturn {
                    core: *core,
                    result: *result,
                    opts,
                }))
            }
            CanonItem::WaitableSetWait(..) | CanonItem::WaitableSetPoll(..) => Ok(Some(
                LocalInitializer::WaitableSet(self.try_clone(alloc)?),
            )),
            CanonItem::ErrorContextNew(..)
            | CanonItem::ErrorContextDebugMessage(..)
            | CanonItem::ErrorContextDrop(..) => Ok(Some(LocalInitializer::ErrorContext(
                self.try_clone(alloc)?,
            ))),
            CanonItem::ContextGet(..) | CanonItem::ContextSet(..) => Ok(Some(
                LocalInitializer::Context(self.try_clone(alloc)?),
            )),
            CanonItem::ThreadNewIndirect(core, start, table) => {
                Ok(Some(LocalInitializer::ThreadNewIndirect {
                    core: *core,
                    start: *start,
                    table: *table,
                }))
            }
            // No list without a static fault has these.
            CanonItem::ThreadSpawnRef
            | CanonItem::ThreadSpawnIndirect
            | CanonItem::ThreadAvailableParallelism
            | CanonItem::StreamForward
            | CanonItem::FutureForward => Ok(None),
            _ => Ok(Some(LocalInitializer::Builtin(self.try_clone(alloc)?))),
        }
    }
}

fn push_some(
    out: &mut Seq<LocalInitializer>,
    item: Option<LocalInitializer>,
) -> Result<(), NoMemory>
    ensures ok { OnOk result (out.new ≡ out.old ++ cons_option item []) }
{
    match item {
        Some(item) => out.push(item),
        None => Ok(()),
    }
}

/// Appends the items of a section.
pub(crate) fn push_all<T: Entry>(
    alloc: Global,
    out: &mut Seq<LocalInitializer>,
    entries: &[T],
) -> Result<(), NoMemory>
    ensures ok { OnOk result (out.new ≡ out.old ++ filter_map T.item entries.now) }
{
    for entry in entries {
        push_some(out, entry.item(alloc)?)?;
    }
    Ok(())
}

/// The item of an import. That of the exposed name is the import of the unsafe intrinsics.
fn import(
    alloc: Global,
    exposed: Option<&str>,
    entry: &ImportItem,
) -> Result<LocalInitializer, NoMemory>
    ensures { IfOk result (λ i. i ≡ import_local (option_map (λ x. x.now) exposed.entry) entry.now) }
{
    if is_exposed(exposed, &entry.name.name) {
        return Ok(LocalInitializer::IntrinsicsImport);
    }
    let name = entry.name.try_clone(alloc)?;
    Ok(LocalInitializer::Import { name, ty: entry.ty })
}

/// Appends the items of an import section.
pub(crate) fn push_imports(
    alloc: Global,
    exposed: Option<&str>,
    out: &mut Seq<LocalInitializer>,
    entries: &[ImportItem],
) -> Result<(), NoMemory>
    ensures ok { OnOk result (out.new ≡ out.old
        ++ map (import_local (option_map (λ x. x.now) exposed.entry)) entries.now) }
{
    for entry in entries {
        out.push(import(alloc, exposed, entry)?)?;
    }
    Ok(())
}

fn push_export(alloc: Global, body: &mut Translation, entry: &ExportEntry) -> Result<(), NoMemory>
    ensures items { OnOk result (body.new.initializers ≡ body.old.initializers ++ export_local entry.now ∷ []) }
    ensures exports { OnOk result (body.new.exports ≡ body.old.exports ++ export_entry entry.now ∷ []) }
{
    let name = entry.name.try_clone(alloc)?;
    body.initializers.push(LocalInitializer::Export {
        name,
        kind: entry.kind,
        index: entry.index,
    })?;
    let name = entry.name.try_clone(alloc)?;
    body.exports.push((name, entry.kind, entry.index))
}

/// Appends the items of an export section, and what they export.
pub(crate) fn push_exports(
    alloc: Global,
    body: &mut Translation,
    entries: &[ExportEntry],
) -> Result<(), NoMemory>
    ensures items { OnOk result (body.new.initializers ≡ body.old.initializers ++ map export_local entries.now) }
    ensures exports { OnOk result (body.new.exports ≡ body.old.exports ++ map export_entry entries.now) }
{
    for entry in entries {
        push_export(alloc, body, entry)?;
    }
    Ok(())
}
