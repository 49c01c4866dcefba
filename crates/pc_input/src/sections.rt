//! The entries of a component's sections.

ghost use Rattle.pc_input.specs.Payload.{type_item, import_item, export_entry, instance_item};
ghost use Rattle.pc_input.specs.Payload.{component_instance_item, alias_item};
ghost use Rattle.pc_input.specs.Payload.{instance_keys, component_instance_keys, alias_keys};
ghost use Rattle.pc_input_values.specs.Tree.{by_row};
ghost use Rattle.pc_input_values.specs.Reads.{Reads};

use crate::entry::ReadEntry;
use pc_input_tokens::Tree;
use pc_input_values::{DecodeError, Form, read};
use pc_parsed::{
    AliasItem, ComponentInstanceItem, ExportEntry, ImportItem, InstanceItem, TypeItem,
};
use std::alloc::Global;

/// `"other"`, or `{"resource":[id,rep,dtor]}` with a destructor or null.
impl ReadEntry for TypeItem {
    ghost shape = { λ _. type_item };

    #[tactic(auto, unfolding(crate::specs::Payload::type_item))]
    fn read<F: Form, V: Tree>(form: &F, alloc: Global, value: &V) -> Result<TypeItem, DecodeError> {
        if let Some(word) = value.as_str() {
            return if word == "other" {
                Ok(TypeItem::Other)
            } else {
                Err(DecodeError::BadForm)
            };
        }
        match value.tagged() {
            Some(("resource", body)) => {
                let (id, rep, dtor) = read(form, alloc, body)?;
                Ok(TypeItem::Resource { id, rep, dtor })
            }
            _ => Err(DecodeError::BadForm),
        }
    }
}

/// `[NAME,E]`.
impl ReadEntry for ImportItem {
    ghost shape = { import_item };

    #[tactic(auto, unfolding(crate::specs::Payload::import_item))]
    fn read<F: Form, V: Tree>(
        form: &F,
        alloc: Global,
        value: &V,
    ) -> Result<ImportItem, DecodeError> {
        let (name, ty) = read(form, alloc, value)?;
        Ok(ImportItem { name, ty })
    }
}

/// `[NAME,item kind,i]`.
impl ReadEntry for ExportEntry {
    ghost shape = { export_entry };

    #[tactic(auto, unfolding(crate::specs::Payload::export_entry))]
    fn read<F: Form, V: Tree>(
        form: &F,
        alloc: Global,
        value: &V,
    ) -> Result<ExportEntry, DecodeError> {
        let (name, kind, index) = read(form, alloc, value)?;
        Ok(ExportEntry { name, kind, index })
    }
}

/// A core instance, by its key.
fn instance<F: Form, V: Tree>(
    form: &F,
    alloc: Global,
    key: &str,
    body: &V,
) -> Result<InstanceItem, DecodeError>
    ensures { Reads result (by_row (instance_keys (F.rules form.now)) key.now (V.means body.now)) }
{
    match key {
        "instantiate" => {
            let (module, args) = read(form, alloc, body)?;
            Ok(InstanceItem::Instantiate { module, args })
        }
        "exports" => Ok(InstanceItem::FromExports(read(form, alloc, body)?)),
        _ => Err(DecodeError::BadForm),
    }
}

/// `{"instantiate":[module,[["name",i],...]]}` or `{"exports":[["name",core kind,i],...]}`.
impl ReadEntry for InstanceItem {
    ghost shape = { instance_item };

    #[tactic(auto, unfolding(crate::specs::Payload::instance_item))]
    fn read<F: Form, V: Tree>(
        form: &F,
        alloc: Global,
        value: &V,
    ) -> Result<InstanceItem, DecodeError> {
        match value.tagged() {
            Some((key, body)) => instance(form, alloc, key, body),
            None => Err(DecodeError::BadForm),
        }
    }
}

/// A component instance, by its key.
fn component_instance<F: Form, V: Tree>(
    form: &F,
    alloc: Global,
    key: &str,
    body: &V,
) -> Result<ComponentInstanceItem, DecodeError>
    ensures { Reads result (by_row (component_instance_keys (F.rules form.now)) key.now (V.means body.now)) }
{
    match key {
        "instantiate" => {
            let (component, args, ty) = read(form, alloc, body)?;
            Ok(ComponentInstanceItem::Instantiate {
                component,
                args,
                ty,
            })
        }
        "exports" => {
            let (exports, ty) = read(form, alloc, body)?;
            Ok(ComponentInstanceItem::FromExports { exports, ty })
        }
        _ => Err(DecodeError::BadForm),
    }
}

/// `{"instantiate":[component,[["name",item kind,i],...],ty]}` or `{"exports":[[[NAME,item kind,i],...],ty]}`.
impl ReadEntry for ComponentInstanceItem {
    ghost shape = { component_instance_item };

    #[tactic(auto, unfolding(crate::specs::Payload::component_instance_item))]
    fn read<F: Form, V: Tree>(
        form: &F,
        alloc: Global,
        value: &V,
    ) -> Result<ComponentInstanceItem, DecodeError> {
        match value.tagged() {
            Some((key, body)) => component_instance(form, alloc, key, body),
            None => Err(DecodeError::BadForm),
        }
    }
}

/// An alias, by its key.
fn alias<F: Form, V: Tree>(
    form: &F,
    alloc: Global,
    key: &str,
    body: &V,
) -> Result<AliasItem, DecodeError>
    ensures { Reads result (by_row (alias_keys (F.rules form.now)) key.now (V.means body.now)) }
{
    match key {
        "export" => {
            let (kind, instance, name) = read(form, alloc, body)?;
            Ok(AliasItem::InstanceExport {
                kind,
                instance,
                name,
            })
        }
        "core-export" => {
            let (kind, instance, name) = read(form, alloc, body)?;
            Ok(AliasItem::CoreInstanceExport {
                kind,
                instance,
                name,
            })
        }
        "outer" => {
            let (kind, count, index) = read(form, alloc, body)?;
            Ok(AliasItem::Outer { kind, count, index })
        }
        _ => Err(DecodeError::BadForm),
    }
}

/// `{"export":[item kind,i,"name"]}`, `{"core-export":[core kind,i,"name"]}` or `{"outer":[kind,count,i]}`.
impl ReadEntry for AliasItem {
    ghost shape = { alias_item };

    #[tactic(auto, unfolding(crate::specs::Payload::alias_item))]
    fn read<F: Form, V: Tree>(
        form: &F,
        alloc: Global,
        value: &V,
    ) -> Result<AliasItem, DecodeError> {
        match value.tagged() {
            Some((key, body)) => alias(form, alloc, key, body),
            None => Err(DecodeError::BadForm),
        }
    }
}
