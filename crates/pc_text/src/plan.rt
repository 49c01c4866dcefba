//! The text of a plan.

ghost use Rattle.std.specs.Prelude.{◌≡◌, ◌++◌, true, codes, length, map, filter, IfOk, OnOk};
ghost use Rattle.std.specs.List.{flat_map};
ghost use Rattle.pc_numbers.specs.declared.runtime.RuntimeImportIndex.{RuntimeImportIndex};
ghost use Rattle.pc_spec_plan.specs.Text.{counts_line, import_line, import_type_line, imported_resource_line};
ghost use Rattle.pc_spec_plan.specs.Text.{line_end, number, numbered, plan_text};
ghost use Rattle.pc_info.specs.Exports.{has_items};
ghost use Rattle.pc_info.specs.Modules.{handed_in_view, is_adapter_module};
ghost use Rattle.pc_info.specs.View.{counts_view, import_type_view, import_view, view};

use crate::adapter::put_adapters;
use crate::export::put_exports;
use crate::import::{put_import_types, put_imported_resources, put_imports};
use crate::initializer::put_initializers;
use crate::intrinsic::put_intrinsics;
use crate::trampoline::put_trampolines;
use pc_entity::{NoMemory, PrimaryMap, StaticModuleIndex};
use pc_info::{Component, ComponentTranslation, ModuleTranslation};
use pc_text_pieces::{put, put_all_options, put_numbers};
use std::alloc::Global;

/// Whether a module is one of adapters.
fn is_adapter_module(which: &ModuleTranslation) -> bool
    ensures { result ≡ is_adapter_module which.now }
{
    !which.adapters.is_empty()
}

/// How many of the modules are ones of adapters.
pub(crate) fn count_adapter_modules(modules: &[ModuleTranslation]) -> usize
    ensures { result ≡ length (filter is_adapter_module modules.now) }
{
    modules
        .iter()
        .filter(|module| is_adapter_module(module))
        .count()
}

/// The first two lines: the format's number, and how many modules were handed in and made.
fn put_head(out: &mut Vec<u8>, handed_in: usize, made: usize) -> Result<(), NoMemory>
    ensures { OnOk result (out.new.items
        ≡ out.old.items ++ codes "plan 1" ++ line_end ++ codes "modules"
        ++ number handed_in ++ number made ++ line_end) }
{
    put(out, "plan 1\nmodules")?;
    put_numbers(out, &[handed_in as u64, made as u64])?;
    put(out, "\n")
}

/// The first two lines, from the modules.
fn put_modules(out: &mut Vec<u8>, modules: &[ModuleTranslation]) -> Result<(), NoMemory>
    ensures { OnOk result (out.new.items
        ≡ out.old.items ++ codes "plan 1" ++ line_end ++ codes "modules"
        ++ number (length (handed_in_view modules.now)) ++ number (length (filter is_adapter_module modules.now))
        ++ line_end) }
{
    let made = count_adapter_modules(modules);
    let handed_in = modules.len() - made;
    put_head(out, handed_in, made)
}

/// The line of the counts.
fn put_counts(out: &mut Vec<u8>, component: &Component) -> Result<(), NoMemory>
    ensures { OnOk result (out.new.items ≡ out.old.items ++ counts_line (counts_view component.now)) }
{
    let counts = [
        u64::from(component.num_runtime_instances),
        u64::from(component.num_runtime_component_instances),
        u64::from(component.num_lowerings),
        u64::from(component.num_runtime_memories),
        u64::from(component.num_runtime_tables),
        u64::from(component.num_runtime_reallocs),
        u64::from(component.num_runtime_callbacks),
        u64::from(component.num_runtime_post_returns),
        u64::from(component.num_resources),
        component.num_future_tables as u64,
        component.num_stream_tables as u64,
        component.num_error_context_tables as u64,
    ];
    put(out, "counts")?;
    put_numbers(out, &counts)?;
    put(out, "\n")
}

/// The lines of what comes from the host.
fn put_imported(out: &mut Vec<u8>, component: &Component) -> Result<(), NoMemory>
    ensures { OnOk result (out.new.items ≡ out.old.items
        ++ numbered import_type_line 0 (map import_type_view component.now.import_types)
        ++ numbered import_line 0 (map import_view component.now.imports)
        ++ numbered imported_resource_line 0
        (map (λ (r : RuntimeImportIndex). r.0) component.now.imported_resources)) }
{
    put_import_types(out, component.import_types.as_slice())?;
    put_imports(out, component.imports.as_slice())?;
    put_imported_resources(out, component.imported_resources.as_slice())
}

/// The text of a plan with its modules. Each name of the exports has its item, and each name within an instance an item
/// that stands before the instance.
pub fn plan_text(
    alloc: Global,
    t: &ComponentTranslation,
    modules: &PrimaryMap<StaticModuleIndex, ModuleTranslation>,
) -> Result<Vec<u8>, NoMemory>
    requires has_items { has_items t.now.component ≡ true }
    ensures { IfOk result (λ text. text.items ≡ plan_text (view t.now modules.now)) }
{
    let mut out = Vec::new(alloc);
    put_modules(&mut out, modules.as_slice())?;
    put_counts(&mut out, &t.component)?;
    put_imported(&mut out, &t.component)?;
    put_initializers(&mut out, t.component.initializers.as_slice())?;
    put_all_options(&mut out, t.component.options.as_slice())?;
    put_trampolines(&mut out, alloc, t.trampolines.as_slice())?;
    put_intrinsics(&mut out, &t.component.unsafe_intrinsics)?;
    put_adapters(&mut out, alloc, modules.as_slice())?;
    put_exports(&mut out, alloc, &t.component)?;
    Ok(out)
}
