//! The exports of the root component, a line each, and behind the line of an instance those of what it exports.
//!
//! Instances that are open stand on a stack of their own, so a deep tree takes heap and no call stack. The path to the
//! innermost one is one text, which grows by a name and is cut back.

ghost use Rattle.std.specs.Prelude.{◌≡◌, ◌++◌, ◌∷◌, true, length, codes, reverse, OnOk};
ghost use Rattle.std.specs.List.{flat_map};
ghost use Rattle.pc_spec_plan.specs.Text.{definition, named_lines, number, quoted};
ghost use Rattle.pc_info.specs.Definitions.{def_view};
ghost use Rattle.pc_info.specs.Exports.{are_behind_their_parts, exports_view, has_items};
ghost use Rattle.pc_text.specs.ExportWalk.{IsOpen, Steps, item_text, node_line, opened};

use pc_entity::{ExportIndex, NoMemory, OptionsIndex, PrimaryMap, Text};
use pc_info::{Component, CoreDef, Export};
use pc_names::RawIter;
use pc_text_pieces::{put, put_definition, put_extern_data, put_key, put_quoted};
use pc_types::ComponentExternData;
use std::alloc::Global;

/// An instance some of whose exports are yet to be printed.
#[derive(Drop)]
struct Open<'a> {
    /// The exports that are left.
    left: RawIter<'a, Text, (ExportIndex, ComponentExternData)>,
    /// How long the path to the instance is.
    path: usize,
}

/// What a lifted function is made of, and its options.
fn put_lifted(out: &mut Vec<u8>, func: &CoreDef, options: OptionsIndex) -> Result<(), NoMemory>
    ensures { OnOk result (out.new.items
        ≡ out.old.items ++ codes " lifted " ++ definition (def_view func.now) ++ codes " options" ++ number options.0) }
{
    put(out, " lifted ")?;
    put_definition(out, func)?;
    put(out, " options")?;
    put_key(out, options)
}

/// What an export is, without what it exports itself.
fn put_item(out: &mut Vec<u8>, export: &Export) -> Result<(), NoMemory>
    ensures { OnOk result (out.new.items ≡ out.old.items ++ item_text export.now) }
{
    match export {
        Export::LiftedFunction { func, options, .. } => put_lifted(out, func, *options),
        Export::ImportedFunction { import, .. } => {
            put(out, " imported")?;
            put_key(out, *import)
        }
        Export::ModuleStatic { index, .. } => {
            put(out, " module-static")?;
            put_key(out, *index)
        }
        Export::ModuleImport { import, .. } => {
            put(out, " module-import")?;
            put_key(out, *import)
        }
        Export::Instance { .. } => put(out, " instance"),
        Export::Type_(_) => put(out, " type"),
    }
}

/// The line of an export under its path.
#[tactic(auto, unfolding(crate::specs::ExportWalk::node_line))]
fn put_node(
    out: &mut Vec<u8>,
    path: &[u8],
    meta: &ComponentExternData,
    export: &Export,
) -> Result<(), NoMemory>
    ensures { OnOk result (out.new.items ≡ out.old.items ++ node_line path.now meta.now export.now) }
{
    put(out, "export")?;
    out.extend_from_slice(path)?;
    put_item(out, export)?;
    put_extern_data(out, meta)?;
    put(out, "\n")
}

/// A name at the end of a path.
fn put_name(path: &mut Vec<u8>, name: &str) -> Result<(), NoMemory>
    ensures { OnOk result (path.new.items ≡ path.old.items ++ codes " " ++ quoted name.now) }
{
    put(path, " ")?;
    put_quoted(path, name)
}

/// Opens an export whose path is so long, if it is an instance.
#[tactic(auto, unfolding(crate::specs::ExportWalk::opened))]
fn open_item<'a>(stack: &mut Vec<Open<'a>>, export: &'a Export, path: usize) -> Result<(), NoMemory>
    ensures { OnOk result (stack.new.items ≡ stack.old.items ++ opened export.now path) }
{
    match export {
        Export::Instance { exports, .. } => {
            stack.push(Open {
                left: exports.raw_iter(),
                path,
            })?;
            Ok(())
        }
        _ => Ok(()),
    }
}

/// Prints the line of the next export of an instance, which was the innermost open one, and opens that export. Where
/// none is left the instance stays closed.
fn put_next<'a>(
    out: &mut Vec<u8>,
    path: &mut Vec<u8>,
    stack: &mut Vec<Open<'a>>,
    items: &'a PrimaryMap<ExportIndex, Export>,
    mut innermost: Open<'a>,
) -> Result<(), NoMemory>
    requires ordered { are_behind_their_parts 0 items.now ≡ true }
    requires is_open { IsOpen (length items.now) (length path.old.items) (innermost ∷ reverse stack.old.items) }
    ensures { OnOk result (Steps items.now out.old.items path.old.items
        (innermost.entry ∷ reverse stack.old.items)
        out.new.items path.new.items (reverse stack.new.items)) }
{
    path.truncate(innermost.path);
    match innermost.left.next() {
        None => Ok(()),
        Some((name, entry)) => {
            let export = &items[entry.0];
            put_name(path, name.as_str())?;
            put_node(out, path.as_slice(), &entry.1, export)?;
            stack.push(innermost)?;
            open_item(stack, export, path.len())
        }
    }
}

/// A line for each export and for each that an instance exports, an instance before what it exports. Each name has its
/// item, which stands before the instance.
pub(crate) fn put_exports(
    out: &mut Vec<u8>,
    alloc: Global,
    component: &Component,
) -> Result<(), NoMemory>
    requires has_items { has_items component.now ≡ true }
    ensures { OnOk result (out.new.items ≡ out.old.items ++ flat_map named_lines (exports_view component.now)) }
{
    let mut path = Vec::new(alloc);
    let mut stack = Vec::new(alloc);
    stack.push(Open {
        left: component.exports.raw_iter(),
        path: 0,
    })?;
    while let Some(innermost) = stack.pop() {
        put_next(
            out,
            &mut path,
            &mut stack,
            &component.export_items,
            innermost,
        )?;
    }
    Ok(())
}
