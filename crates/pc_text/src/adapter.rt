//! What the adapter modules say of their functions, a line each.
//!
//! The lines stand by the numbers of the adapters, which follow the order of the adapters and not that of the modules
//! that they were put into.

ghost use Rattle.std.specs.Prelude.{◌≡◌, ◌++◌, codes, map, IfOk, OnOk};
ghost use Rattle.std.specs.List.{flat_map};
ghost use Rattle.pc_spec_plan.specs.Text.{adapter_line, by_number, model, number, plan_options};
ghost use Rattle.pc_info.specs.Modules.{adapter_view, adapters_view};
ghost use Rattle.pc_info.specs.Options.{side_model, side_view};
ghost use Rattle.pc_text.specs.Placed.{placed_view};

use pc_entity::NoMemory;
use pc_info::{AdapterRecord, ModuleTranslation, SideRecord};
use pc_text_pieces::{async_word, encoding_word, put, put_key, put_maybe_number, put_number};
use std::alloc::Global;

/// Where the values of one side lie.
fn put_model(out: &mut Vec<u8>, side: &SideRecord) -> Result<(), NoMemory>
    ensures { OnOk result (out.new.items
        ≡ out.old.items ++ model (side_model side.now.gc side.now.memory side.now.realloc)) }
{
    if side.gc {
        put(out, " gc")
    } else {
        put_maybe_number(out, side.memory)?;
        put_maybe_number(out, side.realloc)
    }
}

/// The options of one side, from the component instance on.
fn put_side(out: &mut Vec<u8>, side: &SideRecord) -> Result<(), NoMemory>
    ensures { OnOk result (out.new.items ≡ out.old.items ++ plan_options (side_view side.now)) }
{
    put_key(out, side.instance)?;
    put(out, " ")?;
    put(out, encoding_word(side.string_encoding))?;
    put(out, async_word(side.async_))?;
    put_maybe_number(out, side.callback)?;
    put_maybe_number(out, side.post_return)?;
    put_model(out, side)
}

/// The numbers of an adapter, in a module.
fn put_numbers_of(out: &mut Vec<u8>, n: usize, adapter: &AdapterRecord) -> Result<(), NoMemory>
    ensures { OnOk result (out.new.items ≡ out.old.items
        ++ codes "adapter" ++ number n ++ number adapter.now.adapter ++ number adapter.now.func.0
        ++ number adapter.now.callee) }
{
    put(out, "adapter")?;
    put_number(out, n as u64)?;
    put_number(out, u64::from(adapter.adapter))?;
    put_key(out, adapter.func)?;
    put_number(out, u64::from(adapter.callee))
}

/// The line of an adapter in a module.
fn put_adapter(out: &mut Vec<u8>, n: usize, adapter: &AdapterRecord) -> Result<(), NoMemory>
    ensures { OnOk result (out.new.items ≡ out.old.items ++ adapter_line (adapter_view n adapter.now)) }
{
    put_numbers_of(out, n, adapter)?;
    put(out, " lift")?;
    put_side(out, &adapter.lift)?;
    put(out, " lower")?;
    put_side(out, &adapter.lower)?;
    put(out, "\n")
}

/// An adapter with the place of its module.
#[derive(Clone, Copy)]
pub(crate) struct Placed<'a> {
    pub(crate) module: usize,
    pub(crate) adapter: &'a AdapterRecord,
}

/// Adds the adapters of a module.
fn add_adapters<'a>(
    all: &mut Vec<Placed<'a>>,
    n: usize,
    adapters: &'a [AdapterRecord],
) -> Result<(), NoMemory>
    ensures { OnOk result (map placed_view all.new.items
        ≡ map placed_view all.old.items ++ map (adapter_view n) adapters.now) }
{
    for adapter in adapters {
        all.push(Placed { module: n, adapter })?;
    }
    Ok(())
}

/// The adapters of all modules, in the order of the modules.
fn all_adapters<'a>(
    alloc: Global,
    modules: &'a [ModuleTranslation],
) -> Result<Vec<Placed<'a>>, NoMemory>
    ensures { IfOk result (λ all. map placed_view all.items ≡ adapters_view 0 modules.now) }
{
    let mut all = Vec::new(alloc);
    for (n, module) in modules.iter().enumerate() {
        add_adapters(&mut all, n, module.adapters.as_slice())?;
    }
    Ok(all)
}

/// Puts the adapters in the order of their numbers; those of one number keep their order.
fn sort_by_number(all: &mut Vec<Placed<'_>>) -> Result<(), NoMemory>
    ensures { OnOk result (map placed_view all.new.items ≡ by_number (map placed_view all.old.items)) }
{
    all.sort_by_key(|placed| placed.adapter.adapter)?;
    Ok(())
}

/// A line for each adapter, as they stand.
fn put_all(out: &mut Vec<u8>, all: &[Placed<'_>]) -> Result<(), NoMemory>
    ensures { OnOk result (out.new.items ≡ out.old.items ++ flat_map adapter_line (map placed_view all.now)) }
{
    for placed in all {
        put_adapter(out, placed.module, placed.adapter)?;
    }
    Ok(())
}

/// A line for each adapter of the modules, by its number.
pub(crate) fn put_adapters(
    out: &mut Vec<u8>,
    alloc: Global,
    modules: &[ModuleTranslation],
) -> Result<(), NoMemory>
    ensures { OnOk result (out.new.items
        ≡ out.old.items ++ flat_map adapter_line (by_number (adapters_view 0 modules.now))) }
{
    let mut all = all_adapters(alloc, modules)?;
    sort_by_number(&mut all)?;
    put_all(out, &all)
}
