//! What a generated chain comes to, in one line.

ghost use Rattle.std.specs.Prelude.{◌≡◌, ◌<◌, ◌++◌, codes, length, map, filter, IfOk, OnOk};
ghost use Rattle.pc_spec_plan.specs.Text.{number};
ghost use Rattle.pc_info.specs.Modules.{adapters_view, handed_in_view, is_adapter_module};
ghost use Rattle.pc_info.specs.View.{view};
ghost use Rattle.pc_text.specs.SummaryText.{summary_text};

use crate::plan::count_adapter_modules;
use pc_entity::{NoMemory, PrimaryMap, StaticModuleIndex};
use pc_info::{ComponentTranslation, ModuleTranslation};
use pc_text_pieces::{put, put_number};
use std::alloc::Global;

/// How many adapters the modules have.
fn count_adapters(modules: &[ModuleTranslation]) -> u64
    requires few { length (adapters_view 0 modules.now) < 18446744073709551616 }
    ensures { result ≡ length (adapters_view 0 modules.now) }
{
    let mut count = 0;
    for module in modules {
        count += module.adapters.len() as u64;
    }
    count
}

/// A word with a number behind it.
fn put_counted(out: &mut Vec<u8>, word: &str, n: u64) -> Result<(), NoMemory>
    ensures { OnOk result (out.new.items ≡ out.old.items ++ word.now ++ number n) }
{
    put(out, word)?;
    put_number(out, n)
}

/// The part of the line that tells of the modules.
fn put_modules(out: &mut Vec<u8>, modules: &[ModuleTranslation]) -> Result<(), NoMemory>
    ensures { OnOk result (out.new.items ≡ out.old.items ++ codes " modules"
        ++ number (length (handed_in_view modules.now)) ++ number (length (filter is_adapter_module modules.now))) }
{
    let made = count_adapter_modules(modules);
    let handed_in = modules.len() - made;
    put_counted(out, " modules", handed_in as u64)?;
    put_number(out, made as u64)
}

/// How long a generated chain is, and what its plan has: core instances, adapters, modules that were handed in, modules
/// of adapters, and initializers. The modules have fewer than 2^64 adapters.
pub fn summary_text(
    alloc: Global,
    n: u32,
    t: &ComponentTranslation,
    modules: &PrimaryMap<StaticModuleIndex, ModuleTranslation>,
) -> Result<Vec<u8>, NoMemory>
    requires few { length (adapters_view 0 modules.now) < 18446744073709551616 }
    ensures { IfOk result (λ text. text.items ≡ summary_text n (view t.now modules.now)) }
{
    let mut out = Vec::new(alloc);
    put_counted(&mut out, "gen", u64::from(n))?;
    put_counted(
        &mut out,
        " instances",
        u64::from(t.component.num_runtime_instances),
    )?;
    put_counted(&mut out, " adapters", count_adapters(modules.as_slice()))?;
    put_modules(&mut out, modules.as_slice())?;
    put_counted(&mut out, " inits", t.component.initializers.len() as u64)?;
    put(&mut out, "\n")?;
    Ok(out)
}
