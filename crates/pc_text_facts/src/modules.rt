//! The text of the facts of all modules.

ghost use Rattle.std.specs.Prelude.{◌≡◌, ◌++◌, OnOk, IfOk};
ghost use Rattle.pc_types.specs.declared.parsed.CoreKind.TheVariants as kind;
ghost use Rattle.pc_spec_facts.specs.Recorded.{facts_of};
ghost use Rattle.pc_spec_facts.specs.Text.{facts_text, function_lines, import_lines, known_lines, module_text};
ghost use Rattle.pc_spec_facts.specs.Text.{same_lines};
ghost use Rattle.pc_spec_plan.specs.Text.{numbered};

use crate::imports::{put_entities, put_functions, put_globals, put_representatives};
use crate::line::numbers_of;
use crate::own::put_known;
use pc_entity::{NoMemory, PrimaryMap, StaticModuleIndex};
use pc_info::ModuleTranslation;
use pc_types::CoreKind;
use std::alloc::Global;

/// The lines of the function imports of a module.
fn put_functions_of(
    out: &mut Vec<u8>,
    place: usize,
    which: &ModuleTranslation,
) -> Result<(), NoMemory>
    ensures { OnOk result (out.new.items ≡ out.old.items
        ++ same_lines place which.now.module (facts_of which.now)
        ++ function_lines place which.now.module (facts_of which.now)) }
{
    let imported = numbers_of(which.module.get().imported(CoreKind::Func))?;
    put_representatives(
        out,
        place,
        imported,
        &which.imported_func_vmctx_representative,
    )?;
    put_functions(out, place, imported, &which.known_imported_functions)
}

/// The lines of its global imports.
fn put_globals_of(
    out: &mut Vec<u8>,
    place: usize,
    which: &ModuleTranslation,
) -> Result<(), NoMemory>
    ensures { OnOk result (out.new.items
        ≡ out.old.items ++ import_lines place which.now.module (facts_of which.now) kind.Global) }
{
    let imported = numbers_of(which.module.get().imported(CoreKind::Global))?;
    put_globals(out, place, imported, &which.known_imported_globals)
}

/// The lines of its memory imports.
fn put_memories_of(
    out: &mut Vec<u8>,
    place: usize,
    which: &ModuleTranslation,
) -> Result<(), NoMemory>
    ensures { OnOk result (out.new.items
        ≡ out.old.items ++ import_lines place which.now.module (facts_of which.now) kind.Memory) }
{
    let imported = numbers_of(which.module.get().imported(CoreKind::Memory))?;
    put_entities(
        out,
        "memory",
        place,
        imported,
        &which.known_imported_memories,
    )
}

/// The lines of its table imports.
fn put_tables_of(out: &mut Vec<u8>, place: usize, which: &ModuleTranslation) -> Result<(), NoMemory>
    ensures { OnOk result (out.new.items
        ≡ out.old.items ++ import_lines place which.now.module (facts_of which.now) kind.Table) }
{
    let imported = numbers_of(which.module.get().imported(CoreKind::Table))?;
    put_entities(out, "table", place, imported, &which.known_imported_tables)
}

/// The lines of what it defines.
fn put_own(out: &mut Vec<u8>, place: usize, which: &ModuleTranslation) -> Result<(), NoMemory>
    ensures { OnOk result (out.new.items ≡ out.old.items
        ++ known_lines place which.now.module (facts_of which.now) kind.Global
        ++ known_lines place which.now.module (facts_of which.now) kind.Memory
        ++ known_lines place which.now.module (facts_of which.now) kind.Table) }
{
    let memories = numbers_of(which.module.get().memories.len())?;
    put_known(
        out,
        "known-global",
        place,
        which.module.get().globals,
        &which.globals_known_to_importers,
    )?;
    put_known(
        out,
        "known-memory",
        place,
        memories,
        &which.memories_known_to_importers,
    )?;
    put_known(
        out,
        "known-table",
        place,
        which.module.get().tables,
        &which.tables_known_to_importers,
    )
}

/// The lines of a module.
fn put_module(out: &mut Vec<u8>, place: usize, which: &ModuleTranslation) -> Result<(), NoMemory>
    ensures { OnOk result (out.new.items ≡ out.old.items ++ module_text place which.now) }
{
    put_functions_of(out, place, which)?;
    put_globals_of(out, place, which)?;
    put_memories_of(out, place, which)?;
    put_tables_of(out, place, which)?;
    put_own(out, place, which)
}

/// The lines of all modules, in order.
fn put_modules(out: &mut Vec<u8>, modules: &[ModuleTranslation]) -> Result<(), NoMemory>
    ensures { OnOk result (out.new.items ≡ out.old.items ++ numbered module_text 0 modules.now) }
{
    for (place, which) in modules.iter().enumerate() {
        put_module(out, place, which)?;
    }
    Ok(())
}

/// The text of the facts that are recorded of modules. A module of which no fact is recorded has no line.
#[tactic(auto, unfolding(pc_spec_facts::specs::Text::facts_text))]
pub fn facts_text(
    alloc: Global,
    modules: &PrimaryMap<StaticModuleIndex, ModuleTranslation>,
) -> Result<Vec<u8>, NoMemory>
    ensures { IfOk result (λ text. text.items ≡ facts_text modules.now) }
{
    let mut out = Vec::new(alloc);
    put_modules(&mut out, modules.as_slice())?;
    Ok(out)
}
