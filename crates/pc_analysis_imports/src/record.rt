//! Facts are written into the modules that they are of.

ghost use Rattle.std.specs.Prelude.{◌≡◌, ◌<◌, All, length};
ghost use Rattle.pc_analysis_imports.specs.Imports.{each_with, with_imports, with_known_but};

use crate::ambiguous::Hidden;
use crate::imports::Imports;
use pc_info::{KnownToImporters, ModuleTranslation};

/// Writes what is recorded of the imports of a module.
fn put_imports(core_module: &mut ModuleTranslation, imports: Imports)
    ensures { core_module.new ≡ with_imports core_module.old imports }
{
    core_module.known_imported_functions = imports.functions;
    core_module.known_imported_globals = imports.globals;
    core_module.known_imported_memories = imports.memories;
    core_module.known_imported_tables = imports.tables;
}

/// Writes that importers know all that a module defines but this.
fn put_known_but(core_module: &mut ModuleTranslation, hidden: Hidden)
    requires numbered { length core_module.old.«module».memories < 4294967296 }
    ensures { core_module.new ≡ with_known_but core_module.old hidden }
{
    core_module.globals_known_to_importers = KnownToImporters {
        defined: core_module.module.get().globals,
        unknown: hidden.globals,
    };
    core_module.memories_known_to_importers = KnownToImporters {
        defined: core_module.module.get().memories.len() as u32,
        unknown: hidden.memories,
    };
    core_module.tables_known_to_importers = KnownToImporters {
        defined: core_module.module.get().tables,
        unknown: hidden.tables,
    };
}

/// Writes what is recorded of the imports of each module.
pub(crate) fn record_imports(modules: &mut Vec<ModuleTranslation>, imports: Vec<Imports>)
    requires count { length imports.items ≡ length modules.old.items }
    ensures { modules.new.items ≡ each_with with_imports modules.old.items imports.items }
{
    let mut left = imports;
    while let Some(found) = left.pop() {
        let place = left.len();
        put_imports(&mut modules[place], found);
    }
}

/// Writes of each module that importers know all that it defines but this.
pub(crate) fn record_known_but(modules: &mut Vec<ModuleTranslation>, hidden: Vec<Hidden>)
    requires count { length hidden.items ≡ length modules.old.items }
    requires numbered { All (λ m. length m.«module».memories < 4294967296) modules.old.items }
    ensures { modules.new.items ≡ each_with with_known_but modules.old.items hidden.items }
{
    let mut left = hidden;
    while let Some(of_module) = left.pop() {
        let place = left.len();
        put_known_but(&mut modules[place], of_module);
    }
}
