//! What the modules of a plan know of their imports.

ghost use Rattle.std.specs.Prelude.{◌≡◌, ◌<◌, All, IfOk, OnErr, OnOk, length, map};
ghost use Rattle.pc_info.specs.Modules.{module_view};
ghost use Rattle.pc_info.specs.Standing.{steps_in};
ghost use Rattle.pc_types.specs.declared.module_record.ModuleRecord.{ModuleRecord as Record};
ghost use Rattle.pc_analysis_imports.specs.Found.{IsFound, IsFoundBy};
ghost use Rattle.pc_analysis_imports.specs.Imports.{each_with, with_imports, with_known_but};
ghost use Rattle.pc_analysis_imports.specs.Known.{CanBeFollowed, IsNumbered, KnowImports, without_imports};

use crate::ambiguous::{Hidden, all_ambiguous};
use crate::imports::{Imports, known_imports};
use crate::index::ImportIndex;
use crate::instances::{instances, records};
use crate::record::{record_imports, record_known_but};
use crate::source::Instance;
use crate::ways::ways;
use pc_dfg::AbstractInstantiations;
use pc_entity::{NoMemory, PrimaryMap, StaticModuleIndex};
use pc_info::{ComponentTranslation, ModuleTranslation};
use std::alloc::Global;
use std::mem;

/// What is found of each module: its known imports, and what it defines that importers don't know.
#[derive(Drop)]
struct Found {
    imports: Vec<Imports>,
    hidden: Vec<Hidden>,
}

/// Finds what is known of each module, by the instances of the plan and how each module is instantiated.
fn find_by(
    alloc: Global,
    translation: &ComponentTranslation,
    records: &[ImportIndex<'_>],
    instances: &[Instance],
    ways: &[AbstractInstantiations<'_>],
) -> Result<Found, NoMemory>
    requires numbered { All (λ (r : Record). length r.imports < 4294967295) records.now }
    ensures { IfOk result (λ found. IsFoundBy translation.now records.now instances.now ways.now found) }
{
    let steps = translation.component.initializers.as_slice();
    let ambiguous = all_ambiguous(alloc, records, instances, ways, steps)?;
    let imports = known_imports(
        alloc,
        &translation.trampolines,
        records,
        instances,
        ways,
        &ambiguous,
    )?;
    Ok(Found {
        imports,
        hidden: ambiguous.into_modules(),
    })
}

/// Finds what is known of each module.
fn find(
    alloc: Global,
    translation: &ComponentTranslation,
    modules: &[ModuleTranslation],
) -> Result<Found, NoMemory>
    requires numbered { All (λ m. IsNumbered (module_view m)) modules.now }
    ensures { IfOk result (λ found. IsFound translation.now (map module_view modules.now) found) }
{
    let component = &translation.component;
    let steps = component.initializers.as_slice();
    let indexes = records(alloc, modules)?;
    let records = indexes.as_slice();
    let made = instances(alloc, records, steps)?;
    let instances = made.as_slice();
    let all_ways = ways(alloc, records.len(), component)?;
    let ways = all_ways.as_slice();
    let found = find_by(alloc, translation, records, instances, ways)?;
    Ok(found)
}

/// Writes what is found into the modules.
fn record(
    alloc: Global,
    modules: &mut PrimaryMap<StaticModuleIndex, ModuleTranslation>,
    found: Found,
)
    requires imports { length found.imports.items ≡ length modules.old }
    requires hidden { length found.hidden.items ≡ length modules.old }
    requires numbered { All (λ m. length m.«module».memories < 4294967296) modules.old }
    ensures { modules.new ≡ each_with with_known_but (each_with with_imports modules.old found.imports.items)
        found.hidden.items }
{
    let mut list = mem::replace(modules, PrimaryMap::new(alloc)).into_vec();
    record_imports(&mut list, found.imports);
    record_known_but(&mut list, found.hidden);
    *modules = PrimaryMap::from_vec(list);
}

/// Records in each module which of its imports are the same in all its instances, and which of what it defines those
/// that import it may know. Older facts of this kind go.
///
/// An argument of an instance names an instance that was made before, and the modules that are instantiated are held.
/// Where there is no memory nothing is changed.
pub fn analyze_imports(
    alloc: Global,
    translation: &ComponentTranslation,
    modules: &mut PrimaryMap<StaticModuleIndex, ModuleTranslation>,
) -> Result<(), NoMemory>
    requires numbered { All (λ m. IsNumbered (module_view m)) modules.old }
    requires followed { CanBeFollowed (map module_view modules.old) (steps_in translation.now) }
    ensures known { OnOk result (KnowImports translation.now modules.new) }
    ensures kept { map without_imports modules.new ≡ map without_imports modules.old }
    ensures err { OnErr result (modules.new ≡ modules.old) }
{
    let found = find(alloc, translation, modules.as_slice())?;
    record(alloc, modules, found);
    Ok(())
}
