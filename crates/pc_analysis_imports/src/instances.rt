//! The core instances that a plan makes, with what each is given.

ghost use Rattle.std.specs.Prelude.{◌≡◌, ◌<◌, All, IfOk, OnOk, [], length, map};
ghost use Rattle.pc_info.specs.Modules.{module_view};
ghost use Rattle.pc_analysis_imports.specs.Followed.{instance_of, instances_after, with_step};
ghost use Rattle.pc_analysis_imports.specs.Known.{IsNumbered};

use crate::index::ImportIndex;
use crate::source::{Instance, of_defs};
use pc_entity::{NoMemory, Seq};
use pc_info::{GlobalInitializer, InstantiateModule, ModuleTranslation};
use std::alloc::Global;

/// The records of modules, each with an index of its imports.
pub(crate) fn records<'a>(
    alloc: Global,
    modules: &'a [ModuleTranslation],
) -> Result<Vec<ImportIndex<'a>>, NoMemory>
    requires numbered { All (λ m. IsNumbered (module_view m)) modules.now }
    ensures { IfOk result (λ found. found.items ≡ map module_view modules.now) }
{
    let mut found = Vec::with_capacity(alloc, modules.len())?;
    for held in modules {
        found.push(ImportIndex::new(alloc, held.module.get())?)?;
    }
    Ok(found)
}

/// The instance that is made of a module.
fn made_of(
    alloc: Global,
    records: &[ImportIndex<'_>],
    instances: &[Instance],
    source: &InstantiateModule,
) -> Result<Instance, NoMemory>
    ensures { IfOk result (λ made. made ≡ instance_of records.now instances.now source.now) }
{
    match source {
        InstantiateModule::Static(module, args) => {
            let given = of_defs(alloc, records, instances, args.as_slice())?;
            Ok(Instance::Static(*module, given))
        }
        InstantiateModule::Import(_, _) => Ok(Instance::Host),
    }
}

/// Adds the instance that a step makes, if it makes one.
fn add(
    alloc: Global,
    records: &[ImportIndex<'_>],
    instances: &mut Seq<Instance>,
    step: &GlobalInitializer,
) -> Result<(), NoMemory>
    ensures { OnOk result (instances.new ≡ with_step records.now instances.old step.now) }
{
    match step {
        GlobalInitializer::InstantiateModule(source, _) => {
            let made = made_of(alloc, records, instances.as_slice(), source)?;
            instances.push(made)
        }
        _ => Ok(()),
    }
}

/// The instances that these steps make, in order.
pub(crate) fn instances(
    alloc: Global,
    records: &[ImportIndex<'_>],
    steps: &[GlobalInitializer],
) -> Result<Seq<Instance>, NoMemory>
    ensures { IfOk result (λ made. made ≡ instances_after records.now [] steps.now) }
{
    let mut made = Seq::new(alloc);
    for step in steps {
        add(alloc, records, &mut made, step)?;
    }
    Ok(made)
}
