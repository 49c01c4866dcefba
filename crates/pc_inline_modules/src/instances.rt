//! Core instances of modules.

ghost use Rattle.std.specs.Prelude.{◌≡◌, ◌<◌, ◌∷◌, ◌++◌, [], ℕ, length, Some, option_and_then, slice_get, OnOk};
ghost use Rattle.pc_entity.specs.Lists.{names_of};
ghost use Rattle.pc_spec_reading.specs.Item.{instantiate_module_item};
ghost use Rattle.pc_inline_names.specs.Numbers.{AreNumbersOf};
ghost use Rattle.pc_inline_state.specs.Adds.{Adds};
ghost use Rattle.pc_inline_state.specs.declared.definition.DefinitionId.{DefinitionId};
ghost use Rattle.pc_inline_state.specs.Points.{IsInput, IsPoint, StepsItem};
ghost use Rattle.pc_inline_state.specs.Tables.{Keeps, tables_of};
ghost use Rattle.pc_inline_state.specs.Trails.{Trails};
ghost use Rattle.pc_inline_modules.specs.declared.modules.ModuleSource.TheVariants as source;
ghost use Rattle.pc_inline_modules.specs.Sources.{module_source};

use crate::arguments::{host_arguments, module_arguments};
use crate::modules::{ModuleSource, source_of};
use pc_dfg::Instance;
use pc_entity::{Atom, NoMemory, StaticModuleIndex, Text};
use pc_inline_canon::use_host;
use pc_inline_paths::PathId;
use pc_inline_state::{Context, CoreInstance, Frame, InstanceModule, ItemError, ItemFault, State};

/// One core instance more is made of this module.
fn note_module(
    modules: &mut Vec<InstanceModule>,
    instance_module: InstanceModule,
) -> Result<(), NoMemory>
    ensures { OnOk result (modules.new.items ≡ modules.old.items ++ instance_module ∷ []) }
{
    modules.push(instance_module)?;
    Ok(())
}

/// A core instance of a module that was handed in.
fn instantiate_static(
    context: &Context<'_>,
    state: &mut State<'_>,
    frame: &mut Frame,
    core_module: StaticModuleIndex,
    args: &[(Text, u32)],
    numbers: &[Atom],
) -> Result<(), ItemError>
    requires input { IsInput context.now.table.now context.now.modules }
    requires here { IsPoint context.now.table.now context.now.modules state.old frame.old }
    requires numbered { AreNumbersOf state.old.names.now.texts (names_of args.now) numbers.now }
    ensures keeps { Keeps (tables_of state.old) (tables_of state.new) }
    ensures adds { Adds context.now.table.now 4 (tables_of state.old) (tables_of state.new) }
    ensures trail { Trails frame.old.changes state.old.types.resources frame.new.changes state.new.types.resources }
    ensures same { frame.new.component_instance ≡ frame.old.component_instance }
    ensures steps { (n : ℕ) (id : DefinitionId) → slice_get frame.old.modules n ≡ Some id
        → option_and_then module_source (slice_get state.old.definitions id.0) ≡ Some (source.Static core_module)
        → StepsItem context.now.table.now context.now.modules (instantiate_module_item n args.now)
        state.old frame.old state.new frame.new result }
{
    let Some(defs) = module_arguments(context, state, frame, core_module, args, numbers)? else {
        return Err(ItemError::Fault(ItemFault::Invalid));
    };
    let made = Instance::Static(core_module, defs);
    let instance = state.graph.push_instance(made, frame.component_instance)?;
    note_module(
        &mut state.runtime_instances,
        InstanceModule::Static(core_module),
    )?;
    frame.core_instances.push(CoreInstance::Made {
        instance,
        core_module,
    })?;
    Ok(())
}

/// A core instance of a module of the host, which is used for it.
fn instantiate_host(
    context: &Context<'_>,
    state: &mut State<'_>,
    frame: &mut Frame,
    path: PathId,
    entry: u32,
    args: &[(Text, u32)],
    numbers: &[Atom],
) -> Result<(), ItemError>
    requires input { IsInput context.now.table.now context.now.modules }
    requires here { IsPoint context.now.table.now context.now.modules state.old frame.old }
    requires numbered { AreNumbersOf state.old.names.now.texts (names_of args.now) numbers.now }
    requires there { path.0 < length state.old.paths.held }
    ensures keeps { Keeps (tables_of state.old) (tables_of state.new) }
    ensures adds { Adds context.now.table.now 4 (tables_of state.old) (tables_of state.new) }
    ensures trail { Trails frame.old.changes state.old.types.resources frame.new.changes state.new.types.resources }
    ensures same { frame.new.component_instance ≡ frame.old.component_instance }
    ensures steps { (n : ℕ) (id : DefinitionId) → slice_get frame.old.modules n ≡ Some id
        → option_and_then module_source (slice_get state.old.definitions id.0) ≡ Some (source.Host path entry)
        → StepsItem context.now.table.now context.now.modules (instantiate_module_item n args.now)
        state.old frame.old state.new frame.new result }
{
    let Some(given) = host_arguments(context, state, frame, entry, args, numbers)? else {
        return Err(ItemError::Fault(ItemFault::Invalid));
    };
    let import = use_host(context, state, path)?;
    let made = Instance::Import(import, given);
    let instance = state.graph.push_instance(made, frame.component_instance)?;
    note_module(&mut state.runtime_instances, InstanceModule::Import(entry))?;
    frame
        .core_instances
        .push(CoreInstance::Host { instance, entry })?;
    Ok(())
}

/// A core instance of a module of the component instance, which is a side effect.
pub fn step_core_instance(
    context: &Context<'_>,
    state: &mut State<'_>,
    frame: &mut Frame,
    core_module: u32,
    args: &[(Text, u32)],
    numbers: &[Atom],
) -> Result<(), ItemError>
    requires input { IsInput context.now.table.now context.now.modules }
    requires here { IsPoint context.now.table.now context.now.modules state.old frame.old }
    requires numbered { AreNumbersOf state.old.names.now.texts (names_of args.now) numbers.now }
    ensures keeps { Keeps (tables_of state.old) (tables_of state.new) }
    ensures adds { Adds context.now.table.now 4 (tables_of state.old) (tables_of state.new) }
    ensures trail { Trails frame.old.changes state.old.types.resources frame.new.changes state.new.types.resources }
    ensures same { frame.new.component_instance ≡ frame.old.component_instance }
    ensures steps { StepsItem context.now.table.now context.now.modules (instantiate_module_item core_module args.now)
        state.old frame.old state.new frame.new result }
{
    let Some(&id) = frame.modules.as_slice().get(core_module as usize) else {
        return Err(ItemError::Fault(ItemFault::Invalid));
    };
    match source_of(state, id) {
        Some(ModuleSource::Static(core_module)) => {
            instantiate_static(context, state, frame, core_module, args, numbers)
        }
        Some(ModuleSource::Host { path, entry }) => {
            instantiate_host(context, state, frame, path, entry, args, numbers)
        }
        None => Err(ItemError::Fault(ItemFault::Invalid)),
    }
}
