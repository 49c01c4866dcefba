//! Core modules: one that was handed in is added, and what a module is.

ghost use Rattle.std.specs.Prelude.{◌≡◌, ◌<◌, length, option_and_then, slice_get};
ghost use Rattle.pc_spec_reading.specs.Item.{module_item};
ghost use Rattle.pc_inline_state.specs.Adds.{Adds, most_converted};
ghost use Rattle.pc_inline_state.specs.Points.{IsInput, IsPoint, StepsItem};
ghost use Rattle.pc_inline_state.specs.Tables.{Keeps, tables_of};
ghost use Rattle.pc_inline_state.specs.Trails.{Trails};
ghost use Rattle.pc_inline_modules.specs.Sources.{module_source};

use pc_entity::StaticModuleIndex;
use pc_inline_paths::PathId;
use pc_inline_state::{
    Context, Definition, DefinitionId, Frame, ItemError, ItemFault, State, is_module_type,
};

/// What a core module is: one that was handed in, or one of the host, with the table entry of its type.
#[derive(Clone, Copy)]
pub enum ModuleSource {
    Static(StaticModuleIndex),
    Host { path: PathId, entry: u32 },
}

/// What a definition is as a core module, if it is one.
pub(crate) fn source_of(state: &State<'_>, id: DefinitionId) -> Option<ModuleSource>
    ensures { result ≡ option_and_then module_source (slice_get state.now.definitions id.0) }
{
    match state.definitions.get(id) {
        Some(&Definition::StaticModule { index, .. }) => Some(ModuleSource::Static(index)),
        Some(&Definition::HostModule { path, entry, .. }) => {
            Some(ModuleSource::Host { path, entry })
        }
        _ => None,
    }
}

/// A core module that was handed in, whose type is converted.
pub fn step_module(
    context: &Context<'_>,
    state: &mut State<'_>,
    frame: &mut Frame,
    index: StaticModuleIndex,
    ty: u32,
) -> Result<(), ItemError>
    requires input { IsInput context.now.table.now context.now.modules }
    requires handed_in { index.0 < length context.now.modules }
    requires here { IsPoint context.now.table.now context.now.modules state.old frame.old }
    ensures keeps { Keeps (tables_of state.old) (tables_of state.new) }
    ensures adds { Adds context.now.table.now (most_converted context.now.table.now 1)
        (tables_of state.old) (tables_of state.new) }
    ensures trail { Trails frame.old.changes state.old.types.resources frame.new.changes state.new.types.resources }
    ensures same { frame.new.component_instance ≡ frame.old.component_instance }
    ensures steps { StepsItem context.now.table.now context.now.modules (module_item index.0 ty)
        state.old frame.old state.new frame.new result }
{
    if !is_module_type(context.table, ty) {
        return Err(ItemError::Fault(ItemFault::BadType));
    }
    context.module_type(state, &mut frame.converted, ty)?;
    let id = state.push_definition(Definition::StaticModule { index, ty })?;
    frame.modules.push(id)?;
    Ok(())
}
