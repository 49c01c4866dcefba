//! One item, by its kind.

ghost use Rattle.std.specs.Prelude.{◌≡◌, length};
ghost use Rattle.pc_inline_names.specs.Named.{item_names};
ghost use Rattle.pc_inline_names.specs.Numbers.{AreNumbersOf};
ghost use Rattle.pc_inline_state.specs.Adds.{Adds, most_added};
ghost use Rattle.pc_inline_state.specs.Named.{IsSoundItem};
ghost use Rattle.pc_inline_state.specs.Points.{IsInput, IsPoint};
ghost use Rattle.pc_inline_items.specs.StepsLocal.{StepsLocal};
ghost use Rattle.pc_inline_state.specs.Ready.{IsReady};
ghost use Rattle.pc_inline_state.specs.Tables.{Keeps, tables_of};
ghost use Rattle.pc_inline_state.specs.Trails.{Trails};

use crate::components::{step_alias_component, step_alias_module, step_component};
use crate::imports::step_import;
use crate::instances::{step_alias, step_export};
use crate::intrinsics::step_intrinsics;
use crate::made::step_component_exports;
use pc_entity::Atom;
use pc_inline_builtins::{step_builtin, step_context, step_new_thread, step_task_return};
use pc_inline_canon::{step_lift, step_lower};
use pc_inline_modules::{step_core_alias, step_core_exports, step_core_instance, step_module};
use pc_inline_resources::step_resource;
use pc_inline_state::{ClosureId, Context, Frame, ItemError, ItemFault, State};
use pc_local::LocalInitializer;

/// One item of a body, but an instantiation of a component, which the driver goes into. The names in it have these
/// numbers.
pub fn step(
    context: &Context<'_>,
    state: &mut State<'_>,
    frame: &mut Frame,
    closure: Option<ClosureId>,
    item: &LocalInitializer,
    numbers: &[Atom],
) -> Result<(), ItemError>
    requires input { IsInput context.now.table.now context.now.modules }
    requires here { IsPoint context.now.table.now context.now.modules state.old frame.old }
    requires ready { IsReady context.now }
    requires sound { IsSoundItem (length context.now.modules) item.now }
    requires numbered { AreNumbersOf state.old.names.now.texts (item_names item.now) numbers.now }
    ensures keeps { Keeps (tables_of state.old) (tables_of state.new) }
    ensures adds { Adds context.now.table.now (most_added context.now.table.now item.now)
        (tables_of state.old) (tables_of state.new) }
    ensures trail { Trails frame.old.changes state.old.types.resources frame.new.changes state.new.types.resources }
    ensures same { frame.new.component_instance ≡ frame.old.component_instance }
    ensures steps { StepsLocal context.now.table.now context.now.modules closure item.now
        state.old frame.old state.new frame.new result }
{
    match item {
        LocalInitializer::Import { ty, .. } => step_import(context, state, frame, numbers[0], *ty),
        LocalInitializer::IntrinsicsImport => step_intrinsics(state, frame),
        LocalInitializer::Resource { id, rep, dtor } => {
            step_resource(context, state, frame, *id, *rep, *dtor)
        }
        LocalInitializer::Lift {
            func,
            ty,
            core,
            opts,
        } => step_lift(context, state, frame, *func, *ty, *core, opts.as_slice()),
        LocalInitializer::Lower {
            func,
            ty,
            core,
            opts,
        } => step_lower(context, state, frame, *func, *ty, *core, opts.as_slice()),
        LocalInitializer::ModuleStatic { index, ty } => {
            step_module(context, state, frame, *index, *ty)
        }
        LocalInitializer::ModuleInstantiate { module, args } => {
            step_core_instance(context, state, frame, *module, args.as_slice(), numbers)
        }
        LocalInitializer::ModuleSynthetic(items) => {
            step_core_exports(context, state, frame, items.as_slice(), numbers)
        }
        LocalInitializer::ComponentStatic { index, vars } => {
            step_component(context, state, frame, closure, *index, vars)
        }
        LocalInitializer::AliasCoreExport { kind, instance, .. } => {
            step_core_alias(context, state, frame, *kind, *instance, numbers[0])
        }
        // Never: the driver goes into it.
        LocalInitializer::ComponentInstantiate { .. } => {
            Err(ItemError::Fault(ItemFault::Invalid))
        }
        LocalInitializer::ComponentSynthetic { exports, ty } => {
            step_component_exports(context, state, frame, exports.as_slice(), *ty, numbers)
        }
        LocalInitializer::AliasComponentExport {
            kind,
            instance,
            name,
        } => step_alias(context, state, frame, *kind, *instance, name, numbers[0]),
        LocalInitializer::AliasModule(variable) => {
            step_alias_module(&state.closures, frame, closure, *variable)
        }
        LocalInitializer::AliasComponent(variable) => {
            step_alias_component(&state.closures, frame, closure, *variable)
        }
        LocalInitializer::Export { kind, index, .. } => {
            step_export(context.table, frame, *kind, *index)
        }
        LocalInitializer::Builtin(item) => step_builtin(context, state, frame, item),
        LocalInitializer::WaitableSet(item) => step_builtin(context, state, frame, item),
        LocalInitializer::ErrorContext(item) => step_builtin(context, state, frame, item),
        LocalInitializer::TaskReturn {
            core,
            result: returned,
            opts,
        } => step_task_return(context, state, frame, *core, *returned, opts),
        LocalInitializer::ThreadNewIndirect { core, start, table } => {
            step_new_thread(context, state, frame, *core, *start, *table)
        }
        LocalInitializer::Context(item) => step_context(context, state, frame, item),
    }
}
