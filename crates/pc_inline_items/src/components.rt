//! Nested components: what one captures is looked up where it is defined, and an outer alias is what was captured.

ghost use Rattle.std.specs.Option.{option_copied};
ghost use Rattle.std.specs.Prelude.{◌≡◌, List, IfOk};
ghost use Rattle.pc_types.specs.declared.module_record.ModuleRecord.{ModuleRecord};
ghost use Rattle.pc_types.specs.declared.parsed.TypeTable.{TypeTable};
ghost use Rattle.pc_local.specs.declared.captured.Variable.{Variable};
ghost use Rattle.pc_local.specs.declared.item.LocalInitializer.TheVariants as local;
ghost use Rattle.pc_local.specs.Standing.{component_variable, module_variable};
ghost use Rattle.pc_inline_state.specs.Adds.{Adds};
ghost use Rattle.pc_inline_items.specs.Captures.{captured_components, captured_id, captured_ids, captured_modules};
ghost use Rattle.pc_inline_items.specs.Captures.{closure_of};
ghost use Rattle.pc_inline_state.specs.Points.{IsInput, IsPoint};
ghost use Rattle.pc_inline_state.specs.declared.state.State.{State};
ghost use Rattle.pc_inline_items.specs.StepsLocal.{StepsLocal};
ghost use Rattle.pc_inline_state.specs.Tables.{Keeps, tables_of};
ghost use Rattle.pc_inline_state.specs.Trails.{Trails};

use pc_entity::{NoMemory, PrimaryMap, Seq, StaticComponentIndex};
use pc_inline_state::{
    Closure, ClosureId, Context, Definition, DefinitionId, Frame, ItemError, ItemFault, State, at,
};
use pc_local::captured::Variable;
use pc_local::{ClosedOverComponent, ClosedOverModule, ClosedOverVars};
use std::alloc::Global;

/// What all components captured.
type Closures = PrimaryMap<ClosureId, Closure>;

/// What a component instance captured. The root captured nothing.
fn closure_of(closures: &Closures, closure: Option<ClosureId>) -> Option<&Closure>
    ensures { option_copied result ≡ closure_of closures.now closure }
{
    match closure {
        Some(closure) => closures.get(closure),
        None => None,
    }
}

/// The modules that a component instance captured.
fn captured_modules(closures: &Closures, closure: Option<ClosureId>) -> &[DefinitionId]
    ensures { result.now ≡ captured_modules closures.now closure }
{
    match closure_of(closures, closure) {
        Some(captured) => captured.modules.as_slice(),
        None => &[],
    }
}

/// The components that it captured.
fn captured_components(closures: &Closures, closure: Option<ClosureId>) -> &[DefinitionId]
    ensures { result.now ≡ captured_components closures.now closure }
{
    match closure_of(closures, closure) {
        Some(captured) => captured.components.as_slice(),
        None => &[],
    }
}

/// A module or a component as a body has it.
trait AsVariable: Copy {
    // The same whatever the kind.
    ghost variable_of: { Self → Variable };

    /// The same whatever the kind.
    fn variable(self) -> Variable
        ensures { result ≡ variable_of self };
}

impl AsVariable for ClosedOverModule {
    ghost variable_of = { module_variable };

    fn variable(self) -> Variable {
        match self {
            ClosedOverModule::Local(index) => Variable::Local(index.0),
            ClosedOverModule::Upvar(index) => Variable::Upvar(index.0),
        }
    }
}

impl AsVariable for ClosedOverComponent {
    ghost variable_of = { component_variable };

    fn variable(self) -> Variable {
        match self {
            ClosedOverComponent::Local(index) => Variable::Local(index.0),
            ClosedOverComponent::Upvar(index) => Variable::Upvar(index.0),
        }
    }
}

/// What a variable is, among the items of a component instance and those that it captured.
fn captured_id(
    ids: &[DefinitionId],
    captured: &[DefinitionId],
    variable: Variable,
) -> Option<DefinitionId>
    ensures { result ≡ captured_id ids.now captured.now variable }
{
    match variable {
        Variable::Local(index) => at(ids, index),
        Variable::Upvar(index) => at(captured, index),
    }
}

/// What all variables that a nested component captures are, or nothing where one isn't there.
fn captured_ids<V: AsVariable>(
    alloc: Global,
    ids: &[DefinitionId],
    captured: &[DefinitionId],
    variables: &[V],
) -> Result<Option<Seq<DefinitionId>>, NoMemory>
    ensures { IfOk result (λ found. found ≡ captured_ids V.variable_of ids.now captured.now variables.now) }
{
    let mut found = Seq::new(alloc);
    for &variable in variables {
        let Some(id) = captured_id(ids, captured, variable.variable()) else {
            return Ok(None);
        };
        found.push(id)?;
    }
    Ok(Some(found))
}

/// An outer alias of a module, or one of a module of the component instance itself.
pub(crate) fn step_alias_module(
    closures: &Closures,
    frame: &mut Frame,
    closure: Option<ClosureId>,
    variable: ClosedOverModule,
) -> Result<(), ItemError>
    ensures changes { frame.new.changes ≡ frame.old.changes }
    ensures same { frame.new.component_instance ≡ frame.old.component_instance }
    ensures steps { (t : TypeTable) (ms : List ModuleRecord) (st : State) → st.closures ≡ closures.now
        → StepsLocal t ms closure (local.AliasModule variable) st frame.old st frame.new result }
{
    let captured = captured_modules(closures, closure);
    match captured_id(frame.modules.as_slice(), captured, variable.variable()) {
        Some(id) => Ok(frame.modules.push(id)?),
        None => Err(ItemError::Fault(ItemFault::Invalid)),
    }
}

/// The same of a component.
pub(crate) fn step_alias_component(
    closures: &Closures,
    frame: &mut Frame,
    closure: Option<ClosureId>,
    variable: ClosedOverComponent,
) -> Result<(), ItemError>
    ensures changes { frame.new.changes ≡ frame.old.changes }
    ensures same { frame.new.component_instance ≡ frame.old.component_instance }
    ensures steps { (t : TypeTable) (ms : List ModuleRecord) (st : State) → st.closures ≡ closures.now
        → StepsLocal t ms closure (local.AliasComponent variable) st frame.old st frame.new result }
{
    let captured = captured_components(closures, closure);
    match captured_id(frame.components.as_slice(), captured, variable.variable()) {
        Some(id) => Ok(frame.components.push(id)?),
        None => Err(ItemError::Fault(ItemFault::Invalid)),
    }
}

/// A nested component, with what it captures here.
pub(crate) fn step_component(
    context: &Context<'_>,
    state: &mut State<'_>,
    frame: &mut Frame,
    closure: Option<ClosureId>,
    index: StaticComponentIndex,
    vars: &ClosedOverVars,
) -> Result<(), ItemError>
    requires input { IsInput context.now.table.now context.now.modules }
    requires here { IsPoint context.now.table.now context.now.modules state.old frame.old }
    ensures keeps { Keeps (tables_of state.old) (tables_of state.new) }
    ensures adds { Adds context.now.table.now 4 (tables_of state.old) (tables_of state.new) }
    ensures trail { Trails frame.old.changes state.old.types.resources frame.new.changes state.new.types.resources }
    ensures same { frame.new.component_instance ≡ frame.old.component_instance }
    ensures steps { StepsLocal context.now.table.now context.now.modules closure (local.ComponentStatic index vars.now)
        state.old frame.old state.new frame.new result }
{
    let Some(modules) = captured_ids(
        context.alloc,
        frame.modules.as_slice(),
        captured_modules(&state.closures, closure),
        vars.modules.as_slice(),
    )?
    else {
        return Err(ItemError::Fault(ItemFault::Invalid));
    };
    let Some(components) = captured_ids(
        context.alloc,
        frame.components.as_slice(),
        captured_components(&state.closures, closure),
        vars.components.as_slice(),
    )?
    else {
        return Err(ItemError::Fault(ItemFault::Invalid));
    };
    let captured = state.push_closure(Closure {
        modules,
        components,
    })?;
    let id = state.push_definition(Definition::Component {
        index,
        closure: captured,
    })?;
    frame.components.push(id)?;
    Ok(())
}
