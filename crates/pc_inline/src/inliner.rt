//! The root: it begins, its imports are prepared, its items are read in order, and it exports.

ghost use Rattle.std.specs.Prelude.{◌≡◌, ◌<◌, ◌≤◌, ◌+◌, None, true, [], length, IfOk, OnOk};
ghost use Rattle.std.specs.List.{list_all};
ghost use Rattle.pc_types.specs.Record.{is_sound};
ghost use Rattle.pc_types.specs.Table.{table_fault};
ghost use Rattle.pc_types_builder.specs.Types.{KeepsTypes};
ghost use Rattle.pc_types_lists.specs.Types.{types_held};
ghost use Rattle.pc_weights.specs.Weighs.{HasRootWeight};
ghost use Rattle.pc_spec_reading.specs.Item.{Items};
ghost use Rattle.pc_local.specs.Sound.{AreSoundBodies, IsSoundBody};
ghost use Rattle.pc_local.specs.Standing.{BodyStands, no_names};
ghost use Rattle.pc_inline_names.specs.Named.{item_names};
ghost use Rattle.pc_inline_names.specs.Numbers.{AreNumbersOf};
ghost use Rattle.pc_inline_state.specs.Adds.{Adds, most_prepared, most_prepared_of};
ghost use Rattle.pc_inline_state.specs.Gained.{AddsTables};
ghost use Rattle.pc_inline.specs.Roots.{BeginsRoot, EndsRoot};
ghost use Rattle.pc_inline_state.specs.Fresh.{IsFresh};
ghost use Rattle.pc_inline.specs.Inlines.{Inlines};
ghost use Rattle.pc_inline_state.specs.Points.{AreItsNames, IsInput, IsPoint};
ghost use Rattle.pc_inline_state.specs.Ready.{IsReady};
ghost use Rattle.pc_inline_stack.specs.Reads.{AreItems, Prepared};
ghost use Rattle.pc_inline_items.specs.StepsLocal.{PreparesLocal};
ghost use Rattle.pc_inline_state.specs.Tables.{Keeps, tables_of};
ghost use Rattle.pc_inline_stack.specs.Stacks.{AreWeights};
ghost use Rattle.pc_inline_stack.specs.Totals.{GainsFew, IsCounted};
ghost use Rattle.pc_inline_state.specs.Typed.{no_resources};

use pc_dfg::ComponentDfg;
use pc_entity::Atom;
use pc_inline_exports::export_all;
use pc_inline_imports::prepare;
use pc_inline_names::{AtomMap, ProgramNames};
use pc_inline_stack::{begin_instance, run};
use pc_inline_state::{Context, CoreModules, Frame, ItemError, Numbers, State, error_at};
use pc_local::{LocalInitializer, LocalProgram, Translation};
use pc_types::{Error, TypeTable};
use pc_types_builder::{ComponentTypesBuilder, Converted, ResourcesBuilder};
use pc_types_walk::Leads;
use pc_weights::Weights;
use std::alloc::Global;
use std::mem;

/// An item of the root before all items are read: an import is prepared, and another item is passed over.
fn prepare_item(
    context: &Context<'_>,
    state: &mut State<'_>,
    frame: &mut Frame,
    item: &LocalInitializer,
    numbers: &[Atom],
) -> Result<(), ItemError>
    requires input { IsInput context.now.table.now context.now.modules }
    requires ready { IsReady context.now }
    requires here { IsPoint context.now.table.now context.now.modules state.old frame.old }
    requires undeclared { state.old.graph.resources ≡ [] }
    requires numbered { AreNumbersOf state.old.names.now.texts (item_names item.now) numbers.now }
    ensures keeps { Keeps (tables_of state.old) (tables_of state.new) }
    ensures same { frame.new.component_instance ≡ frame.old.component_instance }
    ensures adds { Adds context.now.table.now (most_prepared context.now.table.now item.now)
        (tables_of state.old) (tables_of state.new) }
    ensures undeclared { OnOk result (state.new.graph.resources ≡ []) }
    ensures steps { PreparesLocal context.now.table.now context.now.modules item.now
        state.old frame.old state.new frame.new result }
{
    match item {
        LocalInitializer::Import { name, ty } => {
            prepare(context, state, frame, name, *ty, numbers[0])
        }
        _ => Ok(()),
    }
}

/// The imports among the items of the root are prepared, in order.
pub(crate) fn prepare_all(
    context: &Context<'_>,
    state: &mut State<'_>,
    frame: &mut Frame,
    items: &[LocalInitializer],
) -> Result<(), Error>
    requires input { IsInput context.now.table.now context.now.modules }
    requires ready { IsReady context.now }
    requires here { IsPoint context.now.table.now context.now.modules state.old frame.old }
    requires undeclared { state.old.graph.resources ≡ [] }
    requires items { AreItems state.old.bodies.now items.now }
    requires rooted { state.old.names.now.root.initializers ≡ items.now }
    ensures keeps { Keeps (tables_of state.old) (tables_of state.new) }
    ensures same { frame.new.component_instance ≡ frame.old.component_instance }
    ensures adds { Adds context.now.table.now (most_prepared_of context.now.table.now items.now)
        (tables_of state.old) (tables_of state.new) }
    ensures prepared { Prepared context.now.table.now context.now.modules items.now
        state.old frame.old state.new frame.new result }
{
    for (n, item) in items.iter().enumerate() {
        let numbers = state.names.item(None, n);
        if let Err(error) = prepare_item(context, state, frame, item, numbers) {
            return Err(error_at(error, frame.place_of(n)));
        }
    }
    Ok(())
}

/// The root begins, and its imports are prepared.
fn begin_root(
    context: &Context<'_>,
    state: &mut State<'_>,
    root: &Translation,
    limit: u32,
    weight: u32,
    total: &mut u32,
) -> Result<Frame, Error>
    requires input { IsInput context.now.table.now context.now.modules }
    requires ready { IsReady context.now }
    requires fresh { IsFresh context.now.table.now state.old }
    requires stands { (body : Items) × BodyStands state.old.bodies.now no_names root.now body }
    requires bodies { AreSoundBodies (length context.now.modules) state.old.bodies.now }
    requires names { AreItsNames context.now.table.now context.now.modules
        state.old.names.now state.old.bodies.now state.old.paths.names }
    requires rooted { state.old.names.now.root ≡ root.now }
    requires weight { HasRootWeight context.now.table.now context.now.modules root.now weight }
    requires below { total.old < 4294967295 }
    ensures { BeginsRoot context.now.table.now context.now.modules limit root.now total.old total.new
        state.old state.new result }
{
    let instance = begin_instance(&mut state.graph, limit, total, weight)?;
    let converted = Converted::new(context.alloc, context.table);
    let arguments = AtomMap::new(context.alloc, context.seed);
    let mut frame = Frame::new(context.alloc, converted, instance, arguments);
    prepare_all(context, state, &mut frame, root.initializers.as_slice())?;
    Ok(frame)
}

/// The root: it begins, its imports are prepared, its items are read, and it exports.
pub(crate) fn inline_root(
    context: &Context<'_>,
    state: &mut State<'_>,
    root: &Translation,
    limit: u32,
    weights: &Weights,
    counted: u32,
) -> Result<(), Error>
    requires input { IsInput context.now.table.now context.now.modules }
    requires ready { IsReady context.now }
    requires fresh { IsFresh context.now.table.now state.old }
    requires stands { (body : Items) × BodyStands state.old.bodies.now no_names root.now body }
    requires sound { IsSoundBody (length context.now.modules) root.now }
    requires bodies { AreSoundBodies (length context.now.modules) state.old.bodies.now }
    requires names { AreItsNames context.now.table.now context.now.modules
        state.old.names.now state.old.bodies.now state.old.paths.names }
    requires rooted { state.old.names.now.root ≡ root.now }
    requires root_weight { HasRootWeight context.now.table.now context.now.modules root.now weights.now.root }
    requires weights { AreWeights context.now.table.now context.now.modules state.old.bodies.now weights.now.bodies }
    requires below { counted < 4294967295 }
    ensures { EndsRoot context.now.table.now context.now.modules limit root.now counted state.old state.new result }
{
    let mut total = counted;
    let begun = begin_root(context, state, root, limit, weights.root, &mut total)?;
    let mut frame = run(
        context,
        state,
        root,
        begun,
        limit,
        &weights.bodies,
        &mut total,
    )?;
    export_all(context, state, &mut frame, root.exports.as_slice(), total)
}

/// No resource is known, and types are converted in the root.
fn forget_resources(alloc: Global, types: &mut ComponentTypesBuilder)
    ensures { types.new ≡ record types.old { resources = no_resources } }
{
    *types.resources_mut() = ResourcesBuilder::new(alloc);
}

/// The graph of a program, whose names have these numbers.
fn inline_named<'a>(
    alloc: Global,
    types: &mut ComponentTypesBuilder,
    table: &'a TypeTable,
    program: &'a LocalProgram,
    names: &'a ProgramNames<'a>,
    limit: u32,
    counted: u32,
) -> Result<ComponentDfg, Error>
    requires table { table_fault table.now ≡ None }
    requires modules { list_all (is_sound table.now) program.now.modules ≡ true }
    requires stands { (body : Items) × BodyStands program.now.components no_names program.now.root body }
    requires root { IsSoundBody (length program.now.modules) program.now.root }
    requires components { AreSoundBodies (length program.now.modules) program.now.components }
    requires below { counted < 4294967295 }
    requires held { length table.now.core_funcs + types_held types.old ≤ counted }
    requires named { AreItsNames table.now program.now.modules names.now program.now.components names.now.texts }
    requires rooted { names.now.root ≡ program.now.root }
    ensures inlines { (body : Items) → BodyStands program.now.components no_names program.now.root body
        → Inlines table.now program.now.modules limit counted body types.new result }
    ensures few { (body : Items) → BodyStands program.now.components no_names program.now.root body
        → IfOk result (IsCounted table.now program.now.modules limit counted body types.old types.new) }
    ensures keeps { KeepsTypes types.old types.new }
    ensures tables { IfOk result
        (λ g. AddsTables table.now g.num_runtime_component_instances types.old types.new) }
    ensures adds { GainsFew table.now counted types.old types.new }
{
    let weights = Weights::new(alloc, table, program)?;
    let seed = types.seed();
    let modules = CoreModules::new(alloc, program.modules.as_slice())?;
    let leads = Leads::new(alloc, table)?;
    let context = Context {
        alloc,
        seed,
        table,
        leads,
        modules,
    };
    let numbers = Numbers::new(alloc, table)?;
    forget_resources(alloc, types);
    let builder = mem::replace(types, ComponentTypesBuilder::new(alloc, seed));
    let mut state = State::new(
        alloc,
        seed,
        builder,
        numbers,
        &program.components,
        table,
        names,
    );
    let inlined = inline_root(
        &context,
        &mut state,
        &program.root,
        limit,
        &weights,
        counted,
    );
    let graph = state.take_graph(alloc, seed);
    mem::swap(types, &mut state.types);
    types.types_are_distinct();
    inlined.and(Ok(graph))
}

/// The graph of a program: its root is instantiated symbolically.
///
/// `counted` is the total before the first item: each component instance that begins adds one and the weight of its
/// body, and each node of the root's exports adds eight. Where it would be full, the answer is `TooMany`; it counts the
/// core signatures of the table, and the types that the builder holds.
///
/// The builder gains the types that the graph names, also on a refusal; the types that it held keep their numbers.
pub fn inline_run<'a>(
    alloc: Global,
    types: &mut ComponentTypesBuilder,
    table: &'a TypeTable,
    program: &'a LocalProgram,
    limit: u32,
    counted: u32,
) -> Result<ComponentDfg, Error>
    requires table { table_fault table.now ≡ None }
    requires modules { list_all (is_sound table.now) program.now.modules ≡ true }
    requires stands { (body : Items) × BodyStands program.now.components no_names program.now.root body }
    requires root { IsSoundBody (length program.now.modules) program.now.root }
    requires components { AreSoundBodies (length program.now.modules) program.now.components }
    requires below { counted < 4294967295 }
    requires held { length table.now.core_funcs + types_held types.old ≤ counted }
    ensures inlines { (body : Items) → BodyStands program.now.components no_names program.now.root body
        → Inlines table.now program.now.modules limit counted body types.new result }
    ensures few { (body : Items) → BodyStands program.now.components no_names program.now.root body
        → IfOk result (IsCounted table.now program.now.modules limit counted body types.old types.new) }
    ensures keeps { KeepsTypes types.old types.new }
    ensures tables { IfOk result
        (λ g. AddsTables table.now g.num_runtime_component_instances types.old types.new) }
    ensures adds { GainsFew table.now counted types.old types.new }
{
    let seed = types.seed();
    let names = ProgramNames::new(alloc, seed, table, program)?;
    names.are_distinct();
    inline_named(alloc, types, table, program, &names, limit, counted)
}
