//! The top call over payloads.

ghost use Rattle.std.specs.Prelude.{◌≡◌, ◌<◌, ◌≤◌, ◌+◌, ℕ, List, All, false, true, length, map, None, is_some, IfErr};
ghost use Rattle.std.specs.Prelude.{IfOk, OnOk, Option};
ghost use Rattle.std.specs.List.{list_all};
ghost use Rattle.std.specs.Option.{option_map};
ghost use Rattle.pc_types.specs.declared.error.Error.TheVariants as error;
ghost use Rattle.pc_types.specs.declared.module_record.ModuleRecord.{ModuleRecord as Record};
ghost use Rattle.pc_types.specs.declared.parsed.TypeTable.{TypeTable as Table};
ghost use Rattle.pc_types.specs.Record.{is_sound};
ghost use Rattle.pc_types.specs.Table.{table_fault};
ghost use Rattle.pc_types_lists.specs.Types.{KeepsTypes, no_types, types_held};
ghost use Rattle.pc_parsed.specs.declared.payload.Payload.{Payload as Payloads};
ghost use Rattle.pc_spec_reading.specs.Item.{Items};
ghost use Rattle.pc_spec_reading.specs.Reading.{Reading};
ghost use Rattle.pc_spec_reading.specs.Total.{counted};
ghost use Rattle.pc_dfg.specs.Ordered.{IsOrdered};
ghost use Rattle.pc_dfg_linearize.specs.Grouped.{IsGrouped};
ghost use Rattle.pc_local.specs.Sound.{AreSoundBodies, IsSoundBody};
ghost use Rattle.pc_local.specs.Standing.{BodyStands, no_names};
ghost use Rattle.pc_inline_stack.specs.Totals.{GainsFew};
ghost use Rattle.pc_inline.specs.Inlines.{GraphStands};
ghost use Rattle.pc_spec_facts.specs.Recorded.{bare};
ghost use Rattle.pc_translate.specs.Causes.{CanBeRead, HasCause, IsValid};
ghost use Rattle.pc_translate.specs.Adapted.{as_handed_in};
ghost use Rattle.pc_translate.specs.Finished.{IsFinished};
ghost use Rattle.pc_translate.specs.ModuleTypes.{HasModuleType, HoldsModules};
ghost use Rattle.pc_translate.specs.Partitioned.{IsGroupedGraph};
ghost use Rattle.pc_translate.specs.Planning.{Groups, HasGraph, IsProgramOf, Plans, PlansGraph};
ghost use Rattle.pc_translate.specs.Planning.{StopsFinish, StopsPayloads};
ghost use Rattle.pc_translate.specs.Planning.{error_of_adapt, error_of_finish};
ghost use Rattle.pc_translate.specs.Recorded.{HasFacts};
ghost use Rattle.pc_translate.specs.Transparent.{TellsTransparent};
ghost use Rattle.pc_translate.specs.Translation.{CountsGained, IsPlanOf, IsRefusalOf, Translates};

use crate::held::types_held;
use crate::plan::finish;
use pc_adapt::AdaptError;
use pc_adapt_partition::partition_adapter_modules;
use pc_analysis_contexts::analyze_same_vmctx_imports;
use pc_analysis_imports::analyze_imports;
use pc_analysis_transparent::transparent_adapters;
use pc_dfg::ComponentDfg;
use pc_dfg_finish::FinishError;
use pc_entity::{NoMemory, PrimaryMap, Seed, Seq, StaticModuleIndex};
use pc_info::{ComponentTranslation, ModuleTranslation};
use pc_inline::inline_run;
use pc_local::{LocalProgram, translate_payloads};
use pc_parsed::{Payload, Tunables};
use pc_types::{Error, Place, SharedRecord, TypeTable};
use pc_types_builder::ComponentTypesBuilder;
use pc_weights::counted;
use std::alloc::Global;

/// The number that a total may not reach.
const FULL: u32 = pc_weights::FULL as u32;

/// A plan and its core modules.
pub type PlanWithModules = (
    ComponentTranslation,
    PrimaryMap<StaticModuleIndex, ModuleTranslation>,
);

/// The modules of a plan, from their records.
fn translations(
    alloc: Global,
    modules: PrimaryMap<StaticModuleIndex, SharedRecord>,
) -> Result<PrimaryMap<StaticModuleIndex, ModuleTranslation>, NoMemory>
    ensures { IfOk result (λ ms. ms ≡ map as_handed_in modules) }
{
    let mut translations = Vec::with_capacity(alloc, modules.len())?;
    for module in modules.into_vec() {
        translations.push(ModuleTranslation::new(alloc, module, Seq::new(alloc)))?;
    }
    Ok(PrimaryMap::from_vec(translations))
}

/// The local program of payloads, and the total before the first item. Where that isn't full, each thing in them has a
/// number.
fn program_of(
    alloc: Global,
    types: &ComponentTypesBuilder,
    table: &TypeTable,
    exposed: Option<&str>,
    payloads: &[Payload],
) -> Result<(LocalProgram, u32), Error>
    ensures program { IfOk result (λ r. IsProgramOf table.now (option_map (λ name. name.now) exposed.entry)
        (types_held types.now) payloads.now r.1 r.0) }
    ensures refused { IfErr result (StopsPayloads table.now (option_map (λ name. name.now) exposed.entry)
        (types_held types.now) payloads.now) }
{
    let counted = counted(table, types_held(types), payloads);
    if counted >= FULL {
        return Err(Error::TooMany);
    }
    let program = translate_payloads(alloc, types.seed(), table, exposed, payloads)?;
    Ok((program, counted))
}

/// The same of payloads that are handed over. They go once they are read.
fn program_from(
    alloc: Global,
    types: &ComponentTypesBuilder,
    table: &TypeTable,
    exposed: Option<&str>,
    payloads: Seq<Payload>,
) -> Result<(LocalProgram, u32), Error>
    ensures program { IfOk result (λ r. IsProgramOf table.now (option_map (λ name. name.now) exposed.entry)
        (types_held types.now) payloads r.1 r.0) }
    ensures refused { IfErr result (StopsPayloads table.now (option_map (λ name. name.now) exposed.entry)
        (types_held types.now) payloads) }
{
    program_of(alloc, types, table, exposed, payloads.as_slice())
}

/// The core modules of a local program. The rest of it goes.
fn modules_of(program: LocalProgram) -> PrimaryMap<StaticModuleIndex, SharedRecord>
    ensures { result ≡ program.modules }
{
    program.modules
}

/// Tells a graph which of its adapters need not keep the state of a thread.
fn mark_transparent(
    alloc: Global,
    types: &ComponentTypesBuilder,
    graph: &mut ComponentDfg,
) -> Result<(), NoMemory>
    requires stands { (t : Table) × (ms : List Record) × (r : Reading) × GraphStands t ms types.now graph.old r }
    ensures marks { OnOk result (graph.new
        ≡ record graph.old { transparent_adapters = graph.new.transparent_adapters }) }
    ensures tells { OnOk result ((t : Table) (ms : List Record) (r : Reading)
        → GraphStands t ms types.now graph.old r → TellsTransparent r graph.new) }
{
    let transparent = transparent_adapters(alloc, graph, types)?;
    graph.transparent_adapters = transparent;
    Ok(())
}

/// The graph of a local program, which tells which of its adapters need not keep the state of a thread. The total
/// before the first item is given.
fn graph_of(
    alloc: Global,
    tunables: &Tunables,
    table: &TypeTable,
    types: &mut ComponentTypesBuilder,
    program: &LocalProgram,
    counted: u32,
) -> Result<ComponentDfg, Error>
    requires table { table_fault table.now ≡ None }
    requires modules { list_all (is_sound table.now) program.now.modules ≡ true }
    requires stands { (body : Items) × BodyStands program.now.components no_names program.now.root body }
    requires root { IsSoundBody (length program.now.modules) program.now.root }
    requires components { AreSoundBodies (length program.now.modules) program.now.components }
    requires below { counted < 4294967295 }
    requires held { length table.now.core_funcs + types_held types.old ≤ counted }
    ensures graph { (body : Items) → BodyStands program.now.components no_names program.now.root body
        → HasGraph table.now program.now.modules tunables.now.max_component_instances counted body types.old types.new
        result }
    ensures keeps { KeepsTypes types.old types.new }
    ensures adds { GainsFew table.now counted types.old types.new }
{
    let mut graph = inline_run(
        alloc,
        types,
        table,
        program,
        tunables.max_component_instances,
        counted,
    )?;
    mark_transparent(alloc, types, &mut graph)?;
    Ok(graph)
}

/// Why a graph has no plan, as an error of the translation.
fn finish_error(error: FinishError) -> Error
    ensures { result ≡ error_of_finish error }
{
    match error {
        FinishError::TooMany => Error::TooMany,
        FinishError::NoMemory => Error::NoMemory,
    }
}

/// Why adapters have no modules, as an error of the translation.
fn adapt_error(error: AdaptError) -> Error
    ensures { result ≡ error_of_adapt error }
{
    match error {
        AdaptError::BadOptions(adapter) => Error::BadOptions(Place::Adapter(adapter.0)),
        AdaptError::TooMany => Error::TooMany,
        AdaptError::NoMemory => Error::NoMemory,
    }
}

/// Puts the modules of a graph's adapters behind those that were handed in. The graph gets them too.
fn group_adapters(
    alloc: Global,
    types: &ComponentTypesBuilder,
    graph: &mut ComponentDfg,
    modules: &mut PrimaryMap<StaticModuleIndex, ModuleTranslation>,
) -> Result<(), Error>
    requires stands { (t : Table) × (ms : List Record) × (r : Reading) × GraphStands t ms types.now graph.old r }
    ensures groups { (t : Table) (ms : List Record) (r : Reading) → GraphStands t ms types.now graph.old r
        → modules.old ≡ map as_handed_in ms → Groups ms r types.now graph.old graph.new modules.new result }
{
    let grouped = partition_adapter_modules(alloc, graph, types, modules);
    // No entry of an interned list stands twice.
    graph.entries_are_distinct();
    grouped.map_err(adapt_error)
}

/// The plan of a graph whose adapters are grouped, where the types that it exports are held.
fn finish_graph(
    alloc: Global,
    table: &TypeTable,
    types: &mut ComponentTypesBuilder,
    graph: ComponentDfg,
) -> Result<ComponentTranslation, Error>
    requires table { table_fault table.now ≡ None }
    requires ordered { IsOrdered graph }
    requires grouped { IsGrouped graph }
    requires are_modules { All (HasModuleType table.now) graph.export_items }
    requires held { HoldsModules types.old table.now graph.export_items }
    ensures unchanged { types.new ≡ types.old }
    ensures plan { IfOk result (λ p. IsFinished types.old table.now graph p) }
    ensures refused { IfErr result (StopsFinish graph) }
{
    // No two types are equal, so no module type is there twice.
    types.types_are_distinct();
    finish(alloc, graph, table, types).map_err(finish_error)
}

/// The plan of a graph whose adapters have these modules. What graph and plan tell of the imports of the modules is
/// recorded of them.
fn finish_with_facts(
    alloc: Global,
    table: &TypeTable,
    types: &mut ComponentTypesBuilder,
    graph: ComponentDfg,
    modules: &mut PrimaryMap<StaticModuleIndex, ModuleTranslation>,
) -> Result<ComponentTranslation, Error>
    requires table { table_fault table.now ≡ None }
    requires grouped { IsGroupedGraph table.now types.old graph modules.old }
    ensures unchanged { types.new ≡ types.old }
    ensures plan { IfOk result (λ p. IsFinished types.old table.now graph p) }
    ensures refused { IfErr result (StopsFinish graph) }
    ensures bare { OnOk result (map bare modules.new ≡ modules.old) }
    ensures facts { IfOk result (λ p. HasFacts p modules.new) }
{
    analyze_same_vmctx_imports(alloc, &graph, modules)?;
    let plan = finish_graph(alloc, table, types, graph)?;
    analyze_imports(alloc, &plan, modules)?;
    Ok(plan)
}

/// The plan of a graph that stands for a reading, and its modules: first come modules for the adapters of the graph,
/// and then the plan that the graph becomes.
fn plan_of_graph(
    alloc: Global,
    table: &TypeTable,
    types: &mut ComponentTypesBuilder,
    graph: ComponentDfg,
    records: PrimaryMap<StaticModuleIndex, SharedRecord>,
) -> Result<PlanWithModules, Error>
    requires table { table_fault table.now ≡ None }
    requires modules { list_all (is_sound table.now) records ≡ true }
    requires stands { (r : Reading) × GraphStands table.now records types.old graph r }
    ensures unchanged { types.new ≡ types.old }
    ensures plans { (r : Reading) → GraphStands table.now records types.old graph r
        → PlansGraph table.now records r types.old graph result }
{
    let mut grouped = graph;
    let mut modules = translations(alloc, records)?;
    group_adapters(alloc, types, &mut grouped, &mut modules)?;
    let plan = finish_with_facts(alloc, table, types, grouped, &mut modules)?;
    Ok((plan, modules))
}

/// The plan of a local program, and its modules: the graph of the program, and then its plan. The total before the first
/// item is given, which counts the modules of the program.
fn plan_of(
    alloc: Global,
    tunables: &Tunables,
    table: &TypeTable,
    types: &mut ComponentTypesBuilder,
    program: LocalProgram,
    counted: u32,
) -> Result<PlanWithModules, Error>
    requires table { table_fault table.now ≡ None }
    requires modules { list_all (is_sound table.now) program.modules ≡ true }
    requires stands { (body : Items) × BodyStands program.components no_names program.root body }
    requires root { IsSoundBody (length program.modules) program.root }
    requires components { AreSoundBodies (length program.modules) program.components }
    requires below { counted < 4294967295 }
    requires held { length table.now.core_funcs + types_held types.old ≤ counted }
    requires begins { length program.modules ≤ counted }
    ensures plan { (body : Items) → BodyStands program.components no_names program.root body
        → Plans table.now program.modules tunables.now.max_component_instances counted body types.old types.new result }
    ensures keeps { KeepsTypes types.old types.new }
    ensures adds { GainsFew table.now counted types.old types.new }
{
    let graph = graph_of(alloc, tunables, table, types, &program, counted)?;
    plan_of_graph(alloc, table, types, graph, modules_of(program))
}

/// The plan that payloads are translated to, and its core modules, from their local program and the total before the
/// first item.
fn translate_program(
    alloc: Global,
    tunables: &Tunables,
    table: &TypeTable,
    types: &mut ComponentTypesBuilder,
    program: LocalProgram,
    counted: u32,
) -> Result<PlanWithModules, Error>
    requires program { (exposed : Option (List ℕ)) × (ps : List Payloads)
        × IsProgramOf table.now exposed (types_held types.old) ps counted program }
    ensures translated { (exposed : Option (List ℕ)) (ps : List Payloads)
        → IsProgramOf table.now exposed (types_held types.old) ps counted program
        → IfOk result (λ r. Translates table.now exposed tunables.now.max_component_instances (types_held types.old) ps
        types.new r.0 r.1) }
    ensures refused { (exposed : Option (List ℕ)) (ps : List Payloads)
        → IsProgramOf table.now exposed (types_held types.old) ps counted program
        → IfErr result (λ e. HasCause table.now exposed tunables.now.max_component_instances (types_held types.old) ps
        e) }
    ensures keeps { KeepsTypes types.old types.new }
    ensures adds { GainsFew table.now counted types.old types.new }
    ensures counts { (exposed : Option (List ℕ)) (ps : List Payloads)
        → IsProgramOf table.now exposed (types_held types.old) ps counted program
        → IfOk result (λ _. CountsGained table.now exposed tunables.now.max_component_instances (types_held types.old)
        ps types.old types.new) }
{
    let translated = plan_of(alloc, tunables, table, types, program, counted)?;
    // No two signatures are equal, so a lowering has the one of its options; and a type has one number, so an adapter has.
    types.types_are_distinct();
    types.numbers_are_trees();
    Ok(translated)
}

/// The plan that payloads are translated to, and its core modules: those of the payloads, in order.
///
/// `exposed` is the import name under which the root may find the unsafe intrinsics. The builder gains the types of
/// the plan, also on a refusal; the types that it held keep their numbers.
pub fn translate(
    alloc: Global,
    tunables: &Tunables,
    table: &TypeTable,
    types: &mut ComponentTypesBuilder,
    exposed: Option<&str>,
    payloads: &[Payload],
) -> Result<PlanWithModules, Error>
    // The plan does what the nested reading of the payloads says.
    ensures translated { IfOk result (λ r. Translates table.now (option_map (λ name. name.now) exposed.entry)
        tunables.now.max_component_instances (types_held types.old) payloads.now types.new r.0 r.1) }

    // Each refusal is the answer by the order of answers, or memory was wanting.
    ensures refused { IfErr result (λ e. HasCause table.now (option_map (λ name. name.now) exposed.entry)
        tunables.now.max_component_instances (types_held types.old) payloads.now e) }

    // Valid payloads are refused for want of memory alone.
    ensures complete { IsValid table.now (option_map (λ name. name.now) exposed.entry)
        tunables.now.max_component_instances (types_held types.old) payloads.now
        → IfErr result (λ e. e ≡ error.NoMemory) }

    ensures keeps { KeepsTypes types.old types.new }

    // The builder gains nothing where the payloads don't come to be read.
    ensures early { (CanBeRead table.now (option_map (λ name. name.now) exposed.entry) (types_held types.old)
        payloads.now → ⊥) → types.new ≡ types.old }

    // It gains few types, whatever is answered.
    ensures adds { GainsFew table.now (counted table.now (types_held types.old) payloads.now) types.old types.new }

    // And those of a plan are fewer than the reading counts.
    ensures counts { IfOk result (λ _. CountsGained table.now (option_map (λ name. name.now) exposed.entry)
        tunables.now.max_component_instances (types_held types.old) payloads.now types.old types.new) }
{
    let (program, counted) = program_of(alloc, types, table, exposed, payloads)?;
    translate_program(alloc, tunables, table, types, program, counted)
}

/// What `translate` answers with a builder that holds no types, for callers that hand their payloads over and don't ask
/// for the types of the plan.
fn plan_with(
    alloc: Global,
    tunables: &Tunables,
    table: &TypeTable,
    types: &mut ComponentTypesBuilder,
    exposed: Option<&str>,
    payloads: Seq<Payload>,
) -> Result<PlanWithModules, Error>
    requires fresh { types.old ≡ no_types }
    ensures translated { IfOk result (λ r. IsPlanOf table.now (option_map (λ name. name.now) exposed.entry)
        tunables.now.max_component_instances payloads r.0 r.1) }
    ensures refused { IfErr result (λ e. IsRefusalOf table.now (option_map (λ name. name.now) exposed.entry)
        tunables.now.max_component_instances payloads e) }
{
    let (program, counted) = program_from(alloc, types, table, exposed, payloads)?;
    let translated = translate_program(alloc, tunables, table, types, program, counted);
    // No list is past its bound and no two types are equal.
    types.types_are_distinct();
    translated
}

/// The plan that payloads are translated to, and its core modules, with a types builder of its own, whose maps have
/// this seed. The payloads go once they are read; `translate` is for callers that keep theirs.
pub fn plan_payloads(
    alloc: Global,
    seed: Seed,
    tunables: &Tunables,
    table: &TypeTable,
    exposed: Option<&str>,
    payloads: Seq<Payload>,
) -> Result<PlanWithModules, Error>
    ensures translated { IfOk result (λ r. IsPlanOf table.now (option_map (λ name. name.now) exposed.entry)
        tunables.now.max_component_instances payloads r.0 r.1) }
    ensures refused { IfErr result (λ e. IsRefusalOf table.now (option_map (λ name. name.now) exposed.entry)
        tunables.now.max_component_instances payloads e) }
{
    plan_with(
        alloc,
        tunables,
        table,
        &mut ComponentTypesBuilder::new(alloc, seed),
        exposed,
        payloads,
    )
}

/// A translation before its payloads: what it is to know of them.
///
/// It may be told the name under which the root imports the unsafe intrinsics.
#[derive(Drop)]
pub struct Translator<'a> {
    types: &'a mut ComponentTypesBuilder,
    alloc: Global,
    tunables: &'a Tunables,
    table: &'a TypeTable,
    exposed: Option<&'a str>,
}

impl<'a> Translator<'a> {
    /// A translation without the unsafe intrinsics, whose types the builder gains.
    pub fn new(
        alloc: Global,
        tunables: &'a Tunables,
        table: &'a TypeTable,
        types: &'a mut ComponentTypesBuilder,
    ) -> Self
        ensures same_builder { result.types.ghost_name ≡ types.entry.ghost_name }
        ensures types { result.types.now ≡ types.old }
        ensures tunables { result.tunables.now ≡ tunables.now }
        ensures table { result.table.now ≡ table.now }
        ensures exposes_nothing { result.exposed ≡ None }
    {
        Translator {
            types,
            alloc,
            tunables,
            table,
            exposed: None,
        }
    }

    /// Exposes the unsafe intrinsics under this import name.
    pub fn expose_unsafe_intrinsics(&mut self, name: &'a str) -> &mut Self
        requires once { is_some self.old.exposed ≡ false }
        ensures same_translator { result.ghost_name ≡ self.entry.ghost_name }
        ensures exposes { result.now ≡ record self.old { exposed = Some name.entry } }
    {
        self.exposed = Some(name);
        self
    }

    /// Whether a name was exposed.
    pub fn exposes_intrinsics(&self) -> bool
        ensures { result ≡ is_some self.now.exposed }
    {
        self.exposed.is_some()
    }

    /// The plan that payloads are translated to, and its core modules: those of the payloads, in order.
    ///
    /// The builder gains the types of the plan, also on a refusal; the types that it held keep their numbers.
    pub fn translate(self, component: &[Payload]) -> Result<PlanWithModules, Error>
        // The plan does what the nested reading of the payloads says.
        ensures translated { IfOk result (λ r. Translates self.entry.table.now
            (option_map (λ name. name.now) self.entry.exposed) self.entry.tunables.now.max_component_instances
            (types_held self.entry.types.now) component.now self.exit.0.now r.0 r.1) }

        // Each refusal is the answer by the order of answers, or memory was wanting.
        ensures refused { IfErr result (λ e. HasCause self.entry.table.now
            (option_map (λ name. name.now) self.entry.exposed) self.entry.tunables.now.max_component_instances
            (types_held self.entry.types.now) component.now e) }

        // Valid payloads are refused for want of memory alone.
        ensures complete { IsValid self.entry.table.now (option_map (λ name. name.now) self.entry.exposed)
            self.entry.tunables.now.max_component_instances (types_held self.entry.types.now) component.now
            → IfErr result (λ e. e ≡ error.NoMemory) }

        ensures keeps { KeepsTypes self.entry.types.now self.exit.0.now }

        // The builder gains nothing where the payloads don't come to be read.
        ensures early { (CanBeRead self.entry.table.now (option_map (λ name. name.now) self.entry.exposed)
            (types_held self.entry.types.now) component.now → ⊥) → self.exit.0.now ≡ self.entry.types.now }

        // It gains few types, whatever is answered.
        ensures adds { GainsFew self.entry.table.now
            (counted self.entry.table.now (types_held self.entry.types.now) component.now)
            self.entry.types.now self.exit.0.now }

        // And those of a plan are fewer than the reading counts.
        ensures counts { IfOk result (λ _. CountsGained self.entry.table.now
            (option_map (λ name. name.now) self.entry.exposed) self.entry.tunables.now.max_component_instances
            (types_held self.entry.types.now) component.now self.entry.types.now self.exit.0.now) }
    {
        let Translator {
            types,
            alloc,
            tunables,
            table,
            exposed,
        } = self;
        translate(alloc, tunables, table, types, exposed, component)
    }
}
