//! Which definitions read or write the slots of a context.

ghost use Rattle.std.specs.Prelude.{◌≡◌, ◌∷◌, [], Some, map, option_map};
ghost use Rattle.std.specs.Option.{option_copied};
ghost use Rattle.pc_dfg.specs.declared.ids.CallbackId.{CallbackId as Callbacks};
ghost use Rattle.pc_dfg.specs.declared.ids.PostReturnId.{PostReturnId as PostReturns};
ghost use Rattle.pc_dfg.specs.declared.ids.ReallocId.{ReallocId as Reallocs};
ghost use Rattle.pc_spec_plan.specs.PlanView as plan;
ghost use Rattle.pc_dfg.specs.Effects.{host_arguments};
ghost use Rattle.pc_dfg.specs.Names.{if_any, in_entry, in_instance, in_model, in_resource, in_side, in_side_model};
ghost use Rattle.pc_dfg.specs.Names.{in_slot};
ghost use Rattle.pc_dfg.specs.Numbers.{model_entry, options_entry};
ghost use Rattle.pc_analysis_transparent.specs.Context.{is_context_def, uses_context};

use pc_dfg::{
    AdapterOptions, CallbackId, CanonicalOptions, CanonicalOptionsDataModel, ComponentDfg, CoreDef,
    DataModel, Instance, PostReturnId, ReallocId, Resource,
};
use pc_entity::TextMap;

/// The places of the intrinsics that read or write the slots of a context.
const FIRST: u32 = 17;

const LAST: u32 = 20;

/// Whether a definition is one of them.
fn is_context(def: &CoreDef) -> bool
    ensures { result ≡ is_context_def def.now }
{
    match def {
        CoreDef::UnsafeIntrinsic(_, intrinsic) => {
            let place = intrinsic.index();
            FIRST <= place && place <= LAST
        }
        CoreDef::Export(_) => false,
        CoreDef::InstanceFlags(_) => false,
        CoreDef::Trampoline(_) => false,
        CoreDef::Adapter(_) => false,
    }
}

/// Whether a definition reads or writes the slots of a context.
pub(crate) fn of_def(def: &CoreDef) -> bool
    ensures { result ≡ uses_context (def.now ∷ []) }
{
    is_context(def)
}

/// Whether one of these does.
#[tactic(auto, using(crate::proofs::ContextLemmas::uses_none))]
fn of_defs(defs: &[CoreDef]) -> bool
    ensures { result ≡ uses_context defs.now }
{
    let mut uses = false;
    for def in defs {
        uses |= of_def(def);
    }
    uses
}

/// Whether a definition does, if there is one.
#[tactic(auto, using(crate::proofs::ContextLemmas::uses_none))]
fn of_maybe(def: &Option<CoreDef>) -> bool
    ensures { result ≡ uses_context (if_any def.now) }
{
    match def {
        Some(def) => of_def(def),
        None => false,
    }
}

/// Whether the definition in a slot does, if there is one.
#[tactic(auto, using(crate::proofs::ContextLemmas::uses_none))]
fn of_slot(def: Option<&CoreDef>) -> bool
    ensures { result ≡ uses_context (if_any (option_copied def.entry)) }
{
    match def {
        Some(def) => of_def(def),
        None => false,
    }
}

/// Whether the realloc of a side does. A memory does nothing.
#[tactic(auto, using(crate::proofs::ContextLemmas::uses_none))]
fn of_side_model(model: &DataModel) -> bool
    ensures { result ≡ uses_context (in_side_model model.now) }
{
    match model {
        DataModel::Gc {} => false,
        DataModel::LinearMemory { memory: _, realloc } => of_maybe(realloc),
    }
}

/// Whether a function of the options of one side of an adapter does.
pub(crate) fn of_side(side: &AdapterOptions) -> bool
    ensures { result ≡ uses_context (in_side side.now) }
{
    let callback = of_maybe(&side.callback);
    let post_return = of_maybe(&side.post_return);
    let model = of_side_model(&side.data_model);
    callback | post_return | model
}

/// Whether the callback of options does.
#[tactic(auto, using(crate::proofs::ContextLemmas::uses_none), unfolding(pc_dfg::specs::Numbers::slots_of))]
fn of_callback(graph: &ComponentDfg, callback: Option<CallbackId>) -> bool
    ensures { result ≡ uses_context
        (in_slot graph.now plan.callback (option_map (λ (c : Callbacks). c.0) callback)) }
{
    match callback {
        Some(callback) => of_slot(graph.callbacks.get(callback)),
        None => false,
    }
}

/// Whether the post-return function of options does.
#[tactic(auto, using(crate::proofs::ContextLemmas::uses_none), unfolding(pc_dfg::specs::Numbers::slots_of))]
fn of_post_return(graph: &ComponentDfg, post_return: Option<PostReturnId>) -> bool
    ensures { result ≡ uses_context
        (in_slot graph.now plan.post_return (option_map (λ (p : PostReturns). p.0) post_return)) }
{
    match post_return {
        Some(post_return) => of_slot(graph.post_returns.get(post_return)),
        None => false,
    }
}

/// Whether the realloc of options does.
#[tactic(auto, using(crate::proofs::ContextLemmas::uses_none), unfolding(pc_dfg::specs::Numbers::slots_of))]
fn of_realloc(graph: &ComponentDfg, realloc: Option<ReallocId>) -> bool
    ensures { result ≡ uses_context
        (in_slot graph.now plan.realloc (option_map (λ (r : Reallocs). r.0) realloc)) }
{
    match realloc {
        Some(realloc) => of_slot(graph.reallocs.get(realloc)),
        None => false,
    }
}

/// Whether memory or realloc of options do. A memory does nothing.
#[tactic(auto, using(crate::proofs::ContextLemmas::uses_none))]
fn of_model(graph: &ComponentDfg, model: CanonicalOptionsDataModel) -> bool
    ensures { result ≡ uses_context (in_model graph.now (model_entry model)) }
{
    match model {
        CanonicalOptionsDataModel::Gc {} => false,
        CanonicalOptionsDataModel::LinearMemory { memory: _, realloc } => of_realloc(
            graph, realloc,
        ),
    }
}

/// Whether a function of options does.
pub(crate) fn of_options(graph: &ComponentDfg, options: &CanonicalOptions) -> bool
    ensures { result ≡ uses_context (in_entry graph.now (options_entry options.now)) }
{
    let callback = of_callback(graph, options.callback);
    let post_return = of_post_return(graph, options.post_return);
    let model = of_model(graph, options.data_model);
    callback | post_return | model
}

/// Whether one of these named arguments does.
#[tactic(auto, using(crate::proofs::ContextLemmas::uses_none))]
fn of_named(args: &TextMap<CoreDef>) -> bool
    ensures { result ≡ uses_context (map (λ a. a.1) args.now) }
{
    let mut uses = false;
    for place in 0..args.len() {
        let (_, def) = args.entry_at(place);
        uses |= of_def(def);
    }
    uses
}

/// Whether an argument of a host module does.
#[tactic(auto, using(crate::proofs::ContextLemmas::uses_none))]
fn of_host(args: &TextMap<TextMap<CoreDef>>) -> bool
    ensures { result ≡ uses_context (map (λ a. a.1.1) (host_arguments args.now)) }
{
    let mut uses = false;
    for place in 0..args.len() {
        let (_, named) = args.entry_at(place);
        uses |= of_named(named);
    }
    uses
}

/// Whether an argument of a core instance does.
#[tactic(auto, unfolding(pc_dfg::specs::Names::in_instance))]
pub(crate) fn of_instance(instance: &Instance) -> bool
    ensures { result ≡ uses_context (in_instance instance.now) }
{
    match instance {
        Instance::Static(_, args) => of_defs(args.as_slice()),
        Instance::Import(_, args) => of_host(args.get()),
    }
}

/// Whether the destructor of a resource does.
#[tactic(auto, unfolding(pc_dfg::specs::Names::in_resource))]
pub(crate) fn of_resource(resource: &Resource) -> bool
    ensures { result ≡ uses_context (in_resource resource.now) }
{
    of_maybe(&resource.dtor)
}
