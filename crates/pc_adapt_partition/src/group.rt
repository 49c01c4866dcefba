//! What is gathered for a module of adapters.

ghost use Rattle.std.specs.Prelude.{◌≡◌, ◌+◌, ◌<◌, ◌≤◌, ◌⊎◌, [], length, Some, Err, IfOk, OnOk, slice_get};
ghost use Rattle.pc_types_lists.specs.declared.facts.TypeFacts.{TypeFacts};
ghost use Rattle.pc_dfg.specs.declared.adapter.Adapter.{Adapter as Fused};
ghost use Rattle.pc_dfg.specs.Ordered.{IsOrdered};
ghost use Rattle.pc_spec_adapt.specs.Asked.{FunctionFacts};
ghost use Rattle.pc_adapt.specs.Asked.{HoldsTypes};
ghost use Rattle.pc_adapt.specs.Imports.{imports_of, is_transparent};
ghost use Rattle.pc_adapt.specs.Places.{side_count};
ghost use Rattle.pc_adapt_define.specs.Adds.{Adds};
ghost use Rattle.pc_adapt_define.specs.Define.{HasNoRoom};
ghost use Rattle.pc_adapt_partition.specs.Facts.{HasFacts, IsKnown};
ghost use Rattle.pc_adapt_partition.specs.Gathered.{Puts, noted};

use pc_adapt::Import;
use pc_adapt::facts::facts_of_function;
use pc_adapt::plan::imports_for;
use pc_adapt::record_of::record_of_adapter;
use pc_adapt_define::define_all;
use pc_adapt_modules::module::{no_parts, put_adapter};
use pc_adapt_modules::{ModuleNames, ModuleParts};
use pc_dfg::{Adapter, AdapterId, ComponentDfg, CoreDef, PushError};
use pc_entity::{EntityRef, NoMemory, Seq};
use pc_info::AdapterRecord;
use pc_types_builder::ComponentTypesBuilder;
use std::alloc::Global;

/// The most imports of a module.
const MAX_IMPORTS: usize = 4294967294;

/// A module while adapters are added to it.
#[derive(Drop)]
pub(crate) struct Group {
    /// Its imports and its functions.
    pub(crate) parts: ModuleParts,
    /// What is said of its adapters, whose functions aren't known yet.
    pub(crate) records: Seq<AdapterRecord>,
    /// What stands for its imports.
    pub(crate) args: Seq<CoreDef>,
}

/// A module without adapters.
pub(crate) fn no_group(alloc: Global) -> Group
    ensures parts { result.parts ≡ record { imports = []; funcs = [] } }
    ensures records { result.records ≡ [] }
    ensures args { result.args ≡ [] }
{
    Group {
        parts: no_parts(alloc),
        records: Seq::new(alloc),
        args: Seq::new(alloc),
    }
}

/// What is imported for an adapter, transparent or not.
fn planned(
    alloc: Global,
    types: &ComponentTypesBuilder,
    adapter: &Adapter,
    transparent: bool,
) -> Result<Vec<Import>, NoMemory>
    requires held { HoldsTypes types.now adapter.now }
    ensures { IfOk result (λ is. (lift lower : FunctionFacts) → HasFacts types.now adapter.now lift lower
        → is.items ≡ imports_of lift lower transparent adapter.now) }
{
    let lift = facts_of_function(types, adapter.lift_ty);
    let lower = facts_of_function(types, adapter.lower_ty);
    imports_for(alloc, adapter, lift, lower, transparent)
}

/// Notes an adapter, with how many imports it has. Their places begin behind what is there.
fn note(
    alloc: Global,
    names: &mut ModuleNames,
    group: &mut Group,
    id: AdapterId,
    adapter: &Adapter,
    many: usize,
) -> Result<(), NoMemory>
    requires room { length group.old.args + 3 + side_count adapter.now.lift_options
        + side_count adapter.now.lower_options < 4294967296 }
    ensures { OnOk result (group.new ≡ noted group.old id.0 adapter.now many) }
{
    let first = group.args.len() as u32;
    put_adapter(alloc, names, &mut group.parts, id.as_u32(), adapter, many)?;
    group.records.push(record_of_adapter(first, id, adapter))
}

/// Adds an adapter, unless the module had too many imports.
pub(crate) fn put(
    alloc: Global,
    graph: &mut ComponentDfg,
    types: &ComponentTypesBuilder,
    names: &mut ModuleNames,
    group: &mut Group,
    id: AdapterId,
) -> Result<(), PushError>
    requires ordered { IsOrdered graph.old }
    requires known { IsKnown types.now graph.old.adapters id.0 }
    requires room { length group.old.args ≤ 4294967294 }
    ensures puts { OnOk result ((x : Fused) (lift lower : FunctionFacts) → slice_get graph.old.adapters id.0 ≡ Some x
        → HasFacts types.now x lift lower
        → Puts graph.old graph.new id.0 x
        (imports_of lift lower (is_transparent graph.old id.0) x) group.old group.new) }
    ensures few { Adds 9 1 1 12 graph.old graph.new }
    ensures full { result ≡ Err PushError.TooMany → HasNoRoom graph.new
        ⊎ ((x : Fused) (lift lower : FunctionFacts) → slice_get graph.old.adapters id.0 ≡ Some x
        → HasFacts types.now x lift lower
        → 4294967294 < length group.old.args + length (imports_of lift lower (is_transparent graph.old id.0) x)) }
{
    let transparent = graph.transparent_adapters.contains(id);
    let imports = planned(alloc, types, &graph.adapters[id], transparent)?;
    if imports.len() > MAX_IMPORTS - group.args.len() {
        return Err(PushError::TooMany);
    }
    note(alloc, names, group, id, &graph.adapters[id], imports.len())?;
    let signature = graph.adapters[id].lower_options.core_type;
    define_all(graph, imports, signature, &mut group.args)
}
