//! The adapters of a module, one after the other.

ghost use Rattle.std.specs.Prelude.{◌≡◌, ◌+◌, ◌*◌, ◌<◌, ◌≤◌, ◌⊎◌, ℕ, length, Err, IfOk};
ghost use Rattle.pc_dfg.specs.Ordered.{IsOrdered};
ghost use Rattle.pc_spec_adapt.specs.Asked.{FunctionFacts};
ghost use Rattle.pc_adapt.specs.Imports.{is_transparent};
ghost use Rattle.pc_adapt_define.specs.Adds.{Adds};
ghost use Rattle.pc_adapt_define.specs.Define.{HasNoRoom};
ghost use Rattle.pc_adapt_partition.specs.Facts.{AreFacts, AreKnown};
ghost use Rattle.pc_adapt_partition.specs.Gathered.{Gathers};
ghost use Rattle.pc_adapt_partition.specs.Parts.{parts_of, slice, total_imports};

use crate::group::{Group, no_group, put};
use pc_adapt_modules::ModuleNames;
use pc_dfg::{AdapterId, ComponentDfg, PushError};
use pc_types_builder::ComponentTypesBuilder;
use std::alloc::Global;

/// What is gathered for a module of as many adapters from this number on.
pub(crate) fn gather(
    alloc: Global,
    graph: &mut ComponentDfg,
    types: &ComponentTypesBuilder,
    names: &mut ModuleNames,
    first: u32,
    many: u32,
) -> Result<Group, PushError>
    requires ordered { IsOrdered graph.old }
    requires known { AreKnown types.now graph.old.adapters }
    requires range { first + many ≤ length graph.old.adapters }
    requires numbers { first + many ≤ 4294967295 }
    ensures gathers { IfOk result (λ group. (lift lower : ℕ → FunctionFacts)
        → AreFacts types.now graph.old.adapters lift lower
        → Gathers graph.old graph.new first
        (parts_of lift lower (is_transparent graph.old) first (slice first many graph.old.adapters)) group) }
    ensures few { Adds (9 * many) many many (12 * many) graph.old graph.new }
    ensures full { result ≡ Err PushError.TooMany → HasNoRoom graph.new
        ⊎ ((lift lower : ℕ → FunctionFacts) → AreFacts types.now graph.old.adapters lift lower
        → 4294967294 < total_imports
        (parts_of lift lower (is_transparent graph.old) first (slice first many graph.old.adapters))) }
{
    let mut group = no_group(alloc);
    for place in 0..many {
        put(
            alloc,
            graph,
            types,
            names,
            &mut group,
            AdapterId(first + place),
        )?;
    }
    Ok(group)
}
