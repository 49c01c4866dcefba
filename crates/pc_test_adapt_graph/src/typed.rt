//! The types of the adapters that are tested: function types 0 and 1 of a builder.

ghost use Rattle.std.specs.Prelude.{◌≡◌, true, None};
ghost use Rattle.pc_types.specs.Table.{table_fault};
ghost use Rattle.pc_test_adapt_graph.specs.Two.{AreTwo, HaveTwo, IsTwo};

use pc_dfg::{Adapter, ComponentDfg};
use pc_entity::{EntityRef, Seed};
use pc_types::{TypeTable, check_table};
use pc_types_builder::ComponentTypesBuilder;
use std::alloc::Global;

/// Whether a table is sound, and short enough to ask.
fn is_sound(alloc: Global, table: &TypeTable) -> bool
    ensures { result ≡ true → table_fault table.now ≡ None }
{
    if table.types.len() < 1_000_000 {
        check_table(alloc, Seed::fixed(), table).is_ok()
    } else {
        false
    }
}

/// Converts the first two entries of a table, whether they are the first two function types.
pub(crate) fn has_two(alloc: Global, types: &mut ComponentTypesBuilder, table: &TypeTable) -> bool
    ensures { result ≡ true → HaveTwo types.new }
{
    if !is_sound(alloc, table) {
        return false;
    }
    let Ok(first) = types.convert_func(table, 0) else {
        return false;
    };
    let Ok(second) = types.convert_func(table, 1) else {
        return false;
    };
    first.as_u32() == 0 && second.as_u32() == 1
}

/// Whether both types of an adapter are among the first two.
fn is_of_two(adapter: &Adapter) -> bool
    ensures { result ≡ true → IsTwo adapter.now }
{
    adapter.lift_ty.as_u32() < 2 && adapter.lower_ty.as_u32() < 2
}

/// Whether the types of all adapters are.
pub(crate) fn are_of_two(graph: &ComponentDfg) -> bool
    ensures { result ≡ true → AreTwo graph.now }
{
    let adapters = graph.adapters.as_slice();
    for place in 0..graph.adapters.len() {
        if !is_of_two(&adapters[place]) {
            return false;
        }
    }
    true
}
