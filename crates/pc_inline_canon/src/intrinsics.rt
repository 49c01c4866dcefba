//! Unsafe intrinsics as core functions.

ghost use Rattle.std.specs.Prelude.{◌≡◌, List, length, IfErr, IfOk};
ghost use Rattle.pc_types.specs.declared.module_record.ModuleRecord.{ModuleRecord};
ghost use Rattle.pc_types.specs.declared.parsed.TypeTable.{TypeTable};
ghost use Rattle.pc_inline_state.specs.AddsEach.{AddsEach, nowhere};
ghost use Rattle.pc_inline_state.specs.Refused.{LacksRoom};
ghost use Rattle.pc_inline_state.specs.Tables.{Keeps, tables_of};
ghost use Rattle.pc_inline_canon.specs.Callees.{AddsIntrinsic};

use pc_entity::ModuleInternedTypeIndex;
use pc_inline_state::{CoreId, ItemError, State};
use pc_types::UnsafeIntrinsic;

/// An unsafe intrinsic as a core function. Of the signatures that it is given the first stands.
pub fn add_intrinsic(
    state: &mut State<'_>,
    intrinsic: UnsafeIntrinsic,
    core_type: ModuleInternedTypeIndex,
) -> Result<CoreId, ItemError>
    requires places { length state.old.graph.unsafe_intrinsics ≡ 21 }
    ensures keeps { Keeps (tables_of state.old) (tables_of state.new) }
    ensures adds { AddsEach nowhere 1 0 (tables_of state.old) (tables_of state.new) }
    ensures added { (t : TypeTable) (ms : List ModuleRecord)
        → IfOk result (AddsIntrinsic t ms state.old state.new intrinsic core_type) }
    ensures lacks { IfErr result (LacksRoom state.new) }
{
    state.push_intrinsic(intrinsic, core_type)
}
