//! Host items that are used, and functions, lowered.

ghost use Rattle.std.specs.Prelude.{◌≡◌, ◌<◌, Some, length, slice_get, IfErr, IfOk};
ghost use Rattle.pc_types.specs.TypeTree.{Path};
ghost use Rattle.pc_inline_state.specs.Adds.{Adds};
ghost use Rattle.pc_inline_state.specs.AddsEach.{AddsEach, in_imports};
ghost use Rattle.pc_inline_canon.specs.Callees.{HeldCallee, LowersTo};
ghost use Rattle.pc_inline_canon.specs.Hosts.{Lowers, Uses};
ghost use Rattle.pc_inline_state.specs.Points.{IsSoundState};
ghost use Rattle.pc_inline_state.specs.Refused.{LacksRoom};
ghost use Rattle.pc_inline_state.specs.Slots.{OptionsThere};
ghost use Rattle.pc_inline_state.specs.Tables.{Keeps, tables_of};

use crate::adapters::lower_lifted;
use crate::callee::Callee;
use crate::intrinsics::add_intrinsic;
use crate::slots::options_entry;
use pc_dfg::{CoreDef, Trampoline};
use pc_entity::RuntimeImportIndex;
use pc_inline_paths::PathId;
use pc_inline_state::{Context, CoreId, ItemError, Options, State};
use pc_types::TypeFuncIndex;

/// The number of a host item among those that are used. It gets one the first time, with the names of its path.
pub fn use_host(
    context: &Context<'_>,
    state: &mut State<'_>,
    path: PathId,
) -> Result<RuntimeImportIndex, ItemError>
    requires sound { IsSoundState context.now.table.now context.now.modules state.old }
    requires there { path.0 < length state.old.paths.held }
    ensures keeps { Keeps (tables_of state.old) (tables_of state.new) }
    ensures adds { AddsEach in_imports 0 0 (tables_of state.old) (tables_of state.new) }
    ensures uses { IfOk result (λ r. (p : Path) → slice_get state.old.paths.held path.0 ≡ Some p
        → Uses context.now.table.now context.now.modules state.old state.new p r) }
    ensures rest { state.new ≡ record state.old {
      graph = record state.old.graph { imports = state.new.graph.imports };
      used = state.new.used;
    } }
    ensures err { IfErr result (LacksRoom state.new) }
{
    if let Some(number) = state.used[path.0 as usize] {
        return Ok(number);
    }
    let (import, names) = state.paths.names(context.alloc, path)?;
    let number = state.graph.push_import(import, names)?;
    state.used[path.0 as usize] = Some(number);
    Ok(number)
}

/// The core function that a host function is lowered to.
fn lower_host(
    context: &Context<'_>,
    state: &mut State<'_>,
    path: PathId,
    ty: TypeFuncIndex,
    options: Options,
) -> Result<CoreId, ItemError>
    requires sound { IsSoundState context.now.table.now context.now.modules state.old }
    requires there { path.0 < length state.old.paths.held }
    requires options { OptionsThere context.now.modules (tables_of state.old) options }
    ensures keeps { Keeps (tables_of state.old) (tables_of state.new) }
    ensures adds { Adds context.now.table.now 4 (tables_of state.old) (tables_of state.new) }
    ensures resources { state.new.types.resources ≡ state.old.types.resources }
    ensures lowers { IfOk result (λ id. (p : Path) → slice_get state.old.paths.held path.0 ≡ Some p
        → Lowers context.now.table.now context.now.modules state.old state.new p ty options id) }
    ensures err { IfErr result (LacksRoom state.new) }
{
    let index = use_host(context, state, path)?;
    let entry = options_entry(context, state, options)?;
    let lowering = Trampoline::LowerImport {
        index,
        lower_ty: ty,
        options: entry,
    };
    let number = state.graph.push_trampoline(options.core_type, lowering)?;
    state.push_core(CoreDef::Trampoline(number))
}

/// The core function that a function is lowered to. An intrinsic is one itself, whatever the options.
pub(crate) fn lower(
    context: &Context<'_>,
    state: &mut State<'_>,
    callee: Callee,
    ty: TypeFuncIndex,
    options: Options,
) -> Result<CoreId, ItemError>
    requires sound { IsSoundState context.now.table.now context.now.modules state.old }
    requires there { HeldCallee context.now.modules (tables_of state.old) callee }
    requires options { OptionsThere context.now.modules (tables_of state.old) options }
    ensures keeps { Keeps (tables_of state.old) (tables_of state.new) }
    ensures adds { Adds context.now.table.now 36 (tables_of state.old) (tables_of state.new) }
    ensures resources { state.new.types.resources ≡ state.old.types.resources }
    ensures lowers { IfOk result (LowersTo context.now.table.now context.now.modules state.old state.new
        callee ty options) }
    ensures err { IfErr result (LacksRoom state.new) }
{
    match callee {
        Callee::Host(path) => lower_host(context, state, path, ty, options),
        Callee::Lifted {
            ty: lift_ty,
            func,
            options: lift,
        } => lower_lifted(context, state, (lift_ty, func, lift), ty, options),
        Callee::Intrinsic(intrinsic) => add_intrinsic(state, intrinsic, options.core_type),
    }
}
