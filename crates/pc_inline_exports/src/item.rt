//! One item of the graph that something is exported by.

ghost use Rattle.std.specs.Prelude.{◌≡◌, false};
ghost use Rattle.pc_inline_state.specs.declared.definition.Definition.TheVariants as definition;
ghost use Rattle.pc_inline_state.specs.declared.error.ItemError.TheVariants as item_error;
ghost use Rattle.pc_inline_state.specs.declared.error.ItemFault.TheVariants as item_fault;
ghost use Rattle.pc_inline_exports.specs.Found.{nests};
ghost use Rattle.pc_inline_exports.specs.Reaching.{IsReachable, MakesItem, Pushes, ReachesOne};

use pc_dfg::Export;
use pc_entity::{ExportIndex, TryClone};
use pc_inline_canon::{options_entry, use_host};
use pc_inline_paths::PathId;
use pc_inline_state::{Context, CoreId, Definition, ItemError, ItemFault, Options, State};
use pc_types::{TypeFuncIndex, TypeModuleIndex, Unsupported};

/// The export item of a core function, lifted.
fn lifted_item(
    context: &Context<'_>,
    state: &mut State<'_>,
    ty: TypeFuncIndex,
    func: CoreId,
    options: Options,
) -> Result<Export, ItemError>
    requires is { IsReachable context.now.table.now context.now.modules state.old
        (definition.LiftedFunc ty func options) }
    ensures { MakesItem context.now.table.now context.now.modules state.old
        (definition.LiftedFunc ty func options) state.new result }
{
    let options = options_entry(context, state, options)?;
    let func = state.cores[func].try_clone(context.alloc)?;
    Ok(Export::LiftedFunction { ty, func, options })
}

/// The export item of a function of the host, which is used from here on.
fn host_func_item(
    context: &Context<'_>,
    state: &mut State<'_>,
    path: PathId,
    ty: TypeFuncIndex,
) -> Result<Export, ItemError>
    requires is { IsReachable context.now.table.now context.now.modules state.old (definition.HostFunc path ty) }
    ensures { MakesItem context.now.table.now context.now.modules state.old
        (definition.HostFunc path ty) state.new result }
{
    let import = use_host(context, state, path)?;
    Ok(Export::ImportedFunction { ty, import })
}

/// The export item of a module of the host, which is used from here on.
fn host_module_item(
    context: &Context<'_>,
    state: &mut State<'_>,
    path: PathId,
    ty: TypeModuleIndex,
    entry: u32,
) -> Result<Export, ItemError>
    requires is { IsReachable context.now.table.now context.now.modules state.old
        (definition.HostModule path ty entry) }
    ensures { MakesItem context.now.table.now context.now.modules state.old
        (definition.HostModule path ty entry) state.new result }
{
    let import = use_host(context, state, path)?;
    Ok(Export::ModuleImport { ty, import })
}

/// Why this can't be exported.
fn refuse(what: Unsupported) -> ItemError
    ensures { result ≡ item_error.Fault (item_fault.Unsupported what) }
{
    ItemError::Fault(ItemFault::Unsupported(what))
}

/// The export item of what is no instance with exports. A component and the unsafe intrinsics are refused.
fn leaf_item(
    context: &Context<'_>,
    state: &mut State<'_>,
    leaf: Definition,
) -> Result<Export, ItemError>
    requires is { IsReachable context.now.table.now context.now.modules state.old leaf }
    requires leaf { nests leaf ≡ false }
    ensures { MakesItem context.now.table.now context.now.modules state.old leaf state.new result }
{
    match leaf {
        Definition::LiftedFunc { ty, func, options } => lifted_item(
            context, state, ty, func, options,
        ),
        Definition::HostFunc { path, ty } => host_func_item(context, state, path, ty),
        Definition::StaticModule { index, ty } => Ok(Export::ModuleStatic { ty, index }),
        Definition::HostModule { path, ty, entry } => {
            host_module_item(context, state, path, ty, entry)
        }
        Definition::Type_(ty) => Ok(Export::Type_(ty)),
        Definition::Component { .. } => Err(refuse(Unsupported::ExportedComponent)),
        Definition::IntrinsicFunc { .. } => Err(refuse(Unsupported::ReexportedIntrinsic)),
        Definition::Intrinsics => Err(refuse(Unsupported::ReexportedIntrinsics)),
        Definition::HostInstance { .. } | Definition::Instance { .. } => unreachable!(),
    }
}

/// Adds an export item, and answers its number.
pub(crate) fn push_item(state: &mut State<'_>, item: Export) -> Result<ExportIndex, ItemError>
    ensures { Pushes state.old item state.new result }
{
    Ok(state.graph.push_export_item(item)?)
}

/// What is no instance becomes an item of the graph.
pub(crate) fn reach_leaf(
    context: &Context<'_>,
    state: &mut State<'_>,
    leaf: Definition,
) -> Result<ExportIndex, ItemError>
    requires is { IsReachable context.now.table.now context.now.modules state.old leaf }
    requires leaf { nests leaf ≡ false }
    ensures { ReachesOne context.now.table.now context.now.modules state.old leaf state.new result }
{
    let item = leaf_item(context, state, leaf)?;
    push_item(state, item)
}
