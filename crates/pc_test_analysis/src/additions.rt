//! What a graph has beside the adapter that is asked for, which component instance 1 lifts and 2 lowers.

use crate::parts::{ASYNC, PLAIN, SIGNATURE, function, fused, options, reads_slot, side, stores};
use pc_dfg::{
    CallbackId, ComponentDfg, CoreDef, Export, Instance, OptionsId, PushError, Resource, Trampoline,
};
use pc_entity::{RuntimeComponentInstanceIndex, RuntimeImportIndex, Seq, StaticModuleIndex};
use pc_types::{TypeFuncIndex, WasmValType};
use std::alloc::Global;

/// The one addition.
#[derive(Clone, Copy)]
pub(crate) enum Addition {
    /// None.
    Nothing,
    /// A function of the host is lowered in this instance.
    Lowering(u32),
    /// A builtin is declared in this instance.
    Builtin(u32),
    /// An async function of instance 2 is lowered in this one.
    AsyncLowering(u32),
    /// A core instance of this one is given a function of a context.
    Argument(u32),
    /// A core instance of instance 1 is given an intrinsic that is of no context.
    OtherArgument,
    /// This instance lifts a function of a context, for an adapter.
    Callee(u32),
    /// This instance lifts with such a callback, for an adapter.
    LiftOption(u32),
    /// This instance lowers with such a callback.
    LowerOption(u32),
    /// A resource of this instance has such a destructor.
    Destructor(u32),
    /// This instance lifts such a function, for an export.
    Exported(u32),
    /// This instance lifts with such a callback, for an export.
    ExportedOption(u32),
    /// Options of instance 1 have such a callback, and nothing uses them.
    UnusedOption,
}

/// A lowering of a host function.
fn lower(graph: &mut ComponentDfg, owner: u32) -> Result<(), PushError> {
    let options = graph.push_options(options(owner, None))?;
    let index = RuntimeImportIndex(0);
    let lower_ty = TypeFuncIndex(PLAIN);
    let lowering = Trampoline::LowerImport {
        index,
        lower_ty,
        options,
    };
    graph.push_trampoline(SIGNATURE, lowering)?;
    Ok(())
}

/// A builtin.
fn declare(graph: &mut ComponentDfg, owner: u32) -> Result<(), PushError> {
    let instance = RuntimeComponentInstanceIndex(owner);
    graph.push_trampoline(SIGNATURE, Trampoline::BackpressureInc { instance })?;
    Ok(())
}

/// An adapter that is lifted with one type and lowered with another.
fn fuse(
    graph: &mut ComponentDfg,
    lift_ty: u32,
    lift: (u32, Option<CoreDef>),
    lower: (u32, Option<CoreDef>),
    func: CoreDef,
) -> Result<(), PushError> {
    let lifted = side(lift.0, lift.1, false);
    let lowered = side(lower.0, lower.1, false);
    graph.push_adapter(fused((lift_ty, PLAIN), lifted, lowered, func))?;
    Ok(())
}

/// A core instance that is given a function.
fn give(
    alloc: Global,
    graph: &mut ComponentDfg,
    owner: u32,
    given: CoreDef,
) -> Result<(), PushError> {
    let mut args = Seq::new(alloc);
    args.push(given)?;
    let instance = Instance::Static(StaticModuleIndex(0), args);
    graph.push_instance(instance, RuntimeComponentInstanceIndex(owner))?;
    Ok(())
}

/// A resource whose destructor is of a context.
fn declare_resource(graph: &mut ComponentDfg, owner: u32) -> Result<(), PushError> {
    graph.push_resource(Resource {
        rep: WasmValType::I32,
        dtor: Some(reads_slot()),
        instance: RuntimeComponentInstanceIndex(owner),
    })?;
    Ok(())
}

/// Options with a callback of a context.
fn with_callback(graph: &mut ComponentDfg, owner: u32) -> Result<OptionsId, PushError> {
    let callback: CallbackId = graph.push_callback(reads_slot())?;
    graph.push_options(options(owner, Some(callback)))
}

/// An export of a function.
fn export(graph: &mut ComponentDfg, func: CoreDef, options: OptionsId) -> Result<(), PushError> {
    let ty = TypeFuncIndex(PLAIN);
    graph.push_export_item(Export::LiftedFunction { ty, func, options })?;
    Ok(())
}

/// An export of a function of a context.
fn export_slot(graph: &mut ComponentDfg, owner: u32) -> Result<(), PushError> {
    let options = graph.push_options(options(owner, None))?;
    export(graph, reads_slot(), options)
}

/// An export of a function that is lifted with a callback of a context.
fn export_option(graph: &mut ComponentDfg, owner: u32) -> Result<(), PushError> {
    let options = with_callback(graph, owner)?;
    export(graph, function(0), options)
}

/// Options that nothing uses.
fn leave_option(graph: &mut ComponentDfg) -> Result<(), PushError> {
    with_callback(graph, 1)?;
    Ok(())
}

/// Adds it.
pub(crate) fn add(
    alloc: Global,
    graph: &mut ComponentDfg,
    addition: Addition,
) -> Result<(), PushError> {
    match addition {
        Addition::Nothing => Ok(()),
        Addition::Lowering(owner) => lower(graph, owner),
        Addition::Builtin(owner) => declare(graph, owner),
        Addition::AsyncLowering(owner) => fuse(graph, ASYNC, (2, None), (owner, None), function(1)),
        Addition::Argument(owner) => give(alloc, graph, owner, reads_slot()),
        Addition::OtherArgument => give(alloc, graph, 1, stores()),
        Addition::Callee(owner) => fuse(graph, PLAIN, (owner, None), (0, None), reads_slot()),
        Addition::LiftOption(owner) => {
            fuse(
                graph,
                PLAIN,
                (owner, Some(reads_slot())),
                (0, None),
                function(1),
            )
        }
        Addition::LowerOption(owner) => {
            fuse(
                graph,
                PLAIN,
                (0, None),
                (owner, Some(reads_slot())),
                function(1),
            )
        }
        Addition::Destructor(owner) => declare_resource(graph, owner),
        Addition::Exported(owner) => export_slot(graph, owner),
        Addition::ExportedOption(owner) => export_option(graph, owner),
        Addition::UnusedOption => leave_option(graph),
    }
}
