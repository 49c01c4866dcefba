//! The adapters that are tested: functions of one core instance, lifted in component instance 1 and lowered in 2.

ghost use Rattle.std.specs.Prelude.{◌<◌, length};
ghost use Rattle.pc_dfg.specs.declared.dfg.ComponentDfg.{ComponentDfg};
ghost use Rattle.pc_dfg.specs.Held.{HeldAdapter};

use pc_dfg::{Adapter, AdapterOptions, CoreDef, CoreExport, DataModel, ExportItem, InstanceId};
use pc_entity::{
    EntityIndex, FuncIndex, MemoryIndex, ModuleInternedTypeIndex, RuntimeComponentInstanceIndex,
};
use pc_types::{StringEncoding, TypeFuncIndex};

/// What an adapter is.
#[derive(Clone, Copy)]
pub enum Kind {
    /// A function of this number, of type 1, with no options.
    Plain(u32),

    /// Function 0, of type 0, from utf8 in memory 1 to compact utf16 in memory 0, with function 1 as realloc.
    Strings,

    /// The same without a realloc.
    Lacking,

    /// Function 0, of type 1, which is lifted async, with function 1 as callback.
    Async,
}

/// A function of a core instance.
macro_rules! func {
    ($instance:expr, $number:expr) => {
        CoreDef::Export(CoreExport {
            instance: $instance,
            item: ExportItem::Index(EntityIndex::Function(FuncIndex($number))),
        })
    };
}

pub(crate) use func;

/// Linear memory with a memory of a core instance, of 32 bits.
macro_rules! linear {
    ($instance:expr, $memory:expr, $realloc:expr) => {
        DataModel::LinearMemory {
            memory: Some((
                CoreExport {
                    instance: $instance,
                    item: ExportItem::Index(MemoryIndex($memory)),
                },
                false,
            )),
            realloc: $realloc,
        }
    };
}

/// One side of an adapter, in a component instance.
macro_rules! side {
    ($owner:expr, $encoding:expr, $callback:expr, $is_async:expr, $signature:expr, $model:expr) => {
        AdapterOptions {
            instance: RuntimeComponentInstanceIndex($owner),
            string_encoding: $encoding,
            callback: $callback,
            post_return: None,
            async_: $is_async,
            core_type: ModuleInternedTypeIndex($signature),
            data_model: $model,
        }
    };
}

/// A side in linear memory with no options.
macro_rules! plain {
    ($owner:expr, $signature:expr) => {
        side!(
            $owner,
            StringEncoding::Utf8,
            None,
            false,
            $signature,
            DataModel::LinearMemory {
                memory: None,
                realloc: None,
            }
        )
    };
}

/// A function with no options.
fn plain_one(instance: InstanceId, number: u32) -> Adapter
    ensures { (g : ComponentDfg) → instance.0 < length g.instances → 2 < g.num_runtime_component_instances
        → HeldAdapter g result }
{
    Adapter {
        lift_ty: TypeFuncIndex(1),
        lift_options: plain!(1, 5),
        lower_ty: TypeFuncIndex(1),
        lower_options: plain!(2, 6),
        func: func!(instance, number),
    }
}

/// A function that takes a string, with this realloc.
fn string_one(instance: InstanceId) -> Adapter
    ensures { (g : ComponentDfg) → instance.0 < length g.instances → 2 < g.num_runtime_component_instances
        → HeldAdapter g result }
{
    let model = linear!(instance, 0, Some(func!(instance, 1)));
    Adapter {
        lift_ty: TypeFuncIndex(0),
        lift_options: side!(1, StringEncoding::CompactUtf16, None, false, 5, model),
        lower_ty: TypeFuncIndex(0),
        lower_options: side!(
            2,
            StringEncoding::Utf8,
            None,
            false,
            6,
            linear!(instance, 1, None)
        ),
        func: func!(instance, 0),
    }
}

/// A function that takes a string, without a realloc.
fn lacking_one(instance: InstanceId) -> Adapter
    ensures { (g : ComponentDfg) → instance.0 < length g.instances → 2 < g.num_runtime_component_instances
        → HeldAdapter g result }
{
    let model = linear!(instance, 0, None);
    Adapter {
        lift_ty: TypeFuncIndex(0),
        lift_options: side!(1, StringEncoding::CompactUtf16, None, false, 5, model),
        lower_ty: TypeFuncIndex(0),
        lower_options: side!(
            2,
            StringEncoding::Utf8,
            None,
            false,
            6,
            linear!(instance, 1, None)
        ),
        func: func!(instance, 0),
    }
}

/// A function that is lifted async.
fn async_one(instance: InstanceId) -> Adapter
    ensures { (g : ComponentDfg) → instance.0 < length g.instances → 2 < g.num_runtime_component_instances
        → HeldAdapter g result }
{
    let callback = Some(func!(instance, 1));
    let model = linear!(instance, 0, None);
    Adapter {
        lift_ty: TypeFuncIndex(1),
        lift_options: side!(1, StringEncoding::Utf8, callback, true, 5, model),
        lower_ty: TypeFuncIndex(1),
        lower_options: plain!(2, 6),
        func: func!(instance, 0),
    }
}

/// An adapter of functions of a core instance.
pub(crate) fn adapter_of(instance: InstanceId, kind: Kind) -> Adapter
    ensures { (g : ComponentDfg) → instance.0 < length g.instances → 2 < g.num_runtime_component_instances
        → HeldAdapter g result }
{
    match kind {
        Kind::Plain(number) => plain_one(instance, number),
        Kind::Strings => string_one(instance),
        Kind::Lacking => lacking_one(instance),
        Kind::Async => async_one(instance),
    }
}
