//! Fused adapters: lifted functions that are lowered again.

use crate::{CoreDef, CoreExport};
use pc_entity::{ExactEq, MemoryIndex, ModuleInternedTypeIndex, RuntimeComponentInstanceIndex};
use pc_types::{StringEncoding, TypeFuncIndex};

/// A lifted function that is lowered again. Adapters are equal where both sides and the function are.
#[derive(Drop, PartialEq, Eq, Hash)]
pub struct Adapter {
    /// The type that the function was lifted with.
    pub lift_ty: TypeFuncIndex,
    /// The options that it was lifted with.
    pub lift_options: AdapterOptions,
    /// The type that it is lowered with.
    pub lower_ty: TypeFuncIndex,
    /// The options that it is lowered with.
    pub lower_options: AdapterOptions,
    /// The core function that was lifted.
    pub func: CoreDef,
}

/// The options of one side of an adapter. They hold definitions where `CanonicalOptions` has slots, since an adapter
/// module gets these as imports.
#[derive(Drop, PartialEq, Eq, Hash)]
pub struct AdapterOptions {
    /// The component instance that the function was lifted or lowered in.
    pub instance: RuntimeComponentInstanceIndex,
    /// How its strings are encoded.
    pub string_encoding: StringEncoding,
    /// The function that goes on with an asynchronous call.
    pub callback: Option<CoreDef>,
    /// The function that is called when the results are read.
    pub post_return: Option<CoreDef>,
    /// Whether a call may return before its results are there.
    pub async_: bool,
    /// The core signature, a number of the types builder.
    pub core_type: ModuleInternedTypeIndex,
    /// Where its values lie.
    pub data_model: DataModel,
}

/// Where the values of one side of an adapter lie.
#[derive(Drop, PartialEq, Eq, Hash)]
pub enum DataModel {
    /// In the managed heap.
    Gc {},
    /// In linear memory: the memory, with whether its addresses have 64 bits, and the function that makes room in it.
    LinearMemory {
        memory: Option<(CoreExport<MemoryIndex>, bool)>,
        realloc: Option<CoreDef>,
    },
}

impl ExactEq for DataModel {
    ghost use Rattle.pc_dfg.specs.Exact.{model_exact};

    ghost exact = { model_exact };
}

impl ExactEq for AdapterOptions {
    ghost use Rattle.pc_dfg.specs.ExactOptions.{side_exact};

    ghost exact = { side_exact };
}

impl ExactEq for Adapter {
    ghost use Rattle.pc_dfg.specs.ExactOptions.{adapter_exact};

    ghost exact = { adapter_exact };
}
