//! What the graphs are made of.

use pc_dfg::{
    Adapter, AdapterOptions, CallbackId, CanonicalOptions, CanonicalOptionsDataModel, CoreDef,
    CoreExport, DataModel, ExportItem, InstanceId,
};
use pc_entity::{EntityIndex, FuncIndex, ModuleInternedTypeIndex, RuntimeComponentInstanceIndex};
use pc_types::{StringEncoding, TypeFuncIndex, UnsafeIntrinsic};

/// The types of the tests: a plain function, an async one, and one of an error context.
pub(crate) const PLAIN: u32 = 0;

pub(crate) const ASYNC: u32 = 1;

pub(crate) const HANDLE: u32 = 2;

/// The core signature of all functions.
pub(crate) const SIGNATURE: ModuleInternedTypeIndex = ModuleInternedTypeIndex(0);

/// A function that reads a slot of a context.
pub(crate) fn reads_slot() -> CoreDef {
    CoreDef::UnsafeIntrinsic(SIGNATURE, UnsafeIntrinsic::ContextGetI32_0)
}

/// An intrinsic that stands next to those of contexts, and isn't one.
pub(crate) fn stores() -> CoreDef {
    CoreDef::UnsafeIntrinsic(SIGNATURE, UnsafeIntrinsic::U64CheckedNativeStore)
}

/// A function of core instance 0.
pub(crate) fn function(number: u32) -> CoreDef {
    CoreDef::Export(CoreExport {
        instance: InstanceId(0),
        item: ExportItem::Index(EntityIndex::Function(FuncIndex(number))),
    })
}

/// One side of an adapter, in a component instance.
pub(crate) fn side(owner: u32, callback: Option<CoreDef>, async_: bool) -> AdapterOptions {
    AdapterOptions {
        instance: RuntimeComponentInstanceIndex(owner),
        string_encoding: StringEncoding::Utf8,
        callback,
        post_return: None,
        async_,
        core_type: SIGNATURE,
        data_model: DataModel::Gc {},
    }
}

/// An adapter that is lifted and lowered with these types.
pub(crate) fn fused(
    types: (u32, u32),
    lift_options: AdapterOptions,
    lower_options: AdapterOptions,
    func: CoreDef,
) -> Adapter {
    Adapter {
        lift_ty: TypeFuncIndex(types.0),
        lift_options,
        lower_ty: TypeFuncIndex(types.1),
        lower_options,
        func,
    }
}

/// Options of a component instance.
pub(crate) fn options(owner: u32, callback: Option<CallbackId>) -> CanonicalOptions {
    CanonicalOptions {
        instance: RuntimeComponentInstanceIndex(owner),
        string_encoding: StringEncoding::Utf8,
        callback,
        post_return: None,
        async_: false,
        core_type: SIGNATURE,
        data_model: CanonicalOptionsDataModel::Gc {},
    }
}
