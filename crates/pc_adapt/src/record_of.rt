//! At which place each import of an adapter stands.

ghost use Rattle.std.specs.Prelude.{◌≡◌, ◌<◌, ◌+◌};
ghost use Rattle.pc_adapt.specs.Places.{has_memory, has_realloc, place_if, record_of, side_count, side_record};
ghost use Rattle.pc_adapt.specs.Places.{count_if, is_gc};

use pc_dfg::{Adapter, AdapterId, AdapterOptions, DataModel};
use pc_entity::{EntityRef, FuncIndex};
use pc_info::{AdapterRecord, SideRecord};

/// The first free place, if what stands there is there.
fn place(free: u32, there: bool) -> Option<u32>
    ensures { result ≡ place_if free there }
{
    if there { Some(free) } else { None }
}

/// The next free place.
fn after(free: u32, there: bool) -> u32
    requires room { free + count_if there < 4294967296 }
    ensures { result ≡ free + count_if there }
{
    if there { free + 1 } else { free }
}

/// Whether a side has a memory.
fn with_memory(model: &DataModel) -> bool
    ensures { result ≡ has_memory model.now }
{
    match model {
        DataModel::Gc {} => false,
        DataModel::LinearMemory { memory, .. } => memory.is_some(),
    }
}

/// Whether a side has a realloc.
fn with_realloc(model: &DataModel) -> bool
    ensures { result ≡ has_realloc model.now }
{
    match model {
        DataModel::Gc {} => false,
        DataModel::LinearMemory { realloc, .. } => realloc.is_some(),
    }
}

/// Whether the values of a side lie in the managed heap.
fn in_heap(model: &DataModel) -> bool
    ensures { result ≡ is_gc model.now }
{
    match model {
        DataModel::Gc {} => true,
        DataModel::LinearMemory { .. } => false,
    }
}

/// What is said of a side whose places begin here.
fn record_of_side(first: u32, side: &AdapterOptions) -> SideRecord
    requires room { first + side_count side.now < 4294967296 }
    ensures { result ≡ side_record first side.now }
{
    let has_memory = with_memory(&side.data_model);
    let has_realloc = with_realloc(&side.data_model);
    let has_callback = side.callback.is_some();
    let realloc = after(first, has_memory);
    let callback = after(realloc, has_realloc);
    let post_return = after(callback, has_callback);
    SideRecord {
        instance: side.instance,
        string_encoding: side.string_encoding,
        async_: side.async_,
        core_type: side.core_type,
        callback: place(callback, has_callback),
        post_return: place(post_return, side.post_return.is_some()),
        gc: in_heap(&side.data_model),
        memory: place(first, has_memory),
        realloc: place(realloc, has_realloc),
    }
}

/// The first place behind those of a side.
fn behind_side(first: u32, side: &AdapterOptions) -> u32
    requires room { first + side_count side.now < 4294967296 }
    ensures { result ≡ first + side_count side.now }
{
    let realloc = after(first, with_memory(&side.data_model));
    let callback = after(realloc, with_realloc(&side.data_model));
    let post_return = after(callback, side.callback.is_some());
    after(post_return, side.post_return.is_some())
}

/// What is said of an adapter whose places begin here. Its function isn't known before its module is.
pub fn record_of_adapter(first: u32, id: AdapterId, adapter: &Adapter) -> AdapterRecord
    requires room { first + 3 + side_count adapter.now.lift_options + side_count adapter.now.lower_options
        < 4294967296 }
    ensures { result ≡ record_of first id.0 adapter.now }
{
    let lower = behind_side(first + 3, &adapter.lift_options);
    AdapterRecord {
        adapter: id.as_u32(),
        func: FuncIndex(0),
        callee: first,
        lift_ty: adapter.lift_ty,
        lower_ty: adapter.lower_ty,
        lift: record_of_side(first + 3, &adapter.lift_options),
        lower: record_of_side(lower, &adapter.lower_options),
    }
}
