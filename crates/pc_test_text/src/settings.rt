//! Options and extern data of the plans that are printed.

use crate::parts::text;
use pc_entity::{
    RuntimeCallbackIndex, RuntimeComponentInstanceIndex, RuntimeMemoryIndex,
    RuntimePostReturnIndex, RuntimeReallocIndex, Text,
};
use pc_info::{CanonicalOptions, CanonicalOptionsDataModel, LinearMemoryOptions};
use pc_types::{ComponentExternData, ModuleInternedTypeIndex, StringEncoding};
use std::alloc::Global;

/// Options of linear memory, without slots.
const PLAIN: CanonicalOptions = CanonicalOptions {
    instance: RuntimeComponentInstanceIndex(0),
    string_encoding: StringEncoding::Utf8,
    callback: None,
    post_return: None,
    async_: false,
    core_type: ModuleInternedTypeIndex(0),
    data_model: CanonicalOptionsDataModel::LinearMemory(LinearMemoryOptions {
        memory: None,
        realloc: None,
    }),
};

/// Options without slots.
pub(crate) static SINGLE: [CanonicalOptions; 1] = [PLAIN];

/// Options with each slot, and options of the managed heap.
pub(crate) static BOTH: [CanonicalOptions; 2] = [
    CanonicalOptions {
        instance: RuntimeComponentInstanceIndex(9),
        string_encoding: StringEncoding::Utf16,
        callback: Some(RuntimeCallbackIndex(5)),
        post_return: Some(RuntimePostReturnIndex(6)),
        async_: true,
        data_model: CanonicalOptionsDataModel::LinearMemory(LinearMemoryOptions {
            memory: Some(RuntimeMemoryIndex(7)),
            realloc: Some(RuntimeReallocIndex(8)),
        }),
        ..PLAIN
    },
    CanonicalOptions {
        string_encoding: StringEncoding::CompactUtf16,
        data_model: CanonicalOptionsDataModel::Gc {},
        ..PLAIN
    },
];

/// A text, or none where it is empty.
fn some_text(alloc: Global, name: &str) -> Option<Text> {
    if name.is_empty() {
        None
    } else {
        text(alloc, name)
    }
}

/// An interface and an id, which are none where they are empty.
pub(crate) fn extern_data(alloc: Global, [implements, id]: [&str; 2]) -> ComponentExternData {
    ComponentExternData {
        implements: some_text(alloc, implements),
        external_id: some_text(alloc, id),
    }
}
