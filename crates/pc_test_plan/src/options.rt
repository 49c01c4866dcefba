//! Options that are equal, and options that differ in one field.

use crate::support::holds;
use pc_entity::{
    ExactEq, RuntimeCallbackIndex, RuntimeComponentInstanceIndex, RuntimeMemoryIndex,
    RuntimePostReturnIndex, RuntimeReallocIndex,
};
use pc_info::{CanonicalOptions, CanonicalOptionsDataModel, LinearMemoryOptions};
use pc_types::{ModuleInternedTypeIndex, StringEncoding};

const BOTH_SLOTS: LinearMemoryOptions = LinearMemoryOptions {
    memory: Some(RuntimeMemoryIndex(5)),
    realloc: Some(RuntimeReallocIndex(6)),
};

static SLOTS: LinearMemoryOptions = BOTH_SLOTS;

/// The slots without a realloc.
static WITHOUT: LinearMemoryOptions = LinearMemoryOptions {
    realloc: None,
    ..BOTH_SLOTS
};

/// Options of which each field has a value of its own.
const EACH_ITS_OWN: CanonicalOptions = CanonicalOptions {
    instance: RuntimeComponentInstanceIndex(1),
    string_encoding: StringEncoding::Utf16,
    callback: Some(RuntimeCallbackIndex(2)),
    post_return: Some(RuntimePostReturnIndex(3)),
    async_: true,
    core_type: ModuleInternedTypeIndex(4),
    data_model: CanonicalOptionsDataModel::LinearMemory(BOTH_SLOTS),
};

static OPTIONS: CanonicalOptions = EACH_ITS_OWN;

/// Options in the managed heap.
const IN_HEAP: CanonicalOptions = CanonicalOptions {
    data_model: CanonicalOptionsDataModel::Gc {},
    ..EACH_ITS_OWN
};

static HEAP: CanonicalOptions = IN_HEAP;

/// Options that differ from those in one field each.
static OTHERS: [CanonicalOptions; 7] = [
    CanonicalOptions {
        instance: RuntimeComponentInstanceIndex(0),
        ..EACH_ITS_OWN
    },
    CanonicalOptions {
        string_encoding: StringEncoding::CompactUtf16,
        ..EACH_ITS_OWN
    },
    CanonicalOptions {
        callback: None,
        ..EACH_ITS_OWN
    },
    CanonicalOptions {
        post_return: Some(RuntimePostReturnIndex(2)),
        ..EACH_ITS_OWN
    },
    CanonicalOptions {
        async_: false,
        ..EACH_ITS_OWN
    },
    CanonicalOptions {
        core_type: ModuleInternedTypeIndex(5),
        ..EACH_ITS_OWN
    },
    IN_HEAP,
];

/// A memory without a realloc.
static MEMORY: CanonicalOptions = CanonicalOptions {
    data_model: CanonicalOptionsDataModel::LinearMemory(LinearMemoryOptions {
        memory: Some(RuntimeMemoryIndex(3)),
        realloc: None,
    }),
    ..EACH_ITS_OWN
};

#[test]
fn options_are_equal_where_each_field_is(rt: HostRuntime) {
    holds(&rt, "itself", OPTIONS == OPTIONS);
    for other in OTHERS.iter() {
        holds(&rt, "one field differs", OPTIONS != *other);
    }
}

/// Whether data models are the same exactly where both slots are.
fn models_are_the_same_by_slots() -> bool {
    let model = &OPTIONS.data_model;
    model.is_same(model) & !model.is_same(&HEAP.data_model)
}

#[test]
fn models_are_the_same_by_memory_and_realloc(rt: HostRuntime) {
    holds(&rt, "the same slots", SLOTS.is_same(&SLOTS));
    holds(&rt, "no realloc", !SLOTS.is_same(&WITHOUT));
    holds(&rt, "models", models_are_the_same_by_slots());
    let memory = MEMORY.memory() == Some(RuntimeMemoryIndex(3));
    holds(
        &rt,
        "a memory, and none in the managed heap",
        memory & HEAP.memory().is_none(),
    );
}
