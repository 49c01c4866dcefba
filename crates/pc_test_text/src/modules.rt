//! The modules of the plans that are printed.

use crate::parts::{there, values};
use pc_entity::{FuncIndex, ModuleInternedTypeIndex, RuntimeComponentInstanceIndex, Seq};
use pc_info::{AdapterRecord, ModuleTranslation, SideRecord};
use pc_types::{ModuleRecord, SharedRecord, StringEncoding, TypeFuncIndex};
use std::alloc::Global;

/// Values lie in linear memory.
const LIFT: SideRecord = SideRecord {
    instance: RuntimeComponentInstanceIndex(1),
    string_encoding: StringEncoding::Utf8,
    async_: false,
    core_type: ModuleInternedTypeIndex(0),
    callback: None,
    post_return: None,
    gc: false,
    memory: Some(2),
    realloc: Some(3),
};

/// Values lie in the managed heap.
const LOWER: SideRecord = SideRecord {
    instance: RuntimeComponentInstanceIndex(4),
    string_encoding: StringEncoding::Utf16,
    async_: true,
    core_type: ModuleInternedTypeIndex(0),
    callback: Some(5),
    post_return: Some(6),
    gc: true,
    memory: None,
    realloc: None,
};

const ADAPTER: AdapterRecord = AdapterRecord {
    adapter: 0,
    func: FuncIndex(14),
    callee: 15,
    lift_ty: TypeFuncIndex(0),
    lower_ty: TypeFuncIndex(0),
    lift: LIFT,
    lower: LOWER,
};

/// The adapters of the second module, whose numbers don't follow the order of the modules.
static TWO: [AdapterRecord; 2] = [
    AdapterRecord {
        adapter: 2,
        func: FuncIndex(10),
        callee: 11,
        ..ADAPTER
    },
    AdapterRecord {
        adapter: 1,
        func: FuncIndex(12),
        callee: 13,
        ..ADAPTER
    },
];

/// The adapter of the third module.
static ONE: [AdapterRecord; 1] = [ADAPTER];

/// A module with these adapters.
fn module(alloc: Global, adapters: &[AdapterRecord]) -> Option<ModuleTranslation> {
    let record_ = ModuleRecord {
        imports: Seq::new(alloc),
        funcs: Seq::new(alloc),
        tables: 0,
        memories: Seq::new(alloc),
        globals: 0,
        tags: 0,
        exports: Seq::new(alloc),
    };
    let module = SharedRecord::new(alloc, record_).ok()?;
    let adapters = Seq::from_vec(values(alloc, adapters));
    Some(ModuleTranslation::new(alloc, module, adapters))
}

/// A module that was handed in.
pub(crate) fn one_module(alloc: Global) -> Vec<ModuleTranslation> {
    there(alloc, [module(alloc, &[])])
}

/// A module that was handed in, and two of adapters.
pub(crate) fn all_modules(alloc: Global) -> Vec<ModuleTranslation> {
    let all = [module(alloc, &[]), module(alloc, &TWO), module(alloc, &ONE)];
    there(alloc, all)
}
