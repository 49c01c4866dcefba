//! The trampolines and the intrinsics of the plan that is printed.

use pc_entity::{
    ComponentTypeIndex, LoweredIndex, ModuleInternedTypeIndex, OptionsIndex, PackedOption,
    RuntimeComponentInstanceIndex, RuntimeMemoryIndex, RuntimePostReturnIndex, RuntimeTableIndex,
};
use pc_info::{FixedEncoding, Trampoline, Transcode, Trap};
use pc_types::{TypeFuncIndex, TypeResourceTableIndex, TypeStreamTableIndex};

/// Trampolines of each shape.
pub(crate) static TRAMPOLINES: [Trampoline; 7] = [
    Trampoline::LowerImport {
        index: LoweredIndex(3),
        lower_ty: TypeFuncIndex(0),
        options: OptionsIndex(4),
    },
    Trampoline::ResourceDrop {
        instance: RuntimeComponentInstanceIndex(6),
        ty: TypeResourceTableIndex(5),
    },
    Trampoline::StreamCancelRead {
        instance: RuntimeComponentInstanceIndex(7),
        ty: TypeStreamTableIndex(0),
        async_: true,
    },
    Trampoline::ThreadNewIndirect {
        instance: RuntimeComponentInstanceIndex(8),
        start_func_ty_idx: ComponentTypeIndex(9),
        start_func_table_idx: RuntimeTableIndex(10),
    },
    Trampoline::Transcoder {
        op: Transcode::Copy(FixedEncoding::Utf16),
        from: RuntimeMemoryIndex(11),
        from64: false,
        to: RuntimeMemoryIndex(12),
        to64: true,
    },
    Trampoline::StartCall {
        callback: None,
        post_return: Some(RuntimePostReturnIndex(13)),
    },
    Trampoline::Trap(Trap(1)),
];

/// The signature of an intrinsic that isn't used.
const N: PackedOption<ModuleInternedTypeIndex> = PackedOption::None;

/// The signature of an intrinsic that is used.
const U: PackedOption<ModuleInternedTypeIndex> = PackedOption::Some(ModuleInternedTypeIndex(0));

/// The signatures of two intrinsics, the second of which is the last of all.
pub(crate) static INTRINSICS: [PackedOption<ModuleInternedTypeIndex>; 21] = [
    N, U, N, N, N, N, N, N, N, N, N, N, N, N, N, N, N, N, N, N, U,
];
