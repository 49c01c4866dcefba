//! Where the arrays of a context begin, and how many bytes a context takes. The numbers are summed up by hand.

use crate::laid_out::{CALLED, Counts, FULL, offsets_of, size_of, with_instances, with_intrinsics};
use crate::support::holds;
use pc_entity::{
    LoweredIndex, ResourceIndex, RuntimeCallbackIndex, RuntimeComponentInstanceIndex,
    RuntimeMemoryIndex, RuntimePostReturnIndex, RuntimeReallocIndex, RuntimeTableIndex,
    TrampolineIndex,
};
use pc_offsets::{PtrSize, PtrWidth, VMCOMPONENT_MAGIC, VmctxArray, VmctxIndex};
use pc_types::UnsafeIntrinsic;
use std::alloc::Global;

/// Where an entry begins: none, which is 0, if there is no entry of that number.
fn entry<I: VmctxIndex>(array: VmctxArray<I>, index: I) -> u32 {
    if index.position() < array.count() {
        array.at(index)
    } else {
        0
    }
}

const FOUR: PtrWidth = PtrWidth::Four;

const EIGHT: PtrWidth = PtrWidth::Eight;

/// Where the flags of a component instance begin, in a plan with so many of them.
fn flags(alloc: Global, width: PtrWidth, instances: u32, instance: u32) -> u32 {
    match offsets_of(alloc, width, &with_instances(instances)) {
        Some(offsets) => entry(offsets.may_leave(), RuntimeComponentInstanceIndex(instance)),
        None => 1,
    }
}

/// Where the flags of each component instance begin, with pointers of four bytes and of eight. There are at most seven.
static FLAGS: [(u32, u32, u32); 8] = [
    (0, 16, 32),
    (1, 32, 48),
    (2, 48, 64),
    (3, 64, 80),
    (4, 80, 96),
    (5, 96, 112),
    (6, 112, 128),
    (7, 0, 0),
];

/// Whether the flags of a component instance begin there in a plan with so many of them, if it is one of them.
fn has_flags(alloc: Global, width: PtrWidth, instances: u32, instance: u32, place: u32) -> bool {
    let begin = flags(alloc, width, instances, instance);
    begin == if instance < instances { place } else { 0 }
}

/// Whether the flags of a component instance begin where they should, in plans with up to seven of them.
fn have_flags(alloc: Global, width: PtrWidth, instance: u32, place: u32) -> bool {
    for instances in 0..8 {
        if !has_flags(alloc, width, instances, instance, place) {
            return false;
        }
    }
    true
}

#[test]
fn flags_begin_behind_two_pointers(rt: HostRuntime) {
    for (instance, four, eight) in FLAGS.iter() {
        let begin = have_flags(rt.alloc(), FOUR, *instance, *four);
        holds(&rt, "flags, pointers of four bytes", begin);
        let begin = have_flags(rt.alloc(), EIGHT, *instance, *eight);
        holds(&rt, "flags, pointers of eight bytes", begin);
    }
}

/// So many component instances, and the size of the context with pointers of four bytes and of eight: none where it
/// doesn't fit.
static SIZES: [(u32, u32, u32); 6] = [
    (0, 16, 32),
    (1, 32, 48),
    (268435453, 4294967264, 4294967280),
    (268435454, 4294967280, 0),
    (268435455, 0, 0),
    (4294967295, 0, 0),
];

#[test]
fn a_context_fits_or_has_no_offsets(rt: HostRuntime) {
    for (instances, four, eight) in SIZES.iter() {
        let counts = with_instances(*instances);
        let size = size_of(rt.alloc(), FOUR, &counts);
        holds(&rt, "a size, pointers of four bytes", size == *four);
        let size = size_of(rt.alloc(), EIGHT, &counts);
        holds(&rt, "a size, pointers of eight bytes", size == *eight);
    }
}

/// Entries of the arrays up to the memories, where there are any.
fn front(alloc: Global, width: PtrWidth, counts: &Counts) -> [u32; 5] {
    match offsets_of(alloc, width, counts) {
        Some(offsets) => [
            entry(offsets.may_leave(), RuntimeComponentInstanceIndex(0)),
            entry(offsets.trampoline_func_refs(), TrampolineIndex(1)),
            entry(
                offsets.intrinsic_func_refs(),
                UnsafeIntrinsic::U16NativeLoad,
            ),
            entry(offsets.lowerings(), LoweredIndex(1)),
            entry(offsets.memories(), RuntimeMemoryIndex(0)),
        ],
        None => [0; 5],
    }
}

/// Entries of the arrays from the tables on, where there are any.
fn back(alloc: Global, width: PtrWidth, counts: &Counts) -> [u32; 5] {
    match offsets_of(alloc, width, counts) {
        Some(offsets) => [
            entry(offsets.tables(), RuntimeTableIndex(0)),
            entry(offsets.reallocs(), RuntimeReallocIndex(0)),
            entry(offsets.callbacks(), RuntimeCallbackIndex(0)),
            entry(offsets.post_returns(), RuntimePostReturnIndex(0)),
            entry(offsets.resource_destructors(), ResourceIndex(1)),
        ],
        None => [0; 5],
    }
}

/// Where entries of the arrays begin, those up to the memories and the others.
static ENTRIES: [(Counts, PtrWidth, [u32; 5], [u32; 5]); 4] = [
    (FULL, FOUR, [16, 0, 0, 40, 48], [52, 60, 64, 68, 76]),
    (FULL, EIGHT, [32, 0, 0, 64, 80], [88, 104, 112, 120, 136]),
    (
        CALLED,
        FOUR,
        [16, 48, 112, 136, 144],
        [148, 156, 160, 164, 172],
    ),
    (
        CALLED,
        EIGHT,
        [32, 80, 208, 256, 272],
        [280, 296, 304, 312, 328],
    ),
];

#[test]
fn arrays_follow_each_other(rt: HostRuntime) {
    for (counts, width, first, last) in ENTRIES.iter() {
        let places = front(rt.alloc(), *width, counts);
        holds(&rt, "the first arrays", places == *first);
        let places = back(rt.alloc(), *width, counts);
        holds(&rt, "the last arrays", places == *last);
    }
    holds(&rt, "the end", size_of(rt.alloc(), FOUR, &CALLED) == 176);
    holds(&rt, "the end", size_of(rt.alloc(), EIGHT, &CALLED) == 336);
}

/// The numbers of two intrinsics that are used, of which there is none of number 21, and how many have room.
static ROOM: [(usize, usize, u32); 4] = [(21, 21, 0), (0, 21, 1), (0, 20, 21), (0, 3, 4)];

/// How many intrinsics have room in a context, where two are used.
fn intrinsics(alloc: Global, first: usize, second: usize) -> u32 {
    match offsets_of(alloc, FOUR, &with_intrinsics(first, second)) {
        Some(offsets) => offsets.intrinsic_func_refs().count(),
        None => 22,
    }
}

#[test]
fn intrinsics_have_room_up_to_the_last_that_is_used(rt: HostRuntime) {
    for (first, second, room) in ROOM.iter() {
        let count = intrinsics(rt.alloc(), *first, *second);
        holds(&rt, "room for intrinsics", count == *room);
    }
}

/// Where the second lowered function has its callee and its data.
fn second_lowering(alloc: Global, width: PtrWidth) -> (u32, u32) {
    match offsets_of(alloc, width, &FULL) {
        Some(offsets) if offsets.num_lowerings > 1 => (
            offsets.lowering_callee(LoweredIndex(1)),
            offsets.lowering_data(LoweredIndex(1)),
        ),
        _ => (0, 0),
    }
}

/// The bytes of a pointer, of a lowered function, and where in it the callee and the data are.
fn sizes(alloc: Global, width: PtrWidth) -> (u8, u8, u8, u32, u32) {
    match offsets_of(alloc, width, &FULL) {
        Some(offsets) => (
            offsets.pointer_size(),
            offsets.get_ptr_size().size(),
            offsets.lowering_size(),
            offsets.lowering_callee_offset(),
            offsets.lowering_data_offset(),
        ),
        None => (0, 0, 0, 0, 0),
    }
}

#[test]
fn a_lowering_is_two_pointers(rt: HostRuntime) {
    let alloc = rt.alloc();
    holds(&rt, "the second", second_lowering(alloc, FOUR) == (40, 44));
    holds(&rt, "the second", second_lowering(alloc, EIGHT) == (64, 72));
    holds(&rt, "its parts", sizes(alloc, FOUR) == (4, 4, 8, 0, 4));
    holds(&rt, "its parts", sizes(alloc, EIGHT) == (8, 8, 16, 0, 8));
    let magic = VMCOMPONENT_MAGIC.to_le_bytes();
    holds(&rt, "the magic number spells a word", magic == *b"comp");
}
