//! An array of a context, and the numbers that its entries have.

ghost use Rattle.std.specs.Prelude.{◌≡◌, ◌<◌, ◌≤◌, ◌+◌, ◌*◌, ℕ};
ghost use Rattle.pc_types.specs.IntrinsicType.{intrinsic_place};

use pc_entity::{
    EntityRef, LoweredIndex, ResourceIndex, RuntimeCallbackIndex, RuntimeComponentInstanceIndex,
    RuntimeMemoryIndex, RuntimePostReturnIndex, RuntimeReallocIndex, RuntimeTableIndex,
    TrampolineIndex,
};
use pc_types::UnsafeIntrinsic;
use std::marker::PhantomData;

/// The number of an entry of an array.
pub trait VmctxIndex: Copy {
    // The number.
    ghost place: { Self → ℕ };

    /// The number as it is.
    fn position(self) -> u32
        ensures { result ≡ place self };
}

impl VmctxIndex for RuntimeComponentInstanceIndex {
    ghost place = { λ k. k.0 };

    fn position(self) -> u32 {
        self.as_u32()
    }
}

impl VmctxIndex for TrampolineIndex {
    ghost place = { λ k. k.0 };

    fn position(self) -> u32 {
        self.as_u32()
    }
}

impl VmctxIndex for UnsafeIntrinsic {
    ghost place = { intrinsic_place };

    fn position(self) -> u32 {
        self.index()
    }
}

impl VmctxIndex for LoweredIndex {
    ghost place = { λ k. k.0 };

    fn position(self) -> u32 {
        self.as_u32()
    }
}

impl VmctxIndex for RuntimeMemoryIndex {
    ghost place = { λ k. k.0 };

    fn position(self) -> u32 {
        self.as_u32()
    }
}

impl VmctxIndex for RuntimeTableIndex {
    ghost place = { λ k. k.0 };

    fn position(self) -> u32 {
        self.as_u32()
    }
}

impl VmctxIndex for RuntimeReallocIndex {
    ghost place = { λ k. k.0 };

    fn position(self) -> u32 {
        self.as_u32()
    }
}

impl VmctxIndex for RuntimeCallbackIndex {
    ghost place = { λ k. k.0 };

    fn position(self) -> u32 {
        self.as_u32()
    }
}

impl VmctxIndex for RuntimePostReturnIndex {
    ghost place = { λ k. k.0 };

    fn position(self) -> u32 {
        self.as_u32()
    }
}

impl VmctxIndex for ResourceIndex {
    ghost place = { λ k. k.0 };

    fn position(self) -> u32 {
        self.as_u32()
    }
}

/// An array of a context: where it begins, how many entries it has, and how many bytes each of them takes.
#[derive(Drop)]
pub struct VmctxArray<I> {
    start: u32,
    count: u32,
    size: u8,
    index: PhantomData<I>,
    pub ghost fits: { start + count * size ≤ 4294967295 },
}

impl<I: VmctxIndex> VmctxArray<I> {
    /// The array of so many entries of so many bytes each that begins at a place.
    pub(crate) fn new(start: u32, count: u32, size: u8) -> Self
        requires { start + count * size ≤ 4294967295 }
        ensures start { result.start ≡ start }
        ensures count { result.count ≡ count }
        ensures size { result.size ≡ size }
    {
        VmctxArray {
            start,
            count,
            size,
            index: PhantomData,
        }
    }

    /// Where an entry begins, in bytes from the front of the context.
    pub fn at(&self, index: I) -> u32
        requires { I.place index < self.now.count }
        ensures { result ≡ self.now.start + I.place index * self.now.size }
    {
        self.start + index.position() * u32::from(self.size)
    }

    /// How many entries the array has.
    pub fn count(&self) -> u32
        ensures { result ≡ self.now.count }
    {
        self.count
    }
}
