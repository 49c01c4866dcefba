//! The unsafe intrinsics: functions of the runtime that read and write host memory and context slots.

ghost use Rattle.std.specs.Prelude.{◌≡◌, ◌<◌, Contains, IfErr, IfOk, Some, length, map, option_map, slice_get};
ghost use Rattle.pc_types.specs.Intrinsic.{intrinsic_names};
ghost use Rattle.pc_types.specs.IntrinsicType.{core_type, interface_type, intrinsic_place, intrinsic_type};

use crate::InterfaceType::{U8, U16, U32, U64};
use crate::WasmValType::{I32, I64};
use crate::{InterfaceType, WasmValType};

/// An unsafe intrinsic.
#[derive(Clone, Copy, Debug, PartialEq, Eq, PartialOrd, Ord, Hash)]
pub enum UnsafeIntrinsic {
    StoreDataAddress,
    U8NativeLoad,
    U8NativeStore,
    U16NativeLoad,
    U16NativeStore,
    U32NativeLoad,
    U32NativeStore,
    U64NativeLoad,
    U64NativeStore,
    U8CheckedNativeLoad,
    U8CheckedNativeStore,
    U16CheckedNativeLoad,
    U16CheckedNativeStore,
    U32CheckedNativeLoad,
    U32CheckedNativeStore,
    U64CheckedNativeLoad,
    U64CheckedNativeStore,
    ContextGetI32_0,
    ContextSetI32_0,
    ContextGetI32_1,
    ContextSetI32_1,
}

/// A text that is the name of no intrinsic.
#[derive(Clone, Copy, Debug, PartialEq, Eq)]
pub struct UnknownName;

impl UnsafeIntrinsic {
    /// How many intrinsics there are.
    pub fn len() -> u32
        ensures { result ≡ length intrinsic_names }
    {
        21
    }

    /// The intrinsic at a place.
    pub fn from_u32(i: u32) -> UnsafeIntrinsic
        requires held { i < length intrinsic_names }
        ensures { intrinsic_place result ≡ i }
    {
        match i {
            0 => UnsafeIntrinsic::StoreDataAddress,
            1 => UnsafeIntrinsic::U8NativeLoad,
            2 => UnsafeIntrinsic::U8NativeStore,
            3 => UnsafeIntrinsic::U16NativeLoad,
            4 => UnsafeIntrinsic::U16NativeStore,
            5 => UnsafeIntrinsic::U32NativeLoad,
            6 => UnsafeIntrinsic::U32NativeStore,
            7 => UnsafeIntrinsic::U64NativeLoad,
            8 => UnsafeIntrinsic::U64NativeStore,
            9 => UnsafeIntrinsic::U8CheckedNativeLoad,
            10 => UnsafeIntrinsic::U8CheckedNativeStore,
            11 => UnsafeIntrinsic::U16CheckedNativeLoad,
            12 => UnsafeIntrinsic::U16CheckedNativeStore,
            13 => UnsafeIntrinsic::U32CheckedNativeLoad,
            14 => UnsafeIntrinsic::U32CheckedNativeStore,
            15 => UnsafeIntrinsic::U64CheckedNativeLoad,
            16 => UnsafeIntrinsic::U64CheckedNativeStore,
            17 => UnsafeIntrinsic::ContextGetI32_0,
            18 => UnsafeIntrinsic::ContextSetI32_0,
            19 => UnsafeIntrinsic::ContextGetI32_1,
            _ => UnsafeIntrinsic::ContextSetI32_1,
        }
    }

    /// Its place.
    pub fn index(&self) -> u32
        ensures { result ≡ intrinsic_place self.now }
    {
        match self {
            UnsafeIntrinsic::StoreDataAddress => 0,
            UnsafeIntrinsic::U8NativeLoad => 1,
            UnsafeIntrinsic::U8NativeStore => 2,
            UnsafeIntrinsic::U16NativeLoad => 3,
            UnsafeIntrinsic::U16NativeStore => 4,
            UnsafeIntrinsic::U32NativeLoad => 5,
            UnsafeIntrinsic::U32NativeStore => 6,
            UnsafeIntrinsic::U64NativeLoad => 7,
            UnsafeIntrinsic::U64NativeStore => 8,
            UnsafeIntrinsic::U8CheckedNativeLoad => 9,
            UnsafeIntrinsic::U8CheckedNativeStore => 10,
            UnsafeIntrinsic::U16CheckedNativeLoad => 11,
            UnsafeIntrinsic::U16CheckedNativeStore => 12,
            UnsafeIntrinsic::U32CheckedNativeLoad => 13,
            UnsafeIntrinsic::U32CheckedNativeStore => 14,
            UnsafeIntrinsic::U64CheckedNativeLoad => 15,
            UnsafeIntrinsic::U64CheckedNativeStore => 16,
            UnsafeIntrinsic::ContextGetI32_0 => 17,
            UnsafeIntrinsic::ContextSetI32_0 => 18,
            UnsafeIntrinsic::ContextGetI32_1 => 19,
            UnsafeIntrinsic::ContextSetI32_1 => 20,
        }
    }

    /// Its name.
    pub fn name(&self) -> &'static str
        ensures { slice_get intrinsic_names (intrinsic_place self.now) ≡ Some result.now }
    {
        match self {
            UnsafeIntrinsic::StoreDataAddress => "store-data-address",
            UnsafeIntrinsic::U8NativeLoad => "u8-native-load",
            UnsafeIntrinsic::U8NativeStore => "u8-native-store",
            UnsafeIntrinsic::U16NativeLoad => "u16-native-load",
            UnsafeIntrinsic::U16NativeStore => "u16-native-store",
            UnsafeIntrinsic::U32NativeLoad => "u32-native-load",
            UnsafeIntrinsic::U32NativeStore => "u32-native-store",
            UnsafeIntrinsic::U64NativeLoad => "u64-native-load",
            UnsafeIntrinsic::U64NativeStore => "u64-native-store",
            UnsafeIntrinsic::U8CheckedNativeLoad => "u8-checked-native-load",
            UnsafeIntrinsic::U8CheckedNativeStore => "u8-checked-native-store",
            UnsafeIntrinsic::U16CheckedNativeLoad => "u16-checked-native-load",
            UnsafeIntrinsic::U16CheckedNativeStore => "u16-checked-native-store",
            UnsafeIntrinsic::U32CheckedNativeLoad => "u32-checked-native-load",
            UnsafeIntrinsic::U32CheckedNativeStore => "u32-checked-native-store",
            UnsafeIntrinsic::U64CheckedNativeLoad => "u64-checked-native-load",
            UnsafeIntrinsic::U64CheckedNativeStore => "u64-checked-native-store",
            UnsafeIntrinsic::ContextGetI32_0 => "context-get-i32-0",
            UnsafeIntrinsic::ContextSetI32_0 => "context-set-i32-0",
            UnsafeIntrinsic::ContextGetI32_1 => "context-get-i32-1",
            UnsafeIntrinsic::ContextSetI32_1 => "context-set-i32-1",
        }
    }

    /// What it takes, as core value types.
    pub fn core_params(&self) -> &'static [WasmValType]
        ensures { option_map (λ t. map core_type t.params) (intrinsic_type self.now) ≡ Some result.now }
    {
        match self {
            UnsafeIntrinsic::StoreDataAddress
            | UnsafeIntrinsic::ContextGetI32_0
            | UnsafeIntrinsic::ContextGetI32_1 => &[],
            UnsafeIntrinsic::U8NativeLoad
            | UnsafeIntrinsic::U16NativeLoad
            | UnsafeIntrinsic::U32NativeLoad
            | UnsafeIntrinsic::U64NativeLoad => &[I64],
            UnsafeIntrinsic::U8NativeStore
            | UnsafeIntrinsic::U16NativeStore
            | UnsafeIntrinsic::U32NativeStore => &[I64, I32],
            UnsafeIntrinsic::U64NativeStore => &[I64, I64],
            UnsafeIntrinsic::U8CheckedNativeLoad
            | UnsafeIntrinsic::U16CheckedNativeLoad
            | UnsafeIntrinsic::U32CheckedNativeLoad
            | UnsafeIntrinsic::U64CheckedNativeLoad => &[I64, I64, I64],
            UnsafeIntrinsic::U8CheckedNativeStore
            | UnsafeIntrinsic::U16CheckedNativeStore
            | UnsafeIntrinsic::U32CheckedNativeStore => &[I64, I64, I64, I32],
            UnsafeIntrinsic::U64CheckedNativeStore => &[I64, I64, I64, I64],
            UnsafeIntrinsic::ContextSetI32_0 | UnsafeIntrinsic::ContextSetI32_1 => &[I32],
        }
    }

    /// What it answers, as core value types.
    pub fn core_results(&self) -> &'static [WasmValType]
        ensures { option_map (λ t. map core_type t.results) (intrinsic_type self.now) ≡ Some result.now }
    {
        match self {
            UnsafeIntrinsic::StoreDataAddress
            | UnsafeIntrinsic::U64NativeLoad
            | UnsafeIntrinsic::U64CheckedNativeLoad => &[I64],
            UnsafeIntrinsic::U8NativeLoad
            | UnsafeIntrinsic::U16NativeLoad
            | UnsafeIntrinsic::U32NativeLoad
            | UnsafeIntrinsic::U8CheckedNativeLoad
            | UnsafeIntrinsic::U16CheckedNativeLoad
            | UnsafeIntrinsic::U32CheckedNativeLoad
            | UnsafeIntrinsic::ContextGetI32_0
            | UnsafeIntrinsic::ContextGetI32_1 => &[I32],
            UnsafeIntrinsic::U8NativeStore
            | UnsafeIntrinsic::U16NativeStore
            | UnsafeIntrinsic::U32NativeStore
            | UnsafeIntrinsic::U64NativeStore
            | UnsafeIntrinsic::U8CheckedNativeStore
            | UnsafeIntrinsic::U16CheckedNativeStore
            | UnsafeIntrinsic::U32CheckedNativeStore
            | UnsafeIntrinsic::U64CheckedNativeStore
            | UnsafeIntrinsic::ContextSetI32_0
            | UnsafeIntrinsic::ContextSetI32_1 => &[],
        }
    }

    /// What it takes, as types of components.
    pub fn component_params(&self) -> &'static [InterfaceType]
        ensures { option_map (λ t. map interface_type t.params) (intrinsic_type self.now) ≡ Some result.now }
    {
        match self {
            UnsafeIntrinsic::StoreDataAddress
            | UnsafeIntrinsic::ContextGetI32_0
            | UnsafeIntrinsic::ContextGetI32_1 => &[],
            UnsafeIntrinsic::U8NativeLoad
            | UnsafeIntrinsic::U16NativeLoad
            | UnsafeIntrinsic::U32NativeLoad
            | UnsafeIntrinsic::U64NativeLoad => &[U64],
            UnsafeIntrinsic::U8NativeStore => &[U64, U8],
            UnsafeIntrinsic::U16NativeStore => &[U64, U16],
            UnsafeIntrinsic::U32NativeStore => &[U64, U32],
            UnsafeIntrinsic::U64NativeStore => &[U64, U64],
            UnsafeIntrinsic::U8CheckedNativeLoad
            | UnsafeIntrinsic::U16CheckedNativeLoad
            | UnsafeIntrinsic::U32CheckedNativeLoad
            | UnsafeIntrinsic::U64CheckedNativeLoad => &[U64, U64, U64],
            UnsafeIntrinsic::U8CheckedNativeStore => &[U64, U64, U64, U8],
            UnsafeIntrinsic::U16CheckedNativeStore => &[U64, U64, U64, U16],
            UnsafeIntrinsic::U32CheckedNativeStore => &[U64, U64, U64, U32],
            UnsafeIntrinsic::U64CheckedNativeStore => &[U64, U64, U64, U64],
            UnsafeIntrinsic::ContextSetI32_0 | UnsafeIntrinsic::ContextSetI32_1 => &[U32],
        }
    }

    /// What it answers, as types of components.
    pub fn component_results(&self) -> &'static [InterfaceType]
        ensures { option_map (λ t. map interface_type t.results) (intrinsic_type self.now) ≡ Some result.now }
    {
        match self {
            UnsafeIntrinsic::StoreDataAddress
            | UnsafeIntrinsic::U64NativeLoad
            | UnsafeIntrinsic::U64CheckedNativeLoad => &[U64],
            UnsafeIntrinsic::U8NativeLoad | UnsafeIntrinsic::U8CheckedNativeLoad => &[U8],
            UnsafeIntrinsic::U16NativeLoad | UnsafeIntrinsic::U16CheckedNativeLoad => &[U16],
            UnsafeIntrinsic::U32NativeLoad
            | UnsafeIntrinsic::U32CheckedNativeLoad
            | UnsafeIntrinsic::ContextGetI32_0
            | UnsafeIntrinsic::ContextGetI32_1 => &[U32],
            UnsafeIntrinsic::U8NativeStore
            | UnsafeIntrinsic::U16NativeStore
            | UnsafeIntrinsic::U32NativeStore
            | UnsafeIntrinsic::U64NativeStore
            | UnsafeIntrinsic::U8CheckedNativeStore
            | UnsafeIntrinsic::U16CheckedNativeStore
            | UnsafeIntrinsic::U32CheckedNativeStore
            | UnsafeIntrinsic::U64CheckedNativeStore
            | UnsafeIntrinsic::ContextSetI32_0
            | UnsafeIntrinsic::ContextSetI32_1 => &[],
        }
    }

    /// The intrinsic of a name.
    pub fn from_str(s: &str) -> Result<UnsafeIntrinsic, UnknownName>
        ensures ok { IfOk result (λ i. slice_get intrinsic_names (intrinsic_place i) ≡ Some s.now) }
        ensures unknown { IfErr result (λ e. ¬ Contains intrinsic_names s.now) }
    {
        for place in 0..UnsafeIntrinsic::len() {
            let intrinsic = UnsafeIntrinsic::from_u32(place);
            if intrinsic.name() == s {
                return Ok(intrinsic);
            }
        }
        Err(UnknownName)
    }
}
