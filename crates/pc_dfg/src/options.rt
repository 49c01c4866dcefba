//! The options of lifted and lowered functions, with slots by number, and two types that no list holds.

ghost use Rattle.std.proofs.Common.{rules};

use crate::{CallbackId, MemoryId, PostReturnId, ReallocId};
use pc_entity::{ExactEq, ModuleInternedTypeIndex, RuntimeComponentInstanceIndex};
use pc_types::{InterfaceType, StringEncoding};

/// The options of a lifted or lowered function.
#[derive(Clone, Copy, PartialEq, Eq, Hash)]
pub struct CanonicalOptions {
    /// The component instance that the function was lifted or lowered in.
    pub instance: RuntimeComponentInstanceIndex,
    /// How its strings are encoded.
    pub string_encoding: StringEncoding,
    /// The function that goes on with an asynchronous call.
    pub callback: Option<CallbackId>,
    /// The function that is called when the results are read.
    pub post_return: Option<PostReturnId>,
    /// Whether a call may return before its results are there.
    pub async_: bool,
    /// The core signature, a number of the types builder.
    pub core_type: ModuleInternedTypeIndex,
    /// Where its values lie.
    pub data_model: CanonicalOptionsDataModel,
}

/// Where a function's values lie.
#[derive(Clone, Copy, PartialEq, Eq, Hash)]
pub enum CanonicalOptionsDataModel {
    /// In the managed heap.
    Gc {},
    /// In linear memory: the memory, and the function that makes room in it, each where a value needs it.
    LinearMemory {
        memory: Option<MemoryId>,
        realloc: Option<ReallocId>,
    },
}

/// A future, by its component instance and what it carries.
#[derive(Clone, Copy, PartialEq, Eq)]
pub struct FutureInfo {
    pub instance: RuntimeComponentInstanceIndex,
    pub payload_type: Option<InterfaceType>,
}

/// A stream, by its component instance and what it carries.
#[derive(Clone, Copy, PartialEq, Eq)]
pub struct StreamInfo {
    pub instance: RuntimeComponentInstanceIndex,
    pub payload_type: InterfaceType,
}

impl ExactEq for CanonicalOptionsDataModel {
    ghost exact = { Prim.search rules };
}

impl ExactEq for CanonicalOptions {
    ghost use Rattle.pc_dfg.specs.ExactOptions.{options_exact};

    ghost exact = { options_exact };
}
