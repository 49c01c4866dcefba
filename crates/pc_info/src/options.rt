//! The options of lifted and lowered functions.

ghost use Rattle.std.specs.Prelude.{◌≡◌};
ghost use Rattle.std.proofs.Common.{rules};
ghost use Rattle.pc_info.specs.Options.{memory_of};

use pc_entity::{
    ExactEq, RuntimeCallbackIndex, RuntimeComponentInstanceIndex, RuntimeMemoryIndex,
    RuntimePostReturnIndex, RuntimeReallocIndex,
};
use pc_types::{ModuleInternedTypeIndex, StringEncoding};

/// The options of a lifted or lowered function.
#[derive(Clone, Copy, PartialEq, Eq, Hash)]
pub struct CanonicalOptions {
    /// The component instance that the function was lifted or lowered in.
    pub instance: RuntimeComponentInstanceIndex,
    /// How its strings are encoded.
    pub string_encoding: StringEncoding,
    /// The slot of the function that goes on with an asynchronous call.
    pub callback: Option<RuntimeCallbackIndex>,
    /// The slot of the function that is called when the results are read.
    pub post_return: Option<RuntimePostReturnIndex>,
    /// Whether a call may return before its results are there.
    pub async_: bool,
    /// The core signature, a number of the types builder.
    pub core_type: ModuleInternedTypeIndex,
    /// Where its values lie.
    pub data_model: CanonicalOptionsDataModel,
}

/// Where a function's values lie.
#[derive(Clone, Copy, PartialEq, Eq, Hash)]
pub enum CanonicalOptionsDataModel {
    /// In the managed heap.
    Gc {},
    /// In linear memory.
    LinearMemory(LinearMemoryOptions),
}

/// The slots of the memory that holds a function's values, and of the function that makes room in it.
#[derive(Clone, Copy, PartialEq, Eq, Hash)]
pub struct LinearMemoryOptions {
    /// None where no value lies in memory.
    pub memory: Option<RuntimeMemoryIndex>,
    /// None where no value needs new room.
    pub realloc: Option<RuntimeReallocIndex>,
}

impl CanonicalOptions {
    /// The slot of the memory that values lie in. There is none where they lie in the managed heap.
    pub fn memory(&self) -> Option<RuntimeMemoryIndex>
        ensures { result ≡ memory_of self.now.data_model }
    {
        match self.data_model {
            CanonicalOptionsDataModel::Gc {} => None,
            CanonicalOptionsDataModel::LinearMemory(options) => options.memory,
        }
    }
}

impl ExactEq for LinearMemoryOptions {
    ghost exact = { Prim.search rules };
}

impl ExactEq for CanonicalOptionsDataModel {
    ghost exact = { Prim.search rules };
}
