//! A plan while it is made.

use crate::number_map::NumberMap;
use pc_dfg::{
    AdapterModuleId, CallbackId, InstanceId, MemoryId, OptionsId, PostReturnId, ReallocId, TableId,
};
use pc_entity::{
    DefinedResourceIndex, LoweredIndex, ModuleInternedTypeIndex, OptionsIndex, PackedOption,
    PrimaryMap, RuntimeCallbackIndex, RuntimeComponentInstanceIndex, RuntimeInstanceIndex,
    RuntimeMemoryIndex, RuntimePostReturnIndex, RuntimeReallocIndex, RuntimeTableIndex, Seq,
    TrampolineIndex,
};
use pc_info::{CanonicalOptions, GlobalInitializer};

/// How many unsafe intrinsics there are.
pub const INTRINSICS: usize = 21;

/// How many steps of each kind there are, those of resources aside.
#[derive(Clone, Copy)]
pub struct Counts {
    pub instances: u32,
    pub lowerings: u32,
    pub memories: u32,
    pub tables: u32,
    pub reallocs: u32,
    pub callbacks: u32,
    pub post_returns: u32,
}

/// The number in the plan of each entry of the graph that has one.
#[derive(Drop)]
pub struct Numbers {
    pub memories: NumberMap<MemoryId, RuntimeMemoryIndex>,
    pub tables: NumberMap<TableId, RuntimeTableIndex>,
    pub reallocs: NumberMap<ReallocId, RuntimeReallocIndex>,
    pub callbacks: NumberMap<CallbackId, RuntimeCallbackIndex>,
    pub post_returns: NumberMap<PostReturnId, RuntimePostReturnIndex>,
    pub options: NumberMap<OptionsId, OptionsIndex>,
    pub lowerings: NumberMap<TrampolineIndex, LoweredIndex>,
    pub trampolines: NumberMap<TrampolineIndex, TrampolineIndex>,
    pub adapter_modules: NumberMap<AdapterModuleId, RuntimeInstanceIndex>,
}

/// A plan while it is made: its steps and lists so far, and where the entries of the graph stand in them.
pub struct Finish {
    /// The steps so far.
    pub steps: Seq<GlobalInitializer>,
    /// The core signature of each trampoline.
    pub signatures: PrimaryMap<TrampolineIndex, ModuleInternedTypeIndex>,
    /// What each trampoline does.
    pub trampolines: PrimaryMap<TrampolineIndex, pc_info::Trampoline>,
    /// The options entries.
    pub options: PrimaryMap<OptionsIndex, CanonicalOptions>,
    /// The core signature of each unsafe intrinsic that is used.
    pub intrinsics: [PackedOption<ModuleInternedTypeIndex>; INTRINSICS],
    /// The component instance of each resource that is declared.
    pub resources: PrimaryMap<DefinedResourceIndex, RuntimeComponentInstanceIndex>,
    /// The number in the run of each core instance of the graph that was made.
    pub instances: PrimaryMap<InstanceId, RuntimeInstanceIndex>,
    pub counts: Counts,
    pub numbers: Numbers,
}

// By hand, since a derived drop of so many lists is proved anew, and slowly, in each function that lets a plan go.
impl Drop for Finish {
    fn drop(self) {
        let Finish {
            steps,
            signatures,
            trampolines,
            options,
            intrinsics: _,
            resources,
            instances,
            counts: _,
            numbers,
        } = self;
        drop_steps(steps, resources, instances);
        drop_trampolines(signatures, trampolines, options);
        drop_numbers(numbers);
    }
}

fn drop_steps(
    _steps: Seq<GlobalInitializer>,
    _resources: PrimaryMap<DefinedResourceIndex, RuntimeComponentInstanceIndex>,
    _instances: PrimaryMap<InstanceId, RuntimeInstanceIndex>,
) {}

fn drop_trampolines(
    _signatures: PrimaryMap<TrampolineIndex, ModuleInternedTypeIndex>,
    _trampolines: PrimaryMap<TrampolineIndex, pc_info::Trampoline>,
    _options: PrimaryMap<OptionsIndex, CanonicalOptions>,
) {}

fn drop_numbers(numbers: Numbers) {
    let Numbers {
        memories,
        tables,
        reallocs,
        callbacks,
        post_returns,
        options,
        lowerings,
        trampolines,
        adapter_modules,
    } = numbers;
    drop_slots(memories, tables, reallocs, callbacks, post_returns);
    drop_others(options, lowerings, trampolines, adapter_modules);
}

fn drop_slots(
    _memories: NumberMap<MemoryId, RuntimeMemoryIndex>,
    _tables: NumberMap<TableId, RuntimeTableIndex>,
    _reallocs: NumberMap<ReallocId, RuntimeReallocIndex>,
    _callbacks: NumberMap<CallbackId, RuntimeCallbackIndex>,
    _post_returns: NumberMap<PostReturnId, RuntimePostReturnIndex>,
) {}

fn drop_others(
    _options: NumberMap<OptionsId, OptionsIndex>,
    _lowerings: NumberMap<TrampolineIndex, LoweredIndex>,
    _trampolines: NumberMap<TrampolineIndex, TrampolineIndex>,
    _adapter_modules: NumberMap<AdapterModuleId, RuntimeInstanceIndex>,
) {}
