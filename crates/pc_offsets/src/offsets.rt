//! The offsets of the arrays in the context of a plan.

ghost use Rattle.std.specs.Prelude.{◌≡◌, ◌<◌, ◌+◌, ◌*◌, ◌↔◌, None, IfSome, length};
ghost use Rattle.pc_offsets.specs.Context.{IsLaidOut, context, context_size, entries_for, entries_of, field, layout_of};
ghost use Rattle.pc_offsets.specs.Context.{used_end};
ghost use Rattle.pc_offsets.specs.Layout.{AreApart, IsFieldAt, IsInEntry, size_of};
ghost use Rattle.pc_offsets.specs.declared.offsets.TheConstants.{MAY_LEAVE, TRAMPOLINES, INTRINSICS, LOWERINGS};
ghost use Rattle.pc_offsets.specs.declared.offsets.TheConstants.{MEMORIES, TABLES, REALLOCS, CALLBACKS, POST_RETURNS};
ghost use Rattle.pc_offsets.specs.declared.offsets.TheConstants.{DESTRUCTORS};

use crate::layout::{FIELDS, Field, lay_out};
use crate::{PtrSize, VmctxArray, VmctxIndex};
use pc_entity::{
    LoweredIndex, ModuleInternedTypeIndex, PackedOption, ResourceIndex, RuntimeCallbackIndex,
    RuntimeComponentInstanceIndex, RuntimeMemoryIndex, RuntimePostReturnIndex, RuntimeReallocIndex,
    RuntimeTableIndex, TrampolineIndex,
};
use pc_info::Component;
use pc_types::UnsafeIntrinsic;

// The places of the arrays among the fields.
const MAY_LEAVE: usize = 2;

const TRAMPOLINES: usize = 3;

const INTRINSICS: usize = 4;

const LOWERINGS: usize = 5;

const MEMORIES: usize = 6;

const TABLES: usize = 7;

const REALLOCS: usize = 8;

const CALLBACKS: usize = 9;

const POST_RETURNS: usize = 10;

const DESTRUCTORS: usize = 11;

/// How many unsafe intrinsics there are.
const ALL_INTRINSICS: usize = 21;

/// The offsets of the arrays in a context, for the counts and the size of a pointer that stand beside them.
#[derive(Clone, Copy)]
pub struct VMComponentOffsets<P> {
    /// What knows the size of a pointer.
    pub ptr: P,
    /// How many lowered functions the plan makes.
    pub num_lowerings: u32,
    /// How many memories it keeps at hand.
    pub num_runtime_memories: u32,
    /// How many tables it keeps at hand.
    pub num_runtime_tables: u32,
    /// How many functions it keeps that allocate.
    pub num_runtime_reallocs: u32,
    /// How many callbacks of async functions it keeps.
    pub num_runtime_callbacks: u32,
    /// How many functions it keeps that are called after a return.
    pub num_runtime_post_returns: u32,
    /// How many component instances begin.
    pub num_runtime_component_instances: u32,
    /// How many trampolines it has.
    pub num_trampolines: u32,
    /// The entries of `intrinsic_func_refs`: the greatest number of a used intrinsic, plus one.
    pub num_unsafe_intrinsics: u32,
    /// How many resources it has.
    pub num_resources: u32,
    starts: [u32; FIELDS],
    size: u32,
}

/// How many trampolines a plan has; nothing where that is past the greatest `u32`.
fn trampolines_of(component: &Component) -> Option<u32>
    ensures held { IfSome result (λ n. n ≡ length component.now.trampolines) }
    ensures past { result ≡ None → 4294967295 < length component.now.trampolines }
{
    match u32::try_from(component.trampolines.len()) {
        Ok(count) => Some(count),
        Err(_) => None,
    }
}

/// The greatest number of an intrinsic that is used, plus one, or zero.
fn used_intrinsics(signatures: &[PackedOption<ModuleInternedTypeIndex>; ALL_INTRINSICS]) -> u32
    ensures { result ≡ used_end signatures.now }
{
    let mut end = 0;
    for n in 0..ALL_INTRINSICS {
        match signatures[n] {
            PackedOption::None => {}
            PackedOption::Some(_) => end = n as u32 + 1,
        }
    }
    end
}

/// A field of a context.
fn field(count: u32, size: u8, align: u8) -> Field
    ensures { result ≡ field count size align }
{
    Field { count, size, align }
}

impl<P: PtrSize> VMComponentOffsets<P> {
    /// The offsets for a plan, or nothing where the context would take more than 4294967295 bytes.
    pub fn new(ptr: P, component: &Component) -> Option<Self>
        ensures laid_out { IfSome result (IsLaidOut P.bytes) }
        ensures ptr { IfSome result (λ o. o.ptr ≡ ptr) }
        ensures entries { IfSome result (λ o. entries_for o ≡ entries_of component.now) }
        ensures none { (result ≡ None) ↔ (4294967295 < size_of (context (P.bytes ptr) (entries_of component.now))) }

        // The fields are aligned, apart from each other, and in order.
        ensures apart { IfSome result (λ o. AreApart 0 (layout_of P.bytes o) o.starts) }
    {
        let num_trampolines = trampolines_of(component)?;
        let starts = [0; FIELDS];
        let mut offsets = VMComponentOffsets {
            ptr,
            num_lowerings: component.num_lowerings,
            num_runtime_memories: component.num_runtime_memories,
            num_runtime_tables: component.num_runtime_tables,
            num_runtime_reallocs: component.num_runtime_reallocs,
            num_runtime_callbacks: component.num_runtime_callbacks,
            num_runtime_post_returns: component.num_runtime_post_returns,
            num_runtime_component_instances: component.num_runtime_component_instances,
            num_trampolines,
            num_unsafe_intrinsics: used_intrinsics(&component.unsafe_intrinsics),
            num_resources: component.num_resources,
            starts,
            size: 0,
        };
        let kept = lay_out(&offsets.fields())?;
        let starts = kept.starts;
        offsets.starts = starts;
        offsets.size = kept.size;
        Some(offsets)
    }

    /// How many bytes the context of a plan takes, or nothing where that is more than 4294967295.
    pub fn size_for(ptr: P, component: &Component) -> Option<u32>
        ensures { result ≡ context_size (P.bytes ptr) component.now }
    {
        match VMComponentOffsets::new(ptr, component) {
            Some(offsets) => Some(offsets.size_of_vmctx()),
            None => None,
        }
    }

    /// The fields of the context.
    fn fields(&self) -> [Field; FIELDS]
        ensures { result ≡ layout_of P.bytes self.now }
    {
        let p = self.ptr.size();
        [
            field(1, 4, 4),
            field(2, p, p),
            field(self.num_runtime_component_instances, 16, 16),
            field(self.num_trampolines, 4 * p, p),
            field(self.num_unsafe_intrinsics, 4 * p, p),
            field(self.num_lowerings, 2 * p, p),
            field(self.num_runtime_memories, p, p),
            field(self.num_runtime_tables, 2 * p, p),
            field(self.num_runtime_reallocs, p, p),
            field(self.num_runtime_callbacks, p, p),
            field(self.num_runtime_post_returns, p, p),
            field(self.num_resources, p, p),
        ]
    }

    /// The array that is the nth field.
    fn array<I: VmctxIndex>(&self, n: usize) -> VmctxArray<I>
        requires laid_out { IsLaidOut P.bytes self.now }
        requires within { n < 12 }
        ensures { IsFieldAt (layout_of P.bytes self.now) n result.start result.count result.size }
    {
        let field = self.fields()[n];
        VmctxArray::new(self.starts[n], field.count, field.size)
    }

    /// The flags of each component instance, among them whether it may be left.
    pub fn may_leave(&self) -> VmctxArray<RuntimeComponentInstanceIndex>
        requires laid_out { IsLaidOut P.bytes self.now }
        ensures { IsFieldAt (layout_of P.bytes self.now) MAY_LEAVE result.start result.count result.size }
    {
        self.array(MAY_LEAVE)
    }

    /// The function reference of each trampoline.
    pub fn trampoline_func_refs(&self) -> VmctxArray<TrampolineIndex>
        requires laid_out { IsLaidOut P.bytes self.now }
        ensures { IsFieldAt (layout_of P.bytes self.now) TRAMPOLINES result.start result.count result.size }
    {
        self.array(TRAMPOLINES)
    }

    /// The function reference of each unsafe intrinsic up to the last that is used.
    pub fn intrinsic_func_refs(&self) -> VmctxArray<UnsafeIntrinsic>
        requires laid_out { IsLaidOut P.bytes self.now }
        ensures { IsFieldAt (layout_of P.bytes self.now) INTRINSICS result.start result.count result.size }
    {
        self.array(INTRINSICS)
    }

    /// The host's callee and data of each lowered function.
    pub fn lowerings(&self) -> VmctxArray<LoweredIndex>
        requires laid_out { IsLaidOut P.bytes self.now }
        ensures { IsFieldAt (layout_of P.bytes self.now) LOWERINGS result.start result.count result.size }
    {
        self.array(LOWERINGS)
    }

    /// A pointer to each memory that is kept at hand.
    pub fn memories(&self) -> VmctxArray<RuntimeMemoryIndex>
        requires laid_out { IsLaidOut P.bytes self.now }
        ensures { IsFieldAt (layout_of P.bytes self.now) MEMORIES result.start result.count result.size }
    {
        self.array(MEMORIES)
    }

    /// The table and its instance, for each table that is kept at hand.
    pub fn tables(&self) -> VmctxArray<RuntimeTableIndex>
        requires laid_out { IsLaidOut P.bytes self.now }
        ensures { IsFieldAt (layout_of P.bytes self.now) TABLES result.start result.count result.size }
    {
        self.array(TABLES)
    }

    /// A pointer to each function that allocates.
    pub fn reallocs(&self) -> VmctxArray<RuntimeReallocIndex>
        requires laid_out { IsLaidOut P.bytes self.now }
        ensures { IsFieldAt (layout_of P.bytes self.now) REALLOCS result.start result.count result.size }
    {
        self.array(REALLOCS)
    }

    /// A pointer to each callback.
    pub fn callbacks(&self) -> VmctxArray<RuntimeCallbackIndex>
        requires laid_out { IsLaidOut P.bytes self.now }
        ensures { IsFieldAt (layout_of P.bytes self.now) CALLBACKS result.start result.count result.size }
    {
        self.array(CALLBACKS)
    }

    /// A pointer to each function that is called after a return.
    pub fn post_returns(&self) -> VmctxArray<RuntimePostReturnIndex>
        requires laid_out { IsLaidOut P.bytes self.now }
        ensures { IsFieldAt (layout_of P.bytes self.now) POST_RETURNS result.start result.count result.size }
    {
        self.array(POST_RETURNS)
    }

    /// A pointer to the destructor of each resource.
    pub fn resource_destructors(&self) -> VmctxArray<ResourceIndex>
        requires laid_out { IsLaidOut P.bytes self.now }
        ensures { IsFieldAt (layout_of P.bytes self.now) DESTRUCTORS result.start result.count result.size }
    {
        self.array(DESTRUCTORS)
    }

    /// Where the callee of a lowered function is kept.
    pub fn lowering_callee(&self, index: LoweredIndex) -> u32
        requires laid_out { IsLaidOut P.bytes self.now }
        requires held { index.0 < self.now.num_lowerings }
        ensures { IsInEntry (layout_of P.bytes self.now) LOWERINGS index.0 0 result }
    {
        self.lowerings().at(index) + self.lowering_callee_offset()
    }

    /// Where the data of a lowered function is kept: a pointer behind its callee.
    pub fn lowering_data(&self, index: LoweredIndex) -> u32
        requires laid_out { IsLaidOut P.bytes self.now }
        requires held { index.0 < self.now.num_lowerings }
        ensures { IsInEntry (layout_of P.bytes self.now) LOWERINGS index.0 (P.bytes self.now.ptr) result }
    {
        self.lowerings().at(index) + self.lowering_data_offset()
    }

    /// How many bytes a lowered function takes: two pointers.
    pub fn lowering_size(&self) -> u8
        ensures { result ≡ 2 * P.bytes self.now.ptr }
    {
        2 * self.ptr.size()
    }

    /// Where in a lowered function its callee is.
    pub fn lowering_callee_offset(&self) -> u32
        ensures { result ≡ 0 }
    {
        0
    }

    /// Where in a lowered function its data is.
    pub fn lowering_data_offset(&self) -> u32
        ensures { result ≡ P.bytes self.now.ptr }
    {
        u32::from(self.ptr.size())
    }

    /// How many bytes the context takes.
    pub fn size_of_vmctx(&self) -> u32
        requires laid_out { IsLaidOut P.bytes self.now }
        ensures { result ≡ size_of (layout_of P.bytes self.now) }
    {
        self.size
    }

    /// How many bytes a pointer takes.
    pub fn pointer_size(&self) -> u8
        ensures { result ≡ P.bytes self.now.ptr }
    {
        self.ptr.size()
    }

    /// What knows the size of a pointer.
    pub fn get_ptr_size(&self) -> &P
        ensures { result.now ≡ self.now.ptr }
    {
        &self.ptr
    }
}
