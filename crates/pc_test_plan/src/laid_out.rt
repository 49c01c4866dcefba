//! Plans with counts, trampolines and signatures of intrinsics, and nothing else, and the contexts that they have.

ghost use Rattle.std.specs.Prelude.{IfSome};
ghost use Rattle.pc_offsets.specs.Context.{IsLaidOut};
ghost use Rattle.pc_offsets.specs.PtrWidth.{bytes_of};

use pc_entity::{ModuleInternedTypeIndex, NoMemory, PackedOption, PrimaryMap, Seed};
use pc_info::Component;
use pc_offsets::{PtrWidth, VMComponentOffsets};
use std::alloc::Global;

/// What a plan has.
#[derive(Clone, Copy)]
pub(crate) struct Counts {
    /// How many component instances.
    pub(crate) instances: u32,
    /// How many lowered functions, and how many resources.
    pub(crate) twice: u32,
    /// How many memories, tables, and functions that allocate, that go on with calls, or are called after a return.
    pub(crate) once: u32,
    /// How many trampolines.
    pub(crate) trampolines: usize,
    /// The numbers of two intrinsics that are used. None has number 21.
    pub(crate) intrinsics: (usize, usize),
}

/// A plan with nothing in it.
const NOTHING: Counts = Counts {
    instances: 0,
    twice: 0,
    once: 0,
    trampolines: 0,
    intrinsics: (21, 21),
};

/// A plan with one entry or two in each array, those of trampolines and intrinsics aside.
pub(crate) const FULL: Counts = Counts {
    instances: 1,
    twice: 2,
    once: 1,
    ..NOTHING
};

/// The same with two trampolines, and with the intrinsics of numbers 1 and 3.
pub(crate) const CALLED: Counts = Counts {
    trampolines: 2,
    intrinsics: (1, 3),
    ..FULL
};

/// A plan with so many component instances.
pub(crate) fn with_instances(instances: u32) -> Counts {
    Counts {
        instances,
        ..NOTHING
    }
}

/// A plan that uses two intrinsics.
pub(crate) fn with_intrinsics(first: usize, second: usize) -> Counts {
    Counts {
        intrinsics: (first, second),
        ..NOTHING
    }
}

const SIGNATURE: ModuleInternedTypeIndex = ModuleInternedTypeIndex(0);

/// Signatures of intrinsics.
type Signatures = [PackedOption<ModuleInternedTypeIndex>; 21];

/// Says of an intrinsic that it is used, if there is one of that number.
fn use_intrinsic(signatures: &mut Signatures, number: usize) {
    if number < 21 {
        signatures[number] = PackedOption::Some(SIGNATURE);
    }
}

/// A plan with these counts.
fn plan_of(alloc: Global, counts: &Counts) -> Result<Component, NoMemory> {
    let trampolines = vec![in alloc; SIGNATURE; counts.trampolines]?;
    let mut plan = Component::new(alloc, Seed::fixed());
    plan.trampolines = PrimaryMap::from_vec(trampolines);
    use_intrinsic(&mut plan.unsafe_intrinsics, counts.intrinsics.0);
    use_intrinsic(&mut plan.unsafe_intrinsics, counts.intrinsics.1);
    plan.num_runtime_component_instances = counts.instances;
    plan.num_lowerings = counts.twice;
    plan.num_runtime_memories = counts.once;
    plan.num_runtime_tables = counts.once;
    plan.num_runtime_reallocs = counts.once;
    plan.num_runtime_callbacks = counts.once;
    plan.num_runtime_post_returns = counts.once;
    plan.num_resources = counts.twice;
    Ok(plan)
}

/// The offsets in the context of such a plan, where that fits and there is memory.
pub(crate) fn offsets_of(
    alloc: Global,
    width: PtrWidth,
    counts: &Counts,
) -> Option<VMComponentOffsets<PtrWidth>>
    ensures { IfSome result (IsLaidOut bytes_of) }
{
    match plan_of(alloc, counts) {
        Ok(plan) => VMComponentOffsets::new(width, &plan),
        Err(_) => None,
    }
}

/// How many bytes the context of such a plan takes: none where it doesn't fit, one where there is no memory.
pub(crate) fn size_of(alloc: Global, width: PtrWidth, counts: &Counts) -> u32 {
    match plan_of(alloc, counts) {
        Ok(plan) => VMComponentOffsets::size_for(width, &plan).unwrap_or(0),
        Err(_) => 1,
    }
}
