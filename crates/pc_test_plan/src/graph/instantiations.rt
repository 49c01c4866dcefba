//! What is known of instantiations, from several places.

use crate::support::holds;
use pc_dfg::AbstractInstantiations;
use pc_entity::TrampolineIndex;
use pc_info::CoreDef;

const FIRST: CoreDef = CoreDef::Trampoline(TrampolineIndex(1));

const OTHER: CoreDef = CoreDef::Trampoline(TrampolineIndex(2));

/// Adds what is known from another place: in how many ways a module is instantiated then, where two stand for many.
fn join<'a>(known: &mut AbstractInstantiations<'a>, other: AbstractInstantiations<'a>) -> u32 {
    known.join(other);
    match *known {
        AbstractInstantiations::None => 0,
        AbstractInstantiations::One(_) => 1,
        AbstractInstantiations::Many => 2,
    }
}

/// In how many ways, after each of four places: two with these arguments, one with none, and one with many.
fn joined(one: &[CoreDef], other: &[CoreDef]) -> [u32; 4] {
    let mut known = AbstractInstantiations::None;
    [
        join(&mut known, AbstractInstantiations::One(one)),
        join(&mut known, AbstractInstantiations::One(other)),
        join(&mut known, AbstractInstantiations::None),
        join(&mut known, AbstractInstantiations::Many),
    ]
}

#[test]
fn equal_arguments_are_one_way_and_different_ones_many(rt: HostRuntime) {
    let ways = joined(&[FIRST], &[FIRST]);
    holds(&rt, "equal arguments", ways == [1, 1, 1, 2]);
    let ways = joined(&[FIRST], &[OTHER]);
    holds(&rt, "different arguments", ways == [1, 2, 2, 2]);
}
