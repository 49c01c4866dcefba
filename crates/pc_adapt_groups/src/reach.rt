//! What definitions name, told by the greatest numbers alone.

ghost use Rattle.std.specs.Prelude.{◌≡◌, ◌∷◌, [], slice_get};
ghost use Rattle.std.specs.Option.{option_copied};
ghost use Rattle.pc_dfg.specs.Names.{if_any};
ghost use Rattle.pc_adapt_groups.specs.Reaches.{Gives, joined_reach, one_adapter, one_instance};

use pc_dfg::{AdapterId, CoreDef, InstanceId};
use pc_entity::{EntityRef, TrampolineIndex};

/// One more than the greatest adapter, and than the greatest core instance, of those that are named; 0 where there is
/// none.
#[derive(Clone, Copy)]
pub struct Reach {
    pub adapters: u64,
    pub instances: u64,
}

/// What nothing names.
pub(crate) const NOTHING: Reach = Reach {
    adapters: 0,
    instances: 0,
};

/// What either of two names.
pub(crate) fn join(a: Reach, b: Reach) -> Reach
    ensures { result ≡ joined_reach a b }
{
    Reach {
        adapters: a.adapters.max(b.adapters),
        instances: a.instances.max(b.instances),
    }
}

/// What an item of a core instance names.
pub(crate) fn of_instance(instance: InstanceId) -> Reach
    ensures { result ≡ one_instance instance.0 }
{
    Reach {
        adapters: 0,
        instances: u64::from(instance.as_u32()) + 1,
    }
}

/// What an adapter names: itself.
fn of_adapter_id(adapter: AdapterId) -> Reach
    ensures { result ≡ one_adapter adapter.0 }
{
    Reach {
        adapters: u64::from(adapter.as_u32()) + 1,
        instances: 0,
    }
}

/// What is known of a trampoline.
fn known(reaches: &[Reach], trampoline: TrampolineIndex) -> Option<&Reach>
    ensures { option_copied result ≡ slice_get reaches.now trampoline.0 }
{
    reaches.get(trampoline.as_u32() as usize)
}

/// What a definition names, where `reaches` has what each lower trampoline names.
pub(crate) fn of_def(reaches: &[Reach], def: &CoreDef) -> Reach
    ensures { Gives reaches.now (def.now ∷ []) result }
{
    match def {
        CoreDef::Export(export) => of_instance(export.instance),
        CoreDef::InstanceFlags(_) => NOTHING,
        CoreDef::UnsafeIntrinsic(_, _) => NOTHING,
        CoreDef::Trampoline(trampoline) => match known(reaches, *trampoline) {
            Some(reach) => *reach,
            None => NOTHING,
        },
        CoreDef::Adapter(adapter) => of_adapter_id(*adapter),
    }
}

/// What the definition in a slot names, if there is one.
#[tactic(auto, using(crate::proofs::GivesLemmas::gives_none))]
pub(crate) fn of_slot(reaches: &[Reach], def: Option<&CoreDef>) -> Reach
    ensures { Gives reaches.now (if_any (option_copied def.entry)) result }
{
    match def {
        Some(def) => of_def(reaches, def),
        None => NOTHING,
    }
}

/// What a definition names, if there is one.
#[tactic(auto, using(crate::proofs::GivesLemmas::gives_none))]
pub(crate) fn of_maybe(reaches: &[Reach], def: &Option<CoreDef>) -> Reach
    ensures { Gives reaches.now (if_any def.now) result }
{
    match def {
        Some(def) => of_def(reaches, def),
        None => NOTHING,
    }
}

/// What these definitions name.
pub(crate) fn of_defs(reaches: &[Reach], defs: &[CoreDef]) -> Reach
    ensures { Gives reaches.now defs.now result }
{
    let mut reach = NOTHING;
    for def in defs {
        reach = join(reach, of_def(reaches, def));
    }
    reach
}
