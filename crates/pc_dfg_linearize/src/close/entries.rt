//! Options entries, trampolines and intrinsics that get their numbers. No step is made for them.

ghost use Rattle.std.specs.Prelude.{◌≡◌, All, None, OnOk, length, Err};
ghost use Rattle.pc_dfg.specs.Held.{AreHeld};
ghost use Rattle.pc_dfg_linearize.specs.declared.error.FinishError.TheVariants as refusal;
ghost use Rattle.pc_dfg_linearize.specs.declared.id.Id.TheVariants as id;
ghost use Rattle.pc_dfg_linearize.specs.Added.{IsFull};
ghost use Rattle.pc_dfg_linearize.specs.Closed.{Closed, Fits};
ghost use Rattle.pc_dfg_linearize.specs.Parts.{HasNumber, number_of, parts};
ghost use Rattle.pc_dfg_linearize.specs.Ready.{CanClose};

use crate::FinishError;
use crate::entries::{options_of, trampoline_of};
use crate::state::Finish;
use pc_dfg::{ComponentDfg, OptionsId};
use pc_entity::{ModuleInternedTypeIndex, TrampolineIndex};
use pc_types::UnsafeIntrinsic;

/// Adds an options entry.
pub(crate) fn close_options(
    graph: &ComponentDfg,
    finish: &mut Finish,
    options: OptionsId,
) -> Result<(), FinishError>
    requires held { AreHeld graph.now }
    requires fresh { number_of finish.old (id.Options options) ≡ None }
    requires can { CanClose graph.now (length finish.old.instances) (id.Options options) }
    requires numbered { All (HasNumber finish.old) (parts graph.now (id.Options options)) }
    requires fits { Fits graph.now finish.old }
    ensures closed { OnOk result (Closed graph.now finish.old finish.new (id.Options options)) }
    ensures full { result ≡ Err refusal.TooMany → IsFull finish.old (id.Options options) }
{
    let entry = options_of(finish, &graph.options[options]);
    finish.add_options(options, entry)
}

/// Adds a trampoline, with its core signature.
pub(crate) fn close_trampoline(
    graph: &ComponentDfg,
    finish: &mut Finish,
    trampoline: TrampolineIndex,
) -> Result<(), FinishError>
    requires held { AreHeld graph.now }
    requires fresh { number_of finish.old (id.Trampoline trampoline) ≡ None }
    requires can { CanClose graph.now (length finish.old.instances) (id.Trampoline trampoline) }
    requires numbered { All (HasNumber finish.old) (parts graph.now (id.Trampoline trampoline)) }
    requires fits { Fits graph.now finish.old }
    ensures closed { OnOk result (Closed graph.now finish.old finish.new (id.Trampoline trampoline)) }
    ensures full { result ≡ Err refusal.TooMany → IsFull finish.old (id.Trampoline trampoline) }
{
    let signed = &graph.trampolines[trampoline];
    let entry = trampoline_of(finish, trampoline, signed);
    finish.add_trampoline(trampoline, signed.0, entry)
}

/// Notes the core signature of an intrinsic.
pub(crate) fn close_intrinsic(
    graph: &ComponentDfg,
    finish: &mut Finish,
    signature: ModuleInternedTypeIndex,
    intrinsic: UnsafeIntrinsic,
)
    requires fresh { number_of finish.old (id.Intrinsic signature intrinsic) ≡ None }
    requires can { CanClose graph.now (length finish.old.instances) (id.Intrinsic signature intrinsic) }
    requires fits { Fits graph.now finish.old }
    ensures closed { Closed graph.now finish.old finish.new (id.Intrinsic signature intrinsic) }
{
    finish.note_intrinsic(intrinsic, signature);
}
