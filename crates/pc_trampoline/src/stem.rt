//! The first part of a symbol.

ghost use Rattle.std.specs.Prelude.{◌≡◌};
ghost use Rattle.pc_spec_plan.specs.Text.{stem};

use pc_types::TrampolineKind as Kind;

/// The first parts of symbols, each at the place of its kind.
const STEMS: [&str; 52] = [
    "component-lower-import",
    "component-resource-new",
    "component-resource-rep",
    "component-resource-drop",
    "backpressure-inc",
    "backpressure-dec",
    "task-return",
    "task-cancel",
    "waitable-set-new",
    "waitable-set-wait",
    "waitable-set-poll",
    "waitable-set-drop",
    "waitable-join",
    "subtask-drop",
    "subtask-cancel",
    "stream-new",
    "stream-read",
    "stream-write",
    "stream-cancel-read",
    "stream-cancel-write",
    "stream-drop-readable",
    "stream-drop-writable",
    "future-new",
    "future-read",
    "future-write",
    "future-cancel-read",
    "future-cancel-write",
    "future-drop-readable",
    "future-drop-writable",
    "error-context-new",
    "error-context-debug-message",
    "error-context-drop",
    "thread-index",
    "thread-new-indirect",
    "thread-resume-later",
    "thread-suspend",
    "thread-yield",
    "thread-suspend-then-resume",
    "thread-yield-then-resume",
    "thread-suspend-then-promote",
    "thread-yield-then-promote",
    "component-transcode",
    "component-resource-transfer-own",
    "component-resource-transfer-borrow",
    "component-prepare-call",
    "component-start-call",
    "future-transfer",
    "stream-transfer",
    "error-context-transfer",
    "trap",
    "enter-sync-call",
    "exit-sync-call",
];

/// The first part of the symbol of a kind.
pub(crate) fn stem_of(kind: Kind) -> &'static str
    ensures { result.now ≡ stem kind }
{
    STEMS[kind as usize]
}
