//! Trampolines put together from their parts: by the head and the parts first, and by the kind last. So each match over
//! kinds is a small one, which costs a proof far less than one match over all of them.

ghost use Rattle.std.specs.Prelude.{◌≡◌, IfNone, IfSome};
ghost use Rattle.pc_trampoline.specs.Parts.{parts_of};
ghost use Rattle.pc_trampoline.specs.Shape.{IsShaped};

use crate::{Head, Parts, Trampoline, builtin, helper};

impl<L: Copy, O: Copy, M: Copy, T: Copy, C: Copy, P: Copy> Trampoline<L, O, M, T, C, P> {
    /// The trampoline that is made of these parts, if they are those of their kind.
    pub fn from_parts(made_of: Parts<L, O, M, T, C, P>) -> Option<Trampoline<L, O, M, T, C, P>>
        ensures some { IfSome result (λ t. parts_of t ≡ made_of) }
        ensures none { IfNone result (¬ IsShaped made_of) }
    {
        let Parts { kind, head, parts } = made_of;
        match head {
            Head::Lowering(index, ty, options) => helper::lowering(kind, index, ty, options, parts),
            Head::Builtin(instance) => builtin::of(kind, instance, parts),
            Head::Helper => helper::of(kind, parts),
            Head::Transcoding(op, from64, to64) => {
                helper::transcoder(kind, op, from64, to64, parts)
            }
            Head::Trapping(code) => helper::trap(kind, code, parts),
        }
    }
}
