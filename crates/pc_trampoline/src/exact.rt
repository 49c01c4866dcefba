//! Where `==` of what trampolines are made of answers true, the two are one.

ghost use Rattle.std.proofs.Common.{rules};
ghost use Rattle.pc_trampoline.specs.Exact.{fixed_exact, head_exact, list_exact, part_exact, parts_exact};
ghost use Rattle.pc_trampoline.specs.Exact.{trampoline_exact, transcode_exact};

use crate::{FixedEncoding, Head, Part, PartList, Parts, Trampoline, Transcode, Trap};
use pc_entity::ExactEq;

impl ExactEq for FixedEncoding {
    ghost exact = { fixed_exact };
}

impl ExactEq for Transcode {
    ghost exact = { transcode_exact };
}

impl ExactEq for Trap {
    ghost exact = { Prim.search rules };
}

impl<A: Copy + ExactEq> ExactEq for PartList<A> {
    ghost exact = { list_exact A.exact };
}

impl<L: Copy + ExactEq, O: Copy + ExactEq> ExactEq for Head<L, O> {
    ghost exact = { head_exact L.exact O.exact };
}

impl<
    O: Copy + ExactEq,
    M: Copy + ExactEq,
    T: Copy + ExactEq,
    C: Copy + ExactEq,
    P: Copy + ExactEq,
> ExactEq for Part<O, M, T, C, P> {
    ghost exact = { part_exact O.exact M.exact T.exact C.exact P.exact };
}

impl<
    L: Copy + ExactEq,
    O: Copy + ExactEq,
    M: Copy + ExactEq,
    T: Copy + ExactEq,
    C: Copy + ExactEq,
    P: Copy + ExactEq,
> ExactEq for Parts<L, O, M, T, C, P> {
    ghost exact = { parts_exact L.exact O.exact M.exact T.exact C.exact P.exact };
}

impl<
    L: Copy + ExactEq,
    O: Copy + ExactEq,
    M: Copy + ExactEq,
    T: Copy + ExactEq,
    C: Copy + ExactEq,
    P: Copy + ExactEq,
> ExactEq for Trampoline<L, O, M, T, C, P> {
    ghost exact = { trampoline_exact L.exact O.exact M.exact T.exact C.exact P.exact };
}
