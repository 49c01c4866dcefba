//! `==` and hashes of trampolines, by what they are made of: so there is no second match over all kinds.

ghost use Rattle.std.proofs.Common.{ap};
ghost use Rattle.pc_trampoline.specs.Exact.{trampoline_exact};
ghost use Rattle.pc_trampoline.specs.Parts.{parts_of};
ghost use Rattle.pc_trampoline.specs.Same.{exact_equiv, exact_per, parts_itself};

use crate::{Parts, Trampoline};
use pc_entity::ExactEq;
use std::hash::{Hash, Hasher};

impl<
    L: Copy + ExactEq,
    O: Copy + ExactEq,
    M: Copy + ExactEq,
    T: Copy + ExactEq,
    C: Copy + ExactEq,
    P: Copy + ExactEq,
> PartialEq for Trampoline<L, O, M, T, C, P> {
    ghost eq = { λ s t. ⟦<Parts<L, O, M, T, C, P> as PartialEq>⟧.eq (parts_of s) (parts_of t) };

    ghost laws = { exact_per (trampoline_exact L.exact O.exact M.exact T.exact C.exact P.exact) };

    fn eq(&self, other: &Trampoline<L, O, M, T, C, P>) -> bool {
        self.parts() == other.parts()
    }
}

impl<
    L: Copy + ExactEq,
    O: Copy + ExactEq,
    M: Copy + ExactEq,
    T: Copy + ExactEq,
    C: Copy + ExactEq,
    P: Copy + ExactEq,
> Eq for Trampoline<L, O, M, T, C, P> {
    ghost laws = { exact_equiv (trampoline_exact L.exact O.exact M.exact T.exact C.exact P.exact)
        (λ t. parts_itself L.eq O.eq M.eq T.eq C.eq P.eq L.Eq.laws.refl O.Eq.laws.refl M.Eq.laws.refl
        T.Eq.laws.refl C.Eq.laws.refl P.Eq.laws.refl (parts_of t)) };
}

impl<
    L: Copy + ExactEq,
    O: Copy + ExactEq,
    M: Copy + ExactEq,
    T: Copy + ExactEq,
    C: Copy + ExactEq,
    P: Copy + ExactEq,
> Hash for Trampoline<L, O, M, T, C, P> {
    ghost hash_input = { λ t. ⟦<Parts<L, O, M, T, C, P> as Hash>⟧.hash_input (parts_of t) };

    ghost respects_eq = { λ s t h. ap (λ x. ⟦<Parts<L, O, M, T, C, P> as Hash>⟧.hash_input (parts_of x))
        (trampoline_exact L.exact O.exact M.exact T.exact C.exact P.exact s t h) };

    fn hash<H: Hasher>(&self, state: &mut H) {
        self.parts().hash(state);
    }
}
