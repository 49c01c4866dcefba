//! Whose context a function takes.

ghost use Rattle.std.proofs.Common.{rules};

use pc_entity::ExactEq;

/// Whose context a function takes when it is called: equal keys mean one context. Core instances are named by `I`, and
/// adapter modules by `A`.
#[derive(Clone, Copy, PartialEq, Eq, PartialOrd, Ord, Hash)]
pub enum VmctxKey<I, A> {
    /// The component's own, which each trampoline and each intrinsic takes.
    Component,
    /// That of a core instance.
    CoreInstance(I),
    /// That of the instance of an adapter module, which is made once at most.
    AdapterModule(A),
}

impl<I: ExactEq, A: ExactEq> ExactEq for VmctxKey<I, A> {
    ghost exact = { Prim.search (rules, I.exact, A.exact) };
}
