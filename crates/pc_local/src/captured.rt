//! What the bodies that are open capture of those around them.
//!
//! An outer alias that counts past its own body leads through each body between. Each of them captures the thing once,
//! however many aliases name it: a captured variable has a *name*, the count and the index of the outer alias that the
//! body around it would write for the same thing, and equal names share a variable. An alias looks outwards for the
//! first body that has its name, and only the bodies that it passes on the way gain a variable, one each. So each
//! step of the search but the last is paid by a new variable, and the time is nearly linear in what is written and
//! made.

ghost use Rattle.std.specs.Prelude.{◌≡◌, ◌<◌, ◌+◌, ◌≤◌, ℕ, length, slice_get, Some, IfSome, IfOk, OnOk};
ghost use Rattle.pc_local.specs.Captured.{Captures, Grows, nothing, names_at};
ghost use Rattle.pc_local.specs.Standing.{Reads};

use pc_entity::{Interner, NoMemory, Seed, Seq};
use std::alloc::Global;

/// The first number that no captured variable has.
const LIMIT: usize = 4294967295;

/// A thing of one kind as a body has it: by its place in the list of the scope, or as a captured one.
#[derive(Clone, Copy, PartialEq, Eq)]
pub enum Variable {
    Local(u32),
    Upvar(u32),
}

/// The captured variables of one kind of an open body: the name of each, and what the body around has for it.
#[derive(Drop)]
pub(crate) struct Captured {
    pub names: Interner<(u32, u32)>,
    pub variables: Seq<Variable>,
}

impl Captured {
    /// Nothing is captured.
    pub fn new(alloc: Global, seed: Seed) -> Captured
        ensures { result ≡ nothing }
    {
        Captured {
            names: Interner::new(alloc, seed),
            variables: Seq::new(alloc),
        }
    }

    /// The number of a captured variable of this name.
    fn find(&self, name: (u32, u32)) -> Option<u32>
        ensures { IfSome result (λ place. slice_get self.now.names place ≡ Some name) }
    {
        if self.names.len() < LIMIT {
            self.names.find(&name)
        } else {
            None
        }
    }

    /// The number of the variable of a name. It is captured now, unless one of this name is; the body around has
    /// `variable` for it.
    fn add(&mut self, name: (u32, u32), variable: Variable) -> Result<u32, NoMemory>
        ensures held { IfOk result (λ place. slice_get self.new.names place ≡ Some name) }
        ensures grows { OnOk result (Grows self.old name variable self.new) }
    {
        let count = self.names.len();
        if count >= LIMIT {
            return Err(NoMemory);
        }
        let place = self.names.push(name)?;
        if self.names.len() == count {
            return Ok(place);
        }
        self.variables.push(variable)?;
        Ok(place)
    }
}

/// The innermost of the bodies that an alias leads through which has what it names, how far the alias counts from
/// there, and the variable there. The body of number `base` is the one that the alias counts to.
fn known(stack: &[Captured], base: usize, count: u32, index: u32) -> (u32, Variable)
    requires within { base + count < length stack.now }
    ensures left { result.0 ≤ count }
    ensures reads { Reads (names_at stack.now (base + result.0)) result.1 result.0 index }
{
    let mut left = count;
    while left > 0 {
        if let Some(place) = stack[base + left as usize].find((left - 1, index)) {
            return (left, Variable::Upvar(place));
        }
        left -= 1;
    }
    (0, Variable::Local(index))
}

/// What the innermost open body has for an outer alias, of one kind. The bodies that the alias leads through capture
/// it.
pub(crate) fn capture(
    stack: &mut Vec<Captured>,
    count: u32,
    index: u32,
) -> Result<Variable, NoMemory>
    requires within { count < length stack.old.items }
    ensures { IfOk result (λ v. (level : ℕ) → length stack.old.items ≡ level + 1
        → Captures stack.old.items level count index stack.new.items v) }
{
    let base = stack.len() - 1 - count as usize;
    let (start, mut variable) = known(stack.as_slice(), base, count, index);
    for left in start..count {
        let place = stack[base + left as usize + 1].add((left, index), variable)?;
        variable = Variable::Upvar(place);
    }
    Ok(variable)
}
