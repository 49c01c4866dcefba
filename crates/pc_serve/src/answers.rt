//! What a program says of bytes.

ghost use Rattle.std.specs.Prelude.{ℕ, ◌≡◌, List, IfOk};
ghost use Rattle.pc_serve.specs.Answer.{IsAnswer};

use pc_numbers::NoMemory;
use std::alloc::Global;

/// The answer to bytes.
#[derive(Drop)]
pub enum Answer {
    /// The text that a command makes of them.
    Made(Vec<u8>),
    /// The text that says why it makes none.
    Refused(Vec<u8>),
}

/// A command that answers bytes with a text.
pub trait Answers: Drop {
    // What bytes may stand for.
    ghost Meaning: { Type 0 };

    // What they stand for.
    ghost StandsFor: { (bytes : List ℕ) → Meaning → Type 0 };

    // What is never refused.
    ghost IsValid: { Meaning → Type 0 };

    // What a text that a command makes says of the bytes.
    ghost Says: { Self → (bytes text : List ℕ) → Type 0 };

    // What a text says of the bytes that it refuses.
    ghost Refuses: { (bytes text : List ℕ) → Type 0 };

    // What is said to words that name no command, and of more bytes than an input may have.
    ghost usage: { List ℕ };

    ghost too_long: { List ℕ };

    /// The answer to bytes.
    fn answer(&self, alloc: Global, bytes: Vec<u8>) -> Result<Answer, NoMemory>
        ensures { IfOk result (IsAnswer (Says self.now) Refuses bytes.items) };

    /// What is said to words that name no command.
    fn usage_text() -> &'static str
        ensures { result.now ≡ usage };

    /// What is said of more bytes than an input may have.
    fn too_long_text() -> &'static str
        ensures { result.now ≡ too_long };

    // No text refuses bytes that stand for a valid input.
    ghost completes: { (bytes text : List ℕ) (input : Meaning) → StandsFor bytes input → IsValid input → Refuses bytes text
        → ⊥ };
}
