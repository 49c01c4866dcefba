//! The words of a run, and the command that they name.

ghost use Rattle.std.specs.Prelude.{◌≡◌, map};
ghost use Rattle.std.specs.String.{string_bytes};
ghost use Rattle.pc_tool.specs.Words.{chain_of, command_of};

use pc_generate::count_of;

/// What a run is to do.
#[derive(Clone, Copy, Debug, PartialEq, Eq)]
pub(crate) enum Command {
    /// Write the plan of an input.
    Translate,
    /// Write how many bytes the context of the plan of an input takes.
    Context,
    /// Write what is recorded of the core modules of the plan of an input.
    Facts,
}

/// The command that words name, if they name one.
pub(crate) fn command_of(words: &[String]) -> Option<Command>
    ensures { result ≡ command_of (map string_bytes words.now) }
{
    match words {
        [word] if word.as_str() == "translate" => Some(Command::Translate),
        [word] if word.as_str() == "context" => Some(Command::Context),
        [word] if word.as_str() == "facts" => Some(Command::Facts),
        _ => None,
    }
}

/// The length of the generated chain that words ask for, if they do: at least 1, and at most 10000.
pub(crate) fn chain_of(words: &[String]) -> Option<u32>
    ensures { result ≡ chain_of (map string_bytes words.now) }
{
    match words {
        [word, number] if word.as_str() == "gen" => count_of(number.as_str()),
        _ => None,
    }
}
