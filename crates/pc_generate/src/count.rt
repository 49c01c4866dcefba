//! The word that says how long a generated chain is.

ghost use Rattle.std.specs.Prelude.{◌≡◌};
ghost use Rattle.pc_generate.specs.Count.{count_in};

/// The number that a word says in decimal, without a zero in front: at least 1, and at most 10000.
pub fn count_of(word: &str) -> Option<u32>
    ensures { result ≡ count_in word.now }
{
    let bytes = word.as_bytes();
    if bytes.is_empty() || bytes[0] < b'1' || bytes[0] > b'9' {
        return None;
    }
    match word.parse::<u32>() {
        Ok(n) if n <= 10000 => Some(n),
        _ => None,
    }
}
