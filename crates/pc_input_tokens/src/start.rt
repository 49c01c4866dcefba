//! What a value begins with.

ghost use Rattle.std.specs.Prelude.{◌≡◌};
ghost use Rattle.json.specs.Reads.{token_of};
ghost use Rattle.pc_input_tokens.specs.Takes.{start_of, Starts};

use crate::numbers::is_in_range;
use json::{Reader, Token};

/// What begins here.
#[derive(Clone, Copy, Debug)]
pub enum Start {
    /// An array, of which the bracket is taken.
    Array,
    /// An object, of which the brace is taken.
    Object,
    /// Another value, which is taken whole.
    Scalar,
}

/// What begins with a token.
fn start_of(token: Token<'_>) -> Option<Start>
    ensures { result ≡ start_of (token_of token.entry) }
{
    match token {
        Token::BeginArray => Some(Start::Array),
        Token::BeginObject => Some(Start::Object),
        Token::Number(text) => {
            if is_in_range(text) {
                Some(Start::Scalar)
            } else {
                None
            }
        }
        Token::String(_) | Token::Bool(_) | Token::Null => Some(Start::Scalar),
        Token::EndObject | Token::EndArray | Token::Key(_) | Token::Bad => None,
    }
}

/// What the next value begins with. It is None where no value is next.
pub fn begin(reader: &mut Reader<'_>) -> Option<Start>
    ensures { Starts reader.old result reader.new }
{
    match reader.next() {
        Some(token) => start_of(token),
        None => None,
    }
}
