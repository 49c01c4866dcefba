//! Numbers, which `json` leaves as text.

ghost use Rattle.std.specs.Prelude.{◌≡◌, ◌<◌, ◌==◌, true, false, slice_index, length, IsTrue, option_map};
ghost use Rattle.std.specs.Prelude.{Some, IfSome, option_and_then, is_some};
ghost use Rattle.serde_json.specs.Data.{unsigned};
ghost use Rattle.serde_json.specs.Find.{as_u64, as_number};
ghost use Rattle.serde_json.specs.Read.{number_of, number_from, float_of};
ghost use Rattle.serde_json.specs.View.{number_view};
ghost use Rattle.pc_input_tokens.specs.Borrowed.{number_data};

use fast_float::Numeral;
use serde_json::Number;

/// Whether the text begins with a minus sign.
#[inline(always)]
fn has_minus(bytes: &[u8]) -> bool
    ensures value { result ≡ (slice_index bytes.now 0 == 45) }
    ensures len { IsTrue result → 0 < length bytes.now }
{
    !bytes.is_empty() && bytes[0] == b'-'
}

#[inline(always)]
fn nearest(negative: bool, numeral: &Numeral<'_>) -> Option<Number>
    ensures { option_map number_view result ≡ float_of negative numeral.now }
{
    Number::from_f64(numeral.to_float::<f64>(negative))
}

#[inline(always)]
fn unsigned(numeral: &Numeral<'_>) -> Option<Number>
    ensures { option_map number_view result ≡ number_from false numeral.now }
{
    match numeral.to_u64() {
        Some(n) => Some(Number::from(n)),
        None => nearest(false, numeral),
    }
}

#[inline(always)]
fn negative(numeral: &Numeral<'_>) -> Option<Number>
    ensures { option_map number_view result ≡ number_from true numeral.now }
{
    if let Some(n) = numeral.to_i64(true) {
        if n < 0 {
            return Some(Number::from(n));
        }
    }
    nearest(true, numeral)
}

/// The number that a text writes, where it is in range.
#[inline(always)]
pub(crate) fn number(text: &str) -> Option<Number>
    ensures { option_map number_view result ≡ number_of text.now }
{
    let bytes = text.as_bytes();
    if has_minus(bytes) {
        negative(&Numeral::scan(&bytes[1..]))
    } else {
        unsigned(&Numeral::scan(bytes))
    }
}

/// The number, if the text is one to 19 digits and nothing else: 64 bits hold it. Nearly all numbers are written so, and
/// what reads any number costs many times as much.
fn few_digits(text: &str) -> Option<u64>
    ensures { IfSome result (λ n. number_of text.now ≡ Some (unsigned n)) }
{
    let bytes = text.as_bytes();
    if bytes.is_empty() || bytes.len() > 19 {
        return None;
    }
    let mut number = 0;
    for byte in bytes {
        if !byte.is_ascii_digit() {
            return None;
        }
        number = number * 10 + (*byte - b'0') as u64;
    }
    Some(number)
}

/// Whether the number that a text writes is in range.
pub fn is_in_range(text: &str) -> bool
    ensures { result ≡ is_some (number_of text.now) }
{
    few_digits(text).is_some() || number(text).is_some()
}

/// The number, if it is a whole one below 2^64, written without a sign, a fraction and an exponent.
pub(crate) fn whole(text: &str) -> Option<u64>
    ensures { result ≡ option_and_then as_u64 (as_number (number_data (number_of text.now))) }
{
    if let Some(number) = few_digits(text) {
        return Some(number);
    }
    let number = number(text)?;
    number.as_u64()
}
