//! `json`'s trees, whose texts lie in the text that was read.

ghost use Rattle.std.specs.Prelude.{◌≡◌, ◌==◌, ◌≤◌, ℕ, [], option_map, map};
ghost use Rattle.json.specs.Value.{members_view};
ghost use Rattle.serde_json.specs.Data.{no_members};
ghost use Rattle.pc_input_tokens.specs.Borrowed.{data_in, members_data};
ghost use Rattle.pc_input_tokens.specs.Keys.{fresh};
ghost use Rattle.pc_input_tokens.specs.Shape.{only};

use crate::numbers::whole;
use crate::tree::Tree;
use json::Value;

/// The most members that an object of the format has.
const MOST: usize = 8;

/// Whether there are exactly `n` keys, each counted once.
fn has_keys(members: &[(&str, Value<'_>)], n: usize) -> bool
    requires { n ≤ 8 }
    ensures { result ≡ (fresh [] (members_view members.now) == n) }
{
    let mut seen = [""; MOST];
    let mut count = 0;
    for (key, _) in members {
        if !seen[..count].contains(key) {
            if count == n {
                return false;
            }
            seen[count] = *key;
            count += 1;
        }
    }
    count == n
}

/// The one key with its last value, where no two keys differ.
fn only<'v, 'a>(members: &'v [(&'a str, Value<'a>)]) -> Option<(&'v str, &'v Value<'a>)>
    ensures { option_map (λ t. (t.0.now, data_in t.1.now)) result
        ≡ only (members_data (members_view members.now) no_members) }
{
    if !has_keys(members, 1) {
        return None;
    }
    let (key, member) = members.last()?;
    Some((*key, member))
}

impl<'a> Tree for Value<'a> {
    ghost means = { data_in };

    fn as_str(&self) -> Option<&str> {
        Value::as_str(self)
    }

    fn as_bool(&self) -> Option<bool> {
        Value::as_bool(self)
    }

    fn as_u64(&self) -> Option<u64> {
        match self {
            Value::Number(text) => whole(text),
            _ => None,
        }
    }

    fn is_null(&self) -> bool {
        Value::is_null(self)
    }

    fn is_number(&self) -> bool {
        matches!(self, Value::Number(_))
    }

    fn is_array(&self) -> bool {
        matches!(self, Value::Array(_))
    }

    fn list(&self) -> Option<&[Value<'a>]> {
        match self {
            Value::Array(items) => Some(items.as_slice()),
            _ => None,
        }
    }

    fn has_members(&self, n: usize) -> bool {
        match self {
            Value::Object(members) => has_keys(members, n),
            _ => false,
        }
    }

    fn get(&self, key: &str) -> Option<&Value<'a>> {
        Value::get(self, key)
    }

    fn tagged(&self) -> Option<(&str, &Value<'a>)> {
        match self {
            Value::Object(members) => only(members),
            _ => None,
        }
    }
}
