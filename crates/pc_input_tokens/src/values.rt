//! Whether each number of a tree has a value.

ghost use Rattle.std.specs.Prelude.{◌≡◌, Some, None};
ghost use Rattle.std.specs.Bool.{MatchBool};
ghost use Rattle.json.specs.Value.{value_view, items_view, members_view};
ghost use Rattle.serde_json.specs.Read.{of_json, of_items};
ghost use Rattle.pc_input_tokens.specs.Borrowed.{data_in, items_data};
ghost use Rattle.pc_input_tokens.specs.Values.{EachHasValue};

use crate::numbers::is_in_range;
use json::Value;

/// Whether each number in a tree has a value.
#[cycle(values)]
pub(crate) fn has_values(value: &Value<'_>) -> bool
    ensures { MatchBool result (of_json (value_view value.now) ≡ Some (data_in value.now))
        (of_json (value_view value.now) ≡ None) }
{
    match value {
        Value::Number(text) => is_in_range(text),
        Value::Array(items) => items_have_values(items),
        Value::Object(members) => members_have_values(members),
        _ => true,
    }
}

#[cycle(values)]
fn items_have_values(items: &Vec<Value<'_>>) -> bool
    ensures { MatchBool result (of_items (items_view items.now.items) ≡ Some (items_data (items_view items.now.items)))
        (of_items (items_view items.now.items) ≡ None) }
{
    for item in items {
        if !has_values(item) {
            return false;
        }
    }
    true
}

#[cycle(values)]
fn members_have_values(members: &Vec<(&str, Value<'_>)>) -> bool
    ensures { EachHasValue result (members_view members.now.items) }
{
    for member in members {
        if !has_values(&member.1) {
            return false;
        }
    }
    true
}
