//! The members of JSON values.

ghost use Rattle.std.specs.Prelude.{◌≡◌, map};
ghost use Rattle.bitwarden_forms.specs.Json as spec;
ghost use Rattle.bitwarden_forms.specs.Seen.{lent_value};
ghost use Rattle.serde_json.specs.View.{view};

use serde_json::Value;

/// The member of a name, where it is there and not null.
pub(crate) fn given_member<'a>(value: &'a Value, name: &str) -> Option<&'a Value>
    ensures { lent_value result
        ≡ spec.given_member name.now (view value.now) }
{
    match value.get(name) {
        Some(Value::Null) => None,
        Some(member) => Some(member),
        None => None,
    }
}

/// The member of a name of a value, where both are there.
pub fn inner_member<'a>(value: Option<&'a Value>, name: &str) -> Option<&'a Value>
    ensures { lent_value result
        ≡ spec.inner_member name.now (lent_value value.entry) }
{
    match value {
        Some(value) => value.get(name),
        None => None,
    }
}

/// The text of a member of a value, which is empty where it is missing or none.
pub fn text<'a>(value: Option<&'a Value>, name: &str) -> &'a str
    ensures { result.now ≡ spec.text name.now (lent_value value.entry) }
{
    inner_member(value, name)
        .and_then(Value::as_str)
        .unwrap_or("")
}

// The values in a list.
fn elements(value: &Value) -> &[Value]
    ensures { map view result.now ≡ spec.elements (view value.now) }
{
    match value.as_array() {
        Some(list) => list.as_slice(),
        None => &[],
    }
}

/// The values in a list that is a member of a value; none where it is missing or no list.
pub fn values<'a>(value: Option<&'a Value>, name: &str) -> &'a [Value]
    ensures { map view result.now
        ≡ spec.values name.now (lent_value value.entry) }
{
    match inner_member(value, name) {
        Some(member) => elements(member),
        None => &[],
    }
}
