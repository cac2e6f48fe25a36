// What a part list reads of a JSON value.
ghost use Rattle.std.specs.Prelude.{◌≡◌, option_map, map, string_bytes};
ghost use Rattle.std.specs.List.{list_all, list_any};
ghost use Rattle.std.specs.Str.{bytes_eq};
ghost use Rattle.std.specs.BTreeMap.{keys};
ghost use Rattle.serde_json.specs.View.{view};
ghost use Rattle.staat_manifest.specs.Values.{array_at, has_only, text_at, text_in};

use serde_json::{Map, Value};

/// The text that the value is, or the empty text where it is none.
pub(crate) fn text_in(value: &Value) -> &str
    ensures { result.now ≡ text_in (view value.entry.now) }
{
    value.as_str().unwrap_or("")
}

/// The text of the member, or the empty text where it is none.
pub(crate) fn text_at<'v>(value: &'v Value, name: &str) -> &'v str
    ensures { result.now ≡ text_at name.now (view value.entry.now) }
{
    value.get(name).and_then(Value::as_str).unwrap_or("")
}

/// The items of the member, where it is an array.
pub(crate) fn array_at<'v>(value: &'v Value, name: &str) -> Option<&'v [Value]>
    ensures { option_map (λ s. map view s.now) result ≡ array_at name.now (view value.entry.now) }
{
    value.get(name).and_then(Value::as_array).map(Vec::as_slice)
}

// The name is one of these.
fn is_among(names: &[&str], name: &str) -> bool
    ensures { result ≡ list_any (λ known. bytes_eq name.now known.now) names.now }
{
    for known in names {
        if name == *known {
            return true;
        }
    }
    false
}

fn all_among(members: &Map<String, Value>, names: &[&str]) -> bool
    ensures { result ≡ list_all (λ name. list_any (λ known. bytes_eq (string_bytes name) known.now) names.now)
        (keys members.now) }
{
    members.keys().all(|name| is_among(names, name.as_str()))
}

/// Each member of the object has one of these names.
pub(crate) fn has_only(value: &Value, names: &[&str]) -> bool
    ensures { result ≡ has_only (map (λ s. s.now) names.now) (view value.now) }
{
    match value.as_object() {
        Some(members) => all_among(members, names),
        None => true,
    }
}
