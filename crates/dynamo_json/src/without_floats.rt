//! JSON values without floats.

ghost use Rattle.std.specs.Bool.{OnTrue};
ghost use Rattle.std.specs.Prelude.{◌≡◌, not};
ghost use Rattle.serde_json.specs.Data as values;
ghost use Rattle.serde_json.specs.View as sj;
ghost use Rattle.serde_json.specs.Find.{is_float};
ghost use Rattle.serde_json.specs.Written.{has_float, items_have_float, members_have_float};
ghost use Rattle.dynamo_json.specs.JsonBack.{IsJson, IsWhole, AreJson};

use serde_json::{Map, Number, Value};

/// Returns whether a JSON value has no float at any depth. It allocates nothing.
///
/// Such a value is written and read back as itself, by the law `json_value`. A float can't be
/// written.
///
/// # Examples
///
/// ```rust
/// use serde_dynamo::{is_without_floats, to_attribute_value};
/// use serde_json::Value;
///
/// let json = Value::from_str(alloc, "[1, 2.5]")?;
/// assert!(rt; !is_without_floats(&json));
/// assert!(rt; to_attribute_value(alloc, &json).is_err());
/// ```
#[cycle(walk)]
pub fn is_without_floats(json: &Value) -> bool
    ensures floats { result ≡ not (has_float (sj.view json.now)) }

    // What a contract doesn't see of a JSON value of a program otherwise: its whole numbers are of
    // 64 bits, and the names of an object are in order.
    ensures json { OnTrue result (IsJson (sj.view json.now)) }
{
    match json {
        Value::Null => true,
        Value::Bool(_) => true,
        Value::Number(number) => is_whole(number),
        Value::String(_) => true,
        Value::Array(array) => items(array),
        Value::Object(object) => members(object),
    }
}

#[cycle(walk)]
fn items(array: &Vec<Value>) -> bool
    ensures floats { result ≡ not (items_have_float (sj.items_view array.now.items)) }
    ensures json { OnTrue result (AreJson (sj.items_view array.now.items)) }
{
    for json in array {
        if !is_without_floats(json) {
            return false;
        }
    }
    true
}

#[cycle(walk)]
fn members(object: &Map<String, Value>) -> bool
    ensures floats { result ≡ not (members_have_float (sj.members_view object.now.entries)) }
    ensures json { OnTrue result (IsJson (values.object (sj.members_view object.now.entries))) }
{
    for (_, json) in object.iter() {
        if !is_without_floats(json) {
            return false;
        }
    }
    true
}

fn is_whole(number: &Number) -> bool
    ensures floats { result ≡ not (is_float (sj.number_view number.now)) }
    ensures json { OnTrue result (IsWhole (sj.number_view number.now)) }
{
    number.as_u64().is_some() || number.as_i64().is_some()
}
