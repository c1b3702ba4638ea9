ghost use Rattle.serde_json.specs.View.{view, number_view};
ghost use Rattle.dynamo_ser.specs.JsonValue.{json_datum, json_wants, number_datum, float_wants};
ghost use Rattle.dynamo_ser.specs.Writes.{Writes};

use crate::{Error, Outcomes, Serialize, Serializer};
use serde_json::{Number, Value};

impl Serialize for Value {
    ghost tells = { λ v. json_datum (view v) };

    ghost wants = { λ v. json_wants (view v) };

    fn serialize<S: Serializer>(&self, serializer: S) -> Result<S::Ok, S::Error> {
        match self {
            Value::Null => serializer.serialize_unit(),
            Value::Bool(b) => serializer.serialize_bool(*b),
            Value::Number(number) => serialize_number(number, serializer),
            Value::String(text) => serializer.serialize_str(text),
            Value::Array(items) => items.serialize(serializer),
            Value::Object(members) => members.serialize(serializer),
        }
    }
}

// A whole number of 64 bits. serde's data model has floats, this one doesn't.
fn serialize_number<S: Serializer>(number: &Number, serializer: S) -> Result<S::Ok, S::Error>
    ensures { Writes S.Error.fault (float_wants (number_view number.now)) (S.outcome serializer)
        (number_datum (number_view number.now)) result }
{
    if let Some(n) = number.as_u64() {
        return serializer.serialize_u64(n);
    }
    match number.as_i64() {
        Some(n) => serializer.serialize_i64(n),
        None => Err(S::Error::custom(serializer.alloc(), "JSON floats are not supported")),
    }
}
