//! Writes JSON values as the text of DynamoDB JSON, without an attribute value in between.

ghost use Rattle.std.specs.Prelude.{◌≡◌, ◌⊎◌, Ok, Err, MatchResult, string_bytes};
ghost use Rattle.serde_json.specs.View.{view, items_view, members_view, number_view};
ghost use Rattle.serde_json.specs.Written.{compact_text};
ghost use Rattle.dynamo_ser.specs.JsonValue.{json_datum};
ghost use Rattle.dynamo_value.specs.Av.{Av};
ghost use Rattle.dynamo_value.specs.Fault.{out_of_memory};
ghost use Rattle.dynamo_value.specs.Kind.{fault_of};
ghost use Rattle.dynamo_write.specs.Written.{written};
ghost use Rattle.dynamo_json.specs.Json.{json_of};
ghost use Rattle.dynamo_json.specs.StoredText.{PrintsStored, stored, stored_items, stored_members};
ghost use Rattle.dynamo_json.specs.StoredText.{stored_number};

use super::Printer;
use dynamo_value::{Error, Prefix, Result};
use serde_json::{Map, Number, Value};
use std::alloc::Global;

/// Returns the DynamoDB JSON text of the attribute value that a JSON value is written as. It is the
/// string that [`to_attribute_value`](dynamo_write::to_attribute_value) and then
/// [`to_json_text`](crate::DynamoJson::to_json_text) return, but no attribute value is made.
///
/// # Errors
///
/// Returns [`ErrorImpl::Message`](dynamo_value::ErrorImpl::Message) for a float, which isn't
/// written as an attribute value. It is the error of `to_attribute_value`.
///
/// Returns [`ErrorImpl::OutOfMemory`](dynamo_value::ErrorImpl::OutOfMemory) if memory runs out.
///
/// # Examples
///
/// ```rust
/// use dynamo_json::stored_text;
/// use serde_json::Value;
///
/// let json = Value::from_str(alloc, r#"[1, "a"]"#)?;
/// assert_eq!(rt; stored_text(alloc, &json)?.as_str(), r#"{"L":[{"N":"1"},{"S":"a"}]}"#);
/// ```
pub fn stored_text(alloc: Global, json: &Value) -> Result<String>
    ensures { MatchResult result
        (λ text. (a : Av) × (written (json_datum (view json.now)) ≡ Ok a)
        × (string_bytes text ≡ compact_text (json_of a)))
        (λ e. (fault_of e ≡ out_of_memory)
        ⊎ (written (json_datum (view json.now)) ≡ Err (fault_of e))) }
{
    let mut text = String::new(alloc);
    let mut printer = Printer::after(&mut text);
    printer.stored(json)?;
    Ok(printer.into_text(0, true))
}

impl Printer {
    // The object of one member for a JSON value: its key says which kind of attribute value it is
    // written as.
    #[cycle(stored)]
    fn stored(&mut self, json: &Value) -> Result<()>
        ensures tokens { PrintsStored result (stored self.old.out.tokens (view json.now))
            self.new.out.tokens }
        ensures before { self.new.out.before ≡ self.old.out.before }
    {
        match json {
            Value::Null => Ok(self.flag(Prefix::Null, true)?),
            Value::Bool(flag) => Ok(self.flag(Prefix::Bool, *flag)?),
            Value::Number(number) => self.stored_number(number),
            Value::String(text) => Ok(self.text(Prefix::S, text)?),
            Value::Array(items) => {
                self.begin(Prefix::L)?;
                self.out.begin_array()?;
                self.stored_items(items)?;
                Ok(self.end()?)
            }
            Value::Object(members) => {
                self.begin(Prefix::M)?;
                self.out.begin_object()?;
                self.stored_members(members)?;
                Ok(self.end()?)
            }
        }
    }

    // The values of an array, in order, and its end.
    #[cycle(stored)]
    fn stored_items(&mut self, items: &Vec<Value>) -> Result<()>
        ensures tokens { PrintsStored result
            (stored_items self.old.out.tokens (items_view items.now.items)) self.new.out.tokens }
        ensures before { self.new.out.before ≡ self.old.out.before }
    {
        for json in items {
            self.stored(json)?;
        }
        Ok(self.out.end_array()?)
    }

    // The members of an object, which are in the order of their keys, and its end.
    #[cycle(stored)]
    fn stored_members(&mut self, members: &Map<String, Value>) -> Result<()>
        ensures tokens { PrintsStored result
            (stored_members self.old.out.tokens (members_view members.now.entries))
            self.new.out.tokens }
        ensures before { self.new.out.before ≡ self.old.out.before }
    {
        for (key, json) in members.iter() {
            self.out.key(key.as_str())?;
            self.stored(json)?;
        }
        Ok(self.out.end_object()?)
    }

    // A whole number of 64 bits: its decimal string.
    #[inline(never)]
    fn stored_number(&mut self, number: &Number) -> Result<()>
        ensures tokens { PrintsStored result
            (stored_number self.old.out.tokens (number_view number.now)) self.new.out.tokens }
        ensures before { self.new.out.before ≡ self.old.out.before }
    {
        if let Some(n) = number.as_u64() {
            self.begin(Prefix::N)?;
            self.out.quoted_u64(n)?;
            return Ok(self.end()?);
        }
        let Some(n) = number.as_i64() else {
            let alloc = *self.room.allocator();
            return Err(<Error as dynamo_ser::Error>::custom(
                alloc,
                "JSON floats are not supported",
            ));
        };
        self.begin(Prefix::N)?;
        self.out.quoted_i64(n)?;
        Ok(self.end()?)
    }
}
