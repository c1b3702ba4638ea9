ghost use Rattle.std.specs.Prelude.{◌≡◌, ◌++◌, Option, Some, None, Ok, IfOk, IfErr, OnOk};
ghost use Rattle.std.specs.Prelude.{MatchResult, string_bytes};
ghost use Rattle.serde_json.specs.Data.{Data};
ghost use Rattle.serde_json.specs.Read.{read};
ghost use Rattle.serde_json.specs.View as sj;
ghost use Rattle.serde_json.specs.Written.{compact_text};
ghost use Rattle.dynamo_value.specs.Fault.{out_of_memory};
ghost use Rattle.dynamo_value.specs.HasBytes.{HasBytes, MembersHaveBytes};
ghost use Rattle.dynamo_value.specs.Item.{item_view};
ghost use Rattle.dynamo_value.specs.Kind.{fault_of};
ghost use Rattle.dynamo_value.specs.Refusal.{Refusal, Refused, refusal_in};
ghost use Rattle.dynamo_value.specs.View as av;
ghost use Rattle.dynamo_json.specs.Json.{json_of, item_json};
ghost use Rattle.dynamo_json.specs.KeysDiffer.{KeysDiffer, ItemKeysDiffer};
ghost use Rattle.dynamo_json.specs.OfText.{RefusedText, fault_in};
ghost use Rattle.dynamo_json.specs.Parsed.{parsed, parsed_item};

use crate::from_text::Stop;
use crate::{TextError, conforms, from_json, from_text, json_text, to_json};
use dynamo_value::{AttributeValue, Item, Result, refusal};
use serde_json::Value;
use std::alloc::{AllocError, Global};

/// Conversion to and from DynamoDB JSON, the JSON of DynamoDB's low-level API, for attribute values
/// and items.
///
/// An attribute value is an object of one member, whose key is a data type descriptor:
/// `{"S": "Hello"}`, `{"N": "123.45"}`, `{"BOOL": true}`, `{"NULL": true}`,
/// `{"M": {"Name": {"S": "Joe"}}}`, `{"L": [{"S": "Cookies"}]}`, `{"SS": ["Giraffe", "Hippo"]}`,
/// `{"NS": ["42.2", "-19"]}`. The string of a number isn't checked. Byte strings are base64 strings
/// of RFC 4648, section 4, with padding: `{"B": "AQI="}`, `{"BS": ["U3Vubnk=", "UmFpbnk="]}`.
///
/// An item is the object of its attributes:
/// `{"Id": {"N": "103"}, "InPublication": {"BOOL": false}}`.
///
/// # Examples
///
/// ```rust
/// use serde_dynamo::{AttributeValue, DynamoJson, Item};
///
/// let text = r#"{"Id": {"N": "103"}, "InPublication": {"BOOL": false}}"#;
/// let item = Item::from_json_text(alloc, text)?;
/// assert!(rt; matches!(item.get("Id"), Some(AttributeValue::N(id)) if id.as_str() == "103"));
/// assert_eq!(
///     rt;
///     item.to_json_text(alloc)?.as_str(),
///     r#"{"Id":{"N":"103"},"InPublication":{"BOOL":false}}"#
/// );
/// ```
pub trait DynamoJson: Sized + Drop {
    /// The JSON value of a value.
    ghost json_value: { Self → Data };

    /// The fault for a JSON value, or `None` if it is the JSON value of a value.
    ghost refusal: { Data → Option Refusal };

    /// Returns the JSON value. The members of an object are in the order of the bytes of their
    /// keys.
    ///
    /// # Errors
    ///
    /// Returns [`ErrorImpl::OutOfMemory`](dynamo_value::ErrorImpl::OutOfMemory) if memory runs out.
    ///
    /// # Examples
    ///
    /// ```rust
    /// use serde_dynamo::{AttributeValue, DynamoJson};
    ///
    /// let json = AttributeValue::Bool(true).to_json(alloc)?;
    /// assert!(rt; matches!(json.get("BOOL"), Some(serde_json::Value::Bool(true))));
    /// ```
    fn to_json(&self, alloc: Global) -> Result<Value>
        ensures { MatchResult result (λ json. sj.view json ≡ json_value self.now)
            (λ e. fault_of e ≡ out_of_memory) };

    /// Returns the JSON text, without blanks. It is the string that `to_json` and then `to_string`
    /// return, but no JSON value is made.
    ///
    /// # Errors
    ///
    /// Returns [`ErrorImpl::OutOfMemory`](dynamo_value::ErrorImpl::OutOfMemory) if memory runs out.
    fn to_json_text(&self, alloc: Global) -> Result<String>
        ensures { MatchResult result
            (λ text. string_bytes text ≡ compact_text (json_value self.now))
            (λ e. fault_of e ≡ out_of_memory) }
    {
        let mut text = String::new(alloc);
        self.push_json_text(&mut text)?;
        Ok(text)
    }

    /// Appends the JSON text to a string, as for lines of JSON in one string. Besides the string,
    /// it allocates the order of the members of a map and the base64 string of a byte string.
    ///
    /// # Errors
    ///
    /// Returns [`ErrorImpl::OutOfMemory`](dynamo_value::ErrorImpl::OutOfMemory) if memory runs out.
    /// The string is unchanged then.
    ///
    /// # Examples
    ///
    /// ```rust
    /// use serde_dynamo::{AttributeValue, DynamoJson};
    ///
    /// let mut lines = String::new(alloc);
    /// for value in [AttributeValue::Bool(true), AttributeValue::Null(true)] {
    ///     value.push_json_text(&mut lines)?;
    ///     lines.push('\n')?;
    /// }
    /// assert_eq!(rt; lines.as_str(), "{\"BOOL\":true}\n{\"NULL\":true}\n");
    /// ```
    fn push_json_text(&self, text: &mut String) -> Result<()>
        ensures { MatchResult result
            (λ _. string_bytes text.new
            ≡ string_bytes text.old ++ compact_text (json_value self.now))
            (λ e. (fault_of e ≡ out_of_memory) × (string_bytes text.new ≡ string_bytes text.old)) };

    /// Reads a value from its JSON value.
    ///
    /// # Errors
    ///
    /// Returns an [`ErrorImpl::Message`](dynamo_value::ErrorImpl::Message) for the first fault in
    /// the order of arrays and of the bytes of the keys of objects:
    ///
    /// - an attribute value isn't an object:
    ///   `invalid type: expected an object with a single key ..`;
    /// - it has no key: `Expected exactly one key in the object, found none`;
    /// - it has several keys: `Expected exactly one key in the object, found multiple keys`;
    /// - its key isn't a data type descriptor: `The key 'X' is not a known DynamoDB prefix`;
    /// - its content is of another JSON kind than its key asks for, or an item isn't an object;
    /// - a byte string isn't a base64 string with padding: `Failed to decode base64: ..`.
    ///
    /// Returns [`ErrorImpl::OutOfMemory`](dynamo_value::ErrorImpl::OutOfMemory) if memory runs out.
    ///
    /// # Examples
    ///
    /// ```rust
    /// use serde_dynamo::{AttributeValue, DynamoJson};
    ///
    /// let json = serde_json::Value::from_str(alloc, r#"{"X": true}"#)?;
    /// let Err(error) = AttributeValue::from_json(alloc, &json) else {
    ///     anyhow::bail!("X is no data type descriptor");
    /// };
    /// assert_eq!(
    ///     rt;
    ///     error.to_string(alloc)?.as_str(),
    ///     "The key 'X' is not a known DynamoDB prefix"
    /// );
    /// ```
    fn from_json(alloc: Global, json: &Value) -> Result<Self>
        ensures ok { IfOk result (λ value. sj.view json.now ≡ json_value value) }
        ensures err { IfErr result (λ e. Refused (refusal (sj.view json.now)) (fault_of e)) };

    /// Reads a value from its JSON text. It is the value that `serde_json::Value::from_str` and
    /// then `from_json` return, but a JSON value is made only of a text that isn't DynamoDB JSON,
    /// to find the error.
    ///
    /// # Errors
    ///
    /// Returns [`TextError::NotJson`] if the text isn't JSON.
    ///
    /// Returns [`TextError::Fault`] with the error of [`from_json`](Self::from_json) if the text is
    /// any other JSON, or with [`ErrorImpl::OutOfMemory`](dynamo_value::ErrorImpl::OutOfMemory) if
    /// memory runs out.
    fn from_json_text(alloc: Global, text: &str) -> Result<Self, TextError>
        ensures ok { IfOk result (λ value. read text.now ≡ Some (json_value value)) }
        ensures err { IfErr result (λ e. RefusedText refusal text.now (fault_in e)) };

    /// Promises what holds of each value of a program, at every depth: a byte string holds bytes,
    /// and no map has a key twice. So it is written and read back as itself, by the law
    /// `attribute_value` of `serde_dynamo::laws`.
    ///
    /// It walks over the whole value, allocates nothing, and has no other effect. Call it in a
    /// function whose contract needs the promise; `to_json` makes the same promise of the value
    /// whose JSON it returns.
    fn conforms(&self);
}

// The JSON value of a text.
fn json_of_text(alloc: Global, text: &str) -> Result<Value, TextError>
    ensures ok { IfOk result (λ json. read text.now ≡ Some (sj.view json)) }
    ensures err { IfErr result (λ e. RefusedText (λ _. None) text.now (fault_in e)) }
{
    match Value::from_str(alloc, text) {
        Ok(json) => Ok(json),
        Err(error) if error.is_memory() => Err(TextError::from(AllocError)),
        Err(error) => Err(TextError::NotJson(error)),
    }
}

/// Each JSON value is that of one attribute value at most.
impl DynamoJson for AttributeValue {
    ghost json_value = { λ a. json_of (av.view a) };

    ghost refusal = { λ json. refusal_in (parsed json) };

    /// Returns the JSON value. It is that of no other attribute value.
    fn to_json(&self, alloc: Global) -> Result<Value>
        ensures json { MatchResult result (λ json. sj.view json ≡ json_of (av.view self.now))
            (λ e. fault_of e ≡ out_of_memory) }
        ensures bytes { OnOk result (HasBytes (av.view self.now)) }
        ensures keys { OnOk result (KeysDiffer self.now) }
    {
        Ok(to_json::value(alloc, self)?)
    }

    fn push_json_text(&self, text: &mut String) -> Result<()> {
        Ok(json_text::push_value(text, self)?)
    }

    /// Reads an attribute value from its JSON value.
    fn from_json(alloc: Global, json: &Value) -> Result<Self>
        ensures ok { IfOk result (λ value. sj.view json.now ≡ json_of (av.view value)) }
        ensures err { IfErr result
            (λ e. Refused (refusal_in (parsed (sj.view json.now))) (fault_of e)) }
        ensures read { IfOk result (λ value. parsed (sj.view json.now) ≡ Ok (av.view value)) }
    {
        from_json::value(alloc, json)
    }

    /// Reads an attribute value from its JSON text.
    fn from_json_text(alloc: Global, text: &str) -> Result<Self, TextError>
        ensures ok { IfOk result (λ value. read text.now ≡ Some (json_of (av.view value))) }
        ensures err { IfErr result
            (λ e. RefusedText (λ json. refusal_in (parsed json)) text.now (fault_in e)) }
        ensures read { IfOk result
            (λ value. parsed (json_of (av.view value)) ≡ Ok (av.view value)) }
    {
        match from_text::attribute_value(alloc, text) {
            Ok(value) => Ok(value),
            Err(Stop::OutOfMemory) => Err(TextError::from(AllocError)),
            Err(Stop::Unlike) => Ok(Self::from_json(alloc, &json_of_text(alloc, text)?)?),
        }
    }

    fn conforms(&self)
        ensures bytes { HasBytes (av.view self.now) }
        ensures keys { KeysDiffer self.now }
    {
        conforms::value(self)
    }
}

/// Each JSON value is that of one item at most.
impl DynamoJson for Item {
    ghost json_value = { λ item. item_json (item_view item) };

    ghost refusal = { λ json. refusal_in (parsed_item json) };

    /// Returns the JSON value. It is that of no other item.
    fn to_json(&self, alloc: Global) -> Result<Value>
        ensures json { MatchResult result (λ json. sj.view json ≡ item_json (item_view self.now))
            (λ e. fault_of e ≡ out_of_memory) }
        ensures bytes { OnOk result (MembersHaveBytes (item_view self.now)) }
        ensures keys { OnOk result (ItemKeysDiffer self.now) }
    {
        Ok(Value::Object(to_json::object(alloc, self.inner())?))
    }

    fn push_json_text(&self, text: &mut String) -> Result<()> {
        Ok(json_text::push_members(text, self.inner())?)
    }

    /// Reads an item from its JSON value.
    fn from_json(alloc: Global, json: &Value) -> Result<Self>
        ensures ok { IfOk result (λ item. sj.view json.now ≡ item_json (item_view item)) }
        ensures err { IfErr result
            (λ e. Refused (refusal_in (parsed_item (sj.view json.now))) (fault_of e)) }
        ensures read { IfOk result (λ item. parsed_item (sj.view json.now) ≡ Ok (item_view item)) }
    {
        let Value::Object(object) = json else {
            return Err(refusal::message(alloc, "invalid type: expected an object of attributes"));
        };
        Ok(Item::from(from_json::members(alloc, object)?))
    }

    /// Reads an item from its JSON text.
    fn from_json_text(alloc: Global, text: &str) -> Result<Self, TextError>
        ensures ok { IfOk result (λ item. read text.now ≡ Some (item_json (item_view item))) }
        ensures err { IfErr result
            (λ e. RefusedText (λ json. refusal_in (parsed_item json)) text.now (fault_in e)) }
        ensures read { IfOk result
            (λ item. parsed_item (item_json (item_view item)) ≡ Ok (item_view item)) }
    {
        match from_text::attributes(alloc, text) {
            Ok(map) => Ok(Item::from(map)),
            Err(Stop::OutOfMemory) => Err(TextError::from(AllocError)),
            Err(Stop::Unlike) => Ok(Self::from_json(alloc, &json_of_text(alloc, text)?)?),
        }
    }

    fn conforms(&self)
        ensures bytes { MembersHaveBytes (item_view self.now) }
        ensures keys { ItemKeysDiffer self.now }
    {
        conforms::members(self.inner())
    }
}
