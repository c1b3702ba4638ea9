ghost use Rattle.std.specs.Prelude.{◌≡◌, Ok, Some, IfOk, IfErr};
ghost use Rattle.serde_json.specs.Read.{read};
ghost use Rattle.serde_json.specs.View as sj;
ghost use Rattle.dynamo_value.specs.Item.{item_view};
ghost use Rattle.dynamo_value.specs.Kind.{fault_of};
ghost use Rattle.dynamo_value.specs.Refusal.{Refused, refusal_in};
ghost use Rattle.dynamo_value.specs.View as av;
ghost use Rattle.dynamo_json.specs.Json.{json_of, item_json};
ghost use Rattle.dynamo_json.specs.OfText.{RefusedText, fault_in};
ghost use Rattle.dynamo_json.specs.Parsed.{parsed, parsed_item};

use crate::LocatedError;
use crate::fault::{Whole, in_json, in_text};
use dynamo_json::{DynamoJson, TextError};
use dynamo_value::{AttributeValue, Error, Item};
use serde_json::Value;
use std::alloc::Global;

/// Reading DynamoDB JSON as [`DynamoJson`] does, with the place of an error.
///
/// The [`Place`](crate::Place) is in the attribute value or the item, as `orders[3].price`, so data
/// type descriptors are no steps. It leads to the attribute value that can't be read, or to the
/// element of a set.
///
/// # Examples
///
/// ```rust
/// use serde_dynamo::{DynamoJsonLocated, Item};
///
/// let text = r#"{"Id": {"N": "103"}, "Tags": {"L": [{"S": "new"}, {"X": "hot"}]}}"#;
/// let Err(error) = Item::from_json_text_located(alloc, text) else {
///     anyhow::bail!("X is no data type descriptor");
/// };
/// assert_eq!(
///     rt;
///     error.to_string(alloc)?.as_str(),
///     "Tags[1]: The key 'X' is not a known DynamoDB prefix"
/// );
/// ```
pub trait DynamoJsonLocated: DynamoJson {
    /// Reads a value from its JSON value as [`from_json`](DynamoJson::from_json) does, and says
    /// where an error was found.
    ///
    /// # Errors
    ///
    /// Returns an error that `from_json` may return, with its place. The place is empty if memory
    /// runs out, for the value or for the place.
    ///
    /// # Examples
    ///
    /// ```rust
    /// use serde_dynamo::{AttributeValue, DynamoJsonLocated, Step};
    ///
    /// let json = serde_json::Value::from_str(alloc, r#"{"M": {"Sizes": {"NS": ["1", 2]}}}"#)?;
    /// let Err(error) = AttributeValue::from_json_located(alloc, &json) else {
    ///     anyhow::bail!("2 is no string");
    /// };
    /// assert!(rt; matches!(error.place.steps(), [Step::Attribute(_), Step::Element(1)]));
    /// assert_eq!(rt; error.place.to_string(alloc)?.as_str(), "Sizes[1]");
    /// ```
    fn from_json_located(alloc: Global, json: &Value) -> Result<Self, LocatedError<Error>>
        ensures ok { IfOk result (λ value. sj.view json.now ≡ Self.json_value value) }
        ensures err { IfErr result
            (λ e. Refused (Self.refusal (sj.view json.now)) (fault_of e.error)) };

    /// Reads a value from its JSON text as [`from_json_text`](DynamoJson::from_json_text) does, and
    /// says where an error was found. After an error the text is read again.
    ///
    /// # Errors
    ///
    /// Returns an error that `from_json_text` may return, with its place. The place is empty if the
    /// text isn't JSON, since [`TextError::NotJson`] prints the line and the column, or if memory
    /// runs out.
    ///
    /// # Examples
    ///
    /// ```rust
    /// use serde_dynamo::{DynamoJsonLocated, Item, TextError};
    ///
    /// let Err(error) = Item::from_json_text_located(alloc, r#"{"Id": {"N": "103"}"#) else {
    ///     anyhow::bail!("a brace is missing");
    /// };
    /// assert!(rt; matches!(error.error, TextError::NotJson(_)));
    /// assert!(rt; error.place.steps().is_empty());
    /// ```
    fn from_json_text_located(alloc: Global, text: &str) -> Result<Self, LocatedError<TextError>>
        ensures ok { IfOk result (λ value. read text.now ≡ Some (Self.json_value value)) }
        ensures err { IfErr result (λ e. RefusedText Self.refusal text.now (fault_in e.error)) };
}

impl DynamoJsonLocated for AttributeValue {
    /// Reads an attribute value from its JSON value, and says where an error was found.
    fn from_json_located(alloc: Global, json: &Value) -> Result<Self, LocatedError<Error>>
        ensures ok { IfOk result (λ value. sj.view json.now ≡ json_of (av.view value)) }
        ensures err { IfErr result
            (λ e. Refused (refusal_in (parsed (sj.view json.now))) (fault_of e.error)) }
        ensures read { IfOk result (λ value. parsed (sj.view json.now) ≡ Ok (av.view value)) }
    {
        match Self::from_json(alloc, json) {
            Ok(value) => Ok(value),
            Err(error) => Err(in_json(alloc, Whole::AttributeValue, json, error)),
        }
    }

    /// Reads an attribute value from its JSON text, and says where an error was found.
    fn from_json_text_located(alloc: Global, text: &str) -> Result<Self, LocatedError<TextError>>
        ensures ok { IfOk result (λ value. read text.now ≡ Some (json_of (av.view value))) }
        ensures err { IfErr result
            (λ e. RefusedText (λ json. refusal_in (parsed json)) text.now (fault_in e.error)) }
        ensures read { IfOk result
            (λ value. parsed (json_of (av.view value)) ≡ Ok (av.view value)) }
    {
        match Self::from_json_text(alloc, text) {
            Ok(value) => Ok(value),
            Err(error) => Err(in_text(alloc, Whole::AttributeValue, text, error)),
        }
    }
}

impl DynamoJsonLocated for Item {
    /// Reads an item from its JSON value, and says where an error was found.
    fn from_json_located(alloc: Global, json: &Value) -> Result<Self, LocatedError<Error>>
        ensures ok { IfOk result (λ item. sj.view json.now ≡ item_json (item_view item)) }
        ensures err { IfErr result
            (λ e. Refused (refusal_in (parsed_item (sj.view json.now))) (fault_of e.error)) }
        ensures read { IfOk result (λ item. parsed_item (sj.view json.now) ≡ Ok (item_view item)) }
    {
        match Self::from_json(alloc, json) {
            Ok(item) => Ok(item),
            Err(error) => Err(in_json(alloc, Whole::Item, json, error)),
        }
    }

    /// Reads an item from its JSON text, and says where an error was found.
    fn from_json_text_located(alloc: Global, text: &str) -> Result<Self, LocatedError<TextError>>
        ensures ok { IfOk result (λ item. read text.now ≡ Some (item_json (item_view item))) }
        ensures err { IfErr result
            (λ e. RefusedText (λ json. refusal_in (parsed_item json)) text.now (fault_in e.error)) }
        ensures read { IfOk result
            (λ item. parsed_item (item_json (item_view item)) ≡ Ok (item_view item)) }
    {
        match Self::from_json_text(alloc, text) {
            Ok(item) => Ok(item),
            Err(error) => Err(in_text(alloc, Whole::Item, text, error)),
        }
    }
}
