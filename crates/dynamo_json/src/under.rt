//! An item under a name in a JSON text.

ghost use Rattle.std.specs.Prelude.{◌≡◌, ◌≢◌, Some, None, Ok, IfOk, IfSome};
ghost use Rattle.serde_json.specs.Read.{read};
ghost use Rattle.serde_json.specs.Written.{compact_text};
ghost use Rattle.dynamo_value.specs.Av.{Members};
ghost use Rattle.dynamo_value.specs.Item.{item_view};
ghost use Rattle.dynamo_json.specs.Followed.{IsWritable, SpellsItem};
ghost use Rattle.dynamo_json.specs.Json.{item_json};
ghost use Rattle.dynamo_json.specs.OneMember.{one_member};
ghost use Rattle.dynamo_json.specs.Parsed.{parsed_item};

use crate::from_text;
use crate::from_text::Stop;
use dynamo_value::Item;
use json::Scratch;
use std::alloc::{AllocError, Global};

/// Reads the item under this name from a JSON text that is an object of this one member, as a line
/// of an export.
///
/// Returns `None` if the text isn't read to its end: it isn't JSON, or has more than 127 levels; it
/// is another object, as `{"Item": {}, "Count": 1}`; or the value under the name isn't DynamoDB
/// JSON, as in `{"Item": {"Id": 103}}`. To find the error, read the text as a JSON value. Spaces,
/// escapes and the order of the attributes don't matter. If a name occurs twice, the last value
/// counts.
///
/// The item is laid out as [`from_json`](crate::DynamoJson::from_json) would: a map is walked in
/// the order of its names, and a list or a set has no spare capacity, unless the smaller allocation
/// fails. The buffers of `scratch` are kept from text to text, and grow to the longest.
///
/// # Errors
///
/// Returns [`AllocError`] if memory runs out.
///
/// # Examples
///
/// ```rust
/// use dynamo_json::item_under;
/// use json::Scratch;
///
/// let mut scratch = Scratch::new(alloc);
/// let line = r#"{"Item": {"Id": {"N": "103"}, "InPublication": {"BOOL": false}}}"#;
/// let Some(item) = item_under(alloc, &mut scratch, "Item", line)? else {
///     anyhow::bail!("the line is an item");
/// };
/// assert!(rt; item.get("Id").is_some());
/// assert!(rt; item_under(alloc, &mut scratch, "Item", r#"{"Item": {"Id": 103}}"#)?.is_none());
/// ```
pub fn item_under(
    alloc: Global,
    scratch: &mut Scratch,
    name: &str,
    text: &str,
) -> Result<Option<Item>, AllocError>
    ensures item { IfOk result (λ found. IfSome found (λ item.
        read text.now ≡ Some (one_member name.now (item_json (item_view item))))) }
    ensures read { IfOk result (λ found. IfSome found (λ item.
        parsed_item (item_json (item_view item)) ≡ Ok (item_view item))) }
    ensures spelled { (members : Members) → SpellsItem text.now name.now members
        → result ≢ Ok None }
    ensures written { (members : Members) → IsWritable name.now members
        → text.now ≡ compact_text (one_member name.now (item_json members)) → result ≢ Ok None }
{
    match from_text::attributes_under(alloc, scratch, name, text) {
        Ok(map) => Ok(Some(Item::from(map))),
        Err(Stop::OutOfMemory) => Err(AllocError),
        Err(Stop::Unlike) => Ok(None),
    }
}
