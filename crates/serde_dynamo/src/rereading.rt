ghost use Rattle.std.specs.Prelude.{◌≡◌, ◌⊎◌, Ok, Err, IfOk, IfErr, MatchResult};
ghost use Rattle.serde_json.specs.View as sj;
ghost use Rattle.dynamo_value.specs.Fault.{out_of_memory};
ghost use Rattle.dynamo_value.specs.Kind.{fault_of};
ghost use Rattle.dynamo_value.specs.View as av;
ghost use Rattle.dynamo_write.specs.Written as write;
ghost use Rattle.dynamo_write.specs.Written.{item_written};
ghost use Rattle.dynamo_de.specs.Meets.{Meets};
ghost use Rattle.dynamo_de.specs.Source.{attribute};
ghost use Rattle.dynamo_json.specs.Json.{json_of};
ghost use Rattle.dynamo_shape.specs.Clear.{Clear, NearlyClear};
ghost use Rattle.dynamo_shape.specs.Kept.{kept};
ghost use Rattle.dynamo_shape.specs.ReadsBack.{Permitted};
ghost use Rattle.dynamo_shape.specs.Same.{Same};
ghost use Rattle.serde_dynamo.specs.Reread.{IsFaultOf, Stores};

use crate::Shaped;
use dynamo_json::DynamoJson;
use dynamo_read::{from_attribute_value, from_item};
use dynamo_value::{AttributeValue, Result};
use dynamo_write::{to_attribute_value, to_item};
use serde_json::Value;
use std::alloc::Global;

/// Writes a value, passes it through its DynamoDB JSON, and reads it back. It returns the attribute
/// value that was written, the JSON value of it, and the value that was read.
///
/// **What was stored reads back**: if the shape of the type is clear, the value that was read is
/// the same as the argument, and the call fails only if memory runs out. This holds for every type
/// that keeps the promises of [`Shaped`], and in whatever order its hashed maps are walked.
///
/// If the shape is only nearly clear, some of what is written as null is read as `None`, and all
/// else reads back.
///
/// # Errors
///
/// Returns [`ErrorImpl::OutOfMemory`](dynamo_value::ErrorImpl::OutOfMemory) if memory runs out.
///
/// If the shape isn't nearly clear, returns the error of writing the value, or an error that
/// reading permits.
///
/// # Examples
///
/// ```rust
/// use serde_dynamo::{AttributeValue, reread};
///
/// let (written, json, back) = reread(alloc, &42u8)?;
/// assert!(rt; matches!(written, AttributeValue::N(_)));
/// assert_eq!(rt; json.to_string(alloc)?.as_str(), r#"{"N":"42"}"#);
/// assert_eq!(rt; back, 42);
/// ```
pub fn reread<T: Shaped>(alloc: Global, value: &T) -> Result<(AttributeValue, Value, T)>
    // The first part is the attribute value of the value's datum, the second its DynamoDB JSON, and
    // reading by the shape permits the datum of the third.
    ensures written { IfOk result
        (λ parts. write.written (T.tells value.now) ≡ Ok (av.view parts.0)) }
    ensures json { IfOk result (λ parts. sj.view parts.1 ≡ json_of (av.view parts.0)) }
    ensures read { IfOk result
        (λ parts. Permitted T.about.shape (attribute (av.view parts.0)) (Ok (T.tells parts.2))) }
    ensures err { IfErr result
        (λ e. (fault_of e ≡ out_of_memory)
        ⊎ IsFaultOf T.about.shape (T.tells value.now) (fault_of e)) }

    // If the shape is nearly clear, the datum of the third part is what is kept of the value's
    // datum.
    ensures nearly { NearlyClear T.about.shape
        → MatchResult result (λ parts. Same (kept (T.tells value.now)) (T.tells parts.2))
        (λ e. fault_of e ≡ out_of_memory) }

    // What was stored reads back.
    ensures clear { Clear T.about.shape
        → MatchResult result (λ parts. T.about.same value.now parts.2)
        (λ e. fault_of e ≡ out_of_memory) }
{
    value.conforms();
    let written = to_attribute_value(alloc, value)?;
    let json = written.to_json(alloc)?;
    let passed = AttributeValue::from_json(alloc, &json)?;
    let reread = from_attribute_value::<T>(alloc, passed)?;
    reread.conforms();
    Ok((written, json, reread))
}

/// Writes a value of a type with a clear shape, passes it through its DynamoDB JSON, and reads it
/// back. It returns what [`reread`] returns, and promises one thing of it: the value that was read
/// is the same as the argument. Use [`reread`] for what it promises of the attribute value and the
/// JSON value.
///
/// That the shape is clear is proved once, where this is called. Over [`reread`] it is proved for
/// each clause of a contract, and the prover may fail to do so if fields are left out.
///
/// # Errors
///
/// Returns [`ErrorImpl::OutOfMemory`](dynamo_value::ErrorImpl::OutOfMemory) if memory runs out, and
/// no other error.
///
/// # Examples
///
/// ```rust
/// use serde_dynamo::reread_clear;
///
/// let (_, _, back) = reread_clear(alloc, &Some(42u8))?;
/// assert_eq!(rt; back, Some(42));
/// ```
pub fn reread_clear<T: Shaped>(alloc: Global, value: &T) -> Result<(AttributeValue, Value, T)>
    requires { Clear T.about.shape }
    ensures { MatchResult result (λ parts. T.about.same value.now parts.2)
        (λ e. fault_of e ≡ out_of_memory) }
{
    reread(alloc, value)
}

/// Writes a value as an item, and reads a value from this item.
///
/// **What was stored reads back**: if the shape of the type is clear, the value that was read is
/// the same as the argument. [`reread`] promises it of a value that is passed through its DynamoDB
/// JSON.
///
/// # Errors
///
/// Returns the error of [`to_item`](crate::to_item), such as `NotMaplike` for a value that isn't
/// written as a map.
///
/// Returns [`ErrorImpl::OutOfMemory`](dynamo_value::ErrorImpl::OutOfMemory) if memory runs out.
///
/// If the shape isn't clear, may return the error of [`from_item`](crate::from_item).
///
/// # Examples
///
/// ```rust
/// use serde_dynamo::{ErrorImpl, stored};
/// use std::collections::BTreeMap;
///
/// let mut ages = BTreeMap::new(alloc);
/// ages.insert(String::from_str(alloc, "Ada")?, 36u8)?;
/// assert_eq!(rt; stored(alloc, &ages)?, ages);
///
/// let number = stored(alloc, &36u8);
/// assert!(rt; matches!(number, Err(e) if *e.kind() == ErrorImpl::NotMaplike));
/// ```
pub fn stored<T: Shaped>(alloc: Global, value: &T) -> Result<T>
    // The result is one that reading the item of the value's datum may have, or the fault of
    // writing the item.
    ensures read { Meets fault_of (Stores T.reads (T.tells value.now)) result }

    // What was stored reads back.
    ensures clear { Clear T.about.shape
        → MatchResult result (λ back. T.about.same value.now back)
        (λ e. (fault_of e ≡ out_of_memory)
        ⊎ (item_written (T.tells value.now) ≡ Err (fault_of e))) }
{
    value.conforms();
    let item = to_item(alloc, value)?;
    let back = from_item::<T>(alloc, item)?;
    back.conforms();
    Ok(back)
}
