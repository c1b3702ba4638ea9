ghost use Rattle.std.specs.Prelude.{◌≡◌, ◌⊎◌, Ok, pos, false, codes};
ghost use Rattle.serde_json.specs.View.{view};
ghost use Rattle.dynamo_value.specs.Fault.{message, out_of_memory};
ghost use Rattle.dynamo_value.specs.Kind.{fault_of};
ghost use Rattle.dynamo_write.specs.Answers.{Answers};
ghost use Rattle.dynamo_json.specs.Plain.{number, in_64_bits};

use dynamo_value::{Error, Result};
use serde_json::Value;
use std::alloc::Global;

/// The number of an `i64`.
pub fn signed(v: i64) -> Value
    ensures { number v ≡ Ok (view result) }
{
    Value::from(v)
}

/// The number of a `u64`.
pub fn unsigned(v: u64) -> Value
    ensures { number (pos v) ≡ Ok (view result) }
{
    Value::from(v)
}

/// The number of an `i128` if an `i64` or a `u64` holds it.
///
/// # Errors
///
/// Returns an `ErrorImpl::Message` `number out of range` if neither does, or
/// `ErrorImpl::OutOfMemory` if memory runs out.
pub fn wide_signed(alloc: Global, v: i128) -> Result<Value>
    ensures { Answers view (in_64_bits v ≡ false) (number v) result }
{
    if let Ok(v) = i64::try_from(v) {
        return Ok(signed(v));
    }
    match u64::try_from(v) {
        Ok(v) => Ok(unsigned(v)),
        Err(_) => Err(out_of_range(alloc)),
    }
}

/// The number of a `u128` if a `u64` holds it.
///
/// # Errors
///
/// Returns an `ErrorImpl::Message` `number out of range` if it doesn't, or `ErrorImpl::OutOfMemory`
/// if memory runs out.
pub fn wide_unsigned(alloc: Global, v: u128) -> Result<Value>
    ensures { Answers view (in_64_bits (pos v) ≡ false) (number (pos v)) result }
{
    match u64::try_from(v) {
        Ok(v) => Ok(unsigned(v)),
        Err(_) => Err(out_of_range(alloc)),
    }
}

/// JSON has no number for it.
fn out_of_range(alloc: Global) -> Error
    ensures { (fault_of result ≡ message (codes "number out of range"))
        ⊎ (fault_of result ≡ out_of_memory) }
{
    <Error as dynamo_ser::Error>::custom(alloc, "number out of range")
}
