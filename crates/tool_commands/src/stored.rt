ghost use Rattle.std.specs.Prelude.{ℕ, List, Result};
ghost use Rattle.std.specs.Result.{result_map_both};
ghost use Rattle.dynamo_value.specs.View.{view};
ghost use Rattle.tool_commands.specs.Failed.{Failed, reason};
ghost use Rattle.tool_commands.specs.JsonText.{OfJson};
ghost use Rattle.tool_commands.specs.Reading.{Reads, calls};
ghost use Rattle.tool_commands.specs.StoredValue.{Stands};

use crate::failure::Failure;
use crate::input::Input;
use crate::read_to_end::read_to_end;
use dynamo_json::DynamoJson;
use dynamo_value::AttributeValue;
use std::alloc::Global;
use std::str;

/// Reads the input to its end, as DynamoDB JSON of one attribute value.
///
/// # Errors
///
/// Returns the error of reading the input, [`Failure::NotJson`] if it isn't UTF-8 or isn't JSON,
/// and [`Failure::Fault`] if it is other JSON or if memory runs out.
pub fn read_stored<R: Input>(alloc: Global, reader: &mut R) -> Result<AttributeValue, Failure>
    ensures { (input : Result (List ℕ) Failed)
        × Reads R.read_gives calls reader.old input reader.new
        × OfJson Stands input (result_map_both view reason result) }
{
    let bytes = read_to_end(alloc, reader)?;
    stored(alloc, bytes.as_slice())
}

// The attribute value of the bytes of a text.
fn stored(alloc: Global, bytes: &[u8]) -> Result<AttributeValue, Failure>
    ensures { OfJson Stands (Ok bytes.now) (result_map_both view reason result) }
{
    let Ok(text) = str::from_utf8(bytes) else {
        return Err(Failure::NotJson);
    };
    Ok(AttributeValue::from_json_text(alloc, text)?)
}
