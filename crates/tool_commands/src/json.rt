ghost use Rattle.std.specs.Prelude.{◌≡◌, ℕ, List, Result, MatchResult, string_bytes};
ghost use Rattle.std.specs.Result.{result_map_both};
ghost use Rattle.serde_json.specs.View.{view};
ghost use Rattle.dynamo_value.specs.Fault.{out_of_memory};
ghost use Rattle.dynamo_value.specs.Kind.{fault_of};
ghost use Rattle.dynamo_value.specs.View as av;
ghost use Rattle.dynamo_json.specs.Json.{json_of};
ghost use Rattle.tool_commands.specs.Failed.{Failed, reason};
ghost use Rattle.tool_commands.specs.JsonText as text;
ghost use Rattle.tool_commands.specs.JsonText.{ReadsJson};
ghost use Rattle.tool_commands.specs.Reading.{Reads, calls};

use crate::failure::Failure;
use crate::input::Input;
use crate::read_to_end::read_to_end;
use dynamo_json::DynamoJson;
use dynamo_value::AttributeValue;
use serde_json::Value;
use std::alloc::{AllocError, Global};

/// Reads the input to its end, as one JSON text.
///
/// # Errors
///
/// Returns the error of reading the input, [`Failure::NotJson`] if it isn't UTF-8 or isn't JSON,
/// and [`Failure::Fault`] if memory runs out.
pub fn read_json<R: Input>(alloc: Global, reader: &mut R) -> Result<Value, Failure>
    ensures { (input : Result (List ℕ) Failed)
        × Reads R.read_gives calls reader.old input reader.new
        × ReadsJson input (result_map_both view reason result) }
{
    let bytes = read_to_end(alloc, reader)?;
    parse(alloc, bytes.as_slice())
}

fn parse(alloc: Global, bytes: &[u8]) -> Result<Value, Failure>
    ensures { ReadsJson (Ok bytes.now) (result_map_both view reason result) }
{
    match Value::from_slice(alloc, bytes) {
        Ok(json) => Ok(json),
        Err(error) if error.is_memory() => Err(Failure::from(AllocError)),
        Err(_) => Err(Failure::NotJson),
    }
}

/// Returns the line of an attribute value: the text of its DynamoDB JSON.
///
/// # Errors
///
/// Returns [`ErrorImpl::OutOfMemory`](dynamo_value::ErrorImpl::OutOfMemory) if memory runs out.
pub fn dynamo_line(alloc: Global, value: &AttributeValue) -> dynamo_value::Result<String>
    ensures { MatchResult result
        (λ line. string_bytes line ≡ text.json_line (json_of (av.view value.now)))
        (λ e. fault_of e ≡ out_of_memory) }
{
    let mut line = value.to_json_text(alloc)?;
    line.push('\n')?;
    Ok(line)
}
