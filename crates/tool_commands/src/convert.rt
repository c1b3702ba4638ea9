ghost use Rattle.std.specs.Prelude.{◌≡◌, ℕ, List, [], ◌∷◌, ◌++◌, Result, MatchResult, string_bytes};
ghost use Rattle.std.specs.Result.{result_map_both};
ghost use Rattle.serde_json.specs.View.{view};
ghost use Rattle.dynamo_value.specs.View as av;
ghost use Rattle.tool_commands.specs.Converted.{ReadsPlain, ToDynamo, ToPlain};
ghost use Rattle.tool_commands.specs.Failed.{Failed, no_memory, reason};
ghost use Rattle.tool_commands.specs.JsonText.{OfJson};
ghost use Rattle.tool_commands.specs.Reading.{Reads, calls};

use crate::failure::Failure;
use crate::input::Input;
use crate::json::read_json;
use crate::stored::read_stored;
use dynamo_json::{plain_text, stored_text};
use dynamo_value::AttributeValue;
use serde_json::Value;
use std::alloc::Global;
use std::mem;

/// Reads plain JSON to the end of the input, and returns the line of DynamoDB JSON of the attribute
/// value that it is written as.
///
/// # Errors
///
/// Returns the error of reading the input, [`Failure::NotJson`] if it isn't JSON, and
/// [`Failure::Fault`] if it can't be written as an attribute value or if memory runs out.
pub fn to_dynamo<R: Input>(alloc: Global, reader: &mut R) -> Result<String, Failure>
    ensures { (input : Result (List ℕ) Failed)
        × Reads R.read_gives calls reader.old input reader.new
        × OfJson ToDynamo input (result_map_both string_bytes reason result) }
{
    let json = read_json(alloc, reader)?;
    dynamo_of(alloc, json)
}

// The line of the DynamoDB JSON of a JSON value.
fn dynamo_of(alloc: Global, json: Value) -> Result<String, Failure>
    ensures { ToDynamo (Ok (view json)) (result_map_both string_bytes reason result) }
{
    let line = line_of(stored_text(alloc, &json)?)?;
    // The program ends with this line.
    mem::forget(json);
    Ok(line)
}

/// Reads DynamoDB JSON of one attribute value to the end of the input, and returns the line of
/// plain JSON that the attribute value is read as.
///
/// # Errors
///
/// Returns the error of reading the input, [`Failure::NotJson`] if it isn't JSON, and
/// [`Failure::Fault`] if it is other JSON, if the attribute value isn't read as plain JSON, or if
/// memory runs out.
pub fn to_plain<R: Input>(alloc: Global, reader: &mut R) -> Result<String, Failure>
    ensures { (input : Result (List ℕ) Failed)
        × Reads R.read_gives calls reader.old input reader.new
        × OfJson ToPlain input (result_map_both string_bytes reason result) }
{
    let value = read_stored(alloc, reader)?;
    plain_of(alloc, value)
}

// The line of the plain JSON of an attribute value.
fn plain_of(alloc: Global, value: AttributeValue) -> Result<String, Failure>
    ensures { ReadsPlain (av.view value) (result_map_both string_bytes reason result) }
{
    let line = line_of(plain_text(alloc, &value)?)?;
    // The program ends with this line.
    mem::forget(value);
    Ok(line)
}

// The text and a line feed.
fn line_of(text: String) -> Result<String, Failure>
    ensures { MatchResult result (λ line. string_bytes line ≡ string_bytes text ++ 10 ∷ [])
        (λ e. reason e ≡ no_memory) }
{
    let mut line = text;
    line.push('\n')?;
    Ok(line)
}
