ghost use Rattle.std.specs.Prelude.{ℕ, List, Result, string_bytes};
ghost use Rattle.std.specs.Result.{result_map_both};
ghost use Rattle.tool_commands.specs.Checked.{ChecksJson};
ghost use Rattle.tool_commands.specs.Failed.{Failed, reason};
ghost use Rattle.tool_commands.specs.JsonText.{OfJson};
ghost use Rattle.tool_commands.specs.Reading.{Reads, calls};

use crate::failure::Failure;
use crate::input::Input;
use crate::json::dynamo_line;
use crate::stored::read_stored;
use std::alloc::Global;
use std::mem;

/// Reads DynamoDB JSON of one attribute value to the end of the input, and returns the line of its
/// compact form.
///
/// # Errors
///
/// Returns the error of reading the input, [`Failure::NotJson`] if it isn't JSON, and
/// [`Failure::Fault`] if it is other JSON or if memory runs out.
pub fn check<R: Input>(alloc: Global, reader: &mut R) -> Result<String, Failure>
    ensures { (input : Result (List ℕ) Failed)
        × Reads R.read_gives calls reader.old input reader.new
        × OfJson ChecksJson input (result_map_both string_bytes reason result) }
{
    let value = read_stored(alloc, reader)?;
    let line = dynamo_line(alloc, &value)?;
    // The program ends with this line.
    mem::forget(value);
    Ok(line)
}
