//! Finds the lines of an export that can't be read as a type.

ghost use Rattle.std.specs.Prelude.{◌≡◌, Option, Result};
ghost use Rattle.exports.specs.Lines.{Gives, limit_of};
ghost use Rattle.exports.specs.declared.lines.Line.{Line};
ghost use Rattle.exports.specs.declared.lines.LineFault.{LineFault};
ghost use Rattle.exports.specs.Checked.{Checks, ChecksLine};

use crate::{Finding, Line, Lines, Problem, item_of_text};
use dynamo_de::Deserialize;
use dynamo_place::{LocatedError, Place, from_item_located, from_item_ref_located};
use dynamo_read::from_item;
use dynamo_value::Error;
use std::alloc::Global;
use std::io::BufRead;

/// Returns the value of the next line's item, or `None` at the end.
///
/// # Errors
///
/// Returns a [`Finding`] if the line has no item, or if its item can't be read as the type. The
/// next call continues with the line after it, except after [`Fault::Read`](crate::Fault::Read). A
/// line whose item can't be read as the type is read once more, to find the place of the error.
pub fn next_value<T: Deserialize, R: BufRead>(
    alloc: Global,
    lines: &mut Lines<R>,
) -> Option<Result<T, Finding>>
    ensures value { (given : Option (Result Line LineFault))
        × Gives R.remaining lines.old lines.new given × Checks T.reads given result }
    ensures limit { limit_of lines.new ≡ limit_of lines.old }
{
    Some(match lines.next_line_and_text()? {
        Ok((line, text)) => value_in(alloc, line, text.as_slice()),
        Err(broken) => Err(Finding {
            number: broken.number,
            problem: Problem::Line(broken.fault),
        }),
    })
}

// Reads the item of a line as a value of the type, given the line's text, too.
fn value_in<T: Deserialize>(alloc: Global, line: Line, text: &[u8]) -> Result<T, Finding>
    ensures { ChecksLine T.reads line result }
{
    let Line { number, item } = line;
    match from_item(alloc, item) {
        Ok(value) => Ok(value),
        Err(error) => {
            let place = place_in::<T>(alloc, text, &error);
            let problem = Problem::Value(LocatedError { place, error });
            Err(Finding { number, problem })
        }
    }
}

// The place where reading the item of a text as the type returns this error. It is the whole if
// another error is returned, as if memory runs out.
fn place_in<T: Deserialize>(alloc: Global, text: &[u8], error: &Error) -> Place {
    match item_of_text(alloc, text) {
        Ok(item) => match from_item_located::<T>(alloc, item) {
            Ok(_value) => Place::new(),
            Err(located) => place_if_same(located, error),
        },
        Err(_) => Place::new(),
    }
}

fn place_if_same(located: LocatedError<Error>, error: &Error) -> Place {
    if located.error.kind() == error.kind() {
        located.place
    } else {
        Place::new()
    }
}

/// Reads the item of a line as a value of the type.
///
/// # Errors
///
/// Returns a [`Finding`] with the error of reading the item and its place. The error is
/// [`ErrorImpl::OutOfMemory`](dynamo_value::ErrorImpl::OutOfMemory) if memory runs out.
pub fn value_of<T: Deserialize>(alloc: Global, line: Line) -> Result<T, Finding>
    ensures { ChecksLine T.reads line result }
{
    let Line { number, item } = line;
    match from_item_ref_located(alloc, &item) {
        Ok(value) => Ok(value),
        Err(located) => Err(Finding {
            number,
            problem: Problem::Value(located),
        }),
    }
}
