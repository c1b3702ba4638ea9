//! Parts that several types share: the entries, the elements or the name that a reader finds, and
//! the error for other data.

ghost use Rattle.std.specs.Prelude.{◌≡◌, ◌⊎◌, Err, string_bytes};
ghost use Rattle.dynamo_value.specs.Fault.{out_of_memory};
ghost use Rattle.dynamo_de.specs.Answer.{Gives};
ghost use Rattle.dynamo_de.specs.Meets.{Meets, IsMessage};
ghost use Rattle.dynamo_de.specs.Reading.{taken_from, read_entries, read_identifier};
ghost use Rattle.dynamo_de.specs.Takes.{Refuses};
ghost use Rattle.dynamo_de.specs.Visitors.{claims_seq, take_elements};

use crate::impls::char_text;
use crate::{Error, Kind, Reader, Request, Showing};
use std::alloc::Global;

/// Returns the error for a kind that isn't expected, as `invalid type: string, expected a boolean`.
pub fn invalid_type<E: Error>(alloc: Global, shown: Kind, expecting: &str) -> E
    ensures { (E.fault result ≡ out_of_memory) ⊎ IsMessage {V = E} (Err (E.fault result)) }
{
    let mut text = String::new(alloc);
    let written = text.push_str("invalid type: ").is_ok()
        && text.push_str(shown.name()).is_ok()
        && text.push_str(", expected ").is_ok()
        && text.push_str(expecting).is_ok();
    if written {
        E::custom(alloc, text.as_str())
    } else {
        E::out_of_memory()
    }
}

/// Returns the error for a kind that a visitor doesn't take: a message that names what was found
/// and what was expected. If the visitor claims the kind and has no method of its own for it, it is
/// the error for out of memory.
pub(crate) fn refuse<E: Error, V>(
    alloc: Global,
    shown: Kind,
    claimed: bool,
    expecting: &str,
) -> Result<V, E>
    ensures { Meets E.fault (Refuses claimed) result }
{
    if claimed {
        return Err(E::out_of_memory());
    }
    Err(invalid_type(alloc, shown, expecting))
}

/// Asks for a map, and returns its entries.
///
/// # Errors
///
/// Returns an error with a message that names what was expected if the source holds something else.
/// Returns the reader's error if it refuses the request, or if memory runs out.
#[inline(never)]
pub fn entries_of<R: Reader>(
    alloc: Global,
    reader: R,
    expecting: &str,
) -> Result<R::Entries, R::Error>
    ensures { Meets R.Error.fault (Gives R.entries (read_entries (R.source reader))) result }
{
    match reader.show(Request::Map)? {
        Showing::Map(entries) => Ok(entries),
        other => Err(other.refused(alloc, expecting)),
    }
}

/// Asks for a sequence by this request, which is [`Request::Seq`], [`Request::Tuple`] or
/// [`Request::TupleStruct`], and returns its elements.
///
/// # Errors
///
/// Returns an error with a message that names what was expected if the source holds something else.
/// Returns the reader's error if it refuses the request, or if memory runs out.
#[inline(never)]
pub fn elements_of<R: Reader>(
    alloc: Global,
    request: Request,
    reader: R,
    expecting: &str,
) -> Result<R::Elements, R::Error>
    ensures { Meets R.Error.fault
        (Gives R.elements (taken_from claims_seq take_elements request (R.source reader))) result }
{
    match reader.show(request)? {
        Showing::Sequence(elements) => Ok(elements),
        other => Err(other.refused(alloc, expecting)),
    }
}

/// Asks for the name of a field or a variant, and returns it.
///
/// # Errors
///
/// Returns an error with a message that names what was expected if the source holds something else.
/// Returns the reader's error if it refuses the request, or if memory runs out.
pub fn identifier_of<R: Reader>(
    alloc: Global,
    reader: R,
    expecting: &str,
) -> Result<String, R::Error>
    ensures { Meets R.Error.fault (Gives string_bytes (read_identifier (R.source reader))) result }
{
    match reader.surface(Request::Identifier)? {
        Showing::Text(name) => Ok(name),
        Showing::Char(c) => char_text(alloc, c),
        Showing::FirstChar(_) => Err(R::more_than_one_char()),
        other => Err(other.refused(alloc, expecting)),
    }
}
