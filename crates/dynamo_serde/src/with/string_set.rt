//! A field that is a list of strings, as a set of strings, `SS`:
//! `#[serde(with = "dynamo_serde::string_set")]`.
ghost use Rattle.std.specs.Prelude.{OnOk};
ghost use Rattle.dynamo_ser.specs.Symbols.{strings};
ghost use Rattle.dynamo_serde.specs.Symbol.{word, a_set};
ghost use Rattle.dynamo_serde.specs.Value.{SendsUnder};

pub use super::set::deserialize;
use crate::symbol::STRING_SET;
use serde::{Case, Serialize, Serializer};

/// Writes a list of strings as a set.
///
/// # Errors
///
/// Returns the serializer's error. That of this crate returns `NotSetlike` if the value isn't a
/// list, `StringSetExpectedType` if an element isn't a string, and `OutOfMemory` if memory runs
/// out.
pub fn serialize<T: Serialize, S: Serializer>(texts: &T, out: &mut S) -> Result<(), S::Error>
    ensures { OnOk result
        (SendsUnder (word (a_set strings)) (T.writes texts.now) (S.written out.old)
        (S.written out.new)) }
{
    out.begin_map(Some(1))?;
    out.variant_key(STRING_SET, Case::AsIs)?;
    texts.serialize(out)?;
    out.end_map()
}
