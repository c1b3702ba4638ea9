//! A field that is a list of numbers, as a set of numbers, `NS`:
//! `#[serde(with = "dynamo_serde::number_set")]`.
ghost use Rattle.std.specs.Prelude.{OnOk};
ghost use Rattle.dynamo_ser.specs.Symbols.{numbers as number_kind};
ghost use Rattle.dynamo_serde.specs.Symbol.{word, a_set};
ghost use Rattle.dynamo_serde.specs.Value.{SendsUnder};

pub use super::set::deserialize;
use crate::symbol::NUMBER_SET;
use serde::{Case, Serialize, Serializer};

/// Writes a list of numbers as a set.
///
/// # Errors
///
/// Returns the serializer's error. That of this crate returns `NotSetlike` if the value isn't a
/// list, `NumberSetExpectedType` if an element isn't a number, and `OutOfMemory` if memory runs
/// out.
pub fn serialize<T: Serialize, S: Serializer>(numbers: &T, out: &mut S) -> Result<(), S::Error>
    ensures { OnOk result
        (SendsUnder (word (a_set number_kind)) (T.writes numbers.now) (S.written out.old)
        (S.written out.new)) }
{
    out.begin_map(Some(1))?;
    out.variant_key(NUMBER_SET, Case::AsIs)?;
    numbers.serialize(out)?;
    out.end_map()
}
