ghost use Rattle.dynamo_de.specs.Answer.{Gives};
ghost use Rattle.dynamo_de.specs.Ignored.{read_ignored, ignore_sources};
ghost use Rattle.dynamo_de.specs.Ignored.{ignore_entries as ignored_entries};
ghost use Rattle.dynamo_de.specs.Meets.{Meets};

use crate::{Deserialize, Deserializer, Inside, Reader};
use std::alloc::Global;

/// Any data, read and dropped. All data inside it is read in the same way, and its first error is
/// the error.
///
/// # Examples
///
/// ```rust
/// use serde_dynamo::de::IgnoredAny;
/// use serde_dynamo::{AttributeValue, from_attribute_value};
///
/// let value = AttributeValue::Bool(true);
/// assert_eq!(rt; from_attribute_value::<IgnoredAny>(alloc, value)?, IgnoredAny);
/// ```
#[derive(Clone, Copy, Debug, Drop, PartialEq, Eq)]
pub struct IgnoredAny;

impl Deserialize for IgnoredAny {
    ghost reads = { λ s. Gives (λ _. tt) (read_ignored s) };

    fn deserialize<D: Deserializer>(
        _alloc: Global,
        deserializer: D,
    ) -> Result<IgnoredAny, D::Error> {
        ignore(deserializer)?;
        Ok(IgnoredAny)
    }
}

/// Reads a source and drops it.
#[cycle(ignore)]
#[tactic(auto, using(crate::proofs::Ignored::ignored_as_inside))]
fn ignore<R: Reader>(reader: R) -> Result<(), R::Error>
    ensures { Meets R.Error.fault (Gives (λ u. u) (read_ignored (R.source reader))) result }
{
    match reader.inside()? {
        Inside::Nothing => Ok(()),
        Inside::Elements(elements) => ignore_elements::<R>(elements),
        Inside::Entries(entries) => ignore_entries::<R>(entries),
    }
}

#[cycle(ignore)]
fn ignore_elements<R: Reader>(mut elements: R::Elements) -> Result<(), R::Error>
    ensures { Meets R.Error.fault (Gives (λ u. u) (ignore_sources (R.elements elements))) result }
{
    while let Some(element) = R::next_element(&mut elements) {
        ignore(element)?;
    }
    Ok(())
}

#[cycle(ignore)]
fn ignore_entries<R: Reader>(mut entries: R::Entries) -> Result<(), R::Error>
    ensures { Meets R.Error.fault (Gives (λ u. u) (ignored_entries (R.entries entries))) result }
{
    while let Some((_key, value)) = R::next_entry(&mut entries) {
        ignore(value)?;
    }
    Ok(())
}
