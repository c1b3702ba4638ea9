//! The sort keys that meet a condition, as those between two places of their order.
ghost use Rattle.std.specs.Prelude.{◌≡◌, IfOk, MatchOption, Option, Some, false, true};
ghost use Rattle.table_keys.specs.declared.key.KeyValue.{KeyValue};
ghost use Rattle.table_keys.specs.declared.query.SortCondition.{SortCondition};
ghost use Rattle.table_keys.specs.Ranges.{IsKindEnd, IsKindStart, IsPlaceAt, MeetsBetween};
ghost use Rattle.table_keys.specs.Ranges.{MeetsNone, is_from_sort};

use crate::prefix::{bytes_past, text_past};
use crate::{KeyValue, Number, SortCondition};
use std::alloc::{AllocError, Global};

/// A place among the sort keys of a partition: just before a sort key, or just after it. A key
/// without a sort value comes before all others.
#[derive(Drop)]
pub(crate) struct SortPlace {
    pub value: Option<KeyValue>,
    pub is_behind: bool,
}

/// The sort keys from a place up to another, or up to the end of the partition.
#[derive(Drop)]
pub(crate) struct SortRange {
    pub low: SortPlace,
    pub high: Option<SortPlace>,
}

impl SortCondition<'_> {
    /// Returns the range of the sort keys that meet the condition, or `None` if no sort key can
    /// meet it: `BETWEEN` two values of different kinds, or a prefix that is a number.
    ///
    /// # Errors
    ///
    /// Returns [`AllocError`] if memory runs out.
    pub(crate) fn range(self, alloc: Global) -> Result<Option<SortRange>, AllocError>
        ensures { IfOk result
            (λ range. MatchOption range (MeetsNone self.entry) (MeetsBetween self.entry)) }
    {
        match self {
            SortCondition::Any => Ok(Some(SortRange {
                low: SortPlace::first(),
                high: None,
            })),
            SortCondition::Equal(value) => Ok(Some(SortRange {
                low: SortPlace::at(value, false)?,
                high: Some(SortPlace::at(value, true)?),
            })),
            SortCondition::Less(value) => Ok(Some(SortRange {
                low: SortPlace::of_kind(alloc, value),
                high: Some(SortPlace::at(value, false)?),
            })),
            SortCondition::LessOrEqual(value) => Ok(Some(SortRange {
                low: SortPlace::of_kind(alloc, value),
                high: Some(SortPlace::at(value, true)?),
            })),
            SortCondition::Greater(value) => Ok(Some(SortRange {
                low: SortPlace::at(value, true)?,
                high: SortPlace::past_kind(alloc, value),
            })),
            SortCondition::GreaterOrEqual(value) => Ok(Some(SortRange {
                low: SortPlace::at(value, false)?,
                high: SortPlace::past_kind(alloc, value),
            })),
            SortCondition::Between(low, high) if low.rank() == high.rank() => Ok(Some(SortRange {
                low: SortPlace::at(low, false)?,
                high: Some(SortPlace::at(high, true)?),
            })),
            SortCondition::Between(..) => Ok(None),
            SortCondition::BeginsWith(prefix) => prefixed(alloc, prefix),
        }
    }
}

// Returns the range of the values that begin with a prefix, or `None` if the prefix is a number.
fn prefixed(alloc: Global, prefix: &KeyValue) -> Result<Option<SortRange>, AllocError>
    ensures { IfOk result
        (λ range. MatchOption range (MeetsNone (SortCondition.BeginsWith prefix.entry))
        (MeetsBetween (SortCondition.BeginsWith prefix.entry))) }
{
    let low = SortPlace::at(prefix, false)?;
    match prefix {
        KeyValue::S(text) => match text_past(text)? {
            Some(past) => Ok(Some(SortRange {
                low,
                high: Some(SortPlace::first_at(KeyValue::S(past))),
            })),
            None => Ok(Some(SortRange {
                low,
                high: SortPlace::past_kind(alloc, prefix),
            })),
        },
        KeyValue::N(_) => Ok(None),
        KeyValue::B(bytes) => match bytes_past(bytes)? {
            Some(past) => Ok(Some(SortRange {
                low,
                high: Some(SortPlace::first_at(KeyValue::B(past))),
            })),
            None => Ok(Some(SortRange {
                low,
                high: SortPlace::past_kind(alloc, prefix),
            })),
        },
    }
}

impl SortPlace {
    // Returns the place before all sort keys.
    fn first() -> SortPlace
        ensures { (sort : Option KeyValue) → is_from_sort result sort ≡ true }
    {
        SortPlace {
            value: None,
            is_behind: false,
        }
    }

    // Returns the place just before this value.
    fn first_at(value: KeyValue) -> SortPlace
        ensures { (result.value ≡ Some value) × (result.is_behind ≡ false) }
    {
        SortPlace {
            value: Some(value),
            is_behind: false,
        }
    }

    // Returns the place just before a value, or just after it.
    #[tactic(auto, using(crate::proofs::Meets::equal_values))]
    fn at(value: &KeyValue, is_behind: bool) -> Result<SortPlace, AllocError>
        ensures { IfOk result (IsPlaceAt is_behind value.now) }
    {
        Ok(SortPlace {
            value: Some(value.clone()?),
            is_behind,
        })
    }

    // Returns the place before all values of the value's kind: before the empty string, the least
    // number or the empty byte string.
    fn of_kind(alloc: Global, value: &KeyValue) -> SortPlace
        ensures { IsKindStart value.now result }
    {
        let least = match value {
            KeyValue::S(_) => KeyValue::S(String::new(alloc)),
            KeyValue::N(_) => KeyValue::N(Number::least()),
            KeyValue::B(_) => KeyValue::B(Vec::new(alloc)),
        };
        SortPlace::first_at(least)
    }

    // Returns the place before all values of the next kind, or `None` after the byte strings,
    // which are the last.
    fn past_kind(alloc: Global, value: &KeyValue) -> Option<SortPlace>
        ensures { IsKindEnd value.now result }
    {
        let first = match value {
            KeyValue::S(_) => KeyValue::N(Number::least()),
            KeyValue::N(_) => KeyValue::B(Vec::new(alloc)),
            KeyValue::B(_) => return None,
        };
        Some(SortPlace::first_at(first))
    }
}
