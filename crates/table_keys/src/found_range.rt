//! The range of the keys that a query finds.
ghost use Rattle.std.specs.BTreeMap.Range.{IsLeBy, IsLtBy, range_contains};
ghost use Rattle.std.specs.Prelude.{◌≡◌, false, IfOk, MatchOption, not, ◌&&◌};
ghost use Rattle.std.specs.Range.Bound.{IsForward, bound_map};
ghost use Rattle.table_keys.specs.KeyOrder.{key_cmp};
ghost use Rattle.table_keys.specs.declared.key.Key.{Key};
ghost use Rattle.table_keys.specs.Places.{is_from_place};
ghost use Rattle.table_keys.specs.Ranges.{FindsBetween, FindsNone, IsEndIn, IsNextValue, IsPlaceIn};
ghost use Rattle.table_keys.specs.Ranges.{is_found_between, lies_between};

use crate::key_range::KeyRange;
use crate::place::Place;
use crate::sort_range::SortPlace;
use crate::{Key, KeyValue, Number, Query};
use std::alloc::{AllocError, Global};
use std::ops::Bound;

impl Query<'_> {
    /// Returns the range of the keys that the query finds, or `None` if it finds no key.
    ///
    /// The query finds each key in the range that a table can hold, and no other key. The range of
    /// a condition without a greatest value ends before the first value of the next kind. That of a
    /// prefix ends before the least value above all that begin with it, and that of the whole
    /// partition before the first key of the next one.
    ///
    /// # Errors
    ///
    /// Returns [`AllocError`] if memory runs out.
    pub fn key_range(&self, alloc: Global) -> Result<Option<KeyRange>, AllocError>
        ensures { IfOk result
            (λ range. MatchOption range (FindsNone self.now) (FindsBetween self.now)) }
    {
        let Some(sorts) = self.sort.range(alloc)? else {
            return Ok(None);
        };
        let low = self.place_in(sorts.low)?;
        let high = self.end_in(alloc, sorts.high)?;
        self.narrowed(low, high)
    }

    // Returns the place of the query's partition that is at this place of its sort keys.
    fn place_in(&self, sort: SortPlace) -> Result<Place, AllocError>
        ensures { IfOk result (IsPlaceIn self.now.partition.now sort) }
    {
        Ok(Place {
            key: Key {
                partition: self.partition.clone()?,
                sort: sort.value,
            },
            is_behind: sort.is_behind,
        })
    }

    // Returns the place of the query's partition at an end of its sort keys. At the end of all,
    // that is the place before the partition that comes next.
    fn end_in(&self, alloc: Global, end: Option<SortPlace>) -> Result<Place, AllocError>
        ensures { IfOk result (IsEndIn self.now.partition.now end) }
    {
        match end {
            Some(sort) => self.place_in(sort),
            None => Ok(Place {
                key: Key {
                    partition: next_value(alloc, self.partition)?,
                    sort: None,
                },
                is_behind: false,
            }),
        }
    }

    // Returns the range between two places, narrowed by the key after which the query starts.
    fn narrowed(&self, low: Place, high: Place) -> Result<Option<KeyRange>, AllocError>
        ensures { IfOk result (λ range. MatchOption range
            ((key : Key) → is_found_between self.now low high key ≡ false)
            (λ r. (key : Key) → is_found_between self.now low high key ≡ lies_between r key)) }
    {
        match self.start_after {
            Some(start) if self.backward => {
                Ok(KeyRange::between(low, high.min(Place::at(start, false)?)))
            }
            Some(start) => Ok(KeyRange::between(low.max(Place::at(start, true)?), high)),
            None => Ok(KeyRange::between(low, high)),
        }
    }
}

impl KeyRange {
    // Returns the range between two places, or `None` if no key lies between them.
    #[tactic(auto, using(crate::proofs::Narrowed::nothing_between))]
    fn between(low: Place, high: Place) -> Option<KeyRange>
        ensures { MatchOption result
            ((key : Key) → (is_from_place low key && not (is_from_place high key)) ≡ false)
            (λ range. (key : Key)
            → (is_from_place low key && not (is_from_place high key)) ≡ lies_between range key) }
    {
        if low.cmp(&high).is_lt() {
            Some(KeyRange { low, high })
        } else {
            None
        }
    }

    /// Returns the range as the bounds that `BTreeMap::range` takes.
    pub fn bounds(&self) -> (Bound<&Key>, Bound<&Key>)
        ensures between { (key : Key) → range_contains key_cmp (bound_map (λ x. x.now) result.0)
            (bound_map (λ x. x.now) result.1) key ≡ lies_between self.now key }
        ensures forward { IsForward (IsLeBy key_cmp) (IsLtBy key_cmp)
            (bound_map (λ x. x.now) result.0) (bound_map (λ x. x.now) result.1) }
    {
        let low = &self.low.key;
        let high = &self.high.key;
        match (self.low.is_behind, self.high.is_behind) {
            (false, false) => (Bound::Included(low), Bound::Excluded(high)),
            (false, true) => (Bound::Included(low), Bound::Included(high)),
            (true, false) => (Bound::Excluded(low), Bound::Excluded(high)),
            (true, true) => (Bound::Excluded(low), Bound::Included(high)),
        }
    }
}

// Returns the value that comes next to a value, so that none lies between them: a string or a byte
// string with a zero byte added, and the next number. After the greatest number come the byte
// strings.
#[tactic(auto, using(crate::proofs::NextValues::zero_added))]
fn next_value(alloc: Global, value: &KeyValue) -> Result<KeyValue, AllocError>
    ensures { IfOk result (IsNextValue value.now) }
{
    match value {
        KeyValue::S(text) => {
            let mut next = text.clone()?;
            next.push('\0')?;
            Ok(KeyValue::S(next))
        }
        KeyValue::N(number) => match number.next() {
            Some(next) => Ok(KeyValue::N(next)),
            None => Ok(KeyValue::B(Vec::new(alloc))),
        },
        KeyValue::B(bytes) => {
            let mut next = Vec::from_slice(*bytes.allocator(), bytes.as_slice())?;
            next.push(0)?;
            Ok(KeyValue::B(next))
        }
    }
}
