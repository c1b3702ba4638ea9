ghost use Rattle.std.specs.Prelude.{IfOk, MatchOption};
ghost use Rattle.table_keys.specs.Between.{AreBounds, IsPlaceBytes};
ghost use Rattle.table_keys.specs.Ranges.{FindsNone};

use crate::{KeyValue, Place, Query, sort_bytes};
use std::alloc::{AllocError, Global};
use std::cmp::Ordering;

// What comes after the bytes of any sort key.
const BEHIND_ALL: u8 = 3;

/// The bytes of the sort keys that a query finds in its partition: those from `low` on and before
/// `high`.
#[derive(Drop)]
pub struct Bounds {
    /// The first bytes of the range.
    pub low: Vec<u8>,

    /// The first bytes after the range.
    pub high: Vec<u8>,
}

impl Bounds {
    /// Returns the bounds of the sort keys that a query finds, or `None` if it finds no key.
    ///
    /// # Errors
    ///
    /// Returns [`AllocError`] if memory runs out.
    ///
    /// # Examples
    ///
    /// ```rust
    /// use table_keys::{Bounds, KeySchema, Query, sort_bytes};
    ///
    /// let schema = KeySchema::parse(alloc, &["customer:S", "placed_at:N"])?;
    /// let key = schema.key_from(alloc, "Arthur", Some("2024"))?;
    /// let sort = sort_bytes(alloc, &key.sort)?;
    /// let found = Bounds::of_query(alloc, &Query::of(&key.partition))?;
    /// assert!(rt; matches!(found, Some(bounds) if bounds.low <= sort && sort < bounds.high));
    /// ```
    pub fn of_query(alloc: Global, query: &Query<'_>) -> Result<Option<Bounds>, AllocError>
        ensures { IfOk result
            (λ bounds. MatchOption bounds (FindsNone query.now) (AreBounds query.now)) }
    {
        let Some(range) = query.key_range(alloc)? else {
            return Ok(None);
        };
        Ok(Some(Bounds {
            low: place_bytes(alloc, query.partition, &range.low)?,
            high: place_bytes(alloc, query.partition, &range.high)?,
        }))
    }
}

// Returns the first bytes of the sort keys of a partition that come from a place on.
fn place_bytes(alloc: Global, partition: &KeyValue, place: &Place) -> Result<Vec<u8>, AllocError>
    ensures { IfOk result (λ start. IsPlaceBytes partition.now place.now start.items) }
{
    match place.key.partition.cmp(partition) {
        Ordering::Less => Ok(Vec::new(alloc)),
        Ordering::Equal if place.is_behind => {
            let mut start = sort_bytes(alloc, &place.key.sort)?;
            start.push(0)?;
            Ok(start)
        }
        Ordering::Equal => sort_bytes(alloc, &place.key.sort),
        Ordering::Greater => Ok(vec![in alloc; BEHIND_ALL]?),
    }
}
