ghost use Rattle.std.specs.Prelude.{◌≡◌, false, true};
ghost use Rattle.table_keys.specs.Queries.{begins_with, compared, finds, is_behind, meets};
ghost use Rattle.table_keys.specs.Queries.{meets_sort};

use crate::{Key, KeyValue};
use std::cmp::Ordering;

/// A condition on the sort key, as DynamoDB's `KeyConditionExpression` has it. Only values of the
/// condition's kind meet it.
///
/// # Examples
///
/// ```rust
/// use table_keys::{KeySchema, Query, SortCondition, TableError};
///
/// let schema = KeySchema::parse(alloc, &["customer:S", "placed_at:N"])?;
/// let low = schema.key_from(alloc, "Arthur", Some("2023"))?;
/// let high = schema.key_from(alloc, "Arthur", Some("2024"))?;
/// let from = low.sort.as_ref().ok_or(TableError::Missing)?;
/// let to = high.sort.as_ref().ok_or(TableError::Missing)?;
/// let query = Query::of(&low.partition).between(from, to);
/// assert!(rt; query.finds(&high));
/// assert!(rt; !query.finds(&schema.key_from(alloc, "Arthur", Some("2025"))?));
/// ```
#[derive(Clone, Copy, Debug)]
pub enum SortCondition<'a> {
    /// No condition. An item without a sort key meets this one alone.
    Any,

    /// `sort = :value`.
    Equal(&'a KeyValue),

    /// `sort < :value`.
    Less(&'a KeyValue),

    /// `sort <= :value`.
    LessOrEqual(&'a KeyValue),

    /// `sort > :value`.
    Greater(&'a KeyValue),

    /// `sort >= :value`.
    GreaterOrEqual(&'a KeyValue),

    /// `sort BETWEEN :low AND :high`, both included.
    Between(&'a KeyValue, &'a KeyValue),

    /// `begins_with(sort, :prefix)`, of strings and byte strings. No number begins with another.
    BeginsWith(&'a KeyValue),
}

/// A query of the items under one partition key.
///
/// # Examples
///
/// ```rust
/// use table_keys::{KeySchema, Query};
///
/// let schema = KeySchema::parse(alloc, &["customer:S", "placed_at:N"])?;
/// let key = schema.key_from(alloc, "Arthur", Some("2024"))?;
///
/// // The newest ten, and the page after that with `key`.
/// let newest = Query::of(&key.partition).newest(10);
/// assert!(rt; newest.finds(&key));
/// assert!(rt; !newest.after(&key).finds(&key));
/// ```
#[derive(Clone, Copy, Debug)]
pub struct Query<'a> {
    /// The value of the partition key.
    pub partition: &'a KeyValue,

    /// The condition on the sort key.
    pub sort: SortCondition<'a>,

    /// Whether the greatest sort key comes first, as with DynamoDB's `ScanIndexForward` false.
    pub backward: bool,

    /// The greatest number of items to return.
    pub limit: usize,

    /// The key after which the page begins: the last of the page before, or `None` for the first
    /// page.
    pub start_after: Option<&'a Key>,
}

impl<'a> Query<'a> {
    /// Returns the query of all items under a partition key, the least sort key first.
    pub fn of(partition: &'a KeyValue) -> Self
        ensures partition { result.partition.now ≡ partition.now }
        ensures all { result.sort ≡ SortCondition.Any }
        ensures forward { result.backward ≡ false }
        ensures limit { result.limit ≡ usize.MAX }
        ensures start { result.start_after ≡ None }
    {
        Query {
            partition,
            sort: SortCondition::Any,
            backward: false,
            limit: usize::MAX,
            start_after: None,
        }
    }

    /// Returns this query with the condition that the sort key begins with a string or a byte
    /// string.
    ///
    /// # Examples
    ///
    /// ```rust
    /// use table_keys::{KeyValue, Query};
    ///
    /// let customer = KeyValue::S(String::from_str(alloc, "Arthur")?);
    /// let prefix = KeyValue::S(String::from_str(alloc, "order#")?);
    /// let orders = Query::of(&customer).begins_with(&prefix).newest(5);
    /// assert!(rt; orders.backward);
    /// assert_eq!(rt; orders.limit, 5);
    /// ```
    pub fn begins_with(self, prefix: &'a KeyValue) -> Self
        ensures { result ≡ record self.entry { sort = SortCondition.BeginsWith prefix.entry } }
    {
        Query {
            sort: SortCondition::BeginsWith(prefix),
            ..self
        }
    }

    /// Returns this query with the condition that the sort key is between two values, both
    /// included.
    pub fn between(self, low: &'a KeyValue, high: &'a KeyValue) -> Self
        ensures { result ≡ record self.entry
            { sort = SortCondition.Between low.entry high.entry } }
    {
        Query {
            sort: SortCondition::Between(low, high),
            ..self
        }
    }

    /// Returns the query of the last `count` of these items at most, the greatest sort key first.
    pub fn newest(self, count: usize) -> Self
        ensures { result ≡ record self.entry { backward = true; limit = count } }
    {
        Query {
            backward: true,
            limit: count,
            ..self
        }
    }

    /// Returns the query of the page after the one that ends with this key.
    pub fn after(self, key: &'a Key) -> Self
        ensures { result ≡ record self.entry { start_after = Some key.entry } }
    {
        Query {
            start_after: Some(key),
            ..self
        }
    }

    /// Returns whether the query finds the item under this key. The limit isn't considered.
    pub fn finds(&self, key: &Key) -> bool
        ensures { result ≡ finds self.now key.now }
    {
        key.partition.cmp(self.partition).is_eq()
            && self.sort.is_met_by(&key.sort)
            && is_behind(self.backward, self.start_after, key)
    }
}

impl SortCondition<'_> {
    // Whether the value of a sort key, or none, meets the condition.
    fn is_met_by(&self, sort: &Option<KeyValue>) -> bool
        ensures { result ≡ meets_sort self.now sort.now }
    {
        match sort {
            Some(value) => self.holds(value),
            None => matches!(self, SortCondition::Any),
        }
    }

    // Whether a value meets the condition.
    fn holds(&self, value: &KeyValue) -> bool
        ensures { result ≡ meets self.now value.now }
    {
        match self {
            SortCondition::Any => true,
            SortCondition::Equal(bound) => compared(value, bound).is_some_and(|o| o.is_eq()),
            SortCondition::Less(bound) => compared(value, bound).is_some_and(|o| o.is_lt()),
            SortCondition::LessOrEqual(bound) => compared(value, bound).is_some_and(|o| o.is_le()),
            SortCondition::Greater(bound) => compared(value, bound).is_some_and(|o| o.is_gt()),
            SortCondition::GreaterOrEqual(bound) => {
                compared(value, bound).is_some_and(|o| o.is_ge())
            }
            SortCondition::Between(low, high) => {
                compared(value, low).is_some_and(|o| o.is_ge())
                    && compared(value, high).is_some_and(|o| o.is_le())
            }
            SortCondition::BeginsWith(prefix) => begins_with(value, prefix),
        }
    }
}

// How two values of one kind compare.
fn compared(value: &KeyValue, other: &KeyValue) -> Option<Ordering>
    ensures { result ≡ compared value.now other.now }
{
    if value.rank() == other.rank() {
        Some(value.cmp(other))
    } else {
        None
    }
}

// Whether a text or a byte string begins with another.
pub(crate) fn begins_with(value: &KeyValue, prefix: &KeyValue) -> bool
    ensures { result ≡ begins_with value.now prefix.now }
{
    match (value, prefix) {
        (KeyValue::S(text), KeyValue::S(prefix)) => {
            text.as_str()
                .as_bytes()
                .starts_with(prefix.as_str().as_bytes())
        }
        (KeyValue::B(bytes), KeyValue::B(prefix)) => {
            bytes.as_slice().starts_with(prefix.as_slice())
        }
        _ => false,
    }
}

/// Returns whether a key is after `start` in a direction. If `start` is `None`, each key is.
pub fn is_behind(backward: bool, start: Option<&Key>, key: &Key) -> bool
    ensures { result ≡ is_behind backward start.entry key.now }
{
    match start {
        None => true,
        Some(start) => {
            if backward {
                key.cmp(start).is_lt()
            } else {
                start.cmp(key).is_lt()
            }
        }
    }
}
