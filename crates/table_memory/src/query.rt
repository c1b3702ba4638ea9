ghost use Rattle.std.specs.Prelude.{◌≡◌, [], ◌∷◌, IfOk, MatchOption, take};
ghost use Rattle.std.specs.BTreeMap.Range.{IsLeBy, IsLtBy, entries_between};
ghost use Rattle.std.specs.Range.Bound.{IsForward, bound_map};
ghost use Rattle.table_memory.specs.Content.{entries_of};
ghost use Rattle.table_keys.specs.KeyOrder.{key_cmp};
ghost use Rattle.table_keys.specs.Queries.{answer, in_direction, rest, seen};

use crate::Table;
use dynamo_value::Item;
use std::alloc::{AllocError, Global};
use std::collections::btree_map::Range;
use std::ops::Bound;
use table_keys::{Key, Query};

// A table of so few items is searched whole, which takes no memory for the ends of a range.
const FEW: usize = 8;

impl Table {
    /// Returns the items that a query finds, with their keys.
    ///
    /// The items are those of a range of the keys, from the end at which the query begins, up to
    /// its limit. Finding the range takes the logarithm of the number of items.
    ///
    /// # Errors
    ///
    /// Returns [`AllocError`] if memory runs out. A table of at most eight items allocates no
    /// memory but that of the result.
    ///
    /// # Examples
    ///
    /// ```rust
    /// use serde_dynamo::{DynamoJson, Item};
    /// use table_memory::{KeySchema, Query, Table};
    ///
    /// let schema = KeySchema::parse(alloc, &["customer:S", "placed_at:N"])?;
    /// let mut orders = Table::new(alloc, schema);
    /// for year in ["2023", "2024"] {
    ///     let text = format!(in alloc;
    ///         "{{\"customer\": {{\"S\": \"Arthur\"}}, \"placed_at\": {{\"N\": \"{year}\"}}}}")?;
    ///     orders.put(Item::from_json_text(alloc, text.as_str())?)?;
    /// }
    ///
    /// let key = orders.schema().key_from(alloc, "Arthur", Some("2024"))?;
    /// let newest = Query { backward: true, limit: 1, ..Query::of(&key.partition) };
    /// let found = orders.query(alloc, &newest)?;
    /// assert!(rt; matches!(found.as_slice(), [(found_key, _)] if **found_key == key));
    /// ```
    pub fn query(&self, alloc: Global, query: &Query<'_>) -> Result<Vec<(&Key, &Item)>, AllocError>
        ensures { IfOk result (λ found. seen found.items ≡ answer query.now (entries_of self.now)) }
    {
        if self.len() <= FEW {
            return self.found_among_few(alloc, query);
        }
        let Some(range) = query.key_range(alloc)? else {
            return Ok(Vec::new(alloc));
        };
        let (low, high) = range.bounds();
        self.between(alloc, low, high, query.backward, query.limit)
    }

    // Returns the items that a query finds, by asking it of each item.
    fn found_among_few(
        &self,
        alloc: Global,
        query: &Query<'_>,
    ) -> Result<Vec<(&Key, &Item)>, AllocError>
        ensures { IfOk result (λ found. seen found.items ≡ answer query.now (entries_of self.now)) }
    {
        let mut found = Vec::new(alloc);
        for (key, item) in self.items.iter() {
            if query.finds(key) {
                found.push((key, item))?;
            }
        }
        if query.backward {
            found.reverse();
        }
        found.truncate(query.limit);
        Ok(found)
    }

    // Returns the first items between two bounds in a direction, at most `limit`.
    fn between(
        &self,
        alloc: Global,
        low: Bound<&Key>,
        high: Bound<&Key>,
        backward: bool,
        limit: usize,
    ) -> Result<Vec<(&Key, &Item)>, AllocError>
        requires { IsForward (IsLeBy key_cmp) (IsLtBy key_cmp) (bound_map (λ x. x.now) low)
            (bound_map (λ x. x.now) high) }
        ensures { IfOk result
            (λ page. seen page.items
            ≡ take limit
            (in_direction backward
            (entries_between key_cmp (bound_map (λ x. x.now) low.entry)
            (bound_map (λ x. x.now) high.entry) (entries_of self.now)))) }
    {
        let mut page = Vec::new(alloc);
        let mut left = self.items.range((low, high));
        while let Some((key, item)) = next_of(&mut left, backward) {
            if page.len() == limit {
                return Ok(page);
            }
            page.push((key, item))?;
        }
        Ok(page)
    }

    /// Returns a page of all items: those after `start_after`, in the order of their keys, at
    /// most `limit`. The next page starts after the last key of this one.
    ///
    /// # Errors
    ///
    /// Returns [`AllocError`] if memory runs out.
    ///
    /// # Examples
    ///
    /// ```rust
    /// use serde_dynamo::{DynamoJson, Item};
    /// use table_memory::{KeySchema, Table};
    ///
    /// let mut users = Table::new(alloc, KeySchema::parse(alloc, &["name:S"])?);
    /// for text in [r#"{"name": {"S": "Arthur"}}"#, r#"{"name": {"S": "Ford"}}"#] {
    ///     users.put(Item::from_json_text(alloc, text)?)?;
    /// }
    ///
    /// let first = users.scan(alloc, 1, None)?;
    /// let last = first.as_slice().last().map(|(key, _)| *key);
    /// let second = users.scan(alloc, 1, last)?;
    /// assert_eq!(rt; second.len(), 1);
    /// ```
    pub fn scan(
        &self,
        alloc: Global,
        limit: usize,
        start_after: Option<&Key>,
    ) -> Result<Vec<(&Key, &Item)>, AllocError>
        ensures { IfOk result
            (λ page. seen page.items ≡ take limit (rest start_after.entry (entries_of self.now))) }
    {
        let low = match start_after {
            Some(key) => Bound::Excluded(key),
            None => Bound::Unbounded,
        };
        self.between(alloc, low, Bound::Unbounded, false, limit)
    }

    /// Returns all items with their keys, each once, in the order of the keys. It reads page by
    /// page, each of at most `limit` items, and at least one.
    ///
    /// # Errors
    ///
    /// Returns [`AllocError`] if memory runs out.
    #[tactic(auto, using(crate::proofs::Scans::rest_of_all))]
    pub fn scan_all(&self, alloc: Global, limit: usize) -> Result<Vec<(&Key, &Item)>, AllocError>
        ensures { IfOk result (λ all. seen all.items ≡ entries_of self.now) }
    {
        let mut all = Vec::with_capacity(alloc, self.len())?;
        let mut start: Option<&Key> = None;
        loop {
            let mut page = self.scan(alloc, limit.max(1), start)?;
            let Some(((key, _), _)) = page.as_slice().split_last() else {
                return Ok(all);
            };
            start = Some(*key);
            all.append(&mut page)?;
        }
    }
}

// Takes the first item that is left in a direction.
fn next_of<'a>(left: &mut Range<'a, Key, Item>, backward: bool) -> Option<(&'a Key, &'a Item)>
    ensures { MatchOption result (in_direction backward left.old ≡ [])
        (λ e. in_direction backward left.old
        ≡ (e.0.now, e.1.now) ∷ in_direction backward left.new) }
{
    if backward {
        left.next_back()
    } else {
        left.next()
    }
}
