ghost use Rattle.std.specs.Prelude.{◌≡◌, ◌⊎◌, ◌↔◌, [], None, true, length, is_some, option_map};
ghost use Rattle.std.specs.Prelude.{IsTrue};
ghost use Rattle.std.specs.Prelude.{IfOk, IfErr, OnOk, OnErr, MatchOption, MatchResult};
ghost use Rattle.std.specs.BTreeMap.{get, Updates};
ghost use Rattle.dynamo_value.specs.Fault.{out_of_memory};
ghost use Rattle.dynamo_value.specs.Kind.{fault_of};
ghost use Rattle.table_keys.specs.KeyOf.{SaysKey, words_of};
ghost use Rattle.table_keys.specs.KeyOrder.{key_cmp};
ghost use Rattle.table_keys.specs.Conditions.{holds};
ghost use Rattle.table_keys.specs.Queries.{answer};
ghost use Rattle.table_memory.specs.Content.{entries_of, items_of, schema_of};
ghost use Rattle.table_typed.specs.Stored.{DeletesIf, FailsCondition, FailsToPut, FailsToRead};
ghost use Rattle.table_typed.specs.Stored.{Holds, IsKeyOf};
ghost use Rattle.table_typed.specs.Stored.{OthersStay, ReadEach, ReadsAt, page, table_of};
ghost use Rattle.dynamo_place.specs.Placed.{without_place};
ghost use Rattle.table_typed.specs.Updated.{FailsToUpdate, UpdatesValue};

use crate::change::{Failed, changed};
use crate::item::values_of;
use crate::located::{place_among, place_of_error};
use crate::{AsItem, Keyed, TypedTableError};
use dynamo_place::{LocatedError, Place};
use dynamo_value::{Error, Result};
use std::alloc::{AllocError, Global};
use std::marker::PhantomData;
use table_keys::{Condition, Key, Query, TableError};
use table_memory::Table;

/// A table in memory of values of one type, each an item under its key.
///
/// # Examples
///
/// ```rust
/// # use serde::{Deserialize, Serialize};
/// # use serde_dynamo::{Item, Result};
/// # use std::alloc::{AllocError, Global};
/// # use table_memory::{KeyAttribute, KeyKind, KeySchema};
/// # use table_typed::{AsItem, Keyed};
/// use table_memory::{Condition, Query};
/// use table_typed::TypedTable;
///
/// #[derive(Drop, Serialize, Deserialize)]
/// struct Room {
///     hotel: String,
///     number: u16,
///     beds: u8,
/// }
///
/// # impl AsItem for Room {
/// #     fn to_item(&self, alloc: Global) -> Result<Item> {
/// #         dynamo_serde::to_item(alloc, self)
/// #     }
/// #
/// #     fn read_item(alloc: Global, item: &Item) -> Result<Room> {
/// #         dynamo_serde::read_item(alloc, item)
/// #     }
/// # }
/// #
/// # impl Keyed for Room {
/// #     fn key_schema(alloc: Global) -> std::result::Result<KeySchema, AllocError> {
/// #         let name = String::from_str(alloc, "hotel")?;
/// #         let partition = KeyAttribute { name, kind: KeyKind::S };
/// #         let name = String::from_str(alloc, "number")?;
/// #         let sort = Some(KeyAttribute { name, kind: KeyKind::N });
/// #         Ok(KeySchema { partition, sort })
/// #     }
/// # }
/// #
/// let mut rooms = TypedTable::new(alloc)?;
/// for number in [101, 102] {
///     rooms.put(&Room { hotel: String::from_str(alloc, "Sea")?, number, beds: 2 })?;
/// }
///
/// // `number` is a sort key, so a key has two parts.
/// let key = rooms.key_from("Sea", Some("101"))?;
/// rooms.update::<anyhow::Error, _>(&key, |mut room| {
///     room.beds = 3;
///     Ok(room)
/// })?;
/// assert!(rt; matches!(rooms.get(&key)?, Some(room) if room.beds == 3));
///
/// let found = rooms.query(&Query::of(&key.partition))?;
/// assert!(rt; matches!(found.as_slice(), [a, b] if a.number == 101 && b.beds == 2));
///
/// let again = Room { hotel: String::from_str(alloc, "Sea")?, number: 101, beds: 1 };
/// assert!(rt; rooms.put_if(Condition::NotExists, &again).is_err());
/// assert!(rt; rooms.delete(&key));
/// ```
#[derive(Drop)]
pub struct TypedTable<T> {
    alloc: Global,
    table: Table,
    values: PhantomData<T>,
}

impl<T: AsItem + Keyed> TypedTable<T> {
    /// Returns an empty table whose key is that of the type. Its items, and the values that it
    /// returns, are allocated in `alloc`.
    ///
    /// # Errors
    ///
    /// Returns [`AllocError`] if memory runs out for the names of the key.
    pub fn new(alloc: Global) -> std::result::Result<Self, AllocError>
        ensures empty { IfOk result (λ t. entries_of (table_of t) ≡ []) }
        ensures schema { IfOk result (λ t. T.keyed_by (words_of (schema_of (table_of t)))) }
    {
        let schema = T::key_schema(alloc)?;
        Ok(TypedTable {
            alloc,
            table: Table::new(alloc, schema),
            values: PhantomData,
        })
    }

    /// Returns the table of the items.
    pub fn items(&self) -> &Table
        ensures { result.now ≡ table_of self.now }
    {
        &self.table
    }

    /// Returns the number of values.
    pub fn len(&self) -> usize
        ensures { result ≡ length (entries_of (table_of self.now)) }
    {
        self.table.len()
    }

    /// Returns whether the table is empty.
    pub fn is_empty(&self) -> bool
        ensures { IsTrue result ↔ (length (entries_of (table_of self.now)) ≡ 0) }
    {
        self.table.is_empty()
    }

    /// Returns the key of a value, under which [`put`](Self::put) puts it.
    ///
    /// # Errors
    ///
    /// Returns [`TypedTableError::Value`] if the value can't be written as an item.
    ///
    /// Returns [`TypedTableError::Table`] if its item doesn't have the table's key.
    ///
    /// Returns either with `OutOfMemory` if memory runs out.
    pub fn key_of(&self, value: &T) -> std::result::Result<Key, TypedTableError>
        ensures ok { IfOk result (IsKeyOf T.written (schema_of (table_of self.now)) value.now) }
        ensures err { IfErr result
            (FailsToPut T.written T.unwritten (schema_of (table_of self.now)) value.now) }
    {
        let item = value.to_item(self.alloc)?;
        Ok(self.table.key_of(&item)?)
    }

    /// Returns the key of these arguments: a string is itself, a number is its string, and a byte
    /// string is its base64 string.
    ///
    /// # Errors
    ///
    /// Returns the error of [`KeySchema::key_from`](table_keys::KeySchema::key_from): an argument
    /// isn't of the attribute's kind; `NoSortKey` for a sort key in a table that has none;
    /// `Missing` without one in a table that has one; `OutOfMemory` if memory runs out.
    pub fn key_from(
        &self,
        partition: &str,
        sort: Option<&str>,
    ) -> std::result::Result<Key, TableError>
        ensures { SaysKey (schema_of (table_of self.now)) partition.now
            (option_map (λ w. w.now) sort.entry) result }
    {
        self.table.schema().key_from(self.alloc, partition, sort)
    }

    /// Puts a value under its key and returns the key. A value that was there is dropped.
    ///
    /// # Errors
    ///
    /// Returns [`TypedTableError::Value`] if the value can't be written as an item.
    ///
    /// Returns [`TypedTableError::Table`] if its item doesn't have the table's key.
    ///
    /// Returns either with `OutOfMemory` if memory runs out. The table is unchanged after an error.
    pub fn put(&mut self, value: &T) -> std::result::Result<Key, TypedTableError>
        ensures holds { IfOk result (λ key. Holds T.written (table_of self.new) key value.now) }
        ensures others { IfOk result
            (λ key. OthersStay key (table_of self.old) (table_of self.new)) }
        ensures err { IfErr result
            (λ e. FailsToPut T.written T.unwritten (schema_of (table_of self.old)) value.now e) }
        ensures unchanged { OnErr result
            (entries_of (table_of self.new) ≡ entries_of (table_of self.old)) }
        ensures schema { schema_of (table_of self.new) ≡ schema_of (table_of self.old) }
    {
        let item = value.to_item(self.alloc)?;
        Ok(self.table.put_returning_key(item)?)
    }

    /// Puts a value under its key if the condition holds there, and returns the key. A value that
    /// was there is dropped.
    ///
    /// # Errors
    ///
    /// Returns [`TypedTableError::Table`] with `ConditionFailed` if the condition doesn't hold.
    /// Otherwise returns the error of [`put`](Self::put). The table is unchanged after an error.
    pub fn put_if(
        &mut self,
        condition: Condition,
        value: &T,
    ) -> std::result::Result<Key, TypedTableError>
        ensures condition { IfOk result (λ key.
            holds condition (is_some (get key_cmp (items_of (table_of self.old)) key)) ≡ true) }
        ensures holds { IfOk result (λ key. Holds T.written (table_of self.new) key value.now) }
        ensures others { IfOk result
            (λ key. OthersStay key (table_of self.old) (table_of self.new)) }
        ensures err { IfErr result
            (λ e. FailsToPut T.written T.unwritten (schema_of (table_of self.old)) value.now e
            ⊎ FailsCondition T.written condition (table_of self.old) value.now e) }
        ensures unchanged { OnErr result
            (entries_of (table_of self.new) ≡ entries_of (table_of self.old)) }
        ensures schema { schema_of (table_of self.new) ≡ schema_of (table_of self.old) }
    {
        let item = value.to_item(self.alloc)?;
        Ok(self.table.put_if_returning_key(condition, item)?)
    }

    /// Returns the value under a key, or `None`.
    ///
    /// **It returns the value that `put` stored**: if the type promises that its values read back,
    /// the value is the same as the one that was put, and the call fails only if memory runs out.
    ///
    /// # Errors
    ///
    /// Returns the error of reading the item, as [`from_item_ref`](dynamo_read::from_item_ref)
    /// does.
    ///
    /// Returns [`ErrorImpl::OutOfMemory`](dynamo_value::ErrorImpl::OutOfMemory) if memory runs out.
    pub fn get(&self, key: &Key) -> Result<Option<T>>
        ensures read { ReadsAt T.reads_item (get key_cmp (items_of (table_of self.now)) key.now)
            result }
        ensures clear { T.reads_back → (value : T)
            → Holds T.written (table_of self.now) key.now value
            → MatchResult result (λ found. MatchOption found ⊥ (T.alike value))
            (λ e. fault_of e ≡ out_of_memory) }
    {
        match self.table.get(key) {
            Some(item) => Ok(Some(T::read_item(self.alloc, item)?)),
            None => Ok(None),
        }
    }

    /// Returns the value under a key as [`get`](Self::get) does, and says where an error was found.
    /// The item is read again to find the place.
    ///
    /// # Errors
    ///
    /// Returns the error of [`get`](Self::get), with its place in the item.
    pub fn get_located(&self, key: &Key) -> std::result::Result<Option<T>, LocatedError<Error>>
        ensures read { ReadsAt T.reads_item (get key_cmp (items_of (table_of self.now)) key.now)
            (without_place result) }
        ensures clear { T.reads_back → (value : T)
            → Holds T.written (table_of self.now) key.now value
            → MatchResult result (λ found. MatchOption found ⊥ (T.alike value))
            (λ e. fault_of e.error ≡ out_of_memory) }
    {
        match self.get(key) {
            Ok(found) => Ok(found),
            Err(error) => {
                let place = match self.table.get(key) {
                    Some(item) => place_of_error::<T>(self.alloc, item, &error),
                    None => None,
                };
                let place = place.unwrap_or(Place::new());
                Err(LocatedError { place, error })
            }
        }
    }

    /// Deletes the value under a key, and returns whether there was one.
    pub fn delete(&mut self, key: &Key) -> bool
        ensures answer { result ≡ is_some (get key_cmp (items_of (table_of self.old)) key.now) }
        ensures updates { Updates key_cmp (items_of (table_of self.old))
            (items_of (table_of self.new)) key.now None }
        ensures schema { schema_of (table_of self.new) ≡ schema_of (table_of self.old) }
    {
        self.table.delete(key).is_some()
    }

    /// Deletes the value under a key if the condition holds there, and returns whether there was
    /// one.
    ///
    /// # Errors
    ///
    /// Returns `ConditionFailed` if the condition doesn't hold. The table is unchanged then.
    pub fn delete_if(
        &mut self,
        condition: Condition,
        key: &Key,
    ) -> std::result::Result<bool, TableError>
        ensures deletes { DeletesIf condition key.now (table_of self.old) (table_of self.new)
            result }
        ensures schema { schema_of (table_of self.new) ≡ schema_of (table_of self.old) }
    {
        Ok(self.table.delete_if(condition, key)?.is_some())
    }

    /// Replaces the value under a key with what `change` makes of it.
    ///
    /// The error can be of any type that a [`TypedTableError`] converts to, such as `anyhow::Error`
    /// or a type of your own.
    ///
    /// # Errors
    ///
    /// Returns [`TypedTableError::Table`] with `NoItem` if there is no value under the key.
    ///
    /// Returns [`TypedTableError::Value`] if the value can't be read, and then the error of
    /// `change`.
    ///
    /// Returns the error of [`put`](Self::put) for the changed value, and
    /// [`TypedTableError::Table`] with `KeyChanged` if the changed value has another key. The table
    /// is unchanged after an error.
    pub fn update<E: From<TypedTableError>, F: FnOnce(T) -> std::result::Result<T, E>>(
        &mut self,
        key: &Key,
        change: F,
    ) -> std::result::Result<(), E>
        requires { F.IsAlwaysCallable change }
        ensures updates { OnOk result (UpdatesValue T.written T.reads_item (F.post change) key.now
            (table_of self.old) (table_of self.new)) }
        ensures others { OnOk result (OthersStay key.now (table_of self.old) (table_of self.new)) }
        ensures err { IfErr result
            (FailsToUpdate T.written T.unwritten T.reads_item (F.post change) E.from_gives key.now
            (table_of self.old)) }
        ensures unchanged { OnErr result
            (entries_of (table_of self.new) ≡ entries_of (table_of self.old)) }
        ensures schema { schema_of (table_of self.new) ≡ schema_of (table_of self.old) }
    {
        let alloc = self.alloc;
        match self
            .table
            .update(key, move |item| changed(alloc, item, change))
        {
            Ok(()) => Ok(()),
            Err(Failed(error)) => Err(error),
        }
    }

    /// Returns the values that a query finds, in its order.
    ///
    /// # Errors
    ///
    /// Returns the error of reading the first of the items that doesn't read.
    ///
    /// Returns [`ErrorImpl::OutOfMemory`](dynamo_value::ErrorImpl::OutOfMemory) if memory runs out.
    pub fn query(&self, query: &Query<'_>) -> Result<Vec<T>>
        ensures read { IfOk result
            (λ values. ReadEach T.reads_item (answer query.now (entries_of (table_of self.now)))
            values.items) }
        ensures err { IfErr result
            (FailsToRead T.reads_item (answer query.now (entries_of (table_of self.now)))) }
    {
        let found = self.table.query(self.alloc, query)?;
        values_of(self.alloc, found.as_slice())
    }

    /// Returns the values that a query finds as [`query`](Self::query) does, and says where an
    /// error was found. The place begins with the index of the value: `[7].orders[3].price`.
    ///
    /// # Errors
    ///
    /// Returns the error of [`query`](Self::query), with its place.
    pub fn query_located(
        &self,
        query: &Query<'_>,
    ) -> std::result::Result<Vec<T>, LocatedError<Error>>
        ensures read { IfOk result
            (λ values. ReadEach T.reads_item (answer query.now (entries_of (table_of self.now)))
            values.items) }
        ensures err { IfErr result
            (λ e. FailsToRead T.reads_item (answer query.now (entries_of (table_of self.now)))
            e.error) }
    {
        match self.query(query) {
            Ok(values) => Ok(values),
            Err(error) => {
                let place = match self.table.query(self.alloc, query) {
                    Ok(found) => place_among::<T>(self.alloc, found.as_slice(), &error),
                    Err(_) => Place::new(),
                };
                Err(LocatedError { place, error })
            }
        }
    }

    /// Returns a page of all values: those after `start_after` in the order of their keys, at most
    /// `limit`. The next page starts after the key of the last value of this one, which
    /// [`key_of`](Self::key_of) returns.
    ///
    /// # Errors
    ///
    /// Returns the error of reading the first of the items that doesn't read.
    ///
    /// Returns [`ErrorImpl::OutOfMemory`](dynamo_value::ErrorImpl::OutOfMemory) if memory runs out.
    pub fn scan(&self, limit: usize, start_after: Option<&Key>) -> Result<Vec<T>>
        ensures read { IfOk result
            (λ values. ReadEach T.reads_item (page limit start_after.entry (table_of self.now))
            values.items) }
        ensures err { IfErr result
            (FailsToRead T.reads_item (page limit start_after.entry (table_of self.now))) }
    {
        let found = self.table.scan(self.alloc, limit, start_after)?;
        values_of(self.alloc, found.as_slice())
    }

    /// Returns a page of all values as [`scan`](Self::scan) does, and says where an error was
    /// found. The place begins with the index of the value in the page.
    ///
    /// # Errors
    ///
    /// Returns the error of [`scan`](Self::scan), with its place.
    pub fn scan_located(
        &self,
        limit: usize,
        start_after: Option<&Key>,
    ) -> std::result::Result<Vec<T>, LocatedError<Error>>
        ensures read { IfOk result
            (λ values. ReadEach T.reads_item (page limit start_after.entry (table_of self.now))
            values.items) }
        ensures err { IfErr result
            (λ e. FailsToRead T.reads_item (page limit start_after.entry (table_of self.now))
            e.error) }
    {
        match self.scan(limit, start_after) {
            Ok(values) => Ok(values),
            Err(error) => {
                let place = match self.table.scan(self.alloc, limit, start_after) {
                    Ok(found) => place_among::<T>(self.alloc, found.as_slice(), &error),
                    Err(_) => Place::new(),
                };
                Err(LocatedError { place, error })
            }
        }
    }

    /// Returns all values in the order of their keys.
    ///
    /// # Errors
    ///
    /// Returns the error of reading the first of the items that doesn't read.
    ///
    /// Returns [`ErrorImpl::OutOfMemory`](dynamo_value::ErrorImpl::OutOfMemory) if memory runs out.
    pub fn scan_all(&self) -> Result<Vec<T>>
        ensures read { IfOk result
            (λ values. ReadEach T.reads_item (entries_of (table_of self.now)) values.items) }
        ensures err { IfErr result (FailsToRead T.reads_item (entries_of (table_of self.now))) }
    {
        let found = self.table.scan_all(self.alloc, self.table.len())?;
        values_of(self.alloc, found.as_slice())
    }
}
