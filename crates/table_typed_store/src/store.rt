ghost use Rattle.std.specs.Prelude.{◌≡◌, ◌==◌, IfErr, IfOk, IfSome, OnOk, true};
ghost use Rattle.std.specs.List.{AllZip};
ghost use Rattle.std.specs.Option.{option_copied};
ghost use Rattle.table_keys.specs.KeyOf.{words_of};
ghost use Rattle.table_keys.specs.Conditions.{holds};
ghost use Rattle.table_typed.specs.Stored.{IsKeyOf};
ghost use Rattle.table_typed_store.specs.Stored.{FailsToChange, FailsToKey, KeepsKey, NeedsKey};
ghost use Rattle.table_typed_store.specs.Stored.{ReadsAs};
ghost use Rattle.table_typed_store.specs.Stored.{SaysKeyOf};
ghost use Rattle.table_typed_store.specs.Stored.{WasReadAt, WereFound, WereRead, WereScanned};
ghost use Rattle.table_typed_store.specs.Stored.{schema_of};
ghost use Rattle.table_typed_store.specs.Stored.{store_of, table_of};
ghost use Rattle.table_typed_store.specs.Calls.{CountsValues, DeletesValue, GetsValue, GotAgain};
ghost use Rattle.table_typed_store.specs.Calls.{Located};
ghost use Rattle.table_typed_store.specs.Calls.{PutsValue, PutsValueIf, ReadsEach, ScansValues};
ghost use Rattle.table_typed_store.specs.Calls.{UpdatesValue};
ghost use Rattle.table_typed_store.specs.Faults.{QueryFails, StoreFails};
ghost use Rattle.table_store.specs.Calls.{GetsAt, Ran, Scans};
ghost use Rattle.table_store.specs.Faults.{CreateFails};
ghost use Rattle.table_store.specs.Runs.{IsClean, WasClean, listed};
ghost use Rattle.table_keys.specs.declared.condition.Condition.{Condition};

use crate::TypedStoreError;
use crate::change::{Failed, changed};
use crate::located::place_among;
use dynamo_place::{LocatedError, Place};
use dynamo_value::{Error, Item};
use sqlite::{Alter, Connection};
use std::alloc::Global;
use std::marker::PhantomData;
use table_keys::{Condition, Key, Query};
use table_store::{MemoryPages, TableStore, create_in_memory_file};
use table_typed::{AsItem, Keyed, place_of_error};

/// A table in a SQLite database of values of one type, each an item under its key.
///
/// # Examples
///
/// ```rust
/// # use serde::{Deserialize, Serialize};
/// # use serde_dynamo::{Item, Result};
/// # use std::alloc::{AllocError, Global};
/// # use table_keys::{KeyAttribute, KeyKind, KeySchema};
/// # use table_typed::{AsItem, Keyed};
/// use table_typed_store::TypedStore;
///
/// #[derive(Drop, Serialize, Deserialize)]
/// struct Room {
///     number: u16,
///     beds: u8,
/// }
///
/// # impl AsItem for Room {
/// #     fn to_item(&self, alloc: Global) -> Result<Item> {
/// #         dynamo_serde::to_item(alloc, self)
/// #     }
/// #
/// #     fn read_item(alloc: Global, item: &Item) -> Result<Room> {
/// #         dynamo_serde::read_item(alloc, item)
/// #     }
/// # }
/// #
/// # impl Keyed for Room {
/// #     fn key_schema(alloc: Global) -> std::result::Result<KeySchema, AllocError> {
/// #         let name = String::from_str(alloc, "number")?;
/// #         Ok(KeySchema { partition: KeyAttribute { name, kind: KeyKind::N }, sort: None })
/// #     }
/// # }
/// #
/// let mut rooms = TypedStore::create_in_memory_file(alloc, "rooms")?;
/// let key = rooms.put(&Room { number: 101, beds: 2 })?;
/// rooms.update::<anyhow::Error, _>(&key, |mut room| {
///     room.beds = 3;
///     Ok(room)
/// })?;
/// assert!(rt; matches!(rooms.get(&key)?, Some(room) if room.beds == 3));
/// assert_eq!(rt; rooms.len()?, 1);
/// ```
#[derive(Drop)]
pub struct TypedStore<T, S: Alter + Drop> {
    alloc: Global,
    store: TableStore<S>,
    values: PhantomData<T>,
}

impl<T: AsItem + Keyed> TypedStore<T, MemoryPages> {
    /// Returns an empty table in a database in memory, whose key is that of the type. The values
    /// that it returns are allocated in `alloc`.
    ///
    /// The database is that of [`table_store::create_in_memory_file`]: a put, an update or a delete
    /// visits as many rows as the logarithm of the number of values. If memory runs out in a call,
    /// the values are as they were, and the next call works.
    ///
    /// # Errors
    ///
    /// Returns [`TypedStoreError::Store`] with the error of [`table_store::create_in_memory_file`].
    ///
    /// # Examples
    ///
    /// ```rust
    /// # use example_types::station::Station;
    /// use table_store::MemoryPages;
    /// use table_typed_store::TypedStore;
    ///
    /// type Stations = TypedStore<Station, MemoryPages>;
    ///
    /// let mut stations: Stations = TypedStore::create_in_memory_file(alloc, "stations")?;
    /// assert!(rt; stations.is_empty()?);
    /// ```
    pub fn create_in_memory_file(alloc: Global, name: &str) -> Result<Self, TypedStoreError>
        ensures key { IfOk result (λ store. T.keyed_by (words_of (schema_of store))) }
        ensures errors { IfErr result (StoreFails CreateFails) }
    {
        let schema = T::key_schema(alloc)?;
        Ok(TypedStore {
            alloc,
            store: create_in_memory_file(alloc, name, schema)?,
            values: PhantomData,
        })
    }
}

impl<T: AsItem + Keyed, S: Alter + Drop> TypedStore<T, S> {
    /// Returns the table with this name in a database, whose key is that of the type. It is created
    /// if there is none. The values that it returns are allocated in `alloc`.
    ///
    /// A database of [`Connection::open_in_memory`] keeps its rows in one list: a put that replaces
    /// a value, an update and a delete visit all of them. Prefer
    /// [`create_in_memory_file`](TypedStore::create_in_memory_file).
    ///
    /// # Errors
    ///
    /// Returns [`TypedStoreError::Store`] with the error of [`TableStore::create`].
    pub fn create(alloc: Global, conn: Connection<S>, name: &str) -> Result<Self, TypedStoreError>
        ensures key { IfOk result (λ store. T.keyed_by (words_of (schema_of store))) }
        ensures errors { IfErr result (StoreFails CreateFails) }
    {
        let schema = T::key_schema(alloc)?;
        Ok(TypedStore {
            alloc,
            store: TableStore::create(alloc, conn, name, schema)?,
            values: PhantomData,
        })
    }

    /// Returns the table of the items.
    pub fn into_items(self) -> TableStore<S>
        ensures { result ≡ store_of self }
    {
        self.store
    }

    /// Returns the number of values.
    ///
    /// # Errors
    ///
    /// Returns [`TypedStoreError::Store`] with the error of [`TableStore::count`].
    pub fn len(&mut self) -> Result<u64, TypedStoreError>
        ensures schema { schema_of self.new ≡ schema_of self.old }
        ensures ran { Ran S.Store (CountsValues S.Store (λ count. count))
            (store_of self.old) (store_of self.new) result }
    {
        Ok(self.store.count()?)
    }

    /// Returns whether the table is empty.
    ///
    /// # Errors
    ///
    /// Returns [`TypedStoreError::Store`] with the error of [`TableStore::count`].
    pub fn is_empty(&mut self) -> Result<bool, TypedStoreError>
        ensures schema { schema_of self.new ≡ schema_of self.old }
        ensures ran { Ran S.Store (CountsValues S.Store (λ count. count == 0))
            (store_of self.old) (store_of self.new) result }
    {
        Ok(self.store.count()? == 0)
    }

    /// Returns the key of a value, under which [`put`](Self::put) puts it.
    ///
    /// # Errors
    ///
    /// Returns [`TypedStoreError::Value`] if the value can't be written as an item.
    ///
    /// Returns [`TypedStoreError::Store`] if its item doesn't have the table's key.
    ///
    /// Returns either with `OutOfMemory` if memory runs out.
    pub fn key_of(&self, value: &T) -> Result<Key, TypedStoreError>
        ensures ok { IfOk result (IsKeyOf T.written (schema_of self.now) value.now) }
        ensures err { IfErr result
            (FailsToKey T.written T.unwritten (schema_of self.now) value.now) }
    {
        let item = value.to_item(self.alloc)?;
        Ok(self.store.key_of(&item)?)
    }

    /// Returns the key of these arguments: a string is itself, a number is its string, and a byte
    /// string is its base64 string.
    ///
    /// # Errors
    ///
    /// Returns [`TypedStoreError::Store`] with the error of
    /// [`KeySchema::key_from`](table_keys::KeySchema::key_from): an argument isn't of the
    /// attribute's kind; there is a sort key for a table that has none, or none for a table that
    /// has one; memory runs out.
    pub fn key_from(&self, partition: &str, sort: Option<&str>) -> Result<Key, TypedStoreError>
        ensures { SaysKeyOf (schema_of self.now) partition.now sort.entry result }
    {
        Ok(self.store.schema().key_from(self.alloc, partition, sort)?)
    }

    /// Puts a value under its key and returns the key. A value that was there is dropped.
    ///
    /// # Errors
    ///
    /// Returns [`TypedStoreError::Value`] if the value can't be written as an item.
    ///
    /// Returns [`TypedStoreError::Store`] with the error of [`TableStore::put`].
    pub fn put(&mut self, value: &T) -> Result<Key, TypedStoreError>
        ensures key { IfOk result (IsKeyOf T.written (schema_of self.old) value.now) }
        ensures needs { NeedsKey T.written T.unwritten (schema_of self.old) value.now result }
        ensures schema { schema_of self.new ≡ schema_of self.old }
        ensures ran { Ran S.Store (PutsValue S.Store T.written T.unwritten value.now)
            (store_of self.old) (store_of self.new) result }
    {
        let item = value.to_item(self.alloc)?;
        Ok(self.store.put_returning_key(&item)?)
    }

    /// Puts a value under its key if the condition holds there, and returns the key and whether
    /// there was a value. That value is dropped.
    ///
    /// # Errors
    ///
    /// Returns [`TypedStoreError::Store`] with `ConditionFailed` if the condition doesn't hold.
    /// Otherwise returns the error of [`put`](Self::put).
    pub fn put_if(
        &mut self,
        condition: Condition,
        value: &T,
    ) -> Result<(Key, bool), TypedStoreError>
        ensures condition { IfOk result (λ done. holds condition done.1 ≡ true) }
        ensures key { IfOk result
            (λ done. IsKeyOf T.written (schema_of self.old) value.now done.0) }
        ensures needs { NeedsKey T.written T.unwritten (schema_of self.old) value.now result }
        ensures schema { schema_of self.new ≡ schema_of self.old }
        ensures ran { Ran S.Store (PutsValueIf S.Store T.written T.unwritten condition value.now)
            (store_of self.old) (store_of self.new) result }
    {
        let item = value.to_item(self.alloc)?;
        let (key, before) = self.store.put_if_returning_key(condition, &item)?;
        Ok((key, before.is_some()))
    }

    /// Returns the value under a key, or `None`.
    ///
    /// # Errors
    ///
    /// Returns [`TypedStoreError::Value`] with the error of reading the item.
    ///
    /// Returns [`TypedStoreError::Store`] with the error of [`TableStore::get`].
    pub fn get(&mut self, key: &Key) -> Result<Option<T>, TypedStoreError>
        ensures read { IfOk result (λ found. IfSome found
            (WasReadAt T.reads_item (schema_of self.old) key.now)) }
        ensures schema { schema_of self.new ≡ schema_of self.old }
        ensures table { table_of self.new ≡ table_of self.old }
        ensures ran { Ran S.Store (GetsValue S.Store T.reads_item key.now)
            (store_of self.old) (store_of self.new) result }
        ensures clean { WasClean S.Store (store_of self.old).conn (store_of self.new).conn }
    {
        match self.store.get(key)? {
            Some(item) => Ok(Some(T::from_item(self.alloc, item)?)),
            None => Ok(None),
        }
    }

    /// Returns the value under a key as [`get`](Self::get) does, and says where an error was found.
    /// The item is read again to find the place.
    ///
    /// # Errors
    ///
    /// Returns the error of [`get`](Self::get), with the place in the item of an error of reading
    /// it.
    pub fn get_located(&mut self, key: &Key) -> Result<Option<T>, LocatedError<TypedStoreError>>
        ensures read { IfOk result (λ found. IfSome found
            (WasReadAt T.reads_item (schema_of self.old) key.now)) }
        ensures schema { schema_of self.new ≡ schema_of self.old }
        ensures ran { Ran S.Store
            (Located (GetsValue S.Store T.reads_item key.now) (GetsAt S.Store key.now))
            (store_of self.old) (store_of self.new) result }
    {
        match self.get(key) {
            Ok(found) => Ok(found),
            Err(error) => {
                let place = self.place_at(key, &error);
                Err(LocatedError { place, error })
            }
        }
    }

    /// Deletes the value under a key, and returns whether there was one.
    ///
    /// # Errors
    ///
    /// Returns [`TypedStoreError::Store`] with the error of [`TableStore::delete`].
    pub fn delete(&mut self, key: &Key) -> Result<bool, TypedStoreError>
        ensures schema { schema_of self.new ≡ schema_of self.old }
        ensures ran { Ran S.Store (DeletesValue S.Store Condition.Always key.now)
            (store_of self.old) (store_of self.new) result }
    {
        Ok(self.store.delete(key)?.is_some())
    }

    /// Deletes the value under a key if the condition holds there, and returns whether there was
    /// one.
    ///
    /// # Errors
    ///
    /// Returns [`TypedStoreError::Store`] with the error of [`TableStore::delete_if`], as
    /// `ConditionFailed` if the condition doesn't hold.
    pub fn delete_if(&mut self, condition: Condition, key: &Key) -> Result<bool, TypedStoreError>
        ensures condition { IfOk result (λ there. holds condition there ≡ true) }
        ensures schema { schema_of self.new ≡ schema_of self.old }
        ensures ran { Ran S.Store (DeletesValue S.Store condition key.now)
            (store_of self.old) (store_of self.new) result }
    {
        Ok(self.store.delete_if(condition, key)?.is_some())
    }

    /// Replaces the value under a key with what `change` makes of it.
    ///
    /// The error can be of any type that a [`TypedStoreError`] converts to, such as `anyhow::Error`
    /// or a type of your own.
    ///
    /// # Errors
    ///
    /// Returns [`TypedStoreError::Store`] with `NoItem` if there is no value under the key, or with
    /// the error of [`TableStore::get`].
    ///
    /// Returns [`TypedStoreError::Value`] if the value can't be read, and then the error of
    /// `change`.
    ///
    /// Returns the error of [`put`](Self::put) for the changed value, and
    /// [`TypedStoreError::Store`] with `KeyChanged` if the changed value has another key.
    pub fn update<E: From<TypedStoreError>, F: FnOnce(T) -> Result<T, E>>(
        &mut self,
        key: &Key,
        change: F,
    ) -> Result<(), E>
        requires { F.IsAlwaysCallable change }
        ensures changes { OnOk result
            (KeepsKey T.written T.reads_item (F.post change) (schema_of self.old) key.now) }
        ensures err { IfErr result (FailsToChange T.reads_item (F.post change) E.from_gives) }
        ensures schema { schema_of self.new ≡ schema_of self.old }
        ensures ran { Ran S.Store
            (UpdatesValue S.Store T.written T.unwritten T.reads_item (F.post change) E.from_gives
            key.now) (store_of self.old) (store_of self.new) result }
    {
        let alloc = self.alloc;
        match self
            .store
            .update(key, move |item| changed(alloc, item, change))
        {
            Ok(()) => Ok(()),
            Err(Failed(error)) => Err(error),
        }
    }

    /// Returns the values that a query finds, in its order.
    ///
    /// # Errors
    ///
    /// Returns [`TypedStoreError::Value`] with the error of reading the first of the
    /// items that doesn't read.
    ///
    /// Returns [`TypedStoreError::Store`] with the error of [`TableStore::query`].
    pub fn query(&mut self, query: &Query<'_>) -> Result<Vec<T>, TypedStoreError>
        ensures found { IfOk result
            (λ values. WereFound T.reads_item (schema_of self.old) query.now values.items) }
        ensures errors { IfErr result (QueryFails T.reads_item (schema_of self.old) query.now) }
        ensures schema { schema_of self.new ≡ schema_of self.old }
    {
        let found = self.store.query(query)?;
        self.values_from(found)
    }

    /// Returns the values that a query finds as [`query`](Self::query) does, and says where an
    /// error was found. The place begins with the index of the value: `[7].orders[3].price`.
    ///
    /// # Errors
    ///
    /// Returns the error of [`query`](Self::query), with the place of an error of reading an item.
    pub fn query_located(
        &mut self,
        query: &Query<'_>,
    ) -> Result<Vec<T>, LocatedError<TypedStoreError>>
        ensures found { IfOk result
            (λ values. WereFound T.reads_item (schema_of self.old) query.now values.items) }
        ensures errors { IfErr result
            (λ e. QueryFails T.reads_item (schema_of self.old) query.now e.error) }
        ensures schema { schema_of self.new ≡ schema_of self.old }
    {
        match self.query(query) {
            Ok(values) => Ok(values),
            Err(error) => {
                let place = match &error {
                    TypedStoreError::Value(fault) => self.place_in_query(query, fault),
                    TypedStoreError::Store(_) => Place::new(),
                };
                Err(LocatedError { place, error })
            }
        }
    }

    /// Returns a page of all values: those after `start_after` in the order of their keys, at most
    /// `limit`. The next page starts after the key of the last value of this one, which
    /// [`key_of`](Self::key_of) returns.
    ///
    /// # Errors
    ///
    /// Returns [`TypedStoreError::Value`] with the error of reading the first of the
    /// items that doesn't read.
    ///
    /// Returns [`TypedStoreError::Store`] with the error of [`TableStore::scan`].
    pub fn scan(
        &mut self,
        limit: usize,
        start_after: Option<&Key>,
    ) -> Result<Vec<T>, TypedStoreError>
        ensures read { IfOk result (λ values. WereRead T.reads_item values.items) }
        ensures behind { IfOk result (λ values. WereScanned T.reads_item (schema_of self.old) limit
            (option_copied start_after.entry) values.items) }
        ensures schema { schema_of self.new ≡ schema_of self.old }
        ensures table { table_of self.new ≡ table_of self.old }
        ensures ran { Ran S.Store (ScansValues S.Store T.reads_item limit start_after.entry)
            (store_of self.old) (store_of self.new) (listed result) }
        ensures clean { WasClean S.Store (store_of self.old).conn (store_of self.new).conn }
    {
        let found = self.store.scan(limit, start_after)?;
        self.values_from(found)
    }

    /// Returns a page of all values as [`scan`](Self::scan) does, and says where an error was
    /// found. The place begins with the index of the value in the page.
    ///
    /// # Errors
    ///
    /// Returns the error of [`scan`](Self::scan), with the place of an error of reading an item.
    pub fn scan_located(
        &mut self,
        limit: usize,
        start_after: Option<&Key>,
    ) -> Result<Vec<T>, LocatedError<TypedStoreError>>
        ensures read { IfOk result (λ values. WereRead T.reads_item values.items) }
        ensures behind { IfOk result (λ values. WereScanned T.reads_item (schema_of self.old) limit
            (option_copied start_after.entry) values.items) }
        ensures schema { schema_of self.new ≡ schema_of self.old }
        ensures ran { Ran S.Store
            (Located (ScansValues S.Store T.reads_item limit start_after.entry)
            (Scans S.Store limit start_after.entry))
            (store_of self.old) (store_of self.new) (listed result) }
    {
        match self.scan(limit, start_after) {
            Ok(values) => Ok(values),
            Err(error) => {
                let place = self.place_in_page(limit, start_after, &error);
                Err(LocatedError { place, error })
            }
        }
    }

    /// Returns all values in the order of their keys.
    ///
    /// # Errors
    ///
    /// Returns the error of [`scan`](Self::scan).
    pub fn scan_all(&mut self) -> Result<Vec<T>, TypedStoreError>
        ensures read { IfOk result (λ values. WereRead T.reads_item values.items) }
        ensures behind { IfOk result (λ values.
            WereScanned T.reads_item (schema_of self.old) usize.MAX None values.items) }
        ensures schema { schema_of self.new ≡ schema_of self.old }
        ensures ran { Ran S.Store (ScansValues S.Store T.reads_item usize.MAX None)
            (store_of self.old) (store_of self.new) (listed result) }
    {
        self.scan(usize::MAX, None)
    }

    // The place in the item under a key where reading it returns this error. An error of the table
    // has none.
    fn place_at(&mut self, key: &Key, error: &TypedStoreError) -> Place
        ensures schema { schema_of self.new ≡ schema_of self.old }
        ensures ran { IsClean S.Store (store_of self.new).conn →
            GotAgain (GetsAt S.Store key.now) error.now (table_of self.old)
            (store_of self.old).conn (store_of self.new).conn }
        ensures clean { WasClean S.Store (store_of self.old).conn (store_of self.new).conn }
    {
        let TypedStoreError::Value(fault) = error else {
            return Place::new();
        };
        match self.store.get(key) {
            Ok(Some(item)) => {
                place_of_error::<T>(self.alloc, &item, fault).unwrap_or(Place::new())
            }
            _ => Place::new(),
        }
    }

    // The same among the items that a query finds.
    fn place_in_query(&mut self, query: &Query<'_>, error: &Error) -> Place
        ensures schema { schema_of self.new ≡ schema_of self.old }
    {
        match self.store.query(query) {
            Ok(found) => place_among::<T>(self.alloc, found.as_slice(), error),
            Err(_) => Place::new(),
        }
    }

    // The same among the items of a page of all.
    fn place_in_page(
        &mut self,
        limit: usize,
        start_after: Option<&Key>,
        error: &TypedStoreError,
    ) -> Place
        ensures schema { schema_of self.new ≡ schema_of self.old }
        ensures ran { IsClean S.Store (store_of self.new).conn →
            GotAgain (Scans S.Store limit start_after.entry) error.now (table_of self.old)
            (store_of self.old).conn (store_of self.new).conn }
        ensures clean { WasClean S.Store (store_of self.old).conn (store_of self.new).conn }
    {
        let TypedStoreError::Value(fault) = error else {
            return Place::new();
        };
        match self.store.scan(limit, start_after) {
            Ok(found) => place_among::<T>(self.alloc, found.as_slice(), fault),
            Err(_) => Place::new(),
        }
    }

    // Reads a value from each of these items, whose parts it moves.
    fn values_from(&self, found: Vec<Item>) -> Result<Vec<T>, TypedStoreError>
        ensures read { IfOk result
            (λ values. AllZip (ReadsAs T.reads_item) found.items values.items) }
        ensures exact { ReadsEach T.reads_item found.items (listed result) }
    {
        let mut values = Vec::with_capacity(self.alloc, found.len())?;
        for item in found {
            values.push(T::from_item(self.alloc, item)?)?;
        }
        Ok(values)
    }
}
