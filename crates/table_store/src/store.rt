ghost use Rattle.std.specs.Prelude.{◌≡◌, ◌≤◌, All, IfErr, IfOk, Ok, OnOk, is_some, length, true};
ghost use Rattle.std.specs.Fn.{FnOnceReturnsAt};
ghost use Rattle.std.specs.Option.{option_copied};
ghost use Rattle.table_keys.specs.KeyOf.{ReadsKey, words_of};
ghost use Rattle.table_keys.specs.Conditions.{holds};
ghost use Rattle.table_store.specs.Depth.{Checked, IsKept};
ghost use Rattle.table_store.specs.Content.{FailsToChange, FoundHasKey, HadKeyOf, HasKey};
ghost use Rattle.table_store.specs.Content.{HasThisKey, KeepsKey, NeedsKey, OfKey, connection_of};
ghost use Rattle.table_store.specs.Content.{schema_of, table_of};
ghost use Rattle.table_store.specs.Faults.{CreateFails, OpenFails, QueryFails};
ghost use Rattle.table_store.specs.Found.{IsFound};
ghost use Rattle.table_store.specs.Order.{AreBehind};
ghost use Rattle.table_store.specs.Calls.{BeforeOf, CountsAll, DeletesIf, GetsAt, IsStart, KeyOf};
ghost use Rattle.table_store.specs.Calls.{PutsAt, PutsChanged, PutsEach, PutsIf, PutsOver, Ran};
ghost use Rattle.table_store.specs.Calls.{Scans, Updates, WritesAll};
ghost use Rattle.table_store.specs.Runs.{WasClean, listed};
ghost use Rattle.table_keys.specs.declared.condition.Condition.{Condition};

use crate::StoreError;
use crate::depth::is_kept;
use crate::rows::{self, Definition, make_tables};
use dynamo_value::Item;
use sqlite::{Alter, Connection};
use std::alloc::{AllocError, Global};
use table_keys::{Bounds, Condition, Key, KeyBytes, KeySchema, Query, TableError, bytes_of};

/// A DynamoDB table in a SQLite database: items by their keys, in the order of the keys.
///
/// # Examples
///
/// ```rust
/// use serde_dynamo::{DynamoJson, Item};
/// use table_keys::{KeySchema, Query};
/// use table_store::create_in_memory_file;
///
/// let schema = KeySchema::parse(alloc, &["customer:S", "placed_at:N"])?;
/// let mut orders = create_in_memory_file(alloc, "orders", schema)?;
/// let text = r#"{"customer": {"S": "Arthur"}, "placed_at": {"N": "2024"}}"#;
/// let order = Item::from_json_text(alloc, text)?;
/// assert!(rt; orders.put(&order)?.is_none());
///
/// let key = orders.key_of(&order)?;
/// assert!(rt; orders.get(&key)? == Some(order.clone()?));
/// assert_eq!(rt; orders.query(&Query::of(&key.partition))?.len(), 1);
/// assert!(rt; orders.delete(&key)?.is_some());
/// assert_eq!(rt; orders.count()?, 0);
/// ```
#[derive(Drop)]
pub struct TableStore<S: Alter + Drop> {
    alloc: Global,
    conn: Connection<S>,
    table: Definition,
}

impl<S: Alter + Drop> TableStore<S> {
    /// Returns the table with this name and these keys in a database. It is created if there is
    /// none.
    ///
    /// # Errors
    ///
    /// Returns [`StoreError::OtherSchema`] if there is a table of this name with other keys, and
    /// [`StoreError::Unreadable`] if its key attributes can't be read.
    ///
    /// Returns [`StoreError::NoTable`] if the database doesn't show the table that was added.
    ///
    /// Returns [`StoreError::Database`] if the database fails, and [`StoreError::OutOfMemory`] if
    /// memory runs out.
    pub fn create(
        alloc: Global,
        mut conn: Connection<S>,
        name: &str,
        schema: KeySchema,
    ) -> Result<TableStore<S>, StoreError>
        ensures schema { IfOk result (λ store. words_of (schema_of store) ≡ words_of schema) }
        ensures errors { IfErr result CreateFails }
    {
        make_tables(&mut conn)?;
        if Definition::find(alloc, &mut conn, name)?.is_none() {
            Definition::add(alloc, &mut conn, name, &schema)?;
        }
        let store = TableStore::open(alloc, conn, name)?;
        if *store.schema() == schema {
            Ok(store)
        } else {
            Err(StoreError::OtherSchema)
        }
    }

    /// Returns the table with this name in a database, with its keys.
    ///
    /// # Errors
    ///
    /// Returns [`StoreError::NoTable`] if there is none, and [`StoreError::Unreadable`] if its key
    /// attributes can't be read.
    ///
    /// Returns [`StoreError::Database`] if the database fails, and [`StoreError::OutOfMemory`] if
    /// memory runs out.
    pub fn open(
        alloc: Global,
        mut conn: Connection<S>,
        name: &str,
    ) -> Result<TableStore<S>, StoreError>
        ensures errors { IfErr result OpenFails }
    {
        make_tables(&mut conn)?;
        match Definition::find(alloc, &mut conn, name)? {
            Some(table) => Ok(TableStore { alloc, conn, table }),
            None => Err(StoreError::NoTable),
        }
    }

    /// Returns the connection and consumes the table.
    pub fn into_connection(self) -> Connection<S>
        ensures { result ≡ connection_of self }
    {
        let TableStore { conn, .. } = self;
        conn
    }

    /// Returns the attributes that are the keys of the table.
    pub fn schema(&self) -> &KeySchema
        ensures { result.now ≡ schema_of self.now }
    {
        &self.table.schema
    }

    /// Returns the key of an item of this table.
    ///
    /// # Errors
    ///
    /// Returns the error of [`KeySchema::key_of`].
    pub fn key_of(&self, item: &Item) -> Result<Key, TableError>
        ensures { ReadsKey (schema_of self.now) item.now result }
    {
        self.table.schema.key_of(item)
    }

    /// Checks an item as [`TableStore::put`] does before it asks the database.
    ///
    /// # Errors
    ///
    /// Returns [`StoreError::Key`] with the error of [`KeySchema::key_of`].
    ///
    /// Returns [`StoreError::TooDeep`] if the item has more than 32 levels of lists and maps, which
    /// DynamoDB doesn't keep.
    pub fn check(&self, item: &Item) -> Result<(), StoreError>
        ensures needs { NeedsKey (schema_of self.now) item.now result }
        ensures exact { Checked (schema_of self.now) item.now result }
    {
        self.table.schema.key_of(item)?;
        if is_kept(item) {
            Ok(())
        } else {
            Err(StoreError::TooDeep)
        }
    }

    /// Returns the number of items.
    ///
    /// # Errors
    ///
    /// Returns [`StoreError::Database`] if the database fails, and [`StoreError::OutOfMemory`] if
    /// memory runs out.
    pub fn count(&mut self) -> Result<u64, StoreError>
        ensures schema { schema_of self.new ≡ schema_of self.old }
        ensures ran { Ran S.Store (CountsAll S.Store) self.old self.new result }
    {
        rows::count(&mut self.conn, self.table.id)
    }

    /// Returns the item under a key, or `None`. The item has this key.
    ///
    /// # Errors
    ///
    /// Returns [`StoreError::Unreadable`] if the text of the item can't be read, or if the item has
    /// another key than its row or none: then no call of `TableStore` wrote the row.
    ///
    /// Returns [`StoreError::Database`] if the database fails, and [`StoreError::OutOfMemory`] if
    /// memory runs out.
    pub fn get(&mut self, key: &Key) -> Result<Option<Item>, StoreError>
        ensures schema { schema_of self.new ≡ schema_of self.old }
        ensures table { table_of self.new ≡ table_of self.old }
        ensures key { IfOk result (FoundHasKey (schema_of self.old) key.now) }
        ensures ran { Ran S.Store (GetsAt S.Store key.now) self.old self.new result }
        ensures clean { WasClean S.Store self.old.conn self.new.conn }
    {
        let bytes = KeyBytes::of(self.alloc, key)?;
        rows::get_own(self.alloc, &mut self.conn, &self.table, key, &bytes)
    }

    /// Puts an item under its key, and returns the item that was there, which has the same key.
    ///
    /// # Errors
    ///
    /// Returns [`StoreError::Key`] with the error of [`KeySchema::key_of`].
    ///
    /// Returns [`StoreError::TooDeep`] if the item has more than 32 levels of lists and maps.
    ///
    /// Otherwise returns the error of [`TableStore::get`].
    pub fn put(&mut self, item: &Item) -> Result<Option<Item>, StoreError>
        ensures needs { NeedsKey (schema_of self.old) item.now result }
        ensures before { IfOk result (HadKeyOf (schema_of self.old) item.now) }
        ensures kept { OnOk result (IsKept item.now) }
        ensures schema { schema_of self.new ≡ schema_of self.old }
        ensures ran { Ran S.Store (BeforeOf S.Store (PutsIf S.Store Condition.Always item.now))
            self.old self.new result }
    {
        self.put_if(Condition::Always, item)
    }

    /// Puts an item under its key if the condition holds there, and returns the item that was
    /// there, which has the same key.
    ///
    /// # Errors
    ///
    /// Returns [`StoreError::Key`] with `ConditionFailed` if the condition doesn't hold. Otherwise
    /// returns the error of [`TableStore::put`].
    pub fn put_if(&mut self, condition: Condition, item: &Item) -> Result<Option<Item>, StoreError>
        ensures needs { NeedsKey (schema_of self.old) item.now result }
        ensures condition { IfOk result (λ before. holds condition (is_some before) ≡ true) }
        ensures before { IfOk result (HadKeyOf (schema_of self.old) item.now) }
        ensures kept { OnOk result (IsKept item.now) }
        ensures schema { schema_of self.new ≡ schema_of self.old }
        ensures ran { Ran S.Store (BeforeOf S.Store (PutsIf S.Store condition item.now))
            self.old self.new result }
    {
        let (_, before) = self.put_if_returning_key(condition, item)?;
        Ok(before)
    }

    /// Puts an item under its key, and returns the key. An item that was there is dropped.
    ///
    /// # Errors
    ///
    /// Returns the error of [`TableStore::put`].
    pub fn put_returning_key(&mut self, item: &Item) -> Result<Key, StoreError>
        ensures needs { NeedsKey (schema_of self.old) item.now result }
        ensures key { IfOk result (λ key. ReadsKey (schema_of self.old) item.now (Ok key)) }
        ensures kept { OnOk result (IsKept item.now) }
        ensures schema { schema_of self.new ≡ schema_of self.old }
        ensures ran { Ran S.Store (KeyOf S.Store (PutsIf S.Store Condition.Always item.now))
            self.old self.new result }
    {
        let (key, _) = self.put_if_returning_key(Condition::Always, item)?;
        Ok(key)
    }

    /// Puts an item under its key if the condition holds there, and returns the key and the item
    /// that was there, which has the same key.
    ///
    /// # Errors
    ///
    /// Returns the errors of [`TableStore::put_if`].
    pub fn put_if_returning_key(
        &mut self,
        condition: Condition,
        item: &Item,
    ) -> Result<(Key, Option<Item>), StoreError>
        ensures needs { NeedsKey (schema_of self.old) item.now result }
        ensures key { IfOk result (λ done. ReadsKey (schema_of self.old) item.now (Ok done.0)) }
        ensures before { IfOk result (λ done. FoundHasKey (schema_of self.old) done.0 done.1) }
        ensures condition { IfOk result (λ done. holds condition (is_some done.1) ≡ true) }
        ensures kept { OnOk result (IsKept item.now) }
        ensures schema { schema_of self.new ≡ schema_of self.old }
        ensures ran { Ran S.Store (PutsIf S.Store condition item.now) self.old self.new result }
    {
        let key = self.table.schema.key_of(item)?;
        let bytes = KeyBytes::of(self.alloc, &key)?;
        let before = rows::get_own(self.alloc, &mut self.conn, &self.table, &key, &bytes)?;
        if !condition.holds(before.is_some()) {
            return Err(StoreError::Key(TableError::ConditionFailed));
        }
        self.put_at(&bytes, item)?;
        Ok((key, before))
    }

    /// Deletes the item under a key, and returns it. It has this key.
    ///
    /// # Errors
    ///
    /// Returns the error of [`TableStore::get`].
    pub fn delete(&mut self, key: &Key) -> Result<Option<Item>, StoreError>
        ensures key { IfOk result (FoundHasKey (schema_of self.old) key.now) }
        ensures schema { schema_of self.new ≡ schema_of self.old }
        ensures ran { Ran S.Store (DeletesIf S.Store Condition.Always key.now)
            self.old self.new result }
    {
        self.delete_if(Condition::Always, key)
    }

    /// Deletes the item under a key if the condition holds there, and returns it. It has this key.
    ///
    /// # Errors
    ///
    /// Returns [`StoreError::Key`] with `ConditionFailed` if the condition doesn't hold. Otherwise
    /// returns the error of [`TableStore::get`].
    pub fn delete_if(&mut self, condition: Condition, key: &Key) -> Result<Option<Item>, StoreError>
        ensures condition { IfOk result (λ before. holds condition (is_some before) ≡ true) }
        ensures key { IfOk result (FoundHasKey (schema_of self.old) key.now) }
        ensures schema { schema_of self.new ≡ schema_of self.old }
        ensures ran { Ran S.Store (DeletesIf S.Store condition key.now) self.old self.new result }
    {
        let bytes = KeyBytes::of(self.alloc, key)?;
        let before = rows::get_own(self.alloc, &mut self.conn, &self.table, key, &bytes)?;
        if !condition.holds(before.is_some()) {
            return Err(StoreError::Key(TableError::ConditionFailed));
        }
        rows::delete(&mut self.conn, self.table.id, &bytes)?;
        Ok(before)
    }

    /// Replaces the item under a key with what `change` makes of it. Both have this key.
    ///
    /// The error can be of any type that a [`StoreError`] converts to, as `anyhow::Error` or a type
    /// of your own.
    ///
    /// # Errors
    ///
    /// Returns [`StoreError::Key`] with `NoItem` if there is no item under the key, and then the
    /// error of `change`.
    ///
    /// Returns [`StoreError::Key`] with the error of [`KeySchema::key_of`] for the changed item, or
    /// with `KeyChanged` if that has another key, and [`StoreError::TooDeep`] if it has more than
    /// 32 levels of lists and maps.
    ///
    /// Otherwise returns the error of [`TableStore::get`].
    pub fn update<E: From<StoreError>, F: FnOnce(&Item) -> Result<Item, E>>(
        &mut self,
        key: &Key,
        change: F,
    ) -> Result<(), E>
        requires { F.IsAlwaysCallable change }
        ensures changes { OnOk result
            (KeepsKey (FnOnceReturnsAt F.FnOnce change) (schema_of self.old) key.now) }
        ensures err { IfErr result (FailsToChange E.from_gives (FnOnceReturnsAt F.FnOnce change)) }
        ensures given { OnOk result (KeepsKey
            (OfKey (FnOnceReturnsAt F.FnOnce change) (schema_of self.old) key.now)
            (schema_of self.old) key.now) }
        ensures schema { schema_of self.new ≡ schema_of self.old }
        ensures ran { Ran S.Store
            (Updates S.Store E.from_gives (FnOnceReturnsAt F.FnOnce change) key.now) self.old
            self.new result }
    {
        let Some(item) = self.get(key)? else {
            return Err(E::from(StoreError::Key(TableError::NoItem)));
        };
        let changed = change(&item)?;
        self.put_changed(key, &changed)?;
        Ok(())
    }

    // Puts a changed item under its key, which has to be this one.
    fn put_changed(&mut self, key: &Key, item: &Item) -> Result<(), StoreError>
        ensures own { OnOk result (HasThisKey (schema_of self.old) key.now item.now) }
        ensures schema { schema_of self.new ≡ schema_of self.old }
        ensures ran { Ran S.Store (PutsChanged S.Store key.now item.now) self.old self.new result }
        ensures clean { WasClean S.Store self.old.conn self.new.conn }
    {
        let own_key = self.table.schema.key_of(item)?;
        if own_key.cmp(key).is_ne() {
            return Err(StoreError::Key(TableError::KeyChanged));
        }
        let key = KeyBytes::of(self.alloc, key)?;
        self.put_at(&key, item)
    }

    /// Returns the items that a query finds, in its order.
    ///
    /// # Errors
    ///
    /// Returns [`StoreError::Unreadable`] if the text of an item can't be read, and
    /// [`StoreError::Key`] if an item has no key of the table. An item with another key than its
    /// row is left out if the query doesn't find that key.
    ///
    /// Returns [`StoreError::Database`] if the database fails, and [`StoreError::OutOfMemory`] if
    /// memory runs out.
    pub fn query(&mut self, query: &Query<'_>) -> Result<Vec<Item>, StoreError>
        ensures found { IfOk result
            (λ items. All (IsFound (schema_of self.old) query.now) items.items) }
        ensures limit { IfOk result (λ items. length items.items ≤ query.now.limit) }
        ensures errors { IfErr result (QueryFails (schema_of self.old)) }
        ensures schema { schema_of self.new ≡ schema_of self.old }
    {
        let Some(bounds) = Bounds::of_query(self.alloc, query)? else {
            return Ok(Vec::new(self.alloc));
        };
        let partition = bytes_of(self.alloc, query.partition)?;
        rows::find(
            self.alloc,
            &mut self.conn,
            &self.table,
            query,
            &partition,
            &bounds,
        )
    }

    /// Returns a page of all items: those after `start_after` in the order of their keys, at most
    /// `limit`. The next page starts after the last key of this one.
    ///
    /// # Errors
    ///
    /// Returns [`StoreError::Unreadable`] if the text of an item can't be read, or if an item of
    /// the page has no key or one that isn't after the key before it: then no call of `TableStore`
    /// wrote one of the rows.
    ///
    /// Returns [`StoreError::Database`] if the database fails, and [`StoreError::OutOfMemory`] if
    /// memory runs out.
    pub fn scan(&mut self, limit: usize, start_after: Option<&Key>) -> Result<Vec<Item>, StoreError>
        ensures limit { IfOk result (λ items. length items.items ≤ limit) }
        ensures behind { IfOk result (λ items.
            AreBehind (schema_of self.old) (option_copied start_after.entry) items.items) }
        ensures schema { schema_of self.new ≡ schema_of self.old }
        ensures table { table_of self.new ≡ table_of self.old }
        ensures ran { Ran S.Store (Scans S.Store limit start_after.entry)
            self.old self.new (listed result) }
        ensures clean { WasClean S.Store self.old.conn self.new.conn }
    {
        let start = start_of(self.alloc, start_after)?;
        let items = rows::page(self.alloc, &mut self.conn, self.table.id, &start, limit)?;
        rows::in_order(&self.table.schema, start_after, items)
    }

    /// Puts each of these items under its key: all of them, or none if one fails.
    ///
    /// # Errors
    ///
    /// Returns the error of [`TableStore::put`] for the first item that fails, but never
    /// [`StoreError::Unreadable`]: it doesn't read what was there.
    ///
    /// Returns [`StoreError::Database`] if the database fails.
    pub fn write_all(&mut self, items: &[Item]) -> Result<(), StoreError>
        ensures keys { OnOk result (All (HasKey (schema_of self.old)) items.now) }
        ensures kept { OnOk result (All IsKept items.now) }
        ensures schema { schema_of self.new ≡ schema_of self.old }
        ensures ran { Ran S.Store (WritesAll S.Store items.now) self.old self.new result }
    {
        rows::run(&mut self.conn, "BEGIN")?;
        match self.put_each(items) {
            Ok(()) => rows::run(&mut self.conn, "COMMIT"),
            Err(error) => {
                let _ = rows::run(&mut self.conn, "ROLLBACK");
                Err(error)
            }
        }
    }

    // Puts an item under a key if DynamoDB keeps it, so that its text can be read again.
    fn put_at(&mut self, key: &KeyBytes, item: &Item) -> Result<(), StoreError>
        ensures kept { OnOk result (IsKept item.now) }
        ensures schema { schema_of self.new ≡ schema_of self.old }
        ensures table { table_of self.new ≡ table_of self.old }
        ensures ran { Ran S.Store (PutsAt S.Store key.now item.now) self.old self.new result }
        ensures clean { WasClean S.Store self.old.conn self.new.conn }
    {
        if !is_kept(item) {
            return Err(StoreError::TooDeep);
        }
        rows::put(self.alloc, &mut self.conn, self.table.id, key, item)
    }

    // Puts each of these items under its key, up to the first error.
    fn put_each(&mut self, items: &[Item]) -> Result<(), StoreError>
        ensures keys { OnOk result (All (HasKey (schema_of self.old)) items.now) }
        ensures kept { OnOk result (All IsKept items.now) }
        ensures schema { schema_of self.new ≡ schema_of self.old }
        ensures table { table_of self.new ≡ table_of self.old }
        ensures ran { Ran S.Store (PutsEach S.Store items.now) self.old self.new result }
        ensures clean { WasClean S.Store self.old.conn self.new.conn }
    {
        for item in items {
            self.put_over(item)?;
        }
        Ok(())
    }

    // Puts an item under its key. What was there isn't read.
    fn put_over(&mut self, item: &Item) -> Result<(), StoreError>
        ensures key { OnOk result (HasKey (schema_of self.old) item.now) }
        ensures kept { OnOk result (IsKept item.now) }
        ensures schema { schema_of self.new ≡ schema_of self.old }
        ensures table { table_of self.new ≡ table_of self.old }
        ensures ran { Ran S.Store (PutsOver S.Store item.now) self.old self.new result }
        ensures clean { WasClean S.Store self.old.conn self.new.conn }
    {
        let key = self.table.schema.key_of(item)?;
        let bytes = KeyBytes::of(self.alloc, &key)?;
        self.put_at(&bytes, item)
    }
}

// The bytes of the key after which a page starts, or bytes that are less than those of each key.
fn start_of(alloc: Global, start_after: Option<&Key>) -> Result<KeyBytes, AllocError>
    ensures { IfOk result (IsStart start_after.entry) }
{
    match start_after {
        Some(key) => KeyBytes::of(alloc, key),
        None => Ok(KeyBytes::before_all(alloc)),
    }
}
