//! The rows of DynamoDB tables in a SQLite database. Each call on items runs one SQL statement, and
//! [`page`] at most two.
ghost use Rattle.std.specs.Prelude.{◌≡◌, IfOk, MatchResult, Some};
ghost use Rattle.serde_json.specs.Read.{read};
ghost use Rattle.dynamo_value.specs.Item.{item_view};
ghost use Rattle.dynamo_json.specs.Json.{item_json};
ghost use Rattle.table_store.specs.Content.{FoundHasKey, HasThisKey};
ghost use Rattle.table_store.specs.Runs.{Counts, Deletes, Gets, GetsOwn, IfOwn, IsClean, IsItemOf};
ghost use Rattle.table_store.specs.Runs.{IsUnread, Puts, RunsText, WasClean};

mod definition;
mod order;
mod search;

use crate::StoreError;
pub use definition::{Definition, make_tables};
use dynamo_json::{DynamoJson, TextError};
use dynamo_value::{ErrorImpl, Item};
pub use order::in_order;
use order::own_key;
pub use search::{find, page};
use sqlite::types::ValueRef;
use sqlite::{Alter, Connection, Row, params};
use std::alloc::Global;
use std::str;
use table_keys::{Key, KeyBytes, KeySchema};

const GET: &str =
    "SELECT item FROM dynamo_item WHERE table_id = ?1 AND partition_key = ?2 AND sort_key = ?3";

const PUT: &str =
    "INSERT OR REPLACE INTO dynamo_item (table_id, partition_key, sort_key, item) VALUES (?1, ?2, ?3, ?4)";

const DELETE: &str =
    "DELETE FROM dynamo_item WHERE table_id = ?1 AND partition_key = ?2 AND sort_key = ?3";

const COUNT: &str = "SELECT count(*) FROM dynamo_item WHERE table_id = ?1";

// The item of a text of DynamoDB JSON.
fn item_of(alloc: Global, text: &[u8]) -> Result<Item, StoreError>
    ensures { MatchResult result (λ item. read text.now ≡ Some (item_json (item_view item)))
        IsUnread }
{
    let Ok(text) = str::from_utf8(text) else {
        return Err(StoreError::Unreadable);
    };
    match Item::from_json_text(alloc, text) {
        Ok(item) => Ok(item),
        Err(TextError::Fault(fault)) if matches!(fault.kind(), ErrorImpl::OutOfMemory) => {
            Err(StoreError::OutOfMemory)
        }
        Err(_) => Err(StoreError::Unreadable),
    }
}

/// Returns the item of a row, whose first column is its text.
///
/// # Errors
///
/// Returns [`StoreError::Unreadable`] if the text can't be read.
///
/// Returns [`StoreError::OutOfMemory`] if memory runs out.
pub(crate) fn read_item(alloc: Global, row: &Row) -> Result<Item, StoreError>
    ensures { MatchResult result (IsItemOf row.now) IsUnread }
{
    match row.get_ref(0) {
        Ok(ValueRef::Text(text)) => item_of(alloc, text),
        _ => Err(StoreError::Unreadable),
    }
}

/// Returns the item in the row of a key with these bytes, or `None` if there is none. [`get_own`]
/// also looks at the item's own key.
///
/// # Errors
///
/// Returns [`StoreError::Unreadable`] if the text of the item can't be read.
///
/// Returns [`StoreError::Database`] if the database fails, and [`StoreError::OutOfMemory`] if
/// memory runs out.
pub fn get<S: Alter>(
    alloc: Global,
    conn: &mut Connection<S>,
    id: i64,
    key: &KeyBytes,
) -> Result<Option<Item>, StoreError>
    ensures ran { IsClean S.Store conn.new → Gets S.Store id key.now conn.old conn.new result }
    ensures clean { WasClean S.Store conn.old conn.new }
{
    let found = conn.query_all(GET, params![id, &key.partition, &key.sort])?;
    match found.first() {
        Some(row) => Ok(Some(read_item(alloc, row)?)),
        None => Ok(None),
    }
}

// Returns the item if it has this key. Otherwise no call of `TableStore` wrote the row, and it is
// refused.
fn of_key(schema: &KeySchema, key: &Key, item: Item) -> Result<Item, StoreError>
    ensures own { IfOk result (λ own. (own ≡ item) × HasThisKey schema.now key.now own) }
    ensures exact { IfOwn schema.now key.now item item result }
{
    if own_key(schema, &item)?.cmp(key).is_ne() {
        return Err(StoreError::Unreadable);
    }
    Ok(item)
}

/// Returns the item under a key with these bytes, or `None` if there is none. The item has this
/// key.
///
/// # Errors
///
/// Returns [`StoreError::Unreadable`] if the text of the item can't be read, or if the item has
/// another key or none: then no call of `TableStore` wrote the row.
///
/// Returns [`StoreError::Database`] if the database fails, and [`StoreError::OutOfMemory`] if
/// memory runs out.
pub fn get_own<S: Alter>(
    alloc: Global,
    conn: &mut Connection<S>,
    table: &Definition,
    key: &Key,
    bytes: &KeyBytes,
) -> Result<Option<Item>, StoreError>
    ensures key { IfOk result (FoundHasKey table.now.schema key.now) }
    ensures ran { IsClean S.Store conn.new →
        GetsOwn S.Store table.now key.now bytes.now conn.old conn.new result }
    ensures clean { WasClean S.Store conn.old conn.new }
{
    match get(alloc, conn, table.id, bytes)? {
        Some(item) => Ok(Some(of_key(&table.schema, key, item)?)),
        None => Ok(None),
    }
}

/// Puts an item under a key. An item that was there is replaced.
///
/// # Errors
///
/// Returns [`StoreError::Database`] if the database fails, and [`StoreError::OutOfMemory`] if
/// memory runs out.
pub fn put<S: Alter>(
    alloc: Global,
    conn: &mut Connection<S>,
    id: i64,
    key: &KeyBytes,
    item: &Item,
) -> Result<(), StoreError>
    ensures ran { IsClean S.Store conn.new
        → Puts S.Store id key.now item.now conn.old conn.new result }
    ensures clean { WasClean S.Store conn.old conn.new }
{
    let Ok(text) = item.to_json_text(alloc) else {
        return Err(StoreError::OutOfMemory);
    };
    conn.execute(PUT, params![id, &key.partition, &key.sort, &text])?;
    Ok(())
}

/// Deletes the item under a key, if there is one.
///
/// # Errors
///
/// Returns [`StoreError::Database`] if the database fails, and [`StoreError::OutOfMemory`] if
/// memory runs out.
pub fn delete<S: Alter>(conn: &mut Connection<S>, id: i64, key: &KeyBytes) -> Result<(), StoreError>
    ensures ran { IsClean S.Store conn.new → Deletes S.Store id key.now conn.old conn.new result }
    ensures clean { WasClean S.Store conn.old conn.new }
{
    conn.execute(DELETE, params![id, &key.partition, &key.sort])?;
    Ok(())
}

/// Returns the number of items of a table.
///
/// # Errors
///
/// Returns [`StoreError::Database`] if the database fails, and [`StoreError::OutOfMemory`] if
/// memory runs out.
pub fn count<S: Alter>(conn: &mut Connection<S>, id: i64) -> Result<u64, StoreError>
    ensures ran { IsClean S.Store conn.new → Counts S.Store id conn.old conn.new result }
    ensures clean { WasClean S.Store conn.old conn.new }
{
    let row = conn.query_row(COUNT, params![id])?;
    Ok(row.get(0)?)
}

/// Runs a statement that begins or ends a transaction.
///
/// # Errors
///
/// Returns [`StoreError::Database`] if the database fails, and [`StoreError::OutOfMemory`] if
/// memory runs out.
pub fn run<S: Alter>(conn: &mut Connection<S>, sql: &str) -> Result<(), StoreError>
    ensures ran { IsClean S.Store conn.new → RunsText S.Store sql.now conn.old conn.new result }
    ensures clean { WasClean S.Store conn.old conn.new }
{
    Ok(conn.execute_batch(sql)?)
}
