ghost use Rattle.std.specs.Prelude.{◌≡◌, ◌≤◌, All, IfErr, IfOk, length};
ghost use Rattle.std.specs.Result.{result_map_both};
ghost use Rattle.sqlite.specs.Values.{bound};
ghost use Rattle.table_store.specs.Calls.{Pages};
ghost use Rattle.table_store.specs.Faults.{QueryFails};
ghost use Rattle.table_store.specs.Found.{IsFound};
ghost use Rattle.table_store.specs.Runs.{AreRead, Finds, IsClean, WasClean, listed};
ghost use Rattle.table_store.specs.Statements.{following_of, following_text, limit_of, rest_of};
ghost use Rattle.table_store.specs.Statements.{rest_text};

use crate::StoreError;
use crate::rows::{Definition, read_item};
use dynamo_value::Item;
use sqlite::types::ValueRef;
use sqlite::{Alter, Connection, Row, params};
use std::alloc::Global;
use table_keys::{Bounds, KeyBytes, Query};

const FORWARD: &str = "SELECT item FROM dynamo_item WHERE table_id = ?1 AND partition_key = ?2 \
     AND sort_key >= ?3 AND sort_key < ?4 ORDER BY sort_key LIMIT ?5";

const BACKWARD: &str = "SELECT item FROM dynamo_item WHERE table_id = ?1 AND partition_key = ?2 \
     AND sort_key >= ?3 AND sort_key < ?4 ORDER BY sort_key DESC LIMIT ?5";

const REST: &str =
    "SELECT item FROM dynamo_item WHERE table_id = ?1 AND partition_key = ?2 AND sort_key > ?3 \
     ORDER BY sort_key LIMIT ?4";

const FOLLOWING: &str = "SELECT item FROM dynamo_item WHERE table_id = ?1 AND partition_key > ?2 \
     ORDER BY partition_key, sort_key LIMIT ?3";

/// Returns the items that a query finds in a table, in its direction and up to its limit.
///
/// They are read from the rows under the bytes of its partition key and within bounds of the sort
/// key. [`Bounds::of_query`] returns bounds that hold the rows that the query finds and no others.
/// So one statement reads these rows, and at most one row more: that of the key which is the high
/// bound, and isn't found, if the table has it. A backward query reads it first, and a forward one
/// last, unless it reaches its limit before.
///
/// # Errors
///
/// Returns [`StoreError::Unreadable`] if the text of an item can't be read.
///
/// Returns [`StoreError::Key`] if an item lacks its key.
///
/// Returns [`StoreError::Database`] if the database fails, and [`StoreError::OutOfMemory`] if
/// memory runs out.
pub fn find<S: Alter>(
    alloc: Global,
    conn: &mut Connection<S>,
    table: &Definition,
    query: &Query<'_>,
    partition: &[u8],
    bounds: &Bounds,
) -> Result<Vec<Item>, StoreError>
    ensures found { IfOk result (λ items. All (IsFound table.now.schema query.now) items.items) }
    ensures limit { IfOk result (λ items. length items.items ≤ query.now.limit) }
    ensures errors { IfErr result (QueryFails table.now.schema) }
{
    let mut found = Vec::new(alloc);
    let sql = if query.backward { BACKWARD } else { FORWARD };
    let limit = count_of(query.limit);
    let params = params![table.id, partition, &bounds.low, &bounds.high, limit];
    let mut rows = conn.query(sql, params)?;
    for _ in 0..u64::MAX {
        if found.len() >= query.limit {
            break;
        }
        let Some(row) = rows.next()? else {
            break;
        };
        let item = read_item(alloc, row)?;
        if query.finds(&table.schema.key_of(&item)?) {
            found.push(item)?;
        }
    }
    Ok(found)
}

/// Returns the items after a key of a table, in the order of the keys, at most `limit`: the rest
/// of its partition, and then the partitions that follow.
///
/// # Errors
///
/// Returns [`StoreError::Unreadable`] if the text of an item can't be read.
///
/// Returns [`StoreError::Database`] if the database fails, and [`StoreError::OutOfMemory`] if
/// memory runs out.
pub fn page<S: Alter>(
    alloc: Global,
    conn: &mut Connection<S>,
    id: i64,
    start: &KeyBytes,
    limit: usize,
) -> Result<Vec<Item>, StoreError>
    ensures limit { IfOk result (λ items. length items.items ≤ limit) }
    ensures ran { IsClean S.Store conn.new →
        Pages S.Store id start.now limit conn.old conn.new (listed result) }
    ensures clean { WasClean S.Store conn.old conn.new }
{
    let mut items = rest(alloc, conn, id, start, limit)?;
    let left = limit.saturating_sub(items.len());
    if left == 0 {
        return Ok(items);
    }
    let mut more = following(alloc, conn, id, start, left)?;
    items.append(&mut more)?;
    Ok(items)
}

// The items after a key in its partition.
fn rest<S: Alter>(
    alloc: Global,
    conn: &mut Connection<S>,
    id: i64,
    start: &KeyBytes,
    limit: usize,
) -> Result<Vec<Item>, StoreError>
    ensures limit { IfOk result (λ items. length items.items ≤ limit) }
    ensures ran { IsClean S.Store conn.new
        → Finds S.Store rest_text (rest_of id start.now limit) limit conn.old conn.new
        (listed result) }
    ensures clean { WasClean S.Store conn.old conn.new }
{
    let params = params![id, &start.partition, &start.sort, count_of(limit)];
    items_of(alloc, conn, REST, params, limit)
}

// The items of the partitions that follow that of a key.
fn following<S: Alter>(
    alloc: Global,
    conn: &mut Connection<S>,
    id: i64,
    start: &KeyBytes,
    limit: usize,
) -> Result<Vec<Item>, StoreError>
    ensures limit { IfOk result (λ items. length items.items ≤ limit) }
    ensures ran { IsClean S.Store conn.new
        → Finds S.Store following_text (following_of id start.now limit) limit conn.old conn.new
        (listed result) }
    ensures clean { WasClean S.Store conn.old conn.new }
{
    let params = params![id, &start.partition, count_of(limit)];
    items_of(alloc, conn, FOLLOWING, params, limit)
}

// The items of the rows that a statement finds, and of no more than the limit.
fn items_of<S: Alter>(
    alloc: Global,
    conn: &mut Connection<S>,
    sql: &str,
    params: &[ValueRef<'_>],
    limit: usize,
) -> Result<Vec<Item>, StoreError>
    ensures limit { IfOk result (λ items. length items.items ≤ limit) }
    ensures ran { IsClean S.Store conn.new →
        Finds S.Store sql.now (bound params.now) limit conn.old conn.new (listed result) }
    ensures clean { WasClean S.Store conn.old conn.new }
{
    let mut rows = conn.query_all(sql, params)?;
    rows.truncate(limit);
    read_items(alloc, &rows)
}

// The items of these rows.
fn read_items(alloc: Global, rows: &[Row]) -> Result<Vec<Item>, StoreError>
    ensures { AreRead rows.now (listed result) }
{
    let mut items = Vec::new(alloc);
    for row in rows {
        items.push(read_item(alloc, row)?)?;
    }
    Ok(items)
}

// A limit as SQLite takes it.
fn count_of(limit: usize) -> i64
    ensures { result ≡ limit_of limit }
{
    i64::try_from(limit).unwrap_or(i64::MAX)
}
