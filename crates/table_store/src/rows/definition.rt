ghost use Rattle.std.specs.Prelude.{IfErr};
ghost use Rattle.table_store.specs.Faults.{IsOfDatabase, IsOfRow};

use crate::StoreError;
use sqlite::{Alter, Connection, Row, params};
use std::alloc::Global;
use table_keys::{KeyAttribute, KeySchema, TableError};

const TABLES: &str =
    "CREATE TABLE IF NOT EXISTS dynamo_table (id INTEGER PRIMARY KEY, name TEXT NOT NULL UNIQUE, \
     partition_key TEXT NOT NULL, sort_key TEXT) STRICT;\
     CREATE TABLE IF NOT EXISTS dynamo_item (table_id INTEGER NOT NULL, partition_key BLOB NOT NULL, \
     sort_key BLOB NOT NULL, item TEXT NOT NULL, PRIMARY KEY (table_id, partition_key, sort_key)) STRICT";

const ADD: &str = "INSERT INTO dynamo_table (name, partition_key, sort_key) VALUES (?1, ?2, ?3)";

const FIND: &str = "SELECT id, partition_key, sort_key FROM dynamo_table WHERE name = ?1";

/// A table of a database: its number and its key attributes, which are kept as `NAME:KIND`.
#[derive(Drop)]
pub struct Definition {
    /// The number of the table, by which its items are found.
    pub id: i64,

    /// The attributes of its keys.
    pub schema: KeySchema,
}

impl Definition {
    /// Returns the table with a name, or `None` if there is none.
    ///
    /// # Errors
    ///
    /// Returns [`StoreError::Unreadable`] if its key attributes can't be read.
    ///
    /// Returns [`StoreError::Database`] if the database fails, and [`StoreError::OutOfMemory`] if
    /// memory runs out.
    pub fn find<S: Alter>(
        alloc: Global,
        conn: &mut Connection<S>,
        name: &str,
    ) -> Result<Option<Definition>, StoreError>
        ensures errors { IfErr result IsOfRow }
    {
        let found = conn.query_all(FIND, params![name])?;
        match found.first() {
            Some(row) => Ok(Some(Definition::read(alloc, row)?)),
            None => Ok(None),
        }
    }

    /// Adds a table with a name that no table has.
    ///
    /// # Errors
    ///
    /// Returns [`StoreError::Database`] if the database fails or a table has the name, and
    /// [`StoreError::OutOfMemory`] if memory runs out.
    pub fn add<S: Alter>(
        alloc: Global,
        conn: &mut Connection<S>,
        name: &str,
        schema: &KeySchema,
    ) -> Result<(), StoreError>
        ensures errors { IfErr result IsOfDatabase }
    {
        let partition = schema.partition.to_word(alloc)?;
        let sort = match &schema.sort {
            Some(sort) => Some(sort.to_word(alloc)?),
            None => None,
        };
        conn.execute(ADD, params![name, &partition, &sort])?;
        Ok(())
    }

    // The table of a row.
    fn read(alloc: Global, row: &Row) -> Result<Definition, StoreError>
        ensures errors { IfErr result IsOfRow }
    {
        let sort: Option<String> = row.get(2)?;
        let schema = KeySchema {
            partition: attribute(alloc, row.get(1)?)?,
            sort: match sort {
                Some(word) => Some(attribute(alloc, word)?),
                None => None,
            },
        };
        Ok(Definition {
            id: row.get(0)?,
            schema,
        })
    }
}

fn attribute(alloc: Global, word: String) -> Result<KeyAttribute, StoreError>
    ensures errors { IfErr result IsOfRow }
{
    match KeyAttribute::parse(alloc, word.as_str()) {
        Ok(attribute) => Ok(attribute),
        Err(TableError::OutOfMemory) => Err(StoreError::OutOfMemory),
        Err(_) => Err(StoreError::Unreadable),
    }
}

/// Creates the two SQL tables if they don't exist: that of the tables' key attributes, and that of
/// all their items.
///
/// # Errors
///
/// Returns [`StoreError::Database`] if the database fails, and [`StoreError::OutOfMemory`] if
/// memory runs out.
pub fn make_tables<S: Alter>(conn: &mut Connection<S>) -> Result<(), StoreError>
    ensures errors { IfErr result IsOfDatabase }
{
    Ok(conn.execute_batch(TABLES)?)
}
