ghost use Rattle.std.specs.Prelude.{◌≡◌, IfErr, IfOk};
ghost use Rattle.table_keys.specs.KeyOf.{words_of};
ghost use Rattle.table_store.specs.Content.{schema_of};
ghost use Rattle.table_store.specs.Faults.{CreateFails, IsOfDatabase, OpenFails};

use crate::{StoreError, TableStore};
use sqlite::{Connection, File, FileStore, MemStore};
use std::alloc::Global;
use table_keys::KeySchema;
use table_pages::MemoryPages;

/// Returns an empty table in a database in memory.
///
/// The database is the paged one of [`create_at`], over files in memory. A put, an update or a
/// delete visits as many rows as the logarithm of the number of items, and writes the pages that it
/// changes to a log. About once in a hundred written pages the log goes into the database.
///
/// If memory runs out in a call, the call returns [`StoreError::OutOfMemory`], the items are as
/// they were, and the next call works.
///
/// # Errors
///
/// Returns [`StoreError::OutOfMemory`] if memory runs out. Otherwise returns the error of
/// [`TableStore::create`].
///
/// # Examples
///
/// ```rust
/// use table_keys::KeySchema;
/// use table_store::create_in_memory_file;
///
/// let schema = KeySchema::parse(alloc, &["customer:S", "placed_at:N"])?;
/// let mut orders = create_in_memory_file(alloc, "orders", schema)?;
/// assert_eq!(rt; orders.count()?, 0);
/// ```
pub fn create_in_memory_file(
    alloc: Global,
    name: &str,
    schema: KeySchema,
) -> Result<TableStore<MemoryPages>, StoreError>
    ensures schema { IfOk result (λ store. words_of (schema_of store) ≡ words_of schema) }
    ensures errors { IfErr result CreateFails }
{
    TableStore::create(alloc, table_pages::connect(alloc)?, name, schema)
}

/// Returns an empty table in a database in memory that keeps its rows in one list.
///
/// A put that replaces an item, an update and a delete visit all rows of the database. Prefer
/// [`create_in_memory_file`], or `table_memory` if no database is needed.
///
/// # Errors
///
/// Returns [`StoreError::OutOfMemory`] if memory runs out. Otherwise returns the error of
/// [`TableStore::create`].
pub fn create_in_memory(
    alloc: Global,
    name: &str,
    schema: KeySchema,
) -> Result<TableStore<MemStore>, StoreError>
    ensures schema { IfOk result (λ store. words_of (schema_of store) ≡ words_of schema) }
    ensures errors { IfErr result CreateFails }
{
    let conn = Connection::open_in_memory(alloc)?;
    TableStore::create(alloc, conn, name, schema)
}

/// Returns the table with this name in a file. The file and the table are created if there are
/// none.
///
/// # Errors
///
/// Returns [`StoreError::OtherSchema`] if there is a table of this name with other keys, and
/// [`StoreError::Unreadable`] if its key attributes can't be read.
///
/// Returns [`StoreError::NoTable`] if the file doesn't show the table that was added.
///
/// Returns [`StoreError::Database`] if the file isn't a database, or can't be opened or written,
/// and [`StoreError::OutOfMemory`] if memory runs out.
pub fn create_at(
    rt: &HostRuntime,
    path: &str,
    name: &str,
    schema: KeySchema,
) -> Result<TableStore<FileStore<File>>, StoreError>
    ensures schema { IfOk result (λ store. words_of (schema_of store) ≡ words_of schema) }
    ensures errors { IfErr result CreateFails }
{
    TableStore::create(rt.alloc(), connect(rt, path)?, name, schema)
}

/// Returns the table with this name in a file, with its keys. The file is created if there is none.
///
/// # Errors
///
/// Returns [`StoreError::NoTable`] if the file has no such table, and [`StoreError::Unreadable`] if
/// its key attributes can't be read.
///
/// Returns [`StoreError::Database`] if the file isn't a database, or can't be opened or written,
/// and [`StoreError::OutOfMemory`] if memory runs out.
pub fn open_at(
    rt: &HostRuntime,
    path: &str,
    name: &str,
) -> Result<TableStore<FileStore<File>>, StoreError>
    ensures errors { IfErr result OpenFails }
{
    TableStore::open(rt.alloc(), connect(rt, path)?, name)
}

// The database of a file.
fn connect(rt: &HostRuntime, path: &str) -> Result<Connection<FileStore<File>>, StoreError>
    ensures errors { IfErr result IsOfDatabase }
{
    Ok(Connection::open(rt, path)?)
}

// Copies what was written into the file alone, and closes it.
fn close_files(conn: Connection<FileStore<File>>) -> Result<(), StoreError>
    ensures errors { IfErr result IsOfDatabase }
{
    match conn.close() {
        Ok(()) => Ok(()),
        Err(error) => Err(StoreError::from(error)),
    }
}

impl TableStore<FileStore<File>> {
    /// Copies the log into the database file, and closes it. Without this call the log beside the
    /// file has to stay with it.
    ///
    /// # Errors
    ///
    /// Returns [`StoreError::Database`] if the file can't be written, and
    /// [`StoreError::OutOfMemory`] if memory runs out.
    pub fn close(self) -> Result<(), StoreError>
        ensures errors { IfErr result IsOfDatabase }
    {
        close_files(self.into_connection())
    }
}
