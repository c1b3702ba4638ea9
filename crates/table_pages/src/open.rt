use crate::{InMemory, Memory};
use sqlite::{Alter, Connection, FileStore, Files, Options};
use sqlite_trees::store::Store;
use std::alloc::{AllocError, Global};

/// The store of a database in memory: the pages of a file, and their log.
pub type MemoryPages = InMemory<FileStore<Memory>>;

// The seed of the salts of a log, which tell one log in a file from the next. A log in memory is
// the only one.
const SALT_SEED: u64 = 0;

// How many pages that were read are kept. They are allocated at once.
const CACHE_PAGES: usize = 200;

// How many pages the log has before they go into the database.
const LOG_PAGES: usize = 100;

/// Opens an empty database in memory.
///
/// Statements fail by out of memory where those of a database in a file fail by the disk. Then the
/// transaction is rolled back, and the database stays open.
///
/// # Errors
///
/// Returns [`AllocError`] if memory runs out.
///
/// # Examples
///
/// ```rust
/// use sqlite::params;
///
/// let mut conn = table_pages::connect(alloc)?;
/// conn.execute_batch("CREATE TABLE note (id INTEGER PRIMARY KEY, text TEXT) STRICT")?;
/// assert_eq!(rt; conn.execute("INSERT INTO note (text) VALUES (?1)", params!["a"])?, 1);
/// ```
pub fn connect(alloc: Global) -> Result<Connection<MemoryPages>, AllocError> {
    let files = Files {
        log: Memory::new(alloc),
        db: Memory::new(alloc),
    };
    let options = Options {
        cache_pages: CACHE_PAGES,
        checkpoint_frames: LOG_PAGES,
        ..Options::new(SALT_SEED)
    };
    match Connection::open_files(alloc, files, options) {
        Ok(conn) => over_memory(alloc, conn),
        // The files are new, so that nothing but memory can be missing.
        Err(_) => Err(AllocError),
    }
}

// The connection to a database whose files are in memory. It has no transaction.
fn over_memory<S: Alter + Drop>(
    alloc: Global,
    conn: Connection<S>,
) -> Result<Connection<InMemory<S>>, AllocError> {
    let pages = conn.into_store();
    if pages.is_broken() {
        return Err(AllocError);
    }
    match Connection::over(alloc, InMemory::new(pages)) {
        Ok(conn) => Ok(conn),
        Err(_) => Err(AllocError),
    }
}
