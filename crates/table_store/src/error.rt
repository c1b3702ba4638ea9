ghost use Rattle.std.specs.Prelude.{◌≡◌};
ghost use Rattle.table_store.specs.Errors.{of_table, of_database, store_error_text};
ghost use Rattle.table_store.specs.declared.error.StoreError.{StoreError};

use sqlite::{Error, ErrorCode};
use std::alloc::{AllocError, AllocFailed};
use std::fmt;
use table_keys::TableError;

/// An error of a call on a table in a database.
#[derive(Clone, Copy, Debug, PartialEq, Eq)]
pub enum StoreError {
    /// The item or the key has an error that a table in memory also reports.
    Key(TableError),

    /// The database failed.
    Database(Error),

    /// Lists and maps nest in the item to more than the 32 levels that DynamoDB keeps.
    TooDeep,

    /// The text of an item or of a table in the database can't be read, or an item has no key or
    /// another one than its row.
    Unreadable,

    /// The database has no table of this name.
    NoTable,

    /// The database has a table of this name with other keys.
    OtherSchema,

    /// Memory ran out.
    OutOfMemory,
}

impl From<AllocError> for StoreError {
    ghost from_gives = { λ _ e. e ≡ StoreError.OutOfMemory };

    fn from(_: AllocError) -> StoreError {
        StoreError::OutOfMemory
    }
}

/// The value that couldn't be stored is dropped.
impl<T: Drop> From<AllocFailed<T>> for StoreError {
    ghost from_gives = { λ _ e. e ≡ StoreError.OutOfMemory };

    fn from(_: AllocFailed<T>) -> StoreError {
        StoreError::OutOfMemory
    }
}

/// Out of memory becomes [`StoreError::OutOfMemory`].
impl From<TableError> for StoreError {
    ghost from_gives = { λ error e. e ≡ of_table error };

    fn from(error: TableError) -> StoreError {
        match error {
            TableError::OutOfMemory => StoreError::OutOfMemory,
            _ => StoreError::Key(error),
        }
    }
}

/// Out of memory becomes [`StoreError::OutOfMemory`].
impl From<Error> for StoreError {
    ghost from_gives = { λ error e. e ≡ of_database error };

    fn from(error: Error) -> StoreError {
        match error {
            Error::SqliteFailure(ErrorCode::OutOfMemory) => StoreError::OutOfMemory,
            _ => StoreError::Database(error),
        }
    }
}

impl fmt::Display for StoreError {
    ghost output = { store_error_text };

    fn fmt<W: fmt::Write>(&self, f: &mut fmt::Formatter<W>) -> fmt::Result {
        match self {
            StoreError::Key(error) => write!(f, "{error}"),
            StoreError::Database(error) => write!(f, "{error}"),
            StoreError::TooDeep => f.write_str("the item nests deeper than 32 levels"),
            StoreError::Unreadable => f.write_str("what the database keeps does not read"),
            StoreError::NoTable => f.write_str("the database has no table of this name"),
            StoreError::OtherSchema => f.write_str("the table is there with other keys"),
            StoreError::OutOfMemory => f.write_str("out of memory"),
        }
    }
}

impl std::error::Error for StoreError {}
