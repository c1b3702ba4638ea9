ghost use Rattle.std.specs.Prelude.{◌≡◌};
ghost use Rattle.table_store.specs.Errors.{of_table};
ghost use Rattle.table_store.specs.declared.error.StoreError.{StoreError};
ghost use Rattle.table_typed_store.specs.ErrorText.{typed_store_error_text};
ghost use Rattle.table_typed_store.specs.declared.error.TypedStoreError.{TypedStoreError};

use dynamo_value::Error;
use std::alloc::{AllocError, AllocFailed};
use std::fmt;
use table_keys::TableError;
use table_store::StoreError;

/// The reason why a value could not be stored or read.
#[derive(Debug, Drop)]
pub enum TypedStoreError {
    /// The value could not be written as an item, or not be read from its item.
    Value(Error),

    /// The table refused the item, or the database failed.
    Store(StoreError),
}

impl From<Error> for TypedStoreError {
    ghost from_gives = { λ error e. e ≡ TypedStoreError.Value error };

    fn from(error: Error) -> TypedStoreError {
        TypedStoreError::Value(error)
    }
}

impl From<StoreError> for TypedStoreError {
    ghost from_gives = { λ error e. e ≡ TypedStoreError.Store error };

    fn from(error: StoreError) -> TypedStoreError {
        TypedStoreError::Store(error)
    }
}

impl From<TableError> for TypedStoreError {
    ghost from_gives = { λ error e. e ≡ TypedStoreError.Store (of_table error) };

    fn from(error: TableError) -> TypedStoreError {
        TypedStoreError::Store(StoreError::from(error))
    }
}

impl From<AllocError> for TypedStoreError {
    ghost from_gives = { λ _ e. e ≡ TypedStoreError.Store StoreError.OutOfMemory };

    fn from(error: AllocError) -> TypedStoreError {
        TypedStoreError::Store(StoreError::from(error))
    }
}

/// The value that could not be stored is dropped.
impl<T: Drop> From<AllocFailed<T>> for TypedStoreError {
    ghost from_gives = { λ _ e. e ≡ TypedStoreError.Store StoreError.OutOfMemory };

    fn from(_: AllocFailed<T>) -> TypedStoreError {
        TypedStoreError::Store(StoreError::OutOfMemory)
    }
}

impl fmt::Display for TypedStoreError {
    ghost output = { typed_store_error_text };

    fn fmt<W: fmt::Write>(&self, f: &mut fmt::Formatter<W>) -> fmt::Result {
        match self {
            TypedStoreError::Value(error) => fmt::Display::fmt(error, f),
            TypedStoreError::Store(error) => fmt::Display::fmt(error, f),
        }
    }
}

impl std::error::Error for TypedStoreError {}
