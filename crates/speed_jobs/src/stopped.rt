use serde_dynamo::Error;
use std::alloc::{AllocError, AllocFailed};
use table_keys::TableError;
use table_typed_store::TypedStoreError;

/// Why a round has no digest.
#[derive(Debug, Drop)]
pub enum Stopped {
    /// A value was not written or read.
    Value(Error),

    /// A table in memory refused a call.
    Table(TableError),

    /// A table of one type in memory refused a call.
    Typed(table_typed::TypedTableError),

    /// A table in a database refused a call.
    Store(table_store::StoreError),

    /// A table of one type in a database refused a call.
    TypedStore(TypedStoreError),

    /// A text was not read.
    Text,

    /// No memory was found.
    OutOfMemory,
}

impl From<Error> for Stopped {
    fn from(error: Error) -> Stopped {
        Stopped::Value(error)
    }
}

impl From<TableError> for Stopped {
    fn from(error: TableError) -> Stopped {
        Stopped::Table(error)
    }
}

impl From<table_typed::TypedTableError> for Stopped {
    fn from(error: table_typed::TypedTableError) -> Stopped {
        Stopped::Typed(error)
    }
}

impl From<table_store::StoreError> for Stopped {
    fn from(error: table_store::StoreError) -> Stopped {
        Stopped::Store(error)
    }
}

impl From<TypedStoreError> for Stopped {
    fn from(error: TypedStoreError) -> Stopped {
        Stopped::TypedStore(error)
    }
}

impl From<serde_dynamo::TextError> for Stopped {
    fn from(_: serde_dynamo::TextError) -> Stopped {
        Stopped::Text
    }
}

impl From<sqlite::Error> for Stopped {
    fn from(error: sqlite::Error) -> Stopped {
        Stopped::Store(table_store::StoreError::from(error))
    }
}

impl From<AllocError> for Stopped {
    fn from(_: AllocError) -> Stopped {
        Stopped::OutOfMemory
    }
}

impl<T: Drop> From<AllocFailed<T>> for Stopped {
    fn from(_: AllocFailed<T>) -> Stopped {
        Stopped::OutOfMemory
    }
}
