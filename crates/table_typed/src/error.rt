ghost use Rattle.std.specs.Prelude.{◌≡◌};
ghost use Rattle.table_typed.specs.ErrorText.{typed_table_error_text};
ghost use Rattle.table_typed.specs.declared.error.TypedTableError.{TypedTableError};

use dynamo_value::Error;
use std::fmt;
use table_keys::TableError;

/// The reason why a value could not be stored or read. The table is unchanged.
#[derive(Debug, Drop)]
pub enum TypedTableError {
    /// The value could not be written as an item, or not be read from its item.
    Value(Error),

    /// The table refused the item.
    Table(TableError),
}

impl From<Error> for TypedTableError {
    ghost from_gives = { λ error e. e ≡ TypedTableError.Value error };

    fn from(error: Error) -> TypedTableError {
        TypedTableError::Value(error)
    }
}

impl From<TableError> for TypedTableError {
    ghost from_gives = { λ error e. e ≡ TypedTableError.Table error };

    fn from(error: TableError) -> TypedTableError {
        TypedTableError::Table(error)
    }
}

impl fmt::Display for TypedTableError {
    ghost output = { typed_table_error_text };

    fn fmt<W: fmt::Write>(&self, f: &mut fmt::Formatter<W>) -> fmt::Result {
        match self {
            TypedTableError::Value(error) => fmt::Display::fmt(error, f),
            TypedTableError::Table(error) => fmt::Display::fmt(error, f),
        }
    }
}

impl std::error::Error for TypedTableError {}
