ghost use Rattle.std.specs.Prelude.{◌≡◌, Some};
ghost use Rattle.table_keys.specs.ErrorText.{error_text};
ghost use Rattle.table_keys.specs.declared.error.TableError.TheVariants.{OutOfMemory};

use std::alloc::{AllocError, AllocFailed};
use std::fmt;

/// An error of a call on a table. The table then has the items that it had.
#[derive(Clone, Copy, Debug, PartialEq, Eq)]
pub enum TableError {
    /// An attribute of the key is missing.
    Missing,

    /// A value of a sort key is given, and the table has no sort key.
    NoSortKey,

    /// The value of an attribute of the key is of another kind.
    WrongKind,

    /// A string or a byte string of the key is empty.
    Empty,

    /// A number of the key isn't one that DynamoDB keeps.
    NotANumber,

    /// The argument for a byte string of the key isn't base64.
    NotBase64,

    /// The argument for a key attribute isn't of the form `NAME:KIND`.
    NotAnAttribute,

    /// An update found no item under the key.
    NoItem,

    /// An update would give the item another key.
    KeyChanged,

    /// The condition doesn't hold.
    ConditionFailed,

    /// Memory ran out.
    OutOfMemory,
}

impl From<AllocError> for TableError {
    ghost from_gives = { λ _ e. e ≡ OutOfMemory };

    fn from(_: AllocError) -> TableError {
        TableError::OutOfMemory
    }
}

/// The value that couldn't be stored is dropped.
impl<T: Drop> From<AllocFailed<T>> for TableError {
    ghost from_gives = { λ _ e. e ≡ OutOfMemory };

    fn from(_: AllocFailed<T>) -> TableError {
        TableError::OutOfMemory
    }
}

impl fmt::Display for TableError {
    ghost output = { λ error. Some (error_text error) };

    fn fmt<W: fmt::Write>(&self, f: &mut fmt::Formatter<W>) -> fmt::Result {
        f.write_str(match self {
            TableError::Missing => "an attribute of the key is missing",
            TableError::NoSortKey => "the table has no sort key",
            TableError::WrongKind => "an attribute of the key is of another kind",
            TableError::Empty => "a text or a byte string of the key is empty",
            TableError::NotANumber => "a number of the key is no number",
            TableError::NotBase64 => "a byte string of the key is no base64 text",
            TableError::NotAnAttribute => "a key attribute is not of the form NAME:KIND",
            TableError::NoItem => "no item has the key",
            TableError::KeyChanged => "the update would give the item another key",
            TableError::ConditionFailed => "the condition does not hold",
            TableError::OutOfMemory => "out of memory",
        })
    }
}

impl std::error::Error for TableError {}
