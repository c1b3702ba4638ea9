ghost use Rattle.std.specs.Prelude.{◌≡◌, Some};
ghost use Rattle.exports.specs.ErrorText.{fault_text, position_text};
ghost use Rattle.exports.specs.Items.{IsForm, IsLackOfMemory};

use dynamo_place::{LocatedError, Place};
use dynamo_value::{Error, ErrorImpl};
use std::alloc::AllocError;
use std::{fmt, io};

/// Where a text stops being JSON.
///
/// It is printed as `column 17`, or `line 3, column 5` if it isn't in the first line of the text.
#[derive(Clone, Copy, Debug, Drop, PartialEq, Eq)]
pub struct Position {
    /// The line of the text. The first line is 1.
    pub line: usize,

    /// The column in bytes, as serde_json reports it: 1 is the first byte of the line. It is the
    /// last byte of a text that ends too early.
    pub column: usize,
}

impl fmt::Display for Position {
    ghost output = { λ position. Some (position_text position) };

    fn fmt<W: fmt::Write>(&self, f: &mut fmt::Formatter<W>) -> fmt::Result {
        if self.line > 1 {
            write!(f, "line {}, column {}", self.line, self.column)
        } else {
            write!(f, "column {}", self.column)
        }
    }
}

/// Why a line has no item, or a file no requests.
#[derive(Debug, Drop)]
pub enum Fault {
    /// The reader failed, or memory for the line ran out.
    Read(io::Error),

    /// The line has more bytes than this, its line feed aside.
    TooLong(usize),

    /// It is not UTF-8, or not JSON, as was found at this position.
    NotJson(Position),

    /// The line's JSON isn't an object, or has no member `Item`.
    NoItem,

    /// The JSON has another form than it should have, as the error says, with its place in the
    /// item; or memory ran out.
    Form(LocatedError<Error>),
}

impl Fault {
    // The fault of form of an error of the whole.
    fn of_error(error: Error) -> Fault
        ensures { IsForm error result }
    {
        Fault::Form(LocatedError {
            place: Place::new(),
            error,
        })
    }
}

/// An error becomes a fault of form, whose place is the whole.
impl From<Error> for Fault {
    ghost from_gives = { IsForm };

    fn from(error: Error) -> Fault {
        Fault::of_error(error)
    }
}

impl From<LocatedError<Error>> for Fault {
    ghost use Rattle.exports.specs.declared.fault.Fault.{Fault};

    ghost from_gives = { λ error fault. fault ≡ Fault.Form error };

    fn from(error: LocatedError<Error>) -> Fault {
        Fault::Form(error)
    }
}

/// Out of memory is a fault of form, by the library's own error.
impl From<AllocError> for Fault {
    ghost from_gives = { λ _ fault. IsLackOfMemory fault };

    fn from(_: AllocError) -> Fault {
        Fault::of_error(Error::from(ErrorImpl::OutOfMemory))
    }
}

impl fmt::Display for Fault {
    ghost output = { fault_text };

    fn fmt<W: fmt::Write>(&self, f: &mut fmt::Formatter<W>) -> fmt::Result {
        match self {
            Fault::Read(error) => write!(f, "read failed: {error}"),
            Fault::TooLong(limit) => write!(f, "it is longer than {limit} bytes"),
            Fault::NotJson(position) => write!(f, "it is not JSON ({position})"),
            Fault::NoItem => f.write_str("it has no Item"),
            Fault::Form(error) => fmt::Display::fmt(error, f),
        }
    }
}

impl std::error::Error for Fault {}
