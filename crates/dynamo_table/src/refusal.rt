//! How a command ends.
use crate::text::LEVELS;
use exports::{Fault, Position};
use sqlite::Error;
use std::alloc::{AllocError, AllocFailed};
use std::{fmt, io};
use table_keys::TableError;
use table_store::StoreError;

/// How a command ended that was not refused.
#[derive(Clone, Copy)]
pub enum Outcome {
    /// It did what its words ask for.
    Done,

    /// It did not, and has printed why.
    Told,

    /// Its words are no command.
    Usage,
}

/// What a command or a part of it gives, or why it was refused.
pub type Answer<T = Outcome> = Result<T, Refusal>;

/// Why a command was refused.
#[derive(Debug, Drop)]
pub enum Refusal {
    /// A message that names what is wrong.
    Message(String),

    /// A message that is always the same.
    Text(&'static str),

    /// What a table or its database refuses.
    Table(StoreError),

    /// What is wrong with an input.
    Input(Fault),

    /// The JSON of an input nests deeper than is read, from this position on.
    TooDeep(Position),

    /// What reading or printing failed with.
    Io(io::Error),
}

impl Refusal {
    /// The refusal with this message, or the one that there was no memory for it.
    pub fn message(text: Result<String, AllocError>) -> Refusal {
        match text {
            Ok(text) => Refusal::Message(text),
            Err(error) => Refusal::from(error),
        }
    }
}

impl From<StoreError> for Refusal {
    fn from(error: StoreError) -> Refusal {
        Refusal::Table(error)
    }
}

impl From<TableError> for Refusal {
    fn from(error: TableError) -> Refusal {
        Refusal::Table(StoreError::from(error))
    }
}

impl From<Error> for Refusal {
    fn from(error: Error) -> Refusal {
        Refusal::Table(StoreError::from(error))
    }
}

impl From<AllocError> for Refusal {
    fn from(error: AllocError) -> Refusal {
        Refusal::Table(StoreError::from(error))
    }
}

impl<T: Drop> From<AllocFailed<T>> for Refusal {
    fn from(_: AllocFailed<T>) -> Refusal {
        Refusal::Table(StoreError::OutOfMemory)
    }
}

impl From<Fault> for Refusal {
    fn from(fault: Fault) -> Refusal {
        match fault {
            Fault::Read(error) => Refusal::Io(error),
            fault => Refusal::Input(fault),
        }
    }
}

impl From<io::Error> for Refusal {
    fn from(error: io::Error) -> Refusal {
        Refusal::Io(error)
    }
}

impl fmt::Display for Refusal {
    fn fmt<W: fmt::Write>(&self, f: &mut fmt::Formatter<W>) -> fmt::Result {
        match self {
            Refusal::Message(text) => f.write_str(text.as_str()),
            Refusal::Text(text) => f.write_str(text),
            Refusal::Table(error) => write!(f, "{error}"),
            Refusal::Input(fault) => write!(f, "{fault}"),
            Refusal::TooDeep(position) => {
                write!(f, "it nests deeper than {LEVELS} levels ({position})")
            }
            Refusal::Io(error) => write!(f, "{error}"),
        }
    }
}
