//! The file of the tables.
use crate::command::Command;
use crate::copy::read_files;
use crate::head::check_head;
use crate::refusal::{Answer, Refusal};
use crate::tables::schema_of_words;
use sqlite::{Connection, Error, ErrorCode, File, FileStore, Options, Unknown};
use sqlite_std_file::OpenError;
use std::alloc::{AllocError, Global};
use std::hash::{BuildHasher, RandomState};
use std::io::ErrorKind;
use std::{fs, io};
use table_pages::Memory;

/// The database of a file.
#[derive(Drop)]
pub enum Database {
    /// The file, which no other program can open meanwhile.
    File(Connection<FileStore<File>>),

    /// A copy in memory of a file that can't be written, and why it can't.
    Copy(Connection<FileStore<Memory>>, io::Error),
}

/// Opens the database of a file for a command. Only `create` makes a file that isn't there, and
/// none for a table whose name or keys it refuses. A command that changes nothing takes a copy of a
/// file that can't be written, or on a full disk.
///
/// # Errors
///
/// A `Text` if there is no file; those of [`check_head`]; a `Message` that names the file if it
/// can't be opened, or can't be written and the command changes a table; those of
/// [`schema_of_words`] for `create`; `Table` if the database is damaged or in use.
pub fn open_for(rt: &HostRuntime, path: &str, command: Command<'_>) -> Answer<Database> {
    if let Command::Create(table, words) = command {
        drop(schema_of_words(rt.alloc(), table, words)?);
    }
    if fs::exists(rt, path)? {
        check_head(rt, path)?;
    } else if !matches!(command, Command::Create(..)) {
        return Err(Refusal::Text("there is no such file"));
    }
    if path == ":memory:" || path.starts_with("file:") {
        return Err(Refusal::from(Error::SqliteFailure(ErrorCode::CannotOpen)));
    }
    let options = Options::new(RandomState::new(rt)?.hash_one(&0u8));
    match sqlite_std_file::open(rt, path, Unknown) {
        Ok(files) => match Connection::open_files(rt.alloc(), files, options) {
            Ok(conn) => Ok(Database::File(conn)),
            Err((Error::SqliteFailure(ErrorCode::DiskFull), left)) => {
                drop(left);
                open_copy(rt, path, command, io::Error::from(ErrorKind::StorageFull))
            }
            Err((error, _)) => Err(Refusal::from(error)),
        },
        Err(OpenError::Io(why)) if is_unwritable(why) => open_copy(rt, path, command, why),
        Err(error) => Err(refusal_of(rt.alloc(), path, error)),
    }
}

// Whether a file can't be opened since it can't be written, or since its log can't be made.
fn is_unwritable(error: io::Error) -> bool {
    matches!(
        error.kind(),
        ErrorKind::PermissionDenied
            | ErrorKind::ReadOnlyFilesystem
            | ErrorKind::StorageFull
            | ErrorKind::QuotaExceeded
    )
}

// Opens a copy of a file that can't be written, for a command that changes nothing.
fn open_copy(
    rt: &HostRuntime,
    path: &str,
    command: Command<'_>,
    why: io::Error,
) -> Answer<Database> {
    if command.changes() {
        return Err(unwritable(rt.alloc(), path, why));
    }
    match read_files(rt, path) {
        Ok(files) => match Connection::open_files(rt.alloc(), files, Options::new(0)) {
            Ok(conn) => Ok(Database::Copy(conn, why)),
            Err((error, _)) => Err(Refusal::from(error)),
        },
        Err(error) => Err(refusal_of(rt.alloc(), path, error)),
    }
}

/// The refusal of a change of a file that can't be written.
pub fn unwritable(alloc: Global, path: &str, why: io::Error) -> Refusal {
    Refusal::message(format!(in alloc; "{path} can't be written: {why}"))
}

// Why a file isn't opened.
fn refusal_of(alloc: Global, path: &str, error: OpenError) -> Refusal {
    Refusal::message(match error {
        OpenError::OutOfMemory => return Refusal::from(AllocError),
        OpenError::Busy => return Refusal::from(Error::SqliteFailure(ErrorCode::DatabaseBusy)),
        OpenError::Io(error) if error.kind() == ErrorKind::NotFound => {
            format!(in alloc; "{path}: there is no such folder")
        }
        OpenError::Io(error) if error.kind() == ErrorKind::Unsupported => {
            format!(in alloc; "{path}: the file or its log has another name, or is no plain file")
        }
        error => format!(in alloc; "{path}: {error}"),
    })
}

/// Closes the file after a command that changes a table: copies what was written into the file
/// alone. The first failure is the answer.
///
/// # Errors
///
/// The error of the answer, and `Table` if the file can't be written.
pub fn close(database: Option<Database>, answer: Answer) -> Answer {
    match database {
        Some(Database::File(conn)) => {
            let closed = conn.close();
            let outcome = answer?;
            closed?;
            Ok(outcome)
        }
        _ => answer,
    }
}
