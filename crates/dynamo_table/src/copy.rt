//! A copy in memory of a file that can't be written.

use sqlite::Files;
use sqlite_std_file::OpenError;
use std::io::{ErrorKind, Read};
use std::os::unix::fs::MetadataExt;
use std::{fs, io};
use table_pages::Memory;

// How many bytes the header of a log has. Each log has another one.
const LOG_HEADER: u64 = 32;

/// Reads the database file at a path and its log into memory.
///
/// # Errors
///
/// Returns `Busy` if another program writes the file meanwhile, `HotJournal` if SQLite left a
/// rollback journal, `Io` if a file can't be read, and `OutOfMemory` if memory runs out.
pub fn read_files(rt: &HostRuntime, path: &str) -> Result<Files<Memory>, OpenError> {
    // As in SQLite, the log lies where a link leads.
    let real = fs::canonicalize(rt, path)?;
    let written = last_write(rt, real.as_str())?;
    let journal = bytes_beside(rt, real.as_str(), "-journal", 1)?;
    if journal.first().is_some_and(|byte| *byte != 0) {
        return Err(OpenError::HotJournal);
    }
    // A file that can't be written can't be locked. The log is read last, and has all commits that
    // are not in the file, unless another log began meanwhile.
    let begun = bytes_beside(rt, real.as_str(), "-wal", LOG_HEADER)?;
    let db = fs::read(rt, real.as_str())?;
    let log = bytes_beside(rt, real.as_str(), "-wal", u64::MAX)?;
    if last_write(rt, real.as_str())? != written || !log.starts_with(begun.as_slice()) {
        return Err(OpenError::Busy);
    }
    Ok(Files {
        log: Memory::from(log),
        db: Memory::from(db),
    })
}

// When a file was last written, in seconds and nanoseconds.
fn last_write(rt: &HostRuntime, path: &str) -> io::Result<(i64, i64)> {
    let found = fs::metadata(rt, path)?;
    Ok((found.mtime(), found.mtime_nsec()))
}

// The first bytes, and at most so many, of the file whose name is this path and this ending; none
// if there is no such file.
fn bytes_beside(
    rt: &HostRuntime,
    path: &str,
    ending: &str,
    most: u64,
) -> Result<Vec<u8>, OpenError> {
    let mut bytes = Vec::new(rt.alloc());
    let name = format!(in rt.alloc(); "{path}{ending}")?;
    match fs::open(rt, name.as_str()) {
        Ok(file) => {
            file.take(most).read_to_end(&mut bytes)?;
            Ok(bytes)
        }
        Err(error) if error.kind() == ErrorKind::NotFound => Ok(bytes),
        Err(error) => Err(OpenError::Io(error)),
    }
}
