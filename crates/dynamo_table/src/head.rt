//! Whether a file is a database that can be read, by its first bytes.
use crate::refusal::{Answer, Refusal};
use std::io::{ErrorKind, Read};
use std::{fs, io};

// How many bytes the header of a SQLite file has.
const HEADER: usize = 100;

// Where the header says how strings are encoded: 1 is UTF-8, 2 and 3 are UTF-16.
const ENCODING: usize = 56;

// The first bytes of a SQLite file.
const SIGNATURE: &[u8] = b"SQLite format 3\0";

/// Checks that a file is a SQLite file in UTF-8, is empty, or is what a `create` left that was
/// killed.
///
/// # Errors
///
/// A `Message` that names the file if it is none of these, or can't be read.
pub fn check_head(rt: &HostRuntime, path: &str) -> Answer<()> {
    let alloc = rt.alloc();
    Err(Refusal::message(match fault_of(rt, path) {
        Ok(None) => return Ok(()),
        Ok(Some(fault)) => format!(in alloc; "{path} {fault}"),
        Err(error) => format!(in alloc; "{path}: {error}"),
    }))
}

// What is wrong with a file, if its first bytes show it.
fn fault_of(rt: &HostRuntime, path: &str) -> io::Result<Option<&'static str>> {
    if !fs::metadata(rt, path)?.is_file() {
        return Ok(Some("is no file"));
    }
    let head = head_of(rt, path)?;
    let is_new = match head.as_slice() {
        // A new file has a first byte of zero until all else of its first page is written. It has
        // no other byte, or a log beside it.
        [] | [0] => true,
        [0, ..] => has_log(rt, path)?,
        _ => false,
    };
    Ok(if is_new {
        None
    } else if head.len() < HEADER || !head.starts_with(SIGNATURE) {
        Some("is no SQLite file")
    } else if matches!(head.get(ENCODING..), Some([0, 0, 0, 2 | 3, ..])) {
        Some("has its strings in UTF-16: only UTF-8 is read")
    } else {
        None
    })
}

// The header of a SQLite file, or all of a file where it has fewer bytes.
fn head_of(rt: &HostRuntime, path: &str) -> io::Result<Vec<u8>> {
    let mut head = Vec::new(rt.alloc());
    fs::open(rt, path)?
        .take(HEADER as u64)
        .read_to_end(&mut head)?;
    Ok(head)
}

// Whether there is a log beside the file that isn't empty.
fn has_log(rt: &HostRuntime, path: &str) -> io::Result<bool> {
    let real = fs::canonicalize(rt, path)?;
    let log = format!(in rt.alloc(); "{}-wal", real.as_str())?;
    match fs::metadata(rt, log.as_str()) {
        Ok(found) => Ok(found.len() > 0),
        Err(error) if error.kind() == ErrorKind::NotFound => Ok(false),
        Err(error) => Err(error),
    }
}
