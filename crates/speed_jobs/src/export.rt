//! Exports that are read in: lines of users and of purchases that are checked against their types,
//! and wide items that are loaded into a table. Some lines are broken, blank or of another form.
use crate::digest::{self, Digested};
use crate::lines;
use crate::purchase::Purchase;
use crate::random::Random;
use crate::stopped::Stopped;
use dynamo_de::Deserialize;
use exports::{Finding, Lines, next_value};
use serde_dynamo::samples::User;
use std::alloc::{AllocError, Global};
use table_keys::{KeyAttribute, KeyKind, KeySchema};
use table_memory::Table;

const USERS: u64 = 8_000;

const PURCHASES: u64 = 2_000;

const WIDE: u64 = 600;

impl Digested for User {
    fn digested(&self, digest: u64) -> u64 {
        let digest = digest::text(digest, self.id.as_str());
        let digest = digest::text(digest, self.name.as_str());
        digest::number(digest, u64::from(self.age))
    }
}

/// The digest of a round.
pub fn round(alloc: Global, random: &mut Random) -> Result<u64, Stopped> {
    let text = lines::users(alloc, random, USERS)?;
    let digest = checked::<User>(alloc, text.as_str(), digest::START)?;
    let text = lines::purchases(alloc, random, PURCHASES)?;
    let digest = checked::<Purchase>(alloc, text.as_str(), digest)?;
    let text = lines::wide(alloc, random, WIDE)?;
    loaded(alloc, text.as_str(), digest)
}

// Reads each line as the type.
fn checked<T: Deserialize + Digested + Drop>(
    alloc: Global,
    text: &str,
    mut digest: u64,
) -> Result<u64, Stopped> {
    let mut lines = Lines::new(alloc, text.as_bytes());
    for _ in 0..u64::MAX {
        match next_value::<T, &[u8]>(alloc, &mut lines) {
            Some(Ok(value)) => digest = value.digested(digest),
            Some(Err(finding)) => digest = found(alloc, digest, &finding)?,
            None => break,
        }
    }
    Ok(digest)
}

fn found(alloc: Global, digest: u64, finding: &Finding) -> Result<u64, AllocError> {
    let text = format!(in alloc; "{finding}")?;
    Ok(digest::text(digest, text.as_str()))
}

// Puts the item of each line into a table, and digests what is in it then.
fn loaded(alloc: Global, text: &str, mut digest: u64) -> Result<u64, Stopped> {
    let partition = KeyAttribute {
        name: String::from_str(alloc, "id")?,
        kind: KeyKind::S,
    };
    let mut table = Table::new(
        alloc,
        KeySchema {
            partition,
            sort: None,
        },
    );
    let mut lines = Lines::new(alloc, text.as_bytes());
    for _ in 0..u64::MAX {
        match lines.next_line() {
            Some(Ok(line)) => drop(table.put(line.item)?),
            Some(Err(broken)) => {
                let text = format!(in alloc; "{broken}")?;
                digest = digest::text(digest, text.as_str());
            }
            None => break,
        }
    }
    for (_, item) in table.scan(alloc, usize::MAX, None)?.iter() {
        digest = digest::item(digest, *item);
    }
    Ok(digest)
}
