//! The names of tables.
use crate::refusal::{Answer, Refusal};

const LEAST: usize = 3;

const MOST: usize = 255;

/// Checks that DynamoDB has tables of this name.
///
/// # Errors
///
/// A `Text` that says what a name may be.
pub fn check_name(name: &str) -> Answer<()> {
    let is_within = LEAST <= name.len() && name.len() <= MOST;
    if is_within && name.bytes().all(may_have) {
        return Ok(());
    }
    Err(Refusal::Text(
        "a table's name has 3 to 255 characters of a to z, A to Z, 0 to 9, \"_\", \"-\" and \".\"",
    ))
}

fn may_have(byte: u8) -> bool {
    byte.is_ascii_alphanumeric() || matches!(byte, b'_' | b'-' | b'.')
}
