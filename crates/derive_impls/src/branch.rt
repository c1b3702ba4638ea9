// The tree of an enum's variants: the halves of a list are the sides of a choice, the left the
// larger.
use std::alloc::{AllocError, Global};
use std::fmt::Display;

// The sides that lead to the variant at this index, of so many.
fn sides(alloc: Global, index: usize, count: usize) -> Result<Vec<&'static str>, AllocError> {
    let mut found = Vec::new(alloc);
    let mut index = index;
    let mut count = count;
    while count > 1 {
        let left = count - count / 2;
        if index < left {
            found.push("Left")?;
            count = left;
        } else {
            found.push("Right")?;
            index -= left;
            count -= left;
        }
    }
    Ok(found)
}

/// The pattern of a variant, by its pattern in the list of variants.
pub fn pattern_branch(
    alloc: Global,
    index: usize,
    count: usize,
    listed: &str,
) -> Result<String, AllocError> {
    let mut pattern = String::from_str(alloc, listed)?;
    for side in sides(alloc, index, count)?.iter().rev() {
        pattern = format!(in alloc; "Choice::{side}({pattern})")?;
    }
    Ok(pattern)
}

/// The value of a variant in a ghost member, by its fields.
pub fn ghost_branch(
    alloc: Global,
    index: usize,
    count: usize,
    parts: &str,
) -> Result<String, AllocError> {
    let mut value = String::from_str(alloc, parts)?;
    for side in sides(alloc, index, count)?.iter().rev() {
        value = if value.as_str() == "_" {
            format!(in alloc; "{side} _")?
        } else {
            format!(in alloc; "{side} ({value})")?
        };
    }
    Ok(value)
}

/// What the variants have in the list of variants, from what each has: that of two sides is between
/// these two texts.
pub fn branches<T: Display>(
    alloc: Global,
    leaves: &[T],
    before: &str,
    after: &str,
) -> Result<String, AllocError> {
    match leaves {
        [] => Ok(String::new(alloc)),
        [leaf] => leaf.to_string(alloc),
        _ => {
            let (left, right) = leaves.split_at(leaves.len() - leaves.len() / 2);
            let left = branches(alloc, left, before, after)?;
            let right = branches(alloc, right, before, after)?;
            format!(in alloc; "{before}{left}, {right}{after}")
        }
    }
}
