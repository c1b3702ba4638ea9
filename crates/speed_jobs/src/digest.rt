//! Digests of what the calls answer: FNV-1a, by Fowler, Noll and Vo, over bytes and numbers.
use dynamo_value::{AttributeValue, Item};
use std::collections::HashMap;

/// What is digested as a value of its type.
pub trait Digested {
    /// The digest with this value.
    fn digested(&self, digest: u64) -> u64;
}

/// The digest of nothing.
pub const START: u64 = 0xcbf2_9ce4_8422_2325;

const FACTOR: u64 = 0x0000_0100_0000_01b3;

/// With one more number.
pub fn number(digest: u64, number: u64) -> u64 {
    (digest ^ number).wrapping_mul(FACTOR)
}

/// With one more size.
pub fn size(digest: u64, size: usize) -> u64 {
    number(digest, u64::try_from(size).unwrap_or(u64::MAX))
}

/// With a byte string.
pub fn bytes(digest: u64, bytes: &[u8]) -> u64 {
    let mut digest = size(digest, bytes.len());
    for byte in bytes {
        digest = number(digest, u64::from(*byte));
    }
    digest
}

/// With a text.
pub fn text(digest: u64, text: &str) -> u64 {
    bytes(digest, text.as_bytes())
}

/// With an item.
pub fn item(digest: u64, item: &Item) -> u64 {
    map(digest, item.inner())
}

fn texts(digest: u64, texts: &Vec<String>) -> u64 {
    let mut digest = size(digest, texts.len());
    for one in texts {
        digest = text(digest, one.as_str());
    }
    digest
}

/// With an attribute value.
#[cycle(digest)]
pub fn value(digest: u64, value: &AttributeValue) -> u64 {
    match value {
        AttributeValue::N(number) => text(digest ^ 1, number.as_str()),
        AttributeValue::S(content) => text(digest ^ 2, content.as_str()),
        AttributeValue::Bool(content) => number(digest ^ 3, u64::from(*content)),
        AttributeValue::B(content) => bytes(digest ^ 4, content.as_slice()),
        AttributeValue::Null(content) => number(digest ^ 5, u64::from(*content)),
        AttributeValue::M(members) => map(digest ^ 6, members),
        AttributeValue::L(elements) => list(digest ^ 7, elements),
        AttributeValue::Ss(strings) => texts(digest ^ 8, strings),
        AttributeValue::Ns(numbers) => texts(digest ^ 9, numbers),
        AttributeValue::Bs(blobs) => {
            let mut digest = size(digest ^ 10, blobs.len());
            for blob in blobs {
                digest = bytes(digest, blob.as_slice());
            }
            digest
        }
    }
}

#[cycle(digest)]
fn list(digest: u64, elements: &Vec<AttributeValue>) -> u64 {
    let mut digest = size(digest, elements.len());
    for element in elements {
        digest = value(digest, element);
    }
    digest
}

// The members of a map come in any order, so their digests are added.
#[cycle(digest)]
fn map(digest: u64, members: &HashMap<String, AttributeValue>) -> u64 {
    let mut sum: u64 = 0;
    for (key, member) in members {
        sum = sum.wrapping_add(value(text(START, key.as_str()), member));
    }
    number(size(digest, members.len()), sum)
}
