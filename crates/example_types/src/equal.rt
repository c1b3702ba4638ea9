//! What `==` of byte strings, borrowed strings and errors promises, and the order and the hash of
//! byte strings.
ghost use Rattle.std.specs.Bool.{Decides};
ghost use Rattle.std.specs.Cmp.Lexicographic.{slice_cmp};
ghost use Rattle.std.specs.Hash as fed;
ghost use Rattle.std.specs.Ordering.{nat_cmp};
ghost use Rattle.std.specs.Prelude.{◌≡◌, ◌↔◌, IsTrue, fold};
ghost use Rattle.serde_dynamo.specs.Bytes.{octets_of, lent_octets};
ghost use Rattle.serde_dynamo.specs.Contents.{contents_of};
ghost use Rattle.serde_dynamo.specs.Kind.{fault_of};
ghost use Rattle.serde_dynamo.specs.Text.{lent_text};

use serde_dynamo::{ByteBuf, Bytes, Error, ErrorImpl, Text};
use std::cmp::Ordering;
use std::hash::{Hash, Hasher};

/// Whether two byte strings have the same bytes: `==`.
pub fn byte_strings_are_equal(bytes: &ByteBuf, other: &ByteBuf) -> bool
    ensures { IsTrue result ↔ (octets_of bytes.now ≡ octets_of other.now) }
{
    bytes == other
}

/// Compares two byte strings by their bytes, the first ones first.
pub fn compare_byte_strings(bytes: &ByteBuf, other: &ByteBuf) -> Ordering
    ensures { result ≡ slice_cmp nat_cmp (octets_of bytes.now) (octets_of other.now) }
{
    bytes.cmp(other)
}

/// Hashes a byte string as the slice of its bytes.
pub fn hash_byte_string<H: Hasher>(bytes: &ByteBuf, state: &mut H)
    ensures { state.new ≡ fold H.write state.old (fed.slice fed.u8 (octets_of bytes.now)) }
{
    bytes.hash(state);
}

/// Whether two borrowed byte strings have the same bytes: `==`.
pub fn borrowed_bytes_are_equal(bytes: &Bytes, other: &Bytes) -> bool
    ensures { Decides result (lent_octets bytes.now ≡ lent_octets other.now) }
{
    bytes == other
}

/// Whether two borrowed strings are the same: `==`.
pub fn texts_are_equal(text: &Text, other: &Text) -> bool
    ensures { Decides result (lent_text text.now ≡ lent_text other.now) }
{
    text == other
}

/// Whether two errors have the same kind with the same contents: `==`. Then they have the same
/// fault.
pub fn errors_are_equal(error: &Error, other: &Error) -> bool
    ensures fault { IsTrue result → fault_of error.now ≡ fault_of other.now }
    ensures itself { error.now ≡ other.now → IsTrue result }
    ensures contents { Decides result (contents_of error.now ≡ contents_of other.now) }
{
    error == other
}

/// Whether two kinds of errors are the same with the same contents: `==`.
pub fn kinds_are_equal(kind: &ErrorImpl, other: &ErrorImpl) -> bool
    ensures { Decides result (contents_of kind.now ≡ contents_of other.now) }
{
    kind == other
}
