ghost use Rattle.std.specs.Prelude.{◌≡◌, ℕ, List, Ok, string_bytes};
ghost use Rattle.dynamo_value.specs.Kind.{fault_of};
ghost use Rattle.dynamo_de.specs.Shown.{bool_key_shown, key_shown, number_shown, number_text_shown};
ghost use Rattle.dynamo_de.specs.Shown.{plain_text_shown};
ghost use Rattle.dynamo_leaf.specs.Leaf.{ShowsLeaf, leaf_showing, no_number_fault};

use dynamo_de::{Integer, Request, is_float_text, parse_i64, parse_u64, read_integer};
use dynamo_value::{Error, ErrorImpl, Result};
use std::num::ParseIntError;

/// What a borrowed string holds: a boolean, an integer, or the string itself, which the leaf
/// doesn't keep.
#[derive(Debug, Drop, PartialEq, Eq)]
pub enum Leaf {
    /// A boolean.
    Bool(bool),
    /// An integer.
    Integer(Integer),
    /// The string, as a number that neither an `i64` nor a `u64` holds.
    NumberText,
    /// The string.
    Text,
    /// The unit variant of this name.
    Name,
    /// A newtype struct, whose content is the same key.
    Newtype,
}

/// Why a borrowed string isn't a number.
#[derive(Debug, Drop, PartialEq, Eq)]
pub enum NoNumber {
    /// It isn't an integer of the type that is asked for.
    Integer(ParseIntError),
    /// It is neither an integer of 64 bits nor a float.
    Float,
}

impl NoNumber {
    /// Returns the error with this string. It allocates nothing.
    pub fn of_text(self, text: String) -> Error
        ensures { fault_of result ≡ no_number_fault (string_bytes text) self }
    {
        match self {
            NoNumber::Integer(cause) => Error::from(ErrorImpl::FailedToParseInt(text, cause)),
            NoNumber::Float => Error::from(ErrorImpl::FailedToParseFloat(text)),
        }
    }
}

// The number of a string if any kind of number will do.
fn show_any_number(text: &str) -> Result<Leaf, NoNumber>
    ensures { ShowsLeaf (no_number_fault text.now) text.now (number_shown text.now) result }
{
    if let Ok(number) = parse_i64(text) {
        return Ok(Leaf::Integer(Integer::I64(number)));
    }
    if let Ok(number) = parse_u64(text) {
        return Ok(Leaf::Integer(Integer::U64(number)));
    }
    if is_float_text(text) {
        Ok(Leaf::NumberText)
    } else {
        Err(NoNumber::Float)
    }
}

// The boolean that a key names.
fn show_bool(key: &str) -> Result<Leaf>
    ensures { ShowsLeaf fault_of key.now (bool_key_shown key.now) result }
{
    match key {
        "true" => Ok(Leaf::Bool(true)),
        "false" => Ok(Leaf::Bool(false)),
        _ => Err(Error::from(ErrorImpl::ExpectedString)),
    }
}

/// Returns what the string of a number holds. It allocates nothing.
///
/// If an integer type is asked for, it is an integer of that type. For any other request it is an
/// `i64` or else a `u64` if one of these holds the number, or else the string if it is a float's.
///
/// # Errors
///
/// Returns [`NoNumber::Integer`] with the cause if an integer type is asked for and the string
/// isn't an integer of that type.
///
/// Returns [`NoNumber::Float`] if none is asked for and the string is neither an integer of 64 bits
/// nor a float.
///
/// # Examples
///
/// ```rust
/// use dynamo_leaf::{Leaf, show_number};
/// use serde_dynamo::de::{Integer, IntegerKind, Request};
///
/// let asked = Request::Integer(IntegerKind::U8);
/// assert!(rt; matches!(show_number(asked, "42"), Ok(Leaf::Integer(Integer::U8(42)))));
/// assert!(rt; matches!(show_number(Request::Any, "42"), Ok(Leaf::Integer(Integer::I64(42)))));
/// assert!(rt; matches!(show_number(Request::Any, "1.5"), Ok(Leaf::NumberText)));
/// assert!(rt; show_number(asked, "256").is_err());
/// ```
pub fn show_number(request: Request, text: &str) -> Result<Leaf, NoNumber>
    ensures { ShowsLeaf (no_number_fault text.now) text.now (number_text_shown request text.now)
        result }
{
    match request {
        Request::Integer(kind) => match read_integer(kind, text) {
            Ok(number) => Ok(Leaf::Integer(number)),
            Err(cause) => Err(NoNumber::Integer(cause)),
        },
        _ => show_any_number(text),
    }
}

/// Returns what the key of a map holds. It allocates nothing.
///
/// If an integer type is asked for, it is an integer of that type. A boolean is `true` or `false`.
/// A newtype struct gets the same key again, and an enum gets the variant of this name. For any
/// other request it is the string.
///
/// # Errors
///
/// Returns [`ErrorImpl::ExpectedNum`] if an integer type is asked for and the string isn't an
/// integer of that type.
///
/// Returns [`ErrorImpl::ExpectedString`] if a boolean is asked for and the string isn't one.
pub fn show_key(request: Request, text: &str) -> Result<Leaf>
    ensures { ShowsLeaf fault_of text.now (key_shown request text.now) result }
{
    match request {
        Request::Integer(kind) => match read_integer(kind, text) {
            Ok(integer) => Ok(Leaf::Integer(integer)),
            Err(_) => Err(Error::from(ErrorImpl::ExpectedNum)),
        },
        Request::Bool => show_bool(text),
        Request::NewtypeStruct => Ok(Leaf::Newtype),
        _ => Ok(show_plain_text(request)),
    }
}

/// Returns what an element of a set of strings or the name of a variant holds: for an enum the
/// variant of this name, for any other request the string.
#[inline(always)]
pub fn show_plain_text(request: Request) -> Leaf
    ensures { (text : List ℕ) → plain_text_shown request text ≡ Ok (leaf_showing text result) }
{
    match request {
        Request::Enum => Leaf::Name,
        _ => Leaf::Text,
    }
}
