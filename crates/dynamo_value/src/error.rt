ghost use Rattle.std.specs.Prelude.{◌≡◌};
ghost use Rattle.std.specs.Str.Parse.{error_kind};
ghost use Rattle.dynamo_value.specs.Fault.{out_of_memory, float_cause};
ghost use Rattle.dynamo_value.specs.Kind.{fault_of};
ghost use Rattle.dynamo_value.specs.KindText.{kind_text, integer_cause};

use std::alloc::{AllocError, AllocFailed};
use std::fmt;
use std::marker::Model;
use std::num::{IntErrorKind, ParseIntError};

/// The result of writing or reading: a value, or an [`Error`].
pub type Result<T, E = Error> = std::result::Result<T, E>;

/// The reason why a value could not be written or read.
///
/// An error prints its message, and [`Error::kind`] returns its kind. The kinds that the Rust crate
/// has print its messages. An error implements `std::error::Error`, so `?` carries it into
/// `anyhow::Error`.
///
/// # Examples
///
/// ```rust
/// use serde_dynamo::{AttributeValue, ErrorImpl, from_attribute_value};
///
/// let Err(error) = from_attribute_value::<u8>(alloc, AttributeValue::Bool(true)) else {
///     anyhow::bail!("a boolean is no number");
/// };
/// assert!(rt; *error.kind() == ErrorImpl::ExpectedNum);
/// assert_eq!(rt; error.to_string(alloc)?.as_str(), "Expected num");
/// ```
#[derive(Debug, Drop, PartialEq, Eq)]
pub struct Error {
    kind: ErrorImpl,
}

impl Model for Error {
    ghost use Rattle.dynamo_value.specs.declared.error.ErrorImpl.{ErrorImpl};

    ghost Value = { ErrorImpl };

    ghost view = { λ e. e.kind };

    ghost inverse = { λ k. record { kind = k } };
}

impl Error {
    /// Returns the kind of the error, with its contents.
    pub fn kind(&self) -> &ErrorImpl
        ensures { result.now ≡ self.now }
    {
        &self.kind
    }
}

/// The kinds of errors.
#[derive(Debug, Drop, PartialEq, Eq)]
pub enum ErrorImpl {
    /// An error with a message of its own, as an implementation of `Serialize`, `Deserialize` or
    /// `Visitor` reports it.
    Message(String),

    /// The value was to be written as an item and isn't a map or a struct.
    NotMaplike,

    /// The value was to be written as a set and isn't a list.
    NotSetlike,

    /// A string was expected.
    ExpectedString,

    /// A map was expected.
    ExpectedMap,

    /// A list or a set was expected.
    ExpectedSeq,

    /// A number was expected.
    ExpectedNum,

    /// A boolean was expected.
    ExpectedBool,

    /// A string of one character was expected.
    ExpectedChar,

    /// Null was expected.
    ExpectedUnit,

    /// Null was expected, for a struct without fields.
    ExpectedUnitStruct,

    /// A string or a map was expected, for an enum.
    ExpectedEnum,

    /// A byte string was expected.
    ExpectedBytes,

    /// A map of one entry was expected, for a variant of an enum.
    ExpectedSingleKey,

    /// The string isn't an integer of the expected type. It holds the string and the cause.
    FailedToParseInt(String, ParseIntError),

    /// The string isn't a number. It holds the string.
    FailedToParseFloat(String),

    /// The key of a map is written as something that is no string.
    KeyMustBeAString,

    /// `serialize_key` was called again before `serialize_value`.
    SerializeMapKeyCalledTwice,

    /// `serialize_value` was called before `serialize_key`.
    SerializeMapValueBeforeKey,

    /// An element of a set of strings is written as something else.
    StringSetExpectedType,

    /// An element of a set of numbers is written as something else.
    NumberSetExpectedType,

    /// An element of a set of byte strings is written as something else.
    BinarySetExpectedType,

    /// Memory ran out.
    OutOfMemory,

    /// `next_value` was called before `next_key`.
    MapValueBeforeKey,
}

impl From<ErrorImpl> for Error {
    ghost from_gives = { λ kind e. e ≡ kind };

    fn from(kind: ErrorImpl) -> Error {
        Error { kind }
    }
}

/// An [`AllocError`] becomes [`ErrorImpl::OutOfMemory`].
impl From<AllocError> for Error {
    ghost from_gives = { λ _ e. fault_of e ≡ out_of_memory };

    fn from(_: AllocError) -> Error {
        Error::from(ErrorImpl::OutOfMemory)
    }
}

/// An [`AllocFailed`] becomes [`ErrorImpl::OutOfMemory`]. The value that could not be stored is
/// dropped.
impl<T: Drop> From<AllocFailed<T>> for Error {
    ghost from_gives = { λ _ e. fault_of e ≡ out_of_memory };

    fn from(_: AllocFailed<T>) -> Error {
        Error::from(AllocError)
    }
}

impl fmt::Display for Error {
    ghost output = { kind_text };

    fn fmt<W: fmt::Write>(&self, f: &mut fmt::Formatter<W>) -> fmt::Result {
        fmt::Display::fmt(&self.kind, f)
    }
}

impl fmt::Display for ErrorImpl {
    ghost output = { kind_text };

    fn fmt<W: fmt::Write>(&self, f: &mut fmt::Formatter<W>) -> fmt::Result {
        match self {
            ErrorImpl::Message(text) => f.write_str(text),
            ErrorImpl::NotMaplike => f.write_str("Not a map-like object"),
            ErrorImpl::NotSetlike => f.write_str("Not a set-like sequence"),
            ErrorImpl::ExpectedString => f.write_str("Expected string"),
            ErrorImpl::ExpectedMap => f.write_str("Expected map"),
            ErrorImpl::ExpectedSeq => f.write_str("Expected seq"),
            ErrorImpl::ExpectedNum => f.write_str("Expected num"),
            ErrorImpl::ExpectedBool => f.write_str("Expected bool"),
            ErrorImpl::ExpectedChar => f.write_str("Expected char"),
            ErrorImpl::ExpectedUnit => f.write_str("Expected unit"),
            ErrorImpl::ExpectedUnitStruct => f.write_str("Expected unit struct"),
            ErrorImpl::ExpectedEnum => f.write_str("Expected enum"),
            ErrorImpl::ExpectedBytes => f.write_str("Expected binary data"),
            ErrorImpl::ExpectedSingleKey => f.write_str("Expected an item with a single key"),
            ErrorImpl::FailedToParseInt(text, cause) => {
                let cause = why_no_integer(cause);
                write!(f, "Failed to parse '{text}' as an integer: {cause}")
            }
            ErrorImpl::FailedToParseFloat(text) => {
                let cause = why_no_float(text);
                write!(f, "Failed to parse '{text}' as a float: {cause}")
            }
            ErrorImpl::KeyMustBeAString => f.write_str("Key must be a string"),
            ErrorImpl::SerializeMapKeyCalledTwice => {
                f.write_str("SerializeMap::serialize_key called twice")
            }
            ErrorImpl::SerializeMapValueBeforeKey => f.write_str(
                "SerializeMap::serialize_value called before SerializeMap::serialize_key",
            ),
            ErrorImpl::StringSetExpectedType => {
                f.write_str("String set element does not serialize to string")
            }
            ErrorImpl::NumberSetExpectedType => {
                f.write_str("Number set element does not serialize to number")
            }
            ErrorImpl::BinarySetExpectedType => {
                f.write_str("Binary set element does not serialize to binary")
            }
            ErrorImpl::OutOfMemory => f.write_str("out of memory"),
            ErrorImpl::MapValueBeforeKey => {
                f.write_str("MapAccess::next_value called before MapAccess::next_key")
            }
        }
    }
}

impl std::error::Error for Error {}

impl std::error::Error for ErrorImpl {}

// The message of Rust's `ParseIntError`.
fn why_no_integer(cause: &ParseIntError) -> &'static str
    ensures { result.now ≡ integer_cause (error_kind cause.now) }
{
    match cause.kind() {
        IntErrorKind::Empty => "cannot parse integer from empty string",
        IntErrorKind::InvalidDigit => "invalid digit found in string",
        IntErrorKind::PosOverflow => "number too large to fit in target type",
        IntErrorKind::NegOverflow => "number too small to fit in target type",
        IntErrorKind::Zero => "number would be zero for non-zero type",
    }
}

// The message of Rust's `ParseFloatError` for the string.
fn why_no_float(text: &str) -> &'static str
    ensures { result.now ≡ float_cause text.now }
{
    if text.is_empty() {
        "cannot parse float from empty string"
    } else {
        "invalid float literal"
    }
}
