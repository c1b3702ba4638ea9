//! The error of reading DynamoDB JSON from a text.

ghost use Rattle.std.specs.Prelude.{◌≡◌};
ghost use Rattle.dynamo_value.specs.Fault.{out_of_memory};
ghost use Rattle.dynamo_json.specs.ErrorText.{error_text};
ghost use Rattle.dynamo_json.specs.OfText.{fault_in};

use dynamo_value::{Error, ErrorImpl};
use std::alloc::AllocError;
use std::fmt;

/// The reason why a JSON text could not be read.
#[derive(Debug, Drop)]
pub enum TextError {
    /// The text isn't JSON, with the reason and its line and column. JSON with more than 127 levels
    /// and a number that is too large for any float are refused, too.
    NotJson(serde_json::Error),

    /// The text is JSON, but not that of such a value; or memory ran out.
    Fault(Error),
}

impl From<Error> for TextError {
    ghost use Rattle.dynamo_json.specs.declared.text_error.TextError.{TextError};

    ghost from_gives = { λ fault error. error ≡ TextError.Fault fault };

    fn from(fault: Error) -> TextError {
        TextError::Fault(fault)
    }
}

/// An [`AllocError`] becomes a [`TextError::Fault`] with [`ErrorImpl::OutOfMemory`].
impl From<AllocError> for TextError {
    ghost use Rattle.std.specs.Prelude.{Some};

    ghost from_gives = { λ _ error. fault_in error ≡ Some out_of_memory };

    fn from(_: AllocError) -> TextError {
        TextError::Fault(Error::from(ErrorImpl::OutOfMemory))
    }
}

impl fmt::Display for TextError {
    ghost output = { error_text };

    fn fmt<W: fmt::Write>(&self, f: &mut fmt::Formatter<W>) -> fmt::Result {
        match self {
            TextError::NotJson(error) => fmt::Display::fmt(error, f),
            TextError::Fault(fault) => fmt::Display::fmt(fault, f),
        }
    }
}

impl std::error::Error for TextError {}
