ghost use Rattle.std.specs.Prelude.{◌≡◌};
ghost use Rattle.tool_commands.specs.Failed.{no_memory, reason, reason_text};

use dynamo_json::TextError;
use dynamo_value::{Error, ErrorImpl};
use std::alloc::{AllocError, AllocFailed};
use std::fmt;

/// The reason why a command has nothing to print.
#[derive(Drop)]
pub enum Failure {
    /// The reader failed, or its end didn't come.
    Read,

    /// The input isn't JSON.
    NotJson,

    /// The input is JSON with an error, or memory ran out.
    Fault(Error),
}

impl From<Error> for Failure {
    ghost use Rattle.tool_commands.specs.declared.failure.Failure.{Failure};

    ghost from_gives = { λ error failure. failure ≡ Failure.Fault error };

    fn from(error: Error) -> Failure {
        Failure::Fault(error)
    }
}

/// An [`AllocError`] becomes a [`Failure::Fault`].
impl From<AllocError> for Failure {
    ghost from_gives = { λ _ failure. reason failure ≡ no_memory };

    fn from(_: AllocError) -> Failure {
        Failure::Fault(Error::from(ErrorImpl::OutOfMemory))
    }
}

/// [`TextError::NotJson`] becomes [`Failure::NotJson`], and a fault becomes [`Failure::Fault`].
impl From<TextError> for Failure {
    ghost use Rattle.dynamo_json.specs.OfText.{fault_in};
    ghost use Rattle.tool_commands.specs.Failed.{failed_by};

    ghost from_gives = { λ error failure. reason failure ≡ failed_by (fault_in error) };

    fn from(error: TextError) -> Failure {
        match error {
            TextError::NotJson(_) => Failure::NotJson,
            TextError::Fault(fault) => Failure::Fault(fault),
        }
    }
}

impl fmt::Display for Failure {
    ghost output = { λ failure. reason_text (reason failure) };

    fn fmt<W: fmt::Write>(&self, f: &mut fmt::Formatter<W>) -> fmt::Result {
        match self {
            Failure::Read => f.write_str("read failed"),
            Failure::NotJson => f.write_str("input is not JSON"),
            Failure::Fault(error) => fmt::Display::fmt(error, f),
        }
    }
}
