//! The errors of reading DynamoDB JSON. Each function returns [`ErrorImpl::OutOfMemory`] instead if
//! memory runs out for its message.

ghost use Rattle.std.specs.Prelude.{◌≡◌, Some, MatchResult, string_bytes};
ghost use Rattle.dynamo_value.specs.Fault as fault;
ghost use Rattle.dynamo_value.specs.Kind.{fault_of};
ghost use Rattle.dynamo_value.specs.Refusal as refusal;
ghost use Rattle.dynamo_value.specs.Refusal.{Refused};
ghost use Rattle.dynamo_value.specs.SingleKey as single;

use crate::{Error, ErrorImpl, Prefix};
use std::alloc::{AllocError, Global};

/// Returns an error with this message.
pub fn message(alloc: Global, text: &str) -> Error
    ensures { Refused (Some (refusal.fault (fault.message text.now))) (fault_of result) }
{
    of_text(String::from_str(alloc, text))
}

/// Returns the error for JSON that should be an attribute value and isn't an object.
pub fn not_an_object(alloc: Global) -> Error
    ensures { Refused (Some single.not_an_object) (fault_of result) }
{
    message(
        alloc,
        r#"invalid type: expected an object with a single key "N", "S", "BOOL", "B", "NULL", "M", "L", "SS", "NS", or "BS""#,
    )
}

/// Returns the error for an object without a key.
pub fn no_key(alloc: Global) -> Error
    ensures { Refused (Some single.no_key) (fault_of result) }
{
    message(alloc, "Expected exactly one key in the object, found none")
}

/// Returns the error for an object with several keys.
pub fn several_keys(alloc: Global) -> Error
    ensures { Refused (Some single.several_keys) (fault_of result) }
{
    message(
        alloc,
        "Expected exactly one key in the object, found multiple keys",
    )
}

/// Returns the error for an object whose only key isn't a prefix.
pub fn unknown_key(alloc: Global, key: &str) -> Error
    ensures { Refused (Some (single.unknown_key key.now)) (fault_of result) }
{
    of_text(format!(in alloc; "The key '{key}' is not a known DynamoDB prefix"))
}

/// Returns the error for a value of another JSON kind than its prefix asks for. Its message isn't
/// promised.
pub fn wrong_content(alloc: Global, prefix: Prefix) -> Error
    ensures { Refused (Some refusal.any_message) (fault_of result) }
{
    let expected = match prefix {
        Prefix::N | Prefix::S | Prefix::B => "a string",
        Prefix::Bool | Prefix::Null => "a boolean",
        Prefix::M => "an object",
        Prefix::L => "an array",
        Prefix::Ss | Prefix::Ns | Prefix::Bs => "an array of strings",
    };
    let key = prefix.as_str();
    of_text(format!(in alloc; "invalid type under the key '{key}': expected {expected}"))
}

// The error of a message, or out of memory if the message could not be made.
pub(crate) fn of_text(made: Result<String, AllocError>) -> Error
    ensures { MatchResult made (λ text. fault_of result ≡ fault.message (string_bytes text))
        (λ _. fault_of result ≡ fault.out_of_memory) }
{
    match made {
        Ok(text) => Error::from(ErrorImpl::Message(text)),
        Err(_) => Error::from(ErrorImpl::OutOfMemory),
    }
}
