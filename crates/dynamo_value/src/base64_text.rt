//! Byte strings in DynamoDB JSON: the standard base64 of RFC 4648, section 4, with padding. No
//! other spelling is read.

ghost use Rattle.std.specs.Prelude.{◌≡◌, Ok, Some, IfOk, IfErr, string_bytes};
ghost use Rattle.base64.specs.GeneralPurpose.{IsBytes};
ghost use Rattle.dynamo_value.specs.Base64.{base64_text, bytes_of_base64, not_base64};
ghost use Rattle.dynamo_value.specs.Kind.{fault_of};
ghost use Rattle.dynamo_value.specs.Refusal.{Refused, refusal_in};

use crate::refusal::of_text;
use crate::{Error, ErrorImpl, Result};
use base64::engine::general_purpose::STANDARD;
use base64::{DecodeAllocError, DecodeError};
use std::alloc::{AllocError, Global};

/// Returns the base64 string of bytes.
///
/// # Errors
///
/// Returns [`AllocError`] if memory runs out.
///
/// # Examples
///
/// ```rust
/// use dynamo_value::base64_text;
///
/// assert_eq!(rt; base64_text::encode(alloc, b"Sunny")?.as_str(), "U3Vubnk=");
/// assert_eq!(rt; base64_text::decode(alloc, "U3Vubnk=")?.as_slice(), b"Sunny".as_slice());
/// assert!(rt; base64_text::decode(alloc, "U3Vubnk").is_err());
/// ```
pub fn encode(alloc: Global, bytes: &[u8]) -> Result<String, AllocError>
    ensures text { IfOk result (λ text. string_bytes text ≡ base64_text bytes.now) }
    ensures bytes { IsBytes bytes.now }
{
    STANDARD.encode(alloc, bytes)
}

/// Returns the bytes of a base64 string.
///
/// # Errors
///
/// Returns [`ErrorImpl::Message`] with a message that begins `Failed to decode base64: ` if the
/// string isn't the one that [`encode`] returns for some bytes: it lacks its padding, has bits left
/// over, or has characters of another alphabet or white space.
///
/// Returns [`ErrorImpl::OutOfMemory`] if memory runs out.
pub fn decode(alloc: Global, text: &str) -> Result<Vec<u8>>
    ensures ok { IfOk result (λ bytes. bytes_of_base64 text.now ≡ Ok bytes.items) }
    ensures exact { IfOk result (λ bytes. text.now ≡ base64_text bytes.items) }
    ensures bytes { IfOk result (λ bytes. IsBytes bytes.items) }
    ensures err { IfErr result (λ e. Refused (refusal_in (bytes_of_base64 text.now)) (fault_of e)) }
{
    match STANDARD.decode(alloc, text.as_bytes()) {
        Ok(bytes) => Ok(bytes),
        Err(DecodeAllocError::DecodeError(cause)) => Err(not_base64(alloc, cause)),
        Err(DecodeAllocError::OutOfMemory) => Err(Error::from(ErrorImpl::OutOfMemory)),
    }
}

// The error of a string that isn't base64, with the base64 crate's own cause.
fn not_base64(alloc: Global, cause: DecodeError) -> Error
    ensures { Refused (Some not_base64) (fault_of result) }
{
    // The cause is printed first, since what it prints isn't known. So the message is known to
    // begin as it should.
    let Ok(cause) = format!(in alloc; "{cause}") else {
        return Error::from(ErrorImpl::OutOfMemory);
    };
    of_text(format!(in alloc; "Failed to decode base64: {cause}"))
}
