//! The trait of errors. It has a module of its own, since [`Error`](crate::Error) is also the name
//! of a type.
ghost use Rattle.std.specs.Prelude.{◌≡◌, ◌⊎◌};
ghost use Rattle.dynamo_value.specs.Fault.{Fault, message, out_of_memory};
ghost use Rattle.dynamo_value.specs.Kind.{fault_of};

use crate::ErrorImpl;
use std::alloc::Global;

/// The error of a serializer or a reader, as serde's `ser::Error` and `de::Error`.
pub trait Error: Sized + Drop {
    // The fault of an error.
    ghost fault: { Self → Fault };

    /// Returns an error with this message, or [`Error::out_of_memory`] if memory runs out for the
    /// message.
    fn custom(alloc: Global, text: &str) -> Self
        ensures { (fault result ≡ message text.now) ⊎ (fault result ≡ out_of_memory) };

    /// Returns the error for out of memory. It allocates nothing.
    fn out_of_memory() -> Self
        ensures { fault result ≡ out_of_memory };
}

impl Error for ErrorImpl {
    ghost fault = { fault_of };

    fn custom(alloc: Global, text: &str) -> ErrorImpl {
        match String::from_str(alloc, text) {
            Ok(text) => ErrorImpl::Message(text),
            Err(_) => ErrorImpl::OutOfMemory,
        }
    }

    fn out_of_memory() -> ErrorImpl {
        ErrorImpl::OutOfMemory
    }
}

impl Error for crate::Error {
    ghost fault = { fault_of };

    fn custom(alloc: Global, text: &str) -> crate::Error {
        crate::Error::from(<ErrorImpl as Error>::custom(alloc, text))
    }

    fn out_of_memory() -> crate::Error {
        crate::Error::from(ErrorImpl::OutOfMemory)
    }
}
