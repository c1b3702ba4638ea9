// The faults of writing and of reading.
use dynamo_value::{Error, ErrorImpl};
use std::alloc::{AllocError, Global};

// How deep lists and maps nest at most.
pub(crate) const LEVELS: usize = 127;

pub(crate) fn fault(kind: ErrorImpl) -> Error {
    Error::from(kind)
}

pub(crate) fn no_memory() -> Error {
    Error::from(ErrorImpl::OutOfMemory)
}

// An error with a message.
pub(crate) fn message(alloc: Global, text: &str) -> Error {
    told(String::from_str(alloc, text))
}

// An error about a name, as serde has it: the name is in backquotes.
pub(crate) fn about(alloc: Global, what: &str, name: &str) -> Error {
    told(format!(in alloc; "{what} `{name}`"))
}

pub(crate) fn too_deep(alloc: Global) -> Error {
    message(alloc, "lists and maps nest more than 127 levels")
}

fn told(made: Result<String, AllocError>) -> Error {
    match made {
        Ok(text) => Error::from(ErrorImpl::Message(text)),
        Err(_) => no_memory(),
    }
}
