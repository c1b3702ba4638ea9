ghost use Rattle.std.specs.Prelude.{◌≡◌, false, [], Err};
ghost use Rattle.dynamo_value.specs.Fault.{expected_enum};
ghost use Rattle.dynamo_value.specs.Kind.{fault_of};
ghost use Rattle.dynamo_de.specs.Shown.{shown};
ghost use Rattle.dynamo_de.specs.Source.{byte_string};
ghost use Rattle.dynamo_leaf.specs.Outright.{ShowsOutright, NamesOutright};
ghost use Rattle.dynamo_leaf.specs.Readers.{bytes_source};

use crate::{NoElements, NoEntries, NoVariant};
use dynamo_de::{Reader, Request, Showing};
use dynamo_value::{Error, ErrorImpl, Result};
use std::alloc::Global;

/// The reader of an element of a set of byte strings. It shows the bytes for every request, and
/// never fails.
#[derive(Drop)]
pub struct DeserializerBytes {
    alloc: Global,
    bytes: Vec<u8>,
}

impl DeserializerBytes {
    /// Returns the reader of these bytes. It allocates nothing. A value that is read from it is
    /// allocated in `alloc`.
    pub fn from_bytes(alloc: Global, bytes: Vec<u8>) -> Self
        ensures { bytes_source result ≡ byte_string bytes.items }
    {
        DeserializerBytes { alloc, bytes }
    }
}

impl Reader for DeserializerBytes {
    type Error = Error;

    type Elements = NoElements;

    type Entries = NoEntries;

    type Choice = NoVariant;

    ghost source = { bytes_source };

    ghost elements = { λ _. [] };

    ghost counted = { λ _. false };

    ghost entries = { λ _. [] };

    ghost chosen = { λ _. Err expected_enum };

    fn alloc(&self) -> Global {
        self.alloc
    }

    fn show(self, _request: Request) -> Result<Showing<Self, NoElements, NoEntries, NoVariant>>
        ensures { ShowsOutright fault_of bytes_source (λ _. Err expected_enum)
            (shown _request (bytes_source self)) result }
    {
        Ok(Showing::Bytes(self.bytes))
    }

    fn next_element(_rest: &mut NoElements) -> Option<Self> {
        None
    }

    fn next_entry(_rest: &mut NoEntries) -> Option<(Self, Self)> {
        None
    }

    fn choose(_choice: NoVariant) -> Result<(Self, Option<Self>)>
        ensures { NamesOutright fault_of bytes_source (Err expected_enum) result }
    {
        Err(Error::from(ErrorImpl::ExpectedEnum))
    }

    fn value_before_key() -> Error {
        Error::from(ErrorImpl::MapValueBeforeKey)
    }

    fn more_than_one_char() -> Error {
        Error::from(ErrorImpl::ExpectedChar)
    }

    fn elements_left(_rest: &NoElements) -> Option<usize> {
        None
    }

    fn entries_left(_rest: &NoEntries) -> Option<usize> {
        None
    }
}
