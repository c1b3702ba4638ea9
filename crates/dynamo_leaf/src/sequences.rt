ghost use Rattle.std.specs.Prelude.{◌≡◌, map, None, string_bytes};
ghost use Rattle.dynamo_de.specs.Source.{byte_string, each};
ghost use Rattle.dynamo_leaf.specs.Readers.{texts_left, bytes_left};

use crate::{DeserializerBytes, NumberText, PlainText, TextDeserializer, TextKind};
use dynamo_de::{DeserializeSeed, SeqAccess};
use dynamo_value::{Error, Result};
use std::alloc::Global;
use std::marker::PhantomData;
use std::vec::IntoIter;

/// The elements of a set of strings, each read by a
/// [`StringDeserializer`](crate::StringDeserializer).
pub type DeserializerSeqStrings = DeserializerSeqTexts<PlainText>;

/// The elements of a set of numbers, each read by a
/// [`DeserializerNumber`](crate::DeserializerNumber).
pub type DeserializerSeqNumbers = DeserializerSeqTexts<NumberText>;

/// The elements of a set of strings of one kind, each read by a [`TextDeserializer`].
#[derive(Drop)]
pub struct DeserializerSeqTexts<P> {
    alloc: Global,
    texts: IntoIter<String>,
    of: PhantomData<P>,
}

impl<P: TextKind> DeserializerSeqTexts<P> {
    /// Returns the elements of this set, in order. It allocates nothing. A value that is read from
    /// it is allocated in `alloc`.
    pub fn from_vec(alloc: Global, texts: Vec<String>) -> Self
        ensures { texts_left P.of_text result ≡ each P.of_text (map string_bytes texts.items) }
    {
        DeserializerSeqTexts {
            alloc,
            texts: texts.into_iter(),
            of: PhantomData,
        }
    }
}

impl<P: TextKind> SeqAccess for DeserializerSeqTexts<P> {
    type Error = Error;

    ghost left = { texts_left P.of_text };

    fn next_element_seed<T: DeserializeSeed>(&mut self, seed: T) -> Result<Option<T::Value>> {
        match self.texts.next() {
            None => Ok(None),
            Some(element) => {
                let element = TextDeserializer::<P>::from_string(self.alloc, element);
                Ok(Some(seed.deserialize(element)?))
            }
        }
    }

    /// Returns `None`: the elements of a set aren't counted.
    fn size_hint(&self) -> Option<usize>
        ensures { result ≡ None }
    {
        None
    }
}

/// The elements of a set of byte strings, each read by a [`DeserializerBytes`].
#[derive(Drop)]
pub struct DeserializerSeqBytes {
    alloc: Global,
    byte_strings: IntoIter<Vec<u8>>,
}

impl DeserializerSeqBytes {
    /// Returns the elements of this set, in order. It allocates nothing. A value that is read from
    /// it is allocated in `alloc`.
    pub fn from_vec(alloc: Global, byte_strings: Vec<Vec<u8>>) -> Self
        ensures { bytes_left result ≡ each byte_string (map (λ b. b.items) byte_strings.items) }
    {
        DeserializerSeqBytes {
            alloc,
            byte_strings: byte_strings.into_iter(),
        }
    }
}

impl SeqAccess for DeserializerSeqBytes {
    type Error = Error;

    ghost left = { bytes_left };

    fn next_element_seed<T: DeserializeSeed>(&mut self, seed: T) -> Result<Option<T::Value>> {
        match self.byte_strings.next() {
            None => Ok(None),
            Some(element) => {
                let element = DeserializerBytes::from_bytes(self.alloc, element);
                Ok(Some(seed.deserialize(element)?))
            }
        }
    }

    /// Returns `None`: the elements of a set aren't counted.
    fn size_hint(&self) -> Option<usize>
        ensures { result ≡ None }
    {
        None
    }
}
