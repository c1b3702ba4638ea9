ghost use Rattle.std.specs.Prelude.{◌≡◌, length, Some};
ghost use Rattle.dynamo_value.specs.View.{elements_view};
ghost use Rattle.dynamo_de.specs.Access.{Hints};
ghost use Rattle.dynamo_de.specs.Source.{values_of};
ghost use Rattle.dynamo_read.specs.Accesses.{seq_left};

use crate::deserializer::Deserializer;
use dynamo_de::{DeserializeSeed, SeqAccess};
use dynamo_value::{AttributeValue, Error, Result};
use std::alloc::Global;
use std::vec::IntoIter;

/// The elements of a list, each read by a [`Deserializer`].
#[derive(Drop)]
pub struct DeserializerSeq {
    alloc: Global,
    values: IntoIter<AttributeValue>,
}

impl DeserializerSeq {
    /// Returns the elements of this list, in order. It allocates nothing. A value that is read from
    /// it is allocated in `alloc`.
    pub fn from_vec(alloc: Global, values: Vec<AttributeValue>) -> Self
        ensures { seq_left result ≡ values_of (elements_view values.items) }
    {
        DeserializerSeq {
            alloc,
            values: values.into_iter(),
        }
    }
}

impl SeqAccess for DeserializerSeq {
    type Error = Error;

    ghost left = { seq_left };

    fn next_element_seed<T: DeserializeSeed>(&mut self, seed: T) -> Result<Option<T::Value>> {
        match self.values.next() {
            None => Ok(None),
            Some(element) => {
                let element = Deserializer::from_attribute_value(self.alloc, element);
                Ok(Some(seed.deserialize(element)?))
            }
        }
    }

    /// Returns the number of remaining elements.
    #[tactic(auto, using(crate::proofs::Views::length_values))]
    fn size_hint(&self) -> Option<usize>
        ensures hint { Hints (seq_left self.now) result }
        ensures exact { result ≡ Some (length (seq_left self.now)) }
    {
        Some(self.values.len())
    }
}
