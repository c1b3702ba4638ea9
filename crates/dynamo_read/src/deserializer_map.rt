ghost use Rattle.std.specs.Prelude.{◌≡◌, [], length, Some, None, IfOk, IfErr, OnOk, OnErr};
ghost use Rattle.dynamo_value.specs.Fault.{out_of_memory};
ghost use Rattle.dynamo_value.specs.Kind.{fault_of};
ghost use Rattle.dynamo_value.specs.View.{entries_view};
ghost use Rattle.dynamo_de.specs.Access.{Hints};
ghost use Rattle.dynamo_read.specs.Accesses.{map_left};

use crate::deserializer::Deserializer;
use crate::unread::Entries;
use dynamo_de::{DeserializeSeed, MapAccess, Reader, ReaderMapAccess};
use dynamo_value::{AttributeValue, Error, Result};
use std::alloc::Global;
use std::collections::HashMap;

/// The entries of an item in ascending order of the bytes of their keys, each read by a
/// [`Deserializer`], and the pending value, whose key was read last.
#[derive(Drop)]
pub struct DeserializerMap {
    access: ReaderMapAccess<Deserializer>,
}

impl DeserializerMap {
    /// Takes all entries of this item, which is empty then. No value is pending. The list of
    /// entries, and a value that is read from it, are allocated in `alloc`.
    ///
    /// # Errors
    ///
    /// Returns [`ErrorImpl::OutOfMemory`](dynamo_value::ErrorImpl::OutOfMemory) if memory runs out.
    /// The item keeps its entries then.
    pub fn from_item(alloc: Global, item: &mut HashMap<String, AttributeValue>) -> Result<Self>
        ensures left { IfOk result (λ map. (map_left map).entries ≡ entries_view item.old.entries) }
        ensures pending { IfOk result (λ map. (map_left map).pending ≡ None) }
        ensures empty { OnOk result (item.new.entries ≡ []) }
        ensures err { IfErr result (λ e. fault_of e ≡ out_of_memory) }
        ensures unchanged { OnErr result (item.new ≡ item.old) }
    {
        Ok(DeserializerMap {
            access: ReaderMapAccess::new(Entries::take(alloc, item)?),
        })
    }
}

impl MapAccess for DeserializerMap {
    type Error = Error;

    ghost left = { map_left };

    fn next_key_seed<K: DeserializeSeed>(&mut self, seed: K) -> Result<Option<K::Value>> {
        self.access.next_key_seed(seed)
    }

    fn next_value_seed<V: DeserializeSeed>(&mut self, seed: V) -> Result<V::Value> {
        self.access.next_value_seed(seed)
    }

    /// Returns the number of remaining entries.
    fn size_hint(&self) -> Option<usize>
        ensures hint { Hints (map_left self.now).entries result }
        ensures exact { result ≡ Some (length (map_left self.now).entries) }
    {
        Deserializer::entries_left(self.access.entries())
    }
}
