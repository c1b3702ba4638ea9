ghost use Rattle.std.specs.Prelude.{ℕ, List, Option, Result, IsOk};
ghost use Rattle.dynamo_value.specs.Fault.{Fault};
ghost use Rattle.dynamo_de.specs.Access.{MapLeft, NextElement, NextKey, NextValue, NextEntry};
ghost use Rattle.dynamo_de.specs.Access.{ReadsVariant, OfContent, Hints};
ghost use Rattle.dynamo_de.specs.Meets.{Meets};
ghost use Rattle.dynamo_de.specs.Shown.{shown};
ghost use Rattle.dynamo_de.specs.Shows.{IsReaderOf};
ghost use Rattle.dynamo_de.specs.Source.{Source};
ghost use Rattle.dynamo_de.specs.Takes.{Takes, Visited};
ghost use Rattle.dynamo_de.specs.declared.request.Request.TheVariants as request;

use crate::{Deserialize, DeserializeSeed, Deserializer, Error, Reader, TypeSeed, Visitor};
use std::alloc::Global;

/// The elements of a sequence, as serde's `SeqAccess`.
pub trait SeqAccess: Sized + Drop {
    /// The deserializer's error.
    type Error: Error;

    // The sources of the remaining elements.
    ghost left: { Self → List Source };

    /// Reads the next element with a seed, or returns `None` after the last one.
    ///
    /// # Errors
    ///
    /// Returns the error of reading the element. The element is taken first, so the next call reads
    /// the one after it.
    fn next_element_seed<T: DeserializeSeed>(
        &mut self,
        seed: T,
    ) -> Result<Option<T::Value>, Self::Error>
        ensures { NextElement Self.Error.fault (T.reads seed) (left self.old) (left self.new)
            result };

    /// Reads the next element, or returns `None` after the last one.
    ///
    /// # Errors
    ///
    /// Returns the error of reading the element. The element is taken first, so the next call reads
    /// the one after it.
    fn next_element<T: Deserialize>(&mut self, alloc: Global) -> Result<Option<T>, Self::Error>
        ensures { NextElement Self.Error.fault T.reads (left self.old) (left self.new) result }
    {
        self.next_element_seed(TypeSeed::<T>::new(alloc))
    }

    /// Returns the number of remaining elements, if it is known.
    fn size_hint(&self) -> Option<usize>
        ensures { Hints (left self.now) result }
    {
        None
    }
}

/// The entries of a map in ascending order of the bytes of their keys, as serde's `MapAccess`.
pub trait MapAccess: Sized + Drop {
    /// The deserializer's error.
    type Error: Error;

    // The remaining entries, and the source of the pending value, whose key was read
    // last.
    ghost left: { Self → MapLeft };

    /// Reads the next key with a seed, or returns `None` after the last one.
    ///
    /// The value of the key is pending from then on. A value that was pending before is dropped.
    ///
    /// # Errors
    ///
    /// Returns the error of reading the key. Its value is pending then, too.
    fn next_key_seed<K: DeserializeSeed>(
        &mut self,
        seed: K,
    ) -> Result<Option<K::Value>, Self::Error>
        ensures { NextKey Self.Error.fault (K.reads seed) (left self.old) (left self.new) result };

    /// Reads the pending value with a seed.
    ///
    /// # Errors
    ///
    /// Returns the error for [`MapValueBeforeKey`](dynamo_value::ErrorImpl::MapValueBeforeKey) if
    /// no value is pending. Nothing changes then.
    ///
    /// Returns the error of reading the value. The value is taken first, so it isn't pending any
    /// more.
    fn next_value_seed<V: DeserializeSeed>(&mut self, seed: V) -> Result<V::Value, Self::Error>
        ensures { NextValue Self.Error.fault (V.reads seed) (left self.old) (left self.new)
            result };

    /// Reads the next key and its value with seeds, or returns `None` after the last one.
    ///
    /// # Errors
    ///
    /// Returns the error of reading the key, whose value is pending then, or the error of reading
    /// the value, which is taken then.
    fn next_entry_seed<K: DeserializeSeed, V: DeserializeSeed>(
        &mut self,
        key_seed: K,
        value_seed: V,
    ) -> Result<Option<(K::Value, V::Value)>, Self::Error>
        ensures { NextEntry Self.Error.fault (K.reads key_seed) (V.reads value_seed) (left self.old)
            (left self.new) result }
    {
        match self.next_key_seed(key_seed)? {
            None => Ok(None),
            Some(key) => {
                let value = self.next_value_seed(value_seed)?;
                Ok(Some((key, value)))
            }
        }
    }

    /// Reads the next key, or returns `None` after the last one.
    ///
    /// # Errors
    ///
    /// Returns the error of reading the key. Its value is pending then, too.
    fn next_key<K: Deserialize>(&mut self, alloc: Global) -> Result<Option<K>, Self::Error>
        ensures { NextKey Self.Error.fault K.reads (left self.old) (left self.new) result }
    {
        self.next_key_seed(TypeSeed::<K>::new(alloc))
    }

    /// Reads the pending value.
    ///
    /// # Errors
    ///
    /// Returns the error for [`MapValueBeforeKey`](dynamo_value::ErrorImpl::MapValueBeforeKey) if
    /// no value is pending. Nothing changes then.
    ///
    /// Returns the error of reading the value. The value is taken first, so it isn't pending any
    /// more.
    fn next_value<V: Deserialize>(&mut self, alloc: Global) -> Result<V, Self::Error>
        ensures { NextValue Self.Error.fault V.reads (left self.old) (left self.new) result }
    {
        self.next_value_seed(TypeSeed::<V>::new(alloc))
    }

    /// Reads the next key and its value, or returns `None` after the last one.
    ///
    /// # Errors
    ///
    /// Returns the error of reading the key, whose value is pending then, or the error of reading
    /// the value, which is taken then.
    fn next_entry<K: Deserialize, V: Deserialize>(
        &mut self,
        alloc: Global,
    ) -> Result<Option<(K, V)>, Self::Error>
        ensures { NextEntry Self.Error.fault K.reads V.reads (left self.old) (left self.new)
            result }
    {
        self.next_entry_seed(TypeSeed::<K>::new(alloc), TypeSeed::<V>::new(alloc))
    }

    /// Returns the number of remaining entries, if it is known.
    fn size_hint(&self) -> Option<usize>
        ensures { Hints (left self.now).entries result }
    {
        None
    }
}

/// A variant of an enum, as serde's `EnumAccess`.
pub trait EnumAccess: Sized + Drop {
    /// The deserializer's error.
    type Error: Error;

    /// The access to the variant's content.
    type Variant: VariantAccess<Error = Self::Error>;

    // The variant's name and the source of its content, or the fault of asking for it.
    ghost chosen: { Self → Result (List ℕ × Option Source) Fault };

    /// Reads the variant's name with a seed, and returns it with the access to the content.
    ///
    /// # Errors
    ///
    /// Returns the deserializer's error if the source isn't a variant, or the error of reading the
    /// name.
    fn variant_seed<S: DeserializeSeed>(
        self,
        seed: S,
    ) -> Result<(S::Value, Self::Variant), Self::Error>
        ensures { ReadsVariant Self.Error.fault (S.reads seed) Self.Variant.content (chosen self)
            result };

    /// Reads the variant's name, and returns it with the access to the content.
    ///
    /// # Errors
    ///
    /// Returns the deserializer's error if the source isn't a variant, or the error of reading the
    /// name.
    fn variant<T: Deserialize>(self, alloc: Global) -> Result<(T, Self::Variant), Self::Error>
        ensures { ReadsVariant Self.Error.fault T.reads Self.Variant.content (chosen self) result }
    {
        self.variant_seed(TypeSeed::<T>::new(alloc))
    }
}

/// The content of a variant, as serde's `VariantAccess`.
pub trait VariantAccess: Sized + Drop {
    /// The deserializer's error.
    type Error: Error;

    /// The deserializer of the content.
    type Reader: Reader<Error = Self::Error>;

    // The source of the content, if there is one.
    ghost content: { Self → Option Source };

    /// Accepts a unit variant, whatever its content is.
    ///
    /// # Errors
    ///
    /// It returns no error: the `Result` is serde's.
    fn unit_variant(self) -> Result<(), Self::Error>
        ensures { IsOk result };

    /// Returns the deserializer of the content.
    ///
    /// # Errors
    ///
    /// Returns an error with a message if the variant has no content, or the error for out of
    /// memory if memory runs out.
    fn reader(self) -> Result<Self::Reader, Self::Error>
        ensures { Meets Self.Error.fault (OfContent (IsReaderOf Self.Reader.source) (content self))
            result };

    /// Reads the content of a newtype variant with a seed.
    ///
    /// # Errors
    ///
    /// Returns an error with a message if the variant has no content, or the error of reading the
    /// content.
    final fn newtype_variant_seed<T: DeserializeSeed>(
        self,
        seed: T,
    ) -> Result<T::Value, Self::Error>
        ensures { Meets Self.Error.fault (OfContent (T.reads seed) (content self)) result }
    {
        seed.deserialize(self.reader()?)
    }

    /// Reads the content of a newtype variant.
    ///
    /// # Errors
    ///
    /// Returns an error with a message if the variant has no content, or the error of reading the
    /// content.
    final fn newtype_variant<T: Deserialize>(self, alloc: Global) -> Result<T, Self::Error>
        ensures { Meets Self.Error.fault (OfContent T.reads (content self)) result }
    {
        T::deserialize(alloc, self.reader()?)
    }

    /// Asks the content of a tuple variant for a sequence. The length isn't used.
    ///
    /// # Errors
    ///
    /// Returns an error with a message if the variant has no content, or the error of reading the
    /// content.
    final fn tuple_variant<V: Visitor>(
        self,
        _len: usize,
        visitor: V,
    ) -> Result<V::Value, Self::Error>
        ensures { Meets Self.Error.fault
            (OfContent
            (λ s r. Visited (Takes (V.claimed visitor) (V.takes visitor)) (shown request.Seq s) r)
            (content self)) result }
    {
        self.reader()?.deserialize_seq(visitor)
    }

    /// Asks the content of a struct variant for a map. The names aren't used.
    ///
    /// # Errors
    ///
    /// Returns an error with a message if the variant has no content, or the error of reading the
    /// content.
    final fn struct_variant<V: Visitor>(
        self,
        _fields: &'static [&'static str],
        visitor: V,
    ) -> Result<V::Value, Self::Error>
        ensures { Meets Self.Error.fault
            (OfContent
            (λ s r. Visited (Takes (V.claimed visitor) (V.takes visitor)) (shown request.Map s) r)
            (content self)) result }
    {
        self.reader()?.deserialize_map(visitor)
    }
}
