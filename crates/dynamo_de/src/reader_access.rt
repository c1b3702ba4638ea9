ghost use Rattle.std.specs.Prelude.{◌≡◌, None};
ghost use Rattle.dynamo_de.specs.Access.{NextElement, Hints, hint_of};
ghost use Rattle.dynamo_de.specs.Shows.{content_of};

use crate::{
    Deserialize, DeserializeSeed, EnumAccess, Error, MapAccess, Reader, SeqAccess, TypeSeed,
    VariantAccess,
};
use std::alloc::Global;

/// The elements of a reader's sequence.
#[derive(Drop)]
pub struct ReaderSeqAccess<R: Reader> {
    elements: R::Elements,
}

impl<R: Reader> ReaderSeqAccess<R> {
    /// Returns the access to these elements. It allocates nothing.
    pub fn new(elements: R::Elements) -> Self
        ensures { result.elements ≡ elements }
    {
        ReaderSeqAccess { elements }
    }

    /// Returns the remaining elements.
    pub fn elements(&self) -> &R::Elements
        ensures { result.now ≡ self.now.elements }
    {
        &self.elements
    }
}

impl<R: Reader> SeqAccess for ReaderSeqAccess<R> {
    type Error = R::Error;

    ghost left = { λ a. R.elements a.elements };

    fn next_element_seed<T: DeserializeSeed>(
        &mut self,
        seed: T,
    ) -> Result<Option<T::Value>, R::Error>
        ensures next { NextElement R.Error.fault (T.reads seed) (R.elements self.old.elements)
            (R.elements self.new.elements) result }
        ensures same { R.counted self.new.elements ≡ R.counted self.old.elements }
    {
        match R::next_element(&mut self.elements) {
            None => Ok(None),
            Some(element) => {
                let value = seed.deserialize(element)?;
                // A reader that marks places comes back to the sequence by this call.
                self.size_hint();
                Ok(Some(value))
            }
        }
    }

    fn next_element<T: Deserialize>(&mut self, alloc: Global) -> Result<Option<T>, R::Error>
        ensures next { NextElement R.Error.fault T.reads (R.elements self.old.elements)
            (R.elements self.new.elements) result }
        ensures same { R.counted self.new.elements ≡ R.counted self.old.elements }
    {
        self.next_element_seed(TypeSeed::<T>::new(alloc))
    }

    /// Returns the number of remaining elements, if the reader counts them.
    fn size_hint(&self) -> Option<usize>
        ensures hint { Hints (R.elements self.now.elements) result }
        ensures exact { result
            ≡ hint_of (R.counted self.now.elements) (R.elements self.now.elements) }
    {
        R::elements_left(&self.elements)
    }
}

/// The entries of a reader's map, and the pending value, whose key was read last.
#[derive(Drop)]
pub struct ReaderMapAccess<R: Reader> {
    entries: R::Entries,
    pending: Option<R>,
}

impl<R: Reader> ReaderMapAccess<R> {
    /// Returns the access to these entries. It allocates nothing.
    pub fn new(entries: R::Entries) -> Self
        ensures entries { result.entries ≡ entries }
        ensures pending { result.pending ≡ None }
    {
        ReaderMapAccess {
            entries,
            pending: None,
        }
    }

    /// Returns the remaining entries.
    pub fn entries(&self) -> &R::Entries
        ensures { result.now ≡ self.now.entries }
    {
        &self.entries
    }
}

impl<R: Reader> MapAccess for ReaderMapAccess<R> {
    type Error = R::Error;

    ghost left = { λ a. record
        { entries = R.entries a.entries; pending = content_of R.source a.pending } };

    fn next_key_seed<K: DeserializeSeed>(&mut self, seed: K) -> Result<Option<K::Value>, R::Error> {
        match R::next_entry(&mut self.entries) {
            None => Ok(None),
            Some((key, value)) => {
                self.pending = Some(value);
                Ok(Some(seed.deserialize(key)?))
            }
        }
    }

    fn next_value_seed<V: DeserializeSeed>(&mut self, seed: V) -> Result<V::Value, R::Error> {
        match self.pending.take() {
            None => Err(R::value_before_key()),
            Some(value) => {
                let value = seed.deserialize(value)?;
                // A reader that marks places comes back to the map by this call.
                self.size_hint();
                Ok(value)
            }
        }
    }

    /// Returns the number of remaining entries, if the reader counts them.
    fn size_hint(&self) -> Option<usize>
        ensures hint { Hints (R.entries self.now.entries) result }
        ensures exact { result
            ≡ hint_of (R.counted_entries self.now.entries) (R.entries self.now.entries) }
    {
        R::entries_left(&self.entries)
    }
}

/// The variant of a reader's enum.
#[derive(Drop)]
pub struct ReaderEnumAccess<R: Reader> {
    choice: R::Choice,
}

impl<R: Reader> ReaderEnumAccess<R> {
    /// Returns the access to this variant. It allocates nothing.
    pub fn new(choice: R::Choice) -> Self
        ensures { result.choice ≡ choice }
    {
        ReaderEnumAccess { choice }
    }
}

impl<R: Reader> EnumAccess for ReaderEnumAccess<R> {
    type Error = R::Error;

    type Variant = ReaderVariantAccess<R>;

    ghost chosen = { λ a. R.chosen a.choice };

    fn variant_seed<S: DeserializeSeed>(
        self,
        seed: S,
    ) -> Result<(S::Value, ReaderVariantAccess<R>), R::Error> {
        let (name, content) = R::choose(self.choice)?;
        let alloc = name.alloc();
        let name = seed.deserialize(name)?;
        Ok((name, ReaderVariantAccess { alloc, content }))
    }
}

/// The content of a reader's variant.
#[derive(Drop)]
pub struct ReaderVariantAccess<R: Reader> {
    alloc: Global,
    content: Option<R>,
}

impl<R: Reader> VariantAccess for ReaderVariantAccess<R> {
    type Error = R::Error;

    type Reader = R;

    ghost content = { λ a. content_of R.source a.content };

    fn unit_variant(self) -> Result<(), R::Error> {
        Ok(())
    }

    fn reader(self) -> Result<R, R::Error> {
        match self.content {
            Some(reader) => Ok(reader),
            None => Err(R::Error::custom(
                self.alloc,
                "invalid type: unit variant, expected a variant with content",
            )),
        }
    }
}
