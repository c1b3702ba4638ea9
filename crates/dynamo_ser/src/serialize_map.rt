ghost use Rattle.std.specs.Prelude.{◌≡◌, ◌⊎◌, Result, Ok, Err, MatchResult, Option, Some, None};
ghost use Rattle.std.specs.Prelude.{is_some, option_map, List, ℕ, string_bytes};
ghost use Rattle.dynamo_value.specs.Fault.{out_of_memory, serialize_map_key_called_twice};
ghost use Rattle.dynamo_value.specs.Fault.{serialize_map_value_before_key};
ghost use Rattle.dynamo_value.specs.Kind.{fault_of};
ghost use Rattle.dynamo_ser.specs.Datum.{Datum, Pairs, pair, no_pairs};
ghost use Rattle.dynamo_ser.specs.Key.{key_text};
ghost use Rattle.dynamo_ser.specs.Pieces.{Keeps, TakesPiece, TakesEntry, PassesOnKey};
ghost use Rattle.dynamo_ser.specs.Pieces.{PassesOnValue};

use crate::map_key::MapKeySerializer;
use crate::{Error, Outcomes, Serialize, Serializer};
use dynamo_value::ErrorImpl;
use std::alloc::Global;

/// The builder of a map, as serde's: `{"one": 1, "two": 2}`.
///
/// All serializers write keys in the same way, as strings. To write a serializer, implement the
/// methods from `alloc` to `push_entry`, and `end`. The methods that take a `&T` come with them.
pub trait SerializeMap<S: Outcomes<Ok = Self::Ok, Error = Self::Error>>: Sized + Drop {
    /// The value that a written map gives.
    type Ok: Drop;

    /// The serializer's error.
    type Error: Error;

    // The results if these pairs follow, and then the end. A pending key has no part in it.
    ghost gives: { Self → Pairs → Result Self.Ok Self.Error → Type 0 };

    // The pending key: a key whose value is missing.
    ghost pending: { Self → Option (List ℕ) };

    // The serializer of each value.
    ghost writer: { Self → S };

    /// Returns the allocator of keys.
    fn alloc(&self) -> Global;

    /// Returns the serializer's error for this one.
    fn refused(&self, error: dynamo_value::Error) -> Self::Error
        ensures fault { Self.Error.fault result ≡ fault_of error }
        ensures passes_on { PassesOnKey gives self.now error result };

    /// Returns whether a key is pending.
    fn has_key(&self) -> bool
        ensures { result ≡ is_some (pending self.now) };

    /// Makes a key pending.
    fn set_key(&mut self, key: String)
        ensures pending { pending self.new ≡ Some (string_bytes key) }
        ensures keeps { Keeps gives self.old self.new };

    /// Takes the pending key, if there is one.
    fn take_key(&mut self) -> Option<String>
        ensures taken { option_map string_bytes result ≡ pending self.old }
        ensures pending { pending self.new ≡ None }
        ensures keeps { Keeps gives self.old self.new };

    /// Called before the value of this key is written. The default does nothing.
    fn begin_value(&self, _key: &str) {}

    /// Returns the serializer of the next value.
    fn value_serializer(&self) -> S
        ensures same { result ≡ writer self.now }
        ensures passes_on { PassesOnValue Self.Error.fault (S.outcome result) gives self.now };

    /// Adds a written value under its key.
    ///
    /// # Errors
    ///
    /// Returns an error if the serializer refuses the entry, or if memory runs out.
    fn push_entry(&mut self, key: String, written: Self::Ok) -> Result<(), Self::Error>
        ensures takes { TakesEntry (string_bytes key) (S.outcome (writer self.old)) written gives
            self.old self.new result }
        ensures pending { pending self.new ≡ pending self.old };

    /// Writes a key and makes it pending.
    ///
    /// The entries so far stay. A key that is refused leaves none pending.
    ///
    /// # Errors
    ///
    /// Returns the serializer's error for [`ErrorImpl::SerializeMapKeyCalledTwice`] if a key is
    /// pending already. That key stays pending and `key` isn't read.
    ///
    /// Returns the error for [`ErrorImpl::KeyMustBeAString`] if the key isn't written as a string,
    /// a number, a boolean, a character or a unit variant, or as a newtype struct of one of these.
    ///
    /// Returns the error for an error of the key itself, or for [`ErrorImpl::OutOfMemory`] if
    /// memory runs out.
    final fn serialize_key<K: Serialize>(&mut self, key: &K) -> Result<(), Self::Error>
        ensures twice { (text : List ℕ) → Self.pending self.old ≡ Some text
            → MatchResult result (λ _. ⊥)
            (λ e. (Self.Error.fault e ≡ serialize_map_key_called_twice) × (self.new ≡ self.old)) }
        ensures takes { Self.pending self.old ≡ None
            → MatchResult result
            (λ _. (text : List ℕ) × (key_text (K.tells key.now) ≡ Ok text)
            × (Self.pending self.new ≡ Some text))
            (λ e. ((key_text (K.tells key.now) ≡ Err (Self.Error.fault e))
            ⊎ (Self.Error.fault e ≡ out_of_memory))
            × ((v : Datum) (pairs : Pairs)
            → Self.gives self.old (pair (K.tells key.now) v pairs) (Err e))) }
        ensures failed { MatchResult result (λ _. Unit {0}) (λ _. self.new ≡ self.old) }
        ensures keeps { Keeps Self.gives self.old self.new }
    {
        if self.has_key() {
            let error = dynamo_value::Error::from(ErrorImpl::SerializeMapKeyCalledTwice);
            return Err(self.refused(error));
        }
        match key.serialize(MapKeySerializer::new(self.alloc())) {
            Ok(text) => {
                self.set_key(text);
                Ok(())
            }
            Err(error) => Err(self.refused(error)),
        }
    }

    /// Writes the value of the pending key.
    ///
    /// The key is taken first, so a value that is refused has lost its key. The entries so far
    /// stay.
    ///
    /// # Errors
    ///
    /// Returns the serializer's error for [`ErrorImpl::SerializeMapValueBeforeKey`] if no key is
    /// pending. `value` isn't read then.
    ///
    /// Returns the error of the value if the serializer refuses it, or if memory runs out.
    final fn serialize_value<V: Serialize>(&mut self, value: &V) -> Result<(), Self::Error>
    where
        S: Serializer,
        ensures before { Self.pending self.old ≡ None
            → MatchResult result (λ _. ⊥)
            (λ e. (Self.Error.fault e ≡ serialize_map_value_before_key)
            × Keeps Self.gives self.old self.new) }
        ensures takes { (text : List ℕ) (k : Datum) → Self.pending self.old ≡ Some text
            → key_text k ≡ Ok text
            → TakesPiece Self.gives self.old self.new (pair k (V.tells value.now)) result }
        ensures pending { Self.pending self.new ≡ None }
    {
        match self.take_key() {
            None => {
                let error = dynamo_value::Error::from(ErrorImpl::SerializeMapValueBeforeKey);
                Err(self.refused(error))
            }
            Some(key) => {
                self.begin_value(key.as_str());
                let written = value.serialize(self.value_serializer())?;
                self.push_entry(key, written)
            }
        }
    }

    /// Writes a key and its value. A pending key stays pending, and the entries so far stay.
    ///
    /// # Errors
    ///
    /// Returns the error of the key, as [`serialize_key`](Self::serialize_key) does for a key that
    /// isn't pending, or that of the value.
    final fn serialize_entry<K: Serialize, V: Serialize>(
        &mut self,
        key: &K,
        value: &V,
    ) -> Result<(), Self::Error>
    where
        S: Serializer,
        ensures takes { TakesPiece Self.gives self.old self.new
            (pair (K.tells key.now) (V.tells value.now)) result }
        ensures pending { Self.pending self.new ≡ Self.pending self.old }
    {
        match key.serialize(MapKeySerializer::new(self.alloc())) {
            Ok(text) => {
                self.begin_value(text.as_str());
                let written = value.serialize(self.value_serializer())?;
                self.push_entry(text, written)
            }
            Err(error) => Err(self.refused(error)),
        }
    }

    /// Ends the map. A pending key is dropped.
    ///
    /// # Errors
    ///
    /// Returns an error if the serializer refuses the map, or if memory runs out.
    fn end(self) -> Result<Self::Ok, Self::Error>
        ensures { gives self no_pairs result };
}
