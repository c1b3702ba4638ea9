ghost use Rattle.std.specs.Prelude.{◌≡◌, Result};
ghost use Rattle.dynamo_ser.specs.Datum.{Elements, element, no_elements};
ghost use Rattle.dynamo_ser.specs.Pieces.{TakesPiece, TakesWritten, PassesOn};

use crate::{Error, Outcomes, Serialize, Serializer};

/// The few methods that a builder of a list implements, below [`SerializeSeq`], [`SerializeTuple`],
/// [`SerializeTupleStruct`] and [`SerializeTupleVariant`]. To write values of a type you don't need
/// it.
pub trait ListBuilder<S: Outcomes<Ok = Self::Ok, Error = Self::Error>>: Sized + Drop {
    /// The value that a written list gives.
    type Ok: Drop;

    /// The serializer's error.
    type Error: Error;

    // The results if these elements follow, and then the end.
    ghost gives: { Self → Elements → Result Self.Ok Self.Error → Type 0 };

    // The serializer of each element.
    ghost writer: { Self → S };

    /// Returns the serializer of the next element.
    fn element_serializer(&self) -> S
        ensures same { result ≡ writer self.now }
        ensures passes_on { PassesOn Self.Error.fault (S.outcome result) gives self.now element };

    /// Adds a written value as the next element.
    ///
    /// # Errors
    ///
    /// Returns an error if the serializer refuses the element, or if memory runs out.
    fn push_element(&mut self, written: Self::Ok) -> Result<(), Self::Error>
        ensures { TakesWritten (S.outcome (writer self.old)) written gives self.old self.new element
            result };

    /// Writes the next element.
    ///
    /// # Errors
    ///
    /// Returns the error of the value if the serializer refuses it. The elements so far stay.
    final fn add_element<T: Serialize>(&mut self, value: &T) -> Result<(), Self::Error>
    where
        S: Serializer,
        ensures { TakesPiece Self.gives self.old self.new (element (T.tells value.now)) result }
    {
        let written = value.serialize(self.element_serializer())?;
        self.push_element(written)
    }

    /// Ends the list.
    ///
    /// # Errors
    ///
    /// Returns an error if the serializer refuses the list, or if memory runs out.
    fn finish(self) -> Result<Self::Ok, Self::Error>
        ensures { gives self no_elements result };
}

/// The builder of a sequence, as serde's: `[1, 2, 3]`, with any number of elements.
pub trait SerializeSeq<S: Outcomes<Ok = Self::Ok, Error = Self::Error>>: ListBuilder<S> {
    /// Writes the next element.
    ///
    /// # Errors
    ///
    /// Returns the error of the value if the serializer refuses it. The elements so far stay.
    final fn serialize_element<T: Serialize>(&mut self, value: &T) -> Result<(), Self::Error>
    where
        S: Serializer,
        ensures { TakesPiece Self.gives self.old self.new (element (T.tells value.now)) result }
    {
        self.add_element(value)
    }

    /// Ends the sequence.
    ///
    /// # Errors
    ///
    /// Returns an error if the serializer refuses the sequence, or if memory runs out.
    final fn end(self) -> Result<Self::Ok, Self::Error>
        ensures { Self.gives self no_elements result }
    {
        self.finish()
    }
}

/// The builder of a tuple, as serde's: `(1, "one")`.
pub trait SerializeTuple<S: Outcomes<Ok = Self::Ok, Error = Self::Error>>: ListBuilder<S> {
    /// Writes the next element.
    ///
    /// # Errors
    ///
    /// Returns the error of the value if the serializer refuses it. The elements so far stay.
    final fn serialize_element<T: Serialize>(&mut self, value: &T) -> Result<(), Self::Error>
    where
        S: Serializer,
        ensures { TakesPiece Self.gives self.old self.new (element (T.tells value.now)) result }
    {
        self.add_element(value)
    }

    /// Ends the tuple.
    ///
    /// # Errors
    ///
    /// Returns an error if the serializer refuses the tuple, or if memory runs out.
    final fn end(self) -> Result<Self::Ok, Self::Error>
        ensures { Self.gives self no_elements result }
    {
        self.finish()
    }
}

/// The builder of a tuple struct, as serde's: `struct Rgb(u8, u8, u8)`.
pub trait SerializeTupleStruct<S: Outcomes<Ok = Self::Ok, Error = Self::Error>>: ListBuilder<S> {
    /// Writes the next field.
    ///
    /// # Errors
    ///
    /// Returns the error of the value if the serializer refuses it. The fields so far stay.
    final fn serialize_field<T: Serialize>(&mut self, value: &T) -> Result<(), Self::Error>
    where
        S: Serializer,
        ensures { TakesPiece Self.gives self.old self.new (element (T.tells value.now)) result }
    {
        self.add_element(value)
    }

    /// Ends the tuple struct.
    ///
    /// # Errors
    ///
    /// Returns an error if the serializer refuses the tuple struct, or if memory runs out.
    final fn end(self) -> Result<Self::Ok, Self::Error>
        ensures { Self.gives self no_elements result }
    {
        self.finish()
    }
}

/// The builder of a tuple variant, as serde's: `T` of `enum E { T(u8, u8) }`.
pub trait SerializeTupleVariant<S: Outcomes<Ok = Self::Ok, Error = Self::Error>>: ListBuilder<S> {
    /// Writes the next field.
    ///
    /// # Errors
    ///
    /// Returns the error of the value if the serializer refuses it. The fields so far stay.
    final fn serialize_field<T: Serialize>(&mut self, value: &T) -> Result<(), Self::Error>
    where
        S: Serializer,
        ensures { TakesPiece Self.gives self.old self.new (element (T.tells value.now)) result }
    {
        self.add_element(value)
    }

    /// Ends the variant.
    ///
    /// # Errors
    ///
    /// Returns an error if the serializer refuses the variant, or if memory runs out.
    final fn end(self) -> Result<Self::Ok, Self::Error>
        ensures { Self.gives self no_elements result }
    {
        self.finish()
    }
}
