ghost use Rattle.std.specs.Prelude.{◌≡◌, Result, List, ℕ};
ghost use Rattle.dynamo_ser.specs.Datum.{Fields, field, no_fields};
ghost use Rattle.dynamo_ser.specs.Pieces.{TakesPiece, TakesWritten, PassesOn};

use crate::{Error, Outcomes, Serialize, Serializer};

/// The few methods that a builder of a struct implements, below [`SerializeStruct`] and
/// [`SerializeStructVariant`]. To write values of a type you don't need it.
pub trait StructBuilder<S: Outcomes<Ok = Self::Ok, Error = Self::Error>>: Sized + Drop {
    /// The value that a written struct gives.
    type Ok: Drop;

    /// The serializer's error.
    type Error: Error;

    // The results if these fields follow, and then the end.
    ghost gives: { Self → Fields → Result Self.Ok Self.Error → Type 0 };

    // The serializer of each field.
    ghost writer: { Self → S };

    /// Called before the field of this name is written. The default does nothing.
    fn begin_field(&self, _key: &str) {}

    /// Returns the serializer of the next field.
    fn field_serializer(&self) -> S
        ensures same { result ≡ writer self.now }
        ensures passes_on { (name : List ℕ)
            → PassesOn Self.Error.fault (S.outcome result) gives self.now (field name) };

    /// Adds a written value as the field with this name.
    ///
    /// # Errors
    ///
    /// Returns an error if the serializer refuses the field, or if memory runs out.
    fn push_field(&mut self, key: &'static str, written: Self::Ok) -> Result<(), Self::Error>
        ensures { TakesWritten (S.outcome (writer self.old)) written gives self.old self.new
            (field key.now) result };

    /// Writes the field with this name.
    ///
    /// # Errors
    ///
    /// Returns the error of the value if the serializer refuses it. The fields so far stay.
    final fn add_field<T: Serialize>(
        &mut self,
        key: &'static str,
        value: &T,
    ) -> Result<(), Self::Error>
    where
        S: Serializer,
        ensures { TakesPiece Self.gives self.old self.new (field key.now (T.tells value.now))
            result }
    {
        self.begin_field(key);
        let written = value.serialize(self.field_serializer())?;
        self.push_field(key, written)
    }

    /// Ends the struct.
    ///
    /// # Errors
    ///
    /// Returns an error if the serializer refuses the struct, or if memory runs out.
    fn finish(self) -> Result<Self::Ok, Self::Error>
        ensures { gives self no_fields result };
}

/// The builder of a struct, as serde's: `struct User { id: String, age: u8 }`.
pub trait SerializeStruct<S: Outcomes<Ok = Self::Ok, Error = Self::Error>>: StructBuilder<S> {
    /// Writes the field with this name.
    ///
    /// # Errors
    ///
    /// Returns the error of the value if the serializer refuses it. The fields so far stay.
    final fn serialize_field<T: Serialize>(
        &mut self,
        key: &'static str,
        value: &T,
    ) -> Result<(), Self::Error>
    where
        S: Serializer,
        ensures { TakesPiece Self.gives self.old self.new (field key.now (T.tells value.now))
            result }
    {
        self.add_field(key, value)
    }

    /// Ends the struct.
    ///
    /// # Errors
    ///
    /// Returns an error if the serializer refuses the struct, or if memory runs out.
    final fn end(self) -> Result<Self::Ok, Self::Error>
        ensures { Self.gives self no_fields result }
    {
        self.finish()
    }
}

/// The builder of a struct variant, as serde's: `S` of `enum E { S { one: u8, two: u8 } }`.
pub trait SerializeStructVariant<S: Outcomes<Ok = Self::Ok, Error = Self::Error>>: StructBuilder<
    S,
> {
    /// Writes the field with this name.
    ///
    /// # Errors
    ///
    /// Returns the error of the value if the serializer refuses it. The fields so far stay.
    final fn serialize_field<T: Serialize>(
        &mut self,
        key: &'static str,
        value: &T,
    ) -> Result<(), Self::Error>
    where
        S: Serializer,
        ensures { TakesPiece Self.gives self.old self.new (field key.now (T.tells value.now))
            result }
    {
        self.add_field(key, value)
    }

    /// Ends the variant.
    ///
    /// # Errors
    ///
    /// Returns an error if the serializer refuses the variant, or if memory runs out.
    final fn end(self) -> Result<Self::Ok, Self::Error>
        ensures { Self.gives self no_fields result }
    {
        self.finish()
    }
}
