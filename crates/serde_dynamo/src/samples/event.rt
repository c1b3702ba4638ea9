ghost use Rattle.std.specs.Prelude.{[], ◌∷◌, codes, refl};
ghost use Rattle.dynamo_record.specs.Enums.{enum_of, enum_tells, enum_reads, about_enum};
ghost use Rattle.dynamo_record.specs.declared.variant_list.Choice.TheVariants.{Left, Right};
ghost use Rattle.serde_dynamo.specs.declared.samples.event.Event.TheVariants as is;

use crate::Shaped;
use dynamo_de::{Deserialize, Deserializer, Error};
use dynamo_record::{
    Choice, Enumeration, Field, Named, NamedFields, Nothing, One, Several, VariantList,
    named_conform, one_conforms, read_enum, several_conform, unit_conforms, write_one,
    write_several, write_struct, write_unit,
};
use dynamo_ser::{Serialize, Serializer};
use std::alloc::Global;

/// Something that happened, in each form that a variant can have.
#[derive(Debug, Drop, PartialEq, Eq, PartialOrd, Ord, Hash)]
pub enum Event {
    Unit,
    Newtype(u8),
    Tuple(u8, u8),
    Structy { one: u8, two: u8 },
}

/// The fields of [`Event::Structy`].
pub struct StructyFields;

impl NamedFields for StructyFields {
    type Fields = (Field<u8>, Field<u8>);

    ghost names = { codes "one" ∷ codes "two" ∷ [] };

    ghost named = { (refl, refl) };

    fn names() -> &'static [&'static str] {
        &["one", "two"]
    }
}

type EventVariants = Choice<
    Choice<Nothing, One<u8>>,
    Choice<Several<(Field<u8>, Field<u8>)>, Named<StructyFields>>,
>;

impl Enumeration for Event {
    type Variants = EventVariants;

    ghost about = { enum_of (codes "Event") (codes "Unit" ∷ codes "Newtype" ∷ codes "Tuple" ∷ codes "Structy" ∷ []) (elim [
      | is.Unit ↦ Left (Left _)
      | is.Newtype n ↦ Left (Right (record { 0 = n }))
      | is.Tuple a b ↦ Right (Left (record { 0 = (record { 0 = a }, record { 0 = b }) }))
      | is.Structy one two ↦ Right (Right (record { 0 = (record { 0 = one }, record { 0 = two }) }))
    ]) ⟦<EventVariants as VariantList>⟧.about };

    ghost named = { (refl, refl) };

    fn name() -> &'static str {
        "Event"
    }

    fn expecting() -> &'static str {
        "enum Event"
    }

    fn names() -> &'static [&'static str] {
        &["Unit", "Newtype", "Tuple", "Structy"]
    }

    fn make(variant: EventVariants) -> Event {
        match variant {
            Choice::Left(Choice::Left(Nothing)) => Event::Unit,
            Choice::Left(Choice::Right(One(n))) => Event::Newtype(n),
            Choice::Right(Choice::Left(Several(fields))) => {
                let (Field(a), Field(b)) = fields;
                Event::Tuple(a, b)
            }
            Choice::Right(Choice::Right(Named(fields))) => {
                let (Field(one), Field(two)) = fields;
                Event::Structy { one, two }
            }
        }
    }
}

impl Serialize for Event {
    ghost tells = { enum_tells ⟦<Event as Enumeration>⟧.about };

    fn serialize<S: Serializer>(&self, serializer: S) -> Result<S::Ok, S::Error> {
        match self {
            Event::Unit => write_unit::<Event, S>(serializer, 0),
            Event::Newtype(n) => write_one::<Event, u8, S>(serializer, 1, n),
            Event::Tuple(a, b) => write_several::<Event, _, S>(serializer, 2, &(a, b)),
            Event::Structy { one, two } => {
                write_struct::<Event, StructyFields, _, S>(serializer, 3, &(one, two))
            }
        }
    }
}

impl Deserialize for Event {
    ghost reads = { enum_reads ⟦<Event as Enumeration>⟧.about };

    fn deserialize<D: Deserializer>(alloc: Global, deserializer: D) -> Result<Event, D::Error> {
        read_enum(alloc, deserializer)
    }
}

impl Shaped for Event {
    ghost about = { about_enum ⟦<Event as Enumeration>⟧.about ((_, _), (_, (refl, refl))) };

    ghost as_told = { refl };

    ghost reads_by_shape = { λ _ _ h. h };

    fn absent<E: Error>(_alloc: Global) -> Result<Option<Event>, E> {
        Ok(None)
    }

    fn conforms(&self) {
        match self {
            Event::Unit => unit_conforms::<Event>(0),
            Event::Newtype(n) => one_conforms::<Event, u8>(1, n),
            Event::Tuple(a, b) => several_conform::<Event, _>(2, &(a, b)),
            Event::Structy { one, two } => named_conform::<Event, StructyFields, _>(3, &(one, two)),
        }
    }
}
