ghost use Rattle.std.specs.Prelude.{ℕ, [], ◌∷◌, ◌≡◌, MatchResult, codes, refl, string_bytes};
ghost use Rattle.std.specs.declared.alloc.Global.{Global};
ghost use Rattle.std.specs.declared.string.String.{String};
ghost use Rattle.dynamo_value.specs.Fault.{out_of_memory};
ghost use Rattle.dynamo_value.specs.Kind.{fault_of};
ghost use Rattle.dynamo_shape.specs.ByValue.{SameOption};
ghost use Rattle.dynamo_record.specs.Enums.{enum_of, enum_tells, enum_reads, about_enum};
ghost use Rattle.dynamo_record.specs.declared.variant_list.Choice.TheVariants.{Left, Right};
ghost use Rattle.example_described.specs.declared.address.Address.{Address};
ghost use Rattle.example_described.specs.declared.shipment.Shipment.TheVariants as is;

use crate::Address;
use dynamo_record::{
    Choice, Enumeration, Field, Named, NamedFields, Nothing, One, Several, VariantList,
    named_conform, one_conforms, read_enum, several_conform, unit_conforms, write_one,
    write_several, write_struct, write_unit,
};
use serde_dynamo::de::{Deserialize, Deserializer, Error};
use serde_dynamo::ser::{Serialize, Serializer};
use serde_dynamo::{AttributeValue, Shaped, reread};
use serde_json::Value;
use std::alloc::Global;

/// Where a shipment is: an enum with variants of all four kinds.
#[derive(Debug, Drop)]
pub enum Shipment {
    Waiting,
    Tracked(String),
    Between(u8, u8),
    Delivered { at: u64, to: Address },
}

/// The fields of [`Shipment::Delivered`].
pub struct DeliveredFields;

impl NamedFields for DeliveredFields {
    type Fields = (Field<u64>, Field<Address>);

    ghost names = { codes "at" ∷ codes "to" ∷ [] };

    ghost named = { (refl, refl) };

    fn names() -> &'static [&'static str] {
        &["at", "to"]
    }
}

type ShipmentVariants = Choice<
    Choice<Nothing, One<String>>,
    Choice<Several<(Field<u8>, Field<u8>)>, Named<DeliveredFields>>,
>;

impl Enumeration for Shipment {
    type Variants = ShipmentVariants;

    ghost about = { enum_of (codes "Shipment") (codes "Waiting" ∷ codes "Tracked" ∷ codes "Between" ∷ codes "Delivered" ∷ []) (elim [
      | is.Waiting ↦ Left (Left _)
      | is.Tracked n ↦ Left (Right (record { 0 = n }))
      | is.Between a b ↦ Right (Left (record { 0 = (record { 0 = a }, record { 0 = b }) }))
      | is.Delivered at to ↦ Right (Right (record { 0 = (record { 0 = at }, record { 0 = to }) }))
    ]) ⟦<ShipmentVariants as VariantList>⟧.about };

    ghost named = { (refl, refl) };

    fn name() -> &'static str {
        "Shipment"
    }

    fn expecting() -> &'static str {
        "enum Shipment"
    }

    fn names() -> &'static [&'static str] {
        &["Waiting", "Tracked", "Between", "Delivered"]
    }

    fn make(variant: ShipmentVariants) -> Shipment {
        match variant {
            Choice::Left(Choice::Left(Nothing)) => Shipment::Waiting,
            Choice::Left(Choice::Right(One(n))) => Shipment::Tracked(n),
            Choice::Right(Choice::Left(Several(fields))) => {
                let (Field(a), Field(b)) = fields;
                Shipment::Between(a, b)
            }
            Choice::Right(Choice::Right(Named(fields))) => {
                let (Field(at), Field(to)) = fields;
                Shipment::Delivered { at, to }
            }
        }
    }
}

impl Serialize for Shipment {
    ghost tells = { enum_tells ⟦<Shipment as Enumeration>⟧.about };

    fn serialize<S: Serializer>(&self, serializer: S) -> Result<S::Ok, S::Error> {
        match self {
            Shipment::Waiting => write_unit::<Shipment, S>(serializer, 0),
            Shipment::Tracked(n) => write_one::<Shipment, String, S>(serializer, 1, n),
            Shipment::Between(a, b) => write_several::<Shipment, _, S>(serializer, 2, &(a, b)),
            Shipment::Delivered { at, to } => {
                write_struct::<Shipment, DeliveredFields, _, S>(serializer, 3, &(at, to))
            }
        }
    }
}

impl Deserialize for Shipment {
    ghost reads = { enum_reads ⟦<Shipment as Enumeration>⟧.about };

    fn deserialize<D: Deserializer>(alloc: Global, deserializer: D) -> Result<Shipment, D::Error> {
        read_enum(alloc, deserializer)
    }
}

impl Shaped for Shipment {
    ghost about = { about_enum ⟦<Shipment as Enumeration>⟧.about ((_, _), (_, (refl, refl))) };

    ghost as_told = { refl };

    ghost reads_by_shape = { λ _ _ h. h };

    fn absent<E: Error>(_alloc: Global) -> Result<Option<Shipment>, E> {
        Ok(None)
    }

    fn conforms(&self) {
        match self {
            Shipment::Waiting => unit_conforms::<Shipment>(0),
            Shipment::Tracked(n) => one_conforms::<Shipment, String>(1, n),
            Shipment::Between(a, b) => several_conform::<Shipment, _>(2, &(a, b)),
            Shipment::Delivered { at, to } => {
                named_conform::<Shipment, DeliveredFields, _>(3, &(at, to))
            }
        }
    }
}

/// What was stored of a shipment reads back, variant by variant.
///
/// # Errors
///
/// [`OutOfMemory`](serde_dynamo::ErrorImpl::OutOfMemory) alone.
pub fn stored_shipment(
    alloc: Global,
    shipment: &Shipment,
) -> serde_dynamo::Result<(AttributeValue, Value, Shipment)>
    ensures waiting { shipment.now ≡ is.Waiting
        → MatchResult result (λ parts. parts.2 ≡ is.Waiting) (λ e. fault_of e ≡ out_of_memory) }
    ensures tracked { (number : String Global) → shipment.now ≡ is.Tracked number
        → MatchResult result
        (λ parts. elim parts.2
        [ is.Tracked other ↦ string_bytes number ≡ string_bytes other | _ ↦ ⊥ ])
        (λ e. fault_of e ≡ out_of_memory) }
    ensures between { (from next : ℕ) → shipment.now ≡ is.Between from next
        → MatchResult result (λ parts. parts.2 ≡ is.Between from next)
        (λ e. fault_of e ≡ out_of_memory) }
    ensures delivered { (at : ℕ) (to : Address) → shipment.now ≡ is.Delivered at to
        → MatchResult result
        (λ parts. elim parts.2 [
          | is.Delivered other_at other
              ↦ (at ≡ other_at) × (string_bytes to.city ≡ string_bytes other.city)
              × SameOption (λ a b. a ≡ b) to.zip other.zip
          | _ ↦ ⊥
        ]) (λ e. fault_of e ≡ out_of_memory) }
{
    reread(alloc, shipment)
}
