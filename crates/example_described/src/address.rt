ghost use Rattle.std.specs.Prelude.{[], ◌∷◌, ◌≡◌, MatchResult, codes, refl, string_bytes};
ghost use Rattle.dynamo_value.specs.Fault.{out_of_memory};
ghost use Rattle.dynamo_value.specs.Kind.{fault_of};
ghost use Rattle.dynamo_shape.specs.ByValue.{SameOption};
ghost use Rattle.dynamo_record.specs.Records.{record_of, record_tells, record_reads, about_record};

use dynamo_record::{Field, FieldList, Record, read_record, record_conforms, write_record};
use serde_dynamo::de::{Deserialize, Deserializer, Error};
use serde_dynamo::ser::{Serialize, Serializer};
use serde_dynamo::{AttributeValue, Shaped, reread};
use serde_json::Value;
use std::alloc::Global;

/// Where something is.
#[derive(Debug, Drop)]
pub struct Address {
    pub city: String,
    pub zip: Option<u32>,
}

type AddressFields = (Field<String>, Field<Option<u32>>);

impl Record for Address {
    type Fields = AddressFields;

    ghost about = { record_of (codes "Address") (codes "city" ∷ codes "zip" ∷ []) (λ s. (record { 0 = s.city }, record { 0 = s.zip })) ⟦<AddressFields as FieldList>⟧.about };

    ghost named = { (refl, refl) };

    fn name() -> &'static str {
        "Address"
    }

    fn expecting() -> &'static str {
        "struct Address"
    }

    fn names() -> &'static [&'static str] {
        &["city", "zip"]
    }

    fn make(fields: AddressFields) -> Address {
        let (Field(city), Field(zip)) = fields;
        Address { city, zip }
    }
}

impl Serialize for Address {
    ghost tells = { record_tells ⟦<Address as Record>⟧.about };

    fn serialize<S: Serializer>(&self, serializer: S) -> Result<S::Ok, S::Error> {
        write_record::<Address, _, S>(serializer, &(&self.city, &self.zip))
    }
}

impl Deserialize for Address {
    ghost reads = { record_reads ⟦<Address as Record>⟧.about };

    fn deserialize<D: Deserializer>(alloc: Global, deserializer: D) -> Result<Address, D::Error> {
        read_record(alloc, deserializer)
    }
}

impl Shaped for Address {
    ghost about = { about_record ⟦<Address as Record>⟧.about (refl, refl) };

    ghost as_told = { refl };

    ghost reads_by_shape = { λ _ _ h. h };

    fn absent<E: Error>(_alloc: Global) -> Result<Option<Address>, E> {
        Ok(None)
    }

    fn conforms(&self) {
        record_conforms::<Address, _>(&(&self.city, &self.zip))
    }
}

/// What was stored of an address reads back, field by field.
///
/// # Errors
///
/// [`OutOfMemory`](serde_dynamo::ErrorImpl::OutOfMemory) alone.
pub fn stored_address(
    alloc: Global,
    address: &Address,
) -> serde_dynamo::Result<(AttributeValue, Value, Address)>
    ensures city { MatchResult result
        (λ parts. string_bytes address.now.city ≡ string_bytes parts.2.city)
        (λ e. fault_of e ≡ out_of_memory) }
    ensures zip { MatchResult result
        (λ parts. SameOption (λ a b. a ≡ b) address.now.zip parts.2.zip)
        (λ e. fault_of e ≡ out_of_memory) }
{
    reread(alloc, address)
}
