ghost use Rattle.std.specs.Prelude.{[], ◌∷◌, ◌≡◌, MatchResult, codes, refl};
ghost use Rattle.dynamo_value.specs.Fault.{out_of_memory};
ghost use Rattle.dynamo_value.specs.Kind.{fault_of};
ghost use Rattle.dynamo_record.specs.Records.{record_of, record_tells, record_reads, about_record};

use crate::{Sealed, Weight};
use dynamo_record::{Field, FieldList, Record, read_record, record_conforms, write_record};
use serde_dynamo::de::{Deserialize, Deserializer, Error};
use serde_dynamo::ser::{Serialize, Serializer};
use serde_dynamo::{AttributeValue, Shaped, reread};
use serde_json::Value;
use std::alloc::Global;

/// A sealed parcel.
#[derive(Debug, Drop)]
pub struct Parcel {
    pub seal: Sealed,
    pub weight: Weight,
}

type ParcelFields = (Field<Sealed>, Field<Weight>);

impl Record for Parcel {
    type Fields = ParcelFields;

    ghost about = { record_of (codes "Parcel") (codes "seal" ∷ codes "weight" ∷ []) (λ s. (record { 0 = s.seal }, record { 0 = s.weight })) ⟦<ParcelFields as FieldList>⟧.about };

    ghost named = { (refl, refl) };

    fn name() -> &'static str {
        "Parcel"
    }

    fn expecting() -> &'static str {
        "struct Parcel"
    }

    fn names() -> &'static [&'static str] {
        &["seal", "weight"]
    }

    fn make(fields: ParcelFields) -> Parcel {
        let (Field(seal), Field(weight)) = fields;
        Parcel { seal, weight }
    }
}

impl Serialize for Parcel {
    ghost tells = { record_tells ⟦<Parcel as Record>⟧.about };

    fn serialize<S: Serializer>(&self, serializer: S) -> Result<S::Ok, S::Error> {
        write_record::<Parcel, _, S>(serializer, &(&self.seal, &self.weight))
    }
}

impl Deserialize for Parcel {
    ghost reads = { record_reads ⟦<Parcel as Record>⟧.about };

    fn deserialize<D: Deserializer>(alloc: Global, deserializer: D) -> Result<Parcel, D::Error> {
        read_record(alloc, deserializer)
    }
}

impl Shaped for Parcel {
    ghost about = { about_record ⟦<Parcel as Record>⟧.about (refl, refl) };

    ghost as_told = { refl };

    ghost reads_by_shape = { λ _ _ h. h };

    fn absent<E: Error>(_alloc: Global) -> Result<Option<Parcel>, E> {
        Ok(None)
    }

    fn conforms(&self) {
        record_conforms::<Parcel, _>(&(&self.seal, &self.weight))
    }
}

/// What was stored of a parcel reads back, field by field.
///
/// # Errors
///
/// [`OutOfMemory`](serde_dynamo::ErrorImpl::OutOfMemory) alone.
pub fn stored_parcel(
    alloc: Global,
    parcel: &Parcel,
) -> serde_dynamo::Result<(AttributeValue, Value, Parcel)>
    ensures seal { MatchResult result (λ parts. parcel.now.seal ≡ parts.2.seal)
        (λ e. fault_of e ≡ out_of_memory) }
    ensures weight { MatchResult result (λ parts. parcel.now.weight.0 ≡ parts.2.weight.0)
        (λ e. fault_of e ≡ out_of_memory) }
{
    reread(alloc, parcel)
}
