ghost use Rattle.std.specs.Prelude.{[], ◌∷◌, ◌≡◌, MatchResult, codes, refl, string_bytes};
ghost use Rattle.dynamo_value.specs.Fault.{out_of_memory};
ghost use Rattle.dynamo_value.specs.Kind.{fault_of};
ghost use Rattle.dynamo_shape.specs.ByValue.{SameEach, SameOption};
ghost use Rattle.dynamo_record.specs.Records.{record_of, record_tells, record_reads, about_record};

use dynamo_record::{Field, FieldList, Record, read_record, record_conforms, write_record};
use serde_dynamo::de::{Deserialize, Deserializer, Error};
use serde_dynamo::ser::{Serialize, Serializer};
use serde_dynamo::{AttributeValue, Shaped, reread};
use serde_json::Value;
use std::alloc::Global;

/// A station of some network, and what it read last.
#[derive(Debug, Drop)]
pub struct Station {
    pub id: String,
    pub reading: Option<u8>,
    pub tags: Vec<String>,
}

type StationFields = ((Field<String>, Field<Option<u8>>), Field<Vec<String>>);

impl Record for Station {
    type Fields = StationFields;

    ghost about = { record_of (codes "Station") (codes "id" ∷ codes "reading" ∷ codes "tags" ∷ []) (λ s. ((record { 0 = s.id }, record { 0 = s.reading }), record { 0 = s.tags })) ⟦<StationFields as FieldList>⟧.about };

    ghost named = { (refl, refl) };

    fn name() -> &'static str {
        "Station"
    }

    fn expecting() -> &'static str {
        "struct Station"
    }

    fn names() -> &'static [&'static str] {
        &["id", "reading", "tags"]
    }

    fn make(fields: StationFields) -> Station {
        let ((Field(id), Field(reading)), Field(tags)) = fields;
        Station { id, reading, tags }
    }
}

impl Serialize for Station {
    ghost tells = { record_tells ⟦<Station as Record>⟧.about };

    fn serialize<S: Serializer>(&self, serializer: S) -> Result<S::Ok, S::Error> {
        write_record::<Station, _, S>(serializer, &((&self.id, &self.reading), &self.tags))
    }
}

impl Deserialize for Station {
    ghost reads = { record_reads ⟦<Station as Record>⟧.about };

    fn deserialize<D: Deserializer>(alloc: Global, deserializer: D) -> Result<Station, D::Error> {
        read_record(alloc, deserializer)
    }
}

impl Shaped for Station {
    ghost about = { about_record ⟦<Station as Record>⟧.about (refl, refl) };

    ghost as_told = { refl };

    ghost reads_by_shape = { λ _ _ h. h };

    fn absent<E: Error>(_alloc: Global) -> Result<Option<Station>, E> {
        Ok(None)
    }

    fn conforms(&self) {
        record_conforms::<Station, _>(&((&self.id, &self.reading), &self.tags))
    }
}

/// What was stored of a station reads back, field by field.
///
/// # Errors
///
/// [`OutOfMemory`](serde_dynamo::ErrorImpl::OutOfMemory) alone.
pub fn stored_station(
    alloc: Global,
    station: &Station,
) -> serde_dynamo::Result<(AttributeValue, Value, Station)>
    ensures id { MatchResult result (λ parts. string_bytes station.now.id ≡ string_bytes parts.2.id)
        (λ e. fault_of e ≡ out_of_memory) }
    ensures reading { MatchResult result
        (λ parts. SameOption (λ a b. a ≡ b) station.now.reading parts.2.reading)
        (λ e. fault_of e ≡ out_of_memory) }
    ensures tags { MatchResult result
        (λ parts. SameEach (λ a b. string_bytes a ≡ string_bytes b) station.now.tags.items
        parts.2.tags.items) (λ e. fault_of e ≡ out_of_memory) }
{
    reread(alloc, station)
}
