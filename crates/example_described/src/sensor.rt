ghost use Rattle.std.specs.Prelude.{[], ◌∷◌, ◌≡◌, MatchResult, codes, refl, string_bytes};
ghost use Rattle.dynamo_value.specs.Fault.{out_of_memory};
ghost use Rattle.dynamo_value.specs.Kind.{fault_of};
ghost use Rattle.dynamo_shape.specs.ByValue.{SameEach};
ghost use Rattle.dynamo_record.specs.Records.{record_of, record_tells, record_reads, about_record};

use dynamo_record::{
    Field, FieldList, InStringSet, Record, WithDefault, read_record, record_conforms, write_record,
};
use serde_dynamo::de::{Deserialize, Deserializer, Error};
use serde_dynamo::ser::{Serialize, Serializer};
use serde_dynamo::{AttributeValue, Shaped, StringSet, reread};
use serde_json::Value;
use std::alloc::Global;

/// A sensor, whose fields are each stored in a way of their own.
#[derive(Debug, Drop)]
pub struct Sensor {
    /// Stored under another name.
    pub name: String,
    /// Stored as a set.
    pub labels: Vec<String>,
    /// Zero where it is missing.
    pub retries: u8,
}

type SensorFields = (
    (Field<String>, Field<InStringSet<String>>),
    Field<WithDefault<u8>>,
);

impl Record for Sensor {
    type Fields = SensorFields;

    ghost about = { record_of (codes "Sensor") (codes "sensorName" ∷ codes "labels" ∷ codes "retries" ∷ []) (λ s. ((record { 0 = s.name }, record { 0 = s.labels }), record { 0 = s.retries })) ⟦<SensorFields as FieldList>⟧.about };

    ghost named = { (refl, refl) };

    fn name() -> &'static str {
        "Sensor"
    }

    fn expecting() -> &'static str {
        "struct Sensor"
    }

    fn names() -> &'static [&'static str] {
        &["sensorName", "labels", "retries"]
    }

    fn make(fields: SensorFields) -> Sensor {
        let ((Field(name), Field(labels)), Field(retries)) = fields;
        Sensor {
            name,
            labels,
            retries,
        }
    }
}

impl Serialize for Sensor {
    ghost tells = { record_tells ⟦<Sensor as Record>⟧.about };

    fn serialize<S: Serializer>(&self, serializer: S) -> Result<S::Ok, S::Error> {
        write_record::<Sensor, _, S>(
            serializer,
            &((&self.name, StringSet(&self.labels)), &self.retries),
        )
    }
}

impl Deserialize for Sensor {
    ghost reads = { record_reads ⟦<Sensor as Record>⟧.about };

    fn deserialize<D: Deserializer>(alloc: Global, deserializer: D) -> Result<Sensor, D::Error> {
        read_record(alloc, deserializer)
    }
}

impl Shaped for Sensor {
    ghost about = { about_record ⟦<Sensor as Record>⟧.about (refl, refl) };

    ghost as_told = { refl };

    ghost reads_by_shape = { λ _ _ h. h };

    fn absent<E: Error>(_alloc: Global) -> Result<Option<Sensor>, E> {
        Ok(None)
    }

    fn conforms(&self) {
        record_conforms::<Sensor, _>(&((&self.name, StringSet(&self.labels)), &self.retries))
    }
}

/// What was stored of a sensor reads back, field by field: its labels in order.
///
/// # Errors
///
/// [`OutOfMemory`](serde_dynamo::ErrorImpl::OutOfMemory) alone.
pub fn stored_sensor(
    alloc: Global,
    sensor: &Sensor,
) -> serde_dynamo::Result<(AttributeValue, Value, Sensor)>
    ensures name { MatchResult result
        (λ parts. string_bytes sensor.now.name ≡ string_bytes parts.2.name)
        (λ e. fault_of e ≡ out_of_memory) }
    ensures labels { MatchResult result
        (λ parts. SameEach (λ a b. string_bytes a ≡ string_bytes b) sensor.now.labels.items
        parts.2.labels.items) (λ e. fault_of e ≡ out_of_memory) }
    ensures retries { MatchResult result (λ parts. sensor.now.retries ≡ parts.2.retries)
        (λ e. fault_of e ≡ out_of_memory) }
{
    reread(alloc, sensor)
}
