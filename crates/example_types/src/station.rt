//! A struct of a user's own that is described.
ghost use Rattle.std.specs.Prelude.{[], ◌∷◌, codes, refl};
ghost use Rattle.dynamo_record.specs.Records.{record_of, record_tells, record_reads, about_record};

use dynamo_record::{Field, FieldList, Record, read_record, record_conforms, write_record};
use serde_dynamo::Shaped;
use serde_dynamo::de::{Deserialize, Deserializer, Error};
use serde_dynamo::ser::{Serialize, Serializer};
use std::alloc::Global;

/// A station of some network, and what it read last.
#[derive(Debug, Drop)]
pub struct Station {
    /// The name of the station.
    pub id: String,
    /// The last reading, if there is one.
    pub reading: Option<u8>,
}

type StationFields = (Field<String>, Field<Option<u8>>);

impl Record for Station {
    type Fields = StationFields;

    ghost about = { record_of (codes "Station") (codes "id" ∷ codes "reading" ∷ [])
        (λ s. (record { 0 = s.id }, record { 0 = s.reading }))
        ⟦<StationFields as FieldList>⟧.about };

    ghost named = { (refl, refl) };

    fn name() -> &'static str {
        "Station"
    }

    fn expecting() -> &'static str {
        "struct Station"
    }

    fn names() -> &'static [&'static str] {
        &["id", "reading"]
    }

    fn make(fields: StationFields) -> Station {
        let (Field(id), Field(reading)) = fields;
        Station { id, reading }
    }
}

impl Serialize for Station {
    ghost tells = { record_tells ⟦<Station as Record>⟧.about };

    fn serialize<S: Serializer>(&self, serializer: S) -> Result<S::Ok, S::Error> {
        write_record::<Station, _, S>(serializer, &(&self.id, &self.reading))
    }
}

impl Deserialize for Station {
    ghost reads = { record_reads ⟦<Station as Record>⟧.about };

    fn deserialize<D: Deserializer>(alloc: Global, deserializer: D) -> Result<Station, D::Error> {
        read_record(alloc, deserializer)
    }
}

impl Shaped for Station {
    ghost about = { about_record ⟦<Station as Record>⟧.about (refl, refl) };

    ghost as_told = { refl };

    ghost reads_by_shape = { λ _ _ h. h };

    fn absent<E: Error>(_alloc: Global) -> Result<Option<Station>, E> {
        Ok(None)
    }

    fn conforms(&self) {
        record_conforms::<Station, _>(&(&self.id, &self.reading))
    }
}
