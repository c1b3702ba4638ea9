//! A struct of a user's own that is written, read and given its shape by hand.
ghost use Rattle.std.specs.Prelude.{◌≡◌, refl, Ok, codes};
ghost use Rattle.serde_dynamo.specs.Answer.{After};
ghost use Rattle.serde_dynamo.specs.Reading.{read_parts};
ghost use Rattle.serde_dynamo.specs.Fields.{NamesOne};
ghost use Rattle.serde_dynamo.specs.Visitors.{claims_str, take_identifier, claims_struct};
ghost use Rattle.serde_dynamo.specs.Visitors.{take_parts};
ghost use Rattle.dynamo_shape.proofs.TypesByHand.{struct_permitted};
ghost use Rattle.example_types.specs.GaugeShape.{gauge_told, gauge_field, gauge_parts};
ghost use Rattle.example_types.specs.GaugeShape.{gauge_from_parts};
ghost use Rattle.example_types.specs.GaugeShape.{gauge_fields, gauge_named, gauge_listed};
ghost use Rattle.example_types.specs.GaugeShape.{about_gauge};

use serde_dynamo::Shaped;
use serde_dynamo::de::{
    Deserialize, Deserializer, Error, IgnoredAny, Kind, MapAccess, SeqAccess, Visitor,
};
use serde_dynamo::ser::{Serialize, SerializeStruct, Serializer};
use std::alloc::Global;

/// A gauge at some river, and what it read last.
#[derive(Debug, Drop)]
pub struct Gauge {
    /// The name of the gauge.
    pub id: String,
    /// The last reading, if there is one.
    pub reading: Option<u8>,
}

impl Serialize for Gauge {
    ghost tells = { gauge_told };

    fn serialize<S: Serializer>(&self, serializer: S) -> Result<S::Ok, S::Error> {
        let mut state = serializer.serialize_struct("Gauge", 2)?;
        state.serialize_field("id", &self.id)?;
        state.serialize_field("reading", &self.reading)?;
        state.end()
    }
}

/// The names of the fields, and any other name.
#[derive(Clone, Copy, Debug, Drop, PartialEq, Eq)]
enum Field {
    Id,
    Reading,
    Other,
}

#[derive(Drop)]
struct FieldVisitor {
    alloc: Global,
}

impl Visitor for FieldVisitor {
    type Value = Field;

    ghost claimed = { λ _. claims_str };

    ghost takes = { λ _ s. After (take_identifier s) (λ t r. r ≡ Ok (gauge_field t)) };

    fn expecting(&self) -> &'static str {
        "field identifier"
    }

    fn alloc(&self) -> Global {
        self.alloc
    }

    fn claims(&self, kind: Kind) -> bool {
        matches!(kind, Kind::Str)
    }

    fn visit_str<E: Error>(self, v: &str) -> Result<Field, E> {
        match v {
            "id" => Ok(Field::Id),
            "reading" => Ok(Field::Reading),
            _ => Ok(Field::Other),
        }
    }
}

impl Deserialize for Field {
    ghost reads = { NamesOne gauge_field };

    fn deserialize<D: Deserializer>(alloc: Global, deserializer: D) -> Result<Field, D::Error> {
        deserializer.deserialize_identifier(FieldVisitor { alloc })
    }
}

/// Why a sequence is no Gauge.
const TOO_SHORT: &str = "invalid length: too few elements, expected struct Gauge";

/// Why a map is no Gauge.
const MISSING_FIELD: &str = "missing field, expected struct Gauge";

#[derive(Drop)]
struct GaugeVisitor {
    alloc: Global,
}

impl Visitor for GaugeVisitor {
    type Value = Gauge;

    ghost claimed = { λ _. claims_struct };

    ghost takes = { λ _ s. After (take_parts s) gauge_from_parts };

    fn expecting(&self) -> &'static str {
        "struct Gauge"
    }

    fn alloc(&self) -> Global {
        self.alloc
    }

    fn claims(&self, kind: Kind) -> bool {
        matches!(kind, Kind::Seq | Kind::Map)
    }

    #[tactic(auto, using(crate::proofs::GaugeFields::id_element, crate::proofs::GaugeFields::id_lacks, crate::proofs::GaugeFields::id_fails, crate::proofs::GaugeFields::reading_element, crate::proofs::GaugeFields::reading_lacks, crate::proofs::GaugeFields::reading_fails))]
    fn visit_seq<A: SeqAccess>(self, mut seq: A) -> Result<Gauge, A::Error> {
        let Some(id) = seq.next_element::<String>(self.alloc)? else {
            return Err(A::Error::custom(self.alloc, TOO_SHORT));
        };
        let Some(reading) = seq.next_element::<Option<u8>>(self.alloc)? else {
            return Err(A::Error::custom(self.alloc, TOO_SHORT));
        };
        Ok(Gauge { id, reading })
    }

    // A reading that is missing is none; the name has to be there.
    #[tactic(auto, using(crate::proofs::GaugeFields::starts, crate::proofs::GaugeFields::falls, crate::proofs::GaugeFields::key_lacks, crate::proofs::GaugeFields::ends, crate::proofs::GaugeFields::id_read, crate::proofs::GaugeFields::reading_read, crate::proofs::GaugeFields::other_read, crate::proofs::GaugeFields::id_refused, crate::proofs::GaugeFields::reading_refused, crate::proofs::GaugeFields::other_refused))]
    fn visit_map<A: MapAccess>(self, mut map: A) -> Result<Gauge, A::Error> {
        let mut id = None;
        let mut reading = None;
        while let Some(field) = map.next_key::<Field>(self.alloc)? {
            match field {
                Field::Id => id = Some(map.next_value::<String>(self.alloc)?),
                Field::Reading => reading = Some(map.next_value::<Option<u8>>(self.alloc)?),
                Field::Other => {
                    map.next_value::<IgnoredAny>(self.alloc)?;
                }
            }
        }
        match (id, reading) {
            (Some(id), Some(reading)) => Ok(Gauge { id, reading }),
            (Some(id), None) => Ok(Gauge { id, reading: None }),
            _ => Err(A::Error::custom(self.alloc, MISSING_FIELD)),
        }
    }
}

impl Deserialize for Gauge {
    ghost reads = { λ s. After (read_parts s) gauge_from_parts };

    fn deserialize<D: Deserializer>(alloc: Global, deserializer: D) -> Result<Gauge, D::Error> {
        deserializer.deserialize_struct("Gauge", &["id", "reading"], GaugeVisitor { alloc })
    }
}

impl Shaped for Gauge {
    ghost about = { about_gauge };

    ghost as_told = { refl };

    ghost reads_by_shape = { struct_permitted (codes "Gauge") gauge_fields gauge_told gauge_parts
        gauge_named gauge_listed };

    fn absent<E: Error>(_alloc: Global) -> Result<Option<Gauge>, E> {
        Ok(None)
    }

    fn conforms(&self) {
        self.id.conforms();
        self.reading.conforms();
    }
}
