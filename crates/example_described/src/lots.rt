ghost use Rattle.std.specs.Prelude.{[], ◌∷◌, ◌≡◌, MatchResult, codes, refl};
ghost use Rattle.std.specs.BTreeMap as sorted;
ghost use Rattle.std.specs.HashMap as hashed;
ghost use Rattle.dynamo_value.specs.Fault.{out_of_memory};
ghost use Rattle.dynamo_value.specs.Kind.{fault_of};
ghost use Rattle.dynamo_shape.specs.ByValue.{SameMap};
ghost use Rattle.dynamo_record.specs.Records.{record_of, record_tells, record_reads, about_record};

use crate::Side;
use dynamo_record::{Field, FieldList, Record, read_record, record_conforms, write_record};
use serde_dynamo::de::{Deserialize, Deserializer, Error};
use serde_dynamo::ser::{Serialize, Serializer};
use serde_dynamo::{AttributeValue, Shaped, ShapedKey, reread};
use serde_json::Value;
use std::alloc::Global;
use std::collections::{BTreeMap, HashMap};

/// How many lots there are at each side, as a hashed map and as a sorted one.
#[derive(Debug, Drop)]
pub struct Lots {
    pub hashed: HashMap<Side, u8>,
    pub sorted: BTreeMap<Side, u8>,
}

type LotsFields = (Field<HashMap<Side, u8>>, Field<BTreeMap<Side, u8>>);

impl Record for Lots {
    type Fields = LotsFields;

    ghost about = { record_of (codes "Lots") (codes "hashed" ∷ codes "sorted" ∷ []) (λ s. (record { 0 = s.hashed }, record { 0 = s.sorted })) ⟦<LotsFields as FieldList>⟧.about };

    ghost named = { (refl, refl) };

    fn name() -> &'static str {
        "Lots"
    }

    fn expecting() -> &'static str {
        "struct Lots"
    }

    fn names() -> &'static [&'static str] {
        &["hashed", "sorted"]
    }

    fn make(fields: LotsFields) -> Lots {
        let (Field(hashed), Field(sorted)) = fields;
        Lots { hashed, sorted }
    }
}

impl Serialize for Lots {
    ghost tells = { record_tells ⟦<Lots as Record>⟧.about };

    fn serialize<S: Serializer>(&self, serializer: S) -> Result<S::Ok, S::Error> {
        write_record::<Lots, _, S>(serializer, &(&self.hashed, &self.sorted))
    }
}

impl Deserialize for Lots {
    ghost reads = { record_reads ⟦<Lots as Record>⟧.about };

    fn deserialize<D: Deserializer>(alloc: Global, deserializer: D) -> Result<Lots, D::Error> {
        read_record(alloc, deserializer)
    }
}

impl Shaped for Lots {
    ghost about = { about_record ⟦<Lots as Record>⟧.about (refl, refl) };

    ghost as_told = { refl };

    ghost reads_by_shape = { λ _ _ h. h };

    fn absent<E: Error>(_alloc: Global) -> Result<Option<Lots>, E> {
        Ok(None)
    }

    fn conforms(&self) {
        record_conforms::<Lots, _>(&(&self.hashed, &self.sorted))
    }
}

/// What was stored of the lots reads back: both maps at each side.
///
/// # Errors
///
/// [`OutOfMemory`](serde_dynamo::ErrorImpl::OutOfMemory) alone.
pub fn stored_lots(
    alloc: Global,
    lots: &Lots,
) -> serde_dynamo::Result<(AttributeValue, Value, Lots)>
    ensures hashed { MatchResult result
        (λ parts. SameMap (hashed.get ⟦<Side as ShapedKey>⟧.about_key.eq) (λ a b. a ≡ b)
        lots.now.hashed parts.2.hashed) (λ e. fault_of e ≡ out_of_memory) }
    ensures sorted { MatchResult result
        (λ parts. SameMap (sorted.get ⟦<Side as ShapedKey>⟧.about_key.cmp) (λ a b. a ≡ b)
        lots.now.sorted parts.2.sorted) (λ e. fault_of e ≡ out_of_memory) }
{
    reread(alloc, lots)
}
