ghost use Rattle.std.specs.Prelude.{[], ◌∷◌, ◌≡◌, MatchResult, codes, refl, string_bytes};
ghost use Rattle.std.specs.BTreeMap as sorted;
ghost use Rattle.std.specs.String.{string_cmp};
ghost use Rattle.dynamo_value.specs.Fault.{out_of_memory};
ghost use Rattle.dynamo_value.specs.Kind.{fault_of};
ghost use Rattle.dynamo_shape.specs.ByValue.{SameMap};
ghost use Rattle.dynamo_record.specs.Records.{record_of, record_tells, record_reads, about_record};

use crate::Code;
use dynamo_record::{Field, FieldList, Record, read_record, record_conforms, write_record};
use serde_dynamo::de::{Deserialize, Deserializer, Error};
use serde_dynamo::ser::{Serialize, Serializer};
use serde_dynamo::{AttributeValue, Shaped, reread};
use serde_json::Value;
use std::alloc::Global;
use std::collections::BTreeMap;

/// A shelf, with the number of each article that stands on it.
#[derive(Debug, Drop)]
pub struct Shelf {
    pub name: String,
    pub articles: BTreeMap<Code, u8>,
}

type ShelfFields = (Field<String>, Field<BTreeMap<Code, u8>>);

impl Record for Shelf {
    type Fields = ShelfFields;

    ghost about = { record_of (codes "Shelf") (codes "name" ∷ codes "articles" ∷ []) (λ s. (record { 0 = s.name }, record { 0 = s.articles })) ⟦<ShelfFields as FieldList>⟧.about };

    ghost named = { (refl, refl) };

    fn name() -> &'static str {
        "Shelf"
    }

    fn expecting() -> &'static str {
        "struct Shelf"
    }

    fn names() -> &'static [&'static str] {
        &["name", "articles"]
    }

    fn make(fields: ShelfFields) -> Shelf {
        let (Field(name), Field(articles)) = fields;
        Shelf { name, articles }
    }
}

impl Serialize for Shelf {
    ghost tells = { record_tells ⟦<Shelf as Record>⟧.about };

    fn serialize<S: Serializer>(&self, serializer: S) -> Result<S::Ok, S::Error> {
        write_record::<Shelf, _, S>(serializer, &(&self.name, &self.articles))
    }
}

impl Deserialize for Shelf {
    ghost reads = { record_reads ⟦<Shelf as Record>⟧.about };

    fn deserialize<D: Deserializer>(alloc: Global, deserializer: D) -> Result<Shelf, D::Error> {
        read_record(alloc, deserializer)
    }
}

impl Shaped for Shelf {
    ghost about = { about_record ⟦<Shelf as Record>⟧.about (refl, refl) };

    ghost as_told = { refl };

    ghost reads_by_shape = { λ _ _ h. h };

    fn absent<E: Error>(_alloc: Global) -> Result<Option<Shelf>, E> {
        Ok(None)
    }

    fn conforms(&self) {
        record_conforms::<Shelf, _>(&(&self.name, &self.articles))
    }
}

/// What was stored of a shelf reads back: its name, and its articles at each code.
///
/// # Errors
///
/// [`OutOfMemory`](serde_dynamo::ErrorImpl::OutOfMemory) alone.
pub fn stored_shelf(
    alloc: Global,
    shelf: &Shelf,
) -> serde_dynamo::Result<(AttributeValue, Value, Shelf)>
    ensures name { MatchResult result
        (λ parts. string_bytes shelf.now.name ≡ string_bytes parts.2.name)
        (λ e. fault_of e ≡ out_of_memory) }
    ensures articles { MatchResult result
        (λ parts. SameMap (sorted.get (λ c d. string_cmp c.0 d.0)) (λ a b. a ≡ b) shelf.now.articles
        parts.2.articles) (λ e. fault_of e ≡ out_of_memory) }
{
    reread(alloc, shelf)
}
