ghost use Rattle.std.specs.Prelude.{[], ◌∷◌, ◌≡◌, MatchResult, codes, refl, string_bytes};
ghost use Rattle.dynamo_value.specs.Fault.{out_of_memory};
ghost use Rattle.dynamo_value.specs.Kind.{fault_of};
ghost use Rattle.dynamo_shape.specs.ByValue.{SameEach, SameOption};
ghost use Rattle.dynamo_shape.specs.Clear.{Clear};
ghost use Rattle.dynamo_record.specs.Records.{record_of, record_tells, record_reads, about_record};

use dynamo_record::{Field, FieldList, Record, read_record, record_conforms, write_record};
use serde_dynamo::de::{Deserialize, Deserializer, Error};
use serde_dynamo::ser::{Serialize, Serializer};
use serde_dynamo::{AttributeValue, Shaped, reread};
use serde_json::Value;
use std::alloc::Global;

/// A page of what was found, and where the next one begins.
#[derive(Debug, Drop)]
pub struct Page<T> {
    pub items: Vec<T>,
    pub next: Option<String>,
}

type PageFields<T> = (Field<Vec<T>>, Field<Option<String>>);

impl<T: Shaped> Record for Page<T> {
    type Fields = PageFields<T>;

    ghost about = { record_of (codes "Page") (codes "items" ∷ codes "next" ∷ []) (λ s. (record { 0 = s.items }, record { 0 = s.next })) ⟦<PageFields<T> as FieldList>⟧.about };

    ghost named = { (refl, refl) };

    fn name() -> &'static str {
        "Page"
    }

    fn expecting() -> &'static str {
        "struct Page"
    }

    fn names() -> &'static [&'static str] {
        &["items", "next"]
    }

    fn make(fields: PageFields<T>) -> Page<T> {
        let (Field(items), Field(next)) = fields;
        Page { items, next }
    }
}

impl<T: Shaped> Serialize for Page<T> {
    ghost tells = { record_tells ⟦<Page<T> as Record>⟧.about };

    fn serialize<S: Serializer>(&self, serializer: S) -> Result<S::Ok, S::Error> {
        write_record::<Page<T>, _, S>(serializer, &(&self.items, &self.next))
    }
}

impl<T: Shaped> Deserialize for Page<T> {
    ghost reads = { record_reads ⟦<Page<T> as Record>⟧.about };

    fn deserialize<D: Deserializer>(alloc: Global, deserializer: D) -> Result<Page<T>, D::Error> {
        read_record(alloc, deserializer)
    }
}

impl<T: Shaped> Shaped for Page<T> {
    ghost about = { about_record ⟦<Page<T> as Record>⟧.about (refl, refl) };

    ghost as_told = { refl };

    ghost reads_by_shape = { λ _ _ h. h };

    fn absent<E: Error>(_alloc: Global) -> Result<Option<Page<T>>, E> {
        Ok(None)
    }

    fn conforms(&self) {
        record_conforms::<Page<T>, _>(&(&self.items, &self.next))
    }
}

/// What was stored of a page reads back, where the shape of its items is clear.
///
/// # Errors
///
/// [`OutOfMemory`](serde_dynamo::ErrorImpl::OutOfMemory) alone, where the shape of the items is
/// clear.
pub fn stored_page<T: Shaped>(
    alloc: Global,
    page: &Page<T>,
) -> serde_dynamo::Result<(AttributeValue, Value, Page<T>)>
    ensures items { Clear T.about.shape
        → MatchResult result
        (λ parts. SameEach T.about.same page.now.items.items parts.2.items.items)
        (λ e. fault_of e ≡ out_of_memory) }
    ensures next { Clear T.about.shape
        → MatchResult result
        (λ parts. SameOption (λ a b. string_bytes a ≡ string_bytes b) page.now.next parts.2.next)
        (λ e. fault_of e ≡ out_of_memory) }
{
    reread(alloc, page)
}
