ghost use Rattle.std.specs.Prelude.{[], ◌∷◌, ◌≡◌, MatchResult, codes, refl, string_bytes};
ghost use Rattle.std.specs.HashMap as hashed;
ghost use Rattle.std.specs.String.{string_eq};
ghost use Rattle.dynamo_value.specs.Fault.{out_of_memory};
ghost use Rattle.dynamo_value.specs.Kind.{fault_of};
ghost use Rattle.dynamo_shape.specs.ByValue.{SameEach, SameMap, SameOption};
ghost use Rattle.dynamo_record.specs.Records.{record_of, record_tells, record_reads, about_record};

use crate::Address;
use dynamo_record::{Field, FieldList, Record, read_record, record_conforms, write_record};
use serde_dynamo::de::{Deserialize, Deserializer, Error};
use serde_dynamo::ser::{Serialize, Serializer};
use serde_dynamo::{AttributeValue, Shaped, reread};
use serde_json::Value;
use std::alloc::Global;
use std::collections::HashMap;

/// An order, with what is in stock for it and where it goes.
#[derive(Debug, Drop)]
pub struct Order {
    pub id: String,
    pub count: u32,
    pub note: Option<String>,
    pub tags: Vec<String>,
    pub stock: HashMap<String, u64>,
    pub home: Address,
}

type OrderFields = (
    (Field<String>, Field<u32>),
    (Field<Option<String>>, Field<Vec<String>>),
    Field<HashMap<String, u64>>,
    Field<Address>,
);

impl Record for Order {
    type Fields = OrderFields;

    ghost about = { record_of (codes "Order") (codes "id" ∷ codes "count" ∷ codes "note" ∷ codes "tags" ∷ codes "stock" ∷ codes "home" ∷ []) (λ s. ((record { 0 = s.id }, record { 0 = s.count }), (record { 0 = s.note }, record { 0 = s.tags }), record { 0 = s.stock }, record { 0 = s.home })) ⟦<OrderFields as FieldList>⟧.about };

    ghost named = { (refl, refl) };

    fn name() -> &'static str {
        "Order"
    }

    fn expecting() -> &'static str {
        "struct Order"
    }

    fn names() -> &'static [&'static str] {
        &["id", "count", "note", "tags", "stock", "home"]
    }

    fn make(fields: OrderFields) -> Order {
        let ((Field(id), Field(count)), (Field(note), Field(tags)), Field(stock), Field(home)) =
            fields;
        Order {
            id,
            count,
            note,
            tags,
            stock,
            home,
        }
    }
}

impl Serialize for Order {
    ghost tells = { record_tells ⟦<Order as Record>⟧.about };

    fn serialize<S: Serializer>(&self, serializer: S) -> Result<S::Ok, S::Error> {
        write_record::<Order, _, S>(
            serializer,
            &(
                (&self.id, &self.count),
                (&self.note, &self.tags),
                &self.stock,
                &self.home,
            ),
        )
    }
}

impl Deserialize for Order {
    ghost reads = { record_reads ⟦<Order as Record>⟧.about };

    fn deserialize<D: Deserializer>(alloc: Global, deserializer: D) -> Result<Order, D::Error> {
        read_record(alloc, deserializer)
    }
}

impl Shaped for Order {
    ghost about = { about_record ⟦<Order as Record>⟧.about (refl, refl) };

    ghost as_told = { refl };

    ghost reads_by_shape = { λ _ _ h. h };

    fn absent<E: Error>(_alloc: Global) -> Result<Option<Order>, E> {
        Ok(None)
    }

    fn conforms(&self) {
        record_conforms::<Order, _>(&(
            (&self.id, &self.count),
            (&self.note, &self.tags),
            &self.stock,
            &self.home,
        ))
    }
}

/// What was stored of an order reads back, field by field: the stock at each key.
///
/// # Errors
///
/// [`OutOfMemory`](serde_dynamo::ErrorImpl::OutOfMemory) alone.
pub fn stored_order(
    alloc: Global,
    order: &Order,
) -> serde_dynamo::Result<(AttributeValue, Value, Order)>
    ensures id { MatchResult result (λ parts. string_bytes order.now.id ≡ string_bytes parts.2.id)
        (λ e. fault_of e ≡ out_of_memory) }
    ensures count { MatchResult result (λ parts. order.now.count ≡ parts.2.count)
        (λ e. fault_of e ≡ out_of_memory) }
    ensures note { MatchResult result
        (λ parts. SameOption (λ a b. string_bytes a ≡ string_bytes b) order.now.note parts.2.note)
        (λ e. fault_of e ≡ out_of_memory) }
    ensures tags { MatchResult result
        (λ parts. SameEach (λ a b. string_bytes a ≡ string_bytes b) order.now.tags.items
        parts.2.tags.items) (λ e. fault_of e ≡ out_of_memory) }
    ensures stock { MatchResult result
        (λ parts. SameMap (hashed.get string_eq) (λ a b. a ≡ b) order.now.stock parts.2.stock)
        (λ e. fault_of e ≡ out_of_memory) }
    ensures home_city { MatchResult result
        (λ parts. string_bytes order.now.home.city ≡ string_bytes parts.2.home.city)
        (λ e. fault_of e ≡ out_of_memory) }
    ensures home_zip { MatchResult result
        (λ parts. SameOption (λ a b. a ≡ b) order.now.home.zip parts.2.home.zip)
        (λ e. fault_of e ≡ out_of_memory) }
{
    reread(alloc, order)
}
