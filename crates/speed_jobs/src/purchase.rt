//! What was bought: a type with texts, a number, an optional field, a list, an enum and a nested
//! struct.
ghost use Rattle.std.specs.Prelude.{[], ◌∷◌, codes, refl};
ghost use Rattle.dynamo_record.specs.Records.{record_of, record_tells, record_reads, about_record};

use crate::digest::{self, Digested};
use dynamo_record::{Field, FieldList, Record, read_record, record_conforms, write_record};
use example_described::{Address, Shipment};
use serde_dynamo::Shaped;
use serde_dynamo::de::{Deserialize, Deserializer, Error};
use serde_dynamo::ser::{Serialize, Serializer};
use std::alloc::{AllocError, Global};
use table_keys::{KeyAttribute, KeyKind, KeySchema};
use table_typed::Keyed;

/// A purchase.
#[derive(Drop)]
pub struct Purchase {
    /// Who bought: the partition key.
    pub customer: String,

    /// When, and which of the day: the sort key.
    pub placed: String,

    /// In cents.
    pub amount: u64,

    /// What the customer says.
    pub note: Option<String>,

    /// What was bought.
    pub articles: Vec<String>,

    /// Where it is.
    pub shipment: Shipment,

    /// Where it goes.
    pub home: Address,
}

type PurchaseFields = (
    (Field<String>, Field<String>),
    (Field<u64>, Field<Option<String>>),
    (Field<Vec<String>>, Field<Shipment>),
    Field<Address>,
);

impl Record for Purchase {
    type Fields = PurchaseFields;

    ghost about = { record_of (codes "Purchase")
        (codes "customer" ∷ codes "placed" ∷ codes "amount" ∷ codes "note" ∷ codes "articles"
        ∷ codes "shipment"
        ∷ codes "home"
        ∷ [])
        (λ s. (
          (record { 0 = s.customer }, record { 0 = s.placed }),
          (record { 0 = s.amount }, record { 0 = s.note }),
          (record { 0 = s.articles }, record { 0 = s.shipment }),
          record { 0 = s.home },
        ))
        ⟦<PurchaseFields as FieldList>⟧.about };

    ghost named = { (refl, refl) };

    fn name() -> &'static str {
        "Purchase"
    }

    fn expecting() -> &'static str {
        "struct Purchase"
    }

    fn names() -> &'static [&'static str] {
        &[
            "customer", "placed", "amount", "note", "articles", "shipment", "home",
        ]
    }

    fn make(fields: PurchaseFields) -> Purchase {
        let (
            (Field(customer), Field(placed)),
            (Field(amount), Field(note)),
            (Field(articles), Field(shipment)),
            Field(home),
        ) = fields;
        Purchase {
            customer,
            placed,
            amount,
            note,
            articles,
            shipment,
            home,
        }
    }
}

impl Serialize for Purchase {
    ghost tells = { record_tells ⟦<Purchase as Record>⟧.about };

    fn serialize<S: Serializer>(&self, serializer: S) -> Result<S::Ok, S::Error> {
        write_record::<Purchase, _, S>(
            serializer,
            &(
                (&self.customer, &self.placed),
                (&self.amount, &self.note),
                (&self.articles, &self.shipment),
                &self.home,
            ),
        )
    }
}

impl Deserialize for Purchase {
    ghost reads = { record_reads ⟦<Purchase as Record>⟧.about };

    fn deserialize<D: Deserializer>(alloc: Global, deserializer: D) -> Result<Purchase, D::Error> {
        read_record(alloc, deserializer)
    }
}

impl Shaped for Purchase {
    ghost about = { about_record ⟦<Purchase as Record>⟧.about (refl, refl) };

    ghost as_told = { refl };

    ghost reads_by_shape = { λ _ _ h. h };

    fn absent<E: Error>(_alloc: Global) -> Result<Option<Purchase>, E> {
        Ok(None)
    }

    fn conforms(&self) {
        record_conforms::<Purchase, _>(&(
            (&self.customer, &self.placed),
            (&self.amount, &self.note),
            (&self.articles, &self.shipment),
            &self.home,
        ))
    }
}

impl Keyed for Purchase {
    fn key_schema(alloc: Global) -> Result<KeySchema, AllocError> {
        let partition = KeyAttribute {
            name: String::from_str(alloc, "customer")?,
            kind: KeyKind::S,
        };
        let sort = KeyAttribute {
            name: String::from_str(alloc, "placed")?,
            kind: KeyKind::S,
        };
        Ok(KeySchema {
            partition,
            sort: Some(sort),
        })
    }
}

impl Digested for Purchase {
    fn digested(&self, digest: u64) -> u64 {
        let digest = digest::text(digest, self.customer.as_str());
        let digest = digest::text(digest, self.placed.as_str());
        let mut digest = digest::number(digest, self.amount);
        if let Some(note) = &self.note {
            digest = digest::text(digest, note.as_str());
        }
        for article in &self.articles {
            digest = digest::text(digest, article.as_str());
        }
        let digest = shipment(digest, &self.shipment);
        address(digest, &self.home)
    }
}

fn shipment(digest: u64, shipment: &Shipment) -> u64 {
    match shipment {
        Shipment::Waiting => digest::number(digest, 1),
        Shipment::Tracked(number) => digest::text(digest, number.as_str()),
        Shipment::Between(from, next) => {
            digest::number(digest::number(digest, u64::from(*from)), u64::from(*next))
        }
        Shipment::Delivered { at, to } => address(digest::number(digest, *at), to),
    }
}

fn address(digest: u64, address: &Address) -> u64 {
    let digest = digest::text(digest, address.city.as_str());
    match address.zip {
        Some(zip) => digest::number(digest, u64::from(zip)),
        None => digest,
    }
}
