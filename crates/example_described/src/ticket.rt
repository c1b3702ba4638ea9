ghost use Rattle.std.specs.Prelude.{[], ◌∷◌, ◌≡◌, MatchResult, codes, refl, string_bytes};
ghost use Rattle.std.specs.BTreeMap as sorted;
ghost use Rattle.std.specs.HashMap as hashed;
ghost use Rattle.std.specs.String.{string_cmp, string_eq};
ghost use Rattle.dynamo_value.specs.Fault.{out_of_memory};
ghost use Rattle.dynamo_value.specs.Kind.{fault_of};
ghost use Rattle.dynamo_shape.specs.ByValue.{SameEach, SameMap, SameOption};
ghost use Rattle.dynamo_record.specs.Records.{record_of, record_tells, record_reads, about_record};

use dynamo_record::{
    Field, FieldList, InStringSet, Omitted, OmittedRef, Record, read_record, record_conforms,
    write_record,
};
use serde_dynamo::de::{Deserialize, Deserializer, Error};
use serde_dynamo::ser::{Serialize, Serializer};
use serde_dynamo::{AttributeValue, Shaped, StringSet, reread_clear};
use serde_json::Value;
use std::alloc::Global;
use std::collections::{BTreeMap, HashMap};

/// A ticket of a help desk. Its item leaves out the fields that are empty.
#[derive(Debug, Drop)]
pub struct Ticket {
    pub id: String,
    pub assigned_to: Option<String>,
    pub note: String,
    pub replies: Vec<String>,
    pub labels: Vec<String>,
    pub minutes: HashMap<String, u32>,
    pub links: BTreeMap<String, String>,
}

type TicketFields = (
    (Field<String>, Field<Omitted<Option<String>>>),
    (Field<Omitted<String>>, Field<Omitted<Vec<String>>>),
    (
        Field<Omitted<InStringSet<String>>>,
        Field<Omitted<HashMap<String, u32>>>,
    ),
    Field<Omitted<BTreeMap<String, String>>>,
);

impl Record for Ticket {
    type Fields = TicketFields;

    ghost about = { record_of (codes "Ticket") (codes "id" ∷ codes "assignedTo" ∷ codes "note" ∷ codes "replies" ∷ codes "labels" ∷ codes "minutes" ∷ codes "links" ∷ []) (λ s. ((record { 0 = s.id }, record { 0 = s.assigned_to }), (record { 0 = s.note }, record { 0 = s.replies }), (record { 0 = s.labels }, record { 0 = s.minutes }), record { 0 = s.links })) ⟦<TicketFields as FieldList>⟧.about };

    ghost named = { (refl, refl) };

    fn name() -> &'static str {
        "Ticket"
    }

    fn expecting() -> &'static str {
        "struct Ticket"
    }

    fn names() -> &'static [&'static str] {
        &[
            "id",
            "assignedTo",
            "note",
            "replies",
            "labels",
            "minutes",
            "links",
        ]
    }

    fn make(fields: TicketFields) -> Ticket {
        let (
            (Field(id), Field(assigned_to)),
            (Field(note), Field(replies)),
            (Field(labels), Field(minutes)),
            Field(links),
        ) = fields;
        Ticket {
            id,
            assigned_to,
            note,
            replies,
            labels,
            minutes,
            links,
        }
    }
}

impl Serialize for Ticket {
    ghost tells = { record_tells ⟦<Ticket as Record>⟧.about };

    fn serialize<S: Serializer>(&self, serializer: S) -> Result<S::Ok, S::Error> {
        write_record::<Ticket, _, S>(
            serializer,
            &(
                (&self.id, OmittedRef(&self.assigned_to)),
                (OmittedRef(&self.note), OmittedRef(&self.replies)),
                (
                    OmittedRef(StringSet(&self.labels)),
                    OmittedRef(&self.minutes),
                ),
                OmittedRef(&self.links),
            ),
        )
    }
}

impl Deserialize for Ticket {
    ghost reads = { record_reads ⟦<Ticket as Record>⟧.about };

    fn deserialize<D: Deserializer>(alloc: Global, deserializer: D) -> Result<Ticket, D::Error> {
        read_record(alloc, deserializer)
    }
}

impl Shaped for Ticket {
    ghost about = { about_record ⟦<Ticket as Record>⟧.about (refl, refl) };

    ghost as_told = { refl };

    ghost reads_by_shape = { λ _ _ h. h };

    fn absent<E: Error>(_alloc: Global) -> Result<Option<Ticket>, E> {
        Ok(None)
    }

    fn conforms(&self) {
        record_conforms::<Ticket, _>(&(
            (&self.id, OmittedRef(&self.assigned_to)),
            (OmittedRef(&self.note), OmittedRef(&self.replies)),
            (
                OmittedRef(StringSet(&self.labels)),
                OmittedRef(&self.minutes),
            ),
            OmittedRef(&self.links),
        ))
    }
}

/// Stores a ticket and reads it back. It returns the attribute value, its DynamoDB JSON, and the
/// ticket that was read, of which each field is the same, also if it was left out.
///
/// # Errors
///
/// Returns [`OutOfMemory`](serde_dynamo::ErrorImpl::OutOfMemory) alone.
pub fn stored_ticket(
    alloc: Global,
    ticket: &Ticket,
) -> serde_dynamo::Result<(AttributeValue, Value, Ticket)>
    ensures id { MatchResult result (λ parts. string_bytes ticket.now.id ≡ string_bytes parts.2.id)
        (λ e. fault_of e ≡ out_of_memory) }
    ensures assigned_to { MatchResult result
        (λ parts. SameOption (λ a b. string_bytes a ≡ string_bytes b) ticket.now.assigned_to
        parts.2.assigned_to) (λ e. fault_of e ≡ out_of_memory) }
    ensures note { MatchResult result
        (λ parts. string_bytes ticket.now.note ≡ string_bytes parts.2.note)
        (λ e. fault_of e ≡ out_of_memory) }
    ensures replies { MatchResult result (λ parts. SameEach (λ a b. string_bytes a ≡ string_bytes b)
        ticket.now.replies.items parts.2.replies.items) (λ e. fault_of e ≡ out_of_memory) }
    ensures labels { MatchResult result (λ parts. SameEach (λ a b. string_bytes a ≡ string_bytes b)
        ticket.now.labels.items parts.2.labels.items) (λ e. fault_of e ≡ out_of_memory) }
    ensures minutes { MatchResult result (λ parts. SameMap (hashed.get string_eq) (λ a b. a ≡ b)
        ticket.now.minutes parts.2.minutes) (λ e. fault_of e ≡ out_of_memory) }
    ensures links { MatchResult result
        (λ parts. SameMap (sorted.get string_cmp) (λ a b. string_bytes a ≡ string_bytes b)
        ticket.now.links parts.2.links) (λ e. fault_of e ≡ out_of_memory) }
{
    reread_clear(alloc, ticket)
}
