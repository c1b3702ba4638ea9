ghost use Rattle.std.specs.Prelude.{[], ◌∷◌, ◌≡◌, MatchResult, codes, refl, string_bytes, true};
ghost use Rattle.dynamo_value.specs.Fault.{out_of_memory};
ghost use Rattle.dynamo_value.specs.Kind.{fault_of};
ghost use Rattle.dynamo_shape.specs.ByValue.{SameEach, SameOption};
ghost use Rattle.dynamo_record.specs.ByRules.{about_by_rules, rules_reads};
ghost use Rattle.dynamo_record.specs.Records.{record_of, record_tells};

use dynamo_record::{
    Field, FieldList, Omitted, OmittedRef, Record, RecordRules, read_record_by_rules,
    record_conforms, write_record,
};
use serde_dynamo::de::{Deserialize, Deserializer, Error};
use serde_dynamo::ser::{Serialize, Serializer};
use serde_dynamo::{AttributeValue, Shaped, reread_clear};
use serde_json::Value;
use std::alloc::Global;

/// A contact of an address book. Older items have its phone number under other names. An item with
/// any other attribute is refused.
#[derive(Debug, Drop)]
pub struct Contact {
    pub id: String,
    pub phone: String,
    pub email: Option<String>,
    pub groups: Vec<String>,
}

type ContactFields = (
    Field<String>,
    Field<String>,
    Field<Option<String>>,
    Field<Omitted<Vec<String>>>,
);

impl Record for Contact {
    type Fields = ContactFields;

    ghost about = { record_of (codes "Contact") (codes "id" ∷ codes "phone" ∷ codes "email" ∷ codes "groups" ∷ []) (λ s. (record { 0 = s.id }, record { 0 = s.phone }, record { 0 = s.email }, record { 0 = s.groups })) ⟦<ContactFields as FieldList>⟧.about };

    ghost named = { (refl, refl) };

    fn name() -> &'static str {
        "Contact"
    }

    fn expecting() -> &'static str {
        "struct Contact"
    }

    fn names() -> &'static [&'static str] {
        &["id", "phone", "email", "groups"]
    }

    fn make(fields: ContactFields) -> Contact {
        let (Field(id), Field(phone), Field(email), Field(groups)) = fields;
        Contact {
            id,
            phone,
            email,
            groups,
        }
    }
}

impl RecordRules for Contact {
    ghost rules = { record { aliases = (codes "telephone", codes "phone") ∷ (codes "tel", codes "phone") ∷ (codes "mail", codes "email") ∷ []; denies = true } };

    fn aliases() -> &'static [(&'static str, &'static str)] {
        &[("telephone", "phone"), ("tel", "phone"), ("mail", "email")]
    }

    fn denies_unknown() -> bool {
        true
    }
}

impl Serialize for Contact {
    ghost tells = { record_tells ⟦<Contact as Record>⟧.about };

    fn serialize<S: Serializer>(&self, serializer: S) -> Result<S::Ok, S::Error> {
        write_record::<Contact, _, S>(
            serializer,
            &(&self.id, &self.phone, &self.email, OmittedRef(&self.groups)),
        )
    }
}

impl Deserialize for Contact {
    ghost reads = { rules_reads ⟦<Contact as RecordRules>⟧.rules ⟦<Contact as Record>⟧.about };

    fn deserialize<D: Deserializer>(alloc: Global, deserializer: D) -> Result<Contact, D::Error> {
        read_record_by_rules(alloc, deserializer)
    }
}

impl Shaped for Contact {
    ghost about = { about_by_rules ⟦<Contact as RecordRules>⟧.rules ⟦<Contact as Record>⟧.about (refl, refl) };

    ghost as_told = { refl };

    ghost reads_by_shape = { λ _ _ h. h };

    fn absent<E: Error>(_alloc: Global) -> Result<Option<Contact>, E> {
        Ok(None)
    }

    fn conforms(&self) {
        record_conforms::<Contact, _>(&(
            &self.id,
            &self.phone,
            &self.email,
            OmittedRef(&self.groups),
        ))
    }
}

/// Stores a contact and reads it back. It returns the attribute value, its DynamoDB JSON, and the
/// contact that was read, of which each field is the same.
///
/// # Errors
///
/// Returns [`OutOfMemory`](serde_dynamo::ErrorImpl::OutOfMemory) alone.
pub fn stored_contact(
    alloc: Global,
    contact: &Contact,
) -> serde_dynamo::Result<(AttributeValue, Value, Contact)>
    ensures id { MatchResult result (λ parts. string_bytes contact.now.id ≡ string_bytes parts.2.id)
        (λ e. fault_of e ≡ out_of_memory) }
    ensures phone { MatchResult result
        (λ parts. string_bytes contact.now.phone ≡ string_bytes parts.2.phone)
        (λ e. fault_of e ≡ out_of_memory) }
    ensures email { MatchResult result (λ parts. SameOption (λ a b. string_bytes a ≡ string_bytes b)
        contact.now.email parts.2.email) (λ e. fault_of e ≡ out_of_memory) }
    ensures groups { MatchResult result (λ parts. SameEach (λ a b. string_bytes a ≡ string_bytes b)
        contact.now.groups.items parts.2.groups.items) (λ e. fault_of e ≡ out_of_memory) }
{
    reread_clear(alloc, contact)
}
