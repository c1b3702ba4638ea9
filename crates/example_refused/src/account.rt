//! A struct with a value of each sample inside, described by the list of its fields.
ghost use Rattle.std.specs.Prelude.{[], ◌∷◌, codes, refl};
ghost use Rattle.dynamo_record.specs.Records.{record_of, record_tells, record_reads};

use crate::values;
use dynamo_record::{Field, FieldList, Record, read_record, write_record};
use serde_dynamo::de::{Deserialize, Deserializer};
use serde_dynamo::from_item;
use serde_dynamo::samples::{Event, Sets, User};
use serde_dynamo::ser::{Serialize, Serializer};
use std::alloc::Global;
use std::collections::HashMap;

/// A user with what happened to it, three sets, and answers by the number of their question.
#[derive(Drop, PartialEq, Eq)]
pub struct Account {
    pub user: User,
    pub events: Vec<Event>,
    pub sets: Sets,
    pub answers: HashMap<u8, Option<bool>>,
}

const SAMPLE: &str =
    r#"{"user":{"M":{"id":{"S":"fSsgVtal8TpP"},"name":{"S":"Arthur Dent"},"age":{"N":"42"}}},
    "events":{"L":[{"S":"Unit"},{"M":{"Newtype":{"N":"1"}}},
        {"M":{"Tuple":{"L":[{"N":"2"},{"N":"3"}]}}},
        {"M":{"Structy":{"M":{"one":{"N":"4"},"two":{"N":"5"}}}}}]},
    "sets":{"M":{"names":{"SS":["a","b"]},"numbers":{"NS":["7"]},"blobs":{"BS":["AQI="]}}},
    "answers":{"M":{"1":{"NULL":true},"2":{"BOOL":true}}}}"#;

impl Account {
    /// An account with an event of each form, and with an answer and a question without one.
    pub fn new(alloc: Global) -> serde_dynamo::Result<Account> {
        from_item(alloc, values::item(alloc, SAMPLE)?)
    }
}

type AccountFields = (
    (Field<User>, Field<Vec<Event>>),
    (Field<Sets>, Field<HashMap<u8, Option<bool>>>),
);

impl Record for Account {
    type Fields = AccountFields;

    ghost about = { record_of (codes "Account")
        (codes "user" ∷ codes "events" ∷ codes "sets" ∷ codes "answers" ∷ [])
        (λ s. (
          (record { 0 = s.user }, record { 0 = s.events }),
          (record { 0 = s.sets }, record { 0 = s.answers }),
        )) ⟦<AccountFields as FieldList>⟧.about };

    ghost named = { (refl, refl) };

    fn name() -> &'static str {
        "Account"
    }

    fn expecting() -> &'static str {
        "struct Account"
    }

    fn names() -> &'static [&'static str] {
        &["user", "events", "sets", "answers"]
    }

    fn make(fields: AccountFields) -> Account {
        let ((Field(user), Field(events)), (Field(sets), Field(answers))) = fields;
        Account {
            user,
            events,
            sets,
            answers,
        }
    }
}

impl Serialize for Account {
    ghost tells = { record_tells ⟦<Account as Record>⟧.about };

    fn serialize<S: Serializer>(&self, serializer: S) -> Result<S::Ok, S::Error> {
        write_record::<Account, _, S>(
            serializer,
            &((&self.user, &self.events), (&self.sets, &self.answers)),
        )
    }
}

impl Deserialize for Account {
    ghost reads = { record_reads ⟦<Account as Record>⟧.about };

    fn deserialize<D: Deserializer>(alloc: Global, deserializer: D) -> Result<Account, D::Error> {
        read_record(alloc, deserializer)
    }
}
