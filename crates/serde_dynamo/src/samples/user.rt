ghost use Rattle.std.specs.Prelude.{[], ◌∷◌, codes, refl};
ghost use Rattle.dynamo_record.specs.Records.{record_of, record_tells, record_reads, about_record};

use crate::Shaped;
use dynamo_de::{Deserialize, Deserializer, Error};
use dynamo_record::{Field, FieldList, Record, read_record, record_conforms, write_record};
use dynamo_ser::{Serialize, Serializer};
use std::alloc::Global;

/// A user of some service.
#[derive(Debug, Drop, PartialEq, Eq)]
pub struct User {
    pub id: String,
    pub name: String,
    pub age: u8,
}

type UserFields = ((Field<String>, Field<String>), Field<u8>);

impl Record for User {
    type Fields = UserFields;

    ghost about = { record_of (codes "User") (codes "id" ∷ codes "name" ∷ codes "age" ∷ []) (λ s. ((record { 0 = s.id }, record { 0 = s.name }), record { 0 = s.age })) ⟦<UserFields as FieldList>⟧.about };

    ghost named = { (refl, refl) };

    fn name() -> &'static str {
        "User"
    }

    fn expecting() -> &'static str {
        "struct User"
    }

    fn names() -> &'static [&'static str] {
        &["id", "name", "age"]
    }

    fn make(fields: UserFields) -> User {
        let ((Field(id), Field(name)), Field(age)) = fields;
        User { id, name, age }
    }
}

impl Serialize for User {
    ghost tells = { record_tells ⟦<User as Record>⟧.about };

    fn serialize<S: Serializer>(&self, serializer: S) -> Result<S::Ok, S::Error> {
        write_record::<User, _, S>(serializer, &((&self.id, &self.name), &self.age))
    }
}

impl Deserialize for User {
    ghost reads = { record_reads ⟦<User as Record>⟧.about };

    fn deserialize<D: Deserializer>(alloc: Global, deserializer: D) -> Result<User, D::Error> {
        read_record(alloc, deserializer)
    }
}

impl Shaped for User {
    ghost about = { about_record ⟦<User as Record>⟧.about (refl, refl) };

    ghost as_told = { refl };

    ghost reads_by_shape = { λ _ _ h. h };

    fn absent<E: Error>(_alloc: Global) -> Result<Option<User>, E> {
        Ok(None)
    }

    fn conforms(&self) {
        record_conforms::<User, _>(&((&self.id, &self.name), &self.age))
    }
}
