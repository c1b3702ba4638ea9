ghost use Rattle.std.specs.Prelude.{[], ◌∷◌, codes, refl};
ghost use Rattle.dynamo_record.specs.Records.{record_of, record_tells, record_reads, about_record};

use crate::Shaped;
use dynamo_de::{Deserialize, Deserializer, Error};
use dynamo_record::{
    Field, FieldList, InBinarySet, InNumberSet, InStringSet, Record, read_record, record_conforms,
    write_record,
};
use dynamo_ser::{BinarySet, NumberSet, Serialize, Serializer, StringSet};
use dynamo_value::ByteBuf;
use std::alloc::Global;

/// Three lists, each of which is written as a set.
#[derive(Debug, Drop, PartialEq, Eq)]
pub struct Sets {
    pub names: Vec<String>,
    pub numbers: Vec<u64>,
    pub blobs: Vec<ByteBuf>,
}

type SetsFields = (
    (Field<InStringSet<String>>, Field<InNumberSet<u64>>),
    Field<InBinarySet<ByteBuf>>,
);

impl Record for Sets {
    type Fields = SetsFields;

    ghost about = { record_of (codes "Sets") (codes "names" ∷ codes "numbers" ∷ codes "blobs" ∷ []) (λ s. ((record { 0 = s.names }, record { 0 = s.numbers }), record { 0 = s.blobs })) ⟦<SetsFields as FieldList>⟧.about };

    ghost named = { (refl, refl) };

    fn name() -> &'static str {
        "Sets"
    }

    fn expecting() -> &'static str {
        "struct Sets"
    }

    fn names() -> &'static [&'static str] {
        &["names", "numbers", "blobs"]
    }

    fn make(fields: SetsFields) -> Sets {
        let ((Field(names), Field(numbers)), Field(blobs)) = fields;
        Sets {
            names,
            numbers,
            blobs,
        }
    }
}

impl Serialize for Sets {
    ghost tells = { record_tells ⟦<Sets as Record>⟧.about };

    fn serialize<S: Serializer>(&self, serializer: S) -> Result<S::Ok, S::Error> {
        write_record::<Sets, _, S>(
            serializer,
            &(
                (StringSet(&self.names), NumberSet(&self.numbers)),
                BinarySet(&self.blobs),
            ),
        )
    }
}

impl Deserialize for Sets {
    ghost reads = { record_reads ⟦<Sets as Record>⟧.about };

    fn deserialize<D: Deserializer>(alloc: Global, deserializer: D) -> Result<Sets, D::Error> {
        read_record(alloc, deserializer)
    }
}

impl Shaped for Sets {
    ghost about = { about_record ⟦<Sets as Record>⟧.about (refl, refl) };

    ghost as_told = { refl };

    ghost reads_by_shape = { λ _ _ h. h };

    fn absent<E: Error>(_alloc: Global) -> Result<Option<Sets>, E> {
        Ok(None)
    }

    fn conforms(&self) {
        record_conforms::<Sets, _>(&(
            (StringSet(&self.names), NumberSet(&self.numbers)),
            BinarySet(&self.blobs),
        ))
    }
}
