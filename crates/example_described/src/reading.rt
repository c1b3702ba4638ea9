ghost use Rattle.std.specs.Prelude.{◌≡◌, MatchResult, codes, refl, string_bytes};
ghost use Rattle.dynamo_value.specs.Fault.{out_of_memory};
ghost use Rattle.dynamo_value.specs.Kind.{fault_of};
ghost use Rattle.dynamo_shape.specs.ByValue.{SameEach, SameOption};
ghost use Rattle.dynamo_record.specs.TupleStructs.{about_tuple_struct, tuple_struct_by_shape, tuple_struct_of, tuple_struct_reads, tuple_struct_tells};

use dynamo_record::{
    Field, FieldList, TupleStruct, read_tuple_struct, tuple_struct_conforms, write_tuple_struct,
};
use serde_dynamo::de::{Deserialize, Deserializer, Error};
use serde_dynamo::ser::{Serialize, Serializer};
use serde_dynamo::{AttributeValue, Shaped, reread};
use serde_json::Value;
use std::alloc::Global;

/// One reading of a sensor: the second, its unit and its samples.
#[derive(Debug, Drop)]
pub struct Reading(pub u64, pub Option<String>, pub Vec<u8>);

type ReadingFields = ((Field<u64>, Field<Option<String>>), Field<Vec<u8>>);

impl TupleStruct for Reading {
    type Fields = ReadingFields;

    ghost about = { tuple_struct_of (codes "Reading") (λ s. ((record { 0 = s.0 }, record { 0 = s.1 }), record { 0 = s.2 })) ⟦<ReadingFields as FieldList>⟧.about };

    fn name() -> &'static str {
        "Reading"
    }

    fn expecting() -> &'static str {
        "tuple struct Reading"
    }

    fn count() -> usize {
        3
    }

    fn make(fields: ReadingFields) -> Reading {
        let ((Field(a), Field(b)), Field(c)) = fields;
        Reading(a, b, c)
    }
}

impl Serialize for Reading {
    ghost tells = { tuple_struct_tells ⟦<Reading as TupleStruct>⟧.about };

    fn serialize<S: Serializer>(&self, serializer: S) -> Result<S::Ok, S::Error> {
        write_tuple_struct::<Reading, _, S>(serializer, &((&self.0, &self.1), &self.2))
    }
}

impl Deserialize for Reading {
    ghost reads = { tuple_struct_reads ⟦<Reading as TupleStruct>⟧.about };

    fn deserialize<D: Deserializer>(alloc: Global, deserializer: D) -> Result<Reading, D::Error> {
        read_tuple_struct(alloc, deserializer)
    }
}

impl Shaped for Reading {
    ghost about = { about_tuple_struct ⟦<Reading as TupleStruct>⟧.about };

    ghost as_told = { refl };

    ghost reads_by_shape = { tuple_struct_by_shape ⟦<Reading as TupleStruct>⟧.about };

    fn absent<E: Error>(_alloc: Global) -> Result<Option<Reading>, E> {
        Ok(None)
    }

    fn conforms(&self) {
        tuple_struct_conforms::<Reading, _>(&((&self.0, &self.1), &self.2))
    }
}

/// What was stored of a reading reads back, field by field.
///
/// # Errors
///
/// [`OutOfMemory`](serde_dynamo::ErrorImpl::OutOfMemory) alone.
pub fn stored_reading(
    alloc: Global,
    reading: &Reading,
) -> serde_dynamo::Result<(AttributeValue, Value, Reading)>
    ensures second { MatchResult result (λ parts. reading.now.0 ≡ parts.2.0)
        (λ e. fault_of e ≡ out_of_memory) }
    ensures unit { MatchResult result
        (λ parts. SameOption (λ a b. string_bytes a ≡ string_bytes b) reading.now.1 parts.2.1)
        (λ e. fault_of e ≡ out_of_memory) }
    ensures samples { MatchResult result
        (λ parts. SameEach (λ a b. a ≡ b) reading.now.2.items parts.2.2.items)
        (λ e. fault_of e ≡ out_of_memory) }
{
    reread(alloc, reading)
}
