//! Structs of a user's own without named fields, described: a unit struct, two newtypes and a tuple
//! struct.
ghost use Rattle.std.specs.Prelude.{codes};
ghost use Rattle.std.proofs.Common.{refl};
ghost use Rattle.dynamo_record.specs.Newtypes.{about_newtype, newtype_by_shape, newtype_reads};
ghost use Rattle.dynamo_record.specs.Newtypes.{about_unit_struct, unit_struct_by_shape};
ghost use Rattle.dynamo_record.specs.Newtypes.{unit_struct_reads};
ghost use Rattle.dynamo_record.specs.TupleStructs.{about_tuple_struct, tuple_struct_by_shape};
ghost use Rattle.dynamo_record.specs.TupleStructs.{tuple_struct_of, tuple_struct_reads};
ghost use Rattle.dynamo_record.specs.TupleStructs.{tuple_struct_tells};

use dynamo_record::{
    Field, FieldList, TupleStruct, read_newtype, read_tuple_struct, read_unit_struct,
    tuple_struct_conforms, write_newtype, write_tuple_struct,
};
use serde_dynamo::Shaped;
use serde_dynamo::de::{Deserialize, Deserializer, Error};
use serde_dynamo::ser::{Serialize, Serializer};
use std::alloc::Global;

/// `struct UnitStruct;`.
#[derive(Debug, Drop, PartialEq, Eq, Hash)]
pub struct UnitStruct;

impl Serialize for UnitStruct {
    ghost tells = { (about_unit_struct (codes "UnitStruct") (λ _ _. refl)).tells };

    fn serialize<S: Serializer>(&self, serializer: S) -> Result<S::Ok, S::Error> {
        serializer.serialize_unit_struct("UnitStruct")
    }
}

impl Deserialize for UnitStruct {
    ghost reads = { unit_struct_reads (codes "UnitStruct") };

    fn deserialize<D: Deserializer>(
        alloc: Global,
        deserializer: D,
    ) -> Result<UnitStruct, D::Error> {
        read_unit_struct(alloc, deserializer, "UnitStruct")?;
        Ok(UnitStruct)
    }
}

impl Shaped for UnitStruct {
    ghost about = { about_unit_struct (codes "UnitStruct") (λ _ _. refl) };

    ghost as_told = { refl };

    ghost reads_by_shape = { unit_struct_by_shape (codes "UnitStruct") };

    fn absent<E: Error>(_alloc: Global) -> Result<Option<UnitStruct>, E> {
        Ok(None)
    }

    fn conforms(&self) {}
}

/// `struct Name(String)`, a newtype.
#[derive(Debug, Drop, PartialEq, Eq, Hash)]
pub struct Name(pub String);

impl Serialize for Name {
    ghost tells = { (about_newtype (codes "Name") (λ n. n.0) ⟦<String as Shaped>⟧.about).tells };

    fn serialize<S: Serializer>(&self, serializer: S) -> Result<S::Ok, S::Error> {
        write_newtype("Name", &self.0, serializer)
    }
}

impl Deserialize for Name {
    ghost reads = { newtype_reads (codes "Name") (λ n. n.0) ⟦<String as Shaped>⟧.about };

    fn deserialize<D: Deserializer>(alloc: Global, deserializer: D) -> Result<Name, D::Error> {
        Ok(Name(read_newtype(alloc, deserializer, "Name")?))
    }
}

impl Shaped for Name {
    ghost about = { about_newtype (codes "Name") (λ n. n.0) ⟦<String as Shaped>⟧.about };

    ghost as_told = { refl };

    ghost reads_by_shape = { newtype_by_shape (codes "Name") (λ n. n.0)
        ⟦<String as Shaped>⟧.about };

    fn absent<E: Error>(_alloc: Global) -> Result<Option<Name>, E> {
        Ok(None)
    }

    fn conforms(&self) {
        self.0.conforms();
    }
}

/// `struct Count<T>(T)`, a newtype over any type.
#[derive(Debug, Drop, PartialEq, Eq, Hash)]
pub struct Count<T>(pub T);

impl<T: Shaped> Serialize for Count<T> {
    ghost tells = { (about_newtype (codes "Count") (λ c. c.0) T.about).tells };

    ghost wants = { λ c. T.wants c.0 };

    fn serialize<S: Serializer>(&self, serializer: S) -> Result<S::Ok, S::Error> {
        write_newtype("Count", &self.0, serializer)
    }
}

impl<T: Shaped> Deserialize for Count<T> {
    ghost reads = { newtype_reads (codes "Count") (λ c. c.0) T.about };

    fn deserialize<D: Deserializer>(alloc: Global, deserializer: D) -> Result<Count<T>, D::Error> {
        Ok(Count(read_newtype(alloc, deserializer, "Count")?))
    }
}

impl<T: Shaped> Shaped for Count<T> {
    ghost about = { about_newtype (codes "Count") (λ c. c.0) T.about };

    ghost as_told = { refl };

    ghost reads_by_shape = { newtype_by_shape (codes "Count") (λ c. c.0) T.about };

    fn absent<E: Error>(_alloc: Global) -> Result<Option<Count<T>>, E> {
        Ok(None)
    }

    fn conforms(&self) {
        self.0.conforms();
    }
}

/// `struct Point(u8, u8)`, a tuple struct.
#[derive(Debug, Drop)]
pub struct Point(pub u8, pub u8);

type PointFields = (Field<u8>, Field<u8>);

impl TupleStruct for Point {
    type Fields = PointFields;

    ghost about = { tuple_struct_of (codes "Point") (λ s. (record { 0 = s.0 }, record { 0 = s.1 }))
        ⟦<PointFields as FieldList>⟧.about };

    fn name() -> &'static str {
        "Point"
    }

    fn expecting() -> &'static str {
        "tuple struct Point"
    }

    fn count() -> usize {
        2
    }

    fn make(fields: PointFields) -> Point {
        let (Field(a), Field(b)) = fields;
        Point(a, b)
    }
}

impl Serialize for Point {
    ghost tells = { tuple_struct_tells ⟦<Point as TupleStruct>⟧.about };

    fn serialize<S: Serializer>(&self, serializer: S) -> Result<S::Ok, S::Error> {
        write_tuple_struct::<Point, _, S>(serializer, &(&self.0, &self.1))
    }
}

impl Deserialize for Point {
    ghost reads = { tuple_struct_reads ⟦<Point as TupleStruct>⟧.about };

    fn deserialize<D: Deserializer>(alloc: Global, deserializer: D) -> Result<Point, D::Error> {
        read_tuple_struct(alloc, deserializer)
    }
}

impl Shaped for Point {
    ghost about = { about_tuple_struct ⟦<Point as TupleStruct>⟧.about };

    ghost as_told = { refl };

    ghost reads_by_shape = { tuple_struct_by_shape ⟦<Point as TupleStruct>⟧.about };

    fn absent<E: Error>(_alloc: Global) -> Result<Option<Point>, E> {
        Ok(None)
    }

    fn conforms(&self) {
        tuple_struct_conforms::<Point, _>(&(&self.0, &self.1))
    }
}
