ghost use Rattle.std.specs.Prelude.{pos};
ghost use Rattle.dynamo_ser.specs.Datum as datum;

use crate::{Serialize, Serializer};

impl Serialize for bool {
    ghost tells = { λ b. datum.boolean b };

    fn serialize<S: Serializer>(&self, serializer: S) -> Result<S::Ok, S::Error> {
        serializer.serialize_bool(*self)
    }
}

impl Serialize for i8 {
    ghost tells = { λ n. datum.integer datum.i8 n };

    fn serialize<S: Serializer>(&self, serializer: S) -> Result<S::Ok, S::Error> {
        serializer.serialize_i8(*self)
    }
}

impl Serialize for i16 {
    ghost tells = { λ n. datum.integer datum.i16 n };

    fn serialize<S: Serializer>(&self, serializer: S) -> Result<S::Ok, S::Error> {
        serializer.serialize_i16(*self)
    }
}

impl Serialize for i32 {
    ghost tells = { λ n. datum.integer datum.i32 n };

    fn serialize<S: Serializer>(&self, serializer: S) -> Result<S::Ok, S::Error> {
        serializer.serialize_i32(*self)
    }
}

impl Serialize for i64 {
    ghost tells = { λ n. datum.integer datum.i64 n };

    fn serialize<S: Serializer>(&self, serializer: S) -> Result<S::Ok, S::Error> {
        serializer.serialize_i64(*self)
    }
}

impl Serialize for i128 {
    ghost tells = { λ n. datum.integer datum.i128 n };

    fn serialize<S: Serializer>(&self, serializer: S) -> Result<S::Ok, S::Error> {
        serializer.serialize_i128(*self)
    }
}

impl Serialize for u8 {
    ghost tells = { λ n. datum.integer datum.u8 (pos n) };

    fn serialize<S: Serializer>(&self, serializer: S) -> Result<S::Ok, S::Error> {
        serializer.serialize_u8(*self)
    }
}

impl Serialize for u16 {
    ghost tells = { λ n. datum.integer datum.u16 (pos n) };

    fn serialize<S: Serializer>(&self, serializer: S) -> Result<S::Ok, S::Error> {
        serializer.serialize_u16(*self)
    }
}

impl Serialize for u32 {
    ghost tells = { λ n. datum.integer datum.u32 (pos n) };

    fn serialize<S: Serializer>(&self, serializer: S) -> Result<S::Ok, S::Error> {
        serializer.serialize_u32(*self)
    }
}

impl Serialize for u64 {
    ghost tells = { λ n. datum.integer datum.u64 (pos n) };

    fn serialize<S: Serializer>(&self, serializer: S) -> Result<S::Ok, S::Error> {
        serializer.serialize_u64(*self)
    }
}

impl Serialize for u128 {
    ghost tells = { λ n. datum.integer datum.u128 (pos n) };

    fn serialize<S: Serializer>(&self, serializer: S) -> Result<S::Ok, S::Error> {
        serializer.serialize_u128(*self)
    }
}
