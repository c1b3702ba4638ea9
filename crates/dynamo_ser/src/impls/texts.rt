ghost use Rattle.std.specs.Prelude.{string_bytes};
ghost use Rattle.dynamo_value.specs.Bytes.{octets_of, lent_octets};
ghost use Rattle.dynamo_value.specs.Text.{lent_text};
ghost use Rattle.dynamo_ser.specs.Datum as datum;

use crate::{Serialize, Serializer};
use dynamo_value::{ByteBuf, Bytes, Text};

impl Serialize for char {
    ghost tells = { λ c. datum.char c };

    fn serialize<S: Serializer>(&self, serializer: S) -> Result<S::Ok, S::Error> {
        serializer.serialize_char(*self)
    }
}

impl Serialize for String {
    ghost tells = { λ s. datum.string (string_bytes s) };

    fn serialize<S: Serializer>(&self, serializer: S) -> Result<S::Ok, S::Error> {
        serializer.serialize_str(self)
    }
}

impl Serialize for Text<'_> {
    ghost tells = { λ t. datum.string (lent_text t) };

    fn serialize<S: Serializer>(&self, serializer: S) -> Result<S::Ok, S::Error> {
        serializer.serialize_str(self.as_str())
    }
}

impl Serialize for Bytes<'_> {
    ghost tells = { λ b. datum.bytes (lent_octets b) };

    fn serialize<S: Serializer>(&self, serializer: S) -> Result<S::Ok, S::Error> {
        serializer.serialize_bytes(self.as_slice())
    }
}

impl Serialize for ByteBuf {
    ghost tells = { λ b. datum.bytes (octets_of b) };

    fn serialize<S: Serializer>(&self, serializer: S) -> Result<S::Ok, S::Error> {
        Bytes::new(self.as_slice()).serialize(serializer)
    }
}
