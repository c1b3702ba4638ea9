ghost use Rattle.std.specs.Prelude.{map};
ghost use Rattle.dynamo_value.specs.Base64.{base64_text};
ghost use Rattle.dynamo_value.specs.PrefixView.{prefix_view};
ghost use Rattle.dynamo_ser.specs.AttributeDatum as attribute;
ghost use Rattle.dynamo_ser.specs.AttributeDatum.{attribute_datum, item_datum, bytes_datum, seq_of};
ghost use Rattle.dynamo_ser.specs.Datum as datum;
ghost use Rattle.dynamo_ser.specs.Writes.{Writes};

use crate::{Error, Serialize, SerializeMap, SerializeSeq, Serializer};
use dynamo_value::{AttributeValue, Item, Prefix, Text, base64_text};

impl Serialize for AttributeValue {
    ghost tells = { attribute_datum };

    fn serialize<S: Serializer>(&self, serializer: S) -> Result<S::Ok, S::Error> {
        match self {
            AttributeValue::N(text) => under(Prefix::N, text, serializer),
            AttributeValue::S(text) => under(Prefix::S, text, serializer),
            AttributeValue::Bool(b) => under(Prefix::Bool, b, serializer),
            AttributeValue::B(bytes) => under(Prefix::B, &Base64(bytes), serializer),
            AttributeValue::Null(b) => under(Prefix::Null, b, serializer),
            AttributeValue::M(map) => under(Prefix::M, map, serializer),
            AttributeValue::L(list) => under(Prefix::L, list, serializer),
            AttributeValue::Ss(set) => under(Prefix::Ss, set, serializer),
            AttributeValue::Ns(set) => under(Prefix::Ns, set, serializer),
            AttributeValue::Bs(set) => under(Prefix::Bs, &Base64List(set), serializer),
        }
    }
}

impl Serialize for Item {
    ghost tells = { item_datum };

    fn serialize<S: Serializer>(&self, serializer: S) -> Result<S::Ok, S::Error> {
        self.inner().serialize(serializer)
    }
}

// The map of one entry, whose key is a prefix. It isn't inlined: a nested value is written with the
// frame of one entry for each of its levels, not with one for each of the ten kinds.
#[inline(never)]
fn under<T: Serialize, S: Serializer>(
    prefix: Prefix,
    content: &T,
    serializer: S,
) -> Result<S::Ok, S::Error>
    ensures { Writes S.Error.fault ⊥ (S.outcome serializer)
        (attribute.under (prefix_view prefix) (T.tells content.now)) result }
{
    let mut pair = serializer.serialize_map(Some(1))?;
    pair.serialize_entry(&Text::new(prefix.as_str()), content)?;
    pair.end()
}

// A byte string that is written as its base64 string.
#[derive(Clone, Copy)]
struct Base64<'a>(&'a [u8]);

impl Serialize for Base64<'_> {
    ghost tells = { λ b. datum.string (base64_text b.0.now) };

    // the string
    ghost wants = { λ _. Unit {0} };

    fn serialize<S: Serializer>(&self, serializer: S) -> Result<S::Ok, S::Error> {
        match base64_text::encode(serializer.alloc(), self.0) {
            Ok(text) => serializer.serialize_str(&text),
            Err(_) => Err(S::Error::out_of_memory()),
        }
    }
}

// Byte strings that are written as the list of their base64 strings.
#[derive(Clone, Copy)]
struct Base64List<'a>(&'a Vec<Vec<u8>>);

impl Serialize for Base64List<'_> {
    ghost tells = { λ list. seq_of (map bytes_datum list.0.now.items) };

    fn serialize<S: Serializer>(&self, serializer: S) -> Result<S::Ok, S::Error> {
        let mut elements = serializer.serialize_seq(Some(self.0.len()))?;
        for bytes in self.0 {
            elements.serialize_element(&Base64(bytes))?;
        }
        elements.end()
    }
}
