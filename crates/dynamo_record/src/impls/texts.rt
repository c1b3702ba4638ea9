ghost use Rattle.std.specs.Prelude.{string_bytes};
ghost use Rattle.std.proofs.Common.{refl};
ghost use Rattle.dynamo_value.specs.Bytes.{octets_of};
ghost use Rattle.dynamo_shape.proofs.Scalars.{char_permitted, text_permitted, bytes_permitted};
ghost use Rattle.dynamo_shape.proofs.Scalars.{unit_permitted};
ghost use Rattle.dynamo_record.specs.About.{about_char, about_text, about_bytes, about_unit};
ghost use Rattle.dynamo_record.specs.Keys.{own_key, key_bytes, key_char, key_text};

use crate::{Shaped, ShapedKey};
use dynamo_de::Error;
use dynamo_value::ByteBuf;
use std::alloc::Global;

impl Shaped for char {
    ghost about = { about_char };

    ghost as_told = { refl };

    ghost reads_by_shape = { char_permitted };

    fn absent<E: Error>(_alloc: Global) -> Result<Option<char>, E> {
        Ok(None)
    }

    fn conforms(&self) {
        let _c = *self;
    }
}

impl ShapedKey for char {
    ghost about_key = { key_char };

    ghost is_key = { own_key key_char };
}

impl Shaped for String {
    ghost about = { about_text string_bytes };

    ghost as_told = { refl };

    ghost reads_by_shape = { text_permitted string_bytes };

    fn absent<E: Error>(_alloc: Global) -> Result<Option<String>, E> {
        Ok(None)
    }

    fn conforms(&self) {
        let _text = self.as_str();
    }
}

impl ShapedKey for String {
    ghost about_key = { key_text };

    ghost is_key = { own_key key_text };
}

impl Shaped for ByteBuf {
    ghost about = { about_bytes octets_of };

    ghost as_told = { refl };

    ghost reads_by_shape = { bytes_permitted octets_of };

    fn absent<E: Error>(_alloc: Global) -> Result<Option<ByteBuf>, E> {
        Ok(None)
    }

    fn conforms(&self) {}
}

/// For the members of sets. A map with such keys has no clear shape.
impl ShapedKey for ByteBuf {
    ghost about_key = { key_bytes octets_of };

    ghost is_key = { own_key (key_bytes octets_of) };
}

impl Shaped for () {
    ghost about = { about_unit };

    ghost as_told = { refl };

    ghost reads_by_shape = { unit_permitted };

    fn absent<E: Error>(_alloc: Global) -> Result<Option<()>, E> {
        Ok(None)
    }

    fn conforms(&self) {}
}
