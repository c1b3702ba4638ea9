ghost use Rattle.std.proofs.Common.{refl, ◌∙◌};
ghost use Rattle.std.specs.BTreeMap as sorted;
ghost use Rattle.std.specs.HashMap as hashed;
ghost use Rattle.std.specs.Ordering.{eq_by_cmp};
ghost use Rattle.dynamo_record.specs.Keys.{about_map, map_as_told, map_reads};

use crate::{Shaped, ShapedKey};
use dynamo_de::Error;
use std::alloc::Global;
use std::collections::{BTreeMap, HashMap};

impl<K: ShapedKey, V: Shaped> Shaped for HashMap<K, V> {
    ghost about = { about_map K.about_key V.about K.about_key.eq K.about_key.equal_as_told
        (λ m. m.entries) (hashed.get K.about_key.eq) (λ m q. refl) };

    ghost as_told = { map_as_told K.about_key V.about (λ m. m.entries) K.tells V.tells
        (K.is_key.tells ∙ K.as_told) V.as_told };

    ghost reads_by_shape = { map_reads K.about_key V.about (λ m. m.entries) (λ eq. eq) K.about.shape
        K.about.tells K.about_key.eq K.eq K.reads V.reads K.is_key.shape K.is_key.tells K.is_key.eq
        K.about_key.equal_as_told K.reads_by_shape V.reads_by_shape hashed.get (λ eq m q. refl) };

    fn absent<E: Error>(_alloc: Global) -> Result<Option<HashMap<K, V>>, E> {
        Ok(None)
    }

    fn conforms(&self) {
        for (key, value) in self {
            key.key_conforms();
            value.conforms();
        }
    }
}

impl<K: ShapedKey, V: Shaped> Shaped for BTreeMap<K, V> {
    ghost about = { about_map K.about_key V.about (eq_by_cmp K.about_key.cmp)
        K.about_key.ordered_as_told (λ m. m.entries) (sorted.get K.about_key.cmp) (λ m q. refl) };

    ghost as_told = { map_as_told K.about_key V.about (λ m. m.entries) K.tells V.tells
        (K.is_key.tells ∙ K.as_told) V.as_told };

    ghost reads_by_shape = { map_reads K.about_key V.about (λ m. m.entries) eq_by_cmp K.about.shape
        K.about.tells K.about_key.cmp K.cmp K.reads V.reads K.is_key.shape K.is_key.tells
        K.is_key.cmp K.about_key.ordered_as_told K.reads_by_shape V.reads_by_shape sorted.get
        (λ eq m q. refl) };

    fn absent<E: Error>(_alloc: Global) -> Result<Option<BTreeMap<K, V>>, E> {
        Ok(None)
    }

    fn conforms(&self) {
        for (key, value) in self {
            key.key_conforms();
            value.conforms();
        }
    }
}
