ghost use Rattle.std.specs.Prelude.{map};
ghost use Rattle.dynamo_ser.specs.Datum as datum;

use crate::{Serialize, SerializeMap, Serializer};
use std::collections::{BTreeMap, HashMap};
use std::hash::Hash;

impl<K: Serialize + Eq + Hash, V: Serialize> Serialize for HashMap<K, V> {
    ghost tells = { λ m. datum.map
        (datum.pairs_of (map (λ e. (K.tells e.0, V.tells e.1)) m.entries)) };

    fn serialize<S: Serializer>(&self, serializer: S) -> Result<S::Ok, S::Error> {
        let mut entries = serializer.serialize_map(Some(self.len()))?;
        for (key, value) in self {
            entries.serialize_entry(key, value)?;
        }
        entries.end()
    }
}

impl<K: Serialize + Ord, V: Serialize> Serialize for BTreeMap<K, V> {
    ghost tells = { λ m. datum.map
        (datum.pairs_of (map (λ e. (K.tells e.0, V.tells e.1)) m.entries)) };

    fn serialize<S: Serializer>(&self, serializer: S) -> Result<S::Ok, S::Error> {
        let mut sorted = serializer.serialize_map(Some(self.len()))?;
        for (key, value) in self {
            sorted.serialize_entry(key, value)?;
        }
        sorted.end()
    }
}
