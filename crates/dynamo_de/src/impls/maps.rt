ghost use Rattle.std.specs.Prelude.{◌≡◌, Bool, Option, Some, None, OnOk, cond};
ghost use Rattle.std.specs.BTreeMap as sorted;
ghost use Rattle.std.specs.HashMap as hashed;
ghost use Rattle.std.specs.Ordering.{eq_by_cmp};
ghost use Rattle.dynamo_de.specs.Answer.{After};
ghost use Rattle.dynamo_de.specs.Meets.{Meets};
ghost use Rattle.dynamo_de.specs.Reading as reading;
ghost use Rattle.dynamo_de.specs.Reads.{ReadsMap};

use crate::taken::entries_of;
use crate::{Deserialize, Deserializer, Error, Reader};
use std::alloc::{AllocError, Global};
use std::collections::{BTreeMap, HashMap};
use std::hash::Hash;

/// A map that its entries are put into, one after another.
trait FromEntries<K, V>: Sized + Drop {
    // What the map has at a key, and which keys are equal.
    ghost get: { Self → K → Option V };

    ghost eq: { K → K → Bool };

    fn without_entries(alloc: Global) -> Self
        ensures { (k : K) → get result k ≡ None };

    /// Puts a value at its key. An equal key loses the value that it had.
    fn put(&mut self, key: K, value: V) -> Result<(), AllocError>
        ensures { OnOk result
            ((k : K) → get self.new k ≡ cond (eq key k) (Some value) (get self.old k)) };
}

impl<K: Eq + Hash + Drop, V: Drop> FromEntries<K, V> for HashMap<K, V> {
    ghost get = { hashed.get K.eq };

    ghost eq = { K.eq };

    fn without_entries(alloc: Global) -> Self {
        HashMap::new(alloc)
    }

    fn put(&mut self, key: K, value: V) -> Result<(), AllocError> {
        HashMap::insert(self, key, value)?;
        Ok(())
    }
}

impl<K: Ord + Drop, V: Drop> FromEntries<K, V> for BTreeMap<K, V> {
    ghost get = { sorted.get K.cmp };

    ghost eq = { eq_by_cmp K.cmp };

    fn without_entries(alloc: Global) -> Self {
        BTreeMap::new(alloc)
    }

    fn put(&mut self, key: K, value: V) -> Result<(), AllocError> {
        BTreeMap::insert(self, key, value)?;
        Ok(())
    }
}

// The map of entries, each read as it comes. Of equal keys the last value stays.
#[tactic(auto, using(crate::proofs::Pairs::map_starts, crate::proofs::Pairs::map_ends, crate::proofs::Pairs::map_key_fails))]
fn from_entries<K: Deserialize, V: Deserialize, M: FromEntries<K, V>, R: Reader>(
    alloc: Global,
    mut entries: R::Entries,
) -> Result<M, R::Error>
    ensures { Meets R.Error.fault (ReadsMap M.get M.eq K.reads V.reads (R.entries entries)) result }
{
    let mut map = M::without_entries(alloc);
    while let Some((key, value)) = R::next_entry(&mut entries) {
        let key = K::deserialize(alloc, key)?;
        let value = V::deserialize(alloc, value)?;
        if map.put(key, value).is_err() {
            return Err(R::Error::out_of_memory());
        }
    }
    Ok(map)
}

// Reads a map.
fn read_map<K: Deserialize, V: Deserialize, M: FromEntries<K, V>, R: Reader>(
    alloc: Global,
    reader: R,
) -> Result<M, R::Error>
    ensures { Meets R.Error.fault
        (After (reading.read_entries (R.source reader)) (ReadsMap M.get M.eq K.reads V.reads))
        result }
{
    let entries = entries_of(alloc, reader, "a map")?;
    from_entries::<K, V, M, R>(alloc, entries)
}

impl<K: Deserialize + Eq + Hash, V: Deserialize> Deserialize for HashMap<K, V> {
    ghost reads = { λ s. After (reading.read_entries s)
        (ReadsMap (hashed.get K.eq) K.eq K.reads V.reads) };

    fn deserialize<D: Deserializer>(
        alloc: Global,
        deserializer: D,
    ) -> Result<HashMap<K, V>, D::Error> {
        read_map::<K, V, HashMap<K, V>, D>(alloc, deserializer)
    }
}

impl<K: Deserialize + Ord, V: Deserialize> Deserialize for BTreeMap<K, V> {
    ghost reads = { λ s. After (reading.read_entries s)
        (ReadsMap (sorted.get K.cmp) (eq_by_cmp K.cmp) K.reads V.reads) };

    fn deserialize<D: Deserializer>(
        alloc: Global,
        deserializer: D,
    ) -> Result<BTreeMap<K, V>, D::Error> {
        read_map::<K, V, BTreeMap<K, V>, D>(alloc, deserializer)
    }
}
