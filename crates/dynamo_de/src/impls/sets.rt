ghost use Rattle.std.specs.Prelude.{◌≡◌, Bool, false, OnOk, ◌||◌};
ghost use Rattle.std.specs.BTreeSet as sorted;
ghost use Rattle.std.specs.HashSet as hashed;
ghost use Rattle.std.specs.Ordering.{eq_by_cmp};
ghost use Rattle.dynamo_de.specs.Answer.{After};
ghost use Rattle.dynamo_de.specs.Meets.{Meets};
ghost use Rattle.dynamo_de.specs.Reading.{read_elements};
ghost use Rattle.dynamo_de.specs.Reads.{ReadsSet};

use super::sequences::{FromElements, read_sequence};
use crate::{Deserialize, Deserializer, Error, Request, SeqAccess};
use std::alloc::{AllocError, Global};
use std::collections::{BTreeSet, HashSet};
use std::hash::Hash;

/// A set that members are put into, one after another.
trait FromMembers<T>: Sized + Drop {
    // Whether the set has a value, and which values are equal.
    ghost has: { Self → T → Bool };

    ghost eq: { T → T → Bool };

    fn without_members(alloc: Global) -> Self
        ensures { (q : T) → has result q ≡ false };

    /// Puts a member into the set, unless the set has an equal one.
    fn put(&mut self, member: T) -> Result<(), AllocError>
        ensures { OnOk result ((q : T) → has self.new q ≡ (eq member q || has self.old q)) };
}

impl<T: Eq + Hash + Drop> FromMembers<T> for HashSet<T> {
    ghost has = { hashed.contains T.eq };

    ghost eq = { T.eq };

    fn without_members(alloc: Global) -> Self {
        HashSet::new(alloc)
    }

    fn put(&mut self, member: T) -> Result<(), AllocError> {
        HashSet::insert(self, member)?;
        Ok(())
    }
}

impl<T: Ord + Drop> FromMembers<T> for BTreeSet<T> {
    ghost has = { sorted.contains T.cmp };

    ghost eq = { eq_by_cmp T.cmp };

    fn without_members(alloc: Global) -> Self {
        BTreeSet::new(alloc)
    }

    fn put(&mut self, member: T) -> Result<(), AllocError> {
        BTreeSet::insert(self, member)?;
        Ok(())
    }
}

// The set of the elements, each read as it comes. Of equal elements the first stays.
#[tactic(auto, using(crate::proofs::SetMembers::set_starts, crate::proofs::SetMembers::set_ends, crate::proofs::SetMembers::set_fails))]
fn from_members<T: Deserialize, M: FromMembers<T>, A: SeqAccess>(
    alloc: Global,
    mut seq: A,
) -> Result<M, A::Error>
    ensures { Meets A.Error.fault (ReadsSet M.has M.eq T.reads (A.left seq)) result }
{
    let mut set = M::without_members(alloc);
    while let Some(member) = seq.next_element::<T>(alloc)? {
        if set.put(member).is_err() {
            return Err(A::Error::out_of_memory());
        }
    }
    Ok(set)
}

impl<T: Deserialize + Eq + Hash> FromElements for HashSet<T> {
    ghost of_elements = { ReadsSet (hashed.contains T.eq) T.eq T.reads };

    fn expected() -> &'static str {
        "a sequence"
    }

    fn from_elements<A: SeqAccess>(alloc: Global, seq: A) -> Result<HashSet<T>, A::Error> {
        from_members::<T, HashSet<T>, A>(alloc, seq)
    }
}

impl<T: Deserialize + Eq + Hash> Deserialize for HashSet<T> {
    ghost reads = { λ s. After (read_elements s) (ReadsSet (hashed.contains T.eq) T.eq T.reads) };

    fn deserialize<D: Deserializer>(
        alloc: Global,
        deserializer: D,
    ) -> Result<HashSet<T>, D::Error> {
        read_sequence(alloc, Request::Seq, deserializer)
    }
}

impl<T: Deserialize + Ord> FromElements for BTreeSet<T> {
    ghost of_elements = { ReadsSet (sorted.contains T.cmp) (eq_by_cmp T.cmp) T.reads };

    fn expected() -> &'static str {
        "a sequence"
    }

    fn from_elements<A: SeqAccess>(alloc: Global, seq: A) -> Result<BTreeSet<T>, A::Error> {
        from_members::<T, BTreeSet<T>, A>(alloc, seq)
    }
}

impl<T: Deserialize + Ord> Deserialize for BTreeSet<T> {
    ghost reads = { λ s. After (read_elements s)
        (ReadsSet (sorted.contains T.cmp) (eq_by_cmp T.cmp) T.reads) };

    fn deserialize<D: Deserializer>(
        alloc: Global,
        deserializer: D,
    ) -> Result<BTreeSet<T>, D::Error> {
        read_sequence(alloc, Request::Seq, deserializer)
    }
}
