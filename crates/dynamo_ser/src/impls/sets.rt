ghost use Rattle.std.specs.Prelude.{◌≡◌, IfOk, map};
ghost use Rattle.dynamo_ser.specs.Datum as datum;
ghost use Rattle.dynamo_ser.specs.Members.{members_in_order};

use crate::{Error, Serialize, SerializeSeq, Serializer};
use std::alloc::{AllocError, Global};
use std::collections::{BTreeSet, HashSet};
use std::hash::Hash;

impl<T: Serialize + Ord> Serialize for BTreeSet<T> {
    ghost tells = { λ s. datum.seq (datum.elements_of (map T.tells s.keys)) };

    fn serialize<S: Serializer>(&self, serializer: S) -> Result<S::Ok, S::Error> {
        let mut members = serializer.serialize_seq(Some(self.len()))?;
        for member in self {
            members.serialize_element(member)?;
        }
        members.end()
    }
}

/// Writes the members in ascending order. For that it makes an ordered set of references to them.
impl<T: Serialize + Ord + Hash> Serialize for HashSet<T> {
    ghost tells = { λ s. datum.seq
        (datum.elements_of (map T.tells (members_in_order T.cmp s.keys))) };

    // the ordered set
    ghost wants = { λ _. Unit {0} };

    fn serialize<S: Serializer>(&self, serializer: S) -> Result<S::Ok, S::Error> {
        match in_order(serializer.alloc(), self) {
            Ok(ordered) => ordered.serialize(serializer),
            Err(_) => Err(S::Error::out_of_memory()),
        }
    }
}

// References to the members, in their order.
#[tactic(auto, using(crate::proofs::MembersInOrder::insert_now))]
fn in_order<T: Ord + Hash>(alloc: Global, set: &HashSet<T>) -> Result<BTreeSet<&T>, AllocError>
    ensures { IfOk result
        (λ ordered. map (λ r. r.now) ordered.keys ≡ members_in_order T.cmp set.now.keys) }
{
    let mut ordered = BTreeSet::new(alloc);
    for member in set {
        match ordered.insert(member) {
            Ok(_is_new) => {}
            Err(_) => return Err(AllocError),
        }
    }
    Ok(ordered)
}
