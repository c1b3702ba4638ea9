ghost use Rattle.std.proofs.Common.{refl, ◌∙◌};
ghost use Rattle.std.specs.BTreeSet as sorted;
ghost use Rattle.std.specs.HashSet as hashed;
ghost use Rattle.std.specs.Ordering.{eq_by_cmp};
ghost use Rattle.dynamo_ser.specs.Members.{members_in_order};
ghost use Rattle.dynamo_record.specs.Sets.{about_members, in_order_as_told, is_in_order};
ghost use Rattle.dynamo_record.specs.Sets.{members_as_told, members_read};

use crate::{Shaped, ShapedKey};
use dynamo_de::Error;
use std::alloc::Global;
use std::collections::{BTreeSet, HashSet};

/// The shape is a list whose elements ascend.
impl<T: ShapedKey> Shaped for BTreeSet<T> {
    ghost about = { about_members T.about_key (eq_by_cmp T.about_key.cmp)
        T.about_key.ordered_as_told (λ s. s.keys) (sorted.contains T.about_key.cmp) (λ s q. refl) };

    ghost as_told = { members_as_told T.about_key (λ s. s.keys) T.tells
        (T.is_key.tells ∙ T.as_told) };

    ghost reads_by_shape = { members_read T.about_key (λ s. s.keys) eq_by_cmp T.about.shape
        T.about.tells T.about_key.cmp T.cmp T.reads T.is_key.shape T.is_key.tells T.is_key.cmp
        T.about_key.ordered_as_told T.reads_by_shape sorted.contains (λ s q. refl) };

    fn absent<E: Error>(_alloc: Global) -> Result<Option<BTreeSet<T>>, E> {
        Ok(None)
    }

    fn conforms(&self) {
        for member in self {
            member.key_conforms();
        }
    }
}

/// The shape is a list whose elements ascend.
impl<T: ShapedKey> Shaped for HashSet<T> {
    ghost about = { about_members T.about_key T.about_key.eq T.about_key.equal_as_told
        (λ s. members_in_order T.about_key.cmp s.keys) (hashed.contains T.about_key.eq)
        (λ s. is_in_order T.about_key s.keys) };

    ghost as_told = { in_order_as_told T.about_key (λ s. s.keys) T.tells T.cmp
        (T.is_key.tells ∙ T.as_told) T.is_key.cmp };

    ghost reads_by_shape = { members_read T.about_key (λ s. members_in_order T.about_key.cmp s.keys)
        (λ eq. eq) T.about.shape T.about.tells T.about_key.eq T.eq T.reads T.is_key.shape
        T.is_key.tells T.is_key.eq T.about_key.equal_as_told T.reads_by_shape hashed.contains
        (λ s. is_in_order T.about_key s.keys) };

    fn absent<E: Error>(_alloc: Global) -> Result<Option<HashSet<T>>, E> {
        Ok(None)
    }

    fn conforms(&self) {
        for member in self {
            member.key_conforms();
        }
    }
}
