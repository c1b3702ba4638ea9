//! Values that can be stored as sets of DynamoDB.
ghost use Rattle.std.specs.Prelude.{◌≡◌};
ghost use Rattle.std.proofs.Common.{refl};
ghost use Rattle.std.specs.BTreeSet as sorted;
ghost use Rattle.std.specs.HashSet as hashed;
ghost use Rattle.std.specs.Ordering.{eq_by_cmp};
ghost use Rattle.dynamo_ser.specs.Datum as datum;
ghost use Rattle.dynamo_ser.specs.Members.{members_in_order};
ghost use Rattle.dynamo_ser.specs.Symbols.{SetKind};
ghost use Rattle.dynamo_shape.specs.Absence.{same_default};
ghost use Rattle.dynamo_shape.specs.Laws.{ReadsByShape};
ghost use Rattle.dynamo_record.specs.About.{About};
ghost use Rattle.dynamo_record.specs.Sets.{about_members_in, is_in_order, members_in_read};
ghost use Rattle.dynamo_record.specs.FieldTypes.{about_set as about_list_set, set_permitted};
ghost use Rattle.dynamo_record.specs.SetValues.{IsSetOf, list_is_set, ordered_is_set};

use crate::{Shaped, ShapedKey};
use std::alloc::Global;
use std::collections::{BTreeSet, HashSet};

/// A type whose values can be stored as sets of DynamoDB: `Vec<T>`, `BTreeSet<T>` and
/// `HashSet<T>`.
pub trait SetValue: Shaped {
    // What is known of the values as sets of each kind.
    ghost about_set: { SetKind → About Self };

    /// Returns the value without elements.
    fn without_elements(alloc: Global) -> Self
        ensures { Self.Shaped.about.tells result ≡ datum.seq datum.no_elements };

    /// Returns whether the value has no elements.
    fn has_no_elements(&self) -> bool
        ensures { result
            ≡ same_default (datum.seq datum.no_elements) (Self.Shaped.about.tells self.now) };

    // As a set, a value tells what it tells as a list, under the symbol of the kind. A missing one
    // is refused.
    ghost is_set: { (k : SetKind) → IsSetOf k Self.Shaped.about (about_set k) };

    ghost set_reads_by_shape: { (k : SetKind)
        → ReadsByShape (about_set k).shape (about_set k).tells Self.Deserialize.reads };
}

impl<T: Shaped> SetValue for Vec<T> {
    ghost about_set = { λ k. about_list_set k T.about };

    ghost is_set = { λ k. record
        { tells = λ v. refl; conforms = λ v. list_is_set k T.about.shape _; missed = refl } };

    ghost set_reads_by_shape = { λ k. set_permitted k T.about.shape T.about.tells T.reads
        T.reads_by_shape };

    fn without_elements(alloc: Global) -> Vec<T> {
        Vec::new(alloc)
    }

    fn has_no_elements(&self) -> bool {
        self.as_slice().is_empty()
    }
}

impl<T: ShapedKey> SetValue for BTreeSet<T> {
    ghost about_set = { λ k. about_members_in k T.about_key (eq_by_cmp T.about_key.cmp)
        T.about_key.ordered_as_told (λ s. s.keys) (sorted.contains T.about_key.cmp) (λ s q. refl) };

    ghost is_set = { λ k. record {
      tells = λ s. refl;
      conforms = λ s. ordered_is_set k T.about_key.about.shape _;
      missed = refl;
    } };

    ghost set_reads_by_shape = { members_in_read T.about_key (λ s. s.keys) eq_by_cmp T.about.shape
        T.about.tells T.about_key.cmp T.cmp T.reads T.is_key.shape T.is_key.tells T.is_key.cmp
        T.about_key.ordered_as_told T.reads_by_shape sorted.contains (λ s q. refl) };

    fn without_elements(alloc: Global) -> BTreeSet<T> {
        BTreeSet::new(alloc)
    }

    fn has_no_elements(&self) -> bool {
        self.len() == 0
    }
}

impl<T: ShapedKey> SetValue for HashSet<T> {
    ghost about_set = { λ k. about_members_in k T.about_key T.about_key.eq T.about_key.equal_as_told
        (λ s. members_in_order T.about_key.cmp s.keys) (hashed.contains T.about_key.eq)
        (λ s. is_in_order T.about_key s.keys) };

    ghost is_set = { λ k. record {
      tells = λ s. refl;
      conforms = λ s. ordered_is_set k T.about_key.about.shape _;
      missed = refl;
    } };

    ghost set_reads_by_shape = { members_in_read T.about_key
        (λ s. members_in_order T.about_key.cmp s.keys) (λ eq. eq) T.about.shape T.about.tells
        T.about_key.eq T.eq T.reads T.is_key.shape T.is_key.tells T.is_key.eq
        T.about_key.equal_as_told T.reads_by_shape hashed.contains
        (λ s. is_in_order T.about_key s.keys) };

    fn without_elements(alloc: Global) -> HashSet<T> {
        HashSet::new(alloc)
    }

    fn has_no_elements(&self) -> bool {
        self.len() == 0
    }
}
