//! Fields that are stored as sets of DynamoDB.
ghost use Rattle.dynamo_ser.specs.Symbols.{SetKind, strings, numbers, blobs};
ghost use Rattle.dynamo_shape.specs.Absence.{required, read_as, left_out};
ghost use Rattle.dynamo_record.specs.FieldTypes.{empty_set};

use crate::{FieldType, Omitted, SetValue, WithDefault};
use dynamo_de::Error;
use std::alloc::Global;
use std::marker::PhantomData;

/// A kind of sets, as a type: [`StringKind`], [`NumberKind`] or [`BinaryKind`].
pub trait KindOfSet {
    // The kind.
    ghost kind: { SetKind };
}

/// The kind of string sets.
pub struct StringKind;

impl KindOfSet for StringKind {
    ghost kind = { strings };
}

/// The kind of number sets.
pub struct NumberKind;

impl KindOfSet for NumberKind {
    ghost kind = { numbers };
}

/// The kind of binary sets.
pub struct BinaryKind;

impl KindOfSet for BinaryKind {
    ghost kind = { blobs };
}

/// A field of the type `M`, as `Vec<T>`, `BTreeSet<T>` or `HashSet<T>`, that is stored as a set of
/// the kind `K`. It has a name for each kind: [`AsStringSet`], [`AsNumberSet`] and [`AsBinarySet`].
pub struct AsSet<K, M> {
    kind: PhantomData<K>,
    of: PhantomData<M>,
}

/// A field of the type `M`, as `BTreeSet<T>` or `HashSet<T>`, that is stored as a string set.
pub type AsStringSet<M> = AsSet<StringKind, M>;

/// A field of the type `M`, as `BTreeSet<T>` or `HashSet<T>`, that is stored as a number set.
pub type AsNumberSet<M> = AsSet<NumberKind, M>;

/// A field of the type `M`, as `BTreeSet<T>` or `HashSet<T>`, that is stored as a binary set.
pub type AsBinarySet<M> = AsSet<BinaryKind, M>;

/// A field of type `Vec<T>` that is stored as a string set, as by
/// [`StringSet`](dynamo_ser::StringSet).
pub type InStringSet<T> = AsSet<StringKind, Vec<T>>;

/// A field of type `Vec<T>` that is stored as a number set, as by
/// [`NumberSet`](dynamo_ser::NumberSet).
pub type InNumberSet<T> = AsSet<NumberKind, Vec<T>>;

/// A field of type `Vec<T>` that is stored as a binary set, as by
/// [`BinarySet`](dynamo_ser::BinarySet).
pub type InBinarySet<T> = AsSet<BinaryKind, Vec<T>>;

impl<K: KindOfSet, M: SetValue> FieldType for AsSet<K, M> {
    type Value = M;

    ghost about = { M.about_set K.kind };

    ghost default = { required };

    ghost reads_by_shape = { M.set_reads_by_shape K.kind };

    fn absent<E: Error>(_alloc: Global) -> Result<Option<M>, E> {
        Ok(None)
    }
}

/// The same set. A missing field is an empty one.
impl<K: KindOfSet, M: SetValue> FieldType for WithDefault<AsSet<K, M>> {
    type Value = M;

    ghost about = { M.about_set K.kind };

    ghost default = { read_as (empty_set K.kind) };

    ghost reads_by_shape = { M.set_reads_by_shape K.kind };

    fn absent<E: Error>(alloc: Global) -> Result<Option<M>, E> {
        Ok(Some(M::without_elements(alloc)))
    }
}

/// The same set. An empty one is left out, as DynamoDB has no empty set.
impl<K: KindOfSet, M: SetValue> FieldType for Omitted<AsSet<K, M>> {
    type Value = M;

    ghost about = { M.about_set K.kind };

    ghost default = { left_out (empty_set K.kind) };

    ghost reads_by_shape = { M.set_reads_by_shape K.kind };

    fn absent<E: Error>(alloc: Global) -> Result<Option<M>, E> {
        Ok(Some(M::without_elements(alloc)))
    }
}
