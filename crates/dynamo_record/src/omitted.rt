//! Fields that are left out of an item if they hold their default.
ghost use Rattle.std.specs.Prelude.{◌≡◌, ◌∷◌};
ghost use Rattle.dynamo_shape.specs.Absence.{left_out, same_default};

use crate::names::first_of;
use crate::{DefaultValue, FieldType, RefList, Shaped, ShapedKey, WithDefault};
use dynamo_de::Error;
use dynamo_ser::{ListBuilder, Serializer, StructBuilder};
use std::alloc::Global;
use std::collections::{BTreeMap, BTreeSet, HashMap, HashSet};
use std::marker::PhantomData;

/// A type whose default can be left out of an item: `None`, and an empty string, list, set or map.
///
/// Implement it for a type of your own to leave out fields of it. The shape of a struct with such a
/// field is clear only if nothing else reads back as the default.
pub trait Omittable: Shaped {
    /// The type that says what the default is.
    type Default: DefaultValue<Value = Self>;

    /// Returns whether this is the default.
    fn is_default(&self) -> bool
        ensures { result ≡ same_default Self.Default.told (Self.about.tells self.now) };
}

/// A field that is left out if it holds its default, as by serde's `skip_serializing_if`. If it is
/// missing, it reads as the default.
///
/// `T` is [`Omittable`], or a set such as [`InStringSet`](crate::InStringSet).
pub struct Omitted<T> {
    of: PhantomData<T>,
}

impl<T: Omittable> FieldType for Omitted<T> {
    type Value = T;

    ghost about = { T.about };

    ghost default = { left_out T.Default.told };

    ghost reads_by_shape = { T.reads_by_shape };

    fn absent<E: Error>(alloc: Global) -> Result<Option<T>, E> {
        <WithDefault<T::Default> as FieldType>::absent::<E>(alloc)
    }
}

/// The reference to an [`Omitted`] field. Under a name it writes the field unless it holds its
/// default. As an element of a tuple struct or a tuple variant the field is always written.
#[derive(Drop)]
pub struct OmittedRef<T>(pub T);

impl<'a, T: Omittable> RefList for OmittedRef<&'a T> {
    ghost shapes = { λ ss. T.about.shape ∷ ss };

    ghost absences = { λ gs. left_out T.Default.told ∷ gs };

    ghost told = { λ value ds. T.about.tells value.0.now ∷ ds };

    fn write_fields<S: Serializer, B: StructBuilder<S, Ok = S::Ok, Error = S::Error>>(
        &self,
        names: &'static [&'static str],
        builder: &mut B,
    ) -> Result<&'static [&'static str], S::Error> {
        let (name, others) = first_of(names);
        if !self.0.is_default() {
            builder.add_field::<T>(name, self.0)?;
        }
        Ok(others)
    }

    fn write_elements<S: Serializer, B: ListBuilder<S, Ok = S::Ok, Error = S::Error>>(
        &self,
        builder: &mut B,
    ) -> Result<(), S::Error> {
        builder.add_element::<T>(self.0)
    }

    fn conform(&self) {
        self.0.conforms();
    }
}

impl<T: Shaped> Omittable for Option<T> {
    type Default = Option<T>;

    fn is_default(&self) -> bool {
        self.is_none()
    }
}

impl Omittable for String {
    type Default = String;

    fn is_default(&self) -> bool {
        self.is_empty()
    }
}

impl<T: Shaped> Omittable for Vec<T> {
    type Default = Vec<T>;

    fn is_default(&self) -> bool {
        self.as_slice().is_empty()
    }
}

impl<K: ShapedKey, V: Shaped> Omittable for BTreeMap<K, V> {
    type Default = BTreeMap<K, V>;

    fn is_default(&self) -> bool {
        self.len() == 0
    }
}

impl<K: ShapedKey, V: Shaped> Omittable for HashMap<K, V> {
    type Default = HashMap<K, V>;

    fn is_default(&self) -> bool {
        self.len() == 0
    }
}

impl<T: ShapedKey> Omittable for BTreeSet<T> {
    type Default = BTreeSet<T>;

    fn is_default(&self) -> bool {
        self.len() == 0
    }
}

impl<T: ShapedKey> Omittable for HashSet<T> {
    type Default = HashSet<T>;

    fn is_default(&self) -> bool {
        self.len() == 0
    }
}
