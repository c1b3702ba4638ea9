//! Fields with a default: their value if the field is missing.
ghost use Rattle.std.specs.Prelude.{pos, [], ◌∷◌, false};
ghost use Rattle.dynamo_shape.specs.Absence.{read_as};
ghost use Rattle.dynamo_ser.specs.Datum as datum;
ghost use Rattle.dynamo_ser.specs.Datum.{Datum};
ghost use Rattle.dynamo_record.specs.FieldTypes.{IsDefault};

use crate::{FieldType, Shaped, ShapedKey};
use dynamo_de::Error;
use dynamo_value::ByteBuf;
use std::alloc::Global;
use std::collections::{BTreeMap, BTreeSet, HashMap, HashSet};
use std::marker::PhantomData;

/// The value of a missing field.
///
/// Implement it for a type of your own to name such a value. The types of the library have the
/// defaults that Rust has.
pub trait DefaultValue {
    /// The type of the field.
    type Value: Shaped;

    // The datum of the value.
    ghost told: { Datum };

    /// Returns the value.
    ///
    /// # Errors
    ///
    /// Returns the error for out of memory if memory runs out for the value.
    fn value<E: Error>(alloc: Global) -> Result<Self::Value, E>
        ensures { IsDefault E.fault Self.Value.about.tells told result };
}

/// A field that has its default value if it is missing.
pub struct WithDefault<D> {
    of: PhantomData<D>,
}

impl<D: DefaultValue> FieldType for WithDefault<D> {
    type Value = D::Value;

    ghost about = { D.Value.about };

    ghost default = { read_as D.told };

    ghost reads_by_shape = { D.Value.reads_by_shape };

    fn absent<E: Error>(alloc: Global) -> Result<Option<D::Value>, E> {
        match D::value::<E>(alloc) {
            Ok(value) => Ok(Some(value)),
            Err(error) => Err(error),
        }
    }
}

impl DefaultValue for bool {
    type Value = bool;

    ghost told = { datum.boolean false };

    fn value<E: Error>(_alloc: Global) -> Result<bool, E> {
        Ok(false)
    }
}

impl DefaultValue for i8 {
    type Value = i8;

    ghost told = { datum.integer datum.i8 (pos 0) };

    fn value<E: Error>(_alloc: Global) -> Result<i8, E> {
        Ok(0)
    }
}

impl DefaultValue for i16 {
    type Value = i16;

    ghost told = { datum.integer datum.i16 (pos 0) };

    fn value<E: Error>(_alloc: Global) -> Result<i16, E> {
        Ok(0)
    }
}

impl DefaultValue for i32 {
    type Value = i32;

    ghost told = { datum.integer datum.i32 (pos 0) };

    fn value<E: Error>(_alloc: Global) -> Result<i32, E> {
        Ok(0)
    }
}

impl DefaultValue for i64 {
    type Value = i64;

    ghost told = { datum.integer datum.i64 (pos 0) };

    fn value<E: Error>(_alloc: Global) -> Result<i64, E> {
        Ok(0)
    }
}

impl DefaultValue for i128 {
    type Value = i128;

    ghost told = { datum.integer datum.i128 (pos 0) };

    fn value<E: Error>(_alloc: Global) -> Result<i128, E> {
        Ok(0)
    }
}

impl DefaultValue for u8 {
    type Value = u8;

    ghost told = { datum.integer datum.u8 (pos 0) };

    fn value<E: Error>(_alloc: Global) -> Result<u8, E> {
        Ok(0)
    }
}

impl DefaultValue for u16 {
    type Value = u16;

    ghost told = { datum.integer datum.u16 (pos 0) };

    fn value<E: Error>(_alloc: Global) -> Result<u16, E> {
        Ok(0)
    }
}

impl DefaultValue for u32 {
    type Value = u32;

    ghost told = { datum.integer datum.u32 (pos 0) };

    fn value<E: Error>(_alloc: Global) -> Result<u32, E> {
        Ok(0)
    }
}

impl DefaultValue for u64 {
    type Value = u64;

    ghost told = { datum.integer datum.u64 (pos 0) };

    fn value<E: Error>(_alloc: Global) -> Result<u64, E> {
        Ok(0)
    }
}

impl DefaultValue for u128 {
    type Value = u128;

    ghost told = { datum.integer datum.u128 (pos 0) };

    fn value<E: Error>(_alloc: Global) -> Result<u128, E> {
        Ok(0)
    }
}

impl DefaultValue for String {
    type Value = String;

    ghost told = { datum.string [] };

    fn value<E: Error>(alloc: Global) -> Result<String, E> {
        Ok(String::new(alloc))
    }
}

impl<T: Shaped> DefaultValue for Vec<T> {
    type Value = Vec<T>;

    ghost told = { datum.seq datum.no_elements };

    fn value<E: Error>(alloc: Global) -> Result<Vec<T>, E> {
        Ok(Vec::new(alloc))
    }
}

impl<T: Shaped> DefaultValue for Option<T> {
    type Value = Option<T>;

    ghost told = { datum.none };

    fn value<E: Error>(_alloc: Global) -> Result<Option<T>, E> {
        Ok(None)
    }
}

impl DefaultValue for char {
    type Value = char;

    ghost told = { datum.char 0 };

    fn value<E: Error>(_alloc: Global) -> Result<char, E> {
        Ok('\0')
    }
}

impl DefaultValue for () {
    type Value = ();

    ghost told = { datum.unit };

    fn value<E: Error>(_alloc: Global) -> Result<(), E> {
        Ok(())
    }
}

impl DefaultValue for ByteBuf {
    type Value = ByteBuf;

    ghost told = { datum.bytes [] };

    fn value<E: Error>(alloc: Global) -> Result<ByteBuf, E> {
        Ok(ByteBuf::from(Vec::new(alloc)))
    }
}

impl<K: ShapedKey, V: Shaped> DefaultValue for BTreeMap<K, V> {
    type Value = BTreeMap<K, V>;

    ghost told = { datum.map datum.no_pairs };

    fn value<E: Error>(alloc: Global) -> Result<BTreeMap<K, V>, E> {
        Ok(BTreeMap::new(alloc))
    }
}

impl<K: ShapedKey, V: Shaped> DefaultValue for HashMap<K, V> {
    type Value = HashMap<K, V>;

    ghost told = { datum.map datum.no_pairs };

    fn value<E: Error>(alloc: Global) -> Result<HashMap<K, V>, E> {
        Ok(HashMap::new(alloc))
    }
}

impl<T: ShapedKey> DefaultValue for BTreeSet<T> {
    type Value = BTreeSet<T>;

    ghost told = { datum.seq datum.no_elements };

    fn value<E: Error>(alloc: Global) -> Result<BTreeSet<T>, E> {
        Ok(BTreeSet::new(alloc))
    }
}

impl<T: ShapedKey> DefaultValue for HashSet<T> {
    type Value = HashSet<T>;

    ghost told = { datum.seq datum.no_elements };

    fn value<E: Error>(alloc: Global) -> Result<HashSet<T>, E> {
        Ok(HashSet::new(alloc))
    }
}

impl<D: DefaultValue> DefaultValue for Box<D> {
    type Value = Box<D::Value>;

    ghost told = { D.told };

    fn value<E: Error>(alloc: Global) -> Result<Box<D::Value>, E> {
        let value = D::value::<E>(alloc)?;
        match Box::new(alloc, value) {
            Ok(boxed) => Ok(boxed),
            Err(_) => Err(E::out_of_memory()),
        }
    }
}

impl<A: DefaultValue, B: DefaultValue> DefaultValue for (A, B) {
    type Value = (A::Value, B::Value);

    ghost told = { datum.tuple (datum.elements_of (A.told ∷ B.told ∷ [])) };

    fn value<E: Error>(alloc: Global) -> Result<(A::Value, B::Value), E> {
        Ok((A::value::<E>(alloc)?, B::value::<E>(alloc)?))
    }
}

impl<A: DefaultValue, B: DefaultValue, C: DefaultValue> DefaultValue for (A, B, C) {
    type Value = (A::Value, B::Value, C::Value);

    ghost told = { datum.tuple (datum.elements_of (A.told ∷ B.told ∷ C.told ∷ [])) };

    fn value<E: Error>(alloc: Global) -> Result<(A::Value, B::Value, C::Value), E> {
        let (a, b) = <(A, B) as DefaultValue>::value::<E>(alloc)?;
        Ok((a, b, C::value::<E>(alloc)?))
    }
}

impl<A: DefaultValue, B: DefaultValue, C: DefaultValue, D: DefaultValue> DefaultValue
    for (A, B, C, D) {
    type Value = (A::Value, B::Value, C::Value, D::Value);

    ghost told = { datum.tuple (datum.elements_of (A.told ∷ B.told ∷ C.told ∷ D.told ∷ [])) };

    fn value<E: Error>(alloc: Global) -> Result<(A::Value, B::Value, C::Value, D::Value), E> {
        let (a, b, c) = <(A, B, C) as DefaultValue>::value::<E>(alloc)?;
        Ok((a, b, c, D::value::<E>(alloc)?))
    }
}
