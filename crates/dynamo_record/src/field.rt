ghost use Rattle.dynamo_shape.specs.Absence.{Absence, required};
ghost use Rattle.dynamo_shape.specs.Laws.{ReadsByShape};
ghost use Rattle.dynamo_record.specs.About.{About, IsAbsent};

use crate::Shaped;
use dynamo_de::{Deserialize, Error};
use std::alloc::Global;

/// How a field is stored: the type of its value, the shape, and the value of a missing field.
///
/// Every type with a shape stores its own values. The others say in their names what they do:
/// [`InStringSet`](crate::InStringSet), [`InNumberSet`](crate::InNumberSet),
/// [`InBinarySet`](crate::InBinarySet) and [`WithDefault`](crate::WithDefault).
pub trait FieldType {
    /// The type of the field.
    type Value: Deserialize;

    // The shape and the data of the values, as they are stored.
    ghost about: { About Self.Value };

    // What a missing field is read as, and whether the field is left out.
    ghost default: { Absence };

    /// Returns the value of a missing field, or `None` if the field can't be missing.
    ///
    /// # Errors
    ///
    /// Returns the error for out of memory if memory runs out for the value.
    fn absent<E: Error>(alloc: Global) -> Result<Option<Self::Value>, E>
        ensures { IsAbsent E.fault about.shape default about.tells result };

    // Reading permits what reading by the shape permits.
    ghost reads_by_shape: { ReadsByShape about.shape about.tells Self.Value.Deserialize.reads };
}

impl<T: Shaped> FieldType for T {
    type Value = T;

    ghost about = { T.about };

    ghost default = { required };

    ghost reads_by_shape = { T.reads_by_shape };

    fn absent<E: Error>(alloc: Global) -> Result<Option<T>, E> {
        <T as Shaped>::absent(alloc)
    }
}

/// A field of a struct, a tuple struct or a variant: its value.
#[derive(Drop)]
pub struct Field<F: FieldType>(pub F::Value);
