ghost use Rattle.std.specs.Prelude.{◌≡◌};
ghost use Rattle.dynamo_shape.specs.Absence.{required};
ghost use Rattle.dynamo_shape.specs.Conforms as shapes;
ghost use Rattle.dynamo_shape.specs.Laws.{ReadsByShape};
ghost use Rattle.dynamo_record.specs.About.{About, IsAbsent};
ghost use Rattle.dynamo_record.specs.Keys.{AboutKey, IsKeyOf};

use dynamo_de::{Deserialize, Error};
use dynamo_ser::Serialize;
use std::alloc::Global;
use std::hash::Hash;

/// A type with a shape, which describes the data that its values serialize to.
///
/// If the shape is clear, every value that was written reads back: `serde_dynamo::reread` promises
/// it. The documents of `dynamo_shape` say which shapes are clear.
///
/// Don't implement it by hand for a struct or an enum: `dynamo_derive` prints the implementation,
/// by the other traits of this crate.
pub trait Shaped: Serialize + Deserialize {
    // The shape; the datum of a value; when two values are the same, where hashed maps count as
    // finite maps and all else part by part; and that they are the same exactly if their data are.
    ghost about: { About Self };

    /// Returns the value of a missing field of this type: `None` for an option, also for a boxed
    /// one. Any other type has no such value, so the field is reported as missing.
    ///
    /// # Errors
    ///
    /// Returns the error for out of memory if memory runs out for the value.
    fn absent<E: Error>(alloc: Global) -> Result<Option<Self>, E>
        ensures { IsAbsent E.fault about.shape required about.tells result };

    /// Promises that the value's datum conforms to the shape. It has no other effect. An
    /// implementation calls it for each part of the value.
    fn conforms(&self)
        ensures { shapes.conforms about.shape (about.tells self.now) };

    // It is the datum that is written.
    ghost as_told: { about.tells ≡ Self.Serialize.tells };

    // Reading permits what reading by the shape permits.
    ghost reads_by_shape: { ReadsByShape about.shape about.tells Self.Deserialize.reads };
}

/// A type with a shape whose values can be the keys of maps and the members of sets.
pub trait ShapedKey: Shaped + Eq + Hash + Ord {
    // Two keys are equal exactly if they have the same datum, and so they are in the type's order.
    // One is below another exactly if its datum is below.
    ghost about_key: { AboutKey Self };

    /// Promises that the key's datum conforms to the shape, as [`Shaped::conforms`].
    final fn key_conforms(&self)
        ensures { shapes.conforms about_key.about.shape (about_key.about.tells self.now) }
    {
        self.conforms()
    }

    // These are the type's own shape, equality and order.
    ghost is_key: { IsKeyOf about_key Self.Shaped.about.shape Self.Shaped.about.tells
        Self.PartialEq.eq Self.Ord.cmp };
}
