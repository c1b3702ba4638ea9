use crate::IntegerKind;

/// The kinds of data that a reader can be asked for: one for each method of
/// [`Deserializer`](crate::Deserializer).
#[derive(Clone, Copy, Debug, PartialEq, Eq)]
pub enum Request {
    /// Whatever the source holds.
    Any,
    /// A boolean.
    Bool,
    /// An integer of this type.
    Integer(IntegerKind),
    /// A character.
    Char,
    /// A string.
    Str,
    /// An owned string.
    String,
    /// A byte string.
    Bytes,
    /// An owned byte string.
    ByteBuf,
    /// An option.
    Option,
    /// A unit.
    Unit,
    /// A unit struct.
    UnitStruct,
    /// A newtype struct.
    NewtypeStruct,
    /// A sequence.
    Seq,
    /// A tuple.
    Tuple,
    /// A tuple struct.
    TupleStruct,
    /// A map.
    Map,
    /// A struct.
    Struct,
    /// A variant of an enum.
    Enum,
    /// The name of a field or a variant.
    Identifier,
    /// Whatever the source holds, to drop it.
    IgnoredAny,
}
