use crate::IntegerKind;

/// The kinds of data that a visitor can be called with: one for each `visit_` method of
/// [`Visitor`](crate::Visitor). An owned string counts as a string, and an owned byte string as a
/// byte string.
#[derive(Clone, Copy, Debug, PartialEq, Eq)]
pub enum Kind {
    /// A boolean.
    Bool,
    /// An integer of this type.
    Integer(IntegerKind),
    /// A number that neither an `i64` nor a `u64` holds, as its string.
    NumberText,
    /// A character.
    Char,
    /// A string.
    Str,
    /// A byte string.
    Bytes,
    /// `None`.
    None,
    /// The content of an option.
    Some,
    /// A unit.
    Unit,
    /// The content of a newtype struct.
    NewtypeStruct,
    /// A sequence.
    Seq,
    /// A map.
    Map,
    /// A variant of an enum.
    Enum,
}

impl Kind {
    // The name of the kind in an error's message.
    pub(crate) fn name(self) -> &'static str {
        match self {
            Kind::Bool => "boolean",
            Kind::Integer(_) => "integer",
            Kind::NumberText => "floating point number",
            Kind::Char => "character",
            Kind::Str => "string",
            Kind::Bytes => "byte array",
            Kind::None | Kind::Some => "option",
            Kind::Unit => "unit value",
            Kind::NewtypeStruct => "newtype struct",
            Kind::Seq => "sequence",
            Kind::Map => "map",
            Kind::Enum => "enum",
        }
    }
}
