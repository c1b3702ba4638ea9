use std::alloc::{AllocError, AllocFailed};
use std::fmt;

/// The reason why a declaration is not described. It prints its message.
#[derive(Drop)]
pub enum Reason {
    /// What this text says.
    Plain(&'static str),
    /// A character that no declaration has.
    Character(char),
    /// An attribute of serde that isn't described.
    Attribute(String),
    /// An attribute of serde that has no place there.
    Misplaced(&'static str),
    /// An attribute of serde that is there twice.
    Twice(&'static str),
    /// A rule for names that isn't one of serde's.
    Rule(String),
    /// A path of `with` that isn't described.
    With(String),
    /// A function of `skip_serializing_if` that isn't described.
    SkipIf(String),
    /// A function of `skip_serializing_if` for fields of this type, at a field of another.
    OtherType(&'static str),
    /// Two lists of fields that would have the same name.
    SameList(String),
    /// An alias that is a name of a field already.
    SameName(String),
    /// A newtype variant of an enum with a tag, whose field isn't a struct of the same file.
    NoStruct(String),
    /// A variant behind a tag whose struct has other names for its fields, or refuses unknown ones.
    RulesBehindTag(String),
    /// A field with the name of the tag.
    FieldIsTag(String),
    /// A type, or a part of one, that no field has.
    FieldType(String),
    /// A name that the printed impls need for something else.
    TakenName(String),
}

// The texts of reasons that several calls give.
pub const NO_END: &str = "this declaration is not ended";

pub const NO_NAME: &str = "a name is missing";

pub const NO_WHERE: &str = "`where` is not described, write the bound at the parameter";

pub const NO_BODY: &str = "the struct or enum has no such body";

pub const NO_FIELDS: &str = "a struct without fields is declared by `struct Name;`";

pub const NO_CONTENTS: &str = "a variant with empty brackets is declared by its name alone";

pub const NO_TYPE: &str = "this is no type";

pub const NO_IMPORT: &str = "an import is written `use path::{Name, other::Name as Own};`";

pub const NO_SET: &str =
    "only a field of type `Vec<T>`, `BTreeSet<T>` or `HashSet<T>` is stored as a set";

const FIELD_TYPES: &str = "a field is `bool`, `char`, `String`, `ByteBuf`, an integer of 8 to 128 \
bits, an `Option`, `Box`, `Vec`, `BTreeSet`, `HashSet`, `BTreeMap` or `HashMap` of such types, two \
to four of them in brackets, or a type that is described";

/// The reason why nothing is printed.
#[derive(Drop)]
pub enum Failure {
    /// The declaration on this line is not described.
    Refused(u32, Reason),

    /// Memory ran out.
    Memory,
}

/// Returns the failure of a declaration that is refused on this line for the reason in the text.
pub fn refused(line: u32, text: &'static str) -> Failure {
    Failure::Refused(line, Reason::Plain(text))
}

impl From<AllocError> for Failure {
    fn from(_: AllocError) -> Failure {
        Failure::Memory
    }
}

impl<T: Drop> From<AllocFailed<T>> for Failure {
    fn from(_: AllocFailed<T>) -> Failure {
        Failure::Memory
    }
}

impl fmt::Display for Failure {
    fn fmt<W: fmt::Write>(&self, f: &mut fmt::Formatter<W>) -> fmt::Result {
        match self {
            Failure::Refused(line, reason) => write!(f, "line {line}: {reason}"),
            Failure::Memory => f.write_str("out of memory"),
        }
    }
}

impl fmt::Display for Reason {
    fn fmt<W: fmt::Write>(&self, f: &mut fmt::Formatter<W>) -> fmt::Result {
        match self {
            Reason::Character(c) => write!(f, "no declaration has the character {c:?} here"),
            Reason::Attribute(name) => write!(f, "the serde attribute `{name}` is not described"),
            Reason::Misplaced(name) => write!(f, "the serde attribute `{name}` has no place here"),
            Reason::Twice(name) => write!(f, "the serde attribute `{name}` stands here twice"),
            Reason::Rule(rule) => write!(f, "`{rule}` is none of serde's rules for names"),
            Reason::With(path) => write!(f, "fields with {path:?} are not described"),
            Reason::SkipIf(path) => write!(f, "fields skipped by {path:?} are not described"),
            Reason::OtherType(name) => write!(f, "this function is for fields of type `{name}`"),
            Reason::SameList(name) => write!(f, "`{name}Fields` would be declared twice"),
            Reason::SameName(name) => write!(f, "`{name}` is a name of a field already"),
            Reason::TakenName(name) => write!(
                f,
                "`{name}` is another name in the impls that are printed: name the type otherwise"
            ),
            Reason::NoStruct(name) => write!(
                f,
                "`{name}` is no struct with named fields of this file, which a variant behind a \
tag holds"
            ),
            Reason::RulesBehindTag(name) => write!(
                f,
                "`{name}` has `alias` or `deny_unknown_fields`, which has no place behind a tag"
            ),
            Reason::FieldIsTag(name) => write!(f, "the field `{name}` has the name of the tag"),
            Reason::FieldType(name) => write!(
                f,
                "no field has a type with `{name}`: {FIELD_TYPES}"
            ),
            Reason::Plain(text) => f.write_str(text),
        }
    }
}
