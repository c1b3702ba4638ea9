use std::alloc::{AllocError, Global};

/// A struct or an enum, by what its description needs.
#[derive(Drop)]
pub struct Declaration {
    /// The name of the type.
    pub name: String,

    /// The name that it is written under.
    pub shown: String,
    /// The line of the declaration.
    pub line: u32,
    /// The type parameters.
    pub parameters: Vec<Parameter>,

    /// Whether it derives what a map's key needs.
    pub is_key: bool,
    /// Whether it has `deny_unknown_fields`.
    pub denies_unknown: bool,
    /// The fields or the variants.
    pub body: Body,
}

/// A type parameter.
#[derive(Drop)]
pub struct Parameter {
    /// The name of the parameter.
    pub name: String,
    /// The bounds as they are written, or an empty string if there are none.
    pub bounds: String,
}

/// The fields of a struct, or the variants of an enum.
#[derive(Drop)]
pub enum Body {
    /// A struct of named fields.
    Record(Vec<Field>),

    /// A struct of one field without a name, by the text of its type.
    Newtype(String),

    /// A `transparent` struct of one field without a name, by the text of its type.
    Transparent(String),

    /// A struct of several fields without names, by the texts of their types.
    Tuple(Vec<String>),

    /// A struct without a body.
    Unit,

    /// An enum whose variants have no contents.
    Units(Vec<Variant>),

    /// An enum of which some variant has contents.
    Choices(Vec<Variant>),

    /// An enum that is internally tagged, by its tag.
    Tagged(String, Vec<Variant>),
}

impl Declaration {
    /// Returns the names of its lists of fields: the struct's, or those of the variants whose
    /// fields have names.
    ///
    /// # Errors
    ///
    /// Returns [`AllocError`] if memory runs out.
    pub fn lists(&self, alloc: Global) -> Result<Vec<&str>, AllocError> {
        let mut names = Vec::new(alloc);
        match &self.body {
            Body::Record(_) | Body::Tuple(_) => names.push(self.name.as_str())?,
            Body::Choices(variants) | Body::Tagged(_, variants) => {
                for variant in variants {
                    if let Contents::Named(_) = variant.contents {
                        names.push(variant.name.as_str())?;
                    }
                }
            }
            _ => {}
        }
        Ok(names)
    }
}

impl Body {
    /// Returns whether it is that of an enum.
    pub fn is_enum(&self) -> bool {
        matches!(self, Body::Units(_) | Body::Choices(_) | Body::Tagged(_, _))
    }

    /// Returns whether it is that of an enum of unit variants.
    pub fn are_units(&self) -> bool {
        matches!(self, Body::Units(_))
    }
}

/// A named field.
#[derive(Drop)]
pub struct Field {
    /// The name of the field.
    pub name: String,

    /// The name that it is written under.
    pub shown: String,

    /// The other names that it is read under.
    pub aliases: Vec<String>,
    /// The line of its last attribute of serde.
    pub line: u32,

    /// The text of its type.
    pub of: String,
    /// How the field is stored.
    pub form: Form,
}

/// How a field is stored.
#[derive(Clone, Copy, PartialEq, Eq)]
pub struct Form {
    /// The set as which it is stored, or `None` if it is stored as its type is. If the type of a set
    /// is `Vec<T>`, the text of the type is that of `T`.
    pub set: Option<StoredSet>,

    /// Whether it may be absent.
    pub presence: Presence,
}

/// Whether a field may be absent.
#[derive(Clone, Copy, PartialEq, Eq)]
pub enum Presence {
    /// It may not, unless its type says otherwise.
    Required,

    /// It may, and then has its type's default.
    Defaulted,

    /// It may, and is left out if it has its type's default.
    Omitted,
}

/// How a field is stored as a set.
#[derive(Clone, Copy, PartialEq, Eq)]
pub struct StoredSet {
    /// The kind of the set.
    pub kind: SetKind,

    /// Whether the type of the field is a set of Rust, as `BTreeSet<T>`, and not `Vec<T>`.
    pub is_rust_set: bool,
}

/// The kinds of sets.
#[derive(Clone, Copy, PartialEq, Eq)]
pub enum SetKind {
    /// A set of strings.
    Strings,
    /// A set of numbers.
    Numbers,
    /// A set of byte strings.
    Binaries,
}

/// A variant of an enum.
#[derive(Drop)]
pub struct Variant {
    /// The name of the variant.
    pub name: String,

    /// The name that it is written under.
    pub shown: String,
    /// The fields of the variant.
    pub contents: Contents,
}

/// The fields of a variant.
#[derive(Drop)]
pub enum Contents {
    /// No fields.
    Nothing,

    /// One field without a name, by the text of its type.
    One(String),

    /// Several fields without names, by the texts of their types.
    Several(Vec<String>),

    /// Fields with names.
    Named(Vec<Field>),
}
