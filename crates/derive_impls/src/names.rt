// The names of a type, of its fields and of its variants, in the impls.
use crate::tree::wrapped;
use derive_declarations::{Field, Variant};
use std::alloc::{AllocError, Global};
use std::fmt::Write;

// What fields without names are called.
const LETTERS: &str = "a b c d e f g h i j k l m n o p q r s t u v w x y z";

/// The names of the fields.
pub fn names(alloc: Global, fields: &[Field]) -> Result<Vec<&str>, AllocError> {
    let names = fields.iter().map(|field| field.name.as_str());
    names.collect(alloc)
}

/// The names that the fields are written under.
pub fn shown_names(alloc: Global, fields: &[Field]) -> Result<Vec<&str>, AllocError> {
    let names = fields.iter().map(|field| field.shown.as_str());
    names.collect(alloc)
}

/// The names that the variants are written under.
pub fn variant_names(alloc: Global, variants: &[Variant]) -> Result<Vec<&str>, AllocError> {
    let names = variants.iter().map(|variant| variant.shown.as_str());
    names.collect(alloc)
}

/// What so many fields without names are called.
pub fn letters(alloc: Global, count: usize) -> Result<Vec<&'static str>, AllocError> {
    LETTERS.split(' ').take(count).collect(alloc)
}

/// The names in a ghost member, as `codes "id" ∷ codes "tags" ∷ []`.
pub fn codes(alloc: Global, names: &[&str]) -> Result<String, AllocError> {
    let mut text = String::new(alloc);
    for name in names {
        write!(text, "codes \"{name}\" ∷ ")?;
    }
    text.push_str("[]")?;
    Ok(text)
}

/// The function that returns the names of the fields or of the variants.
pub fn names_function(alloc: Global, names: &[&str]) -> Result<String, AllocError> {
    let names = wrapped(alloc, names, "\"", "\"")?.join(alloc, ", ")?;
    format!(in alloc; "    fn names() -> &'static [&'static str] {{ &[{names}] }}")
}
