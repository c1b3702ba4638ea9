use crate::heading::Heading;
use crate::traits::{print_deserialize, print_key, print_serialize, print_shaped};
use std::alloc::{AllocError, Global};

/// Prints the impls of a newtype, by the text of its field's type.
pub fn print_newtype(
    alloc: Global,
    out: &mut String,
    heading: &Heading,
    of: &str,
) -> Result<(), AllocError> {
    let Heading { name, shown, .. } = heading;
    let letter = letter(name.as_str());
    let field = format!(in alloc; "(codes \"{shown}\") (λ {letter}. {letter}.0)")?;
    let known = known(alloc, heading, of)?;
    let wants = wants(alloc, heading, of, letter)?;
    let tells = format_args!("(about_newtype {field} {known}).tells");
    let write = format_args!("write_newtype(\"{shown}\", &self.0, serializer)");
    print_serialize(out, heading, tells, wants.as_str(), write)?;
    let reads = format_args!("newtype_reads {field} {known}");
    let read = format_args!("Ok({name}(read_newtype(alloc, deserializer, \"{shown}\")?))");
    print_deserialize(out, heading, reads, read)?;
    let about = format_args!("about_newtype {field} {known}");
    let by_shape = format_args!("newtype_by_shape {field} {known}");
    print_shaped(out, heading, about, by_shape, "self.0.conforms();")?;
    if heading.is_key {
        let words = ("key_newtype", "newtype_is_key");
        print_field_key(out, heading, of, words, field.as_str())?;
    }
    Ok(())
}

/// The letter of a value in a ghost member: the first of its type's name.
pub fn letter(name: &str) -> char {
    match name.chars().next() {
        Some(first) if first.is_ascii_alphabetic() => first.to_ascii_lowercase(),
        _ => 'v',
    }
}

/// What is known of the field's type, which is a parameter of a generic struct.
pub fn known(alloc: Global, heading: &Heading, of: &str) -> Result<String, AllocError> {
    if heading.arguments.is_empty() {
        format!(in alloc; "⟦<{of} as Shaped>⟧.about")
    } else {
        format!(in alloc; "{of}.about")
    }
}

/// Whether writing allocates by itself: if writing the field of a generic struct does.
pub fn wants(
    alloc: Global,
    heading: &Heading,
    of: &str,
    letter: char,
) -> Result<String, AllocError> {
    if heading.arguments.is_empty() {
        return Ok(String::new(alloc));
    }
    format!(in alloc; "    ghost wants = {{ λ {letter}. {of}.wants {letter}.0 }};\n")
}

/// Prints the impl of `ShapedKey` of a struct of one field, by the words for what is known of it
/// and for why it is a key, and the arguments of both that are before the field's.
pub fn print_field_key(
    out: &mut String,
    heading: &Heading,
    of: &str,
    words: (&str, &str),
    field: &str,
) -> Result<(), AllocError> {
    let (known, is_key) = words;
    if heading.arguments.is_empty() {
        let known = format_args!("{known} {field} ⟦<{of} as ShapedKey>⟧.about_key");
        return print_key(out, heading, known, "own_key _");
    }
    let known = format_args!("{known} {field} {of}.about_key");
    let laws = format_args!("{of}.about.tells {of}.eq {of}.cmp {of}.is_key");
    let is_key = format_args!("{is_key} {field} {of}.about_key {of}.about.shape {laws}");
    print_key(out, heading, known, is_key)
}
