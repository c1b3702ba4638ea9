use crate::heading::Heading;
use crate::newtype::{known, letter, print_field_key, wants};
use crate::traits::{print_deserialize, print_serialize, print_shaped_with};
use std::alloc::{AllocError, Global};

/// Prints the impls of a transparent struct, which is written and read as its field is, by the text
/// of the field's type.
pub fn print_transparent(
    alloc: Global,
    out: &mut String,
    heading: &Heading,
    of: &str,
) -> Result<(), AllocError> {
    let letter = letter(heading.name.as_str());
    let field = format!(in alloc; "(λ {letter}. {letter}.0)")?;
    let known = known(alloc, heading, of)?;
    let known = format!(in alloc; "{field} {known}")?;
    let tells = format_args!("(about_part {known}).tells");
    let wants = wants(alloc, heading, of, letter)?;
    let write = "write_transparent(&self.0, serializer)";
    print_serialize(out, heading, tells, wants.as_str(), write)?;
    print_reading(out, heading, of, known.as_str())?;
    if heading.is_key {
        let words = ("key_part", "part_is_key");
        print_field_key(out, heading, of, words, field.as_str())?;
    }
    Ok(())
}

// Prints the impls of `Deserialize` and `Shaped`, by the field in a ghost member and what is known
// of it.
fn print_reading(
    out: &mut String,
    heading: &Heading,
    of: &str,
    known: &str,
) -> Result<(), AllocError> {
    let Heading { name, ty, .. } = heading;
    // With `?` the prover doesn't find a proof for the error of an option.
    let read = format_args!(
        "match read_transparent(alloc, deserializer) {{
            Ok(field) => Ok({name}(field)),
            Err(error) => Err(error),
        }}"
    );
    print_deserialize(out, heading, format_args!("part_reads {known}"), read)?;
    let about = format_args!("about_part {known}");
    let by_shape = format_args!("part_by_shape {known}");
    let absent = format_args!(
        "(alloc: Global) -> Result<Option<{ty}>, E> {{
        match <{of} as Shaped>::absent(alloc)? {{
            Some(field) => Ok(Some({name}(field))),
            None => Ok(None),
        }}
    }}"
    );
    print_shaped_with(out, heading, about, by_shape, absent, "self.0.conforms();")
}
