use crate::heading::Heading;
use crate::names::{codes, names_function, variant_names};
use crate::traits::{BY_SHAPE, print_deserialize, print_key, print_serialize, print_shaped};
use crate::tree::wrapped;
use derive_declarations::Variant;
use std::alloc::{AllocError, Global};
use std::fmt::Write;

/// Prints the impls of an enum whose variants have no contents. The imports name its list of
/// variants by the alias.
pub fn print_units(
    alloc: Global,
    out: &mut String,
    heading: &Heading,
    variants: &[Variant],
    alias: &str,
) -> Result<(), AllocError> {
    let name = heading.name.as_str();
    let described = format!(in alloc; "⟦<{name} as UnitEnum>⟧.about")?;
    print_description(alloc, out, heading, variants, alias)?;
    let tells = format_args!("unit_enum_tells {described}");
    print_serialize(out, heading, tells, "", "write_unit_enum(self, serializer)")?;
    let reads = format_args!("unit_enum_reads {described}");
    print_deserialize(out, heading, reads, "read_unit_enum(alloc, deserializer)")?;
    let about = format_args!("about_units {described}");
    print_shaped(out, heading, about, BY_SHAPE, "conform_unit_enum(self);")?;
    if heading.is_key {
        print_key(
            out,
            heading,
            format_args!("key_units {described}"),
            "own_key _",
        )?;
    }
    Ok(())
}

fn print_description(
    alloc: Global,
    out: &mut String,
    heading: &Heading,
    variants: &[Variant],
    alias: &str,
) -> Result<(), AllocError> {
    let Heading { name, shown, .. } = heading;
    let names = variant_names(alloc, variants)?;
    let paths = paths(alloc, name.as_str(), variants)?;
    let codes = codes(alloc, names.as_slice())?;
    let names_function = names_function(alloc, names.as_slice())?;
    writeln!(
        out,
        "
impl UnitEnum for {name} {{
    ghost about = {{ units_of {alias} (codes \"{shown}\") ({codes}) refl }};
    fn name() -> &'static str {{ \"{shown}\" }}
    fn expecting() -> &'static str {{ \"enum {shown}\" }}
{names_function}
    fn number(&self) -> u32 {{ *self as u32 }}
    fn variant(number: usize) -> Option<{name}> {{ variant_at(&[{paths}], number) }}
}}"
    )
}

// The paths of the variants, with commas between them.
fn paths(alloc: Global, of: &str, variants: &[Variant]) -> Result<String, AllocError> {
    let own = variants.iter().map(|variant| variant.name.as_str());
    let own: Vec<&str> = own.collect(alloc)?;
    let before = format!(in alloc; "{of}::")?;
    wrapped(alloc, own.as_slice(), before.as_str(), "")?.join(alloc, ", ")
}
