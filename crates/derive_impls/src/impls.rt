use crate::heading::Heading;
use crate::{choices, newtype, record, transparent, tuple_struct, unit_enum, unit_struct};
use derive_declarations::{Body, Declaration};
use std::alloc::{AllocError, Global};

/// Prints the impls of a declaration, which is one of these. The imports name the variants of an
/// enum by the alias.
pub fn print_impls(
    alloc: Global,
    out: &mut String,
    declaration: &Declaration,
    all: &[Declaration],
    alias: &str,
) -> Result<(), AllocError> {
    let heading = Heading::of(alloc, declaration)?;
    print_body(alloc, out, &heading, &declaration.body, all, alias)
}

fn print_body(
    alloc: Global,
    out: &mut String,
    heading: &Heading,
    body: &Body,
    all: &[Declaration],
    alias: &str,
) -> Result<(), AllocError> {
    match body {
        Body::Record(fields) => record::print_record(alloc, out, heading, fields),
        Body::Newtype(of) => newtype::print_newtype(alloc, out, heading, of),
        Body::Transparent(of) => transparent::print_transparent(alloc, out, heading, of),
        Body::Tuple(types) => tuple_struct::print_tuple_struct(alloc, out, heading, types),
        Body::Unit => unit_struct::print_unit(out, heading),
        Body::Units(variants) => unit_enum::print_units(alloc, out, heading, variants, alias),
        Body::Choices(variants) => {
            choices::print_choices(alloc, out, heading, None, variants, all, alias)
        }
        Body::Tagged(tag, variants) => {
            let tag = Some(tag.as_str());
            choices::print_choices(alloc, out, heading, tag, variants, all, alias)
        }
    }
}
