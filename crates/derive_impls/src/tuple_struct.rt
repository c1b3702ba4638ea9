use crate::fields::print_make;
use crate::heading::Heading;
use crate::names::letters;
use crate::traits::{print_deserialize, print_serialize, print_shaped};
use crate::tree::tree_of;
use std::alloc::{AllocError, Global};
use std::fmt::Write;

/// Prints the impls of a struct of several fields without names, by the texts of their types.
pub fn print_tuple_struct(
    alloc: Global,
    out: &mut String,
    heading: &Heading,
    types: &[String],
) -> Result<(), AllocError> {
    print_description(alloc, out, heading, types)?;
    let places: Vec<usize> = (0..types.len()).collect(alloc)?;
    let refs = tree_of(alloc, places.as_slice(), "&self.", "")?;
    print_traits(alloc, out, heading, refs.as_str())
}

fn print_traits(
    alloc: Global,
    out: &mut String,
    heading: &Heading,
    refs: &str,
) -> Result<(), AllocError> {
    let ty = heading.ty.as_str();
    let described = format!(in alloc; "⟦<{ty} as TupleStruct>⟧.about")?;
    let tells = format_args!("tuple_struct_tells {described}");
    let write = format_args!("write_tuple_struct::<{ty}, _, S>(serializer, &{refs})");
    print_serialize(out, heading, tells, "", write)?;
    let reads = format_args!("tuple_struct_reads {described}");
    print_deserialize(
        out,
        heading,
        reads,
        "read_tuple_struct(alloc, deserializer)",
    )?;
    let about = format_args!("about_tuple_struct {described}");
    let by_shape = format_args!("tuple_struct_by_shape {described}");
    let conforms = format_args!("tuple_struct_conforms::<{ty}, _>(&{refs})");
    print_shaped(out, heading, about, by_shape, conforms)
}

fn print_description(
    alloc: Global,
    out: &mut String,
    heading: &Heading,
    types: &[String],
) -> Result<(), AllocError> {
    let Heading {
        name,
        shown,
        arguments,
        ty,
        shaped,
        ..
    } = heading;
    let count = types.len();
    let types = tree_of(alloc, types, "Field<", ">")?;
    let list = format_args!("{name}Fields{arguments}");
    writeln!(out, "\ntype {list} = {types};\n")?;
    let places: Vec<usize> = (0..count).collect(alloc)?;
    let parts = tree_of(alloc, places.as_slice(), "record { 0 = s.", " }")?;
    writeln!(
        out,
        "impl{shaped} TupleStruct for {ty} {{
    type Fields = {list};
    ghost about = {{ tuple_struct_of (codes \"{shown}\") (λ s. {parts}) ⟦<{list} as FieldList>⟧.about }};
    fn name() -> &'static str {{ \"{shown}\" }}
    fn expecting() -> &'static str {{ \"tuple struct {shown}\" }}
    fn count() -> usize {{ {count} }}"
    )?;
    let names = letters(alloc, count)?;
    let all = names.join(alloc, ", ")?;
    print_make(
        alloc,
        out,
        heading,
        names.as_slice(),
        format_args!("{name}({all})"),
    )
}
