use crate::fields::print_make;
use crate::heading::Heading;
use crate::names::{codes, names, names_function, shown_names};
use crate::record_rules::{has_rules, print_rules};
use crate::traits::{BY_SHAPE, print_deserialize, print_serialize, print_shaped};
use crate::tree::{ref_tree, tree_of, type_tree};
use derive_declarations::Field;
use std::alloc::{AllocError, Global};
use std::fmt::Write;

/// Prints the impls of a struct of named fields.
pub fn print_record(
    alloc: Global,
    out: &mut String,
    heading: &Heading,
    fields: &[Field],
) -> Result<(), AllocError> {
    print_description(alloc, out, heading, fields)?;
    let is_ruled = has_rules(heading, fields);
    if is_ruled {
        print_rules(alloc, out, heading, fields)?;
    }
    let refs = ref_tree(alloc, fields, "&self.")?;
    print_traits(alloc, out, heading, refs.as_str(), is_ruled)
}

// Those of a struct with rules for the names of entries, or without.
fn print_traits(
    alloc: Global,
    out: &mut String,
    heading: &Heading,
    refs: &str,
    is_ruled: bool,
) -> Result<(), AllocError> {
    let ty = heading.ty.as_str();
    let described = format!(in alloc; "⟦<{ty} as Record>⟧.about")?;
    let tells = format_args!("record_tells {described}");
    let write = format_args!("write_record::<{ty}, _, S>(serializer, &{refs})");
    print_serialize(out, heading, tells, "", write)?;
    let conforms = format_args!("record_conforms::<{ty}, _>(&{refs})");
    if is_ruled {
        let described = format_args!("⟦<{ty} as RecordRules>⟧.rules {described}");
        let read = "read_record_by_rules(alloc, deserializer)";
        print_deserialize(out, heading, format_args!("rules_reads {described}"), read)?;
        let about = format_args!("about_by_rules {described} (refl, refl)");
        print_shaped(out, heading, about, BY_SHAPE, conforms)
    } else {
        let read = "read_record(alloc, deserializer)";
        print_deserialize(out, heading, format_args!("record_reads {described}"), read)?;
        let about = format_args!("about_record {described} (refl, refl)");
        print_shaped(out, heading, about, BY_SHAPE, conforms)
    }
}

fn print_description(
    alloc: Global,
    out: &mut String,
    heading: &Heading,
    fields: &[Field],
) -> Result<(), AllocError> {
    let types = type_tree(alloc, fields)?;
    let Heading {
        name,
        arguments,
        ..
    } = heading;
    writeln!(out, "\ntype {name}Fields{arguments} = {types};\n")?;
    let names = names(alloc, fields)?;
    let shown = shown_names(alloc, fields)?;
    print_names(alloc, out, heading, names.as_slice(), shown.as_slice())?;
    let own = names.join(alloc, ", ")?;
    print_make(
        alloc,
        out,
        heading,
        names.as_slice(),
        format_args!("{name} {{ {own} }}"),
    )
}

// Prints the impl up to its function `make`. The fields have these names, and are written under
// these.
fn print_names(
    alloc: Global,
    out: &mut String,
    heading: &Heading,
    names: &[&str],
    written: &[&str],
) -> Result<(), AllocError> {
    let Heading {
        name,
        shown,
        arguments,
        ty,
        shaped,
        ..
    } = heading;
    let codes = codes(alloc, written)?;
    let parts = tree_of(alloc, names, "record { 0 = s.", " }")?;
    let names_function = names_function(alloc, written)?;
    let list = format_args!("{name}Fields{arguments}");
    writeln!(
        out,
        "impl{shaped} Record for {ty} {{
    type Fields = {list};
    ghost about = {{ record_of (codes \"{shown}\") ({codes}) (λ s. {parts}) ⟦<{list} as FieldList>⟧.about }};
    ghost named = {{ (refl, refl) }};
    fn name() -> &'static str {{ \"{shown}\" }}
    fn expecting() -> &'static str {{ \"struct {shown}\" }}
{names_function}"
    )
}
