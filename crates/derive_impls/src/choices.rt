use crate::branch::{branches, ghost_branch, pattern_branch};
use crate::case::{Case, cases};
use crate::heading::Heading;
use crate::names::{codes, names_function, shown_names, variant_names};
use crate::traits::{BY_SHAPE, print_deserialize, print_serialize, print_shaped};
use crate::tree::type_tree;
use derive_declarations::{Contents, Declaration, Field, Variant};
use std::alloc::{AllocError, Global};
use std::fmt::Write;

// The width past which the body of an arm is between braces.
const WIDTH: usize = 100;

/// Prints the impls of an enum of which some variant has contents, or with this tag. The structs in
/// the newtype variants behind a tag are among the declarations, and the imports name the variants
/// by the alias.
pub fn print_choices(
    alloc: Global,
    out: &mut String,
    heading: &Heading,
    tag: Option<&str>,
    variants: &[Variant],
    declarations: &[Declaration],
    alias: &str,
) -> Result<(), AllocError> {
    let name = heading.name.as_str();
    for variant in variants {
        if let Contents::Named(fields) = &variant.contents {
            print_named_fields(alloc, out, name, variant.name.as_str(), fields.as_slice())?;
        }
    }
    let cases = cases(alloc, name, variants, tag.map(|_| declarations))?;
    let cases = cases.as_slice();
    let mut types = Vec::new(alloc);
    for case in cases {
        types.push(case.listed_type(alloc)?)?;
    }
    let list = branches(alloc, types.as_slice(), "Choice<", ">")?;
    writeln!(out, "\ntype {name}Variants = {list};")?;
    let names = variant_names(alloc, variants)?;
    print_description(alloc, out, heading, tag, names.as_slice(), cases, alias)?;
    print_traits(alloc, out, heading, tag.is_some(), cases)
}

// Prints the list of the fields of a variant.
fn print_named_fields(
    alloc: Global,
    out: &mut String,
    of: &str,
    variant: &str,
    fields: &[Field],
) -> Result<(), AllocError> {
    let types = type_tree(alloc, fields)?;
    let shown = shown_names(alloc, fields)?;
    let codes = codes(alloc, shown.as_slice())?;
    let names_function = names_function(alloc, shown.as_slice())?;
    writeln!(
        out,
        "
/// The fields of [`{of}::{variant}`].
pub struct {variant}Fields;

impl NamedFields for {variant}Fields {{
    type Fields = {types};
    ghost names = {{ {codes} }};
    ghost named = {{ (refl, refl) }};
{names_function}
}}"
    )
}

// Prints the impl that describes the enum, by the names of the variants.
fn print_description(
    alloc: Global,
    out: &mut String,
    heading: &Heading,
    tag: Option<&str>,
    names: &[&str],
    cases: &[Case],
    alias: &str,
) -> Result<(), AllocError> {
    let Heading { name, shown, .. } = heading;
    print_head(alloc, out, heading, tag, names, cases, alias)?;
    let keyword = if tag.is_some() {
        "internally tagged enum"
    } else {
        "enum"
    };
    let names_function = names_function(alloc, names)?;
    let arms = make_arms(alloc, cases)?;
    writeln!(
        out,
        "    fn name() -> &'static str {{ \"{shown}\" }}
    fn expecting() -> &'static str {{ \"{keyword} {shown}\" }}
{names_function}
    fn make(variant: {name}Variants) -> {name} {{
        match variant {{
{arms}        }}
    }}
}}"
    )
}

// Prints the head of that impl and its ghost members, with the function for a tag.
fn print_head(
    alloc: Global,
    out: &mut String,
    heading: &Heading,
    tag: Option<&str>,
    names: &[&str],
    cases: &[Case],
    alias: &str,
) -> Result<(), AllocError> {
    let Heading { name, shown, .. } = heading;
    let codes = codes(alloc, names)?;
    let is = parts(alloc, cases, alias)?;
    match tag {
        None => writeln!(
            out,
            "
impl Enumeration for {name} {{
    type Variants = {name}Variants;
    ghost about = {{ enum_of (codes \"{shown}\") ({codes}) (elim [
{is}    ]) ⟦<{name}Variants as VariantList>⟧.about }};
    ghost named = {{ (refl, refl) }};"
        ),
        Some(tag) => writeln!(
            out,
            "
impl TaggedEnum for {name} {{
    type Variants = {name}Variants;
    ghost about = {{ tagged_of (codes \"{tag}\") (codes \"{shown}\") ({codes}) (elim [
{is}    ]) ⟦<{name}Variants as TaggedList>⟧.about }};
    fn tag() -> &'static str {{ \"{tag}\" }}"
        ),
    }
}

// The cases of what a value is in the list of variants.
fn parts(alloc: Global, cases: &[Case], alias: &str) -> Result<String, AllocError> {
    let mut lines = String::new(alloc);
    for (index, case) in cases.iter().enumerate() {
        let name = case.variant.name.as_str();
        let binders = case.ghost_binders(alloc)?;
        let parts = case.ghost_parts(alloc)?;
        let is = ghost_branch(alloc, index, cases.len(), parts.as_str())?;
        writeln!(lines, "      | {alias}.{name}{binders} ↦ {is}")?;
    }
    Ok(lines)
}

fn make_arms(alloc: Global, cases: &[Case]) -> Result<String, AllocError> {
    let mut arms = String::new(alloc);
    for (index, case) in cases.iter().enumerate() {
        let (listed, fields) = case.listed(alloc)?;
        let pattern = pattern_branch(alloc, index, cases.len(), listed.as_str())?;
        let value = case.of_fields(alloc)?;
        match fields {
            Some(fields) => writeln!(
                arms,
                "            {pattern} => {{ let {fields} = fields; {value} }}"
            )?,
            None => print_arm(alloc, &mut arms, pattern.as_str(), value.as_str())?,
        }
    }
    Ok(arms)
}

// Prints an arm of a match. A wide body is between braces, which `rt fmt` leaves as they are.
fn print_arm(alloc: Global, out: &mut String, pattern: &str, body: &str) -> Result<(), AllocError> {
    let line = format!(in alloc; "            {pattern} => {body},")?;
    if line.chars().count() <= WIDTH {
        writeln!(out, "{line}")
    } else {
        writeln!(out, "            {pattern} => {{ {body} }}")
    }
}

fn print_traits(
    alloc: Global,
    out: &mut String,
    heading: &Heading,
    is_tagged: bool,
    cases: &[Case],
) -> Result<(), AllocError> {
    let name = heading.name.as_str();
    let (kind, of_trait) = if is_tagged {
        ("tagged", "TaggedEnum")
    } else {
        ("enum", "Enumeration")
    };
    let described = format!(in alloc; "⟦<{name} as {of_trait}>⟧.about")?;
    let write = write_arms(alloc, cases)?;
    let tells = format_args!("{kind}_tells {described}");
    print_serialize(
        out,
        heading,
        tells,
        "",
        format_args!("match self {{\n{write}        }}"),
    )?;
    let reads = format_args!("{kind}_reads {described}");
    let read = format_args!("read_{kind}(alloc, deserializer)");
    print_deserialize(out, heading, reads, read)?;
    let named = named(alloc, is_tagged, cases)?;
    let about = format_args!("about_{kind} {described} {named}");
    let conforms = conform_arms(alloc, cases)?;
    print_shaped(
        out,
        heading,
        about,
        BY_SHAPE,
        format_args!("match self {{\n{conforms}        }}"),
    )
}

// The proof that no two fields of a variant have the same name.
fn named(alloc: Global, is_tagged: bool, cases: &[Case]) -> Result<String, AllocError> {
    let named: Vec<&str> = cases.iter().map(|case| case.ghost_named()).collect(alloc)?;
    let named = branches(alloc, named.as_slice(), "(", ")")?;
    if is_tagged {
        format!(in alloc; "(refl, refl, {named})")
    } else {
        Ok(named)
    }
}

// The arms that write each case.
fn write_arms(alloc: Global, cases: &[Case]) -> Result<String, AllocError> {
    let mut arms = String::new(alloc);
    for (index, case) in cases.iter().enumerate() {
        let (pattern, call) = (case.of_fields(alloc)?, case.write_call(alloc, index)?);
        print_arm(alloc, &mut arms, pattern.as_str(), call.as_str())?;
    }
    Ok(arms)
}

// The arms by which each case conforms.
fn conform_arms(alloc: Global, cases: &[Case]) -> Result<String, AllocError> {
    let mut arms = String::new(alloc);
    for (index, case) in cases.iter().enumerate() {
        let (pattern, call) = (case.of_fields(alloc)?, case.conform_call(alloc, index)?);
        print_arm(alloc, &mut arms, pattern.as_str(), call.as_str())?;
    }
    Ok(arms)
}
