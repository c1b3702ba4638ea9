// The rules of a struct whose fields have other names, or whose unknown fields are errors.
use crate::heading::Heading;
use derive_declarations::Field;
use std::alloc::{AllocError, Global};
use std::fmt::Write;

/// Whether a struct with these fields has rules for the names of entries.
pub fn has_rules(heading: &Heading, fields: &[Field]) -> bool {
    heading.denies_unknown || has_aliases(fields)
}

/// Whether some field has another name.
pub fn has_aliases(fields: &[Field]) -> bool {
    fields.iter().any(|field| !field.aliases.is_empty())
}

/// Prints the impl of `RecordRules`.
pub fn print_rules(
    alloc: Global,
    out: &mut String,
    heading: &Heading,
    fields: &[Field],
) -> Result<(), AllocError> {
    let Heading { ty, shaped, .. } = heading;
    let denies = heading.denies_unknown;
    let mut codes = String::new(alloc);
    let mut pairs = Vec::new(alloc);
    for field in fields {
        let own = field.shown.as_str();
        for other in &field.aliases {
            write!(codes, "(codes \"{other}\", codes \"{own}\") ∷ ")?;
            pairs.push(format!(in alloc; "(\"{other}\", \"{own}\")")?)?;
        }
    }
    let pairs = pairs.join(alloc, ", ")?;
    writeln!(
        out,
        "
impl{shaped} RecordRules for {ty} {{
    ghost rules = {{ record {{ aliases = {codes}[]; denies = {denies} }} }};
    fn aliases() -> &'static [(&'static str, &'static str)] {{ &[{pairs}] }}
    fn denies_unknown() -> bool {{ {denies} }}
}}"
    )
}
