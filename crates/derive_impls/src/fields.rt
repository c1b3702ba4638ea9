// What the impls of all structs with fields have, whether these have names or not.
use crate::heading::Heading;
use crate::tree::tree_of;
use std::alloc::{AllocError, Global};
use std::fmt::{Display, Write};

/// Prints the function that makes this value of the list, whose fields get these names, and ends
/// the impl.
pub fn print_make<V: Display + Drop>(
    alloc: Global,
    out: &mut String,
    heading: &Heading,
    names: &[&str],
    value: V,
) -> Result<(), AllocError> {
    let Heading {
        name,
        arguments,
        ty,
        ..
    } = heading;
    let pattern = tree_of(alloc, names, "Field(", ")")?;
    writeln!(
        out,
        "    fn make(fields: {name}Fields{arguments}) -> {ty} {{
        let {pattern} = fields;
        {value}
    }}
}}"
    )
}
