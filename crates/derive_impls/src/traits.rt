use crate::heading::Heading;
use std::alloc::AllocError;
use std::fmt::{Display, Write};

/// The proof in `Shaped` for types that are read by their shape as they are described.
pub const BY_SHAPE: &str = "λ _ _ h. h";

/// Prints the impl of `Serialize`, by what a value tells, a ghost member that says whether writing
/// allocates by itself, or nothing, and the body of `serialize`.
pub fn print_serialize<T: Display + Drop, B: Display + Drop>(
    out: &mut String,
    heading: &Heading,
    tells: T,
    wants: &str,
    body: B,
) -> Result<(), AllocError> {
    let Heading { shaped, ty, .. } = heading;
    writeln!(
        out,
        "
impl{shaped} Serialize for {ty} {{
    ghost tells = {{ {tells} }};
{wants}    fn serialize<S: Serializer>(&self, serializer: S) -> Result<S::Ok, S::Error> {{
        {body}
    }}
}}"
    )
}

/// Prints the impl of `Deserialize`, by what is read and the body of `deserialize`.
pub fn print_deserialize<R: Display + Drop, B: Display + Drop>(
    out: &mut String,
    heading: &Heading,
    reads: R,
    body: B,
) -> Result<(), AllocError> {
    let Heading { shaped, ty, .. } = heading;
    writeln!(
        out,
        "
impl{shaped} Deserialize for {ty} {{
    ghost reads = {{ {reads} }};
    fn deserialize<D: Deserializer>(alloc: Global, deserializer: D) -> Result<{ty}, D::Error> {{
        {body}
    }}
}}"
    )
}

/// Prints the impl of `Shaped` for a type without a value for a missing field, by the shape, why
/// reading is by the shape, and the body of `conforms`.
pub fn print_shaped<A: Display + Drop, S: Display + Drop, B: Display + Drop>(
    out: &mut String,
    heading: &Heading,
    about: A,
    by_shape: S,
    body: B,
) -> Result<(), AllocError> {
    let ty = heading.ty.as_str();
    let absent = format_args!("(_alloc: Global) -> Result<Option<{ty}>, E> {{ Ok(None) }}");
    print_shaped_with(out, heading, about, by_shape, absent, body)
}

/// Prints the impl of `Shaped`, as [`print_shaped`], by the rest of the function `absent` too.
pub fn print_shaped_with<
    A: Display + Drop,
    S: Display + Drop,
    N: Display + Drop,
    B: Display + Drop,
>(
    out: &mut String,
    heading: &Heading,
    about: A,
    by_shape: S,
    absent: N,
    body: B,
) -> Result<(), AllocError> {
    let Heading { shaped, ty, .. } = heading;
    writeln!(
        out,
        "
impl{shaped} Shaped for {ty} {{
    ghost about = {{ {about} }};
    ghost as_told = {{ refl }};
    ghost reads_by_shape = {{ {by_shape} }};
    fn absent<E: Error>{absent}
    fn conforms(&self) {{
        {body}
    }}
}}"
    )
}

/// Prints the impl of `ShapedKey`, by its ghost members.
pub fn print_key<A: Display + Drop, K: Display + Drop>(
    out: &mut String,
    heading: &Heading,
    about_key: A,
    is_key: K,
) -> Result<(), AllocError> {
    let Heading { keyed, ty, .. } = heading;
    writeln!(
        out,
        "
impl{keyed} ShapedKey for {ty} {{
    ghost about_key = {{ {about_key} }};
    ghost is_key = {{ {is_key} }};
}}"
    )
}
