use crate::heading::Heading;
use crate::traits::{print_deserialize, print_serialize, print_shaped};
use std::alloc::AllocError;

/// Prints the impls of a unit struct.
pub fn print_unit(out: &mut String, heading: &Heading) -> Result<(), AllocError> {
    let Heading { name, shown, .. } = heading;
    let about = format_args!("about_unit_struct (codes \"{shown}\") (λ _ _. refl)");
    let write = format_args!("serializer.serialize_unit_struct(\"{shown}\")");
    print_serialize(out, heading, format_args!("({about}).tells"), "", write)?;
    let reads = format_args!("unit_struct_reads (codes \"{shown}\")");
    let read = format_args!(
        "read_unit_struct(alloc, deserializer, \"{shown}\")?;\n        Ok({name})"
    );
    print_deserialize(out, heading, reads, read)?;
    let by_shape = format_args!("unit_struct_by_shape (codes \"{shown}\")");
    print_shaped(out, heading, about, by_shape, "")
}
