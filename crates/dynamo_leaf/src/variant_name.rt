use std::alloc::Global;

/// A unit variant by its name: what a string is if an enum is asked for.
#[derive(Drop)]
pub struct VariantName {
    pub(crate) alloc: Global,
    pub(crate) text: String,
}
