/// The elements of a reader that never shows a sequence.
#[derive(Debug, Drop)]
pub struct NoElements;

/// The entries of a reader that never shows a map.
#[derive(Debug, Drop)]
pub struct NoEntries;

/// The variant of a reader that never shows an enum. Choosing it fails with
/// [`ErrorImpl::ExpectedEnum`](dynamo_value::ErrorImpl).
#[derive(Debug, Drop)]
pub struct NoVariant;
