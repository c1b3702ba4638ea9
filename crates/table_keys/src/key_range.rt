ghost use Rattle.std.specs.Prelude.{◌≡◌};
ghost use Rattle.std.specs.declared.cmp.Ordering.TheVariants.{Less};
ghost use Rattle.table_keys.specs.Places.{place_cmp};

use crate::place::Place;

/// The keys between two places of their order.
#[derive(Debug, Drop)]
pub struct KeyRange {
    /// The place where the range begins.
    pub low: Place,

    /// The place where it ends, after [`low`](KeyRange::low).
    pub high: Place,

    ghost forward: { place_cmp low high ≡ Less },
}
