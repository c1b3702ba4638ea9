use crate::{Place, Step};
use std::fmt;

/// A [`Place`] that is printed without the indexes of elements, as `orders[].price`.
///
/// [`Place::without_indexes`] makes one.
#[derive(Clone, Copy, Debug)]
pub struct WithoutIndexes<'a> {
    pub(crate) place: &'a Place,
}

impl fmt::Display for WithoutIndexes<'_> {
    fn fmt<W: fmt::Write>(&self, f: &mut fmt::Formatter<W>) -> fmt::Result {
        let mut is_first = true;
        for step in self.place.steps() {
            match step {
                Step::Element(_) => f.write_str("[]")?,
                Step::Attribute(_) if is_first => step.write(f)?,
                Step::Attribute(_) => step.write_further(f)?,
            }
            is_first = false;
        }
        Ok(())
    }
}
