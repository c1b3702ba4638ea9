//! The parts of a value that readers read, on the trail that they share.
use crate::Step;
use crate::trail::Trail;
use std::alloc::Global;

/// The part that a reader reads: how many steps of the trail lead to the value that has it, and its
/// own step, which goes on the trail when the part is read.
///
/// A part has no trail if its name isn't known or memory for its name ran out. What is inside it
/// has none either.
#[derive(Drop)]
pub(crate) struct Spot<'a> {
    trail: Option<&'a Trail>,
    above: usize,
    // The part's own step; none if it is the whole value, or a part that reading has come to
    // before.
    last: Option<Step>,
}

/// A part that reading has come to: how many steps of the trail lead to it.
#[derive(Clone, Copy)]
pub(crate) struct Here<'a> {
    trail: Option<&'a Trail>,
    depth: usize,
}

impl<'a> Spot<'a> {
    /// Returns the spot of a whole value, whose place is the empty trail.
    pub(crate) fn whole(trail: &'a Trail) -> Self {
        Spot {
            trail: Some(trail),
            above: 0,
            last: None,
        }
    }

    /// Marks that reading has come to this part.
    pub(crate) fn mark(self) -> Here<'a> {
        let above = Here {
            trail: self.trail,
            depth: self.above,
        };
        above.mark();
        match (self.trail, self.last) {
            (Some(trail), Some(step)) => {
                trail.go(step);
                Here {
                    trail: self.trail,
                    depth: self.above.wrapping_add(1),
                }
            }
            _ => above,
        }
    }
}

impl<'a> Here<'a> {
    /// Marks that reading has come back here.
    pub(crate) fn mark(self) {
        if let Some(trail) = self.trail {
            trail.back_to(self.depth);
        }
    }

    /// Returns the same part, for another reader.
    pub(crate) fn again(self) -> Spot<'a> {
        Spot {
            trail: self.trail,
            above: self.depth,
            last: None,
        }
    }

    /// Returns the element with this index.
    pub(crate) fn element(self, index: usize) -> Spot<'a> {
        Spot {
            last: Some(Step::Element(index)),
            ..self.again()
        }
    }

    /// Returns the entry of a key, or the content of a variant of that name.
    pub(crate) fn entry(self, alloc: Global, key: Option<&str>) -> Spot<'a> {
        if let Some(key) = key
            && let Ok(name) = String::from_str(alloc, key)
        {
            return Spot {
                last: Some(Step::Attribute(name)),
                ..self.again()
            };
        }
        self.mark();
        Spot {
            trail: None,
            ..self.again()
        }
    }
}
