//! The place that reading or writing has come to.
use crate::{Place, Step};
use std::alloc::Global;
use std::cell::Cell;

/// The steps to the part that is being read or written, which all readers or serializers of one
/// whole value share. They are given up if memory for one of them runs out.
#[derive(Drop)]
pub(crate) struct Trail {
    steps: Cell<Option<Vec<Step>>>,
}

impl Trail {
    /// Returns the trail at the whole value. It allocates nothing.
    pub(crate) fn new(alloc: Global) -> Trail {
        Trail {
            steps: Cell::new(Some(Vec::new(alloc))),
        }
    }

    /// Returns the number of steps.
    pub(crate) fn depth(&self) -> usize {
        let steps = self.steps.take();
        let depth = match &steps {
            Some(steps) => steps.len(),
            None => 0,
        };
        self.steps.set(steps);
        depth
    }

    /// Goes back to the value that so many steps lead to.
    pub(crate) fn back_to(&self, depth: usize) {
        if let Some(mut steps) = self.steps.take() {
            steps.truncate(depth);
            self.steps.set(Some(steps));
        }
    }

    /// Goes back by one step.
    pub(crate) fn back(&self) {
        if let Some(mut steps) = self.steps.take() {
            drop(steps.pop());
            self.steps.set(Some(steps));
        }
    }

    /// Goes on to the element with this index.
    pub(crate) fn to_element(&self, index: usize) {
        self.go(Step::Element(index));
    }

    /// Goes on to the attribute of this name.
    pub(crate) fn to_attribute(&self, alloc: Global, name: &str) {
        match String::from_str(alloc, name) {
            Ok(name) => self.go(Step::Attribute(name)),
            Err(_) => self.steps.set(None),
        }
    }

    /// Goes on by one step.
    pub(crate) fn go(&self, step: Step) {
        if let Some(mut steps) = self.steps.take()
            && steps.push(step).is_ok()
        {
            self.steps.set(Some(steps));
        }
    }

    /// Returns the place at the end of the trail, or the empty one if memory for it ran out.
    pub(crate) fn into_place(self) -> Place {
        match self.steps.into_inner() {
            Some(steps) => Place::of_steps(steps),
            None => Place::new(),
        }
    }

    /// Returns the place whose steps these are, the last one first.
    pub(crate) fn into_reversed_place(self) -> Place {
        match self.steps.into_inner() {
            Some(mut steps) => {
                steps.reverse();
                Place::of_steps(steps)
            }
            None => Place::new(),
        }
    }
}
