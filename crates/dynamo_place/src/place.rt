ghost use Rattle.std.specs.Prelude.{◌≡◌, [], option_map};
ghost use Rattle.std.specs.Fmt.{DisplaysOnOk};
ghost use Rattle.dynamo_place.specs.Found.{IsAt, IsPart, IsUnder, IsUnderName, steps_of};
ghost use Rattle.dynamo_place.specs.PlaceText.{further_text, further_texts, is_plain_char};
ghost use Rattle.dynamo_place.specs.PlaceText.{is_plain_name, place_text, step_text};

use crate::WithoutIndexes;
use dynamo_value::AttributeValue;
use std::alloc::Global;
use std::fmt;

/// A step of a [`Place`].
#[derive(Debug, Drop, PartialEq, Eq)]
pub enum Step {
    /// Into the attribute of this name, of an item or of an `M`.
    Attribute(String),

    /// Into the element with this index, of an `L` or of a set. The first is 0.
    Element(usize),
}

/// The way from a value to a part of it, such as `orders[3].price`.
///
/// It is printed as DynamoDB writes document paths: the names of attributes with a dot between
/// them, and the indexes of elements in brackets. A name that is empty, or has another character
/// than a letter, a digit, `_` or `-`, is printed as a string literal: `orders."unit price"`. The
/// place of the whole value is empty.
///
/// # Examples
///
/// ```rust
/// use dynamo_place::{Step, from_item_located};
/// use serde_dynamo::samples::User;
/// use serde_dynamo::{DynamoJson, Item};
///
/// let item = Item::from_json_text(alloc, r#"{"id": {"S": "a"}, "name": {"S": "b"}, "age": {"S": "42"}}"#)?;
/// let Err(error) = from_item_located::<User>(alloc, item) else {
///     anyhow::bail!("an age isn't a string");
/// };
/// assert!(rt; error.to_string(alloc)?.as_str() == "age: Expected num");
/// assert!(rt; matches!(error.place.steps(), [Step::Attribute(name)] if name.as_str() == "age"));
/// ```
#[derive(Debug, Drop, PartialEq, Eq)]
pub struct Place {
    // None for a whole value, so that `Place::new` needs no allocator.
    steps: Option<Vec<Step>>,
}

impl Place {
    /// Returns the place of a whole value. It allocates nothing.
    pub fn new() -> Place
        ensures { steps_of result ≡ [] }
    {
        Place { steps: None }
    }

    /// Returns the place at the end of these steps, of which the first goes from the whole value.
    ///
    /// # Examples
    ///
    /// ```rust
    /// use dynamo_place::{Place, Step};
    ///
    /// let steps = vec![in alloc; Step::Attribute(String::from_str(alloc, "orders")?), Step::Element(3)]?;
    /// assert!(rt; Place::of_steps(steps).to_string(alloc)?.as_str() == "orders[3]");
    /// ```
    pub fn of_steps(steps: Vec<Step>) -> Place
        ensures { steps_of result ≡ steps.items }
    {
        if steps.is_empty() {
            Place::new()
        } else {
            Place { steps: Some(steps) }
        }
    }

    /// Returns the steps, from the whole value on.
    pub fn steps(&self) -> &[Step]
        ensures { result.now ≡ steps_of self.now }
    {
        match &self.steps {
            Some(steps) => steps.as_slice(),
            None => &[],
        }
    }

    /// Returns this place as seen from a list whose element at `index` has it. If memory runs out,
    /// it is the place of the whole list.
    ///
    /// # Examples
    ///
    /// ```rust
    /// use dynamo_place::Place;
    ///
    /// let place = Place::new().in_attribute(alloc, "price").in_element(alloc, 3);
    /// assert_eq!(rt; place.in_attribute(alloc, "orders").to_string(alloc)?.as_str(), "orders[3].price");
    /// ```
    pub fn in_element(self, alloc: Global, index: usize) -> Place
        ensures { IsUnder (Step.Element index) self result }
    {
        self.under(alloc, Step::Element(index))
    }

    /// Returns this place as seen from an item or a map whose attribute of this name has it. If
    /// memory runs out, it is the place of the whole item.
    pub fn in_attribute(self, alloc: Global, name: &str) -> Place
        ensures { IsUnderName name.now self result }
    {
        match String::from_str(alloc, name) {
            Ok(name) => self.under(alloc, Step::Attribute(name)),
            Err(_) => Place::new(),
        }
    }

    fn under(self, alloc: Global, step: Step) -> Place
        ensures { IsUnder step self result }
    {
        let mut steps = match self.steps {
            Some(steps) => steps,
            None => Vec::new(alloc),
        };
        match steps.insert(0, step) {
            Ok(()) => Place::of_steps(steps),
            Err(_) => Place::new(),
        }
    }

    /// Returns what prints the place without the indexes of elements, such as `orders[].price`.
    ///
    /// # Examples
    ///
    /// ```rust
    /// use dynamo_place::Place;
    ///
    /// let place = Place::new().in_attribute(alloc, "price").in_element(alloc, 3);
    /// assert_eq!(rt; place.without_indexes().to_string(alloc)?.as_str(), "[].price");
    /// ```
    pub fn without_indexes(&self) -> WithoutIndexes<'_>
        ensures { result.place.now ≡ self.now }
    {
        WithoutIndexes { place: self }
    }

    /// Returns the part of a value at this place, or `None` if there is none. The elements of a set
    /// and the keys of a map are no attribute values, so none is found at their places.
    ///
    /// # Examples
    ///
    /// ```rust
    /// use dynamo_place::Place;
    /// use serde_dynamo::AttributeValue;
    ///
    /// let value = AttributeValue::Bool(true);
    /// assert!(rt; matches!(Place::new().find(&value), Some(AttributeValue::Bool(true))));
    /// ```
    pub fn find<'a>(&self, value: &'a AttributeValue) -> Option<&'a AttributeValue>
        ensures { IsAt (steps_of self.now) value.now (option_map (λ a. a.now) result) }
    {
        part_at(self.steps(), value)
    }
}

// The part of a value at these steps.
fn part_at<'a>(steps: &[Step], value: &'a AttributeValue) -> Option<&'a AttributeValue>
    ensures { IsAt steps.now value.now (option_map (λ a. a.now) result) }
{
    match steps {
        [] => Some(value),
        [step, rest @ ..] => part_at(rest, step.part_of(value)?),
    }
}

impl Step {
    // The part of a value at this step.
    fn part_of<'a>(&self, value: &'a AttributeValue) -> Option<&'a AttributeValue>
        ensures { IsPart self.now value.now (option_map (λ a. a.now) result) }
    {
        match (self, value) {
            (Step::Attribute(name), AttributeValue::M(map)) => map.get(name.as_str()),
            (Step::Element(index), AttributeValue::L(values)) => values.get(*index),
            _ => None,
        }
    }
}

impl fmt::Display for Place {
    ghost output = { λ place. place_text (steps_of place) };

    fn fmt<W: fmt::Write>(&self, f: &mut fmt::Formatter<W>) -> fmt::Result {
        match self.steps() {
            [] => Ok(()),
            [first, further @ ..] => {
                first.write(f)?;
                write_further(further, f)
            }
        }
    }
}

// Writes the steps after the first one.
fn write_further<W: fmt::Write>(steps: &[Step], f: &mut fmt::Formatter<W>) -> fmt::Result
    ensures { DisplaysOnOk W.write_str_gives f.old result (further_texts steps.now) f.new }
{
    for step in steps {
        step.write_further(f)?;
    }
    Ok(())
}

impl Step {
    // Writes the step as the first one.
    pub(crate) fn write<W: fmt::Write>(&self, f: &mut fmt::Formatter<W>) -> fmt::Result
        ensures { DisplaysOnOk W.write_str_gives f.old result (step_text self.now) f.new }
    {
        match self {
            Step::Attribute(name) if is_plain(name) => f.write_str(name),
            Step::Attribute(name) => write!(f, "{name:?}"),
            Step::Element(index) => write!(f, "[{index}]"),
        }
    }

    // Writes the step after another one.
    pub(crate) fn write_further<W: fmt::Write>(&self, f: &mut fmt::Formatter<W>) -> fmt::Result
        ensures { DisplaysOnOk W.write_str_gives f.old result (further_text self.now) f.new }
    {
        if matches!(self, Step::Attribute(_)) {
            f.write_str(".")?;
        }
        self.write(f)
    }
}

// Whether a name is printed as it is.
fn is_plain(name: &str) -> bool
    ensures { result ≡ is_plain_name name.now }
{
    !name.is_empty() && name.chars().all(is_plain_char)
}

fn is_plain_char(c: char) -> bool
    ensures { result ≡ is_plain_char c }
{
    c.is_alphanumeric() || c == '_' || c == '-'
}
