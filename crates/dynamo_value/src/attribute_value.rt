ghost use Rattle.std.specs.Prelude.{◌≡◌, ◌++◌, ◌∷◌, [], map, IfOk};
ghost use Rattle.std.specs.Bool.{Decides};
ghost use Rattle.std.specs.Cmp.{partial_equiv_from_equiv, on_equiv};
ghost use Rattle.dynamo_value.specs.Av as av;
ghost use Rattle.dynamo_value.specs.Equal.{av_eq, av_eq_equiv};
ghost use Rattle.dynamo_value.specs.View.{view, elements_view, members_view};

use std::alloc::AllocError;
use std::collections::HashMap;
use std::default::Emptied;

/// The value of an attribute (DynamoDB's API reference, `AttributeValue`).
///
/// Two values are equal if they have the same kind and contents: maps in any order of their
/// entries, lists and sets in order. A number is kept as its string, so `N("1")` and `N("1.0")`
/// differ. `clone` returns an equal value.
///
/// # Examples
///
/// ```rust
/// use serde_dynamo::{AttributeValue, to_attribute_value};
///
/// let age = to_attribute_value(alloc, &42u8)?;
/// assert_eq!(rt; age, AttributeValue::N(String::from_str(alloc, "42")?));
///
/// match &age {
///     AttributeValue::N(number) => assert_eq!(rt; number.as_str(), "42"),
///     other => anyhow::bail!("no number: {other:?}"),
/// }
/// ```
#[derive(Debug, Drop)]
pub enum AttributeValue {
    /// A number, kept as its string: `"N": "123.45"`. The string isn't checked.
    N(String),

    /// A string: `"S": "Hello"`.
    S(String),

    /// A boolean: `"BOOL": true`.
    Bool(bool),

    /// A byte string, which is base64 in DynamoDB JSON: `"B": "dGhpcyB0ZXh0"`.
    B(Vec<u8>),

    /// Null: `"NULL": true`. DynamoDB also accepts `"NULL": false`.
    Null(bool),

    /// A map from strings to attribute values: `"M": {"Name": {"S": "Joe"}, "Age": {"N": "35"}}`.
    M(HashMap<String, AttributeValue>),

    /// A list of attribute values: `"L": [{"S": "Cookies"}, {"N": "3.14159"}]`.
    L(Vec<AttributeValue>),

    /// A set of strings, in the order in which they were added: `"SS": ["Giraffe", "Hippo"]`.
    Ss(Vec<String>),

    /// A set of numbers, kept as their strings: `"NS": ["42.2", "-19"]`.
    Ns(Vec<String>),

    /// A set of byte strings: `"BS": ["U3Vubnk=", "UmFpbnk="]`.
    Bs(Vec<Vec<u8>>),
}

impl AttributeValue {
    /// Returns the same value with the spare capacity of its map freed.
    ///
    /// Values inside the map keep theirs. A map then takes about half as much memory, and the next
    /// insertion moves all of its entries. A value that isn't a map is returned as it is.
    ///
    /// # Examples
    ///
    /// ```rust
    /// use serde_dynamo::{AttributeValue, to_attribute_value};
    /// use std::collections::HashMap;
    ///
    /// let mut ages = HashMap::new(alloc);
    /// drop(ages.insert(String::from_str(alloc, "Arthur")?, 42u8)?);
    /// let value = to_attribute_value(alloc, &ages)?;
    /// assert_eq!(rt; value.clone()?.fitted(), value);
    /// ```
    #[inline(always)]
    pub fn fitted(self) -> AttributeValue
        ensures { view result ≡ view self }
    {
        match self {
            AttributeValue::M(mut map) => {
                fit(&mut map);
                AttributeValue::M(map)
            }
            other => other,
        }
    }
}

/// Compares kind and contents at every depth: strings and byte strings by their bytes, maps by
/// their entries in any order, lists and sets in order. A number is compared as its string, so `1`
/// and `1.0` differ.
impl PartialEq for AttributeValue {
    ghost eq = { λ a b. av_eq (view a) (view b) };

    ghost laws = { partial_equiv_from_equiv (on_equiv view av_eq_equiv) };

    fn eq(&self, other: &AttributeValue) -> bool
        ensures { Decides result (view self.now ≡ view other.now) }
    {
        same(self, other)
    }
}

impl Eq for AttributeValue {
    ghost laws = { on_equiv view av_eq_equiv };
}

/// The clone is equal. Returns [`AllocError`] if memory runs out.
impl Clone for AttributeValue {
    ghost is_clone = { λ v w. view w ≡ view v };

    fn clone(&self) -> Result<AttributeValue, AllocError> {
        copy(self)
    }
}

// Whether two values are equal. Kinds other than lists are compared in functions of their own that
// aren't inlined, so that the frame of a level stays small.
#[cycle(same)]
fn same(a: &AttributeValue, b: &AttributeValue) -> bool
    ensures { Decides result (view a.now ≡ view b.now) }
{
    match (a, b) {
        (AttributeValue::L(a), AttributeValue::L(b)) => same_lists(a, b),
        _ => same_other(a, b),
    }
}

// The same, as it is called if one of them isn't a list.
#[cycle(same)]
#[inline(never)]
fn same_other(a: &AttributeValue, b: &AttributeValue) -> bool
    ensures { Decides result (view a.now ≡ view b.now) }
{
    match (a, b) {
        (AttributeValue::N(a), AttributeValue::N(b)) => a == b,
        (AttributeValue::S(a), AttributeValue::S(b)) => a == b,
        (AttributeValue::Bool(a), AttributeValue::Bool(b)) => a == b,
        (AttributeValue::B(a), AttributeValue::B(b)) => a == b,
        (AttributeValue::Null(a), AttributeValue::Null(b)) => a == b,
        (AttributeValue::M(a), AttributeValue::M(b)) => same_maps(a, b),
        (AttributeValue::L(a), AttributeValue::L(b)) => same_lists(a, b),
        (AttributeValue::Ss(a), AttributeValue::Ss(b)) => a == b,
        (AttributeValue::Ns(a), AttributeValue::Ns(b)) => a == b,
        (AttributeValue::Bs(a), AttributeValue::Bs(b)) => a == b,
        _ => false,
    }
}

// Whether two lists have equal values in order.
#[cycle(same)]
fn same_lists(a: &Vec<AttributeValue>, b: &Vec<AttributeValue>) -> bool
    ensures { Decides result (elements_view a.now.items ≡ elements_view b.now.items) }
{
    if a.len() != b.len() {
        return false;
    }
    for (value, other) in a.iter().zip(b.iter()) {
        if !same(value, other) {
            return false;
        }
    }
    true
}

// Whether two maps have the same keys, with equal values.
#[cycle(same)]
#[inline(never)]
pub(crate) fn same_maps(
    a: &HashMap<String, AttributeValue>,
    b: &HashMap<String, AttributeValue>,
) -> bool
    ensures { Decides result (members_view a.now.entries ≡ members_view b.now.entries) }
{
    if a.len() != b.len() {
        return false;
    }
    for (key, value) in a.iter() {
        match b.get(key) {
            Some(other) => {
                if !same(value, other) {
                    return false;
                }
            }
            None => return false,
        }
    }
    true
}

// Returns an equal value. Each kind is copied in a function of its own that isn't inlined: a nested
// value is copied with a small frame for each of its levels, in which no value lies.
#[cycle(copy)]
fn copy(value: &AttributeValue) -> Result<AttributeValue, AllocError>
    ensures { IfOk result (λ v. view v ≡ view value.now) }
{
    match value {
        AttributeValue::M(_) | AttributeValue::L(_) => copy_nest(value),
        _leaf => copy_leaf(value),
    }
}

// The same, for a value that holds others. It is called for no other value.
#[cycle(copy)]
#[inline(never)]
fn copy_nest(value: &AttributeValue) -> Result<AttributeValue, AllocError>
    ensures { IfOk result (λ v. view v ≡ view value.now) }
{
    match value {
        AttributeValue::M(map) => Ok(AttributeValue::M(copy_map(map)?)),
        AttributeValue::L(list) => Ok(AttributeValue::L(copy_list(list)?)),
        leaf => copy_leaf(leaf),
    }
}

// The same, for a value that holds no others. It is called for no other value.
#[cycle(copy)]
#[inline(never)]
fn copy_leaf(value: &AttributeValue) -> Result<AttributeValue, AllocError>
    ensures { IfOk result (λ v. view v ≡ view value.now) }
{
    match value {
        AttributeValue::N(text) => Ok(AttributeValue::N(text.clone()?)),
        AttributeValue::S(text) => Ok(AttributeValue::S(text.clone()?)),
        AttributeValue::Bool(b) => Ok(AttributeValue::Bool(*b)),
        AttributeValue::B(bytes) => Ok(AttributeValue::B(Vec::from_slice(
            *bytes.allocator(),
            bytes.as_slice(),
        )?)),
        AttributeValue::Null(b) => Ok(AttributeValue::Null(*b)),
        AttributeValue::M(map) => Ok(AttributeValue::M(copy_map(map)?)),
        AttributeValue::L(list) => Ok(AttributeValue::L(copy_list(list)?)),
        AttributeValue::Ss(set) => Ok(AttributeValue::Ss(set.clone()?)),
        AttributeValue::Ns(set) => Ok(AttributeValue::Ns(set.clone()?)),
        AttributeValue::Bs(set) => Ok(AttributeValue::Bs(set.clone()?)),
    }
}

// Equal values, in order.
#[cycle(copy)]
#[inline(never)]
fn copy_list(list: &Vec<AttributeValue>) -> Result<Vec<AttributeValue>, AllocError>
    ensures { IfOk result (λ v. elements_view v.items ≡ elements_view list.now.items) }
{
    let mut copies = Vec::with_capacity(*list.allocator(), list.len())?;
    for value in list {
        push_copy(value, &mut copies)?;
    }
    Ok(copies)
}

// Pushes an equal value.
#[cycle(copy)]
#[inline(never)]
fn push_copy(value: &AttributeValue, copies: &mut Vec<AttributeValue>) -> Result<(), AllocError>
    ensures { IfOk result
        (λ _. map view copies.new.items ≡ map view copies.old.items ++ view value.now ∷ []) }
{
    match value {
        AttributeValue::L(list) => push_list(copies, copy_list(list)?),
        other => push_other(other, copies),
    }
}

// Pushes a list.
#[inline(never)]
fn push_list(copies: &mut Vec<AttributeValue>, list: Vec<AttributeValue>) -> Result<(), AllocError>
    ensures { IfOk result
        (λ _. map view copies.new.items
        ≡ map view copies.old.items ++ av.L (elements_view list.items) ∷ []) }
{
    copies.push(AttributeValue::L(list))?;
    Ok(())
}

// Pushes an equal value, as it is called for values that aren't lists.
#[cycle(copy)]
#[inline(never)]
fn push_other(value: &AttributeValue, copies: &mut Vec<AttributeValue>) -> Result<(), AllocError>
    ensures { IfOk result
        (λ _. map view copies.new.items ≡ map view copies.old.items ++ view value.now ∷ []) }
{
    copies.push(copy(value)?)?;
    Ok(())
}

// A map with the same keys and equal values.
#[cycle(copy)]
#[inline(never)]
pub(crate) fn copy_map(
    map: &HashMap<String, AttributeValue>,
) -> Result<HashMap<String, AttributeValue>, AllocError>
    ensures { IfOk result (λ m. members_view m.entries ≡ members_view map.now.entries) }
{
    let mut copies = HashMap::emptied(map)?;
    for (key, value) in map.iter() {
        let name = key.clone()?;
        drop(copies.insert(name, copy(value)?)?);
    }
    fit(&mut copies);
    Ok(copies)
}

// Frees the spare capacity of a map. It isn't inlined, so that `fitted` is small where a value is
// no map.
#[inline(never)]
fn fit(map: &mut HashMap<String, AttributeValue>)
    ensures { members_view map.new.entries ≡ members_view map.old.entries }
{
    map.shrink_to_fit();
}
