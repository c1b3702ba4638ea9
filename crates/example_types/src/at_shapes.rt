//! What the three calls that read promise for a type with a shape: reading by the shape permits the
//! result, apart from out of memory. So two reads of the same value return the same.
ghost use Rattle.std.specs.Prelude.{◌≡◌, ◌⊎◌, Ok, Err, IfOk, IfErr, map};
ghost use Rattle.serde_dynamo.specs.Av as av;
ghost use Rattle.serde_dynamo.specs.Conforms.{conforms};
ghost use Rattle.serde_dynamo.specs.Datum as datum;
ghost use Rattle.serde_dynamo.specs.Fault.{out_of_memory};
ghost use Rattle.serde_dynamo.specs.Item.{item_view, items_view};
ghost use Rattle.serde_dynamo.specs.Kind.{fault_of};
ghost use Rattle.serde_dynamo.specs.Meets.{Meets};
ghost use Rattle.serde_dynamo.specs.Permits.{SameAnswer};
ghost use Rattle.serde_dynamo.specs.ReadsBack.{Permitted};
ghost use Rattle.serde_dynamo.specs.Shape as shape;
ghost use Rattle.serde_dynamo.specs.Source.{attribute};
ghost use Rattle.serde_dynamo.specs.View.{view};

use serde_dynamo::{
    AttributeValue, Item, Items, Result, Shaped, from_attribute_value, from_item, from_items,
};
use std::alloc::Global;

/// Reads a value from an attribute value.
///
/// # Errors
///
/// Returns an error that reading by the shape permits, or `OutOfMemory` if memory runs out.
pub fn value_at_shape<T: Shaped>(alloc: Global, value: AttributeValue) -> Result<T>
    ensures ok { IfOk result
        (λ v. Permitted T.about.shape (attribute (view value)) (Ok (T.tells v))) }
    ensures err { IfErr result
        (λ e. (fault_of e ≡ out_of_memory)
        ⊎ Permitted T.about.shape (attribute (view value)) (Err (fault_of e))) }
{
    let read = from_attribute_value::<T>(alloc, value)?;
    read.conforms();
    Ok(read)
}

/// Reads a value from an item.
///
/// # Errors
///
/// Returns an error that reading by the shape permits, or `OutOfMemory` if memory runs out.
pub fn item_at_shape<T: Shaped>(alloc: Global, item: Item) -> Result<T>
    ensures ok { IfOk result
        (λ v. Permitted T.about.shape (attribute (av.M (item_view item))) (Ok (T.tells v))) }
    ensures err { IfErr result
        (λ e. (fault_of e ≡ out_of_memory)
        ⊎ Permitted T.about.shape (attribute (av.M (item_view item))) (Err (fault_of e))) }
{
    let read = from_item::<T>(alloc, item)?;
    read.conforms();
    Ok(read)
}

/// Reads a list of values from a list of items.
///
/// # Errors
///
/// Returns an error that reading by the shape permits, or `OutOfMemory` if memory runs out.
pub fn items_at_shape<T: Shaped>(alloc: Global, items: Items) -> Result<Vec<T>>
    ensures ok { IfOk result
        (λ vs. Permitted (shape.list T.about.shape)
        (attribute (av.L (av.elements_of (map av.M (items_view items)))))
        (Ok (datum.seq (datum.elements_of (map T.tells vs.items))))) }
    ensures err { IfErr result
        (λ e. (fault_of e ≡ out_of_memory)
        ⊎ Permitted (shape.list T.about.shape)
        (attribute (av.L (av.elements_of (map av.M (items_view items))))) (Err (fault_of e))) }
{
    let read = from_items::<T>(alloc, items)?;
    read.conforms();
    Ok(read)
}

/// What [`from_attribute_value`] reads at a type with a shape, which conforms to the shape.
fn conforming<T: Shaped>(alloc: Global, value: AttributeValue) -> Result<T>
    ensures reads { Meets fault_of (T.reads (attribute (view value))) result }
    ensures conforms { IfOk result (λ v. conforms T.about.shape (T.about.tells v)) }
{
    let read = from_attribute_value::<T>(alloc, value)?;
    read.conforms();
    Ok(read)
}

/// Reads a value from each of two attribute values.
///
/// From attribute values that are the same by value it reads values that are the same by value, or
/// returns the same fault, apart from the messages of errors and out of memory.
pub fn read_twice<T: Shaped>(
    alloc: Global,
    first: AttributeValue,
    second: AttributeValue,
) -> (Result<T>, Result<T>)
    ensures first { Meets fault_of (T.reads (attribute (view first))) result.0 }
    ensures second { Meets fault_of (T.reads (attribute (view second))) result.1 }
    ensures same { view first ≡ view second
        → Meets fault_of (λ r. Meets fault_of (SameAnswer T.about.same r) result.1) result.0 }
{
    (conforming(alloc, first), conforming(alloc, second))
}
