ghost use Rattle.std.specs.Prelude.{◌≡◌, ◌⊎◌, ⊤, Result, Err, IfErr, IfOk, MatchResult};
ghost use Rattle.dynamo_value.specs.Av as av;
ghost use Rattle.dynamo_value.specs.Fault.{Fault, out_of_memory};
ghost use Rattle.dynamo_value.specs.Item.{item_view};
ghost use Rattle.dynamo_value.specs.Kind.{fault_of};
ghost use Rattle.dynamo_value.specs.declared.item.Item.{Item};
ghost use Rattle.dynamo_de.specs.Meets.{Meets};
ghost use Rattle.dynamo_de.specs.Source.{attribute};
ghost use Rattle.dynamo_write.specs.Written.{item_written};
ghost use Rattle.dynamo_shape.specs.Clear.{Clear};
ghost use Rattle.table_typed.specs.Written.{IsItemOf};

use crate::item::{item_of, value_from, value_of};
use dynamo_place::{LocatedError, Place, from_item_ref_located};
use dynamo_record::Shaped;
use dynamo_value::{Error, Item, Result};
use std::alloc::Global;

/// A type whose values are written as items and read from items.
///
/// Every [`Shaped`] type is one. If its shape is clear, its values read back the same. A type that
/// derives serde's traits becomes one by two methods that call `dynamo_serde`, and by a third one
/// if errors should have places. Nothing is promised of what they write and read.
///
/// # Examples
///
/// ```rust
/// use serde::{Deserialize, Serialize};
/// use serde_dynamo::{Error, Item, LocatedError, Result};
/// use std::alloc::Global;
/// use table_typed::AsItem;
///
/// #[derive(Drop, Serialize, Deserialize)]
/// struct Order {
///     id: u64,
/// }
///
/// impl AsItem for Order {
///     fn to_item(&self, alloc: Global) -> Result<Item> {
///         dynamo_serde::to_item(alloc, self)
///     }
///
///     fn read_item(alloc: Global, item: &Item) -> Result<Order> {
///         dynamo_serde::read_item(alloc, item)
///     }
///
///     fn read_item_located(alloc: Global, item: &Item) -> Result<Order, LocatedError<Error>> {
///         dynamo_serde::read_item_located(alloc, item)
///     }
/// }
///
/// let item = Order { id: 7 }.to_item(alloc)?;
/// assert_eq!(rt; Order::from_item(alloc, item)?.id, 7);
/// ```
pub trait AsItem: Sized + Drop {
    // Whether an item is one that the value is written as.
    ghost written: { Self → Item → Type 0 } = { λ _ _. ⊤ };

    // The faults that writing a value may have, apart from out of memory.
    ghost unwritten: { Self → Fault → Type 0 } = { λ _ _. ⊤ };

    // The results that reading an item may have: values or faults.
    ghost reads_item: { Item → Result Self Fault → Type 0 } = { λ _ _. ⊤ };

    // Whether it is promised that a value that was written reads back the same.
    ghost reads_back: { Type 0 } = { ⊥ };

    // Whether two values are the same.
    ghost alike: { Self → Self → Type 0 } = { λ _ _. ⊤ };

    /// Returns the item of the value.
    ///
    /// # Errors
    ///
    /// Returns the error of writing the value as an item.
    ///
    /// Returns [`ErrorImpl::OutOfMemory`](dynamo_value::ErrorImpl::OutOfMemory) if memory runs out.
    fn to_item(&self, alloc: Global) -> Result<Item>
        ensures ok { IfOk result (written self.now) }
        ensures err { IfErr result
            (λ e. unwritten self.now (fault_of e) ⊎ (fault_of e ≡ out_of_memory)) };

    /// Reads a value from a borrowed item.
    ///
    /// # Errors
    ///
    /// Returns the error of reading the item.
    ///
    /// Returns [`ErrorImpl::OutOfMemory`](dynamo_value::ErrorImpl::OutOfMemory) if memory runs out.
    fn read_item(alloc: Global, item: &Item) -> Result<Self>
        ensures read { Meets fault_of (reads_item item.now) result }
        ensures clear { reads_back → (value : Self) → written value item.now
            → MatchResult result (alike value) (λ e. fault_of e ≡ out_of_memory) };

    /// Reads a value from a borrowed item as [`read_item`](Self::read_item) does, and says where an
    /// error was found. Unless the type has a method of its own, that is the whole item.
    ///
    /// # Errors
    ///
    /// Returns an error that [`read_item`](Self::read_item) may return, with its place in the item.
    fn read_item_located(alloc: Global, item: &Item) -> Result<Self, LocatedError<Error>>
        ensures { Meets (λ e. fault_of e.error) (reads_item item.now) result }
    {
        match Self::read_item(alloc, item) {
            Ok(value) => Ok(value),
            Err(error) => Err(LocatedError {
                place: Place::new(),
                error,
            }),
        }
    }

    /// Reads a value from an item, as [`read_item`](Self::read_item) does. It may move parts of the
    /// item.
    ///
    /// # Errors
    ///
    /// Returns the error of [`read_item`](Self::read_item).
    fn from_item(alloc: Global, item: Item) -> Result<Self>
        ensures read { Meets fault_of (reads_item item) result }
        ensures clear { reads_back → (value : Self) → written value item
            → MatchResult result (alike value) (λ e. fault_of e ≡ out_of_memory) }
    {
        Self::read_item(alloc, &item)
    }
}

impl<T: Shaped> AsItem for T {
    ghost written = { IsItemOf T.about.shape T.tells };

    ghost unwritten = { λ value fault. item_written (T.tells value) ≡ Err fault };

    ghost reads_item = { λ item. T.reads (attribute (av.M (item_view item))) };

    ghost reads_back = { Clear T.about.shape };

    ghost alike = { T.about.same };

    fn to_item(&self, alloc: Global) -> Result<Item> {
        item_of(alloc, self)
    }

    fn read_item(alloc: Global, item: &Item) -> Result<T> {
        value_of(alloc, item)
    }

    fn read_item_located(alloc: Global, item: &Item) -> Result<T, LocatedError<Error>> {
        from_item_ref_located(alloc, item)
    }

    fn from_item(alloc: Global, item: Item) -> Result<T> {
        value_from(alloc, item)
    }
}
