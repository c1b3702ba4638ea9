//! Laws that tie the definitions together. Each is a function that does nothing, and its contract
//! is the law.
ghost use Rattle.std.specs.Prelude.{◌≡◌, ℕ, ℤ, List, Ok};
ghost use Rattle.std.specs.Cmp.Lexicographic.{slice_cmp};
ghost use Rattle.std.specs.Ordering.{nat_cmp, int_cmp, ordering_then};
ghost use Rattle.std.specs.declared.cmp.Ordering.TheVariants.{Equal};
ghost use Rattle.dynamo_value.specs.View.{text_cmp};
ghost use Rattle.dynamo_value.specs.declared.item.Item.{Item};
ghost use Rattle.table_keys.specs.Held.{IsHeldKey};
ghost use Rattle.table_keys.specs.KeyBytes.{IsKeyBytes, IsValueBytes};
ghost use Rattle.table_keys.specs.KeyOf.{ReadsKey};
ghost use Rattle.table_keys.specs.KeyOrder.{key_cmp, value_cmp};
ghost use Rattle.table_keys.specs.NumberBytes.{IsBytesOf};
ghost use Rattle.table_keys.specs.Numbers.{IsNumber};
ghost use Rattle.table_keys.specs.declared.bytes.KeyBytes.{KeyBytes};
ghost use Rattle.table_keys.specs.declared.key.Key.{Key};
ghost use Rattle.table_keys.specs.declared.key.KeyValue.{KeyValue};
ghost use Rattle.table_keys.specs.declared.schema.KeySchema.{KeySchema};

/// An item has one key, so an item that is put is found under each key that is read from it.
///
/// A key that is equal to the item's key is the item's too, and DynamoDB keeps its values if it
/// keeps those of the other. A string says at most one number.
pub fn one_key()
    ensures key { (schema : KeySchema) (item : Item) (key other : Key)
        → ReadsKey schema item (Ok key)
        → ReadsKey schema item (Ok other)
        → key_cmp key other ≡ Equal }
    ensures equal { (schema : KeySchema) (item : Item) (key other : Key)
        → ReadsKey schema item (Ok key)
        → key_cmp other key ≡ Equal
        → ReadsKey schema item (Ok other) }
    ensures held { (key other : Key) → IsHeldKey key → key_cmp other key ≡ Equal → IsHeldKey other }
    ensures number { (text : List ℕ) (y z : ℤ) → IsNumber text y → IsNumber text z → y ≡ z }
{}

/// The bytes of numbers are in the order of the numbers, so a database that sorts rows by their
/// bytes sorts them by their numbers.
pub fn number_bytes_in_order()
    ensures { (a b : ℤ) (x y : List ℕ) → IsBytesOf a x → IsBytesOf b y
        → slice_cmp nat_cmp x y ≡ int_cmp a b }
{}

/// The bytes of keys are in the order of the keys, so a database that sorts rows by their two byte
/// strings sorts them as DynamoDB sorts their keys.
pub fn bytes_in_order()
    ensures values { (a b : KeyValue) (x y : List ℕ) → IsValueBytes a x → IsValueBytes b y
        → text_cmp x y ≡ value_cmp a b }
    ensures keys { (a b : Key) (x y : KeyBytes) → IsKeyBytes a x → IsKeyBytes b y
        → ordering_then (text_cmp x.partition.items y.partition.items)
        (text_cmp x.sort.items y.sort.items)
        ≡ key_cmp a b }
{}

/// Equal values have the same bytes, so a row is found by the bytes of its key.
pub fn same_bytes()
    ensures { (a b : KeyValue) (x y : List ℕ) → IsValueBytes a x → IsValueBytes b y
        → value_cmp a b ≡ Equal
        → x ≡ y }
{}
