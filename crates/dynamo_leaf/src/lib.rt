//! Readers of parts of an attribute value: the keys of maps, and the elements of sets.
//!
//! | What is read | Its reader | The elements of a set |
//! |---|---|---|
//! | the key of a map | [`DeserializerMapKey`] | |
//! | an element of a set of numbers | [`DeserializerNumber`] | [`DeserializerSeqNumbers`] |
//! | an element of a set of strings | [`StringDeserializer`] | [`DeserializerSeqStrings`] |
//! | an element of a set of byte strings | [`DeserializerBytes`] | [`DeserializerSeqBytes`] |
//!
//! A [`Leaf`] is what a borrowed string holds, by [`show_key`], [`show_number`] or
//! [`show_plain_text`]. The three readers of strings are one [`TextDeserializer`], whose
//! [`TextKind`] chooses one of these functions. [`raise`] turns a leaf and its string into what a
//! reader shows. A reader of another crate can use it, too, if it implements [`LeafReader`].
//! Nothing here allocates: strings and byte strings are moved.
#![tactic(auto)]

mod bytes;
mod leaf;
mod leaf_reader;
mod nothing;
mod sequences;
mod text;
mod text_kind;
mod variant_name;

pub use bytes::DeserializerBytes;
pub use dynamo_de::is_float_text;
pub use leaf::{Leaf, NoNumber, show_key, show_number, show_plain_text};
pub use leaf_reader::{LeafReader, raise};
pub use nothing::{NoElements, NoEntries, NoVariant};
pub use sequences::{
    DeserializerSeqBytes, DeserializerSeqNumbers, DeserializerSeqStrings, DeserializerSeqTexts,
};
pub use text::{DeserializerMapKey, DeserializerNumber, StringDeserializer, TextDeserializer};
pub use text_kind::{KeyText, NumberText, PlainText, TextKind};
pub use variant_name::VariantName;
