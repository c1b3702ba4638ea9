ghost use Rattle.std.specs.Prelude.{◌≡◌, Some};
ghost use Rattle.dynamo_value.specs.View.{view, members_view};
ghost use Rattle.dynamo_de.specs.Showing.{only_entry};
ghost use Rattle.dynamo_de.specs.Source.{attribute};
ghost use Rattle.dynamo_read.specs.Accesses.{enum_chosen, variant_content};

use crate::deserializer::Deserializer;
use crate::entries::single_entry;
use dynamo_de::{DeserializeSeed, EnumAccess, VariantAccess};
use dynamo_value::{AttributeValue, Error, Result};
use std::alloc::Global;
use std::collections::HashMap;

/// A variant that is a map of one entry, from its name to its content.
#[derive(Drop)]
pub struct DeserializerEnum {
    alloc: Global,
    item: HashMap<String, AttributeValue>,
}

impl DeserializerEnum {
    /// Returns the variant with the only key of this item as its name and the key's value as its
    /// content. It allocates nothing. A value that is read from it is allocated in `alloc`.
    ///
    /// If the item has no key or several, asking for the variant fails with
    /// [`ExpectedSingleKey`](dynamo_value::ErrorImpl::ExpectedSingleKey).
    pub fn from_item(alloc: Global, item: HashMap<String, AttributeValue>) -> Self
        ensures { enum_chosen result ≡ only_entry (members_view item.entries) }
    {
        DeserializerEnum { alloc, item }
    }
}

impl EnumAccess for DeserializerEnum {
    type Error = Error;

    type Variant = DeserializerVariant;

    ghost chosen = { enum_chosen };

    fn variant_seed<S: DeserializeSeed>(self, seed: S) -> Result<(S::Value, DeserializerVariant)> {
        let alloc = self.alloc;
        let (name, content) = single_entry(self.item)?;
        let name = seed.deserialize(Deserializer::from_plain_text(alloc, name))?;
        Ok((
            name,
            DeserializerVariant::from_attribute_value(alloc, content),
        ))
    }
}

/// The content of a variant, read by a [`Deserializer`]. There always is one.
#[derive(Drop)]
pub struct DeserializerVariant {
    content: Deserializer,
}

impl DeserializerVariant {
    /// Returns the content that is this attribute value. It allocates nothing. A value that is read
    /// from it is allocated in `alloc`.
    pub fn from_attribute_value(alloc: Global, value: AttributeValue) -> Self
        ensures { variant_content result ≡ Some (attribute (view value)) }
    {
        DeserializerVariant {
            content: Deserializer::from_attribute_value(alloc, value),
        }
    }
}

impl VariantAccess for DeserializerVariant {
    type Error = Error;

    type Reader = Deserializer;

    ghost content = { variant_content };

    fn unit_variant(self) -> Result<()> {
        Ok(())
    }

    fn reader(self) -> Result<Deserializer> {
        Ok(self.content)
    }
}
