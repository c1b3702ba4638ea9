ghost use Rattle.std.specs.Prelude.{◌≡◌};
ghost use Rattle.dynamo_value.specs.Text.{lent_text};

/// A borrowed string that is written as `S`. It takes the place of serde's `str`, which isn't a
/// type by itself here.
///
/// # Examples
///
/// ```rust
/// use serde_dynamo::{AttributeValue, Text, to_attribute_value};
///
/// let value = to_attribute_value(alloc, &Text::new("Arthur"))?;
/// assert_eq!(rt; value, AttributeValue::S(String::from_str(alloc, "Arthur")?));
/// ```
#[derive(Clone, Copy, Debug, PartialEq, Eq)]
pub struct Text<'a> {
    text: &'a str,
}

impl<'a> Text<'a> {
    /// Wraps a string.
    pub fn new(text: &'a str) -> Self
        ensures { lent_text result ≡ text.now }
    {
        Text { text }
    }

    /// Returns the string.
    pub fn as_str(&self) -> &'a str
        ensures { result.now ≡ lent_text self.now }
    {
        self.text
    }
}
