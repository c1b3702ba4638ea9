ghost use Rattle.std.specs.Prelude.{◌≡◌};
ghost use Rattle.dynamo_value.specs.Bytes.{octets_of, lent_octets};

/// A borrowed byte string that is written as `B`. A `Vec<u8>` is written as a list of numbers, as
/// in serde.
///
/// # Examples
///
/// ```rust
/// use serde_dynamo::{AttributeValue, Bytes, to_attribute_value};
///
/// let value = to_attribute_value(alloc, &Bytes::new(&[1, 2]))?;
/// assert_eq!(rt; value, AttributeValue::B(Vec::from_slice(alloc, &[1, 2])?));
/// ```
#[derive(Clone, Copy, Debug, PartialEq, Eq)]
pub struct Bytes<'a> {
    slice: &'a [u8],
}

impl<'a> Bytes<'a> {
    /// Wraps bytes.
    pub fn new(slice: &'a [u8]) -> Self
        ensures { lent_octets result ≡ slice.now }
    {
        Bytes { slice }
    }

    /// Returns the bytes.
    pub fn as_slice(&self) -> &'a [u8]
        ensures { result.now ≡ lent_octets self.now }
    {
        self.slice
    }
}

/// A byte string that owns its bytes. It is written as `B` and read from `B`.
///
/// # Examples
///
/// ```rust
/// use serde_dynamo::{AttributeValue, ByteBuf, from_attribute_value, to_attribute_value};
///
/// let key = ByteBuf::from(Vec::from_slice(alloc, &[1, 2])?);
/// let value = to_attribute_value(alloc, &key)?;
/// assert!(rt; matches!(value, AttributeValue::B(_)));
///
/// let back: ByteBuf = from_attribute_value(alloc, value)?;
/// assert_eq!(rt; back.as_slice(), [1, 2].as_slice());
/// ```
#[derive(Debug, Drop, PartialEq, Eq, PartialOrd, Ord, Hash)]
pub struct ByteBuf {
    bytes: Vec<u8>,
}

/// Takes the bytes of the `Vec`.
impl From<Vec<u8>> for ByteBuf {
    ghost from_gives = { λ v b. octets_of b ≡ v.items };

    fn from(bytes: Vec<u8>) -> ByteBuf {
        ByteBuf { bytes }
    }
}

impl ByteBuf {
    /// Returns the bytes.
    pub fn as_slice(&self) -> &[u8]
        ensures { result.now ≡ octets_of self.now }
    {
        self.bytes.as_slice()
    }

    /// Returns the bytes and consumes the byte string.
    pub fn into_vec(self) -> Vec<u8>
        ensures { result.items ≡ octets_of self }
    {
        self.bytes
    }
}
