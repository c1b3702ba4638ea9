ghost use Rattle.std.specs.Prelude.{◌≡◌, option_map};
ghost use Rattle.dynamo_value.specs.Prefix.{prefix_of, prefix_text};
ghost use Rattle.dynamo_value.specs.PrefixView.{prefix_view};

/// The key that names the kind of an attribute value in DynamoDB JSON, as `S` in `{"S": "Hello"}`
/// (DynamoDB's developer guide, "Data type descriptors").
///
/// # Examples
///
/// ```rust
/// use dynamo_value::Prefix;
///
/// assert!(rt; matches!(Prefix::named("BOOL"), Some(Prefix::Bool)));
/// assert!(rt; Prefix::named("bool").is_none());
/// assert_eq!(rt; Prefix::Ss.as_str(), "SS");
/// ```
#[derive(Clone, Copy, Debug, PartialEq, Eq)]
pub enum Prefix {
    /// `N`, a number.
    N,

    /// `S`, a string.
    S,

    /// `BOOL`, a boolean.
    Bool,

    /// `B`, a byte string.
    B,

    /// `NULL`, null.
    Null,

    /// `M`, a map.
    M,

    /// `L`, a list.
    L,

    /// `SS`, a set of strings.
    Ss,

    /// `NS`, a set of numbers.
    Ns,

    /// `BS`, a set of byte strings.
    Bs,
}

impl Prefix {
    /// Returns the prefix with this name, or `None`. Case matters.
    pub fn named(text: &str) -> Option<Prefix>
        ensures { option_map prefix_view result ≡ prefix_of text.now }
    {
        match text {
            "N" => Some(Prefix::N),
            "S" => Some(Prefix::S),
            "BOOL" => Some(Prefix::Bool),
            "B" => Some(Prefix::B),
            "NULL" => Some(Prefix::Null),
            "M" => Some(Prefix::M),
            "L" => Some(Prefix::L),
            "SS" => Some(Prefix::Ss),
            "NS" => Some(Prefix::Ns),
            "BS" => Some(Prefix::Bs),
            _ => None,
        }
    }

    /// Returns the name of the prefix.
    pub fn as_str(self) -> &'static str
        ensures { result.now ≡ prefix_text (prefix_view self) }
    {
        match self {
            Prefix::N => "N",
            Prefix::S => "S",
            Prefix::Bool => "BOOL",
            Prefix::B => "B",
            Prefix::Null => "NULL",
            Prefix::M => "M",
            Prefix::L => "L",
            Prefix::Ss => "SS",
            Prefix::Ns => "NS",
            Prefix::Bs => "BS",
        }
    }
}
