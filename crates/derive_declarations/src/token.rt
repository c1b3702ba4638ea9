/// What a token is.
#[derive(Clone, Copy, PartialEq, Eq)]
pub enum Kind {
    /// A name, a keyword or a number.
    Word,

    /// The characters between the quotes of a string.
    Text,

    /// A single mark, as a bracket or a comma.
    Mark,
}

/// A token, its line, and how many brackets are open around it. Angle brackets count.
#[derive(Drop)]
pub struct Token {
    pub kind: Kind,
    pub text: String,
    pub line: u32,
    pub depth: usize,

    /// How many characters come before it.
    pub start: usize,

    /// How many characters come before what follows it.
    pub end: usize,
}

impl Token {
    /// Whether this is the word or the mark.
    pub fn is(&self, word: &str) -> bool {
        self.kind != Kind::Text && self.text.as_str() == word
    }

    pub fn is_word(&self) -> bool {
        self.kind == Kind::Word
    }
}
