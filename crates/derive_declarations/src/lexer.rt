use crate::failure::{Failure, Reason, refused};
use crate::token::{Kind, Token};
use std::alloc::Global;
use std::mem;

// Where the next character falls.
#[derive(Clone, Copy)]
enum Place {
    Between,
    Word,
    Text,
    Escape,
    Slash,
    Comment,
}

// An open bracket, and its line.
#[derive(Clone, Copy)]
struct Open {
    closing: char,
    line: u32,
}

#[derive(Drop)]
struct Lexer {
    alloc: Global,
    tokens: Vec<Token>,
    open: Vec<Open>,
    place: Place,
    text: String,
    line: u32,

    // The line that the text of a token began on.
    began: u32,

    // How many characters were read, and how many before the token began.
    at: usize,
    start: usize,
}

/// Returns the tokens of the declarations, without their comments.
///
/// # Errors
///
/// Returns [`Failure::Refused`] with the line for a character that no declaration has, for brackets
/// that don't pair, and for a string that doesn't end.
///
/// Returns [`Failure::Memory`] if memory runs out.
pub fn tokens(alloc: Global, declarations: &str) -> Result<Vec<Token>, Failure> {
    let mut lexer = Lexer {
        alloc,
        tokens: Vec::new(alloc),
        open: Vec::new(alloc),
        place: Place::Between,
        text: String::new(alloc),
        line: 1,
        began: 1,
        at: 0,
        start: 0,
    };
    for c in declarations.chars() {
        lexer.read(c)?;
    }
    lexer.finish()
}

impl Lexer {
    fn read(&mut self, c: char) -> Result<(), Failure> {
        match self.place {
            Place::Between => self.read_between(c)?,
            Place::Word if is_of_word(c) => self.text.push(c)?,
            Place::Word => {
                self.end(Kind::Word, self.at)?;
                self.read_between(c)?;
            }
            Place::Text => self.read_text(c)?,
            Place::Escape => {
                self.text.push(c)?;
                self.place = Place::Text;
            }
            Place::Slash => self.read_comment(c)?,
            Place::Comment if c == '\n' => self.place = Place::Between,
            Place::Comment => {}
        }
        if c == '\n' {
            self.line = self.line.saturating_add(1);
        }
        self.at = self.at.saturating_add(1);
        Ok(())
    }

    fn read_between(&mut self, c: char) -> Result<(), Failure> {
        self.began = self.line;
        self.start = self.at;
        self.place = match c {
            ' ' | '\t' | '\r' | '\n' => Place::Between,
            '"' => Place::Text,
            '/' => Place::Slash,
            '\'' => return self.refuse(Reason::Plain("types with lifetimes are not described")),
            _ if is_of_word(c) => {
                self.text.push(c)?;
                Place::Word
            }
            _ => return self.read_mark(c),
        };
        Ok(())
    }

    fn read_mark(&mut self, c: char) -> Result<(), Failure> {
        let closing = match c {
            '(' => Some(')'),
            '[' => Some(']'),
            '{' => Some('}'),
            '<' => Some('>'),
            _ => None,
        };
        match c {
            ')' | ']' | '}' | '>' => match self.open.pop() {
                Some(open) if open.closing == c => {}
                _ => return self.refuse(Reason::Plain("this bracket closes none that is open")),
            },
            '(' | '[' | '{' | '<' | '#' | ',' | ';' | ':' | '=' | '+' | '&' | '*' | '!' | '?' => {}
            _ => return self.refuse(Reason::Character(c)),
        }
        self.text.push(c)?;
        self.end(Kind::Mark, self.at.saturating_add(1))?;
        if let Some(closing) = closing {
            let line = self.line;
            self.open.push(Open { closing, line })?;
        }
        Ok(())
    }

    fn read_text(&mut self, c: char) -> Result<(), Failure> {
        match c {
            '"' => return self.end(Kind::Text, self.at.saturating_add(1)),
            '\\' => self.place = Place::Escape,
            _ => {}
        }
        Ok(self.text.push(c)?)
    }

    fn read_comment(&mut self, c: char) -> Result<(), Failure> {
        match c {
            '/' => self.place = Place::Comment,
            '*' => return self.refuse(Reason::Plain("block comments are not read, write `//`")),
            _ => return self.refuse(Reason::Character('/')),
        }
        Ok(())
    }

    // Ends a token, whose text was read, before the character at this place.
    fn end(&mut self, kind: Kind, end: usize) -> Result<(), Failure> {
        let text = mem::replace(&mut self.text, String::new(self.alloc));
        let line = self.began;
        let depth = self.open.len();
        self.tokens.push(Token {
            kind,
            text,
            line,
            depth,
            start: self.start,
            end,
        })?;
        self.place = Place::Between;
        Ok(())
    }

    fn refuse(&self, reason: Reason) -> Result<(), Failure> {
        Err(Failure::Refused(self.line, reason))
    }

    fn finish(mut self) -> Result<Vec<Token>, Failure> {
        let at = self.at;
        match self.place {
            Place::Between | Place::Comment => {}
            Place::Word => self.end(Kind::Word, at)?,
            Place::Slash => return Err(Failure::Refused(self.line, Reason::Character('/'))),
            Place::Text | Place::Escape => {
                return Err(refused(self.began, "this text is not ended"));
            }
        }
        match self.open.pop() {
            Some(open) => Err(refused(open.line, "this bracket is not closed")),
            None => Ok(self.tokens),
        }
    }
}

fn is_of_word(c: char) -> bool {
    c == '_' || c.is_ascii_alphanumeric()
}
