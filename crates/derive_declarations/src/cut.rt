//! The text of a file without the parts that Rattle's own compiler refuses.
use std::alloc::{AllocError, Global};

/// A part of a text that is taken out, and what comes in its place. The places count characters.
#[derive(Drop)]
pub struct Cut {
    pub start: usize,
    pub end: usize,
    pub put: String,
}

#[derive(Drop)]
struct Editor {
    alloc: Global,
    text: String,

    // The line that is being made, and whether something was taken out of it.
    line: String,
    is_cut: bool,

    // Whether blanks are passed over: something was taken out after a blank, or at the head of the
    // line.
    skips_blanks: bool,
}

/// The text with these cuts, which are in order. A line of which nothing is left goes, as do blank
/// lines at both ends and all but one of several blank lines.
///
/// # Errors
///
/// Out of memory.
pub fn cut_text(alloc: Global, text: &str, cuts: &[Cut]) -> Result<String, AllocError> {
    let mut editor = Editor {
        alloc,
        text: String::new(alloc),
        line: String::new(alloc),
        is_cut: false,
        skips_blanks: false,
    };
    let mut cuts = cuts.iter();
    let mut cut = cuts.next();
    for (at, c) in text.chars().enumerate() {
        if let Some(ended) = cut
            && ended.end <= at
            && ended.start < ended.end
        {
            cut = cuts.next();
        }
        if let Some(begun) = cut
            && begun.start == at
        {
            editor.cut(begun)?;
            if begun.start == begun.end {
                cut = cuts.next();
            }
        }
        if cut.is_none_or(|cut| at < cut.start || cut.end <= at) {
            editor.read(c)?;
        }
    }
    editor.finish()
}

impl Editor {
    fn read(&mut self, c: char) -> Result<(), AllocError> {
        if c == '\n' {
            return self.end_line();
        }
        if self.skips_blanks && (c == ' ' || c == '\t') {
            return Ok(());
        }
        self.skips_blanks = false;
        if c == '\r' {
            return Ok(());
        }
        self.line.push(c)
    }

    fn cut(&mut self, cut: &Cut) -> Result<(), AllocError> {
        self.is_cut = true;
        self.line.push_str(cut.put.as_str())?;
        self.skips_blanks = cut.put.is_empty()
            && (self.line.is_empty() || self.line.ends_with(' ') || self.line.ends_with('\t'));
        Ok(())
    }

    fn end_line(&mut self) -> Result<(), AllocError> {
        let line = self.line.trim_end();
        let is_gone = line.is_empty()
            && (self.is_cut || self.text.is_empty() || self.text.ends_with("\n\n"));
        if !is_gone {
            self.text.push_str(line)?;
            self.text.push('\n')?;
        }
        self.line = String::new(self.alloc);
        self.is_cut = false;
        self.skips_blanks = false;
        Ok(())
    }

    fn finish(mut self) -> Result<String, AllocError> {
        self.end_line()?;
        let text = self.text.trim_end();
        if text.is_empty() {
            return Ok(String::new(self.alloc));
        }
        format!(in self.alloc; "{text}\n")
    }
}
