//! Reads a line up to a limit, and skips it if it is longer.

ghost use Rattle.std.specs.Prelude.{◌≡◌, ◌≢◌, ◌≤◌, ◌↔◌, All, length, take, IfOk, Ok, IsTrue};
ghost use Rattle.std.specs.Io.KnownBytes.{Keeps};
ghost use Rattle.std.specs.IoError.{error_kind};
ghost use Rattle.exports.specs.Lines.{ReadsRest, ReadsWithin, TakesPart, TakesTooMuch, line_length};
ghost use Rattle.exports.specs.declared.bounded.Next.{Next};

use memchr::memchr;
use std::alloc::{AllocError, Global};
use std::io::{self, BufRead, ErrorKind};

// What the reader's buffer has of a line.
enum Next {
    // A part of it, which was appended. Nothing, if the reader was interrupted.
    Part,

    // Its end, or the end of the reader. Nothing was taken.
    End,

    // More than the line may have, which was taken.
    TooMuch,
}

/// Returns the bytes of the next line with its line feed, if it has at most `limit` bytes before
/// that; no bytes at the end. A longer line is skipped, and `None` is returned. At most `limit`
/// bytes and a line feed are held.
pub(crate) fn read_within<R: BufRead>(
    alloc: Global,
    reader: &mut R,
    limit: usize,
) -> io::Result<Option<Vec<u8>>>
    ensures { IfOk result (ReadsWithin limit (R.remaining reader.old) (R.remaining reader.new)) }
{
    let mut text = Vec::new(alloc);
    for _ in 0..u64::MAX {
        match take_part(reader, limit, &mut text)? {
            Next::Part => {}
            Next::End => return read_rest(reader, limit, text),
            Next::TooMuch => {
                drop(text);
                reader.skip_until(b'\n')?;
                return Ok(None);
            }
        }
    }
    Err(io::Error::from(ErrorKind::TimedOut))
}

// Takes what the reader's buffer has of a line, unless that is its end.
fn take_part<R: BufRead>(reader: &mut R, limit: usize, text: &mut Vec<u8>) -> io::Result<Next>
    ensures part { result ≡ Ok Next.Part
        → TakesPart (R.remaining reader.old) (R.remaining reader.new) text.old.items
        text.new.items }
    ensures end { result ≡ Ok Next.End
        → (text.new.items ≡ text.old.items)
        × Keeps (R.remaining reader.old) (R.remaining reader.new) }
    ensures too_much { result ≡ Ok Next.TooMuch
        → TakesTooMuch limit (R.remaining reader.old) (R.remaining reader.new) text.old.items }
{
    let at_hand = match reader.fill_buf() {
        Ok(at_hand) => at_hand,
        Err(error) if is_interrupted(&error) => return Ok(Next::Part),
        Err(error) => return Err(error),
    };
    let before = before_line_feed(at_hand);
    if before > limit.saturating_sub(text.len()) {
        reader.consume(before);
        return Ok(Next::TooMuch);
    }
    make_room(text, before.saturating_add(1), limit)?;
    if before < at_hand.len() || at_hand.is_empty() {
        return Ok(Next::End);
    }
    text.extend_from_slice(at_hand)?;
    reader.consume(before);
    Ok(Next::Part)
}

// Reads the rest of a line whose beginning is `text`, which has no line feed.
fn read_rest<R: BufRead>(reader: &mut R, limit: usize, text: Vec<u8>) -> io::Result<Option<Vec<u8>>>
    ensures { IfOk result
        (ReadsRest limit text.items (R.remaining reader.old) (R.remaining reader.new)) }
{
    let mut text = text;
    reader.read_until(b'\n', &mut text)?;
    Ok(if len_of(text.as_slice()) > limit {
        None
    } else {
        Some(text)
    })
}

// Returns how many bytes a line has, without its line feed.
fn len_of(line: &[u8]) -> usize
    ensures { result ≡ line_length line.now }
{
    match line.last() {
        Some(b'\n') => line.len() - 1,
        _ => line.len(),
    }
}

// Returns how many bytes are before the first line feed: all, if there is none.
fn before_line_feed(bytes: &[u8]) -> usize
    ensures bound { result ≤ length bytes.now }
    ensures none { All (λ x. x ≢ 10) (take result bytes.now) }
{
    memchr(b'\n', bytes).unwrap_or(bytes.len())
}

// Reserves room for `more` bytes. It doubles the room as long as the line may have that many bytes.
fn make_room(text: &mut Vec<u8>, more: usize, limit: usize) -> Result<(), AllocError>
    ensures { text.new.items ≡ text.old.items }
{
    if text.capacity().saturating_sub(text.len()) >= more {
        return Ok(());
    }
    let most = limit.saturating_add(1).saturating_sub(text.len());
    text.reserve_exact(more.max(text.len().min(most)))
}

fn is_interrupted(error: &io::Error) -> bool
    ensures { IsTrue result ↔ (error_kind error.now ≡ ErrorKind.Interrupted) }
{
    error.kind() == ErrorKind::Interrupted
}
