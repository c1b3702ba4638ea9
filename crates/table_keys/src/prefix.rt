//! The end of the values that begin with a prefix.
ghost use Rattle.std.specs.List.{All};
ghost use Rattle.std.specs.Prelude.{◌≡◌, IfOk, IsUtf8, option_map, string_bytes};
ghost use Rattle.table_keys.specs.Held.{IsByte};
ghost use Rattle.table_keys.specs.Prefixes.{BeginsUpTo, IsNextChar};

use std::alloc::AllocError;

/// Returns the least string above all that begin with the prefix, or `None` if each character of
/// the prefix is U+10FFFF.
///
/// Strings compare by their bytes, which is by their characters.
///
/// # Errors
///
/// Returns [`AllocError`] if memory runs out.
pub(crate) fn text_past(prefix: &String) -> Result<Option<String>, AllocError>
    ensures { IfOk result
        (λ past. BeginsUpTo IsUtf8 (string_bytes prefix.now) (option_map string_bytes past)) }
{
    let mut text = prefix.clone()?;
    while let Some(last) = text.pop() {
        if let Some(next) = char_after(last) {
            text.push(next)?;
            return Ok(Some(text));
        }
    }
    Ok(None)
}

/// Returns the least byte string above all that begin with the prefix, or `None` if each byte of
/// the prefix is 255.
///
/// # Errors
///
/// Returns [`AllocError`] if memory runs out.
pub(crate) fn bytes_past(prefix: &Vec<u8>) -> Result<Option<Vec<u8>>, AllocError>
    ensures { IfOk result
        (λ past. BeginsUpTo (All IsByte) prefix.now.items (option_map (λ b. b.items) past)) }
{
    let mut bytes = Vec::from_slice(*prefix.allocator(), prefix.as_slice())?;
    while let Some(last) = bytes.pop() {
        if last < u8::MAX {
            bytes.push(last + 1)?;
            return Ok(Some(bytes));
        }
    }
    Ok(None)
}

// The next character, or `None` after the last. No character is a surrogate.
fn char_after(char: char) -> Option<char>
    ensures { IsNextChar char result }
{
    match char {
        '\u{D7FF}' => Some('\u{E000}'),
        _ => char::from_u32(u32::from(char) + 1),
    }
}
