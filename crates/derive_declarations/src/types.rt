//! Which types a field of a described type may have.
use crate::failure::{Failure, Reason};
use crate::parts::{bracketed, parts};
use crate::token::Token;
use std::alloc::Global;

// Types and parts of types that no field has: those that DynamoDB's values don't hold, and those
// that a description doesn't read.
const REFUSED: &str = "f32 f64 usize isize str AttributeValue IndexMap IndexSet VecDeque \
    LinkedList BinaryHeap Rc Arc Cow RefCell Mutex RwLock PhantomData SystemTime PathBuf OsString \
    CString dyn impl fn";

/// Checks that a field of a described type can have this type.
///
/// # Errors
///
/// Returns [`Failure::Refused`] with the line and the part of the type that is refused.
///
/// Returns [`Failure::Memory`] if memory runs out.
pub fn refuse_type(alloc: Global, tokens: &[Token]) -> Result<(), Failure> {
    for (at, token) in tokens.iter().enumerate() {
        let is_mark = token.is("&") || token.is("*") || token.is("!") || token.is("[");
        let is_word = token.is_word() && REFUSED.split(' ').any(|name| token.is(name));
        if is_mark || is_word || is_other_tuple(alloc, &tokens[at..])? {
            let text = String::from_str(alloc, token.text.as_str())?;
            return Err(Failure::Refused(token.line, Reason::FieldType(text)));
        }
    }
    Ok(())
}

// Whether the list begins with a tuple of one type, or of more than four.
fn is_other_tuple(alloc: Global, tokens: &[Token]) -> Result<bool, Failure> {
    let Some((inside, _)) = bracketed(tokens, "(") else {
        return Ok(false);
    };
    let count = parts(alloc, inside)?.len();
    let ends_in_comma = inside.last().is_some_and(|token| token.is(","));
    Ok(count > 4 || count == 1 && ends_in_comma)
}
