ghost use Rattle.std.specs.Prelude.{◌≡◌, ◌++◌, MatchResult, option_map, string_bytes};
ghost use Rattle.std.specs.Result.{result_map_both};
ghost use Rattle.std.specs.HashMap.{get_by_text};
ghost use Rattle.dynamo_value.specs.Item.{map_of};
ghost use Rattle.dynamo_value.specs.View.{view};
ghost use Rattle.tool_commands.specs.Failed.{reason};
ghost use Rattle.tool_commands.specs.Lines.{line_at};
ghost use Rattle.tool_commands.specs.Runs.{AnswersUser};
ghost use Rattle.tool_commands.specs.User.{user_told};

use crate::failure::Failure;
use dynamo_ser::{Serialize, SerializeStruct, Serializer};
use dynamo_value::{AttributeValue, Item};
use dynamo_write::to_item;
use std::alloc::{AllocError, Global};
use std::fmt::Write;

/// A user of some service.
#[derive(Drop)]
struct User {
    id: String,
    name: String,
    age: u8,
}

impl Serialize for User {
    ghost tells = { user_told };

    fn serialize<S: Serializer>(&self, serializer: S) -> Result<S::Ok, S::Error> {
        let mut state = serializer.serialize_struct("User", 3)?;
        state.serialize_field("id", &self.id)?;
        state.serialize_field("name", &self.name)?;
        state.serialize_field("age", &self.age)?;
        state.end()
    }
}

/// Returns the lines of a user's item, in the order of the names of its fields.
///
/// # Errors
///
/// Returns [`Failure::Fault`] if memory runs out.
pub fn user_lines(alloc: Global, id: &str, name: &str, age: u8) -> Result<String, Failure>
    ensures { AnswersUser id.now name.now age (result_map_both string_bytes reason result) }
{
    let user = User {
        id: String::from_str(alloc, id)?,
        name: String::from_str(alloc, name)?,
        age,
    };
    let item = to_item(alloc, user)?;
    let mut lines = String::new(alloc);
    push_line(&mut lines, &item, "age")?;
    push_line(&mut lines, &item, "id")?;
    push_line(&mut lines, &item, "name")?;
    Ok(lines)
}

// The line of a field: its name, its kind and its string.
fn push_line(text: &mut String, item: &Item, name: &str) -> Result<(), AllocError>
    ensures { MatchResult result
        (λ _. string_bytes text.new
        ≡ string_bytes text.old
        ++ line_at name.now (option_map view (get_by_text (map_of item.now) name.now)))
        (λ _. Unit {0}) }
{
    match item.get(name) {
        Some(AttributeValue::N(n)) => writeln!(text, "{name} N {n}")?,
        Some(AttributeValue::S(s)) => writeln!(text, "{name} S {s}")?,
        _ => {}
    }
    Ok(())
}
