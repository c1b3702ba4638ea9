ghost use Rattle.std.specs.Prelude.{◌≡◌, map, option_map, string_bytes};
ghost use Rattle.tool_commands.specs.Age.{age_of};
ghost use Rattle.tool_commands.specs.Words.{asked, command_of as command_of_texts};

/// What the arguments of the program ask for.
#[derive(Drop)]
pub enum Command<'a> {
    /// `user ID NAME AGE`: the lines of a user's item.
    User(&'a str, &'a str, u8),

    /// `check`: the compact form of DynamoDB JSON.
    Check,

    /// `dynamo`: the DynamoDB JSON of plain JSON.
    Dynamo,

    /// `plain`: the plain JSON of DynamoDB JSON.
    Plain,
}

/// Returns the command of these arguments, or `None` if they aren't a command or the age isn't one.
pub fn command_of(words: &[String]) -> Option<Command<'_>>
    ensures { option_map asked result ≡ command_of_texts (map string_bytes words.now) }
{
    match words {
        [word] if word.as_str() == "check" => Some(Command::Check),
        [word] if word.as_str() == "dynamo" => Some(Command::Dynamo),
        [word] if word.as_str() == "plain" => Some(Command::Plain),
        [word, id, name, age] if word.as_str() == "user" => {
            Some(Command::User(id.as_str(), name.as_str(), parse_age(age)?))
        }
        _ => None,
    }
}

fn parse_age(text: &str) -> Option<u8>
    ensures { result ≡ age_of text.now }
{
    text.parse::<u8>().ok()
}
