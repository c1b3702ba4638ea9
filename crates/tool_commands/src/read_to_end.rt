ghost use Rattle.std.specs.Prelude.{◌≡◌, ◌↔◌, IsTrue};
ghost use Rattle.std.specs.IoError.{error_kind};
ghost use Rattle.std.specs.Result.{result_map_both};
ghost use Rattle.tool_commands.specs.Failed.{reason};
ghost use Rattle.tool_commands.specs.Reading.{Reads, calls};

use crate::failure::Failure;
use crate::input::Input;
use std::alloc::Global;
use std::io::{self, ErrorKind};

// Nothing says that an input ends.
const CALLS: u32 = 1_048_576;

const ROOM: usize = 65_536;

/// Reads the input to its end, by at most 1,048,576 calls. An interrupted call is repeated, and
/// counts.
///
/// # Errors
///
/// Returns [`Failure::Read`] if a call fails or the calls are used up, and [`Failure::Fault`] if
/// memory runs out.
pub fn read_to_end<R: Input>(alloc: Global, reader: &mut R) -> Result<Vec<u8>, Failure>
    ensures { Reads R.read_gives calls reader.old (result_map_both (λ v. v.items) reason result)
        reader.new }
{
    let mut room = [0; ROOM];
    let mut bytes = Vec::new(alloc);
    for _ in 0..CALLS {
        match reader.read(&mut room) {
            Ok(0) => return Ok(bytes),
            Ok(n) => bytes.extend_from_slice(&room[..n])?,
            Err(error) if is_interrupted(&error) => {}
            Err(_) => return Err(Failure::Read),
        }
    }
    Err(Failure::Read)
}

fn is_interrupted(error: &io::Error) -> bool
    ensures { IsTrue result ↔ (error_kind error.now ≡ ErrorKind.Interrupted) }
{
    error.kind() == ErrorKind::Interrupted
}
