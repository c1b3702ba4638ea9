ghost use Rattle.dynamo_de.specs.Answer.{Gives};
ghost use Rattle.dynamo_de.specs.Meets.{Meets};
ghost use Rattle.dynamo_de.specs.Reading as reading;
ghost use Rattle.dynamo_de.specs.Source.{Text};
ghost use Rattle.dynamo_record.specs.Newtypes.{ReadsUnitStruct};

use dynamo_de::{Deserializer, Reader, Request, Showing};
use std::alloc::Global;

/// Reads a unit struct.
fn read_unit<R: Reader>(alloc: Global, reader: R) -> Result<(), R::Error>
    ensures { Meets R.Error.fault (Gives (λ u. u) (reading.read_unit_struct (R.source reader)))
        result }
{
    match reader.surface(Request::UnitStruct)? {
        Showing::Unit => Ok(()),
        other => Err(other.refused(alloc, "unit struct")),
    }
}

/// Reads a unit struct with this name.
///
/// # Errors
///
/// Returns an error if the data aren't a unit struct, or if memory runs out.
pub fn read_unit_struct<D: Deserializer>(
    alloc: Global,
    deserializer: D,
    _name: &'static str,
) -> Result<(), D::Error>
    ensures { (own : Text)
        → Meets D.Error.fault (ReadsUnitStruct own (D.source deserializer)) result }
{
    read_unit(alloc, deserializer)
}
