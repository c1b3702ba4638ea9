ghost use Rattle.serde_json.specs.Data as json;
ghost use Rattle.serde_json.specs.View.{view, items_view, members_view};
ghost use Rattle.dynamo_de.specs.Answer.{Gives};
ghost use Rattle.dynamo_de.specs.Meets.{Meets};
ghost use Rattle.dynamo_de.specs.ReadJson.{read_json, read_scalar, read_sources, read_entries};
ghost use Rattle.dynamo_de.specs.Shows.{seen};

use super::texts::char_text;
use crate::{Deserialize, Deserializer, Error, Integer, Reader, Request, Showing};
use serde_json::{Map, Value};
use std::alloc::Global;

impl Deserialize for Value {
    ghost reads = { λ s. Gives view (read_json s) };

    fn deserialize<D: Deserializer>(alloc: Global, deserializer: D) -> Result<Value, D::Error> {
        read(alloc, deserializer)
    }
}

/// Reads what is there, by the reader's own calls: the value holds itself, so no visitor could read
/// it.
#[cycle(read)]
#[tactic(auto, using(crate::proofs::Json::json_as_shown))]
fn read<R: Reader>(alloc: Global, reader: R) -> Result<Value, R::Error>
    ensures { Meets R.Error.fault (Gives view (read_json (R.source reader))) result }
{
    match reader.show(Request::Any)? {
        Showing::Some(content) => read(alloc, content),
        Showing::Sequence(elements) => Ok(Value::Array(read_elements::<R>(alloc, elements)?)),
        Showing::Map(entries) => Ok(Value::Object(read_members::<R>(alloc, entries)?)),
        other => scalar::<R>(alloc, other),
    }
}

// The JSON value of a scalar. It isn't inlined, so that no scalar lies in the frame of a level.
#[inline(never)]
fn scalar<R: Reader>(
    alloc: Global,
    shown: Showing<R, R::Elements, R::Entries, R::Choice>,
) -> Result<Value, R::Error>
    ensures { Meets R.Error.fault
        (Gives view (read_scalar (seen R.source R.elements R.entries R.chosen shown))) result }
{
    match shown {
        Showing::Bool(v) => Ok(Value::Bool(v)),
        Showing::Integer(Integer::I8(v)) => Ok(Value::from(v)),
        Showing::Integer(Integer::I16(v)) => Ok(Value::from(v)),
        Showing::Integer(Integer::I32(v)) => Ok(Value::from(v)),
        Showing::Integer(Integer::I64(v)) => Ok(Value::from(v)),
        Showing::Integer(Integer::U8(v)) => Ok(Value::from(v)),
        Showing::Integer(Integer::U16(v)) => Ok(Value::from(v)),
        Showing::Integer(Integer::U32(v)) => Ok(Value::from(v)),
        Showing::Integer(Integer::U64(v)) => Ok(Value::from(v)),
        Showing::Char(v) => Ok(Value::String(char_text(alloc, v)?)),
        Showing::Text(v) => Ok(Value::String(v)),
        Showing::None => Ok(Value::Null),
        Showing::Unit => Ok(Value::Null),
        other => Err(other.refused(alloc, "any valid JSON value")),
    }
}

#[cycle(read)]
fn read_elements<R: Reader>(
    alloc: Global,
    mut elements: R::Elements,
) -> Result<Vec<Value>, R::Error>
    ensures { Meets R.Error.fault
        (Gives (λ v. items_view v.items) (read_sources (R.elements elements))) result }
{
    let mut items = Vec::new(alloc);
    while let Some(element) = R::next_element(&mut elements) {
        let item = read(alloc, element)?;
        if items.push(item).is_err() {
            return Err(R::Error::out_of_memory());
        }
    }
    Ok(items)
}

#[cycle(read)]
fn read_members<R: Reader>(
    alloc: Global,
    mut entries: R::Entries,
) -> Result<Map<String, Value>, R::Error>
    ensures { Meets R.Error.fault
        (Gives (λ m. members_view m.entries) (read_entries json.no_members (R.entries entries)))
        result }
{
    let mut members = Map::new(alloc);
    while let Some((key, value)) = R::next_entry(&mut entries) {
        let name = String::deserialize(alloc, key)?;
        let member = read(alloc, value)?;
        if members.insert(name, member).is_err() {
            return Err(R::Error::out_of_memory());
        }
    }
    Ok(members)
}
