//! The request file of `aws dynamodb batch-write-item`.

ghost use Rattle.std.specs.Prelude.{◌≡◌, ◌⊎◌, Ok, IfOk, IfErr, map};
ghost use Rattle.serde_json.specs.Data.{Data};
ghost use Rattle.serde_json.specs.View.{view, items_view, members_view};
ghost use Rattle.dynamo_json.specs.Parsed.{each_in};
ghost use Rattle.dynamo_value.specs.Item.{item_view};
ghost use Rattle.dynamo_value.specs.Kind.{fault_of};
ghost use Rattle.dynamo_value.specs.Refusal.{Refused, refusal_in};
ghost use Rattle.exports.specs.Items.{IsJson, IsLackOfMemory, IsNotJson, IsRefusal};
ghost use Rattle.exports.specs.Requests as spec;
ghost use Rattle.exports.specs.Requests.{asked, asked_of_table, item_under, request_in};
ghost use Rattle.exports.specs.Requests.{requests_in, tables_in};

use crate::Fault;
use crate::line::json_of;
use crate::request_places::{place_in_request, place_in_tables};
use dynamo_json::DynamoJson;
use dynamo_place::LocatedError;
use dynamo_value::{Error, Item, Result, refusal};
use serde_json::{Map, Value};
use std::alloc::Global;

/// A put or a delete.
#[derive(Debug, Drop)]
pub enum Request {
    /// Puts an item.
    Put(Item),

    /// Deletes the item under a key, given as the key's attributes.
    Delete(Item),
}

/// The requests to one table, in the order of the file.
#[derive(Debug, Drop)]
pub struct TableRequests {
    /// The table's name.
    pub table: String,

    /// The puts and deletes.
    pub requests: Vec<Request>,
}

/// Reads a request file of `aws dynamodb batch-write-item`: the requests to each table, in the
/// order of the tables' names.
///
/// # Errors
///
/// Returns [`Fault::NotJson`] if the bytes aren't JSON.
///
/// Returns [`Fault::Form`] if the JSON isn't that of a request file, with the place in the file as
/// `Music[3].PutRequest.Item.price`, or if memory runs out.
///
/// # Examples
///
/// ```rust
/// use exports::requests_in_file;
///
/// let file = br#"{"Music": [{"PutRequest": {"Item": {"Artist": {"S": "Acme Band"}}}}]}"#;
/// let tables = requests_in_file(alloc, file)?;
/// assert!(rt; tables[0].table.as_str() == "Music");
/// assert!(rt; tables[0].requests.len() == 1);
/// ```
pub fn requests_in_file(alloc: Global, bytes: &[u8]) -> Result<Vec<TableRequests>, Fault>
    ensures ok { IfOk result
        (λ tables. (json : Data) × IsJson bytes.now json
        × (spec.requests_by_table json ≡ Ok (map asked_of_table tables.items))) }
    ensures err { IfErr result (λ fault. IsNotJson bytes.now fault ⊎ IsLackOfMemory fault
        ⊎ ((json : Data) × IsJson bytes.now json × IsRefusal (spec.requests_by_table json) fault)) }
{
    let json = json_of(alloc, bytes)?;
    match requests_by_table(alloc, &json) {
        Ok(tables) => Ok(tables),
        Err(error) => {
            let place = place_in_tables(alloc, &json, &error);
            Err(Fault::Form(LocatedError { place, error }))
        }
    }
}

/// Reads the JSON value of a request file: the requests to each table, in the order of the tables'
/// names.
///
/// # Errors
///
/// Returns an [`ErrorImpl::Message`](dynamo_value::ErrorImpl::Message) if the JSON isn't that of a
/// request file.
///
/// Returns [`ErrorImpl::OutOfMemory`](dynamo_value::ErrorImpl::OutOfMemory) if memory runs out.
pub fn requests_by_table(alloc: Global, json: &Value) -> Result<Vec<TableRequests>>
    ensures ok { IfOk result
        (λ tables. spec.requests_by_table (view json.now) ≡ Ok (map asked_of_table tables.items)) }
    ensures err { IfErr result
        (λ e. Refused (refusal_in (spec.requests_by_table (view json.now))) (fault_of e)) }
{
    match json {
        Value::Object(object) => tables(alloc, object),
        _ => Err(refusal::message(
            alloc,
            "expected an object with a list of requests for each table",
        )),
    }
}

fn tables(alloc: Global, object: &Map<String, Value>) -> Result<Vec<TableRequests>>
    ensures ok { IfOk result
        (λ tables. tables_in (members_view object.now.entries)
        ≡ Ok (map asked_of_table tables.items)) }
    ensures err { IfErr result
        (λ e. Refused (refusal_in (tables_in (members_view object.now.entries))) (fault_of e)) }
{
    let mut tables = Vec::with_capacity(alloc, object.len())?;
    for (name, json) in object.iter() {
        let requests = table_requests(alloc, json)?;
        let table = name.clone()?;
        tables.push(TableRequests { table, requests })?;
    }
    Ok(tables)
}

// The requests of a list, in order.
fn table_requests(alloc: Global, json: &Value) -> Result<Vec<Request>>
    ensures ok { IfOk result
        (λ requests. requests_in (view json.now) ≡ Ok (map asked requests.items)) }
    ensures err { IfErr result
        (λ e. Refused (refusal_in (requests_in (view json.now))) (fault_of e)) }
{
    match json {
        Value::Array(array) => each_request(alloc, array),
        _ => Err(refusal::message(alloc, "expected a list of requests")),
    }
}

fn each_request(alloc: Global, array: &Vec<Value>) -> Result<Vec<Request>>
    ensures ok { IfOk result
        (λ requests. each_in request_in (items_view array.now.items)
        ≡ Ok (map asked requests.items)) }
    ensures err { IfErr result
        (λ e. Refused (refusal_in (each_in request_in (items_view array.now.items))) (fault_of e)) }
{
    let mut requests = Vec::with_capacity(alloc, array.len())?;
    for json in array {
        requests.push(one_request(alloc, json)?)?;
    }
    Ok(requests)
}

/// Reads one request: an object with a `PutRequest` or a `DeleteRequest`.
///
/// # Errors
///
/// Returns an [`ErrorImpl::Message`](dynamo_value::ErrorImpl::Message) if the JSON isn't that of a
/// request.
///
/// Returns [`ErrorImpl::OutOfMemory`](dynamo_value::ErrorImpl::OutOfMemory) if memory runs out.
pub fn one_request(alloc: Global, json: &Value) -> Result<Request>
    ensures ok { IfOk result (λ r. request_in (view json.now) ≡ Ok (asked r)) }
    ensures err { IfErr result
        (λ e. Refused (refusal_in (request_in (view json.now))) (fault_of e)) }
{
    match (json.get("PutRequest"), json.get("DeleteRequest")) {
        (Some(put), None) => Ok(Request::Put(item_under(alloc, "Item", put)?)),
        (None, Some(delete)) => Ok(Request::Delete(item_under(alloc, "Key", delete)?)),
        _ => Err(refusal::message(
            alloc,
            "expected an object with a PutRequest or a DeleteRequest",
        )),
    }
}

/// Reads one request as [`one_request`] does, and says where an error was found.
///
/// # Errors
///
/// Returns the error of [`one_request`], with its place in the request as `PutRequest.Item.price`.
pub fn one_request_located(alloc: Global, json: &Value) -> Result<Request, LocatedError<Error>>
    ensures ok { IfOk result (λ r. request_in (view json.now) ≡ Ok (asked r)) }
    ensures err { IfErr result
        (λ e. Refused (refusal_in (request_in (view json.now))) (fault_of e.error)) }
{
    match one_request(alloc, json) {
        Ok(request) => Ok(request),
        Err(error) => {
            let place = place_in_request(alloc, json, &error);
            Err(LocatedError { place, error })
        }
    }
}

fn item_under(alloc: Global, name: &str, json: &Value) -> Result<Item>
    ensures ok { IfOk result (λ item. item_under name.now (view json.now) ≡ Ok (item_view item)) }
    ensures err { IfErr result
        (λ e. Refused (refusal_in (item_under name.now (view json.now))) (fault_of e)) }
{
    match json.get(name) {
        Some(content) => Item::from_json(alloc, content),
        None => Err(refusal::message(alloc, "a request lacks its Item or its Key")),
    }
}
