//! Laws that tie the definitions together. Each is a function that does nothing, whose contract
//! states the law. A law speaks of the definitions alone, and of all data.
//!
//! Call a law in a function of yours to have it in that function's proof.
ghost use Rattle.dynamo_json.specs.AttributeBack.{TellsSome, TellsItsDatum, ViewsInOrder};
ghost use Rattle.dynamo_json.specs.AttributeBack.{EachDatumBack};
ghost use Rattle.dynamo_json.specs.AttributeBack.{ItemTellsSome, TellsItsItem, ItemViewsInOrder};
ghost use Rattle.dynamo_json.specs.AttributeBack.{EachItemDatumBack};
ghost use Rattle.dynamo_json.specs.JsonBack.{IsJson, JsonBack};
ghost use Rattle.dynamo_json.specs.Laws.{ReadsItsJson, StandsForOne, RefusesByMessage};
ghost use Rattle.dynamo_json.specs.Laws.{WritesNoFloat, HoldsTexts};
ghost use Rattle.dynamo_json.specs.Laws.{ReadsItemsExactly, StandsForOneItem};
ghost use Rattle.dynamo_json.specs.Laws.{RefusesItemsByMessage, WritesItemsWithoutFloat};
ghost use Rattle.dynamo_json.specs.Plain.{plain};
ghost use Rattle.dynamo_json.specs.Square.{InSquare, IsSquare, IsWritten};
ghost use Rattle.dynamo_ser.specs.Datum.{Datum};
ghost use Rattle.serde_json.specs.Data.{Data};
ghost use Rattle.std.specs.Prelude.{IfOk};

pub use dynamo_shape::laws::{determined, key_texts, read_back, walks};

/// DynamoDB JSON: each attribute value and each item has one JSON value, no JSON value is that of
/// two, and no other JSON value is read. An error of reading is a message.
pub fn dynamo_json()
    // A JSON value is read as an attribute value exactly if it is the JSON value of it.
    ensures exact { ReadsItsJson }
    ensures one { StandsForOne }
    ensures message { RefusesByMessage }

    // The same for items.
    ensures item_exact { ReadsItemsExactly }
    ensures item_one { StandsForOneItem }
    ensures item_message { RefusesItemsByMessage }

    // Every JSON value of a program has what the first law asks for, and no float keeps a printed
    // text from being known.
    ensures texts { HoldsTexts }
    ensures no_float { WritesNoFloat }
    ensures item_no_float { WritesItemsWithoutFloat }
{}

/// Writing directly and writing through plain JSON agree.
///
/// For each datum without byte strings, without sets and without integers that need more than 64
/// bits (such integers may be map keys), both fail with the same fault, or the plain JSON value is
/// written as the same attribute value. Every plain JSON value of a datum is written.
pub fn square()
    ensures agrees { (d : Datum) → InSquare d → IsSquare d }
    ensures written { (d : Datum) → IfOk (plain d) IsWritten }
{}

/// A JSON value without floats is written, and it is read back as itself alone. Its plain JSON is
/// itself.
pub fn json_value()
    ensures { (j : Data) → IsJson j → JsonBack j }
{}

/// Attribute values and items as values of a program, which are written and read as their DynamoDB
/// JSON: their data are written and read back as themselves alone, and their plain JSON is their
/// DynamoDB JSON.
///
/// The maps of attribute values are hashed maps, whose order nobody chooses. So the law speaks of
/// all data of an attribute value, with the entries of each map in any order.
pub fn attribute_value()
    // Each attribute value has data. If its byte strings hold bytes and its maps are in the order
    // of their keys, each of its data is written, read back, and its own DynamoDB JSON.
    ensures some { TellsSome }
    ensures back { EachDatumBack }

    // A value of a program has such a datum of its attribute value, in which no map has a key
    // twice. The maps of that attribute value are in order.
    ensures tells { TellsItsDatum }
    ensures order { ViewsInOrder }

    // The same for items.
    ensures item_some { ItemTellsSome }
    ensures item_back { EachItemDatumBack }
    ensures item_tells { TellsItsItem }
    ensures item_order { ItemViewsInOrder }
{}
