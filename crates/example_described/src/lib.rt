//! Types of several kinds that are described by the lists of their fields and variants, as a user
//! describes them: with no proof. Of each a function states that what was stored reads back: of
//! structs field by field, of an enum variant by variant.
#![tactic(auto)]

mod address;
mod code;
mod contact;
mod entity;
mod lots;
mod notice;
mod order;
mod page;
mod parcel;
mod reading;
mod roster;
mod sealed;
mod sensor;
mod settings;
mod shelf;
mod shipment;
mod side;
mod station;
mod stock;
mod ticket;
mod weight;
mod wide_40;
mod wide_40_stored;

pub use address::{Address, stored_address};
pub use code::Code;
pub use contact::{Contact, stored_contact};
pub use entity::{Customer, Entity, stored_entity};
pub use lots::{Lots, stored_lots};
pub use notice::{Notice, stored_notice};
pub use order::{Order, stored_order};
pub use page::{Page, stored_page};
pub use parcel::{Parcel, stored_parcel};
pub use reading::{Reading, stored_reading};
pub use roster::{Roster, stored_roster};
pub use sealed::Sealed;
pub use sensor::{Sensor, stored_sensor};
pub use settings::{Settings, stored_settings};
pub use shelf::{Shelf, stored_shelf};
pub use shipment::{Shipment, stored_shipment};
pub use side::Side;
pub use station::{Station, stored_station};
pub use stock::{Bay, Remark, Seal, Sku, Stock, stored_stock};
pub use ticket::{Ticket, stored_ticket};
pub use weight::Weight;
pub use wide_40::Wide40;
pub use wide_40_stored::stored_wide_40;
