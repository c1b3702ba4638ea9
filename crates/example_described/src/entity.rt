ghost use Rattle.std.specs.Prelude.{[], ◌∷◌, ◌≡◌, Option, MatchResult, codes, refl, string_bytes};
ghost use Rattle.std.specs.declared.alloc.Global.{Global};
ghost use Rattle.std.specs.declared.string.String.{String};
ghost use Rattle.dynamo_value.specs.Fault.{out_of_memory};
ghost use Rattle.dynamo_value.specs.Kind.{fault_of};
ghost use Rattle.dynamo_shape.specs.ByValue.{SameOption};
ghost use Rattle.dynamo_record.specs.Records.{record_of, record_tells, record_reads, about_record};
ghost use Rattle.dynamo_record.specs.TaggedEnums.{tagged_of, tagged_tells, tagged_reads, about_tagged};
ghost use Rattle.dynamo_record.specs.declared.variant_list.Choice.TheVariants.{Left, Right};
ghost use Rattle.example_described.specs.declared.entity.Customer.{Customer};
ghost use Rattle.example_described.specs.declared.entity.Entity.TheVariants as is;

use dynamo_record::{
    Choice, Field, FieldList, Inner, Named, NamedFields, Nothing, Omitted, OmittedRef, Record,
    TaggedEnum, TaggedList, read_record, read_tagged, record_conforms, tagged_inner_conforms,
    tagged_struct_conforms, tagged_unit_conforms, write_record, write_tagged_inner,
    write_tagged_struct, write_tagged_unit,
};
use serde_dynamo::de::{Deserialize, Deserializer, Error};
use serde_dynamo::ser::{Serialize, Serializer};
use serde_dynamo::{AttributeValue, Shaped, reread_clear};
use serde_json::Value;
use std::alloc::Global;

/// A customer of a shop.
#[derive(Debug, Drop)]
pub struct Customer {
    pub id: String,
    pub name: String,
    pub email: Option<String>,
}

/// An item of a table that holds items of several types. The attribute `type` says of which type it
/// is.
#[derive(Debug, Drop)]
pub enum Entity {
    Customer(Customer),
    Order {
        id: String,
        customer: String,
        note: Option<String>,
    },
    Counter,
}

type CustomerFields = (
    (Field<String>, Field<String>),
    Field<Omitted<Option<String>>>,
);

impl Record for Customer {
    type Fields = CustomerFields;

    ghost about = { record_of (codes "Customer") (codes "id" ∷ codes "name" ∷ codes "email" ∷ []) (λ s. ((record { 0 = s.id }, record { 0 = s.name }), record { 0 = s.email })) ⟦<CustomerFields as FieldList>⟧.about };

    ghost named = { (refl, refl) };

    fn name() -> &'static str {
        "Customer"
    }

    fn expecting() -> &'static str {
        "struct Customer"
    }

    fn names() -> &'static [&'static str] {
        &["id", "name", "email"]
    }

    fn make(fields: CustomerFields) -> Customer {
        let ((Field(id), Field(name)), Field(email)) = fields;
        Customer { id, name, email }
    }
}

impl Serialize for Customer {
    ghost tells = { record_tells ⟦<Customer as Record>⟧.about };

    fn serialize<S: Serializer>(&self, serializer: S) -> Result<S::Ok, S::Error> {
        write_record::<Customer, _, S>(
            serializer,
            &((&self.id, &self.name), OmittedRef(&self.email)),
        )
    }
}

impl Deserialize for Customer {
    ghost reads = { record_reads ⟦<Customer as Record>⟧.about };

    fn deserialize<D: Deserializer>(alloc: Global, deserializer: D) -> Result<Customer, D::Error> {
        read_record(alloc, deserializer)
    }
}

impl Shaped for Customer {
    ghost about = { about_record ⟦<Customer as Record>⟧.about (refl, refl) };

    ghost as_told = { refl };

    ghost reads_by_shape = { λ _ _ h. h };

    fn absent<E: Error>(_alloc: Global) -> Result<Option<Customer>, E> {
        Ok(None)
    }

    fn conforms(&self) {
        record_conforms::<Customer, _>(&((&self.id, &self.name), OmittedRef(&self.email)))
    }
}

/// The fields of [`Entity::Order`].
pub struct OrderFields;

impl NamedFields for OrderFields {
    type Fields = (
        (Field<String>, Field<String>),
        Field<Omitted<Option<String>>>,
    );

    ghost names = { codes "id" ∷ codes "customer" ∷ codes "note" ∷ [] };

    ghost named = { (refl, refl) };

    fn names() -> &'static [&'static str] {
        &["id", "customer", "note"]
    }
}

type EntityVariants = Choice<Choice<Inner<Customer>, Named<OrderFields>>, Nothing>;

impl TaggedEnum for Entity {
    type Variants = EntityVariants;

    ghost about = { tagged_of (codes "type") (codes "Entity") (codes "Customer" ∷ codes "Order" ∷ codes "Counter" ∷ []) (elim [
      | is.Customer n ↦ Left (Left (record { 0 = n }))
      | is.Order id customer note ↦ Left (Right (record { 0 = ((record { 0 = id }, record { 0 = customer }), record { 0 = note }) }))
      | is.Counter ↦ Right _
    ]) ⟦<EntityVariants as TaggedList>⟧.about };

    fn tag() -> &'static str {
        "type"
    }

    fn name() -> &'static str {
        "Entity"
    }

    fn expecting() -> &'static str {
        "internally tagged enum Entity"
    }

    fn names() -> &'static [&'static str] {
        &["Customer", "Order", "Counter"]
    }

    fn make(variant: EntityVariants) -> Entity {
        match variant {
            Choice::Left(Choice::Left(Inner(n))) => Entity::Customer(n),
            Choice::Left(Choice::Right(Named(fields))) => {
                let ((Field(id), Field(customer)), Field(note)) = fields;
                Entity::Order { id, customer, note }
            }
            Choice::Right(Nothing) => Entity::Counter,
        }
    }
}

impl Serialize for Entity {
    ghost tells = { tagged_tells ⟦<Entity as TaggedEnum>⟧.about };

    fn serialize<S: Serializer>(&self, serializer: S) -> Result<S::Ok, S::Error> {
        match self {
            Entity::Customer(n) => {
                write_tagged_inner::<Entity, Customer, _, S>(
                    serializer,
                    0,
                    &((&n.id, &n.name), OmittedRef(&n.email)),
                )
            }
            Entity::Order { id, customer, note } => {
                write_tagged_struct::<Entity, OrderFields, _, S>(
                    serializer,
                    1,
                    &((id, customer), OmittedRef(note)),
                )
            }
            Entity::Counter => write_tagged_unit::<Entity, S>(serializer, 2),
        }
    }
}

impl Deserialize for Entity {
    ghost reads = { tagged_reads ⟦<Entity as TaggedEnum>⟧.about };

    fn deserialize<D: Deserializer>(alloc: Global, deserializer: D) -> Result<Entity, D::Error> {
        read_tagged(alloc, deserializer)
    }
}

impl Shaped for Entity {
    ghost about = { about_tagged ⟦<Entity as TaggedEnum>⟧.about (refl, refl, (((refl, refl), (refl, refl)), _)) };

    ghost as_told = { refl };

    ghost reads_by_shape = { λ _ _ h. h };

    fn absent<E: Error>(_alloc: Global) -> Result<Option<Entity>, E> {
        Ok(None)
    }

    fn conforms(&self) {
        match self {
            Entity::Customer(n) => {
                tagged_inner_conforms::<Entity, Customer, _>(
                    0,
                    &((&n.id, &n.name), OmittedRef(&n.email)),
                )
            }
            Entity::Order { id, customer, note } => {
                tagged_struct_conforms::<Entity, OrderFields, _>(
                    1,
                    &((id, customer), OmittedRef(note)),
                )
            }
            Entity::Counter => tagged_unit_conforms::<Entity>(2),
        }
    }
}

/// Stores an item of a table and reads it back. It returns the attribute value, its DynamoDB JSON,
/// and the item that was read, which is of the same type with the same fields.
///
/// # Errors
///
/// Returns [`OutOfMemory`](serde_dynamo::ErrorImpl::OutOfMemory) alone.
pub fn stored_entity(
    alloc: Global,
    entity: &Entity,
) -> serde_dynamo::Result<(AttributeValue, Value, Entity)>
    ensures customer { (customer : Customer) → entity.now ≡ is.Customer customer
        → MatchResult result
        (λ parts. elim parts.2 [
          | is.Customer other
              ↦ (string_bytes customer.id ≡ string_bytes other.id)
              × (string_bytes customer.name ≡ string_bytes other.name)
              × SameOption (λ a b. string_bytes a ≡ string_bytes b) customer.email other.email
          | _ ↦ ⊥
        ]) (λ e. fault_of e ≡ out_of_memory) }
    ensures order { (id customer : String Global) (note : Option (String Global))
        → entity.now ≡ is.Order id customer note
        → MatchResult result
        (λ parts. elim parts.2 [
          | is.Order other other_customer other_note
              ↦ (string_bytes id ≡ string_bytes other)
              × (string_bytes customer ≡ string_bytes other_customer)
              × SameOption (λ a b. string_bytes a ≡ string_bytes b) note other_note
          | _ ↦ ⊥
        ]) (λ e. fault_of e ≡ out_of_memory) }
    ensures counter { entity.now ≡ is.Counter
        → MatchResult result (λ parts. parts.2 ≡ is.Counter) (λ e. fault_of e ≡ out_of_memory) }
{
    reread_clear(alloc, entity)
}
