ghost use Rattle.std.specs.Prelude.{◌≡◌, ◌⊎◌, ℕ, List, [], None, Ok, Err, MatchResult, OnOk};
ghost use Rattle.std.specs.Prelude.{option_map, string_bytes};
ghost use Rattle.std.specs.FinMap.Entries.{put};
ghost use Rattle.dynamo_value.specs.Fault.{out_of_memory};
ghost use Rattle.dynamo_value.specs.Kind.{fault_of};
ghost use Rattle.dynamo_value.specs.View.{text_cmp};
ghost use Rattle.dynamo_ser.specs.Datum.{Datum};
ghost use Rattle.dynamo_write.specs.Held.{held_entries, fields_of};
ghost use Rattle.dynamo_write.specs.Target.{AboutTarget, GivesList, GivesMap, GivesStruct};
ghost use Rattle.dynamo_write.specs.Target.{GivesWholeList, map_of, one_member, parts_before};

use crate::fields;
use dynamo_ser::{
    ListBuilder, Outcomes, SerializeMap, SerializeSeq, SerializeStruct, SerializeStructVariant,
    SerializeTuple, SerializeTupleStruct, SerializeTupleVariant, StructBuilder,
};
use dynamo_value::{Error, Result};
use std::alloc::Global;

/// A serializer that makes lists and maps of some type of values.
///
/// To write such a serializer, implement these few functions. Its builders come with them:
/// [`ListOf`](crate::ListOf) for sequences, tuples and tuple structs, [`MapOf`](crate::MapOf) for
/// maps and [`StructOf`](crate::StructOf) for structs. [`TupleVariantOf`](crate::TupleVariantOf)
/// and [`StructVariantOf`](crate::StructVariantOf) make a map of one entry, from the variant's name
/// to its content.
pub trait Target: Outcomes<Error = Error> {
    ghost use Rattle.std.specs.declared.alloc.Global.{Global};
    ghost use Rattle.dynamo_value.specs.declared.error.Error.{Error};

    /// A map under construction.
    type Map: Drop;

    // How contracts see the values, and what data are written as.
    ghost about: { AboutTarget Self.Ok };

    // The entries of a map, in the order of their keys.
    ghost members: { Self.Map → List (List ℕ × about.Seen) };

    // The serializer of an allocator.
    ghost over: { Global → Self };

    /// Returns the serializer whose values are allocated in `alloc`.
    fn over(alloc: Global) -> Self
        ensures { result ≡ over alloc };

    /// Returns an equal value to put into a list. It may take less memory.
    fn kept(value: Self::Ok) -> Self::Ok
        ensures { about.seen result ≡ about.seen value };

    /// Returns the list of these values.
    fn list(values: Vec<Self::Ok>) -> Self::Ok
        ensures { about.seen result ≡ about.list (parts_before about values.items about.no_parts) };

    /// Returns an empty map. It allocates nothing.
    fn no_members(alloc: Global) -> Self::Map
        ensures { members result ≡ [] };

    /// Makes room in a map for so many more entries, if the type of map has it. It allocates nothing
    /// for none.
    ///
    /// # Errors
    ///
    /// Returns [`ErrorImpl::OutOfMemory`](dynamo_value::ErrorImpl::OutOfMemory) if memory runs out.
    /// The entries stay.
    fn reserve(map: &mut Self::Map, _additional: usize) -> Result<()>
        ensures entries { members map.new ≡ members map.old }
        ensures err { MatchResult result (λ _. Unit {0}) (λ e. fault_of e ≡ out_of_memory) }
    {
        Ok(())
    }

    /// Inserts an entry. It replaces the value of an equal key.
    ///
    /// # Errors
    ///
    /// Returns [`ErrorImpl::OutOfMemory`](dynamo_value::ErrorImpl::OutOfMemory) if memory runs out.
    fn insert(map: &mut Self::Map, key: String, value: Self::Ok) -> Result<()>
        ensures ok { OnOk result
            (members map.new
            ≡ put text_cmp (string_bytes key) (about.seen value) (members map.old)) }
        ensures err { MatchResult result (λ _. Unit {0}) (λ e. fault_of e ≡ out_of_memory) };

    /// Returns the value that is this map.
    fn map(map: Self::Map) -> Self::Ok
        ensures { about.seen result ≡ about.map (members map) };

    /// Returns the map of these entries. If keys are equal, the last value counts.
    ///
    /// # Errors
    ///
    /// Returns [`ErrorImpl::OutOfMemory`](dynamo_value::ErrorImpl::OutOfMemory) if memory runs out.
    final fn map_of_entries(alloc: Global, entries: Vec<(String, Self::Ok)>) -> Result<Self::Ok>
        ensures { MatchResult result
            (λ v. Self.about.seen v
            ≡ map_of Self.about (held_entries Self.about.seen entries.items))
            (λ e. fault_of e ≡ out_of_memory) }
    {
        let mut map = Self::no_members(alloc);
        for (key, value) in entries {
            Self::insert(&mut map, key, value)?;
        }
        Ok(Self::map(map))
    }

    /// Returns the map of a struct's fields. If names are equal, the last value counts. The map is
    /// made with room for the fields.
    ///
    /// # Errors
    ///
    /// Returns [`ErrorImpl::OutOfMemory`](dynamo_value::ErrorImpl::OutOfMemory) if memory runs out.
    final fn map_of_fields(alloc: Global, fields: Vec<(&'static str, Self::Ok)>) -> Result<Self::Ok>
        ensures { MatchResult result
            (λ v. Self.about.seen v
            ≡ map_of Self.about (fields_of Self.about.seen fields.entry.items))
            (λ e. fault_of e ≡ out_of_memory) }
    {
        let mut map = Self::no_members(alloc);
        Self::reserve(&mut map, fields.len())?;
        for (name, value) in fields {
            let key = String::from_str(alloc, name)?;
            Self::insert(&mut map, key, value)?;
        }
        Ok(Self::map(map))
    }

    /// Returns the map of one entry.
    ///
    /// # Errors
    ///
    /// Returns [`ErrorImpl::OutOfMemory`](dynamo_value::ErrorImpl::OutOfMemory) if memory runs out.
    final fn one_member(alloc: Global, name: &str, value: Self::Ok) -> Result<Self::Ok>
        ensures { MatchResult result
            (λ v. Self.about.seen v ≡ one_member Self.about name.now (Self.about.seen value))
            (λ e. fault_of e ≡ out_of_memory) }
    {
        let mut map = Self::no_members(alloc);
        let key = String::from_str(alloc, name)?;
        Self::insert(&mut map, key, value)?;
        Ok(Self::map(map))
    }

    // The result for a datum is what it is written as, or out of memory.
    ghost answers: { (s : Self) (d : Datum) (v : Self.Ok) → Self.outcome s d (Ok v)
        → about.written d ≡ Ok (about.seen v) };

    ghost refuses: { (s : Self) (d : Datum) (e : Error) → Self.outcome s d (Err e)
        → (about.written d ≡ Err (fault_of e)) ⊎ (fault_of e ≡ out_of_memory) };
}

/// The builder of a list, for sequences, tuples and tuple structs.
#[derive(Drop)]
pub struct ListOf<T: Target> {
    alloc: Global,
    values: Vec<T::Ok>,
}

impl<T: Target> ListOf<T> {
    /// Returns the builder without elements. It allocates nothing. The length isn't used.
    pub fn new(alloc: Global, _len: Option<usize>) -> Self
        ensures { result.values.items ≡ [] }
    {
        ListOf {
            alloc,
            values: Vec::new(alloc),
        }
    }
}

impl<T: Target> ListBuilder<T> for ListOf<T> {
    type Ok = T::Ok;

    type Error = Error;

    ghost gives = { λ b ds r. GivesWholeList T.about b.values.items T.about.list ds r };

    ghost writer = { λ b. T.over b.alloc };

    fn element_serializer(&self) -> T {
        T::over(self.alloc)
    }

    fn push_element(&mut self, written: T::Ok) -> Result<()> {
        self.values.push(T::kept(written))?;
        Ok(())
    }

    // The list is made of the values as they lie, without a request for memory.
    fn finish(self) -> Result<T::Ok> {
        Ok(T::list(self.values))
    }
}

impl<T: Target> SerializeSeq<T> for ListOf<T> {}

impl<T: Target> SerializeTuple<T> for ListOf<T> {}

impl<T: Target> SerializeTupleStruct<T> for ListOf<T> {}

/// The builder of a map. It keeps the entries in a list, in the order of the calls, and makes the
/// map at the end.
#[derive(Drop)]
pub struct MapOf<T: Target> {
    alloc: Global,
    entries: Vec<(String, T::Ok)>,
    next_key: Option<String>,
}

impl<T: Target> MapOf<T> {
    /// Returns the builder without entries. It allocates nothing. The length isn't used.
    pub fn new(alloc: Global, _len: Option<usize>) -> Self
        ensures entries { result.entries.items ≡ [] }
        ensures idle { result.next_key ≡ None }
    {
        MapOf {
            alloc,
            entries: Vec::new(alloc),
            next_key: None,
        }
    }
}

impl<T: Target> SerializeMap<T> for MapOf<T> {
    type Ok = T::Ok;

    type Error = Error;

    ghost gives = { λ b ps r. GivesMap T.about (held_entries T.about.seen b.entries.items) ps r };

    ghost pending = { λ b. option_map string_bytes b.next_key };

    ghost writer = { λ b. T.over b.alloc };

    fn alloc(&self) -> Global {
        self.alloc
    }

    fn refused(&self, error: Error) -> Error {
        error
    }

    fn has_key(&self) -> bool {
        self.next_key.is_some()
    }

    fn set_key(&mut self, key: String) {
        self.next_key = Some(key);
    }

    fn take_key(&mut self) -> Option<String> {
        self.next_key.take()
    }

    fn value_serializer(&self) -> T {
        T::over(self.alloc)
    }

    fn push_entry(&mut self, key: String, written: T::Ok) -> Result<()> {
        self.entries.push((key, written))?;
        Ok(())
    }

    fn end(self) -> Result<T::Ok> {
        T::map_of_entries(self.alloc, self.entries)
    }
}

/// The builder of a struct's map. It keeps the fields in a list, in the order of the calls, and
/// makes the map at the end.
#[derive(Drop)]
pub struct StructOf<T: Target> {
    alloc: Global,
    expected: usize,
    fields: Vec<(&'static str, T::Ok)>,
}

impl<T: Target> StructOf<T> {
    /// Returns the builder without fields. It allocates nothing. The first field makes room for
    /// `len` fields, but at most for 64.
    pub fn new(alloc: Global, len: usize) -> Self
        ensures { result.fields.items ≡ [] }
    {
        StructOf {
            alloc,
            expected: len,
            fields: Vec::new(alloc),
        }
    }
}

impl<T: Target> StructBuilder<T> for StructOf<T> {
    type Ok = T::Ok;

    type Error = Error;

    ghost gives = { λ b fs r. GivesStruct T.about (fields_of T.about.seen b.fields.items) (λ a. a)
        fs r };

    ghost writer = { λ b. T.over b.alloc };

    fn field_serializer(&self) -> T {
        T::over(self.alloc)
    }

    #[inline(always)]
    fn push_field(&mut self, key: &'static str, written: T::Ok) -> Result<()> {
        fields::push(&mut self.fields, self.expected, (key, written))?;
        Ok(())
    }

    fn finish(self) -> Result<T::Ok> {
        T::map_of_fields(self.alloc, self.fields)
    }
}

impl<T: Target> SerializeStruct<T> for StructOf<T> {}

/// The builder of a tuple variant: a map of one entry, from the variant's name to a list.
#[derive(Drop)]
pub struct TupleVariantOf<'a, T: Target> {
    alloc: Global,
    key: &'a str,
    values: Vec<T::Ok>,
}

impl<'a, T: Target> TupleVariantOf<'a, T> {
    /// Returns the builder of the variant with this name, without fields. It allocates nothing. The
    /// length isn't used.
    pub fn new(alloc: Global, key: &'a str, _len: usize) -> Self
        ensures values { result.values.items ≡ [] }
        ensures name { result.key.now ≡ key.now }
    {
        TupleVariantOf {
            alloc,
            key,
            values: Vec::new(alloc),
        }
    }
}

impl<T: Target> ListBuilder<T> for TupleVariantOf<'_, T> {
    type Ok = T::Ok;

    type Error = Error;

    ghost gives = { λ b ds r. GivesList T.about b.values.items
        (λ parts. one_member T.about b.key.now (T.about.list parts)) ds r };

    ghost writer = { λ b. T.over b.alloc };

    fn element_serializer(&self) -> T {
        T::over(self.alloc)
    }

    fn push_element(&mut self, written: T::Ok) -> Result<()> {
        self.values.push(T::kept(written))?;
        Ok(())
    }

    fn finish(self) -> Result<T::Ok> {
        T::one_member(self.alloc, self.key, T::list(self.values))
    }
}

impl<T: Target> SerializeTupleVariant<T> for TupleVariantOf<'_, T> {}

/// The builder of a struct variant: a map of one entry, from the variant's name to the map of its
/// fields.
#[derive(Drop)]
pub struct StructVariantOf<'a, T: Target> {
    alloc: Global,
    key: &'a str,
    expected: usize,
    fields: Vec<(&'static str, T::Ok)>,
}

impl<'a, T: Target> StructVariantOf<'a, T> {
    /// Returns the builder of the variant with this name, without fields. It allocates nothing. The
    /// first field makes room for `len` fields, but at most for 64.
    pub fn new(alloc: Global, key: &'a str, len: usize) -> Self
        ensures fields { result.fields.items ≡ [] }
        ensures name { result.key.now ≡ key.now }
    {
        StructVariantOf {
            alloc,
            key,
            expected: len,
            fields: Vec::new(alloc),
        }
    }
}

impl<T: Target> StructBuilder<T> for StructVariantOf<'_, T> {
    type Ok = T::Ok;

    type Error = Error;

    ghost gives = { λ b fs r. GivesStruct T.about (fields_of T.about.seen b.fields.items)
        (one_member T.about b.key.now) fs r };

    ghost writer = { λ b. T.over b.alloc };

    fn field_serializer(&self) -> T {
        T::over(self.alloc)
    }

    #[inline(always)]
    fn push_field(&mut self, key: &'static str, written: T::Ok) -> Result<()> {
        fields::push(&mut self.fields, self.expected, (key, written))?;
        Ok(())
    }

    fn finish(self) -> Result<T::Ok> {
        let fields = T::map_of_fields(self.alloc, self.fields)?;
        T::one_member(self.alloc, self.key, fields)
    }
}

impl<T: Target> SerializeStructVariant<T> for StructVariantOf<'_, T> {}
