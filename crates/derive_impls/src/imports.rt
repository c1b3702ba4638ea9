// The imports that the printed impls need.
use crate::case::listing;
use crate::record_rules::has_aliases;
use crate::uses::Uses;
use derive_declarations::{
    Body, Contents, Declaration, Field, Presence, SetKind, StoredSet, Variant,
};
use std::alloc::{AllocError, Global};
use std::fmt::Write;

// The words of each file.
const ALWAYS: &str = "codes refl serde_dynamo::Shaped serde_dynamo::de::Deserialize \
    serde_dynamo::de::Deserializer serde_dynamo::de::Error serde_dynamo::ser::Serialize \
    serde_dynamo::ser::Serializer std::alloc::Global";

// The files of definitions, each with those that are imported of it, in the order in which they are
// printed.
const DEFINITIONS: [&str; 11] = [
    "std.specs.Prelude [] ◌∷◌ codes false refl true",
    "dynamo_record.specs.About about_part",
    "dynamo_record.specs.Keys own_key",
    "dynamo_record.specs.Records record_of record_tells record_reads about_record",
    "dynamo_record.specs.ByRules about_by_rules rules_reads",
    "dynamo_record.specs.Newtypes about_newtype about_unit_struct key_newtype key_part \
        newtype_by_shape newtype_is_key newtype_reads part_by_shape part_is_key part_reads \
        unit_struct_by_shape unit_struct_reads",
    "dynamo_record.specs.TupleStructs about_tuple_struct tuple_struct_by_shape tuple_struct_of \
        tuple_struct_reads tuple_struct_tells",
    "dynamo_record.specs.UnitEnums units_of about_units key_units unit_enum_tells unit_enum_reads",
    "dynamo_record.specs.Enums enum_of enum_tells enum_reads about_enum",
    "dynamo_record.specs.TaggedEnums tagged_of tagged_tells tagged_reads about_tagged",
    "dynamo_record.specs.declared.variant_list.Choice.TheVariants Left Right",
];

/// The words that are imported for impls: definitions, and names that are of `dynamo_record` or
/// have their path.
#[derive(Drop)]
pub struct Words {
    // Texts of words, with a space between two.
    found: Vec<&'static str>,
}

impl Words {
    /// The words of the impls of these declarations.
    pub fn of(alloc: Global, declarations: &[Declaration]) -> Result<Words, AllocError> {
        let mut words = Words {
            found: vec![in alloc; ALWAYS]?,
        };
        for declaration in declarations {
            words.add_declaration(declaration)?;
        }
        Ok(words)
    }

    fn add(&mut self, words: &'static str) -> Result<(), AllocError> {
        Ok(self.found.push(words)?)
    }

    fn has(&self, word: &str) -> bool {
        self.found
            .iter()
            .any(|words| words.split(' ').any(|it| it == word))
    }

    fn add_declaration(&mut self, declaration: &Declaration) -> Result<(), AllocError> {
        self.add(words_of_body(&declaration.body))?;
        match &declaration.body {
            Body::Record(fields) => {
                self.add(words_of_rules(declaration.denies_unknown, has_aliases(fields)))?;
                self.add_fields(fields)
            }
            Body::Newtype(_) | Body::Transparent(_) if declaration.is_key => {
                self.add("serde_dynamo::ShapedKey")?;
                self.add(words_of_key(declaration))
            }
            Body::Units(_) if declaration.is_key => {
                self.add("key_units own_key serde_dynamo::ShapedKey")
            }
            Body::Choices(variants) => self.add_variants(variants, false),
            Body::Tagged(_, variants) => self.add_variants(variants, true),
            _ => Ok(()),
        }
    }

    fn add_fields(&mut self, fields: &[Field]) -> Result<(), AllocError> {
        for field in fields {
            self.add(words_of_presence(field.form.presence))?;
            if let Some(set) = field.form.set {
                self.add(words_of_set(set))?;
            }
        }
        Ok(())
    }

    fn add_variants(&mut self, variants: &[Variant], are_tagged: bool) -> Result<(), AllocError> {
        if variants.len() > 1 {
            self.add("Left Right Choice")?;
        }
        for variant in variants {
            let (listed, write, conform) = listing(&variant.contents, are_tagged);
            self.add(listed)?;
            self.add(write)?;
            self.add(conform)?;
            match &variant.contents {
                Contents::Several(_) => self.add("Field")?,
                Contents::Named(fields) => {
                    self.add("Field NamedFields")?;
                    self.add_fields(fields)?;
                }
                _ => {}
            }
        }
        Ok(())
    }

    /// Prints the imports of definitions.
    pub fn print_definitions(&self, alloc: Global, out: &mut String) -> Result<(), AllocError> {
        for row in DEFINITIONS {
            let mut words = row.split(' ');
            let path = words.next().unwrap_or("");
            let mut found = Vec::new(alloc);
            for word in words {
                if self.has(word) {
                    found.push(word)?;
                }
            }
            if !found.is_empty() {
                let line = found.join(alloc, ", ")?;
                writeln!(out, "ghost use Rattle.{path}.{{{line}}};")?;
            }
        }
        Ok(())
    }

    /// The imports of the names.
    pub fn uses(&self, alloc: Global) -> Result<Uses, AllocError> {
        let mut uses = Uses::new(alloc);
        for words in &self.found {
            for word in words.split(' ').filter(|word| is_name(word)) {
                let (path, name) = word.rsplit_once("::").unwrap_or(("dynamo_record", word));
                uses.add(alloc, path, name)?;
            }
        }
        Ok(uses)
    }
}

// Whether it is a word, and no definition.
fn is_name(word: &str) -> bool {
    !word.is_empty()
        && !DEFINITIONS
            .iter()
            .any(|row| row.split(' ').any(|it| it == word))
}

fn words_of_body(body: &Body) -> &'static str {
    match body {
        Body::Record(_) => {
            "[] ◌∷◌ record_of record_tells \
                Field FieldList Record record_conforms write_record"
        }
        Body::Newtype(_) => {
            "about_newtype newtype_by_shape newtype_reads read_newtype write_newtype"
        }
        Body::Transparent(_) => {
            "about_part part_by_shape part_reads read_transparent write_transparent"
        }
        Body::Tuple(_) => {
            "about_tuple_struct tuple_struct_by_shape tuple_struct_of tuple_struct_reads \
                tuple_struct_tells Field FieldList TupleStruct read_tuple_struct \
                tuple_struct_conforms write_tuple_struct"
        }
        Body::Unit => {
            "about_unit_struct unit_struct_by_shape unit_struct_reads read_unit_struct"
        }
        Body::Units(_) => {
            "[] ◌∷◌ units_of about_units unit_enum_tells unit_enum_reads \
                UnitEnum conform_unit_enum read_unit_enum variant_at write_unit_enum"
        }
        Body::Choices(_) => {
            "[] ◌∷◌ enum_of enum_tells enum_reads about_enum Enumeration VariantList read_enum"
        }
        Body::Tagged(_, _) => {
            "[] ◌∷◌ tagged_of tagged_tells tagged_reads about_tagged \
                TaggedEnum TaggedList read_tagged"
        }
    }
}

// The words of a key of one field.
fn words_of_key(declaration: &Declaration) -> &'static str {
    let is_generic = !declaration.parameters.is_empty();
    match (&declaration.body, is_generic) {
        (Body::Transparent(_), false) => "key_part own_key",
        (Body::Transparent(_), true) => "key_part part_is_key",
        (_, false) => "key_newtype own_key",
        (_, true) => "key_newtype newtype_is_key",
    }
}

// The words of a struct of named fields, by what its rules say of entries.
fn words_of_rules(deny_unknown: bool, have_aliases: bool) -> &'static str {
    match (deny_unknown, have_aliases) {
        (false, false) => "record_reads about_record read_record",
        (false, true) => "false about_by_rules rules_reads RecordRules read_record_by_rules",
        (true, _) => "true about_by_rules rules_reads RecordRules read_record_by_rules",
    }
}

fn words_of_presence(presence: Presence) -> &'static str {
    match presence {
        Presence::Required => "",
        Presence::Defaulted => "WithDefault",
        Presence::Omitted => "Omitted OmittedRef",
    }
}

fn words_of_set(set: StoredSet) -> &'static str {
    match (set.kind, set.is_rust_set) {
        (SetKind::Strings, false) => "InStringSet serde_dynamo::StringSet",
        (SetKind::Strings, true) => "AsStringSet serde_dynamo::StringSet",
        (SetKind::Numbers, false) => "InNumberSet serde_dynamo::NumberSet",
        (SetKind::Numbers, true) => "AsNumberSet serde_dynamo::NumberSet",
        (SetKind::Binaries, false) => "InBinarySet serde_dynamo::BinarySet",
        (SetKind::Binaries, true) => "AsBinarySet serde_dynamo::BinarySet",
    }
}
