mod attribute_value;
mod json;
mod maps;
mod numbers;
mod options;
mod sequences;
mod sets;
mod texts;

pub(crate) use texts::char_text;
