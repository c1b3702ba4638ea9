// The library's types, by kinds of data.
mod attribute_value;
mod json;
mod maps;
mod numbers;
mod options;
mod sequences;
mod sets;
mod texts;
