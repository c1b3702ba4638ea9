mod maps;
mod numbers;
mod options;
mod sequences;
mod sets;
mod texts;
