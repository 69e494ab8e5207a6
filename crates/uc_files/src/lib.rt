//! Texts in files, and a sink over a writer: the edge of the program. Nothing is known of the bytes that the system gives and takes.
#![tactic(auto)]

mod file_texts;
mod writer_sink;

pub use file_texts::FileTexts;
pub use writer_sink::WriterSink;
