//! Texts that are read by name, and a sink that bytes are written to. Either may fail, and each failure is counted.
#![tactic(auto)]

mod calls;
mod failed;
mod mem_sink;
mod mem_texts;
mod read;
mod sink;
mod texts;
mod write;

pub use failed::Failed;
pub use mem_sink::MemSink;
pub use mem_texts::MemTexts;
pub use read::{ReadError, read_all};
pub use sink::Sink;
pub use texts::Texts;
pub use write::{WriteFault, write_whole};
