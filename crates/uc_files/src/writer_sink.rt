//! A sink over a writer.

ghost use Rattle.std.specs.Prelude.{◌≡◌, ◌≤◌, [], false};
ghost use Rattle.uc_io.specs.Faults.{Rose};

use std::io::Write;
use uc_io::{Failed, Sink};

/// A writer as a sink. It tells no bytes.
#[derive(Drop)]
pub struct WriterSink<W> {
    writer: W,
    faults: u64,
}

impl<W: Write> WriterSink<W> {
    pub fn new(writer: W) -> WriterSink<W>
        ensures { ⟦<WriterSink<W> as Sink>⟧.faults result ≡ 0 }
    {
        WriterSink { writer, faults: 0 }
    }

    fn fault(&mut self)
        ensures cause { Rose self.old.faults self.new.faults }
        ensures later { self.old.faults ≤ self.new.faults }
    {
        self.faults = self.faults.saturating_add(1);
    }
}

impl<W: Write> Sink for WriterSink<W> {
    ghost faults = { λ s. s.faults };

    ghost tells = { λ _. false };

    ghost taken = { λ _. [] };

    fn write(&mut self, bytes: &[u8]) -> Result<usize, Failed> {
        match self.writer.write(bytes) {
            Ok(count) => {
                if count == 0 {
                    self.fault();
                }
                Ok(count)
            }
            Err(_) => {
                self.fault();
                Err(Failed)
            }
        }
    }
}
