//! Texts that are files by their paths.

ghost use Rattle.std.specs.Prelude.{◌≡◌, ◌≤◌, [], false, None};
ghost use Rattle.uc_io.specs.Faults.{Rose};

use std::fs::{self, Files};
use std::io::{ErrorKind, Read};
use uc_io::{Failed, Texts};

/// Files by their paths. It tells no bytes.
#[derive(Drop)]
pub struct FileTexts<'a, R: Files> {
    system: &'a R,
    file: Option<R::File>,
    faults: u64,
}

impl<'a, R: Files> FileTexts<'a, R> {
    /// No file is open.
    pub fn new(system: &'a R) -> FileTexts<'a, R>
        ensures { ⟦<FileTexts<'a, R> as Texts>⟧.faults result ≡ 0 }
    {
        FileTexts {
            system,
            file: None,
            faults: 0,
        }
    }

    fn fault(&mut self) -> Failed
        ensures cause { Rose self.old.faults self.new.faults }
        ensures later { self.old.faults ≤ self.new.faults }
    {
        self.faults = self.faults.saturating_add(1);
        Failed
    }
}

impl<R: Files> Texts for FileTexts<'_, R> {
    ghost faults = { λ t. t.faults };

    ghost tells = { λ _. false };

    ghost held = { λ _ _. None };

    ghost left = { λ _. [] };

    fn open(&mut self, name: &str) -> Result<bool, Failed> {
        self.file = None;
        match fs::open(self.system, name) {
            Ok(file) => {
                self.file = Some(file);
                Ok(true)
            }
            Err(error) if error.kind() == ErrorKind::NotFound => Ok(false),
            Err(_) => Err(self.fault()),
        }
    }

    fn read(&mut self, buffer: &mut [u8]) -> Result<usize, Failed> {
        let Some(file) = &mut self.file else {
            return Ok(0);
        };
        match file.read(buffer) {
            Ok(count) => Ok(count),
            Err(_) => Err(self.fault()),
        }
    }
}
