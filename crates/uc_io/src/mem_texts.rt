ghost use Rattle.std.specs.Prelude.{◌≡◌, ◌↔◌, ◌≤◌, ◌<◌, [], true, Some, None, drop, length, min, is_some, unwrap_or, IsErr, IfOk, OnOk, OnErr, MatchOption, slice_get};
ghost use Rattle.uc_io.specs.Calls.{IsToFail, after_call};
ghost use Rattle.uc_io.specs.Faults.{Rose};
ghost use Rattle.uc_io.specs.Memory.{held_in, bytes_of, left_in};
ghost use Rattle.uc_io.specs.Texts.{Gives};

use crate::calls::Calls;
use crate::{Failed, Texts};

/// How far the open text, which is given by its number, has been read.
#[derive(Clone, Copy)]
struct Reading {
    file: usize,
    position: usize,
}

/// Texts in memory, which hand on at most `piece` bytes a call.
#[derive(Drop)]
pub struct MemTexts {
    files: Vec<(String, Vec<u8>)>,
    reading: Option<Reading>,
    calls: Calls,
}

impl MemTexts {
    ghost use Rattle.uc_io.specs.Memory.{texts_plan};

    /// The texts by their names; of several of one name the first counts. The calls whose numbers, from 0, stand in
    /// `fails` fail, those of `open` and `read` together.
    pub fn new(files: Vec<(String, Vec<u8>)>, piece: usize, fails: Vec<u64>) -> MemTexts
        requires { 1 ≤ piece }
        ensures held { ⟦<MemTexts as Texts>⟧.held result ≡ held_in files.items }
        ensures left { ⟦<MemTexts as Texts>⟧.left result ≡ [] }
        ensures tells { ⟦<MemTexts as Texts>⟧.tells result ≡ true }
        ensures faults { ⟦<MemTexts as Texts>⟧.faults result ≡ 0 }
        ensures plan { texts_plan result ≡ record { piece = piece; fails = fails.items; next = 0 } }
    {
        MemTexts {
            files,
            reading: None,
            calls: Calls::new(piece, fails),
        }
    }
}

impl Texts for MemTexts {
    ghost use Rattle.uc_io.specs.Memory.{texts_held, texts_left, texts_faults, texts_plan};

    ghost faults = { texts_faults };

    ghost tells = { λ _. true };

    ghost held = { texts_held };

    ghost left = { texts_left };

    fn open(&mut self, name: &str) -> Result<bool, Failed>
        ensures fails { IsErr result ↔ IsToFail (texts_plan self.old) }
        ensures plan { texts_plan self.new ≡ after_call (texts_plan self.old) }
        ensures found { IfOk result (λ found. found ≡ is_some (texts_held self.old name.now)) }
        ensures opened { IfOk result (λ found. texts_left self.new ≡ unwrap_or (texts_held self.old name.now) []) }
        ensures failed { OnErr result (texts_left self.new ≡ texts_left self.old) }
        ensures cause { OnErr result (Rose (texts_faults self.old) (texts_faults self.new)) }
        ensures no_fault { OnOk result (texts_faults self.new ≡ texts_faults self.old) }
        ensures later { texts_faults self.old ≤ texts_faults self.new }
        ensures holding { texts_held self.new ≡ texts_held self.old }
    {
        self.calls.begin()?;
        let found = first_named(&self.files, name);
        self.reading = found.map(|file| Reading { file, position: 0 });
        Ok(found.is_some())
    }

    fn read(&mut self, buffer: &mut [u8]) -> Result<usize, Failed>
        ensures fails { IsErr result ↔ IsToFail (texts_plan self.old) }
        ensures plan { texts_plan self.new ≡ after_call (texts_plan self.old) }
        ensures count { IfOk result (λ count. count
            ≡ min (min (length (texts_left self.old)) (length buffer.new)) (texts_plan self.old).piece) }
        ensures gives { IfOk result (λ count. Gives (texts_left self.old) count buffer.new (texts_left self.new)) }
        ensures failed { OnErr result (texts_left self.new ≡ texts_left self.old) }
        ensures cause { OnErr result (Rose (texts_faults self.old) (texts_faults self.new)) }
        ensures no_fault { OnOk result (texts_faults self.new ≡ texts_faults self.old) }
        ensures later { texts_faults self.old ≤ texts_faults self.new }
        ensures holding { texts_held self.new ≡ texts_held self.old }
    {
        self.calls.begin()?;
        let Some(place) = self.reading else {
            return Ok(0);
        };
        let left = rest_of(&self.files, place);
        let count = left.len().min(buffer.len()).min(self.calls.piece);
        buffer[..count].copy_from_slice(&left[..count]);
        self.reading = Some(Reading {
            position: place.position + count,
            ..place
        });
        Ok(count)
    }
}

/// The number of the first text of that name.
fn first_named(files: &[(String, Vec<u8>)], name: &str) -> Option<usize>
    ensures { MatchOption result (held_in files.now name.now ≡ None)
        (λ file. held_in files.now name.now ≡ Some (bytes_of (slice_get files.now file))) }
{
    for (number, file) in files.iter().enumerate() {
        if file.0.as_str() == name {
            return Some(number);
        }
    }
    None
}

/// What is left of the open text.
fn rest_of(files: &[(String, Vec<u8>)], place: Reading) -> &[u8]
    ensures { result.now ≡ left_in files.now (Some place) }
{
    match files.get(place.file) {
        Some(file) => file.1.get(place.position..).unwrap_or(&[]),
        None => &[],
    }
}
