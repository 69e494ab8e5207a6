ghost use Rattle.std.specs.Prelude.{◌≡◌, ◌<◌, ◌≤◌, [], ◌++◌, true, take, length, min, IsErr, IfOk, OnOk, OnErr};
ghost use Rattle.uc_io.specs.Calls.{IsToFail, after_call};
ghost use Rattle.uc_io.specs.Faults.{Rose};

use crate::calls::Calls;
use crate::{Failed, Sink};
use std::alloc::Global;

/// A sink in memory, which takes at most `piece` bytes a call.
#[derive(Drop)]
pub struct MemSink {
    taken: Vec<u8>,
    calls: Calls,
}

impl MemSink {
    ghost use Rattle.uc_io.specs.Memory.{sink_plan};

    /// The calls whose numbers, from 0, stand in `fails` fail, and so does one for which no memory is left.
    pub fn new(alloc: Global, piece: usize, fails: Vec<u64>) -> MemSink
        requires { 1 ≤ piece }
        ensures taken { ⟦<MemSink as Sink>⟧.taken result ≡ [] }
        ensures tells { ⟦<MemSink as Sink>⟧.tells result ≡ true }
        ensures faults { ⟦<MemSink as Sink>⟧.faults result ≡ 0 }
        ensures plan { sink_plan result ≡ record { piece = piece; fails = fails.items; next = 0 } }
    {
        MemSink {
            taken: Vec::new(alloc),
            calls: Calls::new(piece, fails),
        }
    }

    /// The bytes that were taken.
    pub fn bytes(&self) -> &[u8]
        ensures { result.now ≡ ⟦<MemSink as Sink>⟧.taken self.now }
    {
        &self.taken
    }
}

impl Sink for MemSink {
    ghost use Rattle.uc_io.specs.Memory.{sink_taken, sink_faults, sink_plan};

    ghost faults = { sink_faults };

    ghost tells = { λ _. true };

    ghost taken = { sink_taken };

    fn write(&mut self, bytes: &[u8]) -> Result<usize, Failed>
        ensures fails { IsToFail (sink_plan self.old) → IsErr result }
        ensures plan { sink_plan self.new ≡ after_call (sink_plan self.old) }
        ensures count { IfOk result (λ count. count ≡ min (length bytes.now) (sink_plan self.old).piece) }
        ensures some { IfOk result (λ count. 0 < length bytes.now → 0 < count) }
        ensures front { IfOk result (λ count. sink_taken self.new ≡ sink_taken self.old ++ take count bytes.now) }
        ensures failed { OnErr result (sink_taken self.new ≡ sink_taken self.old) }
        ensures cause { OnErr result (Rose (sink_faults self.old) (sink_faults self.new)) }
        ensures no_fault { OnOk result (sink_faults self.new ≡ sink_faults self.old) }
        ensures later { sink_faults self.old ≤ sink_faults self.new }
    {
        self.calls.begin()?;
        let count = bytes.len().min(self.calls.piece);
        match self.taken.extend_from_slice(&bytes[..count]) {
            Ok(()) => Ok(count),
            Err(_) => Err(self.calls.fault()),
        }
    }
}
