ghost use Rattle.std.specs.Prelude.{◌≡◌, ◌↔◌, ◌≤◌, [], IsTrue, IsErr, OnOk, OnErr};
ghost use Rattle.uc_io.specs.Calls.{IsToFail, after_call};
ghost use Rattle.uc_io.specs.Faults.{Rose};

use crate::Failed;

/// The calls of a source or a sink in memory: which of them fail, and how often one has failed.
#[derive(Drop)]
pub(crate) struct Calls {
    pub(crate) piece: usize,
    fails: Vec<u64>,
    next: u64,
    faults: u64,
    ghost hands_on: { 1 ≤ piece },
}

impl Calls {
    ghost use Rattle.uc_io.specs.Memory.{plan_of};

    pub(crate) fn new(piece: usize, fails: Vec<u64>) -> Calls
        requires { 1 ≤ piece }
        ensures plan { plan_of result ≡ record { piece = piece; fails = fails.items; next = 0 } }
        ensures faults { result.faults ≡ 0 }
    {
        Calls {
            piece,
            fails,
            next: 0,
            faults: 0,
        }
    }

    /// Begins the next call, which fails if its number is one of those.
    pub(crate) fn begin(&mut self) -> Result<(), Failed>
        ensures fails { IsErr result ↔ IsToFail (plan_of self.old) }
        ensures plan { plan_of self.new ≡ after_call (plan_of self.old) }
        ensures cause { OnErr result (Rose self.old.faults self.new.faults) }
        ensures same { OnOk result (self.new.faults ≡ self.old.faults) }
        ensures later { self.old.faults ≤ self.new.faults }
    {
        let number = self.next;
        self.next = number.saturating_add(1);
        if self.fails.contains(&number) {
            return Err(self.fault());
        }
        Ok(())
    }

    /// Counts a fault of the call.
    pub(crate) fn fault(&mut self) -> Failed
        ensures cause { Rose self.old.faults self.new.faults }
        ensures later { self.old.faults ≤ self.new.faults }
        ensures plan { plan_of self.new ≡ plan_of self.old }
    {
        self.faults = self.faults.saturating_add(1);
        Failed
    }
}
