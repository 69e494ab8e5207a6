ghost use Rattle.std.specs.Prelude.{◌≡◌, ℕ, ◌<◌, ◌≤◌, List, ◌++◌, Bool, length, take, IsTrue, IfOk, OnErr};
ghost use Rattle.uc_io.specs.Faults.{Rose};

use crate::Failed;

/// Takes bytes, piece by piece. A sink that cannot say what it has taken, as an output stream, tells nothing: then only
/// the clauses on faults and counts speak of it.
pub trait Sink {
    /// How often a call has failed, or has taken nothing of a piece that isn't empty.
    ghost faults: { Self → ℕ };

    /// Whether it tells its bytes.
    ghost tells: { Self → Bool };

    /// The bytes that it has taken.
    ghost taken: { Self → List ℕ };

    /// Takes a front of the bytes. How many they are.
    fn write(&mut self, bytes: &[u8]) -> Result<usize, Failed>
        ensures within { IfOk result (λ count. count ≤ length bytes.now) }
        ensures front { IfOk result (λ count. IsTrue (tells self.old) →
            taken self.new ≡ taken self.old ++ take count bytes.now) }
        ensures failed { OnErr result (IsTrue (tells self.old) → taken self.new ≡ taken self.old) }

        ensures cause { OnErr result (Rose (faults self.old) (faults self.new)) }
        ensures none { IfOk result (λ count. count ≡ 0 → 0 < length bytes.now → Rose (faults self.old) (faults self.new)) }
        ensures no_fault { IfOk result (λ count. 0 < count → faults self.new ≡ faults self.old) }
        ensures later { faults self.old ≤ faults self.new }
        ensures telling { tells self.new ≡ tells self.old };
}
