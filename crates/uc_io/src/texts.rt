ghost use Rattle.std.specs.Prelude.{◌≡◌, ℕ, ◌≤◌, List, [], Option, Bool, length, IsTrue, IfOk, OnOk, OnErr, is_some, unwrap_or};
ghost use Rattle.uc_io.specs.Faults.{Rose};
ghost use Rattle.uc_io.specs.Texts.{Gives};

use crate::Failed;

/// Texts under names, of which one at a time is open and is read from its front. A source that cannot say what it
/// holds, as a file system, tells nothing: then only the clauses on faults and counts speak of it.
pub trait Texts {
    /// How often a call has failed.
    ghost faults: { Self → ℕ };

    /// Whether it tells its bytes.
    ghost tells: { Self → Bool };

    /// The bytes of the text of a name, which is given by its bytes.
    ghost held: { Self → List ℕ → Option (List ℕ) };

    /// What is left of the open text.
    ghost left: { Self → List ℕ };

    /// Opens the text of that name, or closes the open one where there is none of that name. Whether there is one.
    fn open(&mut self, name: &str) -> Result<bool, Failed>
        ensures found { IfOk result (λ found. IsTrue (tells self.old) → found ≡ is_some (held self.old name.now)) }
        ensures opened { IfOk result (λ found. IsTrue (tells self.old) →
            left self.new ≡ unwrap_or (held self.old name.now) []) }
        ensures failed { OnErr result (IsTrue (tells self.old) → left self.new ≡ left self.old) }

        ensures cause { OnErr result (Rose (faults self.old) (faults self.new)) }
        ensures no_fault { OnOk result (faults self.new ≡ faults self.old) }
        ensures later { faults self.old ≤ faults self.new }
        ensures telling { tells self.new ≡ tells self.old }
        ensures holding { held self.new ≡ held self.old };

    /// Takes the next bytes of the open text into the front of the buffer. How many they are: 0 for a buffer that isn't
    /// empty is the end.
    fn read(&mut self, buffer: &mut [u8]) -> Result<usize, Failed>
        ensures room { IfOk result (λ count. count ≤ length buffer.new) }
        ensures gives { IfOk result (λ count. IsTrue (tells self.old) →
            Gives (left self.old) count buffer.new (left self.new)) }
        ensures failed { OnErr result (IsTrue (tells self.old) → left self.new ≡ left self.old) }

        ensures cause { OnErr result (Rose (faults self.old) (faults self.new)) }
        ensures no_fault { OnOk result (faults self.new ≡ faults self.old) }
        ensures later { faults self.old ≤ faults self.new }
        ensures telling { tells self.new ≡ tells self.old }
        ensures holding { held self.new ≡ held self.old };
}
