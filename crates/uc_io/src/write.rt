ghost use Rattle.std.specs.Prelude.{◌≡◌, ◌≤◌, ◌++◌, IsTrue, OnOk, OnErr};
ghost use Rattle.uc_io.specs.Faults.{Rose};
ghost use Rattle.uc_io.specs.Sink.{GrewByFront};

use crate::Sink;

/// The sink failed, or took nothing, before all was written.
#[derive(Clone, Copy, Debug, PartialEq, Eq)]
pub struct WriteFault;

/// Writes all of the bytes. After a fault the sink has taken a front of them.
pub fn write_whole<K: Sink>(sink: &mut K, bytes: &[u8]) -> Result<(), WriteFault>
    ensures whole { OnOk result (IsTrue (K.tells sink.old) → K.taken sink.new ≡ K.taken sink.old ++ bytes.now) }
    ensures front { OnErr result (IsTrue (K.tells sink.old) →
        GrewByFront (K.taken sink.old) (K.taken sink.new) bytes.now) }

    ensures cause { OnErr result (Rose (K.faults sink.old) (K.faults sink.new)) }
    ensures no_fault { OnOk result (K.faults sink.new ≡ K.faults sink.old) }
    ensures later { K.faults sink.old ≤ K.faults sink.new }
    ensures telling { K.tells sink.new ≡ K.tells sink.old }
{
    let mut written = 0;
    while written < bytes.len() {
        match sink.write(&bytes[written..]) {
            Ok(count) if count > 0 => written += count,
            _ => return Err(WriteFault),
        }
    }
    Ok(())
}
