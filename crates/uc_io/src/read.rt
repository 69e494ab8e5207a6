ghost use Rattle.std.specs.Prelude.{◌≡◌, ◌⊎◌, ◌+◌, ◌<◌, ◌≤◌, [], ◌++◌, false, drop, length, IsTrue, IfOk, OnOk, OnErr, IsErrOf, unwrap_or};
ghost use Rattle.uc_io.specs.Faults.{Rose};
ghost use Rattle.uc_io.specs.Texts.{Answers, LeavesAllBut};
ghost use Rattle.uc_io.specs.declared.read.ReadError.TheVariants.{NoMemory, ReadFault};

use crate::{Failed, Texts};
use std::alloc::{AllocError, Global};

/// How many bytes are asked for at a time.
const PIECE: usize = 8192;

/// Why a text was not read.
#[derive(Clone, Copy, Debug, PartialEq, Eq)]
pub enum ReadError {
    NoMemory,
    ReadFault,
    NoText,
    TooLong,
}

impl From<AllocError> for ReadError {
    ghost from_gives = { λ _ e. e ≡ NoMemory };

    fn from(_: AllocError) -> ReadError {
        ReadError::NoMemory
    }
}

impl From<Failed> for ReadError {
    ghost from_gives = { λ _ e. e ≡ ReadFault };

    fn from(_: Failed) -> ReadError {
        ReadError::ReadFault
    }
}

/// Reads the text of that name, of at most `limit` bytes. `TooLong` comes for a longer one, `NoText` where none has the
/// name, and `ReadFault` where the source has counted a fault. At most `limit + 1` bytes are read.
pub fn read_all<X: Texts>(
    alloc: Global,
    texts: &mut X,
    name: &str,
    limit: u64,
) -> Result<Vec<u8>, ReadError>
    ensures answer { IsTrue (X.tells texts.old) → Answers (X.held texts.old name.now) limit result }
    ensures within { IfOk result (λ text. length text.items ≤ limit) }

    // A text that was not opened leaves the open one as it was.
    ensures taken { IsTrue (X.tells texts.old) → (X.left texts.new ≡ X.left texts.old)
        ⊎ LeavesAllBut (limit + 1) (unwrap_or (X.held texts.old name.now) []) (X.left texts.new) }

    ensures whole { IfOk result (λ text. IsTrue (X.tells texts.old) → X.left texts.new ≡ []) }
    ensures closed { IsErrOf result ReadError.NoText → IsTrue (X.tells texts.old) → X.left texts.new ≡ [] }
    ensures cut { IsErrOf result ReadError.TooLong → IsTrue (X.tells texts.old) →
        X.left texts.new ≡ drop (limit + 1) (unwrap_or (X.held texts.old name.now) []) }

    ensures cause { IsErrOf result ReadError.ReadFault → Rose (X.faults texts.old) (X.faults texts.new) }
    ensures no_fault { (¬ IsErrOf result ReadError.ReadFault) → X.faults texts.new ≡ X.faults texts.old }
    ensures later { X.faults texts.old ≤ X.faults texts.new }
    ensures telling { X.tells texts.new ≡ X.tells texts.old }
    ensures holding { X.held texts.new ≡ X.held texts.old }
{
    if !texts.open(name)? {
        return Err(ReadError::NoText);
    }
    read_open(alloc, texts, limit as usize)
}

/// Takes the next bytes of the open text, through the buffer, where `bytes` are those before. Whether there may be more.
fn read_piece<X: Texts>(
    texts: &mut X,
    limit: usize,
    buffer: &mut [u8],
    bytes: &mut Vec<u8>,
) -> Result<bool, ReadError>
    requires room { 0 < length buffer.old }
    requires within { length bytes.old.items ≤ limit }

    ensures within { OnOk result (length bytes.new.items ≤ limit) }
    ensures grows { IfOk result (λ more. IsTrue more → length bytes.old.items < length bytes.new.items) }
    ensures bytes { OnOk result (IsTrue (X.tells texts.old) →
        bytes.old.items ++ X.left texts.old ≡ bytes.new.items ++ X.left texts.new) }
    ensures end { IfOk result (λ more. IsTrue (X.tells texts.old) → more ≡ false → X.left texts.new ≡ []) }
    ensures too_long { IsErrOf result ReadError.TooLong → IsTrue (X.tells texts.old) →
        limit < length bytes.old.items + length (X.left texts.old) }
    ensures cut { IsErrOf result ReadError.TooLong → IsTrue (X.tells texts.old) →
        X.left texts.new ≡ drop (limit + 1) (bytes.old.items ++ X.left texts.old) }
    ensures opened { IsErrOf result ReadError.NoText → ⊥ }
    ensures taken { IsTrue (X.tells texts.old) → OnErr result
        (LeavesAllBut (limit + 1) (bytes.old.items ++ X.left texts.old) (X.left texts.new)) }

    ensures cause { IsErrOf result ReadError.ReadFault → Rose (X.faults texts.old) (X.faults texts.new) }
    ensures no_fault { (¬ IsErrOf result ReadError.ReadFault) → X.faults texts.new ≡ X.faults texts.old }
    ensures later { X.faults texts.old ≤ X.faults texts.new }
    ensures telling { X.tells texts.new ≡ X.tells texts.old }
    ensures holding { X.held texts.new ≡ X.held texts.old }
{
    let room = limit - bytes.len();
    let asked = buffer.len().min(room.saturating_add(1));
    let piece = &mut buffer[..asked];
    let count = texts.read(piece)?;
    if count > room {
        return Err(ReadError::TooLong);
    }
    bytes.extend_from_slice(&piece[..count])?;
    Ok(count > 0)
}

/// Reads the open text to its end.
fn read_open<X: Texts>(alloc: Global, texts: &mut X, limit: usize) -> Result<Vec<u8>, ReadError>
    ensures answer { IsTrue (X.tells texts.old) → Answers (Some (X.left texts.old)) limit result }
    ensures within { IfOk result (λ text. length text.items ≤ limit) }
    ensures taken { IsTrue (X.tells texts.old) → LeavesAllBut (limit + 1) (X.left texts.old) (X.left texts.new) }
    ensures whole { IfOk result (λ text. IsTrue (X.tells texts.old) → X.left texts.new ≡ []) }
    ensures cut { IsErrOf result ReadError.TooLong → IsTrue (X.tells texts.old) →
        X.left texts.new ≡ drop (limit + 1) (X.left texts.old) }
    ensures opened { IsErrOf result ReadError.NoText → ⊥ }

    ensures cause { IsErrOf result ReadError.ReadFault → Rose (X.faults texts.old) (X.faults texts.new) }
    ensures no_fault { (¬ IsErrOf result ReadError.ReadFault) → X.faults texts.new ≡ X.faults texts.old }
    ensures later { X.faults texts.old ≤ X.faults texts.new }
    ensures telling { X.tells texts.new ≡ X.tells texts.old }
    ensures holding { X.held texts.new ≡ X.held texts.old }
{
    let mut buffer = [0; PIECE];
    let mut bytes = Vec::new(alloc);
    'pieces: while read_piece(texts, limit, &mut buffer, &mut bytes)? {}
    Ok(bytes)
}
