//! Single reads and writes of real files and streams. A call that a signal interrupts is repeated.

ghost use Rattle.std.specs.Prelude.{◌≡◌, ◌≤◌, ◌<◌, [], length, take, None, Some, IfOk, IfSome, OnErr};
ghost use Rattle.std.specs.IoError.{error_kind};
ghost use Rattle.outside.specs.Outside.{MovesBytes, AppendsText};
ghost use Rattle.outside.specs.Real.{answer_to, open_fault_of, is_interrupted as comes_from_signal, read_answer, write_answer};

use crate::traits::{Failed, OpenFault};
use std::io;
use std::io::{ErrorKind, Read, Write};

/// Why a file could not be opened.
pub fn open_fault(error: &io::Error) -> OpenFault
    ensures { result ≡ open_fault_of (error_kind error.now) }
{
    match error.kind() {
        ErrorKind::OutOfMemory => OpenFault::OutOfMemory,
        _ => OpenFault::Failed,
    }
}

// Whether a signal interrupted the call.
fn is_interrupted(error: &io::Error) -> bool
    ensures { result ≡ comes_from_signal (error_kind error.now) }
{
    matches!(error.kind(), ErrorKind::Interrupted)
}

// The result of a call that returned this error. `None` if the call is to be repeated.
fn answer_of(error: &io::Error) -> Option<Result<usize, Failed>>
    ensures { result ≡ answer_to error.now }
{
    if is_interrupted(error) {
        None
    } else {
        Some(Err(Failed))
    }
}

// The result of a read. `None` if the read is to be repeated.
fn read_answer_of(answer: io::Result<usize>) -> Option<Result<usize, Failed>>
    ensures { result ≡ read_answer answer }
{
    match answer {
        Ok(n) => Some(Ok(n)),
        Err(error) => answer_of(&error),
    }
}

// The result of a write. `None` if the write is to be repeated. To write no byte of a piece that is
// not empty is a failure.
fn write_answer_of(piece: &[u8], answer: io::Result<usize>) -> Option<Result<usize, Failed>>
    ensures { result ≡ write_answer piece.now answer }
{
    match answer {
        Ok(0) if !piece.is_empty() => Some(Err(Failed)),
        Ok(n) => Some(Ok(n)),
        Err(error) => answer_of(&error),
    }
}

/// Reads once, and returns the number of bytes. Fails after 2^64 - 1 interrupted calls.
pub fn read_once<R: Read>(from: &mut R, buf: &mut [u8]) -> Result<usize, Failed>
    ensures most { IfOk result (λ n. n ≤ length buf.old) }
    ensures moved { IfOk result (λ n. IfSome (R.remaining from.old)
        (λ bytes. MovesBytes n bytes buf.new (R.remaining from.new))) }
    ensures failed { OnErr result (IfSome (R.remaining from.old)
        (λ bytes. R.remaining from.new ≡ Some bytes)) }
{
    for _turn in 0..u64::MAX {
        if let Some(answer) = read_answer_of(from.read(buf)) {
            return answer;
        }
    }
    Err(Failed)
}

/// Writes once, and returns the number of bytes. Fails after 2^64 - 1 interrupted calls.
pub(crate) fn write_once<W: Write>(to: &mut W, piece: &[u8]) -> Result<usize, Failed>
    ensures most { IfOk result (λ n. n ≤ length piece.now) }
    ensures some { IfOk result (λ n. 0 < length piece.now → 0 < n) }
    ensures added { IfOk result (λ n. AppendsText (W.contents to.old) (W.contents to.new)
        (take n piece.now)) }
    ensures failed { OnErr result (AppendsText (W.contents to.old) (W.contents to.new) []) }
{
    for _turn in 0..u64::MAX {
        if let Some(answer) = write_answer_of(piece, to.write(piece)) {
            return answer;
        }
    }
    Err(Failed)
}
