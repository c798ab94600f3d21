//! The loop that reads a file.

ghost use Rattle.std.specs.Prelude.{◌≡◌, ◌+◌, ◌<◌, ◌≤◌, length, vec_len, drop, [], Some, OnOk, IfOk, IfSome, IsErrOf};
ghost use Rattle.outside.specs.Outside.{HasRisen};
ghost use Rattle.outside.specs.Reading.{Moved, TakesMore, TakesAll, AsksFor};

use crate::consumer::Consumer;
use crate::traits::{Failed, OpenFault, PIECE_BYTES, Sources};
use std::alloc::{AllocError, Global};

/// Why a file was not read.
#[derive(Clone, Copy, Debug, PartialEq, Eq)]
pub enum ReadFault {
    /// The file cannot be opened, or a read failed.
    Failed,
    /// The file has more than `MAX_FILE_BYTES` bytes.
    TooLong,
    /// Out of memory.
    OutOfMemory,
}

impl From<AllocError> for ReadFault {
    ghost use Rattle.outside.specs.declared.reader.ReadFault.{ReadFault};

    ghost from_gives = { λ _ r. r ≡ ReadFault.OutOfMemory };

    fn from(_: AllocError) -> ReadFault {
        ReadFault::OutOfMemory
    }
}

impl From<Failed> for ReadFault {
    ghost use Rattle.outside.specs.declared.reader.ReadFault.{ReadFault};

    ghost from_gives = { λ _ r. r ≡ ReadFault.Failed };

    fn from(_: Failed) -> ReadFault {
        ReadFault::Failed
    }
}

/// The maximum size of a file, in bytes.
pub const MAX_FILE_BYTES: usize = 16_777_216;

// A vector of `count` zero bytes.
fn zeros(alloc: Global, count: usize) -> Result<Vec<u8>, AllocError>
    ensures { IfOk result (λ v. vec_len v ≡ count) }
{
    vec![in alloc; 0u8; count]
}

// Reads once into the buffer, hands the bytes to the consumer, and returns their number.
fn take_piece<S: Sources, C: Consumer>(
    sources: &mut S,
    buf: &mut [u8],
    consumer: &mut C,
) -> Result<usize, ReadFault>
    requires some { 0 < length buf.old }
    requires short { length buf.old ≤ PIECE_BYTES }
    ensures most { IfOk result (λ n. n ≤ length buf.old) }
    ensures moved { IfOk result (λ n. IfSome (S.state sources.old).left
        (λ left. Moved n left (S.state sources.new).left × (n ≡ 0 → left ≡ []))) }
    ensures taken { IfOk result (λ n. TakesMore (C.has_taken consumer.old)
        (C.has_taken consumer.new) n (S.state sources.old).left) }
    ensures too_long { IsErrOf result ReadFault.TooLong → ⊥ }
    ensures failed { IsErrOf result ReadFault.Failed
        → HasRisen (S.state sources.old).faults (S.state sources.new).faults }
    ensures later { (S.state sources.old).faults ≤ (S.state sources.new).faults }
    ensures asked { (S.state sources.new).asked ≡ (S.state sources.old).asked }
    ensures same { (S.state sources.new).content ≡ (S.state sources.old).content }
{
    let n = sources.read(buf)?;
    consumer.take(&buf[..n])?;
    Ok(n)
}

// Reads the rest of the open file, but at most one byte more than the limit.
fn read_rest<S: Sources, C: Consumer>(
    sources: &mut S,
    buf: &mut [u8],
    consumer: &mut C,
) -> Result<(), ReadFault>
    requires some { 0 < length buf.old }
    requires short { length buf.old ≤ PIECE_BYTES }
    ensures taken { OnOk result (TakesAll (C.has_taken consumer.old) (C.has_taken consumer.new)
        (S.state sources.old).left) }
    ensures too_long { IsErrOf result ReadFault.TooLong
        → IfSome (S.state sources.old).left (λ bytes. MAX_FILE_BYTES < length bytes) }
    ensures whole { OnOk result (IfSome (S.state sources.old).left
        (λ bytes. (S.state sources.new).left ≡ Some [])) }
    ensures stops { IsErrOf result ReadFault.TooLong
        → IfSome (S.state sources.old).left
        (λ bytes. (S.state sources.new).left ≡ Some (drop (MAX_FILE_BYTES + 1) bytes)) }
    ensures failed { IsErrOf result ReadFault.Failed
        → HasRisen (S.state sources.old).faults (S.state sources.new).faults }
    ensures later { (S.state sources.old).faults ≤ (S.state sources.new).faults }
    ensures asked { (S.state sources.new).asked ≡ (S.state sources.old).asked }
    ensures same { (S.state sources.new).content ≡ (S.state sources.old).content }
{
    let mut total = 0;
    while total <= MAX_FILE_BYTES {
        let want = buf.len().min(MAX_FILE_BYTES + 1 - total);
        let n = take_piece(sources, &mut buf[..want], consumer)?;
        if n == 0 {
            return Ok(());
        }
        total += n;
    }
    Err(ReadFault::TooLong)
}

/// Reads the file with this name, of at most `MAX_FILE_BYTES` bytes, and hands its bytes to the
/// consumer, in pieces of at most `PIECE_BYTES` bytes. The file is never in memory as a whole.
///
/// Errors: see `ReadFault`. `TooLong` comes after one byte more than the limit was read.
pub fn read_file<S: Sources, C: Consumer>(
    alloc: Global,
    sources: &mut S,
    name: &str,
    consumer: &mut C,
) -> Result<(), ReadFault>
    // The consumer took the content of the file.
    ensures taken { OnOk result (TakesAll (C.has_taken consumer.old) (C.has_taken consumer.new)
        ((S.state sources.old).content name.now)) }
    ensures too_long { IsErrOf result ReadFault.TooLong
        → IfSome ((S.state sources.old).content name.now)
        (λ bytes. MAX_FILE_BYTES < length bytes) }
    // The file is read to its end, or to one byte more than the limit.
    ensures whole { OnOk result (IfSome ((S.state sources.old).content name.now)
        (λ bytes. (S.state sources.new).left ≡ Some [])) }
    ensures stops { IsErrOf result ReadFault.TooLong
        → IfSome ((S.state sources.old).content name.now)
        (λ bytes. (S.state sources.new).left ≡ Some (drop (MAX_FILE_BYTES + 1) bytes)) }
    ensures failed { IsErrOf result ReadFault.Failed
        → HasRisen (S.state sources.old).faults (S.state sources.new).faults }
    ensures asked { AsksFor result name.now (S.state sources.old).faults (S.state sources.old).asked
        (S.state sources.new).asked }
    ensures later { (S.state sources.old).faults ≤ (S.state sources.new).faults }
    ensures same { (S.state sources.new).content ≡ (S.state sources.old).content }
{
    match sources.open_file(name) {
        Ok(()) => {}
        Err(OpenFault::Failed) => return Err(ReadFault::Failed),
        Err(OpenFault::OutOfMemory) => return Err(ReadFault::OutOfMemory),
    }
    let mut buf = zeros(alloc, PIECE_BYTES)?;
    read_rest(sources, &mut buf, consumer)
}
