//! The text of a file, which may be as long as a run's text.

ghost use Rattle.std.specs.Prelude.{◌≡◌, ◌+◌, ◌<◌, ◌≤◌, length, vec_len, IfOk, IfSome, IsErrOf, OnOk};
ghost use Rattle.heap_picture.specs.TextFiles.{ReadsRest};
ghost use Rattle.outside.specs.Outside.{HasRisen};

use outside::{OpenFault, PIECE_BYTES, ReadFault, Sources};
use std::alloc::{AllocError, Global};

/// The most bytes of a text. No run prints more: 16 mutators have 1,000,000 replies each, a reply's
/// line has 25 bytes at most, and a heap has at most 1,398,101 objects, whose lines have 47.
pub const MAX_TEXT_BYTES: usize = 500_000_000;

// A vector of `count` zero bytes.
fn zeros(alloc: Global, count: usize) -> Result<Vec<u8>, AllocError>
    ensures { IfOk result (λ v. vec_len v ≡ count) }
{
    vec![in alloc; 0u8; count]
}

// Reads the rest of the open file, until it has too many bytes.
fn read_rest<S: Sources>(
    sources: &mut S,
    buf: &mut [u8],
    text: &mut Vec<u8>,
) -> Result<(), ReadFault>
    requires some { 0 < length buf.old }
    requires short { length buf.old ≤ PIECE_BYTES }
    ensures read { OnOk result (ReadsRest text.old.items text.new.items
        (S.state sources.old).left) }
    ensures most { OnOk result (length text.new.items
        ≤ length text.old.items + MAX_TEXT_BYTES) }
    ensures too_long { IsErrOf result ReadFault.TooLong
        → IfSome (S.state sources.old).left (λ bytes. MAX_TEXT_BYTES < length bytes) }
    ensures failed { IsErrOf result ReadFault.Failed
        → HasRisen (S.state sources.old).faults (S.state sources.new).faults }
{
    let mut total = 0;
    while total <= MAX_TEXT_BYTES {
        let count = sources.read(buf)?;
        if count == 0 {
            return Ok(());
        }
        text.extend_from_slice(&buf[..count])?;
        total += count;
    }
    Err(ReadFault::TooLong)
}

/// The text of the file with this name, of at most `MAX_TEXT_BYTES` bytes.
pub(crate) fn read_text<S: Sources>(
    alloc: Global,
    sources: &mut S,
    name: &str,
) -> Result<Vec<u8>, ReadFault>
    ensures read { IfOk result (λ v. IfSome ((S.state sources.old).content name.now)
        (λ bytes. v.items ≡ bytes)) }
    ensures most { IfOk result (λ v. length v.items ≤ MAX_TEXT_BYTES) }
    ensures too_long { IsErrOf result ReadFault.TooLong
        → IfSome ((S.state sources.old).content name.now) (λ bytes. MAX_TEXT_BYTES < length bytes) }
    ensures failed { IsErrOf result ReadFault.Failed
        → HasRisen (S.state sources.old).faults (S.state sources.new).faults }
{
    match sources.open_file(name) {
        Ok(()) => {}
        Err(OpenFault::Failed) => return Err(ReadFault::Failed),
        Err(OpenFault::OutOfMemory) => return Err(ReadFault::OutOfMemory),
    }
    let mut buf = zeros(alloc, PIECE_BYTES)?;
    let mut text = Vec::new(alloc);
    read_rest(sources, &mut buf, &mut text)?;
    Ok(text)
}
