//! Replies, written to a sink through a piece of text, so that no text of all replies is in memory.

ghost use Rattle.std.specs.Prelude.{◌≡◌, ◌≤◌, ◌++◌, [], length, vec_capacity, vec_len, IfOk, IsErr, OnOk, OnErr};
ghost use Rattle.driver.specs.Prelude.{Setting, Moment, Closes, ClosesSome, AppendsText, AppendsPrefix, HasRisen, mutator_text, replies_part};

use mm_runtime::Manager;
use outside::{Failed, PIECE_BYTES, Sink, write_text};
use plan_api::Plan;
use std::alloc::AllocError;
use stored_replies::StoredReplies;
use trace_text::{REPLY_BYTES, put_mutator, put_reply};

/// Why the text of a session was not written.
#[derive(Clone, Copy, Debug, PartialEq, Eq)]
pub(crate) enum PrintFault {
    /// Memory ran out, before the first write.
    OutOfMemory,
    /// The sink failed.
    Unwritten,
}

impl From<AllocError> for PrintFault {
    ghost use Rattle.driver.specs.declared.writing.PrintFault.{PrintFault};

    ghost from_gives = { λ _ r. r ≡ PrintFault.OutOfMemory };

    fn from(_: AllocError) -> PrintFault {
        PrintFault::OutOfMemory
    }
}

impl From<Failed> for PrintFault {
    ghost use Rattle.driver.specs.declared.writing.PrintFault.{PrintFault};

    ghost from_gives = { λ _ r. r ≡ PrintFault.Unwritten };

    fn from(_: Failed) -> PrintFault {
        PrintFault::Unwritten
    }
}

// A piece with more bytes has no room for a reply.
const FULL_BYTES: usize = PIECE_BYTES - REPLY_BYTES;

// Writes the piece, and empties it.
#[cold]
#[inline(never)]
fn write_piece<O: Sink>(out: &mut O, piece: Vec<u8>) -> Result<Vec<u8>, Failed>
    ensures ok { OnOk result (AppendsText (O.state out.old).written (O.state out.new).written
        piece.items) }
    ensures prefix { OnErr result (AppendsPrefix (O.state out.old).written
        (O.state out.new).written piece.items) }
    ensures empty { IfOk result (λ p. p.items ≡ []) }
    ensures capacity { IfOk result (λ p. vec_capacity p ≡ vec_capacity piece) }
    ensures cause { IsErr result → HasRisen (O.state out.old).faults (O.state out.new).faults }
    ensures later { (O.state out.old).faults ≤ (O.state out.new).faults }
{
    let mut piece = piece;
    write_text(out, &piece)?;
    piece.clear();
    Ok(piece)
}

// The line of a mutator in an empty piece.
fn begun(mutator: u32, piece: Vec<u8>) -> Vec<u8>
    requires empty { piece.items ≡ [] }
    requires room { PIECE_BYTES ≤ vec_capacity piece }
    ensures items { result.items ≡ mutator_text mutator [] }
    ensures few { vec_len result ≤ REPLY_BYTES }
    ensures room { PIECE_BYTES ≤ vec_capacity result }
{
    let mut piece = piece;
    put_mutator(mutator, &mut piece);
    piece
}

// Writes the line of a mutator, and those of its replies. Allocates nothing: the piece is empty and
// has room for `PIECE_BYTES`, before and after. It is handed on by value, so that the loop keeps it
// in registers.
fn write_replies<O: Sink>(
    out: &mut O,
    mutator: u32,
    replies: &StoredReplies,
    piece: Vec<u8>,
) -> Result<Vec<u8>, Failed>
    requires empty { piece.items ≡ [] }
    requires room { PIECE_BYTES ≤ vec_capacity piece }
    ensures ok { OnOk result (AppendsText (O.state out.old).written (O.state out.new).written
        (mutator_text mutator replies.now.items)) }
    ensures prefix { OnErr result (AppendsPrefix (O.state out.old).written
        (O.state out.new).written (mutator_text mutator replies.now.items)) }
    ensures empty { IfOk result (λ p. p.items ≡ []) }
    ensures room { IfOk result (λ p. PIECE_BYTES ≤ vec_capacity p) }
    ensures cause { IsErr result → HasRisen (O.state out.old).faults (O.state out.new).faults }
    ensures later { (O.state out.old).faults ≤ (O.state out.new).faults }
{
    let mut text = begun(mutator, piece);
    for reply in replies.iter() {
        put_reply(&reply, &mut text);
        if text.len() > FULL_BYTES {
            text = write_piece(out, text)?;
        }
    }
    write_piece(out, text)
}

/// Writes the replies of all mutators through an empty piece. Allocates nothing.
///
/// Errors: `Failed`. A prefix of their text, but not the whole, is written then.
pub(crate) fn write_all_replies<P: Plan, O: Sink>(
    out: &mut O,
    manager: &Manager<P>,
    piece: Vec<u8>,
) -> Result<(), Failed>
    requires order { ClosesSome P.rules manager.now }
    requires empty { piece.items ≡ [] }
    requires room { PIECE_BYTES ≤ vec_capacity piece }
    ensures ok { (t : Setting) (last : Moment) → Closes P.rules manager.now t last
        → OnOk result (AppendsText (O.state out.old).written (O.state out.new).written
        (replies_part (length t.traces) last)) }
    ensures prefix { (t : Setting) (last : Moment) → Closes P.rules manager.now t last
        → OnErr result (AppendsPrefix (O.state out.old).written (O.state out.new).written
        (replies_part (length t.traces) last)) }
    ensures cause { IsErr result → HasRisen (O.state out.old).faults (O.state out.new).faults }
    ensures later { (O.state out.old).faults ≤ (O.state out.new).faults }
{
    let mut piece = piece;
    for m in 0..manager.mutators() {
        piece = write_replies(out, m + 1, manager.replies(m + 1), piece)?;
    }
    Ok(())
}

/// Writes the text of a session: the replies of all mutators through an empty piece, and then the
/// report. Allocates nothing.
///
/// Errors: `Failed`. A prefix of the text, but not the whole, is written then.
pub(crate) fn write_session<P: Plan, O: Sink>(
    out: &mut O,
    manager: &Manager<P>,
    report: &[u8],
    piece: Vec<u8>,
) -> Result<(), Failed>
    requires order { ClosesSome P.rules manager.now }
    requires empty { piece.items ≡ [] }
    requires room { PIECE_BYTES ≤ vec_capacity piece }
    ensures ok { (t : Setting) (last : Moment) → Closes P.rules manager.now t last
        → OnOk result (AppendsText (O.state out.old).written (O.state out.new).written
        (replies_part (length t.traces) last ++ report.now)) }
    ensures prefix { (t : Setting) (last : Moment) → Closes P.rules manager.now t last
        → OnErr result (AppendsPrefix (O.state out.old).written (O.state out.new).written
        (replies_part (length t.traces) last ++ report.now)) }
    ensures cause { IsErr result → HasRisen (O.state out.old).faults (O.state out.new).faults }
    ensures later { (O.state out.old).faults ≤ (O.state out.new).faults }
{
    write_all_replies(out, manager, piece)?;
    write_text(out, report)
}
