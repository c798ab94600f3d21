//! Texts, written to a sink.

ghost use Rattle.std.specs.Prelude.{◌≤◌, IsErr, OnOk, OnErr};
ghost use Rattle.std.specs.List.{flat_map};
ghost use Rattle.outside.specs.Outside.{HasRisen, AppendsText, AppendsPrefix};

use crate::traits::{Failed, PIECE_BYTES, Sink};

/// Writes the whole text, in pieces of at most `PIECE_BYTES` bytes.
///
/// Errors: `Failed`. A prefix of the text, but not the whole text, is written then.
pub fn write_text<O: Sink>(out: &mut O, text: &[u8]) -> Result<(), Failed>
    ensures ok { OnOk result (AppendsText (O.state out.old).written
        (O.state out.new).written text.now) }
    ensures prefix { OnErr result (AppendsPrefix (O.state out.old).written
        (O.state out.new).written text.now) }
    ensures cause { IsErr result → HasRisen (O.state out.old).faults (O.state out.new).faults }
    ensures later { (O.state out.old).faults ≤ (O.state out.new).faults }
{
    let mut at = 0;
    while at < text.len() {
        let end = text.len().min(at + PIECE_BYTES);
        let n = out.write(&text[at..end])?;
        at += n;
    }
    Ok(())
}

/// Writes the parts one after the other. Allocates nothing.
///
/// Errors: `Failed`. A prefix of the joined parts, but not the whole, is written then.
pub fn write_parts<O: Sink>(out: &mut O, parts: &[&[u8]]) -> Result<(), Failed>
    ensures ok { OnOk result (AppendsText (O.state out.old).written (O.state out.new).written
        (flat_map (λ part. part.now) parts.now)) }
    ensures prefix { OnErr result (AppendsPrefix (O.state out.old).written (O.state out.new).written
        (flat_map (λ part. part.now) parts.now)) }
    ensures cause { IsErr result → HasRisen (O.state out.old).faults (O.state out.new).faults }
    ensures later { (O.state out.old).faults ≤ (O.state out.new).faults }
{
    for part in parts {
        write_text(out, part)?;
    }
    Ok(())
}
