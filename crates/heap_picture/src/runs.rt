//! The whole program as one function.

ghost use Rattle.std.specs.Prelude.{◌≡◌, None, IfSome};
ghost use Rattle.command_line.specs.Orders.{texts};
ghost use Rattle.heap_picture.specs.Asked.{asked_by, asked_seen};
ghost use Rattle.heap_picture.specs.Runs.{Refused, Showed};

use crate::fault_lines::{
    write_memory_fault, write_output_fault, write_picture_fault, write_usage_fault,
};
use crate::pictures::picture_of_file;
use crate::words::{Asked, read_asked};
use driver::Status;
use outside::{Sink, Sources, write_text};
use std::alloc::Global;

// Writes the picture that the command line asks for.
fn show<S: Sources, O: Sink, E: Sink>(
    alloc: Global,
    asked: Asked,
    sources: &mut S,
    out: &mut O,
    err: &mut E,
) -> Status
    ensures { Showed (asked_seen asked.entry) (S.state sources.old) (S.state sources.new)
        (O.state out.old) (O.state out.new) (E.state err.old) (E.state err.new) result }
{
    let picture = match picture_of_file(alloc, sources, asked) {
        Ok(picture) => picture,
        Err(fault) => {
            write_picture_fault(err, asked.file, fault);
            return fault.status();
        }
    };
    if write_text(out, &picture).is_err() {
        write_output_fault(err);
        return Status::WriteFault;
    }
    Status::Ok
}

/// Runs the program. `words` are the arguments after the program's name.
///
/// It parses the arguments, reads the file and its text, and builds the whole picture before the
/// first write. The first fault ends the run, with its `Status` and one line on standard error.
pub fn run<S: Sources, O: Sink, E: Sink>(
    alloc: Global,
    words: &[String],
    sources: &mut S,
    out: &mut O,
    err: &mut E,
) -> Status
    // The usage line where the arguments do not match the usage.
    ensures refused { asked_by (texts words.now) ≡ None
        → Refused (S.state sources.old) (S.state sources.new) (O.state out.old) (O.state out.new)
        (E.state err.old) (E.state err.new) result }
    // Otherwise the picture, or the cause of another status and its line.
    ensures showed { IfSome (asked_by (texts words.now)) (λ a. Showed a (S.state sources.old)
        (S.state sources.new) (O.state out.old) (O.state out.new) (E.state err.old)
        (E.state err.new) result) }
{
    let Some(asked) = read_asked(words) else {
        write_usage_fault(err);
        return Status::Usage;
    };
    show(alloc, asked, sources, out, err)
}
