//! The line on standard error that says why a run failed. A failure to write it is ignored. Nothing
//! here allocates memory.

ghost use Rattle.std.specs.Prelude.{◌≡◌, codes};
ghost use Rattle.std.specs.List.{flat_map};
ghost use Rattle.driver.specs.Prelude.{WritesFaultLine, usage_line, unread_line, long_line, file_line, line_fault, fault_line, write_line, memory_line, why_word};

use itoa::Buffer;
use outside::{Sink, write_parts};
use trace_text::{TraceFault, Why};

// Writes these parts, in order.
fn write_fault<E: Sink>(err: &mut E, parts: &[&[u8]])
    ensures { WritesFaultLine (E.state err.old) (E.state err.new)
        (flat_map (λ part. part.now) parts.now) }
{
    let _ = write_parts(err, parts);
}

/// The arguments do not match the usage, or ask for a feature that is not implemented yet.
pub(crate) fn write_usage_fault<E: Sink>(err: &mut E)
    ensures { WritesFaultLine (E.state err.old) (E.state err.new) usage_line }
{
    write_fault(
        err,
        &[
            b"mm_drive: usage: mm_drive --plan P --heap B [--workers W] [--map] FILE... \
            | mm_drive --plan P --heap B [--workers W] --make N\n"
                .as_slice(),
        ],
    )
}

/// The file could not be opened or read.
pub(crate) fn write_read_fault<E: Sink>(err: &mut E, name: &str)
    ensures { WritesFaultLine (E.state err.old) (E.state err.new) (unread_line name.now) }
{
    write_fault(
        err,
        &[
            b"mm_drive: cannot read ".as_slice(),
            name.as_bytes(),
            b"\n".as_slice(),
        ],
    )
}

// A line that begins with the file's name.
fn write_file_fault<E: Sink>(err: &mut E, name: &str, what: &[u8])
    ensures { WritesFaultLine (E.state err.old) (E.state err.new) (file_line name.now what.now) }
{
    write_fault(err, &[b"mm_drive: ".as_slice(), name.as_bytes(), what])
}

/// The file is too long.
pub(crate) fn write_length_fault<E: Sink>(err: &mut E, name: &str)
    ensures { WritesFaultLine (E.state err.old) (E.state err.new) (long_line name.now) }
{
    write_file_fault(err, name, b" is longer than 16777216 bytes\n");
}

// The word for what is wrong with a line.
fn word_of(why: Why) -> &'static [u8]
    ensures { result.now ≡ why_word why }
{
    match why {
        Why::Header => b"header",
        Why::Word => b"word",
        Why::Count => b"count",
        Why::Number => b"number",
        Why::Range => b"range",
    }
}

// A line of the file is not a header or command. `line` is its number in decimal.
fn write_line_fault<'a, E: Sink>(err: &mut E, name: &'a str, line: &'a str, why: &'a [u8])
    ensures { WritesFaultLine (E.state err.old) (E.state err.new)
        (line_fault name.now line.now why.now) }
{
    write_fault(
        err,
        &[
            b"mm_drive: ".as_slice(),
            name.as_bytes(),
            b": line ".as_slice(),
            line.as_bytes(),
            b": ".as_slice(),
            why,
            b"\n".as_slice(),
        ],
    )
}

/// The file is not a trace. The line names its first fault.
pub(crate) fn write_trace_fault<E: Sink>(err: &mut E, name: &str, fault: TraceFault)
    ensures { WritesFaultLine (E.state err.old) (E.state err.new) (fault_line name.now fault) }
{
    match fault {
        TraceFault::Line(line, why) => {
            write_line_fault(err, name, Buffer::new().format(line), word_of(why));
        }
        TraceFault::TooMany => write_file_fault(err, name, b": more than 1000000 commands\n"),
        TraceFault::OutOfMemory => write_memory_fault(err),
    }
}

/// The output could not be written.
pub(crate) fn write_output_fault<E: Sink>(err: &mut E)
    ensures { WritesFaultLine (E.state err.old) (E.state err.new) write_line }
{
    write_fault(err, &[b"mm_drive: write failed\n".as_slice()])
}

/// Memory ran out.
pub(crate) fn write_memory_fault<E: Sink>(err: &mut E)
    ensures { WritesFaultLine (E.state err.old) (E.state err.new) memory_line }
{
    write_fault(err, &[b"mm_drive: out of memory\n".as_slice()])
}
