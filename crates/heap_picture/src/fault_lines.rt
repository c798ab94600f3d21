//! The line on standard error that says why there is no picture. A failure to write it is ignored.
//! Nothing here allocates memory.

ghost use Rattle.std.specs.Prelude.{◌≡◌};
ghost use Rattle.std.specs.List.{flat_map};
ghost use Rattle.driver.specs.Prelude.{WritesFaultLine};
ghost use Rattle.heap_picture.specs.Runs.{fault_line, line_text, long_line, memory_line, unread_line, usage_line, write_line};

use crate::pictures::PictureFault;
use itoa::Buffer;
use outside::{Sink, write_parts};

// Writes these parts, in order.
fn write_fault<E: Sink>(err: &mut E, parts: &[&[u8]])
    ensures { WritesFaultLine (E.state err.old) (E.state err.new)
        (flat_map (λ part. part.now) parts.now) }
{
    let _ = write_parts(err, parts);
}

/// The arguments do not match the usage.
pub(crate) fn write_usage_fault<E: Sink>(err: &mut E)
    ensures { WritesFaultLine (E.state err.old) (E.state err.new) usage_line }
{
    write_fault(
        err,
        &[b"heap_view: usage: heap_view [--names M] FILE\n".as_slice()],
    )
}

// The file could not be opened or read.
fn write_read_fault<E: Sink>(err: &mut E, name: &str)
    ensures { WritesFaultLine (E.state err.old) (E.state err.new) (unread_line name.now) }
{
    write_fault(
        err,
        &[
            b"heap_view: cannot read ".as_slice(),
            name.as_bytes(),
            b"\n".as_slice(),
        ],
    )
}

// The file is too long.
fn write_length_fault<E: Sink>(err: &mut E, name: &str)
    ensures { WritesFaultLine (E.state err.old) (E.state err.new) (long_line name.now) }
{
    write_fault(
        err,
        &[
            b"heap_view: ".as_slice(),
            name.as_bytes(),
            b" is longer than 500000000 bytes\n".as_slice(),
        ],
    )
}

// A line of the file is not one of a run's text.
fn write_line_fault<'a, E: Sink>(err: &mut E, name: &'a str, line: &'a str)
    ensures { WritesFaultLine (E.state err.old) (E.state err.new) (line_text name.now line.now) }
{
    write_fault(
        err,
        &[
            b"heap_view: ".as_slice(),
            name.as_bytes(),
            b": line ".as_slice(),
            line.as_bytes(),
            b" is not of the text of a run with a map\n".as_slice(),
        ],
    )
}

/// The output could not be written.
pub(crate) fn write_output_fault<E: Sink>(err: &mut E)
    ensures { WritesFaultLine (E.state err.old) (E.state err.new) write_line }
{
    write_fault(err, &[b"heap_view: write failed\n".as_slice()])
}

/// Memory ran out.
pub(crate) fn write_memory_fault<E: Sink>(err: &mut E)
    ensures { WritesFaultLine (E.state err.old) (E.state err.new) memory_line }
{
    write_fault(err, &[b"heap_view: out of memory\n".as_slice()])
}

/// Why there is no picture of the file.
pub(crate) fn write_picture_fault<E: Sink>(err: &mut E, name: &str, fault: PictureFault)
    ensures { WritesFaultLine (E.state err.old) (E.state err.new) (fault_line name.now fault) }
{
    match fault {
        PictureFault::Unread => write_read_fault(err, name),
        PictureFault::TooLong => write_length_fault(err, name),
        PictureFault::Line(line) => write_line_fault(err, name, Buffer::new().format(line)),
        PictureFault::OutOfMemory => write_memory_fault(err),
    }
}
