//! From the arguments and streams of the process to its exit number.

ghost use Rattle.std.specs.Prelude.{◌≡◌, drop, IfOk, IfErr};
ghost use Rattle.std.specs.Vec.Iter.{into_iter_items};
ghost use Rattle.std.specs.IoError.{error_kind};
ghost use Rattle.command_line.specs.Orders.{texts};
ghost use Rattle.driver.specs.Prelude.{WritesFaultLine, refusal, status_number};
ghost use Rattle.heap_picture.specs.Asked.{asked_by};
ghost use Rattle.heap_picture.specs.Runs.{IsEnd, IsExit, Ran, refusal_line};

use crate::fault_lines::{write_memory_fault, write_usage_fault};
use crate::runs::run;
use driver::Status;
use outside::{ErrSink, FileSources, OutSink, Sink, Sources};
use std::alloc::{AllocError, Global};
use std::env::Args;
use std::io;
use std::io::{ErrorKind, Stderr, Stdout};
use std::rt::Files;

// The arguments after the program's name.
fn command_words(alloc: Global, args: Args) -> Result<Vec<String>, AllocError>
    ensures { IfOk result (λ v. v.items ≡ drop 1 (into_iter_items args)) }
{
    let mut left = args;
    let mut words = Vec::new(alloc);
    let _name = left.next();
    while let Some(word) = left.next() {
        words.push(word)?;
    }
    Ok(words)
}

// The status if the system gives no arguments, with its fault line.
fn refuse<E: Sink>(err: &mut E, kind: ErrorKind) -> Status
    ensures status { result ≡ refusal kind }
    ensures line { WritesFaultLine (E.state err.old) (E.state err.new) (refusal_line kind) }
{
    match kind {
        ErrorKind::OutOfMemory => {
            write_memory_fault(err);
            Status::OutOfMemory
        }
        _ => {
            write_usage_fault(err);
            Status::Usage
        }
    }
}

// Runs the program over these sources.
fn run_args<S: Sources, O: Sink, E: Sink>(
    alloc: Global,
    args: io::Result<Args>,
    sources: &mut S,
    out: &mut O,
    err: &mut E,
) -> Status
    ensures refused { IfErr args (λ e. result ≡ refusal (error_kind e)) }
    ensures reported { IfErr args (λ e. WritesFaultLine (E.state err.old) (E.state err.new)
        (refusal_line (error_kind e))) }
    ensures unwritten { IfErr args (λ e. O.state out.new ≡ O.state out.old) }
    ensures ran { IfOk args (λ it.
        IsEnd (asked_by (texts (drop 1 (into_iter_items it)))) result) }
    ensures showed { IfOk args (λ it. Ran (asked_by (texts (drop 1 (into_iter_items it))))
        (S.state sources.old) (S.state sources.new) (O.state out.old) (O.state out.new)
        (E.state err.old) (E.state err.new) result) }
{
    let args = match args {
        Ok(args) => args,
        Err(error) => return refuse(err, error.kind()),
    };
    let Ok(words) = command_words(alloc, args) else {
        write_memory_fault(err);
        return Status::OutOfMemory;
    };
    run(alloc, &words, sources, out, err)
}

/// The exit number of the process. `args` has the program's name first.
pub fn program<R: Files>(
    rt: &R,
    alloc: Global,
    args: io::Result<Args>,
    out: Stdout,
    err: Stderr,
) -> u8
    // An argument is not UTF-8, or memory for the arguments ran out.
    ensures refused { IfErr args (λ e. result ≡ status_number (refusal (error_kind e))) }
    // Otherwise the number of the status of a run of the arguments after the program's name.
    ensures ran { IfOk args (λ it.
        IsExit (asked_by (texts (drop 1 (into_iter_items it)))) result) }
{
    let mut sources = FileSources::new(rt, alloc);
    let mut out = OutSink::new(out);
    let mut err = ErrSink::new(err);
    run_args(alloc, args, &mut sources, &mut out, &mut err).number()
}
