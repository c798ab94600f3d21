//! The whole program as one function.

ghost use Rattle.std.specs.Prelude.{◌≡◌, ◌≢◌, ◌⊎◌, ◌≤◌, ◌<◌, length, slice_get, Some, None, IfSome, MatchOption};
ghost use Rattle.driver.specs.Prelude.{texts, job_of_order, job_of, HasRisen, job_files, HasTraces, Prints, PrintsPrefix, AsksFirst, AsksPrefix, EndsAtKnown, IsLong, IsNoTrace, WritesFaultLine, IsUsage, Unread, IsTooLong, IsBad, write_line, memory_line, IsOneOf, fault_line_of};

use crate::fault_lines::{
    write_length_fault, write_memory_fault, write_output_fault, write_read_fault,
    write_trace_fault, write_usage_fault,
};
use crate::session_runs::write_text_of_session;
use crate::status::Status;
use crate::traces::{FileFault, FilesFault, traces_of_order};
use crate::writing::PrintFault;
use command_line::{Order, Target, read_words};
use outside::{Sink, Sources};
use std::alloc::Global;
use std::thread::Threads;
use work_packets::Gate;

// The names of the files of an order, none for a made trace.
fn files_named<'a>(order: &Order<'a>) -> &'a [String]
    ensures { texts result.now ≡ job_files (job_of_order order.now) }
{
    match order.work {
        Target::Files(files) => files,
        Target::Made(_) => &[],
    }
}

// The name of the file with this index.
fn name_at(files: &[String], place: usize) -> &str
    requires { place < length files.now }
    ensures { slice_get (texts files.now) place ≡ Some result.now }
{
    &files[place]
}

// Reports why the files have no traces.
fn write_files_fault<E: Sink>(err: &mut E, files: &[String], first: FilesFault)
    requires { IsOneOf (length files.now) first }
    ensures { WritesFaultLine (E.state err.old) (E.state err.new)
        (fault_line_of (texts files.now) first) }
{
    match first.fault {
        FileFault::Unread => write_read_fault(err, name_at(files, first.place)),
        FileFault::TooLong => write_length_fault(err, name_at(files, first.place)),
        FileFault::Bad(fault) => write_trace_fault(err, name_at(files, first.place), fault),
        FileFault::OutOfMemory => write_memory_fault(err),
    }
}

/// Runs the program. `words` are the arguments after the program's name.
///
/// It parses the arguments. Then it opens and reads each file in turn, and checks its length and
/// its grammar. Then it runs the traces, and takes all memory that it needs before the first write.
/// The first fault ends the run, with its `Status` and one line on standard error.
pub fn run<R: Threads + Sync, S: Sources, O: Sink, E: Sink, G: Gate>(
    rt: &R,
    alloc: Global,
    words: &[String],
    sources: &mut S,
    out: &mut O,
    err: &mut E,
    gate: &G,
) -> Status
    // The output is the text of a whole session of the job that the arguments name, on its traces.
    ensures ok { result ≡ Status.Ok → IfSome (job_of (texts words.now)) (λ job. Prints
        (S.state sources.old).content job (O.state out.old) (O.state out.new)) }

    // Each other status has its cause, and its line on standard error.
    ensures usage { result ≡ Status.Usage
        → IsUsage (job_of (texts words.now)) (S.state sources.old) (S.state sources.new)
        (WritesFaultLine (E.state err.old) (E.state err.new)) }
    ensures read_fault { result ≡ Status.ReadFault
        → IfSome (job_of (texts words.now))
        (λ job. Unread (job_files job) (S.state sources.old) (S.state sources.new)
        (WritesFaultLine (E.state err.old) (E.state err.new))) }
    ensures too_long { result ≡ Status.TooLong
        → IfSome (job_of (texts words.now))
        (λ job. IsTooLong (job_files job) (S.state sources.old) (S.state sources.new)
        (WritesFaultLine (E.state err.old) (E.state err.new))) }
    ensures bad_trace { result ≡ Status.BadTrace
        → IfSome (job_of (texts words.now))
        (λ job. IsBad (job_files job) (S.state sources.old) (S.state sources.new)
        (WritesFaultLine (E.state err.old) (E.state err.new))) }
    ensures write_fault { result ≡ Status.WriteFault
        → IfSome (job_of (texts words.now))
        (λ job. PrintsPrefix (S.state sources.old).content job (O.state out.old)
        (O.state out.new)) }
    ensures write_reported { result ≡ Status.WriteFault
        → WritesFaultLine (E.state err.old) (E.state err.new) write_line }
    ensures memory_reported { result ≡ Status.OutOfMemory
        → WritesFaultLine (E.state err.old) (E.state err.new) memory_line }

    // Only `Ok` and `WriteFault` write to the output, and `Ok` writes nothing to standard error.
    ensures unwritten { result ≢ Status.Ok → result ≢ Status.WriteFault
        → O.state out.new ≡ O.state out.old }
    ensures silent { result ≡ Status.Ok → E.state err.new ≡ E.state err.old }

    // Only the job's files are opened, each at most once, in their order. `Ok` opens all.
    ensures asked { MatchOption (job_of (texts words.now))
        (S.state sources.new ≡ S.state sources.old)
        (λ job. AsksPrefix (job_files job) (S.state sources.old).asked
        (S.state sources.new).asked) }
    ensures read { result ≡ Status.Ok → IfSome (job_of (texts words.now)) (λ job. AsksFirst
        (length (job_files job)) (job_files job) (S.state sources.old).asked
        (S.state sources.new).asked) }

    // No content changes, and no count of faults falls.
    ensures same { (S.state sources.new).content ≡ (S.state sources.old).content }
    ensures later { ((S.state sources.old).faults ≤ (S.state sources.new).faults)
        × ((O.state out.old).faults ≤ (O.state out.new).faults)
        × ((E.state err.old).faults ≤ (E.state err.new).faults) }

    // If there is cause for a status, it is reported, unless a read error or lack of memory is
    // reported first.
    ensures no_form { job_of (texts words.now) ≡ None
        → (result ≡ Status.Usage) ⊎ (result ≡ Status.OutOfMemory) }
    ensures long { IfSome (job_of (texts words.now))
        (λ job. EndsAtKnown (S.state sources.old).content (job_files job) IsLong
        → (result ≡ Status.TooLong) ⊎ (result ≡ Status.ReadFault)
        ⊎ (result ≡ Status.OutOfMemory)) }
    ensures no_trace { IfSome (job_of (texts words.now))
        (λ job. EndsAtKnown (S.state sources.old).content (job_files job) IsNoTrace
        → (result ≡ Status.BadTrace) ⊎ (result ≡ Status.ReadFault)
        ⊎ (result ≡ Status.OutOfMemory)) }

    // If all files are known to be traces, and neither reading nor writing fails, the run ends
    // with `Ok`, unless memory runs out.
    ensures complete { IfSome (job_of (texts words.now))
        (λ job. HasTraces (S.state sources.old).content job
        → (HasRisen (S.state sources.old).faults (S.state sources.new).faults → ⊥)
        → (HasRisen (O.state out.old).faults (O.state out.new).faults → ⊥)
        → (result ≡ Status.Ok) ⊎ (result ≡ Status.OutOfMemory)) }
{
    let order = match read_words(alloc, words) {
        Ok(Some(order)) => order,
        Ok(None) => {
            write_usage_fault(err);
            return Status::Usage;
        }
        Err(_) => {
            write_memory_fault(err);
            return Status::OutOfMemory;
        }
    };
    let files = files_named(&order);
    let traces = match traces_of_order(alloc, sources, &order) {
        Ok(traces) => traces,
        Err(first) => {
            write_files_fault(err, files, first);
            return first.fault.status();
        }
    };
    match write_text_of_session(rt, alloc, &order, traces, out, gate) {
        Ok(()) => Status::Ok,
        Err(PrintFault::OutOfMemory) => {
            write_memory_fault(err);
            Status::OutOfMemory
        }
        Err(PrintFault::Unwritten) => {
            write_output_fault(err);
            Status::WriteFault
        }
    }
}
