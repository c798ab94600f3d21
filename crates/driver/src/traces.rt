//! The traces in named files, and those of an order.

ghost use Rattle.std.specs.Prelude.{◌≡◌, ◌≤◌, ◌∷◌, [], length, All, OnOk, IfOk, IfErr, IfSome, IsErrOf};
ghost use Rattle.driver.specs.Prelude.{HasRead, texts, HasRisen, AnyFault, AreTraces, AreTracesOf, IsWithinLimits, job_files, job_of_order, made_trace, IsTraceIn, IsLong, HasFault, AsksFirst, AsksPrefix, IsRunnableTrace, AsksName, Halts, status_of};

use crate::status::Status;
use command_line::{Order, Target};
use ideal_heap::MAX_MUTATORS;
use made_trace::made_stored;
use outside::{Consumer, ReadFault, Sources, read_file};
use std::alloc::{AllocError, Global};
use stored_commands::StoredTrace;
use trace_text::{MAX_COMMANDS, TraceFault, TraceReader};

/// Why a file has no trace.
#[derive(Clone, Copy, Debug, PartialEq, Eq)]
pub(crate) enum FileFault {
    /// It could not be opened or read.
    Unread,
    /// It has too many bytes.
    TooLong,
    /// It is not a trace.
    Bad(TraceFault),
    /// Memory ran out.
    OutOfMemory,
}

/// Why files have no traces: the first such file, counted from 0, and what is wrong with it. The
/// place says nothing if memory ran out.
#[derive(Clone, Copy, Debug, PartialEq, Eq)]
pub(crate) struct FilesFault {
    pub(crate) place: usize,
    pub(crate) fault: FileFault,
}

impl From<AllocError> for FilesFault {
    ghost use Rattle.driver.specs.declared.traces.FileFault.{FileFault};

    ghost from_gives = { λ _ r. r.fault ≡ FileFault.OutOfMemory };

    fn from(_: AllocError) -> FilesFault {
        FilesFault {
            place: 0,
            fault: FileFault::OutOfMemory,
        }
    }
}

impl From<ReadFault> for FileFault {
    ghost use Rattle.driver.specs.Reading.{reading_fault};

    ghost from_gives = { λ fault r. r ≡ reading_fault fault };

    fn from(fault: ReadFault) -> FileFault {
        match fault {
            ReadFault::Failed => FileFault::Unread,
            ReadFault::TooLong => FileFault::TooLong,
            ReadFault::OutOfMemory => FileFault::OutOfMemory,
        }
    }
}

impl From<TraceFault> for FileFault {
    ghost use Rattle.driver.specs.Reading.{text_fault};

    ghost from_gives = { λ fault r. r ≡ text_fault fault };

    fn from(fault: TraceFault) -> FileFault {
        match fault {
            TraceFault::Line(..) | TraceFault::TooMany => FileFault::Bad(fault),
            TraceFault::OutOfMemory => FileFault::OutOfMemory,
        }
    }
}

impl FileFault {
    /// The status of a run that the fault ends.
    pub(crate) fn status(self) -> Status
        ensures { result ≡ status_of self }
    {
        match self {
            FileFault::Unread => Status::ReadFault,
            FileFault::TooLong => Status::TooLong,
            FileFault::Bad(_) => Status::BadTrace,
            FileFault::OutOfMemory => Status::OutOfMemory,
        }
    }
}

// Reads the trace in a file as the file's bytes come.
#[derive(Drop)]
struct FileReader {
    reader: TraceReader,
}

impl Consumer for FileReader {
    ghost has_taken = { λ r bytes. HasRead r.reader bytes };

    fn take(&mut self, piece: &[u8]) -> Result<(), AllocError> {
        self.reader.read(piece)
    }
}

// The trace in the file with this name.
fn trace_of_file<S: Sources>(
    alloc: Global,
    sources: &mut S,
    name: &str,
) -> Result<StoredTrace, FileFault>
    ensures ok { IfOk result (λ v. IsTraceIn ((S.state sources.old).content name.now) v) }
    ensures fit { IfOk result IsRunnableTrace }
    ensures unread { IsErrOf result FileFault.Unread
        → HasRisen (S.state sources.old).faults (S.state sources.new).faults }
    ensures asked { AsksName result name.now (S.state sources.old) (S.state sources.new) }
    ensures too_long { IsErrOf result FileFault.TooLong
        → IfSome ((S.state sources.old).content name.now) IsLong }
    ensures bad { (f : AnyFault) → IsErrOf result (FileFault.Bad f)
        → IfSome ((S.state sources.old).content name.now) (HasFault f) }
    ensures later { (S.state sources.old).faults ≤ (S.state sources.new).faults }
    ensures same { (S.state sources.new).content ≡ (S.state sources.old).content }
{
    let mut file = FileReader {
        reader: TraceReader::new(alloc),
    };
    read_file(alloc, sources, name, &mut file)?;
    Ok(file.reader.finish()?)
}

/// The traces in the files with these names, in their order. Reading ends at the first file that
/// has no trace.
pub(crate) fn traces_of_files<S: Sources>(
    alloc: Global,
    sources: &mut S,
    files: &[String],
) -> Result<Vec<StoredTrace>, FilesFault>
    ensures ok { IfOk result (λ v. AreTraces (S.state sources.old).content (texts files.now)
        v.items) }
    ensures fit { IfOk result (λ v. All IsRunnableTrace v.items) }
    ensures all { OnOk result (AsksFirst (length files.now) (texts files.now)
        (S.state sources.old).asked (S.state sources.new).asked) }
    ensures fault { IfErr result (Halts (texts files.now) (S.state sources.old)
        (S.state sources.new)) }
    ensures prefix { AsksPrefix (texts files.now) (S.state sources.old).asked
        (S.state sources.new).asked }
    ensures later { (S.state sources.old).faults ≤ (S.state sources.new).faults }
    ensures same { (S.state sources.new).content ≡ (S.state sources.old).content }
{
    let mut traces = Vec::with_capacity(alloc, files.len())?;
    for (place, name) in files.iter().enumerate() {
        match trace_of_file(alloc, sources, name) {
            Ok(commands) => traces.push_reserved(commands),
            Err(fault) => return Err(FilesFault { place, fault }),
        }
    }
    Ok(traces)
}

// The made trace of so many commands, as the one trace of a session.
fn made_alone(alloc: Global, commands: u32) -> Result<Vec<StoredTrace>, AllocError>
    requires { commands ≤ MAX_COMMANDS }
    ensures made { IfOk result (λ v. v.items ≡ made_trace commands ∷ []) }
    ensures fit { IfOk result (λ v. All IsRunnableTrace v.items) }
{
    let mut traces = Vec::with_capacity(alloc, 1)?;
    traces.push_reserved(made_stored(alloc, commands)?);
    Ok(traces)
}

/// The traces of an order: those in its files, in their order, or the made one. Reading ends at the
/// first file that has no trace.
pub(crate) fn traces_of_order<S: Sources>(
    alloc: Global,
    sources: &mut S,
    order: &Order,
) -> Result<Vec<StoredTrace>, FilesFault>
    requires { IsWithinLimits (job_of_order order.now).work }
    ensures ok { IfOk result (λ v. AreTracesOf (S.state sources.old).content
        (job_of_order order.now).work v.items) }
    ensures fit { IfOk result (λ v. All IsRunnableTrace v.items) }
    ensures some { IfOk result (λ v. 1 ≤ length v.items) }
    ensures few { IfOk result (λ v. length v.items ≤ MAX_MUTATORS) }
    ensures all { OnOk result (AsksFirst (length (job_files (job_of_order order.now)))
        (job_files (job_of_order order.now)) (S.state sources.old).asked
        (S.state sources.new).asked) }
    ensures fault { IfErr result (Halts (job_files (job_of_order order.now))
        (S.state sources.old) (S.state sources.new)) }
    ensures prefix { AsksPrefix (job_files (job_of_order order.now)) (S.state sources.old).asked
        (S.state sources.new).asked }
    ensures later { (S.state sources.old).faults ≤ (S.state sources.new).faults }
    ensures same { (S.state sources.new).content ≡ (S.state sources.old).content }
{
    match order.work {
        Target::Files(files) => traces_of_files(alloc, sources, files),
        Target::Made(commands) => Ok(made_alone(alloc, commands)?),
    }
}
