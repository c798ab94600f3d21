//! The picture of the run whose text is in a file.

ghost use Rattle.std.specs.Prelude.{◌≡◌, ◌<◌, ℕ, length, IfOk, IfSome, IsErrOf, Err};
ghost use Rattle.heap_picture.specs.Asked.{asked_seen};
ghost use Rattle.heap_picture.specs.Reading.{text_read};
ghost use Rattle.heap_picture.specs.Runs.{IsPictureOf, IsTooLong, status_of};
ghost use Rattle.outside.specs.Outside.{HasRisen};

use crate::reader::{TextFault, read_run};
use crate::svg::draw;
use crate::text_files::read_text;
use crate::words::Asked;
use driver::Status;
use outside::{ReadFault, Sources};
use std::alloc::{AllocError, Global};

/// Why there is no picture of a file.
#[derive(Clone, Copy, Debug, PartialEq, Eq)]
pub(crate) enum PictureFault {
    /// It could not be opened or read.
    Unread,
    /// It has too many bytes.
    TooLong,
    /// This line, from 1 on, is the first that is not one of a run's text where it stands.
    Line(u64),
    /// Memory ran out.
    OutOfMemory,
}

impl From<AllocError> for PictureFault {
    ghost use Rattle.heap_picture.specs.declared.pictures.PictureFault.{PictureFault};

    ghost from_gives = { λ _ r. r ≡ PictureFault.OutOfMemory };

    fn from(_: AllocError) -> PictureFault {
        PictureFault::OutOfMemory
    }
}

impl From<ReadFault> for PictureFault {
    ghost use Rattle.heap_picture.specs.Runs.{reading_fault};

    ghost from_gives = { λ fault r. r ≡ reading_fault fault };

    fn from(fault: ReadFault) -> PictureFault {
        match fault {
            ReadFault::Failed => PictureFault::Unread,
            ReadFault::TooLong => PictureFault::TooLong,
            ReadFault::OutOfMemory => PictureFault::OutOfMemory,
        }
    }
}

impl From<TextFault> for PictureFault {
    ghost use Rattle.heap_picture.specs.Runs.{text_fault};

    ghost from_gives = { λ fault r. r ≡ text_fault fault };

    fn from(fault: TextFault) -> PictureFault {
        match fault {
            TextFault::Line(line) => PictureFault::Line(line),
            TextFault::OutOfMemory => PictureFault::OutOfMemory,
        }
    }
}

impl PictureFault {
    /// The status of a run that the fault ends.
    pub(crate) fn status(self) -> Status
        ensures { result ≡ status_of self }
    {
        match self {
            PictureFault::Unread => Status::ReadFault,
            PictureFault::TooLong => Status::TooLong,
            PictureFault::Line(_) => Status::BadTrace,
            PictureFault::OutOfMemory => Status::OutOfMemory,
        }
    }
}

/// The picture of the run whose text is in the file.
pub(crate) fn picture_of_file<S: Sources>(
    alloc: Global,
    sources: &mut S,
    asked: Asked,
) -> Result<Vec<u8>, PictureFault>
    ensures ok { IfOk result (λ v. IsPictureOf
        ((S.state sources.old).content (asked_seen asked.entry).file) asked.entry.names v.items) }
    ensures unread { IsErrOf result PictureFault.Unread
        → HasRisen (S.state sources.old).faults (S.state sources.new).faults }
    ensures too_long { IsErrOf result PictureFault.TooLong
        → IfSome ((S.state sources.old).content (asked_seen asked.entry).file) IsTooLong }
    ensures line { (n : ℕ) → IsErrOf result (PictureFault.Line n)
        → IfSome ((S.state sources.old).content (asked_seen asked.entry).file)
        (λ bytes. text_read bytes ≡ Err n) }
{
    let text = read_text(alloc, sources, asked.file)?;
    let run = read_run(alloc, &text)?;
    Ok(draw(alloc, &run, asked.names)?)
}
