//! Tests of sources, sinks, and reading and writing.

ghost use Rattle.std.specs.Prelude.{◌≤◌, IfOk};

use outside::{
    ErrSink, Failed, FileSources, MAX_FILE_BYTES, MemSink, MemSources, OutSink, PIECE_BYTES,
    ReadFault, Sources, StreamSink, SureSink, SureSources, open_fault, read_file, read_once,
    write_parts, write_text,
};
use std::alloc::{AllocError, Global};
use std::cell::Cell;
use std::io::{ErrorKind, Read, Write};
use std::test::Fail;
use std::{fs, io, process};

fn files_of(alloc: Global, files: &[(&str, &[u8])]) -> Result<Vec<(String, Vec<u8>)>, AllocError> {
    let mut all = Vec::new(alloc);
    for (name, content) in files {
        all.push((String::from_str(alloc, name)?, content.to_vec(alloc)?))?;
    }
    Ok(all)
}

// Whether reading the file gives these bytes, or this fault.
fn reads<S: Sources>(
    alloc: Global,
    sources: &mut S,
    name: &str,
    want: Result<&[u8], ReadFault>,
) -> bool {
    let mut bytes = Vec::new(alloc);
    match (read_file(alloc, sources, name, &mut bytes), want) {
        (Ok(()), Ok(content)) => bytes.as_slice() == content,
        (Err(fault), Err(wanted)) => fault == wanted,
        _ => false,
    }
}

const WHOLE: &str = "mutator 1\nnew 1.1\nok\n";

// A sink with room for so many bytes, at most so many per call, and a failure at one call, which is
// none at 0. It gets a front of the parts, and one that is not whole with an error.
#[test]
fn writes_to_memory(rt: HostRuntime) -> Result<(), Fail> {
    let alloc = rt.alloc();
    let parts = [
        b"mutator 1\nnew 1.1\n".as_slice(),
        b"".as_slice(),
        b"ok".as_slice(),
        b"\n".as_slice(),
    ];
    for (room, most, failing, want) in [
        (100, 100, 0, WHOLE),
        (100, 100, 1, ""),
        (100, 100, 2, "mutator 1\nnew 1.1\n"),
        (100, 100, 3, "mutator 1\nnew 1.1\nok"),
        (100, 8, 3, "mutator 1\nnew 1."),
        (100, 1, 1, ""),
        (100, 1, 2, "m"),
        (100, 1, 21, "mutator 1\nnew 1.1\nok"),
        (100, 1, 22, WHOLE),
        (5, 3, 0, "mutat"),
    ] {
        let mut sink = MemSink::new(alloc, room, most, [failing].to_vec(alloc)?)?;
        let is_whole = write_parts(&mut sink, &parts).is_ok();
        let is_wanted = sink.bytes() == want.as_bytes();
        assert!(rt;
            is_wanted && is_whole == (want == WHOLE),
            "{most} {failing}"
        );
    }
    Ok(())
}

// A file of one piece takes three calls: one to open it, one for the piece, and one for the end.
// The call before them has no open file: it reads nothing, and never fails.
#[test]
fn reads_from_memory(rt: HostRuntime) -> Result<(), Fail> {
    let alloc = rt.alloc();
    for (name, failing, want) in [
        ("a", 1, Ok(b"one".as_slice())),
        ("a", 2, Err(ReadFault::Failed)),
        ("a", 3, Err(ReadFault::Failed)),
        ("a", 4, Err(ReadFault::Failed)),
        ("a", 5, Ok(b"one".as_slice())),
        ("b", 0, Ok(b"two".as_slice())),
        ("c", 0, Err(ReadFault::Failed)),
    ] {
        let files = files_of(alloc, &[("a", b"one"), ("b", b"two"), ("a", b"three")])?;
        let mut sources = MemSources::new(files, [failing].to_vec(alloc)?);
        let nothing = sources.read(&mut [0u8; 4]);
        let is_read = reads(alloc, &mut sources, name, want);
        assert!(rt; is_read && nothing == Ok(0), "{name} {failing}");
    }
    let mut sources = SureSources::new(files_of(alloc, &[("a", b"one"), ("a", b"two")])?);
    let is_first = reads(alloc, &mut sources, "a", Ok(b"one".as_slice()));
    let is_empty = reads(alloc, &mut sources, "b", Ok(b"".as_slice()));
    assert!(rt; is_first && is_empty);
    Ok(())
}

// Bytes of which the last of the first piece and the last of all differ from the others.
fn pattern(alloc: Global, len: usize) -> Result<Vec<u8>, AllocError> {
    let mut bytes = vec![in alloc; 7u8; len]?;
    if let Some(byte) = bytes.get_mut(PIECE_BYTES - 1) {
        *byte = 8;
    }
    if let Some(byte) = bytes.last_mut() {
        *byte = 9;
    }
    Ok(bytes)
}

// A file is written under one name and read by another. A trailing space is part of a name, and a
// file is no directory.
#[test]
fn reads_real_files(rt: HostRuntime) -> Result<(), Fail> {
    let alloc = rt.alloc();
    let id = process::id(rt.process());
    let mut sources = FileSources::new(&rt, alloc);
    for (own, asked, len, fault) in [
        ("", "", 10, None),
        ("", "", 200_000, None),
        ("", "", MAX_FILE_BYTES, None),
        ("", "", MAX_FILE_BYTES + 1, Some(ReadFault::TooLong)),
        (" ", " ", 6, None),
        (" ", "", 6, Some(ReadFault::Failed)),
        ("", " ", 6, Some(ReadFault::Failed)),
        ("", "/a", 6, Some(ReadFault::Failed)),
    ] {
        let path = format!(in alloc; "/tmp/mm_drive_{id}{own}")?;
        let name = format!(in alloc; "/tmp/mm_drive_{id}{asked}")?;
        let bytes = pattern(alloc, len)?;
        let want = match fault {
            Some(fault) => Err(fault),
            None => Ok(bytes.as_slice()),
        };
        fs::write(&rt, path.as_str(), bytes.as_slice())?;
        let is_read = reads(alloc, &mut sources, name.as_str(), want);
        fs::remove_file(&rt, path.as_str())?;
        assert!(rt; is_read, "{own} {asked} {len}");
    }
    Ok(())
}

// With no open file a read gives nothing. A directory is opened like a file, and the first read
// fails.
#[test]
fn reads_no_directory(rt: HostRuntime) {
    let mut sources = FileSources::new(&rt, rt.alloc());
    let before = sources.read(&mut [0u8; 4]);
    let unnamed = sources.open_file("").is_err();
    let after = sources.read(&mut [0u8; 4]);
    let opened = sources.open_file("/tmp").is_ok();
    let failed = sources.read(&mut [0u8; 4]).is_err();
    assert!(rt; before == Ok(0) && unnamed && after == Ok(0) && opened && failed);
}

#[test]
fn writes_to_the_streams(rt: HostRuntime) {
    let out = write_text(&mut OutSink::new(rt.stdout()), b"out\n").is_ok();
    let err = write_text(&mut ErrSink::new(rt.stderr()), b"err\n").is_ok();
    let sure = write_text(&mut SureSink, b"sure\n").is_ok();
    assert!(rt; out && err && sure);
}

// At most `most` bytes per call, and an error at calls `first` to `end - 1`, counted from 1.
#[derive(Drop)]
struct Stream<'a> {
    taken: &'a Cell<usize>,
    calls: u32,
    most: usize,
    first: u32,
    end: u32,
    kind: ErrorKind,
}

impl Stream<'_> {
    fn next(&mut self, len: usize) -> io::Result<usize>
        ensures { IfOk result (λ n. n ≤ len) }
    {
        self.calls = self.calls.saturating_add(1);
        if self.first <= self.calls && self.calls < self.end {
            return Err(io::Error::from(self.kind));
        }
        let n = len.min(self.most);
        self.taken.set(self.taken.get().saturating_add(n));
        Ok(n)
    }
}

impl Write for Stream<'_> {
    fn write(&mut self, bytes: &[u8]) -> io::Result<usize> {
        self.next(bytes.len())
    }

    fn flush(&mut self) -> io::Result<()> {
        Ok(())
    }
}

impl Read for Stream<'_> {
    fn read(&mut self, buf: &mut [u8]) -> io::Result<usize> {
        self.next(buf.len())
    }
}

#[test]
fn writes_to_streams(rt: HostRuntime) {
    let table = [
        (100, 0, 0, ErrorKind::Other, 10),
        (3, 0, 0, ErrorKind::Other, 10),
        (0, 0, 0, ErrorKind::Other, 0),
        (100, 1, u32::MAX, ErrorKind::Other, 0),
        (4, 2, 3, ErrorKind::BrokenPipe, 4),
        (4, 1, 2, ErrorKind::Interrupted, 10),
        (4, 2, 3, ErrorKind::Interrupted, 10),
    ];
    for (most, first, end, kind, want) in table {
        let taken = Cell::new(0usize);
        let mut sink = StreamSink::new(Stream {
            taken: &taken,
            calls: 0,
            most,
            first,
            end,
            kind,
        });
        let is_whole = write_text(&mut sink, b"mutator 1\n").is_ok();
        let is_nothing_written = write_text(&mut sink, b"").is_ok();
        let count = taken.get();
        assert!(rt;
            is_nothing_written && count == want && is_whole == (want == 10),
            "{most} {first}"
        );
    }
}

#[test]
fn reads_on_after_a_signal(rt: HostRuntime) {
    for (kind, want) in [
        (ErrorKind::Interrupted, Ok(3)),
        (ErrorKind::Other, Err(Failed)),
    ] {
        let taken = Cell::new(0usize);
        let mut stream = Stream {
            taken: &taken,
            calls: 0,
            most: 3,
            first: 1,
            end: 2,
            kind,
        };
        assert_eq!(rt; read_once(&mut stream, &mut [0u8; 8]), want);
    }
}

// The texts differ, so that each shows the fault.
#[test]
fn faults(rt: HostRuntime) -> Result<(), Fail> {
    let alloc = rt.alloc();
    for (kind, text) in [
        (ErrorKind::NotFound, "cannot be opened"),
        (ErrorKind::PermissionDenied, "cannot be opened"),
        (ErrorKind::OutOfMemory, "out of memory"),
    ] {
        let fault = open_fault(&io::Error::from(kind));
        assert_eq!(rt; format!(in alloc; "{fault}")?.as_str(), text);
    }
    Ok(())
}
