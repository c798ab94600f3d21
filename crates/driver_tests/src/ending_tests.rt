//! Tests of how runs end: faults of files, limits, and devices or memory that fail.

ghost use Rattle.std.specs.Prelude.{None, Some, []};

use crate::test_runs::{
    FIRST, FIRST_TEXT, file_of, number_of_run, report, run_line, trace_in, words_in,
};
use outside::{Failed, MemSink, MemSources, OpenFault, Sink, Sources, SureSink, SureSources};
use std::alloc::{AllocError, Global};
use std::test::Fail;
use std::thread::Threads;
use work_packets::OpenGate;

const GOOD: &str = "--plan nogc --heap 4 a";

// The replies at the front of `FIRST_TEXT`.
const FIRST_REPLIES: &str = "mutator 1\nnew 1.1\nok\nnum 7\nnil\n";

const UNREAD: &str = "--plan nogc --heap 4 b";

const PAIR: &str = "--plan nogc --heap 4 a b";

const PAIR_TRACES: &str = "new r0 0 1;write r0 0 5;share g0 r0;meet|meet;load r1 g0;read r1 0";

const PAIR_TEXT: &str = "0|mutator 1\nnew 1.1\nok\nok\nok\nmutator 2\nok\nref 1.1\nnum 5\nplan";

const LONGEST: &str = "4||mm_drive: a is longer than 16777216 bytes\n";

// A line, the beginning of file `a`, how often a piece follows it, and the report.
const CONTENTS: [(&str, &str, usize, &str, &str); 7] = [
    // The last lines without a newline are accepted.
    (
        "--plan nogc --heap 1024 a",
        "mmtrace 1",
        0,
        "",
        "0|mutator 1\n|",
    ),
    (GOOD, "mmtrace 1\nread r0 0", 0, "", "0|mutator 1\nnull\n|"),
    (UNREAD, "", 0, "", "3||mm_drive: cannot read b\n"),
    (GOOD, "", 0, "", "5||mm_drive: a: line 1: header\n"),
    (
        GOOD,
        "mmtrace 1\r\n",
        0,
        "",
        "5||mm_drive: a: line 1: header\n",
    ),
    // The longest file, and one byte more.
    (
        GOOD,
        "mmtrace 1\n",
        2_796_201,
        "xxxxxx",
        "5||mm_drive: a: line 2: word\n",
    ),
    (GOOD, "mmtrace 1\nx", 2_796_201, "xxxxxx", LONGEST),
];

// The commands of file `a`, and its fault.
const BAD_TRACES: &str = "1000000*gc;bad|more than 1000000 commands
1000001*gc|more than 1000000 commands
1*;gc|line 2: word
read  r0 0|line 2: count
read r0  0|line 2: count
read r0 0;read r0|line 3: count
drop r16|line 2: range
new r0 1025 0|line 2: range
write r0 0 18446744073709551616|line 2: range
read r00 0|line 2: number
new r0 x 60001|line 2: number";

// A text with a piece appended so many times.
fn repeated(alloc: Global, head: &str, count: usize, piece: &str) -> Result<Vec<u8>, AllocError> {
    let mut text = Vec::from_slice(alloc, head.as_bytes())?;
    for _ in 0..count {
        text.extend_from_slice(piece.as_bytes())?;
    }
    Ok(text)
}

#[test]
fn contents(rt: HostRuntime) -> Result<(), Fail> {
    let alloc = rt.alloc();
    for (line, head, count, piece, want) in CONTENTS {
        let ran = run_line(&rt, alloc, line, repeated(alloc, head, count, piece)?)?;
        assert!(rt; ran.as_slice() == want.as_bytes(), "{line} {head} {want}");
    }
    Ok(())
}

#[test]
fn bad_traces(rt: HostRuntime) -> Result<(), Fail> {
    let alloc = rt.alloc();
    for row in BAD_TRACES.lines() {
        let (commands, fault) = row.split_once('|').unwrap_or(("", ""));
        let ran = run_line(&rt, alloc, GOOD, trace_in(alloc, commands)?)?;
        let want = format!(in alloc; "5||mm_drive: a: {fault}\n")?;
        assert!(rt; ran.as_slice() == want.as_bytes(), "{row}");
    }
    Ok(())
}

// A sink that takes each piece whole, and records the longest length and the total.
#[derive(Drop)]
struct Gauge {
    longest: usize,
    total: usize,
}

impl Sink for Gauge {
    ghost state = { λ _. record { written = None; faults = 0 } };

    fn write(&mut self, bytes: &[u8]) -> Result<usize, Failed> {
        self.longest = self.longest.max(bytes.len());
        self.total = self.total.saturating_add(bytes.len());
        Ok(bytes.len())
    }
}

// As many commands as a trace may have. The text has a line of ten bytes, three bytes for each
// command, and the report. A piece is written once it has no room for the longest reply.
#[test]
fn longest_piece(rt: HostRuntime) -> Result<(), Fail> {
    let alloc = rt.alloc();
    let text = repeated(alloc, "mmtrace 1\n", 1_000_000, "drop r0\n")?;
    let mut sources = SureSources::new(file_of(alloc, "a", text)?);
    let mut out = Gauge {
        longest: 0,
        total: 0,
    };
    let words = words_in(alloc, GOOD)?;
    let mut err = SureSink;
    let number = number_of_run(
        &rt,
        alloc,
        &words,
        &mut sources,
        &mut out,
        &mut err,
        &OpenGate,
    );
    assert!(rt; number == 0 && out.total == 3_000_207 && out.longest == 65_493);
    Ok(())
}

// A sink with room for some bytes, that takes some of them in a call. One call fails, none if its
// number is 0.
#[derive(Clone, Copy)]
struct Device {
    room: usize,
    most: usize,
    failing: u64,
}

const SOUND: Device = Device {
    room: 1000,
    most: 1000,
    failing: 0,
};

const FULL: Device = Device { room: 0, ..SOUND };

const fn sink_that_fails(most: usize, failing: u64) -> Device {
    Device {
        room: 1000,
        most,
        failing,
    }
}

fn sink_of(alloc: Global, device: Device) -> Result<MemSink, AllocError> {
    let fails = [device.failing].to_vec(alloc)?;
    MemSink::new(alloc, device.room, device.most.max(1), fails)
}

// Runs the program over these devices. One call of the sources fails, none if its number is 0. Bars
// separate the commands of files `a` and `b`.
fn run_devices<R: Threads + Sync>(
    rt: &R,
    alloc: Global,
    line: &str,
    traces: &str,
    failing: u64,
    out: Device,
    err: Device,
) -> Result<Vec<u8>, AllocError> {
    let words = words_in(alloc, line)?;
    let mut files = Vec::new(alloc);
    for (name, commands) in ["a", "b"].iter().zip(traces.split('|')) {
        files.push((String::from_str(alloc, name)?, trace_in(alloc, commands)?))?;
    }
    let mut sources = MemSources::new(files, [failing].to_vec(alloc)?);
    let mut out = sink_of(alloc, out)?;
    let mut err = sink_of(alloc, err)?;
    let number = number_of_run(
        rt,
        alloc,
        &words,
        &mut sources,
        &mut out,
        &mut err,
        &OpenGate,
    );
    report(alloc, number, out.bytes(), err.bytes())
}

// The report of a run of `FIRST` whose sink takes as many bytes before it fails, if it does.
fn report_of_failing_sink(alloc: Global, bytes: usize) -> Result<Vec<u8>, AllocError> {
    let whole = FIRST_TEXT.as_bytes();
    match whole.get(..bytes) {
        Some(front) if bytes < whole.len() => report(alloc, 6, front, b"mm_drive: write failed\n"),
        _ => report(alloc, 0, whole, b""),
    }
}

// The bytes that a run of `FIRST` has written by so many calls of a sink, each of which takes so
// many: the report begins with a call of its own.
fn written_by(calls: usize, most: usize) -> usize {
    let mut written: usize = 0;
    for _ in 0..calls {
        let end = if written < FIRST_REPLIES.len() {
            FIRST_REPLIES.len()
        } else {
            FIRST_TEXT.len()
        };
        written = end.min(written.saturating_add(most));
    }
    written
}

// Each call of the sink fails once.
#[test]
fn failing_outputs(rt: HostRuntime) -> Result<(), Fail> {
    let alloc = rt.alloc();
    for most in [1usize, 7, 64] {
        for calls in 0..FIRST_TEXT.len() / most + 3 {
            let out = sink_that_fails(most, calls as u64 + 1);
            let ran = run_devices(&rt, alloc, GOOD, FIRST, 0, out, SOUND)?;
            let want = report_of_failing_sink(alloc, written_by(calls, most))?;
            assert!(rt; ran.as_slice() == want.as_slice(), "{most} {calls}");
        }
    }
    Ok(())
}

// Each call of the sources fails once. A file is opened, gives a piece, and then the end.
#[test]
fn failing_sources(rt: HostRuntime) -> Result<(), Fail> {
    let alloc = rt.alloc();
    for call in 1..8u64 {
        let ran = run_devices(&rt, alloc, PAIR, PAIR_TRACES, call, SOUND, SOUND)?;
        let is_good = match call {
            1..=3 => ran.as_slice() == b"3||mm_drive: cannot read a\n".as_slice(),
            4..=6 => ran.as_slice() == b"3||mm_drive: cannot read b\n".as_slice(),
            _ => ran.starts_with(PAIR_TEXT.as_bytes()),
        };
        assert!(rt; is_good, "{call}");
    }
    Ok(())
}

// A standard error that fails changes no status.
#[test]
fn failing_sinks(rt: HostRuntime) -> Result<(), Fail> {
    let alloc = rt.alloc();
    let whole = format!(in alloc; "0|{FIRST_TEXT}|")?;
    for (line, commands, out, err, want) in [
        (
            GOOD,
            FIRST,
            sink_that_fails(8, 1),
            SOUND,
            "6||mm_drive: write failed\n",
        ),
        (
            GOOD,
            FIRST,
            sink_that_fails(8, 2),
            SOUND,
            "6|mutator |mm_drive: write failed\n",
        ),
        (
            GOOD,
            FIRST,
            sink_that_fails(8, 3),
            SOUND,
            "6|mutator 1\nnew 1.|mm_drive: write failed\n",
        ),
        ("--plan nogc", "", SOUND, FULL, "2||"),
        (UNREAD, "", SOUND, FULL, "3||"),
        (GOOD, "new r0 1025 0", SOUND, FULL, "5||"),
        (GOOD, "new r0 1025 0", SOUND, sink_that_fails(100, 1), "5||"),
        (GOOD, FIRST, SOUND, FULL, &whole),
        (UNREAD, "", SOUND, sink_that_fails(100, 1), "3||"),
        (
            UNREAD,
            "",
            SOUND,
            sink_that_fails(100, 2),
            "3||mm_drive: cannot read ",
        ),
        (
            UNREAD,
            "",
            SOUND,
            sink_that_fails(100, 3),
            "3||mm_drive: cannot read b",
        ),
    ] {
        let ran = run_devices(&rt, alloc, line, commands, 0, out, err)?;
        assert!(rt; ran.as_slice() == want.as_bytes(), "{line} {want}");
    }
    Ok(())
}

// A source with no memory for any name.
#[derive(Drop)]
struct Starved;

impl Sources for Starved {
    ghost state = { λ _. record { content = λ _. None; left = Some []; asked = []; faults = 0 } };

    fn open_file(&mut self, _name: &str) -> Result<(), OpenFault> {
        Err(OpenFault::OutOfMemory)
    }

    fn read(&mut self, _buf: &mut [u8]) -> Result<usize, Failed> {
        Ok(0)
    }
}

#[test]
fn sure_and_starved(rt: HostRuntime) -> Result<(), Fail> {
    let alloc = rt.alloc();
    let words = words_in(alloc, GOOD)?;
    let mut sources = SureSources::new(file_of(alloc, "a", trace_in(alloc, FIRST)?)?);
    let number = number_of_run(
        &rt,
        alloc,
        &words,
        &mut sources,
        &mut SureSink,
        &mut SureSink,
        &OpenGate,
    );
    let mut out = sink_of(alloc, SOUND)?;
    let mut err = sink_of(alloc, SOUND)?;
    let starved = number_of_run(
        &rt,
        alloc,
        &words,
        &mut Starved,
        &mut out,
        &mut err,
        &OpenGate,
    );
    let is_silent = out.bytes().is_empty();
    let is_reported = err.bytes() == b"mm_drive: out of memory\n".as_slice();
    assert!(rt; number == 0 && starved == 7 && is_silent && is_reported);
    Ok(())
}
