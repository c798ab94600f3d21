//! How traces are read. The faults come from the format, not from its grammar.
//!
//! That both readers of a line agree where the fast one answers, and that a text in pieces is read
//! as a whole one, is proved. Left are the answers `None` and `OutOfMemory`, which proofs allow.

ghost use Rattle.std.specs.Prelude.{◌<◌};

use std::alloc::{AllocError, Global};
use std::test::Fail;
use stored_commands::commands_of;
use trace_text::{TraceFault, TraceReader, Why, command_of, first_command, read_trace};

// The parts as one text.
fn joined(alloc: Global, parts: &[&[u8]]) -> Result<Vec<u8>, AllocError> {
    let mut text = Vec::new(alloc);
    for part in parts {
        text.extend_from_slice(part)?;
    }
    Ok(text)
}

// The fault of a text.
fn fault_of(alloc: Global, parts: &[&[u8]]) -> Result<Option<TraceFault>, AllocError> {
    let text = joined(alloc, parts)?;
    Ok(read_trace(alloc, text.as_slice()).err())
}

#[test]
fn faults_of_texts(rt: HostRuntime) -> Result<(), Fail> {
    let header = Some(TraceFault::Line(1, Why::Header));
    let table: [(&[u8], Option<TraceFault>); 14] = [
        (b"", header),
        (b"\n", header),
        (b"\nmmtrace 1\n", header),
        (b"mmtrace 1 \n", header),
        (b"mmtrace 1\r\n", header),
        (b"mmtrace 2\n", header),
        (b"mmtrace 1", None),
        (b"mmtrace 1\n", None),
        (b"mmtrace 1\nread r0 0", None),
        (b"mmtrace 1\n\n", Some(TraceFault::Line(2, Why::Word))),
        (
            b"mmtrace 1\nread r0 0\n\n",
            Some(TraceFault::Line(3, Why::Word)),
        ),
        (
            b"mmtrace 1\nread r0 0\n\nread r0 0\n",
            Some(TraceFault::Line(3, Why::Word)),
        ),
        (
            b"mmtrace 1\nread r0 0\nread r0",
            Some(TraceFault::Line(3, Why::Count)),
        ),
        (
            b"mmtrace 1\nread r0 0\nread r0 x\nread",
            Some(TraceFault::Line(3, Why::Number)),
        ),
    ];
    for (text, want) in table.iter() {
        assert_eq!(rt; fault_of(rt.alloc(), &[*text])?, *want);
    }
    Ok(())
}

const GOOD: &[u8] = b"new r0 1024 0\nnew r15 0 60000\nget r0 r1 1023\nread r0 59999\n\
    write r0 0 18446744073709551615\nput r0 0 r15\nload r15 g15\n\
    swap r0 59999 0 0\n";

const WITH_A_BAD_WORD: &[u8] = b" read r0 0\nread\tr0 0\nREAD r0 0\nread\0 r0 0\n\xc3\xa9 r0 0\n\
    mmtrace 1\ntag r0 0 1";

const WITH_A_BAD_COUNT: &[u8] = b"read  r0 0\nread r0 0 \nread r0\nread x y z\nread r0\t0\n\
    swap r0 0 1\nnew r0 1 2 3\ngc \nmeet 1\ndrop";

const WITH_A_BAD_NUMBER: &[u8] = b"new x r16 0\nget r0 g1 0\nwrite r0 0 018446744073709551615\n\
    read r0 \nread r0 0\r\nread r0 00\nread r0 +1\nread r0 -1\nread r 0\nread r01 0\nread R0 0\n\
    read r0 0\0\nread r0 \xff\nload r0 r0";

const OUT_OF_RANGE: &[u8] = b"new r0 1025 0\nnew r0 0 60001\nnew r16 x 0\nget r0 r1 1024\n\
    read r0 60000\nwrite r0 0 18446744073709551616\nwrite r0 0 99999999999999999999\n\
    write r0 0 100000000000000000000\nread r16 0\nput r0 1024 r0\nload r0 g16\nshare g16 r0\n\
    share g0 r16\nput r0 0 r16\nswap r0 60000 0 0";

#[test]
fn faults_of_lines(rt: HostRuntime) -> Result<(), Fail> {
    let table = [
        (GOOD, None),
        (WITH_A_BAD_WORD, Some(Why::Word)),
        (WITH_A_BAD_COUNT, Some(Why::Count)),
        (WITH_A_BAD_NUMBER, Some(Why::Number)),
        (OUT_OF_RANGE, Some(Why::Range)),
    ];
    for (lines, why) in table {
        let want = why.map(|why| TraceFault::Line(2, why));
        for line in lines.split(|b| *b == b'\n') {
            assert_eq!(rt; fault_of(rt.alloc(), &[b"mmtrace 1\n", line])?, want);
        }
    }
    Ok(())
}

// The fault of a line with a numeral of 1,000 digits and these bytes after it.
fn fault_of_long_line(alloc: Global, end: &[u8]) -> Result<Option<TraceFault>, AllocError> {
    let digits = [b'7'; 1000];
    fault_of(alloc, &[b"mmtrace 1\nwrite r0 0 ", digits.as_slice(), end])
}

#[test]
fn faults_of_long_lines(rt: HostRuntime) -> Result<(), Fail> {
    let table: [(&[u8], Option<TraceFault>); 2] = [
        (b"", Some(TraceFault::Line(2, Why::Range))),
        (b"x", Some(TraceFault::Line(2, Why::Number))),
    ];
    for (end, want) in table.iter() {
        assert_eq!(rt; fault_of_long_line(rt.alloc(), *end)?, *want);
    }
    Ok(())
}

// Whether the fast reader takes the line, if and only if it is good.
fn is_taken_if_good(alloc: Global, parts: &[&[u8]]) -> Result<bool, AllocError> {
    let line = joined(alloc, parts)?;
    let after = [b'x'; 64];
    let text = joined(alloc, &[line.as_slice(), b"\n", after.as_slice()])?;
    Ok(first_command(&text).is_some() == command_of(&line).is_ok())
}

#[test]
fn each_good_line_is_read_fast(rt: HostRuntime) -> Result<(), Fail> {
    let words: [&[u8]; 12] = [
        b"drop", b"dro", b"get", b"gett", b"gc", b"gc ", b"r0", b"r15", b"r16", b"r00", b"g0", b"",
    ];
    for a in words.iter() {
        for b in words.iter() {
            for c in words.iter() {
                let parts = [*a, b" ", *b, b" ", *c];
                for count in [1, 3, 5] {
                    assert!(rt; is_taken_if_good(rt.alloc(), &parts[..count])?);
                }
            }
        }
    }
    Ok(())
}

#[test]
fn each_good_numeral_is_read_fast(rt: HostRuntime) -> Result<(), Fail> {
    let starts: [&[u8]; 8] = [
        b"read r0 ",
        b"get r0 r0 ",
        b"new r0 0 ",
        b"new r0 ",
        b"write r0 0 ",
        b"swap r0 0 0 ",
        b"add r",
        b"load r0 g",
    ];
    let numerals: [&[u8]; 31] = [
        b"0",
        b"9",
        b"10",
        b"14",
        b"15",
        b"16",
        b"20",
        b"99",
        b"100",
        b"999",
        b"1000",
        b"1022",
        b"1023",
        b"1024",
        b"1025",
        b"9999",
        b"10000",
        b"59998",
        b"59999",
        b"60000",
        b"60001",
        b"100000",
        b"1844674407370955161",
        b"1844674407370955162",
        b"9999999999999999999",
        b"10000000000000000000",
        b"18446744073709551614",
        b"18446744073709551615",
        b"18446744073709551616",
        b"18446744073709551620",
        b"184467440737095516150",
    ];
    let endings: [[&[u8]; 2]; 4] = [[b"", b""], [b"", b" 0"], [b"0", b""], [b"0", b" 0"]];
    for start in starts.iter() {
        for numeral in numerals.iter() {
            for [zeros, end] in endings.iter() {
                let parts = [*start, *zeros, *numeral, *end];
                assert!(rt; is_taken_if_good(rt.alloc(), &parts)?);
            }
        }
    }
    Ok(())
}

const WORKED: [u8; 172] = *b"mmtrace 1\nnew r15 1024 7\nget r1 r0 1023\nput r0 10 r9\n\
    write r2 59999 18446744073709551615\n\
    swap r3 0 10 9\nshare g15 r0\nload r1 g9\npin r4\nunpin r10\nmeet\ngc\nmove r5 r6\ndrop r0\n";

fn has_memory(alloc: Global, bytes: &[u8]) -> bool {
    read_trace(alloc, bytes).err() != Some(TraceFault::OutOfMemory)
}

// Each prefix of a text is read or has a fault of its own, and so has the text with any one byte
// changed.
#[test]
fn changed_texts_have_memory(rt: HostRuntime) {
    for k in 0..172 {
        assert!(rt; has_memory(rt.alloc(), &WORKED[..k]));
        for byte in 0..=255u8 {
            let mut text = WORKED;
            text[k] = byte;
            assert!(rt; has_memory(rt.alloc(), &text));
        }
    }
}

// The fault of a text that comes in pieces of this many bytes, `None` if its commands are those of
// the whole text.
fn fault_in_pieces(alloc: Global, text: &[u8], size: usize) -> Option<TraceFault>
    requires { 0 < size }
{
    let mut reader = TraceReader::new(alloc);
    for piece in text.chunks(size) {
        if reader.read(piece).is_err() {
            return Some(TraceFault::OutOfMemory);
        }
    }
    reader.finish().err()
}

#[test]
fn pieces_have_the_fault_of_the_whole(rt: HostRuntime) {
    let texts: [&[u8]; 6] = [
        &WORKED,
        b"",
        b"mmtrace 1",
        b"mmtrace 1\n\n",
        b"mmtrace 1\ngc\nread r0 0",
        b"mmtrace 2\nnew r0 0 0\n",
    ];
    for text in texts.iter() {
        let whole = read_trace(rt.alloc(), text).err();
        for size in 1..=172 {
            assert_eq!(rt; fault_in_pieces(rt.alloc(), text, size), whole, "{size}");
        }
    }
}
