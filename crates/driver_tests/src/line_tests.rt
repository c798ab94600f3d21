//! Tests of command lines in whole runs.

use crate::test_runs::{FIRST, report, report_of, run_line, run_words, trace_in};
use std::test::Fail;

const USAGE: &[u8] = b"mm_drive: usage: mm_drive --plan P --heap B [--workers W] [--map] FILE... \
    | mm_drive --plan P --heap B [--workers W] --make N\n";

const SUPPORTED: &[&str] = &[
    "--plan nogc --heap 4 a",
    "--heap=4 --plan=nogc a",
    "--heap 4 --plan=nogc a",
    "--heap=1024 --plan nogc a",
    "--workers 1 --plan nogc --heap 64 a",
    "--plan nogc --workers=1 --heap 10 a",
    "--plan semispace --heap 4 a",
    "--heap=5 --workers=1 --plan=semispace a",
    "--heap=4 --plan marksweep a",
    "--heap 4 --plan=gencopy a",
    "--heap=4 --plan=immix a",
    "--heap=4 --plan=stickyimmix a",
    "--plan nogc --heap 4 --map a",
    "--map --plan immix --heap=4 a",
    "--plan nogc --heap 4 --workers 2 a",
    "--plan immix --heap 4 --workers 16 a",
    "--workers=2 --plan semispace --heap 4 a",
];

const REFUSED: &[&str] = &[
    // Words out of place.
    "",
    "a",
    "--heap 4 a",
    "--plan nogc a",
    "--plan nogc --heap 4",
    "--plan nogc --heap 4 ",
    "--plan nogc --heap 4 a ",
    "--plan nogc --heap 4  a",
    "--plan nogc --heap 4 -",
    "--plan nogc --heap 4 -a",
    "--plan nogc --heap 4 a -b",
    "--plan nogc --heap 4 -- a",
    "--plan nogc a --heap 4",
    "--plan nogc --heap 4 a --map",
    "a --plan nogc --heap 4",
    "--plan nogc --heap --workers 1 a",
    "--plan --heap 4 a",
    "--plan nogc --heap 4 --workers a",
    "--plan nogc --heap 4 --workers",
    "--plan nogc --heap",
    "--plan",
    "--plan nogc --heap 4 --make",
    "--plan nogc --heap 4 --make 5 a",
    "--plan nogc --heap 4 --make 5 --map",
    "--plan nogc --heap 4 a b c d e f g h i j k l m n o p q",
    // Other options.
    "-",
    "--",
    "-h",
    "--help",
    "--version",
    "--plan nogc --heap 4 -h a",
    "--plan nogc --heap 4 --help a",
    "--plan nogc --heap 4 --version a",
    "--pla nogc --heap 4 a",
    "--Plan nogc --heap 4 a",
    "-plan nogc --heap 4 a",
    "--=4 --plan nogc --heap 4 a",
    "--plan nogc --plan nogc --heap 4 a",
    "--plan nogc --plan=immix --heap 4 a",
    "--heap 4 --plan nogc --heap=4 a",
    "--plan nogc --heap 4 --workers 1 --workers 1 a",
    "--plan nogc --heap 4 --map --map a",
    "--plan nogc --heap 4 --make 5 --make 5",
    "--plan nogc --heap 4 --map=1 a",
    "--plan nogc --heap 4 --map= a",
    // Other values.
    "--plan NoGC --heap 4 a",
    "--plan lisp2 --heap 4 a",
    "--plan  --heap 4 a",
    "--plan= --heap 4 a",
    "--heap= --plan=nogc a",
    "--heap=4=4 --plan=nogc a",
    "--plan nogc --heap 3 a",
    "--plan nogc --heap 1025 a",
    "--plan nogc --heap 04 a",
    "--heap=04 --plan=nogc a",
    "--plan nogc --heap 4 --workers 01 a",
    "--plan nogc --heap +4 a",
    "--plan nogc --heap -4 a",
    "--plan nogc --heap=-4 a",
    "--plan nogc --heap 4x a",
    "--plan nogc --heap 0x4 a",
    "--plan nogc --heap 18446744073709551620 a",
    "--plan nogc --heap 4 --workers 0 a",
    "--plan nogc --heap 4 --workers 17 a",
    "--plan nogc --heap 4 --make 0",
    "--plan nogc --heap 4 --make 1000001",
    "--plan nogc --heap 4 --make=05",
];

// Each line has this report, though file `a` has a good trace. No word at all breaks the usage.
#[test]
fn lines(rt: HostRuntime) -> Result<(), Fail> {
    let alloc = rt.alloc();
    let good = report_of(alloc, "new 1.1;ok;num 7;nil")?;
    let usage = report(alloc, 2, b"", USAGE)?;
    for (lines, want) in [(SUPPORTED, &good), (REFUSED, &usage)] {
        for line in lines {
            let ran = run_line(&rt, alloc, line, trace_in(alloc, FIRST)?)?;
            assert!(rt; ran.as_slice() == want.as_slice(), "{line}");
        }
    }
    let no_word = run_words(&rt, alloc, &[], Vec::new(alloc))?;
    assert!(rt; no_word.as_slice() == usage.as_slice());
    Ok(())
}
