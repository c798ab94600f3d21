//! Summaries of made traces.

use crate::test_runs::{run_whole, words_in};
use std::alloc::{AllocError, Global};
use std::process::Abort;
use std::test::Fail;
use std::thread::Threads;
use work_packets::OpenGate;

const NOGC: &[&str] = &["nogc"];

const COLLECTING: &[&str] = &["marksweep", "semispace", "gencopy", "immix", "stickyimmix"];

// Plans, blocks, commands, and lines of the summary.
const SUMMARIES: [(&[&str], u32, u32, &str); 8] = [
    (
        NOGC,
        4,
        33,
        "make 33;new 0;full 0;ref 0;nil 0;num 0 sum 0;ok 33;yes 0;no 0;null 0;range 0;\
        live objects 0 words 0",
    ),
    (NOGC, 4, 1, "make 1;ok 1;live objects 0 words 0"),
    (
        COLLECTING,
        256,
        1056,
        "new 239;num 54 sum 1158362558;live objects 0 words 0",
    ),
    (
        COLLECTING,
        256,
        65_600,
        "new 15975;num 2975 sum 57364093540;live objects 6 words 115",
    ),
    (
        COLLECTING,
        256,
        300_000,
        "new 72626;num 13608 sum 289394836976;live objects 30 words 648",
    ),
    (
        COLLECTING,
        256,
        1_000_000,
        "make 1000000;new 242709;full 0;ref 35444;nil 65512;num 44821 sum 835254375542;ok 215427;\
        yes 42487;no 26349;null 126834;range 200417;live objects 18 words 374",
    ),
    // Most objects are refused. The counts add up to the commands.
    (
        NOGC,
        4,
        20_000,
        "make 20000;new 747;full 4086;ref 127;nil 1242;num 144 sum 2344449294;ok 3315;yes 124;\
        no 104;null 9506;range 605;live objects 0 words 0",
    ),
    // The commands 1,024 to 1,055 make all registers and globals nil.
    (
        NOGC,
        1024,
        1056,
        "make 1056;full 0;new 239;live objects 0 words 0",
    ),
];

// The run of this line ends well, and its summary has these lines.
fn check_summary<R: Threads + Sync + Abort>(
    rt: &R,
    alloc: Global,
    line: &str,
    lines: &str,
) -> Result<(), AllocError> {
    let words = words_in(alloc, line)?;
    let ran = run_whole(rt, alloc, &words, Vec::new(alloc), &OpenGate)?;
    let text = str::from_utf8(&ran).unwrap_or("");
    let (number, text) = text.split_once('|').unwrap_or(("", ""));
    assert_eq!(rt; number, "0", "{line}");
    assert_eq!(rt; text.split('\n').count(), 13, "{line}");
    for want in lines.split(';') {
        assert!(rt;
            text.split('\n').any(|found| found == want),
            "{line}: {want}"
        );
    }
    Ok(())
}

#[test]
fn summaries(rt: HostRuntime) -> Result<(), Fail> {
    let alloc = rt.alloc();
    for (plans, heap, commands, lines) in SUMMARIES {
        for plan in plans {
            for workers in [1u32, 2, 4, 16] {
                let line = format!(in alloc;
                    "--plan {plan} --heap {heap} --workers {workers} --make {commands}"
                )?;
                check_summary(&rt, alloc, &line, lines)?;
            }
        }
    }
    Ok(())
}
