//! Whole texts of runs: replies, report and map.

use crate::test_runs::{FIRST, push_lines, report, run_options, text_of_replies};
use std::alloc::{AllocError, Global};
use std::fmt::Write;
use std::process::Abort;
use std::test::Fail;
use std::thread::Threads;
use work_packets::OpenGate;

const NOGC: &[&str] = &["nogc"];

const SEMISPACE: &[&str] = &["semispace"];

const GENCOPY: &[&str] = &["gencopy"];

const IMMIX: &[&str] = &["immix"];

const COLLECTING: &[&str] = &["marksweep", "semispace", "gencopy", "immix", "stickyimmix"];

const ALL: &[&str] = &[
    "nogc",
    "marksweep",
    "semispace",
    "gencopy",
    "immix",
    "stickyimmix",
];

// A cycle, which is garbage before the second collection.
const CYCLE: &str = "new r0 1 0;new r1 1 0;put r0 0 r1;put r1 0 r0;drop r1;gc;get r2 r0 0;\
    get r3 r2 0;drop r0;drop r2;drop r3;gc";

const CYCLE_REPLIES: &str = "new 1.1;new 1.2;ok;ok;ok;ok;ref 1.2;ref 1.1;ok;ok;ok;ok";

// Two objects, of which a collection that moves objects moves the second.
const TWO: &str = "new r0 0 1;new r1 0 1;pin r0;pin r0";

const TWO_THEN_GC: &str = "new r0 0 1;new r1 0 1;pin r0;pin r0;gc";

// Two, then three pinned objects. At the third collection no block is left for copies.
const PINNED: &str = "new r0 0 2045;pin r0;new r1 0 2045;new r2 0 2045;pin r2;new r3 0 2045;gc;\
    pin r1;gc;gc;new r4 0 1";

const PINNED_REPLIES: &str = "new 1.1;yes;new 1.2;new 1.3;yes;new 1.4;ok;yes;ok;ok;full";

const PINNED_COUNTS: &str = "11 1 0 4 4 8192 4 8192 0 0 0 0 0 0 0 4";

// What stands before each number of a report, from that of commands on.
const LABELS: [&str; 16] = [
    "commands ",
    "\nfull ",
    "\ncollections nursery ",
    " full ",
    "\nlive objects ",
    " words ",
    "\nheld objects ",
    " words ",
    "\nkinds free ",
    " bump ",
    " young ",
    " mature ",
    " immix ",
    " cells ",
    " large ",
    " kept ",
];

// Plans, blocks, the commands and the replies of each mutator, the numbers of the report, and the
// map.
const SESSIONS: [(&[&str], u32, &str, &str, &str, &str); 16] = [
    (
        NOGC,
        4,
        FIRST,
        "new 1.1;ok;num 7;nil",
        "4 0 0 0 1 5 1 5 3 1 0 0 0 0 0 0",
        "map 1.1 block 0 word 0 size 5",
    ),
    (ALL, 4, "", "", "0 0 0 0 0 0 0 0 4 0 0 0 0 0 0 0", ""),
    (
        NOGC,
        4,
        "9*new r0 0 2045",
        "new 1.1;new 1.2;new 1.3;new 1.4;new 1.5;new 1.6;new 1.7;new 1.8;full",
        "9 1 0 1 1 2048 8 16384 0 4 0 0 0 0 0 0",
        "map 1.8 block 3 word 2048 size 2048",
    ),
    (
        NOGC,
        16,
        "new r0 1024 60000;new r1 1024 60000",
        "new 1.1;full",
        "2 1 0 1 1 61027 1 61027 1 0 0 0 0 0 15 0",
        "map 1.1 block 0 word 0 size 61027",
    ),
    // Objects that are held, of which none is reachable, and no object at all.
    (
        NOGC,
        4,
        CYCLE,
        CYCLE_REPLIES,
        "12 0 0 2 0 0 2 8 3 1 0 0 0 0 0 0",
        "",
    ),
    (
        COLLECTING,
        4,
        CYCLE,
        CYCLE_REPLIES,
        "12 0 0 2 0 0 0 0 4 0 0 0 0 0 0 0",
        "",
    ),
    (
        SEMISPACE,
        4,
        TWO,
        "new 1.1;new 1.2;yes;no",
        "4 0 0 0 2 8 2 8 3 1 0 0 0 0 0 0",
        "map 1.1 block 0 word 0 size 4;map 1.2 block 0 word 4 size 4",
    ),
    (
        IMMIX,
        4,
        TWO,
        "new 1.1;new 1.2;yes;no",
        "4 0 0 0 2 8 2 8 3 0 0 0 1 0 0 0",
        "map 1.1 block 0 word 0 size 4;map 1.2 block 0 word 4 size 4",
    ),
    (
        SEMISPACE,
        4,
        TWO_THEN_GC,
        "new 1.1;new 1.2;yes;no;ok",
        "5 0 0 1 2 8 2 8 2 1 0 0 0 0 0 1",
        "map 1.1 block 0 word 0 size 4;map 1.2 block 1 word 0 size 4",
    ),
    (
        IMMIX,
        4,
        TWO_THEN_GC,
        "new 1.1;new 1.2;yes;no;ok",
        "5 0 0 1 2 8 2 8 2 0 0 0 2 0 0 0",
        "map 1.1 block 0 word 0 size 4;map 1.2 block 1 word 0 size 4",
    ),
    // A nursery collection keeps the object that a dead old one holds.
    (
        GENCOPY,
        16,
        "new r0 1 0;gc;new r1 0 1;put r0 0 r1;drop r1;drop r0;14*new r2 0 2045",
        "new 1.1;ok;new 1.2;ok;ok;ok;new 1.3;new 1.4;new 1.5;new 1.6;new 1.7;new 1.8;new 1.9;\
        new 1.10;new 1.11;new 1.12;new 1.13;new 1.14;new 1.15;new 1.16",
        "20 0 1 1 1 2048 4 4104 13 0 1 2 0 0 0 0",
        "map 1.16 block 0 word 0 size 2048",
    ),
    (
        SEMISPACE,
        4,
        PINNED,
        PINNED_REPLIES,
        PINNED_COUNTS,
        "map 1.1 block 0 word 0 size 2048;map 1.2 block 2 word 2048 size 2048;\
        map 1.3 block 1 word 0 size 2048;map 1.4 block 3 word 0 size 2048",
    ),
    // Names are in another order than places, and a global alone holds an object.
    (
        NOGC,
        4,
        "meet;new r0 0 1|new r0 0 2;share g15 r0;drop r0;meet",
        "ok;new 1.1|new 2.1;ok;ok;ok",
        "6 0 0 0 2 9 2 9 3 1 0 0 0 0 0 0",
        "map 1.1 block 0 word 5 size 4;map 2.1 block 0 word 0 size 5",
    ),
    // Fifteen meet twice, and the sixteenth has no command.
    (
        ALL,
        16,
        "2*meet|2*meet|2*meet|2*meet|2*meet|2*meet|2*meet|2*meet|2*meet|2*meet|2*meet|2*meet\
        |2*meet|2*meet|2*meet|",
        "2*ok|2*ok|2*ok|2*ok|2*ok|2*ok|2*ok|2*ok|2*ok|2*ok|2*ok|2*ok|2*ok|2*ok|2*ok|",
        "30 0 0 0 0 0 0 0 16 0 0 0 0 0 0 0",
        "",
    ),
    // Blocks of all other kinds: a pinned object keeps its block, and its neighbour is old.
    (
        GENCOPY,
        16,
        "new r0 0 1;pin r0;new r1 0 1;gc;new r2 0 6142;new r3 0 1",
        "new 1.1;yes;new 1.2;ok;new 1.3;new 1.4",
        "6 0 0 1 4 6157 4 6157 11 0 1 1 0 0 2 1",
        "map 1.1 block 0 word 0 size 4;map 1.2 block 1 word 0 size 4;\
        map 1.3 block 2 word 0 size 6145;map 1.4 block 4 word 0 size 4",
    ),
    (
        &["marksweep"],
        4,
        "new r0 0 1;new r1 0 17",
        "new 1.1;new 1.2",
        "2 0 0 0 2 24 2 24 2 0 0 0 0 2 0 0",
        "map 1.1 block 0 word 0 size 4;map 1.2 block 1 word 0 size 20",
    ),
];

// The text of a session without its map.
fn text_of(
    alloc: Global,
    plan: &str,
    heap: u32,
    replies: &str,
    counts: &str,
) -> Result<Vec<u8>, AllocError> {
    let mutators = replies.split('|').count();
    let mut text = format!(in alloc; "plan {plan}\nblocks {heap}\nmutators {mutators}\n")?;
    for (label, count) in LABELS.iter().zip(counts.split(' ')) {
        write!(text, "{label}{count}")?;
    }
    text.push_str("\n")?;
    let mut whole = text_of_replies(alloc, replies)?;
    whole.extend_from_slice(text.as_bytes())?;
    Ok(whole)
}

// The run of these traces has this text under each of the plans, without and with the map.
fn check_text<R: Threads + Sync + Abort>(
    rt: &R,
    alloc: Global,
    plans: &[&str],
    heap: u32,
    traces: &str,
    (replies, counts, map): (&str, &str, &str),
) -> Result<(), AllocError> {
    for plan in plans {
        let mut text = text_of(alloc, plan, heap, replies, counts)?;
        let options = format!(in alloc; "--plan {plan} --heap {heap}")?;
        let ran = run_options(rt, alloc, &options, traces, &OpenGate)?;
        assert!(rt; ran == report(alloc, 0, &text, b"")?, "{plan} {traces}");
        push_lines(&mut text, map)?;
        let options = format!(in alloc; "--map {options}")?;
        let ran = run_options(rt, alloc, &options, traces, &OpenGate)?;
        assert!(rt; ran == report(alloc, 0, &text, b"")?, "map {plan} {traces}");
    }
    Ok(())
}

#[test]
fn texts(rt: HostRuntime) -> Result<(), Fail> {
    let alloc = rt.alloc();
    for (plans, heap, traces, replies, counts, map) in SESSIONS {
        check_text(&rt, alloc, plans, heap, traces, (replies, counts, map))?;
    }
    Ok(())
}

// Sixteen workers meet blocks that pinned objects keep, and then no Free one.
#[test]
fn pinned_objects_by_sixteen_workers(rt: HostRuntime) -> Result<(), Fail> {
    let alloc = rt.alloc();
    let text = text_of(alloc, "semispace", 4, PINNED_REPLIES, PINNED_COUNTS)?;
    let options = "--plan semispace --heap 4 --workers 16";
    let ran = run_options(&rt, alloc, options, PINNED, &OpenGate)?;
    assert!(rt; ran == report(alloc, 0, &text, b"")?);
    Ok(())
}

// An object takes half a block, and three blocks may be used. So a collection comes at each sixth
// object from the seventh on.
#[test]
fn fifty_objects(rt: HostRuntime) -> Result<(), Fail> {
    let alloc = rt.alloc();
    let mut trace = String::from_str(alloc, "drop r0;new r0 0 2045")?;
    let mut replies = String::from_str(alloc, "ok;new 1.1")?;
    for birth in 2..51 {
        trace.push_str(";drop r0;new r0 0 2045")?;
        write!(replies, ";ok;new 1.{birth}")?;
    }
    let counts = "100 0 0 8 1 2048 2 4096 3 0 0 0 1 0 0 0";
    let map = "map 1.50 block 0 word 2048 size 2048";
    check_text(&rt, alloc, IMMIX, 4, &trace, (&replies, counts, map))?;
    Ok(())
}
