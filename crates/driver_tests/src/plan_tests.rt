//! Runs under each plan: replies of sessions of one mutator and of several.

use crate::test_runs::{FIRST, check_report, report_of};
use std::alloc::{AllocError, Global};
use std::fmt::Write;
use std::test::Fail;

const NOGC: &[&str] = &["nogc"];

const MARKSWEEP: &[&str] = &["marksweep"];

const SEMISPACE: &[&str] = &["semispace"];

const GENCOPY: &[&str] = &["gencopy"];

const LINES: &[&str] = &["immix", "stickyimmix"];

const ALL: &[&str] = &[
    "nogc",
    "marksweep",
    "semispace",
    "gencopy",
    "immix",
    "stickyimmix",
];

const COLLECTING: &[&str] = &["marksweep", "semispace", "gencopy", "immix", "stickyimmix"];

const COPYING: &[&str] = &["semispace", "gencopy"];

const BUT_LINES: &[&str] = &["nogc", "marksweep", "semispace", "gencopy"];

// Nine objects of half a block, of which the last alone is held.
const HALVES: &str = "9*new r0 0 2045";

// The largest object takes 15 blocks.
const LARGEST: &str = "new r0 1024 60000;put r0 1023 r0;get r1 r0 1023";

// A second one finds no run of blocks, before or after the collection that is made for it.
const TWO_LARGEST: &str = "new r0 1024 60000;new r1 1024 60000";

const PIN_LARGEST: &str = "new r0 1024 60000;pin r0";

// `data/lists.trace`: two lists of two objects, of which one is dropped.
const LISTS: &str = "new r0 1 1;new r1 1 1;put r1 0 r0;drop r0;new r2 1 1;new r3 1 1;put r3 0 r2;\
    pin r1;drop r2;drop r3;gc;get r0 r1 0;new r4 0 9000;new r4 0 4000";

// Plans, blocks, and the commands and replies of each mutator.
const SESSIONS: [(&[&str], u32, &str, &str); 34] = [
    (ALL, 4, FIRST, "new 1.1;ok;num 7;nil"),
    (ALL, 4, "", ""),
    // Numbers, and what is refused for nil and for an index that is too large.
    (
        ALL,
        4,
        "read r3 0;write r3 0 1;add r3 0 1;swap r3 0 0 1;new r0 1 2;read r0 1;read r0 2;read r0 9;\
        write r0 2 1;add r0 2 1;swap r0 2 0 1;write r0 1 18446744073709551615;add r0 1 3;\
        add r0 1 4;swap r0 1 5 7;read r0 1;swap r0 1 6 8;read r0 1;read r0 0",
        "null;null;null;null;new 1.1;num 0;range;range;range;range;range;ok;\
        num 18446744073709551615;num 2;no;num 6;yes;num 8;num 0",
    ),
    // References. A nil field clears the register.
    (
        ALL,
        4,
        "get r1 r3 0;put r3 0 r0;new r0 2 0;new r1 0 1;put r0 2 r1;get r2 r0 2;put r1 0 r1;\
        put r0 1 r1;get r2 r0 1;write r2 0 9;read r1 0;put r0 0 r0;get r3 r0 0;put r0 1 r9;\
        get r2 r0 1;read r2 0;read r1 0",
        "null;null;new 1.1;new 1.2;range;range;range;ok;ref 1.2;ok;num 9;ok;ref 1.1;ok;nil;null;\
        num 9",
    ),
    // A cycle is reached through either object, and is garbage before the second collection.
    (
        ALL,
        4,
        "new r0 1 0;new r1 1 0;put r0 0 r1;put r1 0 r0;drop r1;gc;get r2 r0 0;get r3 r2 0;\
        drop r0;drop r2;drop r3;gc",
        "new 1.1;new 1.2;ok;ok;ok;ok;ref 1.2;ref 1.1;ok;ok;ok;ok",
    ),
    (
        ALL,
        4,
        "new r0 1024 0;get r1 r0 1023;put r0 1023 r0;get r1 r0 1023",
        "new 1.1;nil;ok;ref 1.1",
    ),
    (
        ALL,
        4,
        "load r1 g0;new r0 0 0;share g15 r0;drop r0;pin r0;unpin r0;load r2 g15;move r3 r2;pin r3;\
        pin r2;unpin r3;unpin r2;meet;share g15 r0;load r2 g15;move r3 r2;read r3 0",
        "nil;new 1.1;ok;ok;null;null;ref 1.1;ok;yes;no;yes;no;ok;ok;nil;ok;null",
    ),
    // A pinned object and its neighbour.
    (
        ALL,
        4,
        "new r0 0 1;new r1 0 1;pin r0;pin r0",
        "new 1.1;new 1.2;yes;no",
    ),
    (
        ALL,
        4,
        "new r0 0 1;new r1 0 1;pin r0;pin r0;gc",
        "new 1.1;new 1.2;yes;no;ok",
    ),
    // What a collection moves keeps its numbers, its references and its pin.
    (
        ALL,
        4,
        "new r0 1 1;new r1 0 1;write r0 0 5;write r1 0 6;put r0 0 r1;pin r1;drop r1;gc;gc;\
        read r0 0;get r1 r0 0;read r1 0;pin r1;unpin r1;gc;read r1 0",
        "new 1.1;new 1.2;ok;ok;ok;yes;ok;ok;ok;num 5;ref 1.2;num 6;no;yes;ok;num 6",
    ),
    // An object that a global alone holds.
    (
        ALL,
        4,
        "new r0 0 1;write r0 0 9;share g7 r0;drop r0;gc;load r3 g7;read r3 0;drop r3;share g7 r3;\
        gc;load r3 g7",
        "new 1.1;ok;ok;ok;ok;ref 1.1;num 9;ok;ok;ok;nil",
    ),
    // A large object takes a block of its own.
    (
        ALL,
        4,
        "new r0 0 2046;new r0 0 60000;new r0 0 0;new r0 0 2045",
        "new 1.1;full;new 1.2;new 1.3",
    ),
    // The pinned object keeps its block, and what it refers to moves to a second one. So two blocks
    // are Free.
    (
        LINES,
        4,
        LISTS,
        "new 1.1;new 1.2;ok;ok;new 1.3;new 1.4;ok;yes;ok;ok;ok;ref 1.1;full;new 1.5",
    ),
    (
        COPYING,
        4,
        LISTS,
        "new 1.1;new 1.2;ok;ok;new 1.3;new 1.4;ok;yes;ok;ok;ok;ref 1.1;full;full",
    ),
    // A young object that an old one alone reaches, and garbage.
    (
        ALL,
        4,
        "new r0 1 0;gc;new r1 0 1;write r1 0 9;put r0 0 r1;drop r1;7*new r2 0 2045;get r3 r0 0;\
        read r3 0",
        "new 1.1;ok;new 1.2;ok;ok;ok;new 1.3;new 1.4;new 1.5;new 1.6;new 1.7;new 1.8;new 1.9;\
        ref 1.2;num 9",
    ),
    // The last object is placed after a nursery collection, which keeps what a dead old one holds.
    (
        GENCOPY,
        16,
        "new r0 1 0;gc;new r1 0 1;put r0 0 r1;drop r1;drop r0;14*new r2 0 2045",
        "new 1.1;ok;new 1.2;ok;ok;ok;new 1.3;new 1.4;new 1.5;new 1.6;new 1.7;new 1.8;new 1.9;\
        new 1.10;new 1.11;new 1.12;new 1.13;new 1.14;new 1.15;new 1.16",
    ),
    (
        NOGC,
        4,
        HALVES,
        "new 1.1;new 1.2;new 1.3;new 1.4;new 1.5;new 1.6;new 1.7;new 1.8;full",
    ),
    (
        COLLECTING,
        4,
        HALVES,
        "new 1.1;new 1.2;new 1.3;new 1.4;new 1.5;new 1.6;new 1.7;new 1.8;new 1.9",
    ),
    // Plans with lines hold back a Free block to copy into.
    (BUT_LINES, 15, LARGEST, "new 1.1;ok;ref 1.1"),
    (LINES, 16, LARGEST, "new 1.1;ok;ref 1.1"),
    (BUT_LINES, 14, PIN_LARGEST, "full;null"),
    (LINES, 15, PIN_LARGEST, "full;null"),
    (BUT_LINES, 16, TWO_LARGEST, "new 1.1;full"),
    (LINES, 17, TWO_LARGEST, "new 1.1;full"),
    // Six of eight blocks are Free, but no three beside one another: the third and the sixth block
    // have small objects that are held. Dropped, they leave room for a large one.
    (
        MARKSWEEP,
        8,
        "new r0 0 8189;new r1 0 2045;new r2 0 8189;new r3 0 1000;drop r0;drop r2;gc;\
        new r0 0 8190;new r0 0 8189;drop r0;drop r1;drop r3;new r0 0 8190",
        "new 1.1;new 1.2;new 1.3;new 1.4;ok;ok;ok;full;new 1.5;ok;ok;ok;new 1.6",
    ),
    // A mutator keeps as much as may be in use. Nothing more fits until it drops an object.
    (
        SEMISPACE,
        4,
        "new r0 0 2045;new r1 0 2045;write r1 0 2;new r2 0 2045;new r3 0 2045;new r4 0 2045;\
        new r4 0 1;drop r0;new r4 0 2045;read r1 0;new r5 0 1",
        "new 1.1;new 1.2;ok;new 1.3;new 1.4;full;full;ok;new 1.5;num 2;full",
    ),
    // Two pinned objects keep a block each. Then no block is left for copies, all objects stay
    // where they are, and nothing fits. Unpinned, the two move together.
    (
        COPYING,
        4,
        "new r0 0 2045;pin r0;new r1 0 2045;new r2 0 2045;pin r2;new r3 0 2045;gc;pin r1;gc;gc;\
        new r4 0 1;write r2 0 3;drop r1;drop r3;unpin r0;unpin r2;gc;new r4 0 1;read r2 0",
        "new 1.1;yes;new 1.2;new 1.3;yes;new 1.4;ok;yes;ok;ok;full;ok;ok;ok;yes;yes;ok;new 1.5;\
        num 3",
    ),
    // An object is handed over at a `meet`, and pinned by the other mutator.
    (
        ALL,
        4,
        "new r0 0 1;write r0 0 5;share g0 r0;meet;meet;pin r0;read r0 0\
        |meet;new r0 0 1;load r1 g0;add r1 0 1;pin r1;meet",
        "new 1.1;ok;ok;ok;ok;no;num 6|ok;new 2.1;ref 1.1;num 5;yes;ok",
    ),
    // Objects that one mutator makes, and another reads when collections have moved them.
    (
        ALL,
        8,
        "new r0 1 1;write r0 0 5;new r1 0 1;write r1 0 6;put r0 0 r1;share g0 r0;drop r0;drop r1;\
        gc;meet;gc;meet;load r0 g0;read r0 0\
        |meet;load r1 g0;read r1 0;write r1 0 8;gc;get r2 r1 0;read r2 0;meet;gc;read r1 0",
        "new 1.1;ok;new 1.2;ok;ok;ok;ok;ok;ok;ok;ok;ok;ref 1.1;num 8\
        |ok;ref 1.1;num 5;ok;ok;ref 1.2;num 6;ok;ok;num 8",
    ),
    // The fifth finds each block owned, and is served at the stop.
    (
        ALL,
        4,
        "new r0 0 1|new r0 0 1|new r0 0 1|new r0 0 1|new r0 0 1",
        "new 1.1|new 2.1|new 3.1|new 4.1|new 5.1",
    ),
    // One has no command, and one meets less often than the others.
    (
        NOGC,
        4,
        "|meet;new r0 0 1;meet;share g1 r0;meet|meet;load r2 g1;meet;meet;load r2 g1|meet",
        "|ok;new 2.1;ok;ok;ok|ok;nil;ok;ok;ref 2.1|ok",
    ),
    // A need and a `gc` at one stop.
    (
        NOGC,
        4,
        "gc;new r0 0 2|new r0 0 60000;gc;read r0 0|gc;pin r0",
        "ok;new 1.1|full;ok;null|ok;null",
    ),
    // One drops an object for another, which nothing else makes room for.
    (
        SEMISPACE,
        4,
        "new r0 0 2045;new r1 0 2045;write r1 0 2;new r2 0 2045;new r3 0 2045;meet;meet;drop r0;\
        meet;read r1 0|meet;new r0 0 2045;2*meet;new r0 0 2045",
        "new 1.1;new 1.2;ok;new 1.3;new 1.4;ok;ok;ok;ok;num 2|ok;full;2*ok;new 2.1",
    ),
    // Fifteen meet twice. The sixteenth has no command, and holds nobody up.
    (
        ALL,
        16,
        "2*meet|2*meet|2*meet|2*meet|2*meet|2*meet|2*meet|2*meet|2*meet|2*meet|2*meet|2*meet\
        |2*meet|2*meet|2*meet|",
        "2*ok|2*ok|2*ok|2*ok|2*ok|2*ok|2*ok|2*ok|2*ok|2*ok|2*ok|2*ok|2*ok|2*ok|2*ok|",
    ),
];

#[test]
fn replies(rt: HostRuntime) -> Result<(), Fail> {
    let alloc = rt.alloc();
    for (plans, heap, commands, replies) in SESSIONS {
        check_report(
            &rt,
            alloc,
            plans,
            heap,
            commands,
            &report_of(alloc, replies)?,
        )?;
    }
    Ok(())
}

// A mutator writes a number to each new object, and reads that of the one before. It holds two at a
// time. The pair are its commands and its replies.
fn changing_pair(alloc: Global, m: u32, objects: u32) -> Result<(String, String), AllocError> {
    let mut trace = String::from_str(alloc, "drop r2")?;
    let mut replies = String::from_str(alloc, "ok")?;
    let mut last = String::from_str(alloc, "null")?;
    for k in 0..objects {
        let (d, s) = (k % 2, (k + 1) % 2);
        write!(trace, ";new r{d} 0 1000;write r{d} 0 {k};read r{s} 0")?;
        write!(replies, ";new {m}.{};ok;{last}", k + 1)?;
        last = format!(in alloc; "num {k}")?;
    }
    Ok((trace, replies))
}

// Four mutators in turns make 160 objects, on a heap in which 16 may be at a time.
#[test]
fn four_mutators(rt: HostRuntime) -> Result<(), Fail> {
    let alloc = rt.alloc();
    let (mut traces, mut replies) = changing_pair(alloc, 1, 40)?;
    for m in 2..5 {
        let (trace, own) = changing_pair(alloc, m, 40)?;
        write!(traces, "|{trace}")?;
        write!(replies, "|{own}")?;
    }
    let want = report_of(alloc, &replies)?;
    for (plans, heap) in [(COLLECTING, 8), (SEMISPACE, 16), (NOGC, 64)] {
        check_report(&rt, alloc, plans, heap, &traces, &want)?;
    }
    Ok(())
}
