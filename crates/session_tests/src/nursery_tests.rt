//! Sessions with nursery collections: how many are made, and what they leave.

use crate::commands::{commands_in, random_commands};
use crate::reply_tests::{check_replies, run_and_check};
use crate::whole_sessions::{Under, counts_of, session};
use heap_layout::Kind;
use std::alloc::{AllocError, Global};
use std::test::Fail;

// The commands of a session: the first, how often some more, and the last.
type Trace = (&'static str, u32, &'static str, &'static str);

// What is left of it: the numbers of nursery and full collections, of held objects and of their
// words, and of Free, Young, Mature, large, Kept and Immix blocks.
type Left = ((u64, u64), (u64, u64), [u32; 6]);

// A worked session: the plan, the blocks of the heap, the commands, which of them gets `full`, and
// what is left.
type Worked = (Under, u32, Trace, &'static [usize], Left);

const HALF: &str = "new r2 0 2045";

// An old object dies before the nursery collection, and what it refers to is kept all the same.
const DEAD: &str = "new r0 1 0;gc;new r1 0 1;put r0 0 r1;drop r1;drop r0";

// A young object that an old one alone refers to.
const REMEMBERED: &str = "new r0 1 0;gc;new r1 0 1;write r1 0 9;put r0 0 r1;drop r1";

// Another one in its place, garbage for one more nursery collection, and what the old one refers
// to.
const SECOND_GENERATION: &str = "new r1 0 1;write r1 0 2;put r0 0 r1;drop r1;new r2 0 2045;\
    new r2 0 2045;new r2 0 2045;new r2 0 2045;new r2 0 2045;new r2 0 2045;new r2 0 2045;\
    new r2 0 2045;new r2 0 2045;new r2 0 2045;new r2 0 2045;new r2 0 2045;new r2 0 2045;\
    new r2 0 2045;get r4 r0 0;read r4 0";

const PINNED: &str = "new r0 0 2045;pin r0;new r1 0 2045;new r2 0 2045;pin r2;new r3 0 2045;gc;\
    pin r1;gc;gc;new r4 0 1";

const WORKED: [Worked; 15] = [
    (
        Under::GenCopy,
        16,
        (DEAD, 14, HALF, ""),
        &[],
        ((1, 1), (4, 4_104), [13, 1, 2, 0, 0, 0]),
    ),
    (
        Under::GenCopy,
        16,
        (DEAD, 14, HALF, "gc"),
        &[],
        ((1, 2), (1, 2_048), [15, 0, 1, 0, 0, 0]),
    ),
    (
        Under::GenCopy,
        4,
        ("", 50, "drop r0;new r0 0 2045", ""),
        &[],
        ((11, 1), (2, 4_096), [3, 1, 0, 0, 0, 0]),
    ),
    // Where all objects are pinned, or stay for want of room, none is young.
    (
        Under::GenCopy,
        4,
        (PINNED, 0, "", ""),
        &[10],
        ((0, 4), (4, 8_192), [0, 0, 0, 0, 4, 0]),
    ),
    // A pinned young object that an old one alone refers to.
    (
        Under::GenCopy,
        16,
        (
            "new r0 1 0;gc;new r1 0 1;pin r1;put r0 0 r1;drop r1",
            14,
            HALF,
            "get r3 r0 0;read r3 0",
        ),
        &[],
        ((1, 1), (4, 4_104), [12, 1, 2, 0, 1, 0]),
    ),
    // A large one.
    (
        Under::GenCopy,
        16,
        (
            "new r0 1 0;gc;new r1 0 5000;write r1 7 5;put r0 0 r1;drop r1",
            16,
            HALF,
            "get r3 r0 0;read r3 7",
        ),
        &[],
        ((1, 1), (7, 15_247), [10, 2, 2, 2, 0, 0]),
    ),
    (
        Under::GenCopy,
        16,
        ("new r0 1 0;gc;new r1 0 5000;drop r1", 16, HALF, ""),
        &[],
        ((1, 1), (6, 10_244), [12, 2, 2, 0, 0, 0]),
    ),
    // A large old object refers to a young one.
    (
        Under::GenCopy,
        16,
        (
            "new r0 3 5000;gc;new r1 0 1;write r1 0 9;put r0 2 r1;drop r1",
            14,
            HALF,
            "get r3 r0 2;read r3 0",
        ),
        &[],
        ((1, 1), (4, 9_106), [12, 1, 1, 2, 0, 0]),
    ),
    // A nursery collection leaves a run that is too short, and so does the full one after it.
    (
        Under::GenCopy,
        16,
        (
            "gc;new r0 0 50000;drop r0;new r0 0 2045;new r1 0 60000",
            0,
            "",
            "",
        ),
        &[4],
        ((1, 2), (1, 2_048), [15, 0, 1, 0, 0, 0]),
    ),
    // The same sessions leave other blocks where young objects lie in lines.
    (
        Under::StickyImmix,
        4,
        ("", 50, "drop r0;new r0 0 2045", ""),
        &[],
        ((7, 1), (2, 4_096), [3, 0, 0, 0, 0, 1]),
    ),
    (
        Under::StickyImmix,
        4,
        (REMEMBERED, 7, HALF, "get r3 r0 0;read r3 0"),
        &[],
        ((1, 1), (5, 6_152), [2, 0, 0, 0, 0, 2]),
    ),
    (
        Under::StickyImmix,
        16,
        (DEAD, 14, HALF, ""),
        &[],
        ((0, 1), (16, 28_680), [8, 0, 0, 0, 0, 8]),
    ),
    (
        Under::StickyImmix,
        8,
        (REMEMBERED, 20, HALF, "get r3 r0 0;read r3 0"),
        &[],
        ((1, 1), (10, 16_392), [3, 0, 0, 0, 0, 5]),
    ),
    // A line between two old objects is filled, freed by a nursery collection and filled again.
    (
        Under::StickyImmix,
        4,
        (
            "new r0 0 29;new r1 0 29;new r2 0 29;drop r1;gc;new r1 0 29;drop r1",
            12,
            "new r3 0 2045",
            "",
        ),
        &[],
        ((2, 1), (7, 10_304), [1, 0, 0, 0, 0, 3]),
    ),
    (
        Under::StickyImmix,
        8,
        (REMEMBERED, 14, HALF, SECOND_GENERATION),
        &[],
        ((2, 1), (8, 10_252), [5, 0, 0, 0, 0, 3]),
    ),
];

// Where the number of blocks of this kind stands in `Left`.
fn index_of(kind: Kind) -> usize {
    match kind {
        Kind::Free => 0,
        Kind::Young => 1,
        Kind::Mature => 2,
        Kind::LargeHead | Kind::LargeTail => 3,
        Kind::Kept => 4,
        Kind::Immix => 5,
        Kind::Bump | Kind::Cells => 6,
    }
}

// The numbers of Free, Young, Mature, large, Kept and Immix blocks.
fn count_kinds(kinds: &[Kind]) -> [u32; 6] {
    let mut counts = [0u32; 6];
    for kind in kinds {
        if let Some(count) = counts.get_mut(index_of(*kind)) {
            *count = count.wrapping_add(1);
        }
    }
    counts
}

// The lines of a report with these numbers.
fn lines_of(alloc: Global, live: (u64, u64), left: &Left) -> Result<String, AllocError> {
    let (live, live_words) = live;
    let ((nursery, full), (held, words), [free, young, mature, large, kept, immix]) = *left;
    format!(in alloc;
        "\ncollections nursery {nursery} full {full}\nlive objects {live} words {live_words}\n\
        held objects {held} words {words}\nkinds free {free} bump 0 young {young} \
        mature {mature} immix {immix} cells 0 large {large} kept {kept}\n"
    )
}

#[test]
fn worked_sessions(rt: HostRuntime) -> Result<(), Fail> {
    let alloc = rt.alloc();
    for (plan, blocks, (first, count, again, last), refused, want) in &WORKED {
        let commands = commands_in(alloc, first, *count, again, last)?;
        let (replied, end) = run_and_check(&rt, alloc, *plan, *blocks, &commands)?;
        let left = (end.collections, end.held, count_kinds(&end.kinds));
        let lines = lines_of(alloc, counts_of(&end.places), want)?;
        let printed = str::from_utf8(&end.text)
            .unwrap_or("")
            .contains(lines.as_str());
        assert!(rt;
            (replied.as_slice(), left, printed) == (*refused, *want, true),
            "{first} {last}: {left:?} {printed}"
        );
    }
    Ok(())
}

// One mutator has a young object that an old one alone refers to, while another fills the heap.
#[test]
fn two_mutators(rt: HostRuntime) -> Result<(), Fail> {
    let alloc = rt.alloc();
    let first = commands_in(
        alloc,
        "new r0 1 0;share g0 r0;gc;new r1 0 1;write r1 0 9;put r0 0 r1;drop r1",
        2,
        "meet",
        "get r3 r0 0;read r3 0",
    )?;
    let second = commands_in(alloc, "meet", 16, HALF, "meet")?;
    let traces = [first.as_slice(), second.as_slice()];
    let end = session(&rt, alloc, Under::GenCopy, 16, &traces, &[])?;
    assert!(rt; end.replies.len() == 2 && end.replies[0].len() == first.len());
    let refused = check_replies(&rt, alloc, &first, &end.replies[0])?;
    assert!(rt; refused.is_empty() && end.collections == (1, 1));
    Ok(())
}

// Seeds and the blocks of the heap. Some objects are larger than a heap of 5 or 8 blocks.
const RANDOM: [(u64, u32); 6] = [(5, 5), (8, 8), (64, 64), (1, 64), (2, 64), (3, 64)];

// Objects of any size, some of them pinned. At least a third of the nursery collections make room,
// so that no full one follows.
#[test]
fn random_sessions(rt: HostRuntime) -> Result<(), Fail> {
    let alloc = rt.alloc();
    let (mut nursery, mut enough) = (0u64, 0u64);
    for (seed, blocks) in &RANDOM {
        let commands = random_commands(alloc, *seed, 50_000, true)?;
        let (_, end) = run_and_check(&rt, alloc, Under::GenCopy, *blocks, &commands)?;
        nursery = nursery.wrapping_add(end.collections.0);
        enough = enough.wrapping_add(end.nursery_stops);
    }
    assert!(rt;
        nursery >= 300 && enough >= nursery / 3,
        "{enough} of {nursery}"
    );
    Ok(())
}
