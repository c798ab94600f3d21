//! Tests of whole traces. A heap of 4 blocks begins at word 806, and its block 1 at 4902.

ghost use Rattle.std.specs.Prelude.{◌≡◌, ◌<◌};
ghost use Rattle.heap_layout.specs.declared.block.Kind.TheVariants as kinds;
ghost use Rattle.object_model.specs.Heaps.{heap_state};
ghost use Rattle.plain_tracer.specs.Tracers.{TracerHolds};
ghost use Rattle.trace_core.specs.Runs.{MayRun};

use crate::heaps::{Built, build, full_run};
use crate::tracing::{Outcome, trace};
use heap_graph::{Place, graph};
use ideal_heap::Command;
use plain_tracer::PlainTrace;
use std::alloc::Global;
use std::process::Abort;
use std::test::Fail;
use trace_core::TraceRun;

fn create(d: u32, refs: u32, nums: u32) -> Command {
    Command::New { d, refs, nums }
}

pub(crate) fn word(words: &[u64], at: usize) -> u64 {
    words.get(at).copied().unwrap_or(0)
}

// Bit n of the bits that begin at a word.
pub(crate) fn bit(words: &[u64], zone: usize, n: usize) -> bool
    requires { zone < 1000000 }
{
    word(words, zone + n / 64) >> (n % 64) & 1 == 1
}

// The target that the collector word of the object at an address has. Nil has nil.
pub(crate) fn target(words: &[u64], at: u64) -> u64 {
    match at {
        0 => 0,
        _ => word(words, (at as usize).wrapping_add(2)) % (1 << 24),
    }
}

// The collector word of an object at its target. Only an object that was never claimed gets one.
fn collector_word(was: u64, number: u64, to: u64) -> u64 {
    match was {
        0 => (number << 24).wrapping_add(to),
        _ => was,
    }
}

// Whether each word of an object is at its target, with the targets of references, after a
// collection of objects that no full one met before.
fn has_words(old: &[u64], new: &[u64], place: &Place, number: u64) -> bool {
    let at = place.at as usize;
    let to = target(new, at as u64);
    let refs = (word(old, at.wrapping_add(1)) % 65_536) as usize;
    for offset in 0..place.size as usize {
        let was = word(old, at.wrapping_add(offset));
        let want = match offset {
            2 => collector_word(was, number, to),
            _ if 3 <= offset && offset < 3 + refs => target(new, was),
            _ => was,
        };
        if word(new, (to as usize).wrapping_add(offset)) != want {
            return false;
        }
    }
    true
}

// Whether an object has its start bit, its unlog bit and its pin bit at its target.
fn has_bits(old: &[u64], new: &[u64], place: &Place) -> bool {
    let blocks = (old.len().saturating_sub(18) / 4293).min(1024);
    let base = 18 + 197 * blocks;
    let from = (place.at as usize).wrapping_sub(base);
    let to = (target(new, place.at as u64) as usize).wrapping_sub(base);
    let pins = 18 + 69 * blocks;
    bit(new, 18 + 5 * blocks, to)
        && bit(new, 18 + 133 * blocks, to)
        && bit(new, pins, to) == bit(old, pins, from)
}

// How many unlog bits are set.
fn unlogged(words: &[u64]) -> usize {
    let blocks = (words.len().saturating_sub(18) / 4293).min(1024);
    let mut count = 0usize;
    for bits in words.iter().skip(18 + 133 * blocks).take(64 * blocks) {
        count = count.wrapping_add(bits.count_ones() as usize);
    }
    count
}

// Each object of a graph is at its target, and no other one has an unlog bit.
pub(crate) fn check_objects(
    rt: &impl Abort,
    old: &[u64],
    new: &[u64],
    graph: &[Place],
    number: u64,
) {
    assert_eq!(rt; unlogged(new), graph.len());
    for place in graph {
        let name = place.name;
        assert!(rt; has_words(old, new, place, number), "the words of {name:?}");
        assert!(rt; has_bits(old, new, place), "the bits of {name:?}");
    }
}

// Whether each global and register has its target.
pub(crate) fn has_roots(old: &[u64], new: &[u64], registers: &[u32], last: &[u32]) -> bool {
    let targets = registers.iter().map(|r| target(new, u64::from(*r)));
    let globals = old.iter().skip(2).take(16).map(|g| target(new, *g));
    last.iter().map(|r| u64::from(*r)).eq(targets)
        && new.iter().skip(2).take(16).copied().eq(globals)
}

// Traces a heap whose first blocks are evacuated, in a full collection. Each reachable object is
// scanned once.
fn check_trace(
    rt: &impl Abort,
    alloc: Global,
    built: Built,
    moving: u32,
    lines: bool,
) -> Result<Outcome, Fail> {
    let places = graph(alloc, &built.heap, &built.registers)?;
    let run = full_run(rt, alloc, &built.heap, moving, lines)?;
    let outcome = check_run(rt, alloc, built, run, &places)?;
    assert_eq!(rt; outcome.scanned as usize, places.len());
    Ok(outcome)
}

// Traces a heap, of which these objects are kept. Registers, globals and fields follow.
pub(crate) fn check_run(
    rt: &impl Abort,
    alloc: Global,
    built: Built,
    run: TraceRun,
    places: &[Place],
) -> Result<Outcome, Fail>
    requires { MayRun (heap_state built.heap) run }
{
    let number = run.number;
    let registers = built.registers.as_slice().to_vec(alloc)?;
    let old = built.heap.words().to_vec(alloc)?;
    let outcome = trace(rt, alloc, built, run)?;
    let new = outcome.traced.row.words.to_vec(alloc)?;
    check_objects(rt, &old, &new, places, number);
    assert!(rt; has_roots(&old, &new, &registers, &outcome.registers));
    Ok(outcome)
}

/// Two objects that refer to each other move from 806 and 810.
pub(crate) const CYCLE: &[Command] = &[
    Command::New {
        d: 0,
        refs: 1,
        nums: 0,
    },
    Command::New {
        d: 1,
        refs: 1,
        nums: 1,
    },
    Command::Put { s: 0, i: 0, v: 1 },
    Command::Put { s: 1, i: 0, v: 0 },
    Command::Share { g: 0, s: 0 },
    Command::Write { s: 1, j: 0, n: 77 },
];

const CYCLE_WORDS: &[(usize, u64)] = &[
    // global 0, the words of blocks 0 and 1
    (2, 4902),
    (18, 1),
    (19, 1 + 65_536 * 17),
    // start and unlog bits of blocks 0 and 1
    (38, 17),
    (102, 17),
    (550, 0),
    (614, 17),
    // what is left of the first object
    (806, 33),
    (807, 1),
    (808, (1 << 24) + 4902),
    (809, 810),
    // the copies
    (4902, 33),
    (4903, 1),
    (4904, (1 << 24) + 4902),
    (4905, 4906),
    (4906, 65),
    (4907, 65_537),
    (4908, (1 << 24) + 4906),
    (4909, 4902),
    (4910, 77),
    (4911, 0),
];

/// The object at 806 is pinned. The one at 810 moves to 4902, and the one at 814, to which both
/// refer, to 4906. The one at 817, to which nothing refers, has no target.
pub(crate) const PINNED: &[Command] = &[
    Command::New {
        d: 0,
        refs: 1,
        nums: 0,
    },
    Command::New {
        d: 1,
        refs: 1,
        nums: 0,
    },
    Command::New {
        d: 2,
        refs: 0,
        nums: 0,
    },
    Command::New {
        d: 3,
        refs: 0,
        nums: 1,
    },
    Command::Put { s: 0, i: 0, v: 2 },
    Command::Put { s: 1, i: 0, v: 2 },
    Command::Pin { s: 0 },
    Command::Share { g: 0, s: 0 },
    Command::Share { g: 1, s: 1 },
];

const PINNED_WORDS: &[(usize, u64)] = &[
    (2, 806),
    (3, 4902),
    (806, 33),
    (808, (1 << 24) + 806),
    (809, 4906),
    (812, (1 << 24) + 4902),
    (816, (1 << 24) + 4906),
    (819, 0),
    (4902, 65),
    (4905, 4906),
    (4906, 97),
    (4909, 0),
    // start, pin and unlog bits
    (38, 1 + 16 + 256 + 2048),
    (102, 17),
    (294, 1),
    (550, 1),
    (614, 17),
];

/// Two registers, two globals and a field refer to one object, which moves once.
pub(crate) const SHARED: &[Command] = &[
    Command::New {
        d: 1,
        refs: 2,
        nums: 0,
    },
    Command::Put { s: 1, i: 1, v: 1 },
    Command::Share { g: 3, s: 1 },
    Command::Share { g: 15, s: 1 },
    Command::Move { d: 0, s: 1 },
];

const SHARED_WORDS: &[(usize, u64)] = &[(5, 4902), (17, 4902), (102, 1), (4906, 4902), (4907, 0)];

// What a trace of a heap of 4 blocks, of which the first is evacuated, leaves.
#[test]
fn small_graphs(rt: HostRuntime) -> Result<(), Fail> {
    for (commands, kept, words) in [
        (CYCLE, 0, CYCLE_WORDS),
        (PINNED, 0, PINNED_WORDS),
        (SHARED, 3, SHARED_WORDS),
    ] {
        let built = build(&rt, rt.alloc(), 4, commands, kept)?;
        let outcome = check_trace(&rt, rt.alloc(), built, 1, false)?;
        let left = outcome.traced.row.words.to_vec(rt.alloc())?;
        for (at, want) in words {
            assert_eq!(rt; word(&left, *at), *want, "at {at}");
        }
    }
    Ok(())
}

// Objects of half a block in a heap of 4 blocks, each in a register of its own.
fn build_halves(rt: &impl Abort, alloc: Global, count: u32) -> Result<Built, Fail> {
    let mut commands = Vec::new(alloc);
    for register in 0..count {
        commands.push(create(register, 0, 2045))?;
    }
    build(rt, alloc, 4, &commands, count as usize)
}

/// Where no block is Free, all objects stay. In the last Free block the first two have room.
const TARGETS: [&[u32]; 5] = [
    &[806, 2854, 4902, 6950, 8998, 11_046, 13_094, 15_142],
    &[13_094, 15_142, 4902, 6950, 8998, 11_046],
    &[13_094, 15_142, 4902, 6950, 8998],
    &[8998, 11_046, 13_094, 15_142],
    &[4902, 6950],
];

#[test]
fn full_heaps(rt: HostRuntime) -> Result<(), Fail> {
    for targets in TARGETS {
        assert!(rt; targets.len() <= 8);
        let built = build_halves(&rt, rt.alloc(), targets.len() as u32)?;
        let outcome = check_trace(&rt, rt.alloc(), built, 4, false)?;
        assert_eq!(rt; outcome.registers.as_slice(), targets);
    }
    Ok(())
}

// A list of 10,000 objects of 4 words, its last one first, moves from blocks 0 to 9 to blocks 10 to
// 19.
#[test]
fn long_list(rt: HostRuntime) -> Result<(), Fail> {
    let alloc = rt.alloc();
    let mut commands = Vec::new(alloc);
    for _ in 0..10_000 {
        let put = Command::Put { s: 1, i: 0, v: 0 };
        let head = Command::Move { d: 0, s: 1 };
        commands.extend_from_slice(&[create(1, 1, 0), put, head])?;
    }
    let outcome = check_trace(&rt, alloc, build(&rt, alloc, 24, &commands, 1)?, 24, false)?;
    assert_eq!(rt; outcome.registers.as_slice(), [45_706].as_slice());
    let words = outcome.traced.row.words.to_vec(alloc)?;
    for k in 0..10_000 {
        let name = word(&words, 45_706 + 4 * k);
        assert_eq!(rt; name, 32 * (10_000 - k as u64) + 1, "object {k}");
    }
    Ok(())
}

// The lines of the words of objects, each an address and a size, are marked, and no others.
pub(crate) fn check_lines(rt: &impl Abort, words: &[u64], objects: &[(usize, usize)]) {
    for line in 0..1024 {
        let from = 806 + 16 * line;
        let mut touched = false;
        for (at, size) in objects {
            touched |= *at < from + 16 && from < at.wrapping_add(*size);
        }
        assert_eq!(rt; bit(words, 22, line), touched, "line {line}");
    }
}

/// Objects of 4, 1,024, 3, 30 and 18 words at 806, 810, 1834, 1837 and 1867. The second and the
/// last are pinned, and nothing refers to the third.
pub(crate) const MARKED: &[Command] = &[
    Command::New {
        d: 0,
        refs: 0,
        nums: 1,
    },
    Command::New {
        d: 1,
        refs: 1,
        nums: 1020,
    },
    Command::New {
        d: 2,
        refs: 0,
        nums: 0,
    },
    Command::New {
        d: 2,
        refs: 0,
        nums: 27,
    },
    Command::New {
        d: 3,
        refs: 0,
        nums: 15,
    },
    Command::Pin { s: 1 },
    Command::Put { s: 1, i: 0, v: 3 },
    Command::Pin { s: 3 },
];

/// How many blocks are evacuated, whether lines are marked, and the objects whose lines are.
const LINES: [(u32, bool, &[(usize, usize)]); 3] = [
    (1, true, &[(4902, 4), (810, 1024), (4906, 30), (1867, 18)]),
    (0, true, &[(806, 4), (810, 1024), (1837, 30), (1867, 18)]),
    (1, false, &[]),
];

#[test]
fn marked_lines(rt: HostRuntime) -> Result<(), Fail> {
    for (moving, lines, objects) in LINES {
        let built = build(&rt, rt.alloc(), 4, MARKED, 3)?;
        let outcome = check_trace(&rt, rt.alloc(), built, moving, lines)?;
        check_lines(&rt, &outcome.traced.row.words.to_vec(rt.alloc())?, objects);
    }
    Ok(())
}

// The block that the tracer takes to copy into.
fn take(tracer: &mut PlainTrace) -> Option<u32>
    requires tracing { TracerHolds tracer.old (λ p es v. Unit {0}) }
    requires copies { tracer.old.run.copy_kind ≡ kinds.Bump }
    ensures tracing { TracerHolds tracer.new (λ p es v. Unit {0}) }
    ensures copies { tracer.new.run.copy_kind ≡ kinds.Bump }
{
    tracer.take_copy_block()
}

// A tracer of a heap of 4 blocks, of which the first `used` are in use, takes the others in order.
fn check_blocks(rt: &impl Abort, tracer: &mut PlainTrace, used: u32)
    requires tracing { TracerHolds tracer.old (λ p es v. Unit {0}) }
    requires copies { tracer.old.run.copy_kind ≡ kinds.Bump }
{
    for block in used..4 {
        assert_eq!(rt; take(tracer), Some(block), "with {used} in use");
    }
    assert_eq!(rt; take(tracer), None);
    assert_eq!(rt; take(tracer), None);
}

// A tracer of a heap of `count` objects of half a block, which are in `used` blocks, gives out the
// globals once, and takes the other blocks.
fn check_tracer(rt: &impl Abort, alloc: Global, count: u32, used: u32) -> Result<(), Fail> {
    let built = build_halves(rt, alloc, count)?;
    let run = full_run(rt, alloc, &built.heap, 4, false)?;
    let mut tracer = PlainTrace::begin(built.heap, run)?;
    let globals = tracer.take_globals(alloc)?;
    assert!(rt; globals.iter().map(|g| g.at()).eq(0..16));
    assert_eq!(rt; tracer.take_globals(alloc)?.len(), 0);
    check_blocks(rt, &mut tracer, used);
    let words = tracer.close().row.words.to_vec(alloc)?;
    for block in 0..4 {
        let want = if block < used { 1 } else { 1 + 65_536 * 17 };
        assert_eq!(rt; word(&words, 18 + block as usize), want);
    }
    Ok(())
}

// Globals 0 to 15 are given out once, and the Free blocks in rising order.
#[test]
fn tokens_and_blocks(rt: HostRuntime) -> Result<(), Fail> {
    for (count, used) in [(0, 0), (1, 1), (3, 2), (8, 4)] {
        check_tracer(&rt, rt.alloc(), count, used)?;
    }
    Ok(())
}
