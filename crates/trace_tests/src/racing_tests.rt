//! Racing traces beside those of the plain tracer: one worker leaves the same row call by call, and
//! the workers of `racing_collector` the same graph.

ghost use Rattle.std.specs.Prelude.{◌≤◌};

use crate::graphs::{list, random_graph};
use crate::heaps::{Built, build, full_run, with_roots};
use crate::racing::trace_alone;
use crate::tests::{
    CYCLE, MARKED, PINNED, SHARED, check_lines, check_objects, has_roots, target, word,
};
use crate::tracing::{Outcome, trace};
use heap_graph::{Place, graph};
use ideal_heap::Command;
use pools::PlainPool;
use racing_collector::{MAX_ROOTS, trace_together};
use std::alloc::Global;
use std::hint;
use std::process::Abort;
use std::sync::atomic::{AtomicU64, Ordering};
use std::test::Fail;
use std::thread::Threads;
use work_packets::{Gate, OpenGate, Point};

// A heap that commands build, whose first blocks are evacuated, with or without marks of lines.
#[derive(Drop)]
struct Case<'a> {
    commands: &'a [Command],
    blocks: u32,
    kept: usize,
    moving: u32,
    lines: bool,
}

// The row that a trace left, the last values of the registers, and how many objects were scanned.
#[derive(Drop)]
struct Left {
    words: Vec<u64>,
    registers: Vec<u32>,
    scanned: u32,
}

// A heap as a trace begins: its words, its registers, and the objects that these and globals reach.
#[derive(Drop)]
struct Begun {
    words: Vec<u64>,
    registers: Vec<u32>,
    places: Vec<Place>,
    number: u64,
}

fn what_is_left(alloc: Global, outcome: Outcome) -> Result<Left, Fail> {
    Ok(Left {
        words: outcome.traced.row.words.to_vec(alloc)?,
        registers: outcome.registers,
        scanned: outcome.scanned,
    })
}

fn heap_of(rt: &impl Abort, alloc: Global, case: &Case) -> Result<Begun, Fail> {
    let built = build(rt, alloc, case.blocks, case.commands, case.kept)?;
    assert!(rt; built.heap.number() < 1_000_000);
    Ok(Begun {
        places: graph(alloc, &built.heap, &built.registers)?,
        words: built.heap.words().to_vec(alloc)?,
        number: built.heap.number() + 1,
        registers: built.registers,
    })
}

// What the plain tracer leaves,
fn by_plain_tracer(rt: &impl Abort, alloc: Global, case: &Case) -> Result<Left, Fail> {
    let built = build(rt, alloc, case.blocks, case.commands, case.kept)?;
    let run = full_run(rt, alloc, &built.heap, case.moving, case.lines)?;
    what_is_left(alloc, trace(rt, alloc, built, run)?)
}

// one worker on a shared row, call by call,
fn by_one(rt: &impl Abort, alloc: Global, case: &Case) -> Result<Left, Fail> {
    let built = build(rt, alloc, case.blocks, case.commands, case.kept)?;
    let run = full_run(rt, alloc, &built.heap, case.moving, case.lines)?;
    what_is_left(alloc, trace_alone(rt, alloc, built, run)?)
}

// A heap whose roots stand `times` times in the list of roots.
fn repeated(rt: &impl Abort, alloc: Global, built: Built, times: u32) -> Result<Built, Fail> {
    let Built { heap, registers } = built;
    let mut many = Vec::new(alloc);
    for _ in 0..times {
        many.extend_from_slice(&registers)?;
    }
    Ok(with_roots(rt, heap, many))
}

// and several workers that a pool runs, with each root `times` times.
fn by_several<G: Gate, R: Threads + Sync + Abort>(
    rt: &R,
    alloc: Global,
    case: &Case,
    workers: u32,
    times: u32,
    gate: &G,
) -> Result<Left, Fail>
    requires { (1 ≤ workers) × (workers ≤ 16) }
{
    let built = build(rt, alloc, case.blocks, case.commands, case.kept)?;
    let built = repeated(rt, alloc, built, times)?;
    let run = full_run(rt, alloc, &built.heap, case.moving, case.lines)?;
    let Built { heap, registers } = built;
    assert!(rt; registers.len() <= MAX_ROOTS);
    let all = trace_together(rt, alloc, heap, run, registers, workers, &PlainPool, gate)?;
    assert!(rt; all.tally.moved <= all.tally.kept && u64::from(all.tally.kept) <= all.tally.words);
    Ok(Left {
        words: all.traced.row.words.to_vec(alloc)?,
        registers: all.roots,
        scanned: all.tally.kept,
    })
}

// The first word of the object at an address, which is its name, and 0 for nil.
fn name(words: &[u64], at: u64) -> u64 {
    match at {
        0 => 0,
        _ => word(words, at as usize),
    }
}

// Whether two traces left an object with the same words, but for addresses.
fn is_same(old: &Begun, one: &Left, other: &Left, place: &Place) -> bool {
    let at = u64::from(place.at);
    let refs = word(&old.words, place.at.wrapping_add(1) as usize) % 65_536;
    let (from, to) = (target(&one.words, at), target(&other.words, at));
    for offset in 0..u64::from(place.size) {
        let a = word(&one.words, from.wrapping_add(offset) as usize);
        let b = word(&other.words, to.wrapping_add(offset) as usize);
        let same = match offset {
            2 => true,
            _ if 3 <= offset && offset < 3 + refs => name(&one.words, a) == name(&other.words, b),
            _ => a == b,
        };
        if !same {
            return false;
        }
    }
    true
}

// Workers leave each object, root and global that the heap had, and count each object once. The
// plain tracer leaves the same graph.
fn check_several(rt: &impl Abort, old: &Begun, plain: &Left, several: &Left) {
    check_objects(rt, &old.words, &several.words, &old.places, old.number);
    assert!(rt;
        has_roots(
            &old.words,
            &several.words,
            &old.registers,
            &several.registers
        )
    );
    assert!(rt; several.scanned as usize == old.places.len() && plain.scanned == several.scanned);
    for place in &old.places {
        assert!(rt; is_same(old, plain, several, place), "{:?}", place.name);
    }
}

// One worker leaves the row that the plain tracer leaves, call by call. By packets 1, 2 and 16
// leave its graph, each of `times` times.
fn check_case<R: Threads + Sync + Abort>(
    rt: &R,
    alloc: Global,
    case: &Case,
    times: u32,
) -> Result<(), Fail> {
    let old = heap_of(rt, alloc, case)?;
    let plain = by_plain_tracer(rt, alloc, case)?;
    let one = by_one(rt, alloc, case)?;
    assert!(rt; one.words.as_slice() == plain.words.as_slice());
    assert!(rt; one.registers.as_slice() == plain.registers.as_slice());
    assert_eq!(rt; one.scanned, plain.scanned);
    for _ in 0..times {
        for workers in [1u32, 2, 16] {
            let several = by_several(rt, alloc, case, workers, 1, &OpenGate)?;
            check_several(rt, &old, &plain, &several);
        }
    }
    Ok(())
}

#[test]
fn racing_small_graphs(rt: HostRuntime) -> Result<(), Fail> {
    for commands in [CYCLE, PINNED, SHARED, MARKED] {
        for moving in [0u32, 1] {
            let case = Case {
                commands,
                blocks: 6,
                kept: 3,
                moving,
                lines: true,
            };
            check_case(&rt, rt.alloc(), &case, 10)?;
        }
    }
    Ok(())
}

// Where objects stay, workers mark the lines of each, and no others.
#[test]
fn racing_marks(rt: HostRuntime) -> Result<(), Fail> {
    let case = Case {
        commands: MARKED,
        blocks: 4,
        kept: 3,
        moving: 0,
        lines: true,
    };
    for _ in 0..20 {
        let two = by_several(&rt, rt.alloc(), &case, 2, 1, &OpenGate)?;
        check_lines(
            &rt,
            &two.words,
            &[(806, 4), (810, 1024), (1837, 30), (1867, 18)],
        );
    }
    Ok(())
}

// Graphs that fill their heaps, with room to move all, some or none of their objects, and a list.
#[test]
fn racing_random_graphs(rt: HostRuntime) -> Result<(), Fail> {
    let alloc = rt.alloc();
    for (seed, blocks) in [(1u64, 200u32), (7, 60), (9, 44)] {
        let commands = random_graph(alloc, seed, 10_000)?;
        let case = Case {
            commands: &commands,
            blocks,
            kept: 8,
            moving: blocks,
            lines: true,
        };
        check_case(&rt, alloc, &case, 5)?;
    }
    let commands = list(alloc, 10_000)?;
    let case = Case {
        commands: &commands,
        blocks: 24,
        kept: 3,
        moving: 24,
        lines: false,
    };
    check_case(&rt, alloc, &case, 5)
}

// The turns for which a gate holds a worker at most.
const MOST_TURNS: u32 = 100_000_000;

// A gate that counts the items that each of two workers serves, and holds the first one until the
// second has served one.
#[derive(Drop)]
struct ServingGate {
    first: AtomicU64,
    second: AtomicU64,
}

impl Gate for ServingGate {
    fn pass(&self, who: u32, point: Point) {
        if point != Point::Claimed {
            return;
        }
        if who == 18 {
            self.second.fetch_add(1, Ordering::SeqCst);
        }
        if who == 17 && self.first.fetch_add(1, Ordering::SeqCst) == 0 {
            for _turn in 0..MOST_TURNS {
                if self.second.load(Ordering::SeqCst) > 0 {
                    return;
                }
                hint::spin_loop();
            }
        }
    }
}

// More than 64 roots refer to each object. Two workers share the packets of the roots, and each
// root gets its target.
#[test]
fn racing_roots_are_shared(rt: HostRuntime) -> Result<(), Fail> {
    let alloc = rt.alloc();
    let case = Case {
        commands: CYCLE,
        blocks: 6,
        kept: 2,
        moving: 1,
        lines: false,
    };
    let gate = ServingGate {
        first: AtomicU64::new(0),
        second: AtomicU64::new(0),
    };
    let left = by_several(&rt, alloc, &case, 2, 70, &gate)?;
    // 140 registers and 16 globals are three packets, of which the second worker gets the second.
    assert!(rt; gate.first.load(Ordering::SeqCst) >= 92);
    assert!(rt; gate.second.load(Ordering::SeqCst) >= 64);
    let first = left.registers.first().copied().unwrap_or(0);
    assert_eq!(rt; left.registers.len(), 140);
    assert!(rt; left.registers.iter().step_by(2).all(|root| *root == first));
    assert!(rt; first != 0 && left.scanned == 2);
    Ok(())
}
