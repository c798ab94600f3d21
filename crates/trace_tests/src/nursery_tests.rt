//! Tests of collections under plans with young objects, most of them nursery collections, against
//! plain walks over all old objects, and plain counts.

ghost use Rattle.std.specs.Prelude.{◌≡◌, true};

use crate::ages::{AgedHeap, epoch, new_heap, with_large};
use crate::graphs::{list, random_graph, random_stores};
use crate::old_views::{check_pass, collect_aged};
use collector::Note;
use ideal_heap::Command;
use object_model::Collect;
use plan_api::Plan;
use plans::{GenCopy, StickyImmix};
use std::alloc::{AllocError, Global};
use std::process::Abort;
use std::test::Fail;
use std::thread::Threads;

/// A step in short. Of the first mutator, `n` makes an object in a register with so many references
/// and numbers, `p` stores into the object of a register, at an index, the object of another one,
/// `g` lets a global refer to the object of a register, `x` pins one, `m` copies a register to the
/// first, and `d` clears a register. `*` takes all commands since the last stop again, so many
/// times. `l` makes an object of the last mutator. `B` places a large object like `n`, at a stop
/// and if there is a run of Free blocks. `N` is a nursery collection, and `F` a full one.
type Step = (char, u32, u32, u32);

/// Of each collection how many objects it kept and moved, and how many blocks are Free then.
type Counts = &'static [(u32, u32, u32)];

/// A heap of so many blocks, what is done with it, and the counts under GenCopy and StickyImmix.
struct Case {
    blocks: u32,
    steps: &'static [Step],
    copied: Counts,
    in_place: Counts,
}

const F: Step = ('F', 0, 0, 0);

const N: Step = ('N', 0, 0, 0);

const CASES: [Case; 11] = [
    // Nothing is young.
    Case {
        blocks: 8,
        steps: &[('n', 0, 1, 0), F, N, N],
        copied: &[(1, 1, 7), (0, 0, 7), (0, 0, 7)],
        in_place: &[(1, 1, 7), (0, 0, 7), (0, 0, 7)],
    },
    // A field of an old object alone refers to a young one.
    Case {
        blocks: 8,
        steps: &[
            ('n', 0, 1, 0),
            F,
            ('n', 1, 0, 1),
            ('p', 0, 0, 1),
            ('d', 1, 0, 0),
            N,
            F,
        ],
        copied: &[(1, 1, 7), (1, 1, 6), (2, 2, 7)],
        in_place: &[(1, 1, 7), (1, 0, 7), (2, 2, 7)],
    },
    // The old one is dead: both stay until the full collection.
    Case {
        blocks: 8,
        steps: &[
            ('n', 0, 1, 0),
            F,
            ('n', 1, 0, 1),
            ('p', 0, 0, 1),
            ('d', 0, 0, 0),
            ('d', 1, 0, 0),
            N,
            F,
        ],
        copied: &[(1, 1, 7), (1, 1, 6), (0, 0, 8)],
        in_place: &[(1, 1, 7), (1, 0, 7), (0, 0, 8)],
    },
    // A cycle that nothing reaches, with a pinned object, and one behind a logged object.
    Case {
        blocks: 8,
        steps: &[
            ('n', 0, 1, 0),
            F,
            ('n', 1, 1, 0),
            ('n', 2, 1, 0),
            ('p', 1, 0, 2),
            ('p', 2, 0, 1),
            ('x', 2, 0, 0),
            ('n', 3, 1, 0),
            ('n', 4, 1, 0),
            ('p', 3, 0, 4),
            ('p', 4, 0, 3),
            ('p', 0, 0, 3),
            ('d', 1, 0, 0),
            ('d', 2, 0, 0),
            ('d', 3, 0, 0),
            ('d', 4, 0, 0),
            N,
            F,
        ],
        copied: &[(1, 1, 7), (2, 2, 6), (3, 3, 7)],
        in_place: &[(1, 1, 7), (2, 0, 7), (3, 3, 7)],
    },
    // A pinned young object stays, in a block that is Kept.
    Case {
        blocks: 8,
        steps: &[
            ('n', 0, 2, 0),
            F,
            ('n', 1, 0, 0),
            ('x', 1, 0, 0),
            ('n', 2, 1, 0),
            ('p', 2, 0, 1),
            ('p', 0, 0, 2),
            ('d', 1, 0, 0),
            ('d', 2, 0, 0),
            N,
            F,
        ],
        copied: &[(1, 1, 7), (2, 1, 5), (3, 2, 6)],
        in_place: &[(1, 1, 7), (2, 0, 7), (3, 2, 6)],
    },
    // Medium ones, of half a block.
    Case {
        blocks: 8,
        steps: &[
            ('n', 0, 1, 0),
            F,
            ('n', 1, 0, 2045),
            ('n', 2, 1, 2044),
            ('p', 2, 0, 1),
            ('p', 0, 0, 2),
            ('n', 3, 0, 2045),
            ('d', 1, 0, 0),
            ('d', 2, 0, 0),
            ('d', 3, 0, 0),
            N,
            F,
        ],
        copied: &[(1, 1, 7), (2, 2, 6), (3, 3, 6)],
        in_place: &[(1, 1, 7), (2, 0, 6), (3, 3, 6)],
    },
    // Large ones: a logged object refers to one, a register to another, and one is dead.
    Case {
        blocks: 8,
        steps: &[
            ('n', 0, 1, 0),
            F,
            ('B', 1, 0, 3000),
            ('B', 2, 0, 3000),
            ('B', 3, 1, 5000),
            ('n', 4, 0, 0),
            ('p', 3, 0, 4),
            ('p', 0, 0, 1),
            ('d', 1, 0, 0),
            ('d', 2, 0, 0),
            ('d', 4, 0, 0),
            N,
            F,
        ],
        copied: &[(1, 1, 7), (3, 1, 3), (4, 2, 4)],
        in_place: &[(1, 1, 7), (3, 0, 4), (4, 2, 4)],
    },
    // A global alone refers to one, and the last register of the last mutator to another. No object
    // is logged.
    Case {
        blocks: 8,
        steps: &[
            ('n', 0, 0, 1),
            F,
            ('n', 1, 1, 0),
            ('g', 15, 1, 0),
            ('n', 1, 0, 0),
            ('d', 1, 0, 0),
            ('l', 15, 0, 0),
            N,
            F,
        ],
        copied: &[(1, 1, 7), (2, 2, 6), (3, 3, 7)],
        in_place: &[(1, 1, 7), (2, 0, 6), (3, 3, 7)],
    },
    // Each old object is logged.
    Case {
        blocks: 8,
        steps: &[
            ('n', 0, 1, 0),
            ('n', 1, 1, 0),
            ('n', 2, 1, 0),
            F,
            ('p', 0, 0, 1),
            ('p', 1, 0, 0),
            ('n', 3, 1, 0),
            ('p', 2, 0, 3),
            ('p', 3, 0, 2),
            ('d', 3, 0, 0),
            N,
            F,
        ],
        copied: &[(3, 3, 7), (1, 1, 6), (4, 4, 7)],
        in_place: &[(3, 3, 7), (1, 0, 7), (4, 4, 7)],
    },
    // No block is Free.
    Case {
        blocks: 4,
        steps: &[
            ('n', 0, 1, 0),
            F,
            ('n', 1, 1, 0),
            ('n', 2, 0, 0),
            ('p', 1, 0, 2),
            ('p', 0, 0, 1),
            ('d', 1, 0, 0),
            ('d', 2, 0, 0),
            ('B', 5, 0, 5000),
            ('B', 6, 0, 3000),
            N,
            F,
        ],
        copied: &[(1, 1, 3), (3, 0, 0), (4, 0, 0)],
        in_place: &[(1, 1, 3), (4, 0, 0), (5, 0, 0)],
    },
    // Old objects in every second line, young ones between them that die, and new ones in the lines
    // of these. All are of one line, and fill a block.
    Case {
        blocks: 4,
        steps: &[
            F,
            ('n', 1, 1, 12),
            ('p', 1, 0, 0),
            ('m', 1, 0, 0),
            ('n', 1, 0, 13),
            ('*', 127, 0, 0),
            ('d', 1, 0, 0),
            N,
            ('n', 1, 0, 13),
            ('*', 127, 0, 0),
            ('d', 1, 0, 0),
            N,
            ('n', 1, 1, 12),
            ('p', 1, 0, 0),
            ('m', 1, 0, 0),
            ('*', 127, 0, 0),
            ('d', 1, 0, 0),
            N,
            F,
        ],
        copied: &[
            (0, 0, 4),
            (128, 128, 3),
            (0, 0, 3),
            (128, 128, 2),
            (256, 256, 3),
        ],
        in_place: &[(0, 0, 4), (128, 0, 3), (0, 0, 3), (128, 0, 3), (256, 0, 3)],
    },
];

// One Free block is left: one object of each of two blocks moves there, and one stays in each.
const HALVES: Case = Case {
    blocks: 8,
    steps: &[
        ('n', 0, 1, 0),
        F,
        ('n', 1, 0, 2045),
        ('n', 3, 0, 2045),
        ('n', 2, 0, 2045),
        ('n', 4, 0, 2045),
        ('B', 5, 0, 13_000),
        N,
        F,
    ],
    copied: &[(1, 1, 7), (5, 2, 0), (6, 0, 0)],
    in_place: &[(1, 1, 7), (5, 0, 1), (6, 2, 1)],
};

fn command_of(step: &Step) -> Option<(u32, Command)> {
    let (what, a, b, c) = *step;
    let command = match what {
        'n' | 'l' => Command::New {
            d: a,
            refs: b,
            nums: c,
        },
        'p' => Command::Put { s: a, i: b, v: c },
        'g' => Command::Share { g: a, s: b },
        'x' => Command::Pin { s: a },
        'm' => Command::Move { d: 0, s: a },
        'd' => Command::DropReg { s: a },
        _ => return None,
    };
    Some((u32::from(what == 'l'), command))
}

// What is done at a stop. The notes get that of a collection, which is checked.
fn act<P: Plan, R: Abort + Threads + Sync>(
    rt: &R,
    alloc: Global,
    aged: AgedHeap,
    step: &Step,
    notes: &mut Vec<Note>,
) -> Result<AgedHeap, Fail>
    requires collects { P.rules.collects ≡ true }
    requires young { P.rules.young ≡ true }
{
    let (what, d, refs, nums) = *step;
    if what == 'B' {
        return Ok(with_large(rt, aged, d, refs, nums));
    }
    let kind = if what == 'N' {
        Collect::Nursery
    } else {
        Collect::Full
    };
    let (pass, aged) = collect_aged::<P, R>(rt, alloc, aged, kind, 1)?;
    check_pass::<P>(rt, alloc, &pass)?;
    notes.push(pass.pass.note)?;
    Ok(aged)
}

// Adds all commands again, so many times.
fn repeat(alloc: Global, commands: &mut Vec<(u32, Command)>, times: u32) -> Result<(), AllocError> {
    let once = commands.as_slice().to_vec(alloc)?;
    for _ in 0..times {
        commands.extend_from_slice(&once)?;
    }
    Ok(())
}

// Takes the steps, and compares what is noted of the collections.
fn play<P: Plan, R: Abort + Threads + Sync>(
    rt: &R,
    alloc: Global,
    case: &Case,
    want: Counts,
) -> Result<(), Fail>
    requires collects { P.rules.collects ≡ true }
    requires young { P.rules.young ≡ true }
{
    let mut aged = new_heap(alloc, case.blocks)?;
    let mut commands = Vec::new(alloc);
    let mut notes = Vec::new(alloc);
    for step in case.steps {
        if let Some(command) = command_of(step) {
            commands.push(command)?;
        } else if step.0 == '*' {
            repeat(alloc, &mut commands, step.1)?;
        } else {
            aged = epoch::<P>(rt, alloc, aged, &commands)?;
            commands.clear();
            aged = act::<P, R>(rt, alloc, aged, step, &mut notes)?;
        }
    }
    let counts = notes.iter().map(|n| (n.kept, n.moved, n.free_blocks));
    assert!(rt; counts.eq(want.iter().copied()), "{want:?}: {notes:?}");
    Ok(())
}

#[test]
fn nursery_collections(rt: HostRuntime) -> Result<(), Fail> {
    for case in CASES.iter().chain([&HALVES]) {
        play::<GenCopy, HostRuntime>(&rt, rt.alloc(), case, case.copied)?;
        play::<StickyImmix, HostRuntime>(&rt, rt.alloc(), case, case.in_place)?;
    }
    Ok(())
}

// The commands as those of the first mutator.
fn of_first(alloc: Global, commands: &[Command]) -> Result<Vec<(u32, Command)>, AllocError> {
    let mut all = Vec::new(alloc);
    for command in commands {
        all.push((0, *command))?;
    }
    Ok(all)
}

// Collections by so many workers of a heap after each of these lists of commands: a full one first
// and last, and nursery ones between. Returns how many objects each kept, and how many logged ones
// it had.
fn collect_between<P: Plan, R: Abort + Threads + Sync>(
    rt: &R,
    alloc: Global,
    blocks: u32,
    parts: &[Vec<Command>],
    workers: u32,
) -> Result<Vec<(u32, u64)>, Fail>
    requires collects { P.rules.collects ≡ true }
    requires young { P.rules.young ≡ true }
{
    let mut aged = new_heap(alloc, blocks)?;
    let mut kept = Vec::new(alloc);
    for (n, commands) in parts.iter().enumerate() {
        let commands = of_first(alloc, commands)?;
        aged = epoch::<P>(rt, alloc, aged, &commands)?;
        let last = n.wrapping_add(1) == parts.len();
        let kind = if n == 0 || last {
            Collect::Full
        } else {
            Collect::Nursery
        };
        let (pass, next) = collect_aged::<P, R>(rt, alloc, aged, kind, workers)?;
        check_pass::<P>(rt, alloc, &pass)?;
        kept.push((pass.pass.note.kept, pass.logged))?;
        aged = next;
    }
    Ok(kept)
}

// The commands that build a graph of `count` objects, of which a third are old as the first of
// three nursery collections begins. Before each one, stores into random objects log some.
fn random_parts(alloc: Global, seed: u64, count: u32) -> Result<Vec<Vec<Command>>, AllocError> {
    let commands = random_graph(alloc, seed, count)?;
    let third = commands.len() / 3;
    let eighth = third / 8;
    let mut parts = Vec::new(alloc);
    let mut from = 0usize;
    for count in [
        third,
        third.wrapping_add(third / 2),
        eighth,
        eighth,
        commands.len(),
    ] {
        let to = from.wrapping_add(count).min(commands.len());
        let mut part = commands.get(from..to).unwrap_or_default().to_vec(alloc)?;
        part.extend_from_slice(&random_stores(alloc, seed.wrapping_add(to as u64), 500)?)?;
        parts.push(part)?;
        from = to;
    }
    Ok(parts)
}

#[test]
fn random_nurseries(rt: HostRuntime) -> Result<(), Fail> {
    let alloc = rt.alloc();
    for seed in [3u64, 0x9e37_79b9_7f4a_7c15] {
        let parts = random_parts(alloc, seed, 10_000)?;
        let copied = collect_between::<GenCopy, HostRuntime>(&rt, alloc, 200, &parts, 1)?;
        let in_place = collect_between::<StickyImmix, HostRuntime>(&rt, alloc, 200, &parts, 1)?;
        assert!(rt; copied == in_place, "{copied:?} {in_place:?}");
        let mut nurseries = copied.iter().skip(1).take(3);
        assert!(rt;
            nurseries.all(|(kept, logged)| *kept > 100 && *logged > 10),
            "{copied:?}"
        );
    }
    Ok(())
}

// Collections by these numbers of workers leave what one worker leaves.
fn check_nurseries<R: Abort + Threads + Sync>(
    rt: &R,
    alloc: Global,
    blocks: u32,
    parts: &[Vec<Command>],
    numbers: &[u32],
) -> Result<(), Fail> {
    let one = collect_between::<GenCopy, R>(rt, alloc, blocks, parts, 1)?;
    for workers in numbers {
        let copied = collect_between::<GenCopy, R>(rt, alloc, blocks, parts, *workers)?;
        let in_place = collect_between::<StickyImmix, R>(rt, alloc, blocks, parts, *workers)?;
        assert!(rt;
            copied == one && in_place == one,
            "{workers}: {copied:?} {in_place:?}"
        );
    }
    Ok(())
}

#[test]
fn nurseries_by_several_workers(rt: HostRuntime) -> Result<(), Fail> {
    let parts = random_parts(rt.alloc(), 5, 1_500)?;
    check_nurseries(&rt, rt.alloc(), 64, &parts, &[1, 2, 16])
}

// Graphs of 100,000 objects.
#[test]
fn large_nurseries_by_several_workers(rt: HostRuntime) -> Result<(), Fail> {
    for seed in [13u64, 0x9e37_79b9_7f4a_7c15] {
        let parts = random_parts(rt.alloc(), seed, 100_000)?;
        check_nurseries(&rt, rt.alloc(), 900, &parts, &[2, 4, 16])?;
    }
    Ok(())
}

// Behind an old object lies a list of 100,000 young ones.
#[test]
fn long_young_list(rt: HostRuntime) -> Result<(), Fail> {
    let alloc = rt.alloc();
    let old = vec![in alloc;
        Command::New {
            d: 3,
            refs: 1,
            nums: 0
        },
    ]?;
    let mut young = list(alloc, 100_000)?;
    young.push(Command::Put { s: 3, i: 0, v: 2 })?;
    for s in 0..3 {
        young.push(Command::DropReg { s })?;
    }
    let parts = vec![in alloc; old, young, Vec::new(alloc)]?;
    for kept in [
        collect_between::<GenCopy, HostRuntime>(&rt, alloc, 210, &parts, 1)?,
        collect_between::<StickyImmix, HostRuntime>(&rt, alloc, 210, &parts, 1)?,
    ] {
        assert!(rt; kept.as_slice() == [(1, 0), (100_000, 1), (100_001, 0)].as_slice());
    }
    Ok(())
}
