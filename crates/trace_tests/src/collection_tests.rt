//! Tests of whole collections, against plain counts and against the plain tracer.

use crate::graphs::{list, random_graph};
use crate::heaps::{Built, build, build_under, full_run, with_roots};
use crate::old_views::{has_exact_lines, is_remembering};
use crate::tracing::trace;
use crate::views::{Pass, View, check_graph, collect_counted, moved};
use collector::Note;
use heap_graph::Place;
use ideal_heap::Command;
use object_model::Collect;
use plan_api::Plan;
use plans::{Immix, MarkSweep, NoGc, SemiSpace};
use std::alloc::{AllocError, Global};
use std::process::Abort;
use std::test::Fail;
use std::thread::Threads;

// A full collection by so many workers from the first `kept` registers.
fn collect_once<P: Plan, R: Abort + Threads + Sync>(
    rt: &R,
    alloc: Global,
    built: Built,
    kept: usize,
    workers: u32,
) -> Result<(Pass, Built), Fail> {
    let Built { heap, registers } = built;
    let mut roots = registers;
    roots.truncate(kept);
    let old = View::of(rt, alloc, &heap, roots.as_slice().to_vec(alloc)?)?;
    let (made, claim, claimed) = collect_counted::<P, R>(
        rt,
        alloc,
        heap,
        roots,
        Collect::Full,
        workers,
    )?;
    let built = with_roots(rt, made.heap, made.roots);
    let roots = built.registers.as_slice().to_vec(alloc)?;
    let pass = Pass {
        old,
        new: View::of(rt, alloc, &built.heap, roots)?,
        note: made.note,
        claim,
        claimed,
    };
    Ok((pass, built))
}

// Whether an object that moved is in a Bump block and is not pinned, and one that stayed in a Kept
// one. With `room` all move that are not pinned.
fn is_placed(pass: &Pass, was: &Place, is: &Place, room: bool) -> bool {
    let pinned = pass.old.is_pinned(u64::from(was.at));
    match was.at == is.at {
        false => !pinned && pass.new.kind(is.at) == 1,
        true => (pinned || !room) && pass.new.kind(is.at) == 8,
    }
}

// What is noted of so many objects with so many words, of which some moved.
fn note_of(counts: (u32, u64), moved: u32, free_blocks: u32) -> Note {
    let (kept, kept_words) = counts;
    Note {
        collect: Collect::Full,
        kept,
        moved,
        in_place: kept.wrapping_sub(moved),
        kept_words,
        free_blocks,
    }
}

// Whether what is reachable is kept, and all else is gone, in a collection of which all is counted.
fn is_kept(pass: &Pass) -> bool {
    let (old, new) = (&pass.old, &pass.new);
    let held = new.held();
    let items = (old.roots.len() as u64)
        .wrapping_add(u64::from(held.0))
        .wrapping_add(16);
    let number = old.number.wrapping_add(1);
    held.0 as usize == old.places.len()
        && pass.note == note_of(held, moved(pass), new.blocks_of(0))
        && (new.number, new.base) == (number, number)
        && (pass.claim, pass.claimed) == (items, items)
}

// Whether objects stay where they are, and a block without objects is Free.
fn is_swept(pass: &Pass) -> bool {
    let filled = pass.new.filled();
    is_kept(pass)
        && moved(pass) == 0
        && pass.new.blocks_of(5) == filled
        && pass.new.blocks_of(0).wrapping_add(filled) as usize == pass.new.blocks
}

// Whether objects are copied.
fn is_copied(pass: &Pass, room: bool) -> bool {
    let mut places = pass.old.places.iter().zip(&pass.new.places);
    is_kept(pass) && places.all(|(was, is)| is_placed(pass, was, is, room))
}

// Whether the heap is as it was, and all held objects count as kept.
fn is_counted(pass: &Pass) -> bool {
    let (old, new) = (&pass.old, &pass.new);
    pass.note == note_of(old.held(), 0, old.blocks_of(0))
        && new.words == old.words
        && new.roots == old.roots
        && new.number == old.number.wrapping_add(1)
        && new.base == old.base
        && (pass.claim, pass.claimed) == (0, 0)
}

// The random graphs of 100,000 objects.
const LARGE_SEEDS: [u64; 4] = [11, 12, 13, 0x9e37_79b9_7f4a_7c15];

// Whether unlog bits are those of the held objects, and line bits those of the lines that they
// touch, after a collection that reclaims.
fn has_bits(alloc: Global, pass: &Pass, way: Way) -> Result<bool, AllocError> {
    match way {
        Way::Counts => Ok(true),
        _ => Ok(is_remembering(&pass.new) && has_exact_lines(alloc, &pass.new)?),
    }
}

// What a collection does with objects.
#[derive(Clone, Copy)]
enum Way {
    Counts,
    Sweeps,
    Copies,
    CopiesSome,
}

// A heap of this many blocks, whether all objects that it keeps have room for copies, and how many
// workers collect it.
#[derive(Clone, Copy)]
struct Setting {
    blocks: u32,
    room: bool,
    workers: u32,
}

// Collects a heap that was built under one plan under another, once for each number of registers
// that are roots. Returns what is noted.
fn collect_each<B: Plan, P: Plan, R: Abort + Threads + Sync>(
    rt: &R,
    alloc: Global,
    setting: Setting,
    way: Way,
    commands: &[Command],
    passes: &[usize],
) -> Result<Vec<Note>, Fail> {
    let mut built = build_under::<B>(rt, alloc, setting.blocks, commands, 16)?;
    let mut notes = Vec::new(alloc);
    for kept in passes {
        let (pass, next) = collect_once::<P, R>(rt, alloc, built, *kept, setting.workers)?;
        check_graph(rt, &pass);
        let right = match way {
            Way::Counts => is_counted(&pass),
            Way::Sweeps => is_swept(&pass),
            Way::Copies => is_copied(&pass, setting.room),
            Way::CopiesSome => is_kept(&pass),
        };
        assert!(rt; right, "{:?}", pass.note);
        assert!(rt; has_bits(alloc, &pass, way)?, "{:?}", pass.note);
        notes.push(pass.note)?;
        built = next;
    }
    Ok(notes)
}

// Collects a heap under each plan without young objects. Returns what SemiSpace noted.
fn check_plans<R: Abort + Threads + Sync>(
    rt: &R,
    alloc: Global,
    setting: Setting,
    commands: &[Command],
    passes: &[usize],
) -> Result<Vec<Note>, Fail> {
    collect_each::<NoGc, NoGc, R>(rt, alloc, setting, Way::Counts, commands, passes)?;
    collect_each::<MarkSweep, MarkSweep, R>(rt, alloc, setting, Way::Sweeps, commands, passes)?;
    // Immix holds back a block, so such a heap cannot be built under it.
    if setting.room {
        collect_each::<Immix, Immix, R>(rt, alloc, setting, Way::CopiesSome, commands, passes)?;
    }
    collect_each::<NoGc, SemiSpace, R>(rt, alloc, setting, Way::Copies, commands, passes)
}

// Graphs of 10,000 objects, of which more and more are dead.
#[test]
fn random_graphs(rt: HostRuntime) -> Result<(), Fail> {
    let setting = Setting {
        blocks: 200,
        room: true,
        workers: 1,
    };
    for seed in [1u64, 0x9e37_79b9_7f4a_7c15] {
        let commands = random_graph(rt.alloc(), seed, 10_000)?;
        check_plans(&rt, rt.alloc(), setting, &commands, &[16, 8, 2])?;
    }
    Ok(())
}

// The plain tracer, which reads each object as it claims it and scans it by `scan_object`, and a
// collection, whose worker does not, leave the same registers, unlog bits and objects.
#[test]
fn plain_and_fast_scans_agree(rt: HostRuntime) -> Result<(), Fail> {
    let alloc = rt.alloc();
    let commands = random_graph(alloc, 7, 2_000)?;
    let built = build(&rt, alloc, 40, &commands, 8)?;
    let run = full_run(&rt, alloc, &built.heap, 0, false)?;
    let plain = trace(&rt, alloc, built, run)?;
    let built = build(&rt, alloc, 40, &commands, 8)?;
    let (fast, _) = collect_once::<MarkSweep, HostRuntime>(&rt, alloc, built, 8, 1)?;
    let zone = 18 + 133 * 40;
    let words = plain.traced.row.words.to_vec(alloc)?;
    let same = words.iter().skip(zone).eq(fast.new.words.iter().skip(zone));
    assert!(rt; same && plain.registers == fast.new.roots && plain.scanned == fast.note.kept);
    Ok(())
}

// Lists of 100,000 objects, of which the newer half dies first. Several workers can't share such a
// list.
#[test]
fn long_lists(rt: HostRuntime) -> Result<(), Fail> {
    let commands = list(rt.alloc(), 100_000)?;
    for workers in [1u32, 4] {
        let setting = Setting {
            blocks: 210,
            room: true,
            workers,
        };
        let notes = check_plans(&rt, rt.alloc(), setting, &commands, &[3, 1, 0])?;
        let kept: [u32; 3] = [100_000, 50_000, 0];
        assert!(rt; notes.iter().map(|n| n.kept).eq(kept));
    }
    Ok(())
}

// Eight objects fill a heap of 4 blocks: the object of register n is in block n / 2.
fn halves(alloc: Global) -> Result<Vec<Command>, AllocError> {
    let mut commands = Vec::new(alloc);
    for d in 0..8 {
        commands.push(Command::New {
            d,
            refs: 0,
            nums: 2045,
        })?;
    }
    Ok(commands)
}

// Where no block is Free, all that is kept stays in place. A block that is Free then takes the
// first two objects of the next collection. An empty heap has nothing to keep.
#[test]
fn full_and_empty_heaps(rt: HostRuntime) -> Result<(), Fail> {
    let setting = Setting {
        blocks: 4,
        room: false,
        workers: 1,
    };
    let commands = halves(rt.alloc())?;
    let table: [(&[Command], &[usize], &[(u32, u32, u32)]); 3] = [
        (&commands, &[16, 8, 8], &[(8, 0, 0), (8, 0, 0), (8, 0, 0)]),
        (&commands, &[6, 5, 1], &[(6, 0, 1), (5, 2, 1), (1, 1, 3)]),
        (&[], &[16, 0, 0], &[(0, 0, 4), (0, 0, 4), (0, 0, 4)]),
    ];
    for (commands, passes, want) in table {
        let notes = check_plans(&rt, rt.alloc(), setting, commands, passes)?;
        let counts = notes.iter().map(|n| (n.kept, n.moved, n.free_blocks));
        assert!(rt; counts.eq(want.iter().copied()), "{notes:?}");
    }
    Ok(())
}

// Collections under each plan by these numbers of workers, the first of which is 1. Each keeps what
// one worker keeps.
fn check_workers<R: Abort + Threads + Sync>(
    rt: &R,
    alloc: Global,
    setting: Setting,
    commands: &[Command],
    passes: &[usize],
    numbers: &[u32],
) -> Result<(), Fail> {
    let mut one = Vec::new(alloc);
    for workers in numbers {
        let several = Setting {
            workers: *workers,
            ..setting
        };
        let notes = check_plans(rt, alloc, several, commands, passes)?;
        let mut kept = Vec::new(alloc);
        for note in &notes {
            kept.push((note.kept, note.kept_words))?;
        }
        if *workers == 1 {
            one.extend_from_slice(&kept)?;
        }
        assert!(rt; kept == one, "{workers}: {notes:?}");
    }
    Ok(())
}

// Several workers keep what one keeps: graphs, lists, and a heap in which no block is Free.
#[test]
fn collections_by_several_workers(rt: HostRuntime) -> Result<(), Fail> {
    let alloc = rt.alloc();
    let table = [
        (random_graph(alloc, 3, 1_500)?, 64u32, true, [16usize, 8, 2]),
        (list(alloc, 3_000)?, 64, true, [3, 1, 0]),
        (halves(alloc)?, 4, false, [16, 8, 6]),
    ];
    for (commands, blocks, room, passes) in &table {
        let setting = Setting {
            blocks: *blocks,
            room: *room,
            workers: 1,
        };
        check_workers(&rt, alloc, setting, commands, passes, &[1, 2, 4, 16])?;
    }
    Ok(())
}

// Graphs of 100,000 objects.
#[test]
fn large_graphs_by_several_workers(rt: HostRuntime) -> Result<(), Fail> {
    let alloc = rt.alloc();
    let setting = Setting {
        blocks: 800,
        room: true,
        workers: 1,
    };
    for seed in LARGE_SEEDS {
        let commands = random_graph(alloc, seed, 100_000)?;
        check_workers(&rt, alloc, setting, &commands, &[16, 8], &[1, 2, 4, 16])?;
    }
    Ok(())
}
