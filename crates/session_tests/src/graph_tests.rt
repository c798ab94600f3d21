//! Sessions after which the graph of the heap is looked at.

use crate::commands::create;
use crate::whole_sessions::{Under, session};
use heap_graph::Place;
use ideal_heap::{Command, Name};
use std::test::Fail;

fn put(s: u32, i: u32, v: u32) -> Command {
    Command::Put { s, i, v }
}

fn place(mutator: u32, birth: u32, at: u32, size: u32) -> Place {
    Place {
        name: Name { mutator, birth },
        at,
        size,
    }
}

// Some roots, and how many objects they do not reach, which are the first by name.
const FROM: [([u32; 3], usize); 4] = [
    ([0, 0, 0], 2),
    ([4902, 2854, 806], 2),
    ([2864, 2864, 0], 1),
    ([2858, 0, 2858], 0),
];

// The registers of both mutators, and the globals.
fn roots_at_end() -> [u32; 48] {
    let mut roots = [0; 48];
    roots[..5].copy_from_slice(&[2854, 2858, 2864, 806, 4902]);
    roots[16..19].copy_from_slice(&[806, 2854, 4902]);
    roots[47] = 2854;
    roots
}

// Mutator 2 fills block 0 before mutator 1 does, so names are in another order than places. A
// global holds a cycle, and three objects share one.
#[test]
fn graphs(rt: HostRuntime) -> Result<(), Fail> {
    let first = [
        Command::Meet,
        Command::Load { d: 0, g: 15 },
        Command::Get { d: 3, s: 0, i: 0 },
        Command::Get { d: 4, s: 3, i: 1 },
        create(1, 3, 0),
        create(2, 1, 0),
        put(1, 0, 4),
        put(1, 2, 2),
        put(2, 0, 4),
    ];
    let second = [
        create(0, 2, 2043),
        create(1, 1, 0),
        create(2, 0, 2045),
        put(0, 0, 1),
        put(0, 1, 2),
        put(1, 0, 0),
        Command::Share { g: 15, s: 1 },
        Command::Meet,
    ];
    let traces = [first.as_slice(), second.as_slice()];
    let all = [
        place(1, 1, 2858, 6),
        place(1, 2, 2864, 4),
        place(2, 1, 806, 2048),
        place(2, 2, 2854, 4),
        place(2, 3, 4902, 2048),
    ];
    let roots = roots_at_end();
    for (from, skipped) in &FROM {
        let end = session(&rt, rt.alloc(), Under::NoGc, 4, &traces, from.as_slice())?;
        assert!(rt;
            end.roots.as_slice() == roots.as_slice()
                && end.places.iter().eq(all.iter().skip(*skipped)),
            "of {from:?}"
        );
    }
    Ok(())
}

// Seven mutators on threads fill blocks of lines. What does not fit is placed at stops, in holes of
// the others' blocks, and marks its lines: no two objects meet, in whichever order threads run.
#[test]
fn placed_objects_mark_lines(rt: HostRuntime) -> Result<(), Fail> {
    let half = create(0, 0, 2045);
    let other_half = create(1, 0, 2045);
    let traces: [&[Command]; 7] = [
        &[create(0, 0, 0), create(1, 0, 17)],
        &[half, other_half],
        &[half, other_half],
        &[create(0, 0, 2)],
        &[create(0, 0, 7)],
        &[create(0, 0, 997)],
        &[create(0, 0, 0)],
    ];
    let end = session(&rt, rt.alloc(), Under::Immix, 4, &traces, &[])?;
    let mut next = 0u32;
    for place in &end.all_places {
        assert!(rt; place.at >= next);
        next = place.at.wrapping_add(place.size);
    }
    assert_eq!(rt; end.all_places.len(), end.places.len());
    Ok(())
}

// A list of 100,000 objects, held at its end.
#[test]
fn long_list(rt: HostRuntime) -> Result<(), Fail> {
    let mut trace = Vec::new(rt.alloc());
    for _ in 0..50_000 {
        let two = [create(0, 1, 0), put(0, 0, 1), create(1, 1, 0), put(1, 0, 0)];
        trace.extend_from_slice(&two)?;
    }
    let last = [25_234 + 4 * 99_999];
    let end = session(
        &rt,
        rt.alloc(),
        Under::NoGc,
        128,
        &[trace.as_slice()],
        &last,
    )?;
    let wanted = (0..100_000u32).map(|i| place(1, i + 1, 25_234 + 4 * i, 4));
    assert!(rt; end.places.iter().copied().eq(wanted));
    Ok(())
}
