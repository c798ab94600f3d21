//! Collections by several workers at once.

ghost use Rattle.std.specs.Prelude.{◌≤◌};
ghost use Rattle.racing_collector.specs.declared.together.TheConstants.{MAX_WORKERS};

use crate::heaps::{Built, build_under, new_world, reply_to, with_roots};
use collector::{Note, collect};
use ideal_heap::{Command, Reply};
use object_model::Collect;
use plan_api::Plan;
use plans::SemiSpace;
use pools::{Pool, Style};
use std::alloc::{AllocError, Global};
use std::hint;
use std::process::Abort;
use std::sync::atomic::{AtomicU64, Ordering};
use std::test::Fail;
use std::thread::Threads;
use work_packets::{Bucket, Gate, MAX_TURNS, MeetGate, OpenGate, Point};

// A pool of workers that steal. It counts how often it runs `Roots` and `Closure`.
#[derive(Drop)]
struct CountingPool {
    roots: AtomicU64,
    closure: AtomicU64,
}

impl Pool for CountingPool {
    fn style(&self) -> Style {
        Style::Steal
    }

    fn note(&self, b: Bucket) {
        match b {
            Bucket::Roots => {
                self.roots.fetch_add(1, Ordering::SeqCst);
            }
            Bucket::Closure => {
                self.closure.fetch_add(1, Ordering::SeqCst);
            }
            _ => {}
        }
    }
}

// A heap of so many blocks with so many objects, each of which is a root and refers to one further.
fn all_roots<P: Plan>(
    rt: &impl Abort,
    alloc: Global,
    blocks: u32,
    objects: u32,
) -> Result<Built, Fail> {
    let mut world = new_world::<P>(alloc, blocks)?;
    let mut roots = Vec::new(alloc);
    let shared = Command::New {
        d: 1,
        refs: 0,
        nums: 2,
    };
    assert!(rt; reply_to(rt, &mut world, 0, &shared) == Reply::Done);
    for _object in 0..objects {
        let new = Command::New {
            d: 0,
            refs: 1,
            nums: 2,
        };
        assert!(rt; reply_to(rt, &mut world, 0, &new) == Reply::Done);
        let put = Command::Put { s: 0, i: 0, v: 1 };
        assert!(rt; reply_to(rt, &mut world, 0, &put) == Reply::Done);
        for mutator in world.mutators() {
            roots.push(mutator.registers[0])?;
        }
    }
    let (heap, _mutators) = world.close();
    Ok(with_roots(rt, heap, roots))
}

// A full collection of a heap by so many workers keeps and moves so many objects. Returns its note.
fn collect_all<G: Gate, R: Abort + Threads + Sync>(
    rt: &R,
    alloc: Global,
    built: Built,
    workers: u32,
    gate: &G,
    kept: u32,
) -> Result<Note, Fail>
    requires some { 1 ≤ workers }
    requires few { workers ≤ MAX_WORKERS }
{
    let pool = CountingPool {
        roots: AtomicU64::new(0),
        closure: AtomicU64::new(0),
    };
    let Built { heap, registers } = built;
    let roots = registers.len();
    assert!(rt; heap.number() < 1_000_000);
    assert!(rt; registers.len() <= 1_000_000);
    let made = collect::<SemiSpace, CountingPool, G, R>(
        rt,
        alloc,
        heap,
        registers,
        Collect::Full,
        workers,
        &pool,
        gate,
    )?;
    assert_eq!(rt; made.roots.len(), roots);
    let note = made.note;
    assert_eq!(rt; (note.kept, note.moved, note.in_place), (kept, kept, 0));
    assert!(rt; pool.roots.load(Ordering::SeqCst) >= 1);
    assert!(rt; pool.closure.load(Ordering::SeqCst) >= 1);
    Ok(note)
}

// Each of two workers waits for the other after an item: a pool that runs one after the other
// misses one of these meetings.
#[test]
fn two_workers_meet_in_a_collection(rt: HostRuntime) -> Result<(), Fail> {
    let alloc = rt.alloc();
    for (first, second) in [(17u32, 18u32), (18, 17)] {
        let gate = MeetGate::new(first, second, Point::Claimed);
        let built = all_roots::<SemiSpace>(&rt, alloc, 16, 256)?;
        collect_all(&rt, alloc, built, 2, &gate, 257)?;
        assert!(rt; !gate.missed());
    }
    Ok(())
}

// A gate that counts the packets of each of two workers, and holds each at its first one until the
// other has one.
#[derive(Drop)]
struct PacketGate {
    first: AtomicU64,
    second: AtomicU64,
}

fn packet_gate() -> PacketGate {
    PacketGate {
        first: AtomicU64::new(0),
        second: AtomicU64::new(0),
    }
}

// Holds a thread until a count is not 0.
fn hold(other: &AtomicU64) {
    for _turn in 0..MAX_TURNS {
        if other.load(Ordering::SeqCst) > 0 {
            return;
        }
        hint::spin_loop();
    }
}

impl Gate for PacketGate {
    fn pass(&self, who: u32, point: Point) {
        if point != Point::Packet {
            return;
        }
        if who == 17 && self.first.fetch_add(1, Ordering::SeqCst) == 0 {
            hold(&self.second);
        }
        if who == 18 && self.second.fetch_add(1, Ordering::SeqCst) == 0 {
            hold(&self.first);
        }
    }
}

// Each of two workers runs a packet.
#[test]
fn two_workers_run_packets(rt: HostRuntime) -> Result<(), Fail> {
    let gate = packet_gate();
    let built = all_roots::<SemiSpace>(&rt, rt.alloc(), 16, 256)?;
    collect_all(&rt, rt.alloc(), built, 2, &gate, 257)?;
    assert!(rt; gate.first.load(Ordering::SeqCst) >= 1);
    assert!(rt; gate.second.load(Ordering::SeqCst) >= 1);
    Ok(())
}

// 1,000 objects refer to one, which 16 workers find at once. It is copied once.
#[test]
fn one_object_is_copied_once(rt: HostRuntime) -> Result<(), Fail> {
    let gate = MeetGate::new(17, 18, Point::Claim);
    let built = all_roots::<SemiSpace>(&rt, rt.alloc(), 64, 1_000)?;
    collect_all(&rt, rt.alloc(), built, 16, &gate, 1_001)?;
    Ok(())
}

// Commands that build a list of so many objects of 16 words, of which register 0 has the last one.
fn long_objects(alloc: Global, count: u32) -> Result<Vec<Command>, AllocError> {
    let mut commands = Vec::new(alloc);
    let create = Command::New {
        d: 1,
        refs: 1,
        nums: 12,
    };
    for _object in 0..count {
        commands.extend_from_slice(&[
            create,
            Command::Put { s: 1, i: 0, v: 0 },
            Command::Move { d: 0, s: 1 },
        ])?;
    }
    Ok(commands)
}

// Each worker leaves at most one block that is less than half full: 16,000 words have 7 blocks of
// 2,048 words and 4 more at most.
#[test]
fn four_workers_leave_few_blocks(rt: HostRuntime) -> Result<(), Fail> {
    let alloc = rt.alloc();
    let commands = long_objects(alloc, 1_000)?;
    let built = build_under::<SemiSpace>(&rt, alloc, 64, &commands, 1)?;
    let note = collect_all(&rt, alloc, built, 4, &OpenGate, 1_000)?;
    assert_eq!(rt; note.kept_words, 16_000);
    assert!(rt; note.free_blocks >= 64 - 11, "{note:?}");
    Ok(())
}
