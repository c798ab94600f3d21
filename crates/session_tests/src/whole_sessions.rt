//! Whole sessions under each plan.

ghost use Rattle.std.specs.Prelude.{◌≤◌, ℕ, All, IsTrue, length};
ghost use Rattle.driver.specs.Prelude.{IsManaged, ClosesSome, IsRunnableTrace};

use driver::{Manager, Turn, managed_plans, session_text};
use heap_graph::{Place, graph};
use heap_layout::{Kind, Layout};
use ideal_heap::{Command, Reply, valid};
use object_model::{Heap, are_roots, size_words};
use plan_api::Plan;
use plans::{GenCopy, Immix, MarkSweep, NoGc, SemiSpace, StickyImmix};
use pools::PlainPool;
use std::alloc::{AllocError, Global};
use std::process::Abort;
use std::test::Fail;
use std::thread::Threads;
use work_packets::OpenGate;

/// The plan of a session.
#[derive(Clone, Copy, Debug, PartialEq, Eq)]
pub(crate) enum Under {
    NoGc,
    MarkSweep,
    SemiSpace,
    GenCopy,
    Immix,
    StickyImmix,
}

/// What a session left: the replies of each mutator, the roots, the objects that they reach, the
/// kinds of the blocks, the numbers of held objects and of their words, those of nursery and full
/// collections, that of stops at which nursery collections alone were made, where each held object
/// lies, and the text with the map.
#[derive(Drop)]
pub(crate) struct End {
    pub(crate) replies: Vec<Vec<Reply>>,
    pub(crate) roots: Vec<u32>,
    pub(crate) places: Vec<Place>,
    pub(crate) kinds: Vec<Kind>,
    pub(crate) held: (u64, u64),
    pub(crate) collections: (u64, u64),
    pub(crate) nursery_stops: u64,
    pub(crate) all_places: Vec<Place>,
    pub(crate) text: Vec<u8>,
}

fn is_runnable(trace: &[Command]) -> bool
    ensures { IsTrue result → IsRunnableTrace trace.now }
{
    trace.len() <= 1_000_000 && trace.iter().all(|c| valid(c))
}

pub(crate) fn check_runnable(rt: &impl Abort, traces: &Vec<Vec<Command>>)
    ensures { All (λ t. IsRunnableTrace t.items) traces.now.items }
{
    for trace in traces {
        assert!(rt; is_runnable(trace));
    }
}

// The objects that are reachable from these roots.
fn graph_from(
    rt: &impl Abort,
    alloc: Global,
    heap: &Heap,
    roots: &[u32],
) -> Result<Vec<Place>, AllocError> {
    assert!(rt; are_roots(heap, roots), "{roots:?}");
    graph(alloc, heap, roots)
}

// The kind of each block.
fn kinds_of(alloc: Global, heap: &Heap) -> Result<Vec<Kind>, AllocError> {
    let mut kinds = Vec::new(alloc);
    for block in 0..heap.layout().blocks() {
        kinds.push(heap.block(block).kind)?;
    }
    Ok(kinds)
}

// Where each held object lies, by a look at each address.
fn held_in(alloc: Global, heap: &Heap) -> Result<Vec<Place>, AllocError> {
    let mut places = Vec::new(alloc);
    for address in heap.layout().heap_base()..heap.layout().words() {
        if heap.held(address) {
            places.push(Place {
                name: heap.name_at(address),
                at: address,
                size: size_words(&heap.shape_at(address)),
            })?;
        }
    }
    Ok(places)
}

// The numbers of these objects and of their words.
pub(crate) fn counts_of(places: &[Place]) -> (u64, u64) {
    let mut words = 0u64;
    for place in places {
        words = words.wrapping_add(u64::from(place.size));
    }
    (places.len() as u64, words)
}

// The heap's own counts are those of plain walks.
fn check_counts(rt: &impl Abort, heap: &Heap, held: (u64, u64), kinds: &[Kind]) {
    let (objects, words) = heap.held_count();
    assert_eq!(rt; (u64::from(objects), words), held);
    for kind in [
        Kind::Free,
        Kind::Bump,
        Kind::Young,
        Kind::Immix,
        Kind::Cells,
        Kind::LargeTail,
    ] {
        let count = kinds.iter().filter(|k| **k == kind).count();
        assert_eq!(rt; heap.kind_count(kind) as usize, count, "{kind:?}");
    }
}

// What a session leaves, with the objects that `from` reaches, or all roots if it is empty.
fn end_of<P: Plan>(
    rt: &impl Abort,
    alloc: Global,
    manager: Manager<P>,
    nursery_stops: u64,
    from: &[u32],
) -> Result<End, AllocError>
    requires { ClosesSome P.rules manager }
{
    let mut replies = Vec::new(alloc);
    for m in 0..manager.mutators() {
        replies.push(manager.replies(m + 1).to_vec(alloc)?)?;
    }
    let roots = manager.roots()?;
    let from = if from.is_empty() {
        roots.as_slice()
    } else {
        from
    };
    let places = graph_from(rt, alloc, manager.heap(), from)?;
    let kinds = kinds_of(alloc, manager.heap())?;
    let all_places = held_in(alloc, manager.heap())?;
    let held = counts_of(&all_places);
    check_counts(rt, manager.heap(), held, &kinds);
    let text = session_text(alloc, &manager, true)?;
    Ok(End {
        replies,
        roots,
        places,
        kinds,
        held,
        collections: manager.collections(),
        nursery_stops,
        all_places,
        text,
    })
}

fn run<P: Plan + Sync, R: Abort + Threads + Sync>(
    rt: &R,
    alloc: Global,
    blocks: u32,
    traces: Vec<Vec<Command>>,
    from: &[u32],
) -> Result<End, Fail>
    requires { IsManaged P.rules }
{
    assert!(rt; 1 <= traces.len() && traces.len() <= 16);
    check_runnable(rt, &traces);
    let mut manager = Manager::<P>::begin(alloc, Layout::new(blocks)?, traces, 1)?;
    let mut nursery_stops = 0u64;
    'epochs: loop {
        let (nursery, full) = manager.collections();
        let (next, turn) = manager.advance(rt, &PlainPool, &OpenGate)?;
        manager = next;
        let (more, same) = manager.collections();
        if more > nursery && same == full {
            nursery_stops = nursery_stops.wrapping_add(1);
        }
        if turn == Turn::Ended {
            return Ok(end_of(rt, alloc, manager, nursery_stops, from)?);
        }
    }
}

/// Runs one trace for each mutator to the end, in a heap of `blocks` blocks. The objects are those
/// that `from` reaches, or all roots if it is empty.
pub(crate) fn session<R: Abort + Threads + Sync>(
    rt: &R,
    alloc: Global,
    under: Under,
    blocks: u32,
    traces: &[&[Command]],
    from: &[u32],
) -> Result<End, Fail> {
    managed_plans();
    let mut copies = Vec::new(alloc);
    for trace in traces {
        copies.push(trace.to_vec(alloc)?)?;
    }
    match under {
        Under::NoGc => run::<NoGc, R>(rt, alloc, blocks, copies, from),
        Under::MarkSweep => run::<MarkSweep, R>(rt, alloc, blocks, copies, from),
        Under::SemiSpace => run::<SemiSpace, R>(rt, alloc, blocks, copies, from),
        Under::GenCopy => run::<GenCopy, R>(rt, alloc, blocks, copies, from),
        Under::Immix => run::<Immix, R>(rt, alloc, blocks, copies, from),
        Under::StickyImmix => run::<StickyImmix, R>(rt, alloc, blocks, copies, from),
    }
}
