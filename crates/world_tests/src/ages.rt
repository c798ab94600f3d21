//! Heaps with old objects, and which of these are logged, by a plain walk.

ghost use Rattle.std.specs.Prelude.{◌≡◌, IfOk, true};
ghost use Rattle.object_model.specs.Heaps.{heap_state};
ghost use Rattle.sessions.specs.Plans.{Rules};
ghost use Rattle.sessions.specs.Collecting.{Remembers};
ghost use Rattle.plain_world.specs.Calls.{IsOpen};

use crate::recycling::{collect_from, registers_of, set_registers};
use crate::worlds::{address, reply_to};
use ideal_heap::{Command, Reply};
use mutator_calls::Mutator;
use object_model::{Collect, Heap};
use plain_world::{PlainWorld, may_use};
use plan_api::Plan;
use std::alloc::{AllocError, Global};
use std::process::Abort;
use std::test::Fail;
use std::thread::Threads;
use write_barrier::{log, logged};

/// An old object, and whether it is logged.
#[derive(Clone, Copy)]
pub(crate) struct Old {
    pub(crate) address: u32,
    pub(crate) logged: bool,
}

// Bit n of the zone of bits that begins at word `first`.
fn has_bit(words: &[u64], first: usize, n: usize) -> bool {
    let word = words.get(first.wrapping_add(n / 64)).copied();
    word.unwrap_or(0) >> (n % 64) & 1 == 1
}

/// The old objects of a heap, by address. Start bits are 5 words a block after the first block
/// word, unlog bits 133, and the heap 197.
pub(crate) fn old_objects(alloc: Global, heap: &Heap) -> Result<Vec<Old>, AllocError> {
    let words = heap.words().to_vec(alloc)?;
    let blocks = heap.layout().blocks() as usize;
    let [starts, unlogs, first] = [5usize, 133, 197].map(|n| n
        .wrapping_mul(blocks)
        .wrapping_add(18));
    let mut olds = Vec::new(alloc);
    for n in 0..blocks.wrapping_mul(4096) {
        let address = first.wrapping_add(n);
        let collector = words.get(address.wrapping_add(2)).copied().unwrap_or(0);
        if has_bit(&words, starts, n) && heap.base() > 0 && collector >> 24 >= heap.base() {
            olds.push(Old {
                address: address as u32,
                logged: !has_bit(&words, unlogs, n),
            })?;
        }
    }
    Ok(olds)
}

/// Asserts that the logged objects are those of the list, by address. Returns how many.
pub(crate) fn check_logged(
    rt: &impl Abort,
    alloc: Global,
    heap: &Heap,
    olds: &[Old],
) -> Result<usize, AllocError> {
    let found = logged(alloc, heap)?;
    let want = olds.iter().filter(|o| o.logged).map(|o| o.address);
    assert!(rt; want.eq(found.iter().copied()), "{found:?}");
    Ok(found.len())
}

/// Clears the unlog bit of an address.
fn log_at(rt: &impl Abort, heap: Heap, address: u32) -> Heap
    ensures { (rules : Rules) → Remembers rules (heap_state heap)
        → Remembers rules (heap_state result) }
{
    assert!(rt; heap.layout().heap_base() <= address && address < heap.layout().words());
    let mut row = heap.into_row();
    log(&mut row.words, &row.layout, address);
    Heap::from_row(row)
}

/// Logs one in `of` of the old objects, none for 0.
pub(crate) fn log_some(rt: &impl Abort, heap: Heap, olds: &mut Vec<Old>, of: usize) -> Heap
    ensures { (rules : Rules) → Remembers rules (heap_state heap)
        → Remembers rules (heap_state result) }
{
    let mut heap = heap;
    let mut met = 0usize;
    for old in olds.iter_mut() {
        met = met.wrapping_add(1);
        if met.checked_rem(of) == Some(0) {
            heap = log_at(rt, heap, old.address);
            old.logged = true;
        }
    }
    heap
}

// The old object at the address is logged now, if there is one.
fn note_store(olds: &mut Vec<Old>, address: u32) {
    for old in olds.iter_mut() {
        if old.address == address {
            old.logged = true;
        }
    }
}

/// A command of the one mutator of a world. A store into an old object logs it.
pub(crate) fn call_noted<P: Plan>(
    rt: &impl Abort,
    world: &mut PlainWorld<P>,
    olds: &mut Vec<Old>,
    command: &Command,
)
    requires { IsOpen P.rules world.old }
    ensures { IsOpen P.rules world.new }
{
    let reply = reply_to(rt, world, 0, command);
    if let Command::Put { s, .. } = command
        && reply == Reply::Done
    {
        note_store(olds, address(rt, world, 0, *s));
    }
}

/// The next epoch of a heap.
pub(crate) fn begin<P: Plan>(
    rt: &impl Abort,
    alloc: Global,
    heap: Heap,
    mutators: Vec<Mutator>,
) -> Result<PlainWorld<P>, Fail>
    requires { Remembers P.rules (heap_state heap) }
    ensures { IfOk result (λ w. IsOpen P.rules w) }
{
    assert!(rt; mutators.len() <= 16 && may_use(&heap, &mutators));
    Ok(PlainWorld::<P>::begin(alloc, heap, mutators)?)
}

/// A stopped heap, collected or as it is.
pub(crate) fn stop<P: Plan, R: Abort + Threads + Sync>(
    rt: &R,
    alloc: Global,
    heap: Heap,
    mutators: &mut Vec<Mutator>,
    collects: bool,
) -> Result<Heap, Fail>
    requires collects { P.rules.collects ≡ true }
    requires remembers { Remembers P.rules (heap_state heap) }
    ensures { IfOk result (λ h. Remembers P.rules (heap_state h)) }
{
    if !collects {
        return Ok(heap);
    }
    let roots = registers_of(alloc, mutators)?;
    let (heap, roots) = collect_from::<P, R>(rt, alloc, heap, roots, Collect::Full)?;
    set_registers(mutators, &roots);
    Ok(heap)
}

/// What comes between two epochs: each how many of the old objects are logged, none for 0, and
/// whether a full collection is made then.
#[derive(Clone, Copy)]
pub(crate) struct Between {
    pub(crate) logs: usize,
    pub(crate) collects: bool,
}

/// The next epoch. At the end of this one, and when more objects are logged, the logged objects are
/// those of the list. Returns how many; the list is that of the next epoch then.
pub(crate) fn noted_epoch<P: Plan, R: Abort + Threads + Sync>(
    rt: &R,
    alloc: Global,
    world: PlainWorld<P>,
    olds: &mut Vec<Old>,
    between: Between,
) -> Result<(PlainWorld<P>, usize), Fail>
    requires collects { P.rules.collects ≡ true }
    requires open { IsOpen P.rules world }
    ensures { IfOk result (λ r. IsOpen P.rules r.0) }
{
    let (heap, mut mutators) = world.close();
    check_logged(rt, alloc, &heap, olds)?;
    let heap = log_some(rt, heap, olds, between.logs);
    let count = check_logged(rt, alloc, &heap, olds)?;
    let heap = stop::<P, R>(rt, alloc, heap, &mut mutators, between.collects)?;
    *olds = old_objects(alloc, &heap)?;
    Ok((begin(rt, alloc, heap, mutators)?, count))
}
