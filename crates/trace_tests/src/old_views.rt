//! Collections of heaps with old objects, and what they are to leave, by plain walks.

ghost use Rattle.std.specs.Prelude.{◌≡◌, IsTrue, true};
ghost use Rattle.object_model.specs.Ages.{RemembersYoung};
ghost use Rattle.object_model.specs.Heaps.{heap_state};
ghost use Rattle.sessions.specs.Plans.{Rules};
ghost use Rattle.collector.specs.Collected.{IsOffered};

use crate::ages::{AgedHeap, remembering};
use crate::views::{Pass, View, check_graph, collect_counted, moved, word};
use collector::Note;
use heap_graph::Place;
use heap_layout::Kind;
use mutator_calls::Mutator;
use object_model::{Collect, Heap};
use plan_api::Plan;
use std::alloc::{AllocError, Global};
use std::process::Abort;
use std::test::Fail;
use std::thread::Threads;

// Zones of the row: their first words after word 17, in words a block.
const LINES: usize = 1;

const STARTS: usize = 5;

const PINS: usize = 69;

const UNLOGS: usize = 133;

const OBJECTS: usize = 197;

/// A collection of which old objects are roots too, if it is a nursery one.
#[derive(Drop)]
pub(crate) struct AgedPass {
    pub(crate) pass: Pass,
    // How many roots it had, globals not counted, and how many logged objects.
    roots: u64,
    pub(crate) logged: u64,
}

fn zone(blocks: usize, words: usize) -> usize {
    blocks.wrapping_mul(words).wrapping_add(18)
}

// Whether the object at an address is old: a collection not before the base claimed it.
fn is_old(words: &[u64], base: u64, at: u32) -> bool {
    base > 0 && word(words, (at as usize).wrapping_add(2)) >> 24 >= base
}

// Adds the old ones of the objects that begin at 64 addresses, by their bits. Returns how many of
// them have no unlog bit.
fn add_old_from(
    words: &[u64],
    base: u64,
    first: u32,
    starts: u64,
    unlogs: u64,
    list: &mut Vec<u32>,
) -> Result<u64, AllocError> {
    let mut logged = 0u64;
    for n in 0..64u32 {
        let at = first.wrapping_add(n);
        if starts >> n & 1 == 1 && is_old(words, base, at) {
            list.push(at)?;
            logged = logged.wrapping_add(1 - (unlogs >> n & 1));
        }
    }
    Ok(logged)
}

// Adds the old objects of a heap to a list, by address. Returns how many of them are logged.
fn add_old(alloc: Global, heap: &Heap, list: &mut Vec<u32>) -> Result<u64, AllocError> {
    let blocks = heap.layout().blocks() as usize;
    let words = heap.words().to_vec(alloc)?;
    let unlogs = words.iter().skip(zone(blocks, UNLOGS));
    let starts = words.iter().skip(zone(blocks, STARTS));
    let mut first = heap.layout().heap_base();
    let mut logged = 0u64;
    for (start, unlog) in starts.zip(unlogs).take(blocks.wrapping_mul(64)) {
        if *start > 0 {
            let more = add_old_from(&words, heap.base(), first, *start, *unlog, list)?;
            logged = logged.wrapping_add(more);
        }
        first = first.wrapping_add(64);
    }
    Ok(logged)
}

fn registers_of(alloc: Global, mutators: &[Mutator]) -> Result<Vec<u32>, AllocError> {
    let mut registers = Vec::new(alloc);
    for mutator in mutators {
        registers.extend_from_slice(&mutator.registers)?;
    }
    Ok(registers)
}

fn set_registers(mutators: &mut Vec<Mutator>, roots: &[u32]) {
    let mut roots = roots.iter().copied();
    for mutator in mutators.iter_mut() {
        for register in mutator.registers.iter_mut() {
            *register = roots.next().unwrap_or(0);
        }
    }
}

// Whether a collection of this kind may be made, if the heap remembers its young objects.
fn is_offered(heap: &Heap, kind: Collect) -> bool
    ensures { IsTrue result → (r : Rules) → r.young ≡ true → RemembersYoung (heap_state heap.now)
        → IsOffered r kind (heap_state heap.now) }
{
    match kind {
        Collect::Full => true,
        Collect::Nursery => heap.base() > 0,
    }
}

// Asserts it.
fn check_offered(rt: &impl Abort, heap: &Heap, kind: Collect)
    ensures { (r : Rules) → r.young ≡ true → RemembersYoung (heap_state heap.now)
        → IsOffered r kind (heap_state heap.now) }
{
    assert!(rt; is_offered(heap, kind));
}

/// A collection by so many workers from the registers of all mutators.
pub(crate) fn collect_aged<P: Plan, R: Abort + Threads + Sync>(
    rt: &R,
    alloc: Global,
    aged: AgedHeap,
    kind: Collect,
    workers: u32,
) -> Result<(AgedPass, AgedHeap), Fail>
    requires collects { P.rules.collects ≡ true }
    requires young { P.rules.young ≡ true }
{
    let AgedHeap { heap, mut mutators } = aged;
    let registers = registers_of(alloc, &mutators)?;
    let mut olds = Vec::new(alloc);
    let mut logged = 0;
    if kind == Collect::Nursery {
        logged = add_old(alloc, &heap, &mut olds)?;
    }
    let old = view(rt, alloc, &heap, &registers, &olds)?;
    let roots = registers.len() as u64;
    check_offered(rt, &heap, kind);
    let (made, claim, claimed) = collect_counted::<P, R>(
        rt, alloc, heap, registers, kind, workers,
    )?;
    set_registers(&mut mutators, &made.roots);
    let pass = Pass {
        old,
        new: view(rt, alloc, &made.heap, &made.roots, &olds)?,
        note: made.note,
        claim,
        claimed,
    };
    let aged = remembering(made.heap, mutators);
    Ok((
        AgedPass {
            pass,
            roots,
            logged,
        },
        aged,
    ))
}

// The view of a heap from registers and old objects.
fn view(
    rt: &impl Abort,
    alloc: Global,
    heap: &Heap,
    registers: &[u32],
    olds: &[u32],
) -> Result<View, AllocError> {
    let mut roots = registers.to_vec(alloc)?;
    roots.extend_from_slice(olds)?;
    View::of(rt, alloc, heap, roots)
}

// Which blocks have words of the objects.
fn used_blocks(alloc: Global, view: &View) -> Result<Vec<bool>, AllocError> {
    let mut used = vec![in alloc; false; view.blocks]?;
    for place in &view.places {
        let from = (place.at as usize).wrapping_sub(zone(view.blocks, OBJECTS));
        let last = from.wrapping_add(place.size as usize).wrapping_sub(1);
        for block in from / 4096..last / 4096 + 1 {
            if let Some(is) = used.get_mut(block) {
                *is = true;
            }
        }
    }
    Ok(used)
}

// The line bits of Immix blocks whose objects are these.
fn marked_lines(alloc: Global, view: &View) -> Result<Vec<u64>, AllocError> {
    let mut lines = vec![in alloc; 0; view.blocks.wrapping_mul(4)]?;
    for place in &view.places {
        if view.kind(place.at) == Kind::Immix as u64 {
            let from = (place.at as usize).wrapping_sub(zone(view.blocks, OBJECTS));
            let last = from.wrapping_add(place.size as usize).wrapping_sub(1);
            for line in from / 16..last / 16 + 1 {
                if let Some(word) = lines.get_mut(line / 64) {
                    *word |= 1 << (line % 64);
                }
            }
        }
    }
    Ok(lines)
}

// Whether a collection under a plan evacuates blocks of this kind, or some of them.
fn may_evacuate<P: Plan>(kind: u64, collect: Collect) -> bool {
    if P::alloc_kind() as u64 == kind {
        return collect == Collect::Full || P::copy_kind() != P::alloc_kind();
    }
    collect == Collect::Full && (kind == P::copy_kind() as u64 || kind == Kind::Kept as u64)
}

// Whether a block whose word was `was` has the right one now, by whether it has objects.
fn is_released<P: Plan>(was: u64, is: u64, used: bool, collect: Collect) -> bool {
    if !used {
        return is == 0;
    }
    if was == 0 {
        return is == P::copy_kind() as u64;
    }
    if was % 16 != Kind::Immix as u64 && may_evacuate::<P>(was % 16, collect) {
        return is == Kind::Kept as u64;
    }
    is == was
}

// Whether a collection moved an object rightly: one that moves was in a block that is evacuated,
// and is in one that was Free.
fn is_placed<P: Plan>(pass: &Pass, was: &Place, is: &Place) -> bool {
    was.at == is.at || can_move::<P>(pass, was) && pass.old.kind(is.at) == 0
}

// Whether an object can move.
fn can_move<P: Plan>(pass: &Pass, was: &Place) -> bool {
    let collect = pass.note.collect;
    let stays = collect == Collect::Nursery && is_old(&pass.old.words, pass.old.base, was.at);
    !stays
        && !pass.old.is_pinned(u64::from(was.at))
        && may_evacuate::<P>(pass.old.kind(was.at), collect)
}

// Whether each object lies where it should. One that could move stays only if no block is Free any
// more. A full collection of Immix blocks evacuates some alone.
fn are_placed<P: Plan>(pass: &Pass) -> bool {
    let some = pass.note.collect == Collect::Full && P::copy_kind() == Kind::Immix;
    let mut full = true;
    for block in 0..pass.old.blocks {
        let [was, is] = [&pass.old, &pass.new].map(|v| word(&v.words, 18 + block % 1024));
        full = full && (was != 0 || is != 0);
    }
    let mut places = pass.old.places.iter().zip(&pass.new.places);
    places.all(|(was, is)| {
        is_placed::<P>(pass, was, is)
            && (some || full || was.at != is.at || !can_move::<P>(pass, was))
    })
}

// Whether each block has the right word.
fn are_released<P: Plan>(alloc: Global, pass: &Pass) -> Result<bool, AllocError> {
    let used = used_blocks(alloc, &pass.new)?;
    for (block, used) in used.iter().enumerate() {
        let [was, is] = [&pass.old, &pass.new].map(|v| word(&v.words, 18 + block % 1024));
        if !is_released::<P>(was, is, *used, pass.note.collect) {
            return Ok(false);
        }
    }
    Ok(true)
}

/// Whether all that is held is old, unlog bits are set there alone, and pin bits nowhere else.
pub(crate) fn is_remembering(view: &View) -> bool {
    let [starts, pins, unlogs] = [STARTS, PINS, UNLOGS].map(|z| zone(view.blocks, z));
    for n in 0..view.blocks.wrapping_mul(64) {
        let [start, pin, unlog] = [starts, pins, unlogs].map(|z| word(
            &view.words,
            z.wrapping_add(n),
        ));
        if start != unlog || pin & !start != 0 {
            return false;
        }
    }
    let mut places = view.places.iter();
    places.all(|p| is_old(&view.words, view.base, p.at))
}

/// Whether the line bits of Immix blocks are those of the lines that objects touch, and of others,
/// but for those of large objects, clear.
pub(crate) fn has_exact_lines(alloc: Global, view: &View) -> Result<bool, AllocError> {
    let lines = marked_lines(alloc, view)?;
    let first = zone(view.blocks, LINES);
    for (n, line) in lines.iter().enumerate() {
        let kind = word(&view.words, 18 + n / 4) % 16;
        let large = kind == Kind::LargeHead as u64 || kind == Kind::LargeTail as u64;
        if !large && word(&view.words, first.wrapping_add(n)) != *line {
            return Ok(false);
        }
    }
    Ok(true)
}

// What is to be noted: objects that were old do not count in a nursery collection.
fn expected_note(pass: &Pass) -> Note {
    let collect = pass.note.collect;
    let (mut kept, mut kept_words) = (0u32, 0u64);
    for place in &pass.old.places {
        let old = is_old(&pass.old.words, pass.old.base, place.at);
        if collect == Collect::Full || !old {
            kept = kept.wrapping_add(1);
            kept_words = kept_words.wrapping_add(u64::from(place.size));
        }
    }
    let moved = moved(pass);
    Note {
        collect,
        kept,
        moved,
        in_place: kept.wrapping_sub(moved),
        kept_words,
        free_blocks: pass.new.blocks_of(0),
    }
}

// Whether the collection is counted: its numbers, and each item once.
fn is_counted(aged: &AgedPass) -> bool {
    let AgedPass {
        pass,
        roots,
        logged,
    } = aged;
    let (old, new) = (&pass.old, &pass.new);
    let number = old.number.wrapping_add(1);
    let base = match pass.note.collect {
        Collect::Nursery => old.base,
        Collect::Full => number,
    };
    let items = roots
        .wrapping_add(*logged)
        .wrapping_add(16 + u64::from(pass.note.kept));
    (new.number, new.base) == (number, base) && (pass.claim, pass.claimed) == (items, items)
}

/// Asserts that the collection left what it should: the graph, and nothing else held.
pub(crate) fn check_pass<P: Plan>(
    rt: &impl Abort,
    alloc: Global,
    aged: &AgedPass,
) -> Result<(), AllocError> {
    let pass = &aged.pass;
    check_graph(rt, pass);
    assert!(rt;
        pass.new.held().0 as usize == pass.new.places.len(),
        "{:?}",
        pass.note
    );
    assert_eq!(rt; pass.note, expected_note(pass));
    assert!(rt;
        is_counted(aged) && is_remembering(&pass.new),
        "{:?}",
        pass.note
    );
    assert!(rt;
        are_placed::<P>(pass) && are_released::<P>(alloc, pass)?,
        "{:?}",
        pass.note
    );
    assert!(rt; has_exact_lines(alloc, &pass.new)?, "{:?}", pass.note);
    Ok(())
}
