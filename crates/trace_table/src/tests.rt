//! Two workers trace a heap on two threads.

ghost use Rattle.std.specs.Prelude.{◌≡◌, ◌<◌, [], ◌∷◌, true, false, All, IfOk, length, slice_set, vec_len, vec_capacity};
ghost use Rattle.heap_layout.specs.declared.block.Kind.TheVariants as kinds;
ghost use Rattle.object_model.specs.Heaps.{heap_state};
ghost use Rattle.object_model.specs.Objects.{IsHeld};
ghost use Rattle.object_model.specs.declared.collect.Collect.TheVariants.{Full};
ghost use Rattle.trace_words.specs.Steps.{IsDone};
ghost use Rattle.trace_table.specs.Seats.{IsTable, IsSeat, IsGrey, setup_at};
ghost use Rattle.trace_table.specs.WorkedRaces.{raced_heap};

use crate::table::{TraceTable, WorkerSeat};
use crate::tokens::{Claim, Grey};
use heap_layout::{Kind, Layout};
use object_model::{Collect, Heap, Row};
use shared_row::WordRow;
use std::alloc::{AllocError, Global};
use std::process::Abort;
use std::test::Fail;
use std::thread::{Threads, join};
use trace_core::TraceRun;

// The words of the row.
const WORDS: usize = 17_190;

// The addresses of the pinned object, of the first one of the cycle, and of the other root.
const PINNED: u32 = 806;

const FIRST: u32 = 810;

const OTHER: u32 = 818;

fn put(row: &mut WordRow, i: usize, word: u64)
    requires { (length row.old ≡ WORDS) × (i < WORDS) }
    ensures words { row.new ≡ slice_set row.old i word }
    ensures count { length row.new ≡ WORDS }
{
    row.set(i, word);
}

// Four blocks. The first has a cycle, to which a pinned object and another one refer.
fn worked_row(alloc: Global) -> Result<WordRow, AllocError>
    ensures { IfOk result (λ row. row ≡ raced_heap.words) }
{
    let mut row = WordRow::zeros(alloc, WORDS)?;
    put(&mut row, 18, 1);
    put(&mut row, 38, 4369);
    put(&mut row, 294, 1);
    put(&mut row, 806, 33);
    put(&mut row, 807, 1);
    put(&mut row, 809, 810);
    put(&mut row, 810, 65);
    put(&mut row, 811, 1);
    put(&mut row, 813, 814);
    put(&mut row, 814, 97);
    put(&mut row, 815, 1);
    put(&mut row, 817, 810);
    put(&mut row, 818, 129);
    put(&mut row, 819, 1);
    put(&mut row, 821, 810);
    Ok(row)
}

// A full collection of it, which evacuates block 0.
fn worked_run(alloc: Global) -> Result<TraceRun, AllocError>
    ensures run { IfOk result (λ run. (run.number ≡ 1) × (run.base ≡ 1) × (run.collect ≡ Full)
        × (run.copy_kind ≡ kinds.Bump)) }
    ensures lists { IfOk result (λ run. (run.logged.items ≡ [])
        × (run.from.items ≡ true ∷ false ∷ false ∷ false ∷ [])) }
{
    let from = vec![in alloc; true, false, false, false]?;
    Ok(TraceRun {
        number: 1,
        base: 1,
        collect: Collect::Full,
        from,
        copy_kind: Kind::Bump,
        lines: false,
        logged: Vec::new(alloc),
    })
}

fn worked_heap(alloc: Global) -> Result<Heap, Fail>
    ensures { IfOk result (λ h. heap_state h ≡ raced_heap) }
{
    let words = worked_row(alloc)?;
    let layout = Layout::new(4)?;
    let heap = Heap::from_row(Row {
        words,
        layout,
        number: 0,
        base: 0,
    });
    Ok(heap)
}

// Scans the objects of these tokens and all that they lead to.
fn scan_all(
    table: &TraceTable,
    seat: &mut WorkerSeat,
    out: &mut Vec<Grey>,
) -> Result<(), AllocError>
    requires table { IsTable table.now }
    requires seat { IsSeat table.now seat.old }
    requires done { IsDone (setup_at table.now) seat.old.seat.me.0 }
    requires tokens { All (IsGrey table.now) out.old.items }
    ensures seat { IsSeat table.now seat.new }
{
    for _ in 0..4 {
        let Some(grey) = out.pop() else {
            break;
        };
        out.reserve(grey.refs() as usize)?;
        table.scan_object(seat, grey, out);
    }
    Ok(())
}

// Claims a root. Its target, and in `out` its token, if this worker won it.
fn claim_root(table: &TraceTable, seat: &mut WorkerSeat, root: u32, out: &mut Vec<Grey>) -> u32
    requires table { IsTable table.now }
    requires seat { IsSeat table.now seat.old }
    requires done { IsDone (setup_at table.now) seat.old.seat.me.0 }
    requires root { IsHeld (setup_at table.now).before root }
    requires room { vec_len out.old < vec_capacity out.old }
    requires tokens { All (IsGrey table.now) out.old.items }
    ensures seat { IsSeat table.now seat.new }
    ensures done { IsDone (setup_at table.now) seat.new.seat.me.0 }
    ensures tokens { All (IsGrey table.now) out.new.items }
{
    match table.claim(seat, root) {
        Claim::Old => root,
        Claim::Seen(target) => target,
        Claim::Won(won) => {
            let grey = table.copy(seat, won);
            let target = grey.at();
            out.push_reserved(grey);
            target
        }
    }
}

// A worker's part: it claims a root, and scans what it won. The root's target.
fn work(
    table: &TraceTable,
    alloc: Global,
    seat: &mut WorkerSeat,
    root: u32,
) -> Result<u32, AllocError>
    requires table { IsTable table.now }
    requires seat { IsSeat table.now seat.old }
    requires done { IsDone (setup_at table.now) seat.old.seat.me.0 }
    requires root { IsHeld (setup_at table.now).before root }
    ensures seat { IsSeat table.now seat.new }
{
    let mut out = Vec::with_capacity(alloc, 1)?;
    let target = claim_root(table, seat, root, &mut out);
    scan_all(table, seat, &mut out)?;
    Ok(target)
}

fn word(row: &WordRow, at: u64, offset: u64) -> u64 {
    let place = at.wrapping_add(offset) as usize;
    if place < row.len() { row.get(place) } else { 0 }
}

// Whether two rows have the same objects on the way along first fields. Those of the new one have
// their own addresses as targets.
fn same_way(old: &WordRow, new: &WordRow, from: u32, to: u32) -> bool {
    let mut x = from as u64;
    let mut y = to as u64;
    for _ in 0..4 {
        if word(old, x, 0) != word(new, y, 0) || word(old, x, 1) != word(new, y, 1) {
            return false;
        }
        if word(new, y, 2) != (1u64 << 24).wrapping_add(y) {
            return false;
        }
        x = word(old, x, 3);
        y = word(new, y, 3);
    }
    true
}

// The way from both roots is that of the row before, and meets. The pinned object stays alone.
fn check_row(
    rt: &impl Abort,
    alloc: Global,
    words: &WordRow,
    pinned: u32,
    other: u32,
) -> Result<(), AllocError> {
    let old = worked_row(alloc)?;
    assert!(rt; same_way(&old, words, PINNED, pinned) && same_way(&old, words, OTHER, other));
    let shared = word(words, pinned as u64, 3);
    assert!(rt; pinned == PINNED && other != OTHER && shared != FIRST as u64);
    assert!(rt; word(words, other as u64, 3) == shared);
    assert!(rt; word(words, word(words, shared, 3), 3) == shared);
    Ok(())
}

// A worker's seat after its part, and its root's target.
type Part = (WorkerSeat, Result<u32, AllocError>);

// Both workers on threads of their own.
fn race<R: Threads + Sync>(
    rt: &R,
    table: &TraceTable,
    alloc: Global,
    first: WorkerSeat,
    second: WorkerSeat,
) -> (Part, Part)
    requires table { IsTable table.now }
    requires first { IsSeat table.now first × IsDone (setup_at table.now) first.seat.me.0 }
    requires second { IsSeat table.now second × IsDone (setup_at table.now) second.seat.me.0 }
    requires roots { IsHeld (setup_at table.now).before PINNED
        × IsHeld (setup_at table.now).before OTHER }
    ensures seats { IsSeat table.now result.0.0 × IsSeat table.now result.1.0 }
{
    join(
        rt,
        move || -> Part
            requires { IsTable table.now × IsSeat table.now first
                × IsDone (setup_at table.now) first.seat.me.0
                × IsHeld (setup_at table.now).before PINNED }
            ensures { IsSeat table.entry.now result.0 }
        {
            let mut seat = first;
            let target = work(table, alloc, &mut seat, PINNED);
            (seat, target)
        },
        move || -> Part
            requires { IsTable table.now × IsSeat table.now second
                × IsDone (setup_at table.now) second.seat.me.0
                × IsHeld (setup_at table.now).before OTHER }
            ensures { IsSeat table.entry.now result.0 }
        {
            let mut seat = second;
            let target = work(table, alloc, &mut seat, OTHER);
            (seat, target)
        },
    )
}

// One trace of the heap, from the beginning to the end.
fn trace<R: Threads + Sync + Abort>(rt: &R, alloc: Global) -> Result<(), Fail> {
    let heap = worked_heap(alloc)?;
    let run = worked_run(alloc)?;
    let (table, mut seats) = TraceTable::begin(alloc, heap, run, 2)?;
    let Some(second) = seats.pop() else {
        panic!(rt; "no seat");
    };
    let Some(first) = seats.pop() else {
        panic!(rt; "no second seat");
    };
    let ((first, pinned), (second, other)) = race(rt, &table, alloc, first, second);
    seats.push(first)?;
    seats.push(second)?;
    let words = table.close(seats).row.words;
    check_row(rt, alloc, &words, pinned?, other?)?;
    Ok(())
}

#[test]
fn two_workers_trace_a_heap(rt: HostRuntime) -> Result<(), Fail> {
    for _ in 0..200 {
        trace(&rt, rt.alloc())?;
    }
    Ok(())
}

// A worker takes the Free blocks in rising order, and then none.
fn take_blocks(rt: &impl Abort, alloc: Global) -> Result<(), Fail> {
    let heap = worked_heap(alloc)?;
    let run = worked_run(alloc)?;
    let (table, mut seats) = TraceTable::begin(alloc, heap, run, 1)?;
    let Some(mut seat) = seats.pop() else {
        panic!(rt; "no seat");
    };
    let first = table.take_copy_block(&mut seat);
    let second = table.take_copy_block(&mut seat);
    let third = table.take_copy_block(&mut seat);
    let none = table.take_copy_block(&mut seat);
    assert!(rt; first == Some(1) && second == Some(2) && third == Some(3) && none.is_none());
    Ok(())
}

#[test]
fn a_worker_takes_copy_blocks(rt: HostRuntime) -> Result<(), Fail> {
    take_blocks(&rt, rt.alloc())
}
