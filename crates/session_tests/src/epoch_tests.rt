//! Epochs by the public calls, whose parts run on threads or one after another, against `advance`.

ghost use Rattle.std.specs.Prelude.{◌≡◌, ◌<◌, IfOk};
ghost use Rattle.driver.specs.Prelude.{left, ClosesSome, IsManaged};
ghost use Rattle.ideal_heap.specs.Plain.{mutators_of};

use crate::commands::{commands_in, create, random_commands};
use crate::whole_sessions::check_runnable;
use driver::{Manager, Turn, managed_plans};
use heap_layout::Layout;
use ideal_heap::{Command, Ideal, Reply, valid};
use mm_runtime::run_parts;
use plan_api::Plan;
use plans::{GenCopy, Immix, MarkSweep, NoGc, SemiSpace, StickyImmix};
use pools::PlainPool;
use std::alloc::{AllocError, Global};
use std::process::Abort;
use std::sync::atomic::{AtomicU64, Ordering};
use std::test::Fail;
use std::thread::Threads;
use work_packets::{Gate, MeetGate, OpenGate, Point};

// An epoch whose parts run on threads, and its stop.
fn epoch_on_threads<P: Plan + Sync, G: Gate, R: Threads + Sync>(
    rt: &R,
    manager: Manager<P>,
    gate: &G,
) -> Result<(Manager<P>, Turn), AllocError>
    requires plan { IsManaged P.rules }
    requires ready { ClosesSome P.rules manager }
    ensures ready { IfOk result (λ r. ClosesSome P.rules r.0) }
    ensures left { IfOk result (λ r. r.1 ≡ Turn.More
        → left r.0.progress.items < left manager.progress.items) }
{
    let (epoch, mut parts) = manager.open_epoch()?;
    run_parts(rt, &epoch, &mut parts, gate);
    let (manager, turn) = epoch.close_epoch(rt, parts, &PlainPool, gate)?;
    Ok((manager, turn))
}

// An epoch whose parts `close_epoch` runs, and its stop.
fn epoch_in_turn<P: Plan + Sync, R: Threads + Sync>(
    rt: &R,
    manager: Manager<P>,
) -> Result<(Manager<P>, Turn), AllocError>
    requires plan { IsManaged P.rules }
    requires ready { ClosesSome P.rules manager }
    ensures ready { IfOk result (λ r. ClosesSome P.rules r.0) }
    ensures left { IfOk result (λ r. r.1 ≡ Turn.More
        → left r.0.progress.items < left manager.progress.items) }
{
    let (epoch, parts) = manager.open_epoch()?;
    let (manager, turn) = epoch.close_epoch(rt, parts, &PlainPool, &OpenGate)?;
    Ok((manager, turn))
}

// How the epochs of a session are run.
#[derive(Clone, Copy, Debug, PartialEq, Eq)]
enum Way {
    Advance,
    Threads,
    InTurn,
}

// An epoch and its stop.
fn epoch_by<P: Plan + Sync, G: Gate, R: Threads + Sync>(
    rt: &R,
    manager: Manager<P>,
    way: Way,
    gate: &G,
) -> Result<(Manager<P>, Turn), AllocError>
    requires plan { IsManaged P.rules }
    requires ready { ClosesSome P.rules manager }
    ensures ready { IfOk result (λ r. ClosesSome P.rules r.0) }
    ensures left { IfOk result (λ r. r.1 ≡ Turn.More
        → left r.0.progress.items < left manager.progress.items) }
{
    match way {
        Way::Advance => manager.advance(rt, &PlainPool, gate),
        Way::Threads => epoch_on_threads(rt, manager, gate),
        Way::InTurn => epoch_in_turn(rt, manager),
    }
}

// Runs traces to their end, in a heap of `blocks` blocks.
fn run_by<P: Plan + Sync, G: Gate, R: Abort + Threads + Sync>(
    rt: &R,
    alloc: Global,
    blocks: u32,
    traces: Vec<Vec<Command>>,
    way: Way,
    gate: &G,
) -> Result<Manager<P>, Fail>
    requires { IsManaged P.rules }
    ensures { IfOk result (λ m. ClosesSome P.rules m) }
{
    assert!(rt; 1 <= traces.len() && traces.len() <= 16);
    check_runnable(rt, &traces);
    let mut manager = Manager::<P>::begin(alloc, Layout::new(blocks)?, traces, 1)?;
    'epochs: loop {
        let (next, turn) = epoch_by(rt, manager, way, gate)?;
        manager = next;
        if turn == Turn::Ended {
            return Ok(manager);
        }
    }
}

// The same, through an open gate. Returns the replies of each mutator.
fn replies_by<P: Plan + Sync, R: Abort + Threads + Sync>(
    rt: &R,
    alloc: Global,
    blocks: u32,
    traces: Vec<Vec<Command>>,
    way: Way,
) -> Result<Vec<Vec<Reply>>, Fail>
    requires { IsManaged P.rules }
{
    let manager = run_by::<P, OpenGate, R>(rt, alloc, blocks, traces, way, &OpenGate)?;
    let mut replies = Vec::new(alloc);
    for m in 0..manager.mutators() {
        replies.push(manager.replies(m + 1).to_vec(alloc)?)?;
    }
    Ok(replies)
}

// Sessions: the mutators, the blocks of the heap, the commands of each mutator, and whether objects
// are small and none is pinned, so that nothing is refused in a small heap.
const SESSIONS: [(u32, u32, usize, bool); 3] = [
    (1, 64, 300, false),
    (4, 64, 300, false),
    (16, 8, 40, true),
];

// Random traces that load and store no global, so that each mutator's replies are its own.
fn private_traces(
    alloc: Global,
    mutators: u32,
    count: usize,
    small: bool,
) -> Result<Vec<Vec<Command>>, AllocError> {
    let mut traces = Vec::new(alloc);
    for m in 0..mutators {
        let mut trace = Vec::new(alloc);
        for command in random_commands(alloc, u64::from(m + 1) << 20, count, false)? {
            match command {
                Command::Load { .. } => trace.push(Command::Gc)?,
                Command::Share { .. } => trace.push(Command::Meet)?,
                Command::Pin { .. } if small => trace.push(Command::Gc)?,
                Command::New { d, refs, nums } if small => trace.push(Command::New {
                    d,
                    refs: refs.min(1),
                    nums: nums.min(2),
                })?,
                _ => trace.push(command)?,
            }
        }
        traces.push(trace)?;
    }
    Ok(traces)
}

// Threads run the same traces seventeen times, under each of six plans: a hundred times and more.
const TIMES: u32 = 17;

// The replies are the same whichever way the epochs are run, and whenever.
fn check_ways<P: Plan + Sync, R: Abort + Threads + Sync>(rt: &R, alloc: Global) -> Result<(), Fail>
    requires { IsManaged P.rules }
{
    for (mutators, blocks, count, small) in SESSIONS {
        let traces = private_traces(alloc, mutators, count, small)?;
        let plain = replies_by::<P, R>(rt, alloc, blocks, traces, Way::InTurn)?;
        let traces = private_traces(alloc, mutators, count, small)?;
        let other = replies_by::<P, R>(rt, alloc, blocks, traces, Way::Advance)?;
        assert!(rt; plain == other, "advance, {mutators}");
        for _ in 0..TIMES {
            let traces = private_traces(alloc, mutators, count, small)?;
            let other = replies_by::<P, R>(rt, alloc, blocks, traces, Way::Threads)?;
            assert!(rt; plain == other, "threads, {mutators}");
        }
    }
    Ok(())
}

#[test]
fn private_replies_are_always_the_same(rt: HostRuntime) -> Result<(), Fail> {
    let alloc = rt.alloc();
    managed_plans();
    check_ways::<NoGc, _>(&rt, alloc)?;
    check_ways::<MarkSweep, _>(&rt, alloc)?;
    check_ways::<SemiSpace, _>(&rt, alloc)?;
    check_ways::<GenCopy, _>(&rt, alloc)?;
    check_ways::<Immix, _>(&rt, alloc)?;
    check_ways::<StickyImmix, _>(&rt, alloc)
}

// What two mutators do that share their objects, six commands each.
const SHARING: [&str; 2] = [
    "new r0 1 1;share g0 r0;add r0 0 1;load r1 g1;read r1 0;add r1 0 5",
    "new r0 1 1;share g1 r0;load r1 g0;add r1 0 2;read r0 0;add r1 0 3",
];

// Whether the ideal heap gives this reply to this command.
fn replies_so(
    rt: &impl Abort,
    ideal: &mut Ideal,
    mutator: u32,
    command: &Command,
    reply: &Reply,
) -> Result<bool, AllocError>
    requires { mutators_of ideal.old ≡ 2 }
    ensures { mutators_of ideal.new ≡ 2 }
{
    assert!(rt; 1 <= mutator && mutator <= 2);
    assert!(rt; valid(command) && ideal.births(mutator) < 1_000);
    Ok(ideal.apply(mutator, command)? == *reply)
}

// Whether these are the replies if the second mutator's commands are those whose bits are set.
fn is_order(
    rt: &impl Abort,
    alloc: Global,
    traces: &[Vec<Command>],
    replies: &[Vec<Reply>],
    order: u32,
) -> Result<bool, AllocError> {
    let mut ideal = Ideal::new(alloc, 2)?;
    for k in 0..12u32 {
        let second = (order & !(u32::MAX << k)).count_ones();
        let (m, at) = match order >> k & 1 {
            0 => (0u32, k.wrapping_sub(second)),
            _ => (1, second),
        };
        let (Some(commands), Some(given)) = (traces.get(m as usize), replies.get(m as usize)) else {
            return Ok(false);
        };
        let (Some(command), Some(reply)) = (commands.get(at as usize), given.get(at as usize))
        else {
            return Ok(false);
        };
        if !replies_so(rt, &mut ideal, m.wrapping_add(1), command, reply)? {
            return Ok(false);
        }
    }
    Ok(true)
}

// Some order of the commands gives the replies.
fn check_shared<P: Plan + Sync, R: Abort + Threads + Sync>(
    rt: &R,
    alloc: Global,
) -> Result<(), Fail>
    requires { IsManaged P.rules }
{
    for _ in 0..TIMES {
        let mut traces = Vec::new(alloc);
        let mut given = Vec::new(alloc);
        for text in SHARING {
            traces.push(commands_in(alloc, text, 0, "", "")?)?;
            given.push(commands_in(alloc, text, 0, "", "")?)?;
        }
        let replies = replies_by::<P, R>(rt, alloc, 8, given, Way::Threads)?;
        let mut found = false;
        for order in 0..4_096u32 {
            if order.count_ones() == 6 && is_order(rt, alloc, &traces, &replies, order)? {
                found = true;
                break;
            }
        }
        assert!(rt; found, "{replies:?}");
    }
    Ok(())
}

#[test]
fn shared_replies_are_those_of_some_order(rt: HostRuntime) -> Result<(), Fail> {
    let alloc = rt.alloc();
    managed_plans();
    check_shared::<NoGc, _>(&rt, alloc)?;
    check_shared::<MarkSweep, _>(&rt, alloc)?;
    check_shared::<SemiSpace, _>(&rt, alloc)?;
    check_shared::<GenCopy, _>(&rt, alloc)?;
    check_shared::<Immix, _>(&rt, alloc)?;
    check_shared::<StickyImmix, _>(&rt, alloc)
}

// So many mutators meet so often.
fn meeting(alloc: Global, mutators: u32, count: usize) -> Result<Vec<Vec<Command>>, AllocError> {
    let mut traces = Vec::new(alloc);
    for _ in 0..mutators {
        let mut trace = Vec::new(alloc);
        for _ in 0..count {
            trace.push(Command::Meet)?;
        }
        traces.push(trace)?;
    }
    Ok(traces)
}

// Each of two mutators in turn is held at its first poll until the other has polled.
#[test]
fn mutators_run_at_once(rt: HostRuntime) -> Result<(), Fail> {
    let alloc = rt.alloc();
    managed_plans();
    for (first, second) in [(1u32, 2u32), (2, 1)] {
        let gate = MeetGate::new(first, second, Point::Poll);
        let traces = meeting(alloc, 2, 3)?;
        let manager = run_by::<Immix, MeetGate, _>(&rt, alloc, 4, traces, Way::Threads, &gate)?;
        assert!(rt; manager.commands() == 6 && !gate.missed(), "{first}");
    }
    Ok(())
}

// Four mutators that run in 5,000 epochs.
#[test]
fn many_epochs(rt: HostRuntime) -> Result<(), Fail> {
    let alloc = rt.alloc();
    managed_plans();
    for way in [Way::Threads, Way::Advance] {
        let traces = meeting(alloc, 4, 5_000)?;
        let manager = run_by::<SemiSpace, _, _>(&rt, alloc, 8, traces, way, &OpenGate)?;
        assert!(rt; manager.commands() == 20_000, "{way:?}");
    }
    Ok(())
}

// So many epochs are short that mutators run in turns.
const MANY: usize = 70;

// A gate that counts the polls of mutators 1 and 2, and those from the `MANY`th on that came before
// the other's turn was over.
#[derive(Drop)]
struct TurnGate {
    first: AtomicU64,
    second: AtomicU64,
    early: AtomicU64,
}

impl Gate for TurnGate {
    fn pass(&self, who: u32, point: Point) {
        if point != Point::Poll {
            return;
        }
        let (own, other) = match who {
            1 => (&self.first, self.second.load(Ordering::SeqCst)),
            _ => (
                &self.second,
                self.first.load(Ordering::SeqCst).wrapping_sub(1),
            ),
        };
        let before = own.fetch_add(1, Ordering::SeqCst);
        if before >= MANY as u64 && before != other {
            self.early.fetch_add(1, Ordering::SeqCst);
        }
    }
}

// Where one short epoch follows another, mutators run in turns: each polls once in an epoch.
#[test]
fn short_epochs_run_in_turns(rt: HostRuntime) -> Result<(), Fail> {
    let alloc = rt.alloc();
    managed_plans();
    let gate = TurnGate {
        first: AtomicU64::new(0),
        second: AtomicU64::new(0),
        early: AtomicU64::new(0),
    };
    let traces = meeting(alloc, 2, 1_000)?;
    let manager = run_by::<Immix, TurnGate, _>(&rt, alloc, 4, traces, Way::Advance, &gate)?;
    assert!(rt; manager.commands() == 2_000 && gate.second.load(Ordering::SeqCst) == 1_000);
    assert!(rt; gate.early.load(Ordering::SeqCst) == 0);
    Ok(())
}

// After many short epochs and a long one mutators are on threads again: each of two in turn is held
// at its `new` until the other comes to its own.
#[test]
fn threads_begin_again_after_a_long_epoch(rt: HostRuntime) -> Result<(), Fail> {
    let alloc = rt.alloc();
    managed_plans();
    for (first, second) in [(1u32, 2u32), (2, 1)] {
        let gate = MeetGate::new(first, second, Point::Alloc);
        let mut traces = meeting(alloc, 2, MANY)?;
        for trace in &mut traces {
            for _ in 0..5_000u32 {
                trace.push(Command::DropReg { s: 0 })?;
            }
            trace.push(Command::Meet)?;
            trace.push(create(0, 0, 1))?;
        }
        let manager = run_by::<Immix, MeetGate, _>(&rt, alloc, 4, traces, Way::Advance, &gate)?;
        assert!(rt; manager.commands() == 10_144 && !gate.missed(), "{first}");
    }
    Ok(())
}

// Two mutators on a heap that is full after eight objects. Each other one is refused at a stop of
// its own.
#[test]
fn many_refusals(rt: HostRuntime) -> Result<(), Fail> {
    let alloc = rt.alloc();
    managed_plans();
    let mut traces = Vec::new(alloc);
    for _ in 0..2u32 {
        let mut trace = Vec::new(alloc);
        for _ in 0..2_000u32 {
            trace.push(create(0, 0, 2045))?;
        }
        traces.push(trace)?;
    }
    let manager = run_by::<NoGc, _, _>(&rt, alloc, 4, traces, Way::Advance, &OpenGate)?;
    assert!(rt; manager.commands() == 4_000 && manager.refusals() == 3_992);
    Ok(())
}
