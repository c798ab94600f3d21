//! Collections of a stopped heap of the kinds that its owner chooses.

ghost use Rattle.std.specs.Prelude.{IfOk, IsTrue};
ghost use Rattle.managed_heap.specs.Stopped.{IsStopped};

use heap_layout::Layout;
use managed_heap::{StoppedHeap, stopped_heaps_begin_epochs};
use object_model::Collect;
use plan_api::Plan;
use plans::{GenCopy, StickyImmix};
use pools::PlainPool;
use std::alloc::Global;
use std::process::Abort;
use std::test::Fail;
use std::thread::Threads;
use work_packets::OpenGate;

// A collection of this kind, for a nursery one after a full one.
fn collect<P: Plan, R: Abort + Threads + Sync>(
    rt: &R,
    stopped: StoppedHeap<P>,
    kind: Collect,
) -> Result<StoppedHeap<P>, Fail>
    requires young { IsTrue P.rules.young }
    requires stopped { IsStopped P.rules stopped }
    ensures { IfOk result (λ h. IsStopped P.rules h) }
{
    stopped_heaps_begin_epochs(&stopped);
    let (nursery, full) = stopped.collections();
    assert!(rt; nursery < 1_000 && full < 1_000);
    if kind == Collect::Nursery {
        assert!(rt; stopped.heap().base() > 0);
    }
    let (stopped, note) = stopped.collect(rt, kind, &PlainPool, &OpenGate)?;
    assert!(rt; (note.collect, note.kept, note.free_blocks) == (kind, 0, 4));
    Ok(stopped)
}

// Of an empty heap nothing is kept. A full collection is made first.
fn check_kinds<P: Plan, R: Abort + Threads + Sync>(rt: &R, alloc: Global) -> Result<(), Fail>
    requires { IsTrue P.rules.young }
{
    let mut stopped = StoppedHeap::<P>::new(alloc, Layout::new(4)?, 1, 1)?;
    for kind in [
        Collect::Full,
        Collect::Nursery,
        Collect::Nursery,
        Collect::Full,
    ] {
        stopped = collect::<P, R>(rt, stopped, kind)?;
    }
    assert!(rt; stopped.collections() == (2, 2) && stopped.heap().base() == 4);
    Ok(())
}

#[test]
fn kinds_are_chosen(rt: HostRuntime) -> Result<(), Fail> {
    check_kinds::<GenCopy, HostRuntime>(&rt, rt.alloc())?;
    check_kinds::<StickyImmix, HostRuntime>(&rt, rt.alloc())
}
