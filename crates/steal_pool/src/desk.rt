//! One worker at its deque.

ghost use Rattle.std.specs.Prelude.{◌≡◌, ◌⊎◌, ◌+◌, ◌≤◌, List, [], ◌∷◌, ◌++◌, length, All, IfOk, MatchOption};
ghost use Rattle.std.specs.List.Sorted.{IsPermutation};
ghost use Rattle.crossbeam_deque.specs.Handles.{worker_view};
ghost use Rattle.work_packets.specs.Buckets.{IsSameOrLater};
ghost use Rattle.work_packets.specs.Packets.{packets_of, packets_after};
ghost use Rattle.work_packets.specs.declared.packet.Packet.{Packet};
ghost use Rattle.steal_pool.specs.Ends.{IsOwner, Keeps, puts, takings};
ghost use Rattle.steal_pool.specs.Served.{IsServed, IsFitting, AwaitsAny};
ghost use Rattle.steal_pool.specs.declared.rule.TheConstants.{PARTS};

use crate::rule::{Fits, Own, Pops, Puts};
use std::alloc::AllocError;
use work_packets::{Bucket, Gate, Packet, PacketWorker, Point};

/// A worker with its end of its deque, the packets that the deque refused and that it has yet to
/// run, and those that it pushed for later buckets.
#[derive(Drop)]
pub struct Desk<T, W, K: Fits<T>> {
    pub worker: W,
    pub own: Own<T, K>,
    pub backlog: Vec<Packet<T>>,
    pub later: Vec<Packet<T>>,
}

/// Puts packets of the bucket into the deque, those that it refuses into the backlog, and those of
/// later buckets to the later ones.
pub fn hand_out<T: Drop, K: Fits<T>>(
    b: Bucket,
    own: &mut Own<T, K>,
    pushed: &mut Vec<Packet<T>>,
    backlog: &mut Vec<Packet<T>>,
    later: &mut Vec<Packet<T>>,
) -> Result<(), AllocError>
    requires owner { IsOwner own.old }
    requires order { All (λ p. IsSameOrLater b p.bucket) pushed.old.items }
    requires fit { All K.fits (packets_of b pushed.old.items) }
    ensures keeps { Keeps own.old own.new × (takings own.new ≡ takings own.old) }
    ensures empty { IfOk result (λ _. pushed.new.items ≡ []) }
    ensures given { IfOk result (λ _. (put : List (Packet T)) × (refused : List (Packet T))
        × (puts own.new ≡ puts own.old ++ put)
        × (backlog.new.items ≡ backlog.old.items ++ refused)
        × IsPermutation (packets_of b pushed.old.items) (put ++ refused)) }
    ensures later { IfOk result (λ _. IsPermutation
        (later.old.items ++ packets_after b pushed.old.items) later.new.items) }
{
    while let Some(p) = pushed.pop() {
        if p.bucket == b {
            match own.push_as::<Puts>(p) {
                Ok(()) => {}
                Err(p) => backlog.push(p)?,
            }
        } else {
            later.push(p)?;
        }
    }
    Ok(())
}

/// The next packet of the backlog or of the deque.
fn next<T: Drop, K: Fits<T>>(own: &mut Own<T, K>, backlog: &mut Vec<Packet<T>>) -> Option<Packet<T>>
    requires owner { IsOwner own.old }
    requires fit { All K.fits backlog.old.items }
    ensures keeps { Keeps own.old own.new × (puts own.new ≡ puts own.old) }
    ensures fit { All K.fits backlog.new.items }
    ensures found { MatchOption result
        ((takings own.new ≡ takings own.old) × (backlog.new.items ≡ [])
        × (backlog.old.items ≡ [])
        × ((worker_view own.new).parts ≡ PARTS → IsPermutation (puts own.new) (takings own.new)))
        (λ p. K.fits p × (((takings own.new ≡ takings own.old)
        × (backlog.old.items ≡ backlog.new.items ++ p ∷ []))
        ⊎ ((backlog.new.items ≡ backlog.old.items) × (takings own.new ≡ takings own.old ++ p ∷ [])
        × (length (takings own.new) ≤ length (puts own.new))))) }
{
    match backlog.pop() {
        Some(p) => Some(p),
        None => own.pop_as::<Pops<K>>(),
    }
}

/// Runs a packet, and hands out what it pushes.
pub fn run_one<T: Drop, W: PacketWorker<T>, K: Fits<T>, G: Gate>(
    b: Bucket,
    gate: &G,
    who: u32,
    p: Packet<T>,
    desk: &mut Desk<T, W, K>,
    pushed: &mut Vec<Packet<T>>,
) -> Result<(), AllocError>
    requires owner { IsOwner desk.old.own }
    requires none { pushed.old.items ≡ [] }
    requires fitting { IsFitting K.fits b W.takes (W.home desk.old.worker) }
    requires packet { K.fits p }
    requires fit { All K.fits desk.old.backlog.items }
    requires awaits { AwaitsAny W.awaits }
    ensures keeps { Keeps desk.old.own desk.new.own
        × (takings desk.new.own ≡ takings desk.old.own) }
    ensures none { IfOk result (λ _. pushed.new.items ≡ []) }
    ensures home { IfOk result (λ _. W.home desk.new.worker ≡ W.home desk.old.worker) }
    ensures fit { IfOk result (λ _. All K.fits desk.new.backlog.items) }
    ensures less { IfOk result (λ _. length (puts desk.new.own) + length desk.new.backlog.items
        + W.left desk.new.worker
        ≤ length (puts desk.old.own) + length desk.old.backlog.items + W.left desk.old.worker) }
    ensures more { IfOk result (λ _. length (puts desk.old.own) ≤ length (puts desk.new.own)) }
    ensures served { IfOk result (λ _. (w : W) (first got : List (Packet T))
        → IsServed W.home W.takes W.steps b w first desk.old.worker (puts desk.old.own) got
        (desk.old.backlog.items ++ p ∷ []) desk.old.later.items
        → IsServed W.home W.takes W.steps b w first desk.new.worker (puts desk.new.own) got
        desk.new.backlog.items desk.new.later.items) }
{
    gate.pass(who, Point::Packet);
    desk.worker.run(p, pushed)?;
    hand_out(b, &mut desk.own, pushed, &mut desk.backlog, &mut desk.later)?;
    Ok(())
}

/// Runs the packets of the backlog and of the deque, until there are none.
pub fn drain<T: Drop, W: PacketWorker<T>, K: Fits<T>, G: Gate>(
    b: Bucket,
    gate: &G,
    who: u32,
    desk: &mut Desk<T, W, K>,
    pushed: &mut Vec<Packet<T>>,
) -> Result<(), AllocError>
    requires owner { IsOwner desk.old.own }
    requires none { pushed.old.items ≡ [] }
    requires fitting { IsFitting K.fits b W.takes (W.home desk.old.worker) }
    requires fit { All K.fits desk.old.backlog.items }
    requires awaits { AwaitsAny W.awaits }
    ensures keeps { Keeps desk.old.own desk.new.own }
    ensures none { IfOk result (λ _. (pushed.new.items ≡ []) × (desk.new.backlog.items ≡ [])) }
    ensures home { IfOk result (λ _. W.home desk.new.worker ≡ W.home desk.old.worker) }
    ensures served { IfOk result (λ _. (more : List (Packet T))
        × (takings desk.new.own ≡ takings desk.old.own ++ more)
        × ((w : W) (first got : List (Packet T))
        → IsServed W.home W.takes W.steps b w first desk.old.worker (puts desk.old.own) got
        desk.old.backlog.items desk.old.later.items
        → IsServed W.home W.takes W.steps b w first desk.new.worker (puts desk.new.own)
        (got ++ more) [] desk.new.later.items)) }
{
    'work: loop {
        match next(&mut desk.own, &mut desk.backlog) {
            None => return Ok(()),
            Some(p) => run_one(b, gate, who, p, desk, pushed)?,
        }
    }
}
