//! The rule of a worker's deque.

ghost use Rattle.work_packets.specs.declared.packet.Packet.{Packet};

use crossbeam_deque::protocol::{Join, Outcome, Protocol, Split};
use crossbeam_deque::{Pass, Stealer, Worker};
use std::alloc::Global;
use std::collections::LinkedList;
use std::marker::{Brand, PhantomData};
use work_packets::Packet;

/// The parts into which the right to know a whole deque is cut.
pub const PARTS: u64 = 64;

/// What a thread put into a deque and took from it, and its parts of the right to know the whole.
/// Contracts alone speak of it.
pub struct Hand<T> {
    pub parts: u64,
    pub put: LinkedList<Packet<T>>,
    pub taken: LinkedList<Packet<T>>,
}

/// Which packets may stand in the deques. Each run of a bucket picks it.
pub trait Fits<T> {
    ghost fits: { Packet T → Type 0 };
}

impl<T> Fits<T> for Brand {
    ghost use Rattle.std.specs.Prelude.{⊤};

    ghost fits = { λ p. ⊤ };
}

/// What the owner put is what all threads took and what is there.
pub struct Fair<K> {
    marker: PhantomData<K>,
}

impl<T, K: Fits<T>> Protocol<Packet<T>, Hand<T>> for Fair<K> {
    ghost use Rattle.std.specs.Prelude.{[]};
    ghost use Rattle.steal_pool.specs.Rule.{hand, IsBalanced};
    ghost use Rattle.steal_pool.specs.declared.rule.TheConstants.{PARTS};

    ghost holds = { IsBalanced K.fits };

    ghost first = { hand PARTS [] [] };

    ghost guest = { hand 0 [] [] };
}

/// The owner gives a thief one part.
pub struct Cut;

impl<T> Split<Hand<T>> for Cut {
    ghost use Rattle.std.specs.Prelude.{[], ◌-◌};
    ghost use Rattle.steal_pool.specs.Rule.{hand};

    ghost left = { λ v. hand (v.parts - 1) v.put v.taken };

    ghost right = { λ v. hand 1 [] [] };
}

impl<T> Join<Hand<T>> for Cut {
    ghost use Rattle.std.specs.Prelude.{[], ◌+◌, ◌++◌};
    ghost use Rattle.steal_pool.specs.Rule.{hand};

    ghost both = { λ v w. hand (v.parts + w.parts) v.put (v.taken ++ w.taken) };

    ghost spent = { hand 0 [] [] };
}

/// The owner puts a packet.
pub struct Puts;

impl<T> Outcome<Packet<T>, Hand<T>> for Puts {
    ghost use Rattle.std.specs.Prelude.{◌≡◌, ◌++◌};
    ghost use Rattle.steal_pool.specs.Rule.{hand};

    ghost then = { λ v xs w. w ≡ hand v.parts (v.put ++ xs) v.taken };
}

/// The owner takes a packet, and no more than it put. With all parts, and an empty deque, all that
/// was put was taken.
pub struct Pops<K> {
    marker: PhantomData<K>,
}

impl<T, K: Fits<T>> Outcome<Packet<T>, Hand<T>> for Pops<K> {
    ghost use Rattle.std.specs.Prelude.{◌≡◌, ◌≤◌, ◌++◌, All, length};
    ghost use Rattle.std.specs.List.Sorted.{IsPermutation};
    ghost use Rattle.steal_pool.specs.Rule.{hand};
    ghost use Rattle.steal_pool.specs.declared.rule.TheConstants.{PARTS};

    ghost then = { λ v xs w. (w ≡ hand v.parts v.put (v.taken ++ xs))
        × (length w.taken ≤ length w.put) × All K.fits xs };

    ghost empty = { λ v. v.parts ≡ PARTS → IsPermutation v.put v.taken };
}

/// A thief takes a packet.
pub struct Steals<K> {
    marker: PhantomData<K>,
}

impl<T, K: Fits<T>> Outcome<Packet<T>, Hand<T>> for Steals<K> {
    ghost use Rattle.std.specs.Prelude.{◌≡◌, ◌++◌, All};
    ghost use Rattle.steal_pool.specs.Rule.{hand};

    ghost then = { λ v xs w. (w ≡ hand v.parts v.put (v.taken ++ xs)) × All K.fits xs };
}

/// The owner's end of a deque.
pub type Own<T, K> = Worker<Packet<T>, Global, Hand<T>, Fair<K>>;

/// A thief's way to a deque.
pub type Thief<T, K> = Stealer<Packet<T>, Global, Hand<T>, Fair<K>>;

/// A thief's right to take from a deque.
pub type Ticket<T> = Pass<Packet<T>, Hand<T>>;
