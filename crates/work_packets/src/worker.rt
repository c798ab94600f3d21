//! What runs packets.

ghost use Rattle.std.specs.Prelude.{◌≡◌, ℕ, ◌+◌, ◌≤◌, List, [], ◌∷◌, ◌++◌, length, All, IfOk};
ghost use Rattle.work_packets.specs.Awaiting.{AwaitsAll};
ghost use Rattle.work_packets.specs.Buckets.{IsSameOrLater};
ghost use Rattle.work_packets.specs.Packets.{HasItems};
ghost use Rattle.work_packets.specs.declared.packet.Packet.{Packet};

use crate::packet::Packet;
use std::alloc::AllocError;

/// A worker of a collection, which runs packets one by one.
pub trait PacketWorker<T>: Send + Drop {
    /// What workers of one collection have in common.
    type Home;

    /// What the work began from. Contracts alone speak of it.
    type Start;

    // Its home, which no run changes.
    ghost home: { Self → Self.Home };

    // A worker of this home may run this packet.
    ghost takes: { Self.Home → Packet T → Type 0 };

    // The worker ran the packet, pushed the packets in this order, and became the second worker.
    ghost steps: { Self → Packet T → List (Packet T) → Self → Type 0 };

    // It pushes at most so many packets from now on.
    ghost left: { Self → ℕ };

    // The worker began from this, and exactly these packets are left for it to run.
    ghost awaits: { Self.Start → Self → List (Packet T) → Type 0 };

    /// Runs a packet. `pushed` is empty, and receives the packets that are to be run because of it,
    /// in this bucket or a later one.
    fn run(&mut self, p: Packet<T>, pushed: &mut Vec<Packet<T>>) -> Result<(), AllocError>
        requires takes { takes (home self.old) p }
        requires items { HasItems p }
        requires empty { pushed.old.items ≡ [] }
        requires awaited { (start : Self.Start) × (rest : List (Packet T))
            × AwaitsAll awaits start self.old (p ∷ rest) }
        ensures home { IfOk result (λ _. home self.new ≡ home self.old) }
        ensures step { IfOk result (λ _. steps self.old p pushed.new.items self.new) }
        ensures left { IfOk result
            (λ _. left self.new + length pushed.new.items ≤ left self.old) }
        ensures takes { IfOk result (λ _. All (takes (home self.old)) pushed.new.items) }
        ensures items { IfOk result (λ _. All HasItems pushed.new.items) }
        ensures order { IfOk result
            (λ _. All (λ q. IsSameOrLater p.bucket q.bucket) pushed.new.items) }
        ensures awaits { IfOk result (λ _. (start : Self.Start) (rest : List (Packet T))
            → AwaitsAll awaits start self.old (p ∷ rest)
            → AwaitsAll awaits start self.new (pushed.new.items ++ rest)) };
}
