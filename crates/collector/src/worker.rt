//! The worker of a collection: it runs packets of items.

use crate::item::Item;
use crate::packet_tracer::PacketTracer;
use object_model::Heap;
use std::alloc::AllocError;
use trace_core::TraceRun;
use work_packets::{Gate, Packet, PacketWorker, Point};

/// What a tracing began from. Contracts alone speak of it.
#[derive(Debug, Drop)]
pub struct TracingStart {
    pub heap: Heap,
    pub run: TraceRun,
    pub roots: Vec<u32>,
}

/// The worker of a collection. It passes the gate before and after each item.
#[derive(Drop)]
pub struct TracingWorker<'g, G: Gate> {
    pub(crate) trace: PacketTracer,
    pub(crate) gate: &'g G,
    // 16 and the worker's number, counted from 1.
    pub(crate) who: u32,
}

impl<'g, G: Gate> PacketWorker<Item> for TracingWorker<'g, G> {
    type Home = usize;

    type Start = TracingStart;

    ghost use Rattle.std.specs.Prelude.{◌≡◌, ◌+◌, ◌≤◌, ◌∷◌, ◌++◌, [], List, All, IfOk, length};
    ghost use Rattle.work_packets.specs.Buckets.{IsSameOrLater};
    ghost use Rattle.work_packets.specs.Packets.{HasItems};
    ghost use Rattle.work_packets.specs.Awaiting.{AwaitsAll};
    ghost use Rattle.work_packets.specs.declared.packet.Packet.{Packet};
    ghost use Rattle.collector.specs.declared.item.Item.{Item};
    ghost use Rattle.collector.specs.declared.worker.TracingStart.{TracingStart};
    ghost use Rattle.collector.specs.Working.{TakesPlaces, RunsPacket, AwaitsPackets, unclaimed_by};

    ghost home = { λ w. length w.trace.roots.items };

    ghost takes = { λ h p. TakesPlaces h p };

    ghost steps = { λ w p q v. RunsPacket w.trace p q v.trace };

    ghost left = { λ w. unclaimed_by w.trace };

    ghost awaits = { λ start w ps. AwaitsPackets start w.trace ps };

    fn run(&mut self, p: Packet<Item>, pushed: &mut Vec<Packet<Item>>) -> Result<(), AllocError>
        requires takes { TakesPlaces (length self.old.trace.roots.items) p }
        requires items { HasItems p }
        requires empty { pushed.old.items ≡ [] }
        requires awaited { (start : TracingStart) × (rest : List (Packet Item))
            × AwaitsAll AwaitsPackets start self.old.trace (p ∷ rest) }
        ensures home { IfOk result (λ _. length self.new.trace.roots.items
            ≡ length self.old.trace.roots.items) }
        ensures step { IfOk result
            (λ _. RunsPacket self.old.trace p pushed.new.items self.new.trace) }
        ensures left { IfOk result (λ _. unclaimed_by self.new.trace + length pushed.new.items
            ≤ unclaimed_by self.old.trace) }
        ensures takes { IfOk result
            (λ _. All (TakesPlaces (length self.old.trace.roots.items)) pushed.new.items) }
        ensures items { IfOk result (λ _. All HasItems pushed.new.items) }
        ensures order { IfOk result
            (λ _. All (λ q. IsSameOrLater p.bucket q.bucket) pushed.new.items) }
        ensures awaits { IfOk result (λ _. (start : TracingStart) (rest : List (Packet Item))
            → AwaitsAll AwaitsPackets start self.old.trace (p ∷ rest)
            → AwaitsAll AwaitsPackets start self.new.trace (pushed.new.items ++ rest)) }
    {
        let Packet { mut items, .. } = p;
        while let Some(item) = items.pop() {
            self.gate.pass(self.who, Point::Claim);
            self.trace.serve(item)?;
            self.gate.pass(self.who, Point::Claimed);
        }
        self.trace.spare.push(items)?;
        self.trace.hand_on(pushed)
    }
}
