//! The racing worker of a collection: it runs packets of items.

ghost use Rattle.racing_collector.specs.Accounts.{IsRacer};

use crate::handing::hand_on;
use crate::item::RaceItem;
use crate::racing::Racing;
use crate::served::Served;
use crate::tally::Tally;
use std::alloc::AllocError;
use std::mem;
use trace_table::{Grey, WorkerSeat};
use work_packets::{Gate, Packet, PacketWorker, Point};

/// A worker of a trace. Between packets it has nothing left to do. It passes the gate before and
/// after each item.
#[derive(Drop)]
pub struct RacingWorker<'t, G: Gate> {
    pub(crate) racing: &'t Racing,
    pub(crate) seat: WorkerSeat,
    pub(crate) served: Vec<Served>,
    pub(crate) tally: Tally,
    // A list of tokens, to be filled again.
    pub(crate) won: Vec<Grey>,
    pub(crate) gate: &'t G,
    // 16 and the worker's number, counted from 1.
    pub(crate) who: u32,
    pub ghost racer: { IsRacer racing.now seat },
}

impl<'t, G: Gate> PacketWorker<RaceItem> for RacingWorker<'t, G> {
    type Home = Racing;

    type Start = ();

    ghost use Rattle.std.specs.Prelude.{◌≡◌, ◌+◌, ◌≤◌, ◌∷◌, ◌++◌, [], List, All, IfOk, length};
    ghost use Rattle.work_packets.specs.Buckets.{IsSameOrLater};
    ghost use Rattle.work_packets.specs.Packets.{HasItems};
    ghost use Rattle.work_packets.specs.Awaiting.{AwaitsAll};
    ghost use Rattle.work_packets.specs.declared.packet.Packet.{Packet};
    ghost use Rattle.racing_collector.specs.declared.item.RaceItem.{RaceItem};
    ghost use Rattle.racing_collector.specs.Items.{IsPacketOf};
    ghost use Rattle.racing_collector.specs.Working.{RunsPacket, uncopied, worked};

    ghost home = { λ w. w.racing.now };

    ghost takes = { λ h p. IsPacketOf h p };

    ghost steps = { λ w p q v. (v.racing.now ≡ w.racing.now) × RunsPacket w.racing.now
        (worked w.seat.seat.me.0 w.served.items w.tally) p q
        (worked v.seat.seat.me.0 v.served.items v.tally) };

    ghost left = { λ w. uncopied w.racing.now w.seat.seat.me.0 };

    ghost awaits = { λ start w ps. Unit {0} };

    fn run(
        &mut self,
        p: Packet<RaceItem>,
        pushed: &mut Vec<Packet<RaceItem>>,
    ) -> Result<(), AllocError>
        requires takes { IsPacketOf self.old.racing.now p }
        requires items { HasItems p }
        requires empty { pushed.old.items ≡ [] }
        requires awaited { (start : Unit {0}) × (rest : List (Packet RaceItem))
            × AwaitsAll (λ start w ps. Unit {0}) start self.old (p ∷ rest) }
        ensures home { IfOk result (λ _. self.new.racing.now ≡ self.old.racing.now) }
        ensures step { IfOk result (λ _. (self.new.racing.now ≡ self.old.racing.now)
            × RunsPacket self.old.racing.now
            (worked self.old.seat.seat.me.0 self.old.served.items self.old.tally) p
            pushed.new.items
            (worked self.new.seat.seat.me.0 self.new.served.items self.new.tally)) }
        ensures left { IfOk result (λ _. uncopied self.new.racing.now self.new.seat.seat.me.0
            + length pushed.new.items
            ≤ uncopied self.old.racing.now self.old.seat.seat.me.0) }
        ensures takes { IfOk result
            (λ _. All (IsPacketOf self.old.racing.now) pushed.new.items) }
        ensures items { IfOk result (λ _. All HasItems pushed.new.items) }
        ensures order { IfOk result
            (λ _. All (λ q. IsSameOrLater p.bucket q.bucket) pushed.new.items) }
        ensures awaits { IfOk result (λ _. (start : Unit {0}) (rest : List (Packet RaceItem))
            → AwaitsAll (λ start w ps. Unit {0}) start self.old (p ∷ rest)
            → AwaitsAll (λ start w ps. Unit {0}) start self.new (pushed.new.items ++ rest)) }
    {
        let Packet { mut items, .. } = p;
        self.racing.look_ahead(&items);
        let alloc = *self.won.allocator();
        let mut won = mem::replace(&mut self.won, Vec::new(alloc));
        won.clear();
        while let Some(item) = items.pop() {
            self.gate.pass(self.who, Point::Claim);
            self.racing
                .serve(&mut self.seat, item, &mut self.served, &mut won)?;
            self.gate.pass(self.who, Point::Claimed);
        }
        hand_on(alloc, &mut self.tally, &mut won, pushed)?;
        self.won = won;
        // So what is left to copy falls by the packets that were pushed.
        self.racing.look_at_copies(&mut self.seat);
        Ok(())
    }
}
