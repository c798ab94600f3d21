//! The workers of a trace, as it begins and as it ends.

ghost use Rattle.std.specs.Prelude.{◌≡◌, ◌-◌, ◌^◌, [], All, IfOk, map};
ghost use Rattle.std.specs.List.{flat_map, sum_by};
ghost use Rattle.object_model.specs.Lawful.{AreRoots};
ghost use Rattle.trace_table.specs.Ends.{NewSeats};
ghost use Rattle.trace_table.specs.Seats.{IsTable, setup_at};
ghost use Rattle.racing_collector.specs.Accounts.{capped};

use crate::raced::Raced;
use crate::racing::Racing;
use crate::tally::Tally;
use crate::worker::RacingWorker;
use std::alloc::{AllocError, Global};
use trace_table::WorkerSeat;
use work_packets::Gate;

/// A worker for each seat, which served nothing, with room for the targets of all roots.
///
/// Fails if memory runs out.
pub(crate) fn enlist<'t, G: Gate>(
    alloc: Global,
    racing: &'t Racing,
    seats: Vec<WorkerSeat>,
    gate: &'t G,
) -> Result<Vec<RacingWorker<'t, G>>, AllocError>
    requires table { IsTable racing.now.table }
    requires seats { NewSeats racing.now.table (setup_at racing.now.table).workers seats.items }
    requires roots { AreRoots (setup_at racing.now.table).before racing.now.roots.items }
    ensures seats { IfOk result (λ ws. map (λ w. w.seat) ws.items ≡ seats.items) }
    ensures home { IfOk result (λ ws. All (λ w. w.racing.now ≡ racing.now) ws.items) }
    ensures served { IfOk result (λ ws. All (λ w. w.served.items ≡ []) ws.items) }
    ensures tally { IfOk result (λ ws. All (λ w. (w.tally.kept ≡ 0) × (w.tally.moved ≡ 0)
        × (w.tally.words ≡ 0)) ws.items) }
{
    let mut workers = Vec::new(alloc);
    let mut who: u32 = 17;
    for seat in seats {
        let served = Vec::with_capacity(alloc, racing.roots.len())?;
        workers.push(RacingWorker {
            racing,
            seat,
            served,
            tally: Tally::none(),
            won: Vec::new(alloc),
            gate,
            who,
        })?;
        who = who.saturating_add(1);
    }
    Ok(workers)
}

/// What the workers leave.
///
/// Fails if memory runs out.
pub(crate) fn dismiss<'t, G: Gate>(
    alloc: Global,
    workers: Vec<RacingWorker<'t, G>>,
) -> Result<Raced, AllocError>
    ensures seats { IfOk result (λ r. r.seats.items ≡ map (λ w. w.seat) workers.entry.items) }
    ensures served { IfOk result (λ r. r.served.items
        ≡ flat_map (λ w. w.served.items) workers.entry.items) }
    ensures kept { IfOk result (λ r. r.tally.kept
        ≡ capped (2 ^ 32 - 1) (sum_by (λ w. w.tally.kept) workers.entry.items)) }
    ensures moved { IfOk result (λ r. r.tally.moved
        ≡ capped (2 ^ 32 - 1) (sum_by (λ w. w.tally.moved) workers.entry.items)) }
    ensures words { IfOk result (λ r. r.tally.words
        ≡ capped (2 ^ 64 - 1) (sum_by (λ w. w.tally.words) workers.entry.items)) }
{
    let mut seats = Vec::new(alloc);
    let mut served = Vec::new(alloc);
    let mut tally = Tally::none();
    for worker in workers {
        let RacingWorker {
            seat,
            served: mut more,
            tally: counts,
            ..
        } = worker;
        seats.push(seat)?;
        served.append(&mut more)?;
        tally.add(&counts);
    }
    Ok(Raced {
        seats,
        served,
        tally,
    })
}
