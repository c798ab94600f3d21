//! A worker from its first packets to the end of its rounds.

ghost use Rattle.std.specs.Prelude.{◌≡◌, ◌<◌, List, [], ◌∷◌, ◌++◌, length, map, All, IfOk, MatchOption};
ghost use Rattle.crossbeam_deque.specs.Handles.{stealer_deque, view};
ghost use Rattle.steal_pool.specs.Ends.{IsOwner, IsTicketFor, stolen};
ghost use Rattle.steal_pool.specs.Seats.{desk_of, HasTickets, GoesOnTo, IsServable};
ghost use Rattle.steal_pool.specs.Served.{IsFitting, AwaitsAny};

use crate::desk::drain;
use crate::rule::{Fits, Steals, Thief, Ticket};
use crate::seats::Seat;
use crossbeam_deque::Steal;
use std::alloc::AllocError;
use std::hint;
use std::sync::atomic::{AtomicU64, Ordering};
use work_packets::{Bucket, Gate, Packet, PacketWorker, Point};

/// The rounds in which a worker without packets looks at the others' deques.
const ROUNDS: u32 = 64;

/// The spins before each round.
const SPINS: u32 = 300;

/// Takes a packet from another's deque, if one is there and no other thread comes first.
fn steal_from<T: Drop, K: Fits<T>>(thief: &Thief<T, K>, ticket: &mut Ticket<T>) -> Option<Packet<T>>
    requires { IsTicketFor (stealer_deque thief.now) ticket.old }
    ensures ticket { IsTicketFor (stealer_deque thief.now) ticket.new }
    ensures found { MatchOption result (stolen ticket.new ≡ stolen ticket.old)
        (λ p. K.fits p × (stolen ticket.new ≡ stolen ticket.old ++ p ∷ [])) }
{
    match thief.steal_as::<Steals<K>>(ticket) {
        Steal::Success(p) => Some(p),
        Steal::Empty => None,
        Steal::Retry => None,
    }
}

/// Runs all packets that the worker has.
fn finish<T: Drop, W: PacketWorker<T>, K: Fits<T>, G: Gate>(
    b: Bucket,
    gate: &G,
    seat: &mut Seat<T, W, K>,
) -> Result<(), AllocError>
    requires owner { IsOwner (desk_of seat.old).own }
    requires fitting { IsFitting K.fits b W.takes (W.home (desk_of seat.old).worker) }
    requires fit { All K.fits (desk_of seat.old).backlog.items }
    requires awaits { AwaitsAny W.awaits }
    ensures goes { IfOk result
        (λ _. GoesOnTo W.home W.takes W.steps b seat.old seat.new) }
    ensures tickets { IfOk result (λ _. seat.new.tickets ≡ seat.old.tickets) }
{
    let who = seat.number.saturating_add(16);
    let desk = &mut *seat.desk;
    let mut pushed = Vec::new(*desk.later.allocator());
    drain(b, gate, who, desk, &mut pushed)?;
    Ok(())
}

/// Takes a packet from the deque at place `i`, which is not the worker's own, and runs it with all
/// that it leads to.
fn look_at<T: Drop, W: PacketWorker<T>, K: Fits<T>, G: Gate>(
    b: Bucket,
    gate: &G,
    thieves: &Vec<Thief<T, K>>,
    busy: &AtomicU64,
    i: usize,
    seat: &mut Seat<T, W, K>,
) -> Result<(), AllocError>
    requires place { i < length thieves.now.items }
    requires owner { IsOwner (desk_of seat.old).own }
    requires fitting { IsFitting K.fits b W.takes (W.home (desk_of seat.old).worker) }
    requires none { (desk_of seat.old).backlog.items ≡ [] }
    requires awaits { AwaitsAny W.awaits }
    requires tickets { HasTickets (map (λ t. stealer_deque t) thieves.now.items) seat.old }
    ensures goes { IfOk result (λ _. GoesOnTo W.home W.takes W.steps b seat.old seat.new) }
    ensures tickets { IfOk result
        (λ _. HasTickets (map (λ t. stealer_deque t) thieves.now.items) seat.new) }
{
    if i + 1 == seat.number as usize {
        return Ok(());
    }
    gate.pass(seat.number.saturating_add(16), Point::Steal);
    let thief = &thieves[i];
    let ticket = &mut seat.tickets[i];
    match steal_from(thief, ticket) {
        None => Ok(()),
        Some(p) => {
            busy.fetch_add(1, Ordering::SeqCst);
            let desk = &mut *seat.desk;
            desk.backlog.push(p)?;
            finish(b, gate, seat)?;
            busy.fetch_sub(1, Ordering::SeqCst);
            Ok(())
        }
    }
}

/// Gives others time to push.
fn pause() {
    for _spin in 0..SPINS {
        hint::spin_loop();
    }
}

/// Looks once at each other's deque, where a worker holds packets.
fn look_round<T: Drop, W: PacketWorker<T>, K: Fits<T>, G: Gate>(
    b: Bucket,
    gate: &G,
    thieves: &Vec<Thief<T, K>>,
    busy: &AtomicU64,
    seat: &mut Seat<T, W, K>,
) -> Result<(), AllocError>
    requires owner { IsOwner (desk_of seat.old).own }
    requires fitting { IsFitting K.fits b W.takes (W.home (desk_of seat.old).worker) }
    requires none { (desk_of seat.old).backlog.items ≡ [] }
    requires awaits { AwaitsAny W.awaits }
    requires tickets { HasTickets (map (λ t. stealer_deque t) thieves.now.items) seat.old }
    ensures goes { IfOk result (λ _. GoesOnTo W.home W.takes W.steps b seat.old seat.new) }
    ensures tickets { IfOk result
        (λ _. HasTickets (map (λ t. stealer_deque t) thieves.now.items) seat.new) }
{
    if busy.load(Ordering::SeqCst) == 0 {
        return Ok(());
    }
    pause();
    for i in 0..thieves.len() {
        look_at(b, gate, thieves, busy, i, seat)?;
    }
    Ok(())
}

/// Runs the worker's packets, and those that it steals in its rounds. `busy` counts the workers
/// that hold packets, and ends the rounds of the others.
pub fn serve<T: Drop, W: PacketWorker<T>, K: Fits<T>, G: Gate>(
    b: Bucket,
    gate: &G,
    thieves: &Vec<Thief<T, K>>,
    busy: &AtomicU64,
    seat: Seat<T, W, K>,
) -> Result<Seat<T, W, K>, AllocError>
    requires { IsServable K.fits b W.home W.takes W.awaits
        (map (λ t. stealer_deque t) thieves.now.items) seat }
    ensures { IfOk result (λ r. GoesOnTo W.home W.takes W.steps b seat r
        × HasTickets (map (λ t. stealer_deque t) thieves.now.items) r) }
{
    let mut seat = seat;
    finish(b, gate, &mut seat)?;
    busy.fetch_sub(1, Ordering::SeqCst);
    for _round in 0..ROUNDS {
        look_round(b, gate, thieves, busy, &mut seat)?;
    }
    Ok(seat)
}
