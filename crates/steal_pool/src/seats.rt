//! Workers with their deques, and with tickets for the deques of all.

ghost use Rattle.std.specs.Prelude.{◌≡◌, ℕ, ◌+◌, ◌-◌, ◌<◌, ◌≤◌, List, [], ◌++◌, length, map, All, IfOk};
ghost use Rattle.std.specs.List.{AllZip, flat_map};
ghost use Rattle.std.specs.List.Sorted.{IsPermutation};
ghost use Rattle.crossbeam_deque.specs.Handles.{worker_deque, worker_view, stealer_deque};
ghost use Rattle.work_packets.specs.Shares.{packets_in};
ghost use Rattle.work_packets.specs.declared.packet.Packet.{Packet};
ghost use Rattle.steal_pool.specs.Ends.{IsTicketFor, AreTickets, IsOwner, takings, puts, stolen};
ghost use Rattle.steal_pool.specs.Seats.{desk_of, account, deques, got_by, HasParts, HasTickets, HasBegun};
ghost use Rattle.steal_pool.specs.declared.rule.TheConstants.{PARTS};

use crate::desk::{Desk, hand_out};
use crate::rule::{Cut, Fits, Own, Thief, Ticket};
use crossbeam_utils::CachePadded;
use std::alloc::AllocError;
use std::mem;
use work_packets::{Bucket, Packet, PacketWorker, Share};

/// The slots that a deque begins with.
const CAPACITY: usize = 256;

/// A worker's desk, on cache lines of its own, and its tickets for the deques of all workers.
#[derive(Drop)]
pub struct Seat<T, W, K: Fits<T>> {
    pub number: u32,
    pub desk: CachePadded<Desk<T, W, K>>,
    pub tickets: Vec<Ticket<T>>,
}

/// Opens a deque for a worker, and puts the packets of its share into it.
fn open_seat<T: Drop, W: PacketWorker<T>, K: Fits<T>>(
    b: Bucket,
    share: Share<T, W>,
) -> Result<(Seat<T, W, K>, Thief<T, K>), AllocError>
    requires bucket { All (λ p. p.bucket ≡ b) share.packets.items }
    requires fit { All K.fits share.packets.items }
    ensures parts { IfOk result (λ r. HasParts PARTS r.0) }
    ensures begun { IfOk result
        (λ r. HasBegun W.home W.takes W.steps b share (account r.0)) }
    ensures none { IfOk result (λ r. got_by r.0 ≡ []) }
    ensures fit { IfOk result (λ r. All K.fits (desk_of r.0).backlog.items) }
    ensures thief { IfOk result (λ r. stealer_deque r.1 ≡ worker_deque (desk_of r.0).own) }
{
    let Share {
        number,
        worker,
        mut packets,
    } = share;
    let alloc = *packets.allocator();
    let mut own: Own<T, K> = Own::lifo_as(alloc, CAPACITY)?;
    let thief = own.stealer()?;
    let mut backlog = Vec::new(alloc);
    let mut later = Vec::new(alloc);
    hand_out(b, &mut own, &mut packets, &mut backlog, &mut later)?;
    let desk = CachePadded::new(Desk {
        worker,
        own,
        backlog,
        later,
    });
    let tickets = Vec::new(alloc);
    let seat = Seat {
        number,
        desk,
        tickets,
    };
    Ok((seat, thief))
}

/// Opens a deque for each worker.
pub fn open_seats<T: Drop, W: PacketWorker<T>, K: Fits<T>>(
    b: Bucket,
    shares: Vec<Share<T, W>>,
) -> Result<(Vec<Seat<T, W, K>>, Vec<Thief<T, K>>), AllocError>
    requires bucket { All (λ p. p.bucket ≡ b) (packets_in shares.items) }
    requires fit { All K.fits (packets_in shares.items) }
    ensures parts { IfOk result (λ r. All (HasParts PARTS) r.0.items) }
    ensures begun { IfOk result (λ r. AllZip (HasBegun W.home W.takes W.steps b) shares.items
        (map account r.0.items)) }
    ensures none { IfOk result (λ r. All (λ s. got_by s ≡ []) r.0.items) }
    ensures fit { IfOk result (λ r. All (λ s. All K.fits (desk_of s).backlog.items) r.0.items) }
    ensures thieves { IfOk result
        (λ r. map (λ t. stealer_deque t) r.1.items ≡ deques r.0.items) }
    ensures len { IfOk result (λ r. length r.0.items ≡ length shares.items) }
{
    let alloc = *shares.allocator();
    let mut seats = Vec::new(alloc);
    let mut thieves = Vec::new(alloc);
    for share in shares {
        let (seat, thief) = open_seat(b, share)?;
        seats.push(seat)?;
        thieves.push(thief)?;
    }
    Ok((seats, thieves))
}

/// Cuts a ticket for the worker's deque.
fn cut_ticket<T: Drop, W: Drop, K: Fits<T>>(seat: &mut Seat<T, W, K>) -> Ticket<T>
    requires owner { IsOwner (desk_of seat.old).own }
    requires parts { 1 < (worker_view (desk_of seat.old).own).parts }
    ensures parts { (n : ℕ) → HasParts (n + 1) seat.old → 0 < n → HasParts n seat.new }
    ensures account { account seat.new ≡ account seat.old }
    ensures got { got_by seat.new ≡ got_by seat.old }
    ensures tickets { seat.new.tickets ≡ seat.old.tickets }
    ensures ticket { IsTicketFor (worker_deque (desk_of seat.old).own) result }
    ensures none { stolen result ≡ [] }
{
    let desk = &mut *seat.desk;
    desk.own.another::<Cut>()
}

/// Cuts a ticket for each deque.
fn cut_row<T: Drop, W: Drop, K: Fits<T>>(
    seats: &mut Vec<Seat<T, W, K>>,
) -> Result<Vec<Ticket<T>>, AllocError>
    requires { (n : ℕ) × (0 < n) × All (HasParts (n + 1)) seats.old.items }
    ensures parts { IfOk result (λ _. (n : ℕ) → 0 < n → All (HasParts (n + 1)) seats.old.items
        → All (HasParts n) seats.new.items) }
    ensures account { IfOk result
        (λ _. map account seats.new.items ≡ map account seats.old.items) }
    ensures got { IfOk result
        (λ _. map (λ s. got_by s) seats.new.items ≡ map (λ s. got_by s) seats.old.items) }
    ensures tickets { IfOk result (λ _. map (λ s. s.tickets) seats.new.items
        ≡ map (λ s. s.tickets) seats.old.items) }
    ensures row { IfOk result (λ row. AreTickets (deques seats.old.items) row.items
        × (length row.items ≡ length seats.old.items) × (flat_map stolen row.items ≡ [])) }
{
    let mut row = Vec::new(*seats.allocator());
    for i in 0..seats.len() {
        let seat = &mut seats[i];
        let ticket = cut_ticket(seat);
        row.push(ticket)?;
    }
    Ok(row)
}

/// Gives each worker a ticket for each deque.
pub fn cut_tickets<T: Drop, W: Drop, K: Fits<T>>(
    seats: &mut Vec<Seat<T, W, K>>,
) -> Result<(), AllocError>
    requires parts { All (HasParts PARTS) seats.old.items }
    requires few { length seats.old.items < PARTS }
    requires none { All (λ s. got_by s ≡ []) seats.old.items }
    ensures parts { IfOk result
        (λ _. All (HasParts (PARTS - length seats.old.items)) seats.new.items) }
    ensures account { IfOk result
        (λ _. map account seats.new.items ≡ map account seats.old.items) }
    ensures none { IfOk result (λ _. All (λ s. got_by s ≡ []) seats.new.items) }
    ensures tickets { IfOk result
        (λ _. All (HasTickets (deques seats.old.items)) seats.new.items) }
{
    for i in 0..seats.len() {
        let row = cut_row(seats)?;
        let seat = &mut seats[i];
        seat.tickets = row;
    }
    Ok(())
}

/// Takes a ticket for the worker's deque back.
fn take_back<T: Drop, W: Drop, K: Fits<T>>(seat: &mut Seat<T, W, K>, ticket: Ticket<T>)
    requires owner { IsOwner (desk_of seat.old).own }
    requires ticket { IsTicketFor (worker_deque (desk_of seat.old).own) ticket }
    ensures parts { (n : ℕ) → HasParts n seat.old → HasParts (n + 1) seat.new }
    ensures account { account seat.new ≡ account seat.old }
    ensures got { IsPermutation (got_by seat.old ++ stolen ticket) (got_by seat.new) }
    ensures tickets { seat.new.tickets ≡ seat.old.tickets }
{
    let desk = &mut *seat.desk;
    desk.own.absorb::<Cut>(ticket);
}

/// Takes tickets back, one for each deque.
fn take_row_back<T: Drop, W: Drop, K: Fits<T>>(seats: &mut Vec<Seat<T, W, K>>, row: Vec<Ticket<T>>)
    requires tickets { AreTickets (deques seats.old.items) row.items
        × (length row.items ≡ length seats.old.items) }
    requires parts { (n : ℕ) × (0 < n) × All (HasParts n) seats.old.items }
    ensures parts { (n : ℕ) → All (HasParts n) seats.old.items
        → All (HasParts (n + 1)) seats.new.items }
    ensures account { map account seats.new.items ≡ map account seats.old.items }
    ensures tickets { map (λ s. s.tickets) seats.new.items
        ≡ map (λ s. s.tickets) seats.old.items }
    ensures taken { IsPermutation
        (flat_map (λ s. got_by s) seats.old.items ++ flat_map stolen row.items)
        (flat_map (λ s. got_by s) seats.new.items) }
{
    let mut row = row;
    while let Some(ticket) = row.pop() {
        let i = row.len();
        let seat = &mut seats[i];
        take_back(seat, ticket);
    }
}

/// Takes all tickets back.
pub fn take_tickets_back<T: Drop, W: Drop, K: Fits<T>>(seats: &mut Vec<Seat<T, W, K>>)
    requires tickets { All (HasTickets (deques seats.old.items)) seats.old.items }
    requires parts { All (HasParts (PARTS - length seats.old.items)) seats.old.items }
    requires few { length seats.old.items < PARTS }
    ensures parts { All (HasParts PARTS) seats.new.items }
    ensures account { map account seats.new.items ≡ map account seats.old.items }
    ensures taken { IsPermutation (flat_map (λ s. got_by s) seats.old.items)
        (flat_map (λ s. takings (desk_of s).own) seats.new.items) }
{
    let alloc = *seats.allocator();
    for i in 0..seats.len() {
        let seat = &mut seats[i];
        let row = mem::replace(&mut seat.tickets, Vec::new(alloc));
        take_row_back(seats, row);
    }
}
