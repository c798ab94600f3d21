//! A worked rule with views: tickets that threads draw, at most as many as there are.

ghost use Rattle.std.specs.Prelude.{◌≡◌, ◌+◌, ◌-◌, ◌<◌, ◌≤◌, length, slice_index};
ghost use Rattle.shared_row.specs.Tickets.{KeepsTickets};

use crate::rows::WordRow;
use crate::shared_words::{RowSeat, SharedWords};
use atomic_table::{Join, Play, Split, TableRule};
use std::test::Fail;

// The first word counts the tickets drawn. A seat's view is how many it may still draw, and the
// key how many there are.
struct Tickets;

impl TableRule<(), u64, u64> for Tickets {
    ghost holds = { KeepsTickets };

    ghost first = { λ all. all };
}

// The seat may draw one less.
impl Play<(), u64> for Tickets {
    ghost then = { λ _ me _ after. after.0 + 1 ≡ me.0 };
}

// A seat that may draw one ticket leaves.
impl Split<u64> for Tickets {
    ghost left = { λ n. n - 1 };

    ghost right = { λ _. 1 };
}

impl Join<u64> for Tickets {
    ghost both = { λ n m. n + m };

    ghost spent = { 0 };
}

// Draws a ticket.
fn draw(row: &SharedWords<u64, u64, Tickets>, seat: &mut RowSeat<u64>)
    requires { (seat.old.table_id ≡ row.now.table_id) × (0 < row.now.table_id.words)
        × (0 < seat.old.me.0) }
    ensures { (seat.new.table_id ≡ seat.old.table_id) × (seat.new.id ≡ seat.old.id)
        × (seat.new.me.0 + 1 ≡ seat.old.me.0) }
{
    row.fetch_add::<Tickets>(seat, 0, 1);
}

// Draws two tickets of a row, one with a seat that comes and goes.
fn draw_two(row: WordRow, all: u64) -> WordRow
    requires { (0 < length row) × (slice_index row 0 ≡ 0) × (2 ≤ all) }
    ensures count { length result ≡ length row }
    ensures drawn { slice_index result 0 ≤ 2 }
{
    let (row, mut seat) = row.share::<u64, u64, Tickets>(&all);
    let mut other = row.words.split::<Tickets>(&mut seat);
    draw(&row.words, &mut other);
    draw(&row.words, &mut seat);
    row.words.join::<Tickets>(&mut seat, other);
    row.into_row(seat)
}

#[test]
fn two_tickets_are_drawn(rt: HostRuntime) -> Result<(), Fail> {
    let row = draw_two(WordRow::zeros(rt.alloc(), 3)?, 2);
    assert!(rt; row.len() == 3 && row.get(0) <= 2);
    Ok(())
}
