//! What may go to another thread, and what several may look at: a missing proof shows here.

use crate::rows::{SharedRow, WordRow};
use crate::shared_words::RowSeat;
use atomic_table::TableRule;

fn may_be_sent<T: Send>(_value: &T) {}

fn may_be_looked_at<T: Sync>(_value: &T) {}

// A row goes from thread to thread, and several may read it.
fn rows_cross_threads(row: &WordRow) {
    may_be_sent(row);
    may_be_looked_at(row);
}

// A shared row goes from thread to thread, and several may step on it, each with a seat.
fn shared_rows_cross_threads<V, K, P: TableRule<(), V, K>>(
    row: &SharedRow<V, K, P>,
    seat: &RowSeat<V>,
) {
    may_be_sent(seat);
    may_be_sent(row);
    may_be_looked_at(row);
}
