//! Seats of workers and of tokens: a token has the right to one object or global, and no part of
//! the trace. A share counts the tokens that it gave and took in.

ghost use Rattle.std.specs.Prelude.{◌≡◌, ◌+◌, ◌<◌, [], length};
ghost use Rattle.object_model.specs.Times.{times};
ghost use Rattle.trace_core.specs.Views.{hits};
ghost use Rattle.trace_words.specs.Rule.{setup_in};
ghost use Rattle.trace_words.specs.Shares.{gives_parts, gives_scan, gives_global, worker_share, scan_token, global_token, both_shares};

use crate::rule::{About, TraceSeat, TraceWords};
use crate::share::Share;
use atomic_table::{Join, Split};
use std::marker::PhantomData;

struct GivesParts<C> {
    of: PhantomData<C>,
}

impl<C: About> Split<Share> for GivesParts<C> {
    ghost use Rattle.trace_words.specs.Shares.{gives_parts, worker_share};

    ghost left = { λ v. gives_parts C.index C.worker v };

    ghost right = { λ v. worker_share C.index C.worker };
}

struct GivesScan<C> {
    of: PhantomData<C>,
}

impl<C: About> Split<Share> for GivesScan<C> {
    ghost use Rattle.trace_words.specs.Shares.{gives_scan, scan_token};

    ghost left = { λ v. gives_scan C.object v };

    ghost right = { λ v. scan_token C.object C.target };
}

struct GivesGlobal<C> {
    of: PhantomData<C>,
}

impl<C: About> Split<Share> for GivesGlobal<C> {
    ghost use Rattle.trace_words.specs.Shares.{gives_global, global_token};

    ghost left = { λ v. gives_global C.index v };

    ghost right = { λ v. global_token C.index };
}

struct TakesIn;

impl Join<Share> for TakesIn {
    ghost use Rattle.trace_words.specs.Shares.{both_shares, empty_share};

    ghost both = { both_shares };

    ghost spent = { empty_share };
}

/// A seat for a worker, with its number and some parts of the trace. A part is kept for each share
/// that was taken in with a block that it was filling, and one more.
pub fn give_parts<C: About>(row: &TraceWords, seat: &mut TraceSeat) -> TraceSeat
    requires about { setup_in row.now.key ≡ C.setup }
    requires own { (seat.old.table_id ≡ row.now.table_id) × (0 < row.now.table_id.words) }
    requires parts { (0 < C.index)
        × (length seat.old.me.0.last + C.index < seat.old.me.0.parts) }
    requires number { 0 < times C.worker seat.old.me.0.numbers }
    ensures own { (seat.new.table_id ≡ seat.old.table_id)
        × (seat.new.me ≡ (gives_parts C.index C.worker seat.old.me.0, seat.old.me.1)) }
    ensures worker { (result.table_id ≡ seat.old.table_id)
        × (result.me ≡ (worker_share C.index C.worker, [])) }
{
    row.split::<GivesParts<C>>(seat)
}

/// A token with the right to scan an object from its first field on. No other seat has it then.
#[inline(always)]
pub fn give_scan<C: About>(row: &TraceWords, seat: &mut TraceSeat) -> TraceSeat
    requires about { setup_in row.now.key ≡ C.setup }
    requires own { (seat.old.table_id ≡ row.now.table_id) × (0 < row.now.table_id.words) }
    requires live { 0 < seat.old.me.0.parts }
    requires right { (0 < hits C.object 0 seat.old.me.0.grey)
        × (0 < hits C.object C.target seat.old.me.0.known) }
    ensures own { (seat.new.table_id ≡ seat.old.table_id)
        × (seat.new.me ≡ (gives_scan C.object seat.old.me.0, seat.old.me.1)) }
    ensures token { (result.table_id ≡ seat.old.table_id)
        × (result.me ≡ (scan_token C.object C.target, [])) }
{
    row.split::<GivesScan<C>>(seat)
}

/// A token with the right to set a global.
pub fn give_global<C: About>(row: &TraceWords, seat: &mut TraceSeat) -> TraceSeat
    requires about { setup_in row.now.key ≡ C.setup }
    requires own { (seat.old.table_id ≡ row.now.table_id) × (0 < row.now.table_id.words) }
    requires live { 0 < seat.old.me.0.parts }
    requires right { 0 < times C.index seat.old.me.0.unset }
    ensures own { (seat.new.table_id ≡ seat.old.table_id)
        × (seat.new.me ≡ (gives_global C.index seat.old.me.0, seat.old.me.1)) }
    ensures token { (result.table_id ≡ seat.old.table_id)
        × (result.me ≡ (global_token C.index, [])) }
{
    row.split::<GivesGlobal<C>>(seat)
}

/// A seat takes in all of another: of a token its right, of a worker all that it has and did.
#[inline(always)]
pub fn take_in(row: &TraceWords, seat: &mut TraceSeat, other: TraceSeat)
    requires own { (seat.old.table_id ≡ row.now.table_id) × (0 < row.now.table_id.words) }
    requires other { other.table_id ≡ row.now.table_id }
    requires live { 0 < seat.old.me.0.parts }
    ensures own { seat.new.table_id ≡ seat.old.table_id }
    ensures share { seat.new.me ≡ (both_shares seat.old.me.0 other.me.0, seat.old.me.1) }
{
    row.join::<TakesIn>(seat, other);
}
