//! How a worker hands on the tokens that it won, in packets, and counts their objects.

ghost use Rattle.std.specs.Prelude.{◌≡◌, ◌+◌, ◌-◌, ◌<◌, ◌≤◌, ◌++◌, ◌∷◌, List, [], All, IfOk, IfNone, IfSome, length, vec_len, vec_capacity, sum_by, count_by};
ghost use Rattle.trace_table.specs.Seats.{IsGrey};
ghost use Rattle.trace_table.specs.declared.table.TraceTable.{TraceTable};
ghost use Rattle.trace_table.specs.declared.tokens.Grey.{Grey};
ghost use Rattle.work_packets.specs.Packets.{HasItems};
ghost use Rattle.work_packets.specs.declared.packet.Bucket.TheVariants as buckets;
ghost use Rattle.racing_collector.specs.Items.{AreScans, IsCut, items_of, tokens};
ghost use Rattle.racing_collector.specs.Accounts.{CountsMore};

use crate::item::{MAX_REFERENCES, RaceItem};
use crate::tally::Tally;
use std::alloc::{AllocError, Global};
use trace_table::Grey;
use work_packets::{Bucket, MAX_ITEMS, Packet};

/// Hands on tokens, in packets, and counts their objects.
///
/// Fails if memory runs out.
pub(crate) fn hand_on(
    alloc: Global,
    tally: &mut Tally,
    won: &mut Vec<Grey>,
    pushed: &mut Vec<Packet<RaceItem>>,
) -> Result<(), AllocError>
    requires none { pushed.old.items ≡ [] }
    ensures none { IfOk result (λ _. won.new.items ≡ []) }
    ensures counts { IfOk result (λ _. CountsMore tally.old tally.new won.old.items) }
    ensures scans { IfOk result (λ _. (t : TraceTable) → All (IsGrey t) won.old.items
        → All (AreScans t) pushed.new.items) }
    ensures all { IfOk result (λ _. tokens (items_of pushed.new.items)
        ≡ length won.old.items) }
    ensures few { IfOk result (λ _. length pushed.new.items ≤ length won.old.items) }
    ensures sizes { IfOk result (λ _. All HasItems pushed.new.items) }
    ensures cut { IfOk result (λ _. All IsCut pushed.new.items) }
{
    tally.known();
    while let Some(first) = won.pop() {
        let packet = next_packet(alloc, tally, first, won)?;
        pushed.push(packet)?;
    }
    Ok(())
}

/// The packet that begins with a token, and goes on with the last ones of `won`.
fn next_packet(
    alloc: Global,
    tally: &mut Tally,
    first: Grey,
    won: &mut Vec<Grey>,
) -> Result<Packet<RaceItem>, AllocError>
    ensures parts { IfOk result (λ q. (more : List Grey)
        × (won.old.items ≡ won.new.items ++ more)
        × CountsMore tally.old tally.new (more ++ first ∷ [])
        × (tokens q.items.items ≡ length more + 1)) }
    ensures scans { IfOk result (λ q. (t : TraceTable)
        → All (IsGrey t) (won.old.items ++ first ∷ []) → AreScans t q) }
    ensures sizes { IfOk result (λ q. HasItems q) }
    ensures cut { IfOk result (λ q. IsCut q) }
{
    let mut items = Vec::with_capacity(alloc, MAX_ITEMS)?;
    let mut room = MAX_REFERENCES.saturating_sub(first.refs());
    tally.count(&first);
    items.push_reserved(RaceItem::Object(first));
    while items.len() < MAX_ITEMS {
        let Some(grey) = pop_fitting(won, room) else {
            break;
        };
        room -= grey.refs();
        tally.count(&grey);
        items.push_reserved(RaceItem::Object(grey));
    }
    Ok(Packet {
        bucket: Bucket::Closure,
        items,
    })
}

/// Takes the last token if its object has at most so many references, and there is room for some.
fn pop_fitting(won: &mut Vec<Grey>, room: u32) -> Option<Grey>
    ensures last { IfSome result (λ grey. won.old.items ≡ won.new.items ++ grey ∷ []) }
    ensures fits { IfSome result (λ grey. (grey.refs ≤ room) × (0 < room)) }
    ensures none { IfNone result (won.new.items ≡ won.old.items) }
{
    if room == 0 {
        return None;
    }
    let refs = match won.last() {
        Some(grey) => grey.refs(),
        None => return None,
    };
    if refs > room {
        return None;
    }
    won.pop()
}
