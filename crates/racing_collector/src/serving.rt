//! How a worker serves items. It keeps the targets of the roots that it served, and the tokens that
//! it won.

ghost use Rattle.std.specs.Prelude.{◌≡◌, ◌≢◌, ℕ, ◌+◌, ◌<◌, ◌≤◌, List, [], ◌∷◌, ◌++◌, All, IfOk, map, length, slice_index, vec_len, vec_capacity};
ghost use Rattle.object_model.specs.Objects.{IsHeld};
ghost use Rattle.object_model.specs.Times.{times};
ghost use Rattle.trace_table.specs.Seats.{IsGlobalRoot, IsGrey, IsTable, setup_at};
ghost use Rattle.trace_table.specs.declared.looking.TheConstants.{MOST_AHEAD};
ghost use Rattle.trace_table.specs.declared.tokens.Grey.{Grey};
ghost use Rattle.racing_collector.specs.declared.served.Served.{Served};
ghost use Rattle.racing_collector.specs.Items.{IsItemOf, registers, tokens};
ghost use Rattle.racing_collector.specs.Accounts.{Accounts, IsRacer, places, IsTargetOf};
ghost use Rattle.racing_collector.specs.Working.{held_count};

use crate::item::RaceItem;
use crate::racing::Racing;
use crate::served::Served;
use std::alloc::AllocError;
use trace_table::{Claim, GlobalRoot, Grey, MOST_AHEAD, WorkerSeat};

/// Notes an address after the first `count` places, if there is room.
#[inline(always)]
fn note(ahead: &mut [u64; MOST_AHEAD], count: usize, x: u32) -> usize
    requires len { length ahead.old ≡ MOST_AHEAD }
    requires room { count ≤ MOST_AHEAD }
    ensures len { length ahead.new ≡ MOST_AHEAD }
    ensures room { result ≤ MOST_AHEAD }
{
    if count == MOST_AHEAD {
        return count;
    }
    ahead[count] = x as u64;
    count + 1
}

impl Racing {
    /// Looks ahead at the objects to which a packet's objects and roots refer.
    pub(crate) fn look_ahead(&self, items: &[RaceItem])
        requires table { IsTable self.now.table }
        requires items { All (IsItemOf self.now) items.now }
    {
        let mut ahead = [0u64; MOST_AHEAD];
        let count = self.note_items(items, &mut ahead);
        self.table.look_at_noted(&ahead, count);
    }

    /// Notes to what the items refer, as far as there is room. The answer is how many are noted.
    fn note_items(&self, items: &[RaceItem], ahead: &mut [u64; MOST_AHEAD]) -> usize
        requires table { IsTable self.now.table }
        requires items { All (IsItemOf self.now) items.now }
        requires len { length ahead.old ≡ MOST_AHEAD }
        ensures len { length ahead.new ≡ MOST_AHEAD }
        ensures room { result ≤ MOST_AHEAD }
    {
        let mut count = 0;
        for item in items {
            count = self.note_item(item, ahead, count);
        }
        count
    }

    /// Notes to what an item refers after the first `count` places.
    #[inline(always)]
    fn note_item(&self, item: &RaceItem, ahead: &mut [u64; MOST_AHEAD], count: usize) -> usize
        requires table { IsTable self.now.table }
        requires item { IsItemOf self.now item.now }
        requires len { length ahead.old ≡ MOST_AHEAD }
        requires room { count ≤ MOST_AHEAD }
        ensures len { length ahead.new ≡ MOST_AHEAD }
        ensures room { result ≤ MOST_AHEAD }
    {
        match item {
            RaceItem::Register(place) => note(ahead, count, self.roots[*place as usize]),
            RaceItem::Global(_) => count,
            RaceItem::Object(grey) => self.table.note_fields(grey, ahead, count),
        }
    }

    /// Shows that a worker copied no more objects than were held as the trace began.
    pub(crate) fn look_at_copies(&self, seat: &mut WorkerSeat)
        requires racer { IsRacer self.now seat.old }
        ensures racer { IsRacer self.now seat.new }
        ensures same { seat.new.seat.me ≡ seat.old.seat.me }
        ensures few { length seat.old.seat.me.0.copied
            ≤ held_count (setup_at self.now.table) }
    {
        self.table.look_at_copies(seat);
    }

    /// Serves an item. All memory is reserved before a token is taken in or an object claimed.
    ///
    /// Fails if memory runs out. Then the worker has nothing to do, as before.
    pub(crate) fn serve(
        &self,
        seat: &mut WorkerSeat,
        item: RaceItem,
        served: &mut Vec<Served>,
        won: &mut Vec<Grey>,
    ) -> Result<(), AllocError>
        requires racer { IsRacer self.now seat.old }
        requires item { IsItemOf self.now item }
        requires greys { All (IsGrey self.now.table) won.old.items }
        ensures racer { IsRacer self.now seat.new }
        ensures greys { IfOk result (λ _. All (IsGrey self.now.table) won.new.items) }
        ensures took { IfOk result (λ _. seat.new.seat.me.0.took
            ≡ seat.old.seat.me.0.took + tokens (item ∷ [])) }
        ensures gave { IfOk result (λ _. seat.new.seat.me.0.gave + length won.old.items
            ≡ seat.old.seat.me.0.gave + length won.new.items) }
        ensures copied { IfOk result (λ _. length seat.new.seat.me.0.copied
            + length won.old.items
            ≡ length seat.old.seat.me.0.copied + length won.new.items) }
        ensures places { IfOk result (λ _. (i : ℕ) → times i (places served.new.items)
            ≡ times i (places served.old.items) + registers i (item ∷ [])) }
        ensures accounts { IfOk result (λ _. (greys : List Grey)
            → Accounts self.now seat.old.seat.me.0 served.old.items (greys ++ won.old.items)
            → Accounts self.now seat.new.seat.me.0 served.new.items (greys ++ won.new.items)) }
    {
        match item {
            RaceItem::Register(place) => {
                self.serve_root(seat, place, served, won)?;
                Ok(())
            }
            RaceItem::Global(root) => {
                self.serve_global(seat, root, won)?;
                Ok(())
            }
            RaceItem::Object(grey) => {
                self.serve_object(seat, grey, won)?;
                Ok(())
            }
        }
    }

    /// Keeps the target of the root at a place.
    fn serve_root(
        &self,
        seat: &mut WorkerSeat,
        place: u32,
        served: &mut Vec<Served>,
        won: &mut Vec<Grey>,
    ) -> Result<(), AllocError>
        requires racer { IsRacer self.now seat.old }
        requires place { place < length self.now.roots.items }
        requires greys { All (IsGrey self.now.table) won.old.items }
        ensures racer { IsRacer self.now seat.new }
        ensures greys { IfOk result (λ _. All (IsGrey self.now.table) won.new.items) }
        ensures took { IfOk result (λ _. seat.new.seat.me.0.took ≡ seat.old.seat.me.0.took) }
        ensures gave { IfOk result (λ _. seat.new.seat.me.0.gave + length won.old.items
            ≡ seat.old.seat.me.0.gave + length won.new.items) }
        ensures copied { IfOk result (λ _. length seat.new.seat.me.0.copied
            + length won.old.items
            ≡ length seat.old.seat.me.0.copied + length won.new.items) }
        ensures places { IfOk result (λ _. places served.new.items
            ≡ places served.old.items ++ place ∷ []) }
        ensures accounts { IfOk result (λ _. (greys : List Grey)
            → Accounts self.now seat.old.seat.me.0 served.old.items (greys ++ won.old.items)
            → Accounts self.now seat.new.seat.me.0 served.new.items (greys ++ won.new.items)) }
    {
        served.reserve(1)?;
        won.reserve(1)?;
        let root = self.roots[place as usize];
        if root == 0 {
            served.push_reserved(Served { place, target: 0 });
            return Ok(());
        }
        let target = self.claim_root(seat, root, won);
        served.push_reserved(Served { place, target });
        Ok(())
    }

    /// The target of the object to which a root refers. The root asks for it.
    fn claim_root(&self, seat: &mut WorkerSeat, root: u32, won: &mut Vec<Grey>) -> u32
        requires racer { IsRacer self.now seat.old }
        requires held { IsHeld (setup_at self.now.table).before root }
        requires room { vec_len won.old < vec_capacity won.old }
        requires greys { All (IsGrey self.now.table) won.old.items }
        requires listed { (i : ℕ) × (slice_index self.now.roots.items i ≡ root) }
        ensures racer { IsRacer self.now seat.new }
        ensures greys { All (IsGrey self.now.table) won.new.items }
        ensures took { seat.new.seat.me.0.took ≡ seat.old.seat.me.0.took }
        ensures gave { seat.new.seat.me.0.gave + length won.old.items
            ≡ seat.old.seat.me.0.gave + length won.new.items }
        ensures copied { length seat.new.seat.me.0.copied + length won.old.items
            ≡ length seat.old.seat.me.0.copied + length won.new.items }
        ensures target { IsTargetOf seat.new.seat.me.0 root result }
        ensures asked { 0 < times root seat.new.seat.me.0.asked }
        ensures accounts { (greys : List Grey) (served : List Served)
            → Accounts self.now seat.old.seat.me.0 served (greys ++ won.old.items)
            → Accounts self.now seat.new.seat.me.0 served (greys ++ won.new.items) }
    {
        match self.table.claim(seat, root) {
            Claim::Old => root,
            Claim::Seen(target) => target,
            Claim::Won(object) => {
                let grey = self.table.copy(seat, object);
                let target = grey.at();
                won.push_reserved(grey);
                target
            }
        }
    }

    /// Sets a global.
    fn serve_global(
        &self,
        seat: &mut WorkerSeat,
        root: GlobalRoot,
        won: &mut Vec<Grey>,
    ) -> Result<(), AllocError>
        requires racer { IsRacer self.now seat.old }
        requires item { IsGlobalRoot self.now.table root }
        requires greys { All (IsGrey self.now.table) won.old.items }
        ensures racer { IsRacer self.now seat.new }
        ensures greys { IfOk result (λ _. All (IsGrey self.now.table) won.new.items) }
        ensures took { IfOk result (λ _. seat.new.seat.me.0.took
            ≡ seat.old.seat.me.0.took + 1) }
        ensures gave { IfOk result (λ _. seat.new.seat.me.0.gave + length won.old.items
            ≡ seat.old.seat.me.0.gave + length won.new.items) }
        ensures copied { IfOk result (λ _. length seat.new.seat.me.0.copied
            + length won.old.items
            ≡ length seat.old.seat.me.0.copied + length won.new.items) }
        ensures accounts { IfOk result (λ _. (greys : List Grey) (served : List Served)
            → Accounts self.now seat.old.seat.me.0 served (greys ++ won.old.items)
            → Accounts self.now seat.new.seat.me.0 served (greys ++ won.new.items)) }
    {
        won.reserve(1)?;
        self.table.trace_global(seat, root, won);
        Ok(())
    }

    /// Scans an object.
    fn serve_object(
        &self,
        seat: &mut WorkerSeat,
        grey: Grey,
        won: &mut Vec<Grey>,
    ) -> Result<(), AllocError>
        requires racer { IsRacer self.now seat.old }
        requires item { IsGrey self.now.table grey }
        requires greys { All (IsGrey self.now.table) won.old.items }
        ensures racer { IsRacer self.now seat.new }
        ensures greys { IfOk result (λ _. All (IsGrey self.now.table) won.new.items) }
        ensures took { IfOk result (λ _. seat.new.seat.me.0.took
            ≡ seat.old.seat.me.0.took + 1) }
        ensures gave { IfOk result (λ _. seat.new.seat.me.0.gave + length won.old.items
            ≡ seat.old.seat.me.0.gave + length won.new.items) }
        ensures copied { IfOk result (λ _. length seat.new.seat.me.0.copied
            + length won.old.items
            ≡ length seat.old.seat.me.0.copied + length won.new.items) }
        ensures accounts { IfOk result (λ _. (greys : List Grey) (served : List Served)
            → Accounts self.now seat.old.seat.me.0 served (greys ++ won.old.items)
            → Accounts self.now seat.new.seat.me.0 served (greys ++ won.new.items)) }
    {
        won.reserve(grey.refs() as usize)?;
        self.table.scan_object(seat, grey, won);
        Ok(())
    }
}
