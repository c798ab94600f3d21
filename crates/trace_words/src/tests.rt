//! Two threads race to claim one object: exactly one wins, and both know its target.

ghost use Rattle.std.specs.Prelude.{◌≡◌, ◌+◌, ◌<◌, [], false, true, ◌∷◌, IfOk, length, slice_set};
ghost use Rattle.trace_core.specs.WorkedTraces.{shared_setup};
ghost use Rattle.trace_words.specs.Rule.{setup_in};
ghost use Rattle.trace_words.specs.Shares.{SameCounts};
ghost use Rattle.object_model.specs.declared.collect.Collect.TheVariants.{Full};
ghost use Rattle.heap_layout.specs.declared.block.Kind.TheVariants as kinds;

use crate::claims::{claim_in_place, look_at_bit, look_at_claim};
use crate::copies::set_unlog_in_place;
use crate::ends::{share_row, take_row_back};
use crate::rule::{TraceKey, TraceSeat, TraceWords};
use crate::seats::{give_parts, take_in};
use forward_word::{claimed, encode, target_of};
use heap_layout::Kind;
use object_model::Collect;
use shared_row::WordRow;
use std::alloc::{AllocError, Global};
use std::marker::Brand;
use std::process::Abort;
use std::snapshot::Snapshot;
use std::test::Fail;
use std::thread::{Threads, join};
use trace_core::TraceRun;
use trace_core::examples::shared_object_moves_once;

// The address of the object, its word of unlog bits, and the words of the row.
const OBJECT: u32 = 806;

const UNLOGS: usize = 550;

const WORDS: usize = 17_190;

fn put(row: &mut WordRow, i: usize, word: u64)
    requires { (length row.old ≡ WORDS) × (i < WORDS) }
    ensures words { row.new ≡ slice_set row.old i word }
    ensures count { length row.new ≡ WORDS }
{
    row.set(i, word);
}

// Four blocks. The first has a pinned object and two more, and two globals refer to the first two.
fn worked_row(alloc: Global) -> Result<WordRow, AllocError>
    ensures { IfOk result (λ row. row ≡ shared_setup.before.words) }
{
    let mut row = WordRow::zeros(alloc, WORDS)?;
    put(&mut row, 2, 806);
    put(&mut row, 3, 810);
    put(&mut row, 18, 1);
    put(&mut row, 38, 273);
    put(&mut row, 294, 1);
    put(&mut row, 806, 33);
    put(&mut row, 807, 1);
    put(&mut row, 809, 814);
    put(&mut row, 810, 65);
    put(&mut row, 811, 1);
    put(&mut row, 813, 814);
    put(&mut row, 814, 97);
    Ok(row)
}

// A full collection of it, which evacuates block 0.
fn worked_run(alloc: Global) -> Result<TraceRun, AllocError>
    ensures run { IfOk result (λ run. (run.collect ≡ Full) × (run.copy_kind ≡ kinds.Bump)) }
    ensures lists { IfOk result (λ run. (run.logged.items ≡ [])
        × (run.from.items ≡ true ∷ false ∷ false ∷ false ∷ [])) }
{
    let from = vec![in alloc; true, false, false, false]?;
    Ok(TraceRun {
        number: 1,
        base: 1,
        collect: Collect::Full,
        from,
        copy_kind: Kind::Bump,
        lines: false,
        logged: Vec::new(alloc),
    })
}

fn worked_key(words: &WordRow, run: TraceRun) -> TraceKey
    requires words { words.now ≡ shared_setup.before.words }
    requires run { (run.collect ≡ Full) × (run.copy_kind ≡ kinds.Bump) }
    requires lists { (run.logged.items ≡ [])
        × (run.from.items ≡ true ∷ false ∷ false ∷ false ∷ []) }
    ensures setup { setup_in result ≡ shared_setup }
    ensures workers { result.workers ≡ 1 }
    ensures logged { result.run.logged.items ≡ [] }
{
    TraceKey {
        words: Snapshot::of(words),
        blocks: 4,
        number: 0,
        base: 0,
        run,
        workers: 1,
    }
}

// A tracer's way to an object that stays, for global 0: the bit, the word, the exchange, the bit.
// Whether it won, and the target.
fn reach(row: &TraceWords, seat: &mut TraceSeat) -> (bool, u32)
    requires setup { setup_in row.now.key ≡ shared_setup }
    requires own { (seat.old.table_id ≡ row.now.table_id) × (row.now.table_id.words ≡ WORDS) }
    requires live { 0 < seat.old.me.0.parts }
    ensures own { seat.new.table_id ≡ seat.old.table_id }
    ensures counts { SameCounts seat.old.me.0 seat.new.me.0 }
{
    let bits = look_at_bit::<Brand>(row, seat, UNLOGS);
    if bits % 2 == 1 {
        return (false, OBJECT);
    }
    let word = look_at_claim::<Brand>(row, seat, OBJECT);
    if word != 0 {
        return (false, target_of(word));
    }
    let met = claim_in_place::<Brand>(row, seat, OBJECT, word, encode(1, OBJECT));
    if met != word {
        return (false, target_of(met));
    }
    set_unlog_in_place::<Brand>(row, seat, UNLOGS, 1);
    (true, OBJECT)
}

// One race. The loser has the winner's target, and the row shows one claim.
fn race<R: Threads + Sync + Abort>(rt: &R, alloc: Global) -> Result<(), Fail> {
    let words = worked_row(alloc)?;
    let key = worked_key(&words, worked_run(alloc)?);
    shared_object_moves_once();
    let (row, mut seat) = share_row(words, &key);
    let other = give_parts::<Brand>(&row.words, &mut seat);
    let all = &row.words;
    let ((mut seat, mine), (other, theirs)) = join(
        rt,
        move || -> (TraceSeat, (bool, u32))
            requires { (setup_in all.now.key ≡ shared_setup)
                × (seat.table_id ≡ all.now.table_id) × (all.now.table_id.words ≡ WORDS)
                × (seat.me.0.parts ≡ 1) }
            ensures { (result.0.table_id ≡ seat.table_id)
                × SameCounts seat.me.0 result.0.me.0 }
        {
            let mut seat = seat;
            let reached = reach(all, &mut seat);
            (seat, reached)
        },
        move || -> (TraceSeat, (bool, u32))
            requires { (setup_in all.now.key ≡ shared_setup)
                × (other.table_id ≡ all.now.table_id) × (all.now.table_id.words ≡ WORDS)
                × (other.me.0.parts ≡ 1) }
            ensures { (result.0.table_id ≡ other.table_id)
                × SameCounts other.me.0 result.0.me.0 }
        {
            let mut seat = other;
            let reached = reach(all, &mut seat);
            (seat, reached)
        },
    );
    take_in(all, &mut seat, other);
    let words = take_row_back(row, seat);
    assert!(rt; mine.0 != theirs.0 && mine.1 == OBJECT && theirs.1 == OBJECT);
    assert!(rt; words.len() == WORDS);
    assert!(rt; words.get(808) == encode(1, OBJECT) && words.get(UNLOGS) == 1);
    Ok(())
}

#[test]
fn two_tracers_race_for_one_object(rt: HostRuntime) -> Result<(), Fail> {
    for _ in 0..300 {
        race(&rt, rt.alloc())?;
    }
    Ok(())
}
