//! Rows against lists, and rows on which threads race.

ghost use Rattle.std.specs.Prelude.{◌≡◌, ◌<◌};

mod threads;
mod worked;

use crate::{RowSeat, SharedWords, WordRow};
use atomic_table::{Play, Split, TableRule};
use std::alloc::{AllocError, Global};
use std::process::Abort;
use std::test::Fail;
use std::thread::{Threads, join};

// Words of any values.
struct AnyWords;

impl TableRule<(), (), ()> for AnyWords {
    ghost holds = { λ _ _. Unit {0} };

    ghost first = { λ _. tt };
}

impl Play<(), ()> for AnyWords {
    ghost then = { λ _ _ _ _. Unit {0} };
}

impl Split<()> for AnyWords {
    ghost left = { λ v. v };

    ghost right = { λ v. v };
}

type Shared = SharedWords<(), (), AnyWords>;

// A sum, a bit, an exchange and a store, each on a word of its own. The answer counts the sums that
// met another value than this thread's last one.
fn take_turns(row: &Shared, seat: &mut RowSeat<()>, bit: u64, turns: u32) -> u64
    requires { (seat.old.table_id ≡ row.now.table_id) × (3 < row.now.table_id.words) }
    ensures { seat.new.table_id ≡ seat.old.table_id }
{
    let mut last = 0;
    let mut met = 0u64;
    for _ in 0..turns {
        let found = row.fetch_add::<AnyWords>(seat, 0, 1);
        if found != last {
            met = met.wrapping_add(1);
        }
        last = found.wrapping_add(1);
        row.fetch_or::<AnyWords>(seat, 1, bit);
        let seen = row.load::<AnyWords>(seat, 2);
        row.compare_exchange::<AnyWords>(seat, 2, seen, bit);
        row.store::<AnyWords>(seat, 3, bit);
    }
    met
}

// Two threads take turns. The answer counts how often they met each other's sums.
fn two_take_turns<R: Threads + Sync>(
    rt: &R,
    row: &Shared,
    mut seat: RowSeat<()>,
    bit: u64,
    turns: u32,
) -> (RowSeat<()>, u64)
    requires { (seat.table_id ≡ row.now.table_id) × (3 < row.now.table_id.words) }
    ensures { result.0.table_id ≡ seat.table_id }
{
    let other = row.split::<AnyWords>(&mut seat);
    let ((mine, met), (_, others)) = join(
        rt,
        move || -> (RowSeat<()>, u64)
            requires { (seat.table_id ≡ row.now.table_id) × (3 < row.now.table_id.words) }
            ensures { result.0.table_id ≡ seat.table_id }
        {
            let mut seat = seat;
            let met = take_turns(row, &mut seat, bit, turns);
            (seat, met)
        },
        move || -> (RowSeat<()>, u64)
            requires { (other.table_id ≡ row.now.table_id) × (3 < row.now.table_id.words) }
            ensures { result.0.table_id ≡ other.table_id }
        {
            let mut seat = other;
            let met = take_turns(row, &mut seat, bit, turns);
            (seat, met)
        },
    );
    (mine, met.wrapping_add(others))
}

#[test]
fn one_word_goes_there_and_back(rt: HostRuntime) -> Result<(), Fail> {
    let row = WordRow::from_words(rt.alloc(), &[u64::MAX])?;
    let (shared, mut seat) = row.share::<(), (), AnyWords>(&());
    assert!(rt; shared.words.fetch_add::<AnyWords>(&mut seat, 0, 3) == u64::MAX);
    assert!(rt; shared.words.fetch_or::<AnyWords>(&mut seat, 0, 12) == 2);
    assert!(rt; shared.words.fetch_and::<AnyWords>(&mut seat, 0, 6) == 14);
    assert!(rt;
        shared
            .words
            .compare_exchange::<AnyWords>(&mut seat, 0, 5, 1)
            == 6
    );
    assert!(rt;
        shared
            .words
            .compare_exchange::<AnyWords>(&mut seat, 0, 6, 9)
            == 6
    );
    assert!(rt; shared.words.load::<AnyWords>(&mut seat, 0) == 9);
    shared.words.store::<AnyWords>(&mut seat, 0, 11);
    assert!(rt; shared.words.peek(0) == 11);
    let row = shared.into_row(seat);
    assert!(rt; row.len() == 1 && row.get(0) == 11);
    Ok(())
}

#[test]
fn a_shared_row_that_is_dropped_frees_its_memory(rt: HostRuntime) -> Result<(), Fail> {
    for _ in 0..10_000 {
        let (shared, seat) = WordRow::zeros(rt.alloc(), 100_000)?.share::<(), (), AnyWords>(&());
        drop(seat);
        drop(shared);
    }
    Ok(())
}

// What four such threads leave: each sum and each bit is there.
fn check_words<R: Abort>(rt: &R, row: &WordRow, sums: u64, bits: u64) {
    assert!(rt; row.len() == 4);
    assert!(rt; row.get(0) == sums && row.get(1) == bits);
    assert!(rt; row.get(2) & !bits == 0 && row.get(3) & !bits == 0);
}

#[test]
fn two_threads_race_and_hand_the_row_back(rt: HostRuntime) -> Result<(), Fail> {
    let mut row = WordRow::zeros(rt.alloc(), 4)?;
    let mut met = 0u64;
    for _ in 0..100 {
        row.fill(0, 4);
        let (shared, seat) = row.share::<(), (), AnyWords>(&());
        let (seat, more) = two_take_turns(&rt, &shared.words, seat, 5, 10_000);
        met = met.wrapping_add(more);
        row = shared.into_row(seat);
        check_words(&rt, &row, 20_000, 5);
    }
    println!(rt; "two threads met in {met} of 2,000,000 sums")?;
    Ok(())
}

#[test]
fn four_threads_race_and_hand_the_row_back(rt: HostRuntime) -> Result<(), Fail> {
    let mut row = WordRow::zeros(rt.alloc(), 4)?;
    let mut met = 0u64;
    for _ in 0..100 {
        row.fill(0, 4);
        let (shared, mut seat) = row.share::<(), (), AnyWords>(&());
        let other = shared.words.split::<AnyWords>(&mut seat);
        let all = &shared.words;
        let host = &rt;
        let ((seat, more), (_, others)) = join(
            &rt,
            move || -> (RowSeat<()>, u64)
                requires { (seat.table_id ≡ all.now.table_id) × (3 < all.now.table_id.words) }
                ensures { result.0.table_id ≡ seat.table_id }
            { two_take_turns(host, all, seat, 5, 10_000) },
            move || -> (RowSeat<()>, u64)
                requires { (other.table_id ≡ all.now.table_id) × (3 < all.now.table_id.words) }
                ensures { result.0.table_id ≡ other.table_id }
            { two_take_turns(host, all, other, 9, 10_000) },
        );
        met = met.wrapping_add(more).wrapping_add(others);
        row = shared.into_row(seat);
        check_words(&rt, &row, 40_000, 13);
    }
    println!(rt; "four threads met in {met} of 4,000,000 sums")?;
    Ok(())
}

// A number that looks random, from the one before.
fn following(seed: u64) -> u64 {
    let shifted = seed ^ seed << 13;
    let shifted = shifted ^ shifted >> 7;
    shifted ^ shifted << 17
}

#[test]
fn a_row_is_read_and_written_as_a_list(rt: HostRuntime) -> Result<(), Fail> {
    let mut row = WordRow::zeros(rt.alloc(), 1000)?;
    let mut list = vec![in rt.alloc(); 0u64; 1000]?;
    let mut seed = 1u64;
    for _ in 0..100_000 {
        seed = following(seed);
        let i = (seed >> 20) as usize % 1000;
        assert!(rt; row.get(i) == list[i]);
        row.set(i, seed);
        list[i] = seed;
    }
    assert!(rt; row.to_vec(rt.alloc())? == list);
    row.copy_within(100, 150, 300);
    list.copy_within(100..400, 150);
    row.copy_within(500, 20, 490);
    list.copy_within(500..990, 20);
    assert!(rt; row.to_vec(rt.alloc())? == list);
    row.fill(3, 700);
    row.fill(800, 800);
    row.fill(999, 1000);
    list[3..700].fill(0);
    list[999] = 0;
    assert!(rt; row.to_vec(rt.alloc())? == list);
    assert!(rt; format!(in rt.alloc(); "{row:?}")?.as_str() == "WordRow of 1000 words");
    Ok(())
}
