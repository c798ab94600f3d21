//! The row while one owner has it, with plain reads and writes, and its way to threads and back.

ghost use Rattle.std.specs.Prelude.{◌≡◌, ℕ, ◌+◌, ◌-◌, ◌<◌, ◌≤◌, ◌++◌, length, slice_index};
ghost use Rattle.std.specs.Prelude.{slice_set, take, drop, replicate, false, IfOk, List, []};
ghost use Rattle.core.specs.Allocator.{FitsBlock};
ghost use Rattle.core.specs.Mem.Slots.{slots_items, slots_filled, slots_len, slots_ptr, IsFull};
ghost use Rattle.core.specs.Mem.Slots.{Refills, SamePlaces};
ghost use Rattle.core.specs.Mem.Slots.Ownership.{Filled, SameOutside, leased};
ghost use Rattle.atomic_table.specs.Table.{Final, Seen, opening};
ghost use Rattle.shared_row.specs.Words.{AllFit, IsCopied};

use crate::shared_words::{RowSeat, SharedWords};
use atomic_table::TableRule;
use core::mem::replace_with;
use core::slots::Slots;
use std::alloc::{AllocError, Allocator, Global};
use std::fmt;
use std::marker::{Model, PhantomData};
use std::mem::{align_of, size_of};

// The words that a block may have: below 2 ^ 63 bytes.
const MAX_WORDS: usize = 0x0fff_ffff_ffff_ffff;

// The words that are cleared at once: half a page, which the cache still holds.
const CLEARED_WORDS: usize = 256;

// The right to free a block of values, which threads may send each other.
pub(crate) struct Right<T, A: Allocator> {
    pub(crate) start: *mut T,
    pub(crate) count: usize,
    by: PhantomData<A>,
    pub(crate) ghost heap: { A },
}

impl<T, A: Allocator> Model for Right<T, A> {
    ghost also_owns = { λ r. leased (A.dealloc_token r.heap) T.row r.start r.count };
}

// Empty places in a new block, for values as the one given.
pub(crate) fn take<T, A: Allocator>(
    heap: &A,
    count: usize,
    _like: &T,
) -> Result<(Slots<T>, Right<T, A>), AllocError>
    requires { FitsBlock T.row count }
    ensures { IfOk result (λ p. (slots_len p.0 ≡ count) × (p.1.start ≡ slots_ptr p.0)
        × (p.1.count ≡ count) × (p.1.heap ≡ heap.now)) }
{
    match heap.allocate(count * size_of::<T>(), align_of::<T>()) {
        Ok(block) => {
            let start = block as *mut T;
            let by = PhantomData;
            let right = Right { start, count, by };
            let places = unsafe { Slots::from_raw_parts(start, count) };
            Ok((places, right))
        }
        Err(refused) => Err(refused),
    }
}

// The block goes back, whatever its places hold.
pub(crate) fn free<T, A: Allocator>(heap: &A, places: Slots<T>, right: Right<T, A>)
    requires { (right.start ≡ slots_ptr places) × (right.count ≡ slots_len places)
        × (right.heap ≡ heap.now) }
{
    let _parts = unsafe { places.into_raw_parts() };
    let Right {
        start,
        count,
        by: _,
    } = right;
    unsafe {
        heap.deallocate(start as *mut u8, count * size_of::<T>(), align_of::<T>());
    }
}

/// Words in one block of memory. Clauses see it as their list, in which each is below 2 ^ 64.
pub struct WordRow {
    pub(crate) places: Slots<u64>,
    pub(crate) right: Right<u64, Global>,
    pub(crate) heap: Global,
}

impl Model for WordRow {
    ghost use Rattle.core.specs.Prelude.{◌≡◌, ℕ, List};
    ghost use Rattle.core.specs.Mem.Slots.{slots_items, slots_ptr, slots_len, IsFull};
    ghost use Rattle.shared_row.specs.Words.{AllFit};

    ghost Value = { List ℕ };

    ghost view = { λ r. slots_items r.places };

    ghost invariant = { λ r. IsFull r.places × AllFit (slots_items r.places)
        × (r.right.start ≡ slots_ptr r.places) × (r.right.count ≡ slots_len r.places)
        × (r.right.heap ≡ r.heap) };
}

impl Drop for WordRow {
    fn drop(self) {
        let WordRow {
            places,
            right,
            heap,
        } = self;
        free(&heap, places, right);
    }
}

// Zeros from one place up to another.
#[inline(always)]
fn clear(places: &mut Slots<u64>, from: usize, to: usize)
    requires { (from ≤ to) × (to ≤ slots_len places.old) × Filled (slots_filled places.old) 0 from }
    ensures items { slots_items places.new
        ≡ take from (slots_items places.old) ++ replicate (to - from) 0
        ++ drop to (slots_items places.old) }
    ensures full { Filled (slots_filled places.new) 0 to
        × SameOutside false (slots_filled places.old) (slots_filled places.new) from to }
    ensures same { SamePlaces places.old places.new }
{
    let mut i = from;
    while i < to {
        places.put(i, 0);
        i += 1;
    }
}

// Copies words down: the first one first.
#[inline(always)]
fn copy_down(places: &mut Slots<u64>, from: usize, to: usize, count: usize)
    requires { (to ≤ from) × (from + count ≤ slots_len places.old) × IsFull places.old }
    ensures copied { IsCopied (slots_items places.old) (slots_items places.new) from to count }
    ensures full { Refills places.old places.new }
{
    let mut i = 0;
    while i < count {
        let word = *places.get(from + i);
        places.put(to + i, word);
        i += 1;
    }
}

// Copies words up: the last one first.
#[inline(always)]
fn copy_up(places: &mut Slots<u64>, from: usize, to: usize, count: usize)
    requires { (from < to) × (to + count ≤ slots_len places.old) × IsFull places.old }
    ensures copied { IsCopied (slots_items places.old) (slots_items places.new) from to count }
    ensures full { Refills places.old places.new }
{
    let mut left = count;
    while left > 0 {
        left -= 1;
        let word = *places.get(from + left);
        places.put(to + left, word);
    }
}

impl WordRow {
    /// A row of these words.
    pub fn from_words(alloc: Global, words: &[u64]) -> Result<WordRow, AllocError>
        ensures { IfOk result (λ row. row ≡ words.now) }
    {
        let mut row = WordRow::zeros(alloc, words.len())?;
        row.places.copy_in(0, words);
        Ok(row)
    }

    /// A row of zeros.
    pub fn zeros(alloc: Global, count: usize) -> Result<WordRow, AllocError>
        ensures { IfOk result (λ row. row ≡ replicate count 0) }
    {
        if count > MAX_WORDS {
            return Err(AllocError);
        }
        let (mut places, right) = take(&alloc, count, &0)?;
        let mut done = 0;
        while done < count {
            let end = done + CLEARED_WORDS.min(count - done);
            clear(&mut places, done, end);
            done = end;
        }
        Ok(WordRow {
            places,
            right,
            heap: alloc,
        })
    }

    /// The number of words.
    #[inline(always)]
    pub fn len(&self) -> usize
        ensures { result ≡ length self.now }
    {
        self.places.len()
    }

    /// The word at an index.
    #[inline(always)]
    pub fn get(&self, i: usize) -> u64
        requires { i < length self.now }
        ensures { result ≡ slice_index self.now i }
    {
        *self.places.get(i)
    }

    /// Sets the word at an index.
    #[inline(always)]
    pub fn set(&mut self, i: usize, word: u64)
        requires { i < length self.old }
        ensures words { self.new ≡ slice_set self.old i word }
        ensures fit { AllFit self.new }
    {
        self.places.put(i, word);
    }

    /// Zeros from one index up to another.
    pub fn fill(&mut self, from: usize, to: usize)
        requires { (from ≤ to) × (to ≤ length self.old) }
        ensures words { self.new
            ≡ take from self.old ++ replicate (to - from) 0 ++ drop to self.old }
        ensures count { length self.new ≡ length self.old }
        ensures fit { AllFit self.new }
    {
        // The places by value, which keeps them in registers: so the loop becomes a `memset`.
        replace_with(&mut self.places, (), |mut places, _| {
            clear(&mut places, from, to);
            (places, ())
        });
    }

    /// The words from one index on are copied to another index. The two runs may overlap.
    #[inline]
    #[tactic(auto, using(crate::proofs::Copied::copied_fit))]
    pub fn copy_within(&mut self, from: usize, to: usize, count: usize)
        requires { (from + count ≤ length self.old) × (to + count ≤ length self.old) }
        ensures copied { IsCopied self.old self.new from to count }
        ensures count { length self.new ≡ length self.old }
        ensures fit { AllFit self.new }
    {
        replace_with(&mut self.places, (), |mut places, _| {
            if to <= from {
                copy_down(&mut places, from, to, count);
            } else {
                copy_up(&mut places, from, to, count);
            }
            (places, ())
        });
    }

    /// The words in a list of their own.
    pub fn to_vec(&self, alloc: Global) -> Result<Vec<u64>, AllocError>
        ensures { IfOk result (λ v. v.items ≡ self.now) }
    {
        let mut words = Vec::with_capacity(alloc, self.len())?;
        while words.len() < self.len() {
            words.push(self.get(words.len()))?;
        }
        Ok(words)
    }

    /// Each word fits 64 bits.
    pub fn words_fit(&self)
        ensures { AllFit self.now }
    {
        let _count = self.places.len();
    }

    /// From here on threads may step on the words, in the place where they lie. The rule holds of
    /// them now.
    pub fn share<V, K, P: TableRule<(), V, K>>(self, about: &K) -> (SharedRow<V, K, P>, RowSeat<V>)
        requires { P.holds about.now (opening self [] (P.first about.now)) }
        ensures row { (result.0.words.table_id.words ≡ length self)
            × (result.0.words.table_id.slots ≡ 0) × (result.0.words.key ≡ about.now) }
        ensures seat { (result.1.table_id ≡ result.0.words.table_id) × (result.1.id ≡ 0)
            × (result.1.me ≡ (P.first about.now, [])) }
    {
        let WordRow {
            places,
            right,
            heap,
        } = self;
        let count = places.len();
        let (words, seat) = SharedWords::open(about, places);
        (
            SharedRow {
                words,
                count,
                right,
                heap,
            },
            seat,
        )
    }
}

impl fmt::Debug for WordRow {
    ghost use Rattle.std.specs.Prelude.{◌++◌, length, codes, Some};
    ghost use Rattle.std.specs.Fmt.{decimal};

    ghost debug_output = { λ row. Some (codes "WordRow of " ++ decimal (length row)
        ++ codes " words") };

    fn fmt<W: fmt::Write>(&self, f: &mut fmt::Formatter<W>) -> fmt::Result {
        write!(f, "WordRow of {} words", self.len())
    }
}

/// A row while threads share it. Its words have the steps, each through a `&`.
pub struct SharedRow<V, K, P: TableRule<(), V, K>> {
    pub words: SharedWords<V, K, P>,
    pub(crate) count: usize,
    pub(crate) right: Right<u64, Global>,
    pub(crate) heap: Global,
    ghost counted: { count ≡ words.table_id.words },
    ghost leased: { (right.start ≡ words.start) × (right.count ≡ count) × (right.heap ≡ heap) },
}

impl<V, K, P: TableRule<(), V, K>> SharedRow<V, K, P> {
    /// Plain memory again. The words are those of a state that keeps the rule, and in which the
    /// seat has its view.
    pub fn into_row(self, mut seat: RowSeat<V>) -> WordRow
        requires { seat.table_id ≡ self.words.table_id }
        ensures count { length result ≡ self.words.table_id.words }
        ensures words { (xs : List (Unit {0}))
            × Final (Seen (P.holds self.words.key) seat.id seat.me.0) result xs }
    {
        let SharedRow {
            words,
            count,
            right,
            heap,
        } = self;
        WordRow {
            places: words.close(&mut seat, count),
            right,
            heap,
        }
    }
}

impl<V, K, P: TableRule<(), V, K>> Drop for SharedRow<V, K, P> {
    fn drop(self) {
        let SharedRow {
            words,
            count,
            right,
            heap,
        } = self;
        free(&heap, words.end(count), right);
    }
}

unsafe impl<T, A: Allocator + Send> Send for Right<T, A> {}

unsafe impl<T, A: Allocator + Send> Sync for Right<T, A> {}

unsafe impl Send for WordRow {}

unsafe impl Sync for WordRow {}
