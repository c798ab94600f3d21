//! Steps by which fields, globals and roots get their last values, loads of words that never
//! change, and marks of lines.
//!
//! A share changes only at a step, so a field that has its last value is loaded once more in place
//! of its store.

ghost use Rattle.std.specs.Prelude.{◌≡◌, ◌+◌, ◌<◌};
ghost use Rattle.heap_layout.specs.Zones.{Globals, PinBits, InZone, first};
ghost use Rattle.object_model.specs.Objects.{IsHeld, word_at, ref_at, global_at};
ghost use Rattle.trace_core.specs.Setups.{blocks};
ghost use Rattle.trace_words.specs.Rule.{setup_in};
ghost use Rattle.trace_words.specs.Shares.{scans_field, sets_global, asks_for, sets_lines, sees_lines};
ghost use Rattle.trace_words.specs.Steps.{MayScan, MaySet, MayMark, Knows, IsLast};

use crate::rule::{About, TraceSeat, TraceWords};
use crate::share::Share;
use atomic_table::Play;
use object_model::{COLLECTOR_OFFSET, HEADER_WORDS};
use std::marker::PhantomData;

struct ReadsField<C> {
    of: PhantomData<C>,
}

impl<C: About> Play<(), Share> for ReadsField<C> {
    ghost use Rattle.std.specs.Prelude.{◌≡◌};
    ghost use Rattle.object_model.specs.Objects.{ref_at};

    ghost then = { λ step me found now.
        (found ≡ ref_at C.setup.before C.object C.index) × (now ≡ me) };
}

struct ScansField<C> {
    of: PhantomData<C>,
}

impl<C: About> Play<(), Share> for ScansField<C> {
    ghost use Rattle.std.specs.Prelude.{◌≡◌};
    ghost use Rattle.trace_words.specs.Shares.{scans_field};

    ghost then = { λ step me found now. now ≡ (scans_field C.object C.index me.0, me.1) };
}

struct ReadsGlobal<C> {
    of: PhantomData<C>,
}

impl<C: About> Play<(), Share> for ReadsGlobal<C> {
    ghost use Rattle.std.specs.Prelude.{◌≡◌};
    ghost use Rattle.object_model.specs.Objects.{global_at};

    ghost then = { λ step me found now.
        (found ≡ global_at C.setup.before C.index) × (now ≡ me) };
}

struct SetsGlobal<C> {
    of: PhantomData<C>,
}

impl<C: About> Play<(), Share> for SetsGlobal<C> {
    ghost use Rattle.std.specs.Prelude.{◌≡◌};
    ghost use Rattle.trace_words.specs.Shares.{sets_global};

    ghost then = { λ step me found now. now ≡ (sets_global C.index me.0, me.1) };
}

struct Asks<C> {
    of: PhantomData<C>,
}

impl<C: About> Play<(), Share> for Asks<C> {
    ghost use Rattle.std.specs.Prelude.{◌≡◌};
    ghost use Rattle.trace_words.specs.Shares.{asks_for};

    ghost then = { λ step me found now. now ≡ (asks_for C.object C.target me.0, me.1) };
}

struct ReadsFrozen<C> {
    of: PhantomData<C>,
}

impl<C: About> Play<(), Share> for ReadsFrozen<C> {
    ghost use Rattle.std.specs.Prelude.{◌≡◌};
    ghost use Rattle.object_model.specs.Objects.{word_at};

    ghost then = { λ step me found now.
        (found ≡ word_at C.setup.before step.word) × (now ≡ me) };
}

struct MarksLines<C> {
    of: PhantomData<C>,
}

impl<C: About> Play<(), Share> for MarksLines<C> {
    ghost use Rattle.std.specs.Prelude.{◌≡◌};
    ghost use Rattle.trace_words.specs.Shares.{sets_lines};

    ghost then = { λ step me found now.
        now ≡ (sets_lines C.object step.word step.first me.0, me.1) };
}

struct LooksAtLines;

impl Play<(), Share> for LooksAtLines {
    ghost use Rattle.std.specs.Prelude.{◌≡◌};
    ghost use Rattle.trace_words.specs.Shares.{sees_lines};

    ghost then = { λ step me found now. now ≡ (sees_lines step.word found me.0, me.1) };
}

/// The field, at `at`, that is to be scanned next.
#[inline(always)]
pub fn read_field<C: About>(row: &TraceWords, seat: &mut TraceSeat, at: usize) -> u64
    requires about { (setup_in row.now.key ≡ C.setup)
        × (at ≡ C.target + HEADER_WORDS + C.index) }
    requires own { (seat.old.table_id ≡ row.now.table_id) × (at < row.now.table_id.words) }
    requires may { MayScan C.setup seat.old.me.0 C.object C.target C.index }
    ensures own { seat.new.table_id ≡ seat.old.table_id }
    ensures field { (result ≡ ref_at C.setup.before C.object C.index)
        × (seat.new.me ≡ seat.old.me) }
{
    row.load::<ReadsField<C>>(seat, at)
}

/// Stores its last value, which scans it.
#[inline(always)]
pub fn scan_field<C: About>(row: &TraceWords, seat: &mut TraceSeat, at: usize, value: u64)
    requires about { (setup_in row.now.key ≡ C.setup)
        × (at ≡ C.target + HEADER_WORDS + C.index) }
    requires own { (seat.old.table_id ≡ row.now.table_id) × (at < row.now.table_id.words) }
    requires may { MayScan C.setup seat.old.me.0 C.object C.target C.index }
    requires last { IsLast seat.old.me.0 (ref_at C.setup.before C.object C.index) value }
    ensures own { seat.new.table_id ≡ seat.old.table_id }
    ensures share { seat.new.me ≡ (scans_field C.object C.index seat.old.me.0, seat.old.me.1) }
{
    row.store::<ScansField<C>>(seat, at, value);
}

/// The same where it has its last value.
#[inline(always)]
pub fn keep_field<C: About>(row: &TraceWords, seat: &mut TraceSeat, at: usize)
    requires about { (setup_in row.now.key ≡ C.setup)
        × (at ≡ C.target + HEADER_WORDS + C.index) }
    requires own { (seat.old.table_id ≡ row.now.table_id) × (at < row.now.table_id.words) }
    requires may { MayScan C.setup seat.old.me.0 C.object C.target C.index }
    requires last { IsLast seat.old.me.0 (ref_at C.setup.before C.object C.index)
        (ref_at C.setup.before C.object C.index) }
    ensures own { seat.new.table_id ≡ seat.old.table_id }
    ensures share { seat.new.me ≡ (scans_field C.object C.index seat.old.me.0, seat.old.me.1) }
{
    row.load::<ScansField<C>>(seat, at);
}

/// The global, at `at`, that is to be set.
#[inline(always)]
pub fn read_global<C: About>(row: &TraceWords, seat: &mut TraceSeat, at: usize) -> u64
    requires about { (setup_in row.now.key ≡ C.setup)
        × (at ≡ first (blocks C.setup) Globals + C.index) }
    requires own { (seat.old.table_id ≡ row.now.table_id) × (at < row.now.table_id.words) }
    requires may { MaySet C.setup seat.old.me.0 C.index }
    ensures own { seat.new.table_id ≡ seat.old.table_id }
    ensures global { (result ≡ global_at C.setup.before C.index) × (seat.new.me ≡ seat.old.me) }
{
    row.load::<ReadsGlobal<C>>(seat, at)
}

/// Stores its last value.
#[inline(always)]
pub fn set_global<C: About>(row: &TraceWords, seat: &mut TraceSeat, at: usize, value: u64)
    requires about { (setup_in row.now.key ≡ C.setup)
        × (at ≡ first (blocks C.setup) Globals + C.index) }
    requires own { (seat.old.table_id ≡ row.now.table_id) × (at < row.now.table_id.words) }
    requires may { MaySet C.setup seat.old.me.0 C.index }
    requires last { IsLast seat.old.me.0 (global_at C.setup.before C.index) value }
    ensures own { seat.new.table_id ≡ seat.old.table_id }
    ensures share { seat.new.me ≡ (sets_global C.index seat.old.me.0, seat.old.me.1) }
{
    row.store::<SetsGlobal<C>>(seat, at, value);
}

/// The same where it has its last value.
#[inline(always)]
pub fn keep_global<C: About>(row: &TraceWords, seat: &mut TraceSeat, at: usize)
    requires about { (setup_in row.now.key ≡ C.setup)
        × (at ≡ first (blocks C.setup) Globals + C.index) }
    requires own { (seat.old.table_id ≡ row.now.table_id) × (at < row.now.table_id.words) }
    requires may { MaySet C.setup seat.old.me.0 C.index }
    requires last { IsLast seat.old.me.0 (global_at C.setup.before C.index)
        (global_at C.setup.before C.index) }
    ensures own { seat.new.table_id ≡ seat.old.table_id }
    ensures share { seat.new.me ≡ (sets_global C.index seat.old.me.0, seat.old.me.1) }
{
    row.load::<SetsGlobal<C>>(seat, at);
}

/// A root asks for the object at `x`, which has its target. A root whose object this seat claims
/// asks by the claim.
#[inline(always)]
pub fn ask<C: About>(row: &TraceWords, seat: &mut TraceSeat, x: u32)
    requires about { (setup_in row.now.key ≡ C.setup) × (x ≡ C.object) }
    requires own { (seat.old.table_id ≡ row.now.table_id)
        × (x + COLLECTOR_OFFSET < row.now.table_id.words) }
    requires knows { Knows C.setup seat.old.me.0 C.object C.target }
    ensures own { seat.new.table_id ≡ seat.old.table_id }
    ensures share { seat.new.me ≡ (asks_for C.object C.target seat.old.me.0, seat.old.me.1) }
{
    row.load::<Asks<C>>(seat, x as usize + COLLECTOR_OFFSET as usize);
}

/// The shape of the object at `x`, which never changes.
#[inline(always)]
pub fn read_shape<C: About>(row: &TraceWords, seat: &mut TraceSeat, x: u32) -> u64
    requires about { (setup_in row.now.key ≡ C.setup) × (x ≡ C.object) }
    requires own { (seat.old.table_id ≡ row.now.table_id) × (x + 1 < row.now.table_id.words) }
    requires held { IsHeld C.setup.before C.object }
    ensures own { seat.new.table_id ≡ seat.old.table_id }
    ensures shape { (result ≡ word_at C.setup.before (C.object + 1))
        × (seat.new.me ≡ seat.old.me) }
{
    row.load::<ReadsFrozen<C>>(seat, x as usize + 1)
}

/// A word of pin bits. None changes while tracers race.
#[inline(always)]
pub fn read_pins<C: About>(row: &TraceWords, seat: &mut TraceSeat, word: usize) -> u64
    requires about { setup_in row.now.key ≡ C.setup }
    requires own { (seat.old.table_id ≡ row.now.table_id) × (word < row.now.table_id.words) }
    requires zone { InZone (blocks C.setup) PinBits word }
    ensures own { seat.new.table_id ≡ seat.old.table_id }
    ensures pins { (result ≡ word_at C.setup.before word) × (seat.new.me ≡ seat.old.me) }
{
    row.load::<ReadsFrozen<C>>(seat, word)
}

/// Sets bits of lines that an object touches where it will be. They stay set.
#[inline(always)]
pub fn mark_lines<C: About>(row: &TraceWords, seat: &mut TraceSeat, word: usize, mask: u64)
    requires about { setup_in row.now.key ≡ C.setup }
    requires own { (seat.old.table_id ≡ row.now.table_id) × (word < row.now.table_id.words) }
    requires may { MayMark C.setup seat.old.me.0 C.object C.target word mask }
    ensures own { seat.new.table_id ≡ seat.old.table_id }
    ensures share { seat.new.me
        ≡ (sets_lines C.object word mask seat.old.me.0, seat.old.me.1) }
{
    row.fetch_or::<MarksLines<C>>(seat, word, mask);
}

/// The word of line bits at `word`. Those that are set stay set.
#[inline(always)]
pub fn look_at_lines(row: &TraceWords, seat: &mut TraceSeat, word: usize) -> u64
    requires own { (seat.old.table_id ≡ row.now.table_id) × (word < row.now.table_id.words) }
    requires live { 0 < seat.old.me.0.parts }
    ensures own { seat.new.table_id ≡ seat.old.table_id }
    ensures lines { seat.new.me ≡ (sees_lines word result seat.old.me.0, seat.old.me.1) }
{
    row.load::<LooksAtLines>(seat, word)
}
