//! The reader of a run's text.

ghost use Rattle.std.specs.Prelude.{◌≡◌, ◌≤◌, ◌<◌, ℕ, Some, true, false, length, slice_index_or, IfOk};
ghost use Rattle.heap_picture.specs.Reading.{ReadsText, Takes, after_line, are_met as have_wanted, as_known, as_mutator, as_plan, as_reply, at_blocks, at_collections, at_held, at_kinds, at_live, at_map, at_replies, begun, births_of as known_births, blocks_in, has_young as plan_has_young, have_sizes as may_have_sizes, is_after as comes_after, is_birth as names_next, is_known as names_known, is_name as names_object, is_next as may_follow, is_whole as are_all, leaves_others as may_leave, leaves_room as leaves_enough, lies_in as lies_in_heap, may_be_born as may_name, may_be_held as may_hold, may_be_known as may_refer, may_be_next, may_collect as may_make, may_have_kinds as may_have, nothing, plan_in_line, strange_in, text_read, wanted_with};
ghost use Rattle.session_counts.specs.Sizes.{own_blocks as has_alone};

use crate::forms::{
    KindCounts, Pair, Place, kinds_in, name_in, one_number, place_in, ref_in, reply_in, two_numbers,
};
use crate::places::Places;
use crate::splitter::first_line;
use crate::text_files::MAX_TEXT_BYTES;
use command_line::PlanName;
use heap_layout::{BLOCK_WORDS, MAX_BLOCKS, MIN_BLOCKS};
use ideal_heap::MAX_MUTATORS;
use object_model::{HEADER_WORDS, MAX_MEDIUM_WORDS};
use session_counts::{MAX_OBJECT_WORDS, may_fill};
use std::alloc::{AllocError, Global};
use trace_text::MAX_COMMANDS;

// The numbers of mutators, with 0.
const NUMBERS: usize = MAX_MUTATORS as usize + 1;

/// What a run reports.
#[derive(Clone, Copy)]
pub struct Report {
    pub plan: PlanName,
    pub blocks: u32,
    pub mutators: u64,
    pub commands: u64,
    pub full: u64,
    /// Nursery collections.
    pub nursery: u64,
    /// Full collections.
    pub collected: u64,
    pub live: u64,
    pub live_words: u64,
    pub held: u64,
    pub held_words: u64,
    pub kinds: KindCounts,
}

/// The line that comes next: one of the replies, of the report or of the map.
#[derive(Clone, Copy)]
pub(crate) enum Stage {
    Replies,
    Blocks,
    Mutators,
    Commands,
    Full,
    Collections,
    Live,
    Held,
    Kinds,
    Map,
}

/// Why a text is not that of a run with a map.
#[derive(Clone, Copy, Debug, PartialEq, Eq)]
pub enum TextFault {
    /// The line with this number, from 1 on, is the first that is not so.
    Line(u64),
    /// Memory ran out.
    OutOfMemory,
}

impl From<AllocError> for TextFault {
    ghost use Rattle.heap_picture.specs.declared.reader.TextFault.{TextFault};

    ghost from_gives = { λ _ r. r ≡ TextFault.OutOfMemory };

    fn from(_: AllocError) -> TextFault {
        TextFault::OutOfMemory
    }
}

/// What was read of a run's text: its report, and the places of its map.
#[derive(Drop)]
pub struct Reader {
    pub(crate) stage: Stage,
    pub(crate) report: Report,
    pub(crate) replied: u32,
    pub(crate) born: u64,
    pub(crate) births: Vec<u64>,
    pub(crate) wanted: [u64; NUMBERS],
    pub(crate) places: Places,
    pub(crate) left: u64,
    pub(crate) large: u64,
    pub(crate) small: u64,
}

// The plan that the line names.
fn plan_in(line: &[u8]) -> Option<PlanName>
    ensures { result ≡ plan_in_line line.now }
{
    if line == b"plan nogc".as_slice() {
        Some(PlanName::NoGc)
    } else if line == b"plan marksweep".as_slice() {
        Some(PlanName::MarkSweep)
    } else if line == b"plan semispace".as_slice() {
        Some(PlanName::SemiSpace)
    } else if line == b"plan gencopy".as_slice() {
        Some(PlanName::GenCopy)
    } else if line == b"plan immix".as_slice() {
        Some(PlanName::Immix)
    } else if line == b"plan stickyimmix".as_slice() {
        Some(PlanName::StickyImmix)
    } else {
        None
    }
}

// Whether a `new` reply of one of so many mutators gave the name.
fn is_name(mutators: u64, births: &[u64], place: &Place) -> bool
    ensures { result ≡ names_object mutators births.now place.now }
{
    1 <= place.mutator
        && u64::from(place.mutator) <= mutators
        && 1 <= place.birth
        && u64::from(place.birth) <= births.get(place.mutator as usize).copied().unwrap_or(0)
}

// Whether each mutator has the objects that are wanted of it.
fn are_met(wanted: &[u64], births: &[u64]) -> bool
    ensures met { result ≡ true → (m : ℕ) → m < NUMBERS
        → slice_index_or wanted.now m 0 ≤ slice_index_or births.now m 0 }
    ensures unmet { result ≡ false → (m : ℕ) × (m < NUMBERS)
        × (slice_index_or births.now m 0 < slice_index_or wanted.now m 0) }
{
    for m in 0..NUMBERS {
        if births.get(m).copied().unwrap_or(0) < wanted.get(m).copied().unwrap_or(0) {
            return false;
        }
    }
    true
}

// Whether so many objects may have so many words.
fn have_sizes(objects: u64, words: u64) -> bool
    ensures { result ≡ may_have_sizes objects words }
{
    let objects = u128::from(objects);
    let words = u128::from(words);
    u128::from(HEADER_WORDS) * objects <= words && words <= u128::from(MAX_OBJECT_WORDS) * objects
}

// Whether so many objects, with so many words, may follow the place.
fn leaves_room(objects: u64, words: u64, place: &Place) -> bool
    ensures { result ≡ leaves_enough objects words place.now }
{
    let size = u64::from(place.size);
    0 < objects && size <= words && have_sizes(objects - 1, words - size)
}

// The number of blocks of all kinds.
fn count_blocks(kinds: &KindCounts) -> u128
    ensures { result ≡ blocks_in kinds.now }
{
    u128::from(kinds.free)
        + u128::from(kinds.bump)
        + u128::from(kinds.young)
        + u128::from(kinds.mature)
        + u128::from(kinds.immix)
        + u128::from(kinds.cells)
        + u128::from(kinds.large)
        + u128::from(kinds.kept)
}

// The number of blocks of kinds that are none of the plan's.
fn count_strange(plan: PlanName, kinds: &KindCounts) -> u128
    ensures { result ≡ strange_in plan kinds.now }
{
    let bump = u128::from(kinds.bump);
    let young = u128::from(kinds.young);
    let mature = u128::from(kinds.mature);
    let immix = u128::from(kinds.immix);
    let cells = u128::from(kinds.cells);
    let kept = u128::from(kinds.kept);
    match plan {
        PlanName::NoGc => young + mature + immix + cells + kept,
        PlanName::MarkSweep => bump + young + mature + immix + kept,
        PlanName::SemiSpace => young + mature + immix + cells,
        PlanName::GenCopy => bump + immix + cells,
        PlanName::Immix | PlanName::StickyImmix => bump + young + mature + cells + kept,
    }
}

// Whether the plan has young objects.
fn has_young(plan: PlanName) -> bool
    ensures { result ≡ plan_has_young plan }
{
    match plan {
        PlanName::GenCopy | PlanName::StickyImmix => true,
        PlanName::NoGc | PlanName::MarkSweep | PlanName::SemiSpace | PlanName::Immix => false,
    }
}

// Whether a run may make so many collections of the nursery and full ones.
fn may_collect(report: &Report, counts: &Pair) -> bool
    ensures { result ≡ may_make report.now counts.now }
{
    report.full <= counts.second
        && counts.second <= report.commands
        && counts.first <= report.commands
        && (counts.first == 0 || has_young(report.plan) && 0 < counts.second)
}

// Whether so many objects may be held, with so many words: the live ones and others.
fn may_be_held(report: &Report, counts: &Pair) -> bool
    ensures { result ≡ may_hold report.now counts.now }
{
    report.live <= counts.first
        && report.live_words <= counts.second
        && have_sizes(
            counts.first - report.live,
            counts.second - report.live_words,
        )
        && counts.second <= u64::from(BLOCK_WORDS) * u64::from(report.blocks)
}

// Whether there may be so many blocks of each kind: all blocks, of the plan's kinds, with room for
// the held objects in those that are not free, which these may fill.
fn may_have_kinds(report: &Report, kinds: &KindCounts) -> bool
    ensures { result ≡ may_have report.now kinds.now }
{
    let used = u64::from(report.blocks).saturating_sub(kinds.free);
    count_blocks(kinds) == u128::from(report.blocks)
        && count_strange(report.plan, kinds) == 0
        && report.held_words <= u64::from(BLOCK_WORDS) * used
        && may_fill(
            report.held,
            u128::from(report.held_words),
            kinds.large,
            used.saturating_sub(kinds.large),
        )
}

// Whether the object lies in a heap of so many blocks, and within its block unless it is large.
fn lies_in(blocks: u32, place: &Place) -> bool
    ensures { result ≡ lies_in_heap blocks place.now }
{
    if place.size <= MAX_MEDIUM_WORDS {
        place.block < blocks && place.word < BLOCK_WORDS && place.word + place.size <= BLOCK_WORDS
    } else {
        place.block < blocks
            && place.word == 0
            && place.size <= MAX_OBJECT_WORDS
            && (place.size + 4095) / BLOCK_WORDS <= blocks - place.block
    }
}

// The number of blocks that an object of this size has for itself.
fn own_blocks(size: u32) -> u64
    ensures { result ≡ has_alone size }
{
    if size <= MAX_MEDIUM_WORDS {
        0
    } else {
        (u64::from(size) + 4095) / u64::from(BLOCK_WORDS)
    }
}

// Whether the object's name comes after that of the other place.
fn is_after(last: &Place, place: &Place) -> bool
    ensures { result ≡ comes_after last.now place.now }
{
    last.mutator < place.mutator || last.mutator == place.mutator && last.birth < place.birth
}

// Whether the object's name comes after those of the places.
fn is_next(places: &[Place], place: &Place) -> bool
    ensures { result ≡ may_follow places.now place.now }
{
    match places.last() {
        None => true,
        Some(last) => is_after(last, place),
    }
}

impl Reader {
    // A reader that has read nothing.
    fn new(alloc: Global) -> Reader
        ensures { begun result ≡ nothing }
    {
        Reader {
            stage: Stage::Replies,
            report: Report {
                plan: PlanName::NoGc,
                blocks: 0,
                mutators: 0,
                commands: 0,
                full: 0,
                nursery: 0,
                collected: 0,
                live: 0,
                live_words: 0,
                held: 0,
                held_words: 0,
                kinds: KindCounts {
                    free: 0,
                    bump: 0,
                    young: 0,
                    mature: 0,
                    immix: 0,
                    cells: 0,
                    large: 0,
                    kept: 0,
                },
            },
            replied: 0,
            born: 0,
            births: Vec::new(alloc),
            wanted: [0; NUMBERS],
            places: Places::new(alloc),
            left: 0,
            large: 0,
            small: 0,
        }
    }

    // Whether a `new` reply may have this name: it is that of the mutator's next object.
    fn is_birth(&self, name: &Pair) -> bool
        ensures { result ≡ names_next (begun self.now) name.now }
    {
        name.first == self.report.mutators && 0 < name.second && name.second - 1 == self.born
    }

    // Whether the reply may come next, by the name of a `new`.
    fn may_be_born(&self, name: &Option<Pair>) -> bool
        ensures { result ≡ may_name (begun self.now) name.now }
    {
        match name {
            None => true,
            Some(name) => self.is_birth(name),
        }
    }

    // How many objects a mutator has, as far as it is known.
    fn births_of(&self, mutator: u64) -> u64
        ensures { result ≡ known_births (begun self.now) mutator }
    {
        if mutator == self.report.mutators {
            self.born
        } else {
            self.births.get(mutator as usize).copied().unwrap_or(0)
        }
    }

    // Whether a `ref` reply may have this name.
    fn is_known(&self, name: &Pair) -> bool
        ensures { result ≡ names_known (begun self.now) name.now }
    {
        0 < name.second
            && name.first <= u64::from(MAX_MUTATORS)
            && (self.report.mutators < name.first || name.second <= self.births_of(name.first))
    }

    // Whether the reply may come next, by the name of a `ref`.
    fn may_be_known(&self, name: &Option<Pair>) -> bool
        ensures { result ≡ may_refer (begun self.now) name.now }
    {
        match name {
            None => true,
            Some(name) => self.is_known(name),
        }
    }

    // Notes that an object of this name is wanted.
    fn want(&mut self, name: &Pair)
        requires { name.now.first ≤ MAX_MUTATORS }
        ensures { begun self.new ≡ record (begun self.old)
            { wanted = wanted_with self.old.wanted (Some name.now) } }
    {
        let number = name.first as usize;
        if self.wanted[number] < name.second {
            self.wanted[number] = name.second;
        }
    }

    // Whether each mutator has the objects that are wanted of it.
    fn is_met(&self) -> bool
        ensures { result ≡ have_wanted self.now.wanted self.now.births.items }
    {
        are_met(&self.wanted, &self.births)
    }

    // Takes the line of a reply.
    fn take_reply(&mut self, name: Option<Pair>, other: Option<Pair>, is_full: bool) -> bool
        ensures { Takes result (as_reply (begun self.old) name other is_full) (begun self.new) }
    {
        if 0 < self.report.mutators
            && self.report.commands < u64::MAX
            && self.report.full < u64::MAX
            && self.replied < MAX_COMMANDS
            && self.may_be_born(&name)
            && self.may_be_known(&other)
        {
            self.report.commands += 1;
            self.replied += 1;
            if is_full {
                self.report.full += 1;
            }
            if let Some(name) = name {
                self.born = name.second;
            }
            if let Some(other) = other {
                self.want(&other);
            }
            return true;
        }
        false
    }

    // Takes the line before a mutator's replies.
    fn take_mutator(&mut self, number: u64) -> Result<bool, AllocError>
        ensures { IfOk result (λ taken. Takes taken (as_mutator (begun self.old) number)
            (begun self.new)) }
    {
        if 0 < number
            && number - 1 == self.report.mutators
            && number <= u64::from(MAX_MUTATORS)
            && self.wanted[self.report.mutators as usize] <= self.born
        {
            self.births.push(self.born)?;
            self.replied = 0;
            self.born = 0;
            self.report.mutators = number;
            return Ok(true);
        }
        Ok(false)
    }

    // Takes the first line of the report.
    fn take_plan(&mut self, plan: PlanName) -> Result<bool, AllocError>
        ensures { IfOk result (λ taken. Takes taken (as_plan (begun self.old) plan)
            (begun self.new)) }
    {
        if 0 < self.report.mutators {
            self.births.push(self.born)?;
            if !self.is_met() {
                return Ok(false);
            }
            self.replied = 0;
            self.born = 0;
            self.wanted = [0; NUMBERS];
            self.report.plan = plan;
            self.stage = Stage::Blocks;
            return Ok(true);
        }
        Ok(false)
    }

    // Takes a line of the replies, or the first of the report.
    fn take_early(&mut self, line: &[u8]) -> Result<bool, AllocError>
        ensures { IfOk result (λ taken. Takes taken (at_replies (begun self.old) line.now)
            (begun self.new)) }
    {
        if let Some(is_full) = reply_in(line) {
            return Ok(self.take_reply(name_in(line), ref_in(line), is_full));
        }
        if let Some(number) = one_number(b"mutator ", line) {
            return self.take_mutator(number);
        }
        match plan_in(line) {
            Some(plan) => self.take_plan(plan),
            None => Ok(false),
        }
    }

    // Takes the size of the heap.
    fn take_blocks(&mut self, line: &[u8]) -> bool
        ensures { Takes result (at_blocks (begun self.old) line.now) (begun self.new) }
    {
        let Some(number) = one_number(b"blocks ", line) else {
            return false;
        };
        if u64::from(MIN_BLOCKS) <= number && number <= u64::from(MAX_BLOCKS) {
            self.report.blocks = number as u32;
            self.stage = Stage::Mutators;
            return true;
        }
        false
    }

    // Takes a number that follows from the lines before.
    fn take_known(&mut self, known: u64, next: Stage, word: &[u8], line: &[u8]) -> bool
        ensures { Takes result (as_known word.now known next (begun self.old) line.now)
            (begun self.new) }
    {
        let Some(number) = one_number(word, line) else {
            return false;
        };
        if number == known {
            self.stage = next;
            return true;
        }
        false
    }

    // Takes the counts of collections.
    fn take_collections(&mut self, line: &[u8]) -> bool
        ensures { Takes result (at_collections (begun self.old) line.now) (begun self.new) }
    {
        let Some(counts) = two_numbers(b"collections nursery ", b" full ", line) else {
            return false;
        };
        if may_collect(&self.report, &counts) {
            self.report.nursery = counts.first;
            self.report.collected = counts.second;
            self.stage = Stage::Live;
            return true;
        }
        false
    }

    // Takes the counts of live objects and of their words.
    fn take_live(&mut self, line: &[u8]) -> bool
        ensures { Takes result (at_live (begun self.old) line.now) (begun self.new) }
    {
        let Some(counts) = two_numbers(b"live objects ", b" words ", line) else {
            return false;
        };
        if have_sizes(counts.first, counts.second) {
            self.report.live = counts.first;
            self.report.live_words = counts.second;
            self.left = counts.second;
            self.stage = Stage::Held;
            return true;
        }
        false
    }

    // Takes the counts of held objects and of their words.
    fn take_held(&mut self, line: &[u8]) -> bool
        ensures { Takes result (at_held (begun self.old) line.now) (begun self.new) }
    {
        let Some(counts) = two_numbers(b"held objects ", b" words ", line) else {
            return false;
        };
        if may_be_held(&self.report, &counts) {
            self.report.held = counts.first;
            self.report.held_words = counts.second;
            self.stage = Stage::Kinds;
            return true;
        }
        false
    }

    // Takes the counts of blocks.
    fn take_kinds(&mut self, line: &[u8]) -> bool
        ensures { Takes result (at_kinds (begun self.old) line.now) (begun self.new) }
    {
        let Some(counts) = kinds_in(line) else {
            return false;
        };
        if may_have_kinds(&self.report, &counts) {
            self.report.kinds = counts;
            self.large = counts.large;
            self.small = u64::from(self.report.blocks)
                .saturating_sub(counts.free)
                .saturating_sub(counts.large);
            self.stage = Stage::Map;
            return true;
        }
        false
    }

    // Whether the held objects that are left after the place may fill the blocks that are left.
    fn leaves_others(&self, place: &Place) -> bool
        ensures { result ≡ may_leave (begun self.now) place.now }
    {
        let count = self.places.items.len() as u64;
        let size = u64::from(place.size);
        let report = &self.report;
        let others = report.held_words.saturating_sub(report.live_words);
        may_fill(
            report.held.saturating_sub(count + 1),
            u128::from(others) + u128::from(self.left.saturating_sub(size)),
            self.large.saturating_sub(own_blocks(place.size)),
            self.small.saturating_sub(self.places.new_blocks(place)),
        )
    }

    // Whether the place may be the next one of the map.
    fn may_come(&self, place: &Place) -> bool
        ensures { result ≡ may_be_next (begun self.now) place.now }
    {
        let count = self.places.items.len() as u64;
        is_name(self.report.mutators, &self.births, place)
            && lies_in(self.report.blocks, place)
            && HEADER_WORDS <= place.size
            && is_next(&self.places.items, place)
            && leaves_room(self.report.live.saturating_sub(count), self.left, place)
            && own_blocks(place.size) <= self.large
            && self.places.new_blocks(place) <= self.small
            && self.leaves_others(place)
            && self.places.is_free(place)
    }

    // Takes a line of the map.
    fn take_place(&mut self, line: &[u8]) -> Result<bool, AllocError>
        ensures { IfOk result (λ taken. Takes taken (at_map (begun self.old) line.now)
            (begun self.new)) }
    {
        let Some(place) = place_in(line) else {
            return Ok(false);
        };
        if self.may_come(&place) {
            let new = self.places.new_blocks(&place);
            self.places.push(place)?;
            self.left = self.left.saturating_sub(u64::from(place.size));
            self.large = self.large.saturating_sub(own_blocks(place.size));
            self.small = self.small.saturating_sub(new);
            return Ok(true);
        }
        Ok(false)
    }

    // Takes the next line of the text, and returns whether it is one of a run's text there.
    fn take(&mut self, line: &[u8]) -> Result<bool, AllocError>
        ensures { IfOk result (λ taken. Takes taken (after_line (begun self.old) line.now)
            (begun self.new)) }
    {
        let report = self.report;
        match self.stage {
            Stage::Replies => self.take_early(line),
            Stage::Blocks => Ok(self.take_blocks(line)),
            Stage::Mutators => {
                Ok(self.take_known(report.mutators, Stage::Commands, b"mutators ", line))
            }
            Stage::Commands => {
                Ok(self.take_known(report.commands, Stage::Full, b"commands ", line))
            }
            Stage::Full => Ok(self.take_known(report.full, Stage::Collections, b"full ", line)),
            Stage::Collections => Ok(self.take_collections(line)),
            Stage::Live => Ok(self.take_live(line)),
            Stage::Held => Ok(self.take_held(line)),
            Stage::Kinds => Ok(self.take_kinds(line)),
            Stage::Map => self.take_place(line),
        }
    }

    // Whether all lines of the text were taken.
    fn has_all(&self) -> bool
        ensures { result ≡ are_all (begun self.now) }
    {
        match self.stage {
            Stage::Map => self.places.items.len() as u64 == self.report.live && self.left == 0,
            _ => false,
        }
    }
}

/// Reads the text of a run with a map.
///
/// Errors: `Line` for the first line that is no line of such a text where it stands, and
/// `OutOfMemory`. A text that ends too early, or without a newline, is at fault after its last
/// newline.
#[tactic(auto, unfolding(crate::specs::Reading::text_read))]
pub fn read_run(alloc: Global, text: &[u8]) -> Result<Reader, TextFault>
    requires { length text.now ≤ MAX_TEXT_BYTES }
    ensures { ReadsText result (text_read text.now) }
{
    let mut reader = Reader::new(alloc);
    let mut rest = text;
    let mut number = 1;
    while let Some((line, after)) = first_line(rest) {
        let taken = reader.take(line)?;
        if !taken {
            return Err(TextFault::Line(number));
        }
        rest = after;
        number += 1;
    }
    if rest.len() == 0 && reader.has_all() {
        Ok(reader)
    } else {
        Err(TextFault::Line(number))
    }
}
