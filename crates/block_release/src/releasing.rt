//! The release of all blocks at the end of a collection. What is known of the tracing and the kind
//! of a block say how: by its unlog bits alone, by these and the objects left, or by the plan.

ghost use Rattle.std.specs.Prelude.{◌≡◌, ◌+◌, ◌*◌, ◌<◌, ◌||◌, ℕ, nat_eq, List, IsTrue, true, false};
ghost use Rattle.block_release.specs.Prelude.{IsRowOf, code_of, kind_code, IsValidWord, HeapState, state_of, block_word, IsHeld, shown, IsReleasable, heap_state, Collect, Full, Nursery, InBlock, MaySweep, SweepsWords, Rules, Setup, Event, IsTracing, IsFinished, machine_after, heap_after, IsRunOf, TraceRun, Releases, word_after, is_kept_after, ReleasesBelow, with_numbers, UnlogBitsMarkSurvivors, LosesNothing, SweepsSome, DiffersInSome, UnlogWordMarksSurvivors, LinesOfTargetsAreMarked, LinesOfClaimedAreMarked, LineBitsMarkSurvivors, FlagShowsEvacuation, IsTracedUnder, IsKnown, ShowsRelease};
ghost use Rattle.block_release.specs.Prelude.kinds;
ghost use Rattle.block_release.specs.Prelude.knowledge;

use block_sweeps::{differ, free_block, store};
use heap_layout::{BLOCK_BIT_WORDS, BlockWord, Kind, Layout, encode};
use object_model::{Collect, Heap, Row, WordRow};
use plan_api::{Plan, block_word_in};
use side_meta::Words;
use trace_core::{TraceRun, Traced};

/// What is known of a finished tracing, and shows what becomes of a block.
#[derive(Clone, Copy, Debug, PartialEq, Eq)]
pub enum Known {
    /// Nothing: what lives is seen by the collector words of objects.
    Nothing,
    /// The plan said which blocks are evacuated. The unlog bits of a block show what lives in it.
    Flags,
    /// The same, and line bits that were clear are set where objects that live lie: the line bits
    /// of an Immix block are its lines in use.
    FlagsAndLines,
    /// The same as `Flags`, and line bits that were exact are set where claimed objects lie: the
    /// line bits of an Immix block are its lines in use if no object in it died or moved away.
    FlagsAndKeptLines,
}

/// What is known after a tracing of a collection of this kind, which marked lines if `lines`. A
/// nursery collection leaves the lines of young objects that died marked.
pub fn known_after(collect: Collect, lines: bool) -> Known
    ensures known { (r : Rules) (run : TraceRun) (p : Setup) (es : List Event)
        → IsTracedUnder r run p → run.lines ≡ lines
        → (collect ≡ Full → lines ≡ true → LinesOfTargetsAreMarked p es)
        → (collect ≡ Nursery → lines ≡ true → LinesOfClaimedAreMarked p es)
        → IsKnown r run p es result }
    ensures full { lines ≡ true → collect ≡ Full → result ≡ knowledge.FlagsAndLines }
    ensures nursery { lines ≡ true → collect ≡ Nursery → result ≡ knowledge.FlagsAndKeptLines }
    ensures others { lines ≡ false → result ≡ knowledge.Flags }
{
    if !lines {
        return Known::Flags;
    }
    match collect {
        Collect::Nursery => Known::FlagsAndKeptLines,
        Collect::Full => Known::FlagsAndLines,
    }
}

/// Releases each block of the row after a finished tracing by the rules of the plan, which makes it
/// a lawful heap.
///
/// It asks nothing of the tracing but that it is finished, so it reads the collector word of each
/// object, and the header of one where it marks lines.
pub fn release<P: Plan>(traced: Traced) -> Heap
    requires { (p : Setup) × (es : List Event) × IsTracing p es × IsFinished p (machine_after p es)
        × (state_of traced.row ≡ heap_after p es) × IsRunOf p traced.run }
    ensures { (new : HeapState)
        × ReleasesBelow P.rules traced.run.collect traced.run.base (state_of traced.row) new
        traced.row.layout.blocks
        × (heap_state result ≡ with_numbers new traced.run.number traced.run.base) }
{
    release_by::<P>(traced, Known::Nothing)
}

/// Releases each block as `release` does, by what is known of the tracing.
pub fn release_by<P: Plan>(traced: Traced, known: Known) -> Heap
    requires { (p : Setup) × (es : List Event) × IsTracing p es × IsFinished p (machine_after p es)
        × (state_of traced.row ≡ heap_after p es) × IsRunOf p traced.run
        × IsKnown P.rules traced.run p es known }
    ensures { (new : HeapState)
        × ReleasesBelow P.rules traced.run.collect traced.run.base (state_of traced.row) new
        traced.row.layout.blocks
        × (heap_state result ≡ with_numbers new traced.run.number traced.run.base) }
{
    let Traced { row, run } = traced;
    let Row {
        mut words,
        layout,
        ..
    } = row;
    let TraceRun {
        number,
        base,
        collect,
        from,
        ..
    } = run;
    for block in 0..layout.blocks() {
        let evacuated = from[block as usize];
        release_next::<P>(&mut words, &layout, block, collect, base, known, evacuated);
    }
    words.words_fit();
    Heap::from_row(Row {
        words,
        layout,
        number,
        base,
    })
}

/// Releases a block, by what is known of the tracing and by its kind. `evacuated` is the block's
/// flag of the tracing. Large runs are released by the plan.
fn release_next<P: Plan>(
    words: &mut WordRow,
    layout: &Layout,
    block: u32,
    collect: Collect,
    base: u64,
    known: Known,
    evacuated: bool,
)
    requires extent { IsRowOf layout.now words.old }
    requires block { block < layout.now.blocks }
    requires releasable { IsReleasable (shown words.old layout.now) block }
    requires shows { ShowsRelease known P.rules collect base (shown words.old layout.now)
        block evacuated }
    ensures { Releases P.rules collect base (shown words.old layout.now)
        (shown words.new layout.now) block }
{
    let word = block_word_in(words, layout, block);
    if is_shown(known, word.kind) {
        let _left = sweep_by_bits(words, layout, block, &word, evacuated);
    } else if keeps_lines(known, word.kind) {
        release_kept_lines::<P>(words, layout, block, &word);
    } else {
        P::release_block(words, layout, block, collect, base);
    }
}

/// Whether what is known shows what becomes of a block of this kind.
fn is_shown(known: Known, kind: Kind) -> bool
    ensures known { result ≡ true → known ≡ knowledge.Nothing → ⊥ }
    ensures head { result ≡ true → kind ≡ kinds.LargeHead → ⊥ }
    ensures tail { result ≡ true → kind ≡ kinds.LargeTail → ⊥ }
    ensures lines { result ≡ true → kind ≡ kinds.Immix → known ≡ knowledge.FlagsAndLines }
    ensures others { (known ≡ knowledge.Nothing → ⊥) → (kind ≡ kinds.Free → ⊥)
        → (kind ≡ kinds.LargeHead → ⊥) → (kind ≡ kinds.LargeTail → ⊥)
        → (kind ≡ kinds.Immix → known ≡ knowledge.FlagsAndLines) → result ≡ true }
{
    match kind {
        Kind::Free | Kind::LargeHead | Kind::LargeTail => false,
        Kind::Immix => matches!(known, Known::FlagsAndLines),
        _ => !matches!(known, Known::Nothing),
    }
}

/// Whether what is known shows what becomes of a block of this kind if nothing in it died.
fn keeps_lines(known: Known, kind: Kind) -> bool
    ensures known { result ≡ true → known ≡ knowledge.FlagsAndKeptLines }
    ensures immix { result ≡ true → kind ≡ kinds.Immix }
    ensures both { known ≡ knowledge.FlagsAndKeptLines → kind ≡ kinds.Immix → result ≡ true }
{
    match kind {
        Kind::Immix => matches!(known, Known::FlagsAndKeptLines),
        _ => false,
    }
}

/// Releases an Immix block whose line bits show what lives in it if no object in it died or moved
/// away. They stay then, else its lines are marked anew, from the objects that are left.
fn release_kept_lines<P: Plan>(words: &mut WordRow, layout: &Layout, block: u32, word: &BlockWord)
    requires extent { IsRowOf layout.now words.old }
    requires block { block < layout.now.blocks }
    requires releasable { IsReleasable (shown words.old layout.now) block }
    requires valid { IsValidWord word.now }
    requires code { code_of word.now ≡ block_word (shown words.old layout.now) block }
    requires immix { word.now.kind ≡ kinds.Immix }
    requires lines { IsTrue P.rules.lines }
    requires shows { (base : ℕ)
        × UnlogBitsMarkSurvivors base (shown words.old layout.now) block }
    ensures { (c : Collect) (base : ℕ)
        → UnlogBitsMarkSurvivors base (shown words.old layout.now) block
        → (LosesNothing base (shown words.old layout.now) block
        → LineBitsMarkSurvivors base (shown words.old layout.now) block)
        → Releases P.rules c base (shown words.old layout.now)
        (shown words.new layout.now) block }
{
    if !bits_differ(words, layout, block) {
        let _left = sweep_by_bits(words, layout, block, word, false);
        return;
    }
    if sweep_by_bits(words, layout, block, word, false) {
        P::relist_block(words, layout, block);
    }
}

/// Sweeps a block of small and medium objects whose word is `word`: objects in it without an unlog
/// bit are held no more. Answers whether an object is left. A block without one becomes Free.
/// Another keeps its line bits and has no owner. One that was evacuated is Kept then, but for an
/// Immix block.
fn sweep_by_bits(
    words: &mut WordRow,
    layout: &Layout,
    block: u32,
    word: &BlockWord,
    evacuated: bool,
) -> bool
    requires extent { IsRowOf layout.now words.old }
    requires block { block < layout.now.blocks }
    requires releasable { IsReleasable (shown words.old layout.now) block }
    requires valid { IsValidWord word.now }
    requires code { code_of word.now ≡ block_word (shown words.old layout.now) block }
    requires head { word.now.kind ≡ kinds.LargeHead → ⊥ }
    requires tail { word.now.kind ≡ kinds.LargeTail → ⊥ }
    requires shows { (base : ℕ)
        × UnlogBitsMarkSurvivors base (shown words.old layout.now) block }
    ensures left { result ≡ true → (r : Rules) (c : Collect) (base : ℕ)
        → UnlogBitsMarkSurvivors base (shown words.old layout.now) block
        → FlagShowsEvacuation r c (shown words.old layout.now) block evacuated
        → SweepsSome r c base (shown words.old layout.now)
        (shown words.new layout.now) block }
    ensures none { result ≡ false → (r : Rules) (c : Collect) (base : ℕ)
        → UnlogBitsMarkSurvivors base (shown words.old layout.now) block
        → Releases r c base (shown words.old layout.now) (shown words.new layout.now)
        block }
{
    keep_marked(words, layout, block);
    if !has_object(words, layout, block) {
        free_block(words, layout, block);
        return false;
    }
    let left = word_of_rest(word, evacuated);
    store(words, layout.block_at(block), encode(&left));
    true
}

/// The word of a block in which something lives, of which `word` is the word before its release:
/// Kept, or kind and class as before, without an owner.
fn word_of_rest(word: &BlockWord, evacuated: bool) -> BlockWord
    requires valid { IsValidWord word.now }
    ensures valid { IsValidWord result }
    ensures code { (r : Rules) (c : Collect) (s : HeapState) (k : ℕ) → k < s.blocks
        → code_of word.now ≡ block_word s k → FlagShowsEvacuation r c s k evacuated
        → code_of result ≡ word_after r c s k }
{
    if is_kept(word, evacuated) {
        return BlockWord {
            kind: Kind::Kept,
            class: 0,
            owner: 0,
        };
    }
    BlockWord {
        kind: word.kind,
        class: word.class,
        owner: 0,
    }
}

/// Whether a block with this word is Kept if something lives in it. One with an owner has copies,
/// and was not evacuated.
fn is_kept(word: &BlockWord, evacuated: bool) -> bool
    ensures { (r : Rules) (c : Collect) (s : HeapState) (k : ℕ) → k < s.blocks
        → IsValidWord word.now → code_of word.now ≡ block_word s k
        → FlagShowsEvacuation r c s k evacuated → is_kept_after r c s k ≡ result }
{
    if !may_be_kept(word.kind) {
        return false;
    }
    if word.owner != 0 {
        return false;
    }
    evacuated
}

/// Whether a block of this kind is Kept if something lives in it as it is evacuated.
fn may_be_kept(kind: Kind) -> bool
    ensures { result ≡ (nat_eq (kind_code kind) 1 || nat_eq (kind_code kind) 2
        || nat_eq (kind_code kind) 3 || nat_eq (kind_code kind) 8) }
{
    matches!(kind, Kind::Bump | Kind::Young | Kind::Mature | Kind::Kept)
}

/// Clears the start and pin bits of objects in the block that have no unlog bit. Most blocks of old
/// objects lose none, which takes one look at each word.
fn keep_marked(words: &mut WordRow, layout: &Layout, block: u32)
    requires extent { IsRowOf layout.now words.old }
    requires block { block < layout.now.blocks }
    requires releasable { IsReleasable (shown words.old layout.now) block }
    requires shows { (base : ℕ)
        × UnlogBitsMarkSurvivors base (shown words.old layout.now) block }
    ensures { (base : ℕ)
        → UnlogBitsMarkSurvivors base (shown words.old layout.now) block
        → SweepsWords base (BLOCK_BIT_WORDS * block) BLOCK_BIT_WORDS
        (shown words.old layout.now) (shown words.new layout.now) }
{
    if !bits_differ(words, layout, block) {
        return;
    }
    for index in BLOCK_BIT_WORDS * block..BLOCK_BIT_WORDS * block + BLOCK_BIT_WORDS {
        keep_marked_in(words, layout, index);
    }
}

/// Makes word `index` of start bits that of unlog bits, which are set only at objects, and clears
/// the pin bits of the other objects. Writes only words that change.
fn keep_marked_in<W: Words>(words: &mut W, layout: &Layout, index: u32)
    requires { MaySweep (shown (W.words words.old) layout.now) index }
    ensures { (base : ℕ)
        → UnlogWordMarksSurvivors base (shown (W.words words.old) layout.now) index
        → SweepsWords base index 1 (shown (W.words words.old) layout.now)
        (shown (W.words words.new) layout.now) }
{
    let living = words.get(layout.unlog_base() + index);
    let starts = words.get(layout.start_base() + index);
    if living != starts {
        store(words, layout.start_base() + index, living);
        let pins = words.get(layout.pin_base() + index);
        store(words, layout.pin_base() + index, pins & living);
    }
}

/// Whether an object begins in the block.
fn has_object<W: Words>(words: &W, layout: &Layout, block: u32) -> bool
    requires extent { IsRowOf layout.now (W.words words.now) }
    requires block { block < layout.now.blocks }
    ensures some { result ≡ true → (a : ℕ)
        × InBlock (shown (W.words words.now) layout.now) block a
        × IsHeld (shown (W.words words.now) layout.now) a }
    ensures none { result ≡ false → (a : ℕ)
        → InBlock (shown (W.words words.now) layout.now) block a
        → IsHeld (shown (W.words words.now) layout.now) a → ⊥ }
{
    let starts = layout.start_base() + BLOCK_BIT_WORDS * block;
    for index in 0..BLOCK_BIT_WORDS {
        let word = words.get(starts + index);
        if word != 0 {
            return true;
        }
    }
    false
}

/// Whether the start bits of the block differ from its unlog bits.
fn bits_differ(words: &WordRow, layout: &Layout, block: u32) -> bool
    requires extent { IsRowOf layout.now words.now }
    requires block { block < layout.now.blocks }
    ensures some { result ≡ true → DiffersInSome (shown words.now layout.now) block }
    ensures none { result ≡ false → DiffersInSome (shown words.now layout.now) block → ⊥ }
{
    let starts = layout.start_base() + BLOCK_BIT_WORDS * block;
    let unlogs = layout.unlog_base() + BLOCK_BIT_WORDS * block;
    differ(words, starts as usize, unlogs as usize)
}
