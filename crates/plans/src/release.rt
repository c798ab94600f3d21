//! The release of a block at the end of a collection, for every plan.

ghost use Rattle.std.specs.Prelude.{◌≡◌, ◌<◌, ◌%◌, ◌||◌, ℕ, length, nat_eq, true, false, if◌then◌else◌};
ghost use Rattle.plans.specs.Prelude.{row_words, IsRowOf, code_of, kind_code, IsValidWord, Collect, HeapState, block_word, HasKind, shown, IsReadableBlock, IsReleasable, Rules, Copies, HasFills, Releases, is_kept_after, Relists, AreApart, Sweeps, MarksTouched, object_count};
ghost use Rattle.plans.specs.Prelude.kinds;

use block_sweeps::{sweep_block, unlog_block};
use copy_space::release_block;
use heap_layout::{BlockWord, Kind, Layout, OWNER_UNIT};
use immix_space::relist;
use large_space::sweep_large;
use object_model::Collect;
use plan_api::{Fills, block_word_in};
use side_meta::Words;

/// Whether a block with this word is Kept if something stays in it, under a plan that copies whole
/// blocks. A block with an owner has copies, and is none.
fn is_kept(fills: &Fills, collect: Collect, word: &BlockWord) -> bool
    ensures { (r : Rules) (s : HeapState) (k : ℕ) → HasFills r fills.now
        → r.reserve ≡ Copies → k < s.blocks → IsValidWord word.now
        → code_of word.now ≡ block_word s k
        → is_kept_after r collect s k ≡ result }
{
    if !may_be_kept(word.kind) {
        return false;
    }
    if word.owner != 0 {
        return false;
    }
    fills.is_copied(collect, word.kind)
}

/// Whether a block of this kind is Kept if something stays in it as it is evacuated.
fn may_be_kept(kind: Kind) -> bool
    ensures { result ≡ (nat_eq (kind_code kind) 1 || nat_eq (kind_code kind) 2
        || nat_eq (kind_code kind) 3 || nat_eq (kind_code kind) 8) }
{
    matches!(kind, Kind::Bump | Kind::Young | Kind::Mature | Kind::Kept)
}

/// Releases a block under a plan that makes no block Kept.
pub(crate) fn release_in_place<W: Words>(words: &mut W, layout: &Layout, block: u32, base: u64)
    requires extent { IsRowOf layout.now (W.words words.old) }
    requires block { block < layout.now.blocks }
    requires releasable { IsReleasable (shown (W.words words.old) layout.now) block }
    ensures { (r : Rules) (c : Collect)
        → is_kept_after r c (shown (W.words words.old) layout.now) block ≡ false
        → Releases r c base (shown (W.words words.old) layout.now)
        (shown (W.words words.new) layout.now) block }
{
    let word = block_word_in(words, layout, block);
    release(words, layout, block, &word, false, base);
}

/// Releases a block under a plan that copies whole blocks: what it evacuates is Kept if something
/// stays in it.
pub(crate) fn release_copied<W: Words>(
    words: &mut W,
    layout: &Layout,
    block: u32,
    fills: &Fills,
    collect: Collect,
    base: u64,
)
    requires extent { IsRowOf layout.now (W.words words.old) }
    requires block { block < layout.now.blocks }
    requires releasable { IsReleasable (shown (W.words words.old) layout.now) block }
    ensures { (r : Rules) → HasFills r fills.now → r.reserve ≡ Copies
        → Releases r collect base (shown (W.words words.old) layout.now)
        (shown (W.words words.new) layout.now) block }
{
    let word = block_word_in(words, layout, block);
    let kept = is_kept(fills, collect, &word);
    release(words, layout, block, &word, kept, base);
}

/// Releases a block whose word is `word`: what does not live is held no more, what lives has its
/// unlog bit. A block in which nothing lives becomes Free, another one Kept if `kept`.
fn release<W: Words>(
    words: &mut W,
    layout: &Layout,
    block: u32,
    word: &BlockWord,
    kept: bool,
    base: u64,
)
    requires extent { IsRowOf layout.now (W.words words.old) }
    requires block { block < layout.now.blocks }
    requires releasable { IsReleasable (shown (W.words words.old) layout.now) block }
    requires valid { IsValidWord word.now }
    requires code { code_of word.now
        ≡ block_word (shown (W.words words.old) layout.now) block }
    requires small { kept ≡ true → word.now.kind ≡ kinds.Immix → ⊥ }
    ensures { (r : Rules) (c : Collect)
        → is_kept_after r c (shown (W.words words.old) layout.now) block ≡ kept
        → Releases r c base (shown (W.words words.old) layout.now)
        (shown (W.words words.new) layout.now) block }
{
    match word.kind {
        Kind::Free | Kind::LargeTail => {}
        Kind::LargeHead => {
            if !sweep_large(words, layout, block, base) {
                unlog_block(words, layout, block);
            }
        }
        _ => release_small(words, layout, block, word, kept, base),
    }
}

/// Releases a block of small and medium objects.
fn release_small<W: Words>(
    words: &mut W,
    layout: &Layout,
    block: u32,
    word: &BlockWord,
    kept: bool,
    base: u64,
)
    requires extent { IsRowOf layout.now (W.words words.old) }
    requires block { block < layout.now.blocks }
    requires releasable { IsReleasable (shown (W.words words.old) layout.now) block }
    requires valid { IsValidWord word.now }
    requires code { code_of word.now
        ≡ block_word (shown (W.words words.old) layout.now) block }
    requires small { kept ≡ true → word.now.kind ≡ kinds.Immix → ⊥ }
    requires head { word.now.kind ≡ kinds.LargeHead → ⊥ }
    requires tail { word.now.kind ≡ kinds.LargeTail → ⊥ }
    ensures { (r : Rules) (c : Collect)
        → is_kept_after r c (shown (W.words words.old) layout.now) block ≡ kept
        → Releases r c base (shown (W.words words.old) layout.now)
        (shown (W.words words.new) layout.now) block }
{
    if sweep(words, layout, block, word, kept, base) == 0 {
        return;
    }
    mark_lines(words, layout, block, word.kind);
    unlog_block(words, layout, block);
}

/// Makes the line bits of a block of the kind `kind` those of the lines that objects in it touch,
/// if it is an Immix block.
fn mark_lines<W: Words>(words: &mut W, layout: &Layout, block: u32, kind: Kind)
    requires extent { IsRowOf layout.now (W.words words.old) }
    requires block { kind ≡ kinds.Immix
        → IsReadableBlock (shown (W.words words.old) layout.now) block }
    requires apart { AreApart (shown (W.words words.old) layout.now) block }
    requires kind { kind ≡ kinds.Immix
        → HasKind (shown (W.words words.old) layout.now) block kinds.Immix }
    ensures immix { kind ≡ kinds.Immix
        → MarksTouched (shown (W.words words.old) layout.now)
        (shown (W.words words.new) layout.now) block }
    ensures others { (kind ≡ kinds.Immix → ⊥) → W.words words.new ≡ W.words words.old }
    ensures extent { length (W.words words.new) ≡ row_words layout.now.blocks }
{
    if kind == Kind::Immix {
        relist(words, layout, block);
    }
}

/// Relists a block under a plan that fills lines.
pub(crate) fn relist_lines<W: Words>(words: &mut W, layout: &Layout, block: u32)
    requires block { IsReadableBlock (shown (W.words words.old) layout.now) block }
    requires apart { AreApart (shown (W.words words.old) layout.now) block }
    ensures { (r : Rules) → r.lines ≡ true → Relists r (shown (W.words words.old) layout.now)
        (shown (W.words words.new) layout.now) block }
{
    let kind = block_word_in(words, layout, block).kind;
    mark_lines(words, layout, block, kind);
}

/// Sweeps a block of small and medium objects. One in which something lives becomes Kept if `kept`,
/// else its kind and class stay and it has no owner. Answers how many objects live.
fn sweep<W: Words>(
    words: &mut W,
    layout: &Layout,
    block: u32,
    word: &BlockWord,
    kept: bool,
    base: u64,
) -> u32
    requires extent { IsRowOf layout.now (W.words words.old) }
    requires block { block < layout.now.blocks }
    requires releasable { IsReleasable (shown (W.words words.old) layout.now) block }
    requires valid { IsValidWord word.now }
    requires code { code_of word.now
        ≡ block_word (shown (W.words words.old) layout.now) block }
    ensures swept { Sweeps base (if kept then kind_code kinds.Kept
        else block_word (shown (W.words words.old) layout.now) block % OWNER_UNIT)
        (shown (W.words words.old) layout.now)
        (shown (W.words words.new) layout.now) block }
    ensures count { result
        ≡ object_count (shown (W.words words.new) layout.now) block }
{
    if kept {
        return release_block(words, layout, block, base);
    }
    let living = BlockWord {
        kind: word.kind,
        class: word.class,
        owner: 0,
    };
    sweep_block(words, layout, block, base, &living)
}
