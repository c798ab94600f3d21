//! Counting the objects that one worker preserves.

ghost use Rattle.std.specs.Prelude.{◌≡◌, ◌+◌, ◌-◌, ◌^◌, ◌<◌};
ghost use Rattle.collector.specs.Prelude.{capped};

use racing_collector::Tally;

/// Each count fits its type.
pub(crate) fn known(tally: Tally)
    ensures kept { tally.kept < 2 ^ 32 }
    ensures moved { tally.moved < 2 ^ 32 }
    ensures words { tally.words < 2 ^ 64 }
{}

/// Counts objects: how many they are, how many of them moved, and their words.
pub(crate) fn add(tally: &mut Tally, kept: u32, moved: u32, words: u64)
    ensures kept { tally.new.kept ≡ capped (2 ^ 32 - 1) (tally.old.kept + kept) }
    ensures moved { tally.new.moved ≡ capped (2 ^ 32 - 1) (tally.old.moved + moved) }
    ensures words { tally.new.words ≡ capped (2 ^ 64 - 1) (tally.old.words + words) }
{
    tally.kept = tally.kept.saturating_add(kept);
    tally.moved = tally.moved.saturating_add(moved);
    tally.words = tally.words.saturating_add(words);
}
