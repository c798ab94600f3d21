//! Counts of the objects that a trace claims.

ghost use Rattle.std.specs.Prelude.{◌≡◌, ◌+◌, ◌-◌, ◌<◌, ◌^◌};
ghost use Rattle.object_model.specs.Times.{one_if};
ghost use Rattle.racing_collector.specs.Accounts.{capped, has_moved};

use trace_table::Grey;

/// How many objects were claimed, how many of them moved, and their words.
#[derive(Clone, Copy, Debug, PartialEq, Eq)]
pub struct Tally {
    pub kept: u32,
    pub moved: u32,
    pub words: u64,
}

impl Tally {
    /// Nothing is counted.
    pub(crate) fn none() -> Tally
        ensures kept { result.kept ≡ 0 }
        ensures moved { result.moved ≡ 0 }
        ensures words { result.words ≡ 0 }
    {
        Tally {
            kept: 0,
            moved: 0,
            words: 0,
        }
    }

    /// Each count fits its type.
    pub(crate) fn known(self)
        ensures kept { self.kept < 2 ^ 32 }
        ensures moved { self.moved < 2 ^ 32 }
        ensures words { self.words < 2 ^ 64 }
    {}

    /// Counts the object of a token.
    pub(crate) fn count(&mut self, grey: &Grey)
        ensures kept { self.new.kept ≡ capped (2 ^ 32 - 1) (self.old.kept + 1) }
        ensures moved { self.new.moved
            ≡ capped (2 ^ 32 - 1) (self.old.moved + one_if (has_moved grey.now)) }
        ensures words { self.new.words
            ≡ capped (2 ^ 64 - 1) (self.old.words + grey.now.size) }
    {
        let moved = grey.has_moved() as u32;
        self.add(&Tally {
            kept: 1,
            moved,
            words: grey.size() as u64,
        })
    }

    /// Counts what another tally counted.
    pub(crate) fn add(&mut self, other: &Tally)
        ensures kept { self.new.kept ≡ capped (2 ^ 32 - 1) (self.old.kept + other.now.kept) }
        ensures moved { self.new.moved
            ≡ capped (2 ^ 32 - 1) (self.old.moved + other.now.moved) }
        ensures words { self.new.words
            ≡ capped (2 ^ 64 - 1) (self.old.words + other.now.words) }
    {
        self.kept = self.kept.saturating_add(other.kept);
        self.moved = self.moved.saturating_add(other.moved);
        self.words = self.words.saturating_add(other.words);
    }
}
