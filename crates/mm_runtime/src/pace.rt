//! Whether the next epoch is worth a start of threads, by how long the last ones were.
//!
//! A start of threads takes as long as some thousand commands. So where one short epoch follows
//! another (a full heap that refuses each object, or mutators that meet at once), the mutators run
//! in turns, until an epoch is long again.

ghost use Rattle.std.specs.Prelude.{◌≡◌, ◌+◌, ◌<◌, ◌≤◌, ◌↔◌, IsTrue};

/// An epoch with fewer commands is short: all mutators together run them in less time than threads
/// take to begin.
const LONG_EPOCH: usize = 4_000;

/// After so many short epochs, one after another, mutators run in turns.
const SHORT_EPOCHS: u32 = 64;

/// How many of the last epochs, one after another, were short. Counts no further than to
/// `SHORT_EPOCHS`.
#[derive(Clone, Copy, Debug)]
pub(crate) struct Pace {
    short: u32,
}

impl Pace {
    /// No epoch was short yet.
    pub(crate) fn new() -> Pace
        ensures { result.short ≡ 0 }
    {
        Pace { short: 0 }
    }

    /// Whether mutators run in turns, as the last epochs were all short.
    pub(crate) fn is_slow(self) -> bool
        ensures { IsTrue result ↔ SHORT_EPOCHS ≤ self.short }
    {
        self.short >= SHORT_EPOCHS
    }

    /// The pace after an epoch with so many commands.
    pub(crate) fn after(self, commands: usize) -> Pace
        ensures long { LONG_EPOCH ≤ commands → result.short ≡ 0 }
        ensures short { commands < LONG_EPOCH → self.short < SHORT_EPOCHS
            → result.short ≡ self.short + 1 }
        ensures still { commands < LONG_EPOCH → SHORT_EPOCHS ≤ self.short → result ≡ self }
    {
        if commands >= LONG_EPOCH {
            return Pace::new();
        }
        if self.short >= SHORT_EPOCHS {
            return self;
        }
        Pace {
            short: self.short + 1,
        }
    }
}
