//! Commands of one mutator that look random.

use ideal_heap::Command;

/// A source of numbers that look random: Marsaglia's xorshift.
#[derive(Drop)]
pub(crate) struct Random(pub(crate) u64);

impl Random {
    /// A number below `end`.
    pub(crate) fn below(&mut self, end: u32) -> u32 {
        self.0 ^= self.0 << 13;
        self.0 ^= self.0 >> 7;
        self.0 ^= self.0 << 17;
        match end {
            0 => 0,
            _ => ((self.0 >> 20) % u64::from(end)) as u32,
        }
    }

    // An object for register `d`: most are small, and some take up to half a block.
    fn object(&mut self, d: u32) -> Command {
        let end = match self.below(16) {
            0..10 => 16,
            10..14 => 256,
            _ => 2_000,
        };
        Command::New {
            d,
            refs: self.below(4),
            nums: self.below(end),
        }
    }

    /// A command on registers 1 to 15 and the global.
    pub(crate) fn command(&mut self, g: u32) -> Command {
        let d = self.below(15).wrapping_add(1);
        let s = self.below(15).wrapping_add(1);
        let (i, n) = (self.below(4), u64::from(self.below(4)));
        match self.below(32) {
            0..8 => self.object(d),
            8..12 => Command::Put { s, i, v: d },
            12..15 => Command::Get { d, s, i },
            15..18 => Command::Read { s, j: i },
            18..20 => Command::Write { s, j: i, n },
            20..22 => Command::Add { s, j: i, n },
            22..24 => Command::Swap {
                s,
                j: i,
                was: n,
                next: 2,
            },
            24 | 25 => Command::Move { d, s },
            26 => Command::DropReg { s },
            27 => Command::Load { d, g },
            28 => Command::Share { g, s },
            29 | 30 => Command::Pin { s },
            _ => Command::Unpin { s },
        }
    }
}
