//! The properties of a plan, as a set of flags.

ghost use Rattle.std.specs.Prelude.{⊤, [], ◌∷◌, codes};

use bitflags::{Flag, Flags, bitflag_items};

/// The properties of a plan, as in MMTk's plan constraints. The field holds the flags' bits.
#[derive(Clone, Copy, PartialEq, Eq, Debug)]
pub struct PlanFlags(pub u32);

bitflag_items! {
    impl PlanFlags: u32 {
        /// Collections move objects.
        const MOVES = 1;
        /// Objects are young or old: the plan is generational.
        const YOUNG = 2;
        /// Mutators fill runs of clear lines, as in Immix.
        const LINES = 4;
        /// Each block has cells of one size class.
        const CELLS = 8;
    }
}

impl Flags for PlanFlags {
    type Bits = u32;

    ghost exact = { ⊤ };

    ghost table = { (codes "MOVES", 1) ∷ (codes "YOUNG", 2)
        ∷ (codes "LINES", 4) ∷ (codes "CELLS", 8) ∷ [] };

    ghost set_of = { λ f. f.0 };

    fn flags<'a>() -> &'a [Flag<PlanFlags>] {
        PlanFlags::FLAGS
    }

    fn bits(&self) -> u32 {
        self.0
    }

    fn from_bits_retain(bits: u32) -> PlanFlags {
        PlanFlags(bits)
    }
}
