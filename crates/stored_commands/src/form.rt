//! Forms of commands: what a command does, and numbers that take the bytes that they need.

ghost use Rattle.std.specs.Prelude.{◌≡◌};
ghost use Rattle.stored_commands.specs.Forms.{command_of};

use ideal_heap::Command;

/// What a command does. `Other` stands first so that none has the tag of its command: with equal
/// tags LLVM jumps by the tag twice.
#[derive(Clone, Copy, Debug)]
pub enum Op {
    Other,
    New,
    Get,
    Put,
    Read,
    Write,
    Add,
    Swap,
    Move,
    DropReg,
    Load,
    Share,
    Pin,
    Unpin,
    Gc,
    Meet,
}

/// A command with narrow numbers, in 8 bytes: its numbers in their order, where `c` has both values
/// of a `swap`. `Other` has, as `c`, the index of a command whose numbers do not fit, in a list
/// beside the forms.
#[derive(Clone, Copy, Debug)]
pub(crate) struct Form {
    pub(crate) op: Op,
    pub(crate) a: u8,
    pub(crate) b: u16,
    pub(crate) c: u32,
}

impl Form {
    /// The command of narrow numbers, `gc` if it is another.
    #[inline(always)]
    pub(crate) fn command(&self) -> Command
        ensures { result ≡ command_of self.now.op self.now.a self.now.b self.now.c }
    {
        let Form { op, a, b, c } = self;
        let a = u32::from(*a);
        let b = u32::from(*b);
        let c = *c;
        match *op {
            Op::New => Command::New {
                d: a,
                refs: b,
                nums: c,
            },
            Op::Get => Command::Get { d: a, s: b, i: c },
            Op::Put => Command::Put { s: a, i: b, v: c },
            Op::Read => Command::Read { s: a, j: b },
            Op::Write => Command::Write {
                s: a,
                j: b,
                n: u64::from(c),
            },
            Op::Add => Command::Add {
                s: a,
                j: b,
                n: u64::from(c),
            },
            Op::Swap => Command::Swap {
                s: a,
                j: b,
                was: u64::from(c % VALUE_UNIT),
                next: u64::from(c / VALUE_UNIT),
            },
            Op::Move => Command::Move { d: a, s: b },
            Op::DropReg => Command::DropReg { s: a },
            Op::Load => Command::Load { d: a, g: b },
            Op::Share => Command::Share { g: a, s: b },
            Op::Pin => Command::Pin { s: a },
            Op::Unpin => Command::Unpin { s: a },
            Op::Gc => Command::Gc,
            Op::Meet => Command::Meet,
            Op::Other => Command::Gc,
        }
    }
}

/// A command with few bits, in 4 bytes: two numbers below `NUMBER_END` as the digits of `pair`, and
/// one or two in `third`. `Other` has, as `pair` and `third`, the digits of the index of a command
/// that does not fit, in a list beside these.
#[derive(Debug, Drop)]
pub(crate) struct Short {
    pub(crate) op: Op,
    pub(crate) pair: u8,
    pub(crate) third: u16,
}

/// The factor of the second value of a `swap` in a form. The first is below it.
pub const VALUE_UNIT: u32 = 65_536;

/// The factor of the second of two numbers in `third`. The first is below it.
pub(crate) const THIRD_UNIT: u32 = 4096;

/// The end of the first and the second number of a command in 4 bytes.
pub(crate) const NUMBER_END: u32 = 16;

/// The end of `third`.
pub(crate) const THIRD_END: u32 = 65_536;

/// The factor of the second digit of the index of a command that does not fit into 4 bytes.
pub(crate) const DIGIT_UNIT: u32 = 256;

const _: () = prove!(size_of::<Form>() == 8);

const _: () = prove!(size_of::<Short>() == 4);
