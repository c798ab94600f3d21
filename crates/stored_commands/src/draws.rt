//! Random commands.

ghost use Rattle.std.specs.Prelude.{◌≡◌, ◌<◌, ◌/◌, ◌^◌, ℕ, MatchOption};
ghost use Rattle.stored_commands.specs.Forms.{command_of};
ghost use Rattle.stored_commands.specs.Made.{next_state, draw_below, in_row, command_at};

use crate::form::{Form, Op, VALUE_UNIT};
use ideal_heap::{GLOBALS, REGISTERS};

const MULTIPLIER: u64 = 6_364_136_223_846_793_005;

const INCREMENT: u64 = 1_442_695_040_888_963_407;

// Two, three and four steps of the generator as one.
const MULTIPLIER_2: u64 = 7_520_897_724_310_334_953;

const INCREMENT_2: u64 = 1_876_011_003_808_476_466;

const MULTIPLIER_3: u64 = 793_875_393_913_628_917;

const INCREMENT_3: u64 = 11_166_244_414_315_200_793;

const MULTIPLIER_4: u64 = 18_108_194_425_815_612_945;

const INCREMENT_4: u64 = 7_401_132_627_792_533_940;

// The bits of the state that a draw leaves out.
const LOW_BITS: u32 = 33;

// At the start of so many commands registers and globals become nil.
const RESET_PERIOD: u32 = 1024;

const GC_PERIOD: u32 = 65_536;

// The end of the registers, and of the globals, that are reset.
const REGISTERS_RESET: u32 = REGISTERS as u32;

const GLOBALS_RESET: u32 = REGISTERS_RESET + GLOBALS as u32;

const ROWS: u32 = 16;

// All bits of a draw.
const ALL_BITS: u32 = 2_147_483_647;

// The commands of a row: what they do, the bits of the second draw that are their second number,
// and so on, and all draws of their arguments as one step of the generator. The first number is
// always a register or a global.
#[derive(Debug, Drop)]
struct Row {
    op: Op,
    second: u32,
    third: u32,
    fourth: u32,
    multiplier: u64,
    increment: u64,
}

static TABLE: [Row; 16] = [
    Row {
        op: Op::New,
        second: 7,
        third: 31,
        fourth: 0,
        multiplier: MULTIPLIER_3,
        increment: INCREMENT_3,
    },
    Row {
        op: Op::New,
        second: 7,
        third: 31,
        fourth: 0,
        multiplier: MULTIPLIER_3,
        increment: INCREMENT_3,
    },
    Row {
        op: Op::New,
        second: 7,
        third: 31,
        fourth: 0,
        multiplier: MULTIPLIER_3,
        increment: INCREMENT_3,
    },
    Row {
        op: Op::New,
        second: 7,
        third: 31,
        fourth: 0,
        multiplier: MULTIPLIER_3,
        increment: INCREMENT_3,
    },
    Row {
        op: Op::Put,
        second: 7,
        third: 15,
        fourth: 0,
        multiplier: MULTIPLIER_3,
        increment: INCREMENT_3,
    },
    Row {
        op: Op::Put,
        second: 7,
        third: 15,
        fourth: 0,
        multiplier: MULTIPLIER_3,
        increment: INCREMENT_3,
    },
    Row {
        op: Op::Get,
        second: 15,
        third: 7,
        fourth: 0,
        multiplier: MULTIPLIER_3,
        increment: INCREMENT_3,
    },
    Row {
        op: Op::Get,
        second: 15,
        third: 7,
        fourth: 0,
        multiplier: MULTIPLIER_3,
        increment: INCREMENT_3,
    },
    Row {
        op: Op::Read,
        second: 31,
        third: 0,
        fourth: 0,
        multiplier: MULTIPLIER_2,
        increment: INCREMENT_2,
    },
    Row {
        op: Op::Write,
        second: 31,
        third: ALL_BITS,
        fourth: 0,
        multiplier: MULTIPLIER_3,
        increment: INCREMENT_3,
    },
    Row {
        op: Op::Add,
        second: 31,
        third: ALL_BITS,
        fourth: 0,
        multiplier: MULTIPLIER_3,
        increment: INCREMENT_3,
    },
    Row {
        op: Op::Swap,
        second: 31,
        third: 3,
        fourth: 3,
        multiplier: MULTIPLIER_4,
        increment: INCREMENT_4,
    },
    Row {
        op: Op::Move,
        second: 15,
        third: 0,
        fourth: 0,
        multiplier: MULTIPLIER_2,
        increment: INCREMENT_2,
    },
    Row {
        op: Op::Load,
        second: 15,
        third: 0,
        fourth: 0,
        multiplier: MULTIPLIER_2,
        increment: INCREMENT_2,
    },
    Row {
        op: Op::Share,
        second: 15,
        third: 0,
        fourth: 0,
        multiplier: MULTIPLIER_2,
        increment: INCREMENT_2,
    },
    Row {
        op: Op::Pin,
        second: 0,
        third: 0,
        fourth: 0,
        multiplier: MULTIPLIER,
        increment: INCREMENT,
    },
];

// The state after this one.
#[inline(always)]
fn next(state: u64) -> u64
    ensures { result ≡ next_state state }
{
    state.wrapping_mul(MULTIPLIER).wrapping_add(INCREMENT)
}

// The number of 31 bits that a draw takes from the state after it.
#[inline(always)]
fn number(state: u64) -> u32
    ensures number { result ≡ state / 2 ^ 33 }
    ensures small { result < 2 ^ 31 }
{
    (state >> LOW_BITS) as u32
}

// A first number alone.
#[inline(always)]
fn alone(op: Op, a: u8) -> Form
    ensures { result ≡ record { op = op; a = a; b = 0; c = 0 } }
{
    Form { op, a, b: 0, c: 0 }
}

/// The state of a linear congruential generator of 64 bits, with the constants of Knuth's MMIX.
#[derive(Debug, Drop)]
pub(crate) struct Draws {
    pub(crate) state: u64,
}

impl Draws {
    // A random command. No branch depends on the draws: what they decide is read from a table.
    #[inline(always)]
    fn random(&mut self) -> Form
        ensures { (command_of result.op result.a result.b result.c, self.new.state)
            ≡ draw_below 16 in_row self.old.state }
    {
        let row_state = next(self.state);
        let row = &TABLE[(number(row_state) % ROWS) as usize];
        let first = next(row_state);
        let second = next(first);
        let third = next(second);
        let a = number(first) % REGISTERS as u32;
        let b = number(second) & row.second;
        let c = number(third) & row.third;
        let d = number(next(third)) & row.fourth;
        self.state = row_state
            .wrapping_mul(row.multiplier)
            .wrapping_add(row.increment);
        Form {
            op: row.op,
            a: a as u8,
            b: b as u16,
            c: c + VALUE_UNIT * d,
        }
    }

    /// Draws command `k`, from 0 on.
    #[inline(always)]
    pub(crate) fn form(&mut self, k: u32) -> Form
        ensures { (command_of result.op result.a result.b result.c, self.new.state)
            ≡ command_at k self.old.state }
    {
        if k % RESET_PERIOD <= GLOBALS_RESET {
            if let Some(form) = fixed_command(k) {
                return form;
            }
        }
        self.random()
    }
}

// Command `k`, if it is not random.
#[cold]
#[inline(never)]
fn fixed_command(k: u32) -> Option<Form>
    ensures { (x : ℕ) → MatchOption result (command_at k x ≡ draw_below 16 in_row x)
        (λ f. (command_of f.op f.a f.b f.c, x) ≡ command_at k x) }
{
    let place = k % RESET_PERIOD;
    if place < REGISTERS_RESET {
        return Some(alone(Op::DropReg, place as u8));
    }
    if place < GLOBALS_RESET {
        let global = (place - REGISTERS_RESET) as u8;
        return Some(alone(Op::Share, global));
    }
    if k % GC_PERIOD == GLOBALS_RESET {
        return Some(alone(Op::Gc, 0));
    }
    None
}
