//! Commands on their way into a trace.

ghost use Rattle.std.specs.Prelude.{◌≡◌, ◌<◌, ◌+◌, ◌*◌, ◌/◌, ◌%◌, [], None, MatchOption};
ghost use Rattle.stored_commands.specs.Forms.{command_in, index_in};

use crate::form::{Form, NUMBER_END, Op, Short, THIRD_END, THIRD_UNIT, VALUE_UNIT};
use ideal_heap::Command;
use std::marker::Model;

// Registers, globals and indices below these fit into a form.
const REGISTERS_END: u32 = 256;

const INDICES_END: u32 = 65_536;

// So do values below these.
const VALUES_END: u64 = 4_294_967_296;

const SWAPPED_END: u64 = 65_536;

// Indices and values of a `write` or `add` below these fit into 4 bytes.
const SHORT_INDICES_END: u32 = 256;

const SHORT_VALUES_END: u64 = 4096;

// So do values of a `swap` below this.
const SHORT_SWAPPED_END: u64 = 16;

// How a command goes into a trace.
#[derive(Debug, Drop)]
pub(crate) enum Packed {
    Short(Short),
    Long(Command),
}

/// A command on its way into a trace: a short one in 4 bytes, any other in full. Clauses see it as
/// the command.
#[derive(Debug, Drop)]
pub struct PackedCommand {
    pub(crate) packed: Packed,
}

impl Model for PackedCommand {
    ghost use Rattle.ideal_heap.specs.declared.command.Command.{Command};
    ghost use Rattle.stored_commands.specs.Forms.{command_packed, NeedsNoTables};

    ghost Value = { Command };

    ghost view = { λ c. command_packed c.packed };

    ghost invariant = { λ c. NeedsNoTables c.packed };
}

// A form with these numbers.
#[inline(always)]
fn form(op: Op, a: u32, b: u32, c: u32) -> Form
    requires a { a < REGISTERS_END }
    requires b { b < INDICES_END }
    ensures { result ≡ record { op = op; a = a; b = b; c = c } }
{
    Form {
        op,
        a: a as u8,
        b: b as u16,
        c,
    }
}

// 4 bytes with these numbers.
#[inline(always)]
fn short(op: Op, a: u32, b: u32, third: u32) -> Short
    requires a { a < NUMBER_END }
    requires b { b < NUMBER_END }
    requires third { third < THIRD_END }
    ensures { result ≡ record { op = op; pair = a + NUMBER_END * b; third = third } }
{
    Short {
        op,
        pair: (a + NUMBER_END * b) as u8,
        third: third as u16,
    }
}

// The 4 bytes of a `write` or `add`.
#[inline(always)]
fn written(op: Op, s: u32, j: u32, n: u32) -> Short
    requires s { s < NUMBER_END }
    requires j { j < SHORT_INDICES_END }
    requires n { n < THIRD_UNIT }
    ensures { result ≡ record {
      op = op;
      pair = s + NUMBER_END * (j % NUMBER_END);
      third = n + THIRD_UNIT * (j / NUMBER_END);
    } }
{
    short(op, s, j % NUMBER_END, n + THIRD_UNIT * (j / NUMBER_END))
}

/// The form of a command, unless it has a number above the limits of a trace, a number of a `write`
/// or `add` above 32 bits, or a number of a `swap` above 16 bits.
pub(crate) fn form_of(command: &Command) -> Option<Form>
    ensures { MatchOption result (Unit {0})
        (λ f. (index_in f ≡ None) × (command_in [] f ≡ command.now)) }
{
    Some(match *command {
        Command::New { d, refs, nums } if d < REGISTERS_END && refs < INDICES_END => {
            form(Op::New, d, refs, nums)
        }
        Command::Get { d, s, i } if d < REGISTERS_END && s < INDICES_END => form(Op::Get, d, s, i),
        Command::Put { s, i, v } if s < REGISTERS_END && i < INDICES_END => form(Op::Put, s, i, v),
        Command::Read { s, j } if s < REGISTERS_END && j < INDICES_END => form(Op::Read, s, j, 0),
        Command::Write { s, j, n } if s < REGISTERS_END && j < INDICES_END && n < VALUES_END => {
            form(Op::Write, s, j, n as u32)
        }
        Command::Add { s, j, n } if s < REGISTERS_END && j < INDICES_END && n < VALUES_END => {
            form(Op::Add, s, j, n as u32)
        }
        Command::Swap { s, j, was, next }
            if s < REGISTERS_END && j < INDICES_END && was < SWAPPED_END && next < SWAPPED_END => {
            form(Op::Swap, s, j, was as u32 + VALUE_UNIT * next as u32)
        }
        _ => return None,
    })
}

impl PackedCommand {
    /// Packs a command. It is short unless it is a `new` of 16 references or more, a `write` or
    /// `add` at an index from 256 on or of a number from 4,096 on, or a `swap` at an index from
    /// 4,096 on or of a number from 16 on, or has a number above the limits of a trace.
    #[inline(always)]
    pub fn new(command: &Command) -> PackedCommand
        ensures { result ≡ command.now }
    {
        let short = match *command {
            Command::New { d, refs, nums }
                if d < NUMBER_END && refs < NUMBER_END && nums < THIRD_END => {
                short(Op::New, d, refs, nums)
            }
            Command::Get { d, s, i } if d < NUMBER_END && s < NUMBER_END && i < THIRD_END => {
                short(Op::Get, d, s, i)
            }
            Command::Put { s, i, v } if s < NUMBER_END && v < NUMBER_END && i < THIRD_END => {
                short(Op::Put, s, v, i)
            }
            Command::Read { s, j } if s < NUMBER_END && j < THIRD_END => short(Op::Read, s, 0, j),
            Command::Write { s, j, n }
                if s < NUMBER_END && j < SHORT_INDICES_END && n < SHORT_VALUES_END => {
                written(Op::Write, s, j, n as u32)
            }
            Command::Add { s, j, n }
                if s < NUMBER_END && j < SHORT_INDICES_END && n < SHORT_VALUES_END => {
                written(Op::Add, s, j, n as u32)
            }
            Command::Swap { s, j, was, next }
                if s < NUMBER_END
                    && j < THIRD_UNIT
                    && was < SHORT_SWAPPED_END
                    && next < SHORT_SWAPPED_END => {
                short(Op::Swap, s, was as u32, j + THIRD_UNIT * next as u32)
            }
            Command::Move { d, s } if d < NUMBER_END && s < NUMBER_END => short(Op::Move, d, s, 0),
            Command::DropReg { s } if s < NUMBER_END => short(Op::DropReg, s, 0, 0),
            Command::Load { d, g } if d < NUMBER_END && g < NUMBER_END => short(Op::Load, d, g, 0),
            Command::Share { g, s } if g < NUMBER_END && s < NUMBER_END => {
                short(Op::Share, g, s, 0)
            }
            Command::Pin { s } if s < NUMBER_END => short(Op::Pin, s, 0, 0),
            Command::Unpin { s } if s < NUMBER_END => short(Op::Unpin, s, 0, 0),
            Command::Gc => short(Op::Gc, 0, 0, 0),
            Command::Meet => short(Op::Meet, 0, 0, 0),
            _ => {
                return PackedCommand {
                    packed: Packed::Long(*command),
                };
            }
        };
        PackedCommand {
            packed: Packed::Short(short),
        }
    }
}
