//! A plain ideal heap: what each command does, where mutators take turns.

ghost use Rattle.std.specs.Prelude.{◌<◌};

use ideal_heap::Command;

// Each mutator has four registers, each object one reference and eight numbers.
const REGISTERS: usize = 4;

const NUMS: usize = 8;

// Objects are numbered from 1 on; 0 is nil. The first is the one that all mutators have.
const OBJECTS: usize = 8;

// The codes of their names, as replies: objects 1 and 2 are mutator 1's.
const CODES: [u64; OBJECTS] = [1, 17, 18, 33, 49, 65, 0, 0];

/// The objects, with the registers of at most four mutators and the globals.
#[derive(Drop)]
pub(crate) struct Ideal {
    registers: [u8; REGISTERS * 4],
    globals: [u8; 16],
    fields: [u8; OBJECTS],
    numbers: [u64; OBJECTS * NUMS],
    pinned: [bool; OBJECTS],
}

impl Ideal {
    /// The heap as the mutators begin: each has the object of all, and one of its own.
    pub(crate) fn new() -> Ideal {
        Ideal {
            registers: [1, 2, 0, 0, 1, 3, 0, 0, 1, 4, 0, 0, 1, 5, 0, 0],
            globals: [0; 16],
            fields: [0; OBJECTS],
            numbers: [0; OBJECTS * NUMS],
            pinned: [false; OBJECTS],
        }
    }

    // The place of a register.
    fn place(&self, m: usize, register: u32) -> usize
        ensures { result < 16 }
    {
        (m % 4) * REGISTERS + register as usize % REGISTERS
    }

    // The number of the object in a register.
    fn object(&self, m: usize, register: u32) -> usize
        ensures { result < 8 }
    {
        self.registers[self.place(m, register)] as usize % OBJECTS
    }

    // What a load of a reference replies, by its code: nil, or the name of the object.
    fn told(&self, object: usize) -> u64 {
        CODES[object % OBJECTS]
    }

    // The reference in global `g`, or in the field of an object, goes into a register.
    fn loads(&mut self, m: usize, d: u32, object: u8) -> u64 {
        let place = self.place(m, d);
        self.registers[place] = object;
        self.told(object as usize)
    }

    // What a command does that reads or changes a number of an object.
    fn number(&mut self, object: usize, j: u32, command: &Command) -> u64 {
        let at = (object % OBJECTS) * NUMS + j as usize % NUMS;
        let found = self.numbers[at];
        match *command {
            Command::Write { n, .. } => {
                self.numbers[at] = n;
                2
            }
            Command::Add { n, .. } => {
                self.numbers[at] = found.wrapping_add(n);
                found.wrapping_add(1000)
            }
            Command::Swap { was, next, .. } if found == was => {
                self.numbers[at] = next;
                3
            }
            Command::Swap { .. } => 4,
            _ => found.wrapping_add(1000),
        }
    }

    // The pin of an object is set or cleared.
    fn pins(&mut self, object: usize, pin: bool) -> u64 {
        let changes = self.pinned[object % OBJECTS] != pin;
        self.pinned[object % OBJECTS] = pin;
        if changes { 3 } else { 4 }
    }

    /// The code of the reply to a command of the mutator at place `m`, which takes effect.
    pub(crate) fn reply(&mut self, m: usize, command: &Command) -> u64 {
        match *command {
            Command::Get { d, s, .. } => match self.object(m, s) {
                0 => 5,
                object => self.loads(m, d, self.fields[object % OBJECTS]),
            },
            Command::Put { s, v, .. } => match self.object(m, s) {
                0 => 5,
                object => {
                    self.fields[object % OBJECTS] = self.registers[self.place(m, v)];
                    2
                }
            },
            Command::Read { s, j }
            | Command::Write { s, j, .. }
            | Command::Add { s, j, .. }
            | Command::Swap { s, j, .. } => match self.object(m, s) {
                0 => 5,
                object => self.number(object, j, command),
            },
            Command::Load { d, g } => self.loads(m, d, self.globals[g as usize % 16]),
            Command::Share { g, s } => {
                self.globals[g as usize % 16] = self.registers[self.place(m, s)];
                2
            }
            Command::Pin { s } => match self.object(m, s) {
                0 => 5,
                object => self.pins(object, true),
            },
            Command::Unpin { s } => match self.object(m, s) {
                0 => 5,
                object => self.pins(object, false),
            },
            _ => 2,
        }
    }
}
