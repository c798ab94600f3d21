//! A plain model of the blocks of a heap that mutators fill with objects.

ghost use Rattle.std.specs.Prelude.{◌<◌};

use ideal_heap::Name;
use mutator_calls::{Allocated, Mutator, Need, NeedCause};
use std::alloc::{AllocError, Global};

/// The most mutators.
pub(crate) const FILLERS: usize = 16;

/// The words of a block, which are 256 lines.
pub(crate) const BLOCK: u32 = 4096;

// The largest object that is not large, in words.
const MEDIUM: u32 = 2048;

// The sizes of cells, by class.
const CELLS: [u32; 19] = [
    4, 6, 8, 12, 16, 24, 32, 48, 64, 96, 128, 192, 256, 384, 512, 768, 1024, 1536, 2048,
];

/// How mutators fill blocks: their tails, their cells, or runs of clear lines.
#[derive(Clone, Copy, PartialEq, Eq)]
pub(crate) enum Fill {
    Tails,
    Cells,
    Lines,
}

/// For each line of a block whether it is marked.
pub(crate) type Lines = [bool; 256];

/// A block: its owner's number or 0, whether it is in use, the class of its cells, the offset
/// after what was taken of its tail or cells, and the lines that were marked as it was last
/// listed.
#[derive(Clone, Copy)]
pub(crate) struct Room {
    pub(crate) owner: u32,
    pub(crate) used: bool,
    pub(crate) class: u32,
    pub(crate) next: u32,
    pub(crate) listed: Lines,
}

impl Room {
    // Whether so many words are left in its tail, or in its cells if they are of the class.
    fn has(&self, class: u32, words: u32) -> bool {
        self.used && self.class == class && self.next.saturating_add(words) <= BLOCK
    }
}

/// A free part of a block, in words.
#[derive(Clone, Copy)]
pub(crate) struct Part {
    pub(crate) block: usize,
    pub(crate) next: u32,
    pub(crate) end: u32,
}

impl Part {
    /// The whole of a block.
    pub(crate) fn whole(block: usize) -> Part {
        Part {
            block,
            next: 0,
            end: BLOCK,
        }
    }

    /// Whether it has room.
    pub(crate) fn has(&self, size: u32) -> bool {
        self.next.saturating_add(size) <= self.end
    }
}

/// An object: its block, its offset and its size in words.
#[derive(Clone, Copy)]
pub(crate) struct Object {
    pub(crate) block: usize,
    pub(crate) offset: u32,
    pub(crate) size: u32,
}

impl Object {
    // Its first word, of those of all blocks.
    fn first(&self) -> usize {
        let block = self.block.wrapping_mul(BLOCK as usize);
        block.wrapping_add(self.offset as usize)
    }
}

/// A mutator: its unused ticket, the number of its objects, what its register holds, what is left
/// of the block or hole that it fills, and of its overflow block.
#[derive(Clone, Copy)]
pub(crate) struct Filler {
    pub(crate) ticket: Option<u32>,
    pub(crate) births: u32,
    pub(crate) register: u32,
    pub(crate) hole: Option<Part>,
    pub(crate) over: Option<Part>,
}

/// A heap that mutators fill.
#[derive(Drop)]
pub(crate) struct Model {
    pub(crate) fill: Fill,
    pub(crate) rooms: Vec<Room>,
    pub(crate) objects: Vec<Object>,
    pub(crate) fillers: [Filler; FILLERS],
    drawn: u32,
    allowance: usize,
}

// The smallest cells with room for `size` words: their class and size.
fn cells_for(size: u32) -> (u32, u32) {
    for (class, cell) in CELLS.iter().enumerate() {
        if size <= *cell {
            return (class as u32, *cell);
        }
    }
    (0, size)
}

/// The numbers of references and of numbers of an object of `size` words.
pub(crate) fn shape_of(size: u32) -> (u32, u32) {
    let fields = size.saturating_sub(3);
    (fields / 2, fields.saturating_sub(fields / 2))
}

// The first Free block.
fn first_free(rooms: &[Room]) -> Option<usize> {
    for (block, room) in rooms.iter().enumerate() {
        if !room.used {
            return Some(block);
        }
    }
    None
}

impl Model {
    pub(crate) fn new(alloc: Global, fill: Fill, blocks: u32) -> Result<Model, AllocError> {
        let free = Room {
            owner: 0,
            used: false,
            class: 0,
            next: 0,
            listed: [false; 256],
        };
        let nobody = Filler {
            ticket: None,
            births: 0,
            register: 0,
            hole: None,
            over: None,
        };
        Ok(Model {
            fill,
            rooms: vec![in alloc; free; blocks as usize]?,
            objects: Vec::new(alloc),
            fillers: [nobody; FILLERS],
            drawn: 0,
            allowance: 0,
        })
    }

    /// Begins an epoch of these mutators. Under lines one Free block for each 32 blocks, rounded
    /// up, is held back.
    pub(crate) fn begin(&mut self, mutators: &Vec<Mutator>) {
        for (m, filler) in self.fillers.iter_mut().enumerate() {
            filler.ticket = None;
            filler.hole = None;
            filler.over = None;
            if let Some(mutator) = mutators.get(m) {
                filler.register = mutator.registers[m % FILLERS];
            }
        }
        let mut free = 0usize;
        for room in &self.rooms {
            if !room.used {
                free = free.wrapping_add(1);
            }
        }
        let held_back = match self.fill {
            Fill::Lines => self.rooms.len().div_ceil(32),
            _ => 0,
        };
        self.drawn = 0;
        self.allowance = free.saturating_sub(held_back);
    }

    /// The first address: the heap is the end of the row, after 18 words and 197 for each block.
    pub(crate) fn base(&self) -> usize {
        self.rooms.len().wrapping_mul(197).wrapping_add(18)
    }

    /// The address of an object.
    pub(crate) fn address(&self, object: &Object) -> u32 {
        let address = self.base().wrapping_add(object.first());
        u32::try_from(address).unwrap_or(u32::MAX)
    }

    /// The first Free block, for the mutator's ticket.
    pub(crate) fn take_free(&mut self, m: usize) -> Result<usize, NeedCause>
        requires { m < FILLERS }
    {
        let filler = &mut self.fillers[m];
        let ticket = filler.ticket.unwrap_or(self.drawn);
        if filler.ticket.is_none() {
            self.drawn = self.drawn.wrapping_add(1);
        }
        filler.ticket = Some(ticket);
        if ticket as usize >= self.allowance {
            return Err(NeedCause::Budget(ticket));
        }
        // There is one, since the ticket is below the allowance.
        let Some(block) = first_free(&self.rooms) else {
            return Err(NeedCause::Budget(ticket));
        };
        filler.ticket = None;
        Ok(block)
    }

    // The block with room for so many words, in its tail or in cells of the class: the one that
    // mutator m fills, else the first one that it may fill, else a Free one.
    fn block_for(&mut self, m: usize, class: u32, words: u32) -> Result<usize, NeedCause>
        requires { m < FILLERS }
    {
        if let Some(part) = self.fillers[m].hole
            && let Some(room) = self.rooms.get(part.block)
            && room.has(class, words)
        {
            return Ok(part.block);
        }
        let number = m as u32 + 1;
        for (block, room) in self.rooms.iter().enumerate() {
            if room.has(class, words) && (room.owner == 0 || room.owner == number) {
                return Ok(block);
            }
        }
        self.take_free(m)
    }

    // The block and the offset of a new object of so many words, in its tail or in a cell.
    fn place_after(&mut self, m: usize, class: u32, words: u32) -> Result<(usize, u32), NeedCause>
        requires { m < FILLERS }
    {
        let block = self.block_for(m, class, words)?;
        self.fillers[m].hole = Some(Part::whole(block));
        // The block is one of the list.
        let Some(room) = self.rooms.get_mut(block) else {
            return Err(NeedCause::Large);
        };
        let offset = room.next;
        room.owner = m as u32 + 1;
        room.used = true;
        room.class = class;
        room.next = offset.wrapping_add(words);
        Ok((block, offset))
    }

    // The block and the offset of a new object of mutator m.
    fn place(&mut self, m: usize, size: u32) -> Result<(usize, u32), NeedCause>
        requires { m < FILLERS }
    {
        if size > MEDIUM {
            return Err(NeedCause::Large);
        }
        let (class, cell) = cells_for(size);
        match self.fill {
            Fill::Tails => self.place_after(m, 0, size),
            Fill::Cells => self.place_after(m, class, cell),
            Fill::Lines => self.place_in_lines(m, size),
        }
    }

    /// An allocation of mutator m into the register of its place: the answer, and what the
    /// register holds then.
    pub(crate) fn allocate(&mut self, m: usize, size: u32) -> Result<(Allocated, u32), AllocError>
        requires { m < FILLERS }
    {
        match self.place(m, size) {
            Err(cause) => {
                let (refs, nums) = shape_of(size);
                let need = Need {
                    register: m as u32,
                    refs,
                    nums,
                    cause,
                };
                Ok((Allocated::Stop(need), self.fillers[m].register))
            }
            Ok((block, offset)) => {
                let object = Object {
                    block,
                    offset,
                    size,
                };
                self.objects.push(object)?;
                let register = self.address(&object);
                let filler = &mut self.fillers[m];
                filler.register = register;
                filler.births = filler.births.wrapping_add(1);
                let name = Name {
                    mutator: m as u32 + 1,
                    birth: filler.births,
                };
                Ok((Allocated::Made(name), register))
            }
        }
    }

    /// Whether no object overlaps another. Sorts them by address.
    pub(crate) fn are_apart(&mut self) -> bool {
        self.objects.sort_unstable_by_key(|o| o.first());
        let mut end = 0;
        for object in &self.objects {
            if object.first() < end {
                return false;
            }
            end = object.first().wrapping_add(object.size as usize);
        }
        true
    }
}
