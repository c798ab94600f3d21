//! How mutators fill lines, in a plain model of the blocks.

ghost use Rattle.std.specs.Prelude.{◌<◌};

use crate::model::{BLOCK, FILLERS, Lines, Model, Part};
use mutator_calls::NeedCause;

// The words of a line, and the lines of a block.
const LINE: u32 = 16;

const LINES: usize = 256;

// How many lines an object of `size` words takes, from the start of a line on.
fn lines_of(size: u32) -> usize {
    size.div_ceil(LINE) as usize
}

// The first word of a line of a block.
fn word_of(line: usize) -> u32 {
    u32::try_from(line).unwrap_or(0).wrapping_mul(LINE)
}

// Whether a part has room.
fn has_room(part: Option<Part>, size: u32) -> bool {
    match part {
        Some(part) => part.has(size),
        None => false,
    }
}

// The first run of `needed` clear lines or more, from a line on: its first line, and the line
// after its last.
fn run_of(lines: &Lines, from: usize, needed: usize) -> Option<(usize, usize)> {
    let mut start = from;
    for line in from..LINES {
        if lines[line] {
            if line.saturating_sub(start) >= needed {
                return Some((start, line));
            }
            start = line + 1;
        }
    }
    if LINES.saturating_sub(start) >= needed {
        return Some((start, LINES));
    }
    None
}

impl Model {
    /// The objects lie at these addresses now. A block without objects is Free, and each is
    /// listed.
    pub(crate) fn collected(&mut self, addresses: &[u32]) {
        let base = self.base();
        for (object, address) in self.objects.iter_mut().zip(addresses) {
            let first = (*address as usize).wrapping_sub(base);
            object.block = first / BLOCK as usize;
            object.offset = (first % BLOCK as usize) as u32;
        }
        for block in 0..self.rooms.len() {
            let lines = self.touched(block);
            if let Some(room) = self.rooms.get_mut(block) {
                room.listed = lines;
                room.used = lines.as_slice() != [false; LINES].as_slice();
            }
        }
    }

    /// The lines that objects of a block touch.
    pub(crate) fn touched(&self, block: usize) -> Lines {
        let mut lines = [false; LINES];
        for object in &self.objects {
            if object.block != block {
                continue;
            }
            let end = object.offset.saturating_add(object.size);
            let first = object.offset / LINE;
            for line in first..end.div_ceil(LINE) {
                lines[line as usize % LINES] = true;
            }
        }
        lines
    }

    /// Ends an epoch: blocks that mutators own are listed anew.
    pub(crate) fn close(&mut self) {
        for block in 0..self.rooms.len() {
            let lines = self.touched(block);
            if let Some(room) = self.rooms.get_mut(block)
                && room.owner != 0
            {
                room.listed = lines;
                room.owner = 0;
            }
        }
    }

    // The run of clear lines of a block that mutator m may fill: of its own blocks only that of
    // its hole counts, from the hole's end on.
    fn run_in(&self, block: usize, m: usize, needed: usize) -> Option<(usize, usize)>
        requires { m < FILLERS }
    {
        let room = self.rooms.get(block)?;
        if let Some(part) = self.fillers[m].hole
            && part.block == block
        {
            return run_of(&room.listed, (part.end / LINE) as usize, needed);
        }
        if room.used && room.owner == 0 {
            return run_of(&room.listed, 0, needed);
        }
        None
    }

    // The block is in use, and mutator m owns it.
    fn own(&mut self, m: usize, block: usize)
        requires { m < FILLERS }
    {
        if let Some(room) = self.rooms.get_mut(block) {
            room.owner = m as u32 + 1;
            room.used = true;
        }
    }

    // Takes the first run of clear lines of a block that mutator m may fill.
    fn take_in(&mut self, m: usize, block: usize, size: u32) -> bool
        requires { m < FILLERS }
    {
        let Some((start, end)) = self.run_in(block, m, lines_of(size)) else {
            return false;
        };
        self.own(m, block);
        self.fillers[m].hole = Some(Part {
            block,
            next: word_of(start),
            end: word_of(end),
        });
        true
    }

    // Goes on in the block of mutator m's hole, or takes the first block with a run of clear lines
    // that it may fill.
    fn take_hole(&mut self, m: usize, size: u32) -> bool
        requires { m < FILLERS }
    {
        if let Some(part) = self.fillers[m].hole
            && self.take_in(m, part.block, size)
        {
            return true;
        }
        for block in 0..self.rooms.len() {
            if self.take_in(m, block, size) {
                return true;
            }
        }
        false
    }

    // Takes the first Free block for the mutator's hole, or for overflow.
    fn take_block(&mut self, m: usize, over: bool) -> Result<(), NeedCause>
        requires { m < FILLERS }
    {
        let block = self.take_free(m)?;
        self.own(m, block);
        let part = Some(Part::whole(block));
        match over {
            true => self.fillers[m].over = part,
            false => self.fillers[m].hole = part,
        }
        Ok(())
    }

    // Whether the hole has room for an object of mutator m, or the overflow block, which takes
    // objects above a line.
    fn regions(&self, m: usize, size: u32) -> (bool, bool)
        requires { m < FILLERS }
    {
        let filler = self.fillers[m];
        let over = has_room(filler.over, size);
        (has_room(filler.hole, size), size > LINE && over)
    }

    // Makes room for an object of mutator m.
    fn make_room(&mut self, m: usize, size: u32) -> Result<(), NeedCause>
        requires { m < FILLERS }
    {
        if self.regions(m, size) != (false, false) {
            return Ok(());
        }
        let hole = self.fillers[m].hole;
        if size > LINE && has_room(hole, 1) {
            let Err(cause) = self.take_block(m, true) else {
                return Ok(());
            };
            return match self.take_hole(m, size) {
                true => Ok(()),
                false => Err(cause),
            };
        }
        match self.take_hole(m, size) {
            true => Ok(()),
            false => self.take_block(m, false),
        }
    }

    /// The block and the offset of a new object of mutator m.
    pub(crate) fn place_in_lines(&mut self, m: usize, size: u32) -> Result<(usize, u32), NeedCause>
        requires { m < FILLERS }
    {
        self.make_room(m, size)?;
        let (hole, _) = self.regions(m, size);
        let filler = &mut self.fillers[m];
        let region = match hole {
            true => &mut filler.hole,
            false => &mut filler.over,
        };
        // One of them has room.
        let Some(part) = region else {
            return Err(NeedCause::Large);
        };
        let offset = part.next;
        part.next = offset.wrapping_add(size);
        Ok((part.block, offset))
    }
}
