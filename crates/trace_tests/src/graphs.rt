//! Commands that build graphs, for collections.

use ideal_heap::Command;
use std::alloc::{AllocError, Global};

/// A source of numbers that look random: Marsaglia's xorshift.
#[derive(Drop)]
struct Random(u64);

impl Random {
    /// A number below `end`.
    fn below(&mut self, end: u32) -> u32 {
        self.0 ^= self.0 << 13;
        self.0 ^= self.0 >> 7;
        self.0 ^= self.0 << 17;
        match end {
            0 => 0,
            _ => ((self.0 >> 20) % u64::from(end)) as u32,
        }
    }
}

/// Commands that build a graph of random objects, and the references that the object of each
/// register has. Registers 0 to 3 have objects of 1,024 references.
#[derive(Drop)]
struct Grower {
    commands: Vec<Command>,
    refs: [u32; 16],
}

impl Grower {
    fn create(&mut self, d: u32, refs: u32, nums: u32) -> Result<(), AllocError> {
        self.refs[d as usize % 16] = refs;
        self.commands.push(Command::New { d, refs, nums })?;
        Ok(())
    }

    /// Stores register `v` in a reference of the object in register `s`, if it has any.
    fn link(&mut self, random: &mut Random, s: u32, v: u32) -> Result<(), AllocError> {
        let refs = self.refs[s as usize % 16];
        if refs > 0 {
            let i = random.below(refs);
            self.commands.push(Command::Put { s, i, v })?;
        }
        Ok(())
    }

    /// A new object in one of registers 4 to 15. It and older objects refer to each other.
    fn grow(&mut self, random: &mut Random) -> Result<(), AllocError> {
        let d = random.below(12).wrapping_add(4);
        let nums = match random.below(64) {
            0 => 200,
            _ => random.below(6).wrapping_add(1),
        };
        let refs = random.below(4);
        self.create(d, refs, nums)?;
        let n = u64::from(random.below(1_000_000));
        self.commands.push(Command::Write { s: d, j: 0, n })?;
        for _ in 0..refs {
            let v = random.below(16);
            self.link(random, d, v)?;
        }
        let older = random.below(16);
        self.link(random, older, d)?;
        match random.below(32) {
            0 => self.commands.push(Command::Pin { s: d })?,
            1 => {
                let g = random.below(16);
                self.commands.push(Command::Share { g, s: d })?;
            }
            _ => {}
        }
        Ok(())
    }
}

/// Commands that build a graph of `count` random objects: some are dead, some shared, pinned or in
/// globals, and cycles are many. Registers 0 to 3 have objects of 1,024 references.
pub(crate) fn random_graph(
    alloc: Global,
    seed: u64,
    count: u32,
) -> Result<Vec<Command>, AllocError> {
    let mut random = Random(seed);
    let mut grower = Grower {
        commands: Vec::new(alloc),
        refs: [0; 16],
    };
    for d in 0..16 {
        grower.create(d, if d < 4 { 1024 } else { 1 }, 1)?;
    }
    for _ in 16..count {
        grower.grow(&mut random)?;
    }
    Ok(grower.commands)
}

/// `count` pairs of commands on random objects: one loads a reference of the object in a register
/// into one of registers 4 to 15, and one stores a register in a reference of such an object. Some
/// objects lack the reference.
pub(crate) fn random_stores(
    alloc: Global,
    seed: u64,
    count: u32,
) -> Result<Vec<Command>, AllocError> {
    let mut random = Random(seed);
    let mut commands = Vec::new(alloc);
    for _ in 0..count {
        let s = random.below(16);
        let i = random.below(if s < 4 { 1024 } else { 4 });
        let d = random.below(12).wrapping_add(4);
        commands.push(Command::Get { d, s, i })?;
        let s = random.below(12).wrapping_add(4);
        let i = random.below(3);
        let v = random.below(16);
        commands.push(Command::Put { s, i, v })?;
    }
    Ok(commands)
}

/// Commands that build a list of `count` objects of 4 words, its last one first. Register 2 has the
/// whole list, and register 0 the first half that was made.
pub(crate) fn list(alloc: Global, count: u32) -> Result<Vec<Command>, AllocError> {
    let mut commands = Vec::new(alloc);
    let create = Command::New {
        d: 1,
        refs: 1,
        nums: 0,
    };
    let put = Command::Put { s: 1, i: 0, v: 2 };
    for made in 0..count {
        commands.extend_from_slice(&[create, put, Command::Move { d: 2, s: 1 }])?;
        if made < count / 2 {
            commands.push(Command::Move { d: 0, s: 1 })?;
        }
    }
    Ok(commands)
}
