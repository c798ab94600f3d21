//! What the command line asks for.

/// A plan, named by a word of the command line. The plans are those of MMTk.
#[derive(Clone, Copy, Drop)]
pub enum PlanName {
    /// `nogc`: never collects.
    NoGc,
    /// `marksweep`: mark-sweep.
    MarkSweep,
    /// `semispace`: copying between two spaces.
    SemiSpace,
    /// `gencopy`: generational copying.
    GenCopy,
    /// `immix`: mark-region, Immix.
    Immix,
    /// `stickyimmix`: generational Immix with sticky mark bits.
    StickyImmix,
}

/// The most files of a command line: one for each mutator.
pub const MAX_FILES: usize = 16;

/// The most GC workers.
pub const MAX_WORKERS: u32 = 16;

/// What to run: traces from files, one for each mutator, or one made trace.
#[derive(Drop)]
pub enum Target<'a> {
    /// The names of the files, 1 to `MAX_FILES`.
    Files(&'a [String]),
    /// The number of commands of the made trace, 1 to `MAX_COMMANDS`.
    Made(u32),
}

/// What the arguments of the command line ask for.
#[derive(Drop)]
pub struct Order<'a> {
    /// The plan that manages the heap.
    pub plan: PlanName,
    /// The size of the heap in blocks, `MIN_BLOCKS` to `MAX_BLOCKS`.
    pub blocks: u32,
    /// The number of GC workers, 1 to `MAX_WORKERS`.
    pub workers: u32,
    /// Whether to print the map of the heap.
    pub map: bool,
    /// What to run.
    pub work: Target<'a>,
}
