//! The made trace, of which a stretch at a time is drawn.

ghost use Rattle.std.specs.Prelude.{◌≡◌, ◌+◌, ◌<◌, ◌≤◌, ◌^◌, ℕ, [], length, get_or, IfOk};
ghost use Rattle.ideal_heap.specs.declared.command.Command.TheVariants.{Gc};
ghost use Rattle.stored_commands.specs.Made.{made_trace};
ghost use Rattle.stored_commands.specs.Stretches.{AreDrawn, IsStretch, drawn_at, narrow, state_at};

use crate::draws::Draws;
use crate::form::{Form, Op};
use ideal_heap::Command;
use std::alloc::{AllocError, Global};
use std::marker::Model;

// At most so many commands are drawn at a time.
const STRETCH: u32 = 1024;

const NO_COMMAND: Form = Form {
    op: Op::Gc,
    a: 0,
    b: 0,
    c: 0,
};

/// A stretch of a made trace, in 8 bytes a command.
#[derive(Debug, Drop)]
pub(crate) struct Stretch {
    // The number of commands of the trace.
    pub(crate) count: u32,
    // The commands from `start` on, before `end`, are drawn.
    pub(crate) start: u32,
    pub(crate) end: u32,
    pub(crate) drawn: Vec<Form>,
    // The generator, as it draws command `end` next.
    pub(crate) draws: Draws,
}

/// The made trace of some number of commands. Only a stretch of it is kept, other commands are
/// drawn as they are asked for. Clauses see it as the list.
#[derive(Debug, Drop)]
pub(crate) struct MadeCommands {
    stretch: Stretch,
}

impl Model for MadeCommands {
    ghost use Rattle.std.specs.Prelude.{List};
    ghost use Rattle.ideal_heap.specs.declared.command.Command.{Command};
    ghost use Rattle.stored_commands.specs.Made.{made_trace};
    ghost use Rattle.stored_commands.specs.Stretches.{IsStretch};

    ghost Value = { List Command };

    ghost view = { λ m. made_trace m.stretch.count };

    ghost invariant = { λ m. IsStretch m.stretch };
}

// Draws the commands from `start` on, before `end`, as the first forms. Answers the generator after
// them.
fn draw(forms: &mut [Form], draws: Draws, start: u32, end: u32) -> Draws
    requires order { start ≤ end }
    requires room { end ≤ start + length forms.old }
    ensures len { length forms.new ≡ length forms.old }
    ensures state { (n : ℕ) → draws.state ≡ state_at n start → result.state ≡ state_at n end }
    ensures drawn { (n : ℕ) → draws.state ≡ state_at n start → AreDrawn n start end forms.new }
{
    let mut draws = draws;
    for i in 0..end - start {
        forms[i as usize] = draws.form(start + i);
    }
    draws
}

// Draws the commands after the stretch, as the next stretch.
fn draw_next(stretch: &mut Stretch)
    requires stretch { IsStretch stretch.old }
    requires more { stretch.old.end < stretch.old.count }
    ensures stretch { IsStretch stretch.new }
    ensures same { stretch.new.count ≡ stretch.old.count }
    ensures later { stretch.old.end < stretch.new.end }
{
    let start = stretch.end;
    let room = stretch.drawn.len().min(STRETCH as usize) as u32;
    let end = start + room.min(stretch.count - start);
    let draws = Draws {
        state: stretch.draws.state,
    };
    stretch.draws = draw(&mut stretch.drawn, draws, start, end);
    stretch.start = start;
    stretch.end = end;
}

// Draws the command with this index, and others around it.
fn draw_around(stretch: &mut Stretch, k: u32)
    requires stretch { IsStretch stretch.old }
    requires within { k < stretch.old.count }
    ensures stretch { IsStretch stretch.new }
    ensures same { stretch.new.count ≡ stretch.old.count }
{
    if k < stretch.start {
        stretch.start = 0;
        stretch.end = 0;
        stretch.draws.state = u64::from(stretch.count);
    }
    while stretch.end <= k {
        draw_next(stretch);
    }
}

// The state of a generator that draws command `k` next, where one in this state draws command `from`
// next.
fn state_after(state: u64, from: u32, k: u32) -> u64
    requires { from ≤ k }
    ensures { (n : ℕ) → state ≡ state_at n from → result ≡ state_at n k }
{
    let mut draws = Draws { state };
    for i in from..k {
        draws.form(i);
    }
    draws.state
}

// The state of the generator as it draws the command with this index, reached from the end of the
// stretch or from the first command.
#[cold]
#[inline(never)]
fn far_state(stretch: &Stretch, k: u32) -> u64
    requires { IsStretch stretch.now }
    ensures { result ≡ state_at stretch.now.count k }
{
    if k < stretch.end {
        return state_after(u64::from(stretch.count), 0, k);
    }
    state_after(stretch.draws.state, stretch.end, k)
}

// The form of the command with this index, from 0 on.
#[inline(always)]
fn form_of(stretch: &Stretch, k: u32) -> Form
    requires stretch { IsStretch stretch.now }
    requires within { k < stretch.now.count }
    ensures { narrow result ≡ get_or (made_trace stretch.now.count) k Gc }
{
    if k < stretch.start || stretch.end <= k {
        let mut draws = Draws {
            state: far_state(stretch, k),
        };
        return draws.form(k);
    }
    stretch.drawn[(k - stretch.start) as usize]
}

impl MadeCommands {
    /// No command.
    pub(crate) fn none(alloc: Global) -> MadeCommands
        ensures { result ≡ [] }
    {
        MadeCommands {
            stretch: Stretch {
                count: 0,
                start: 0,
                end: 0,
                drawn: Vec::new(alloc),
                draws: Draws { state: 0 },
            },
        }
    }

    /// The made trace of `count` commands.
    ///
    /// Fails if memory runs out.
    pub(crate) fn new(alloc: Global, count: u32) -> Result<MadeCommands, AllocError>
        ensures { IfOk result (λ m. m ≡ made_trace count) }
    {
        let mut drawn = Vec::with_capacity(alloc, STRETCH as usize)?;
        for _ in 0..STRETCH {
            drawn.push(NO_COMMAND)?;
        }
        Ok(MadeCommands {
            stretch: Stretch {
                count,
                start: 0,
                end: 0,
                drawn,
                draws: Draws {
                    state: u64::from(count),
                },
            },
        })
    }

    /// The number of commands.
    #[inline(always)]
    pub(crate) fn len(&self) -> usize
        ensures count { result ≡ length self.now }
        ensures small { result < 2 ^ 32 }
    {
        self.stretch.count as usize
    }

    /// Draws the command with this index and some after it, if a stretch begins with it.
    #[inline(always)]
    pub(crate) fn prepare(&mut self, k: usize)
        ensures { self.new ≡ self.old }
    {
        if k % STRETCH as usize == 0 {
            self.draw_from(k);
        }
    }

    // Draws the command with this index, unless it is drawn.
    #[cold]
    #[inline(never)]
    fn draw_from(&mut self, k: usize)
        ensures { self.new ≡ self.old }
    {
        if k >= self.stretch.count as usize {
            return;
        }
        let k = k as u32;
        if k < self.stretch.start || self.stretch.end <= k {
            draw_around(&mut self.stretch, k);
        }
    }

    /// The command with this index, from 0 on, `gc` if there are fewer. One that was not prepared
    /// takes as long as all before it.
    #[inline(always)]
    pub(crate) fn command(&self, k: usize) -> Command
        ensures { result ≡ get_or self.now k Gc }
    {
        if k >= self.stretch.count as usize {
            return Command::Gc;
        }
        form_of(&self.stretch, k as u32).command()
    }
}
