//! Looks that a worker takes ahead of a scan, and at what it copied.

ghost use Rattle.std.specs.Prelude.{◌≡◌, ◌≤◌, length};
ghost use Rattle.trace_words.specs.Steps.{CopiesHeldOnce};
ghost use Rattle.trace_table.specs.Seats.{IsTable, IsSeat, IsGrey, setup_at};
ghost use Rattle.trace_table.specs.declared.looking.TheConstants.{MOST_AHEAD};

use crate::table::{TraceTable, WorkerSeat};
use crate::tokens::Grey;
use object_model::HEADER_WORDS;
use std::marker::Brand;
use trace_words::look_at_copies;

// The index of the word that is loaded to learn something of the seat.
const ANY_WORD: usize = 0;

/// At how many objects a worker looks ahead of a packet at most.
pub const MOST_AHEAD: usize = 512;

impl TraceTable {
    /// Loads a word, which shows that the objects that a worker copied are different ones.
    pub fn look_at_copies(&self, seat: &mut WorkerSeat)
        requires table { IsTable self.now }
        requires seat { IsSeat self.now seat.old }
        ensures seat { IsSeat self.now seat.new }
        ensures same { seat.new.seat.me ≡ seat.old.seat.me }
        ensures copies { CopiesHeldOnce (setup_at self.now) seat.old.seat.me.0 }
    {
        look_at_copies::<Brand>(&self.row.words, &mut seat.seat, ANY_WORD);
    }

    /// Loads the fields of an object and notes them after the first `count` places, as far as there
    /// is room. The answer is how many are noted then.
    #[inline(always)]
    pub fn note_fields(&self, grey: &Grey, ahead: &mut [u64; MOST_AHEAD], count: usize) -> usize
        requires table { IsTable self.now }
        requires grey { IsGrey self.now grey.now }
        requires len { length ahead.old ≡ MOST_AHEAD }
        requires room { count ≤ MOST_AHEAD }
        ensures len { length ahead.new ≡ MOST_AHEAD }
        ensures room { result ≤ MOST_AHEAD }
    {
        let fields = grey.target as usize + HEADER_WORDS as usize;
        let more = (grey.refs as usize).min(MOST_AHEAD - count);
        for k in 0..more {
            ahead[count + k] = self.row.words.peek(fields + k);
        }
        count + more
    }

    /// Loads the first and the last of the words for which a claim and a scan wait soonest, of the
    /// first `count` noted objects: their headers and two fields. The loads wait for memory
    /// together, those of the scans in turn. They show nothing.
    pub fn look_at_noted(&self, ahead: &[u64; MOST_AHEAD], count: usize)
        requires table { IsTable self.now }
        requires len { length ahead.now ≡ MOST_AHEAD }
        requires noted { count ≤ MOST_AHEAD }
    {
        let last = HEADER_WORDS as usize + 1;
        let end = (self.layout.words() as usize).saturating_sub(last);
        for k in 0..count {
            let x = ahead[k];
            if x < end as u64 {
                self.row.words.peek(x as usize);
                self.row.words.peek(x as usize + last);
            }
        }
    }
}
