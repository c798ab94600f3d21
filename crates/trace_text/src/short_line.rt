//! A line that is too long to be good, shortened to one with the same fault.

ghost use Rattle.std.specs.Prelude.{◌≡◌, ◌≢◌, ◌<◌, ◌⊎◌, true, false, ℕ, List, ◌∷◌, ◌++◌, [], OnOk, IfOk, IsTrue};
ghost use Rattle.std.specs.Char.{is_ascii_digit};
ghost use Rattle.trace_text.specs.Shortening.{IsShort, StandsFor};

use std::alloc::{AllocError, Global};

// A line with so many words has too many for every command.
const MANY_WORDS: usize = 16;

// A word with so many bytes is no command and no good argument.
const LONG_WORD: usize = 24;

/// The bytes that are kept of a line as it is read: those on which its fault depends.
#[derive(Debug, Drop)]
pub(crate) struct ShortLine {
    bytes: Vec<u8>,
    // The words that a space has ended.
    words: usize,
    // The bytes of the last word, and whether one after the first is no digit.
    last: usize,
    is_spoiled: bool,
}

impl ShortLine {
    /// No byte.
    fn new(alloc: Global) -> ShortLine
        ensures { IsShort [] result }
    {
        ShortLine {
            bytes: Vec::new(alloc),
            words: 0,
            last: 0,
            is_spoiled: false,
        }
    }

    // Whether the last word is spoiled with this byte.
    fn is_spoiled_by(&self, byte: u8) -> bool
        ensures { IsTrue result → (self.now.is_spoiled ≡ true)
            ⊎ ((0 < self.now.last) × (is_ascii_digit byte ≡ false)) }
    {
        if self.last == 0 || byte.is_ascii_digit() {
            return self.is_spoiled;
        }
        true
    }

    // Whether the line keeps its fault without this byte: it has too many words, or the byte goes
    // on in a word that is too long, of which it is a digit more or which is no number.
    fn may_lose(&self, byte: u8) -> bool
        requires { byte ≢ 10 }
        ensures { IsTrue result → (line : List ℕ) → IsShort line self.now
            → IsShort (line ++ byte ∷ []) self.now }
    {
        if self.words >= MANY_WORDS {
            return true;
        }
        if byte == b' ' || self.last < LONG_WORD {
            return false;
        }
        self.is_spoiled || byte.is_ascii_digit()
    }

    /// Adds a byte of the line, unless its fault does not depend on the byte.
    fn add(&mut self, byte: u8) -> Result<(), AllocError>
        requires { byte ≢ 10 }
        ensures { OnOk result ((line : List ℕ) → IsShort line self.old
            → IsShort (line ++ byte ∷ []) self.new) }
    {
        if self.may_lose(byte) {
            return Ok(());
        }
        self.bytes.push(byte)?;
        if byte == b' ' {
            self.words = self.words.saturating_add(1);
            self.last = 0;
            self.is_spoiled = false;
            return Ok(());
        }
        self.is_spoiled = self.is_spoiled_by(byte);
        self.last = self.last.saturating_add(1);
        Ok(())
    }
}

/// A shorter line with the same fault, whatever follows: of at most 16 words of 25 bytes, if the
/// line has no newline.
pub(crate) fn shortened(alloc: Global, line: &[u8]) -> Result<Vec<u8>, AllocError>
    ensures { IfOk result (λ short. StandsFor line.now short.items) }
{
    let mut short = ShortLine::new(alloc);
    for byte in line {
        if *byte == b'\n' {
            return line.to_vec(alloc);
        }
        short.add(*byte)?;
    }
    Ok(short.bytes)
}
