//! The lines of a run's text, read: words, each with a number after it.

ghost use Rattle.std.specs.Prelude.{◌≡◌, ◌≤◌, ◌++◌, length, drop, IfSome, option_map};
ghost use Rattle.std.specs.List.{position_or_len};
ghost use Rattle.heap_picture.specs.Forms.{LARGE, is_no_digit, is_plain_reply as says_plain, is_numbered_reply as says_number, kinds_in as kinds_of_line, name_in as name_of_line, ref_in as other_of_line, number_after as number_behind, number_first as number_at_first, one_number as number_on_line, place_in as place_of_line, reply_in as reply_of_line, two_numbers as numbers_on_line};
ghost use Rattle.heap_picture.specs.Reading.{numbered};

use trace_text::read_numeral;

/// The two numbers of a line.
#[derive(Clone, Copy, Debug, PartialEq, Eq)]
pub(crate) struct Pair {
    pub(crate) first: u64,
    pub(crate) second: u64,
}

/// How many blocks there are of each kind.
#[derive(Clone, Copy, Debug, PartialEq, Eq)]
pub struct KindCounts {
    pub free: u64,
    pub bump: u64,
    pub young: u64,
    pub mature: u64,
    pub immix: u64,
    pub cells: u64,
    /// Heads and tails of runs.
    pub large: u64,
    pub kept: u64,
}

/// Where an object lies: `size` words from word `word` of block `block` on. Its name is the number
/// of its mutator and that of its birth.
#[derive(Clone, Copy, Debug, PartialEq, Eq)]
pub struct Place {
    pub mutator: u32,
    pub birth: u32,
    pub block: u32,
    pub word: u32,
    pub size: u32,
}

// The number of digits that the text begins with.
fn digits_first(text: &[u8]) -> usize
    ensures place { result ≡ position_or_len is_no_digit text.now }
    ensures within { result ≤ length text.now }
{
    for (k, b) in text.iter().enumerate() {
        if !b.is_ascii_digit() {
            return k;
        }
    }
    text.len()
}

// The number, of at most `most`, whose numeral the text begins with, and the text after it.
fn number_first(most: u64, text: &[u8]) -> Option<(u64, &[u8])>
    ensures number { option_map numbered result ≡ number_at_first most text.now }
    ensures most { IfSome result (λ x. x.0 ≤ most) }
{
    let end = digits_first(text);
    match read_numeral(&text[..end], most) {
        Ok(number) => Some((number, &text[end..])),
        Err(_) => None,
    }
}

// The number, of at most `most`, after the word that the text begins with, and the text after that.
fn number_after<'a>(word: &[u8], most: u64, text: &'a [u8]) -> Option<(u64, &'a [u8])>
    ensures number { option_map numbered result ≡ number_behind word.now most text.now }
    ensures most { IfSome result (λ x. x.0 ≤ most) }
{
    if !text.starts_with(word) {
        return None;
    }
    number_first(most, &text[word.len()..])
}

// The number, of at most `most`, on a line of a word and a number.
fn number_alone(word: &[u8], most: u64, line: &[u8]) -> Option<u64>
    ensures number { result ≡ number_on_line word.now most line.now }
    ensures most { IfSome result (λ n. n ≤ most) }
{
    let (number, rest) = number_after(word, most, line)?;
    if rest.len() == 0 { Some(number) } else { None }
}

// The numbers, of at most `most`, on a line of two words, each with a number.
fn numbers_alone(word: &[u8], other: &[u8], most: u64, line: &[u8]) -> Option<Pair>
    ensures numbers { result ≡ numbers_on_line word.now other.now most line.now }
    ensures most { IfSome result (λ x. (x.first ≤ most) × (x.second ≤ most)) }
{
    let (first, rest) = number_after(word, most, line)?;
    let second = number_alone(other, most, rest)?;
    Some(Pair { first, second })
}

/// The number on a line of a word and a number.
pub(crate) fn one_number(word: &[u8], line: &[u8]) -> Option<u64>
    ensures { result ≡ number_on_line word.now LARGE line.now }
{
    number_alone(word, u64::MAX, line)
}

/// The numbers on a line of two words, each with a number.
pub(crate) fn two_numbers(word: &[u8], other: &[u8], line: &[u8]) -> Option<Pair>
    ensures { result ≡ numbers_on_line word.now other.now LARGE line.now }
{
    numbers_alone(word, other, u64::MAX, line)
}

/// Where an object lies, from its line of the map.
pub(crate) fn place_in(line: &[u8]) -> Option<Place>
    ensures { result ≡ place_of_line line.now }
{
    let most = u64::from(u32::MAX);
    let (mutator, rest) = number_after(b"map ", most, line)?;
    let (birth, rest) = number_after(b".", most, rest)?;
    let (block, rest) = number_after(b" block ", most, rest)?;
    let part = numbers_alone(b" word ", b" size ", most, rest)?;
    Some(Place {
        mutator: mutator as u32,
        birth: birth as u32,
        block: block as u32,
        word: part.first as u32,
        size: part.second as u32,
    })
}

// How many blocks there are of each kind, from the line of kinds.
pub(crate) fn kinds_in(line: &[u8]) -> Option<KindCounts>
    ensures { result ≡ kinds_of_line line.now }
{
    let (free, rest) = number_after(b"kinds free ", u64::MAX, line)?;
    let (bump, rest) = number_after(b" bump ", u64::MAX, rest)?;
    let (young, rest) = number_after(b" young ", u64::MAX, rest)?;
    let (mature, rest) = number_after(b" mature ", u64::MAX, rest)?;
    let (immix, rest) = number_after(b" immix ", u64::MAX, rest)?;
    let (cells, rest) = number_after(b" cells ", u64::MAX, rest)?;
    let ends = two_numbers(b" large ", b" kept ", rest)?;
    Some(KindCounts {
        free,
        bump,
        young,
        mature,
        immix,
        cells,
        large: ends.first,
        kept: ends.second,
    })
}

// Whether the line is a reply of one word, other than `full`.
fn is_plain_reply(line: &[u8]) -> bool
    ensures { result ≡ says_plain line.now }
{
    line == b"nil".as_slice()
        || line == b"ok".as_slice()
        || line == b"yes".as_slice()
        || line == b"no".as_slice()
        || line == b"null".as_slice()
        || line == b"range".as_slice()
}

/// The name in a `new` reply.
pub(crate) fn name_in(line: &[u8]) -> Option<Pair>
    ensures { result ≡ name_of_line line.now }
{
    two_numbers(b"new ", b".", line)
}

/// The name in a `ref` reply.
pub(crate) fn ref_in(line: &[u8]) -> Option<Pair>
    ensures { result ≡ other_of_line line.now }
{
    two_numbers(b"ref ", b".", line)
}

// Whether the line is a reply with a name or a number.
fn is_numbered_reply(line: &[u8]) -> bool
    ensures { result ≡ says_number line.now }
{
    name_in(line).is_some() || ref_in(line).is_some() || one_number(b"num ", line).is_some()
}

// Whether the line is a reply, and if so, whether it says that the heap is full.
pub(crate) fn reply_in(line: &[u8]) -> Option<bool>
    ensures { result ≡ reply_of_line line.now }
{
    if line == b"full".as_slice() {
        Some(true)
    } else if is_plain_reply(line) || is_numbered_reply(line) {
        Some(false)
    } else {
        None
    }
}
