//! Bytes and numerals, appended to a vector that has the capacity for them.

ghost use Rattle.std.specs.Prelude.{◌≡◌, ◌+◌, ◌/◌, ◌%◌, ◌^◌, ◌<◌, ◌≤◌, ◌++◌, ◌∷◌, [], List, ℕ, length, vec_len, vec_capacity};
ghost use Rattle.std.specs.Fmt.{decimal};

// The most decimal digits of a 64-bit number.
pub(crate) const MAX_DIGITS: usize = 20;

// The two digits of each number below 100.
const PAIRS: &[u8] =
    b"00010203040506070809101112131415161718192021222324252627282930313233343536373839\
    40414243444546474849505152535455565758596061626364656667686970717273747576777879\
    8081828384858687888990919293949596979899";

// Appends a short text, byte by byte.
#[inline(always)]
pub(crate) fn put(text: &[u8], to: &mut Vec<u8>)
    requires { vec_len to.old + length text.now ≤ vec_capacity to.old }
    ensures items { to.new.items ≡ to.old.items ++ text.now }
    ensures len { vec_len to.new ≡ vec_len to.old + length text.now }
    ensures capacity { vec_capacity to.old ≤ vec_capacity to.new }
{
    for b in text {
        to.push_reserved(*b);
    }
}

// Appends a digit.
#[inline(always)]
fn put_digit(number: u64, to: &mut Vec<u8>)
    requires digit { number < 10 }
    requires room { vec_len to.old + 1 ≤ vec_capacity to.old }
    ensures items { to.new.items ≡ to.old.items ++ (48 + number) ∷ [] }
    ensures len { vec_len to.new ≡ vec_len to.old + 1 }
    ensures capacity { vec_capacity to.old ≤ vec_capacity to.new }
{
    to.push_reserved(b'0' + number as u8);
}

// Appends two digits, the first of which may be 0.
#[inline(always)]
fn put_pair(number: u64, to: &mut Vec<u8>)
    requires pair { number < 100 }
    requires room { vec_len to.old + 2 ≤ vec_capacity to.old }
    ensures items { to.new.items ≡ to.old.items
        ++ (48 + number / 10) ∷ (48 + number % 10) ∷ [] }
    ensures len { vec_len to.new ≡ vec_len to.old + 2 }
    ensures capacity { vec_capacity to.old ≤ vec_capacity to.new }
{
    let at = 2 * number as usize;
    to.push_reserved(PAIRS[at]);
    to.push_reserved(PAIRS[at + 1]);
}

// Appends the numeral of a number below 100.
#[inline(always)]
#[tactic(auto, using(crate::proofs::DigitLemmas::numerals_by_digits))]
fn put_short(number: u64, to: &mut Vec<u8>)
    requires short { number < 100 }
    requires room { vec_len to.old + 2 ≤ vec_capacity to.old }
    ensures items { to.new.items ≡ to.old.items ++ decimal number }
    ensures len { vec_len to.new ≤ vec_len to.old + 2 }
    ensures capacity { vec_capacity to.old ≤ vec_capacity to.new }
{
    if number < 10 {
        put_digit(number, to);
    } else {
        put_pair(number, to);
    }
}

// Appends the numeral of a number below 10,000.
#[inline(always)]
fn put_small(number: u64, to: &mut Vec<u8>)
    requires small { number < 10000 }
    requires room { vec_len to.old + 4 ≤ vec_capacity to.old }
    ensures items { to.new.items ≡ to.old.items ++ decimal number }
    ensures len { vec_len to.new ≤ vec_len to.old + 4 }
    ensures capacity { vec_capacity to.old ≤ vec_capacity to.new }
{
    if number < 100 {
        put_short(number, to);
    } else {
        put_short(number / 100, to);
        put_pair(number % 100, to);
    }
}

// Appends the numeral of a number below 1,000,000.
#[inline(always)]
fn put_medium(number: u64, to: &mut Vec<u8>)
    requires medium { number < 1000000 }
    requires room { vec_len to.old + 6 ≤ vec_capacity to.old }
    ensures items { to.new.items ≡ to.old.items ++ decimal number }
    ensures len { vec_len to.new ≤ vec_len to.old + 6 }
    ensures capacity { vec_capacity to.old ≤ vec_capacity to.new }
{
    if number < 100 {
        put_short(number, to);
    } else {
        put_small(number / 100, to);
        put_pair(number % 100, to);
    }
}

// Appends the last four digits of a number, before which its other digits stand.
#[inline(always)]
fn put_last_four(number: u64, to: &mut Vec<u8>)
    requires least { 1000000 ≤ number }
    requires room { vec_len to.old + 4 ≤ vec_capacity to.old }
    ensures items { (front : List ℕ) → to.old.items ≡ front ++ decimal (number / 10000)
        → to.new.items ≡ front ++ decimal number }
    ensures len { vec_len to.new ≡ vec_len to.old + 4 }
    ensures capacity { vec_capacity to.old ≤ vec_capacity to.new }
{
    put_pair(number / 100 % 100, to);
    put_pair(number % 100, to);
}

// Appends all digits of a number but the last four.
#[inline(always)]
fn put_first(number: u64, to: &mut Vec<u8>)
    requires least { 1000000 ≤ number }
    requires room { vec_len to.old + 16 ≤ vec_capacity to.old }
    ensures items { to.new.items ≡ to.old.items ++ decimal (number / 10000) }
    ensures len { vec_len to.new ≤ vec_len to.old + 16 }
    ensures capacity { vec_capacity to.old ≤ vec_capacity to.new }
{
    if number < 10_000_000_000 {
        put_medium(number / 10_000, to);
    } else if number < 100_000_000_000_000 {
        put_medium(number / 100_000_000, to);
        put_last_four(number / 10_000, to);
    } else if number < 1_000_000_000_000_000_000 {
        put_medium(number / 1_000_000_000_000, to);
        put_last_four(number / 100_000_000, to);
        put_last_four(number / 10_000, to);
    } else {
        put_small(number / 10_000_000_000_000_000, to);
        put_last_four(number / 1_000_000_000_000, to);
        put_last_four(number / 100_000_000, to);
        put_last_four(number / 10_000, to);
    }
}

// Appends the numeral of a number from 1,000,000 on.
#[inline(always)]
fn put_long(number: u64, to: &mut Vec<u8>)
    requires least { 1000000 ≤ number }
    requires room { vec_len to.old + MAX_DIGITS ≤ vec_capacity to.old }
    ensures items { to.new.items ≡ to.old.items ++ decimal number }
    ensures len { vec_len to.new ≤ vec_len to.old + MAX_DIGITS }
    ensures capacity { vec_capacity to.old ≤ vec_capacity to.new }
{
    put_first(number, to);
    put_last_four(number, to);
}

// Appends the numeral of a number.
#[inline(always)]
pub(crate) fn put_decimal(number: u64, to: &mut Vec<u8>)
    requires room { vec_len to.old + MAX_DIGITS ≤ vec_capacity to.old }
    ensures items { to.new.items ≡ to.old.items ++ decimal number }
    ensures len { vec_len to.new ≤ vec_len to.old + MAX_DIGITS }
    ensures capacity { vec_capacity to.old ≤ vec_capacity to.new }
{
    if number < 1_000_000 {
        put_medium(number, to);
    } else {
        put_long(number, to);
    }
}
