//! The printer of replies. Each function appends one line to a text.

ghost use Rattle.std.specs.Prelude.{◌≡◌, ◌+◌, ◌≤◌, ◌++◌, OnOk, OnErr, codes, length, vec_len, vec_capacity};
ghost use Rattle.std.specs.Fmt.{decimal};
ghost use Rattle.trace_text.specs.Text.{reply_text, name_text, mutator_text, ended};

use crate::digits::{MAX_DIGITS, put, put_decimal};
use crate::limits::MAX_COMMANDS;
use ideal_heap::{Name, Reply};
use std::alloc::AllocError;
use std::mem;
use stored_replies::StoredReplies;

/// No reply's line has more bytes, with its newline.
pub const REPLY_BYTES: usize = 46;

// Appends the word, the name and a newline.
#[inline(always)]
fn put_name(word: &[u8], name: &Name, to: &mut Vec<u8>)
    requires room { vec_len to.old + length word.now + 42 ≤ vec_capacity to.old }
    ensures items { to.new.items ≡ to.old.items ++ ended (word.now ++ name_text name.now) }
    ensures len { vec_len to.new ≤ vec_len to.old + length word.now + 42 }
    ensures capacity { vec_capacity to.old ≤ vec_capacity to.new }
{
    put(word, to);
    put_decimal(u64::from(name.mutator), to);
    put(b".", to);
    put_decimal(u64::from(name.birth), to);
    put(b"\n", to);
}

// Appends the word, the numeral and a newline.
#[inline(always)]
fn put_number(word: &[u8], number: u64, to: &mut Vec<u8>)
    requires room { vec_len to.old + length word.now + 21 ≤ vec_capacity to.old }
    ensures items { to.new.items ≡ to.old.items ++ ended (word.now ++ decimal number) }
    ensures len { vec_len to.new ≤ vec_len to.old + length word.now + 21 }
    ensures capacity { vec_capacity to.old ≤ vec_capacity to.new }
{
    put(word, to);
    put_decimal(number, to);
    put(b"\n", to);
}

/// Appends the reply's line to a text that has the capacity for `REPLY_BYTES` more bytes.
#[inline(always)]
pub fn put_reply(reply: &Reply, to: &mut Vec<u8>)
    requires { vec_len to.old + REPLY_BYTES ≤ vec_capacity to.old }
    ensures items { to.new.items ≡ to.old.items ++ ended (reply_text reply.now) }
    ensures len { vec_len to.new ≤ vec_len to.old + REPLY_BYTES }
    ensures capacity { vec_capacity to.old ≤ vec_capacity to.new }
{
    match reply {
        Reply::New(name) => put_name(b"new ", name, to),
        Reply::Full => put(b"full\n", to),
        Reply::Ref(name) => put_name(b"ref ", name, to),
        Reply::Nil => put(b"nil\n", to),
        Reply::Num(number) => put_number(b"num ", *number, to),
        Reply::Done => put(b"ok\n", to),
        Reply::Yes => put(b"yes\n", to),
        Reply::No => put(b"no\n", to),
        Reply::Null => put(b"null\n", to),
        Reply::Range => put(b"range\n", to),
    }
}

/// Appends the reply's line.
///
/// Errors: out of memory; the text is then unchanged.
pub fn print_reply(reply: &Reply, to: &mut Vec<u8>) -> Result<(), AllocError>
    ensures ok { OnOk result (to.new.items ≡ to.old.items ++ ended (reply_text reply.now)) }
    ensures same { OnErr result (to.new.items ≡ to.old.items) }
{
    to.reserve(REPLY_BYTES)?;
    put_reply(reply, to);
    Ok(())
}

/// Appends the numeral of a number.
///
/// Errors: out of memory; the text is then unchanged.
#[inline(always)]
pub fn print_decimal(number: u64, to: &mut Vec<u8>) -> Result<(), AllocError>
    ensures ok { OnOk result (to.new.items ≡ to.old.items ++ decimal number) }
    ensures same { OnErr result (to.new.items ≡ to.old.items) }
{
    to.reserve(MAX_DIGITS)?;
    put_decimal(number, to);
    Ok(())
}

/// Appends the line that precedes the replies of a mutator, `mutator` and its number, to a text
/// that has the capacity for `REPLY_BYTES` more bytes.
pub fn put_mutator(mutator: u32, to: &mut Vec<u8>)
    requires { vec_len to.old + REPLY_BYTES ≤ vec_capacity to.old }
    ensures items { to.new.items ≡ to.old.items ++ ended (codes "mutator " ++ decimal mutator) }
    ensures len { vec_len to.new ≤ vec_len to.old + REPLY_BYTES }
    ensures capacity { vec_capacity to.old ≤ vec_capacity to.new }
{
    put_number(b"mutator ", u64::from(mutator), to);
}

/// Appends the line that precedes the replies of a mutator.
///
/// Errors: out of memory; the text is then unchanged.
pub fn print_mutator(mutator: u32, to: &mut Vec<u8>) -> Result<(), AllocError>
    ensures ok { OnOk result (to.new.items ≡ to.old.items
        ++ ended (codes "mutator " ++ decimal mutator)) }
    ensures same { OnErr result (to.new.items ≡ to.old.items) }
{
    to.reserve(REPLY_BYTES)?;
    put_mutator(mutator, to);
    Ok(())
}

/// Appends the line of a mutator, and those of its replies.
///
/// Errors: out of memory.
pub fn print_replies(
    mutator: u32,
    replies: &StoredReplies,
    to: &mut Vec<u8>,
) -> Result<(), AllocError>
    requires { length replies.now.items ≤ MAX_COMMANDS }
    ensures { OnOk result (to.new.items ≡ to.old.items
        ++ mutator_text mutator replies.now.items) }
{
    print_mutator(mutator, to)?;
    to.reserve(REPLY_BYTES * replies.len())?;
    // In a local, which the loop keeps in registers.
    let alloc = *to.allocator();
    let mut text = mem::replace(to, Vec::new(alloc));
    for reply in replies.iter() {
        put_reply(&reply, &mut text);
    }
    *to = text;
    Ok(())
}
