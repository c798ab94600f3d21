//! Stored replies, one after another.

ghost use Rattle.std.specs.Prelude.{◌≡◌};
ghost use Rattle.ideal_heap.specs.Names.{name};
ghost use Rattle.stored_replies.specs.Kinds.{unpacked, HasParts};

use crate::reply_kind::{NO_NAME, ReplyKind, next_after};
use ideal_heap::{Name, Reply};
use std::marker::Model;

/// The replies that are left to read. Clauses see the list.
#[derive(Debug, Drop)]
pub struct Iter<'a> {
    // The name in the last `new` that was read.
    last: Name,
    kinds: &'a [ReplyKind],
    names: &'a [Name],
    numbers: &'a [u64],
}

impl<'a> Model for Iter<'a> {
    ghost use Rattle.std.specs.Prelude.{List};
    ghost use Rattle.ideal_heap.specs.declared.reply.Reply.{Reply};
    ghost use Rattle.stored_replies.specs.Kinds.{unpacked, HasParts};

    ghost Value = { List Reply };

    ghost view = { λ s. unpacked s.last s.kinds.now s.names.now s.numbers.now };

    ghost invariant = { λ s. HasParts s.kinds.now s.names.now s.numbers.now };
}

impl<'a> Iter<'a> {
    /// The replies of these kinds, whose names and numbers are these.
    #[inline(always)]
    pub(crate) fn new(kinds: &'a [ReplyKind], names: &'a [Name], numbers: &'a [u64]) -> Iter<'a>
        requires { HasParts kinds.now names.now numbers.now }
        ensures { result ≡ unpacked (name 0 0) kinds.now names.now numbers.now }
    {
        Iter {
            last: NO_NAME,
            kinds,
            names,
            numbers,
        }
    }
}

impl<'a> Iterator for Iter<'a> {
    ghost use Rattle.std.specs.Iterator.{YieldsFirst, item_count};

    type Item = Reply;

    ghost next_gives = { YieldsFirst (λ s. s) };

    ghost remaining = { item_count (λ s. s) };

    #[inline(always)]
    fn next(&mut self) -> Option<Reply> {
        let (kind, kinds) = self.kinds.split_first()?;
        self.kinds = kinds;
        Some(match kind {
            ReplyKind::New => {
                let (name, names) = self.names.split_first().unwrap();
                self.names = names;
                self.last = *name;
                Reply::New(*name)
            }
            ReplyKind::Next => {
                self.last = next_after(self.last);
                Reply::New(self.last)
            }
            ReplyKind::Full => Reply::Full,
            ReplyKind::Ref => {
                let (name, names) = self.names.split_first().unwrap();
                self.names = names;
                Reply::Ref(*name)
            }
            ReplyKind::Nil => Reply::Nil,
            ReplyKind::Num => {
                let (number, numbers) = self.numbers.split_first().unwrap();
                self.numbers = numbers;
                Reply::Num(*number)
            }
            ReplyKind::Done => Reply::Done,
            ReplyKind::Yes => Reply::Yes,
            ReplyKind::No => Reply::No,
            ReplyKind::Null => Reply::Null,
            ReplyKind::Range => Reply::Range,
        })
    }
}
