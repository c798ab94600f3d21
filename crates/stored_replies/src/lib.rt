//! Replies as they are kept: a byte is written for each, and 8 more for a number, or for a name
//! that is not the next after the last new one. A `Reply` takes 16.
#![tactic(auto)]

mod iter;
mod reply_kind;
mod stored_replies;

pub use iter::Iter;
pub use reply_kind::{KINDS, ReplyKind};
pub use stored_replies::StoredReplies;
