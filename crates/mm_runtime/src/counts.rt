//! Counts over the replies of a manager, and the registers of its mutators.
//!
//! `driver` prints them at the end of a session. Nothing here is written.

ghost use Rattle.std.specs.Prelude.{◌≡◌, ℕ, length, count_by, IfOk};
ghost use Rattle.mm_runtime.specs.Prelude.{Setting, Moment, Closes, ClosesSome, IsInOrder, replied, is_full, roots_of, heap_state, AreRoots};

use crate::manager::Manager;
use managed_heap::all_registers;
use plan_api::Plan;
use std::alloc::AllocError;

impl<P: Plan> Manager<P> {
    /// The number of commands that have replies.
    pub fn commands(&self) -> usize
        requires { IsInOrder P.rules 0 self.now }
        ensures count { result ≡ replied self.now.progress.items }
        ensures session { (t : Setting) (now : Moment) → Closes P.rules self.now t now
            → result ≡ length now.done }
    {
        let mut count = 0;
        for progress in &self.progress {
            count += progress.replies.len();
        }
        count
    }

    /// The number of replies `full`.
    pub fn refusals(&self) -> usize
        requires { IsInOrder P.rules 0 self.now }
        ensures { (t : Setting) (now : Moment) → Closes P.rules self.now t now
            → result ≡ count_by (λ e. is_full e.reply) now.done }
    {
        let mut count = 0;
        for progress in &self.progress {
            count += progress.replies.fulls();
        }
        count
    }

    /// The registers, mutator by mutator: addresses, or 0 for nil. Fails if memory runs out.
    pub fn registers(&self) -> Result<Vec<u32>, AllocError>
        requires { ClosesSome P.rules self.now }
        ensures roots { IfOk result (λ v. AreRoots (heap_state self.now.heap.heap) v.items) }
        ensures session { (t : Setting) (now : Moment) → Closes P.rules self.now t now
            → IfOk result (λ v. v.items ≡ roots_of now.mutators) }
    {
        all_registers(self.alloc, self.heap.mutators())
    }
}
