//! The tokens of the objects that were logged before a nursery collection.

ghost use Rattle.std.specs.Prelude.{◌≡◌, ◌<◌, true, false, [], All, IfOk, IfErr, map};
ghost use Rattle.object_model.specs.Objects.{IsHeld};
ghost use Rattle.object_model.specs.declared.collect.Collect.TheVariants.{Full};
ghost use Rattle.trace_core.specs.Views.{hits};
ghost use Rattle.trace_words.specs.Shares.{gives_scan};
ghost use Rattle.trace_table.specs.Seats.{IsTable, IsGrey, setup_at};
ghost use Rattle.trace_table.specs.Ends.{left_share, SameTrace, SameTable};

use crate::table::TraceTable;
use crate::tokens::Grey;
use object_model::size_words;
use std::alloc::{AllocError, Global};
use std::marker::Brand;
use trace_words::{About, give_scan};

impl TraceTable {
    /// The tokens of the logged objects, by address, at the first `Ok`. Then none, and in a full
    /// collection none.
    ///
    /// Fails if memory runs out.
    pub fn take_logged(&mut self, alloc: Global) -> Result<Vec<Grey>, AllocError>
        requires table { IsTable self.old }
        requires left { self.old.keeper.me ≡ (left_share self.old, []) }
        ensures table { IsTable self.new }
        ensures left { self.new.keeper.me ≡ (left_share self.new, []) }
        ensures same { SameTrace self.old self.new }
        ensures first { IfOk result (λ tokens. self.old.logged_taken ≡ false
            → map (λ token. token.object) tokens.items ≡ self.old.run.logged.items) }
        ensures later { IfOk result (λ tokens. self.old.logged_taken ≡ true
            → tokens.items ≡ []) }
        ensures full { IfOk result (λ tokens. self.old.run.collect ≡ Full
            → tokens.items ≡ []) }
        ensures rights { IfOk result (λ tokens. All (IsGrey self.new) tokens.items) }
        ensures taken { IfOk result (λ tokens. self.new.logged_taken ≡ true) }
        ensures failed { IfErr result (λ e. self.new.logged_taken ≡ self.old.logged_taken) }
        ensures globals { self.new.globals_taken ≡ self.old.globals_taken }
    {
        if self.logged_taken {
            return Ok(Vec::new(alloc));
        }
        let count = self.run.logged.len();
        let mut tokens = Vec::with_capacity(alloc, count)?;
        for place in 0..count {
            let object = self.run.logged[place];
            let token = self.logged_token::<Brand>(object);
            tokens.push_reserved(token);
        }
        self.logged_taken = true;
        Ok(tokens)
    }

    /// The token of a logged object, which stays where it is.
    fn logged_token<C: About>(&mut self, x: u32) -> Grey
        requires about { (setup_at self.old ≡ C.setup) × (x ≡ C.object) × (x ≡ C.target) }
        requires table { IsTable self.old }
        requires held { IsHeld C.setup.before C.object }
        requires right { (0 < hits C.object 0 self.old.keeper.me.0.grey)
            × (0 < hits C.object C.target self.old.keeper.me.0.known) }
        ensures table { IsTable self.new }
        ensures same { SameTable self.old self.new }
        ensures keeper { self.new.keeper.me
            ≡ (gives_scan x self.old.keeper.me.0, self.old.keeper.me.1) }
        ensures token { IsGrey self.new result }
        ensures object { result.object ≡ x }
    {
        let shared = &self.row;
        let mut seat = give_scan::<C>(&shared.words, &mut self.keeper);
        let shape = self.shape::<C>(&mut seat, x);
        Grey {
            seat,
            object: x,
            target: x,
            size: size_words(&shape),
            refs: shape.refs,
        }
    }
}
