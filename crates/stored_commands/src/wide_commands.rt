//! The commands of a trace that do not fit into 4 bytes.

ghost use Rattle.std.specs.Prelude.{◌≡◌, ◌<◌, ◌≤◌, ◌^◌, ◌++◌, ◌∷◌, [], None, length, get_or, OnOk};
ghost use Rattle.ideal_heap.specs.declared.command.Command.TheVariants.{Gc};
ghost use Rattle.stored_commands.specs.Forms.{command_in, index_in};

use crate::form::{Form, Op};
use crate::packed_command::form_of;
use ideal_heap::Command;
use std::alloc::{AllocError, Global};
use std::marker::Model;

/// A list of commands. One with narrow numbers takes 8 bytes, and any other 40: 8 in its place, and
/// 32 in a list beside it. Clauses see it as the list.
#[derive(Debug, Drop)]
pub(crate) struct WideCommands {
    forms: Vec<Form>,
    // The commands whose numbers are not narrow.
    others: Vec<Command>,
}

impl Model for WideCommands {
    ghost use Rattle.std.specs.Prelude.{List, All, length, map};
    ghost use Rattle.ideal_heap.specs.declared.command.Command.{Command};
    ghost use Rattle.stored_commands.specs.Forms.{command_in, IsWithin};

    ghost Value = { List Command };

    ghost view = { λ t. map (command_in t.others.items) t.forms.items };

    ghost invariant = { λ t. All (IsWithin (length t.others.items)) t.forms.items };
}

impl WideCommands {
    /// No command.
    pub(crate) fn new(alloc: Global) -> WideCommands
        ensures { result ≡ [] }
    {
        WideCommands {
            forms: Vec::new(alloc),
            others: Vec::new(alloc),
        }
    }

    /// The number of commands.
    #[inline(always)]
    pub(crate) fn len(&self) -> usize
        ensures count { result ≡ length self.now }
        ensures small { result < 2 ^ 62 }
    {
        let forms = self.forms.as_slice();
        // So many bytes are a number.
        let _bytes = size_of_val(forms);
        forms.len()
    }

    // Adds a command in full.
    fn push_whole(&mut self, command: Command) -> Result<(), AllocError>
        ensures added { OnOk result (self.new ≡ self.old ++ command ∷ []) }
        ensures kept { length self.old ≤ length self.new }
    {
        let Ok(index) = u32::try_from(self.others.len()) else {
            return Err(AllocError);
        };
        self.others.push(command)?;
        self.forms.push(Form {
            op: Op::Other,
            a: 0,
            b: 0,
            c: index,
        })?;
        Ok(())
    }

    /// Forgets all commands.
    pub(crate) fn clear(&mut self)
        ensures { self.new ≡ [] }
    {
        self.forms.clear();
        self.others.clear();
    }

    /// Adds the command that a form stands for.
    #[inline(always)]
    pub(crate) fn push_form(&mut self, form: Form) -> Result<(), AllocError>
        requires { index_in form ≡ None }
        ensures added { OnOk result (self.new ≡ self.old ++ command_in [] form ∷ []) }
        ensures kept { length self.old ≤ length self.new }
    {
        self.forms.push(form)?;
        Ok(())
    }

    /// Adds a command.
    ///
    /// Fails if memory runs out, or if the numbers of 2 ^ 32 commands are not narrow.
    pub(crate) fn push(&mut self, command: Command) -> Result<(), AllocError>
        ensures added { OnOk result (self.new ≡ self.old ++ command ∷ []) }
        ensures kept { length self.old ≤ length self.new }
    {
        match form_of(&command) {
            Some(form) => self.push_form(form),
            None => self.push_whole(command),
        }
    }

    /// The command with this index, from 0 on, `gc` if there are fewer.
    #[inline(always)]
    pub(crate) fn command(&self, k: usize) -> Command
        ensures { result ≡ get_or self.now k Gc }
    {
        let Some(form) = self.forms.get(k) else {
            return Command::Gc;
        };
        if let Op::Other = form.op {
            return self.others[form.c as usize];
        }
        form.command()
    }
}
