//! The names that were asked for.

ghost use Rattle.std.specs.Prelude.{◌≡◌, ◌∷◌, ◌++◌, [], OnOk, OnErr};
ghost use Rattle.outside.specs.AskedNames.{names_in};

use std::alloc::AllocError;

// Appends a name, with the count of faults before it.
pub(crate) fn ask(asked: &mut Vec<(String, u64)>, name: &str, count: u64) -> Result<(), AllocError>
    ensures ok { OnOk result (names_in asked.new.items ≡ names_in asked.old.items
        ++ (name.now, count) ∷ []) }
    ensures failed { OnErr result (asked.new.items ≡ asked.old.items) }
{
    let own = String::from_str(*asked.allocator(), name)?;
    asked.push((own, count))?;
    Ok(())
}
