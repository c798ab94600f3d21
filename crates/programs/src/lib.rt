//! Laws for programs that use a managed heap: what each command does to the numbers, references and
//! lists that the program's registers hold.
//!
//! They speak of an ideal heap, so of names and not of addresses: a collection changes nothing of
//! what they say.
#![tactic(auto)]

mod accesses;
mod counts;
mod examples;
mod failures;
mod footprints;
mod growth;
mod histories;
mod lists;
mod registers;

pub use accesses::{gets_and_puts, new_objects, numbers_change, reads};
pub use counts::{births_are_counted, pins_are_kept};
pub use examples::{history_examples, list_examples, number_examples, object_examples};
pub use failures::{accesses_fail, replies_show};
pub use footprints::{commands_leave_the_rest, new_objects_are_new};
pub use growth::heaps_grow;
pub use histories::entries_are_steps;
pub use lists::{elements_are_linked, lists_are_passed_on, lists_stay, pops_and_pushes};
pub use registers::{objects_are_passed_on, registers_are_copied};
