//! The words of the command line.

ghost use Rattle.std.specs.Prelude.{◌≡◌, ◌∷◌, [], option_map};
ghost use Rattle.command_line.specs.Orders.{texts};
ghost use Rattle.command_line.specs.Words.{bounded_numeral, is_file as names_file};
ghost use Rattle.heap_picture.specs.Asked.{after_names as asked_after_names, after_number as asked_after_number, asked_by, asked_seen, of_file as asked_of_file};

use ideal_heap::MAX_MUTATORS;
use trace_text::read_numeral;

/// What the command line asks for: a file, and the mutator whose objects are marked.
#[derive(Clone, Copy, Drop)]
pub(crate) struct Asked<'a> {
    pub(crate) file: &'a str,
    pub(crate) names: Option<u32>,
}

// Whether the word is the name of a file.
fn is_file(word: &str) -> bool
    ensures { result ≡ names_file word.now }
{
    !word.is_empty() && !word.starts_with('-')
}

// The number of a mutator.
fn mutator_in(word: &str) -> Option<u32>
    ensures { result ≡ bounded_numeral 1 MAX_MUTATORS word.now }
{
    let number = read_numeral(word.as_bytes(), u64::from(MAX_MUTATORS)).ok()?;
    if number < 1 {
        None
    } else {
        Some(number as u32)
    }
}

// What a word asks for, if it is the name of a file.
fn of_file<'a>(word: &'a str, names: Option<u32>) -> Option<Asked<'a>>
    ensures { option_map asked_seen result ≡ asked_of_file word.now names }
{
    if is_file(word) {
        Some(Asked { file: word, names })
    } else {
        None
    }
}

// What the option and a file ask for.
fn after_names<'a>(option: &str, file: &'a str, names: Option<u32>) -> Option<Asked<'a>>
    ensures { option_map asked_seen result ≡ asked_after_names option.now file.now names }
{
    if names.is_none() || option != "--names" {
        return None;
    }
    of_file(file, names)
}

// What an option, a number and the words after them ask for.
fn after_number<'a>(option: &str, number: &str, words: &'a [String]) -> Option<Asked<'a>>
    ensures { option_map asked_seen result
        ≡ asked_after_number option.now number.now (texts words.now) }
{
    let (file, rest) = words.split_first()?;
    if !rest.is_empty() {
        return None;
    }
    after_names(option, file.as_str(), mutator_in(number))
}

/// What the arguments after the program's name ask for. `None` if they do not match the usage.
pub(crate) fn read_asked<'a>(words: &'a [String]) -> Option<Asked<'a>>
    ensures { option_map asked_seen result ≡ asked_by (texts words.now) }
{
    let (first, rest) = words.split_first()?;
    match rest.split_first() {
        None => of_file(first.as_str(), None),
        Some((second, others)) => after_number(first.as_str(), second.as_str(), others),
    }
}
