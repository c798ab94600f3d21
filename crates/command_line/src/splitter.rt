//! The words of the command line, split into settings and files.

ghost use Rattle.std.specs.Prelude.{◌≡◌, ◌<◌, ◌∷◌, [], map, length, nat_eq, IfOk, IsTrue, MatchOption, None, Some, option_map, is_some, string_bytes};
ghost use Rattle.std.specs.List.{list_all};
ghost use Rattle.command_line.specs.Words.{are_single, at_equals as split_at_equals, split_line, has_dash as begins_with_dash, in_one_word as read_one_word, in_two_words as read_two_words, is_file as names_file, only_files, takes_value as has_value, value_of as find_value, with_setting};
ghost use Rattle.command_line.specs.Orders.{line_in, setting_in, texts};

use std::alloc::{AllocError, Global};

// A setting: an option that is given, and its value. The value of `--map` is empty.
#[derive(Clone, Copy, Drop)]
pub(crate) struct Pair<'a> {
    name: &'a str,
    value: &'a str,
}

// The settings and the files.
#[derive(Drop)]
pub(crate) struct Parts<'a> {
    pub(crate) settings: Vec<Pair<'a>>,
    pub(crate) files: &'a [String],
}

// Whether the word begins with `-`.
fn has_dash(word: &str) -> bool
    ensures { result ≡ begins_with_dash word.now }
{
    word.starts_with('-')
}

// Whether the word is the name of a file.
fn is_file(word: &str) -> bool
    ensures { result ≡ names_file word.now }
{
    !word.is_empty() && !has_dash(word)
}

// Whether every word is the name of a file.
fn are_files(words: &[String]) -> bool
    ensures { result ≡ list_all names_file (texts words.now) }
{
    for word in words {
        if !is_file(word.as_str()) {
            return false;
        }
    }
    true
}

// Whether this is an option that takes a value.
fn takes_value(name: &str) -> bool
    ensures { result ≡ has_value name.now }
{
    name == "--plan" || name == "--heap" || name == "--workers" || name == "--make"
}

// The word, split at its first `=`.
fn at_equals<'a>(word: &'a str) -> Option<Pair<'a>>
    ensures { option_map setting_in result ≡ split_at_equals word.now }
{
    match word.split_once('=') {
        Some((name, value)) => Some(Pair { name, value }),
        None => None,
    }
}

// The setting of the word: `--map` or `--name=value`.
fn in_one_word<'a>(word: &'a str) -> Option<Pair<'a>>
    ensures { option_map setting_in result ≡ read_one_word word.now }
{
    if word == "--map" {
        return Some(Pair {
            name: word,
            value: "",
        });
    }
    match at_equals(word) {
        Some(pair) if takes_value(pair.name) => Some(pair),
        _ => None,
    }
}

// The setting of two words: `--name value`.
fn in_two_words<'a>(name: &'a str, value: &'a str) -> Option<Pair<'a>>
    ensures { option_map setting_in result ≡ read_two_words name.now value.now }
{
    if takes_value(name) && !has_dash(value) {
        Some(Pair { name, value })
    } else {
        None
    }
}

// The first setting, and the words after it. `None` if the words do not begin with a setting.
fn first_setting<'a>(words: &'a [String]) -> Option<(Pair<'a>, &'a [String])>
    ensures { MatchOption result (split_line (texts words.now) ≡ only_files (texts words.now))
        (λ x. (split_line (texts words.now) ≡ option_map (with_setting (setting_in x.0))
        (split_line (texts x.1.now))) × (length x.1.now < length words.now)) }
{
    let (word, rest) = words.split_first()?;
    if let Some(pair) = in_one_word(word.as_str()) {
        return Some((pair, rest));
    }
    let (next, remaining) = rest.split_first()?;
    let pair = in_two_words(word.as_str(), next.as_str())?;
    Some((pair, remaining))
}

// Splits the words into settings and files. `None` if a word is neither.
//
// Errors: out of memory.
#[tactic(auto, using(crate::proofs::Settings::with_more))]
pub(crate) fn split_words<'a>(
    alloc: Global,
    words: &'a [String],
) -> Result<Option<Parts<'a>>, AllocError>
    ensures { IfOk result (λ r. option_map line_in r ≡ split_line (texts words.now)) }
{
    let mut settings = Vec::new(alloc);
    let mut rest = words;
    while let Some((pair, remaining)) = first_setting(rest) {
        settings.push(pair)?;
        rest = remaining;
    }
    if !are_files(rest) {
        return Ok(None);
    }
    Ok(Some(Parts {
        settings,
        files: rest,
    }))
}

// The value of the first setting with this name.
pub(crate) fn value_of<'a>(settings: &[Pair<'a>], name: &str) -> Option<&'a str>
    ensures { option_map (λ v. v.now) result
        ≡ find_value name.now (map setting_in settings.now) }
{
    for pair in settings {
        if pair.name == name {
            return Some(pair.value);
        }
    }
    None
}

// Whether no option is given twice.
pub(crate) fn are_all_single<'a>(settings: &[Pair<'a>]) -> bool
    ensures { result ≡ are_single (map setting_in settings.now) }
{
    for (i, pair) in settings.iter().enumerate() {
        if value_of(&settings[i + 1..], pair.name).is_some() {
            return false;
        }
    }
    true
}
