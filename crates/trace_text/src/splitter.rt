//! Texts, split into lines and words.

ghost use Rattle.std.specs.Prelude.{◌≡◌, ◌<◌, ◌∷◌, [], length, IfSome, MatchOption};
ghost use Rattle.trace_text.specs.Grammar.{lines_of, parts_at};
ghost use Rattle.trace_text.specs.Parts.{parts_after};

// The bytes before the first `at`, and those after it. `None` if there is no such byte.
pub(crate) fn next_part(bytes: &[u8], at: u8) -> (&[u8], Option<&[u8]>)
    ensures parts { parts_at at bytes.now ≡ result.0.now ∷ parts_after at result.1 }
    ensures shorter { IfSome result.1 (λ rest. length rest.now < length bytes.now) }
{
    for (k, b) in bytes.iter().enumerate() {
        if *b == at {
            return (&bytes[..k], Some(&bytes[k + 1..]));
        }
    }
    (bytes, None)
}

// The first line, and the text after its newline. `None` if the text is empty.
pub(crate) fn next_line(bytes: &[u8]) -> Option<(&[u8], &[u8])>
    ensures lines { MatchOption result (lines_of bytes.now ≡ [])
        (λ x. lines_of bytes.now ≡ x.0.now ∷ lines_of x.1.now) }
    ensures shorter { IfSome result (λ x. length x.1.now < length bytes.now) }
{
    if bytes.is_empty() {
        return None;
    }
    let (line, remaining) = next_part(bytes, b'\n');
    match remaining {
        Some(rest) => Some((line, rest)),
        None => Some((line, &[])),
    }
}
