//! Texts, split into lines.

ghost use Rattle.std.specs.Prelude.{◌≡◌, ◌<◌, ◌∷◌, [], length, MatchOption, IfSome};
ghost use Rattle.trace_text.specs.Grammar.{parts_at};

// The text before the first newline, and the text after it. `None` if there is no newline.
pub(crate) fn first_line(text: &[u8]) -> Option<(&[u8], &[u8])>
    ensures parts { MatchOption result (parts_at 10 text.now ≡ text.now ∷ [])
        (λ x. parts_at 10 text.now ≡ x.0.now ∷ parts_at 10 x.1.now) }
    ensures shorter { IfSome result (λ x. length x.1.now < length text.now) }
{
    for (k, b) in text.iter().enumerate() {
        if *b == b'\n' {
            return Some((&text[..k], &text[k + 1..]));
        }
    }
    None
}
