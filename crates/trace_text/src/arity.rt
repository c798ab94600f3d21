//! The words after a command's word, checked for their number.

ghost use Rattle.std.specs.Prelude.{◌≡◌, ◌∷◌, [], MatchResult};
ghost use Rattle.trace_text.specs.declared.fault.Why.TheVariants as why;
ghost use Rattle.trace_text.specs.Parts.{words_after, IsCountFault};

use crate::fault::Why;
use crate::splitter::next_part;

// Checks that there are no words.
#[tactic(auto, using(crate::proofs::PartLemmas::not_none))]
pub(crate) fn none(words: Option<&[u8]>) -> Result<(), Why>
    ensures { MatchResult result
        (λ x. words_after words.entry ≡ [])
        (λ e. IsCountFault 0 (words_after words.entry) e) }
{
    match words {
        None => Ok(()),
        Some(_) => Err(Why::Count),
    }
}

// The first word, and the rest.
fn next(words: Option<&[u8]>) -> Result<(&[u8], Option<&[u8]>), Why>
    ensures { MatchResult result
        (λ x. words_after words.entry ≡ x.0.now ∷ words_after x.1)
        (λ e. (e ≡ why.Count) × (words_after words.entry ≡ [])) }
{
    match words {
        None => Err(Why::Count),
        Some(bytes) => Ok(next_part(bytes, b' ')),
    }
}

// Checks that there is one word, and returns it.
pub(crate) fn one(words: Option<&[u8]>) -> Result<&[u8], Why>
    ensures { MatchResult result
        (λ x. words_after words.entry ≡ x.now ∷ [])
        (λ e. IsCountFault 1 (words_after words.entry) e) }
{
    let (first, others) = next(words)?;
    none(others)?;
    Ok(first)
}

// Checks that there are two words, and returns them.
pub(crate) fn two(words: Option<&[u8]>) -> Result<(&[u8], &[u8]), Why>
    ensures { MatchResult result
        (λ x. words_after words.entry ≡ x.0.now ∷ x.1.now ∷ [])
        (λ e. IsCountFault 2 (words_after words.entry) e) }
{
    let (first, others) = next(words)?;
    Ok((first, one(others)?))
}

// Checks that there are three words, and returns them.
pub(crate) fn three(words: Option<&[u8]>) -> Result<(&[u8], &[u8], &[u8]), Why>
    ensures { MatchResult result
        (λ x. words_after words.entry ≡ x.0.now ∷ x.1.now ∷ x.2.now ∷ [])
        (λ e. IsCountFault 3 (words_after words.entry) e) }
{
    let (first, others) = next(words)?;
    let (second, third) = two(others)?;
    Ok((first, second, third))
}

// Checks that there are four words, and returns them.
pub(crate) fn four(words: Option<&[u8]>) -> Result<(&[u8], &[u8], &[u8], &[u8]), Why>
    ensures { MatchResult result
        (λ x. words_after words.entry ≡ x.0.now ∷ x.1.now ∷ x.2.now ∷ x.3.now ∷ [])
        (λ e. IsCountFault 4 (words_after words.entry) e) }
{
    let (first, others) = next(words)?;
    let (second, third, fourth) = three(others)?;
    Ok((first, second, third, fourth))
}
