//! Lines and words of bytes.
ghost use Rattle.std.specs.Prelude.{◌≡◌, ℕ, Bool, MatchOption, IfOk, IfErr};
ghost use Rattle.std.specs.Iterator.{YieldsFirstRef, item_count};
ghost use Rattle.orders.specs.Texts.{is_blank, Tests, IsCut, line_in, after_line, lines_in, uncommented, unblanked, LacksWord, IsFirstWord, at_end, only_word, Reads};

use crate::error::Why;

// A carriage return is a blank, so that it may end a line.
fn is_blank(byte: u8) -> bool
    ensures { result ≡ is_blank byte }
{
    matches!(byte, b' ' | b'\t' | b'\r')
}

// A text before its first byte at which to stop, and from there on.
fn split_before<F: FnMut(&u8) -> bool>(text: &[u8], stops: F) -> (&[u8], &[u8])
    requires { F.IsAlwaysCallable stops }
    ensures { (p : ℕ → Bool) → Tests F.FnMut stops p → IsCut p text.now result.0.now result.1.now }
{
    text.split_at(text.iter().position(stops).unwrap_or(text.len()))
}

// The first line of a text, and what follows its end.
#[tactic(auto, using(crate::proofs::Cuts::line_ends), unfolding(crate::specs::Texts::line_in, crate::specs::Texts::after_line))]
fn split_line(text: &[u8]) -> (&[u8], &[u8])
    ensures line { result.0.now ≡ line_in text.now }
    ensures rest { result.1.now ≡ after_line text.now }
{
    let (line, rest) = split_before(text, |byte| *byte == b'\n');
    match rest {
        [_, after @ ..] => (line, after),
        [] => (line, rest),
    }
}

/// The lines of a text, one after another.
// Those of `split_inclusive` would keep their line feeds.
#[derive(Drop)]
pub(crate) struct Lines<'a>(pub &'a [u8]);

impl<'a> Iterator for Lines<'a> {
    type Item = &'a [u8];

    ghost next_gives = { YieldsFirstRef (λ s. lines_in s.0.now) };

    ghost remaining = { item_count (λ s. lines_in s.0.now) };

    #[tactic(auto, using(crate::proofs::Lines::lines_split))]
    fn next(&mut self) -> Option<&'a [u8]> {
        if self.0.is_empty() {
            return None;
        }
        let (line, rest) = split_line(self.0);
        self.0 = rest;
        Some(line)
    }
}

/// A line up to its comment.
#[tactic(auto, unfolding(crate::specs::Texts::uncommented))]
pub(crate) fn without_comment(line: &[u8]) -> &[u8]
    ensures { result.now ≡ uncommented line.now }
{
    split_before(line, |byte| *byte == b'#').0
}

/// A text from its first byte on that is no blank.
#[tactic(auto, unfolding(crate::specs::Texts::unblanked))]
pub(crate) fn skip_blanks(text: &[u8]) -> &[u8]
    ensures { result.now ≡ unblanked text.now }
{
    split_before(text, |byte| !is_blank(*byte)).1
}

/// The first word of a text, if it has one, and what follows it.
#[tactic(auto, unfolding(crate::specs::Texts::word_in, crate::specs::Texts::after_word))]
pub(crate) fn split_word(text: &[u8]) -> Option<(&[u8], &[u8])>
    ensures { MatchOption result (LacksWord text.now) (λ p. IsFirstWord text.now p.0.now p.1.now) }
{
    let (word, rest) = split_before(skip_blanks(text), |byte| is_blank(*byte));
    (!word.is_empty()).then_some((word, rest))
}

/// The first word of a text, which it has to have, and what follows it.
pub(crate) fn expect_word(text: &[u8]) -> Result<(&[u8], &[u8]), Why>
    ensures word { IfOk result (λ p. IsFirstWord text.now p.0.now p.1.now) }
    ensures missing { IfErr result (λ why. (why ≡ Why.MissingWord) × LacksWord text.now) }
{
    split_word(text).ok_or(Why::MissingWord)
}

/// Refuses a text that has a word.
#[tactic(auto, unfolding(crate::specs::Texts::at_end))]
pub(crate) fn expect_end(text: &[u8]) -> Result<(), Why>
    ensures { result ≡ at_end text.now tt }
{
    if skip_blanks(text).is_empty() {
        Ok(())
    } else {
        Err(Why::ExtraWord)
    }
}

/// The only word of a text.
#[tactic(auto, unfolding(crate::specs::Texts::only_word, crate::specs::Texts::at_end))]
pub(crate) fn only_word(text: &[u8]) -> Result<&[u8], Why>
    ensures { Reads (λ x. x.now) result (only_word text.now) }
{
    let (word, rest) = expect_word(text)?;
    expect_end(rest)?;
    Ok(word)
}
