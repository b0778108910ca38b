//! Bytes in hex.
ghost use Rattle.std.specs.Prelude.{◌≡◌, vec_items};
ghost use Rattle.orders.specs.Texts.{ReadsInto};
ghost use Rattle.orders.specs.Hexes.{hex_digit, hex_pair, pairs_read, hex_read};

use crate::error::Why;
use crate::text::{expect_end, expect_word, skip_blanks};
use std::alloc::Global;

// What a hex digit of either case stands for.
fn hex_digit(byte: u8) -> Option<u32>
    ensures { result ≡ hex_digit byte }
{
    char::from(byte).to_digit(16)
}

fn hex_pair(high: u8, low: u8) -> Option<u8>
    ensures { result ≡ hex_pair high low }
{
    Some((hex_digit(high)? * 16 + hex_digit(low)?) as u8)
}

// The bytes that pairs of hex digits spell, with blanks between pairs or none.
#[tactic(auto, using(crate::proofs::Pairs::pairs_end))]
fn read_pairs(heap: Global, text: &[u8]) -> Result<Vec<u8>, Why>
    ensures { ReadsInto vec_items result (pairs_read text.now) }
{
    let mut bytes = Vec::new(heap);
    let mut rest = skip_blanks(text);
    // Blanks may stand between pairs, so no `chunks` of the text are the pairs.
    while let [high, low, after @ ..] = rest {
        let byte = hex_pair(*high, *low).ok_or(Why::NotHex)?;
        bytes.push(byte)?;
        rest = skip_blanks(after);
    }
    if rest.is_empty() {
        Ok(bytes)
    } else {
        Err(Why::NotHex)
    }
}

/// The bytes that the rest of a line spells in hex; `-` alone spells none.
#[tactic(auto, unfolding(crate::specs::Hexes::hex_read, crate::specs::Texts::at_end))]
pub(crate) fn read_hex(heap: Global, text: &[u8]) -> Result<Vec<u8>, Why>
    ensures { ReadsInto vec_items result (hex_read text.now) }
{
    let (word, rest) = expect_word(text)?;
    if word == b"-".as_slice() {
        expect_end(rest)?;
        return Ok(Vec::new(heap));
    }
    read_pairs(heap, text)
}
