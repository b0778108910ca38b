//! Decimal numbers.
ghost use Rattle.std.specs.Prelude.{◌≡◌, ℕ, ◌+◌, ◌*◌, ◌^◌, ◌<◌, Ok, decimal};
ghost use Rattle.std.specs.Option.{SomeIff};
ghost use Rattle.orders.specs.Numbers.{is_numeral, number_read};

use crate::error::Why;

fn is_numeral(word: &[u8]) -> bool
    ensures { result ≡ is_numeral word.now }
{
    !word.is_empty() && word.iter().all(|byte| byte.is_ascii_digit())
}

// The number with one more digit after its last, where that fits.
fn with_digit(number: u64, digit: u8) -> Option<u64>
    ensures { SomeIff result (number * 10 + digit < 2 ^ 64) (number * 10 + digit) }
{
    number.checked_mul(10)?.checked_add(u64::from(digit))
}

/// The number that a word spells: of a number that was printed, that number.
pub(crate) fn read_number(word: &[u8]) -> Result<u64, Why>
    ensures value { result ≡ number_read word.now }
    ensures back { (n : ℕ) → n < 2 ^ 64 → word.now ≡ decimal n → result ≡ Ok n }
{
    if !is_numeral(word) {
        return Err(Why::NotNumber);
    }
    // By hand: `from_str_radix` takes text, and with it a table of nodes takes nearly twice the time.
    let mut number = 0;
    for byte in word {
        number = with_digit(number, *byte - b'0').ok_or(Why::NumberTooLarge)?;
    }
    Ok(number)
}
