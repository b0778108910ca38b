ghost use Rattle.std.specs.Prelude.{◌≡◌, ℕ, ◌+◌, ◌*◌, ◌^◌, ◌<◌, ◌≤◌, List, ◌++◌, length, take, drop};
ghost use Rattle.std.specs.Option.{ok_or};
ghost use Rattle.layout.specs.declared.fault.Refusal.TheVariants.{KindOrSize};
ghost use Rattle.layout.specs.Numbers.{wide, width_of, le, unle, signed, SignedFits, twos};
ghost use Rattle.layout.specs.Spelling.{SpellingLaws, unsigned_laws, signed_laws};

use crate::fault::Refusal;
use std::array;

/// How many bytes a number has.
#[derive(Clone, Copy, Debug, PartialEq, Eq, Hash)]
pub enum Width {
    One = 1,
    Two = 2,
    Four = 4,
    Eight = 8,
}

/// The width of so many bytes. Only a key's size asks for one, so that size is what is refused.
impl TryFrom<u64> for Width {
    type Error = Refusal;

    ghost try_from_gives = { λ bytes width. width ≡ ok_or (width_of bytes) KindOrSize };

    // No derive makes an enum of a number.
    fn try_from(bytes: u64) -> Result<Width, Refusal> {
        match bytes {
            1 => Ok(Width::One),
            2 => Ok(Width::Two),
            4 => Ok(Width::Four),
            8 => Ok(Width::Eight),
            _ => Err(Refusal::KindOrSize),
        }
    }
}

impl Width {
    pub fn bytes(self) -> usize
        ensures { result ≡ wide self }
    {
        self as usize
    }

    /// The least unsigned number that is below 0 as a signed one of this width.
    pub fn half(self) -> u64
        ensures { 2 * result ≡ 256 ^ wide self }
    {
        match self {
            Width::One => 0x80,
            Width::Two => 0x8000,
            Width::Four => 0x8000_0000,
            Width::Eight => 0x8000_0000_0000_0000,
        }
    }
}

/// A number that bytes spell, the lowest first: an unsigned one as it is, a signed one in two's complement.
pub trait Number: Copy {
    // The number that bytes spell.
    ghost spelled: { List ℕ → Self };

    // The w bytes that spell a number which w bytes can spell.
    ghost spelling: { ℕ → Self → List ℕ };

    ghost Fits: { ℕ → Self → Type 0 };

    // What each `impl` must prove.
    ghost laws: { SpellingLaws spelled spelling Fits };

    /// The number whose bytes, so many, spell `low` as an unsigned one.
    fn from_low(low: u64, width: Width) -> Self
        requires { low < 256 ^ wide width }
        ensures { (bytes : List ℕ) → length bytes ≡ wide width → low ≡ unle bytes → result ≡ spelled bytes };

    /// An unsigned number with the same low bytes.
    fn low(self) -> u64
        ensures { (w : Width) → Fits (wide w) self → le (wide w) result ≡ spelling (wide w) self };
}

impl Number for u64 {
    ghost spelled = { unle };

    ghost spelling = { le };

    ghost Fits = { λ w n. n < 256 ^ w };

    ghost laws = { unsigned_laws };

    fn from_low(low: u64, _width: Width) -> u64 {
        low
    }

    fn low(self) -> u64 {
        // It is unsigned already.
        self
    }
}

impl Number for i64 {
    ghost spelled = { signed };

    ghost spelling = { λ w z. le w (twos w z) };

    ghost Fits = { SignedFits };

    ghost laws = { signed_laws };

    fn from_low(low: u64, width: Width) -> i64 {
        let half = width.half();
        if low < half {
            low.cast_signed()
        } else {
            // It stands for low - 256 ^ width, which is below 0.
            low.wrapping_sub(half).wrapping_sub(half).cast_signed()
        }
    }

    fn low(self) -> u64 {
        self.cast_unsigned()
    }
}

// The first bytes, as many as the type of the answer has.
fn front<const N: usize>(bytes: &[u8]) -> [u8; N]
    requires { N ≤ length bytes.now }
    ensures { result ≡ take N bytes.now }
{
    // By index, since `first_chunk` would test at each read that the bytes are there.
    array::from_fn(|k| bytes[k])
}

// The unsigned number at the front.
fn read_low(bytes: &[u8], width: Width) -> u64
    requires { wide width ≤ length bytes.now }
    ensures value { result ≡ unle (take (wide width) bytes.now) }
    ensures fits { result < 256 ^ wide width }
{
    match width {
        Width::One => u64::from(bytes[0]),
        Width::Two => u64::from(u16::from_le_bytes(front(bytes))),
        Width::Four => u64::from(u32::from_le_bytes(front(bytes))),
        Width::Eight => u64::from_le_bytes(front(bytes)),
    }
}

/// The number at the front of the bytes.
pub fn read<N: Number>(bytes: &[u8], width: Width) -> N
    requires { wide width ≤ length bytes.now }
    ensures { result ≡ N.spelled (take (wide width) bytes.now) }
{
    N::from_low(read_low(bytes, width), width)
}

/// Writes a number at the front of the bytes; no other byte changes.
pub fn write<N: Number>(out: &mut [u8], width: Width, value: N)
    requires within { wide width ≤ length out.old }
    requires fits { N.Fits (wide width) value }
    ensures after { out.new ≡ N.spelling (wide width) value ++ drop (wide width) out.old }
    ensures back { N.spelled (take (wide width) out.new) ≡ value }
{
    let n = width.bytes();
    let spelled = value.low().to_le_bytes();
    out[..n].copy_from_slice(&spelled[..n]);
}
