//! What the slots of a node hold. A scan looks at every number and leaves at the end, so that it compiles to vectors.
ghost use Rattle.std.specs.Prelude.{◌≡◌, ◌%◌, length};
ghost use Rattle.layout.specs.Numbers.{wide};

use layout::{Width, read};

/// Numbers of one width, one after another, which fill the bytes.
// `recording` finds a number in the same way, but from what its types keep, where these rest on rules just tested.
#[derive(Clone, Copy)]
pub(crate) struct Slots<'a> {
    pub bytes: &'a [u8],
    pub width: Width,
    ghost filled: { length bytes.now % wide width ≡ 0 },
}

impl Slots<'_> {
    ghost use Rattle.std.specs.Prelude.{◌+◌, ◌-◌, ◌<◌, ◌≤◌, nat_le, nat_lt};
    ghost use Rattle.std.specs.List.{fold, range_with_len};
    ghost use Rattle.opening.specs.Slotted.{slot_count, slot_number};
    ghost use Rattle.opening.specs.Scans.{every_in, flagged};

    /// How many they are.
    pub(crate) fn count(&self) -> u64
        ensures { result ≡ slot_count self.now }
    {
        (self.bytes.len() / self.width.bytes()) as u64
    }

    /// The number in slot k.
    pub(crate) fn number(&self, k: u64) -> u64
        requires { k < slot_count self.now }
        ensures { result ≡ slot_number self.now k }
    {
        let at = k * self.width.bytes() as u64;
        read(&self.bytes[at as usize..], self.width)
    }

    /// Whether no number is less than the one before it.
    pub(crate) fn rises(&self) -> bool
        ensures { result ≡ every_in (slot_count self.now - 1)
            (λ k. nat_le (slot_number self.now k) (slot_number self.now (k + 1))) }
    {
        (0..self.count().saturating_sub(1)).fold(
            true,
            |ok, k| ok & (self.number(k) <= self.number(k + 1)),
        )
    }

    /// Whether every number is below a bound.
    pub(crate) fn all_below(&self, bound: u64) -> bool
        ensures { result ≡ every_in (slot_count self.now) (λ k. nat_lt (slot_number self.now k) bound) }
    {
        (0..self.count()).fold(true, |ok, k| ok & (self.number(k) < bound))
    }

    /// A bit for each of eight numbers, from slot `first` on: 1 where it is not below the bound.
    pub(crate) fn eight_not_below(&self, first: u64, bound: u64) -> u8
        requires { first + 8 ≤ slot_count self.now }
        ensures { result ≡ fold (flagged (λ t. nat_le bound (slot_number self.now (first + t)))) 0 (range_with_len 0 8) }
    {
        (0..8).fold(0, |over, t| {
            over | u8::from(self.number(first + t) >= bound) << (t as u32)
        })
    }
}
