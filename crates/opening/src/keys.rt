//! The keys of a Dictionary.
ghost use Rattle.std.specs.Prelude.{◌≡◌};
ghost use Rattle.opening.specs.Slotted.{slot_count};

use crate::slots::Slots;
use layout::{BitSlice, WholeBytes};

/// Keys, which of them are valid, and what a valid one has to be below.
#[derive(Clone, Copy)]
pub(crate) struct Keys<'a> {
    pub slots: Slots<'a>,
    pub marks: BitSlice<'a>,
    pub bound: u64,
    ghost same: { marks.len ≡ slot_count slots },
}

impl Keys<'_> {
    ghost use Rattle.std.specs.Prelude.{ℕ, ◌+◌, ◌*◌, ◌%◌, ◌<◌, ◌≤◌};
    ghost use Rattle.layout.specs.Lists.{every};
    ghost use Rattle.opening.specs.Scans.{every_in};
    ghost use Rattle.opening.specs.KeyScans.{marked_below};

    /// Whether the valid ones are below the bound: row by row up to a whole byte of the bitmap, then eight rows at a time,
    /// then row by row again. A run that fails is the last.
    pub(crate) fn all_below(&self) -> bool
        ensures { result ≡ every self.now.marks.len (marked_below self.now) }
    {
        let parts = WholeBytes::among(self.marks.first, self.marks.len);
        self.row_by_row(0, parts.before)
            && self.byte_by_byte(parts.before, parts.bytes)
            && self.row_by_row(parts.before + 8 * parts.bytes, parts.after)
    }

    // The same for so many rows, from one on, row by row.
    fn row_by_row(&self, from: u64, rows: u64) -> bool
        requires { from + rows ≤ self.now.marks.len }
        ensures { result ≡ every_in rows (λ k. marked_below self.now (from + k)) }
    {
        (0..rows).fold(true, |ok, k| {
            ok & (!self.marks.is_set(from + k) | (self.slots.number(from + k) < self.bound))
        })
    }

    // The same for the rows of so many bytes of the bitmap, the first of which starts at row `from`.
    fn byte_by_byte(&self, from: u64, bytes: u64) -> bool
        requires whole { 0 < bytes → (self.now.marks.first + from) % 8 ≡ 0 }
        requires within { from + 8 * bytes ≤ self.now.marks.len }
        ensures { result ≡ every_in bytes (λ j. every 8 (λ t. marked_below self.now (from + 8 * j + t))) }
    {
        (0..bytes).fold(true, |ok, j| ok & self.eight_below(from + 8 * j))
    }

    // The same for the eight rows of a byte of the bitmap, the first of which is row `from`.
    fn eight_below(&self, from: u64) -> bool
        requires whole { (self.now.marks.first + from) % 8 ≡ 0 }
        requires within { from + 8 ≤ self.now.marks.len }
        ensures { result ≡ every 8 (λ t. marked_below self.now (from + t)) }
    {
        let byte = self.marks.bytes[((self.marks.first + from) / 8) as usize];
        self.slots.eight_not_below(from, self.bound) & byte == 0
    }
}
