ghost use Rattle.std.specs.Prelude.{◌≡◌, ◌+◌, ◌≤◌, nat_lt};
ghost use Rattle.layout.specs.Bits.{zeros};
ghost use Rattle.layout.specs.BitSlices.{bits_in};
ghost use Rattle.recording.specs.NodeRefs.{numbers_of};

use crate::node::{NodeRef, slot_place};
use crate::rows::Rows;
use crate::runs::Run;
use crate::windows::Windows;
use layout::{BitSlice, Kind};

/// So many rows of a node, from a row on, inside the rows that the node has. Only a recording, a node,
/// a row and a window make one.
#[derive(Clone, Copy, Debug, PartialEq, Eq)]
pub struct Window<'a> {
    pub(crate) node: NodeRef<'a>,
    pub(crate) first: u64,
    pub(crate) rows: u64,
    ghost inside: { first + rows ≤ (numbers_of node).rows },
}

impl<'a> Window<'a> {
    ghost use Rattle.std.specs.Prelude.{◌*◌, ◌<◌, ◌⊎◌, All, length};
    ghost use Rattle.layout.specs.Numbers.{wide};
    ghost use Rattle.layout.specs.Messages.{own_field};
    ghost use Rattle.layout.specs.Rules.{Is, HasOffsets};
    ghost use Rattle.layout.specs.Shown.{below};
    ghost use Rattle.layout.specs.Windows.{shown_in, shown_side, rows_at};
    ghost use Rattle.layout.specs.declared.number.Width.{Width};
    ghost use Rattle.recording.specs.Contents.{IsRun, TellValid, AreFlags, slots_of, AreOffsets, AreStrings};
    ghost use Rattle.recording.specs.Passing.{IsChild, IsPassed, ArePassed, AreContents, windows_left, ArePassedEach, IsSmaller, IsAfter};
    ghost use Rattle.recording.specs.RowPlaces.{rows_left, rows_of_window};
    ghost use Rattle.recording.specs.Windows.{window_in, HasStrings, HasElements};

    /// The node that it is of.
    pub fn node(&self) -> NodeRef<'a>
        ensures { result ≡ self.now.node }
    {
        self.node
    }

    /// The row of the node that is the window's first.
    pub fn first(&self) -> u64
        ensures { result ≡ self.now.first }
    {
        self.first
    }

    /// How many rows it has.
    pub fn rows(&self) -> u64
        ensures { result ≡ self.now.rows }
    {
        self.rows
    }

    /// Its rows, one after another.
    pub fn iter(&self) -> Rows<'a>
        ensures { rows_left result ≡ rows_of_window self.now }
    {
        Rows {
            node: self.node,
            left: self.first..self.first + self.rows,
        }
    }

    /// So many of its rows, from one of them on.
    pub fn part(&self, from: u64, rows: u64) -> Window<'a>
        requires { from + rows ≤ self.now.rows }
        ensures { window_in result ≡ rows_at (window_in self.now) self.now.node.index (self.now.first + from) rows }
    {
        Window {
            node: self.node,
            first: self.first + from,
            rows,
        }
    }

    /// The rows from one on that are valid, or null, as that one is.
    pub fn run_from(&self, from: u64) -> Run
        requires { from < self.now.rows }
        ensures { IsRun (window_in self.now) from result }
    {
        let left = self.rows - from;
        let Some(marks) = self.marks() else {
            let valid = self.node.kind().has_bitmap();
            return Run { valid, rows: left };
        };
        let marks = marks.part(from, left);
        let valid = marks.is_set(0);
        let rows = marks.count_leading(valid);
        Run { valid, rows }
    }

    /// A bit for each row, which is 1 where the row is valid, if the node has a bitmap. Else every row is valid, but of a
    /// Null no row is.
    pub fn marks(&self) -> Option<BitSlice<'a>>
        ensures { TellValid self.now result }
    {
        if !self.node.kind().has_bitmap() {
            return None;
        }
        let marks = self.node.marks()?;
        Some(marks.part(self.first, self.rows))
    }

    /// The bits of a Boolean.
    pub fn bits(&self) -> BitSlice<'a>
        requires { Is (numbers_of self.now.node) Kind.Boolean }
        ensures { AreFlags self.now result }
    {
        self.node.flags().part(self.first, self.rows)
    }

    /// The values of a Fixed or the keys of a Dictionary, one after another.
    pub fn slots(&self) -> &'a [u8]
        requires { Is (numbers_of self.now.node) Kind.Fixed
            ⊎ Is (numbers_of self.now.node) Kind.Dictionary }
        ensures { result.now ≡ slots_of self.now }
    {
        let node = self.node.node();
        let start = slot_place(node, self.first, node.size);
        let end = slot_place(node, self.first + self.rows, node.size);
        &self.node.recording.bytes[start..end]
    }

    /// The offsets of a Bytes or a List as they stand, one for each row and one more.
    pub fn offset_slots(&self) -> &'a [u8]
        requires { (w : Width) × HasOffsets (numbers_of self.now.node) w }
        ensures value { AreOffsets self.now result.now }
        ensures long { (w : Width) → HasOffsets (numbers_of self.now.node) w
            → length result.now ≡ (self.now.rows + 1) * wide w }
    {
        let width = self.node.offsets().width.bytes() as u64;
        let start = slot_place(self.node.node(), self.first, width);
        let end = start + ((self.rows + 1) * width) as usize;
        &self.node.recording.bytes[start..end]
    }

    /// The byte strings of a Bytes, one after another.
    pub fn strings(&self) -> &'a [u8]
        requires { (w : Width) × HasStrings (numbers_of self.now.node) w }
        ensures { AreStrings self.now result.now }
    {
        let (first, count) = self.contents();
        let start = self.node.node().data + first;
        &self.node.recording.bytes[start as usize..(start + count) as usize]
    }

    /// The elements of a List's rows: rows of its child.
    pub fn elements(&self) -> Window<'a>
        requires { (w : Width) × HasElements (numbers_of self.now.node) w }
        ensures rows { IsPassed self.now (self.now.node.index + 1) result }
        ensures smaller { IsSmaller self.now (window_in result) }
    {
        self.passed_to(self.node.child())
    }

    /// The values of a Dictionary: all rows of its child.
    pub fn values(&self) -> Window<'a>
        requires { Is (numbers_of self.now.node) Kind.Dictionary }
        ensures rows { IsPassed self.now (self.now.node.index + 1) result }
        ensures smaller { IsSmaller self.now (window_in result) }
    {
        self.passed_to(self.node.child())
    }

    /// What it passes to the children of its node, one after another.
    pub fn children(&self) -> Windows<'a>
        ensures windows { ArePassedEach self.now (windows_left result) }
        ensures shown { shown_side (windows_left result) ≡ below (shown_in (window_in self.now)) }
        ensures smaller { All (IsSmaller self.now) (windows_left result) }
        ensures after { All (IsAfter self.now) (windows_left result) }
    {
        let (first, rows) = self.passed_rows();
        Windows {
            nodes: self.node.children(),
            first,
            rows,
        }
    }

    /// What it passes to a child of its node: a List the elements of its rows, a Struct the same rows, a Dictionary all
    /// rows of the child.
    pub fn passed_to(&self, child: NodeRef<'a>) -> Window<'a>
        requires { IsChild self.now.node child }
        ensures rows { IsPassed self.now child.entry.index result }
        ensures smaller { IsSmaller self.now (window_in result) }
    {
        let (first, rows) = self.passed_rows();
        Window {
            node: child,
            first,
            rows,
        }
    }

    // The first of the rows that it passes to each child of its node, and how many they are.
    fn passed_rows(&self) -> (u64, u64)
        ensures { ArePassed self.now result.0 result.1 }
    {
        match self.node.kind() {
            Kind::List32 | Kind::List64 => self.contents(),
            Kind::Struct => (self.first, self.rows),
            Kind::Dictionary => (0, self.node.child().node().rows),
            // The others have no child.
            Kind::Null | Kind::Boolean | Kind::Fixed | Kind::Bytes32 | Kind::Bytes64 => (0, 0),
        }
    }

    /// Where what the rows of a Bytes or a List have begins in the data or the child, and how much it is.
    pub fn contents(&self) -> (u64, u64)
        requires { (w : Width) × HasOffsets (numbers_of self.now.node) w }
        ensures { AreContents self.now result.0 result.1 }
    {
        if self.rows == 0 {
            return (0, 0);
        }
        let offsets = self.node.offsets();
        let first = offsets.at(self.first);
        let end = offsets.at(self.first + self.rows);
        (first, end - first)
    }

    /// How many of its rows are null: every row of a Null.
    pub fn null_count(&self) -> u64
        ensures { result ≡ (own_field (shown_in (window_in self.now))).nulls }
    {
        self.node.nulls_between(self.first, self.rows)
    }

    /// Whether one of its rows is null, as `null_count` counts them.
    pub fn has_nulls(&self) -> bool
        ensures { result ≡ nat_lt 0 (own_field (shown_in (window_in self.now))).nulls }
    {
        match self.marks() {
            Some(marks) => has_zeros(&marks),
            // All rows are alike, so nothing is read.
            None => self.null_count() > 0,
        }
    }
}

// How many bits a block has, 4096 bytes of them: few to count where the first are not all 1, and many beside what a block costs.
const BLOCK: u64 = 32768;

// Whether one of the bits is 0. A block is counted by words, and nothing is read after the first that has a 0.
fn has_zeros(bits: &BitSlice) -> bool
    ensures { result ≡ nat_lt 0 (zeros (bits_in bits.now)) }
{
    let mut from = 0;
    while from < bits.len {
        let block = bits.part(from, (bits.len - from).min(BLOCK));
        if block.count_zeros() > 0 {
            return true;
        }
        from += block.len;
    }
    false
}
