ghost use Rattle.std.specs.Prelude.{◌≡◌, ◌+◌, ◌*◌, ◌<◌, ◌≤◌, length};
ghost use Rattle.recording.specs.View.{nodes_in};

use crate::offsets::Offsets;
use crate::recording::Recording;
use crate::row::Row;
use crate::trees::Trees;
use crate::window::Window;
use layout::{BitSlice, Kind, Node};

/// A node of an opened recording.
// Its number in the table names it: the table is the host's, and a node's children come after it there.
#[derive(Clone, Copy, Debug, PartialEq, Eq)]
pub struct NodeRef<'a> {
    pub(crate) recording: Recording<'a>,
    pub(crate) index: usize,
    ghost stands: { index < length (nodes_in recording) },
}

impl<'a> NodeRef<'a> {
    ghost use Rattle.std.specs.Prelude.{◌↔◌, IsSome, IfSome, All};
    ghost use Rattle.layout.specs.BitSlices.{AreBits};
    ghost use Rattle.layout.specs.Nodes.{end_of};
    ghost use Rattle.layout.specs.Rows.{nulls_at};
    ghost use Rattle.layout.specs.Rules.{Is, Filled, HasOffsets, Rule};
    ghost use Rattle.layout.specs.declared.fault.Refusal.{Refusal};
    ghost use Rattle.layout.specs.declared.number.Width.{Width};
    ghost use Rattle.recording.specs.NodeRefs.{table_of, run_of, numbers_of};
    ghost use Rattle.recording.specs.NodeRefs.{nulls_between, IsNode};
    ghost use Rattle.recording.specs.RowBits.{AreMarks};
    ghost use Rattle.recording.specs.Rows.{IsRow};
    ghost use Rattle.recording.specs.Places.{children_of, IsChildPlace};
    ghost use Rattle.recording.specs.Trees.{places_left};
    ghost use Rattle.recording.specs.Windows.{window_at, window_in};

    /// Which node of the recording it is.
    pub fn index(&self) -> usize
        ensures { result ≡ self.now.index }
    {
        self.index
    }

    /// The recording that it stands in.
    pub fn recording(&self) -> Recording<'a>
        ensures { result ≡ self.now.recording }
    {
        self.recording
    }

    /// Its ten numbers, which keep every rule.
    pub fn node(&self) -> Node
        ensures value { result ≡ numbers_of self.now }
        ensures rules { (q : Refusal)
            → Rule q (table_of self.now) (run_of self.now) self.now.index }
    {
        Node::at(self.recording.nodes, self.index)
    }

    /// What it holds.
    pub fn kind(&self) -> Kind
        ensures { Is (numbers_of self.now) result }
    {
        Kind::try_from(self.node().kind).unwrap()
    }

    /// The node after the last one of its tree. Its children fill the nodes between.
    pub fn end(&self) -> usize
        ensures value { result ≡ end_of (table_of self.now) self.now.index }
        ensures bound { (self.now.index < result) × (result ≤ length (table_of self.now)) }
        ensures children { Filled (table_of self.now) (self.now.index + 1) result }
    {
        self.index + self.node().span as usize
    }

    /// The node so many places after it, in its tree.
    pub fn in_tree(&self, after: u64) -> NodeRef<'a>
        requires { after < (numbers_of self.now).span }
        ensures { IsNode self.now.recording (self.now.index + after) result }
    {
        self.recording.at(self.index + after as usize)
    }

    /// Its children.
    pub fn children(&self) -> Trees<'a>
        ensures nodes { places_left result ≡ children_of self.now }
        ensures each { All (IsChildPlace self.now) (places_left result) }
    {
        Trees {
            recording: self.recording,
            next: self.index + 1,
            end: self.end(),
        }
    }

    // The one child of a List or a Dictionary.
    pub(crate) fn child(&self) -> NodeRef<'a>
        requires { self.now.index + 1 < length (table_of self.now) }
        ensures { IsNode self.now.recording (self.now.index + 1) result }
    {
        self.recording.at(self.index + 1)
    }

    /// Row r, which the node has; `get_row` tests that.
    // Two, as with `at` and `get` of a recording.
    pub fn row(&self, r: u64) -> Row<'a>
        requires { r < (numbers_of self.now).rows }
        ensures { IsRow self.now r result }
    {
        Row {
            node: *self,
            index: r,
        }
    }

    /// Row r, if the node has it.
    pub fn get_row(&self, r: u64) -> Option<Row<'a>>
        ensures there { IsSome result ↔ (r < (numbers_of self.now).rows) }
        ensures value { IfSome result (IsRow self.now r) }
    {
        // With `then`, what is known of a closure that borrows self does not tell its answer.
        if r < self.node().rows {
            Some(self.row(r))
        } else {
            None
        }
    }

    /// Its offsets, of a Bytes or a List; `get_offsets` tests that it is one.
    pub fn offsets(&self) -> Offsets<'a>
        requires { (w : Width) × HasOffsets (numbers_of self.now) w }
        ensures { result.node ≡ self.now }
    {
        self.get_offsets().unwrap()
    }

    /// Its offsets, if its kind has them.
    pub fn get_offsets(&self) -> Option<Offsets<'a>>
        ensures there { IsSome result ↔ ((w : Width) × HasOffsets (numbers_of self.now) w) }
        ensures value { IfSome result (λ o. o.node ≡ self.now) }
    {
        let width = self.kind().offset_width()?;
        Some(Offsets { node: *self, width })
    }

    /// How many rows are null: every row of a Null.
    pub fn nulls(&self) -> u64
        ensures { (k : Kind) → Is (numbers_of self.now) k
            → result ≡ nulls_at k (run_of self.now) (numbers_of self.now) }
    {
        self.nulls_between(0, self.node().rows)
    }

    // How many of so many rows, from a row on, are null.
    pub(crate) fn nulls_between(&self, first: u64, rows: u64) -> u64
        requires { first + rows ≤ (numbers_of self.now).rows }
        ensures { (k : Kind) → Is (numbers_of self.now) k
            → result ≡ nulls_between k (run_of self.now) (numbers_of self.now) first rows }
    {
        if !self.kind().has_bitmap() {
            return rows;
        }
        self.marks()
            .map_or(0, |marks| marks.part(first, rows).count_zeros())
    }

    // Which of its rows are valid, where it has a bitmap; a Null has none to ask for.
    pub(crate) fn marks(&self) -> Option<BitSlice<'a>>
        requires { Is (numbers_of self.now) Kind.Null → ⊥ }
        ensures { AreMarks self.now result }
    {
        let node = self.node();
        let place = node.bitmap_place()?;
        Some(node.bits(self.recording.bytes, place))
    }

    // The bits of a Boolean's rows.
    pub(crate) fn flags(&self) -> BitSlice<'a>
        requires { Is (numbers_of self.now) Kind.Boolean }
        ensures { AreBits (numbers_of self.now) (run_of self.now) (numbers_of self.now).slots result }
    {
        let node = self.node();
        node.bits(self.recording.bytes, node.slots)
    }

    /// All its rows.
    pub fn whole(&self) -> Window<'a>
        ensures { window_in result
            ≡ window_at self.now.recording self.now.index 0 (numbers_of self.now).rows }
    {
        let rows = self.node().rows;
        Window {
            node: *self,
            first: 0,
            rows,
        }
    }
}

// Where row r of a node starts, in slots of `size` bytes.
pub(crate) fn slot_place(node: Node, r: u64, size: u64) -> usize
    requires row { node.from + r ≤ 2147483647 }
    requires place { node.slots + (node.from + r) * size ≤ 4294967295 }
    ensures { result ≡ node.slots + (node.from + r) * size }
{
    (node.slots + (node.from + r) * size) as usize
}
