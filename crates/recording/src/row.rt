ghost use Rattle.std.specs.Prelude.{◌<◌};
ghost use Rattle.recording.specs.NodeRefs.{numbers_of};

use crate::node::{NodeRef, slot_place};
use crate::rows::Parts;
use crate::value::RowValue;
use crate::window::Window;
use layout::{Kind, Width, read};

/// A row of a node.
#[derive(Clone, Copy, Debug, PartialEq, Eq)]
pub struct Row<'a> {
    pub(crate) node: NodeRef<'a>,
    pub(crate) index: u64,
    ghost within: { index < (numbers_of node).rows },
}

impl<'a> Row<'a> {
    ghost use Rattle.std.specs.Prelude.{◌≡◌, ◌+◌, ◌≤◌, true, ◌⊎◌, length, All};
    ghost use Rattle.layout.specs.Numbers.{unle};
    ghost use Rattle.layout.specs.Rules.{Is, HasOffsets};
    ghost use Rattle.recording.specs.View.{node_of};
    ghost use Rattle.recording.specs.NodeRefs.{IsOffset};
    ghost use Rattle.recording.specs.Rows.{mark_of, flag_of, slot_of, IsString, IsElements};
    ghost use Rattle.recording.specs.Windows.{HasStrings, HasElements};
    ghost use Rattle.recording.specs.Values.{value_of, meaning, Tells, rows_named, StandsBelow, IsEntry, AreParts};

    /// Whether it is valid; a Null has no valid row to ask for.
    pub fn is_valid(&self) -> bool
        requires { Is (numbers_of self.now.node) Kind.Null → ⊥ }
        ensures { result ≡ mark_of self.now }
    {
        // With `is_none_or`, what is known of a closure that borrows self does not tell its answer.
        match self.node.marks() {
            None => true,
            Some(marks) => marks.is_set(self.index),
        }
    }

    /// The bit of a Boolean.
    pub fn bit(&self) -> bool
        requires { Is (numbers_of self.now.node) Kind.Boolean }
        ensures { result ≡ flag_of self.now }
    {
        self.node.flags().is_set(self.index)
    }

    /// The bytes of a Fixed or a Dictionary.
    pub fn slot(&self) -> &'a [u8]
        requires { Is (numbers_of self.now.node) Kind.Fixed
            ⊎ Is (numbers_of self.now.node) Kind.Dictionary }
        ensures value { result.now ≡ slot_of self.now }
        ensures len { length result.now ≡ (numbers_of self.now.node).size }
    {
        let node = self.node.node();
        let start = slot_place(node, self.index, node.size);
        let end = start + node.size as usize;
        &self.node.recording.bytes[start..end]
    }

    /// The key of a Dictionary; that of a valid row is below the rows of its values.
    pub fn key(&self) -> u64
        requires { Is (numbers_of self.now.node) Kind.Dictionary }
        ensures value { result ≡ unle (slot_of self.now) }
        ensures bound { mark_of self.now ≡ true
            → result < (node_of self.now.node.recording (self.now.node.index + 1)).rows }
    {
        let slot = self.slot();
        let width = Width::try_from(slot.len() as u64).unwrap();
        read(slot, width)
    }

    /// The byte string of a Bytes.
    pub fn string(&self) -> &'a [u8]
        requires { (w : Width) × HasStrings (numbers_of self.now.node) w }
        ensures { IsString self.now result.now }
    {
        let data = self.node.node().data;
        let (first, end) = self.node.offsets().bounds(self.index);
        &self.node.recording.bytes[(data + first) as usize..(data + end) as usize]
    }

    /// The elements of a List: rows of its child.
    pub fn elements(&self) -> Window<'a>
        requires { (w : Width) × HasElements (numbers_of self.now.node) w }
        ensures { IsElements self.now result }
    {
        let (first, end) = self.node.offsets().bounds(self.index);
        let child = self.node.child();
        Window {
            node: child,
            first,
            rows: end - first,
        }
    }

    // The row that the key of a valid row names: one of a Dictionary's child.
    pub(crate) fn entry(&self) -> Row<'a>
        requires is { Is (numbers_of self.now.node) Kind.Dictionary }
        requires valid { mark_of self.now ≡ true }
        ensures { IsEntry self.now result }
    {
        self.node.child().row(self.key())
    }

    // The parts of a Struct: the same row of each child.
    pub(crate) fn parts(&self) -> Parts<'a>
        requires { Is (numbers_of self.now.node) Kind.Struct }
        ensures { AreParts self.now result }
    {
        Parts {
            nodes: self.node.children(),
            index: self.index,
        }
    }

    /// What it has.
    pub fn value(&self) -> RowValue<'a>
        ensures kind { (k : Kind) → Is (numbers_of self.now.node) k → Tells self.now k result }
        ensures value { meaning result ≡ value_of self.now }
        ensures below { All (StandsBelow self.now) (rows_named result) }
    {
        match self.node.kind() {
            Kind::Null => RowValue::Null,
            _ if !self.is_valid() => RowValue::Null,
            Kind::Boolean => RowValue::Bit(self.bit()),
            Kind::Fixed => RowValue::Fixed(self.slot()),
            Kind::Bytes32 | Kind::Bytes64 => RowValue::Bytes(self.string()),
            Kind::List32 | Kind::List64 => RowValue::List(self.elements()),
            Kind::Struct => RowValue::Struct(self.parts()),
            Kind::Dictionary => RowValue::Entry(self.entry()),
        }
    }
}
