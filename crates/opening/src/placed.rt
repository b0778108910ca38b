//! The rules of an opening for what the slots of a node hold, a method to each.
ghost use Rattle.std.specs.Prelude.{◌≡◌, ℕ, ◌+◌, ◌*◌, ◌/◌, ◌<◌, ◌≤◌, true, length, Some};
ghost use Rattle.layout.specs.declared.fault.Refusal.TheVariants.{Nesting, Place, Offset, Key};
ghost use Rattle.layout.specs.declared.kind.Kind.TheVariants.{Dictionary};
ghost use Rattle.layout.specs.Numbers.{wide, unle};
ghost use Rattle.layout.specs.Kinds.{offset_width};
ghost use Rattle.layout.specs.Nodes.{node_at, end_of};
ghost use Rattle.layout.specs.Rows.{slot_at};
ghost use Rattle.layout.specs.Rules.{reach, Lies};
ghost use Rattle.layout.specs.Tests.{rises_to, keyed_below};
ghost use Rattle.opening.specs.Slotted.{slot_count, slot_number};
ghost use Rattle.opening.specs.Subjects.{table_of, kept};

use crate::keys::Keys;
use crate::slots::Slots;
use crate::subject::Subject;
use layout::{Kind, Node, Width};

/// A node whose children fill its span, and whose slots, bitmap and data lie within the bytes.
#[derive(Clone, Copy)]
pub(crate) struct Placed<'a> {
    pub subject: Subject<'a>,
    ghost nesting: { kept Nesting subject ≡ true },
    ghost place: { kept Place subject ≡ true },
}

impl<'a> Placed<'a> {
    /// Where the tree of nodes that it heads ends.
    pub(crate) fn end(&self) -> usize
        ensures { result ≡ end_of (table_of self.now.subject) self.now.subject.index }
    {
        self.subject.index + self.subject.node.span as usize
    }

    /// Whether the offsets, where its kind has any, are those of its data or child.
    pub(crate) fn keeps_offsets(&self) -> bool
        ensures { result ≡ kept Offset self.now.subject }
    {
        // No `is_none_or`, as in `slots_lie`.
        match self.subject.kind.offset_width() {
            None => true,
            Some(width) => self.offsets_rise(width),
        }
    }

    // Whether no offset is below 0, falls or passes the reach: where none falls, the last is the largest.
    fn offsets_rise(&self, width: Width) -> bool
        requires { offset_width self.now.subject.kind ≡ Some width }
        ensures { result ≡ rises_to self.now.subject.bytes.now (wide width) self.now.subject.node
            (reach self.now.subject.kind (table_of self.now.subject) self.now.subject.index) }
    {
        let rows = self.subject.node.rows;
        // Where there are none, no byte is read.
        if rows == 0 {
            return true;
        }
        let offsets = self.numbers(width, rows + 1);
        let last = offsets.number(rows);
        let most = self.reach();
        last < width.half() && last <= most && offsets.rises()
    }

    // The numbers in so many slots, from that of its first row on.
    fn numbers(&self, width: Width, count: u64) -> Slots<'a>
        requires { Lies self.now.subject.bytes.now self.now.subject.node.slots
            ((self.now.subject.node.from + count) * wide width) }
        ensures count { slot_count result ≡ count }
        ensures at { (r : ℕ) → r < count → slot_number result r
            ≡ unle (slot_at self.now.subject.bytes.now (wide width) self.now.subject.node r) }
    {
        let Subject { bytes, node, .. } = self.subject;
        let wide = width.bytes() as u64;
        let start = node.slots + node.from * wide;
        let end = start + count * wide;
        Slots {
            bytes: &bytes[start as usize..end as usize],
            width,
        }
    }

    // What no offset passes.
    fn reach(&self) -> u64
        ensures { result ≡ reach self.now.subject.kind (table_of self.now.subject) self.now.subject.index }
    {
        match self.subject.kind {
            Kind::Bytes32 | Kind::Bytes64 => self.subject.node.extent,
            Kind::List32 | Kind::List64 => self.child().rows,
            Kind::Null | Kind::Boolean | Kind::Fixed | Kind::Struct | Kind::Dictionary => 0,
        }
    }

    // The node right below it. A type for the table would ask the same of it.
    fn child(&self) -> Node
        requires { self.now.subject.index + 1 < length self.now.subject.nodes.now / 80 }
        ensures { result ≡ node_at (table_of self.now.subject) (self.now.subject.index + 1) }
    {
        Node::at(self.subject.nodes, self.subject.index + 1)
    }

    /// Whether the keys of a Dictionary name rows of its child.
    pub(crate) fn keeps_keys(&self) -> bool
        ensures { result ≡ kept Key self.now.subject }
    {
        match self.subject.kind {
            Kind::Dictionary => self.keys_name_rows(),
            _ => true,
        }
    }

    // Whether every valid row's key is not below 0, and below the rows of the child.
    fn keys_name_rows(&self) -> bool
        requires { self.now.subject.kind ≡ Dictionary }
        ensures { result ≡ keyed_below self.now.subject.bytes.now self.now.subject.node
            (node_at (table_of self.now.subject) (self.now.subject.index + 1)).rows }
    {
        let Subject { bytes, node, .. } = self.subject;
        let width = Width::try_from(node.size).unwrap();
        let rows = self.child().rows;
        let bound = rows.min(width.half());
        let slots = self.numbers(width, node.rows);
        match node.bitmap_place() {
            None => slots.all_below(bound),
            Some(place) => {
                let marks = node.bits(bytes, place);
                let keys = Keys {
                    slots,
                    marks,
                    bound,
                };
                keys.all_below()
            }
        }
    }
}
