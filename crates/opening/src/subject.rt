//! The rules of an opening that a node of the table has to keep before its slots are read, a method to each.
ghost use Rattle.std.specs.Prelude.{◌≡◌, ℕ, ◌+◌, ◌-◌, ◌*◌, ◌/◌, ◌%◌, ◌^◌, ◌<◌, ◌≤◌, true, false, length, Some, nat_le, MatchResult};
ghost use Rattle.std.specs.Coded.{Coded-set};
ghost use Rattle.layout.specs.declared.fault.Refusal.TheVariants.{KindOrSize, Nesting, Place};
ghost use Rattle.layout.specs.Nodes.{nodes_of, node_at, depth_of};
ghost use Rattle.layout.specs.Rules.{Is};
ghost use Rattle.layout.specs.Tests.{tabled_as, rows_agree, slots_lie, bitmap_lies, data_lies, holds};

use crate::children::{Children, spans_within};
use layout::{Kind, MOST_ROWS, NODE_BYTES, Node, Refusal, bytes_for, lies_within};

/// How deep a node may stand; a top node has depth 1.
pub(crate) const MOST_DEEP: usize = 64;

// Whether size and rows are those that the table allows the kind.
fn keeps_table(kind: Kind, node: Node) -> bool
    ensures { result ≡ tabled_as kind node }
{
    kind.may_measure(node.size) && lies_within(node.from, node.rows, MOST_ROWS)
}

/// A rule that is kept, or what its breach is refused with.
pub(crate) fn ensure(kept: bool, refusal: Refusal) -> Result<(), Refusal>
    ensures { MatchResult result (λ _. kept ≡ true) (λ q. (q ≡ refusal) × (kept ≡ false)) }
{
    if kept { Ok(()) } else { Err(refusal) }
}

/// The node that is checked, with the bytes beside it: its kind, size and rows are those that the table of kinds allows.
// Nodes and bytes are two slices, since the host lends them so; a number names the node, whose children come after it there.
#[derive(Clone, Copy)]
pub(crate) struct Subject<'a> {
    pub nodes: &'a [u8],
    pub bytes: &'a [u8],
    pub index: usize,
    pub depth: usize,
    pub kind: Kind,
    pub node: Node,
    ghost few: { length nodes.now / 80 ≤ 65535 },
    ghost stands: { index < length nodes.now / 80 },
    ghost deep: { depth ≡ depth_of (nodes_of nodes.now) index },
    ghost at: { node ≡ node_at (nodes_of nodes.now) index } by { Coded-set node-code node (node_at (nodes_of nodes.now) index) },
    ghost is: { Is node kind },
    ghost tabled: { tabled_as kind node ≡ true },
}

impl<'a> Subject<'a> {
    ghost use Rattle.opening.specs.Subjects.{table_of, kept, is_shaped};

    /// Node `index` of a table, given its depth.
    pub(crate) fn new(
        nodes: &'a [u8],
        bytes: &'a [u8],
        index: usize,
        depth: usize,
    ) -> Result<Subject<'a>, Refusal>
        requires few { length nodes.now / 80 ≤ 65535 }
        requires stands { index < length nodes.now / 80 }
        requires deep { depth ≡ depth_of (nodes_of nodes.now) index }
        ensures { MatchResult result
            (λ s. (s.nodes.now ≡ nodes.now) × (s.bytes.now ≡ bytes.now) × (s.index ≡ index))
            (λ q. (q ≡ KindOrSize) × (holds KindOrSize (nodes_of nodes.now) bytes.now index ≡ false)) }
    {
        let node = Node::at(nodes, index);
        let kind = Kind::try_from(node.kind)?;
        ensure(keeps_table(kind, node), Refusal::KindOrSize)?;
        Ok(Subject {
            nodes,
            bytes,
            index,
            depth,
            kind,
            node,
        })
    }

    /// Refuses it where its children do not fill its span, or it stands too deep.
    pub(crate) fn check_nesting(&self) -> Result<(), Refusal>
        ensures { MatchResult result (λ _. kept Nesting self.now ≡ true)
            (λ q. (q ≡ Nesting) × (kept Nesting self.now ≡ false)) }
    {
        self.check_children()?;
        ensure(self.depth <= MOST_DEEP, Refusal::Nesting)
    }

    // Refuses it where the span passes the table, or the children do not fill it, or are not as many as the kind has.
    fn check_children(&self) -> Result<(), Refusal>
        ensures { MatchResult result (λ _. is_shaped self.now ≡ true)
            (λ q. (q ≡ Nesting) × (is_shaped self.now ≡ false)) }
    {
        let room = self.nodes.len() / NODE_BYTES - self.index;
        ensure(spans_within(self.node, room as u64), Refusal::Nesting)?;
        let children = Children {
            nodes: self.nodes,
            next: self.index + 1,
            end: self.index + self.node.span as usize,
        };
        // By hand: a child that does not fit ends the walk, and the count with it.
        let mut count = 0;
        for child in children {
            ensure(self.rows_agree(child?), Refusal::Nesting)?;
            count += 1;
        }
        ensure(self.kind.may_have(count), Refusal::Nesting)
    }

    // Whether a child has the rows that its parent asks for: a Struct has its own in each.
    fn rows_agree(&self, child: Node) -> bool
        ensures { result ≡ rows_agree self.now.kind self.now.node child }
    {
        match self.kind {
            Kind::Struct => child.rows == self.node.rows,
            _ => true,
        }
    }

    /// Whether slots, bitmap and data lie within the bytes.
    pub(crate) fn keeps_places(&self) -> bool
        ensures { result ≡ kept Place self.now }
    {
        self.slots_lie() && self.bitmap_lies() && self.data_lies()
    }

    fn slots_lie(&self) -> bool
        ensures { result ≡ slots_lie self.now.kind self.now.node self.now.bytes.now }
    {
        // No `is_none_or`: what is inferred of a closure that borrows self tells nothing of its answer.
        match self.kind.slot_bytes(self.node.size, self.slots()) {
            None => true,
            Some(need) => self.lies(self.node.slots, need),
        }
    }

    fn bitmap_lies(&self) -> bool
        ensures { result ≡ bitmap_lies self.now.kind self.now.node self.now.bytes.now }
    {
        if !self.kind.has_bitmap() {
            return true;
        }
        // No `is_none_or`, as above.
        match self.node.bitmap_place() {
            None => true,
            Some(place) => self.lies(place, bytes_for(self.slots())),
        }
    }

    fn data_lies(&self) -> bool
        ensures { result ≡ data_lies self.now.kind self.now.node self.now.bytes.now }
    {
        !self.kind.has_data() || self.lies(self.node.data, self.node.extent)
    }

    fn lies(&self, place: u64, need: u64) -> bool
        ensures { result ≡ nat_le (place + need) (length self.now.bytes.now) }
    {
        lies_within(place, need, self.bytes.len() as u64)
    }

    // How many slots the rows and those before them take.
    fn slots(&self) -> u64
        ensures value { result ≡ self.now.node.from + self.now.node.rows }
        ensures few { result ≤ 2147483647 }
    {
        self.node.from + self.node.rows
    }
}
