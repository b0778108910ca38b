ghost use Rattle.std.specs.Prelude.{◌≡◌, ℕ, ◌+◌, ◌/◌, ◌^◌, ◌<◌, length, nat_le};
ghost use Rattle.layout.specs.Bits.{bytes_for};
ghost use Rattle.layout.specs.BitSlices.{AreBits};
ghost use Rattle.layout.specs.Nodes.{nodes_of, node_at, node_in, numbers_of, bitmap_of};
ghost use Rattle.layout.specs.Rules.{Lies};

use crate::bit::BitSlice;
use crate::number::{Width, read, write};
use std::array;

/// How many numbers make a node.
pub const NODE_NUMBERS: usize = 10;

/// How many bytes the host hands for a node.
pub const NODE_BYTES: usize = 8 * NODE_NUMBERS;

/// What from + rows of a node may not pass, nor the rows of a batch.
pub const MOST_ROWS: u64 = 2_147_483_647;

/// Whether so many from a place on lie among the first `len`: bytes of a run, or rows.
pub fn lies_within(place: u64, need: u64, len: u64) -> bool
    ensures { result ≡ nat_le (place + need) len }
{
    place <= len && need <= len - place
}

/// A node of a recording: ten numbers, each of eight bytes where the host hands them.
// Kind, size and bitmap are numbers, since a host in C hands them so.
#[derive(Clone, Copy, Debug, PartialEq, Eq, Hash)]
pub struct Node {
    pub kind: u64,
    /// The host's own; it only has to be equal where windows are.
    pub mark: u64,
    pub size: u64,
    pub rows: u64,
    /// How many slots stand before that of row 0.
    pub from: u64,
    /// The place of the bitmap plus 1, or 0 where there is none.
    pub bitmap: u64,
    /// The place of the slots.
    pub slots: u64,
    /// The place of the data, and how long they are.
    pub data: u64,
    pub extent: u64,
    /// How many nodes its tree has.
    pub span: u64,
}

/// The node that its ten numbers make, in their order in the table.
impl From<[u64; NODE_NUMBERS]> for Node {
    ghost from_gives = { λ numbers node. numbers_of node ≡ numbers };

    fn from(numbers: [u64; NODE_NUMBERS]) -> Node {
        let [
            kind,
            mark,
            size,
            rows,
            from,
            bitmap,
            slots,
            data,
            extent,
            span,
        ] = numbers;
        Node {
            kind,
            mark,
            size,
            rows,
            from,
            bitmap,
            slots,
            data,
            extent,
            span,
        }
    }
}

/// Its ten numbers, in their order in the table.
impl From<Node> for [u64; NODE_NUMBERS] {
    ghost from_gives = { λ node numbers. numbers ≡ numbers_of node };

    fn from(node: Node) -> [u64; NODE_NUMBERS] {
        [
            node.kind,
            node.mark,
            node.size,
            node.rows,
            node.from,
            node.bitmap,
            node.slots,
            node.data,
            node.extent,
            node.span,
        ]
    }
}

impl Node {
    /// Node i of a table.
    // A type for the table would ask the same of i.
    pub fn at(table: &[u8], i: usize) -> Node
        requires { i < length table.now / 80 }
        ensures { result ≡ node_at (nodes_of table.now) i }
    {
        let bytes = &table[i * NODE_BYTES..];
        Node::from(array::from_fn(|k| read(&bytes[8 * k..], Width::Eight)))
    }

    /// Where its bitmap stands; a node without one has every row valid.
    pub fn bitmap_place(&self) -> Option<u64>
        ensures { result ≡ bitmap_of self.now }
    {
        self.bitmap.checked_sub(1)
    }

    /// A bit for each of its rows, in the bytes from a place on.
    pub fn bits<'a>(&self, bytes: &'a [u8], place: u64) -> BitSlice<'a>
        requires few { self.now.from + self.now.rows < 2 ^ 64 }
        requires within { Lies bytes.now place (bytes_for (self.now.from + self.now.rows)) }
        ensures { AreBits self.now bytes.now place result }
    {
        BitSlice {
            bytes: &bytes[place as usize..],
            first: self.from,
            len: self.rows,
        }
    }

    /// The eighty bytes that spell it.
    pub fn to_bytes(&self) -> [u8; NODE_BYTES]
        ensures len { length result ≡ 80 }
        ensures back { node_in result 0 ≡ self.now }
    {
        // By places, since what `as_chunks_mut` leaves in the array is in no contract.
        let mut bytes = [0; NODE_BYTES];
        for (k, number) in <[u64; NODE_NUMBERS]>::from(*self).iter().enumerate() {
            write(&mut bytes[8 * k..], Width::Eight, *number);
        }
        bytes
    }
}
