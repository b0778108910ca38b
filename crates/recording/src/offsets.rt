ghost use Rattle.std.proofs.Props.{props};
ghost use Rattle.recording.specs.NodeRefs.{numbers_of, AreWide};

use crate::node::{NodeRef, slot_place};
use layout::Width;

/// The offsets of a Bytes or a List.
#[derive(Clone, Copy, Debug, PartialEq, Eq)]
pub struct Offsets<'a> {
    pub(crate) node: NodeRef<'a>,
    pub(crate) width: Width,
    ghost has: { AreWide (numbers_of node) width } by { Prim.hlevel props },
}

impl<'a> Offsets<'a> {
    ghost use Rattle.std.specs.Prelude.{◌+◌, ◌<◌, ◌≤◌};
    ghost use Rattle.recording.specs.NodeRefs.{IsOffset};

    /// That of row r; that of row `rows` is where the last row ends.
    pub fn at(&self, r: u64) -> u64
        requires row { r ≤ (numbers_of self.now.node).rows }
        requires some { 0 < (numbers_of self.now.node).rows }
        ensures { IsOffset self.now.node r result }
    {
        let place = slot_place(self.node.node(), r, self.width.bytes() as u64);
        self.node.recording.number_at(place, self.width)
    }

    /// Where row r begins and ends in the data or among the child's rows.
    pub fn bounds(&self, r: u64) -> (u64, u64)
        requires { r < (numbers_of self.now.node).rows }
        ensures first { IsOffset self.now.node r result.0 }
        ensures end { IsOffset self.now.node (r + 1) result.1 }
        ensures rises { result.0 ≤ result.1 }
    {
        (self.at(r), self.at(r + 1))
    }
}
