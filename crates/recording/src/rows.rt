//! Rows one after another, and the rows side by side that make a Struct's.
ghost use Rattle.std.specs.Prelude.{◌≤◌, ◌<◌, All};
ghost use Rattle.recording.specs.NodeRefs.{numbers_of};
ghost use Rattle.recording.specs.Places.{rows_at};
ghost use Rattle.recording.specs.Trees.{places_left};

use crate::node::NodeRef;
use crate::row::Row;
use crate::trees::Trees;
use std::ops::Range;

/// Rows of a node, one after another.
#[derive(Debug, Drop)]
pub struct Rows<'a> {
    pub(crate) node: NodeRef<'a>,
    pub(crate) left: Range<u64>,
    ghost within: { left.end ≤ (numbers_of node).rows },
}

impl<'a> Iterator for Rows<'a> {
    ghost use Rattle.std.specs.Iterator.{YieldsFirstBy, item_count};
    ghost use Rattle.recording.specs.RowPlaces.{row_place, rows_left};

    type Item = Row<'a>;

    ghost next_gives = { YieldsFirstBy row_place rows_left };

    ghost remaining = { item_count rows_left };

    fn next(&mut self) -> Option<Row<'a>> {
        let r = self.left.next()?;
        Some(self.node.row(r))
    }
}

/// The same row of nodes side by side: the parts of a Struct's row, or a row of columns.
#[derive(Clone, Copy, Debug)]
pub struct Parts<'a> {
    pub(crate) nodes: Trees<'a>,
    pub(crate) index: u64,
    ghost has: { All (λ p. index < rows_at p) (places_left nodes) },
}

impl<'a> Iterator for Parts<'a> {
    ghost use Rattle.std.specs.Iterator.{YieldsFirstBy, item_count};
    ghost use Rattle.recording.specs.RowPlaces.{row_place, parts_left};

    type Item = Row<'a>;

    ghost next_gives = { YieldsFirstBy row_place parts_left };

    ghost remaining = { item_count parts_left };

    fn next(&mut self) -> Option<Row<'a>> {
        let node = self.nodes.next()?;
        Some(node.row(self.index))
    }
}
