ghost use Rattle.layout.specs.Nodes.{nodes_of};
ghost use Rattle.layout.specs.Opening.{Kept};

use crate::columns::Columns;
use crate::node::NodeRef;
use crate::trees::Trees;
use crate::window::Window;
use layout::{Fault, MOST_ROWS, NODE_BYTES, Refusal, Width, lies_within, read};
use opening::judge;
use std::fmt;

/// A table of nodes and a run of bytes that keep every rule of an opening. It owns neither, and copies nothing.
#[repr(C)]
#[derive(Clone, Copy, PartialEq, Eq)]
pub struct Recording<'a> {
    pub(crate) nodes: &'a [u8],
    pub(crate) bytes: &'a [u8],
    ghost opened: { Kept (nodes_of nodes.now) bytes.now },
}

impl<'a> Recording<'a> {
    ghost use Rattle.std.specs.Prelude.{◌≡◌, ◌+◌, ◌<◌, ◌≤◌, ◌↔◌, [], length};
    ghost use Rattle.std.specs.Prelude.{IsSome, IfSome, Ok, Err, MatchResult, OnOk, OnErr};
    ghost use Rattle.layout.specs.Columns.{ColumnsAnswer};
    ghost use Rattle.layout.specs.Numbers.{wide, unsigned_at};
    ghost use Rattle.layout.specs.Opening.{Answers};
    ghost use Rattle.layout.specs.Rules.{Filled};
    ghost use Rattle.recording.specs.View.{nodes_in, bytes_in};
    ghost use Rattle.recording.specs.NodeRefs.{IsNode};
    ghost use Rattle.recording.specs.ColumnPlaces.{ColumnsFound};
    ghost use Rattle.recording.specs.Places.{trees_of};
    ghost use Rattle.recording.specs.Trees.{places_left};
    ghost use Rattle.recording.specs.Windows.{Made};

    /// A recording of no nodes and no bytes, to open into.
    pub fn empty() -> Recording<'a>
        ensures { (nodes_in result ≡ []) × (bytes_in result ≡ []) }
    {
        Recording {
            nodes: &[],
            bytes: &[],
        }
    }

    /// The recording of node bytes and bytes, or the rule that they break first.
    pub fn try_new(nodes: &'a [u8], bytes: &'a [u8]) -> Result<Recording<'a>, Fault>
        ensures { MatchResult result
            (λ r. Answers nodes.now bytes.now (Ok tt) × (r.nodes.now ≡ nodes.now) × (bytes_in r ≡ bytes.now))
            (λ f. Answers nodes.now bytes.now (Err f)) }
    {
        judge(nodes, bytes)?;
        Ok(Recording { nodes, bytes })
    }

    /// Opens node bytes and bytes, or says which rule they break first; a refusal leaves the recording as it was.
    pub fn open(&mut self, nodes: &'a [u8], bytes: &'a [u8]) -> Result<(), Fault>
        ensures answer { Answers nodes.now bytes.now result }
        ensures held { OnOk result
            ((self.new.nodes.now ≡ nodes.now) × (bytes_in self.new ≡ bytes.now)) }
        ensures kept { OnErr result (self.new ≡ self.old) }
    {
        *self = Recording::try_new(nodes, bytes)?;
        Ok(())
    }

    /// How many nodes it has. The trees of the top nodes fill them.
    pub fn node_count(&self) -> usize
        ensures value { result ≡ length (nodes_in self.now) }
        ensures bound { result ≤ 65535 }
        ensures trees { Filled (nodes_in self.now) 0 result }
    {
        self.nodes.len() / NODE_BYTES
    }

    /// How many bytes it has.
    pub fn byte_count(&self) -> usize
        ensures { result ≡ length (bytes_in self.now) }
    {
        self.bytes.len()
    }

    /// The bytes that it has.
    pub fn bytes(&self) -> &'a [u8]
        ensures { result.now ≡ bytes_in self.now }
    {
        self.bytes
    }

    /// Node i, which the recording has; `get` tests that.
    // Two, since this one cannot fail, and a caller that has a proof shall not handle `None`.
    pub fn at(&self, i: usize) -> NodeRef<'a>
        requires { i < length (nodes_in self.now) }
        ensures { IsNode self.now i result }
    {
        NodeRef {
            recording: *self,
            index: i,
        }
    }

    /// Node i, if the recording has it.
    pub fn get(&self, i: usize) -> Option<NodeRef<'a>>
        ensures there { IsSome result ↔ (i < length (nodes_in self.now)) }
        ensures value { IfSome result (IsNode self.now i) }
    {
        // With `then`, what is known of a closure that borrows self does not tell its answer.
        if i < self.node_count() {
            Some(self.at(i))
        } else {
            None
        }
    }

    /// The top nodes.
    pub fn trees(&self) -> Trees<'a>
        ensures { places_left result ≡ trees_of self.now 0 }
    {
        self.trees_from(0)
    }

    /// The nodes side by side from node `first` on, each right after the tree of the one before it;
    /// none where `first` is past the last node.
    pub fn trees_from(&self, first: usize) -> Trees<'a>
        ensures { places_left result ≡ trees_of self.now first }
    {
        Trees {
            recording: *self,
            next: first,
            end: self.node_count(),
        }
    }

    /// The window of so many rows of a node, from a row on, if the recording has them.
    pub fn window(&self, node: usize, first: u64, rows: u64) -> Option<Window<'a>>
        ensures { Made self.now node first rows result }
    {
        let node = self.get(node)?;
        let all = node.node().rows;
        if !lies_within(first, rows, all) {
            return None;
        }
        Some(Window { node, first, rows })
    }

    /// Whether these are columns of a batch: nodes side by side with these rows. Too many rows are refused first, then
    /// the first column that is no node or has other rows.
    pub fn check_columns(&self, first: usize, columns: u64, rows: u64) -> Result<(), Fault>
        ensures { ColumnsAnswer (nodes_in self.now) first columns rows result }
    {
        self.columns(first, columns, rows)?;
        Ok(())
    }

    /// So many columns of a batch, from node `first` on, or what `check_columns` answers.
    pub fn columns(&self, first: usize, columns: u64, rows: u64) -> Result<Columns<'a>, Fault>
        ensures { ColumnsFound self.now first columns rows result }
    {
        if rows > MOST_ROWS {
            return Err(Fault::from(Refusal::Rows));
        }
        let mut nodes = self.trees_from(first);
        // Where there is no column, `first` may be past the last node.
        let mut end = first.min(self.node_count());
        for column in 0..columns {
            // With `filter(..).ok_or(..)?` a proof file has no name for what the closure answers; a `zip` would end with
            // the nodes, and show no column that is missing.
            match nodes.next() {
                Some(node) if node.node().rows == rows => end = node.end(),
                _ => return Err(Fault::new(Refusal::Column, column, 0)),
            }
        }
        Ok(Columns {
            recording: *self,
            first,
            end,
            rows,
        })
    }

    // The number at a place of the bytes.
    pub(crate) fn number_at(&self, place: usize, width: Width) -> u64
        requires { place + wide width ≤ length (bytes_in self.now) }
        ensures { result ≡ unsigned_at (bytes_in self.now) place width }
    {
        read(&self.bytes[place..], width)
    }
}

/// How much it has: what a recording holds is its owner's, and no message may give it away.
impl fmt::Debug for Recording<'_> {
    ghost use Rattle.std.specs.Prelude.{Some};
    ghost use Rattle.recording.specs.View.{recording_shown};

    ghost debug_output = { λ recording. Some (recording_shown recording) };

    fn fmt<W: fmt::Write>(&self, f: &mut fmt::Formatter<W>) -> fmt::Result {
        let nodes = self.node_count();
        let bytes = self.byte_count();
        write!(f, "recording of {nodes} nodes and {bytes} bytes")
    }
}
