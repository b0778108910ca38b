ghost use Rattle.std.specs.Prelude.{◌≤◌, length};
ghost use Rattle.recording.specs.View.{nodes_in};

use crate::node::NodeRef;
use crate::recording::Recording;

/// The nodes of trees that stand side by side.
// A number names each, as in a `NodeRef`. `Children` of `opening` is the same walk where a step may be refused.
#[derive(Clone, Copy, Debug)]
pub struct Trees<'a> {
    pub(crate) recording: Recording<'a>,
    pub(crate) next: usize,
    pub(crate) end: usize,
    ghost within: { end ≤ length (nodes_in recording) },
}

impl<'a> Iterator for Trees<'a> {
    ghost use Rattle.std.specs.Iterator.{YieldsFirstBy, item_count};
    ghost use Rattle.recording.specs.Places.{place_of};
    ghost use Rattle.recording.specs.Trees.{places_left};

    type Item = NodeRef<'a>;

    ghost next_gives = { YieldsFirstBy place_of places_left };

    ghost remaining = { item_count places_left };

    fn next(&mut self) -> Option<NodeRef<'a>> {
        if self.next >= self.end {
            return None;
        }
        let node = self.recording.at(self.next);
        self.next = node.end();
        Some(node)
    }
}
