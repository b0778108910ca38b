//! The trees that stand below a node.
ghost use Rattle.std.specs.Prelude.{◌≡◌, ℕ, ◌+◌, ◌-◌, ◌*◌, ◌/◌, ◌<◌, ◌≤◌, length};
ghost use Rattle.layout.specs.Tests.{spans_within};

use layout::{Node, Refusal};

/// Whether a tree has a span, and lies within so many nodes.
pub(crate) fn spans_within(node: Node, room: u64) -> bool
    ensures { result ≡ spans_within node room }
{
    node.span != 0 && node.span <= room
}

/// The nodes that stand side by side from one place of a table up to another, each a span after the one before. One that
/// has no span or passes the end is refused, and is the last.
// By numbers, since the table is the host's. `Trees` of `recording` is the same walk where no step can be refused.
#[derive(Drop)]
pub(crate) struct Children<'a> {
    pub nodes: &'a [u8],
    pub next: usize,
    pub end: usize,
    ghost ahead: { next ≤ end },
    ghost within: { end ≤ length nodes.now / 80 },
}

impl Iterator for Children<'_> {
    ghost use Rattle.std.specs.Iterator.{at_most};
    ghost use Rattle.opening.specs.Walks.{Gives};

    type Item = Result<Node, Refusal>;

    ghost next_gives = { Gives };

    ghost remaining = { λ s. at_most (s.end - s.next) };

    fn next(&mut self) -> Option<Result<Node, Refusal>> {
        if self.next == self.end {
            return None;
        }
        let child = Node::at(self.nodes, self.next);
        if !spans_within(child, (self.end - self.next) as u64) {
            self.next = self.end;
            return Some(Err(Refusal::Nesting));
        }
        self.next += child.span as usize;
        Some(Ok(child))
    }
}
