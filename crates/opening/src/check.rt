//! The rules of an opening for one node, in the order of their numbers.
ghost use Rattle.std.specs.Prelude.{◌≡◌, ◌/◌, ◌<◌, ◌≤◌, length};
ghost use Rattle.layout.specs.Nodes.{nodes_of, depth_of};
ghost use Rattle.opening.specs.Checks.{NodeVerdict};

use crate::placed::Placed;
use crate::subject::{Subject, ensure};
use layout::Refusal;

/// Where node i ends, or the rule of smallest number that it breaks, given its depth.
pub(crate) fn check_node(
    nodes: &[u8],
    bytes: &[u8],
    i: usize,
    depth: usize,
) -> Result<usize, Refusal>
    // A type for the table would ask the same of i.
    requires few { length nodes.now / 80 ≤ 65535 }
    requires stands { i < length nodes.now / 80 }
    requires deep { depth ≡ depth_of (nodes_of nodes.now) i }
    ensures { NodeVerdict (nodes_of nodes.now) bytes.now i result }
{
    let subject = Subject::new(nodes, bytes, i, depth)?;
    subject.check_nesting()?;
    ensure(subject.keeps_places(), Refusal::Place)?;
    let placed = Placed { subject };
    ensure(placed.keeps_offsets(), Refusal::Offset)?;
    ensure(placed.keeps_keys(), Refusal::Key)?;
    Ok(placed.end())
}
