//! Whether node bytes and bytes are a recording.
ghost use Rattle.std.specs.Prelude.{◌≡◌, ℕ, ◌+◌, ◌-◌, ◌*◌, ◌/◌, ◌%◌, ◌^◌, ◌<◌, ◌≤◌, length};
ghost use Rattle.layout.specs.Opening.{Verdict};

use crate::ancestors::Ancestors;
use crate::check::check_node;
use layout::{Fault, NODE_BYTES, Refusal};

/// How many nodes a recording may have.
const MOST_NODES: usize = 65_535;

/// How many bytes a recording may have.
const MOST_BYTES: usize = 4_294_967_295;

/// Whether every rule is kept; else the first that is broken, nodes in order and smaller numbers first.
// Nodes and bytes are two slices wherever they go, since the host lends them so.
pub fn judge(nodes: &[u8], bytes: &[u8]) -> Result<(), Fault>
    ensures { Verdict nodes.now bytes.now result }
{
    if nodes.len() % NODE_BYTES != 0 {
        return Err(Fault::from(Refusal::NodeBytes));
    }
    let count = nodes.len() / NODE_BYTES;
    if count > MOST_NODES || bytes.len() > MOST_BYTES {
        return Err(Fault::from(Refusal::TooLarge));
    }
    let mut ancestors = Ancestors::new();
    // i is the node that a fault names.
    for i in 0..count {
        let fault = |refusal| Fault::new(refusal, 0, i as u64);
        ancestors.leave(i);
        let end = check_node(nodes, bytes, i, ancestors.len() + 1).map_err(fault)?;
        ancestors.enter(end);
    }
    Ok(())
}
