//! What is printed of a case.
ghost use Rattle.std.specs.Prelude.{◌≡◌, false, Some, All, MatchResult};
ghost use Rattle.layout.specs.declared.fault.Refusal.TheVariants as refused;
ghost use Rattle.layout.specs.Faults.{fault_of};
ghost use Rattle.layout.specs.Nodes.{depth_of};
ghost use Rattle.layout.specs.Rows.{nulls_at};
ghost use Rattle.layout.specs.Rules.{Is};
ghost use Rattle.recording.specs.Alignments.{is_alignment};
ghost use Rattle.recording.specs.NodeRefs.{table_of, run_of, numbers_of};
ghost use Rattle.recording.specs.Options.{Sets};
ghost use Rattle.recording.specs.Trees.{places_left};
ghost use Rattle.pack.specs.Levels.{IsDeep};
ghost use Rattle.pack.specs.Shown.{node_shown};

use crate::calls::{Opened, show_fault_of};
use crate::failure::Failure;
use crate::framing::show_framing;
use layout::{Fault, Kind, Node};
use orders::{Case, Options};
use recording::{IpcWriteOptions, NodeRef, Recording, Trees};
use std::rt::Files;
use std::{fmt, io};

/// What is printed of a node.
#[derive(Clone, Copy)]
struct NodeLine {
    index: usize,
    depth: u64,
    node: Node,
    nulls: u64,
}

// By hand: what it prints is in its contract.
impl fmt::Display for NodeLine {
    ghost output = { λ line. Some (node_shown line) };

    fn fmt<W: fmt::Write>(&self, f: &mut fmt::Formatter<W>) -> fmt::Result {
        let index = self.index;
        let depth = self.depth;
        let nulls = self.nulls;
        let Node {
            kind,
            mark,
            size,
            rows,
            from,
            span,
            ..
        } = self.node;
        write!(
            f,
            "node {index} depth {depth} kind {kind} mark {mark} size {size} rows {rows} from {from} span {span} nulls {nulls}"
        )
    }
}

/// Opens a case, and prints its nodes and what its calls answer, or the rule that it breaks.
pub(crate) fn show_case(
    rt: &(impl Files + Print + AllocGlobal),
    case: &Case,
) -> Result<(), Failure> {
    show_name(rt, case)?;
    match write_options(&case.options) {
        Ok(options) => show_opening(rt, case, options),
        Err(fault) => Ok(show_fault_of(rt, "options", fault)?),
    }
}

fn show_name(rt: &impl Print, case: &Case) -> io::Result<()> {
    let name = case.name.as_ref().map_or("-", |name| name.as_str());
    println!(rt; "case {name}")
}

// The options that a case sets, or the refusal of its alignment.
fn write_options(options: &Options) -> Result<IpcWriteOptions, Fault>
    ensures { MatchResult result
        (λ o. Sets o options.now.alignment options.now.dictionary_handling options.now.error_on_replacement)
        (λ fault. (is_alignment options.now.alignment ≡ false) × (fault ≡ fault_of refused.Alignment 0 0)) }
{
    let set = IpcWriteOptions::try_new(options.alignment as usize)?
        .with_dictionary_handling(options.dictionary_handling)
        .with_error_on_replacement(options.error_on_replacement);
    Ok(set)
}

// Prints the nodes of a case's recording, and then what its calls answer.
fn show_opening(
    rt: &(impl Files + Print + AllocGlobal),
    case: &Case,
    options: IpcWriteOptions,
) -> Result<(), Failure> {
    match Recording::try_new(&case.nodes, &case.bytes) {
        Ok(recording) => {
            show_recording(rt, &recording)?;
            let opened = Opened {
                recording,
                bytes: &case.bytes,
                options,
            };
            show_framing(rt, &opened, case)
        }
        Err(fault) => Ok(show_fault_of(rt, "open", fault)?),
    }
}

fn show_recording(rt: &impl Print, recording: &Recording) -> io::Result<()> {
    let nodes = recording.node_count();
    let bytes = recording.byte_count();
    println!(rt; "open ok nodes {nodes} bytes {bytes}")?;
    show_trees(rt, recording.trees(), 1)
}

// Prints trees whose tops stand at a depth.
fn show_trees(rt: &impl Print, trees: Trees, depth: u64) -> io::Result<()>
    requires { All (IsDeep depth) (places_left trees) }
{
    for node in trees {
        println!(rt; "{}", line_of(&node, depth))?;
        show_trees(rt, node.children(), depth + 1)?;
    }
    Ok(())
}

// The line of a node, which stands at a depth.
fn line_of(node: &NodeRef, depth: u64) -> NodeLine
    requires { depth ≡ depth_of (table_of node.now) node.now.index }
    ensures index { result.index ≡ node.now.index }
    ensures depth { result.depth ≡ depth_of (table_of node.now) node.now.index }
    ensures node { result.node ≡ numbers_of node.now }
    ensures nulls { (k : Kind) → Is result.node k
        → result.nulls ≡ nulls_at k (run_of node.now) result.node }
{
    NodeLine {
        index: node.index(),
        depth,
        node: node.node(),
        nulls: node.nulls(),
    }
}
