//! Every refusal of an opening, at each of its reasons and at its limits.
use crate::table::TABLE;
use layout::{NODE_BYTES, NODE_NUMBERS, Node};
use recording::Recording;
use std::alloc::Global;
use std::process::Abort;
use std::test::Fail;

/// How an opening ends: a refusal by its number and its node.
// Numbers, since a host is told these and the table of cases has them.
type Told = Result<(), (u32, u64)>;

fn told<'x>(nodes: &'x [u8], bytes: &'x [u8]) -> Told {
    Recording::try_new(nodes, bytes)
        .map(|_| ())
        .map_err(|fault| (fault.number(), fault.node))
}

// What is read of a word is all that these two differ in; a function that took it would ask where it may be called.
pub(crate) fn numbers(heap: Global, text: &str) -> Result<Vec<u64>, Fail> {
    text.split_whitespace()
        .map(|word| -> Result<u64, Fail> { Ok(word.parse::<u64>()?) })
        .try_collect(heap)
}

fn node(heap: Global, text: &str) -> Result<Node, Fail> {
    let numbers = numbers(heap, text)?;
    let ten = <[u64; NODE_NUMBERS]>::try_from(numbers.as_slice()).map_err(
        |_| "a node has ten numbers",
    )?;
    Ok(Node::from(ten))
}

// This, `nulls` and `nested` differ in the nodes that they append; to hand these over would be as long.
pub(crate) fn nodes(heap: Global, text: &str) -> Result<Vec<u8>, Fail> {
    let mut all = Vec::new(heap);
    for part in text.split(',') {
        all.extend_from_slice(&node(heap, part)?.to_bytes())?;
    }
    Ok(all)
}

pub(crate) fn bytes(heap: Global, text: &str) -> Result<Vec<u8>, Fail> {
    text.split_whitespace()
        .map(|pair| -> Result<u8, Fail> { Ok(u8::from_str_radix(pair, 16)?) })
        .try_collect(heap)
}

// What a line of the table expects: a refusal's number and node, or 0 and 0 where the recording opens.
fn expected(heap: Global, text: &str) -> Result<Told, Fail> {
    match numbers(heap, text)?.as_slice() {
        [0, 0] => Ok(Ok(())),
        [number, node] => Ok(Err((u32::try_from(*number)?, *node))),
        _ => Err(Fail::from("an answer has two numbers")),
    }
}

// A line of the table: what the rules say, the nodes, the bytes.
fn line_holds(rt: &impl Abort, heap: Global, line: &str) -> Result<(), Fail> {
    let (answer, recording) = line.split_once('|').ok_or("no answer")?;
    let (table, run) = recording.split_once('|').ok_or("no bytes")?;
    let nodes = nodes(heap, table)?;
    let bytes = bytes(heap, run)?;
    assert_eq!(rt;
        told(nodes.as_slice(), bytes.as_slice()),
        expected(heap, answer)?,
        "{line}"
    );
    Ok(())
}

#[test]
fn table(rt: HostRuntime) -> Result<(), Fail> {
    for line in TABLE.lines() {
        if !line.starts_with('#')
            && let Err(fail) = line_holds(&rt, rt.alloc(), line)
        {
            let _ = eprintln!(rt; "{line}");
            return Err(fail);
        }
    }
    Ok(())
}

#[test]
fn node_bytes(rt: HostRuntime) {
    assert_eq!(rt; told(b"", b"any bytes"), Ok(()));
    assert_eq!(rt; told(b"1", b""), Err((2, 0)));
    assert_eq!(rt; told(&[0; 79], b""), Err((2, 0)));
    assert_eq!(rt; told(&[0; 81], b""), Err((2, 0)));
    assert_eq!(rt; told(&[0; NODE_BYTES], b""), Err((5, 0)));
}

// So many Nulls without rows.
fn nulls(heap: Global, count: usize) -> Result<Told, Fail> {
    let null = Node::from([0, 0, 0, 0, 0, 0, 0, 0, 0, 1]).to_bytes();
    let mut all = Vec::new(heap);
    for _ in 0..count {
        all.extend_from_slice(&null)?;
    }
    Ok(told(all.as_slice(), b""))
}

#[test]
fn how_many_nodes(rt: HostRuntime) -> Result<(), Fail> {
    assert_eq!(rt; nulls(rt.alloc(), 65_535)?, Ok(()));
    assert_eq!(rt; nulls(rt.alloc(), 65_536)?, Err((3, 0)));
    Ok(())
}

// Structs one below the other, so many deep.
fn nested(heap: Global, deep: u64) -> Result<Told, Fail> {
    let mut all = Vec::new(heap);
    for span in (1..=deep).rev() {
        all.extend_from_slice(&Node::from([7, 0, 0, 0, 0, 0, 0, 0, 0, span]).to_bytes())?;
    }
    Ok(told(all.as_slice(), b""))
}

#[test]
fn depth(rt: HostRuntime) -> Result<(), Fail> {
    assert_eq!(rt; nested(rt.alloc(), 64)?, Ok(()));
    assert_eq!(rt; nested(rt.alloc(), 65)?, Err((5, 64)));
    assert_eq!(rt; nested(rt.alloc(), 66)?, Err((5, 64)));
    Ok(())
}
