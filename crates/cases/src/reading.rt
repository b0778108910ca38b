//! The readers of an opened recording, on one of each kind.
use crate::refusals::{bytes, nodes};
use layout::{Fault, Kind, Refusal};
use recording::{Recording, RowValue};
use std::test::Fail;

/// What is read of a row: the number that its slot holds; of a Fixed, how many bytes that slot has.
// A null row is no failure, and its slot holds a number too; so this is no `Result`.
#[derive(Clone, Copy, Debug, PartialEq, Eq)]
enum RowRead {
    Valid(u64),
    Null(u64),
}

/// What is read of a tree.
#[derive(Clone, Copy, Debug, PartialEq, Eq)]
struct TreeRead {
    end: usize,
    nulls: u64,
}

// Row r of node i, where the recording has it and its kind has slots.
fn row(recording: &Recording, i: usize, r: u64) -> Option<RowRead> {
    let node = recording.get(i)?;
    let row = node.get_row(r)?;
    let held = match node.kind() {
        Kind::Null | Kind::Struct => return None,
        Kind::Boolean => u64::from(row.bit()),
        Kind::Fixed => row.slot().len() as u64,
        Kind::Bytes32 | Kind::Bytes64 | Kind::List32 | Kind::List64 => node.offsets().at(r),
        Kind::Dictionary => row.key(),
    };
    Some(if row.is_valid() {
        RowRead::Valid(held)
    } else {
        RowRead::Null(held)
    })
}

// The tree at node i, where the recording has it.
fn tree(recording: &Recording, i: usize) -> Option<TreeRead> {
    let node = recording.get(i)?;
    Some(TreeRead {
        end: node.end(),
        nulls: node.nulls(),
    })
}

const NODES: &str =
    "7 0 0 2 1 1 0 0 0 9, 1 0 0 2 3 3 1 0 0 1, 2 0 3 2 0 0 3 0 0 1, 3 0 0 2 0 0 9 9 5 1, \
     4 0 0 2 0 0 21 0 4 1, 5 0 0 2 0 0 45 0 0 2, 0 0 0 4 0 0 0 0 0 1, 8 0 2 2 0 62 57 0 0 2, 0 0 0 9 0 0 0 0 0 1";

const BYTES: &str =
    "06 08 10 61 62 63 64 65 66 00 00 00 00 02 00 00 00 05 00 00 00 01 00 00 00 00 00 00 00 \
     01 00 00 00 00 00 00 00 04 00 00 00 00 00 00 00 00 00 00 00 03 00 00 00 04 00 00 00 08 00 ff ff 01";

// Node, row, and what is read of it.
const ROWS: [(usize, u64, RowRead); 8] = [
    (1, 0, RowRead::Null(1)),
    (1, 1, RowRead::Valid(0)),
    (2, 1, RowRead::Valid(3)),
    (3, 1, RowRead::Valid(2)),
    (4, 0, RowRead::Valid(1)),
    (5, 1, RowRead::Valid(3)),
    (7, 0, RowRead::Valid(8)),
    (7, 1, RowRead::Null(65535)),
];

// Node, and what is read of its tree.
const TREES: [(usize, TreeRead); 5] = [
    (0, TreeRead { end: 9, nulls: 0 }),
    (1, TreeRead { end: 2, nulls: 1 }),
    (5, TreeRead { end: 7, nulls: 0 }),
    (6, TreeRead { end: 7, nulls: 4 }),
    (7, TreeRead { end: 9, nulls: 1 }),
];

#[test]
fn rows_and_trees(rt: HostRuntime) -> Result<(), Fail> {
    let heap = rt.alloc();
    let (nodes, bytes) = (nodes(heap, NODES)?, bytes(heap, BYTES)?);
    let recording = Recording::try_new(nodes.as_slice(), bytes.as_slice())?;
    for (i, r, read) in ROWS {
        assert_eq!(rt; row(&recording, i, r), Some(read), "node {i} row {r}");
    }
    for (i, read) in TREES {
        assert_eq!(rt; tree(&recording, i), Some(read), "node {i}");
    }
    assert_eq!(rt; row(&recording, 0, 0), None);
    assert_eq!(rt; row(&recording, 1, 2), None);
    assert_eq!(rt; tree(&recording, 9), None);
    Ok(())
}

/// What a row has: its bit, or how many bytes or elements.
#[derive(Clone, Copy, Debug, PartialEq, Eq)]
enum RowHas {
    Nothing,
    Bit(bool),
    Fixed(usize),
    Bytes(usize),
    List(u64),
    Struct,
    Entry,
}

// Row r of node i, where the recording has it.
fn row_has_at(recording: &Recording, i: usize, r: u64) -> Option<RowHas> {
    let has = match recording.get(i)?.get_row(r)?.value() {
        RowValue::Null => RowHas::Nothing,
        RowValue::Bit(bit) => RowHas::Bit(bit),
        RowValue::Fixed(bytes) => RowHas::Fixed(bytes.len()),
        RowValue::Bytes(bytes) => RowHas::Bytes(bytes.len()),
        RowValue::List(window) => RowHas::List(window.rows()),
        RowValue::Struct(_) => RowHas::Struct,
        RowValue::Entry(_) => RowHas::Entry,
    };
    Some(has)
}

// Node, row, and what it has.
const VALUES: [(usize, u64, RowHas); 11] = [
    (0, 0, RowHas::Struct),
    (1, 0, RowHas::Nothing),
    (1, 1, RowHas::Bit(false)),
    (2, 1, RowHas::Fixed(3)),
    (3, 0, RowHas::Bytes(2)),
    (4, 0, RowHas::Bytes(0)),
    (5, 0, RowHas::List(3)),
    (5, 1, RowHas::List(1)),
    (6, 3, RowHas::Nothing),
    (7, 0, RowHas::Entry),
    (7, 1, RowHas::Nothing),
];

// First node, columns, rows, and the rows of the columns that are found, or the refusal and the column that it names.
const COLUMNS: [(usize, u64, u64, Result<u64, (u32, u64)>); 6] = [
    (0, 1, 2, Ok(2)),
    (1, 6, 2, Ok(2)),
    (9, 0, 7, Ok(7)),
    (1, 7, 2, Err((10, 6))),
    (1, 2, 3, Err((10, 0))),
    (1, 1, 2_147_483_648, Err((15, 0))),
];

#[test]
fn values_and_columns(rt: HostRuntime) -> Result<(), Fail> {
    let heap = rt.alloc();
    let (nodes, bytes) = (nodes(heap, NODES)?, bytes(heap, BYTES)?);
    let recording = Recording::try_new(nodes.as_slice(), bytes.as_slice())?;
    for (i, r, has) in VALUES {
        assert_eq!(rt; row_has_at(&recording, i, r), Some(has), "node {i} row {r}");
    }
    for (first, columns, rows, found) in COLUMNS {
        let answer = recording
            .columns(first, columns, rows)
            .map(|found| found.rows())
            .map_err(|fault| (fault.number(), fault.column));
        assert_eq!(rt; answer, found, "{columns} columns from node {first}");
    }
    Ok(())
}

/// What two openings answer, and what the recording holds after both.
#[derive(Clone, Copy, Debug, PartialEq, Eq)]
struct Both {
    first: Result<(), Fault>,
    second: Result<(), Fault>,
    nodes: usize,
    bytes: usize,
}

fn after_both<'x>(good: &'x [u8], bad: &'x [u8], bytes: &'x [u8]) -> Both {
    let mut recording = Recording::empty();
    Both {
        first: recording.open(good, bytes),
        second: recording.open(bad, b""),
        nodes: recording.node_count(),
        bytes: recording.byte_count(),
    }
}

#[test]
fn a_refusal_leaves_the_recording(rt: HostRuntime) -> Result<(), Fail> {
    let nodes = nodes(rt.alloc(), "0 0 0 3 0 0 0 0 0 1")?;
    let both = Both {
        first: Ok(()),
        second: Err(Fault::from(Refusal::NodeBytes)),
        nodes: 1,
        bytes: 3,
    };
    assert_eq!(rt; after_both(nodes.as_slice(), b"1", b"abc"), both);
    Ok(())
}
