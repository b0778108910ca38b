//! A kept dictionary beside a new one, row by row.
ghost use Rattle.std.specs.Prelude.{◌≡◌, true, [], ◌↔◌, ◌<◌, ◌≤◌, ◌+◌, ◌*◌, ◌&&◌, length, ◌==◌};
ghost use Rattle.std.specs.Bool.{beq};
ghost use Rattle.std.specs.List.{range_with_len, list_all, fold};
ghost use Rattle.layout.specs.Bits.{bytes_for};
ghost use Rattle.layout.specs.Kinds.{kind_number};
ghost use Rattle.layout.specs.Numbers.{wide};
ghost use Rattle.layout.specs.Rules.{Is, HasOffsets};
ghost use Rattle.layout.specs.Trees.{tree_at};
ghost use Rattle.layout.specs.Windows.{shape_of, met_in, tree_in, shown_in};
ghost use Rattle.recording.specs.Contents.{offset_in};
ghost use Rattle.recording.specs.NodeRefs.{table_of, run_of, numbers_of};
ghost use Rattle.recording.specs.Windows.{window_in};
ghost use Rattle.dictionaries.specs.Comparing.{comparison};
ghost use Rattle.dictionaries.specs.Rows.{Alike, SameRows, SameMarks, Valid, uses_size, same_node, same_nodes};
ghost use Rattle.dictionaries.specs.Windows.{SameParts, TellsCounts, same_byte, count_in};

use layout::{BitSlice, Kind, Width, bytes_for, read};
use recording::{NodeRef, Window};

/// How a new dictionary compares with the one that was kept.
#[derive(Clone, Copy, Debug, PartialEq, Eq, Hash)]
pub enum DictionaryComparison {
    /// Neither of the others.
    NotEqual,
    /// The same rows.
    Equal,
    /// The new one is longer, and its first rows are the kept one's.
    Delta,
}

/// Compares the kept window of a dictionary with the new one, in which no dictionary is met.
pub(crate) fn compare_dictionaries(old: &Window, new: &Window) -> DictionaryComparison
    requires { met_in (tree_in (window_in new.now)) ≡ [] }
    ensures { result ≡ comparison (shown_in (window_in old.now)) (shown_in (window_in new.now)) }
{
    // A shorter one cannot be a delta.
    if new.rows() < old.rows() || !same_shape(&new.node(), &old.node()) {
        return DictionaryComparison::NotEqual;
    }
    if !equal_rows(&new.part(0, old.rows()), old) {
        return DictionaryComparison::NotEqual;
    }
    if new.rows() == old.rows() {
        DictionaryComparison::Equal
    } else {
        DictionaryComparison::Delta
    }
}

// Whether kinds, marks, used sizes and nesting of two trees agree.
fn same_shape(one: &NodeRef, other: &NodeRef) -> bool
    ensures { (result ≡ true) ↔ (shape_of (tree_at (table_of one.now) one.now.index) ≡ shape_of (tree_at (table_of other.now) other.now.index)) }
{
    // A span counts the nodes of a tree, so where spans agree node by node, the nesting does.
    one.node().span == other.node().span && same_nodes(one, other)
}

// The same, node by node.
fn same_nodes(one: &NodeRef, other: &NodeRef) -> bool
    requires { (numbers_of one.now).span ≡ (numbers_of other.now).span }
    ensures { result ≡ same_nodes (table_of one.now) one.now.index (table_of other.now) other.now.index (numbers_of one.now).span }
{
    (0..one.node().span).all(|k| same_node(&one.in_tree(k), &other.in_tree(k)))
}

// Whether kind, mark, span and used size of two nodes agree.
fn same_node(one: &NodeRef, other: &NodeRef) -> bool
    ensures { result ≡ same_node (numbers_of one.now) (numbers_of other.now) }
{
    let (m, n) = (one.node(), other.node());
    m.kind == n.kind
        && m.mark == n.mark
        && m.span == n.span
        && (!uses_size(one.kind()) || m.size == n.size)
}

// Whether a kind uses its size.
fn uses_size(kind: Kind) -> bool
    ensures { result ≡ uses_size (kind_number kind) }
{
    matches!(kind, Kind::Fixed | Kind::Dictionary)
}

// Whether the rows of two windows have the same values.
#[cycle(rows)]
fn equal_rows(one: &Window, other: &Window) -> bool
    requires { Alike (window_in one.now) (window_in other.now) }
    ensures { (result ≡ true) ↔ SameRows (window_in one.now) (window_in other.now) }
{
    // Which rows are valid is compared first, eight of them at a time.
    if !equal_marks(one, other) {
        return false;
    }
    let mut from = 0;
    while from < one.rows() {
        let run = one.run_from(from);
        // What lies under nulls does not count.
        if run.valid && !equal_valid_rows(&one.part(from, run.rows), &other.part(from, run.rows)) {
            return false;
        }
        from += run.rows;
    }
    true
}

// Whether the same rows of two windows are valid.
fn equal_marks(one: &Window, other: &Window) -> bool
    requires { Alike (window_in one.now) (window_in other.now) }
    ensures { (result ≡ true) ↔ SameMarks (window_in one.now) (window_in other.now) }
{
    match (one.marks(), other.marks()) {
        (Some(mine), Some(others)) => equal_bits(&mine, &others),
        // Without a bitmap all rows are valid.
        (Some(mine), None) => mine.count_zeros() == 0,
        (None, Some(others)) => others.count_zeros() == 0,
        (None, None) => true,
    }
}

// The same where every row is valid.
#[cycle(rows)]
fn equal_valid_rows(one: &Window, other: &Window) -> bool
    requires alike { Alike (window_in one.now) (window_in other.now) }
    requires valid { Valid (window_in one.now) }
    requires others { Valid (window_in other.now) }
    ensures { (result ≡ true) ↔ SameRows (window_in one.now) (window_in other.now) }
{
    match one.node().kind() {
        // No row of a Null is valid, and no Dictionary comes here.
        Kind::Null | Kind::Dictionary => true,
        Kind::Boolean => equal_bits(&one.bits(), &other.bits()),
        Kind::Fixed => one.slots() == other.slots(),
        Kind::Bytes32 | Kind::Bytes64 => {
            equal_counts(one, other) && one.strings() == other.strings()
        }
        Kind::List32 | Kind::List64 => {
            equal_counts(one, other) && equal_rows(&one.elements(), &other.elements())
        }
        Kind::Struct => equal_parts(one, other),
    }
}

// Whether the children of two Structs have the same values in these rows.
#[cycle(rows)]
fn equal_parts(one: &Window, other: &Window) -> bool
    requires alike { Alike (window_in one.now) (window_in other.now) }
    requires is { Is (numbers_of one.now.node) Kind.Struct }
    ensures { (result ≡ true) ↔ SameParts one.now other.now }
{
    let mut twins = other.children();
    for part in one.children() {
        let Some(twin) = twins.next() else {
            return false;
        };
        if !equal_rows(&part, &twin) {
            return false;
        }
    }
    true
}

// Whether bits are the same, eight at a time.
fn equal_bits(one: &BitSlice, other: &BitSlice) -> bool
    requires { one.now.len ≡ other.now.len }
    ensures { result ≡ list_all (same_byte one.now other.now) (range_with_len 0 (bytes_for one.now.len)) }
{
    (0..bytes_for(one.len)).all(|i| one.byte(i) == other.byte(i))
}

// Whether each row of two windows has as many bytes or elements as the same row of the other.
fn equal_counts(one: &Window, other: &Window) -> bool
    requires offsets { (w : Width) × HasOffsets (numbers_of one.now.node) w }
    requires same { (w : Width) → HasOffsets (numbers_of one.now.node) w → HasOffsets (numbers_of other.now.node) w }
    requires rows { one.now.rows ≡ other.now.rows }
    ensures { TellsCounts result one.now other.now }
{
    let (mine, others) = (one.offset_slots(), other.offset_slots());
    // A width that is known when the loop is compiled makes vector code of it.
    if one.node().kind().offset_width() == Some(Width::Four) {
        same_counts(mine, others, one.rows(), Width::Four)
    } else {
        same_counts(mine, others, one.rows(), Width::Eight)
    }
}

// Whether by two lists of offsets each row has as many bytes or elements.
fn same_counts(mine: &[u8], others: &[u8], rows: u64, width: Width) -> bool
    requires mine { (rows + 1) * wide width ≤ length mine.now }
    requires others { (rows + 1) * wide width ≤ length others.now }
    ensures { result ≡ fold (λ ok r. ok && (count_in mine.now (wide width) r == count_in others.now (wide width) r)) true (range_with_len 0 rows) }
{
    (0..rows).fold(true, |same, r| {
        same & (count_in(mine, width, r) == count_in(others, width, r))
    })
}

// How many bytes or elements row r has by these offsets.
fn count_in(offsets: &[u8], width: Width, r: u64) -> u64
    requires { (r + 2) * wide width ≤ length offsets.now }
    ensures { result ≡ count_in offsets.now (wide width) r }
{
    let (first, end) = (
        offset_in(offsets, width, r),
        offset_in(offsets, width, r + 1),
    );
    // They rise, so this is their difference.
    end.saturating_sub(first)
}

// The offset of row r.
fn offset_in(offsets: &[u8], width: Width, r: u64) -> u64
    requires { (r + 1) * wide width ≤ length offsets.now }
    ensures { result ≡ offset_in offsets.now (wide width) r }
{
    let at = r * width.bytes() as u64;
    read(&offsets[at as usize..], width)
}
