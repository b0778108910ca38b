//! How much lent memory messages need.
ghost use Rattle.std.specs.Prelude.{◌≡◌, ◌≤◌, [], ◌∷◌, ◌++◌, length};
ghost use Rattle.layout.specs.Rules.{Is};
ghost use Rattle.recording.specs.NodeRefs.{numbers_of};
ghost use Rattle.recording.specs.Windows.{window_in};
ghost use Rattle.columns.specs.Buffers.{own_record, validity_of, own_buffers, windows_below};
ghost use Rattle.columns.specs.Needs.{Counts, added, buffer_count, made_size};
ghost use Rattle.columns.specs.Pieces.{work_of, pieces_in, pieces_side, fields_in, fields_side};

use layout::{Kind, bytes_for};
use recording::Window;

/// So many field records, buffer records and bytes of work memory. A sum that 64 bits do not hold is the most that they do:
/// no memory is that long.
#[derive(Clone, Copy, Debug, Default, PartialEq, Eq, Hash)]
pub(crate) struct Needs {
    pub fields: u64,
    pub buffers: u64,
    pub work: u64,
}

impl Needs {
    /// Those of both.
    pub(crate) fn plus(self, other: Needs) -> Needs
        ensures { result ≡ added self other }
    {
        Needs {
            fields: self.fields.saturating_add(other.fields),
            buffers: self.buffers.saturating_add(other.buffers),
            work: self.work.saturating_add(other.work),
        }
    }
}

/// None.
pub(crate) const NOTHING: Needs = Needs {
    fields: 0,
    buffers: 0,
    work: 0,
};

/// What a window needs.
#[cycle(count)]
pub(crate) fn count_array_data(window: &Window) -> Needs
    ensures { Counts (fields_in (window_in window.now)) (pieces_in (window_in window.now)) result }
{
    let kind = window.node().kind();
    own_needs(kind, window).plus(needs_below(kind, window))
}

// What the windows below it need that are written.
#[cycle(count)]
fn needs_below(kind: Kind, window: &Window) -> Needs
    requires { Is (numbers_of window.now.node) kind }
    ensures { Counts (fields_side (windows_below kind window.now)) (pieces_side (windows_below kind window.now)) result }
{
    match kind {
        Kind::List32 | Kind::List64 => count_array_data(&window.elements()),
        Kind::Struct => count_children(window),
        Kind::Null
        | Kind::Boolean
        | Kind::Fixed
        | Kind::Bytes32
        | Kind::Bytes64
        | Kind::Dictionary => NOTHING,
    }
}

// What the children of a Struct need.
#[cycle(count)]
fn count_children(window: &Window) -> Needs
    requires { Is (numbers_of window.now.node) Kind.Struct }
    ensures { Counts (fields_side (windows_below Kind.Struct window.now)) (pieces_side (windows_below Kind.Struct window.now)) result }
{
    let mut needs = NOTHING;
    for child in window.children() {
        needs = needs.plus(count_array_data(&child));
    }
    needs
}

// What a window needs of itself.
fn own_needs(kind: Kind, window: &Window) -> Needs
    requires { Is (numbers_of window.now.node) kind }
    ensures { Counts (own_record window.now ∷ []) (validity_of kind window.now ++ own_buffers kind window.now) result }
{
    let made = made_bytes(kind, window.rows());
    Needs {
        fields: 1,
        buffers: buffer_count(kind),
        work: validity_bytes(kind, window) + made,
    }
}

// How many buffers a node of a kind has.
fn buffer_count(kind: Kind) -> u64
    ensures { result ≡ buffer_count kind }
{
    match kind {
        Kind::Null => 0,
        Kind::Struct => 1,
        Kind::Boolean | Kind::Fixed | Kind::List32 | Kind::List64 | Kind::Dictionary => 2,
        Kind::Bytes32 | Kind::Bytes64 => 3,
    }
}

// How many bytes the offsets or the bits of so many rows are.
fn made_bytes(kind: Kind, rows: u64) -> u64
    requires { rows ≤ 2147483647 }
    ensures value { result ≡ made_size kind rows }
    ensures few { result ≤ 17179869184 }
{
    match kind {
        Kind::Boolean => bytes_for(rows),
        Kind::Bytes32 | Kind::List32 => (rows + 1) * 4,
        Kind::Bytes64 | Kind::List64 => (rows + 1) * 8,
        Kind::Null | Kind::Fixed | Kind::Struct | Kind::Dictionary => 0,
    }
}

// How many bytes say which of its rows are valid.
fn validity_bytes(kind: Kind, window: &Window) -> u64
    requires { Is (numbers_of window.now.node) kind }
    ensures value { result ≡ length (work_of (validity_of kind window.now)) }
    ensures few { result ≤ 268435456 }
{
    if !kind.has_bitmap() {
        return 0;
    }
    if !window.has_nulls() {
        return 0;
    }
    bytes_for(window.rows())
}
