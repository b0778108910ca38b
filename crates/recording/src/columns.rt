//! The columns of a batch.
ghost use Rattle.std.specs.Prelude.{◌≡◌, ◌≤◌, length, All};
ghost use Rattle.recording.specs.Places.{rows_at, places_between};
ghost use Rattle.recording.specs.View.{nodes_in};

use crate::recording::Recording;
use crate::rows::Parts;
use crate::trees::Trees;
use crate::windows::Windows;

/// Nodes side by side with the same rows, as the columns of a batch are.
#[derive(Clone, Copy, Debug, PartialEq, Eq)]
pub struct Columns<'a> {
    pub(crate) recording: Recording<'a>,
    pub(crate) first: usize,
    pub(crate) end: usize,
    pub(crate) rows: u64,
    ghost within: { end ≤ length (nodes_in recording) },
    ghost alike: { All (λ p. rows_at p ≡ rows) (places_between recording first end) },
}

impl<'a> Columns<'a> {
    ghost use Rattle.std.specs.Prelude.{◌<◌};
    ghost use Rattle.recording.specs.Trees.{places_left};
    ghost use Rattle.recording.specs.RowPlaces.{parts_left, row_of_places};
    ghost use Rattle.recording.specs.ColumnPlaces.{column_places};
    ghost use Rattle.recording.specs.Passing.{windows_left, rows_of_places};

    /// The recording that they are of.
    pub fn recording(&self) -> Recording<'a>
        ensures { result ≡ self.now.recording }
    {
        self.recording
    }

    /// How many rows each has.
    pub fn rows(&self) -> u64
        ensures { result ≡ self.now.rows }
    {
        self.rows
    }

    /// Their nodes.
    pub fn nodes(&self) -> Trees<'a>
        ensures { places_left result ≡ column_places self.now }
    {
        Trees {
            recording: self.recording,
            next: self.first,
            end: self.end,
        }
    }

    /// All rows of each.
    pub fn windows(&self) -> Windows<'a>
        ensures { windows_left result ≡ rows_of_places 0 self.now.rows (column_places self.now) }
    {
        Windows {
            nodes: self.nodes(),
            first: 0,
            rows: self.rows,
        }
    }

    /// Row r of each.
    pub fn row(&self, r: u64) -> Parts<'a>
        requires { r < self.now.rows }
        ensures { parts_left result ≡ row_of_places r (column_places self.now) }
    {
        Parts {
            nodes: self.nodes(),
            index: r,
        }
    }
}
