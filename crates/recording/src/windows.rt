//! Windows of nodes side by side.
ghost use Rattle.std.specs.Prelude.{◌+◌, ◌≤◌, All};
ghost use Rattle.recording.specs.Places.{rows_at};
ghost use Rattle.recording.specs.Trees.{places_left};

use crate::trees::Trees;
use crate::window::Window;

/// The same rows of nodes side by side, a window of each: what a window passes to the children of its node, or the columns of a batch.
#[derive(Debug, Drop)]
pub struct Windows<'a> {
    pub(crate) nodes: Trees<'a>,
    pub(crate) first: u64,
    pub(crate) rows: u64,
    ghost has: { All (λ p. first + rows ≤ rows_at p) (places_left nodes) },
}

impl<'a> Iterator for Windows<'a> {
    ghost use Rattle.std.specs.Iterator.{YieldsFirstBy, item_count};
    ghost use Rattle.recording.specs.Passing.{windows_left};
    ghost use Rattle.recording.specs.Windows.{window_in};

    type Item = Window<'a>;

    ghost next_gives = { YieldsFirstBy window_in windows_left };

    ghost remaining = { item_count windows_left };

    fn next(&mut self) -> Option<Window<'a>> {
        let node = self.nodes.next()?;
        Some(Window {
            node,
            first: self.first,
            rows: self.rows,
        })
    }
}
