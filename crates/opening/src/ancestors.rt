ghost use Rattle.std.specs.Prelude.{◌≡◌, ℕ, ◌<◌, ◌≤◌, List, [], ◌∷◌, ◌++◌, length};
ghost use Rattle.opening.specs.Ends.{Leaves};

use crate::subject::MOST_DEEP;
use arrayvec::ArrayVec;
use std::marker::Model;

/// Where the nodes end that a walk over a table stands below, the innermost last.
#[derive(Drop)]
pub(crate) struct Ancestors {
    ends: ArrayVec<usize, MOST_DEEP>,
}

impl Model for Ancestors {
    ghost Value = { List ℕ };

    ghost view = { λ a. a.ends.items };
}

impl Ancestors {
    pub(crate) fn new() -> Ancestors
        ensures { result ≡ [] }
    {
        Ancestors {
            ends: ArrayVec::new(),
        }
    }

    /// How many they are.
    pub(crate) fn len(&self) -> usize
        ensures number { result ≡ length self.now }
        ensures few { result ≤ 64 }
    {
        self.ends.len()
    }

    /// Leaves the innermost ones that end before node i or at it.
    pub(crate) fn leave(&mut self, i: usize)
        ensures { Leaves i self.old self.new }
    {
        while self.ends.last().is_some_and(|end| *end <= i) {
            let _ = self.ends.pop();
        }
    }

    /// Enters a node that ends at `end`.
    pub(crate) fn enter(&mut self, end: usize)
        requires { length self.old < 64 }
        ensures { self.new ≡ self.old ++ end ∷ [] }
    {
        self.ends.push(end);
    }
}
