//! A list in lent memory.
ghost use Rattle.std.specs.Prelude.{◌≡◌, ◌+◌, ◌<◌, [], ◌∷◌, length};
ghost use Rattle.columns.specs.Lists.{Grows, lent};

/// A list in lent memory: its items stand from the first place on.
#[derive(Drop)]
pub(crate) struct LentList<'a, T> {
    pub memory: &'a mut [T],
    pub len: usize,
}

impl<'a, T: Copy> LentList<'a, T> {
    /// One more item.
    pub(crate) fn push(&mut self, item: T)
        requires { self.now.len < length self.now.memory.now }
        ensures { Grows (lent self.old) (lent self.new) (item ∷ []) }
    {
        self.memory[self.len] = item;
        self.len += 1;
    }
}
