//! Laws of planning. Each stands as the contract of a function here; the functions themselves do nothing.
ghost use Rattle.columns.specs.Laws.{NothingElseCounts};

/// Messages that show the same are told the same, and are refused the same memories: nothing that is not shown counts.
pub fn nothing_else_counts_stands()
    ensures { NothingElseCounts }
{}
