//! Laws of collecting and comparing. Each stands as the contract of a function here; the functions themselves do nothing.
ghost use Rattle.dictionaries.specs.Comparing.{Tested};
ghost use Rattle.dictionaries.specs.Laws.{NothingElseCounts, KeepsShown};

/// Batches that show the same, beside kept windows that show the same, have the same updates or the same refusal.
pub fn nothing_else_counts_stands()
    ensures { NothingElseCounts }
{}

/// What is kept after a batch shows what the batch showed of it.
pub fn kept_shown_stands()
    ensures { KeepsShown }
{}

/// The tests that the updates are defined by are true exactly if the windows are equal, or one goes on after the other.
pub fn tests_stand()
    ensures { Tested }
{}
