//! Laws of the definitions in `layout`, over every opened recording and every window inside a node's rows. Each stands as the contract of
//! a function here; the functions themselves do nothing.
#![tactic(auto)]

ghost use Rattle.laws.specs.RoundTrip.{RoundTrip, ShowsValues, Heard};
ghost use Rattle.laws.specs.NothingElse.{NothingElseCounts};
ghost use Rattle.laws.specs.Equality.{Equality, ToldByShown};
ghost use Rattle.laws.specs.Sizes.{Sizes};
ghost use Rattle.laws.specs.Places.{Places};
ghost use Rattle.laws.specs.Passing.{Passing};

/// Read by the Arrow rules, the records and the body of windows side by side give back their rows and values, and nothing is left over.
pub fn round_trip_stands()
    ensures { RoundTrip }
{}

/// The message of a dictionary in which no dictionary is met sets the values of its id, and a delta of the later rows makes them those of the
/// whole window.
pub fn dictionaries_heard_stands()
    ensures { Heard }
{}

/// What a window shows has the values that the recording has in its rows.
pub fn shows_values_stands()
    ensures { ShowsValues }
{}

/// Windows that show the same have equal records, buffers, bodies, needs and values, and are equal to the same windows.
pub fn nothing_else_counts_stands()
    ensures { NothingElseCounts }
{}

/// Equality of windows is an equivalence, and a window equal to the first rows of a longer one has its first values.
pub fn equality_stands()
    ensures { Equality }
{}

/// What two windows show tells whether they are equal, and whether one goes on after the other.
pub fn told_by_shown_stands()
    ensures { ToldByShown }
{}

/// Buffers stand end to end with their padding, and every number of a message fits 63 bits.
pub fn sizes_stands()
    ensures { Sizes }
{}

/// Bits, values, keys, offsets and byte strings that are sent, by the places of the recording's bytes.
pub fn places_stands()
    ensures { Places }
{}

/// What a window passes to its children lies inside their rows, and is what it shows of them.
pub fn passing_stands()
    ensures { Passing }
{}
