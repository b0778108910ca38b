//! Worked cases: some derived from the definitions, the others run.
#![tactic(auto)]

ghost use Rattle.cases.specs.Openings.{Openings};
ghost use Rattle.cases.specs.WindowCases.{WindowCases};
ghost use Rattle.cases.specs.DictionaryCases.{DictionaryCases};
ghost use Rattle.cases.specs.FrameCases.{FrameCases};
ghost use Rattle.cases.specs.RunCases.{RunCases};

#[cfg(test)]
mod collecting;
#[cfg(test)]
mod frames_table;
#[cfg(test)]
mod framing;
#[cfg(test)]
mod options;
#[cfg(test)]
mod planning;
#[cfg(test)]
mod plans;
#[cfg(test)]
mod reading;
#[cfg(test)]
mod refusals;
#[cfg(test)]
mod table;

/// The openings of specs/Openings.antt end as they say there.
pub fn opening_cases_stand()
    ensures { Openings }
{}

/// The windows of specs/WindowCases.antt have the values, and are sent, as they say there.
pub fn window_cases_stand()
    ensures { WindowCases }
{}

/// The dictionaries of specs/DictionaryCases.antt have the updates that it says there.
pub fn dictionary_cases_stand()
    ensures { DictionaryCases }
{}

/// The frames of specs/FrameCases.antt are as it says there.
pub fn frame_cases_stand()
    ensures { FrameCases }
{}

/// The run of specs/RunCases.antt comes to what it says there.
pub fn run_cases_stand()
    ensures { RunCases }
{}
