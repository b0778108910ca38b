//! The calls of a case, with its header form and its sink.

use crate::calls::{Opened, show_calls};
use crate::failure::Failure;
use crate::sink::{CaseSink, header_slices, piece_lengths, sink_memory};
use frames::{Buffers, ByteSink, Numbers, Supplied};
use orders::{Call, Case, FormName, SinkSizes};
use std::rt::Files;
use std::{fs, io};

/// Makes the calls of a case that is opened, and then writes what its sink holds to where the case says.
pub(crate) fn show_framing(
    rt: &(impl Files + Print + AllocGlobal),
    opened: &Opened,
    case: &Case,
) -> Result<(), Failure> {
    let held = case.held.len();
    match case.sink {
        SinkSizes::Bytes { bytes } => {
            let mut memory = sink_memory(rt.alloc(), &case.held, asked(case, bytes))?;
            let mut sink = ByteSink::new(&mut memory, held);
            show_with_sink(rt, opened, case, &mut sink)
        }
        SinkSizes::Buffers { bytes, pieces } => {
            let mut memory = sink_memory(rt.alloc(), &case.held, asked(case, bytes))?;
            let mut lengths = piece_lengths(rt.alloc(), asked(case, pieces))?;
            let mut sink = Buffers::new(&mut memory, held, &mut lengths);
            show_with_sink(rt, opened, case, &mut sink)
        }
    }
}

// How much of a sink's room is made: none where the case writes no frame.
fn asked(case: &Case, room: u64) -> u64 {
    let frames = case
        .calls
        .iter()
        .any(|call| matches!(*call, Call::Frame(_)));
    if frames { room } else { 0 }
}

fn show_with_sink<S: CaseSink>(
    rt: &(impl Files + Print + AllocGlobal),
    opened: &Opened,
    case: &Case,
    sink: &mut S,
) -> Result<(), Failure> {
    show_with_form(rt, opened, case, sink)?;
    if let Some(path) = &case.out {
        fs::write(rt, path.as_str(), sink.bytes()).map_err(Failure::Out)?;
    }
    Ok(())
}

fn show_with_form<S: CaseSink>(
    rt: &(impl Print + AllocGlobal),
    opened: &Opened,
    case: &Case,
    sink: &mut S,
) -> io::Result<()> {
    match case.header_form() {
        FormName::Numbers => show_calls(rt, opened, &case.calls, &Numbers, sink),
        FormName::Supplied => {
            let headers = header_slices(rt.alloc(), &case.headers)?;
            let form = Supplied { headers: &headers };
            show_calls(rt, opened, &case.calls, &form, sink)
        }
    }
}
