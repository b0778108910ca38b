//! Opens the recordings that an order spells, and prints their trees and what it asks for, the rows, the dictionaries and the
//! messages of batches, or the rules that they break.
#![tactic(auto)]

mod body;
mod calls;
mod failure;
mod frame;
mod framing;
mod memory;
mod message;
mod plan;
mod sample;
mod show;
mod sink;
mod told;
mod update;
mod value;

use failure::Failure;
use orders::{Case, read_order};
use sample::SAMPLE;
use show::show_case;
use std::process::ExitCode;
use std::rt::{Env, Files};
use std::{env, fs};

fn main(rt: HostRuntime) -> ExitCode {
    match run(&rt) {
        Ok(()) => ExitCode::SUCCESS,
        Err(failure) => {
            // Where the words cannot be written either, the status still says it.
            let _ = eprintln!(rt; "{failure}");
            ExitCode::FAILURE
        }
    }
}

// The whole order is read before its first case is opened, so that a bad order prints no answer.
fn run(rt: &(impl Env + Files + AllocGlobal + Print)) -> Result<(), Failure> {
    for case in ordered(rt)?.iter() {
        show_case(rt, case)?;
    }
    Ok(())
}

// The cases of the order that the command line names, or of the sample.
fn ordered(rt: &(impl Env + Files + AllocGlobal)) -> Result<Vec<Case>, Failure> {
    let cases = match order_path(rt)? {
        None => read_order(rt, SAMPLE.as_bytes()),
        Some(path) => {
            let text = fs::read(rt, path.as_str()).map_err(Failure::Unread)?;
            read_order(rt, &text)
        }
    };
    cases.map_err(Failure::Order)
}

// The one word that the command line may have.
fn order_path(rt: &(impl Env + AllocGlobal)) -> Result<Option<String>, Failure> {
    let mut words = env::args(rt).map_err(Failure::Unread)?;
    let _program = words.next();
    let path = words.next();
    if words.next().is_some() {
        return Err(Failure::Usage);
    }
    Ok(path)
}
