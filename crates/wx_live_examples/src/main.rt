//! Runs a command again at changes of real folders, and tells of each change whether the journal of the run has what it should.
#![tactic(auto)]

mod changing;
mod places;
mod trials;
mod trying;

use changing::ChangingSource;
use places::{make_top, places_of};
use std::fs;
use std::io::{self, Print};
use std::process::ExitCode;
use trials::{TRIALS, Trial};
use trying::fails;
use wx_bytes::MemSink;

/// Prints how a trial came out, with what is written where that isn't as it should be. Answers whether it is.
fn tell<R: Print>(rt: &R, trial: &Trial, failed: Option<MemSink>) -> io::Result<bool> {
    let shows = trial.shows;
    let Some(written) = failed else {
        println!(rt; "{shows}: seen")?;
        return Ok(true);
    };
    let journal = std::str::from_utf8(written.text().as_slice()).unwrap_or("");
    println!(rt; "{shows}: not as it should be\n{journal}")?;
    Ok(false)
}

fn main(rt: HostRuntime) -> io::Result<ExitCode> {
    let top = make_top(&rt, std::process::id(rt.process()))?;
    let mut all = true;
    for (number, trial) in TRIALS.iter().enumerate() {
        let places = places_of(rt.alloc(), top.as_str(), number)?;
        let mut source = ChangingSource {
            rt,
            trial,
            places: places_of(rt.alloc(), top.as_str(), number)?,
        };
        let failed = fails(&rt, &places, trial, &mut source)?;
        all = tell(&rt, trial, failed)? && all;
    }
    fs::remove_dir_all(&rt, top.as_str())?;
    Ok(ExitCode::from(if all { 0 } else { 1 }))
}
