// The keyboard of a trial, which changes its folder before it gives a key.
ghost use Rattle.std.specs.Prelude.{None};

use crate::places::Places;
use crate::trials::{Change, Trial};
use std::alloc::AllocGlobal;
use std::rt::{Clock, Files};
use std::time::Duration;
use std::{fs, io, thread};
use wx_bytes::{ReadFault, Source};

/// How many milliseconds pass between two looks.
const STEP: u64 = 10;

/// How often it looks for the first run.
const FIRST: u32 = 1000;

/// How often it looks before a change is made again.
const LOOKS: u32 = 200;

/// How often a change is made at most.
const TRIES: u32 = 5;

/// How many steps it waits before the first change, since the folder is watched only when the run has begun.
const START: u32 = 30;

/// A source that makes the changes of a trial before its first byte.
pub struct ChangingSource<R: Files + Clock + AllocGlobal + Copy + Drop> {
    pub rt: R,
    pub trial: &'static Trial,
    pub places: Places,
}

// Its parts are dropped by one call: docs/DESIGN.md, "What proofs cost".
impl<R: Files + Clock + AllocGlobal + Copy + Drop> Drop for ChangingSource<R> {
    fn drop(self) {
        let ChangingSource {
            rt: _,
            trial: _,
            places: _,
        } = self;
    }
}

fn pause<R: Clock>(rt: &R) {
    thread::sleep(rt, Duration::from_millis(STEP));
}

/// How often the command has run.
fn runs<R: Files>(rt: &R, places: &Places) -> u64 {
    match fs::metadata(rt, places.mark.as_str()) {
        Ok(data) => data.len(),
        Err(_) => 0,
    }
}

/// Whether the command has run more often than so, by so many looks at most.
fn is_run<R: Files + Clock>(rt: &R, places: &Places, before: u64, looks: u32) -> bool {
    for _ in 0..looks {
        if runs(rt, places) > before {
            return true;
        }
        pause(rt);
    }
    false
}

/// Makes a change at a name. One that was made before is made again.
fn change<R: Files + AllocGlobal>(
    rt: &R,
    places: &Places,
    change: Change,
    name: &str,
) -> io::Result<()> {
    let path = format!(in rt.alloc(); "{}/{name}", places.folder)?;
    match change {
        Change::Write => fs::write(rt, path.as_str(), "new\n"),
        Change::Folder => {
            drop(fs::remove_dir_all(rt, path.as_str()));
            fs::create_dir(rt, path.as_str())
        }
        Change::Save => {
            fs::write(rt, places.beside.as_str(), "saved\n")?;
            fs::rename(rt, places.beside.as_str(), path.as_str())
        }
        Change::Remove => match fs::remove_file(rt, path.as_str()) {
            Ok(()) => Ok(()),
            Err(_) => fs::write(rt, path.as_str(), "here again\n"),
        },
    }
}

/// Makes a change until the command runs again, a few times at most.
fn change_until_run<R: Files + Clock + AllocGlobal>(
    rt: &R,
    places: &Places,
    what: Change,
    name: &str,
) -> io::Result<()> {
    let before = runs(rt, places);
    for _ in 0..TRIES {
        change(rt, places, what, name)?;
        if is_run(rt, places, before, LOOKS) {
            return Ok(());
        }
    }
    Ok(())
}

/// Makes all changes of a trial that a key ends, the first when the command has run.
fn change_all<R: Files + Clock + AllocGlobal>(
    rt: &R,
    trial: &Trial,
    places: &Places,
) -> io::Result<()> {
    if !trial.quits {
        return Ok(());
    }
    if trial.runs > 0 {
        is_run(rt, places, 0, FIRST);
    }
    for _ in 0..START {
        pause(rt);
    }
    for (what, name) in trial.changes {
        change_until_run(rt, places, *what, name)?;
    }
    Ok(())
}

impl<R: Files + Clock + AllocGlobal + Copy + Drop> ChangingSource<R> {
    /// The next byte, or none at the end. A change that can't be made is no fault of the input: what it should bring isn't seen then.
    fn next(&self) -> Option<u8> {
        drop(change_all(&self.rt, self.trial, &self.places));
        if self.trial.quits { Some(b'q') } else { None }
    }
}

impl<R: Files + Clock + AllocGlobal + Copy + Drop> Source for ChangingSource<R> {
    ghost left = { λ _. None };

    ghost faults = { λ _. 0 };

    fn read(&mut self, buf: &mut [u8]) -> Result<usize, ReadFault> {
        match (self.next(), buf.first_mut()) {
            (Some(byte), Some(place)) => {
                *place = byte;
                Ok(1)
            }
            _ => Ok(0),
        }
    }
}
