// What a run begins with, and its words.
ghost use Rattle.std.specs.Prelude.{◌≡◌, IfOk};
ghost use Rattle.wx_words.specs.Line.{Reads};
ghost use Rattle.wx_words.specs.Parts.{read_named};
ghost use Rattle.wx_journal.specs.Beginnings.{limits, switches, watch};

use std::alloc::Global;
use wx_text::{List, Memory, Text};
use wx_watch::{WatchedPath, Watcher};
use wx_words::{Fields, Spelled, TextPath, Words, named, take_literal};

/// What a run begins with: the settings that are listed, and its folder.
#[derive(Debug)]
pub struct Beginning {
    /// How long events are collected, in nanoseconds.
    pub throttle: u64,
    /// How many events the queue holds.
    pub size: u32,
    /// The size of the channel of errors in the settings.
    pub errors: u32,
    /// Whether keys are heard.
    pub keyboard: bool,
    /// Whether links are followed.
    pub follow: bool,
    /// Whether a stop and a continue of the terminal are heard.
    pub jobsignals: bool,
    /// How the paths are watched.
    pub watcher: Watcher,
    /// The folder of the run.
    pub cwd: TextPath,
    /// The paths that are watched.
    pub paths: List<WatchedPath>,
}

// Its parts are dropped by one call: docs/DESIGN.md, "What proofs cost".
impl Drop for Beginning {
    fn drop(self) {
        let Beginning {
            throttle: _,
            size: _,
            errors: _,
            keyboard: _,
            follow: _,
            jobsignals: _,
            watcher: _,
            cwd: _,
            paths: _,
        } = self;
    }
}

/// The throttle, and the sizes of the queue and of the channel of errors.
type Limits = (u64, (u32, u32));

/// Whether keys are heard, links are followed, and a stop and a continue are heard.
type Switches = (bool, (bool, bool));

/// How the paths are watched, the folder of the run, and the paths.
type Watch = (Watcher, (TextPath, List<WatchedPath>));

/// Takes this word and the value behind it, or loses the place.
fn read_named<T: Spelled>(alloc: Global, word: &[u8], line: &mut Words) -> Result<Option<T>, Memory>
    ensures { IfOk result (λ x. Reads line.new x (read_named word.now T.spelling.read line.old)) }
{
    if !take_literal(word, line) {
        return Ok(None);
    }
    T::read(alloc, line)
}

/// Takes the throttle and the sizes, or loses the place.
#[tactic(auto, unfolding(wx_words::specs::Parts::both))]
fn read_limits(alloc: Global, line: &mut Words) -> Result<Option<Limits>, Memory>
    ensures { IfOk result (λ x. Reads line.new x (limits.read line.old)) }
{
    let Some(throttle) = read_named(alloc, b"throttle", line)? else {
        return Ok(None);
    };
    let Some(size) = read_named(alloc, b"size", line)? else {
        return Ok(None);
    };
    let Some(errors) = read_named(alloc, b"errors", line)? else {
        return Ok(None);
    };
    Ok(Some((throttle, (size, errors))))
}

/// Takes what is on or off, or loses the place.
#[tactic(auto, unfolding(wx_words::specs::Parts::both))]
fn read_switches(alloc: Global, line: &mut Words) -> Result<Option<Switches>, Memory>
    ensures { IfOk result (λ x. Reads line.new x (switches.read line.old)) }
{
    let Some(keyboard) = read_named(alloc, b"keyboard", line)? else {
        return Ok(None);
    };
    let Some(follow) = read_named(alloc, b"follow", line)? else {
        return Ok(None);
    };
    let Some(jobsignals) = read_named(alloc, b"jobsignals", line)? else {
        return Ok(None);
    };
    Ok(Some((keyboard, (follow, jobsignals))))
}

/// Takes what is said of paths, or loses the place.
#[tactic(auto, unfolding(wx_words::specs::Parts::both))]
fn read_watch(alloc: Global, line: &mut Words) -> Result<Option<Watch>, Memory>
    ensures { IfOk result (λ x. Reads line.new x (watch.read line.old)) }
{
    let Some(watcher) = read_named(alloc, b"watcher", line)? else {
        return Ok(None);
    };
    let Some(cwd) = read_named(alloc, b"cwd", line)? else {
        return Ok(None);
    };
    let Some(paths) = read_named(alloc, b"paths", line)? else {
        return Ok(None);
    };
    Ok(Some((watcher, (cwd, paths))))
}

#[tactic(auto, unfolding(crate::specs::Beginnings::beginning, wx_words::specs::Parts::both))]
impl Spelled for Beginning {
    ghost use Rattle.wx_journal.specs.Beginnings.{beginning};

    ghost spelling = { beginning };

    fn put_after(&self, out: &mut Text) -> Result<(), Memory> {
        let limits = (
            named!(b"throttle", &self.throttle),
            (named!(b"size", &self.size), named!(b"errors", &self.errors)),
        );
        let switches = (
            named!(b"keyboard", &self.keyboard),
            (
                named!(b"follow", &self.follow),
                named!(b"jobsignals", &self.jobsignals),
            ),
        );
        let watch = (
            named!(b"watcher", &self.watcher),
            (named!(b"cwd", &self.cwd), named!(b"paths", &self.paths)),
        );
        (limits, (switches, watch)).put_fields(out)
    }

    fn read(alloc: Global, line: &mut Words) -> Result<Option<Beginning>, Memory> {
        let Some((throttle, (size, errors))) = read_limits(alloc, line)? else {
            return Ok(None);
        };
        let Some((keyboard, (follow, jobsignals))) = read_switches(alloc, line)? else {
            return Ok(None);
        };
        let Some((watcher, (cwd, paths))) = read_watch(alloc, line)? else {
            return Ok(None);
        };
        Ok(Some(Beginning {
            throttle,
            size,
            errors,
            keyboard,
            follow,
            jobsignals,
            watcher,
            cwd,
            paths,
        }))
    }
}
