// A live outside over the system.
ghost use Rattle.std.specs.Prelude.{◌≡◌, true};
ghost use Rattle.wx_paths.specs.Paths.{is_absolute};
ghost use Rattle.wx_live.specs.Drawn.{Drawn};
ghost use Rattle.wx_live_parts.specs.Real.{Kept, drawn_of, looked_of, seen_as};
ghost use Rattle.wx_live_parts.specs.RealLaws.{same_kept};

use crate::children::Children;
use crate::file_scanner::FileScanner;
use crate::moments::Moments;
use crate::resting::rest_whole;
use crate::round::Round;
use std::alloc::{AllocGlobal, Global};
use std::process::Processes;
use std::rt::{Clock, Files};
use wx_command::Spawnable;
use wx_control::{Flag, Id};
use wx_events::ProcessEnd;
use wx_job::{Host, Outside};
use wx_journal::{Entry, HostFault, SpawnTag};
use wx_live::Live;
use wx_scan::{EntryKind, Looks, ScanError, Scanner};
use wx_text::{Copies, List, Memory};
use wx_words::TextPath;

/// A live outside over the system. Its children are real processes, its files real files, and its moments those of a clock that never
/// goes back. A rest lasts 50 ms where nothing was done in the round before it and no event brought in the last four, and ends early where
/// a child has ended. It tells nothing of its entries.
pub struct LiveParts<R: Processes + Files + Clock + AllocGlobal + Copy + Drop> {
    alloc: Global,
    folder: TextPath,
    children: Children<R>,
    files: FileScanner<R>,
    moments: Moments<R>,
    round: Round,
    pub ghost absolute: { is_absolute folder ≡ true },
}

// Its parts are dropped by one call: docs/DESIGN.md, "What proofs cost".
impl<R: Processes + Files + Clock + AllocGlobal + Copy + Drop> Drop for LiveParts<R> {
    fn drop(self) {
        let LiveParts {
            alloc: _,
            folder: _,
            children: _,
            files: _,
            moments: _,
            round: _,
        } = self;
    }
}

impl<R: Processes + Files + Clock + AllocGlobal + Copy + Drop> LiveParts<R> {
    /// A live outside in this folder, without children. It takes no memory.
    pub fn new(rt: R, folder: TextPath) -> LiveParts<R>
        requires { is_absolute folder ≡ true }
        ensures { ⟦<LiveParts<R> as Outside>⟧.seen result ≡ seen_as (record { folder = folder; faults = 0; moment = 0 }) (looked_of 0 0) }
    {
        let alloc = rt.alloc();
        LiveParts {
            alloc,
            folder,
            children: Children::new(rt, alloc),
            files: FileScanner::new(rt),
            moments: Moments::new(rt),
            round: Round::new(),
        }
    }

    /// How often a call on a child failed. It ends at the greatest number.
    pub fn host_faults(&self) -> u64
        ensures { result ≡ (⟦<LiveParts<R> as Outside>⟧.seen self.now).shown.faults }
    {
        self.children.faults()
    }

    /// How often a look at a file failed. It ends at the greatest number.
    pub fn scan_faults(&self) -> u64
        ensures { result ≡ (⟦<LiveParts<R> as Outside>⟧.seen self.now).looked.faults }
    {
        self.files.faults()
    }

    /// How often it looked at a file. It ends at the greatest number.
    pub fn looks(&self) -> u64
        ensures { result ≡ (⟦<LiveParts<R> as Outside>⟧.seen self.now).looked.looks }
    {
        self.files.looks()
    }

    /// How often the clock couldn't be read. It ends at the greatest number.
    pub fn clock_faults(&self) -> u64 {
        self.moments.faults()
    }
}

impl<R: Processes + Files + Clock + AllocGlobal + Copy + Drop> Outside for LiveParts<R> {
    ghost Plan = { Drawn };

    ghost seen = { λ s. seen_as (record { folder = s.folder; faults = s.children.faults; moment = s.moments.last }) (looked_of s.files.looks s.files.faults) };
}

impl<R: Processes + Files + Clock + AllocGlobal + Copy + Drop> Looks for LiveParts<R> {
    ghost looked = { λ s. looked_of s.files.looks s.files.faults };

    ghost Rest = { Kept };

    ghost rest = { λ s. record { folder = s.folder; faults = s.children.faults; moment = s.moments.last } };
}

impl<R: Processes + Files + Clock + AllocGlobal + Copy + Drop> Scanner for LiveParts<R> {
    fn classify(&mut self, path: &TextPath, follow: bool) -> Result<EntryKind, ScanError> {
        self.round.look();
        self.files.classify(path, follow)
    }

    fn canonicalize(&mut self, path: &TextPath) -> Result<TextPath, ScanError> {
        self.round.look();
        self.files.canonicalize(path)
    }

    fn scan(&mut self, path: &TextPath) -> Result<List<TextPath>, ScanError> {
        self.round.look();
        self.files.scan(path)
    }

    fn stamp(&mut self, path: &TextPath) -> Result<u64, ScanError> {
        self.round.look();
        self.files.stamp(path)
    }
}

impl<R: Processes + Files + Clock + AllocGlobal + Copy + Drop> Host for LiveParts<R> {
    fn reserve(&mut self, _n: u64) -> Result<(), Memory> {
        Ok(())
    }

    fn spawn(
        &mut self,
        child: u64,
        _job: Id,
        what: Spawnable,
        _tag: SpawnTag,
    ) -> Result<(), HostFault> {
        self.round.act();
        self.children.spawn(child, &what)
    }

    fn signal(&mut self, child: u64, number: i32) -> Result<(), HostFault> {
        self.round.act();
        self.children.signal(child, number)
    }

    fn kill(&mut self, child: u64) -> Result<(), HostFault> {
        self.round.act();
        self.children.kill(child)
    }

    fn wait(&mut self, child: u64) -> Result<ProcessEnd, HostFault> {
        self.round.act();
        self.children.wait(child)
    }

    fn drop_child(&mut self, child: u64) {
        self.round.act();
        self.children.let_go(child);
    }

    fn raise(&mut self, _ticket: u64, flag: &Flag) {
        self.round.act();
        flag.raise();
    }

    fn gone(&mut self, _job: Id, flag: &Flag) {
        flag.raise();
    }
}

#[tactic(auto, using(crate::proofs::Untold::still_untold))]
impl<R: Processes + Files + Clock + AllocGlobal + Copy + Drop> Live for LiveParts<R> {
    ghost drawn = { λ s. drawn_of s.folder };

    ghost only_looks = { λ x y e. same_kept (⟦<LiveParts<R> as Looks>⟧.rest x) (⟦<LiveParts<R> as Looks>⟧.rest y) (looked_of y.files.looks y.files.faults) e };

    ghost plan_tells = { λ x y e. e };

    fn now(&mut self) -> u64 {
        self.moments.now()
    }

    fn ended(&mut self) -> Option<u64> {
        self.children.ended()
    }

    fn rest(&mut self) {
        if self.round.next() {
            return;
        }
        rest_whole(&mut self.children, &self.moments);
    }

    fn folder(&mut self) -> Result<TextPath, Memory> {
        self.folder.copy(self.alloc)
    }

    fn note(&mut self, entry: Entry) {
        self.round.note(&entry);
    }
}
