// A poller that doesn't list anew each time.
ghost use Rattle.std.specs.Prelude.{◌≡◌, ◌≤◌, ◌<◌, true, false, None, [], ◌∷◌, length, IfOk};
ghost use Rattle.wx_tree.specs.Paths.{Path};
ghost use Rattle.wx_tree.specs.Trees.{Tree};
ghost use Rattle.wx_scan.specs.Backings.{AllSpellPaths, Brings, BringsNoChange, Changes, GivesUp, IsExact, WatchesAt, failed_by, is_memory, is_registered, is_unwatch_fault, is_watch_fault, register, unregister};
ghost use Rattle.wx_scan.specs.Looked.{OnlyLooks};
ghost use Rattle.wx_scan.specs.Told.{IsNamed, SpellsPath};
ghost use Rattle.wx_poller.specs.Polled.{Brought, Fits, IsRefused, Unwatched, Watched, backing_of};
ghost use Rattle.wx_paced.specs.Pace.{SamePace, due_after, pends};

use std::alloc::Global;
use wx_notify::Notify;
use wx_poller::Poller;
use wx_scan::{Backend, Scanner};
use wx_text::Memory;
use wx_watch::NotifyFault;
use wx_words::TextPath;

/// How many nanoseconds pass from one listing to the next, whatever was listed.
const PAUSE: u64 = 50_000_000;

/// How many nanoseconds more pass for each path that was listed.
const PAUSE_FOR_PATH: u64 = 20_000;

/// A poller that lists anew only where 50 ms, and 20 µs for each path of its last listing, have passed since that. So it takes a part of the
/// time only, however much it watches. What it found and didn't bring yet it brings at once.
pub struct PacedPoller {
    poller: Poller,
    moment: u64,
    due: u64,
}

// Its parts are dropped by one call: docs/DESIGN.md, "What proofs cost".
impl Drop for PacedPoller {
    fn drop(self) {
        let PacedPoller {
            poller: _,
            moment: _,
            due: _,
        } = self;
    }
}

/// From which moment on it may list anew, behind a listing of so many paths at this one.
fn due_after(at: u64, paths: usize) -> u64
    ensures { result ≡ due_after at paths }
{
    let pause = PAUSE.saturating_add((paths as u64).saturating_mul(PAUSE_FOR_PATH));
    at.saturating_add(pause)
}

impl PacedPoller {
    /// A poller with no registrations, which follows links or doesn't, and may list at once. It fails only for want of memory.
    pub fn new(alloc: Global, follow: bool) -> Result<PacedPoller, Memory>
        ensures fresh { IfOk result (λ p. (p.poller.registered.items ≡ []) × (p.poller.listing.entries ≡ []) × (p.poller.pending ≡ []) × (p.poller.past.brought ≡ []) × (p.poller.faults ≡ 0)) }
        ensures due { IfOk result (λ p. p.due ≡ 0) }
        ensures follow { IfOk result (λ p. p.poller.follow ≡ follow) }
        ensures fits { (t : Tree) → IsNamed t → IfOk result (λ p. Fits p.poller t) }
    {
        Ok(PacedPoller {
            poller: Poller::new(alloc, follow)?,
            moment: 0,
            due: 0,
        })
    }

    /// Is told the moment.
    pub fn set_moment(&mut self, moment: u64)
        ensures moment { self.new.moment ≡ moment }
        ensures rest { (self.new.poller ≡ self.old.poller) × (self.new.due ≡ self.old.due) }
    {
        self.moment = moment;
    }

    /// How often a call failed. It ends at the greatest number.
    pub fn faults(&self) -> u64
        ensures { result ≡ self.now.poller.faults }
    {
        self.poller.faults()
    }
}

impl Backend for PacedPoller {
    ghost backing = { λ s. backing_of s.poller };

    ghost fits = { λ s. Fits s.poller };

    fn watch<S: Scanner>(&mut self, scan: &mut S, path: &TextPath) -> Result<(), NotifyFault>
        ensures looked { OnlyLooks (S.looked scan.old) (S.looked scan.new) }
        ensures rest { S.rest scan.new ≡ S.rest scan.old }
        ensures place { S.place scan.new ≡ S.place scan.old }
        ensures changes { Changes (register path.now) is_watch_fault result (backing_of self.old.poller) (backing_of self.new.poller) }
        ensures exact { (t : Tree) (p : Path) → IsExact (backing_of self.old.poller) (S.looked scan.old) (S.looked scan.new) t → SpellsPath t p path.now → WatchesAt t p result }
        ensures fits { (t : Tree) → IsExact (backing_of self.old.poller) (S.looked scan.old) (S.looked scan.new) t → AllSpellPaths t (path.now ∷ (backing_of self.old.poller).registrations) → (failed_by is_memory result ≡ true → ⊥) → Fits self.old.poller t → Fits self.new.poller t }
        ensures watched { Watched result path.now self.old.poller self.new.poller }
        ensures pace { SamePace self.old self.new }
    {
        self.poller.watch(scan, path)
    }

    fn unwatch<S: Scanner>(&mut self, scan: &mut S, path: &TextPath) -> Result<(), NotifyFault>
        ensures looked { OnlyLooks (S.looked scan.old) (S.looked scan.new) }
        ensures rest { S.rest scan.new ≡ S.rest scan.old }
        ensures place { S.place scan.new ≡ S.place scan.old }
        ensures changes { Changes (unregister path.now) (is_unwatch_fault (is_registered path.now (backing_of self.old.poller).registrations)) result (backing_of self.old.poller) (backing_of self.new.poller) }
        ensures exact { (t : Tree) → IsExact (backing_of self.old.poller) (S.looked scan.old) (S.looked scan.new) t → is_registered path.now (backing_of self.old.poller).registrations ≡ true → GivesUp result }
        ensures fits { (t : Tree) → IsExact (backing_of self.old.poller) (S.looked scan.old) (S.looked scan.new) t → AllSpellPaths t (path.now ∷ (backing_of self.old.poller).registrations) → (failed_by is_memory result ≡ true → ⊥) → Fits self.old.poller t → Fits self.new.poller t }
        ensures unwatched { Unwatched result path.now self.old.poller self.new.poller }
        ensures refused { IsRefused (is_registered path.now self.old.poller.registered.items) result }
        ensures pace { SamePace self.old self.new }
    {
        self.poller.unwatch(scan, path)
    }

    fn next<S: Scanner>(&mut self, scan: &mut S) -> Option<Result<Notify, NotifyFault>>
        ensures looked { OnlyLooks (S.looked scan.old) (S.looked scan.new) }
        ensures rest { S.rest scan.new ≡ S.rest scan.old }
        ensures place { S.place scan.new ≡ S.place scan.old }
        ensures brings { Brings result (backing_of self.old.poller) (backing_of self.new.poller) }
        ensures fits { (t : Tree) → IsExact (backing_of self.old.poller) (S.looked scan.old) (S.looked scan.new) t → AllSpellPaths t (backing_of self.old.poller).registrations → Fits self.old.poller t → Fits self.new.poller t × BringsNoChange result }
        ensures moment { self.new.moment ≡ self.old.moment }
        ensures gives { pends self.old.poller ≡ true → Brought result self.old.poller self.new.poller × (self.new.due ≡ self.old.due) }
        ensures waits { pends self.old.poller ≡ false → self.old.moment < self.old.due → (result ≡ None) × (self.new ≡ self.old) × (S.looked scan.new ≡ S.looked scan.old) }
        ensures lists { pends self.old.poller ≡ false → self.old.due ≤ self.old.moment → Brought result self.old.poller self.new.poller × (self.new.due ≡ due_after self.old.moment (length self.new.poller.listing.entries)) }
    {
        if self.poller.pends() {
            return self.poller.next(scan);
        }
        if self.moment < self.due {
            return None;
        }
        let next = self.poller.next(scan);
        self.due = due_after(self.moment, self.poller.listed());
        next
    }
}
