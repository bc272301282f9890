// What polls.
ghost use Rattle.std.specs.Option.{option_or};
ghost use Rattle.std.specs.Prelude.{◌≡◌, ◌==◌, ℕ, List as AList, [], ◌∷◌, ◌++◌, length, not, true, if◌then◌else◌, IfOk, OnOk, OnErr};
ghost use Rattle.wx_poller.specs.Changes.{changes};
ghost use Rattle.wx_poller.specs.Fitting.{Agrees, Answers, IsTold};
ghost use Rattle.wx_poller.specs.Listings.{IsMap, seen_at};
ghost use Rattle.wx_poller.specs.Polled.{Brought, Counts, Fits, Gives, GivesNext, IsRefused, Polls, TellsNone, Unwatched, Watched, backing_of, fault_of};
ghost use Rattle.wx_scan.specs.Backings.{AllSpellPaths, Brings, BringsNoChange, Changes, GivesUp, IsExact, WatchesAt, failed_by, is_memory, is_registered, is_unwatch_fault, is_watch_fault, register, unregister};
ghost use Rattle.wx_scan.specs.Told.{IsNamed, SpellsPath};
ghost use Rattle.wx_tree.specs.Paths.{Path};
ghost use Rattle.wx_scan.specs.Looked.{OnlyLooks, Rose};
ghost use Rattle.wx_tree.specs.Trees.{Tree};

use crate::changes::changes;
use crate::covering::{is_registered, lone_paths, unregister};
use crate::listed::{list_all, list_at};
use crate::listing::{Listing, put_new, take_away};
use crate::past::Past;
use crate::pending::Pending;
use std::alloc::Global;
use std::collections::BTreeMap;
use wx_notify::Notify;
use wx_scan::{Backend, ScanError, Scanner};
use wx_text::{Copies, List, Memory};
use wx_watch::{NotifyFault, NotifyFaultKind};
use wx_words::TextPath;

/// A backend that polls. It keeps what it saw last: each registered path, and the direct entries of a directory. When it is asked
/// what happened, it looks again at all of these, and tells what differs. It is exact where links aren't followed.
pub struct Poller {
    alloc: Global,
    follow: bool,
    registered: Vec<TextPath>,
    listing: Listing,
    pending: Pending,
    faults: u64,
    past: Past,
}

// Its parts are dropped by one call: docs/DESIGN.md, "What proofs cost".
impl Drop for Poller {
    fn drop(self) {
        let Poller {
            alloc: _,
            follow: _,
            registered: _,
            listing: _,
            pending: _,
            faults: _,
            past: _,
        } = self;
    }
}

/// Registers a path that shows this, where it is new. It fails only for want of memory, and changes nothing then.
fn register(
    alloc: Global,
    path: &TextPath,
    fresh: &Listing,
    registered: &mut Vec<TextPath>,
    listing: &mut Listing,
) -> Result<(), Memory>
    ensures registered { OnOk result (registered.new.items ≡ register path.now registered.old.items) }
    ensures listing { OnOk result ((p : AList ℕ) → seen_at listing.new.entries p ≡ (if is_registered path.now registered.old.items then seen_at listing.old.entries p else option_or (seen_at listing.old.entries p) (seen_at fresh.now.entries p))) }
    ensures unregistered { OnErr result (registered.new.items ≡ registered.old.items) }
    ensures unlisted { OnErr result ((p : AList ℕ) → seen_at listing.new.entries p ≡ seen_at listing.old.entries p) }
{
    if is_registered(path, registered.as_slice()) {
        return Ok(());
    }
    register_new(alloc, path, fresh, registered, listing)
}

/// Registers a path that shows this and is new. It fails only for want of memory, and changes nothing then.
fn register_new(
    alloc: Global,
    path: &TextPath,
    fresh: &Listing,
    registered: &mut Vec<TextPath>,
    listing: &mut Listing,
) -> Result<(), Memory>
    ensures registered { OnOk result (registered.new.items ≡ registered.old.items ++ path.now ∷ []) }
    ensures listing { OnOk result ((p : AList ℕ) → seen_at listing.new.entries p ≡ option_or (seen_at listing.old.entries p) (seen_at fresh.now.entries p)) }
    ensures unregistered { OnErr result (registered.new.items ≡ registered.old.items) }
    ensures unlisted { OnErr result ((p : AList ℕ) → seen_at listing.new.entries p ≡ seen_at listing.old.entries p) }
{
    match add(alloc, path, registered) {
        Err(Memory) => Err(Memory),
        Ok(()) => match put_new(alloc, fresh, listing) {
            Ok(()) => Ok(()),
            Err(Memory) => {
                registered.pop();
                Err(Memory)
            }
        },
    }
}

/// Adds a path. It fails only for want of memory, and changes nothing then.
fn add(alloc: Global, path: &TextPath, registered: &mut Vec<TextPath>) -> Result<(), Memory>
    ensures ok { OnOk result (registered.new.items ≡ registered.old.items ++ path.now ∷ []) }
    ensures err { OnErr result (registered.new.items ≡ registered.old.items) }
{
    registered.push(path.copy(alloc)?)?;
    Ok(())
}

/// A fault that names no path.
fn fault(alloc: Global, kind: NotifyFaultKind) -> NotifyFault
    ensures { result.kind ≡ kind }
{
    NotifyFault {
        kind,
        paths: List::new(alloc),
    }
}

impl Poller {
    /// A poller with no registrations, which follows links or doesn't. It fails only for want of memory.
    #[tactic(auto, using(crate::proofs::Fits::new_fits))]
    pub fn new(alloc: Global, follow: bool) -> Result<Poller, Memory>
        ensures fresh { IfOk result (λ p. (p.registered.items ≡ []) × (p.listing.entries ≡ []) × (p.pending ≡ []) × (p.past.brought ≡ []) × (p.faults ≡ 0)) }
        ensures follow { IfOk result (λ p. p.follow ≡ follow) }
        ensures fits { (t : Tree) → IsNamed t → IfOk result (λ p. Fits p t) }
    {
        Ok(Poller {
            alloc,
            follow,
            registered: Vec::new(alloc),
            listing: BTreeMap::new(alloc),
            pending: Pending::new(alloc),
            faults: 0,
            past: Past::new(),
        })
    }

    /// How often a call failed. It ends at the greatest number.
    pub fn faults(&self) -> u64
        ensures { result ≡ self.now.faults }
    {
        self.faults
    }

    /// Whether it found something that it didn't bring yet.
    pub fn pends(&self) -> bool
        ensures { result ≡ not (length self.now.pending == 0) }
    {
        !self.pending.is_empty()
    }

    /// Of how many paths it keeps what it saw last.
    pub fn listed(&self) -> usize
        ensures { result ≡ length self.now.listing.entries }
    {
        self.listing.len()
    }

    /// Says what failed, and counts it, but for want of memory.
    fn failed(&mut self, error: ScanError) -> NotifyFault
        ensures kind { result.kind ≡ fault_of error }
        ensures counts { Counts self.old self.new }
        ensures rose { not (is_memory (fault_of error)) ≡ true → Rose self.old.faults self.new.faults }
    {
        match error {
            ScanError::NotFound => {
                self.faults = self.faults.saturating_add(1);
                fault(self.alloc, NotifyFaultKind::PathNotFound)
            }
            ScanError::Io(code) => {
                self.faults = self.faults.saturating_add(1);
                fault(self.alloc, NotifyFaultKind::Io(code))
            }
            ScanError::Memory => fault(self.alloc, NotifyFaultKind::Memory),
        }
    }

    /// Brings this.
    fn bring(&mut self, item: Result<Notify, NotifyFault>) -> Result<Notify, NotifyFault>
        ensures item { result ≡ item }
        ensures brought { self.new.past.brought ≡ item ∷ self.old.past.brought }
        ensures follow { self.new.follow ≡ self.old.follow }
        ensures registered { self.new.registered.items ≡ self.old.registered.items }
        ensures listing { self.new.listing.entries ≡ self.old.listing.entries }
        ensures pending { self.new.pending ≡ self.old.pending }
        ensures faults { self.new.faults ≡ self.old.faults }
    {
        self.past = Past::with(&self.past, &item);
        item
    }

    /// Lists anew what is registered, and keeps what changed. Where it fails nothing changes.
    fn poll<S: Scanner>(&mut self, scan: &mut S) -> Result<(), ScanError>
        ensures looked { OnlyLooks (S.looked scan.old) (S.looked scan.new) }
        ensures rest { S.rest scan.new ≡ S.rest scan.old }
        ensures place { S.place scan.new ≡ S.place scan.old }
        ensures polls { Polls self.old self.new }
        ensures changes { OnOk result (self.new.pending ≡ changes self.old.listing.entries self.new.listing.entries) }
        ensures maps { OnOk result (IsMap self.old.listing.entries × IsMap self.new.listing.entries) }
        ensures unpolled { OnErr result ((self.new.pending ≡ self.old.pending) × (self.new.listing.entries ≡ self.old.listing.entries)) }
        ensures told { (t : Tree) → IsTold t self.old.follow (S.looked scan.old) (S.looked scan.new) → IsNamed t → AllSpellPaths t self.old.registered.items → Answers (λ _. Agrees t self.old.registered.items self.new.listing.entries) result }
    {
        match list_all(self.alloc, self.follow, self.registered.as_slice(), scan) {
            Err(error) => Err(error),
            Ok(listing) => match changes(self.alloc, &self.listing, &listing) {
                Err(Memory) => Err(ScanError::Memory),
                Ok(events) => {
                    self.pending = Pending::of(events);
                    self.listing = listing;
                    Ok(())
                }
            },
        }
    }

    /// What happened next. Where it fails nothing changes.
    fn find_next<S: Scanner>(&mut self, scan: &mut S) -> Result<Option<Notify>, ScanError>
        ensures looked { OnlyLooks (S.looked scan.old) (S.looked scan.new) }
        ensures rest { S.rest scan.new ≡ S.rest scan.old }
        ensures place { S.place scan.new ≡ S.place scan.old }
        ensures polls { Polls self.old self.new }
        ensures gives { IfOk result (λ found. GivesNext found self.old self.new) }
        ensures unpolled { OnErr result ((self.new.pending ≡ self.old.pending) × (self.new.listing.entries ≡ self.old.listing.entries)) }
        ensures fits { (t : Tree) → IsTold t self.old.follow (S.looked scan.old) (S.looked scan.new) → AllSpellPaths t self.old.registered.items → Fits self.old t → Answers (λ found. Fits self.new t × TellsNone found) result }
    {
        if self.pending.is_empty() {
            return self.find_new(scan);
        }
        Ok(self.pending.take_first())
    }

    /// What happened next, where nothing pends. Where it fails nothing changes.
    fn find_new<S: Scanner>(&mut self, scan: &mut S) -> Result<Option<Notify>, ScanError>
        ensures looked { OnlyLooks (S.looked scan.old) (S.looked scan.new) }
        ensures rest { S.rest scan.new ≡ S.rest scan.old }
        ensures place { S.place scan.new ≡ S.place scan.old }
        ensures polls { Polls self.old self.new }
        ensures gives { IfOk result (λ found. Gives (changes self.old.listing.entries self.new.listing.entries) found self.new.pending) }
        ensures unpolled { OnErr result ((self.new.pending ≡ self.old.pending) × (self.new.listing.entries ≡ self.old.listing.entries)) }
        ensures fits { (t : Tree) → IsTold t self.old.follow (S.looked scan.old) (S.looked scan.new) → AllSpellPaths t self.old.registered.items → Fits self.old t → Answers (λ found. Fits self.new t × TellsNone found) result }
    {
        match self.poll(scan) {
            Ok(()) => Ok(self.pending.take_first()),
            Err(error) => Err(error),
        }
    }
}

impl Backend for Poller {
    ghost backing = { backing_of };

    ghost fits = { Fits };

    fn watch<S: Scanner>(&mut self, scan: &mut S, path: &TextPath) -> Result<(), NotifyFault>
        ensures looked { OnlyLooks (S.looked scan.old) (S.looked scan.new) }
        ensures rest { S.rest scan.new ≡ S.rest scan.old }
        ensures place { S.place scan.new ≡ S.place scan.old }
        ensures changes { Changes (register path.now) is_watch_fault result (backing_of self.old) (backing_of self.new) }
        ensures exact { (t : Tree) (p : Path) → IsExact (backing_of self.old) (S.looked scan.old) (S.looked scan.new) t → SpellsPath t p path.now → WatchesAt t p result }
        ensures fits { (t : Tree) → IsExact (backing_of self.old) (S.looked scan.old) (S.looked scan.new) t → AllSpellPaths t (path.now ∷ (backing_of self.old).registrations) → (failed_by is_memory result ≡ true → ⊥) → Fits self.old t → Fits self.new t }
        ensures watched { Watched result path.now self.old self.new }
    {
        let mut fresh = BTreeMap::new(self.alloc);
        match list_at(self.alloc, self.follow, path, &mut fresh, scan) {
            Ok(true) => match register(
                self.alloc,
                path,
                &fresh,
                &mut self.registered,
                &mut self.listing,
            ) {
                Ok(()) => Ok(()),
                Err(Memory) => Err(fault(self.alloc, NotifyFaultKind::Memory)),
            },
            Ok(false) => Err(fault(self.alloc, NotifyFaultKind::PathNotFound)),
            Err(error) => Err(self.failed(error)),
        }
    }

    fn unwatch<S: Scanner>(&mut self, _scan: &mut S, path: &TextPath) -> Result<(), NotifyFault>
        ensures looked { OnlyLooks (S.looked _scan.old) (S.looked _scan.new) }
        ensures rest { S.rest _scan.new ≡ S.rest _scan.old }
        ensures place { S.place _scan.new ≡ S.place _scan.old }
        ensures changes { Changes (unregister path.now) (is_unwatch_fault (is_registered path.now (backing_of self.old).registrations)) result (backing_of self.old) (backing_of self.new) }
        ensures exact { (t : Tree) → IsExact (backing_of self.old) (S.looked _scan.old) (S.looked _scan.new) t → is_registered path.now (backing_of self.old).registrations ≡ true → GivesUp result }
        ensures fits { (t : Tree) → IsExact (backing_of self.old) (S.looked _scan.old) (S.looked _scan.new) t → AllSpellPaths t (path.now ∷ (backing_of self.old).registrations) → (failed_by is_memory result ≡ true → ⊥) → Fits self.old t → Fits self.new t }
        ensures unwatched { Unwatched result path.now self.old self.new }
        ensures refused { IsRefused (is_registered path.now self.old.registered.items) result }
    {
        if !is_registered(path, self.registered.as_slice()) {
            return Err(fault(self.alloc, NotifyFaultKind::WatchNotFound));
        }
        match lone_paths(self.alloc, &self.listing, self.registered.as_slice(), path) {
            Ok(paths) => {
                take_away(paths.as_slice(), &mut self.listing);
                unregister(path, &mut self.registered);
                Ok(())
            }
            Err(Memory) => Err(fault(self.alloc, NotifyFaultKind::Memory)),
        }
    }

    fn next<S: Scanner>(&mut self, scan: &mut S) -> Option<Result<Notify, NotifyFault>>
        ensures looked { OnlyLooks (S.looked scan.old) (S.looked scan.new) }
        ensures rest { S.rest scan.new ≡ S.rest scan.old }
        ensures place { S.place scan.new ≡ S.place scan.old }
        ensures brings { Brings result (backing_of self.old) (backing_of self.new) }
        ensures fits { (t : Tree) → IsExact (backing_of self.old) (S.looked scan.old) (S.looked scan.new) t → AllSpellPaths t (backing_of self.old).registrations → Fits self.old t → Fits self.new t × BringsNoChange result }
        ensures brought { Brought result self.old self.new }
    {
        match self.find_next(scan) {
            Ok(None) => None,
            Ok(Some(event)) => Some(self.bring(Ok(event))),
            Err(error) => {
                let fault = self.failed(error);
                Some(self.bring(Err(fault)))
            }
        }
    }
}
