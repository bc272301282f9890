// A live outside in memory whose children end by themselves.
ghost use Rattle.std.proofs.Common.{ap, refl};
ghost use Rattle.wx_machine.specs.Seen.{Seen};
ghost use Rattle.wx_live.specs.Drawn.{Drawn};
ghost use Rattle.wx_mem_live.specs.UnseenLaws.{same_unseen};
ghost use Rattle.wx_mem_live.specs.Untold.{undrawn, untold};

use crate::mem_live::MemLive;
use std::alloc::Global;
use std::thread;
use wx_command::Spawnable;
use wx_control::{Flag, Id};
use wx_events::ProcessEnd;
use wx_job::{Host, Outside};
use wx_journal::{Entry, HostFault, SpawnTag};
use wx_live::Live;
use wx_scan::{EntryKind, Looks, ScanError, Scanner};
use wx_text::{List, Memory};
use wx_words::TextPath;

/// How often it looks at a flag at most, before it goes on.
const LOOKS: u32 = 100_000_000;

/// A live outside in memory in which each child ends by itself once it was spawned, in the order spawned. From the first child on it waits
/// before each round for the flags that it was made with. It tells nothing; else it is as `MemLive`.
pub struct EndingLive {
    inner: MemLive,
    ends: List<u64>,
    awaited: List<Flag>,
    has_spawned: bool,
}

// Its parts are dropped by one call: docs/DESIGN.md, "What proofs cost".
impl Drop for EndingLive {
    fn drop(self) {
        let EndingLive {
            inner: _,
            ends: _,
            awaited: _,
            has_spawned: _,
        } = self;
    }
}

impl EndingLive {
    /// One that waits for these flags. It fails only for want of memory.
    pub fn new(alloc: Global, awaited: List<Flag>) -> Result<EndingLive, Memory> {
        let inner = MemLive::new(alloc)?;
        Ok(EndingLive {
            inner,
            ends: List::new(alloc),
            awaited,
            has_spawned: false,
        })
    }
}

/// Waits until a flag was raised, for so many looks at most.
fn wait_for(flag: &Flag) {
    for _ in 0..LOOKS {
        if flag.raised() {
            return;
        }
        thread::yield_now();
    }
}

impl Outside for EndingLive {
    ghost Plan = { Unit {0} };

    ghost seen = { λ s. untold (⟦<MemLive as Outside>⟧.seen s.inner) };
}

impl Looks for EndingLive {
    ghost looked = { λ s. ⟦<MemLive as Looks>⟧.looked s.inner };

    ghost Rest = { Seen Drawn };

    ghost rest = { λ s. ⟦<MemLive as Looks>⟧.rest s.inner };
}

impl Scanner for EndingLive {
    fn classify(&mut self, path: &TextPath, follow: bool) -> Result<EntryKind, ScanError> {
        self.inner.classify(path, follow)
    }

    fn canonicalize(&mut self, path: &TextPath) -> Result<TextPath, ScanError> {
        self.inner.canonicalize(path)
    }

    fn scan(&mut self, path: &TextPath) -> Result<List<TextPath>, ScanError> {
        self.inner.scan(path)
    }

    fn stamp(&mut self, path: &TextPath) -> Result<u64, ScanError> {
        self.inner.stamp(path)
    }
}

impl Host for EndingLive {
    fn reserve(&mut self, n: u64) -> Result<(), Memory> {
        self.inner.reserve(n)
    }

    fn spawn(
        &mut self,
        child: u64,
        job: Id,
        what: Spawnable,
        tag: SpawnTag,
    ) -> Result<(), HostFault> {
        // Where there is no memory its end is never told.
        let _ = self.ends.push(child);
        self.has_spawned = true;
        self.inner.spawn(child, job, what, tag)
    }

    fn signal(&mut self, child: u64, number: i32) -> Result<(), HostFault> {
        self.inner.signal(child, number)
    }

    fn kill(&mut self, child: u64) -> Result<(), HostFault> {
        self.inner.kill(child)
    }

    fn wait(&mut self, child: u64) -> Result<ProcessEnd, HostFault> {
        self.inner.wait(child)
    }

    fn drop_child(&mut self, child: u64) {
        self.inner.drop_child(child);
    }

    fn raise(&mut self, ticket: u64, flag: &Flag) {
        self.inner.raise(ticket, flag);
    }

    fn gone(&mut self, job: Id, flag: &Flag) {
        self.inner.gone(job, flag);
    }
}

impl Live for EndingLive {
    ghost drawn = { λ _. undrawn };

    ghost only_looks = { λ x y e. ap {A = Seen Drawn} untold (same_unseen (⟦<MemLive as Outside>⟧.seen x.inner) (⟦<MemLive as Outside>⟧.seen y.inner) e) };

    ghost plan_tells = { λ x y e. refl };

    fn now(&mut self) -> u64 {
        self.inner.now()
    }

    fn ended(&mut self) -> Option<u64> {
        self.ends.take_first()
    }

    fn rest(&mut self) {
        if self.has_spawned {
            for flag in self.awaited.as_slice() {
                wait_for(flag);
            }
        }
        thread::yield_now();
    }

    fn folder(&mut self) -> Result<TextPath, Memory> {
        self.inner.folder()
    }

    fn note(&mut self, entry: Entry) {
        drop(entry);
    }
}
