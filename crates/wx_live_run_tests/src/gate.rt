// An outside and a source that wait for each other.
ghost use Rattle.std.proofs.Common.{ap, refl};
ghost use Rattle.std.specs.Prelude.{None};
ghost use Rattle.wx_machine.specs.Seen.{Seen};
ghost use Rattle.wx_live.specs.Drawn.{Drawn};
ghost use Rattle.wx_mem_live.specs.UnseenLaws.{same_unseen};
ghost use Rattle.wx_mem_live.specs.Untold.{undrawn, untold};

use std::thread;
use wx_bytes::{ReadFault, Source};
use wx_command::Spawnable;
use wx_control::{Flag, Id};
use wx_events::ProcessEnd;
use wx_handles::Live;
use wx_job::{Host, Outside};
use wx_journal::{Entry, HostFault, SpawnTag};
use wx_mem_live::MemLive;
use wx_scan::{EntryKind, Looks, ScanError, Scanner};
use wx_text::{List, Memory};
use wx_words::TextPath;

/// How often a flag is looked at, at most.
const LOOKS: u32 = 100_000_000;

/// Whether a flag is seen raised, by so many looks at most.
fn is_seen(flag: &Flag) -> bool {
    for _ in 0..LOOKS {
        if flag.raised() {
            return true;
        }
        thread::yield_now();
    }
    false
}

/// A source of `x` and `q`. It raises a flag at its first read, and then looks at that of the first spawn; and at its second read it
/// raises another flag.
#[derive(Drop)]
pub(crate) struct GateSource {
    pub(crate) spawned: Flag,
    pub(crate) first: Flag,
    pub(crate) second: Flag,
    pub(crate) reads: u32,
    pub(crate) has_seen: bool,
}

impl GateSource {
    /// The byte of the next read, or none at the end.
    fn next(&mut self) -> Option<u8> {
        self.reads = self.reads.saturating_add(1);
        if self.reads == 1 {
            self.first.raise();
            self.has_seen = is_seen(&self.spawned);
            return Some(b'x');
        }
        if self.reads == 2 {
            self.second.raise();
            return Some(b'q');
        }
        None
    }
}

impl Source for GateSource {
    ghost left = { λ _. None };

    ghost faults = { λ _. 0 };

    fn read(&mut self, buf: &mut [u8]) -> Result<usize, ReadFault> {
        match (self.next(), buf.first_mut()) {
            (Some(byte), Some(place)) => {
                *place = byte;
                Ok(1)
            }
            _ => Ok(0),
        }
    }
}

/// An outside as `MemLive` that tells nothing. It raises a flag at its first spawn. Before its second round it looks at the first of the
/// flags that it was made with, and before its third at the second.
pub(crate) struct GateLive {
    pub(crate) inner: MemLive,
    pub(crate) spawned: Flag,
    pub(crate) awaited: List<Flag>,
    pub(crate) rounds: usize,
    pub(crate) seen: u32,
}

// Its parts are dropped by one call: docs/DESIGN.md, "What proofs cost".
impl Drop for GateLive {
    fn drop(self) {
        let GateLive {
            inner: _,
            spawned: _,
            awaited: _,
            rounds: _,
            seen: _,
        } = self;
    }
}

impl Outside for GateLive {
    ghost Plan = { Unit {0} };

    ghost seen = { λ s. untold (⟦<MemLive as Outside>⟧.seen s.inner) };
}

impl Looks for GateLive {
    ghost looked = { λ s. ⟦<MemLive as Looks>⟧.looked s.inner };

    ghost Rest = { Seen Drawn };

    ghost rest = { λ s. ⟦<MemLive as Looks>⟧.rest s.inner };
}

impl Scanner for GateLive {
    fn classify(&mut self, path: &TextPath, follow: bool) -> Result<EntryKind, ScanError> {
        self.inner.classify(path, follow)
    }

    fn canonicalize(&mut self, path: &TextPath) -> Result<TextPath, ScanError> {
        self.inner.canonicalize(path)
    }

    fn scan(&mut self, path: &TextPath) -> Result<List<TextPath>, ScanError> {
        self.inner.scan(path)
    }

    fn stamp(&mut self, path: &TextPath) -> Result<u64, ScanError> {
        self.inner.stamp(path)
    }
}

impl Host for GateLive {
    fn reserve(&mut self, n: u64) -> Result<(), Memory> {
        self.inner.reserve(n)
    }

    fn spawn(
        &mut self,
        child: u64,
        job: Id,
        what: Spawnable,
        tag: SpawnTag,
    ) -> Result<(), HostFault> {
        self.spawned.raise();
        self.inner.spawn(child, job, what, tag)
    }

    fn signal(&mut self, child: u64, number: i32) -> Result<(), HostFault> {
        self.inner.signal(child, number)
    }

    fn kill(&mut self, child: u64) -> Result<(), HostFault> {
        self.inner.kill(child)
    }

    fn wait(&mut self, child: u64) -> Result<ProcessEnd, HostFault> {
        self.inner.wait(child)
    }

    fn drop_child(&mut self, child: u64) {
        self.inner.drop_child(child);
    }

    fn raise(&mut self, ticket: u64, flag: &Flag) {
        self.inner.raise(ticket, flag);
    }

    fn gone(&mut self, job: Id, flag: &Flag) {
        self.inner.gone(job, flag);
    }
}

impl Live for GateLive {
    ghost drawn = { λ _. undrawn };

    ghost only_looks = { λ x y e. ap {A = Seen Drawn} untold (same_unseen (⟦<MemLive as Outside>⟧.seen x.inner) (⟦<MemLive as Outside>⟧.seen y.inner) e) };

    ghost plan_tells = { λ x y e. refl };

    fn now(&mut self) -> u64 {
        self.inner.now()
    }

    fn ended(&mut self) -> Option<u64> {
        None
    }

    fn rest(&mut self) {
        if self.rounds > 0 {
            if let Some(flag) = self.awaited.as_slice().get(self.rounds - 1) {
                if is_seen(flag) {
                    self.seen = self.seen.saturating_add(1);
                }
            }
        }
        self.rounds = self.rounds.saturating_add(1);
    }

    fn folder(&mut self) -> Result<TextPath, Memory> {
        self.inner.folder()
    }

    fn note(&mut self, entry: Entry) {
        drop(entry);
    }
}
