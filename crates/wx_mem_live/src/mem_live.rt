// A live outside in memory.
ghost use Rattle.std.specs.Prelude.{◌≡◌, [], Some, None, IfOk};
ghost use Rattle.wx_machine.specs.Seen.{Seen};
ghost use Rattle.wx_mem_tree.specs.Entries.{looked_of};
ghost use Rattle.wx_live.specs.Drawn.{Drawn};
ghost use Rattle.wx_mem_live.specs.Drawing.{nothing, quiet};
ghost use Rattle.wx_mem_live.specs.Unseen.{unseen};
ghost use Rattle.wx_mem_live.specs.UnseenLaws.{same_unseen};

use crate::call::Call;
use crate::drew::Drew;
use std::alloc::Global;
use wx_command::Spawnable;
use wx_control::{Flag, Id};
use wx_events::ProcessEnd;
use wx_job::{Host, Outside};
use wx_journal::{Entry, HostFault, Journal, SpawnTag};
use wx_live::Live;
use wx_mem_tree::MemTree;
use wx_scan::{EntryKind, Looks, ScanError, Scanner};
use wx_text::{List, Memory, Text};
use wx_words::TextPath;

/// How much later each moment is, in nanoseconds.
const STEP: u64 = 1_000_000;

/// A live outside in memory. Each call on a child goes well, and each child ends with success when it is waited for; no end comes by
/// itself. Its tree is empty, its folder is `/`, and each moment is a millisecond later than the one before. It tells its entries, and all
/// that it drew.
pub struct MemLive {
    alloc: Global,
    tree: MemTree,
    told: Journal,
    moment: u64,
    drew: Drew,
}

// Its parts are dropped by one call: docs/DESIGN.md, "What proofs cost".
impl Drop for MemLive {
    fn drop(self) {
        let MemLive {
            alloc: _,
            tree: _,
            told: _,
            moment: _,
            drew: _,
        } = self;
    }
}

impl MemLive {
    /// A new one, of which nothing was asked. It fails only for want of memory.
    pub fn new(alloc: Global) -> Result<MemLive, Memory>
        ensures told { IfOk result (λ live. live.told.past ≡ []) }
        ensures drew { IfOk result (λ live. live.drew.drawn ≡ nothing) }
    {
        let tree = MemTree::new(alloc)?;
        let told = Journal::new(alloc)?;
        Ok(MemLive {
            alloc,
            tree,
            told,
            moment: 0,
            drew: Drew::new(),
        })
    }

    /// What it was told.
    pub fn told(&self) -> &Journal
        ensures { result.now.past ≡ self.now.told.past }
    {
        &self.told
    }
}

impl Outside for MemLive {
    ghost Plan = { Drawn };

    ghost seen = { λ s. record { plan = quiet s.drew.drawn; shown = record { told = Some s.told.past; faults = 0 }; spare = s.told.spare; progress = record { turns = None; left = 0; moment = s.moment; turn_faults = 0; maker_faults = 0 }; place = []; looked = looked_of s.tree.entries.items s.tree.looks s.tree.faults } };
}

impl Looks for MemLive {
    ghost looked = { λ s. looked_of s.tree.entries.items s.tree.looks s.tree.faults };

    ghost Rest = { Seen Drawn };

    ghost rest = { λ s. unseen (⟦<MemLive as Outside>⟧.seen s) };
}

impl Scanner for MemLive {
    fn classify(&mut self, path: &TextPath, follow: bool) -> Result<EntryKind, ScanError> {
        self.tree.classify(path, follow)
    }

    fn canonicalize(&mut self, path: &TextPath) -> Result<TextPath, ScanError> {
        self.tree.canonicalize(path)
    }

    fn scan(&mut self, path: &TextPath) -> Result<List<TextPath>, ScanError> {
        self.tree.scan(path)
    }

    fn stamp(&mut self, path: &TextPath) -> Result<u64, ScanError> {
        self.tree.stamp(path)
    }
}

impl Host for MemLive {
    fn reserve(&mut self, n: u64) -> Result<(), Memory> {
        self.told.reserve(n)
    }

    fn spawn(
        &mut self,
        child: u64,
        job: Id,
        what: Spawnable,
        tag: SpawnTag,
    ) -> Result<(), HostFault> {
        self.told.push(Entry::Spawn {
            child,
            job,
            tag,
            what,
            answer: Ok(()),
        });
        Ok(())
    }

    fn signal(&mut self, child: u64, number: i32) -> Result<(), HostFault> {
        self.told.push(Entry::Signal {
            child,
            number,
            answer: Ok(()),
        });
        Ok(())
    }

    fn kill(&mut self, child: u64) -> Result<(), HostFault> {
        self.told.push(Entry::Kill {
            child,
            answer: Ok(()),
        });
        Ok(())
    }

    fn wait(&mut self, child: u64) -> Result<ProcessEnd, HostFault> {
        self.told.push(Entry::Wait {
            child,
            answer: Ok(ProcessEnd::Success),
        });
        Ok(ProcessEnd::Success)
    }

    fn drop_child(&mut self, child: u64) {
        self.told.push(Entry::Dropped(child));
    }

    fn raise(&mut self, ticket: u64, flag: &Flag) {
        flag.raise();
        self.told.push(Entry::Raise(ticket));
    }

    fn gone(&mut self, job: Id, flag: &Flag) {
        flag.raise();
        self.told.push(Entry::Gone(job));
    }
}

impl Live for MemLive {
    ghost drawn = { λ s. quiet s.drew.drawn };

    ghost only_looks = { λ x y e. same_unseen (⟦<MemLive as Outside>⟧.seen x) (⟦<MemLive as Outside>⟧.seen y) e };

    ghost plan_tells = { λ x y e. e };

    fn now(&mut self) -> u64 {
        self.moment = self.moment.saturating_add(STEP);
        self.drew = Drew::with(&self.drew, &Call::Moment(self.moment));
        self.moment
    }

    fn ended(&mut self) -> Option<u64> {
        self.drew = Drew::with(&self.drew, &Call::NoEnd);
        None
    }

    fn rest(&mut self) {}

    fn folder(&mut self) -> Result<TextPath, Memory> {
        Ok(TextPath::new(Text::from_slice(self.alloc, b"/")?))
    }

    fn note(&mut self, entry: Entry) {
        self.told.push(entry);
    }
}
