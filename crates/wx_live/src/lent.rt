// A live outside that is lent.
ghost use Rattle.std.specs.Prelude.{◌≡◌, ◌∷◌, ℕ};
ghost use Rattle.wx_live.specs.Placed.{placed};
ghost use Rattle.wx_live.specs.PlacedLaws.{placed_looks};

use crate::live::Live;
use wx_command::Spawnable;
use wx_control::{Flag, Id};
use wx_events::ProcessEnd;
use wx_job::{Host, Outside};
use wx_journal::{Entry, HostFault, SpawnTag};
use wx_scan::{EntryKind, Looks, ScanError, Scanner};
use wx_text::{List, Memory};
use wx_words::TextPath;

/// A live outside that is lent. It passes each call and meaning on.
pub struct Lent<'a, L: Live> {
    live: &'a mut L,
}

impl<'a, L: Live> Lent<'a, L> {
    /// Lends a live outside.
    pub fn new(live: &'a mut L) -> Lent<'a, L>
        ensures same_reference { result.live.ghost_name ≡ live.entry.ghost_name }
        ensures live { result.live.now ≡ live.old }
    {
        Lent { live }
    }

    /// What was lent.
    pub fn into_live(self) -> &'a mut L
        ensures same_reference { result.ghost_name ≡ self.entry.live.ghost_name }
        ensures live { result.now ≡ self.entry.live.now }
    {
        let Lent { live } = self;
        live
    }
}

/// Does nothing. This use of a reference that came back tells what was lent.
pub fn is_back<T>(lent: &mut T)
    ensures { lent.new ≡ lent.old }
{}

impl<L: Live> Drop for Lent<'_, L> {
    fn drop(self)
        ensures { self.exit.0.now ≡ self.entry.live.now }
    {
        let Lent { live: _ } = self;
    }
}

impl<L: Live> Outside for Lent<'_, L> {
    ghost Plan = { L.Outside.Plan };

    ghost seen = { λ s. placed s.live.ghost_name (L.Outside.seen s.live.now) };
}

impl<L: Live> Looks for Lent<'_, L> {
    ghost looked = { λ s. L.Looks.looked s.live.now };

    ghost Rest = { L.Looks.Rest × ℕ };

    ghost rest = { λ s. (L.Looks.rest s.live.now, s.live.ghost_name) };

    ghost place = { λ s. s.live.ghost_name ∷ L.Looks.place s.live.now };
}

impl<L: Live> Scanner for Lent<'_, L> {
    fn classify(&mut self, path: &TextPath, follow: bool) -> Result<EntryKind, ScanError> {
        self.live.classify(path, follow)
    }

    fn canonicalize(&mut self, path: &TextPath) -> Result<TextPath, ScanError> {
        self.live.canonicalize(path)
    }

    fn scan(&mut self, path: &TextPath) -> Result<List<TextPath>, ScanError> {
        self.live.scan(path)
    }

    fn stamp(&mut self, path: &TextPath) -> Result<u64, ScanError> {
        self.live.stamp(path)
    }
}

impl<L: Live> Host for Lent<'_, L> {
    fn reserve(&mut self, n: u64) -> Result<(), Memory> {
        self.live.reserve(n)
    }

    fn spawn(
        &mut self,
        child: u64,
        job: Id,
        what: Spawnable,
        tag: SpawnTag,
    ) -> Result<(), HostFault> {
        self.live.spawn(child, job, what, tag)
    }

    fn signal(&mut self, child: u64, number: i32) -> Result<(), HostFault> {
        self.live.signal(child, number)
    }

    fn kill(&mut self, child: u64) -> Result<(), HostFault> {
        self.live.kill(child)
    }

    fn wait(&mut self, child: u64) -> Result<ProcessEnd, HostFault> {
        self.live.wait(child)
    }

    fn drop_child(&mut self, child: u64) {
        self.live.drop_child(child);
    }

    fn raise(&mut self, ticket: u64, flag: &Flag) {
        self.live.raise(ticket, flag);
    }

    fn gone(&mut self, job: Id, flag: &Flag) {
        self.live.gone(job, flag);
    }
}

impl<L: Live> Live for Lent<'_, L> {
    ghost drawn = { λ s. L.drawn s.live.now };

    ghost only_looks = { λ x y e. placed_looks (L.Outside.seen x.live.now) (L.Outside.seen y.live.now) (L.Looks.looked y.live.now) (L.Looks.rest x.live.now, x.live.ghost_name) (L.Looks.rest y.live.now, y.live.ghost_name) (L.only_looks x.live.now y.live.now) e };

    ghost plan_tells = { λ x y e. L.plan_tells x.live.now y.live.now e };

    fn now(&mut self) -> u64 {
        self.live.now()
    }

    fn ended(&mut self) -> Option<u64> {
        self.live.ended()
    }

    fn rest(&mut self) {
        self.live.rest();
    }

    fn folder(&mut self) -> Result<TextPath, Memory> {
        self.live.folder()
    }

    fn note(&mut self, entry: Entry) {
        self.live.note(entry);
    }
}
