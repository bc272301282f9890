// A world with handles in threads.
ghost use Rattle.std.specs.Prelude.{◌≡◌, ◌+◌, ◌<◌, ◌≤◌, ◌↔◌, ◌++◌, [], All, Err, IfErr, IfOk, IsErr, IsOk, List, MatchResult, Some, false, length, reverse, slice_get, true, ℕ};
ghost use Rattle.wx_journal.specs.declared.entry.Entry.{Entry as AnEntry};
ghost use Rattle.wx_journal.specs.Told.{anywhere, is_turn, tells};
ghost use Rattle.wx_poller.specs.Polled.{Fits, backing_of};
ghost use Rattle.wx_paced.specs.Pace.{pends};
ghost use Rattle.wx_paced.specs.declared.paced.PacedPoller.{PacedPoller as APoller};
ghost use Rattle.wx_hooks.specs.Given.{GivesBackend, GivesNext, GivesTurn, gives_last};
ghost use Rattle.wx_queue.specs.Rule.{of};
ghost use Rattle.wx_live.specs.Drawn.{NoneLeft, with_moment};
ghost use Rattle.wx_handles.specs.Asked.{IsAsked};
ghost use Rattle.wx_handles.specs.Marked.{latest};
ghost use Rattle.wx_handles.specs.Rounds.{are_rounds, is_round, place_in};
ghost use Rattle.wx_handles.specs.Threaded.{Based, Begins, Own, Parted, own, threaded, unsettled, with_handle};
ghost use Rattle.wx_handles.specs.ThreadedLaws.{threaded_looks};
ghost use Rattle.wx_handles.specs.Turns.{are_behind, count_given, drawn_by, is_item, item_count, items_in, items_of, kind_drawn, turns_by};

use crate::backends::{heard, made_backend};
use crate::mark::Plain;
use crate::marks::Marks;
use crate::turning::{end_or_round, item_turn, plain_turn};
use std::alloc::Global;
use std::snapshot::Snapshot;
use std::sync::Wait;
use wx_command::Spawnable;
use wx_control::{Flag, Id};
use wx_events::ProcessEnd;
use wx_hooks::{TurnFault, Turned, World};
use wx_job::{Host, Outside};
use wx_journal::{Entry, HostFault, Journal, SpawnTag};
use wx_live::Live;
use wx_notify::Notify;
use wx_paced::PacedPoller;
use wx_pass::{Given, HandlePass, Items, SplitRefused};
use wx_scan::{EntryKind, Looks, ScanError, Scanner};
use wx_text::{List, Memory};
use wx_watch::{NotifyFault, Watcher};
use wx_words::TextPath;

/// A world with handles in threads. Its turns come from the handles by a queue, then from ends of children, then from a round of its own:
/// `Work`, a `Job` for each id below its number of jobs, `Listen` and `File`. After as many turns as it was made with, all are `Last`.
/// Children, looks at files and moments are those of a live outside, which is told its entries.
pub struct ThreadWorld<R: Wait + Copy, L: Live + Drop> {
    alloc: Global,
    live: L,
    items: Items<R>,
    marks: Marks,
    turns: u64,
    left: u64,
    jobs: u32,
    place: u64,
    base: Snapshot<L>,
    ghost drew: { L.drawn live ≡ drawn_by (turns_by marks.past (reverse items.given)) (L.drawn base.value) },
    ghost paired: { item_count marks.past ≡ length items.given },
    ghost within: { place ≤ jobs + 2 },
    ghost at: { place ≡ place_in jobs (turns_by marks.past (reverse items.given)) },
    ghost rounds: { are_rounds jobs (turns_by marks.past (reverse items.given)) ≡ true },
    ghost counted: { left + count_given (turns_by marks.past (reverse items.given)) ≡ turns },
    ghost last: { are_behind turns (turns_by marks.past (reverse items.given)) ≡ true },
}

// Its parts are dropped by one call: docs/DESIGN.md, "What proofs cost".
impl<R: Wait + Copy, L: Live + Drop> Drop for ThreadWorld<R, L> {
    fn drop(self) {
        let ThreadWorld {
            alloc: _,
            live: _,
            items: _,
            marks: _,
            turns: _,
            left: _,
            jobs: _,
            place: _,
            base: _,
        } = self;
    }
}

/// Handles are missing: the world, those that were handed in, and how many were made.
#[derive(Drop)]
pub struct Missing<R: Wait + Copy, L: Live + Drop> {
    pub world: ThreadWorld<R, L>,
    pub passes: List<HandlePass<R>>,
    pub made: u32,
}

/// What a world was taken apart into: its outside, and its queue.
pub struct Parts<R: Wait + Copy, L> {
    pub live: L,
    pub items: Items<R>,
}

impl<R: Wait + Copy, L: Live + Drop> ThreadWorld<R, L> {
    /// A world that gives so many turns, with so many jobs in its round and room for so many items in its queue, and its first handle. It
    /// fails only for want of memory.
    pub fn new(
        rt: R,
        alloc: Global,
        live: L,
        turns: u64,
        jobs: u32,
        size: u32,
    ) -> Result<(ThreadWorld<R, L>, HandlePass<R>), Memory>
        requires size { (1 ≤ size) × (size ≤ 65536) }
        ensures begins { IfOk result (λ made. Begins turns jobs (L.drawn live) (L.Outside.seen live) (⟦<ThreadWorld<R, L> as Outside>⟧.seen made.0)) }
        ensures pass { IfOk result (λ made. (made.1.pass.number ≡ 0) × (made.1.pass.sent ≡ []) × (made.1.pass.queue ≡ (⟦<ThreadWorld<R, L> as Outside>⟧.seen made.0).plan.queue)) }
    {
        let mut items = Items::new(rt, alloc, size)?;
        let pass = match items.split(alloc) {
            Ok(pass) => pass,
            Err(_) => return Err(Memory),
        };
        let base = Snapshot::of(&live);
        let world = ThreadWorld {
            alloc,
            live,
            items,
            marks: Marks::new(alloc),
            turns,
            left: turns,
            jobs,
            place: 0,
            base,
        };
        Ok((world, HandlePass::new(pass)))
    }

    /// Makes the next handle. It is refused as spent exactly where there are as many as may be, and else only for want of memory.
    pub fn split(&mut self) -> Result<HandlePass<R>, SplitRefused>
        ensures spent { (result ≡ Err SplitRefused.Spent) ↔ ((⟦<ThreadWorld<R, L> as Outside>⟧.seen self.old).plan.made ≡ 16) }
        ensures made { IfOk result (λ p. (p.pass.number ≡ (⟦<ThreadWorld<R, L> as Outside>⟧.seen self.old).plan.made) × (p.pass.sent ≡ []) × (p.pass.queue ≡ (⟦<ThreadWorld<R, L> as Outside>⟧.seen self.old).plan.queue)) }
        ensures counts { MatchResult result
            (λ _. ⟦<ThreadWorld<R, L> as Outside>⟧.seen self.new ≡ with_handle (⟦<ThreadWorld<R, L> as Outside>⟧.seen self.old))
            (λ _. ⟦<ThreadWorld<R, L> as Outside>⟧.seen self.new ≡ ⟦<ThreadWorld<R, L> as Outside>⟧.seen self.old) }
    {
        match self.items.split(self.alloc) {
            Ok(pass) => Ok(HandlePass::new(pass)),
            Err(refused) => Err(refused),
        }
    }

    /// Takes the world apart into its outside and its queue, so that an outside that was lent comes back.
    pub fn into_parts(self) -> Parts<R, L>
        ensures { Parted (⟦<ThreadWorld<R, L> as Outside>⟧.seen self) (L.Outside.seen result.live) (L.drawn result.live) result.items }
    {
        let ThreadWorld {
            alloc: _,
            live,
            items,
            marks: _,
            turns: _,
            left: _,
            jobs: _,
            place: _,
            base: _,
        } = self;
        Parts { live, items }
    }

    /// Takes the handles in, in any order. It says what each of them sent, what was given of it, and what was left. It takes no memory.
    /// Where fewer handles are handed in than were made, all is given back.
    pub fn finish(self, passes: List<HandlePass<R>>) -> Result<Given, Missing<R, L>>
        requires own { All (λ p. p.pass.queue ≡ (⟦<ThreadWorld<R, L> as Outside>⟧.seen self).plan.queue) passes }
        ensures missing { IsErr result ↔ (length passes < (⟦<ThreadWorld<R, L> as Outside>⟧.seen self).plan.made) }
        ensures back { IfErr result (λ m. (m.world ≡ self) × (m.passes ≡ passes) × (m.made ≡ (⟦<ThreadWorld<R, L> as Outside>⟧.seen self).plan.made)) }
        ensures turns { IfOk result (λ g. (turns : List AnEntry) × ((⟦<ThreadWorld<R, L> as Outside>⟧.seen self).progress.turns ≡ Some turns) × (items_in turns ≡ items_of (reverse g.given))) }
        ensures sent { IfOk result (λ g. (length g.sent ≡ (⟦<ThreadWorld<R, L> as Outside>⟧.seen self).plan.made) × All (λ p. slice_get g.sent p.pass.number ≡ Some p.pass.sent) passes) }
        ensures delivered { IfOk result (λ g. (k : ℕ) → k < (⟦<ThreadWorld<R, L> as Outside>⟧.seen self).plan.made → slice_get g.sent k ≡ Some (of k g.given ++ of k g.left)) }
        ensures only { IfOk result (λ g. All (λ s. s.pass < (⟦<ThreadWorld<R, L> as Outside>⟧.seen self).plan.made) (g.given ++ g.left)) }
    {
        let made = self.items.made();
        if passes.len() < made as usize {
            return Err(Missing {
                world: self,
                passes,
                made,
            });
        }
        let Parts { live, items } = self.into_parts();
        drop(live);
        match items.finish(passes) {
            Ok(given) => Ok(given),
            Err(_) => unreachable!(),
        }
    }
}

impl<R: Wait + Copy, L: Live + Drop> ThreadWorld<R, L> {
    /// Takes the handles in, as `finish` does, behind the one run that this world served, whose journal this is. The items among the turns
    /// of the journal are those that were given, in order.
    pub fn finish_run(
        self,
        _journal: &Journal,
        passes: List<HandlePass<R>>,
    ) -> Result<Given, Missing<R, L>>
        requires own { All (λ p. p.pass.queue ≡ (⟦<ThreadWorld<R, L> as Outside>⟧.seen self).plan.queue) passes }
        requires ran { (⟦<ThreadWorld<R, L> as Outside>⟧.seen self).progress.turns ≡ tells (anywhere is_turn) _journal.now.past (Some []) }
        ensures items { IfOk result (λ g. items_in _journal.now.past ≡ items_of (reverse g.given)) }
        ensures missing { IsErr result ↔ (length passes < (⟦<ThreadWorld<R, L> as Outside>⟧.seen self).plan.made) }
        ensures sent { IfOk result (λ g. (length g.sent ≡ (⟦<ThreadWorld<R, L> as Outside>⟧.seen self).plan.made) × All (λ p. slice_get g.sent p.pass.number ≡ Some p.pass.sent) passes) }
        ensures delivered { IfOk result (λ g. (k : ℕ) → k < (⟦<ThreadWorld<R, L> as Outside>⟧.seen self).plan.made → slice_get g.sent k ≡ Some (of k g.given ++ of k g.left)) }
    {
        self.finish(passes)
    }
}

impl<R: Wait + Copy, L: Live + Drop> Outside for ThreadWorld<R, L> {
    ghost Plan = { Based };

    ghost seen = { λ s. threaded (own s.turns s.jobs (L.drawn s.base.value) s.marks s.items s.left) (L.Outside.seen s.live) };
}

impl<R: Wait + Copy, L: Live + Drop> Looks for ThreadWorld<R, L> {
    ghost looked = { λ s. unsettled (L.Looks.looked s.live) };

    ghost Rest = { L.Looks.Rest × Own };

    ghost rest = { λ s. (L.Looks.rest s.live, own s.turns s.jobs (L.drawn s.base.value) s.marks s.items s.left) };

    ghost place = { λ s. L.Looks.place s.live };
}

impl<R: Wait + Copy, L: Live + Drop> Scanner for ThreadWorld<R, L> {
    fn classify(&mut self, path: &TextPath, follow: bool) -> Result<EntryKind, ScanError> {
        self.live.classify(path, follow)
    }

    fn canonicalize(&mut self, path: &TextPath) -> Result<TextPath, ScanError> {
        self.live.canonicalize(path)
    }

    fn scan(&mut self, path: &TextPath) -> Result<List<TextPath>, ScanError> {
        self.live.scan(path)
    }

    fn stamp(&mut self, path: &TextPath) -> Result<u64, ScanError> {
        self.live.stamp(path)
    }
}

impl<R: Wait + Copy, L: Live + Drop> Host for ThreadWorld<R, L> {
    fn reserve(&mut self, n: u64) -> Result<(), Memory> {
        self.marks.reserve(n)?;
        self.items.reserve(n as usize)?;
        self.live.reserve(n)
    }

    fn spawn(
        &mut self,
        child: u64,
        job: Id,
        what: Spawnable,
        tag: SpawnTag,
    ) -> Result<(), HostFault> {
        self.live.spawn(child, job, what, tag)
    }

    fn signal(&mut self, child: u64, number: i32) -> Result<(), HostFault> {
        self.live.signal(child, number)
    }

    fn kill(&mut self, child: u64) -> Result<(), HostFault> {
        self.live.kill(child)
    }

    fn wait(&mut self, child: u64) -> Result<ProcessEnd, HostFault> {
        self.live.wait(child)
    }

    fn drop_child(&mut self, child: u64) {
        self.live.drop_child(child);
    }

    fn raise(&mut self, ticket: u64, flag: &Flag) {
        self.live.raise(ticket, flag);
    }

    fn gone(&mut self, job: Id, flag: &Flag) {
        self.live.gone(job, flag);
    }
}

impl<R: Wait + Copy, L: Live + Drop> World for ThreadWorld<R, L> {
    type Back = PacedPoller;

    ghost only_looks = { λ x y e. threaded_looks (L.Outside.seen x.live) (L.Outside.seen y.live) (L.Looks.looked y.live) (L.Looks.rest x.live, own x.turns x.jobs (L.drawn x.base.value) x.marks x.items x.left) (L.Looks.rest y.live, own y.turns y.jobs (L.drawn y.base.value) y.marks y.items y.left) (L.only_looks x.live y.live) e };

    /// The next turn. It is an item of the queue where the queue had one, else an end of a child where one is left, and else the next of
    /// the round. It never fails.
    fn turn(&mut self) -> Result<Turned, TurnFault>
        requires { 1 ≤ (⟦<ThreadWorld<R, L> as Outside>⟧.seen self.old).spare }
        ensures gives { GivesTurn result (⟦<ThreadWorld<R, L> as Outside>⟧.seen self.old) (⟦<ThreadWorld<R, L> as Outside>⟧.seen self.new) }
        ensures last { gives_last result ≡ true → self.old.left ≡ 0 }
        ensures ends { self.old.left ≡ 0 → gives_last result ≡ true }
        ensures falls { gives_last result ≡ false → self.new.left < self.old.left }
        ensures later { IfOk result (λ given. (L.seen self.old.live).progress.moment ≤ given.turn.at) }
        ensures ok { IsOk result }
        ensures drawn { IfOk result (λ given. L.drawn self.new.live ≡ with_moment given.turn.at (kind_drawn given.turn.kind (L.drawn self.old.live))) }
        ensures none_left { IfOk result (λ given. is_round given.turn.kind ≡ true → NoneLeft (L.drawn self.old.live).left) }
        ensures none_given { IfOk result (λ given. is_item given.turn.kind ≡ false → self.new.items.given ≡ self.old.items.given) }
    {
        if self.left == 0 {
            return Ok(plain_turn(&mut self.live, &mut self.marks, Plain::Last));
        }
        self.left -= 1;
        match self.items.take() {
            Some(taken) => Ok(item_turn(&mut self.live, &mut self.marks, taken)),
            None => {
                let (plain, place) = end_or_round(&mut self.live, self.jobs, self.place);
                self.place = place;
                Ok(plain_turn(&mut self.live, &mut self.marks, plain))
            }
        }
    }

    /// Makes a backend that polls at its own pace, and may list at once.
    fn make_backend(
        &mut self,
        back: u64,
        kind: Watcher,
        follow: bool,
    ) -> Result<PacedPoller, NotifyFault>
        requires { 1 ≤ (⟦<ThreadWorld<R, L> as Outside>⟧.seen self.old).spare }
        ensures gives { GivesBackend (λ (b : APoller). backing_of b.poller) (λ (b : APoller). Fits b.poller) back kind follow result (⟦<ThreadWorld<R, L> as Outside>⟧.seen self.old) (⟦<ThreadWorld<R, L> as Outside>⟧.seen self.new) }
        ensures at_once { IfOk result (λ b. b.due ≡ 0) }
    {
        made_backend(self.alloc, &mut self.live, back, kind, follow)
    }

    /// Asks the backend what it brings next, at the moment of the last turn.
    fn listen(
        &mut self,
        item: u64,
        name: u64,
        back: &mut PacedPoller,
    ) -> Option<Result<Notify, NotifyFault>>
        requires { 1 ≤ (⟦<ThreadWorld<R, L> as Outside>⟧.seen self.old).spare }
        ensures gives { GivesNext (λ (b : APoller). backing_of b.poller) (λ (b : APoller). Fits b.poller) item name result back.old back.new (⟦<ThreadWorld<R, L> as Outside>⟧.seen self.old) (⟦<ThreadWorld<R, L> as Outside>⟧.seen self.new) }
        ensures asked { IsAsked (latest self.old.marks.past) result back.old back.new }
        ensures idle { pends back.old.poller ≡ false → latest self.old.marks.past < back.old.due → (L.seen self.new.live).looked ≡ (L.seen self.old.live).looked }
    {
        back.set_moment(self.marks.latest());
        heard(self.alloc, &mut self.live, item, name, back)
    }

    fn ready(&mut self, revision: u64, flag: &Flag) {
        flag.raise();
        self.live.note(Entry::Ready(revision));
    }
}
