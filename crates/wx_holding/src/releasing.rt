// How what serves nothing is let go.
ghost use Rattle.wx_holding.specs.Calm.{IsStill, ReleasesCalmly, StandsBy};
ghost use Rattle.wx_holding.specs.Standing.{AreToGo, GoCalmly, IsAtTree};
ghost use Rattle.wx_tree.specs.Trees.{Tree};
ghost use Rattle.std.specs.Prelude.{◌≡◌, IfOk, OnOk};
ghost use Rattle.wx_scan.specs.Looked.{OnlyLooks};
ghost use Rattle.wx_recursor.specs.Holding.{still_known};
ghost use Rattle.wx_recursor.specs.Sound.{AreSound, things};
ghost use Rattle.wx_recursor.specs.Steps.{asked_for_lost, idle_registrations, serving_registrations};
ghost use Rattle.wx_holding.specs.Backed.{KeepsWatches, LetsGo, paths_spelled};
ghost use Rattle.wx_holding.specs.Effects.{Releases, UnwatchesEach};
ghost use Rattle.wx_holding.specs.Holding.{state_of};

use crate::held::Held;
use std::alloc::Global;
use wx_index::{idle_registrations, lost_paths};
use wx_recursor::Known;
use wx_recursor_lists::has_new;
use wx_scan::{Backend, Scanner};
use wx_text::Memory;

impl Held {
    /// What has no owner is known no more.
    fn forget_unowned(&mut self)
        ensures { state_of self.new ≡ record (state_of self.old) { known = still_known (state_of self.old).owners (state_of self.old).known } }
    {
        self.known.keep_owned(&self.owners);
    }

    fn idle(&self, alloc: Global) -> Result<Vec<Known>, Memory>
        ensures { IfOk result (λ idle. idle.items ≡ idle_registrations (state_of self.now).known (state_of self.now).guards (state_of self.now).registrations) }
    {
        idle_registrations(
            alloc,
            &self.known,
            self.guards.as_slice(),
            self.registrations.as_slice(),
        )
    }

    /// Registrations stay where they serve.
    fn trim(&mut self)
        ensures { state_of self.new ≡ record (state_of self.old) {
          registrations = serving_registrations (state_of self.old).known (state_of self.old).guards (state_of self.old).registrations;
          waiting = serving_registrations (state_of self.old).known (state_of self.old).guards (state_of self.old).waiting;
        } }
    {
        self.registrations
            .keep_serving(&self.known, self.guards.as_slice());
        self.waiting
            .keep_serving(&self.known, self.guards.as_slice());
    }

    /// A representative that is lost, and wasn't before, asks for a rebuild.
    fn ask_for_lost(&mut self, alloc: Global) -> Result<(), Memory>
        ensures { OnOk result (state_of self.new ≡ asked_for_lost (state_of self.old)) }
    {
        let lost = lost_paths(
            alloc,
            &self.known,
            self.guards.as_slice(),
            self.registrations.as_slice(),
        )?;
        if has_new(lost.as_slice(), self.lost.as_slice()) {
            self.asks_rebuild = true;
        }
        self.lost = lost;
        Ok(())
    }

    /// These are unwatched, in order.
    fn unwatch_each<B: Backend, S: Scanner>(
        &mut self,
        alloc: Global,
        idle: &[Known],
        back: &mut B,
        scan: &mut S,
    ) -> Result<(), Memory>
        ensures looked { OnlyLooks (S.looked scan.old) (S.looked scan.new) }
        ensures rest { S.rest scan.new ≡ S.rest scan.old }
        ensures place { S.place scan.new ≡ S.place scan.old }
        ensures state { OnOk result (UnwatchesEach idle.now (state_of self.old) (state_of self.new)) }
        ensures watches { OnOk result (LetsGo (paths_spelled idle.now) (B.backing back.old) (B.backing back.new)) }
        ensures calm { (t : Tree) → IsStill t (S.looked scan.old) (S.looked scan.new) → IsAtTree t (B.backing back.old) (B.fits back.old t) → AreToGo (paths_spelled idle.now) (B.backing back.old).registrations → OnOk result (GoCalmly t (paths_spelled idle.now) (state_of self.old) (state_of self.new) (B.backing back.old) (B.backing back.new) (B.fits back.new t)) }
    {
        let mut rest = idle;
        while let [first, after @ ..] = rest {
            self.unwatch(alloc, &first.path, back, scan)?;
            rest = after;
        }
        Ok(())
    }

    /// A path without owner goes. A registration that serves nothing is unwatched, the deepest path first.
    pub fn release<B: Backend, S: Scanner>(
        &mut self,
        alloc: Global,
        back: &mut B,
        scan: &mut S,
    ) -> Result<(), Memory>
        ensures looked { OnlyLooks (S.looked scan.old) (S.looked scan.new) }
        ensures rest { S.rest scan.new ≡ S.rest scan.old }
        ensures place { S.place scan.new ≡ S.place scan.old }
        ensures state { OnOk result (Releases (state_of self.old) (state_of self.new)) }
        ensures watches { OnOk result (AreSound (things (state_of self.old)) → KeepsWatches (state_of self.old).registrations (state_of self.new).registrations (B.backing back.old) (B.backing back.new)) }
        ensures calm { (t : Tree) → IsStill t (S.looked scan.old) (S.looked scan.new) → StandsBy t (state_of self.old).registrations (B.backing back.old) (B.fits back.old t) → AreSound (things (state_of self.old)) → OnOk result (ReleasesCalmly (state_of self.old) (state_of self.new) × StandsBy t (state_of self.new).registrations (B.backing back.new) (B.fits back.new t)) }
    {
        self.forget_unowned();
        let idle = self.idle(alloc)?;
        self.unwatch_each(alloc, idle.as_slice(), back, scan)?;
        self.trim();
        self.ask_for_lost(alloc)
    }
}
