// The run of an engine.
ghost use Rattle.std.specs.Prelude.{◌≡◌, [], ◌+◌, ◌≤◌, ℕ, Bool, false, IfErr, None};
ghost use Rattle.wx_tree.specs.Paths.{Path};
ghost use Rattle.wx_tree.specs.Trees.{Tree};
ghost use Rattle.wx_file_turns.specs.Calm.{StaysCalm};
ghost use Rattle.wx_file_turns.specs.FewSteps.{FewSteps};
ghost use Rattle.wx_control.specs.declared.id.Id.{Id as AnId};
ghost use Rattle.wx_journal.specs.Told.{is_world, is_hooks, is_turn, anywhere, tells, Obeys, Rose};
ghost use Rattle.wx_machine.specs.History.{child};
ghost use Rattle.wx_machine.specs.Afterwards.{GoesOnAfterFaults};
ghost use Rattle.wx_machine.specs.JobLaws.{EachIsReaping, AfterFaults};
ghost use Rattle.wx_machine.specs.TicketLaws.{Throughout, AreInOnePlace, AreRaisedLast, WaitForGraces, WaitForFunctions, GracesNeedChildren};
ghost use Rattle.wx_machine.specs.Journal.{turn_count, early_count};
ghost use Rattle.wx_machine.specs.RunLaws.{IsBatched, AreBatches, NoneUrgentWaits, NoneUnseenIsShown, NoneIsShownClosed, MomentsRise, AreMadeByRule, AreServed, AreRevised};
ghost use Rattle.wx_machine.specs.Answer.{Answers};
ghost use Rattle.wx_machine.specs.Faults.{Counted};
ghost use Rattle.wx_machine.specs.FileLaws.{AreFromFiles, AreWatchedByRule, UnmadeEnds};
ghost use Rattle.wx_engine.specs.Run.{HasCause, Ran, AreFewSteps};
ghost use Rattle.wx_engine.specs.Completes.{IsOkOrMemory, NoneEnds, AreGranted};
ghost use Rattle.wx_engine.specs.Offers.{AreOffered};

use crate::running::run;
use crate::watchexec::Watchexec;
use std::alloc::Global;
use wx_error::CriticalError;
use wx_hooks::{Hooks, World};
use wx_job::{Host, JobHooks, Outside};
use wx_journal::Journal;

impl Watchexec {
    /// Runs the engine: asks `world` for turns, serves each before the next, and writes all of it into `journal`, until an
    /// action, the filter or the error handler asks for the end, or the last turn came. Ok comes where the end was due.
    /// `IoError` about `turn` comes where the world had no turn to give, with the code of that fault. `Elevated`, and any
    /// other error but `Exit`, comes directly after the error handler wished it: an error that it was shown, elevated
    /// without help, or a critical error as it was handed in. `FsWatcherInit` also comes directly after a backend couldn't be
    /// made, which then is said of that, and `Memory` also for want of memory. `Exit` never comes.
    /// Whatever the answer, each job that lives then ends, and the child that it runs is let go. The journal is a run, or
    /// one that was broken off, with this end behind it. It lists the turns that were given and the calls that were made,
    /// in order.
    pub fn main<W: World, H: Hooks>(
        self,
        alloc: Global,
        world: &mut W,
        hooks: &mut H,
        journal: &mut Journal,
    ) -> Result<(), CriticalError>
        requires { journal.old.past ≡ [] }

        // The journal is a run that this answer may have, with its end done, and each error has its cause.
        ensures ran { Ran self journal.new.past }
        ensures answer { Answers self journal.new.past result }
        ensures cause { IfErr result (λ error. HasCause self journal.new.past error (W.seen world.old).progress (W.seen world.new).progress) }
        ensures completes { (Rose (W.seen world.old).progress.turn_faults (W.seen world.new).progress.turn_faults → ⊥) → (Rose (W.seen world.old).progress.maker_faults (W.seen world.new).progress.maker_faults → ⊥) → NoneEnds journal.new.past → IsOkOrMemory result }
        ensures granted { AreGranted result journal.new.past }

        // It lists what was told: the turns, and the calls on world and hooks. At most one turn more came than were left, and
        // it is a last one.
        ensures world { (W.seen world.new).shown.told ≡ tells is_world journal.new.past (W.seen world.old).shown.told }
        ensures hooks { (H.seen hooks.new).told ≡ tells (anywhere is_hooks) journal.new.past (H.seen hooks.old).told }
        ensures turns { (W.seen world.new).progress.turns ≡ tells (anywhere is_turn) journal.new.past (W.seen world.old).progress.turns }
        ensures count { turn_count journal.new.past ≤ (W.seen world.old).progress.left + 1 }
        ensures one_more { early_count journal.new.past ≤ (W.seen world.old).progress.left }

        // The count of failed calls on children rose with each. A job whose spawn failed is pending. A child that could
        // not be sent a signal, killed or waited for runs, without a grace where this was at the end of one.
        ensures host_faults { Counted [] (W.seen world.old).shown.faults journal.new.past (W.seen world.new).shown.faults }
        ensures after_faults { AfterFaults journal.new.past }
        ensures afterwards { GoesOnAfterFaults journal.new.past }

        // Each child of a job is reaped, in each history of its id, and none runs.
        ensures children { (id : AnId) → EachIsReaping id journal.new.past }
        ensures none_runs { (id : AnId) → child id journal.new.past ≡ None }

        // At each moment a ticket of a job that lives waits, is in hand, is parked or was raised, and just one of these. It
        // is raised once at most, behind the other calls of its case.
        ensures tickets { Throughout AreInOnePlace journal.new.past }
        ensures raised_last { AreRaisedLast journal.new.past }

        // A grace stands only while a child runs, and holds back the controls of the level Normal.
        ensures graces { Throughout GracesNeedChildren journal.new.past }
        ensures pressing { WaitForGraces journal.new.past }

        // While a function that was begun isn't ready, nothing comes of its job but its polls, controls that are asked, and
        // the end of the job. In a turn about the job no word is said but that it isn't ready, behind a poll.
        ensures functions { WaitForFunctions journal.new.past }

        // The laws of runs.
        ensures batched { IsBatched journal.new.past }
        ensures batches { AreBatches self journal.new.past }
        ensures never_lost { NoneUrgentWaits journal.new.past }
        ensures moments { MomentsRise journal.new.past }
        ensures shown { NoneUnseenIsShown journal.new.past }
        ensures shown_open { NoneIsShownClosed journal.new.past }
        ensures offers { AreOffered self journal.new.past }
        ensures ids { AreMadeByRule journal.new.past }
        ensures served { AreServed self journal.new.past }
        ensures revisions { AreRevised self journal.new.past }

        // What is watched: the directories that are judged, the backends that are made, the settings that are applied, and what is
        // brought, heard, let go and offered are those that the rules say. Each event that is offered of an item was brought by a live
        // backend and is of a path that was applied; they come in the order brought, each once at most. Behind a backend that couldn't
        // be made nothing but the end comes. There are at most as many steps as looks in this call, and entries that bring work; or the
        // count of looks stands at the end of its range.
        ensures watched { AreWatchedByRule self journal.new.past }
        ensures from_files { AreFromFiles self journal.new.past }
        ensures ends_unmade { UnmadeEnds journal.new.past }
        ensures steps { AreFewSteps journal.new.past (W.seen world.old).looked.looks (W.seen world.new).looked.looks }

        // On a tree that is known from the first turn on, where backends are exact, each path of the tree has names for parts, no look
        // failed, links aren't followed by settings that were applied, and each filter judged directories as one test of paths does: since
        // settings were applied there are no more steps than settle, and what they show is that applied roots are absent.
        ensures settles { (t : Tree) (ok : ℕ → Path → Bool) → StaysCalm t ok self journal.new.past (W.seen world.old).looked (W.seen world.new).looked → FewSteps self t journal.new.past }

        // Where the hooks stood for the empty journal and are not short, each call passes their rule.
        ensures rule { (H.seen hooks.new).short ≡ false → H.stands hooks.old [] → Obeys (H.rule (H.seen hooks.old).plan) [] journal.new.past }
        ensures stands { (H.seen hooks.new).short ≡ false → H.stands hooks.old [] → H.stands hooks.new journal.new.past }
        ensures short { (H.seen hooks.new).short ≡ false → (H.seen hooks.old).short ≡ false }

        // What no call changes.
        ensures world_plan { (W.seen world.new).plan ≡ (W.seen world.old).plan }
        ensures world_place { (W.seen world.new).place ≡ (W.seen world.old).place }
        ensures hooks_plan { (H.seen hooks.new).plan ≡ (H.seen hooks.old).plan }
        ensures hooks_place { (H.seen hooks.new).place ≡ (H.seen hooks.old).place }
    {
        run(alloc, self, world, hooks, journal)
    }
}
