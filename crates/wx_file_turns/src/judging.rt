// How a step judges directories: by the filter of the hooks, with each answer listed.
ghost use Rattle.std.specs.Prelude.{◌≡◌, ◌∷◌, [], ℕ, Bool, true, IfOk, OnErr, OnOk};
ghost use Rattle.wx_tree.specs.Paths.{Path as APath};
ghost use Rattle.wx_tree.specs.Trees.{Tree};
ghost use Rattle.wx_holding.specs.Holding.{state_of};
ghost use Rattle.wx_fs.specs.Told.{TellsStep};
ghost use Rattle.wx_machine.specs.Start.{Start};
ghost use Rattle.wx_action.specs.Stands.{Stands};
ghost use Rattle.wx_file_turns.specs.Calm.{IsCalmTurn};
ghost use Rattle.wx_file_turns.specs.Walking.{WalksStep};
ghost use Rattle.wx_file_turns.specs.Judged.{AddsDirs, AreJudgedBy, Base, IsKept, IsStepping, recursive_places};
ghost use Rattle.wx_file_turns.specs.Settling.{IsSound, Walks};
ghost use Rattle.wx_file_turns.specs.Standing.{works};
ghost use Rattle.wx_file_turns.specs.Stepping.{IsAtStep, IsWorthwhileUnless, StepsOn};

use crate::files::Watching;
use std::alloc::Global;
use wx_action::{Hooks, Worker, World, close_where, is_exit};
use wx_error::RuntimeError;
use wx_fs::{DirCheck, StepResult};
use wx_journal::{Entry, Journal};
use wx_text::{Copies, Memory};
use wx_words::TextPath;

/// Shows directories to the filter, and lists each answer. Where the filter asks for the end the queue is closed.
pub(crate) struct DirCalls<'a, H: Hooks> {
    worker: &'a mut Worker,
    hooks: &'a mut H,
    journal: &'a mut Journal,
    folder: &'a TextPath,
    alloc: Global,
}

impl<H: Hooks> Drop for DirCalls<'_, H> {
    fn drop(self)
        ensures worker { self.exit.0.now ≡ self.entry.worker.now }
        ensures hooks { self.exit.1.0.now ≡ self.entry.hooks.now }
        ensures journal { self.exit.1.1.0.now ≡ self.entry.journal.now }
    {
        let DirCalls {
            worker: _,
            hooks: _,
            journal: _,
            folder: _,
            alloc: _,
        } = self;
    }
}

impl<H: Hooks> DirCheck for DirCalls<'_, H> {
    ghost use Rattle.wx_tree.specs.Paths.{Path};

    ghost under = { λ s. recursive_places s.folder.now s.worker.now.config.pathset };

    ghost place = { λ s. s.worker.ghost_name ∷ s.hooks.ghost_name ∷ s.journal.ghost_name ∷ [] };

    ghost Base = { Base H };

    ghost kept = { λ b s. IsKept H.seen H.rule H.stands b s.folder.now s.worker.now s.journal.now s.hooks.now };

    ghost agrees = { λ ok s. AreJudgedBy s.worker.now.config.filterer ok s.journal.now.past };

    fn check_dir(&mut self, path: &TextPath) -> Result<bool, RuntimeError> {
        self.worker.reserve(1, self.journal)?;
        self.hooks.reserve(1)?;
        let asked = path.copy(self.alloc)?;
        let Ok(written) = path.copy(self.alloc) else {
            drop(asked);
            return Err(RuntimeError::Memory);
        };
        let n = self.worker.config.filterer;
        let answer = self.hooks.check_dir(n, asked);
        let given = answer.copy(self.alloc);
        close_where(is_exit(&answer), &mut self.worker.queue);
        self.journal.push(Entry::Dir {
            n,
            path: written,
            answer,
        });
        given?
    }
}

/// A step of what keeps watches, with each directory judged by the filter of the hooks. It answers what is to be shown. It fails
/// only for want of memory.
pub(crate) fn take_step<W: World, H: Hooks>(
    alloc: Global,
    folder: &TextPath,
    watching: &mut Watching<W::Back>,
    worker: &mut Worker,
    world: &mut W,
    hooks: &mut H,
    journal: &mut Journal,
) -> Result<StepResult, Memory>
    ghost start: { Start }
    requires stands { Stands start worker.old journal.old.past }
    requires at_step { IsAtStep start watching.old journal.old.past }
    requires folder { folder.now ≡ start.folder }
    ensures steps { StepsOn H.seen H.rule H.stands start worker.old journal.old (W.seen world.old) hooks.old worker.new journal.new (W.seen world.new) hooks.new }
    ensures at_step { OnOk result (IsAtStep start watching.new journal.new.past) }
    ensures worthwhile { IfOk result (λ shown. IsWorthwhileUnless shown.rebuild_backend watching.new journal.old.past (W.seen world.old) journal.new.past (W.seen world.new)) }
    ensures dirs { AddsDirs journal.old.past journal.new.past }
    ensures walks { (t : Tree) (ok : ℕ → APath → Bool) → IsCalmTurn t ok start journal.new.past (W.seen world.old).looked (W.seen world.new).looked → Walks W.Back.backing W.Back.fits t ok start journal.old.past watching.old → works watching.old ≡ true
        → IfOk result (λ shown. IsSound W.Back.backing W.Back.fits t start watching.new.recursor × WalksStep t ok start journal.new.past (state_of watching.new.recursor.held) shown.errors shown.rebuild_backend) }
    ensures cut { OnErr result (IsStepping start journal.new.past) }
    ensures tells { IfOk result (λ shown. TellsStep watching.old.recursor.kind (state_of watching.old.recursor.held) (state_of watching.new.recursor.held) shown.errors shown.rebuild_backend) }
{
    let mut dirs = DirCalls {
        worker,
        hooks,
        journal,
        folder,
        alloc,
    };
    watching.recursor.step(world, &mut dirs)
}
