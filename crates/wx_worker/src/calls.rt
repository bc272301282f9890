// What a worker says and shows in any turn, by what is due: the entry of a word (`say_due`), and of an error that is shown
// (`call_show`). Each asks that its entry is due, whatever brings it.
ghost use Rattle.std.specs.Prelude.{◌≡◌, ◌∷◌, ◌||◌, IfOk, IfErr, OnOk, OnErr, is_some, true, false};
ghost use Rattle.wx_job.specs.Calls.{AreRoomy};
ghost use Rattle.wx_journal.specs.declared.entry.Entry.TheVariants.{Word as Said};
ghost use Rattle.wx_journal.specs.Told.{is_world};
ghost use Rattle.wx_machine.specs.Start.{Start};
ghost use Rattle.wx_machine.specs.Answer.{BreaksHere};
ghost use Rattle.wx_machine.specs.Journal.{is_exit, is_close, ending};
ghost use Rattle.wx_machine.specs.Due.{Due};
ghost use Rattle.wx_worker.specs.Calls.{OwesShow, IsShown};
ghost use Rattle.wx_worker.specs.Serves.{Grows, GrowsWithin};
ghost use Rattle.wx_worker.specs.Stands.{Stands, MayShow};

use crate::worker_state::Worker;
use prio_channel::PrioQueue;
use std::alloc::Global;
use wx_error::{CriticalError, RuntimeError};
use wx_hooks::{ErrorHook, Hooks};
use wx_journal::{Entry, Journal, Named, Wish, Word};
use wx_text::{Copies, Memory};

/// Whether a filter asked for the end.
pub fn is_exit(answer: &Result<bool, RuntimeError>) -> bool
    ensures { result ≡ is_exit answer.now }
{
    matches!(answer, Err(RuntimeError::Exit))
}

/// Whether an error handler wished the end without an error.
fn is_close(wish: &Wish) -> bool
    ensures { result ≡ is_close wish.now }
{
    match wish {
        Wish::Critical(error) => matches!(error.get(), CriticalError::Exit),
        Wish::Nothing | Wish::Elevate => false,
    }
}

/// The error that a wish ends the run with. It fails only for want of memory.
fn ending(alloc: Global, error: &RuntimeError, wish: &Wish) -> Result<Option<CriticalError>, Memory>
    ensures ending { IfOk result (λ ends. ends ≡ ending error.now wish.now) }
    ensures wants { OnErr result (is_some (ending error.now wish.now) ≡ true) }
{
    match wish {
        Wish::Nothing => Ok(None),
        Wish::Elevate => Ok(Some(CriticalError::Elevated {
            err: error.copy(alloc)?,
            help: None,
        })),
        Wish::Critical(wished) => match wished.get() {
            CriticalError::Exit => Ok(None),
            wished => Ok(Some(wished.copy(alloc)?)),
        },
    }
}

/// Closes the queue, where the run is to end. It takes no memory.
pub fn close_where(ends: bool, queue: &mut PrioQueue<Named>)
    ensures items { queue.new.items ≡ queue.old.items }
    ensures size { queue.new.size ≡ queue.old.size }
    ensures closed { queue.new.closed ≡ (ends || queue.old.closed) }
{
    if ends {
        queue.close();
    }
}

impl Worker {
    /// Says this of a turn, which is due, and is no call on the world. It fails only for want of memory, and adds no entry then.
    pub fn say_due(&self, word: Word, journal: &mut Journal) -> Result<(), Memory>
        ghost start: { Start }
        requires stands { Stands start self.now journal.old.past }
        requires due { Due start journal.old.past (Said word) }
        requires alone { is_world journal.old.past (Said word) ≡ false }
        ensures grows { Grows start self.now journal.old self.now journal.new }
        ensures said { OnOk result (journal.new.past ≡ Said word ∷ journal.old.past) }
        ensures err { OnErr result (journal.new.past ≡ journal.old.past) }
    {
        self.reserve(1, journal)?;
        journal.push(Entry::Word(word));
        Ok(())
    }

    /// Shows an error, which is due whatever is wished, to the error handler, in room that was taken. Where this wishes that the
    /// run ends the error with which it does is answered, and where it wishes the end without an error the queue is closed. It
    /// also fails for want of memory: before the error is shown, or where the run is to end with an error.
    pub fn call_show<H: Hooks>(
        &mut self,
        alloc: Global,
        error: RuntimeError,
        hooks: &mut H,
        journal: &mut Journal,
    ) -> Result<(), CriticalError>
        ghost start: { Start }
        requires owes { OwesShow start self.old error journal.old.past }
        requires room { AreRoomy 1 1 journal.old (H.seen hooks.old) }
        ensures within { GrowsWithin H.seen H.rule H.stands start 1 1 self.old journal.old hooks.old self.new journal.new hooks.new }
        ensures adds { MayShow journal.old.past journal.new.past }
        ensures done { OnOk result (IsShown start error journal.old.past journal.new.past) }
        ensures breaks { IfErr result (λ error. BreaksHere start journal.new.past error) }
    {
        let n = self.config.error_handler;
        let mut hook = ErrorHook::new(alloc, error)?;
        hooks.error(n, &mut hook);
        let (error, wish) = hook.into_parts();
        let ends = ending(alloc, &error, &wish);
        let closes = is_close(&wish);
        journal.push(Entry::Show { n, error, wish });
        close_where(closes, &mut self.queue);
        match ends? {
            Some(error) => Err(error),
            None => Ok(()),
        }
    }
}
