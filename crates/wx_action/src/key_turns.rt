// The turns of signals and of the keyboard.
ghost use Rattle.std.specs.Prelude.{◌≡◌, ℕ, OnOk, OnErr};
ghost use Rattle.wx_journal.specs.declared.entry.TurnKind.TheVariants.{Signal as SignalTurn, Keys as KeysTurn};
ghost use Rattle.wx_machine.specs.Start.{Start};
ghost use Rattle.wx_machine.specs.Answer.{NoneIsToGo};
ghost use Rattle.wx_machine.specs.Due.{agenda};
ghost use Rattle.wx_worker.specs.Serves.{Grows, IsServed, Settles};
ghost use Rattle.wx_worker.specs.Stands.{AtTurn};

use std::alloc::Global;
use wx_events::Signal;
use wx_journal::{Journal, Word};
use wx_keys::{hears_signal, key_events, signal_event};
use wx_text::{List, Memory};
use wx_worker::Worker;

/// A turn of a signal to this program: its event is offered, or the turn is ignored where the signal isn't heard. It fails only
/// for want of memory, and adds no entry then.
pub fn signal_turn(
    alloc: Global,
    worker: &mut Worker,
    signal: Signal,
    journal: &mut Journal,
) -> Result<(), Memory>
    ghost start: { Start }
    requires turn { (at : ℕ) × AtTurn start worker.old at (SignalTurn signal) journal.old.past }
    ensures grows { Grows start worker.old journal.old worker.new journal.new }
    ensures settles { Settles result start journal.old.past journal.new.past }
{
    if !hears_signal(signal, worker.config.signal_job_control) {
        return worker.ignored(journal);
    }
    let (event, priority) = signal_event(alloc, signal)?;
    worker.arrive(alloc, event, priority, journal)
}

/// A turn of a read from the keyboard: the event of each of its keys is offered, in order, or the turn says that there is none.
/// It is ignored where keys aren't heard. It fails only for want of memory, behind any of the offers.
pub fn keys_turn(
    alloc: Global,
    worker: &mut Worker,
    bytes: List<u8>,
    journal: &mut Journal,
) -> Result<(), Memory>
    ghost start: { Start }
    requires turn { (at : ℕ) × AtTurn start worker.old at (KeysTurn bytes) journal.old.past }
    ensures grows { Grows start worker.old journal.old worker.new journal.new }
    ensures done { OnOk result (IsServed start journal.new.past) }
    ensures cut { OnErr result (NoneIsToGo (agenda start journal.new.past)) }
{
    let heard = worker.hears_keys();
    worker.keep_read(bytes.as_slice());
    if !heard {
        return worker.ignored(journal);
    }
    let events = key_events(alloc, bytes.as_slice())?;
    if events.is_empty() {
        return worker.say(Word::Idle, journal);
    }
    worker.arrive_keys(alloc, events, journal)
}
