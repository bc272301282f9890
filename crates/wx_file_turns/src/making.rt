// How a backend is made.
ghost use Rattle.std.specs.Prelude.{◌≡◌, ◌∷◌, [], true, false, IfErr, IfOk, Ok};
ghost use Rattle.wx_tree.specs.Trees.{Tree};
ghost use Rattle.wx_scan.specs.Told.{IsNamed};
ghost use Rattle.wx_journal.specs.declared.entry.Entry.TheVariants.{Make};
ghost use Rattle.wx_machine.specs.Answer.{BreaksHere};
ghost use Rattle.wx_machine.specs.Files.{init_fault};
ghost use Rattle.wx_machine.specs.Start.{Start};
ghost use Rattle.wx_worker.specs.Stands.{Stands};
ghost use Rattle.wx_file_turns.specs.Making.{EndsUnmade, IsToMake};
ghost use Rattle.wx_file_turns.specs.Serves.{AttendsAlone, CountsOnward};
ghost use Rattle.wx_file_turns.specs.Stepping.{StaysBrought};

use std::alloc::Global;
use wx_error::CriticalError;
use wx_journal::{Entry, Journal};
use wx_recursor_lists::{is_of_handles, is_of_watches};
use wx_text::{Copies, Memory};
use wx_watch::{FsWatcherError, NotifyFault, NotifyFaultKind, Watcher};
use wx_worker::{Worker, World};

/// What is said of a backend that couldn't be made.
fn init_fault(fault: NotifyFault) -> FsWatcherError
    ensures { result ≡ init_fault fault }
{
    if is_of_watches(&fault) {
        return FsWatcherError::TooManyWatches(fault);
    }
    if is_of_handles(&fault) {
        return FsWatcherError::TooManyHandles(fault);
    }
    FsWatcherError::Create(fault)
}

/// The error with which the run ends, since a backend couldn't be made for this fault: want of memory, where the fault says so or
/// can't be copied.
fn init_error(alloc: Global, kind: Watcher, fault: &NotifyFault) -> CriticalError
    ensures { EndsUnmade kind fault.now result }
{
    if matches!(fault.kind, NotifyFaultKind::Memory) {
        return CriticalError::Memory;
    }
    match fault.copy(alloc) {
        Ok(copy) => CriticalError::FsWatcherInit {
            kind,
            err: init_fault(copy),
        },
        Err(Memory) => CriticalError::Memory,
    }
}

/// Makes a backend by this watcher, with links followed or not, and lists how that ended. It answers the name of the backend with
/// it. It fails where the backend can't be made, and for want of memory: then no backend was asked for.
pub(crate) fn make_backend<W: World>(
    alloc: Global,
    worker: &Worker,
    kind: Watcher,
    follow: bool,
    world: &mut W,
    journal: &mut Journal,
) -> Result<(u64, W::Back), CriticalError>
    ghost start: { Start }
    requires stands { Stands start worker.now journal.old.past }
    requires due { IsToMake start kind follow journal.old.past }
    ensures alone { AttendsAlone start worker.now journal.old (W.seen world.old) journal.new (W.seen world.new) }
    ensures onward { CountsOnward journal.old.past (W.seen world.old) journal.new.past (W.seen world.new) }
    ensures brought { StaysBrought start journal.old.past journal.new.past }
    ensures made { IfOk result (λ made. journal.new.past ≡ Make made.0 kind follow (Ok tt) ∷ journal.old.past) }
    ensures empty { IfOk result (λ made. (W.Back.backing made.1).registrations ≡ []) }
    ensures exact { (W.seen world.old).looked.exact ≡ true → follow ≡ false → IfOk result (λ made. ((W.Back.backing made.1).exact ≡ true) × ((t : Tree) → IsNamed t → W.Back.fits made.1 t)) }
    ensures breaks { IfErr result (λ error. BreaksHere start journal.new.past error) }
{
    worker.reserve(1, journal)?;
    worker.reserve_host(1, world)?;
    let back = journal.backs();
    match world.make_backend(back, kind, follow) {
        Ok(made) => {
            journal.push(Entry::Make {
                back,
                watcher: kind,
                follow,
                answer: Ok(()),
            });
            Ok((back, made))
        }
        Err(fault) => {
            let error = init_error(alloc, kind, &fault);
            journal.push(Entry::Make {
                back,
                watcher: kind,
                follow,
                answer: Err(fault),
            });
            Err(error)
        }
    }
}
