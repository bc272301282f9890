// Backends of a world with handles.
ghost use Rattle.std.specs.Prelude.{◌≡◌, ◌≤◌, ◌<◌, ◌⊎◌, [], IfOk, false, not};
ghost use Rattle.wx_scan.specs.Backings.{failed_by, is_memory};
ghost use Rattle.wx_watch.specs.declared.notify_fault.NotifyFaultKind.TheVariants.{Memory as OutOfMemory};
ghost use Rattle.wx_poller.specs.Polled.{backing_of, Fits};
ghost use Rattle.wx_paced.specs.Pace.{pends};
ghost use Rattle.wx_paced.specs.declared.paced.PacedPoller.{PacedPoller as APoller};
ghost use Rattle.wx_hooks.specs.Given.{GivesBackend, GivesNext, unheard};
ghost use Rattle.wx_handles.specs.Asked.{IsAsked};

use std::alloc::Global;
use wx_journal::{Entry, Word};
use wx_live::Live;
use wx_notify::Notify;
use wx_paced::PacedPoller;
use wx_scan::Backend;
use wx_text::{Copies, List, Memory};
use wx_watch::{NotifyFault, NotifyFaultKind, Watcher};

/// A backend that polls, or that there is no memory. It is told to the live outside.
pub(crate) fn made_backend<L: Live>(
    alloc: Global,
    live: &mut L,
    back: u64,
    watcher: Watcher,
    follow: bool,
) -> Result<PacedPoller, NotifyFault>
    requires { 1 ≤ (L.seen live.old).spare }
    ensures gives { GivesBackend (λ (b : APoller). backing_of b.poller) (λ (b : APoller). Fits b.poller) back watcher follow result (L.seen live.old) (L.seen live.new) }
    ensures at_once { IfOk result (λ b. b.due ≡ 0) }
    ensures only_memory { failed_by (λ kind. not (is_memory kind)) result ≡ false }
    ensures drawn { L.drawn live.new ≡ L.drawn live.old }
{
    match PacedPoller::new(alloc, follow) {
        Ok(poller) => {
            live.note(Entry::Make {
                back,
                watcher,
                follow,
                answer: Ok(()),
            });
            Ok(poller)
        }
        Err(Memory) => {
            live.note(Entry::Make {
                back,
                watcher,
                follow,
                answer: Err(no_memory(alloc)),
            });
            Err(no_memory(alloc))
        }
    }
}

/// What the backend brings next. It is told to the live outside.
pub(crate) fn heard<L: Live>(
    alloc: Global,
    live: &mut L,
    item: u64,
    name: u64,
    back: &mut PacedPoller,
) -> Option<Result<Notify, NotifyFault>>
    requires { 1 ≤ (L.seen live.old).spare }
    ensures gives { GivesNext (λ (b : APoller). backing_of b.poller) (λ (b : APoller). Fits b.poller) item name result back.old back.new (L.seen live.old) (L.seen live.new) }
    ensures asked { IsAsked back.old.moment result back.old back.new }
    ensures idle { pends back.old.poller ≡ false → back.old.moment < back.old.due → (L.seen live.new).looked ≡ (L.seen live.old).looked }
    ensures drawn { L.drawn live.new ≡ L.drawn live.old }
{
    let Some(next) = back.next(live) else {
        live.note(Entry::Word(Word::Quiet));
        return None;
    };
    let (given, told) = given_and_told(alloc, next);
    live.note(Entry::Brought {
        item,
        back: name,
        answer: told,
    });
    Some(given)
}

/// What a backend brought, to be given and to be told, or in both places that there was no memory.
fn given_and_told(
    alloc: Global,
    next: Result<Notify, NotifyFault>,
) -> (Result<Notify, NotifyFault>, Result<Notify, NotifyFault>)
    ensures twice { result.1 ≡ result.0 }
    ensures given { (result.0 ≡ next) ⊎ (result.0 ≡ unheard) }
{
    match next.copy(alloc) {
        Ok(told) => (next, told),
        Err(Memory) => {
            drop(next);
            (Err(no_memory(alloc)), Err(no_memory(alloc)))
        }
    }
}

/// The fault that there was no memory.
fn no_memory(alloc: Global) -> NotifyFault
    ensures { result ≡ record { kind = OutOfMemory; paths = [] } }
{
    NotifyFault {
        kind: NotifyFaultKind::Memory,
        paths: List::new(alloc),
    }
}
