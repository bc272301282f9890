// The traits of the outside: what the engine asks of its world, and of the hooks that its user hands in.
ghost use Rattle.std.specs.Prelude.{◌≡◌, ◌≤◌, ◌<◌, IfOk, true, false, Some, List};
ghost use Rattle.wx_journal.specs.declared.entry.Entry.{Entry, Entry as AnEntry};
ghost use Rattle.wx_machine.specs.Kept.{TellsHooks, Keeps};
ghost use Rattle.wx_machine.specs.Journal.{listed};
ghost use Rattle.wx_hooks.specs.ErrorHooks.{IsNewHook};
ghost use Rattle.wx_hooks.specs.Handled.{IsNewHandler};
ghost use Rattle.wx_hooks.specs.Given.{gives_last, GivesBackend, GivesNext, GivesTurn};
ghost use Rattle.wx_machine.specs.Steady.{Tells};

use crate::error_hook::ErrorHook;
use crate::handler::ActionHandler;
use wx_control::Flag;
use wx_error::RuntimeError;
use wx_events::{Event, Priority};
use wx_job::{Host, JobHooks};
use wx_journal::{Entry, Turn};
use wx_notify::Notify;
use wx_scan::{Backend, Scanner};
use wx_watch::{NotifyFault, Watcher};
use wx_words::TextPath;

/// The world has no turn to give: the code of the fault.
#[derive(Clone, Copy, Debug, PartialEq, Eq)]
pub struct TurnFault(pub u32);

/// A turn that the world gave.
#[derive(Drop)]
pub struct Turned {
    pub turn: Turn,
    /// The flag that the last control of an ask raises when it is over, where one was made with the ask.
    pub done: Option<Flag>,
}

/// What gives the turns of a run, looks at files, and makes what watches them.
pub trait World: Host + Scanner {
    /// What watches files.
    type Back: Backend + Drop;

    /// The next turn, or the fault for which there is none. It is the last turn exactly where no turn is left; else
    /// fewer turns are left. Moments never go back. A fault comes only where the count of turn faults rose.
    fn turn(&mut self) -> Result<Turned, TurnFault>
        requires { 1 ≤ (Self.seen self.old).spare }
        ensures gives { GivesTurn result (Self.seen self.old) (Self.seen self.new) }
        ensures last { gives_last result ≡ true → (Self.seen self.old).progress.left ≡ 0 }
        ensures ends { (Self.seen self.old).progress.left ≡ 0 → gives_last result ≡ true }
        ensures falls { gives_last result ≡ false → (Self.seen self.new).progress.left < (Self.seen self.old).progress.left }
        ensures later { IfOk result (λ given. (Self.seen self.old).progress.moment ≤ given.turn.at) };

    /// Makes a backend of this name by this watcher, which follows links or doesn't. It watches nothing yet. A fault comes only
    /// for want of memory, or where the count of faults of the maker rose.
    fn make_backend(
        &mut self,
        back: u64,
        kind: Watcher,
        follow: bool,
    ) -> Result<Self::Back, NotifyFault>
        requires { 1 ≤ (Self.seen self.old).spare }
        ensures { GivesBackend Self.Back.backing Self.Back.fits back kind follow result (Self.seen self.old) (Self.seen self.new) };

    /// Asks the backend of this name what it brings next, which gets this name of an item. It may look at files for it. There is
    /// nothing exactly where the backend brought nothing. Where there is no memory to tell what it brought, that is said in its place.
    fn listen(
        &mut self,
        item: u64,
        name: u64,
        back: &mut Self::Back,
    ) -> Option<Result<Notify, NotifyFault>>
        requires { 1 ≤ (Self.seen self.old).spare }
        ensures { GivesNext Self.Back.backing Self.Back.fits item name result back.old back.new (Self.seen self.old) (Self.seen self.new) };

    /// All that the settings of this revision say is watched, and what was brought before is heard. Raises the flag of that. No
    /// call on a child fails here.
    fn ready(&mut self, revision: u64, flag: &Flag)
        requires { 1 ≤ (Self.seen self.old).spare }
        ensures tells { Tells (Entry.Ready revision) false (Self.seen self.old) (Self.seen self.new) }
        ensures host_faults { (Self.seen self.new).shown.faults ≡ (Self.seen self.old).shown.faults };

    /// What no look changes is all but what was seen of files.
    ghost only_looks: { (x y : Self) → Self.Looks.rest y ≡ Self.Looks.rest x → Self.Outside.seen y ≡ record (Self.Outside.seen x) { looked = Self.Looks.looked y } };
}

/// What the engine calls.
pub trait Hooks: JobHooks {
    /// Shows an event, which has this name and this priority, to the filter of this number. It answers whether the event
    /// passes, or why that isn't known. The error `Exit` asks for the end of the run.
    fn check_event(
        &mut self,
        n: u32,
        name: u64,
        event: &Event,
        priority: Priority,
    ) -> Result<bool, RuntimeError>
        requires room { 1 ≤ (Self.seen self.old).spare }
        ensures told { TellsHooks (Entry.Filter n name result) (Self.seen self.old) (Self.seen self.new) }
        ensures keeps { (p : List AnEntry) → listed name p ≡ Some (event.now, priority) → Keeps Self.seen Self.rule Self.stands self.old p (Entry.Filter n name result) self.new };

    /// Shows a directory to the filter of this number. It answers whether this directory, with what is below it, is to be
    /// watched, or why that isn't known. The error `Exit` asks for the end of the run.
    fn check_dir(&mut self, n: u32, path: TextPath) -> Result<bool, RuntimeError>
        requires room { 1 ≤ (Self.seen self.old).spare }
        ensures told { TellsHooks (Entry.Dir n path result) (Self.seen self.old) (Self.seen self.new) }
        ensures keeps { (p : List AnEntry) → Keeps Self.seen Self.rule Self.stands self.old p (Entry.Dir n path result) self.new };

    /// Shows an error to the error handler of this number. The hook collects what is wished.
    fn error(&mut self, n: u32, hook: &mut ErrorHook)
        requires room { 1 ≤ (Self.seen self.old).spare }
        requires fresh { IsNewHook hook.old }
        ensures error { hook.new.error ≡ hook.old.error }
        ensures told { TellsHooks (Entry.Show n hook.old.error hook.new.wish) (Self.seen self.old) (Self.seen self.new) }
        ensures keeps { (p : List AnEntry) → Keeps Self.seen Self.rule Self.stands self.old p (Entry.Show n hook.old.error hook.new.wish) self.new };

    /// Hands a batch to the action handler of this number. The handler collects what is asked for.
    fn action(&mut self, n: u32, handler: &mut ActionHandler<'_>)
        requires room { 1 ≤ (Self.seen self.old).spare }
        requires fresh { IsNewHandler handler.old }
        ensures same { handler.new ≡ record handler.old { acts = handler.new.acts; handed = handler.new.handed } }
        ensures told { TellsHooks (Entry.Hand n handler.new.names handler.new.acts) (Self.seen self.old) (Self.seen self.new) }
        ensures keeps { Keeps Self.seen Self.rule Self.stands self.old handler.old.past (Entry.Hand n handler.new.names handler.new.acts) self.new };
}
