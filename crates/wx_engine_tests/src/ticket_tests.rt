// An executor that awaits the tickets of a handler while turns go on.
ghost use Rattle.std.specs.Prelude.{◌≡◌, false};

use crate::trial::{behind_first, text_in};
use futures::Future;
use futures::executor::{LocalPool, LocalSpawner};
use futures::task::{Context, Poll};
use std::alloc::Global;
use std::test::Fail;
use wx_boxed::{BoxedHooks, OnAction};
use wx_command::Spawnable;
use wx_control::{Flag, Id, Job, Ticket};
use wx_engine::Watchexec;
use wx_events::{ProcessEnd, Signal};
use wx_follow_trial::{created, root, world_of};
use wx_hooks::{ActionHandler, TurnFault, Turned, World};
use wx_job::{Host, Outside};
use wx_journal::{HostFault, SpawnTag, TurnKind};
use wx_notify::Notify;
use wx_scan::{EntryKind, Looks, ScanError, Scanner};
use wx_text::{Copies, List, Memory, Text};
use wx_watch::{NotifyFault, Watcher};
use wx_words::TextPath;

/// Awaits a ticket, and then raises a flag.
#[derive(Drop)]
struct Awaits {
    ticket: Ticket,
    ready: Flag,
}

impl Future for Awaits {
    type Output = ();

    fn poll(&mut self, cx: &mut Context<'_>) -> Poll<()> {
        match self.ticket.poll(cx) {
            Poll::Ready(()) => {
                self.ready.raise();
                Poll::Ready(())
            }
            Poll::Pending => Poll::Pending,
        }
    }
}

/// Starts a program at each batch and stops it with a grace of 10. Both tickets are awaited in a pool.
#[derive(Drop)]
struct StartsAndStops {
    alloc: Global,
    spawner: LocalSpawner<Awaits>,
    started: Flag,
    stopped: Flag,
}

impl OnAction for StartsAndStops {
    fn act(&mut self, handler: &mut ActionHandler<'_>) {
        if ask(self, handler).is_none() {
            handler.quit();
        }
    }
}

/// Creates the job, asks for both, and lets the tickets be awaited, or answers nothing where a call failed.
fn ask(boxed: &StartsAndStops, handler: &mut ActionHandler<'_>) -> Option<()>
    ensures same { handler.new ≡ record handler.old { acts = handler.new.acts } }
{
    let job = created(boxed.alloc, Id(0), b"make", handler)?;
    let asked = ask_of(boxed, &job, handler);
    drop(job);
    asked
}

/// Asks for both, and lets the tickets be awaited, or answers nothing where a call failed.
fn ask_of(boxed: &StartsAndStops, job: &Job, handler: &mut ActionHandler<'_>) -> Option<()>
    ensures same { handler.new ≡ record handler.old { acts = handler.new.acts } }
{
    let alloc = boxed.alloc;
    let start = job.start(alloc, handler).ok()?;
    wait_for(boxed, start, &boxed.started)?;
    let stop = job
        .stop_with_signal(alloc, handler, Signal::Terminate, 10)
        .ok()?;
    wait_for(boxed, stop, &boxed.stopped)
}

/// Lets a ticket be awaited, by a task that then raises this flag, or answers nothing where that failed.
fn wait_for(boxed: &StartsAndStops, ticket: Ticket, flag: &Flag) -> Option<()> {
    let ready = flag.copy(boxed.alloc).ok()?;
    boxed.spawner.spawn(Awaits { ticket, ready }).ok()
}

/// What happens between the turns: tasks are polled, and it is noted whether the tickets were ready, and whether the flag was
/// raised that is handed along with each ask.
#[derive(Drop)]
struct Between {
    alloc: Global,
    pool: LocalPool<Awaits>,
    started: Flag,
    stopped: Flag,
    asked: Flag,
    noted: Text,
}

impl Between {
    /// Polls the tasks, and then notes what is to be noted.
    fn pass(&mut self) {
        self.pool.run_until_stalled(16);
        // a note that found no memory is missed at the end
        let _noted = self.noted.append(note(&self.started, &self.stopped));
        let _asked = self.noted.append(note_of_ask(&self.asked));
    }
}

/// A world between whose turns this happens, and which hands a flag along with each ask, as a handle does. Of two fields it is
/// dropped by a short proof.
struct Polls<W> {
    inner: W,
    between: Between,
}

// Its parts are dropped by one call: docs/DESIGN.md, "What proofs cost".
impl<W: Drop> Drop for Polls<W> {
    fn drop(self) {
        let Polls {
            inner: _,
            between: _,
        } = self;
    }
}

impl<W: World> Outside for Polls<W> {
    ghost Plan = { W.Plan };

    ghost seen = { λ s. W.seen s.inner };
}

impl<W: World> Looks for Polls<W> {
    ghost looked = { λ s. W.looked s.inner };

    ghost Rest = { W.Rest };

    ghost rest = { λ s. W.rest s.inner };

    ghost place = { λ s. W.place s.inner };
}

impl<W: World> Scanner for Polls<W> {
    fn classify(&mut self, path: &TextPath, follow: bool) -> Result<EntryKind, ScanError> {
        self.inner.classify(path, follow)
    }

    fn canonicalize(&mut self, path: &TextPath) -> Result<TextPath, ScanError> {
        self.inner.canonicalize(path)
    }

    fn scan(&mut self, path: &TextPath) -> Result<List<TextPath>, ScanError> {
        self.inner.scan(path)
    }

    fn stamp(&mut self, path: &TextPath) -> Result<u64, ScanError> {
        self.inner.stamp(path)
    }
}

impl<W: World> Host for Polls<W> {
    fn reserve(&mut self, n: u64) -> Result<(), Memory> {
        self.inner.reserve(n)
    }

    fn spawn(
        &mut self,
        child: u64,
        job: Id,
        what: Spawnable,
        tag: SpawnTag,
    ) -> Result<(), HostFault> {
        self.inner.spawn(child, job, what, tag)
    }

    fn signal(&mut self, child: u64, number: i32) -> Result<(), HostFault> {
        self.inner.signal(child, number)
    }

    fn kill(&mut self, child: u64) -> Result<(), HostFault> {
        self.inner.kill(child)
    }

    fn wait(&mut self, child: u64) -> Result<ProcessEnd, HostFault> {
        self.inner.wait(child)
    }

    fn drop_child(&mut self, child: u64) {
        self.inner.drop_child(child);
    }

    fn raise(&mut self, ticket: u64, flag: &Flag) {
        self.inner.raise(ticket, flag);
    }

    fn gone(&mut self, job: Id, flag: &Flag) {
        self.inner.gone(job, flag);
    }
}

impl<W: World> World for Polls<W> {
    type Back = W::Back;

    ghost only_looks = { λ x y e. W.only_looks x.inner y.inner e };

    fn make_backend(
        &mut self,
        back: u64,
        kind: Watcher,
        follow: bool,
    ) -> Result<W::Back, NotifyFault> {
        self.inner.make_backend(back, kind, follow)
    }

    fn listen(
        &mut self,
        item: u64,
        name: u64,
        back: &mut W::Back,
    ) -> Option<Result<Notify, NotifyFault>> {
        self.inner.listen(item, name, back)
    }

    fn ready(&mut self, revision: u64, flag: &Flag) {
        self.inner.ready(revision, flag);
    }

    fn turn(&mut self) -> Result<Turned, TurnFault> {
        self.between.pass();
        let mut turned = self.inner.turn()?;
        if is_ask(&turned) {
            // and so is a raise of a flag that found none
            turned.done = self.between.asked.copy(self.between.alloc).ok();
        }
        Ok(turned)
    }
}

/// Whether a turn asks something of a job.
fn is_ask(turned: &Turned) -> bool {
    matches!(turned.turn.kind, TurnKind::Ask(..))
}

/// What is noted of the flag of an ask.
fn note_of_ask(asked: &Flag) -> &'static [u8] {
    if asked.raised() { b"asked " } else { b"" }
}

/// What is noted of two tickets, by the flags that were raised once they were ready.
fn note(started: &Flag, stopped: &Flag) -> &'static [u8] {
    match (started.raised(), stopped.raised()) {
        (false, false) => b"none ",
        (true, false) => b"started ",
        (false, true) => b"stopped ",
        (true, true) => b"both ",
    }
}

/// A batch, and then turns of the job within its grace, past it, of the worker, and of a handle that starts the job again.
const TURNS: &[u8] =
    b"turn 0 arrive urgent 0\nturn 0 work\nturn 1 job 0\nturn 2 job 0\nturn 3 job 0\nturn 12 job 0\nturn 13 work\nturn 13 ask 0 start\nturn 14 job 0\n";

const STOPPED: &[u8] =
    b"turn 0 arrive urgent 0\noffer 0 - queued urgent 0\nturn 0 work\ntake 0\nhand 0 1 0 create 0 exec ---- 1 make ask 0 start ask 0 gracefulstop terminate 10\nmade 0\nasked 0 0 normal start\nasked 1 0 normal gracefulstop terminate 10\nturn 1 job 0\npick 0 0\nspawn 0 0 default ---- 1 make ok\nraise 0\nturn 2 job 0\npick 0 1\nsignal 0 15 ok\nturn 3 job 0\nword idle\nturn 12 job 0\ngrace 0\nkill 0 ok\nwait 0 success\nraise 1\nturn 13 work\nword idle\nturn 13 ask 0 start\nasked 2 0 normal start\nturn 14 job 0\npick 0 2\nspawn 1 0 default ---- 1 make ok\nraise 2\nturn 14 last\ndrop 1\ngone 0\nend ok lost 0\n";

/// Before the first two turns no ticket is there, and before the third none is ready. The flag of the ask is raised by the
/// last turn but one.
const NOTED: &[u8] = b"none none none started started started both both both both asked ";

/// The text of a run in this world, with tasks of this pool between its turns, and what was noted. Of any world, it is quicker to
/// prove.
fn text_between<W: World + Drop>(
    alloc: Global,
    inner: W,
    pool: LocalPool<Awaits>,
    flags: (Flag, Flag),
    hooks: &mut BoxedHooks,
) -> Result<(Text, Text), Memory> {
    let asked = Flag::new(alloc, false)?;
    let engine = Watchexec::new(alloc, 0, root(alloc)?)?;
    let between = Between {
        alloc,
        pool,
        started: flags.0,
        stopped: flags.1,
        asked,
        noted: Text::new(alloc),
    };
    let mut world = Polls { inner, between };
    let text = text_in(alloc, engine, &mut world, hooks);
    let noted = world.between.noted.copy(alloc);
    drop(world);
    Ok((text?, noted?))
}

/// Hooks that hold the handler. Its tickets are awaited by tasks of this pool, which raise these flags.
fn hooks_of(
    alloc: Global,
    spawner: LocalSpawner<Awaits>,
    started: &Flag,
    stopped: &Flag,
) -> Result<BoxedHooks, Memory> {
    let started = started.copy(alloc)?;
    let stopped = stopped.copy(alloc)?;
    let boxed = StartsAndStops {
        alloc,
        spawner,
        started,
        stopped,
    };
    let mut actions: List<Box<dyn OnAction + Drop>> = List::new(alloc);
    actions.push(Box::new(alloc, boxed)?)?;
    let (filters, errors, functions) = (List::new(alloc), List::new(alloc), List::new(alloc));
    let (hooks, faults) = (List::new(alloc), List::new(alloc));
    Ok(BoxedHooks::new(alloc, filters, actions, errors, functions, hooks, faults))
}

#[test]
fn tickets_are_awaited_while_turns_go_on(rt: HostRuntime) -> Result<(), Fail> {
    let alloc = rt.alloc();
    let pool = LocalPool::new(&rt)?;
    let started = Flag::new(alloc, false)?;
    let stopped = Flag::new(alloc, false)?;
    let mut hooks = hooks_of(alloc, pool.spawner()?, &started, &stopped)?;
    let inner = world_of(alloc, TURNS)?;
    let ran = text_between(alloc, inner, pool, (started, stopped), &mut hooks);
    drop(hooks);
    let (text, noted) = ran?;
    assert!(rt; behind_first(&text) == Some(STOPPED));
    assert!(rt; noted.as_slice() == NOTED);
    Ok(())
}
