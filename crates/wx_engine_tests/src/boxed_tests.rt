// Hooks that hold boxes, as a user makes them, and runs with them: their texts are worked out by hand.
ghost use Rattle.std.specs.Prelude.{◌≡◌, ◌⊎◌, false, true, Ok as Well, Err as Wrong, codes};
ghost use Rattle.wx_error.specs.declared.runtime.RuntimeError.TheVariants.{ProcessDeadOnArrival};

use crate::trial::{Setup, behind_first, text_by};
use std::alloc::Global;
use std::process::Abort;
use std::test::Fail;
use wx_boxed::{BoxedHooks, OnAction, OnError, OnFault, OnJob, OnSpawn};
use wx_command::Spawnable;
use wx_config::Filterer;
use wx_control::{Flag, Id, Job};
use wx_error::RuntimeError;
use wx_events::{Event, Priority, Signal};
use wx_follow_trial::{created, dir_verdict};
use wx_hooks::{ActionHandler, ErrorHook};
use wx_job::JobTaskContext;
use wx_journal::HostFault;
use wx_machine::CommandState;
use wx_text::{Copies, List, Memory, Text};
use wx_words::TextPath;

/// Rejects each event.
#[derive(Drop)]
struct Rejects;

impl Filterer for Rejects {
    ghost judges = { λ _ _ _ answer. answer ≡ Well false };

    fn check_event(&self, _event: &Event, _priority: Priority) -> Result<bool, RuntimeError> {
        Ok(false)
    }
}

/// Fails at each event.
#[derive(Drop)]
struct Fails;

impl Filterer for Fails {
    ghost judges = { λ _ _ _ _. Unit {0} };

    fn check_event(&self, _event: &Event, _priority: Priority) -> Result<bool, RuntimeError> {
        Err(RuntimeError::ProcessDeadOnArrival)
    }
}

/// Lets each event pass, excludes one directory, and fails at another.
#[derive(Drop)]
struct Excludes;

impl Filterer for Excludes {
    ghost excludes = { λ _ path answer. ((path ≡ codes "/w/out") × (answer ≡ Well false)) ⊎ ((path ≡ codes "/w/gone") × (answer ≡ Wrong ProcessDeadOnArrival)) };

    ghost judges = { λ _ _ _ answer. answer ≡ Well true };

    fn check_dir(&self, path: &TextPath) -> Result<bool, RuntimeError> {
        if path.text().as_slice() == b"/w/out".as_slice() {
            return Ok(false);
        }
        if path.text().as_slice() == b"/w/gone".as_slice() {
            return Err(RuntimeError::ProcessDeadOnArrival);
        }
        Ok(true)
    }

    fn check_event(&self, _event: &Event, _priority: Priority) -> Result<bool, RuntimeError> {
        Ok(true)
    }
}

/// Does nothing.
#[derive(Drop)]
struct Idle;

impl OnAction for Idle {
    fn act(&mut self, _handler: &mut ActionHandler<'_>) {}
}

impl OnError for Idle {
    fn error(&mut self, _hook: &mut ErrorHook) {}
}

/// Elevates each error.
#[derive(Drop)]
struct Elevates;

impl OnError for Elevates {
    fn error(&mut self, hook: &mut ErrorHook) {
        hook.elevate();
    }
}

/// Creates a job at each batch.
#[derive(Drop)]
struct Creates {
    alloc: Global,
}

impl OnAction for Creates {
    fn act(&mut self, handler: &mut ActionHandler<'_>) {
        drop(created(self.alloc, Id(0), b"make", handler));
    }
}

/// Restarts a program at each batch, and quits at an interrupt.
#[derive(Drop)]
struct Restarts {
    alloc: Global,
    job: Option<Job>,
}

impl OnAction for Restarts {
    fn act(&mut self, handler: &mut ActionHandler<'_>) {
        if handler.signals().any(|signal| signal == Signal::Interrupt) {
            handler.quit();
        } else {
            restart(self.alloc, &mut self.job, handler);
        }
    }
}

/// Restarts the job, which is created where there is none. Where that fails the run ends.
fn restart(alloc: Global, slot: &mut Option<Job>, handler: &mut ActionHandler<'_>)
    ensures same { handler.new ≡ record handler.old { acts = handler.new.acts } }
{
    if slot.is_none() {
        *slot = created(alloc, Id(0), b"make", handler);
    }
    ask_restart(alloc, slot, handler);
}

/// Asks for a restart of the job. Where there is none, or that fails, the run ends.
fn ask_restart(alloc: Global, slot: &Option<Job>, handler: &mut ActionHandler<'_>)
    ensures same { handler.new ≡ record handler.old { acts = handler.new.acts } }
{
    match slot {
        Some(job) => {
            if job.restart(alloc, handler).is_err() {
                handler.quit();
            }
        }
        None => handler.quit(),
    }
}

/// Whether the run of an engine without a throttle that follows these lines has this text behind its first line. Its filter, its
/// error handler and its action handler have these numbers.
fn runs_so(
    alloc: Global,
    numbers: (u32, u32, u32),
    lines: &[u8],
    hooks: &mut BoxedHooks,
    want: &[u8],
) -> Result<bool, Fail> {
    let setup = Setup {
        throttle: 0,
        revision: 0,
        filterer: numbers.0,
        error_handler: numbers.1,
        action_handler: numbers.2,
    };
    let text = text_by(alloc, setup, lines, hooks)?;
    Ok(behind_first(&text) == Some(want))
}

/// Appends this to a list.
fn add<T: Drop>(rt: &impl Abort, list: &mut List<T>, item: T) {
    list.push(item).expect(rt, "room in the list");
}

/// Puts this in a box.
fn boxed<T>(rt: &impl Abort, alloc: Global, item: T) -> Box<T> {
    Box::new(alloc, item).expect(rt, "a box")
}

/// Another handle on the same flag.
fn copy_of(rt: &impl Abort, alloc: Global, flag: &Flag) -> Flag {
    flag.copy(alloc).expect(rt, "a copy of a flag")
}

const BATCHES: &[u8] =
    b"turn 0 arrive urgent 0\nturn 0 work\nturn 1 job 0\nturn 2 job 0\nturn 3 arrive urgent 1 signal hangup\nturn 3 work\nturn 4 job 0\nturn 5 job 0\nturn 6 arrive urgent 1 signal interrupt\nturn 6 work\n";

const RESTARTED: &[u8] =
    b"turn 0 arrive urgent 0\noffer 0 - queued urgent 0\nturn 0 work\ntake 0\nhand 2 1 0 create 0 exec ---- 1 make ask 0 restart\nmade 0\nasked 0 0 normal stop\nasked 1 0 normal start\nturn 1 job 0\npick 0 0\nraise 0\nturn 2 job 0\npick 0 1\nspawn 0 0 default ---- 1 make ok\nraise 1\nturn 3 arrive urgent 1 signal hangup\noffer 1 - queued urgent 1 signal hangup\nturn 3 work\ntake 1\nhand 2 1 1 ask 0 restart\nasked 2 0 normal stop\nasked 3 0 normal start\nturn 4 job 0\npick 0 2\nkill 0 ok\nwait 0 success\nraise 2\nturn 5 job 0\npick 0 3\nspawn 1 0 default ---- 1 make ok\nraise 3\nturn 6 arrive urgent 1 signal interrupt\noffer 2 - queued urgent 1 signal interrupt\nturn 6 work\ntake 2\nhand 2 1 2 quit\ndrop 1\ngone 0\nend ok lost 0\n";

/// One event, which the filter is asked about.
const SHOWN: &[u8] = b"turn 0 arrive low 1 unknown\nturn 0 work\n";

/// The numbers of a filter, an error handler and an action handler, and what is written behind the taking of the event. Three filters,
/// two error handlers and three action handlers are held.
const NUMBERS: [((u32, u32, u32), &[u8]); 9] = [
    (
        (0, 0, 1),
        b"filter 0 0 reject\nturn 0 last\nend ok lost 0\n",
    ),
    (
        (1, 0, 1),
        b"filter 1 0 fail deadonarrival\nshow 0 deadonarrival none\nturn 0 last\nend ok lost 0\n",
    ),
    (
        (1, 1, 1),
        b"filter 1 0 fail deadonarrival\nshow 1 deadonarrival elevate\nend error elevated deadonarrival none lost 0\n",
    ),
    (
        (1, 2, 1),
        b"filter 1 0 fail deadonarrival\nshow 2 deadonarrival none\nturn 0 last\nend ok lost 0\n",
    ),
    (
        (2, 1, 0),
        b"filter 2 0 pass\nhand 0 1 0\nturn 0 last\nend ok lost 0\n",
    ),
    (
        (3, 1, 0),
        b"filter 3 0 pass\nhand 0 1 0\nturn 0 last\nend ok lost 0\n",
    ),
    (
        (4_294_967_295, 1, 3),
        b"filter 4294967295 0 pass\nhand 3 1 0\nturn 0 last\nend ok lost 0\n",
    ),
    (
        (3, 1, 4_294_967_295),
        b"filter 3 0 pass\nhand 4294967295 1 0\nturn 0 last\nend ok lost 0\n",
    ),
    (
        (3, 1, 1),
        b"filter 3 0 pass\nhand 1 1 0 create 0 exec ---- 1 make ask 0 restart\nmade 0\nasked 0 0 normal stop\nasked 1 0 normal start\nturn 0 last\ngone 0\nend ok lost 0\n",
    ),
];

/// Holds the runs that follow `SHOWN` to what their numbers ask for.
fn expect_ends(rt: &impl Abort, alloc: Global, hooks: &mut BoxedHooks) -> Result<(), Fail> {
    for (numbers, end) in &NUMBERS {
        assert!(rt; ends_so(alloc, *numbers, hooks, end)?, "by {numbers:?}");
    }
    Ok(())
}

/// Whether the run of such an engine that follows `SHOWN` has this text behind the taking of the event.
fn ends_so(
    alloc: Global,
    numbers: (u32, u32, u32),
    hooks: &mut BoxedHooks,
    end: &[u8],
) -> Result<bool, Fail> {
    let mut want = Text::from_slice(
        alloc,
        b"turn 0 arrive low 1 unknown\noffer 0 - queued low 1 unknown\nturn 0 work\ntake 0\n",
    )?;
    want.append(end)?;
    runs_so(alloc, numbers, SHOWN, hooks, want.as_slice())
}

/// The number of a filter, a directory, and what is answered. Of the three filters the first two judge events alone.
const DIRS: [(u32, &[u8], &str); 8] = [
    (0, b"/w/out", "pass"),
    (2, b"/w/out", "reject"),
    (2, b"/w/gone", "fail deadonarrival"),
    (2, b"/w/out", "reject"),
    (2, b"/w/out/a", "pass"),
    (2, b"/", "pass"),
    (3, b"/w/out", "pass"),
    (4_294_967_295, b"/w/gone", "pass"),
];

/// Holds the answers of the filters to those of the table.
fn expect_dirs(rt: &impl Abort, alloc: Global, hooks: &mut BoxedHooks) -> Result<(), Fail> {
    for (n, path, want) in &DIRS {
        let words = dir_verdict(alloc, hooks, *n, path)?;
        let so = words.as_slice() == want.as_bytes();
        assert!(rt; so, "filter {n} at {path:?}");
    }
    Ok(())
}

/// Holds what the boxes of each number answer to the tables. The third action handler follows `BATCHES`.
fn expect_numbers(rt: &impl Abort, alloc: Global, hooks: &mut BoxedHooks) -> Result<(), Fail> {
    expect_ends(rt, alloc, hooks)?;
    expect_dirs(rt, alloc, hooks)?;
    assert!(rt; runs_so(alloc, (0, 0, 2), BATCHES, hooks, RESTARTED)?);
    Ok(())
}

#[test]
fn boxes_are_called_by_their_numbers(rt: HostRuntime) -> Result<(), Fail> {
    let alloc = rt.alloc();
    let mut filters: List<Box<dyn Filterer + Drop>> = List::new(alloc);
    add(&rt, &mut filters, boxed(&rt, alloc, Rejects));
    add(&rt, &mut filters, boxed(&rt, alloc, Fails));
    add(&rt, &mut filters, boxed(&rt, alloc, Excludes));
    let mut actions: List<Box<dyn OnAction + Drop>> = List::new(alloc);
    add(&rt, &mut actions, boxed(&rt, alloc, Idle));
    add(
        &rt,
        &mut actions,
        boxed(&rt, alloc, Restarts { alloc, job: None }),
    );
    add(
        &rt,
        &mut actions,
        boxed(&rt, alloc, Restarts { alloc, job: None }),
    );
    let mut errors: List<Box<dyn OnError + Drop>> = List::new(alloc);
    add(&rt, &mut errors, boxed(&rt, alloc, Idle));
    add(&rt, &mut errors, boxed(&rt, alloc, Elevates));
    let mut hooks = BoxedHooks::new(
        alloc,
        filters,
        actions,
        errors,
        List::new(alloc),
        List::new(alloc),
        List::new(alloc),
    );
    let held = expect_numbers(&rt, alloc, &mut hooks);
    drop(hooks);
    held
}

/// A function that raises a flag where it is called for the first job and no child of this ran yet. Once begun, so many polls find it
/// not ready.
#[derive(Drop)]
struct Function {
    called: Flag,
    lasts: u32,
    left: u32,
}

impl OnJob for Function {
    fn run(&mut self, job: Id, cx: &JobTaskContext<'_>) {
        if job == Id(0) && *cx.current == CommandState::Pending && cx.previous.is_none() {
            self.called.raise();
        }
    }

    fn begin(&mut self, _job: Id, _cx: &JobTaskContext<'_>) {
        self.left = self.lasts;
    }

    fn poll(&mut self, _job: Id) -> bool {
        let is_ready = self.left == 0;
        self.left = self.left.saturating_sub(1);
        is_ready
    }
}

/// A function that raises this flag, and once begun isn't ready at so many polls.
fn function_of(rt: &impl Abort, alloc: Global, flag: &Flag, lasts: u32) -> Function {
    Function {
        called: copy_of(rt, alloc, flag),
        lasts,
        left: 0,
    }
}

/// Adds a word to what is spawned, or has no memory.
#[derive(Drop)]
struct Adds {
    alloc: Global,
    word: Option<&'static [u8]>,
}

impl OnSpawn for Adds {
    fn hook(
        &mut self,
        _job: Id,
        what: &mut Spawnable,
        _cx: &JobTaskContext<'_>,
    ) -> Result<(), Memory> {
        let word = Text::from_slice(self.alloc, self.word.ok_or(Memory)?)?;
        what.words.push(word)
    }
}

/// Raises a flag where this fault of the first job is shown.
#[derive(Drop)]
struct Notes {
    code: u32,
    shown: Flag,
}

impl OnFault for Notes {
    fn fault(&mut self, job: Id, fault: HostFault) {
        if job == Id(0) && fault.0 == self.code {
            self.shown.raise();
        }
    }
}

/// Functions, hooks and error handlers of jobs of numbers that are held and of others.
const ASKED: &[u8] =
    b"signal fault 6\nsignal fault 7\nturn 0 arrive urgent 0\nturn 0 work\nturn 0 ask 0 run 1\nturn 0 ask 0 run 5\nturn 0 ask 0 runasync 1\nturn 0 ask 0 runasync 5\nturn 0 ask 0 sethook 1\nturn 0 ask 0 start\nturn 0 ask 0 sethook 5\nturn 0 ask 0 tryrestart\nturn 0 ask 0 seterror 5\nturn 0 ask 0 signal hangup\nturn 0 ask 0 seterror 1\nturn 0 ask 0 signal hangup\nturn 1 job 0\nturn 2 job 0\nturn 3 job 0\nturn 4 job 0\nturn 5 job 0\nturn 6 job 0\nturn 7 job 0\nturn 8 job 0\nturn 9 job 0\nturn 10 job 0\nturn 11 job 0\nturn 12 job 0\nturn 13 job 0\nturn 14 job 0\nturn 15 job 0\n";

const DONE: &[u8] =
    b"turn 0 arrive urgent 0\noffer 0 - queued urgent 0\nturn 0 work\ntake 0\nhand 0 1 0 create 0 exec ---- 1 make\nmade 0\nturn 0 ask 0 run 1\nasked 0 0 normal run 1\nturn 0 ask 0 run 5\nasked 1 0 normal run 5\nturn 0 ask 0 runasync 1\nasked 2 0 normal runasync 1\nturn 0 ask 0 runasync 5\nasked 3 0 normal runasync 5\nturn 0 ask 0 sethook 1\nasked 4 0 normal sethook 1\nturn 0 ask 0 start\nasked 5 0 normal start\nturn 0 ask 0 sethook 5\nasked 6 0 normal sethook 5\nturn 0 ask 0 tryrestart\nasked 7 0 normal tryrestart\nturn 0 ask 0 seterror 5\nasked 8 0 normal seterror 5\nturn 0 ask 0 signal hangup\nasked 9 0 normal signal hangup\nturn 0 ask 0 seterror 1\nasked 10 0 normal seterror 1\nturn 0 ask 0 signal hangup\nasked 11 0 normal signal hangup\nturn 1 job 0\npick 0 0\nrun 0 1\nraise 0\nturn 2 job 0\npick 0 1\nrun 0 5\nraise 1\nturn 3 job 0\npick 0 2\nbegun 0 1\nturn 4 job 0\npoll 0 1 later\nword later\nturn 5 job 0\npoll 0 1 ready\nraise 2\nturn 6 job 0\npick 0 3\nbegun 0 5\nturn 7 job 0\npoll 0 5 ready\nraise 3\nturn 8 job 0\npick 0 4\nraise 4\nturn 9 job 0\npick 0 5\nhook 0 1 ---- 2 make -v\nspawn 0 0 default ---- 2 make -v ok\nraise 5\nturn 10 job 0\npick 0 6\nraise 6\nturn 11 job 0\npick 0 7\nkill 0 ok\nwait 0 success\nhook 0 5 ---- 1 make\nspawn 1 0 default ---- 1 make ok\nraise 7\nturn 12 job 0\npick 0 8\nraise 8\nturn 13 job 0\npick 0 9\nsignal 1 1 fault 6\njoberror 0 5 6\nraise 9\nturn 14 job 0\npick 0 10\nraise 10\nturn 15 job 0\npick 0 11\nsignal 1 1 fault 7\njoberror 0 1 7\nraise 11\nturn 15 last\ndrop 1\ngone 0\nend ok lost 0\n";

/// A spawn hook that has no memory.
const WANTS: &[u8] =
    b"turn 0 arrive urgent 0\nturn 0 work\nturn 0 ask 0 sethook 0\nturn 0 ask 0 start\nturn 1 job 0\nturn 2 job 0\n";

const WANTED: &[u8] =
    b"turn 0 arrive urgent 0\noffer 0 - queued urgent 0\nturn 0 work\ntake 0\nhand 0 1 0 create 0 exec ---- 1 make\nmade 0\nturn 0 ask 0 sethook 0\nasked 0 0 normal sethook 0\nturn 0 ask 0 start\nasked 1 0 normal start\nturn 1 job 0\npick 0 0\nraise 0\nturn 2 job 0\npick 0 1\nhook 0 0 memory\ngone 0\nend error memory lost 0\n";

/// Holds the runs with boxes of jobs to their texts. Want of memory of a spawn hook is its answer.
fn expect_jobs(rt: &impl Abort, alloc: Global, hooks: &mut BoxedHooks) -> Result<(), Fail> {
    assert!(rt; runs_so(alloc, (0, 0, 0), ASKED, hooks, DONE)?);
    assert!(rt; runs_so(alloc, (0, 0, 0), WANTS, hooks, WANTED)?);
    Ok(())
}

#[test]
fn boxes_of_jobs_are_called_by_their_numbers(rt: HostRuntime) -> Result<(), Fail> {
    let alloc = rt.alloc();
    let called = Flag::new(alloc, false).expect(&rt, "a flag");
    let other = Flag::new(alloc, false).expect(&rt, "a flag");
    let shown = Flag::new(alloc, false).expect(&rt, "a flag");
    let mut actions: List<Box<dyn OnAction + Drop>> = List::new(alloc);
    add(&rt, &mut actions, boxed(&rt, alloc, Creates { alloc }));
    let mut functions: List<Box<dyn OnJob + Drop>> = List::new(alloc);
    let never = function_of(&rt, alloc, &other, u32::MAX);
    add(&rt, &mut functions, boxed(&rt, alloc, never));
    let second = function_of(&rt, alloc, &called, 1);
    add(&rt, &mut functions, boxed(&rt, alloc, second));
    let mut spawn_hooks: List<Box<dyn OnSpawn + Drop>> = List::new(alloc);
    let wants = Adds { alloc, word: None };
    add(&rt, &mut spawn_hooks, boxed(&rt, alloc, wants));
    let word: Option<&[u8]> = Some(b"-v");
    add(
        &rt,
        &mut spawn_hooks,
        boxed(&rt, alloc, Adds { alloc, word }),
    );
    let mut faults: List<Box<dyn OnFault + Drop>> = List::new(alloc);
    for flag in [&other, &shown] {
        let notes = Notes {
            code: 7,
            shown: copy_of(&rt, alloc, flag),
        };
        add(&rt, &mut faults, boxed(&rt, alloc, notes));
    }
    let mut hooks = BoxedHooks::new(
        alloc,
        List::new(alloc),
        actions,
        List::new(alloc),
        functions,
        spawn_hooks,
        faults,
    );
    let held = expect_jobs(&rt, alloc, &mut hooks);
    drop(hooks);
    held?;
    assert!(rt; called.raised() && shown.raised() && !other.raised());
    Ok(())
}
