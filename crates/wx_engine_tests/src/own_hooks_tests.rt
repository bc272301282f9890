// Hooks as a user writes them, and runs with them: their texts are worked out by hand.
ghost use Rattle.std.specs.Prelude.{◌≡◌, ◌^◌, [], false, None, OnErr};

use crate::trial::{Setup, behind_first, text_by};
use std::alloc::Global;
use std::process::Abort;
use std::test::Fail;
use wx_command::Spawnable;
use wx_config::Change;
use wx_control::{Id, Job};
use wx_error::{CriticalError, RuntimeError};
use wx_events::{Event, Priority, Signal};
use wx_follow_trial::{command_of, created};
use wx_hooks::{ActionHandler, ChangeRefused, ErrorHook, Hooks};
use wx_job::{JobHooks, JobTaskContext};
use wx_journal::{Entry, HostFault};
use wx_machine::CommandState;
use wx_text::{Copies, List, Memory, Text};
use wx_words::TextPath;

/// What hooks do in a call.
#[derive(Clone, Copy)]
pub(crate) enum Does {
    /// Each batch starts one job, which the first creates. A batch that finds its child running quits.
    Restarts,
    /// The batch creates two jobs, starts the first and stops the second.
    AsksTwo,
    /// The batch creates a job, and looks for it.
    Looks,
    /// Each batch starts one job, which the first creates. Its spawn hook sets a variable of the environment.
    SetsVariable,
    /// The same, but the spawn hook has no memory.
    WantsMemory,
    /// A batch that is shown no job creates one and deletes it. One that is shown a job, which is gone by then, restarts it.
    Deletes,
    /// A batch with an interrupt ends the run gracefully. Any other starts one job, which the first creates.
    Ends,
    /// The filter fails, and the error handler wishes this, one after the other.
    Wishes(&'static [Says]),
    /// The filter has each directory watched but `/w/b`.
    Judges,
    /// Each batch asks for three changes of the settings, which are to be answered so.
    Changes([Result<(), ChangeRefused>; 3]),
}

/// What an error handler wishes.
#[derive(Clone, Copy)]
pub(crate) enum Says {
    /// The error that is shown is to end the run.
    Elevate,
    /// An error of its own is to end it.
    Critical,
    /// The run is to end without an error.
    Exit,
}

/// Hooks that do this in each call, and whether what they saw in the last one was right.
#[derive(Drop)]
pub(crate) struct Own {
    alloc: Global,
    does: Does,
    pub(crate) is_right: bool,
}

impl Own {
    /// Hooks that do this, before the first call.
    pub(crate) fn new(alloc: Global, does: Does) -> Own {
        Own {
            alloc,
            does,
            is_right: false,
        }
    }
}

impl JobHooks for Own {
    ghost Plan = { Unit {0} };

    ghost seen = { λ _. record { plan = tt; told = None; spare = 2 ^ 64; short = false; place = [] } };

    ghost rule = { λ _ _ _. Unit {0} };

    ghost spawn_rule = { λ _ _ _ _. Unit {0} };

    fn reserve(&mut self, _n: u64) -> Result<(), Memory> {
        Ok(())
    }

    fn run(&mut self, _job: Id, _n: u32, _cx: &JobTaskContext<'_>) {}

    fn begin(&mut self, _job: Id, _n: u32, _cx: &JobTaskContext<'_>) {}

    fn poll(&mut self, _job: Id, _n: u32) -> bool {
        true
    }

    fn job_error(&mut self, _job: Id, _n: u32, _fault: HostFault) {}

    fn spawn_hook(
        &mut self,
        _job: Id,
        n: u32,
        what: &mut Spawnable,
        cx: &JobTaskContext<'_>,
    ) -> Result<(), Memory> {
        match self.does {
            Does::SetsVariable => {
                self.is_right = n == 3 && is_fresh(self.alloc, what, cx)?;
                set_variable(self.alloc, what, cx)
            }
            Does::WantsMemory => Err(Memory),
            _ => Ok(()),
        }
    }

    ghost spawn_rule_is_rule = { λ _ _ _ _ _ _ _ _. tt };

    ghost stands_other = { λ _ _ _ _ _ _. tt };
}

impl Hooks for Own {
    fn check_event(
        &mut self,
        _n: u32,
        _name: u64,
        _event: &Event,
        _priority: Priority,
    ) -> Result<bool, RuntimeError> {
        match self.does {
            Does::Wishes(_) => Err(RuntimeError::ProcessDeadOnArrival),
            _ => Ok(true),
        }
    }

    fn check_dir(&mut self, n: u32, path: TextPath) -> Result<bool, RuntimeError> {
        match self.does {
            Does::Judges => {
                self.is_right = n == 0;
                Ok(path.text().as_slice() != b"/w/b".as_slice())
            }
            _ => Ok(true),
        }
    }

    fn error(&mut self, _n: u32, hook: &mut ErrorHook) {
        self.is_right = wish_all(self.alloc, self.does, hook).unwrap_or(false);
    }

    fn action(&mut self, _n: u32, handler: &mut ActionHandler<'_>) {
        self.is_right = act(self.alloc, self.does, handler).unwrap_or(false);
    }
}

/// Does this in a call, and answers whether what it saw was right, or nothing where a call failed.
fn act(alloc: Global, does: Does, handler: &mut ActionHandler<'_>) -> Option<bool>
    requires open { handler.old.handed ≡ false }
    ensures same { handler.new ≡ record handler.old { acts = handler.new.acts; handed = handler.new.handed } }
{
    match does {
        Does::Restarts => restart(alloc, handler),
        Does::AsksTwo => is_handed(alloc, handler),
        Does::Looks => is_not_shown(alloc, handler),
        Does::SetsVariable | Does::WantsMemory => start_hooked(alloc, handler),
        Does::Deletes => delete(alloc, handler),
        Does::Ends => end_at_interrupt(alloc, handler),
        Does::Changes(wants) => change_thrice(alloc, wants, handler),
        Does::Wishes(_) | Does::Judges => None,
    }
}

/// Asks for three changes of the settings, and answers whether they were answered so.
fn change_thrice(
    alloc: Global,
    wants: [Result<(), ChangeRefused>; 3],
    handler: &mut ActionHandler<'_>,
) -> Option<bool>
    ensures same { handler.new ≡ record handler.old { acts = handler.new.acts } }
{
    let first = handler.change(alloc, Change::Filterer(1));
    let second = handler.change(alloc, Change::Filterer(2));
    let third = handler.change(alloc, Change::Filterer(3));
    Some(first == wants[0] && second == wants[1] && third == wants[2])
}

/// Whether no child of the job runs, and what is about to be spawned is what its command spawns.
fn is_fresh(alloc: Global, what: &Spawnable, cx: &JobTaskContext<'_>) -> Result<bool, Memory> {
    let given = cx.command.to_spawnable(alloc)?;
    Ok(*cx.current == CommandState::Pending && given == *what)
}

/// Lets the program `env` run what is about to be spawned, with a variable that says whether a child of the job ended
/// before.
fn set_variable(alloc: Global, what: &mut Spawnable, cx: &JobTaskContext<'_>) -> Result<(), Memory>
    ensures { OnErr result (what.new ≡ what.old) }
{
    let setting: &[u8] = match cx.previous {
        Some(state) if state.is_finished() => b"RUN=again",
        _ => b"RUN=first",
    };
    let mut words = List::new(alloc);
    words.push(Text::from_slice(alloc, b"env")?)?;
    words.push(Text::from_slice(alloc, setting)?)?;
    for word in what.words.as_slice() {
        words.push(word.copy(alloc)?)?;
    }
    what.words = words;
    Ok(())
}

/// Wishes what is to be wished of an error, and answers whether this is the one of the filter, or nothing where a call failed.
fn wish_all(alloc: Global, does: Does, hook: &mut ErrorHook) -> Option<bool>
    ensures { hook.new.error ≡ hook.old.error }
{
    let Does::Wishes(wishes) = does else {
        return None;
    };
    for says in wishes {
        wish(alloc, *says, hook)?;
    }
    Some(matches!(hook.error(), RuntimeError::ProcessDeadOnArrival))
}

/// Wishes this, or answers nothing where that failed.
fn wish(alloc: Global, says: Says, hook: &mut ErrorHook) -> Option<()>
    ensures { hook.new.error ≡ hook.old.error }
{
    match says {
        Says::Elevate => {
            hook.elevate();
            Some(())
        }
        Says::Critical => {
            let text = Text::from_slice(alloc, b"own").ok()?;
            hook.critical(alloc, CriticalError::External(text)).ok()
        }
        Says::Exit => hook.critical(alloc, CriticalError::Exit).ok(),
    }
}

/// The id of the first job that is shown.
fn first_shown(handler: &ActionHandler<'_>) -> Option<Id> {
    handler.list_jobs().next().map(|item| item.0)
}

/// A handle on the job of this id.
fn shown(alloc: Global, id: Id, handler: &ActionHandler<'_>) -> Option<Job> {
    handler.get_job(alloc, id).ok()?
}

/// Starts the job, or answers nothing where that failed.
fn start(alloc: Global, job: Job, handler: &mut ActionHandler<'_>) -> Option<bool>
    ensures same { handler.new ≡ record handler.old { acts = handler.new.acts } }
{
    let started = job.start(alloc, handler).is_ok();
    drop(job);
    if started { Some(true) } else { None }
}

/// Starts the job, or quits where its child runs.
fn start_or_quit(alloc: Global, job: Job, handler: &mut ActionHandler<'_>) -> Option<bool>
    ensures same { handler.new ≡ record handler.old { acts = handler.new.acts } }
{
    if handler.job_running(job.id()) {
        drop(job);
        handler.quit();
        return Some(true);
    }
    start(alloc, job, handler)
}

/// Starts the job, which is created where there is none, or quits where its child runs.
fn restart(alloc: Global, handler: &mut ActionHandler<'_>) -> Option<bool>
    ensures same { handler.new ≡ record handler.old { acts = handler.new.acts } }
{
    let job = match first_shown(handler) {
        Some(id) => shown(alloc, id, handler)?,
        None => created(alloc, Id(0), b"a", handler)?,
    };
    start_or_quit(alloc, job, handler)
}

/// Ends the run gracefully where one of the signals is an interrupt, and else starts the job.
fn end_at_interrupt(alloc: Global, handler: &mut ActionHandler<'_>) -> Option<bool>
    ensures same { handler.new ≡ record handler.old { acts = handler.new.acts } }
{
    if handler.signals().any(|signal| signal == Signal::Interrupt) {
        handler.quit_gracefully(Signal::Terminate, 10_000_000_000);
        return Some(true);
    }
    restart(alloc, handler)
}

/// Creates a job whose spawn hook is the one of the number 3.
fn hooked(alloc: Global, handler: &mut ActionHandler<'_>) -> Option<Job>
    ensures same { handler.new ≡ record handler.old { acts = handler.new.acts } }
{
    let job = created(alloc, Id(0), b"make", handler)?;
    if job.set_spawn_hook(alloc, handler, 3).is_ok() {
        Some(job)
    } else {
        drop(job);
        None
    }
}

/// Starts the job, which is created where there is none.
fn start_hooked(alloc: Global, handler: &mut ActionHandler<'_>) -> Option<bool>
    ensures same { handler.new ≡ record handler.old { acts = handler.new.acts } }
{
    let job = match first_shown(handler) {
        Some(id) => shown(alloc, id, handler)?,
        None => hooked(alloc, handler)?,
    };
    start(alloc, job, handler)
}

/// Creates a job.
fn new_job(alloc: Global, handler: &mut ActionHandler<'_>) -> Option<Job>
    ensures same { handler.new ≡ record handler.old { acts = handler.new.acts } }
{
    let command = command_of(alloc, b"a").ok()?;
    match handler.create_job(alloc, command) {
        Ok((_, job)) => Some(job),
        Err(_) => None,
    }
}

/// Creates a job and deletes it where none is shown, and else restarts the one that is shown. No child may run.
fn delete(alloc: Global, handler: &mut ActionHandler<'_>) -> Option<bool>
    ensures same { handler.new ≡ record handler.old { acts = handler.new.acts } }
{
    match first_shown(handler) {
        Some(id) => restart_shown(alloc, id, handler),
        None => delete_new(alloc, handler),
    }
}

/// Restarts the job of this id. No child may run.
fn restart_shown(alloc: Global, id: Id, handler: &mut ActionHandler<'_>) -> Option<bool>
    ensures same { handler.new ≡ record handler.old { acts = handler.new.acts } }
{
    let job = shown(alloc, id, handler)?;
    let asked = job.restart(alloc, handler).is_ok();
    let runs = handler.job_running(job.id());
    drop(job);
    Some(asked && !runs)
}

/// Creates a job and deletes it. No child may run.
fn delete_new(alloc: Global, handler: &mut ActionHandler<'_>) -> Option<bool>
    ensures same { handler.new ≡ record handler.old { acts = handler.new.acts } }
{
    let job = new_job(alloc, handler)?;
    let asked = job.delete_now(alloc, handler).is_ok();
    let runs = handler.job_running(job.id());
    drop(job);
    Some(asked && !runs)
}

/// Creates two jobs, starts the first, stops the second, and quits twice.
fn ask_two(alloc: Global, handler: &mut ActionHandler<'_>) -> Option<()>
    ensures same { handler.new ≡ record handler.old { acts = handler.new.acts } }
{
    let a = created(alloc, Id(0), b"a", handler)?;
    let b = created(alloc, Id(1), b"b", handler);
    let asked = ask_both(alloc, &a, &b, handler);
    drop(a);
    drop(b);
    handler.quit();
    handler.quit();
    if asked { Some(()) } else { None }
}

/// Starts the first of two jobs and stops the second. Answers whether both were asked.
fn ask_both(alloc: Global, a: &Job, b: &Option<Job>, handler: &mut ActionHandler<'_>) -> bool
    ensures same { handler.new ≡ record handler.old { acts = handler.new.acts } }
{
    match b {
        Some(b) => a.start(alloc, handler).is_ok() && b.stop(alloc, handler).is_ok(),
        None => false,
    }
}

/// The line of the hand that asks for what `ask_two` does.
const ASKED: &[u8] =
    b"hand 0 1 0 create 0 exec ---- 1 a create 1 exec ---- 1 b ask 0 start ask 1 stop quit";

/// The words of an entry. A long enum is dropped by generic code, which is quicker to prove.
fn line_of(alloc: Global, entry: Entry) -> Result<Text, Memory> {
    let mut line = Text::new(alloc);
    let put = entry.put(&mut line);
    drop(entry);
    put?;
    Ok(line)
}

/// Whether one event is shown, and `ASKED` tells what is asked for.
fn is_handed(alloc: Global, handler: &mut ActionHandler<'_>) -> Option<bool>
    requires open { handler.old.handed ≡ false }
    ensures same { handler.new ≡ record handler.old { acts = handler.new.acts; handed = handler.new.handed } }
{
    let events = handler.events().len();
    ask_two(alloc, handler)?;
    let line = line_of(alloc, handler.hand(0)).ok()?;
    Some(events == 1 && line.as_slice() == ASKED)
}

/// Creates a job, and answers whether the handler does not show it.
fn is_not_shown(alloc: Global, handler: &mut ActionHandler<'_>) -> Option<bool>
    ensures same { handler.new ≡ record handler.old { acts = handler.new.acts } }
{
    drop(created(alloc, Id(0), b"a", handler)?);
    let found = handler.get_job(alloc, Id(0)).ok()?;
    let is_found = found.is_some();
    drop(found);
    let is_listed = first_shown(handler).is_some();
    Some(!is_found && !is_listed && !handler.job_running(Id(0)))
}

/// The first batch creates the job, the second starts it again after its child ended, the third finds it running.
const BATCHES: &[u8] =
    b"turn 0 arrive urgent 0\nturn 0 work\nturn 0 job 0\nturn 1 ended 0\nturn 2 arrive urgent 0\nturn 2 work\nturn 2 job 0\nturn 3 arrive urgent 0\nturn 3 work\n";

const RESTARTED: &[u8] =
    b"turn 0 arrive urgent 0\noffer 0 - queued urgent 0\nturn 0 work\ntake 0\nhand 0 1 0 create 0 exec ---- 1 a ask 0 start\nmade 0\nasked 0 0 normal start\nturn 0 job 0\npick 0 0\nspawn 0 0 default ---- 1 a ok\nraise 0\nturn 1 ended 0\nwait 0 success\nturn 2 arrive urgent 0\noffer 1 - queued urgent 0\nturn 2 work\ntake 1\nhand 0 1 1 ask 0 start\nasked 1 0 normal start\nturn 2 job 0\npick 0 1\nspawn 1 0 default ---- 1 a ok\nraise 1\nturn 3 arrive urgent 0\noffer 2 - queued urgent 0\nturn 3 work\ntake 2\nhand 0 1 2 quit\ndrop 1\ngone 0\nend ok lost 0\n";

/// The first batch starts the job. The next has an interrupt.
const INTERRUPT: &[u8] =
    b"turn 0 arrive urgent 0\nturn 0 work\nturn 1 job 0\nturn 2 signal interrupt\nturn 3 work\nturn 4 job 0\nturn 5 ended 0\nturn 6 job 0\nturn 7 job 0\n";

const ENDED: &[u8] =
    b"turn 0 arrive urgent 0\noffer 0 - queued urgent 0\nturn 0 work\ntake 0\nhand 0 1 0 create 0 exec ---- 1 a ask 0 start\nmade 0\nasked 0 0 normal start\nturn 1 job 0\npick 0 0\nspawn 0 0 default ---- 1 a ok\nraise 0\nturn 2 signal interrupt\noffer 1 - queued urgent 2 source keyboard signal interrupt\nturn 3 work\ntake 1\nhand 0 1 1 quitgracefully terminate 10000000000\nasked 1 0 normal gracefulstop terminate 10000000000\nasked 2 0 normal stop\nasked 3 0 normal delete\nturn 4 job 0\npick 0 1\nsignal 0 15 ok\nturn 5 ended 0\nwait 0 success\nraise 1\nturn 6 job 0\npick 0 2\nraise 2\nturn 7 job 0\npick 0 3\nraise 3\ngone 0\nend ok lost 0\n";

/// One batch.
const BATCH: &[u8] = b"turn 0 arrive urgent 0\nturn 0 work\n";

const ASKED_TWO: &[u8] =
    b"turn 0 arrive urgent 0\noffer 0 - queued urgent 0\nturn 0 work\ntake 0\nhand 0 1 0 create 0 exec ---- 1 a create 1 exec ---- 1 b ask 0 start ask 1 stop quit\nmade 0\nmade 1\nasked 0 0 normal start\nasked 1 1 normal stop\ngone 0\ngone 1\nend ok lost 0\n";

const LOOKED: &[u8] =
    b"turn 0 arrive urgent 0\noffer 0 - queued urgent 0\nturn 0 work\ntake 0\nhand 0 1 0 create 0 exec ---- 1 a\nmade 0\nturn 0 last\ngone 0\nend ok lost 0\n";

/// A run: what it shows, from which revision of the settings it goes on, what the hooks do, the lines that it follows, and what is
/// written behind the first line.
pub(crate) type Run = (&'static str, u64, Does, &'static [u8], &'static [u8]);

/// The text of this run, with the default throttle and the first of each kind of hook, and whether what the hooks saw was right. Jobs
/// and commands are dropped above by generic code, which is quicker to prove.
fn ran(alloc: Global, run: &Run) -> Result<(Text, bool), Fail> {
    let (_, revision, does, lines, _) = *run;
    let setup = Setup {
        throttle: 50_000_000,
        revision,
        filterer: 0,
        error_handler: 0,
        action_handler: 0,
    };
    let mut hooks = Own::new(alloc, does);
    let text = text_by(alloc, setup, lines, &mut hooks)?;
    Ok((text, hooks.is_right))
}

/// Holds this run to what it is to be.
fn expect_run(rt: &impl Abort, alloc: Global, run: &Run) -> Result<(), Fail> {
    let (text, is_right) = ran(alloc, run)?;
    let so = is_right && behind_first(&text) == Some(run.4);
    assert!(rt; so, "{}", run.0);
    Ok(())
}

/// Holds each of these runs to what it is to be.
pub(crate) fn expect_runs(rt: &impl Abort, alloc: Global, runs: &[Run]) -> Result<(), Fail> {
    for run in runs {
        expect_run(rt, alloc, run)?;
    }
    Ok(())
}

/// The first batch creates the job and starts it, the second starts it again after its child ended.
const STARTS: &[u8] =
    b"turn 0 arrive urgent 0\nturn 0 work\nturn 0 job 0\nturn 1 job 0\nturn 2 ended 0\nturn 3 arrive urgent 0\nturn 3 work\nturn 4 job 0\n";

const VARIABLE: &[u8] =
    b"turn 0 arrive urgent 0\noffer 0 - queued urgent 0\nturn 0 work\ntake 0\nhand 0 1 0 create 0 exec ---- 1 make ask 0 sethook 3 ask 0 start\nmade 0\nasked 0 0 normal sethook 3\nasked 1 0 normal start\nturn 0 job 0\npick 0 0\nraise 0\nturn 1 job 0\npick 0 1\nhook 0 3 ---- 3 env RUN=first make\nspawn 0 0 default ---- 3 env RUN=first make ok\nraise 1\nturn 2 ended 0\nwait 0 success\nturn 3 arrive urgent 0\noffer 1 - queued urgent 0\nturn 3 work\ntake 1\nhand 0 1 1 ask 0 start\nasked 2 0 normal start\nturn 4 job 0\npick 0 2\nhook 0 3 ---- 3 env RUN=again make\nspawn 1 0 default ---- 3 env RUN=again make ok\nraise 2\nturn 4 last\ndrop 1\ngone 0\nend ok lost 0\n";

const WANTED: &[u8] =
    b"turn 0 arrive urgent 0\noffer 0 - queued urgent 0\nturn 0 work\ntake 0\nhand 0 1 0 create 0 exec ---- 1 make ask 0 sethook 3 ask 0 start\nmade 0\nasked 0 0 normal sethook 3\nasked 1 0 normal start\nturn 0 job 0\npick 0 0\nraise 0\nturn 1 job 0\npick 0 1\nhook 0 3 memory\ngone 0\nend error memory lost 0\n";

/// The first batch creates the job. The second is shown it, though it is gone. The third is shown none, and creates the next.
const DELETES: &[u8] =
    b"turn 0 arrive urgent 0\nturn 0 work\nturn 0 job 0\nturn 0 job 0\nturn 1 arrive urgent 0\nturn 1 work\nturn 2 arrive urgent 0\nturn 2 work\nturn 2 job 0\n";

const DELETED: &[u8] =
    b"turn 0 arrive urgent 0\noffer 0 - queued urgent 0\nturn 0 work\ntake 0\nhand 0 1 0 create 0 exec ---- 1 a ask 0 deletenow\nmade 0\nasked 0 0 urgent stop\nasked 1 0 urgent delete\nturn 0 job 0\npick 0 0\nraise 0\nturn 0 job 0\npick 0 1\nraise 1\ngone 0\nturn 1 arrive urgent 0\noffer 1 - queued urgent 0\nturn 1 work\ntake 1\nhand 0 1 1 ask 0 restart\nword ignored\nturn 2 arrive urgent 0\noffer 2 - queued urgent 0\nturn 2 work\ntake 2\nhand 0 1 2 create 1 exec ---- 1 a ask 1 deletenow\nmade 1\nasked 2 1 urgent stop\nasked 3 1 urgent delete\nturn 2 job 0\nword ignored\nturn 2 last\ngone 1\nend ok lost 0\n";

/// One event, which the filter is asked about, and a turn behind it.
const SHOWN: &[u8] = b"turn 0 arrive low 1 unknown\nturn 0 work\nturn 1 arrive low 0\n";

const CRITICAL: &[u8] =
    b"turn 0 arrive low 1 unknown\noffer 0 - queued low 1 unknown\nturn 0 work\ntake 0\nfilter 0 0 fail deadonarrival\nshow 0 deadonarrival critical external own\nend error external own lost 0\n";

const ELEVATED: &[u8] =
    b"turn 0 arrive low 1 unknown\noffer 0 - queued low 1 unknown\nturn 0 work\ntake 0\nfilter 0 0 fail deadonarrival\nshow 0 deadonarrival elevate\nend error elevated deadonarrival none lost 0\n";

const CLOSED: &[u8] =
    b"turn 0 arrive low 1 unknown\noffer 0 - queued low 1 unknown\nturn 0 work\ntake 0\nfilter 0 0 fail deadonarrival\nshow 0 deadonarrival critical exit\nturn 1 arrive low 0\noffer 1 - closed low 0\nturn 1 last\nend ok lost 0\n";

const UNWISHED: &[u8] =
    b"turn 0 arrive low 1 unknown\noffer 0 - queued low 1 unknown\nturn 0 work\ntake 0\nfilter 0 0 fail deadonarrival\nshow 0 deadonarrival none\nturn 1 arrive low 0\noffer 1 - queued low 0\nturn 1 last\nend ok lost 0\n";

/// Two directories are to be watched with all below them. The one has a directory that the filter refuses, with another in it.
const FILES: &[u8] =
    b"node dir /\nnode dir /w\nnode dir /w/b\nnode dir /w/b/c\nnode dir /v\nnode dir /v/a\nturn 0 change paths 2 r /w r /v\nturn 1 file\nturn 1 file\nturn 1 file\nturn 1 file\nturn 1 file\nturn 1 file\nturn 1 file\nturn 1 file\nturn 1 file\nturn 1 file\n";

/// Two visits, two scans, a look at each entry, a scan of the one that is watched, and a sweep.
const JUDGED: &[u8] =
    b"turn 0 change paths 2 r /w r /v\nchanged 1\nturn 1 file\napplied 1\nmake 0 native on ok\nturn 1 file\nword stepped\nturn 1 file\nword stepped\nturn 1 file\nword stepped\nturn 1 file\nword stepped\nturn 1 file\ndir 0 /w/b reject\nword stepped\nturn 1 file\ndir 0 /v/a pass\nword stepped\nturn 1 file\nword stepped\nturn 1 file\nword stepped\nturn 1 file\nready 1\nturn 1 last\nend ok lost 0\n";

const RUNS: [Run; 16] = [
    (
        "each batch starts the job where no child runs",
        0,
        Does::Restarts,
        BATCHES,
        RESTARTED,
    ),
    (
        "an interrupt ends the run gracefully",
        0,
        Does::Ends,
        INTERRUPT,
        ENDED,
    ),
    (
        "what is asked for is told in a list",
        0,
        Does::AsksTwo,
        BATCH,
        ASKED_TWO,
    ),
    (
        "a handler is shown no job that it created",
        0,
        Does::Looks,
        BATCH,
        LOOKED,
    ),
    (
        "a spawn hook sets a variable",
        0,
        Does::SetsVariable,
        STARTS,
        VARIABLE,
    ),
    (
        "a spawn hook without memory ends the run",
        0,
        Does::WantsMemory,
        STARTS,
        WANTED,
    ),
    (
        "a job that is gone is shown once more",
        0,
        Does::Deletes,
        DELETES,
        DELETED,
    ),
    (
        "directories are judged by their paths",
        0,
        Does::Judges,
        FILES,
        JUDGED,
    ),
    ("no wish", 0, Does::Wishes(&[]), SHOWN, UNWISHED),
    (
        "a wish to elevate",
        0,
        Does::Wishes(&[Says::Elevate]),
        SHOWN,
        ELEVATED,
    ),
    (
        "a critical error behind it",
        0,
        Does::Wishes(&[Says::Elevate, Says::Critical]),
        SHOWN,
        ELEVATED,
    ),
    (
        "an exit behind it",
        0,
        Does::Wishes(&[Says::Elevate, Says::Exit]),
        SHOWN,
        ELEVATED,
    ),
    (
        "an exit behind a critical error",
        0,
        Does::Wishes(&[Says::Critical, Says::Exit]),
        SHOWN,
        CRITICAL,
    ),
    (
        "a wish to elevate behind a critical error",
        0,
        Does::Wishes(&[Says::Critical, Says::Elevate]),
        SHOWN,
        CRITICAL,
    ),
    (
        "a critical error behind an exit",
        0,
        Does::Wishes(&[Says::Exit, Says::Critical]),
        SHOWN,
        CLOSED,
    ),
    (
        "a wish to elevate behind an exit",
        0,
        Does::Wishes(&[Says::Exit, Says::Elevate]),
        SHOWN,
        CLOSED,
    ),
];

#[test]
fn hooks_of_a_user(rt: HostRuntime) -> Result<(), Fail> {
    expect_runs(&rt, rt.alloc(), &RUNS)
}
