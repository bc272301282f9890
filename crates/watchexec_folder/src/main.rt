//! Watches the folder that it runs in, and says `checked` where a page changed, and `built` where anything else did, each by a command. It
//! ends at the key `q`, and with its input.
#![tactic(auto)]

ghost use Rattle.std.specs.Prelude.{◌≡◌, true};
ghost use Rattle.wx_paths.specs.Paths.{is_absolute};

use std::alloc::{AllocGlobal, Global};
use std::io;
use std::process::{ExitCode, Processes};
use std::rt::{Clock, Env, Files};
use std::sync::Wait;
use std::thread::{Threads, join_mut};
use watchexec::action::ActionHandler;
use watchexec::live::{HandlePass, LiveParts, ThreadWorld, current_folder};
use watchexec::{Config, WatchedPath, Watchexec};
use watchexec_events::{Event, KeyCode, Keyboard, Tag};
use watchexec_supervisor::Signal;
use watchexec_supervisor::command::{Command, Program, SpawnOptions};
use watchexec_supervisor::job::Job;
use wx_bytes::{Source, StdSource};
use wx_engine::{BoxedHooks, OnAction};
use wx_hooks::World;
use wx_journal::Journal;
use wx_reader::read_keys;
use wx_text::{Copies, List, Memory, Text};
use wx_words::TextPath;

/// How long a command has to end once it was sent a signal: five seconds.
const GRACE: u64 = 5_000_000_000;

/// The jobs of both commands.
#[derive(Drop)]
struct ByPath {
    alloc: Global,
    checks: Option<Job>,
    builds: Option<Job>,
}

impl OnAction for ByPath {
    fn act(&mut self, handler: &mut ActionHandler<'_>) {
        if is_over(handler.events()) {
            handler.quit_gracefully(Signal::Terminate, GRACE);
        } else if has_page(handler) {
            restart(self.alloc, b"checked", &mut self.checks, handler);
        } else {
            restart(self.alloc, b"built", &mut self.builds, handler);
        }
    }
}

/// Whether the key `q` or the end of the input is among these events.
fn is_over(events: &List<Event>) -> bool {
    events.as_slice().iter().any(|event| {
        event.tags.as_slice().iter().any(|tag| {
            matches!(
                tag,
                Tag::Keyboard(
                    Keyboard::Eof
                        | Keyboard::Key {
                            key: KeyCode::Char('q'),
                            ..
                        }
                )
            )
        })
    })
}

/// Whether the path of a page is among those of the batch.
fn has_page(handler: &ActionHandler<'_>) -> bool {
    handler
        .paths()
        .any(|(path, _)| path.text().as_slice().ends_with(b".md"))
}

/// Restarts a job, which is created where there is none yet. Where a call fails nothing more is asked.
fn restart(
    alloc: Global,
    word: &[u8],
    job: &mut Option<Job>,
    handler: &mut ActionHandler<'_>,
) -> Option<()>
    ensures same { handler.new ≡ record handler.old { acts = handler.new.acts } }
{
    if job.is_none() {
        *job = Some(create(alloc, word, handler)?);
    }
    let job = job.as_ref()?;
    job.restart_with_signal(alloc, handler, Signal::Terminate, GRACE)
        .ok()?;
    Some(())
}

/// Creates the job of the command `echo` with this word.
fn create(alloc: Global, word: &[u8], handler: &mut ActionHandler<'_>) -> Option<Job>
    ensures same { handler.new ≡ record handler.old { acts = handler.new.acts } }
{
    let command = echo(alloc, word).ok()?;
    let (_, job) = handler.create_job(alloc, command).ok()?;
    Some(job)
}

fn echo(alloc: Global, word: &[u8]) -> Result<Command, Memory> {
    let prog = Text::from_slice(alloc, b"echo")?;
    let mut args = List::new(alloc);
    args.push(Text::from_slice(alloc, word)?)?;
    Ok(Command {
        program: Program::Exec { prog, args },
        options: SpawnOptions::default(),
    })
}

/// An engine that watches this folder with all below it, and hears keys.
fn engine(alloc: Global, folder: &TextPath) -> Result<Watchexec, Memory>
    requires { is_absolute folder.now ≡ true }
{
    let mut paths = List::new(alloc);
    paths.push(WatchedPath::recursive(folder.copy(alloc)?))?;
    let mut config = Config::new(alloc)?;
    config.pathset.replace(paths);
    config.keyboard_events.replace(true);
    Watchexec::with_config(alloc, config, folder.copy(alloc)?)
}

/// Runs the engine in this world, with hooks that hold the handler under the number 0. It answers nothing where the run didn't end well.
fn run<W: World>(alloc: Global, folder: &TextPath, world: &mut W) -> Option<()>
    requires { is_absolute folder.now ≡ true }
{
    let engine = engine(alloc, folder).ok()?;
    let mut journal = Journal::new(alloc).ok()?;
    let by_path = ByPath {
        alloc,
        checks: None,
        builds: None,
    };
    let mut actions: List<Box<dyn OnAction + Drop>> = List::new(alloc);
    actions.push(Box::new(alloc, by_path).ok()?).ok()?;
    let (filters, errors, functions) = (List::new(alloc), List::new(alloc), List::new(alloc));
    let (hooks, faults) = (List::new(alloc), List::new(alloc));
    let mut hooks = BoxedHooks::new(alloc, filters, actions, errors, functions, hooks, faults);
    engine.main(alloc, world, &mut hooks, &mut journal).ok()
}

/// Runs the engine while a second thread reads the keys and sends them by its handle.
fn run_both<R: Threads + Wait + Copy + Send + Sync, S: Source + Send, W: World>(
    rt: &R,
    alloc: Global,
    folder: &TextPath,
    source: &mut S,
    pass: &mut HandlePass<R>,
    world: &mut W,
) -> Option<()>
    requires { is_absolute folder.now ≡ true }
{
    let waits = *rt;
    let (read, ran) = join_mut(
        rt,
        &mut || read_keys(waits, alloc, source, pass),
        &mut || run(alloc, folder, world),
    );
    read.ok()?;
    ran
}

/// Watches the folder that the program runs in. It answers nothing where the run didn't end well.
fn watch<
    R: Threads + Wait + Processes + Files + Clock + Env + AllocGlobal + Copy + Send + Sync + Drop,
    S: Source + Send,
>(rt: R, source: &mut S) -> Option<()> {
    let alloc = rt.alloc();
    let folder = current_folder(&rt).ok()?;
    let live = LiveParts::new(rt, folder.copy(alloc).ok()?);
    let (mut world, mut pass) = ThreadWorld::new(rt, alloc, live, 4_194_304, 2, 1024).ok()?;
    run_both(&rt, alloc, &folder, source, &mut pass, &mut world)
}

fn main(rt: HostRuntime) -> io::Result<ExitCode> {
    let mut source = StdSource::new(rt.reader());
    let ran = watch(rt, &mut source).is_some();
    println!(rt;
        "{}",
        if ran {
            "the run ended well"
        } else {
            "the run failed"
        }
    )?;
    Ok(ExitCode::from(if ran { 0 } else { 1 }))
}
