// Engines whose jobs are used from other threads.
ghost use Rattle.std.specs.Prelude.{All, ◌≡◌, ◌∷◌, [], Some, IfOk, IfSome};
ghost use Rattle.wx_journal.specs.Told.{anywhere, is_turn, tells};

use std::alloc::{Alloc, Global};
use std::process::Abort;
use std::sync::{Arc, OnceLock, Wait};
use std::thread;
use std::thread::{Threads, join_mut};
use wx_boxed::{BoxedHooks, OnAction};
use wx_command::{Command, Program, SpawnOptions};
use wx_config::Config;
use wx_control::{Flag, Job};
use wx_engine::Watchexec;
use wx_events::{Event, Priority};
use wx_handles::{Given, HandlePass, Item, ThreadWorld};
use wx_hooks::ActionHandler;
use wx_job::Outside;
use wx_journal::{Entry, Journal, TurnKind};
use wx_mem_live::EndingLive;
use wx_text::{Copies, List, Memory, Text};
use wx_words::TextPath;

/// How many asks each thread sends, and how many keys.
const ASKS: u32 = 20;

/// How often a thread looks for the job at most.
const LOOKS: u32 = 100_000_000;

/// Where the handle on the job is shown.
type Shown = Arc<OnceLock<Job>>;

/// What both threads share with that of the engine: where the job is shown, and the flags that they raise at their end.
#[derive(Drop)]
struct Shared {
    shown: Shown,
    flags: (Flag, Flag),
}

/// A command without arguments.
fn command(alloc: Global) -> Result<Command, Memory> {
    Ok(Command {
        program: Program::Exec {
            prog: Text::from_slice(alloc, b"a")?,
            args: List::new(alloc),
        },
        options: SpawnOptions::default(),
    })
}

/// At the first batch it creates a job, starts it, and shows the handle on it.
#[derive(Drop)]
struct Shows {
    alloc: Global,
    shown: Shown,
}

impl OnAction for Shows {
    fn act(&mut self, handler: &mut ActionHandler<'_>) {
        if self.shown.get().is_none() {
            if let Some(job) = started(self.alloc, handler) {
                let _ = self.shown.try_set(job);
            }
        }
    }
}

/// A job that was created and asked to start.
fn started(alloc: Global, handler: &mut ActionHandler<'_>) -> Option<Job>
    ensures same { handler.new ≡ record handler.old { acts = handler.new.acts } }
{
    let what = command(alloc).ok()?;
    let Ok((_id, job)) = handler.create_job(alloc, what) else {
        return None;
    };
    let is_asked = job.start(alloc, handler).is_ok();
    if is_asked {
        Some(job)
    } else {
        drop(job);
        None
    }
}

/// Asks for starts of the job, and sends a key behind each.
fn ask_and_type<R: Wait + Copy>(alloc: Global, job: &Job, pass: &mut HandlePass<R>) -> bool
    ensures kept { pass.new.pass.queue ≡ pass.old.pass.queue }
{
    let mut is_right = true;
    for _ in 0..ASKS {
        let is_asked = job.start(alloc, pass).is_ok();
        let is_typed = pass.keys(alloc, b"a").is_ok();
        is_right = is_right && is_asked && is_typed;
    }
    is_right
}

/// Waits until the job is shown.
fn wait_for(shown: &Shown) {
    for _ in 0..LOOKS {
        if shown.get().is_some() {
            return;
        }
        thread::yield_now();
    }
}

/// Waits until the job is shown, uses it, and raises the flag.
fn use_handle<R: Wait + Copy>(
    alloc: Global,
    shown: &Shown,
    pass: &mut HandlePass<R>,
    done: &Flag,
) -> bool
    ensures kept { pass.new.pass.queue ≡ pass.old.pass.queue }
{
    wait_for(shown);
    let is_right = match shown.get() {
        Some(job) => ask_and_type(alloc, job, pass),
        None => false,
    };
    done.raise();
    is_right
}

/// Two threads use a handle each.
fn use_both<R: Threads + Wait + Copy + Send + Sync>(
    rt: &R,
    alloc: Global,
    shown: &Shown,
    first: &mut HandlePass<R>,
    second: &mut HandlePass<R>,
    done: &(Flag, Flag),
) -> bool
    ensures first { first.new.pass.queue ≡ first.old.pass.queue }
    ensures second { second.new.pass.queue ≡ second.old.pass.queue }
{
    let (one, two) = join_mut(
        rt,
        &mut || use_handle(alloc, shown, first, &done.0),
        &mut || use_handle(alloc, shown, second, &done.1),
    );
    one && two
}

/// An engine without a throttle.
fn engine(alloc: Global) -> Result<Watchexec, Memory> {
    let folder = TextPath::new(Text::from_slice(alloc, b"/")?);
    let mut config = Config::new(alloc)?;
    config.throttle.replace(0);
    Watchexec::with_config(alloc, config, folder)
}

/// Hooks whose action handler shows a job.
fn hooks(alloc: Global, shown: &Shown) -> Result<BoxedHooks, Memory> {
    let shown = Arc::try_clone(shown)?;
    let mut actions: List<Box<dyn OnAction + Drop>> = List::new(alloc);
    actions.push(Box::new(alloc, Shows { alloc, shown })?)?;
    Ok(BoxedHooks::new(
        alloc,
        List::new(alloc),
        actions,
        List::new(alloc),
        List::new(alloc),
        List::new(alloc),
        List::new(alloc),
    ))
}

/// An engine that is sent one event, where that is taken.
fn sent_engine(alloc: Global) -> Option<Watchexec> {
    let mut engine = engine(alloc).ok()?;
    let event = Event {
        tags: List::new(alloc),
    };
    if engine.send_event(event, Priority::Normal).is_ok() {
        Some(engine)
    } else {
        drop(engine);
        None
    }
}

/// What the engine's thread uses: its world, and where its action handler shows the job.
#[derive(Drop)]
struct Side<R: Wait + Copy> {
    alloc: Global,
    world: ThreadWorld<R, EndingLive>,
    shown: Shown,
}

/// Runs an engine in this world, and answers its journal where that ended well.
fn run<R: Wait + Copy>(side: &mut Side<R>) -> Option<Journal>
    ensures plan { (⟦<ThreadWorld<R, EndingLive> as Outside>⟧.seen side.new.world).plan ≡ (⟦<ThreadWorld<R, EndingLive> as Outside>⟧.seen side.old.world).plan }
    ensures turns { IfSome result (λ journal. (⟦<ThreadWorld<R, EndingLive> as Outside>⟧.seen side.new.world).progress.turns ≡ tells (anywhere is_turn) journal.past (⟦<ThreadWorld<R, EndingLive> as Outside>⟧.seen side.old.world).progress.turns) }
{
    let mut hooks = hooks(side.alloc, &side.shown).ok()?;
    let mut journal = Journal::new(side.alloc).ok()?;
    let engine = sent_engine(side.alloc)?;
    match engine.main(side.alloc, &mut side.world, &mut hooks, &mut journal) {
        Ok(()) => Some(journal),
        Err(_) => None,
    }
}

/// Runs the engine while two threads use a handle each. The journal, where all ended well.
fn run_beside<R: Threads + Wait + Copy + Send + Sync>(
    rt: &R,
    alloc: Global,
    shared: &Shared,
    side: &mut Side<R>,
    first: &mut HandlePass<R>,
    second: &mut HandlePass<R>,
) -> (bool, Option<Journal>)
    ensures plan { (⟦<ThreadWorld<R, EndingLive> as Outside>⟧.seen side.new.world).plan ≡ (⟦<ThreadWorld<R, EndingLive> as Outside>⟧.seen side.old.world).plan }
    ensures turns { IfSome result.1 (λ journal. (⟦<ThreadWorld<R, EndingLive> as Outside>⟧.seen side.new.world).progress.turns ≡ tells (anywhere is_turn) journal.past (⟦<ThreadWorld<R, EndingLive> as Outside>⟧.seen side.old.world).progress.turns) }
    ensures first { first.new.pass.queue ≡ first.old.pass.queue }
    ensures second { second.new.pass.queue ≡ second.old.pass.queue }
{
    join_mut(
        rt,
        &mut || use_both(rt, alloc, &shared.shown, first, second, &shared.flags),
        &mut || run(side),
    )
}

/// A list of two handles.
fn two<R: Wait + Copy>(
    alloc: Global,
    first: HandlePass<R>,
    second: HandlePass<R>,
) -> Result<List<HandlePass<R>>, Memory>
    ensures { IfOk result (λ passes. passes ≡ first ∷ second ∷ []) }
{
    let mut passes = List::new(alloc);
    passes.push(first)?;
    passes.push(second)?;
    Ok(passes)
}

/// What is shared, before anything is shown or raised.
fn new_shared(alloc: Global) -> Result<Shared, Memory> {
    Ok(Shared {
        shown: Arc::new(alloc, OnceLock::new())?,
        flags: (Flag::new(alloc, false)?, Flag::new(alloc, false)?),
    })
}

/// A live outside that waits for both threads.
fn live(alloc: Global, shared: &Shared) -> Result<EndingLive, Memory> {
    let mut awaited = List::new(alloc);
    awaited.push(shared.flags.0.copy(alloc)?)?;
    awaited.push(shared.flags.1.copy(alloc)?)?;
    EndingLive::new(alloc, awaited)
}

/// Whether this turn brings this item.
fn is_item(kind: &TurnKind, item: &Item) -> bool {
    match (kind, item) {
        (TurnKind::Ask(id, ask), Item::Ask(other, wanted)) => id == other && ask == wanted,
        (TurnKind::Keys(bytes), Item::Keys(wanted)) => bytes.as_slice() == wanted.as_slice(),
        _ => false,
    }
}

/// Whether the turns of the journal that bring items bring what was given, all of it and in order.
fn brings(journal: &Journal, given: &Given) -> bool {
    let mut left = given.given.as_slice().iter();
    for entry in journal.as_slice() {
        let Entry::Turn(turn) = entry else {
            continue;
        };
        if !matches!(&turn.kind, TurnKind::Ask(_, _) | TurnKind::Keys(_)) {
            continue;
        }
        match left.next() {
            Some(sent) if is_item(&turn.kind, &sent.item) => {}
            _ => return false,
        }
    }
    left.next().is_none()
}

/// How many children the journal spawned, where it tells the end of each of them, in order.
fn spawned_and_ended(journal: &Journal) -> Option<u64> {
    let mut spawned: u64 = 0;
    let mut ended: u64 = 0;
    for entry in journal.as_slice() {
        match entry {
            Entry::Spawn { .. } => spawned = spawned.saturating_add(1),
            Entry::Turn(turn) => match &turn.kind {
                TurnKind::Ended(child) if *child == ended => ended = ended.saturating_add(1),
                TurnKind::Ended(_) => return None,
                _ => {}
            },
            _ => {}
        }
    }
    if spawned == ended {
        Some(spawned)
    } else {
        None
    }
}

/// Whether each turn came a millisecond after the one before, as its moments were told.
fn has_told_moments(journal: &Journal) -> bool {
    let mut at: u64 = 0;
    for entry in journal.as_slice() {
        if let Entry::Turn(turn) = entry {
            at = at.saturating_add(1_000_000);
            if turn.at != at {
                return false;
            }
        }
    }
    true
}

/// A world that waits for both threads, with two handles.
fn begin<R: Wait + Copy>(
    rt: R,
    alloc: Global,
    shared: &Shared,
) -> Result<(Side<R>, HandlePass<R>, HandlePass<R>), Memory>
    ensures first { IfOk result (λ begun. begun.1.pass.queue ≡ (⟦<ThreadWorld<R, EndingLive> as Outside>⟧.seen begun.0.world).plan.queue) }
    ensures second { IfOk result (λ begun. begun.2.pass.queue ≡ (⟦<ThreadWorld<R, EndingLive> as Outside>⟧.seen begun.0.world).plan.queue) }
    ensures turns { IfOk result (λ begun. (⟦<ThreadWorld<R, EndingLive> as Outside>⟧.seen begun.0.world).progress.turns ≡ Some []) }
{
    let shown = Arc::try_clone(&shared.shown)?;
    let live = live(alloc, shared)?;
    let (mut world, first) = ThreadWorld::<R, EndingLive>::new(rt, alloc, live, 1_000, 1, 128)?;
    let Ok(second) = world.split() else {
        return Err(Memory);
    };
    let side = Side {
        alloc,
        world,
        shown,
    };
    Ok((side, first, second))
}

/// What was given and is left, where both handles came back.
fn finish<R: Wait + Copy>(
    side: Side<R>,
    journal: &Journal,
    passes: List<HandlePass<R>>,
) -> Option<Given>
    requires own { All (λ p. p.pass.queue ≡ (⟦<ThreadWorld<R, EndingLive> as Outside>⟧.seen side.world).plan.queue) passes }
    requires ran { (⟦<ThreadWorld<R, EndingLive> as Outside>⟧.seen side.world).progress.turns ≡ tells (anywhere is_turn) journal.now.past (Some []) }
{
    let Side {
        alloc: _,
        world,
        shown: _,
    } = side;
    world.finish_run(journal, passes).ok()
}

/// The journal of the engine that runs while two threads use a handle each, and what was given, where all went well.
fn play<R: Threads + Wait + Copy + Send + Sync>(
    rt: &R,
    alloc: Global,
    shared: &Shared,
    side: Side<R>,
    first: HandlePass<R>,
    second: HandlePass<R>,
) -> Option<(Journal, Given)>
    requires first { first.pass.queue ≡ (⟦<ThreadWorld<R, EndingLive> as Outside>⟧.seen side.world).plan.queue }
    requires second { second.pass.queue ≡ (⟦<ThreadWorld<R, EndingLive> as Outside>⟧.seen side.world).plan.queue }
    requires turns { (⟦<ThreadWorld<R, EndingLive> as Outside>⟧.seen side.world).progress.turns ≡ Some [] }
{
    let mut side = side;
    let mut first = first;
    let mut second = second;
    let (is_used, ran) = run_beside(rt, alloc, shared, &mut side, &mut first, &mut second);
    if !is_used {
        return None;
    }
    let journal = ran?;
    let passes = two(alloc, first, second).ok()?;
    let given = finish(side, &journal, passes)?;
    Some((journal, given))
}

/// Whether the turns of the journal that are items are those that were given, in order, the end of each child is told, and each turn has
/// the moment that was told.
fn is_told(journal: &Journal, given: &Given) -> bool {
    if given.given.len() != 80 || !given.left.is_empty() {
        return false;
    }
    let children = spawned_and_ended(journal).unwrap_or(0);
    brings(journal, given) && children > 1 && has_told_moments(journal)
}

/// Two threads ask for starts of a job and type keys while the engine runs that made the job. The turns of the journal that are items are
/// those that were given, in order; all that was sent was given; the end of each child is told; and each turn has the moment that was told.
#[test]
fn jobs_are_used_from_two_threads(rt: HostRuntime) {
    let alloc = rt.alloc();
    let shared = new_shared(alloc).expect(&rt, "memory");
    let (side, first, second) = begin(rt, alloc, &shared).expect(&rt, "a world with two handles");
    let played = play(&rt, alloc, &shared, side, first, second);
    let (journal, given) = played.expect(&rt, "a run that ended well");
    assert!(rt; is_told(&journal, &given));
}
