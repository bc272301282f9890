// A run of the engine.
ghost use Rattle.std.specs.Prelude.{◌≡◌, ◌∷◌, [], List, None, ℕ, ◌+◌, ◌<◌, ◌≤◌, Bool, true, false, OnOk, OnErr, IfOk, IfErr, codes};
ghost use Rattle.wx_machine.specs.Steady.{OnlyRoom};
ghost use Rattle.wx_machine.specs.Kept.{KeepsOn, Promised};
ghost use Rattle.wx_action.specs.Serves.{AddsAlone, Continues};
ghost use Rattle.wx_machine.specs.Start.{Start, IsSize};
ghost use Rattle.wx_machine.specs.Jobs.{jobs};
ghost use Rattle.wx_machine.specs.Due.{agenda, begin_of, Open, IsRun};
ghost use Rattle.wx_machine.specs.Files.{is_file_turn, source, unwatched};
ghost use Rattle.wx_machine.specs.Keyboard.{ended_by};
ghost use Rattle.wx_machine.specs.Told.{is_last, TellsNoEnd};
ghost use Rattle.wx_machine.specs.Answer.{NoneIsToGo, BreaksOff, Answers};
ghost use Rattle.wx_action.specs.Stands.{Stands, AtTurn, HasEndRoom, Works, end_room};
ghost use Rattle.wx_file_turns.specs.Serves.{PaysOn, ends_unmade};
ghost use Rattle.wx_tree.specs.Paths.{Path};
ghost use Rattle.wx_tree.specs.Trees.{Tree};
ghost use Rattle.wx_file_turns.specs.Calm.{StaysCalm};
ghost use Rattle.wx_file_turns.specs.FewSteps.{FewSteps};
ghost use Rattle.wx_file_turns.specs.Settling.{AreSettling, GoesOnSettling};
ghost use Rattle.wx_file_turns.specs.Standing.{FilesStand, owing};
ghost use Rattle.wx_journal.specs.Told.{Counts};
ghost use Rattle.wx_journal.specs.declared.entry.Entry.{Entry as AnEntry};
ghost use Rattle.wx_file_turns.specs.Intake.{nothing_brought};
ghost use Rattle.wx_engine.specs.Run.{HasCause, HasTurnCause, Stops, Rests, IsBetween, ServesTurn, ServesTurns, Lists, HasLaws};

use crate::watchexec::Watchexec;
use std::alloc::Global;
use wx_action::{
    Worked, Worker, ask_turn, change_turn, end_jobs, ended_turn, job_turn, keys_turn, signal_turn,
    worker,
};
use wx_config::Config;
use wx_control::Flag;
use wx_error::CriticalError;
use wx_file_turns::{Files, file_turn, listen_turn};
use wx_hooks::{Hooks, World};
use wx_job::{Host, JobHooks};
use wx_journal::{Beginning, Entry, Journal, TurnKind, copy_bytes};
use wx_scan::Backend;
use wx_text::{Copies, Memory, Text};
use wx_words::TextPath;

/// The entry that a run begins with. It fails only for want of memory.
fn beginning(alloc: Global, config: &Config, folder: TextPath) -> Result<Entry, Memory>
    ensures { IfOk result (λ entry. entry ≡ begin_of (record { config = config.now; folder = folder; events = [] })) }
{
    let paths = config.pathset.get().copy(alloc)?;
    Ok(Entry::Begin(Beginning {
        throttle: *config.throttle.get(),
        size: config.event_channel_size,
        errors: config.error_channel_size,
        keyboard: *config.keyboard_events.get(),
        follow: *config.follow_symlinks.get(),
        jobsignals: config.signal_job_control,
        watcher: *config.file_watcher.get(),
        cwd: folder,
        paths,
    }))
}

/// The worker of a run with these settings and this folder, whose beginning it lists. It fails only for want of memory; then
/// nothing is listed.
fn list_beginning(
    alloc: Global,
    config: Config,
    folder: TextPath,
    journal: &mut Journal,
) -> Result<Worker, Memory>
    requires size { IsSize config.event_channel_size }
    ensures stands { IfOk result (λ worker. (s : Start) → s.config ≡ config → Stands s worker (begin_of s ∷ [])) }
    ensures room { IfOk result (λ worker. end_room worker ≡ 0) }
    ensures listed { OnOk result (journal.new.past ≡ begin_of (record { config = config; folder = folder; events = [] }) ∷ journal.old.past) }
    ensures err { OnErr result (journal.new.past ≡ journal.old.past) }
{
    journal.reserve(1)?;
    let entry = beginning(alloc, &config, folder)?;
    match Worker::new(alloc, config) {
        Ok(worker) => {
            journal.push(entry);
            Ok(worker)
        }
        Err(memory) => {
            // let go by generic code: the drop of a long enum is dear to prove
            drop(entry);
            Err(memory)
        }
    }
}

/// Begins a run: lists the beginning, and each event that was sent. It fails only for want of memory.
pub(crate) fn begin(
    alloc: Global,
    engine: Watchexec,
    journal: &mut Journal,
) -> Result<Worker, Memory>
    ghost start: { Start }
    requires engine { engine ≡ start }
    requires empty { journal.old.past ≡ [] }
    ensures stands { IfOk result (λ worker. Stands start worker journal.new.past) }
    ensures open { OnOk result (agenda start journal.new.past ≡ Open) }
    ensures none { jobs journal.new.past ≡ [] }
    ensures room { IfOk result (λ worker. end_room worker ≡ 0) }
    ensures cut { OnErr result (NoneIsToGo (agenda start journal.new.past)) }
    ensures adds { AddsAlone start journal.old.past journal.new.past }
{
    let Watchexec {
        config,
        folder,
        sent,
    } = engine;
    let mut worker = list_beginning(alloc, config, folder, journal)?;
    for item in sent.as_slice() {
        let event = item.0.copy(alloc)?;
        worker.send(alloc, event, item.1, journal)?;
    }
    Ok(worker)
}

/// What is due in a turn that was drawn and listed, of this moment and kind, but one about what is watched. `done` is the flag of
/// an ask's last control, where one was made with the ask. The answer says whether the run goes on. It fails where the run breaks
/// off: for want of memory, and where the error handler wished it.
fn serve_other<W: World, H: Hooks>(
    alloc: Global,
    kind: TurnKind,
    done: Option<Flag>,
    at: u64,
    state: &mut Worker,
    world: &mut W,
    hooks: &mut H,
    journal: &mut Journal,
) -> Result<Worked, CriticalError>
    ghost start: { Start }
    requires turn { AtTurn start state.old at kind journal.old.past }
    requires other { is_file_turn kind ≡ false }
    ensures continues { Continues H.seen H.rule H.stands start state.old journal.old (W.seen world.old) hooks.old state.new journal.new (W.seen world.new) hooks.new }
    ensures works { IfOk result (λ worked. Works start worked journal.new.past) }
    ensures last { IfOk result (λ worked. worked ≡ Worked.On → is_last kind ≡ false) }
    ensures breaks { IfErr result (λ error. BreaksOff start journal.new.past error) }
{
    match kind {
        TurnKind::Arrive(event, priority) => {
            state.arrive(alloc, event, priority, journal)?;
            Ok(state.worked())
        }
        TurnKind::Signal(signal) => {
            signal_turn(alloc, state, signal, journal)?;
            Ok(state.worked())
        }
        TurnKind::Keys(bytes) => {
            keys_turn(alloc, state, bytes, journal)?;
            Ok(state.worked())
        }
        TurnKind::Work => worker(alloc, state, at, world, hooks, journal),
        TurnKind::Job(id) => {
            job_turn(alloc, state, id, at, world, hooks, journal)?;
            Ok(state.worked())
        }
        TurnKind::Ended(child) => {
            ended_turn(alloc, state, child, at, world, hooks, journal)?;
            Ok(state.worked())
        }
        TurnKind::Ask(id, ask) => {
            ask_turn(alloc, state, id, ask, done, journal)?;
            Ok(state.worked())
        }
        TurnKind::Change(change) => {
            change_turn(state, change, journal)?;
            Ok(state.worked())
        }
        TurnKind::Listen | TurnKind::File => unreachable!(),
        TurnKind::Last => Ok(Worked::End),
    }
}

/// Whether a turn is about what is watched.
fn is_file_turn(kind: &TurnKind) -> bool
    ensures { result ≡ is_file_turn kind.now }
{
    matches!(kind, TurnKind::Listen | TurnKind::File)
}

/// What is due in a turn about what is watched: the backend that stands is asked what it brings, or what keeps watches acts. It fails
/// for want of memory, where a backend can't be made, and where the error handler wished it.
fn serve_files<W: World, H: Hooks>(
    kind: TurnKind,
    files: &mut Files<W::Back>,
    state: &mut Worker,
    world: &mut W,
    hooks: &mut H,
    journal: &mut Journal,
) -> Result<(), CriticalError>
    ghost start: { Start }
    requires turn { (at : ℕ) × AtTurn start state.old at kind journal.old.past }
    requires about { is_file_turn kind ≡ true }
    requires files { FilesStand start files.old journal.old.past }
    ensures serves { ServesTurn H.seen H.rule H.stands start state.old journal.old (W.seen world.old) hooks.old state.new journal.new (W.seen world.new) hooks.new }
    ensures served { OnOk result (agenda start journal.new.past ≡ Open) }
    ensures breaks { IfErr result (λ error. BreaksOff start journal.new.past error) }
    ensures files { OnOk result (FilesStand start files.new journal.new.past) }
    ensures paid { PaysOn journal.old.past (W.seen world.old) (owing files.old) journal.new.past (W.seen world.new) (owing files.new) }
    ensures settles { GoesOnSettling W.Back.backing W.Back.fits result start files.old journal.old.past (W.seen world.old).looked files.new journal.new.past (W.seen world.new).looked }
    ensures maker { Counts (ends_unmade journal.new.past) (W.seen world.old).progress.maker_faults (W.seen world.new).progress.maker_faults }
{
    match kind {
        TurnKind::Listen => Ok(listen_turn(files, state, world, journal)?),
        TurnKind::File => file_turn(files, state, world, hooks, journal),
        _ => unreachable!(),
    }
}

/// The same in a turn of any kind. One about what is watched also fails where a backend can't be made; then the world's count of
/// the faults of its maker rose. What is kept of what is watched stands for the journal where it goes well.
fn serve<W: World, H: Hooks>(
    kind: TurnKind,
    done: Option<Flag>,
    at: u64,
    files: &mut Files<W::Back>,
    state: &mut Worker,
    world: &mut W,
    hooks: &mut H,
    journal: &mut Journal,
) -> Result<Worked, CriticalError>
    ghost start: { Start }
    requires turn { AtTurn start state.old at kind journal.old.past }
    requires run { IsRun start journal.old.past }
    requires files { FilesStand start files.old journal.old.past }
    ensures serves { ServesTurn H.seen H.rule H.stands start state.old journal.old (W.seen world.old) hooks.old state.new journal.new (W.seen world.new) hooks.new }
    ensures works { IfOk result (λ worked. Works start worked journal.new.past) }
    ensures last { IfOk result (λ worked. worked ≡ Worked.On → is_last kind ≡ false) }
    ensures breaks { IfErr result (λ error. BreaksOff start journal.new.past error) }
    ensures files { OnOk result (FilesStand start files.new journal.new.past) }
    ensures paid { PaysOn journal.old.past (W.seen world.old) (owing files.old) journal.new.past (W.seen world.new) (owing files.new) }
    ensures settles { GoesOnSettling W.Back.backing W.Back.fits result start files.old journal.old.past (W.seen world.old).looked files.new journal.new.past (W.seen world.new).looked }
    ensures maker { Counts (ends_unmade journal.new.past) (W.seen world.old).progress.maker_faults (W.seen world.new).progress.maker_faults }
{
    if is_file_turn(&kind) {
        serve_files(kind, files, state, world, hooks, journal)?;
        return Ok(Worked::On);
    }
    serve_other(files.alloc, kind, done, at, state, world, hooks, journal)
}

/// Takes room for a turn in the journal and in the world, besides what the end of all jobs takes. It fails only for want
/// of memory.
fn make_room<W: World>(state: &Worker, world: &mut W, journal: &mut Journal) -> Result<(), Memory>
    requires room { HasEndRoom state.now journal.old.spare (W.seen world.old).spare }
    ensures same { journal.new.past ≡ journal.old.past }
    ensures rest { OnlyRoom (W.seen world.old) (W.seen world.new) }
    ensures room { HasEndRoom state.now journal.new.spare (W.seen world.new).spare }
    ensures journal_room { OnOk result (1 + end_room state.now ≤ journal.new.spare) }
    ensures world_room { OnOk result (1 + end_room state.now ≤ (W.seen world.new).spare) }
{
    state.reserve(1, journal)?;
    state.reserve_host(1, world)
}

/// The kind of a turn once more, which is to be served. It fails only for want of memory, and never where the turn tells the end of
/// a child. The worker keeps then what a read from the keyboard says of the end of the input.
fn kind_again(alloc: Global, kind: &TurnKind, state: &mut Worker) -> Result<TurnKind, Memory>
    ensures again { IfOk result (λ again. again ≡ kind.now) }
    ensures same { OnOk result (state.new ≡ state.old) }
    ensures no_end { OnErr result (TellsNoEnd kind.now) }
    ensures kept { OnErr result (state.new ≡ record state.old { ended = ended_by kind.now state.old.config.keyboard_events state.old.ended }) }
{
    match kind {
        TurnKind::Arrive(event, priority) => Ok(TurnKind::Arrive(event.copy(alloc)?, *priority)),
        TurnKind::Signal(signal) => Ok(TurnKind::Signal(*signal)),
        TurnKind::Keys(bytes) => match copy_bytes(alloc, bytes.as_slice()) {
            Ok(bytes) => Ok(TurnKind::Keys(bytes)),
            Err(memory) => {
                state.keep_read(bytes.as_slice());
                Err(memory)
            }
        },
        TurnKind::Work => Ok(TurnKind::Work),
        TurnKind::Job(id) => Ok(TurnKind::Job(*id)),
        TurnKind::Ended(child) => Ok(TurnKind::Ended(*child)),
        TurnKind::Ask(id, ask) => Ok(TurnKind::Ask(*id, ask.copy(alloc)?)),
        TurnKind::Change(change) => Ok(TurnKind::Change(change.copy(alloc)?)),
        TurnKind::Listen => Ok(TurnKind::Listen),
        TurnKind::File => Ok(TurnKind::File),
        TurnKind::Last => Ok(TurnKind::Last),
    }
}

/// Asks the world for turns and serves them, until the run is to end. About is what the error says that the fault of a
/// turn is about. The room for the end of all jobs is kept.
fn serve_turns<W: World, H: Hooks>(
    alloc: Global,
    about: Text,
    files: &mut Files<W::Back>,
    state: &mut Worker,
    world: &mut W,
    hooks: &mut H,
    journal: &mut Journal,
) -> Result<(), CriticalError>
    ghost start: { Start }
    requires between { IsBetween start state.old files.old journal.old (W.seen world.old) }
    requires about { about ≡ codes "turn" }
    ensures rests { Rests start state.new journal.new (W.seen world.new) }
    ensures stops { Stops start journal.new.past result }
    ensures serves { ServesTurns start journal.old.past (W.seen world.old) (H.seen hooks.old).told journal.new.past (W.seen world.new) (H.seen hooks.new).told }
    ensures keeps { KeepsOn H.seen H.rule H.stands hooks.old journal.old.past hooks.new journal.new.past }
    ensures cause { IfErr result (λ error. HasTurnCause journal.new.past error (W.seen world.old).progress (W.seen world.new).progress) }
    ensures paid { PaysOn journal.old.past (W.seen world.old) (owing files.old) journal.new.past (W.seen world.new) 0 }
    ensures settles { (t : Tree) (ok : ℕ → Path → Bool) → StaysCalm t ok start journal.new.past (W.seen world.old).looked (W.seen world.new).looked → AreSettling W.Back.backing W.Back.fits t ok start journal.old.past files.old → FewSteps start t journal.new.past }
{
    'turns: loop {
        make_room(state, world, journal)?;
        let given = match world.turn() {
            Ok(given) => given,
            Err(fault) => {
                journal.push(Entry::TurnFault(fault.0));
                return Err(CriticalError::IoError {
                    about,
                    err: fault.0,
                });
            }
        };
        let at = given.turn.at;
        let kind = kind_again(alloc, &given.turn.kind, state);
        journal.push(Entry::Turn(given.turn));
        match serve(kind?, given.done, at, files, state, world, hooks, journal)? {
            Worked::On => {}
            Worked::End => return Ok(()),
        }
    }
}

/// What a run keeps beside its worker: what the error says that the fault of a turn is about, and what is watched. It fails only
/// for want of memory.
fn parts<B: Backend + Drop>(alloc: Global, engine: &Watchexec) -> Result<(Text, Files<B>), Memory>
    ensures about { IfOk result (λ parts. parts.0 ≡ codes "turn") }
    ensures given { IfOk result (λ parts. (parts.1.source ≡ None) × (parts.1.intake ≡ nothing_brought engine.now.config.event_channel_size)) }
    ensures stands { IfOk result (λ parts. (p : List AnEntry) → source engine.now p ≡ unwatched → FilesStand engine.now parts.1 p) }
    ensures owing { IfOk result (λ parts. owing parts.1 ≡ 0) }
{
    let about = Text::from_slice(alloc, b"turn")?;
    let folder = engine.folder.copy(alloc)?;
    let files = Files::new(alloc, folder, engine.config.event_channel_size)?;
    Ok((about, files))
}

/// A whole run. It begins, serves turns until it is to end, and then each job that lives ends.
pub(crate) fn run<W: World, H: Hooks>(
    alloc: Global,
    engine: Watchexec,
    world: &mut W,
    hooks: &mut H,
    journal: &mut Journal,
) -> Result<(), CriticalError>
    ghost start: { Start }
    requires engine { engine ≡ start }
    requires empty { journal.old.past ≡ [] }
    ensures answers { Answers start journal.new.past result }
    ensures cause { IfErr result (λ error. HasCause start journal.new.past error (W.seen world.old).progress (W.seen world.new).progress) }
    ensures lists { Lists journal.new.past (W.seen world.old) (H.seen hooks.old).told (W.seen world.new) (H.seen hooks.new).told }
    ensures laws { HasLaws start journal.new.past }
    ensures promised { Promised H.seen H.rule H.stands hooks.old [] hooks.new journal.new.past }
    ensures settles { (t : Tree) (ok : ℕ → Path → Bool) → StaysCalm t ok start journal.new.past (W.seen world.old).looked (W.seen world.new).looked → FewSteps start t journal.new.past }
    ensures world_plan { (W.seen world.new).plan ≡ (W.seen world.old).plan }
    ensures world_place { (W.seen world.new).place ≡ (W.seen world.old).place }
{
    let (about, mut files): (Text, Files<W::Back>) = parts(alloc, &engine)?;
    let mut state = begin(alloc, engine, journal)?;
    let answer = serve_turns(alloc, about, &mut files, &mut state, world, hooks, journal);
    end_jobs(&mut state, world, journal);
    drop(state);
    drop(files);
    answer
}
