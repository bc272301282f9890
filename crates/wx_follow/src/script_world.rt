// A world in memory, which follows a script.
ghost use Rattle.std.specs.Prelude.{◌≡◌, ◌⊎◌, [], true, false, not, min, map, Some, Ok, Err, IfOk, IfErr, OnOk, length, drop};
ghost use Rattle.std.specs.List.{list_all};
ghost use Rattle.wx_watch.specs.declared.notify_fault.NotifyFaultKind.TheVariants.{Memory as OutOfMemory};
ghost use Rattle.wx_journal.specs.declared.entry.Entry.TheVariants.{Make};
ghost use Rattle.wx_journal.specs.declared.entry.TurnKind.TheVariants.{Last};
ghost use Rattle.wx_journal.specs.Told.{Counts};
ghost use Rattle.wx_script.specs.HostCalls.{UsesAnswers, uses_prop};
ghost use Rattle.wx_script.specs.Follows.{given_of};
ghost use Rattle.wx_mem_tree.specs.Entries.{none_fails};
ghost use Rattle.wx_machine.specs.Seen.{Seen};
ghost use Rattle.wx_poller.specs.Polled.{Fits, backing_of};
ghost use Rattle.wx_tree.specs.Trees.{Tree};
ghost use Rattle.wx_scan.specs.Told.{IsNamed};
ghost use Rattle.wx_scan.specs.Backings.{failed_by, is_memory};
ghost use Rattle.wx_hooks.specs.Given.{unheard};
ghost use Rattle.wx_follow.specs.Edits.{FollowsEdits, IsAhead, ahead_prop, any_lines, edits_prop, failing_look, files_of};
ghost use Rattle.wx_follow.specs.Backed.{is_none};
ghost use Rattle.wx_follow.specs.Unseen.{same_unseen, unseen};
ghost use Rattle.wx_script.specs.Turns.{comes, risen, Rises, entry_of, Given, turns_of, FollowsGiven};

use crate::editing::{change_next, edits_of, tree_ahead, tree_with};
use crate::replies::{either, line, next, passed};
use crate::script_backend::ScriptBackend;
use crate::supply::Supply;
use std::alloc::Global;
use wx_command::Spawnable;
use wx_control::{Flag, Id};
use wx_events::ProcessEnd;
use wx_hooks::{TurnFault, Turned, World};
use wx_job::{Host, Outside};
use wx_journal::{Entry, HostFault, Journal, SpawnTag, Turn, TurnKind, Word};
use wx_mem_tree::MemTree;
use wx_notify::Notify;
use wx_scan::{Backend, EntryKind, Looks, ScanError, Scanner};
use wx_script::{Answers, FailingCall, Script, ScriptTurn, TreeEdit, Used};
use wx_text::{Copies, List, Memory, copy_twice};
use wx_watch::{NotifyFault, NotifyFaultKind, Watcher};
use wx_words::TextPath;

/// A world that gives the turns of a script, in order, and then last turns at the last moment. To the calls on children it
/// answers what the script says, in order, and then that each went well and each child ended with success. It tells its
/// entries: the turns among them are the script's first ones, and the answers among them are those of the script. It looks at a
/// tree in memory, which it changes when a turn is asked for as the script says before this turn. A look fails where the script says
/// so. It makes backends that poll, where the script doesn't say that there is none, of which those calls fail that the script says.
/// The changes before the first turn are made ahead, with the world. Where memory is wanted for a later one it is short, and leaves
/// out the others that are made with it. Where it is wanted for a backend, to say why there is none, or to say what a backend brought,
/// it is short, and answers `Memory`.
pub struct ScriptWorld {
    alloc: Global,
    turns: List<ScriptTurn>,
    last: u64,
    answers: Answers,
    used: Used,
    edits: List<List<TreeEdit>>,
    changed: usize,
    tree: MemTree,
    ahead: MemTree,
    failing_watches: List<FailingCall>,
    left: Supply,
    told: Journal,
    moment: u64,
    faults: u64,
    host_faults: u64,
    maker_faults: u64,
    is_short: bool,
    pub ghost follows: { FollowsGiven turns last told.past },
    pub ghost answered: { UsesAnswers is_short answers used told.past } by { uses_prop is_short answers used told.past },
    pub ghost edited: { FollowsEdits is_short edits (length (turns_of told.past)) tree.entries.items } by { edits_prop is_short edits (length (turns_of told.past)) tree.entries.items },
    pub ghost first: { IsAhead edits (length (turns_of told.past)) ahead.entries.items } by { ahead_prop edits (length (turns_of told.past)) ahead.entries.items },
    ghost some: { any_lines edits ≡ true },
    ghost lines: { changed ≡ min (length (turns_of told.past)) (length edits) },
    ghost rest: { left ≡ drop (length (turns_of told.past)) turns },
    ghost come: { list_all comes left ≡ true },
    ghost rises: { risen moment left ≡ Some last },
}

// Its parts are dropped by one call: docs/DESIGN.md, "What proofs cost".
impl Drop for ScriptWorld {
    fn drop(self) {
        let ScriptWorld {
            alloc: _,
            turns: _,
            last: _,
            answers: _,
            used: _,
            edits: _,
            changed: _,
            tree: _,
            ahead: _,
            failing_watches: _,
            left: _,
            told: _,
            moment: _,
            faults: _,
            host_faults: _,
            maker_faults: _,
            is_short: _,
        } = self;
    }
}

impl ScriptWorld {
    /// A world that follows this script, before its first turn. It fails only for want of memory.
    pub fn new(alloc: Global, script: &Script) -> Result<ScriptWorld, Memory>
        requires come { list_all comes script.now.turns ≡ true }
        requires rises { Rises script.now.turns script.now.last }
        ensures plan { IfOk result (λ world. record { turns = world.turns; last = world.last; answers = world.answers; edits = world.edits; fails = not (none_fails world.tree.failing) } ≡ given_of script.now) }
        ensures told { IfOk result (λ world. world.told.past ≡ []) }
        ensures moment { IfOk result (λ world. world.moment ≡ 0) }
        ensures faults { IfOk result (λ world. world.faults ≡ 0) }
        ensures host_faults { IfOk result (λ world. world.host_faults ≡ 0) }
        ensures maker_faults { IfOk result (λ world. world.maker_faults ≡ 0) }
        ensures looks { IfOk result (λ world. (world.tree.looks ≡ 0) × (world.tree.faults ≡ 0)) }
        ensures failing { IfOk result (λ world. world.tree.failing ≡ map failing_look script.now.failing_looks) }
        ensures watches { IfOk result (λ world. world.failing_watches ≡ script.now.failing_watches) }
        ensures short { IfOk result (λ world. world.is_short ≡ false) }
    {
        let turns = script.turns.copy(alloc)?;
        let answers = script.answers.copy(alloc)?;
        let edits = edits_of(alloc, script)?;
        let ahead = tree_ahead(alloc, &edits)?;
        let tree = tree_with(alloc, script.failing_looks.as_slice())?;
        let failing = Vec::from_slice(alloc, script.failing_watches.as_slice())?;
        let left = Supply::new(alloc, &script.turns)?;
        let told = Journal::new(alloc)?;
        Ok(ScriptWorld {
            alloc,
            turns,
            last: script.last,
            answers,
            used: Used::default(),
            edits,
            changed: 0,
            tree,
            ahead,
            failing_watches: List::from_vec(failing),
            left,
            told,
            moment: 0,
            faults: 0,
            host_faults: 0,
            maker_faults: 0,
            is_short: false,
        })
    }

    /// Whether a change of the tree was left out, or a backend, or what one brought, for want of memory.
    pub fn short(&self) -> bool
        ensures { result ≡ self.now.is_short }
    {
        self.is_short
    }
}

impl Outside for ScriptWorld {
    ghost Plan = { Given };

    ghost seen = { λ s. record { plan = record { turns = s.turns; last = s.last; answers = s.answers; edits = s.edits; fails = not (none_fails s.tree.failing) }; shown = record { told = Some s.told.past; faults = s.host_faults }; spare = s.told.spare; progress = record { turns = Some (turns_of s.told.past); left = length s.left; moment = s.moment; turn_faults = s.faults; maker_faults = s.maker_faults }; place = []; looked = files_of s.edits (length (turns_of s.told.past)) s.ahead.entries.items s.failing_watches s.tree.entries.items s.tree.looks s.tree.faults } };
}

impl Looks for ScriptWorld {
    ghost looked = { λ s. files_of s.edits (length (turns_of s.told.past)) s.ahead.entries.items s.failing_watches s.tree.entries.items s.tree.looks s.tree.faults };

    ghost Rest = { Seen Given };

    ghost rest = { λ s. unseen (⟦<ScriptWorld as Outside>⟧.seen s) };
}

/// A count of faults, after a call that failed or went well. It ends at the greatest number.
fn counted(faults: u64, failed: bool) -> u64
    ensures { Counts failed faults result }
{
    if failed {
        faults.saturating_add(1)
    } else {
        faults
    }
}

impl Host for ScriptWorld {
    fn reserve(&mut self, n: u64) -> Result<(), Memory> {
        self.told.reserve(n)
    }

    fn spawn(
        &mut self,
        child: u64,
        job: Id,
        what: Spawnable,
        tag: SpawnTag,
    ) -> Result<(), HostFault> {
        let answer = next(&self.answers.spawns, &mut self.used.spawns, Ok(()));
        self.host_faults = counted(self.host_faults, answer.is_err());
        self.told.push(Entry::Spawn {
            child,
            job,
            tag,
            what,
            answer,
        });
        answer
    }

    fn signal(&mut self, child: u64, number: i32) -> Result<(), HostFault> {
        let answer = next(&self.answers.signals, &mut self.used.signals, Ok(()));
        self.host_faults = counted(self.host_faults, answer.is_err());
        self.told.push(Entry::Signal {
            child,
            number,
            answer,
        });
        answer
    }

    fn kill(&mut self, child: u64) -> Result<(), HostFault> {
        let answer = next(&self.answers.kills, &mut self.used.kills, Ok(()));
        self.host_faults = counted(self.host_faults, answer.is_err());
        self.told.push(Entry::Kill { child, answer });
        answer
    }

    fn wait(&mut self, child: u64) -> Result<ProcessEnd, HostFault> {
        let answer = next(
            &self.answers.waits,
            &mut self.used.waits,
            Ok(ProcessEnd::Success),
        );
        self.host_faults = counted(self.host_faults, answer.is_err());
        self.told.push(Entry::Wait { child, answer });
        answer
    }

    fn drop_child(&mut self, child: u64) {
        self.told.push(Entry::Dropped(child));
    }

    fn raise(&mut self, ticket: u64, flag: &Flag) {
        flag.raise();
        self.told.push(Entry::Raise(ticket));
    }

    fn gone(&mut self, job: Id, flag: &Flag) {
        flag.raise();
        self.told.push(Entry::Gone(job));
    }
}

impl Scanner for ScriptWorld {
    fn classify(&mut self, path: &TextPath, follow: bool) -> Result<EntryKind, ScanError> {
        self.tree.classify(path, follow)
    }

    fn canonicalize(&mut self, path: &TextPath) -> Result<TextPath, ScanError> {
        self.tree.canonicalize(path)
    }

    fn scan(&mut self, path: &TextPath) -> Result<List<TextPath>, ScanError> {
        self.tree.scan(path)
    }

    fn stamp(&mut self, path: &TextPath) -> Result<u64, ScanError> {
        self.tree.stamp(path)
    }
}

impl World for ScriptWorld {
    type Back = ScriptBackend;

    ghost only_looks = { λ x y e. same_unseen (⟦<ScriptWorld as Outside>⟧.seen x) (⟦<ScriptWorld as Outside>⟧.seen y) e };

    fn turn(&mut self) -> Result<Turned, TurnFault> {
        let short = change_next(
            self.alloc,
            &self.edits,
            self.changed,
            &mut self.ahead,
            &mut self.tree,
        );
        self.is_short = either(self.is_short, short);
        self.changed = passed(&self.edits, self.changed);
        let Some((given, told)) = self.left.next() else {
            self.told.push(Entry::Turn(last_turn(self.last)));
            return Ok(Turned {
                turn: last_turn(self.last),
                done: None,
            });
        };
        self.told.push(entry_of(told));
        match given {
            ScriptTurn::Turn(turn) => {
                self.moment = turn.at;
                Ok(Turned { turn, done: None })
            }
            ScriptTurn::Fault(code) => {
                self.faults = counted(self.faults, true);
                Err(TurnFault(code))
            }
        }
    }

    fn make_backend(
        &mut self,
        back: u64,
        kind: Watcher,
        follow: bool,
    ) -> Result<ScriptBackend, NotifyFault> {
        let usual = Ok(());
        let due = line(&self.answers.makes, self.used.makes, &usual);
        let made = backend_or_fault(self.alloc, due, follow, &self.failing_watches);
        drop(usual);
        self.used.makes = passed(&self.answers.makes, self.used.makes);
        match made {
            Ok(backend) => {
                self.told.push(made_entry(back, kind, follow, Ok(())));
                Ok(backend)
            }
            Err((fault, told, short)) => {
                self.is_short = either(self.is_short, short);
                self.maker_faults = counted(self.maker_faults, is_maker_fault(&fault));
                self.told.push(made_entry(back, kind, follow, Err(told)));
                Err(fault)
            }
        }
    }

    fn listen(
        &mut self,
        item: u64,
        name: u64,
        back: &mut ScriptBackend,
    ) -> Option<Result<Notify, NotifyFault>> {
        let Some(next) = back.next(&mut self.tree) else {
            self.told.push(Entry::Word(Word::Quiet));
            return None;
        };
        let (given, told, short) = given_and_told(self.alloc, next);
        self.is_short = either(self.is_short, short);
        self.told.push(Entry::Brought {
            item,
            back: name,
            answer: told,
        });
        Some(given)
    }

    fn ready(&mut self, revision: u64, flag: &Flag) {
        flag.raise();
        self.told.push(Entry::Ready(revision));
    }
}

/// What a backend brought, to be given and to be told, or in both places that there was no memory; and whether it is that.
fn given_and_told(
    alloc: Global,
    next: Result<Notify, NotifyFault>,
) -> (
    Result<Notify, NotifyFault>,
    Result<Notify, NotifyFault>,
    bool,
)
    ensures twice { result.1 ≡ result.0 }
    ensures given { (result.0 ≡ next) ⊎ (result.0 ≡ unheard) }
{
    match next.copy(alloc) {
        Ok(told) => (next, told, false),
        Err(Memory) => {
            drop(next);
            (Err(no_memory(alloc)), Err(no_memory(alloc)), true)
        }
    }
}

/// The entry of a backend that was made, or couldn't be.
fn made_entry(back: u64, watcher: Watcher, follow: bool, answer: Result<(), NotifyFault>) -> Entry
    ensures { result ≡ Make back watcher follow answer }
{
    Entry::Make {
        back,
        watcher,
        follow,
        answer,
    }
}

/// Whether this is a fault of the maker of backends: want of memory is none.
fn is_maker_fault(fault: &NotifyFault) -> bool
    ensures { result ≡ not (is_memory fault.now.kind) }
{
    !matches!(fault.kind, NotifyFaultKind::Memory)
}

/// The fault that there was no memory.
fn no_memory(alloc: Global) -> NotifyFault
    ensures { result ≡ record { kind = OutOfMemory; paths = [] } }
{
    NotifyFault {
        kind: NotifyFaultKind::Memory,
        paths: List::new(alloc),
    }
}

/// A backend of which these calls fail, where this answer says that there is one, or the fault twice, to be given and to be told.
/// There is no memory where it says so.
fn backend_or_fault(
    alloc: Global,
    due: &Result<(), NotifyFault>,
    follow: bool,
    failing: &List<FailingCall>,
) -> Result<ScriptBackend, (NotifyFault, NotifyFault, bool)>
    ensures ok { OnOk result (due.now ≡ Ok tt) }
    ensures fresh { IfOk result (λ backend. ((backing_of backend.poller).registrations ≡ []) × (backend.calls ≡ 0) × (backend.failing ≡ failing.now)) }
    ensures exact { is_none failing.now ≡ true → follow ≡ false → IfOk result (λ backend. (⟦<ScriptBackend as Backend>⟧.backing backend).exact ≡ true) }
    ensures fits { (t : Tree) → IsNamed t → IfOk result (λ backend. Fits backend.poller t) }
    ensures twice { IfErr result (λ e. e.1 ≡ e.0) }
    ensures err { IfErr result (λ e. e.2 ≡ false → due.now ≡ Err e.0) }
{
    match due {
        Ok(()) => match ScriptBackend::new(alloc, follow, failing) {
            Ok(backend) => Ok(backend),
            Err(Memory) => Err((no_memory(alloc), no_memory(alloc), true)),
        },
        Err(fault) => match copy_twice(alloc, fault) {
            Ok((given, told)) => Err((given, told, false)),
            Err(Memory) => Err((no_memory(alloc), no_memory(alloc), true)),
        },
    }
}

/// The entry of a turn of a script.
fn entry_of(turn: ScriptTurn) -> Entry
    ensures { result ≡ entry_of turn }
{
    match turn {
        ScriptTurn::Turn(turn) => Entry::Turn(turn),
        ScriptTurn::Fault(code) => Entry::TurnFault(code),
    }
}

/// A last turn at this moment.
fn last_turn(at: u64) -> Turn
    ensures { result ≡ record { at = at; kind = Last } }
{
    Turn {
        at,
        kind: TurnKind::Last,
    }
}
