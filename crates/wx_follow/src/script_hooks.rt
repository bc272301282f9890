// Hooks in memory, which follow a script.
ghost use Rattle.std.specs.Prelude.{◌≡◌, ◌++◌, ◌∷◌, [], ◌+◌, true, false, Some, List, IfOk, OnOk, OnErr, option_map};
ghost use Rattle.std.specs.List.{find};
ghost use Rattle.wx_journal.specs.declared.entry.Act.TheVariants.{Ask as Asks, Change as Changes};
ghost use Rattle.wx_journal.specs.declared.wish.Wish.TheVariants.{Nothing};
ghost use Rattle.wx_journal.specs.Told.{anywhere, is_hooks};
ghost use Rattle.wx_script.specs.Answered.{AreUsed};
ghost use Rattle.wx_script.specs.Acted.{is_made, AreMade, performed, with_create, with_ask, with_get, with_act, hands, filters, dirs, errors, polls, LeavesWords, AreHooksUsed, Wished, IsWished};
ghost use Rattle.wx_script.specs.FollowLaws.{leaves_wished, uses_over, hands_among, filters_among, dirs_among, errors_among, polls_among, hooks_over};
ghost use Rattle.wx_script.specs.Follows.{wished_of};
ghost use Rattle.wx_script.specs.declared.script.ScriptAct.TheVariants.{One};
ghost use Rattle.wx_follow.specs.Filtering.{ignores_by};

use crate::filtering::{patterns_of, verdict_on_dir, verdict_on_event};
use crate::replies::{either, line, next, passed};
use std::alloc::Global;
use wx_command::{Command, Spawnable};
use wx_config::Change;
use wx_control::{Ask, Controls, Id, Job};
use wx_error::RuntimeError;
use wx_events::{Event, Priority};
use wx_hooks::{ActionHandler, CreateRefused, ErrorHook, GetRefused, Hooks};
use wx_job::{JobHooks, JobTaskContext};
use wx_journal::{Act, Entry, HostFault, Journal, Wish};
use wx_patterns::Patterns;
use wx_script::{Script, ScriptAct, Wanted};
use wx_text::{Copies, List, Memory, Text};
use wx_words::TextPath;

/// Hooks that ask in each call of the action handler for the next acts of a script, and for nothing after them, and answer each
/// call of the filter about an event by the next answer of the script, and each after them by the script's patterns: an event
/// passes that has no path, or one that isn't ignored. So they do with directories, by the script's answers about these, and a
/// directory passes that isn't ignored. Of each error they wish what the script does next, and nothing after that.
/// Each poll of a begun function is answered as the script says next, and those after that find it ready. Each call of a spawn
/// hook appends the next words of the script to those of what is spawned, and none after them. Functions and error handlers of
/// jobs do nothing. Where memory is wanted for an act, or a change is refused since the revision can't be raised, they are
/// short, quit, and leave out the acts behind it. Where it is wanted for an answer they are short, and answer the error
/// `Memory`. Where it is wanted for a wish they are short, and wish nothing. Where it is wanted for what is spawned they are
/// short, leave that as it was, and answer `Memory`. They tell their entries.
pub struct ScriptHooks {
    alloc: Global,
    actions: List<List<ScriptAct>>,
    used: usize,
    filters: List<Result<bool, RuntimeError>>,
    asked: usize,
    dirs: List<Result<bool, RuntimeError>>,
    judged: usize,
    errors: List<Wish>,
    shown: usize,
    polls: List<bool>,
    polled: usize,
    hooks: List<List<Text>>,
    hooked: usize,
    patterns: Patterns,
    told: Journal,
    is_short: bool,
}

// Its parts are dropped by one call: docs/DESIGN.md, "What proofs cost".
impl Drop for ScriptHooks {
    fn drop(self) {
        let ScriptHooks {
            alloc: _,
            actions: _,
            used: _,
            filters: _,
            asked: _,
            dirs: _,
            judged: _,
            errors: _,
            shown: _,
            polls: _,
            polled: _,
            hooks: _,
            hooked: _,
            patterns: _,
            told: _,
            is_short: _,
        } = self;
    }
}

impl ScriptHooks {
    /// Hooks that follow this script, before the first call. It fails only for want of memory.
    pub fn new(alloc: Global, script: &Script) -> Result<ScriptHooks, Memory>
        ensures plan { IfOk result (λ hooks. record { actions = hooks.actions; filters = hooks.filters; dirs = hooks.dirs; errors = hooks.errors; polls = hooks.polls; hooks = hooks.hooks; ignores = ignores_by hooks.patterns } ≡ wished_of script.now) }
        ensures stands { IfOk result (λ hooks. AreUsed hands hooks.actions hooks.used [] × AreUsed (filters (ignores_by hooks.patterns)) hooks.filters hooks.asked [] × AreUsed (dirs (ignores_by hooks.patterns)) hooks.dirs hooks.judged [] × AreUsed errors hooks.errors hooks.shown [] × AreUsed polls hooks.polls hooks.polled [] × AreHooksUsed hooks.hooks hooks.hooked []) }
        ensures told { IfOk result (λ hooks. hooks.told.past ≡ []) }
        ensures short { IfOk result (λ hooks. hooks.is_short ≡ false) }
    {
        let actions = script.actions.copy(alloc)?;
        let filters = script.filters.copy(alloc)?;
        let dirs = script.dirs.copy(alloc)?;
        let errors = script.errors.copy(alloc)?;
        let polls = script.polls.copy(alloc)?;
        let hooks = script.hooks.copy(alloc)?;
        let patterns = patterns_of(alloc, script)?;
        let told = Journal::new(alloc)?;
        Ok(ScriptHooks {
            alloc,
            actions,
            used: 0,
            filters,
            asked: 0,
            dirs,
            judged: 0,
            errors,
            shown: 0,
            polls,
            polled: 0,
            hooks,
            hooked: 0,
            patterns,
            told,
            is_short: false,
        })
    }

    /// Whether an act, an answer, a wish or words were left out for want of memory.
    pub fn short(&self) -> bool
        ensures { result ≡ self.now.is_short }
    {
        self.is_short
    }
}

impl JobHooks for ScriptHooks {
    ghost Plan = { Wished };

    ghost seen = { λ s. record { plan = record { actions = s.actions; filters = s.filters; dirs = s.dirs; errors = s.errors; polls = s.polls; hooks = s.hooks; ignores = ignores_by s.patterns }; told = Some s.told.past; spare = s.told.spare; short = s.is_short; place = [] } };

    ghost rule = { λ plan p e. IsWished plan p e };

    ghost spawn_rule = { λ plan p given e. LeavesWords plan.hooks p given e };

    ghost stands = { λ s p. AreUsed hands s.actions s.used p × AreUsed (filters (ignores_by s.patterns)) s.filters s.asked p × AreUsed (dirs (ignores_by s.patterns)) s.dirs s.judged p × AreUsed errors s.errors s.shown p × AreUsed polls s.polls s.polled p × AreHooksUsed s.hooks s.hooked p };

    fn reserve(&mut self, n: u64) -> Result<(), Memory> {
        self.told.reserve(n)
    }

    fn run(&mut self, job: Id, n: u32, _cx: &JobTaskContext<'_>) {
        self.told.push(Entry::Run { job, n });
    }

    fn begin(&mut self, job: Id, n: u32, _cx: &JobTaskContext<'_>) {
        self.told.push(Entry::Begun { job, n });
    }

    fn poll(&mut self, job: Id, n: u32) -> bool {
        let ready = next(&self.polls, &mut self.polled, true);
        self.told.push(Entry::Poll { job, n, ready });
        ready
    }

    fn job_error(&mut self, job: Id, n: u32, fault: HostFault) {
        let code = fault.0;
        self.told.push(Entry::JobError { job, n, code });
    }

    fn spawn_hook(
        &mut self,
        job: Id,
        n: u32,
        what: &mut Spawnable,
        _cx: &JobTaskContext<'_>,
    ) -> Result<(), Memory> {
        let none = List::new(self.alloc);
        let words = line(&self.hooks, self.hooked, &none).as_slice();
        let told = append_words(self.alloc, what, words);
        drop(none);
        self.hooked = passed(&self.hooks, self.hooked);
        match told {
            Ok(left) => {
                let answer = Ok(left);
                self.told.push(Entry::Hook { job, n, answer });
                Ok(())
            }
            Err(want) => {
                self.is_short = true;
                let answer = Err(want);
                self.told.push(Entry::Hook { job, n, answer });
                Err(want)
            }
        }
    }

    ghost spawn_rule_is_rule = { λ plan p job n left command runs words. leaves_wished plan p job n left command runs words };

    ghost stands_other = { λ s p e _ other stands. (uses_over hands (anywhere is_hooks) hands_among s.actions s.used p e other stands.0, uses_over (filters (ignores_by s.patterns)) (anywhere is_hooks) (filters_among (ignores_by s.patterns)) s.filters s.asked p e other stands.1, uses_over (dirs (ignores_by s.patterns)) (anywhere is_hooks) (dirs_among (ignores_by s.patterns)) s.dirs s.judged p e other stands.2, uses_over errors (anywhere is_hooks) errors_among s.errors s.shown p e other stands.3, uses_over polls (anywhere is_hooks) polls_among s.polls s.polled p e other stands.4, hooks_over s.hooks s.hooked p e other stands.5) };
}

impl Hooks for ScriptHooks {
    fn check_event(
        &mut self,
        n: u32,
        name: u64,
        event: &Event,
        priority: Priority,
    ) -> Result<bool, RuntimeError> {
        let (answer, told, short) = verdict_on_event(
            self.alloc,
            &self.filters,
            self.asked,
            &self.patterns,
            event,
            priority,
        );
        self.is_short = either(self.is_short, short);
        self.asked = passed(&self.filters, self.asked);
        self.told.push(Entry::Filter {
            n,
            name,
            answer: told,
        });
        answer
    }

    fn check_dir(&mut self, n: u32, path: TextPath) -> Result<bool, RuntimeError> {
        let (answer, told, short) = verdict_on_dir(
            self.alloc,
            &self.dirs,
            self.judged,
            &self.patterns,
            &path,
        );
        self.is_short = either(self.is_short, short);
        self.judged = passed(&self.dirs, self.judged);
        self.told.push(Entry::Dir {
            n,
            path,
            answer: told,
        });
        answer
    }

    fn error(&mut self, n: u32, hook: &mut ErrorHook) {
        let usual = Wish::Nothing;
        let wish = line(&self.errors, self.shown, &usual);
        let short = wish_or_short(self.alloc, wish, hook);
        drop(usual);
        self.is_short = self.is_short || short;
        self.shown = passed(&self.errors, self.shown);
        let entry = hook.shown(n);
        self.told.push(entry);
    }

    fn action(&mut self, n: u32, handler: &mut ActionHandler<'_>) {
        let none = List::new(self.alloc);
        let acts = line(&self.actions, self.used, &none).as_slice();
        let short = perform_or_quit(self.alloc, acts, handler);
        drop(none);
        self.is_short = self.is_short || short;
        self.used = passed(&self.actions, self.used);
        let entry = handler.hand(n);
        self.told.push(entry);
    }
}

/// What is spawned where these words are appended. It fails only for want of memory.
fn appended(alloc: Global, what: &Spawnable, words: &[Text]) -> Result<Spawnable, Memory>
    ensures { IfOk result (λ left. left ≡ record what.now { words = what.now.words ++ words.now }) }
{
    let mut left = what.copy(alloc)?;
    for word in words {
        left.words.push(word.copy(alloc)?)?;
    }
    Ok(left)
}

/// Appends these words to those of what is spawned, and answers what this then is. It fails only for want of memory; then
/// what is spawned is as it was.
fn append_words(alloc: Global, what: &mut Spawnable, words: &[Text]) -> Result<Spawnable, Memory>
    ensures ok { IfOk result (λ told. told ≡ record what.old { words = what.old.words ++ words.now }) }
    ensures told { IfOk result (λ told. what.new ≡ told) }
    ensures err { OnErr result (what.new ≡ what.old) }
{
    let left = appended(alloc, what, words)?;
    let told = left.copy(alloc)?;
    *what = left;
    Ok(told)
}

/// Wishes this of the error that a hook shows. It fails only for want of memory; then nothing is wished.
fn wish_so(alloc: Global, wish: &Wish, hook: &mut ErrorHook) -> Result<(), Memory>
    requires { hook.old.wish ≡ Nothing }
    ensures wish { OnOk result (hook.new ≡ record hook.old { wish = wish.now }) }
    ensures refused { OnErr result (hook.new ≡ hook.old) }
{
    match wish {
        Wish::Nothing => Ok(()),
        Wish::Elevate => {
            hook.elevate();
            Ok(())
        }
        Wish::Critical(error) => hook.critical(alloc, error.get().copy(alloc)?),
    }
}

/// Wishes this of the error that a hook shows, and answers whether there was no memory for it.
fn wish_or_short(alloc: Global, wish: &Wish, hook: &mut ErrorHook) -> bool
    requires { hook.old.wish ≡ Nothing }
    ensures wish { result ≡ false → hook.new.wish ≡ wish.now }
    ensures error { hook.new.error ≡ hook.old.error }
    ensures told { hook.new.told ≡ hook.old.told }
{
    match wish_so(alloc, wish, hook) {
        Ok(()) => false,
        Err(_) => true,
    }
}

/// Asks for these acts, one by one, and answers whether there was no memory for one. Then it quits, and leaves out those behind
/// it.
fn perform_or_quit(alloc: Global, acts: &[ScriptAct], handler: &mut ActionHandler<'_>) -> bool
    requires fresh { handler.old.acts ≡ [] }
    ensures done { result ≡ false → handler.new ≡ record handler.old { acts = performed handler.old.past [] acts.now } }
    ensures same { handler.new ≡ record handler.old { acts = handler.new.acts } }
{
    match perform(alloc, acts, handler) {
        Ok(()) => false,
        Err(_) => {
            handler.quit();
            true
        }
    }
}

/// Asks for these acts, one by one. It fails only for want of memory.
fn perform(alloc: Global, acts: &[ScriptAct], handler: &mut ActionHandler<'_>) -> Result<(), Memory>
    requires fresh { handler.old.acts ≡ [] }
    ensures done { OnOk result (handler.new ≡ record handler.old { acts = performed handler.old.past [] acts.now }) }
    ensures same { handler.new ≡ record handler.old { acts = handler.new.acts } }
{
    let mut made = Vec::new(alloc);
    for act in acts {
        perform_one(alloc, act, &mut made, handler)?;
    }
    Ok(())
}

/// Asks for an act of a script, with the handles on the jobs that were created so far. It fails only for want of memory.
fn perform_one(
    alloc: Global,
    act: &ScriptAct,
    made: &mut Vec<Job>,
    handler: &mut ActionHandler<'_>,
) -> Result<(), Memory>
    requires made { AreMade handler.old.past made.old.items handler.old.acts }
    ensures done { OnOk result (handler.new ≡ record handler.old { acts = with_act handler.old.past handler.old.acts act.now }) }
    ensures same { handler.new ≡ record handler.old { acts = handler.new.acts } }
    ensures made { OnOk result (AreMade handler.old.past made.new.items handler.new.acts) }
{
    match act {
        ScriptAct::One(act) => perform_act(alloc, act, made, handler),
        ScriptAct::GetOrCreate(id, command) => get_or_create(alloc, *id, command, made, handler),
    }
}

/// Asks for an act, with the handles on the jobs that were created so far. It fails only for want of memory.
fn perform_act(
    alloc: Global,
    act: &Act<Wanted>,
    made: &mut Vec<Job>,
    handler: &mut ActionHandler<'_>,
) -> Result<(), Memory>
    requires made { AreMade handler.old.past made.old.items handler.old.acts }
    ensures done { OnOk result (handler.new ≡ record handler.old { acts = with_act handler.old.past handler.old.acts (One act.now) }) }
    ensures same { handler.new ≡ record handler.old { acts = handler.new.acts } }
    ensures made { OnOk result (AreMade handler.old.past made.new.items handler.new.acts) }
{
    match act {
        Act::Create(Wanted::New, command) => create(alloc, command, made, handler),
        Act::Ask(id, ask) => ask_or_not(alloc, *id, ask, made.as_slice(), handler),
        Act::Change(asked) => change(alloc, asked, handler),
        Act::Quit => {
            handler.quit();
            Ok(())
        }
        Act::QuitGracefully { signal, grace } => {
            handler.quit_gracefully(*signal, *grace);
            Ok(())
        }
    }
}

/// Creates a job that runs this command, and keeps the handle on it, where an id is left. It fails only for want of
/// memory.
fn create(
    alloc: Global,
    command: &Command,
    made: &mut Vec<Job>,
    handler: &mut ActionHandler<'_>,
) -> Result<(), Memory>
    requires made { AreMade handler.old.past made.old.items handler.old.acts }
    ensures done { OnOk result (handler.new ≡ record handler.old { acts = with_create handler.old.past handler.old.acts command.now }) }
    ensures same { handler.new ≡ record handler.old { acts = handler.new.acts } }
    ensures made { OnOk result (AreMade handler.old.past made.new.items handler.new.acts) }
{
    made.reserve(1)?;
    match handler.create_job(alloc, command.copy(alloc)?) {
        Ok((_, job)) => {
            made.push_reserved(job);
            Ok(())
        }
        Err(CreateRefused::IdsSpent) => Ok(()),
        Err(CreateRefused::Memory) => Err(Memory),
    }
}

/// Asks for the job of this id, which is made again where it isn't there, and keeps the handle on it. Where none was made
/// under this id nothing is asked for. It fails only for want of memory.
fn get_or_create(
    alloc: Global,
    id: Id,
    command: &Command,
    made: &mut Vec<Job>,
    handler: &mut ActionHandler<'_>,
) -> Result<(), Memory>
    requires made { AreMade handler.old.past made.old.items handler.old.acts }
    ensures done { OnOk result (handler.new ≡ record handler.old { acts = with_get handler.old.past handler.old.acts id command.now }) }
    ensures same { handler.new ≡ record handler.old { acts = handler.new.acts } }
    ensures made { OnOk result (AreMade handler.old.past made.new.items handler.new.acts) }
{
    made.reserve(1)?;
    match handler.get_or_create_job(alloc, id, command) {
        Ok(job) => {
            made.push_reserved(job);
            Ok(())
        }
        Err(GetRefused::UnknownId) => Ok(()),
        Err(GetRefused::Memory) => Err(Memory),
    }
}

/// Asks this of the job of this id, where it is there or was created before. It fails only for want of memory.
fn ask_or_not(
    alloc: Global,
    id: Id,
    ask: &Ask,
    made: &[Job],
    handler: &mut ActionHandler<'_>,
) -> Result<(), Memory>
    requires made { AreMade handler.old.past made.now handler.old.acts }
    ensures done { OnOk result (handler.new ≡ record handler.old { acts = with_ask handler.old.past handler.old.acts id ask.now }) }
    ensures same { handler.new ≡ record handler.old { acts = handler.new.acts } }
    ensures made { OnOk result (AreMade handler.old.past made.now handler.new.acts) }
{
    if let Some(job) = find_made(made, id) {
        return ask_of(alloc, job, ask, handler);
    }
    match handler.get_job(alloc, id)? {
        Some(job) => ask_of(alloc, &job, ask, handler),
        None => Ok(()),
    }
}

/// Asks for this change of the settings. It fails for want of memory, and where the revision can't be raised.
fn change(alloc: Global, change: &Change, handler: &mut ActionHandler<'_>) -> Result<(), Memory>
    ensures done { OnOk result (handler.new ≡ record handler.old { acts = handler.old.acts ++ Changes change.now ∷ [] }) }
    ensures same { handler.new ≡ record handler.old { acts = handler.new.acts } }
{
    match handler.change(alloc, change.copy(alloc)?) {
        Ok(()) => Ok(()),
        Err(_) => Err(Memory),
    }
}

/// The handle on the job of this id, where it is among these.
fn find_made(made: &[Job], id: Id) -> Option<&Job>
    ensures { option_map (λ job. job.now) result ≡ find (is_made id) made.now }
{
    made.iter().find(|job| job.id() == id)
}

/// Asks this of a job. It fails only for want of memory.
fn ask_of(
    alloc: Global,
    job: &Job,
    ask: &Ask,
    handler: &mut ActionHandler<'_>,
) -> Result<(), Memory>
    ensures done { OnOk result (handler.new ≡ record handler.old { acts = handler.old.acts ++ Asks job.now.id ask.now ∷ [] }) }
    ensures same { handler.new ≡ record handler.old { acts = handler.new.acts } }
{
    match handler.send(alloc, job, ask.copy(alloc)?) {
        Ok(_) => Ok(()),
        Err(_) => Err(Memory),
    }
}
