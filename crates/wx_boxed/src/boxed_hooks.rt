// Hooks that hold boxes of their caller.
ghost use Rattle.std.specs.Prelude.{◌≡◌, ◌≤◌, ◌⊎◌, [], true, false, Some, IfSome, Ok as Well, Err as Fails, IfOk, OnErr, length, slice_get};
ghost use Rattle.wx_command.specs.Spawnables.{spawnable_of};
ghost use Rattle.wx_error.specs.declared.runtime.RuntimeError.TheVariants.{Memory as WantOfMemory};
ghost use Rattle.wx_journal.specs.declared.wish.Wish.TheVariants.{Nothing};
ghost use Rattle.wx_hooks.specs.ErrorHooks.{IsNewHook};
ghost use Rattle.wx_hooks.specs.Handled.{IsNewHandler};
ghost use Rattle.wx_boxed.specs.Boxed.{Held, IsUsual, LeavesUsual, MayAnswer, MayExclude, AreJudged};
ghost use Rattle.wx_boxed.specs.BoxedLaws.{leaves_usual, judged_over};

use crate::interfaces::{OnAction, OnError, OnFault, OnJob, OnSpawn};
use crate::told::Told;
use std::alloc::Global;
use wx_command::Spawnable;
use wx_config::Filterer;
use wx_control::Id;
use wx_error::RuntimeError;
use wx_events::{Event, Priority};
use wx_hooks::{ActionHandler, ErrorHook, Hooks};
use wx_job::{JobHooks, JobTaskContext};
use wx_journal::{Entry, HostFault};
use wx_text::{Copies, List, Memory};
use wx_words::TextPath;

/// Hooks that hold what their caller made: filters, action handlers, error handlers, job functions, spawn hooks and error
/// handlers of jobs. The number n names the n-th of its list, from 0. Under a number that they don't hold an event passes, a
/// directory is to be watched, nothing is asked for or wished, a function is ready, and what is spawned stays as it was. They
/// tell their entries. Where there is no memory to tell an error of a filter, they answer the error `Memory`. Where there is
/// none to tell what a spawn hook leaves, they answer that, and what is spawned stays as it was.
pub struct BoxedHooks {
    alloc: Global,
    filters: Vec<Box<dyn Filterer + Drop>>,
    actions: Vec<Box<dyn OnAction + Drop>>,
    errors: Vec<Box<dyn OnError + Drop>>,
    functions: Vec<Box<dyn OnJob + Drop>>,
    hooks: Vec<Box<dyn OnSpawn + Drop>>,
    faults: Vec<Box<dyn OnFault + Drop>>,
    told: Told,
}

// Its parts are dropped by one call: docs/DESIGN.md, "What proofs cost".
impl Drop for BoxedHooks {
    fn drop(self) {
        let BoxedHooks {
            alloc: _,
            filters: _,
            actions: _,
            errors: _,
            functions: _,
            hooks: _,
            faults: _,
            told: _,
        } = self;
    }
}

impl BoxedHooks {
    /// Hooks that hold these boxes, before the first call. It takes no memory.
    pub fn new(
        alloc: Global,
        filters: List<Box<dyn Filterer + Drop>>,
        actions: List<Box<dyn OnAction + Drop>>,
        errors: List<Box<dyn OnError + Drop>>,
        functions: List<Box<dyn OnJob + Drop>>,
        hooks: List<Box<dyn OnSpawn + Drop>>,
        faults: List<Box<dyn OnFault + Drop>>,
    ) -> BoxedHooks
        ensures filters { result.filters.items ≡ filters }
        ensures actions { result.actions.items ≡ actions }
        ensures errors { result.errors.items ≡ errors }
        ensures functions { result.functions.items ≡ functions }
        ensures hooks { result.hooks.items ≡ hooks }
        ensures faults { result.faults.items ≡ faults }
        ensures told { result.told.past ≡ [] }
    {
        BoxedHooks {
            alloc,
            filters: filters.into_vec(),
            actions: actions.into_vec(),
            errors: errors.into_vec(),
            functions: functions.into_vec(),
            hooks: hooks.into_vec(),
            faults: faults.into_vec(),
            told: Told::new(alloc),
        }
    }
}

impl JobHooks for BoxedHooks {
    ghost Plan = { Held };

    ghost seen = { λ s. record { plan = record { filters = length s.filters.items; actions = length s.actions.items; errors = length s.errors.items; functions = length s.functions.items; hooks = length s.hooks.items }; told = Some s.told.past; spare = s.told.spare; short = false; place = [] } };

    ghost rule = { λ held p e. IsUsual held p e };

    ghost spawn_rule = { λ held p given e. LeavesUsual held given e };

    ghost stands = { λ s p. AreJudged (λ filter event priority answer. (Filterer-box filter).judges filter.value event priority answer) (λ filter path answer. (Filterer-box filter).excludes filter.value path answer) s.filters.items p };

    fn reserve(&mut self, n: u64) -> Result<(), Memory> {
        self.told.reserve(n)
    }

    fn run(&mut self, job: Id, n: u32, cx: &JobTaskContext<'_>) {
        run_function(self.functions.as_mut_slice(), job, n, cx);
        self.told.push(Entry::Run { job, n });
    }

    fn begin(&mut self, job: Id, n: u32, cx: &JobTaskContext<'_>) {
        begin_function(self.functions.as_mut_slice(), job, n, cx);
        self.told.push(Entry::Begun { job, n });
    }

    fn poll(&mut self, job: Id, n: u32) -> bool {
        let ready = poll_function(self.functions.as_mut_slice(), job, n);
        self.told.push(Entry::Poll { job, n, ready });
        ready
    }

    fn spawn_hook(
        &mut self,
        job: Id,
        n: u32,
        what: &mut Spawnable,
        cx: &JobTaskContext<'_>,
    ) -> Result<(), Memory> {
        match change_and_tell(self.alloc, self.hooks.as_mut_slice(), job, n, what, cx) {
            Ok(left) => {
                let answer = Ok(left);
                self.told.push(Entry::Hook { job, n, answer });
                Ok(())
            }
            Err(want) => {
                let answer = Err(want);
                self.told.push(Entry::Hook { job, n, answer });
                Err(want)
            }
        }
    }

    fn job_error(&mut self, job: Id, n: u32, fault: HostFault) {
        show_fault(self.faults.as_mut_slice(), job, n, fault);
        let code = fault.0;
        self.told.push(Entry::JobError { job, n, code });
    }

    ghost spawn_rule_is_rule = { λ held p job n left command runs usual. leaves_usual held p job n left command runs usual };

    ghost stands_other = { λ s p e _ other stands. judged_over _ _ s.filters.items p e other stands };
}

impl Hooks for BoxedHooks {
    fn check_event(
        &mut self,
        n: u32,
        name: u64,
        event: &Event,
        priority: Priority,
    ) -> Result<bool, RuntimeError> {
        let (answer, told) = judge(self.alloc, self.filters.as_slice(), n, event, priority);
        self.told.push(Entry::Filter {
            n,
            name,
            answer: told,
        });
        answer
    }

    fn check_dir(&mut self, n: u32, path: TextPath) -> Result<bool, RuntimeError> {
        let (answer, told) = judge_dir(self.alloc, self.filters.as_slice(), n, &path);
        self.told.push(Entry::Dir {
            n,
            path,
            answer: told,
        });
        answer
    }

    fn error(&mut self, n: u32, hook: &mut ErrorHook) {
        show_error(self.errors.as_mut_slice(), n, hook);
        let entry = hook.shown(n);
        self.told.push(entry);
    }

    fn action(&mut self, n: u32, handler: &mut ActionHandler<'_>) {
        act(self.actions.as_mut_slice(), n, handler);
        let entry = handler.hand(n);
        self.told.push(entry);
    }
}

/// Calls the function of this number, where there is one.
fn run_function(functions: &mut [Box<dyn OnJob + Drop>], job: Id, n: u32, cx: &JobTaskContext<'_>) {
    if let Some(function) = functions.get_mut(n as usize) {
        function.run(job, cx);
    }
}

/// Begins the function of this number, where there is one.
fn begin_function(
    functions: &mut [Box<dyn OnJob + Drop>],
    job: Id,
    n: u32,
    cx: &JobTaskContext<'_>,
) {
    if let Some(function) = functions.get_mut(n as usize) {
        function.begin(job, cx);
    }
}

/// Whether the function of this number is ready, which it is where there is none.
fn poll_function(functions: &mut [Box<dyn OnJob + Drop>], job: Id, n: u32) -> bool
    ensures { length functions.old ≤ n → result ≡ true }
{
    match functions.get_mut(n as usize) {
        Some(function) => function.poll(job),
        None => true,
    }
}

/// Shows a fault to the error handler of this number, where there is one.
fn show_fault(faults: &mut [Box<dyn OnFault + Drop>], job: Id, n: u32, fault: HostFault) {
    if let Some(handler) = faults.get_mut(n as usize) {
        handler.fault(job, fault);
    }
}

/// Lets the hook of this number, where there is one, change what is about to be spawned. It fails only for want of memory,
/// and then leaves that as it was.
fn change(
    hooks: &mut [Box<dyn OnSpawn + Drop>],
    job: Id,
    n: u32,
    what: &mut Spawnable,
    cx: &JobTaskContext<'_>,
) -> Result<(), Memory>
    requires { what.old ≡ spawnable_of cx.now.command.now }
    ensures err { OnErr result (what.new ≡ what.old) }
    ensures usual { length hooks.old ≤ n → what.new ≡ what.old }
{
    match hooks.get_mut(n as usize) {
        Some(hook) => hook.hook(job, what, cx),
        None => Ok(()),
    }
}

/// Lets the hook of this number, where there is one, change what is about to be spawned, and answers what this then is. It
/// fails only for want of memory, and then leaves that as it was.
fn change_and_tell(
    alloc: Global,
    hooks: &mut [Box<dyn OnSpawn + Drop>],
    job: Id,
    n: u32,
    what: &mut Spawnable,
    cx: &JobTaskContext<'_>,
) -> Result<Spawnable, Memory>
    requires { what.old ≡ spawnable_of cx.now.command.now }
    ensures ok { IfOk result (λ told. what.new ≡ told) }
    ensures err { OnErr result (what.new ≡ what.old) }
    ensures usual { length hooks.old ≤ n → IfOk result (λ told. told ≡ what.old) }
{
    let mut left = what.copy(alloc)?;
    change(hooks, job, n, &mut left, cx)?;
    let told = left.copy(alloc)?;
    *what = left;
    Ok(told)
}

/// What the filter of this number answers, to be given and to be told. Where there is none the event passes.
fn judge(
    alloc: Global,
    filters: &[Box<dyn Filterer + Drop>],
    n: u32,
    event: &Event,
    priority: Priority,
) -> (Result<bool, RuntimeError>, Result<bool, RuntimeError>)
    ensures told { result.1 ≡ result.0 }
    ensures usual { length filters.now ≤ n → result.0 ≡ Well true }
    ensures judges { IfSome (slice_get filters.now n) (λ filter. MayAnswer (λ filter event priority answer. (Filterer-box filter).judges filter.value event priority answer) filter event.now priority result.0) }
{
    match filters.get(n as usize) {
        Some(filter) => twice(alloc, filter.check_event(event, priority)),
        None => (Ok(true), Ok(true)),
    }
}

/// What the filter of this number answers about a directory, to be given and to be told. Where there is none it is to be
/// watched.
fn judge_dir(
    alloc: Global,
    filters: &[Box<dyn Filterer + Drop>],
    n: u32,
    path: &TextPath,
) -> (Result<bool, RuntimeError>, Result<bool, RuntimeError>)
    ensures told { result.1 ≡ result.0 }
    ensures usual { length filters.now ≤ n → result.0 ≡ Well true }
    ensures judges { IfSome (slice_get filters.now n) (λ filter. MayExclude (λ filter path answer. (Filterer-box filter).excludes filter.value path answer) filter path.now result.0) }
{
    let Some(filter) = filters.get(n as usize) else {
        return (Ok(true), Ok(true));
    };
    twice(alloc, filter.check_dir(path))
}

/// An answer twice, or the error `Memory` where there was no memory for that.
fn twice(
    alloc: Global,
    answer: Result<bool, RuntimeError>,
) -> (Result<bool, RuntimeError>, Result<bool, RuntimeError>)
    ensures told { result.1 ≡ result.0 }
    ensures answer { (result.0 ≡ answer) ⊎ (result.0 ≡ Fails WantOfMemory) }
{
    match answer.copy(alloc) {
        Ok(told) => (answer, told),
        Err(_) => {
            // let go by generic code: the drop of a long enum is dear to prove
            drop(answer);
            (Err(RuntimeError::Memory), Err(RuntimeError::Memory))
        }
    }
}

/// Shows an error to the handler of this number, where there is one.
fn show_error(errors: &mut [Box<dyn OnError + Drop>], n: u32, hook: &mut ErrorHook)
    requires fresh { IsNewHook hook.old }
    ensures error { hook.new.error ≡ hook.old.error }
    ensures open { hook.new.told ≡ false }
    ensures usual { length errors.old ≤ n → hook.new.wish ≡ Nothing }
{
    if let Some(handler) = errors.get_mut(n as usize) {
        handler.error(hook);
    }
}

/// Hands a batch to the handler of this number, where there is one.
fn act(actions: &mut [Box<dyn OnAction + Drop>], n: u32, handler: &mut ActionHandler<'_>)
    requires fresh { IsNewHandler handler.old }
    ensures same { handler.new ≡ record handler.old { acts = handler.new.acts } }
    ensures usual { length actions.old ≤ n → handler.new.acts ≡ [] }
{
    if let Some(action) = actions.get_mut(n as usize) {
        action.act(handler);
    }
}
