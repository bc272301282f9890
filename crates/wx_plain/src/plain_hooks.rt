// Hooks of which all but the choice of acts, and of what is ignored, is the default.
ghost use Rattle.std.specs.Prelude.{◌≡◌, ◌^◌, false, None};
ghost use Rattle.wx_patterns.specs.declared.patterns.Patterns.{Patterns as AnyPatterns};
ghost use Rattle.wx_plain.specs.Plain.{LeavesGiven, IsPlain, hooked};
ghost use Rattle.wx_plain.specs.PlainLaws.{leaves_given, stands_over};

use crate::chooses::Chooses;
use wx_command::Spawnable;
use wx_config::Filterer;
use wx_control::Id;
use wx_error::RuntimeError;
use wx_events::{Event, Priority};
use wx_hooks::{ActionHandler, ErrorHook, Hooks};
use wx_job::{JobHooks, JobTaskContext};
use wx_journal::HostFault;
use wx_patterns::Patterns;
use wx_text::Memory;
use wx_words::TextPath;

/// Hooks that let events and directories pass as patterns do, wish nothing of an error, and leave what is to be spawned as it is.
/// Functions do nothing and are ready, and error handlers of jobs do nothing. What acts a batch asks for is chosen by `A`, under each
/// number of an action handler. Where an act is refused they are short, and quit behind the acts that were chosen before. Where the
/// patterns want memory they are short, and answer the error `Memory`. They take none else, and don't tell their entries.
#[derive(Drop)]
pub struct PlainHooks<A> {
    chooser: A,
    patterns: Patterns,
    is_short: bool,
}

impl<A: Chooses> PlainHooks<A> {
    /// Hooks whose acts this chooses, and which let pass what these patterns don't ignore, before the first call.
    pub fn new(chooser: A, patterns: Patterns) -> PlainHooks<A>
        ensures chooser { result.chooser ≡ chooser }
        ensures patterns { result.patterns ≡ patterns }
        ensures short { result.is_short ≡ false }
    {
        PlainHooks {
            chooser,
            patterns,
            is_short: false,
        }
    }

    /// Whether an act was refused, or the patterns wanted memory.
    pub fn short(&self) -> bool
        ensures { result ≡ self.now.is_short }
    {
        self.is_short
    }
}

impl<A: Chooses> JobHooks for PlainHooks<A> {
    ghost Plan = { A.Plan × AnyPatterns };

    ghost seen = { λ s. hooked (A.plan s.chooser, s.patterns) s.is_short };

    ghost rule = { λ plan p e. IsPlain plan.1.base plan.1.patterns (A.rule plan.0) p e };

    ghost spawn_rule = { λ plan p given e. LeavesGiven given e };

    ghost stands = { λ s p. A.stands s.chooser p };

    fn reserve(&mut self, _n: u64) -> Result<(), Memory> {
        Ok(())
    }

    fn run(&mut self, _job: Id, _n: u32, _cx: &JobTaskContext<'_>) {}

    fn begin(&mut self, _job: Id, _n: u32, _cx: &JobTaskContext<'_>) {}

    fn poll(&mut self, _job: Id, _n: u32) -> bool {
        true
    }

    fn job_error(&mut self, _job: Id, _n: u32, _fault: HostFault) {}

    fn spawn_hook(
        &mut self,
        _job: Id,
        _n: u32,
        _what: &mut Spawnable,
        _cx: &JobTaskContext<'_>,
    ) -> Result<(), Memory> {
        Ok(())
    }

    ghost spawn_rule_is_rule = { λ plan p job n left command runs leaves. leaves_given plan.1.base plan.1.patterns (A.rule plan.0) p job n left command runs leaves };

    ghost stands_other = { λ s p e own other so_far. stands_over A.stands A.stands_other s.chooser p e own other so_far };
}

impl<A: Chooses> Hooks for PlainHooks<A> {
    fn check_event(
        &mut self,
        _n: u32,
        _name: u64,
        event: &Event,
        priority: Priority,
    ) -> Result<bool, RuntimeError> {
        let answer = self.patterns.check_event(event, priority);
        self.is_short = self.is_short || answer.is_err();
        answer
    }

    fn check_dir(&mut self, _n: u32, path: TextPath) -> Result<bool, RuntimeError> {
        let answer = self.patterns.check_dir(&path);
        self.is_short = self.is_short || answer.is_err();
        answer
    }

    fn error(&mut self, _n: u32, _hook: &mut ErrorHook) {}

    fn action(&mut self, n: u32, handler: &mut ActionHandler<'_>) {
        match self.chooser.choose(n, handler) {
            Ok(()) => {}
            Err(_) => {
                self.is_short = true;
                handler.quit();
            }
        }
    }
}
