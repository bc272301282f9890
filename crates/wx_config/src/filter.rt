// Filters of events.
ghost use Rattle.std.specs.Prelude.{◌≡◌, ℕ, Bool, true, List, Result as AResult, Ok};
ghost use Rattle.wx_events.specs.declared.event.Event.{Event as AnEvent};
ghost use Rattle.wx_events.specs.declared.priority.Priority.{Priority as APriority};
ghost use Rattle.wx_config.specs.Filters.{PassesOr};
ghost use Rattle.wx_error.specs.declared.runtime.RuntimeError.{RuntimeError as AnError};

use wx_error::RuntimeError;
use wx_events::{Event, Priority};
use wx_words::TextPath;

/// Judges events, and the folders that may be watched for them.
pub trait Filterer {
    /// What it may answer about a folder besides that it passes.
    ghost excludes: { Self → List ℕ → AResult Bool AnError → Type 0 } = { λ _ _ _. ⊥ };

    /// What it may answer about an event.
    ghost judges: { Self → AnEvent → APriority → AResult Bool AnError → Type 0 };

    /// Whether this folder, and what is below it, may be watched. Each may, where a filter doesn't say otherwise.
    fn check_dir(&self, path: &TextPath) -> Result<bool, RuntimeError>
        ensures { PassesOr (excludes self.now path.now result) result }
    {
        Ok(true)
    }

    /// Whether this event passes.
    fn check_event(&self, event: &Event, priority: Priority) -> Result<bool, RuntimeError>
        ensures { judges self.now event.now priority result };
}

/// The filter that lets everything pass.
impl Filterer for () {
    ghost judges = { λ _ _ _ answer. answer ≡ Ok true };

    fn check_event(&self, event: &Event, priority: Priority) -> Result<bool, RuntimeError> {
        Ok(true)
    }
}

/// What is in the box answers.
impl Filterer for Box<dyn Filterer + Drop> {
    ghost excludes = { λ b path answer. (Filterer-box b).excludes b.value path answer };

    ghost judges = { λ b event priority answer. (Filterer-box b).judges b.value event priority answer };

    fn check_dir(&self, path: &TextPath) -> Result<bool, RuntimeError> {
        (**self).check_dir(path)
    }

    fn check_event(&self, event: &Event, priority: Priority) -> Result<bool, RuntimeError> {
        (**self).check_event(event, priority)
    }
}
