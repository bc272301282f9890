// A filter by patterns.
ghost use Rattle.std.specs.Prelude.{◌≡◌, ◌↔◌, ◌++◌, ◌∷◌, [], false, not, Err, IfOk, OnErr, OnOk};
ghost use Rattle.wx_paths.specs.Paths.{components};
ghost use Rattle.wx_patterns.specs.Ignoring.{Answers, ignored, passes};
ghost use Rattle.wx_patterns.specs.Lines.{is_pattern, pattern_of, patterns_of};

use crate::ignoring::is_ignored;
use crate::pattern::{Pattern, is_pattern, read_pattern};
use std::alloc::Global;
use thiserror::Error;
use wx_config::Filterer;
use wx_error::RuntimeError;
use wx_events::{Event, Priority};
use wx_keys::Tagged;
use wx_paths::components;
use wx_text::{List, Memory, Text};
use wx_words::TextPath;

/// Why a pattern isn't added.
#[derive(Clone, Copy, Debug, PartialEq, Eq, Error)]
pub enum AddError {
    /// The line is no pattern: nothing is left, or a part between slashes is empty, `.` or `..`.
    #[error("bad pattern")]
    Bad,
    /// There was no memory.
    #[error("memory")]
    Memory,
}

impl From<Memory> for AddError {
    ghost use Rattle.std.specs.Prelude.{◌≡◌};
    ghost use Rattle.wx_patterns.specs.declared.patterns.AddError.{AddError};

    ghost from_gives = { λ _ error. error ≡ AddError.Memory };

    fn from(_memory: Memory) -> AddError {
        AddError::Memory
    }
}

/// A filter by patterns: it ignores paths below its base. An event passes that has no path, or one that isn't ignored.
#[derive(Drop, Debug)]
pub struct Patterns {
    alloc: Global,
    base: List<Text>,
    patterns: List<Pattern>,
}

impl Patterns {
    /// No patterns yet, for paths below this base. It fails only for want of memory.
    pub fn new(alloc: Global, base: TextPath) -> Result<Patterns, Memory>
        ensures base { IfOk result (λ made. made.base ≡ components base) }
        ensures patterns { IfOk result (λ made. made.patterns ≡ []) }
    {
        Ok(Patterns {
            alloc,
            base: components(alloc, &base)?,
            patterns: List::new(alloc),
        })
    }

    /// Adds the pattern of a line behind the others, or refuses one that is none. It fails besides only for want of memory. A
    /// refusal changes nothing.
    pub fn add(&mut self, line: &Text) -> Result<(), AddError>
        ensures bad { (result ≡ Err AddError.Bad) ↔ (is_pattern line.now ≡ false) }
        ensures ok { OnOk result (self.new.patterns ≡ self.old.patterns ++ pattern_of line.now ∷ []) }
        ensures base { self.new.base ≡ self.old.base }
        ensures err { OnErr result (self.new.patterns ≡ self.old.patterns) }
    {
        if !is_pattern(line.as_slice()) {
            return Err(AddError::Bad);
        }
        let pattern = read_pattern(self.alloc, line.as_slice())?;
        self.patterns.push(pattern)?;
        Ok(())
    }

    /// Adds those of these lines that are patterns behind the others, in order. It fails only for want of memory; then some of them
    /// may stand.
    pub fn add_all(&mut self, lines: &[Text]) -> Result<(), Memory>
        ensures ok { OnOk result (self.new.patterns ≡ self.old.patterns ++ patterns_of lines.now) }
        ensures base { self.new.base ≡ self.old.base }
    {
        for line in lines {
            match self.add(line) {
                Ok(()) | Err(AddError::Bad) => {}
                Err(AddError::Memory) => return Err(Memory),
            }
        }
        Ok(())
    }

    /// Whether this path is ignored.
    fn is_ignored(&self, path: &TextPath) -> Result<bool, Memory>
        ensures { IfOk result (λ answer. answer ≡ ignored self.now.base self.now.patterns path.now) }
    {
        is_ignored(
            self.alloc,
            self.base.as_slice(),
            self.patterns.as_slice(),
            path,
        )
    }
}

/// The only error is want of memory.
impl Filterer for Patterns {
    ghost excludes = { λ s path answer. Answers (not (ignored s.base s.patterns path)) answer };

    ghost judges = { λ s event priority answer. Answers (passes s.base s.patterns event) answer };

    /// Whether this folder isn't ignored.
    fn check_dir(&self, path: &TextPath) -> Result<bool, RuntimeError>
        ensures { Answers (not (ignored self.now.base self.now.patterns path.now)) result }
    {
        Ok(!self.is_ignored(path)?)
    }

    /// Whether this event has no path, or one that isn't ignored.
    fn check_event(&self, event: &Event, _priority: Priority) -> Result<bool, RuntimeError>
        ensures { Answers (passes self.now.base self.now.patterns event.now) result }
    {
        let mut has_path = false;
        for (path, _) in event.paths() {
            if !self.is_ignored(path)? {
                return Ok(true);
            }
            has_path = true;
        }
        Ok(!has_path)
    }
}
