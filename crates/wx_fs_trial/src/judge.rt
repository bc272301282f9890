// What judges directories, of the tests.
ghost use Rattle.std.specs.Prelude.{◌≡◌};

use std::alloc::Global;
use wx_error::RuntimeError;
use wx_scan::DirCheck;
use wx_text::{Copies, Memory};
use wx_tree::Place;
use wx_words::TextPath;

/// Refuses these directories, and at a call, counted from 0. It fails at one directory, and at a call. It keeps what it was asked
/// about.
pub struct Refusing {
    pub alloc: Global,
    pub under: Vec<Place>,
    pub refused: Vec<TextPath>,
    pub failing: Option<TextPath>,
    pub refused_call: Option<usize>,
    pub failing_call: Option<usize>,
    pub asked: Vec<TextPath>,
}

// Its parts are dropped by one call: docs/DESIGN.md, "What proofs cost".
impl Drop for Refusing {
    fn drop(self) {
        let Refusing {
            alloc: _,
            under: _,
            refused: _,
            failing: _,
            refused_call: _,
            failing_call: _,
            asked: _,
        } = self;
    }
}

impl Refusing {
    /// Refuses nothing, and may be asked nowhere.
    pub fn new(alloc: Global) -> Refusing {
        Refusing {
            alloc,
            under: Vec::new(alloc),
            refused: Vec::new(alloc),
            failing: None,
            refused_call: None,
            failing_call: None,
            asked: Vec::new(alloc),
        }
    }

    fn note(&mut self, path: &TextPath) -> Result<(), Memory>
        ensures { self.new.under ≡ self.old.under }
    {
        self.asked.push(path.copy(self.alloc)?)?;
        Ok(())
    }

    fn judge(&mut self, path: &TextPath) -> Result<bool, RuntimeError>
        ensures { self.new.under ≡ self.old.under }
    {
        let call = self.asked.len();
        self.note(path)?;
        if self.failing_call == Some(call) {
            return Err(RuntimeError::Exit);
        }
        if self.refused_call == Some(call) {
            return Ok(false);
        }
        if let Some(failing) = &self.failing {
            if failing == path {
                return Err(RuntimeError::Exit);
            }
        }
        for refused in self.refused.as_slice() {
            if refused == path {
                return Ok(false);
            }
        }
        Ok(true)
    }
}

impl DirCheck for Refusing {
    ghost under = { λ d. d.under.items };

    ghost Base = { Unit {0} };

    ghost kept = { λ b d. Unit {0} };

    ghost agrees = { λ ok d. ⊥ };

    fn check_dir(&mut self, path: &TextPath) -> Result<bool, RuntimeError> {
        self.judge(path)
    }
}
