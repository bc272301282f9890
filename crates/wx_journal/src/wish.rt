// What an error handler wishes of the run.

use std::alloc::Global;
use wx_error::CriticalError;
use wx_text::{Boxed, Copies, Memory, Text};
use wx_words::{Spelled, Words, put_row, put_word, read_rows};

/// What an error handler wishes, of an error that it was shown.
#[derive(Debug)]
pub enum Wish {
    /// Nothing: the run goes on.
    Nothing,
    /// The run is to end with this error.
    Elevate,
    /// The run is to end with that error. `Exit` is to end it without one.
    Critical(Boxed<CriticalError>),
}

// Its parts are dropped by one call: docs/DESIGN.md, "What proofs cost".
impl Drop for Wish {
    fn drop(self) {
        match self {
            Wish::Nothing => {}
            Wish::Elevate => {}
            Wish::Critical(_) => {}
        }
    }
}

impl Copies for Wish {
    fn copy(&self, alloc: Global) -> Result<Wish, Memory> {
        Ok(match self {
            Wish::Nothing => Wish::Nothing,
            Wish::Elevate => Wish::Elevate,
            Wish::Critical(error) => Wish::Critical(error.copy(alloc)?),
        })
    }
}

#[tactic(auto, unfolding(crate::specs::Wishes::wish))]
impl Spelled for Wish {
    ghost use Rattle.wx_journal.specs.Wishes.{wish};

    ghost spelling = { wish };

    fn put_after(&self, out: &mut Text) -> Result<(), Memory> {
        match self {
            Wish::Nothing => put_word(b"none", out),
            Wish::Elevate => put_word(b"elevate", out),
            Wish::Critical(error) => put_row(b"critical", &error, out),
        }
    }

    fn read(alloc: Global, line: &mut Words) -> Result<Option<Wish>, Memory> {
        read_rows!(alloc, line;
            b"none" => Wish::Nothing,
            b"elevate" => Wish::Elevate,
            b"critical" (error) => Wish::Critical(error),
        )
    }
}
