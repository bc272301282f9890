// A recursor with its outside, for the tests.
ghost use Rattle.std.specs.Prelude.{◌≡◌, true, IfOk, IfSome};
ghost use Rattle.wx_holding.specs.Holding.{state_of};
ghost use Rattle.wx_step.specs.Rests.{IsAtRest};

use crate::shown::{put_error, put_guards, put_owners};
use std::alloc::Global;
use wx_fs_trial::{Changing, FailingBackend, Refusing, root, shown_paths};
use wx_holding::Held;
use wx_mem_tree::MemTree;
use wx_recursor::ShownError;
use wx_step::{asks_below, step};
use wx_text::{Copies, Memory};

/// The number of the filter that roots are set with.
const FILTER: u32 = 3;

/// A recursor with its outside, and what its steps showed so far.
pub struct Trial {
    pub alloc: Global,
    pub follow: bool,
    pub held: Held,
    pub back: FailingBackend,
    pub scan: Changing,
    pub dirs: Refusing,
    pub shown: String,
    pub rebuilds: u64,
}

// Its parts are dropped by one call: docs/DESIGN.md, "What proofs cost".
impl Drop for Trial {
    fn drop(self) {
        let Trial {
            alloc: _,
            follow: _,
            held: _,
            back: _,
            scan: _,
            dirs: _,
            shown: _,
            rebuilds: _,
        } = self;
    }
}

/// Behind the text, the words of each error, with a space behind them.
fn note_errors(alloc: Global, errors: &[ShownError], text: &mut String) -> Result<(), Memory> {
    for error in errors {
        put_error(alloc, error, text)?;
        text.push_str(" ")?;
    }
    Ok(())
}

impl Trial {
    /// Over an empty tree, with no links followed.
    pub fn new(alloc: Global) -> Result<Trial, Memory> {
        Ok(Trial {
            alloc,
            follow: false,
            held: Held::new(alloc),
            back: FailingBackend::new(alloc),
            scan: Changing::new(MemTree::new(alloc)?, MemTree::new(alloc)?, u64::MAX),
            dirs: Refusing::new(alloc),
            shown: String::new(alloc),
            rebuilds: 0,
        })
    }

    /// Sets the roots: `r` a recursive one, `n` one without what is below, with a comma between two, or `none`.
    pub fn reconcile(&mut self, roots: &str) -> Result<(), Memory> {
        let mut given = Vec::new(self.alloc);
        let mut under = Vec::new(self.alloc);
        for words in roots.split(", ") {
            let Some((kind, at)) = words.split_once(" ") else {
                continue;
            };
            let named = root(self.alloc, kind, at)?;
            if named.recursive {
                under.push(named.path.copy(self.alloc)?)?;
            }
            given.push(named)?;
        }
        self.dirs.under = under;
        self.held.reconcile(self.alloc, given, FILTER)
    }

    /// Does one step, and keeps what it showed. It says whether nothing is left that could be let go. None where it
    /// would ask beside the recursive roots.
    fn step(&mut self, at_rest: bool) -> Result<Option<bool>, Memory>
        requires { at_rest ≡ true → IsAtRest (state_of self.old.held) }
        ensures { IfOk result (λ end. IfSome end (λ rests. rests ≡ true → IsAtRest (state_of self.new.held))) }
    {
        if !asks_below(self.dirs.under.as_slice(), &self.held) {
            return Ok(None);
        }
        let shown = step(
            self.alloc,
            at_rest,
            self.follow,
            &mut self.held,
            &mut self.back,
            &mut self.scan,
            &mut self.dirs,
        )?;
        note_errors(self.alloc, shown.errors.as_slice(), &mut self.shown)?;
        if shown.asks_rebuild {
            self.rebuilds = self.rebuilds.saturating_add(1);
        }
        Ok(Some(shown.at_rest))
    }

    /// Steps until there is no work.
    pub fn settle(&mut self) -> Result<bool, Memory> {
        let mut at_rest = false;
        for _ in 0..1000u64 {
            if !self.held.has_work() {
                return Ok(true);
            }
            match self.step(at_rest)? {
                Some(rests) => at_rest = rests,
                None => return Ok(false),
            }
        }
        Ok(false)
    }

    /// What is registered, in order.
    pub fn registered(&self) -> Result<String, Memory> {
        shown_paths(self.alloc, self.back.registered.as_slice())
    }

    /// What is owned, in order.
    pub fn owned(&self) -> Result<String, Memory> {
        let mut out = String::new(self.alloc);
        put_owners(self.alloc, self.held.owners.as_slice(), &mut out)?;
        Ok(out)
    }

    /// What guards roots, in order.
    pub fn guards(&self) -> Result<String, Memory> {
        let mut out = String::new(self.alloc);
        put_guards(self.alloc, self.held.guards.as_slice(), &mut out)?;
        Ok(out)
    }

    /// What was to be watched no more, in order.
    pub fn unwatched(&self) -> Result<String, Memory> {
        shown_paths(self.alloc, self.back.unwatched.as_slice())
    }

    /// What was asked about, in order.
    pub fn asked(&self) -> Result<String, Memory> {
        shown_paths(self.alloc, self.dirs.asked.as_slice())
    }
}
