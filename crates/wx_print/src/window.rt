// The window of a journal, as its entries are read from the oldest on.
ghost use Rattle.std.specs.Prelude.{◌≡◌, ℕ, ◌≤◌, [], ◌∷◌, ◌++◌, IfOk, OnOk, if◌then◌else◌};
ghost use Rattle.wx_machine.specs.Journal.{is_among, unhanded};
ghost use Rattle.wx_print.specs.Window.{AreAtMost, handed_at, left};

use std::alloc::Global;
use std::collections::HashMap;
use std::marker::Model;
use wx_text::{List, Memory};

/// Of names that were handed, how many events had passed when that was last so.
type Handed = HashMap<u64, usize>;

/// The events that passed and were not handed. Contracts see their names, in order.
#[derive(Drop)]
pub(crate) struct Window {
    passed: Vec<u64>,
    handed: Handed,
}

impl Model for Window {
    ghost use Rattle.std.specs.Prelude.{ℕ, List, length};
    ghost use Rattle.wx_print.specs.Window.{AreAtMost, handed_at, left};

    ghost Value = { List ℕ };

    ghost view = { λ w. left (handed_at w.handed) 0 w.passed.items };

    ghost invariant = { λ w. AreAtMost (length w.passed.items) w.handed };
}

impl Window {
    /// The empty window. It takes no memory.
    pub(crate) fn new(alloc: Global) -> Window
        ensures { result ≡ [] }
    {
        Window {
            passed: Vec::new(alloc),
            handed: HashMap::new(alloc),
        }
    }

    /// Adds an event, by its name. It fails only for want of memory.
    pub(crate) fn join(&mut self, name: u64) -> Result<(), Memory>
        ensures { OnOk result (self.new ≡ self.old ++ name ∷ []) }
    {
        self.passed.push(name)?;
        Ok(())
    }

    /// The names of a batch leave. It fails only for want of memory.
    pub(crate) fn hand(&mut self, batch: &[u64]) -> Result<(), Memory>
        ensures { OnOk result (self.new ≡ unhanded batch.now self.old) }
    {
        let passed = self.passed.len();
        note_handed(batch, passed, &mut self.handed)
    }

    /// The names that are left, in order. It fails only for want of memory.
    pub(crate) fn to_list(&self, alloc: Global) -> Result<List<u64>, Memory>
        ensures { IfOk result (λ names. names ≡ self.now) }
    {
        let names = left(alloc, self.passed.as_slice(), &self.handed)?;
        Ok(List::from_vec(names))
    }
}

/// How many events had passed when one of this name was last handed, and 0 where none was.
fn handed_at(handed: &Handed, name: u64) -> usize
    ensures { result ≡ handed_at handed.now name }
{
    handed.get(&name).copied().unwrap_or(0)
}

/// Notes of each name of a batch that so many events had passed when it was handed.
fn note_handed(batch: &[u64], passed: usize, handed: &mut Handed) -> Result<(), Memory>
    ensures noted { OnOk result ((name : ℕ) → handed_at handed.new name ≡ (if is_among name batch.now then passed else handed_at handed.old name)) }
    ensures at_most { AreAtMost passed handed.old → AreAtMost passed handed.new }
{
    for name in batch {
        handed.insert(*name, passed)?;
    }
    Ok(())
}

/// Of names that passed, in order, those that passed after their last hand.
fn left(alloc: Global, passed: &[u64], handed: &Handed) -> Result<Vec<u64>, Memory>
    ensures { IfOk result (λ names. names.items ≡ left (handed_at handed.now) 0 passed.now) }
{
    let mut names = Vec::new(alloc);
    for (place, name) in passed.iter().enumerate() {
        if handed_at(handed, *name) <= place {
            names.push(*name)?;
        }
    }
    Ok(names)
}
