// The entries that were told.
ghost use Rattle.std.specs.Prelude.{◌≡◌, ◌∷◌, [], ◌+◌, ◌≤◌, OnOk};

use std::alloc::Global;
use std::marker::Model;
use wx_journal::Entry;
use wx_text::Memory;

/// The entries that were told. Contracts see them, the newest first, and the room that was taken for more.
#[derive(Drop)]
pub(crate) struct Told {
    entries: Vec<Entry>,
}

impl Model for Told {
    ghost use Rattle.std.specs.Prelude.{reverse, ◌-◌, vec_len, vec_capacity};
    ghost use Rattle.wx_journal.specs.Written.{Written};

    ghost Value = { Written };

    ghost view = { λ t. record { past = reverse t.entries.items; spare = vec_capacity t.entries - vec_len t.entries } };
}

impl Told {
    /// No entry. It takes no memory.
    pub(crate) fn new(alloc: Global) -> Told
        ensures { result.past ≡ [] }
    {
        Told {
            entries: Vec::new(alloc),
        }
    }

    /// Takes room for `n` entries more. It fails only for want of memory.
    pub(crate) fn reserve(&mut self, n: u64) -> Result<(), Memory>
        ensures same { self.new.past ≡ self.old.past }
        ensures room { OnOk result (n ≤ self.new.spare) }
        ensures kept { self.old.spare ≤ self.new.spare }
    {
        self.entries.reserve(n as usize)?;
        Ok(())
    }

    /// Adds an entry in room that was taken.
    pub(crate) fn push(&mut self, entry: Entry)
        requires { 1 ≤ self.old.spare }
        ensures past { self.new.past ≡ entry ∷ self.old.past }
        ensures room { self.new.spare + 1 ≡ self.old.spare }
    {
        self.entries.push_reserved(entry);
    }
}
